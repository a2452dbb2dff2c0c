use super::*;
use bk_base::{Addr, Coh};
use std::test::Fail;

/// `Rd` of cache 1 for the block at 0x40.
const RD: [u8; 16] = [0x01, 0x01, 0xf0, 0, 0, 0, 0, 0, 0x40, 0, 0, 0, 0, 0, 0, 0];

/// `UcWr` of cache 0: 7 to the word at 0x40.
const UC_WR: [u8; 24] = [
    0x04, 0x00, 0xf0, 0, 0, 0, 0, 0, 0x40, 0, 0, 0, 0, 0, 0, 0, 0x07, 0, 0, 0, 0, 0, 0, 0,
];

fn at(value: u64) -> Result<Addr, Fail> {
    Ok(Addr::make(value).ok_or("the address is one")?)
}

fn rd() -> Result<Message, Fail> {
    let row = Row::Rd {
        from: 1,
        to: ENGINE,
        way: 0,
        addr: at(0x40)?,
    };
    Ok(Message::make(row).ok_or("Rd is in range")?)
}

fn uc_wr() -> Result<Message, Fail> {
    let row = Row::UcWr {
        from: 0,
        to: ENGINE,
        addr: at(0x40)?,
        word: 7,
    };
    Ok(Message::make(row).ok_or("UcWr is in range")?)
}

/// The 40 bytes of `Rd` and `UcWr`.
fn stream() -> [u8; 40] {
    let mut bytes = [0; 40];
    bytes[..16].copy_from_slice(&RD);
    bytes[16..].copy_from_slice(&UC_WR);
    bytes
}

#[test]
fn spellings(rt: HostRuntime) -> Result<(), Fail> {
    let packet = encode(&rd()?, 5);
    assert_eq!(rt; packet.bytes.as_slice(), RD.as_slice());
    assert_eq!(rt; packet.stamp, 5);
    assert_eq!(rt; encode(&uc_wr()?, 0).bytes.as_slice(), UC_WR.as_slice());
    assert_eq!(rt; decode(&stream()), Ok((rd()?, 16)));
    assert_eq!(rt; decode(&UC_WR), Ok((uc_wr()?, 24)));
    assert_eq!(rt;
        Message::default().row(),
        Row::Done {
            from: ENGINE,
            to: 0,
            addr: at(0)?
        }
    );
    Ok(())
}

#[test]
fn ranges(rt: HostRuntime) -> Result<(), Fail> {
    // The block at 0xffffffffc0, granted in each state that may be granted.
    for state in [Coh::S, Coh::E, Coh::F, Coh::M] {
        let row = Row::Blk {
            from: ENGINE,
            to: 15,
            way: 7,
            state,
            addr: at(0xff_ffff_ffc0)?,
            words: [1, 2, 3, 4, 5, 6, 7, u64::MAX],
        };
        let message = Message::make(row).ok_or("Blk is in range")?;
        let bytes = encode(&message, 0).bytes;
        assert_eq!(rt; bytes.len(), 80);
        assert_eq!(rt; bytes.as_slice()[4], state.code());
        assert_eq!(rt; decode(bytes.as_slice()), Ok((message, 80)));
    }
    let addr = at(0x48)?;
    let off = [
        // A state that StWb has not, a seventeenth cache, the memory for the engine, a word's address.
        Row::StWb {
            from: ENGINE,
            to: 0,
            state: Coh::F,
            addr: at(0)?,
        },
        Row::Inv {
            from: ENGINE,
            to: 16,
            addr: at(0)?,
        },
        Row::CohAck {
            from: 0,
            to: MEMORY,
            addr: at(0)?,
        },
        Row::Read {
            from: ENGINE,
            to: MEMORY,
            addr,
        },
    ];
    for row in off {
        assert_eq!(rt; Message::make(row), None);
    }
    let row = Row::UcDone {
        from: ENGINE,
        to: 0,
        addr,
    };
    assert_eq!(rt; Message::make(row).map(Message::row), Some(row));
    Ok(())
}

#[test]
fn faults(rt: HostRuntime) {
    assert_eq!(rt; decode(&[]), Err(MsgFault::Short(1)));
    for length in 1..16 {
        assert_eq!(rt; decode(&RD[..length]), Err(MsgFault::Short(16)));
    }
    let changed = [
        (0, 0x99, MsgFault::Kind(0x99)),
        (0, 0x00, MsgFault::Kind(0)),
        (1, 16, MsgFault::Field(1)),
        (2, 0, MsgFault::Field(2)),
        (3, 8, MsgFault::Field(3)),
        (4, 1, MsgFault::Reserved(4)),
        (7, 1, MsgFault::Reserved(7)),
        (8, 0x41, MsgFault::Field(8)),
        (13, 1, MsgFault::Field(13)),
        (15, 1, MsgFault::Field(15)),
    ];
    for (place, byte, fault) in changed {
        let mut bytes = RD;
        if let Some(changed) = bytes.get_mut(place) {
            *changed = byte;
        }
        assert_eq!(rt; decode(&bytes), Err(fault));
    }
}

#[test]
fn any_cut(rt: HostRuntime) -> Result<(), Fail> {
    let bytes = stream();
    for first in 0..41 {
        for second in first..41 {
            let mut feed = Feed::new();
            let mut out = Vec::new(rt.alloc());
            assert_eq!(rt; feed.feed(&bytes[..first], &mut out), Ok(()));
            assert_eq!(rt; feed.feed(&bytes[first..second], &mut out), Ok(()));
            assert_eq!(rt; feed.feed(&bytes[second..], &mut out), Ok(()));
            assert_eq!(rt; out.as_slice(), [rd()?, uc_wr()?].as_slice());
            assert_eq!(rt; feed.fed(), 40);
            assert_eq!(rt; feed.finish(), Ok(()));
        }
    }
    Ok(())
}

#[test]
fn bad_message(rt: HostRuntime) -> Result<(), Fail> {
    let mut feed = Feed::new();
    let mut out = Vec::new(rt.alloc());
    let bad = (16, MsgFault::Kind(0x99));
    assert_eq!(rt; feed.feed(&RD, &mut out), Ok(()));
    assert_eq!(rt;
        feed.feed(&[0x99], &mut out),
        Err(FeedFault::Bad(bad.0, bad.1))
    );
    assert_eq!(rt; feed.feed(&RD, &mut out), Err(FeedFault::Bad(bad.0, bad.1)));
    assert_eq!(rt; out.as_slice(), [rd()?].as_slice());
    assert_eq!(rt; feed.fed(), 17);
    assert_eq!(rt; feed.finish(), Err(FeedEnd::Bad(bad.0, bad.1)));
    Ok(())
}

#[test]
fn cut_off(rt: HostRuntime) {
    let mut feed = Feed::new();
    let mut out = Vec::new(rt.alloc());
    assert_eq!(rt; feed.finish(), Ok(()));
    assert_eq!(rt; feed.feed(&RD[..15], &mut out), Ok(()));
    assert!(rt; out.is_empty());
    assert_eq!(rt; feed.finish(), Err(FeedEnd::Cut(0)));
}
