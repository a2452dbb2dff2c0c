use super::*;
use bk_base::{Addr, Coh, Config, Op};
use bk_msg::Message;
use std::test::Fail;

#[test]
fn fills_between_any_two_of_sixteen_caches(rt: HostRuntime) -> Result<(), Fail> {
    let config = Config {
        caches: 16,
        sets: 4,
        ways: 2,
    };
    let addr = Addr::make(0x48).ok_or("no address")?;
    let words = [5, 6, 7, 8, 0, 0, 0, 0];
    let mut hardware = Hardware::make(rt.alloc(), config)?;
    for (cache, way) in [(12, 0), (15, 1)] {
        let op = Op::Load(addr);
        assert!(rt; hardware.step(&[], &Event::Issue { cache, way, op })?);
    }
    assert_eq!(rt; hardware.next_request(13), Some(15));
    let granted = Message::blk(12, 0, Coh::E, addr, words);
    let asked = Message::st_tr(12, Coh::S, 15, 1, Coh::S, addr);
    hardware.deliver(Channel::Command { to: 12 }, &granted)?;
    hardware.deliver(Channel::Command { to: 12 }, &asked)?;
    assert!(rt; hardware.step(&[], &Event::Command { cache: 12 })?);
    assert!(rt; hardware.step(&[], &Event::Command { cache: 12 })?);
    let fill = Message::fill(12, 15, 1, Coh::S, addr, words);
    assert_eq!(rt; hardware.sent(), [fill].as_slice());
    // One channel more for each of the other words of marks, and the last channel of all.
    for (to, from) in [(0, 3), (4, 1), (9, 15), (15, 15)] {
        hardware.deliver(Channel::Fill { to, from }, &fill)?;
    }
    for (start, place) in [(0, 3), (4, 65), (66, 159), (160, 252), (253, 255)] {
        assert_eq!(rt; hardware.next_fill(start), Some(place), "from {start}");
    }
    assert_eq!(rt; hardware.next_fill(256), None);
    assert!(rt; hardware.step(&[], &Event::Fill { to: 15, from: 12 })?);
    assert_eq!(rt; hardware.next_fill(160), Some(255));
    assert_eq!(rt; hardware.completed(15), 1);
    Ok(())
}
