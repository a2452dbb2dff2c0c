use super::*;
use bk_base::{Addr, Config, Op};
use std::alloc::{AllocError, Global};
use std::test::*;

/// What `fault_of` answers for a text without a fault.
const NONE: (u64, u64, u8) = (0, 0, 0);

/// The line, column and kind of the first fault.
fn fault_of(alloc: Global, text: &[u8]) -> Result<(u64, u64, u8), AllocError> {
    match read_trace(alloc, text) {
        Ok(_) => Ok(NONE),
        Err(TraceFault::Bad { line, column, kind }) => Ok((line, column, kind)),
        Err(TraceFault::Memory) => Err(AllocError),
    }
}

fn addr(value: u64) -> Result<Addr, Fail> {
    Ok(Addr::make(value).ok_or("no address")?)
}

#[test]
fn reads_values(rt: HostRuntime) -> Result<(), Fail> {
    let text =
        b"# two caches\n\nconfig 2 0x4 2\r\n0\tS 0x40 0xfFffFFFFffffffff # all ones\n 1 UL 1096#tail\n0 EV 64\n1 L 0xFFFFFFFFF8\n\
        00 US 0 18446744073709551615";
    let trace = read_trace(rt.alloc(), text)
        .ok()
        .ok_or("the trace is read")?;
    assert_eq!(rt; Some(trace.config()), Config::make(2, 4, 2).ok());
    let lines = trace.lines();
    assert_eq!(rt; lines.len(), 5);
    assert_eq!(rt; lines[0], (0, Op::Store(addr(0x40)?, u64::MAX)));
    assert_eq!(rt; lines[1], (1, Op::UcLoad(addr(0x448)?)));
    assert_eq!(rt; lines[2], (0, Op::Evict(addr(0x40)?)));
    assert_eq!(rt; lines[3], (1, Op::Load(addr(0xff_ffff_fff8)?)));
    assert_eq!(rt; lines[4], (0, Op::UcStore(addr(0)?, u64::MAX)));
    assert!(rt; trace.config().caches == 2);
    let operations = trace.operations(rt.alloc(), 1)?;
    assert_eq!(rt; operations.len(), 2);
    assert_eq!(rt; operations[0], Op::UcLoad(addr(0x448)?));
    assert_eq!(rt; operations[1], Op::Load(addr(0xff_ffff_fff8)?));
    assert_eq!(rt; (trace.count(0), trace.count(1)), (3, 2));
    assert!(rt; trace.operation(0, 2) == Some(&lines[4].1));
    assert!(rt; trace.operation(1, 0) == Some(&lines[1].1));
    assert!(rt; trace.operation(1, 2).is_none());
    Ok(())
}

#[test]
fn finds_the_first_fault(rt: HostRuntime) -> Result<(), Fail> {
    for (text, fault) in [
        (b"config 2 4 2\n0 L 64\n".as_slice(), NONE),
        (b"config 1 1 1".as_slice(), NONE),
        (b"\n  # hello\nconfig 1 1 1\n\n0 EV 0x0\n".as_slice(), NONE),
        (b"config 1 1 1\r\n0 L 0x0\r\n".as_slice(), NONE),
        (
            b"config 1 1 1\n0 S 0x0 00000000000000000001\n".as_slice(),
            NONE,
        ),
        (b"config 0x1 0x40 0x8\n0x0 US 0x8 0xAbC#\n".as_slice(), NONE),
        (
            b"config 2 4 2\n0 S 0x10000000000 1\n".as_slice(),
            (2, 5, 44),
        ),
        (b"config 2 4 2\n0 UL 0x4\n".as_slice(), (2, 6, 44)),
        (b"config 2 4 2\n0 L 0x0 \x7f\n".as_slice(), (2, 9, 40)),
        (b"config 2 4 2\n0 L 0\x01\n".as_slice(), (2, 5, 44)),
        (b"config 2 4 2\n0 L # \x80\n".as_slice(), (2, 7, 40)),
        (b"config 2 4 2\n0 L 0 \r\r\n".as_slice(), (2, 7, 40)),
        (b"config 2 4 2\n0 L 8\r".as_slice(), (2, 5, 44)),
        (b"\x0b\n".as_slice(), (1, 1, 40)),
        (b"config 2 4 2\n2 L 0x0\n".as_slice(), (2, 1, 42)),
        (b"config 2 4 2\nx L 0x0\n".as_slice(), (2, 1, 42)),
        (b"config 2 4 2\n0 X 0x0\n".as_slice(), (2, 3, 43)),
        (b"config 2 4 2\n0 l 0x0\n".as_slice(), (2, 3, 43)),
        (b"config 2 4 2\n0\n".as_slice(), (2, 2, 43)),
        (b"config 2 4 2\n0 L\n".as_slice(), (2, 4, 44)),
        (b"config 2 4 2\n0 S 0x0\n".as_slice(), (2, 8, 45)),
        (b"config 2 4 2\n0 S 0x0 # c\n".as_slice(), (2, 12, 45)),
        (
            b"config 2 4 2\n0 S 0x0 18446744073709551616\n".as_slice(),
            (2, 9, 45),
        ),
        (
            b"config 1 1 1\n0 S 0x0 000000000000000000001\n".as_slice(),
            (2, 9, 45),
        ),
        (b"config 2 4 2\n0 L 0x0 1\n".as_slice(), (2, 9, 46)),
        (b"config 2 4 2 1\n".as_slice(), (1, 14, 46)),
        (b"config 2 ; x\n".as_slice(), (1, 10, 41)),
        (b"config 2 # c\n".as_slice(), (1, 13, 41)),
        (b"config 2 3 2\n".as_slice(), (1, 10, 41)),
        (b"config 2 4\n".as_slice(), (1, 11, 41)),
        (b"config 2 4 9\n".as_slice(), (1, 12, 41)),
        (b"config 0 4 2\n".as_slice(), (1, 8, 41)),
        (b"Config 1 1 1\n".as_slice(), (1, 1, 41)),
        (b"0 L 0x0\n".as_slice(), (1, 1, 41)),
        (b"# \x01\n".as_slice(), (1, 1, 41)),
        (b"\n# \x01\n\n".as_slice(), (1, 1, 41)),
        (b"\n# \x01\nconfig 1 1 1\n".as_slice(), (2, 3, 40)),
        (b"".as_slice(), (1, 1, 41)),
    ] {
        assert_eq!(rt; fault_of(rt.alloc(), text)?, fault, "{text:?}");
    }
    Ok(())
}

#[test]
fn counts_operations(rt: HostRuntime) -> Result<(), Fail> {
    let mut text = Vec::new(rt.alloc());
    text.extend_from_slice(b"config 1 1 1\n")?;
    for _ in 0..OPERATION_LIMIT {
        text.extend_from_slice(b"0 US 0x123456788 0x123456789abcdef0\n")?;
    }
    assert_eq!(rt; fault_of(rt.alloc(), &text)?, NONE);
    text.extend_from_slice(b"  0 L 8")?;
    assert_eq!(rt; fault_of(rt.alloc(), &text)?, (10_002, 3, 47));
    Ok(())
}

#[test]
fn writes_what_is_drawn(rt: HostRuntime) -> Result<(), Fail> {
    let config = Config::make(2, 4, 2).ok().ok_or("no configuration")?;
    let trace = generate(rt.alloc(), 7, config, 1)?;
    let text = write_trace(rt.alloc(), &trace)?;
    assert!(rt; text.as_slice() == b"config 2 4 2\n1 S 0x5e8 1\n".as_slice());
    let trace = generate(rt.alloc(), 1, config, 3)?;
    let text = write_trace(rt.alloc(), &trace)?;
    assert!(rt;
        text.as_slice() == b"config 2 4 2\n1 S 0x658 1\n1 S 0x4f8 2\n1 EV 0x218\n".as_slice()
    );
    let again = read_trace(rt.alloc(), &text)
        .ok()
        .ok_or("the text is read")?;
    assert_eq!(rt; again.lines().len(), 3);
    let large = generate(rt.alloc(), u32::MAX, config, 10_000)?;
    let text = write_trace(rt.alloc(), &large)?;
    let again = read_trace(rt.alloc(), &text)
        .ok()
        .ok_or("the text is read")?;
    assert!(rt; again.lines() == large.lines());
    Ok(())
}
