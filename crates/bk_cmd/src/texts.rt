//! Microcode as text: `asm`, `dis` and `proto`.

use super::tests::{NOP, asked, numbers, shelf as shelf_of, sink as sink_of, words_of};
use super::*;
use crate::programs::image_named;
use bk_outer::MemSink;
use std::alloc::Global;
use std::test::Fail;

/// The outcome of a command on the files `a.bk` and `b.trace`, over a sink that never fails, and what the sink then has.
pub(crate) fn said(
    alloc: Global,
    words: &[&str],
    bytes: &[u8],
    trace: &str,
) -> Result<(Outcome, MemSink), Fail> {
    let mut shelf = shelf_of(alloc, bytes, trace, Vec::new(alloc))?;
    let mut sink = sink_of(alloc);
    let outcome = asked(alloc, &words_of(alloc, words)?, &mut shelf, &mut sink);
    Ok((outcome, sink))
}

#[test]
fn assemblies(rt: HostRuntime) -> Result<(), Fail> {
    let alloc = rt.alloc();
    let asm = ["asm", "a.bk"];
    let (outcome, sink) = said(alloc, &asm, b"nop\n", "")?;
    assert_eq!(rt; numbers(&outcome), [OK as u64, 0, 0, 0, 0, 24]);
    assert!(rt; sink.bytes() == NOP.as_slice());
    // A text, and the line, the column and the kind of its fault.
    let faults = [
        ("bi x\n", 1, 4, 26),
        ("; a", 1, 1, 29),
        ("nop\n wfq rex", 2, 6, 22),
    ];
    for (text, line, column, kind) in faults {
        let (outcome, sink) = said(alloc, &asm, text.as_bytes(), "")?;
        assert_eq!(rt;
            numbers(&outcome),
            [MALFORMED as u64, 1, line, column, kind, 0]
        );
        assert_eq!(rt; sink.bytes().len(), 0);
    }
    let mut long = String::new(alloc);
    for _ in 0..257 {
        long.push_str("nop\n")?;
    }
    let (outcome, _sink) = said(alloc, &asm, long.as_bytes(), "")?;
    assert_eq!(rt; numbers(&outcome), [TOO_LONG as u64, 1, 257, 1, 30, 0]);
    assert!(rt; fault_line(&outcome).as_str() == "bedrock: too long file 1");
    Ok(())
}

#[test]
fn disassemblies(rt: HostRuntime) -> Result<(), Fail> {
    let alloc = rt.alloc();
    let (outcome, text) = said(alloc, &["dis", "a.bk"], &image_named(alloc, "uc")?, "")?;
    assert_eq!(rt; outcome.status, OK);
    let beginning = "L000:\n  wfq resp,req\n  bk head Request L004\n";
    assert!(rt; text.bytes().starts_with(beginning.as_bytes()));
    let (outcome, sink) = said(alloc, &["dis", "a.bk"], b"BKUC", "")?;
    assert_eq!(rt; numbers(&outcome), [MALFORMED as u64, 1, 4, 0, 11, 0]);
    assert_eq!(rt; sink.bytes().len(), 0);
    // The text of an image is a text of that image.
    for name in ["uc", "uck", "mesi"] {
        let image = image_named(alloc, name)?;
        let (_outcome, text) = said(alloc, &["dis", "a.bk"], &image, "")?;
        let (outcome, again) = said(alloc, &["asm", "a.bk"], text.bytes(), "")?;
        assert_eq!(rt; outcome.status, OK);
        assert!(rt; again.bytes() == image.as_slice());
    }
    Ok(())
}
