//! Reads and writes that fail, at each call in turn.

use super::tests::{
    TWO_OPERATIONS, TWO_OPERATIONS_REPORT, asked, numbers, shelf as shelf_of, sink as sink_of,
    words, words_of,
};
use super::*;
use crate::programs::image_named;
use bk_outer::MemSink;
use std::alloc::Global;
use std::test::Fail;

// A replay reads each file once, so a third read isn't made.
#[test]
fn reads_that_fail(rt: HostRuntime) -> Result<(), Fail> {
    let alloc = rt.alloc();
    // The read that fails, the status and the file, how much is written, and what is told.
    let cases = [
        (1, READ_FAULT, 1, "", "bedrock: read fault file 1"),
        (2, READ_FAULT, 2, "", "bedrock: read fault file 2"),
        (3, OK, 0, TWO_OPERATIONS_REPORT, ""),
    ];
    for (call, status, file, report, line) in cases {
        let image = image_named(alloc, "mesi")?;
        let mut shelf = shelf_of(alloc, &image, TWO_OPERATIONS, vec![in alloc; call]?)?;
        let mut sink = sink_of(alloc);
        let outcome = asked(alloc, &words(alloc)?, &mut shelf, &mut sink);
        let written = report.len() as u64;
        assert_eq!(rt; numbers(&outcome), [status as u64, file, 0, 0, 0, written]);
        assert!(rt; sink.bytes() == report.as_bytes());
        assert!(rt; fault_line(&outcome).as_str() == line);
    }
    Ok(())
}

/// The outcome of a replay of the two operations under `mesi` over a sink that takes 50 bytes at a time and fails at one call, and what the
/// sink then has.
fn replayed(alloc: Global, mode: &str, failing: u64) -> Result<(Outcome, MemSink), Fail> {
    let image = image_named(alloc, "mesi")?;
    let mut shelf = shelf_of(alloc, &image, TWO_OPERATIONS, Vec::new(alloc))?;
    let mut sink = MemSink::make(alloc, 50, vec![in alloc; failing]?);
    let words = words_of(alloc, &["replay", mode, "a.bk", "b.trace"])?;
    let outcome = asked(alloc, &words, &mut shelf, &mut sink);
    Ok((outcome, sink))
}

// A replay hands each byte over once, and after the last one makes no call. The log is a text of its own, and the report the next.
#[test]
fn writes_that_fail(rt: HostRuntime) -> Result<(), Fail> {
    let alloc = rt.alloc();
    for mode in ["serial", "log"] {
        // Calls are counted from 1, so none fails.
        let (_outcome, whole) = replayed(alloc, mode, 0)?;
        assert!(rt; whole.bytes().ends_with(TWO_OPERATIONS_REPORT.as_bytes()));
        let due = whole.bytes().len();
        let log = due.saturating_sub(TWO_OPERATIONS_REPORT.len());
        assert_eq!(rt; log == 0, mode == "serial");
        let mut written = 0usize;
        for call in 1..1000u64 {
            let (outcome, sink) = replayed(alloc, mode, call)?;
            let (status, line) = if written < due {
                (WRITE_FAULT, "bedrock: write fault")
            } else {
                (OK, "")
            };
            let answer = [status as u64, 0, 0, 0, 0, written as u64];
            assert_eq!(rt; numbers(&outcome), answer, "{mode} {call}");
            assert!(rt; fault_line(&outcome).as_str() == line);
            assert_eq!(rt; outcome.events.len(), 53);
            assert_eq!(rt; sink.bytes().len(), written);
            assert!(rt; whole.bytes().starts_with(sink.bytes()));
            if status == OK {
                break;
            }
            let end = if written < log { log } else { due };
            written = written.saturating_add(50).min(end);
        }
        assert_eq!(rt; written, due);
    }
    Ok(())
}
