//! Files that end too early, go on too long, or are too large. The expected answers are those of the pages: faults of images and of traces
//! from FILES.md, of texts from ASSEMBLY.md, and the reports by hand, event by event, from EVENTS.md and the microcode.

use super::tests::{EMPTY_REPORT, asked, numbers, sink as sink_of, words_of};
use super::texts::said;
use super::*;
use crate::programs::image_named;
use bk_outer::MemShelf;
use std::test::Fail;

/// Two caches that share a word: `data/share.trace` of the program.
const SHARED: &str = "config 2 4 2\n0 L 0x0\n0 S 0x0 5\n1 L 0x0\n";

/// The reports of its first operations under `mesi`: none, one, two, or all three. The load is served in 17 instructions, from place 0
/// back to it, and its CohAck taken in 4. The store finds the block in E. Where the other load waits, it is deferred in 4 and the CohAck
/// taken in 3. Then it takes 11 to ask for the write-back, 6 to take it, 11 to send the block on, and 4 for its own CohAck.
const REPORTS: [&str; 4] = [
    EMPTY_REPORT,
    "\
0 L 0x0 = 0
events issue 1 command 1 fill 0 memory 1 engine 21
messages request 1 command 1 fill 0 response 1 memout 1 memin 1
cache 0 set 0 way 0 tag 0x0 E
end rested
",
    "\
0 L 0x0 = 0
0 S 0x0 5
events issue 2 command 1 fill 0 memory 1 engine 21
messages request 1 command 1 fill 0 response 1 memout 1 memin 1
cache 0 set 0 way 0 tag 0x0 M
end rested
",
    "\
0 L 0x0 = 0
0 S 0x0 5
1 L 0x0 = 5
events issue 3 command 3 fill 0 memory 3 engine 56
messages request 2 command 3 fill 0 response 3 memout 3 memin 2
cache 0 set 0 way 0 tag 0x0 S
cache 1 set 0 way 0 tag 0x0 S
end rested
",
];

/// Of `SHARED` cut at each length from 0 on: how many operations it has, or the line, the column and the kind of its fault.
const CUT_TRACES: [Result<usize, (u64, u64, u64)>; 40] = [
    // No word, and `c` to `confi`, which isn't the first word of a configuration.
    Err((1, 1, 41)),
    Err((1, 1, 41)),
    Err((1, 1, 41)),
    Err((1, 1, 41)),
    Err((1, 1, 41)),
    Err((1, 1, 41)),
    // `config` to `config 2 4` and a space: the next number is missing, behind the line.
    Err((1, 7, 41)),
    Err((1, 8, 41)),
    Err((1, 9, 41)),
    Err((1, 10, 41)),
    Err((1, 11, 41)),
    Err((1, 12, 41)),
    // `config 2 4 2`, without and with the line's end.
    Ok(0),
    Ok(0),
    // `0` and `0 `: the operation is missing. `0 L` and `0 L `: the address is.
    Err((2, 2, 43)),
    Err((2, 3, 43)),
    Err((2, 4, 44)),
    Err((2, 5, 44)),
    // `0 L 0`, `0 L 0x`, which is no number, and `0 L 0x0`.
    Ok(1),
    Err((2, 5, 44)),
    Ok(1),
    Ok(1),
    // `0` to `0 S `, as above.
    Err((3, 2, 43)),
    Err((3, 3, 43)),
    Err((3, 4, 44)),
    Err((3, 5, 44)),
    // `0 S 0` without a value, `0 S 0x`, and `0 S 0x0` and `0 S 0x0 ` without a value.
    Err((3, 6, 45)),
    Err((3, 5, 44)),
    Err((3, 8, 45)),
    Err((3, 9, 45)),
    // `0 S 0x0 5`.
    Ok(2),
    Ok(2),
    // `1` to `1 L `, as above.
    Err((4, 2, 43)),
    Err((4, 3, 43)),
    Err((4, 4, 44)),
    Err((4, 5, 44)),
    // `1 L 0`, `1 L 0x`, and `1 L 0x0`.
    Ok(3),
    Err((4, 5, 44)),
    Ok(3),
    Ok(3),
];

#[test]
fn traces_that_are_cut(rt: HostRuntime) -> Result<(), Fail> {
    let alloc = rt.alloc();
    let image = image_named(alloc, "mesi")?;
    let words = ["replay", "serial", "a.bk", "b.trace"];
    for (length, cut) in CUT_TRACES.iter().enumerate() {
        let trace = SHARED.get(..length).ok_or("its first bytes")?;
        let (outcome, sink) = said(alloc, &words, &image, trace)?;
        match cut {
            Ok(operations) => {
                let report = REPORTS.get(*operations).ok_or("a report")?;
                let written = report.len() as u64;
                assert_eq!(rt;
                    numbers(&outcome),
                    [OK as u64, 0, 0, 0, 0, written],
                    "{length}"
                );
                assert!(rt; sink.bytes() == report.as_bytes(), "{length}");
            }
            Err((line, column, kind)) => {
                let fault = [MALFORMED as u64, 2, *line, *column, *kind, 0];
                assert_eq!(rt; numbers(&outcome), fault, "{length}");
                assert_eq!(rt; sink.bytes().len(), 0, "{length}");
            }
        }
    }
    Ok(())
}

/// The commands that read an image, and how what they write of `mesi` ends. Its last instruction branches to place 19.
const READERS: [(&[&str], &str); 3] = [
    (&["verify", "a.bk"], "accepted\n"),
    (&["dis", "a.bk"], "  bi L019\n"),
    (&["replay", "serial", "a.bk", "b.trace"], "end rested\n"),
];

/// What is answered to the first bytes of `mesi`'s image, with one more byte behind them or none: the status, the place and the kind. The
/// file has so many bytes in all. Only where the byte completes a field of the header, or follows the whole image, is it looked at.
fn answer_to_cut(size: usize, added: Option<u8>) -> (u8, u64, u64) {
    match (size, added) {
        (4, Some(_)) => (MALFORMED, 0, 1),
        (5, Some(_)) => (MALFORMED, 4, 2),
        (6, Some(0xff)) => (MALFORMED, 5, 3),
        (7, Some(0xff)) => (MALFORMED, 6, 3),
        (8, Some(0xff)) => (MALFORMED, 7, 3),
        (12, Some(0xff)) => (TOO_LONG, 8, 5),
        (16, Some(0xff)) => (MALFORMED, 12, 4),
        (1056, None) => (OK, 0, 0),
        (1057, Some(_)) => (MALFORMED, 1056, 12),
        _ => (MALFORMED, size as u64, 11),
    }
}

#[test]
fn images_that_are_cut(rt: HostRuntime) -> Result<(), Fail> {
    let alloc = rt.alloc();
    let image = image_named(alloc, "mesi")?;
    for length in 0..=1056usize {
        // Each length of the header, and behind it those of whole words.
        if length > 16 && length % 8 != 0 {
            continue;
        }
        for added in [None, Some(0), Some(0xff)] {
            let mut file = image.get(..length).ok_or("its first bytes")?.to_vec(alloc)?;
            if let Some(byte) = added {
                file.push(byte)?;
            }
            let (status, place, kind) = answer_to_cut(file.len(), added);
            for (words, ending) in READERS {
                let (outcome, sink) = said(alloc, words, &file, SHARED)?;
                let written = sink.bytes().len() as u64;
                if status == OK {
                    assert!(rt; sink.bytes().ends_with(ending.as_bytes()));
                    assert_eq!(rt; numbers(&outcome), [OK as u64, 0, 0, 0, 0, written]);
                } else {
                    let fault = [status as u64, 1, place, 0, kind, 0];
                    assert_eq!(rt; numbers(&outcome), fault, "{length} {added:?}");
                    assert_eq!(rt; written, 0);
                }
            }
        }
    }
    Ok(())
}

// A file may have 16,777,216 bytes: it is read, and here has a fault at its first byte, a zero.
#[test]
fn the_largest_files(rt: HostRuntime) -> Result<(), Fail> {
    let alloc = rt.alloc();
    let mut files = Vec::new(alloc);
    files.push((
        String::from_str(alloc, "mesi")?,
        image_named(alloc, "mesi")?,
    ))?;
    let mut large = Vec::from_elem(alloc, 0, 16_777_216)?;
    // The line of the fault is a short one.
    *large.get_mut(1).ok_or("a second byte")? = b'\n';
    files.push((String::from_str(alloc, "large")?, large))?;
    files.push((
        String::from_str(alloc, "larger")?,
        Vec::from_elem(alloc, 0, 16_777_217)?,
    ))?;
    let mut shelf = MemShelf::make(alloc, files, Vec::new(alloc));
    let bad = MALFORMED as u64;
    let too_long = TOO_LONG as u64;
    // Words, and what is answered: status, file, place, column, kind, and how much is written.
    let cases = [
        (&["verify", "large"][..], [bad, 1, 0, 0, 1, 0]),
        (&["asm", "large"], [bad, 1, 1, 1, 20, 0]),
        (
            &["replay", "serial", "mesi", "large"],
            [bad, 2, 1, 1, 40, 0],
        ),
        (&["verify", "larger"], [too_long, 1, 0, 0, 0, 0]),
        (&["dis", "larger"], [too_long, 1, 0, 0, 0, 0]),
        (&["asm", "larger"], [too_long, 1, 0, 0, 0, 0]),
        (
            &["replay", "serial", "larger", "mesi"],
            [too_long, 1, 0, 0, 0, 0],
        ),
        (
            &["replay", "serial", "mesi", "larger"],
            [too_long, 2, 0, 0, 0, 0],
        ),
    ];
    for (words, answer) in cases {
        let mut sink = sink_of(alloc);
        let outcome = asked(alloc, &words_of(alloc, words)?, &mut shelf, &mut sink);
        assert_eq!(rt; numbers(&outcome), answer);
        assert_eq!(rt; sink.bytes().len(), 0);
    }
    Ok(())
}
