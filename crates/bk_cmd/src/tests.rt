use super::*;
use crate::programs::image_named;
use bk_lce::{Victim, WayView, oldest};
use bk_outer::{MemShelf, MemSink};
use std::alloc::Global;
use std::test::Fail;

/// One `nop`, behind which the engine is stuck.
pub(crate) const NOP: [u8; 24] = [
    0x42, 0x4b, 0x55, 0x43, 0x01, 0x00, 0x00, 0x00, 0x01, 0x00, 0x00, 0x00, 0x00, 0x00, 0x00, 0x00,
    0x00, 0x00, 0x00, 0x00, 0x00, 0x00, 0x00, 0x00,
];

/// A store past the cache, and a load of the same word by another cache.
pub(crate) const TWO_OPERATIONS: &str = "config 2 4 2\n0 US 0x40 7\n1 UL 0x40\n";

/// Their report under `mesi`: the second request finds its group pending, and is deferred.
pub(crate) const TWO_OPERATIONS_REPORT: &str = "\
0 US 0x40 7
1 UL 0x40 = 7
events issue 2 command 2 fill 0 memory 2 engine 47
messages request 2 command 2 fill 0 response 2 memout 2 memin 1
end rested
";

/// How the log of the two operations begins.
const TWO_OPERATIONS_LOG: &str = "\
I 0 US 0x40 7 0
m 0400f0000000000040000000000000000700000000000000
I 1 UL 0x40 0
m 0301f000000000004000000000000000
";

/// The report of a trace without operations.
pub(crate) const EMPTY_REPORT: &str = "\
events issue 0 command 0 fill 0 memory 0 engine 0
messages request 0 command 0 fill 0 response 0 memout 0 memin 0
end rested
";

/// The words of a command line.
pub(crate) fn words_of(alloc: Global, line: &[&str]) -> Result<Vec<String>, Fail> {
    let mut words = Vec::new(alloc);
    for word in line {
        words.push(String::from_str(alloc, word)?)?;
    }
    Ok(words)
}

/// The words `replay serial a.bk b.trace`.
pub(crate) fn words(alloc: Global) -> Result<Vec<String>, Fail> {
    words_of(alloc, &["replay", "serial", "a.bk", "b.trace"])
}

/// A shelf with the two files that the words name.
pub(crate) fn shelf(
    alloc: Global,
    image: &[u8],
    trace: &str,
    failing: Vec<u64>,
) -> Result<MemShelf, Fail> {
    let mut files = Vec::new(alloc);
    files.push((String::from_str(alloc, "a.bk")?, image.to_vec(alloc)?))?;
    files.push((
        String::from_str(alloc, "b.trace")?,
        trace.as_bytes().to_vec(alloc)?,
    ))?;
    Ok(MemShelf::make(alloc, files, failing))
}

/// A sink that never fails.
pub(crate) fn sink(alloc: Global) -> MemSink {
    MemSink::make(alloc, 4096, Vec::new(alloc))
}

/// The outcome of a command line, with the oldest way as the victim.
pub(crate) fn asked(
    alloc: Global,
    words: &[String],
    shelf: &mut MemShelf,
    sink: &mut MemSink,
) -> Outcome {
    let victim = Victim::store(|views: &[WayView]| oldest(views));
    run_plain(alloc, words, shelf, sink, victim)
}

/// An outcome's numbers in order: status, file, place, column, kind, and how much was written.
pub(crate) fn numbers(outcome: &Outcome) -> [u64; 6] {
    [
        outcome.status as u64,
        outcome.file as u64,
        outcome.at,
        outcome.column,
        outcome.kind as u64,
        outcome.written,
    ]
}

// The verdict comes before the trace, whose read would fail.
#[test]
fn an_image_that_is_refused_is_not_replayed(rt: HostRuntime) -> Result<(), Fail> {
    let alloc = rt.alloc();
    for mode in ["serial", "log"] {
        let mut shelf = shelf(
            alloc,
            &image_named(alloc, "uc")?,
            TWO_OPERATIONS,
            vec![in alloc; 2]?,
        )?;
        let mut sink = sink(alloc);
        let words = words_of(alloc, &["replay", mode, "a.bk", "b.trace"])?;
        let outcome = asked(alloc, &words, &mut shelf, &mut sink);
        assert_eq!(rt; numbers(&outcome), [REFUSED as u64, 0, 0, 0, 0, 0]);
        assert_eq!(rt; outcome.events.len(), 0);
        assert_eq!(rt; sink.bytes().len(), 0);
        assert!(rt; fault_line(&outcome).as_str() == "bedrock: refused at 0: O1");
    }
    Ok(())
}

#[test]
fn a_log(rt: HostRuntime) -> Result<(), Fail> {
    let alloc = rt.alloc();
    let mut shelf = shelf(
        alloc,
        &image_named(alloc, "mesi")?,
        TWO_OPERATIONS,
        Vec::new(alloc),
    )?;
    let mut sink = sink(alloc);
    let words = words_of(alloc, &["replay", "log", "a.bk", "b.trace"])?;
    let outcome = asked(alloc, &words, &mut shelf, &mut sink);
    assert_eq!(rt; outcome.status, OK);
    assert_eq!(rt; outcome.events.len(), 53);
    assert_eq!(rt; outcome.written, sink.bytes().len() as u64);
    assert!(rt; sink.bytes().starts_with(TWO_OPERATIONS_LOG.as_bytes()));
    assert!(rt; sink.bytes().ends_with(TWO_OPERATIONS_REPORT.as_bytes()));
    Ok(())
}

#[test]
fn faults_of_a_trace(rt: HostRuntime) -> Result<(), Fail> {
    let alloc = rt.alloc();
    // A trace, and the line, the column and the kind of its fault.
    let cases = [
        ("config 1 64 8\n0 S 0x10000000000 1", 2, 5, 44),
        ("config 17 4 2", 1, 8, 41),
        ("config 2 4 2\n2 UL 0x40", 2, 1, 42),
        ("config 2 4 2\n0 UL 0x40 7", 2, 11, 46),
    ];
    for (trace, line, column, kind) in cases {
        let mut shelf = shelf(alloc, &image_named(alloc, "mesi")?, trace, Vec::new(alloc))?;
        let mut sink = sink(alloc);
        let outcome = asked(alloc, &words(alloc)?, &mut shelf, &mut sink);
        assert_eq!(rt;
            numbers(&outcome),
            [MALFORMED as u64, 2, line, column, kind, 0]
        );
    }
    Ok(())
}

#[test]
fn too_many_operations(rt: HostRuntime) -> Result<(), Fail> {
    let alloc = rt.alloc();
    let mut trace = String::from_str(alloc, "config 1 1 1\n")?;
    for _ in 0..10_001 {
        trace.push_str("0 UL 0x0\n")?;
    }
    let mut shelf = shelf(alloc, &image_named(alloc, "mesi")?, &trace, Vec::new(alloc))?;
    let mut sink = sink(alloc);
    let outcome = asked(alloc, &words(alloc)?, &mut shelf, &mut sink);
    assert_eq!(rt; numbers(&outcome), [TOO_LONG as u64, 2, 10_002, 1, 47, 0]);
    assert!(rt; fault_line(&outcome).as_str() == "bedrock: too long file 2");
    Ok(())
}

#[test]
fn no_operation(rt: HostRuntime) -> Result<(), Fail> {
    let alloc = rt.alloc();
    let mut shelf = shelf(
        alloc,
        &image_named(alloc, "mesi")?,
        "config 2 4 2",
        Vec::new(alloc),
    )?;
    let mut sink = sink(alloc);
    let outcome = asked(alloc, &words(alloc)?, &mut shelf, &mut sink);
    assert_eq!(rt; outcome.status, OK);
    assert_eq!(rt; outcome.events.len(), 0);
    assert!(rt; sink.bytes() == EMPTY_REPORT.as_bytes());
    Ok(())
}

#[test]
fn a_drawn_trace(rt: HostRuntime) -> Result<(), Fail> {
    let alloc = rt.alloc();
    let mut shelf = shelf(alloc, &NOP, "", Vec::new(alloc))?;
    let mut sink = sink(alloc);
    let words = words_of(alloc, &["gen", "7", "2", "4", "2", "1"])?;
    let outcome = asked(alloc, &words, &mut shelf, &mut sink);
    assert_eq!(rt; numbers(&outcome), [OK as u64, 0, 0, 0, 0, 25]);
    assert!(rt; sink.bytes() == "config 2 4 2\n1 S 0x5e8 1\n".as_bytes());
    Ok(())
}

#[test]
fn words_that_are_no_command(rt: HostRuntime) -> Result<(), Fail> {
    let alloc = rt.alloc();
    let lines = [
        &[][..],
        &["verify"][..],
        &["verify", "a.bk", "b.trace"][..],
        &["replay", "a.bk", "b.trace"][..],
        &["replay", "threads", "a.bk", "b.trace"][..],
        &["gen", "4294967296", "2", "4", "2", "1"][..],
        &["gen", "00000000007", "2", "4", "2", "1"][..],
        &["gen", "0x7", "2", "4", "2", "1"][..],
        &["gen", "7", "2", "3", "2", "1"][..],
        &["gen", "7", "17", "4", "2", "1"][..],
        &["gen", "7", "258", "4", "2", "1"][..],
        &["gen", "7", "2", "4", "2", "10001"][..],
        &["gen", "7", "2", "4", "2", ""][..],
        &["proto", "mesj"][..],
        &["proto"][..],
        &["asm"][..],
        &["dis", "a.bk", "b.bk"][..],
    ];
    for line in lines {
        let mut shelf = shelf(alloc, &NOP, "", Vec::new(alloc))?;
        let mut sink = sink(alloc);
        let outcome = asked(alloc, &words_of(alloc, line)?, &mut shelf, &mut sink);
        assert_eq!(rt; numbers(&outcome), [USAGE as u64, 0, 0, 0, 0, 0]);
        assert!(rt; fault_line(&outcome).as_str() == "bedrock: usage");
    }
    Ok(())
}

#[test]
fn a_reserved_field(rt: HostRuntime) -> Result<(), Fail> {
    let alloc = rt.alloc();
    let mut image = image_named(alloc, "uc")?;
    *image.get_mut(16).ok_or("an instruction")? = 1;
    let mut shelf = shelf(alloc, &image, TWO_OPERATIONS, Vec::new(alloc))?;
    let mut sink = sink(alloc);
    let outcome = asked(alloc, &words(alloc)?, &mut shelf, &mut sink);
    assert_eq!(rt; numbers(&outcome), [MALFORMED as u64, 1, 16, 0, 8, 0]);
    assert!(rt; fault_line(&outcome).as_str() == "bedrock: malformed file 1 at 16:0 kind 8");
    Ok(())
}

/// The outcome that has this status and nothing else.
fn bare(alloc: Global, status: u8) -> Outcome {
    Outcome {
        status,
        file: 0,
        at: 0,
        column: 0,
        kind: 0,
        refusal: None,
        events: Vec::new(alloc),
        written: 0,
    }
}

#[test]
fn fault_lines(rt: HostRuntime) {
    let alloc = rt.alloc();
    assert!(rt; fault_line(&bare(alloc, MEMORY)).as_str() == "bedrock: memory");
    assert!(rt; fault_line(&bare(alloc, LIMIT)).as_str() == "bedrock: limit");
    let long = Outcome {
        file: 255,
        at: u64::MAX,
        column: u64::MAX,
        kind: 255,
        ..bare(alloc, MALFORMED)
    };
    assert!(rt;
        fault_line(&long).as_str()
            == "bedrock: malformed file 255 at 18446744073709551615:18446744073709551615 kind 255"
    );
}

/// The words `verify a.bk`.
pub(crate) fn verify_words(alloc: Global) -> Result<Vec<String>, Fail> {
    words_of(alloc, &["verify", "a.bk"])
}

/// The outcome of `verify` on these bytes, over a sink that takes them whole, and what the sink then has.
pub(crate) fn verified(alloc: Global, image: &[u8]) -> Result<(Outcome, MemSink), Fail> {
    let mut shelf = shelf(alloc, image, "", Vec::new(alloc))?;
    let mut sink = sink(alloc);
    let outcome = asked(alloc, &verify_words(alloc)?, &mut shelf, &mut sink);
    Ok((outcome, sink))
}

#[test]
fn files_without_bytes(rt: HostRuntime) -> Result<(), Fail> {
    let alloc = rt.alloc();
    let mut empty = MemShelf::make(alloc, Vec::new(alloc), Vec::new(alloc));
    let mut sink = sink(alloc);
    let outcome = asked(alloc, &verify_words(alloc)?, &mut empty, &mut sink);
    assert_eq!(rt; numbers(&outcome), [ABSENT as u64, 1, 0, 0, 0, 0]);
    assert!(rt; fault_line(&outcome).as_str() == "bedrock: absent file 1");
    let outcome = asked(alloc, &words(alloc)?, &mut empty, &mut sink);
    assert_eq!(rt; numbers(&outcome), [ABSENT as u64, 1, 0, 0, 0, 0]);
    let mut files = Vec::new(alloc);
    files.push((
        String::from_str(alloc, "a.bk")?,
        image_named(alloc, "mesi")?,
    ))?;
    let mut no_trace = MemShelf::make(alloc, files, Vec::new(alloc));
    let outcome = asked(alloc, &words(alloc)?, &mut no_trace, &mut sink);
    assert_eq!(rt; numbers(&outcome), [ABSENT as u64, 2, 0, 0, 0, 0]);
    assert!(rt; fault_line(&outcome).as_str() == "bedrock: absent file 2");
    let mut failing = shelf(alloc, &image_named(alloc, "mesi")?, "", vec![in alloc; 1]?)?;
    let outcome = asked(alloc, &verify_words(alloc)?, &mut failing, &mut sink);
    assert_eq!(rt; numbers(&outcome), [READ_FAULT as u64, 1, 0, 0, 0, 0]);
    let (outcome, _sink) = verified(alloc, &Vec::from_elem(alloc, 0, 16_777_217)?)?;
    assert_eq!(rt; numbers(&outcome), [TOO_LONG as u64, 1, 0, 0, 0, 0]);
    Ok(())
}
