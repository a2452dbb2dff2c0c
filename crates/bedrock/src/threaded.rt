//! The replay by agents side by side: that each has a thread of its own, and that each report is that of its own list of events.

use bk_asm::assemble;
use bk_base::Config;
use bk_cmd::{
    ABSENT, OK, Outcome, REFUSED, USAGE, WRITE_FAULT, fault_line, is_threads, run_plain,
    run_threads,
};
use bk_image::{read_image, write_image};
use bk_lce::{Victim, WayView, oldest};
use bk_outer::{Free, Gate, MemShelf, MemSink};
use bk_proto::source;
use bk_run::report;
use bk_trace::{generate, read_trace, write_trace};
use std::alloc::Global;
use std::array;
use std::sync::Wait;
use std::sync::atomic::{AtomicBool, Ordering};
use std::test::Fail;
use std::thread::{self, Threads};

/// The agents of a system with 8 caches.
const AGENTS: usize = 10;

/// How often an agent looks for the others at most.
const LOOKS: u32 = 100_000_000;

/// A gate at which each agent waits, before its first turn, until it has seen that all others are there. It can see that only where each
/// agent has a thread of its own.
#[derive(Drop)]
struct Meeting {
    here: [AtomicBool; AGENTS],
    saw_all: [AtomicBool; AGENTS],
}

impl Meeting {
    fn new() -> Meeting {
        Meeting {
            here: array::from_fn(|_| AtomicBool::new(false)),
            saw_all: array::from_fn(|_| AtomicBool::new(false)),
        }
    }
}

/// Whether all flags are set.
fn all_set(flags: &[AtomicBool]) -> bool {
    flags.iter().all(|flag| flag.load(Ordering::SeqCst))
}

/// Sets the flag of an agent.
fn set(flags: &[AtomicBool], agent: u8) {
    if let Some(flag) = flags.get(usize::from(agent)) {
        flag.store(true, Ordering::SeqCst);
    }
}

impl Gate for Meeting {
    fn pass(&self, agent: u8, turn: u64) {
        if turn > 0 {
            return;
        }
        set(&self.here, agent);
        for _ in 0..LOOKS {
            if all_set(&self.here) {
                set(&self.saw_all, agent);
                return;
            }
            thread::yield_now();
        }
    }
}

/// A store past the cache, and a load of the same word by another cache.
const TWO_OPERATIONS: &str = "config 2 4 2\n0 US 0x40 7\n1 UL 0x40\n";

/// The bytes of the image of a protocol.
fn image_named(alloc: Global, name: &str) -> Result<Vec<u8>, Fail> {
    let text = source(name).ok_or("a protocol")?;
    Ok(write_image(alloc, &assemble(alloc, text)?)?)
}

/// The words of a command line.
fn words_of(alloc: Global, line: &[&str]) -> Result<Vec<String>, Fail> {
    let mut words = Vec::new(alloc);
    for word in line {
        words.push(String::from_str(alloc, word)?)?;
    }
    Ok(words)
}

/// A shelf with an image `a.bk` and a trace `b.trace`.
fn shelf_of(alloc: Global, image: &[u8], trace: &str) -> Result<MemShelf, Fail> {
    let mut files = Vec::new(alloc);
    files.push((String::from_str(alloc, "a.bk")?, image.to_vec(alloc)?))?;
    files.push((
        String::from_str(alloc, "b.trace")?,
        trace.as_bytes().to_vec(alloc)?,
    ))?;
    Ok(MemShelf::make(alloc, files, Vec::new(alloc)))
}

/// A sink that never fails.
fn sink_of(alloc: Global) -> MemSink {
    MemSink::make(alloc, 4096, Vec::new(alloc))
}

/// The words `replay threads a.bk b.trace`.
fn words(alloc: Global) -> Result<Vec<String>, Fail> {
    words_of(alloc, &["replay", "threads", "a.bk", "b.trace"])
}

/// The outcome of a command line, with the oldest way as the victim.
fn threaded<R: Threads + Wait + Sync, G: Gate + Sync>(
    rt: &R,
    alloc: Global,
    words: &[String],
    shelf: &mut MemShelf,
    sink: &mut MemSink,
    gate: &G,
) -> Outcome {
    let victim = Victim::store(|views: &[WayView]| oldest(views));
    run_threads(rt, alloc, words, shelf, sink, victim, gate)
}

/// Each of 8 caches stores into a block of its own and into one that all share, and then loads both.
fn trace_of_all_caches(alloc: Global) -> Result<String, Fail> {
    let mut trace = String::from_str(alloc, "config 8 4 2\n")?;
    for cache in 0..8u64 {
        let own = cache * 64;
        trace.push_str(&format!(in alloc; "{cache} S 0x{own:x} 7\n{cache} S 0x200 {cache}\n")?)?;
        trace.push_str(&format!(in alloc; "{cache} L 0x{own:x}\n{cache} L 0x200\n")?)?;
    }
    Ok(trace)
}

#[test]
fn each_agent_has_a_thread(rt: HostRuntime) -> Result<(), Fail> {
    let alloc = rt.alloc();
    let trace = trace_of_all_caches(alloc)?;
    let mut shelf = shelf_of(alloc, &image_named(alloc, "mesi")?, &trace)?;
    let mut sink = sink_of(alloc);
    let meeting = Meeting::new();
    let outcome = threaded(&rt, alloc, &words(alloc)?, &mut shelf, &mut sink, &meeting);
    assert!(rt; all_set(&meeting.saw_all));
    assert_eq!(rt; outcome.status, OK);
    assert!(rt; sink.bytes().ends_with("end rested\n".as_bytes()));
    // The history has a line for each operation, and each cache has read its own store.
    for cache in 0..8u64 {
        let own = cache * 64;
        let line = format!(in alloc; "{cache} L 0x{own:x} = 7")?;
        let lines = sink.bytes().split(|byte| *byte == b'\n');
        assert_eq!(rt;
            lines.filter(|text| *text == line.as_bytes()).count(),
            1,
            "{cache}"
        );
    }
    let answers = sink
        .bytes()
        .split(|byte| *byte == b'\n')
        .take_while(|line| !line.starts_with(b"events "));
    assert_eq!(rt; answers.count(), 32);
    Ok(())
}

/// Of a hundred drawn traces, the seed of the first whose threaded replay under a protocol didn't end with status 0, complete, and with
/// exactly the report of the list of events that its outcome has. None where all did.
fn first_other<R: Threads + Wait + Sync>(
    rt: &R,
    alloc: Global,
    protocol: &str,
) -> Result<Option<u32>, Fail> {
    let shapes = [(1, 1, 1), (2, 1, 1), (2, 4, 2), (3, 2, 1), (4, 1, 2)];
    let bytes = image_named(alloc, protocol)?;
    let image = read_image(alloc, &bytes)?;
    for seed in 1..101u32 {
        let (caches, sets, ways) = shapes[(seed % 5) as usize];
        let trace = generate(alloc, seed, Config::make(caches, sets, ways)?, 8)?;
        let text = write_trace(alloc, &trace)?;
        let text = std::str::from_utf8(&text)?;
        let mut shelf = shelf_of(alloc, &bytes, text)?;
        let mut sink = sink_of(alloc);
        let outcome = threaded(rt, alloc, &words(alloc)?, &mut shelf, &mut sink, &Free);
        let due = report(alloc, &image, &trace, &outcome.events)?;
        let complete = due.ends_with("end rested\n".as_bytes());
        if outcome.status != OK || !complete || sink.bytes() != due.as_slice() {
            return Ok(Some(seed));
        }
    }
    Ok(None)
}

#[test]
fn a_hundred_threaded_replays_of_ei(rt: HostRuntime) -> Result<(), Fail> {
    assert_eq!(rt; first_other(&rt, rt.alloc(), "ei")?, None);
    Ok(())
}

#[test]
fn a_hundred_threaded_replays_of_msi(rt: HostRuntime) -> Result<(), Fail> {
    assert_eq!(rt; first_other(&rt, rt.alloc(), "msi")?, None);
    Ok(())
}

#[test]
fn a_hundred_threaded_replays_of_mesi(rt: HostRuntime) -> Result<(), Fail> {
    assert_eq!(rt; first_other(&rt, rt.alloc(), "mesi")?, None);
    Ok(())
}

#[test]
fn a_hundred_threaded_replays_of_moesif(rt: HostRuntime) -> Result<(), Fail> {
    assert_eq!(rt; first_other(&rt, rt.alloc(), "moesif")?, None);
    Ok(())
}

#[test]
fn words_of_threads(rt: HostRuntime) -> Result<(), Fail> {
    let alloc = rt.alloc();
    let mut shelf = shelf_of(alloc, &image_named(alloc, "mesi")?, TWO_OPERATIONS)?;
    let mut sink = sink_of(alloc);
    assert!(rt; is_threads(&words(alloc)?));
    let victim = Victim::store(|views: &[WayView]| oldest(views));
    let outcome = run_plain(alloc, &words(alloc)?, &mut shelf, &mut sink, victim);
    assert_eq!(rt; outcome.status, USAGE);
    let lines = [
        &[][..],
        &["replay", "serial", "a.bk", "b.trace"][..],
        &["replay", "threads", "a.bk"][..],
        &["replay", "threads", "a.bk", "b.trace", "c"][..],
        &["verify", "a.bk"][..],
    ];
    for line in lines {
        let others = words_of(alloc, line)?;
        assert!(rt; !is_threads(&others));
        let outcome = threaded(&rt, alloc, &others, &mut shelf, &mut sink, &Free);
        assert_eq!(rt; outcome.status, USAGE);
    }
    assert_eq!(rt; sink.bytes().len(), 0);
    Ok(())
}

#[test]
fn no_agent_runs(rt: HostRuntime) -> Result<(), Fail> {
    let alloc = rt.alloc();
    let mut sink = sink_of(alloc);
    let nop = write_image(alloc, &assemble(alloc, "  nop\n".as_bytes())?)?;
    let mut refused = shelf_of(alloc, &nop, TWO_OPERATIONS)?;
    let outcome = threaded(&rt, alloc, &words(alloc)?, &mut refused, &mut sink, &Free);
    assert_eq!(rt; outcome.status, REFUSED);
    assert!(rt;
        fault_line(&outcome)
            .as_str()
            .starts_with("bedrock: refused at 0: O")
    );
    let mut empty = MemShelf::make(alloc, Vec::new(alloc), Vec::new(alloc));
    let outcome = threaded(&rt, alloc, &words(alloc)?, &mut empty, &mut sink, &Free);
    assert_eq!(rt; (outcome.status, outcome.file), (ABSENT, 1));
    assert_eq!(rt; sink.bytes().len(), 0);
    Ok(())
}

#[test]
fn a_report_that_is_not_taken_whole(rt: HostRuntime) -> Result<(), Fail> {
    let alloc = rt.alloc();
    let image = image_named(alloc, "mesi")?;
    let mut shelf = shelf_of(alloc, &image, TWO_OPERATIONS)?;
    let mut sink = MemSink::make(alloc, 50, vec![in alloc; 2]?);
    let outcome = threaded(&rt, alloc, &words(alloc)?, &mut shelf, &mut sink, &Free);
    assert_eq!(rt; (outcome.status, outcome.written), (WRITE_FAULT, 50));
    let trace = read_trace(alloc, TWO_OPERATIONS.as_bytes())?;
    let due = report(alloc, &read_image(alloc, &image)?, &trace, &outcome.events)?;
    assert_eq!(rt; sink.bytes().len(), 50);
    assert!(rt; due.starts_with(sink.bytes()));
    Ok(())
}
