//! Drawn runs under two protocols, runs of images that are refused, and logs of given events.

ghost use Rattle.bk_lce.specs.Policies.{IsPolicy};

use super::tests::{NOP, asked, shelf as shelf_of, words, words_of};
use super::*;
use crate::programs::image_named;
use bk_base::Op;
use bk_check::Refusal;
use bk_engine::Choice;
use bk_image::{read_image, write_image};
use bk_lce::{Victim, WayView, oldest, pinned};
use bk_outer::MemSink;
use bk_run::{RunEnd, SerialFault, budget, log, report, serial, serial_report};
use bk_sound::certify;
use bk_system::Event;
use bk_trace::read_trace;
use std::alloc::Global;
use std::test::Fail;

/// The trace that `gen` draws with these numbers.
fn drawn(alloc: Global, numbers: &[&str; 5]) -> Result<Vec<u8>, Fail> {
    let mut shelf = shelf_of(alloc, &[], "", Vec::new(alloc))?;
    let mut sink = MemSink::make(alloc, 1_000_000, Vec::new(alloc));
    let mut words = words_of(alloc, &["gen"])?;
    for number in numbers {
        words.push(String::from_str(alloc, number)?)?;
    }
    let _outcome = asked(alloc, &words, &mut shelf, &mut sink);
    Ok(sink.bytes().to_vec(alloc)?)
}

/// 500 operations on four caches of four sets, and 5,000 of 16 sets.
const FEW: [&str; 5] = ["3", "4", "4", "2", "500"];

const MANY: [&str; 5] = ["7", "4", "16", "4", "5000"];

/// The report of a protocol over a drawn trace.
fn report_of_drawn(alloc: Global, image: &[u8], numbers: &[&str; 5]) -> Result<Vec<u8>, Fail> {
    let trace = drawn(alloc, numbers)?;
    let text = std::str::from_utf8(&trace)?;
    let mut shelf = shelf_of(alloc, image, text, Vec::new(alloc))?;
    let mut sink = MemSink::make(alloc, 1_000_000, Vec::new(alloc));
    let _outcome = asked(alloc, &words(alloc)?, &mut shelf, &mut sink);
    Ok(sink.bytes().to_vec(alloc)?)
}

#[test]
fn a_drawn_run_of_ei_comes_to_rest(rt: HostRuntime) -> Result<(), Fail> {
    let report = report_of_drawn(rt.alloc(), &image_named(rt.alloc(), "ei")?, &FEW)?;
    assert!(rt; report.ends_with("end rested\n".as_bytes()));
    Ok(())
}

/// The end of the run that `serial` makes of an image over a trace.
fn end_of(alloc: Global, image: &[u8], trace: &[u8]) -> Result<RunEnd, Fail> {
    let image = read_image(alloc, image)?;
    let trace = read_trace(alloc, trace)?;
    let victim = Victim::store(|views: &[WayView]| oldest(views));
    let limit = budget(
        trace.config(),
        image.instrs().len() as u64,
        trace.lines().len() as u64,
    );
    match serial(alloc, &image, &trace, &victim, limit) {
        Ok(end) => Ok(end),
        Err(_) => Err(Fail::from("the run has no end")),
    }
}

/// The report of a list of events.
fn report_of(alloc: Global, image: &[u8], trace: &[u8], events: &[Event]) -> Result<Vec<u8>, Fail> {
    Ok(report(
        alloc,
        &read_image(alloc, image)?,
        &read_trace(alloc, trace)?,
        events,
    )?)
}

#[test]
fn the_report_of_a_large_run_is_that_of_its_events(rt: HostRuntime) -> Result<(), Fail> {
    let alloc = rt.alloc();
    let first = report_of_drawn(alloc, &image_named(alloc, "moesif")?, &MANY)?;
    assert!(rt; first.ends_with("end rested\n".as_bytes()));
    let trace = drawn(alloc, &MANY)?;
    let end = end_of(alloc, &image_named(alloc, "moesif")?, &trace)?;
    assert!(rt; first == report_of(alloc, &image_named(alloc, "moesif")?, &trace, &end.events)?);
    let none = report_of(alloc, &image_named(alloc, "moesif")?, &trace, &[])?;
    assert!(rt; none.ends_with("end unrested\n".as_bytes()));
    Ok(())
}

// An image that is refused can still be run by `serial`, and its events reported.
#[test]
fn an_image_that_is_refused_can_be_run(rt: HostRuntime) -> Result<(), Fail> {
    let alloc = rt.alloc();
    let trace = "config 2 4 2\n0 US 0x40 7\n1 UL 0x40\n".as_bytes();
    let end = end_of(alloc, &image_named(alloc, "uc")?, trace)?;
    assert!(rt; end.complete);
    assert_eq!(rt; end.events.len(), 37);
    let text = "\
0 US 0x40 7
1 UL 0x40 = 7
events issue 2 command 2 fill 0 memory 2 engine 31
messages request 2 command 2 fill 0 response 2 memout 2 memin 1
end rested
";
    let report = report_of(alloc, &image_named(alloc, "uc")?, trace, &end.events)?;
    assert!(rt; report.as_slice() == text.as_bytes());
    // Behind one `nop` the engine is stuck.
    let stuck = end_of(alloc, &NOP, "config 1 1 1".as_bytes())?;
    assert!(rt; !stuck.complete);
    assert_eq!(rt; stuck.events.len(), 1);
    Ok(())
}

#[test]
fn a_trace_over_the_limit_is_not_replayed(rt: HostRuntime) -> Result<(), Fail> {
    let alloc = rt.alloc();
    let three = "config 3 2 1\n2 L 0x40\n";
    let nine = "config 9 2 1\n8 S 0x40 7\n";
    for (version, limit, trace, status) in [
        (1, 0, three, OK),
        (1, 0, nine, LIMIT),
        (2, 2, three, LIMIT),
        (2, 3, three, OK),
        (2, 8, nine, LIMIT),
        (2, 9, nine, OK),
        (2, 16, nine, OK),
    ] {
        let mut image = image_named(alloc, "mesi")?;
        for (place, byte) in [(4, version), (5, limit)] {
            if let Some(old) = image.get_mut(place) {
                *old = byte;
            }
        }
        let mut shelf = shelf_of(alloc, &image, trace, Vec::new(alloc))?;
        let mut sink = MemSink::make(alloc, 1_000_000, Vec::new(alloc));
        let outcome = asked(alloc, &words(alloc)?, &mut shelf, &mut sink);
        assert_eq!(rt; outcome.status, status, "version {version} limit {limit}");
        assert_eq!(rt; sink.bytes().is_empty(), status == LIMIT);
    }
    Ok(())
}

#[test]
fn a_loop_uses_its_budget_up(rt: HostRuntime) -> Result<(), Fail> {
    let alloc = rt.alloc();
    // The opcode is the highest byte of the word: `bi` to 0 in place of `nop`.
    let mut image = NOP;
    image[23] = 0x20;
    let image = read_image(alloc, &image)?;
    let trace = read_trace(alloc, "config 1 1 1".as_bytes())?;
    let victim = Victim::store(|views: &[WayView]| oldest(views));
    match serial(alloc, &image, &trace, &victim, 1) {
        Err(SerialFault::Spent(end)) => assert_eq!(rt; end.events.len(), 1),
        _ => return Err(Fail::from("the run has an end")),
    }
    Ok(())
}

#[test]
fn an_image_is_handed_on_or_back(rt: HostRuntime) -> Result<(), Fail> {
    let alloc = rt.alloc();
    match certify(read_image(alloc, &image_named(alloc, "mesi")?)?) {
        Ok(certified) => assert!(rt;
            write_image(alloc, certified.image())? == image_named(alloc, "mesi")?
        ),
        Err(_) => return Err(Fail::from("mesi is refused")),
    }
    match certify(read_image(alloc, &image_named(alloc, "uc")?)?) {
        Ok(_) => return Err(Fail::from("an image without know lines is accepted")),
        Err(refused) => {
            assert_eq!(rt;
                refused.refusal,
                Refusal {
                    at: 0,
                    obligation: 1
                }
            );
            assert!(rt; write_image(alloc, &refused.image)? == image_named(alloc, "uc")?);
        }
    }
    Ok(())
}

/// The engine's event with the choice of a class and a source.
pub(crate) fn engine(class: u8, source: u8) -> Event {
    Event::Engine {
        choice: Choice { class, source },
    }
}

/// Gives a cache an operation, with way 0, and then makes so many sweeps of all other events of two caches. Those that aren't
/// enabled change nothing.
fn push_issue(events: &mut Vec<Event>, cache: u8, op: &Op, sweeps: u32) -> Result<(), Fail> {
    events.push(Event::Issue {
        cache,
        way: 0,
        op: *op,
    })?;
    for _ in 0..sweeps {
        for _ in 0..24 {
            events.push(engine(0, 0))?;
        }
        for (class, source) in [(1, 0), (1, 1), (2, 0), (3, 0), (3, 1)] {
            events.push(engine(class, source))?;
        }
        events.push(Event::Command { cache: 0 })?;
        events.push(Event::Command { cache: 1 })?;
        events.push(Event::Fill { to: 0, from: 1 })?;
        events.push(Event::Fill { to: 1, from: 0 })?;
        events.push(Event::Memory)?;
    }
    Ok(())
}

/// The log and the report of a list of events under `mesi`: both caches load block 0, and then each is given the operation
/// of the trace that follows, both before the engine has taken a request.
fn after_two_loads(alloc: Global, text: &str) -> Result<(Vec<u8>, Vec<u8>), Fail> {
    let image = read_image(alloc, &image_named(alloc, "mesi")?)?;
    let trace = read_trace(alloc, text.as_bytes())?;
    let mut events = Vec::new(alloc);
    for (cache, number, sweeps) in [(0, 0, 20), (1, 0, 20), (0, 1, 0), (1, 1, 40)] {
        if cache >= trace.config().caches {
            break;
        }
        if let Some(op) = trace.operation(cache, number) {
            push_issue(&mut events, cache, op, sweeps)?;
        }
    }
    let log = log(alloc, &image, &trace, &events)?;
    let report = report(alloc, &image, &trace, &events)?;
    Ok((log, report))
}

/// Whether a line of a log begins so.
fn has_line(log: &[u8], beginning: &str) -> bool {
    log.split(|byte| *byte == b'\n')
        .any(|line| line.starts_with(beginning.as_bytes()))
}

// Two stores of sharers: the second cache is invalidated while its request waits, and is then filled, not woken.
/// The report of three stores under `mesi` to one set of two ways, each to a block of its own, with a victim policy.
fn report_of_three_stores<F: Fn(&[WayView]) -> u8 + Copy + Send>(
    alloc: Global,
    victim: &Victim<F>,
) -> Result<Vec<u8>, Fail>
    requires { IsPolicy F.Fn victim.now.pick }
{
    let image = read_image(alloc, &image_named(alloc, "mesi")?)?;
    let text = "config 1 1 2\n0 S 0x0 1\n0 S 0x40 2\n0 S 0x80 3\n";
    let trace = read_trace(alloc, text.as_bytes())?;
    match serial_report(alloc, &image, &trace, victim, 1000) {
        Ok(run) => Ok(run.report),
        Err(_) => Err(Fail::from("the run has no end")),
    }
}

#[test]
fn the_stored_policy_is_asked(rt: HostRuntime) -> Result<(), Fail> {
    let alloc = rt.alloc();
    let victim = Victim::store(|views: &[WayView]| oldest(views));
    let report = report_of_three_stores(alloc, &victim)?;
    let lines = "cache 0 set 0 way 0 tag 0x2 M\ncache 0 set 0 way 1 tag 0x1 M\nend rested\n";
    assert!(rt; report.ends_with(lines.as_bytes()));
    let way = 1u8;
    let victim = Victim::store(move |views: &[WayView]| -> u8 { pinned(views, way) });
    let report = report_of_three_stores(alloc, &victim)?;
    let line = "cache 0 set 0 way 1 tag 0x2 M\nend rested\n";
    assert!(rt; report.ends_with(line.as_bytes()));
    assert!(rt; !has_line(&report, "cache 0 set 0 way 0"));
    Ok(())
}

#[test]
fn two_sharers_store(rt: HostRuntime) -> Result<(), Fail> {
    let text = "config 2 1 1\n0 L 0x0\n1 L 0x0\n0 S 0x0 5\n1 S 0x0 6\n";
    let (log, report) = after_two_loads(rt.alloc(), text)?;
    let answers =
        "0 L 0x0 = 0\n1 L 0x0 = 0\n0 S 0x0 5\n1 S 0x0 6\nevents issue 4 command 6 fill 1 memory 2 engine ";
    assert!(rt;
        report.starts_with(answers.as_bytes()),
        "{}",
        std::str::from_utf8(&report)?
    );
    let end = "\ncache 1 set 0 way 0 tag 0x0 M\nend rested\n";
    assert!(rt; report.ends_with(end.as_bytes()));
    // Lines of Inv, StWake, Done and StWb, from the engine (f0) to a cache.
    assert!(rt; has_line(&log, "m 11f001"));
    assert!(rt; has_line(&log, "m 15f000"));
    assert!(rt; !has_line(&log, "m 15f001"));
    Ok(())
}

// A sharer stores and the other gives the block up: it is invalidated and its eviction ends, without a flush.
#[test]
fn a_sharer_stores_and_the_other_evicts(rt: HostRuntime) -> Result<(), Fail> {
    let text = "config 2 1 1\n0 L 0x0\n1 L 0x0\n0 S 0x0 5\n1 EV 0x0\n";
    let (log, report) = after_two_loads(rt.alloc(), text)?;
    let answers = "0 L 0x0 = 0\n1 L 0x0 = 0\n0 S 0x0 5\n1 EV 0x0\n";
    assert!(rt;
        report.starts_with(answers.as_bytes()),
        "{}",
        std::str::from_utf8(&report)?
    );
    let end = "\ncache 0 set 0 way 0 tag 0x0 M\nend rested\n";
    assert!(rt; report.ends_with(end.as_bytes()));
    // Lines of Inv, StWake, Done and StWb, from the engine (f0) to a cache.
    assert!(rt; has_line(&log, "m 11f001"));
    assert!(rt; has_line(&log, "m 18f001"));
    assert!(rt; !has_line(&log, "m 12f001"));
    Ok(())
}
