ghost use Rattle.std.specs.Prelude.{◌≡◌, ◌≤◌, ◌<◌, [], length, IfOk, IfErr, string_bytes};
ghost use Rattle.std.specs.Fn.{FnReturnsAt};
ghost use Rattle.bk_lce.specs.Policies.{IsPolicy};
ghost use Rattle.bk_system.specs.Runs.{run};
ghost use Rattle.bk_run.specs.Greedy.{budget_of, IsGreedy, IsEnd};
ghost use Rattle.bk_run.specs.Jobs.{job_of};
ghost use Rattle.bk_run.specs.Serial.{IsEnded, IsFault};
ghost use Rattle.bk_run.specs.Log.{log_of, text_if};
ghost use Rattle.bk_run.specs.Report.{IsReport, counts_of};
ghost use Rattle.bk_system.specs.Systems.{state_of};

use crate::completion::is_finished;
use crate::greedy::{least_of, past_finished};
use crate::log_text::push_ran_if;
use crate::report_text::report_bytes;
use crate::reports::{Counted, count_made};
use crate::schedule::make_least;
use bk_base::Config;
use bk_image::Image;
use bk_isa::Instr;
use bk_lce::{Victim, WayView};
use bk_system::Event;
use bk_trace::Trace;
use std::alloc::{AllocError, Global};

/// The events of a run that has ended, and whether they do all of the trace: each cache has completed its
/// whole trace in order, and the system has come to rest.
#[derive(Debug, Drop)]
pub struct RunEnd {
    pub events: Vec<Event>,
    pub complete: bool,
}

/// A run that has ended, and its report.
#[derive(Debug, Drop)]
pub struct ReportedRun {
    pub end: RunEnd,
    /// The bytes that `report` answers of the run's events.
    pub report: Vec<u8>,
}

/// A run that has ended, its log and its report.
#[derive(Debug, Drop)]
pub struct LoggedRun {
    pub end: RunEnd,
    /// The bytes that `log` answers of the run's events.
    pub log: Vec<u8>,
    /// The bytes that `report` answers of the run's events.
    pub report: Vec<u8>,
}

/// Why a run has no end to show.
#[derive(Debug, Drop)]
pub enum SerialFault {
    /// As many events as the budget were made, and one more is enabled.
    Spent(RunEnd),
    /// The run has ended, and memory ran out in its report.
    Unreported(RunEnd),
    /// Memory ran out before the run had ended.
    Memory,
}

/// How many events a run of so many instructions and operations is given.
pub fn budget(config: Config, instructions: u64, operations: u64) -> u64
    requires few_instructions { instructions ≤ 256 }
    requires few_operations { operations ≤ 10000 }
    ensures { result ≡ budget_of config instructions operations }
{
    operations * (4 * config.caches as u64 + 32) * (instructions + 4) + instructions
}

/// How many events a run counts at the most: each may send sixteen messages.
const MOST_EVENTS: usize = 1 << 59;

/// Room for so many events an operation is made at the start of a run.
const ROOM_FOR_EACH: usize = 40;

/// A run of the greedy schedule so far: its events, the system's hardware after them, what was counted, and the log, where it is wanted.
#[derive(Drop)]
struct Made {
    counted: Counted,
    events: Vec<Event>,
    log: String,
}

/// A run that has ended, with what its report is made of, and its log, where it is wanted.
#[derive(Drop)]
struct Ended {
    end: RunEnd,
    counted: Counted,
    log: String,
}

/// An empty list with room for the events of a run over the trace. Without it the list would be copied each time that it is full, and
/// the greatest part of a run's memory would stand twice meanwhile. Runs of the protocols make about 30 events an operation or fewer,
/// so their lists are never copied. Room that is not used is not touched and takes no memory, and for a short trace it is little.
fn room_for_events(alloc: Global, trace: &Trace) -> Result<Vec<Event>, AllocError>
    ensures { IfOk result (λ events. events.items ≡ []) }
{
    Vec::with_capacity(alloc, trace.lines().len() * ROOM_FOR_EACH)
}

/// Makes the greedy events, to their end or as many as the budget, and writes their log on the way, where it is wanted.
fn make_events<F: Fn(&[WayView]) -> u8 + Copy + Send>(
    alloc: Global,
    program: &[Instr],
    trace: &Trace,
    victim: &Victim<F>,
    budget: u64,
    is_logged: bool,
) -> Result<Made, AllocError>
    requires few { length program.now ≤ 256 }
    requires policy { IsPolicy F.Fn victim.now.pick }
    ensures greedy { IfOk result (λ made.
        IsGreedy (job_of (FnReturnsAt F.Fn victim.now.pick) program.now trace.now budget) made.events.items) }
    ensures within { IfOk result (λ made. length made.events.items ≤ budget) }
    ensures whole { IfOk result (λ made. length made.events.items < budget
        → IsEnd trace.now.config program.now (state_of made.counted.hardware) trace.now.lines) }
    ensures state { IfOk result (λ made. state_of made.counted.hardware ≡ run trace.now.config program.now made.events.items) }
    ensures config { IfOk result (λ made. made.counted.hardware.config ≡ trace.now.config) }
    ensures counts { IfOk result (λ made. made.counted.counts ≡ counts_of trace.now.config program.now made.events.items) }
    ensures log { IfOk result (λ made. string_bytes made.log
        ≡ text_if is_logged (log_of trace.now.config program.now made.events.items)) }
{
    let mut counted = Counted::new(alloc, trace.config())?;
    let mut events = room_for_events(alloc, trace)?;
    let mut log = String::new(alloc);
    let mut finished = 0;
    for _ in 0..budget {
        // More events than can be counted don't stand in any memory.
        if events.len() > MOST_EVENTS {
            return Err(AllocError);
        }
        let made = match make_least(&mut counted.hardware, victim, program, trace, finished) {
            Ok(made) => made,
            Err(e) => return Err(e),
        };
        let Some(event) = made else {
            return Ok(Made {
                counted,
                events,
                log,
            });
        };
        let sent = counted.hardware.sent();
        count_made(&mut counted.counts, &event, sent);
        match push_ran_if(alloc, &mut log, is_logged, &event, sent) {
            Ok(()) => {}
            Err(e) => return Err(e),
        }
        finished = past_finished(&counted.hardware, trace, &event, finished);
        match events.push(event) {
            Ok(()) => {}
            Err(_) => return Err(AllocError),
        }
    }
    Ok(Made {
        counted,
        events,
        log,
    })
}

/// Makes the greedy events to their end, and tells whether they do all of the trace.
fn run_to_end<F: Fn(&[WayView]) -> u8 + Copy + Send>(
    alloc: Global,
    program: &[Instr],
    trace: &Trace,
    victim: &Victim<F>,
    budget: u64,
    is_logged: bool,
) -> Result<Ended, SerialFault>
    requires few { length program.now ≤ 256 }
    requires policy { IsPolicy F.Fn victim.now.pick }
    ensures ok { IfOk result (λ ended.
        IsEnded (job_of (FnReturnsAt F.Fn victim.now.pick) program.now trace.now budget) ended.end.events.items ended.end.complete) }
    ensures state { IfOk result (λ ended. state_of ended.counted.hardware ≡ run trace.now.config program.now ended.end.events.items) }
    ensures config { IfOk result (λ ended. ended.counted.hardware.config ≡ trace.now.config) }
    ensures counts { IfOk result (λ ended. ended.counted.counts ≡ counts_of trace.now.config program.now ended.end.events.items) }
    ensures log { IfOk result (λ ended. string_bytes ended.log
        ≡ text_if is_logged (log_of trace.now.config program.now ended.end.events.items)) }
    ensures fault { IfErr result (IsFault (job_of (FnReturnsAt F.Fn victim.now.pick) program.now trace.now budget)) }
{
    let made = match make_events(alloc, program, trace, victim, budget, is_logged) {
        Ok(made) => made,
        Err(_) => return Err(SerialFault::Memory),
    };
    let Made {
        counted,
        events,
        log,
    } = made;
    let hardware = &counted.hardware;
    let complete = is_finished(hardware, program, trace);
    let next = least_of(hardware, victim, program, trace);
    let end = RunEnd { events, complete };
    match next {
        None => Ok(Ended { end, counted, log }),
        Some(_) => Err(SerialFault::Spent(end)),
    }
}

/// Runs the greedy schedule of an image over a trace, to its end or to the budget. Each Issue has the way that the victim
/// policy answers. Any image is run, accepted or not.
pub fn serial<F: Fn(&[WayView]) -> u8 + Copy + Send>(
    alloc: Global,
    image: &Image,
    trace: &Trace,
    victim: &Victim<F>,
    budget: u64,
) -> Result<RunEnd, SerialFault>
    requires { IsPolicy F.Fn victim.now.pick }
    ensures ok { IfOk result (λ end.
        IsEnded (job_of (FnReturnsAt F.Fn victim.now.pick) image.now.instrs trace.now budget) end.events.items end.complete) }
    ensures fault { IfErr result (IsFault (job_of (FnReturnsAt F.Fn victim.now.pick) image.now.instrs trace.now budget)) }
{
    match run_to_end(alloc, image.instrs(), trace, victim, budget, false) {
        Ok(ended) => Ok(ended.end),
        Err(e) => Err(e),
    }
}

/// Makes a run, its report, and its log, where it is wanted.
fn run_with_texts<F: Fn(&[WayView]) -> u8 + Copy + Send>(
    alloc: Global,
    image: &Image,
    trace: &Trace,
    victim: &Victim<F>,
    budget: u64,
    is_logged: bool,
) -> Result<LoggedRun, SerialFault>
    requires { IsPolicy F.Fn victim.now.pick }
    ensures ok { IfOk result (λ r.
        IsEnded (job_of (FnReturnsAt F.Fn victim.now.pick) image.now.instrs trace.now budget) r.end.events.items r.end.complete) }
    ensures log { IfOk result (λ r. r.log.items ≡ text_if is_logged (log_of trace.now.config image.now.instrs r.end.events.items)) }
    ensures report { IfOk result (λ r. IsReport trace.now.config image.now.instrs trace.now.lines r.end.events.items r.report.items) }
    ensures fault { IfErr result (IsFault (job_of (FnReturnsAt F.Fn victim.now.pick) image.now.instrs trace.now budget)) }
{
    let ended = match run_to_end(alloc, image.instrs(), trace, victim, budget, is_logged) {
        Ok(ended) => ended,
        Err(e) => return Err(e),
    };
    let Ended { end, counted, log } = ended;
    match report_bytes(alloc, &counted.hardware, &counted.counts, end.complete) {
        Ok(report) => Ok(LoggedRun {
            end,
            log: log.into_bytes(),
            report,
        }),
        Err(_) => Err(SerialFault::Unreported(end)),
    }
}

/// The same as `serial`, with the report of the run's events. Each event is made once.
pub fn serial_report<F: Fn(&[WayView]) -> u8 + Copy + Send>(
    alloc: Global,
    image: &Image,
    trace: &Trace,
    victim: &Victim<F>,
    budget: u64,
) -> Result<ReportedRun, SerialFault>
    requires { IsPolicy F.Fn victim.now.pick }
    ensures ok { IfOk result (λ r.
        IsEnded (job_of (FnReturnsAt F.Fn victim.now.pick) image.now.instrs trace.now budget) r.end.events.items r.end.complete) }
    ensures report { IfOk result (λ r. IsReport trace.now.config image.now.instrs trace.now.lines r.end.events.items r.report.items) }
    ensures fault { IfErr result (IsFault (job_of (FnReturnsAt F.Fn victim.now.pick) image.now.instrs trace.now budget)) }
{
    match run_with_texts(alloc, image, trace, victim, budget, false) {
        Ok(LoggedRun { end, report, .. }) => Ok(ReportedRun { end, report }),
        Err(e) => Err(e),
    }
}

/// The same as `serial_report`, with the log of the run's events, which is written as they are made.
pub fn serial_log<F: Fn(&[WayView]) -> u8 + Copy + Send>(
    alloc: Global,
    image: &Image,
    trace: &Trace,
    victim: &Victim<F>,
    budget: u64,
) -> Result<LoggedRun, SerialFault>
    requires { IsPolicy F.Fn victim.now.pick }
    ensures ok { IfOk result (λ r.
        IsEnded (job_of (FnReturnsAt F.Fn victim.now.pick) image.now.instrs trace.now budget) r.end.events.items r.end.complete) }
    ensures log { IfOk result (λ r. r.log.items ≡ log_of trace.now.config image.now.instrs r.end.events.items) }
    ensures report { IfOk result (λ r. IsReport trace.now.config image.now.instrs trace.now.lines r.end.events.items r.report.items) }
    ensures fault { IfErr result (IsFault (job_of (FnReturnsAt F.Fn victim.now.pick) image.now.instrs trace.now budget)) }
{
    run_with_texts(alloc, image, trace, victim, budget, true)
}
