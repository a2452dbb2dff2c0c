//! The replay of an image over a trace.

ghost use Rattle.std.specs.Prelude.{◌≡◌, ◌≤◌, ◌<◌, ◌⊎◌, ◌++◌, [], true, false, IfOk, IfErr, IsTrue};
ghost use Rattle.std.specs.Fn.{FnReturnsAt};
ghost use Rattle.bk_lce.specs.Policies.{IsPolicy};
ghost use Rattle.bk_coherent.specs.Coherent.{StaysCoherent};
ghost use Rattle.bk_outer.specs.Counts.{Rose};
ghost use Rattle.bk_cmd.specs.Outcomes.{LeavesRest, is_after_write};
ghost use Rattle.bk_run.specs.Jobs.{job_of};
ghost use Rattle.bk_run.specs.Serial.{IsEnded, IsFault};
ghost use Rattle.bk_run.specs.Report.{IsReport};
ghost use Rattle.bk_cmd.specs.Replays.{RunEnds, IsRunFault, IsDue, log_due, Reported, ReportedPart};

use crate::inputs::Inputs;
use crate::outcome::{MEMORY, OK, Outcome, Stop, WRITE_FAULT, ended, stopped};
use crate::words::Output;
use crate::writing::deliver;
use bk_image::Image;
use bk_lce::{Victim, WayView};
use bk_outer::Sink;
use bk_run::{LoggedRun, SerialFault, budget, serial_log, serial_report};
use bk_trace::Trace;
use std::alloc::Global;

/// Writes what is due of a complete run.
fn write_texts<K: Sink, F: Fn(&[WayView]) -> u8 + Copy + Send>(
    inputs: &Inputs,
    victim: &Victim<F>,
    run: LoggedRun,
    sink: &mut K,
) -> Outcome
    requires ended { RunEnds (FnReturnsAt F.Fn victim.now.pick) inputs.now.image inputs.now.trace run.end.events.items }
    requires coherent { StaysCoherent inputs.now.trace.config inputs.now.image.instrs run.end.events.items }
    requires log { run.log.items ≡ log_due inputs.now.output inputs.now.image inputs.now.trace run.end.events.items }
    requires report { IsReport inputs.now.trace.config inputs.now.image.instrs inputs.now.trace.lines run.end.events.items
        run.report.items }
    ensures ok { result.status ≡ OK →
        Reported (FnReturnsAt F.Fn victim.now.pick) inputs.now.output inputs.now.image inputs.now.trace result (K.taken sink.old)
        (K.taken sink.new) }
    ensures write_fault { result.status ≡ WRITE_FAULT →
        ReportedPart (FnReturnsAt F.Fn victim.now.pick) inputs.now.output inputs.now.image inputs.now.trace result (K.taken sink.old)
        (K.taken sink.new) }
    ensures counted { result.status ≡ WRITE_FAULT → Rose (K.faults sink.old) (K.faults sink.new) }
    ensures memory_part { result.status ≡ MEMORY → 0 < result.written →
        ReportedPart (FnReturnsAt F.Fn victim.now.pick) inputs.now.output inputs.now.image inputs.now.trace result (K.taken sink.old)
        (K.taken sink.new) }
    ensures memory_none { result.status ≡ MEMORY → result.written ≡ 0 →
        K.taken sink.new ≡ K.taken sink.old }
    ensures status { IsTrue (is_after_write result.status) }
    ensures events { result.events.items ≡ run.end.events.items }
    ensures rest { LeavesRest result }
    ensures faults_kept { K.faults sink.old ≤ K.faults sink.new }
{
    let LoggedRun { end, log, report } = run;
    deliver(sink, &log, &report, end.events)
}

/// Runs the greedy schedule to its end or to the budget, with the report, and with the log where it is asked for.
fn run_within<F: Fn(&[WayView]) -> u8 + Copy + Send>(
    alloc: Global,
    output: Output,
    image: &Image,
    trace: &Trace,
    victim: &Victim<F>,
    events_limit: u64,
) -> Result<LoggedRun, SerialFault>
    requires { IsPolicy F.Fn victim.now.pick }
    ensures ok { IfOk result (λ run.
        IsEnded (job_of (FnReturnsAt F.Fn victim.now.pick) image.now.instrs trace.now events_limit) run.end.events.items run.end.complete) }
    ensures log { IfOk result (λ run. run.log.items ≡ log_due output image.now trace.now run.end.events.items) }
    ensures report { IfOk result (λ run.
        IsReport trace.now.config image.now.instrs trace.now.lines run.end.events.items run.report.items) }
    ensures fault { IfErr result (IsFault (job_of (FnReturnsAt F.Fn victim.now.pick) image.now.instrs trace.now events_limit)) }
{
    match output {
        Output::Report => match serial_report(alloc, image, trace, victim, events_limit) {
            Ok(run) => Ok(LoggedRun {
                end: run.end,
                log: Vec::new(alloc),
                report: run.report,
            }),
            Err(e) => Err(e),
        },
        Output::LogAndReport => serial_log(alloc, image, trace, victim, events_limit),
    }
}

/// Runs the greedy schedule within the budget of the image and the trace, with what is due of the run. As the image is accepted, a run
/// that comes to its end is complete.
fn run<F: Fn(&[WayView]) -> u8 + Copy + Send>(
    alloc: Global,
    inputs: &Inputs,
    victim: &Victim<F>,
) -> Result<LoggedRun, SerialFault>
    requires { IsPolicy F.Fn victim.now.pick }
    ensures ok { IfOk result (λ run.
        RunEnds (FnReturnsAt F.Fn victim.now.pick) inputs.now.image inputs.now.trace run.end.events.items) }
    ensures coherent { IfOk result (λ run. StaysCoherent inputs.now.trace.config inputs.now.image.instrs run.end.events.items) }
    ensures log { IfOk result (λ run.
        run.log.items ≡ log_due inputs.now.output inputs.now.image inputs.now.trace run.end.events.items) }
    ensures report { IfOk result (λ run.
        IsReport inputs.now.trace.config inputs.now.image.instrs inputs.now.trace.lines run.end.events.items run.report.items) }
    ensures err { IfErr result (IsRunFault (FnReturnsAt F.Fn victim.now.pick) inputs.now.image inputs.now.trace) }
{
    let image = inputs.image.image();
    let instructions = image.instrs().len() as u64;
    let operations = inputs.trace.lines().len() as u64;
    let events_limit = budget(inputs.trace.config(), instructions, operations);
    run_within(
        alloc,
        inputs.output,
        image,
        &inputs.trace,
        victim,
        events_limit,
    )
}

/// Runs the greedy schedule, and writes what is due of it, where the run came to its end.
pub(crate) fn replay<K: Sink, F: Fn(&[WayView]) -> u8 + Copy + Send>(
    alloc: Global,
    inputs: &Inputs,
    victim: &Victim<F>,
    sink: &mut K,
) -> Outcome
    requires { IsPolicy F.Fn victim.now.pick }
    ensures ok { result.status ≡ OK →
        Reported (FnReturnsAt F.Fn victim.now.pick) inputs.now.output inputs.now.image inputs.now.trace result (K.taken sink.old)
        (K.taken sink.new) }
    ensures write_fault { result.status ≡ WRITE_FAULT →
        ReportedPart (FnReturnsAt F.Fn victim.now.pick) inputs.now.output inputs.now.image inputs.now.trace result (K.taken sink.old)
        (K.taken sink.new) }
    ensures counted { result.status ≡ WRITE_FAULT → Rose (K.faults sink.old) (K.faults sink.new) }
    ensures memory_part { result.status ≡ MEMORY → 0 < result.written →
        ReportedPart (FnReturnsAt F.Fn victim.now.pick) inputs.now.output inputs.now.image inputs.now.trace result (K.taken sink.old)
        (K.taken sink.new) }
    ensures memory_none { result.status ≡ MEMORY → result.written ≡ 0 →
        K.taken sink.new ≡ K.taken sink.old }
    ensures events { (result.events.items ≡ [])
        ⊎ RunEnds (FnReturnsAt F.Fn victim.now.pick) inputs.now.image inputs.now.trace result.events.items }
    ensures status { IsTrue (is_after_write result.status) }
    ensures rest { LeavesRest result }
    ensures faults_kept { K.faults sink.old ≤ K.faults sink.new }
{
    match run(alloc, inputs, victim) {
        Ok(run) => write_texts(inputs, victim, run, sink),
        Err(SerialFault::Spent(_)) => unreachable!(),
        Err(SerialFault::Unreported(end)) => ended(MEMORY, end.events, 0),
        Err(SerialFault::Memory) => stopped(alloc, Stop::Memory),
    }
}
