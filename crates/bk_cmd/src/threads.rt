//! The replay of an image over a trace by agents that work side by side in threads.

ghost use Rattle.std.specs.Prelude.{◌≡◌, ◌≤◌, ◌<◌, ◌⊎◌, ◌↔◌, None, [], ◌∷◌, true, false, IfOk, IsTrue, IsSomeAnd};
ghost use Rattle.std.specs.Fn.{FnReturnsAt};
ghost use Rattle.bk_lce.specs.Policies.{IsPolicy};
ghost use Rattle.bk_coherent.specs.Coherent.{StaysCoherent};
ghost use Rattle.bk_outer.specs.Counts.{Rose};
ghost use Rattle.bk_cmd.specs.Inputs.{seen, ReadsFirst};
ghost use Rattle.bk_cmd.specs.Needs.{HasInputs};
ghost use Rattle.bk_cmd.specs.Outcomes.{LeavesRest, is_status, is_after_write, is_limit};
ghost use Rattle.bk_cmd.specs.Replays.{OfInputs};
ghost use Rattle.bk_cmd.specs.Stops.{ImageIsRefused, IsBadInput, IsMissingInput, IsOverLimit};
ghost use Rattle.bk_cmd.specs.Threads.{threads_of, OfThreads, ThreadsEnd, ThreadsReported, ThreadsReportedPart};
ghost use Rattle.bk_cmd.specs.declared.outcome.Unread.TheVariants as unread;

use crate::inputs::{Inputs, inputs_of};
use crate::outcome::{
    ABSENT, LIMIT, MALFORMED, MEMORY, OK, Outcome, READ_FAULT, REFUSED, Stop, TOO_LONG, USAGE,
    WRITE_FAULT, ended, stopped,
};
use crate::words::{Output, threads_of};
use crate::writing::deliver;
use bk_lce::{Victim, WayView};
use bk_outer::{Gate, Shelf, Sink};
use bk_parallel::run_agents;
use bk_run::report;
use bk_system::Event;
use std::alloc::{AllocError, Global};
use std::sync::Wait;
use std::thread::Threads;

/// The events of the agents, which have done all of the trace.
fn run<R: Threads + Wait + Sync, F: Fn(&[WayView]) -> u8 + Copy + Send, G: Gate + Sync>(
    rt: &R,
    alloc: Global,
    inputs: &Inputs,
    victim: Victim<F>,
    gate: &G,
) -> Result<Vec<Event>, AllocError>
    requires { IsPolicy F.Fn victim.pick }
    ensures ok { IfOk result (λ events.
        ThreadsEnd (FnReturnsAt F.Fn victim.pick) inputs.now.image inputs.now.trace events.items) }
    ensures coherent { IfOk result (λ events. StaysCoherent inputs.now.trace.config inputs.now.image.instrs events.items) }
{
    let Inputs { image, trace, .. } = inputs;
    // The configuration and the operations of a trace are known to be in range where they are asked for.
    let (_config, _operations) = (trace.config(), trace.lines());
    run_agents(rt, alloc, image.image().instrs(), trace, victim, gate)
}

/// Runs the agents, and writes the report of their events.
fn replay<R: Threads + Wait + Sync, K: Sink, F: Fn(&[WayView]) -> u8 + Copy + Send, G: Gate + Sync>(
    rt: &R,
    alloc: Global,
    inputs: &Inputs,
    sink: &mut K,
    victim: Victim<F>,
    gate: &G,
) -> Outcome
    requires { IsPolicy F.Fn victim.pick }
    ensures ok { result.status ≡ OK →
        ThreadsReported (FnReturnsAt F.Fn victim.pick) inputs.now.image inputs.now.trace result (K.taken sink.old) (K.taken sink.new) }
    ensures write_fault { result.status ≡ WRITE_FAULT →
        ThreadsReportedPart (FnReturnsAt F.Fn victim.pick) inputs.now.image inputs.now.trace result (K.taken sink.old) (K.taken sink.new) }
    ensures counted { result.status ≡ WRITE_FAULT → Rose (K.faults sink.old) (K.faults sink.new) }
    ensures memory_part { result.status ≡ MEMORY → 0 < result.written →
        ThreadsReportedPart (FnReturnsAt F.Fn victim.pick) inputs.now.image inputs.now.trace result (K.taken sink.old) (K.taken sink.new) }
    ensures memory_none { result.status ≡ MEMORY → result.written ≡ 0 → K.taken sink.new ≡ K.taken sink.old }
    ensures events { (result.events.items ≡ [])
        ⊎ ThreadsEnd (FnReturnsAt F.Fn victim.pick) inputs.now.image inputs.now.trace result.events.items }
    ensures status { IsTrue (is_after_write result.status) }
    ensures rest { LeavesRest result }
    ensures faults_kept { K.faults sink.old ≤ K.faults sink.new }
{
    let Ok(events) = run(rt, alloc, inputs, victim, gate) else {
        return stopped(alloc, Stop::Memory);
    };
    match report(alloc, inputs.image.image(), &inputs.trace, &events) {
        Ok(report) => deliver(sink, &[], &report, events),
        Err(_) => ended(MEMORY, events, 0),
    }
}

/// Does what the words `replay threads IMAGE TRACE` ask for, with the files of the shelf: runs the agents of a system side by side, each
/// cache, the engine and the memory, in rounds, each agent of a round in a thread of its own where one can be made (docs/THREADS.md), and
/// writes to the sink the report of their events, in one order in which the system could have made them one at a time. Each agent passes
/// the gate before each of its turns.
///
/// The words are judged first. Then the image is read and checked, and gets its verdict; then the trace is read, its
/// caches are compared with the image's limit, and the agents run; then comes the writing. What is met first is answered, by a status:
///
/// - `OK`: the sink took all of the report, and the run is complete;
/// - `MEMORY`: memory ran out, at any moment after the words;
/// - `USAGE`: the words are others;
/// - `REFUSED`: the image is not accepted, by `refusal`;
/// - `MALFORMED`: a file is not of its grammar;
/// - `ABSENT`: there is no such file;
/// - `READ_FAULT`: a file could not be read;
/// - `WRITE_FAULT`: the sink failed, and took `written` bytes of the report;
/// - `TOO_LONG`: a file has too many bytes, an image too many instructions, or a trace too many operations;
/// - `LIMIT`: the trace has more caches than the limit of the image.
///
/// Each operation begins with the way that the victim policy answers for it. Only an image that is accepted is run, and its run is coherent
/// at the opening and after each of its events (`docs/COHERENCE.md`). It may wait, as its agents do for one another.
pub fn run_threads<
    R: Threads + Wait + Sync,
    H: Shelf,
    K: Sink,
    F: Fn(&[WayView]) -> u8 + Copy + Send,
    G: Gate + Sync,
>(
    rt: &R,
    alloc: Global,
    words: &[String],
    shelf: &mut H,
    sink: &mut K,
    victim: Victim<F>,
    gate: &G,
) -> Outcome
    requires { IsPolicy F.Fn victim.pick }
    ensures status { IsTrue (is_status result.status) }

    // Exactly other words are answered so, before anything else.
    ensures usage { (result.status ≡ USAGE) ↔ (threads_of words.now ≡ None) }
    ensures unread { result.status ≡ USAGE → shelf.new ≡ shelf.old }

    // Of the two files that the words name, the first few were read, each once, in order. Nothing else was.
    ensures reads { OfThreads words.now (λ image trace.
        ReadsFirst (image ∷ trace ∷ []) (seen H.files H.reads shelf.old shelf.new)) ⊎ (threads_of words.now ≡ None) }

    // The report of the run, of the bytes that the reads gave, was written, and nothing else.
    ensures ok { result.status ≡ OK → OfThreads words.now (λ image trace.
        OfInputs (seen H.files H.reads shelf.old shelf.new) image trace (λ i t.
        ThreadsReported (FnReturnsAt F.Fn victim.pick) i t result (K.taken sink.old) (K.taken sink.new))) }

    // The first bytes of the report were written, as many as are told, and nothing else.
    ensures write_fault { result.status ≡ WRITE_FAULT → OfThreads words.now (λ image trace.
        OfInputs (seen H.files H.reads shelf.old shelf.new) image trace (λ i t.
        ThreadsReportedPart (FnReturnsAt F.Fn victim.pick) i t result (K.taken sink.old) (K.taken sink.new))) }
    ensures write_counted { result.status ≡ WRITE_FAULT → Rose (K.faults sink.old) (K.faults sink.new) }
    ensures memory_part { result.status ≡ MEMORY → 0 < result.written → OfThreads words.now (λ image trace.
        OfInputs (seen H.files H.reads shelf.old shelf.new) image trace (λ i t.
        ThreadsReportedPart (FnReturnsAt F.Fn victim.pick) i t result (K.taken sink.old) (K.taken sink.new))) }
    ensures memory_none { result.status ≡ MEMORY → result.written ≡ 0 → K.taken sink.new ≡ K.taken sink.old }

    // The verdict on the image, and the events of a run.
    ensures refused { result.status ≡ REFUSED → OfThreads words.now (λ image trace.
        IsSomeAnd result.refusal (λ refusal.
        ImageIsRefused (seen H.files H.reads shelf.old shelf.new) image refusal.at refusal.obligation)) }
    ensures events { OfThreads words.now (λ image trace. (result.events.items ≡ [])
        ⊎ OfInputs (seen H.files H.reads shelf.old shelf.new) image trace (λ i t.
        ThreadsEnd (FnReturnsAt F.Fn victim.pick) i t result.events.items)) ⊎ (threads_of words.now ≡ None) }

    // The first fault of a file; one that a list is over its limit has a status of its own.
    ensures malformed { result.status ≡ MALFORMED → OfThreads words.now (λ image trace.
        IsBadInput (seen H.files H.reads shelf.old shelf.new) image trace result.file result.at result.column result.kind) }
    ensures within_limits { result.status ≡ MALFORMED → is_limit result.kind ≡ false }
    ensures over_limit { result.status ≡ TOO_LONG → is_limit result.kind ≡ true → OfThreads words.now (λ image trace.
        IsBadInput (seen H.files H.reads shelf.old shelf.new) image trace result.file result.at result.column result.kind) }

    // A trace with more caches than the image's limit.
    ensures limit { result.status ≡ LIMIT → OfThreads words.now (λ image trace.
        IsOverLimit (seen H.files H.reads shelf.old shelf.new) image trace) }

    // A file that gave no bytes, and what the shelf counted.
    ensures absent { result.status ≡ ABSENT → OfThreads words.now (λ image trace.
        IsMissingInput (seen H.files H.reads shelf.old shelf.new) image trace result.file
        (Rose (H.faults shelf.old) (H.faults shelf.new)) (Rose (H.misses shelf.old) (H.misses shelf.new)) unread.Absent) }
    ensures read_fault { result.status ≡ READ_FAULT → OfThreads words.now (λ image trace.
        IsMissingInput (seen H.files H.reads shelf.old shelf.new) image trace result.file
        (Rose (H.faults shelf.old) (H.faults shelf.new)) (Rose (H.misses shelf.old) (H.misses shelf.new)) unread.Failed) }
    ensures too_long { result.status ≡ TOO_LONG → is_limit result.kind ≡ false → OfThreads words.now (λ image trace.
        IsMissingInput (seen H.files H.reads shelf.old shelf.new) image trace result.file
        (Rose (H.faults shelf.old) (H.faults shelf.new)) (Rose (H.misses shelf.old) (H.misses shelf.new)) unread.TooLong) }

    // Where both files are there and suit it, and no read and no write fails, only want of memory keeps it from its end.
    ensures complete { OfThreads words.now (HasInputs (H.files shelf.old))
        → (Rose (H.faults shelf.old) (H.faults shelf.new) → ⊥) → (Rose (K.faults sink.old) (K.faults sink.new) → ⊥)
        → (result.status ≡ OK) ⊎ (result.status ≡ MEMORY) }

    // What stays: the sink where nothing is written, the shelf's files; no count falls.
    ensures unwritten { is_after_write result.status ≡ false → sink.new ≡ sink.old }
    ensures rest { LeavesRest result }
    ensures same_files { H.files shelf.new ≡ H.files shelf.old }
    ensures read_faults_kept { H.faults shelf.old ≤ H.faults shelf.new }
    ensures misses_kept { H.misses shelf.old ≤ H.misses shelf.new }
    ensures write_faults_kept { K.faults sink.old ≤ K.faults sink.new }
{
    let Some((image, trace)) = threads_of(words) else {
        return stopped(alloc, Stop::Usage);
    };
    match inputs_of(alloc, shelf, Output::Report, image, trace) {
        Ok(inputs) => replay(rt, alloc, &inputs, sink, victim, gate),
        Err(stop) => stopped(alloc, stop),
    }
}
