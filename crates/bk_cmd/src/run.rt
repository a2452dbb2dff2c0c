//! Doing what a command line asks for.

ghost use Rattle.std.specs.Prelude.{◌≡◌, ◌≤◌, ◌<◌, ◌⊎◌, ◌↔◌, None, true, false, IsTrue};
ghost use Rattle.std.specs.Fn.{FnReturnsAt};
ghost use Rattle.bk_lce.specs.Policies.{IsPolicy};
ghost use Rattle.bk_outer.specs.Counts.{Rose};
ghost use Rattle.bk_cmd.specs.Ends.{OfCommand, EndsWhole, EndsInPart, EndsRefused, EndsBad, TellsEvents};
ghost use Rattle.bk_cmd.specs.Inputs.{seen, ReadsFirst};
ghost use Rattle.bk_cmd.specs.Needs.{HasFiles};
ghost use Rattle.bk_cmd.specs.Outcomes.{LeavesRest, is_status, is_after_write, is_limit};
ghost use Rattle.bk_cmd.specs.Stops.{IsMissing, IsOver};
ghost use Rattle.bk_cmd.specs.Words.{command_of, names_of};
ghost use Rattle.bk_cmd.specs.declared.outcome.Unread.TheVariants as unread;

use crate::answers::{answer_of, drawn};
use crate::inputs::inputs_of;
use crate::outcome::{
    ABSENT, LIMIT, MALFORMED, MEMORY, OK, Outcome, READ_FAULT, REFUSED, Stop, TOO_LONG, USAGE,
    WRITE_FAULT, stopped,
};
use crate::replay::replay;
use crate::words::{Command, command_of};
use crate::writing::deliver;
use bk_lce::{Victim, WayView};
use bk_outer::{Shelf, Sink};
use std::alloc::Global;

/// Does what the words ask for, with the files of the shelf, and writes to the sink what is due:
///
/// - `verify IMAGE`: `accepted` and a line's end, where the image is accepted (`docs/OBLIGATIONS.md`);
/// - `asm TEXT`: the bytes of the image that the text spells (`docs/ASSEMBLY.md`);
/// - `dis IMAGE`: the canonical text of the image;
/// - `proto NAME`: the source of the program `ei`, `msi`, `mesi` or `moesif`, or of `ei16`, `msi16`, `mesi16` or `moesif16`;
/// - `gen SEED CACHES SETS WAYS OPS`: the canonical text of the trace that is drawn from the seed (`docs/FILES.md`);
/// - `replay serial IMAGE TRACE`: the report of the greedy run of the image over the trace;
/// - `replay log IMAGE TRACE`: the log of that run, and then its report.
///
/// The words are judged first. Then each file is read and checked, in their order; `verify` gives its verdict, and so does a
/// replay, before it reads its trace, compares its caches with the image's limit, and makes its run; then comes the writing. What is met
/// first is answered, by a status:
///
/// - `OK`: the sink took all that is due, and a run is complete;
/// - `MEMORY`: memory ran out, at any moment after the words;
/// - `USAGE`: the words are no command;
/// - `REFUSED`: the image is not accepted, by `refusal`;
/// - `MALFORMED`: a file is not of its grammar;
/// - `ABSENT`: there is no such file;
/// - `READ_FAULT`: a file could not be read;
/// - `WRITE_FAULT`: the sink failed, and took `written` bytes of what is due;
/// - `TOO_LONG`: a file has too many bytes, an image or a text too many instructions, or a trace too many operations;
/// - `LIMIT`: the trace of a replay has more caches than the limit of its image.
///
/// Each operation of a replay begins with the way that the victim policy answers for it. Only an image that is accepted is
/// replayed, and its run is coherent at the opening and after each of its events (`docs/COHERENCE.md`). It comes to its end, complete,
/// whatever the trace.
pub fn run_plain<H: Shelf, K: Sink, F: Fn(&[WayView]) -> u8 + Copy + Send>(
    alloc: Global,
    words: &[String],
    shelf: &mut H,
    sink: &mut K,
    victim: Victim<F>,
) -> Outcome
    requires { IsPolicy F.Fn victim.pick }
    ensures status { IsTrue (is_status result.status) }

    // Exactly the words that are no command are answered so, before anything else.
    ensures usage { (result.status ≡ USAGE) ↔ (command_of words.now ≡ None) }
    ensures unread { result.status ≡ USAGE → shelf.new ≡ shelf.old }

    // Of the files that the words name, the first few were read, each once, in order. Nothing else was.
    ensures reads { OfCommand words.now (λ command.
        ReadsFirst (names_of command) (seen H.files H.reads shelf.old shelf.new)) ⊎ (command_of words.now ≡ None) }

    // All that is due of the bytes that the reads gave was written, and nothing else.
    ensures ok { result.status ≡ OK → OfCommand words.now (λ command.
        EndsWhole (FnReturnsAt F.Fn victim.pick) (seen H.files H.reads shelf.old shelf.new) command result
        (K.taken sink.old) (K.taken sink.new)) }

    // The first bytes of what is due were written, as many as are told, and nothing else.
    ensures write_fault { result.status ≡ WRITE_FAULT → OfCommand words.now (λ command.
        EndsInPart (FnReturnsAt F.Fn victim.pick) (seen H.files H.reads shelf.old shelf.new) command result
        (K.taken sink.old) (K.taken sink.new)) }
    ensures write_counted { result.status ≡ WRITE_FAULT → Rose (K.faults sink.old) (K.faults sink.new) }
    ensures memory_part { result.status ≡ MEMORY → 0 < result.written → OfCommand words.now (λ command.
        EndsInPart (FnReturnsAt F.Fn victim.pick) (seen H.files H.reads shelf.old shelf.new) command result
        (K.taken sink.old) (K.taken sink.new)) }
    ensures memory_none { result.status ≡ MEMORY → result.written ≡ 0 → K.taken sink.new ≡ K.taken sink.old }

    // The verdict on an image, and the events of a run.
    ensures refused { result.status ≡ REFUSED → OfCommand words.now (λ command.
        EndsRefused (seen H.files H.reads shelf.old shelf.new) command result) }
    ensures events { OfCommand words.now (λ command.
        TellsEvents (FnReturnsAt F.Fn victim.pick) (seen H.files H.reads shelf.old shelf.new) command result)
        ⊎ (command_of words.now ≡ None) }

    // The first fault of a file; one that a list is over its limit has a status of its own.
    ensures malformed { result.status ≡ MALFORMED → OfCommand words.now (λ command.
        EndsBad (seen H.files H.reads shelf.old shelf.new) command result) }
    ensures within_limits { result.status ≡ MALFORMED → is_limit result.kind ≡ false }
    ensures over_limit { result.status ≡ TOO_LONG → is_limit result.kind ≡ true → OfCommand words.now (λ command.
        EndsBad (seen H.files H.reads shelf.old shelf.new) command result) }

    // A trace with more caches than the image's limit.
    ensures limit { result.status ≡ LIMIT → OfCommand words.now (λ command.
        IsOver (seen H.files H.reads shelf.old shelf.new) command) }

    // A file that gave no bytes, and what the shelf counted.
    ensures absent { result.status ≡ ABSENT → OfCommand words.now (λ command.
        IsMissing (seen H.files H.reads shelf.old shelf.new) command result.file
        (Rose (H.faults shelf.old) (H.faults shelf.new)) (Rose (H.misses shelf.old) (H.misses shelf.new)) unread.Absent) }
    ensures read_fault { result.status ≡ READ_FAULT → OfCommand words.now (λ command.
        IsMissing (seen H.files H.reads shelf.old shelf.new) command result.file
        (Rose (H.faults shelf.old) (H.faults shelf.new)) (Rose (H.misses shelf.old) (H.misses shelf.new)) unread.Failed) }
    ensures too_long { result.status ≡ TOO_LONG → is_limit result.kind ≡ false → OfCommand words.now (λ command.
        IsMissing (seen H.files H.reads shelf.old shelf.new) command result.file
        (Rose (H.faults shelf.old) (H.faults shelf.new)) (Rose (H.misses shelf.old) (H.misses shelf.new)) unread.TooLong) }

    // Where each file of the command is there and suits it, and no read and no write fails, only want of memory keeps it from its end.
    ensures complete { OfCommand words.now (HasFiles (H.files shelf.old))
        → (Rose (H.faults shelf.old) (H.faults shelf.new) → ⊥) → (Rose (K.faults sink.old) (K.faults sink.new) → ⊥)
        → (result.status ≡ OK) ⊎ (result.status ≡ MEMORY) }

    // What stays: the sink where nothing is written, the shelf's files; no count falls.
    ensures unwritten { is_after_write result.status ≡ false → sink.new ≡ sink.old }
    ensures rest { LeavesRest result }
    ensures same_files { H.files shelf.new ≡ H.files shelf.old }
    ensures read_faults_kept { H.faults shelf.old ≤ H.faults shelf.new }
    ensures misses_kept { H.misses shelf.old ≤ H.misses shelf.new }
    ensures write_faults_kept { K.faults sink.old ≤ K.faults sink.new }
{
    let Some(command) = command_of(words) else {
        return stopped(alloc, Stop::Usage);
    };
    match command {
        Command::OfFile { question, name } => match answer_of(alloc, shelf, question, name) {
            Ok(text) => deliver(sink, &text, &[], Vec::new(alloc)),
            Err(stop) => stopped(alloc, stop),
        },
        Command::Source { text } => deliver(sink, text, &[], Vec::new(alloc)),
        Command::Generate {
            seed,
            config,
            operations,
        } => match drawn(alloc, seed, config, operations) {
            Ok(text) => deliver(sink, &text, &[], Vec::new(alloc)),
            Err(_) => stopped(alloc, Stop::Memory),
        },
        Command::Replay {
            output,
            image,
            trace,
        } => match inputs_of(alloc, shelf, output, image, trace) {
            Ok(inputs) => replay(alloc, &inputs, &victim, sink),
            Err(stop) => stopped(alloc, stop),
        },
    }
}
