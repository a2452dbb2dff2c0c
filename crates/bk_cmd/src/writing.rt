//! Writing what is due.

ghost use Rattle.std.specs.Prelude.{◌≡◌, ◌≢◌, ◌≤◌, ◌++◌, IsTrue};
ghost use Rattle.bk_outer.specs.Counts.{Rose};
ghost use Rattle.bk_cmd.specs.Outcomes.{LeavesRest, is_after_write};
ghost use Rattle.bk_cmd.specs.Writes.{Wrote, WrotePart};

use crate::outcome::{MEMORY, OK, Outcome, WRITE_FAULT, ended};
use bk_outer::{Sink, WriteAnswer, write_all};
use bk_system::Event;

/// The status where a write was not taken.
fn status_of(cause: WriteAnswer) -> u8
    ensures failed { cause ≡ WriteAnswer.Failed → result ≡ WRITE_FAULT }
    ensures memory { cause ≡ WriteAnswer.Memory → result ≡ MEMORY }
{
    match cause {
        WriteAnswer::Failed => WRITE_FAULT,
        WriteAnswer::Memory => MEMORY,
    }
}

/// Writes two texts that are due, one after the other, after a run with these events, or none.
pub(crate) fn deliver<K: Sink>(
    sink: &mut K,
    first: &[u8],
    second: &[u8],
    events: Vec<Event>,
) -> Outcome
    ensures ok { result.status ≡ OK → Wrote (first.now ++ second.now) result (K.taken sink.old) (K.taken sink.new) }
    ensures part { result.status ≢ OK → WrotePart (first.now ++ second.now) result (K.taken sink.old) (K.taken sink.new) }
    ensures counted { result.status ≡ WRITE_FAULT → Rose (K.faults sink.old) (K.faults sink.new) }
    ensures status { IsTrue (is_after_write result.status) }
    ensures events { result.events.items ≡ events.items }
    ensures rest { LeavesRest result }
    ensures faults_kept { K.faults sink.old ≤ K.faults sink.new }
{
    if let Err(unwritten) = write_all(sink, first) {
        return ended(status_of(unwritten.cause), events, unwritten.written as u64);
    }
    let before = first.len() as u64;
    match write_all(sink, second) {
        Ok(()) => ended(OK, events, before + second.len() as u64),
        Err(unwritten) => ended(
            status_of(unwritten.cause),
            events,
            before + unwritten.written as u64,
        ),
    }
}
