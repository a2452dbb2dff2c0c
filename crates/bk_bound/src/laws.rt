//! Laws over definitions alone: each function is empty, and its contract is the law.

ghost use Rattle.bk_bound.specs.Bound.{AcceptedImagesAreBounded};

/// Every run of an accepted image is short, whatever the configuration and the schedule: a list of lawful events of which each was
/// enabled has, for n instructions, at most (caches + 7) * n events of the engine for each operation that it issues, and n more; and
/// no more events in all than the budget of its operations. Where it issues the operations of a trace in order, it is within the
/// budget of the trace, and below it where the trace has an operation.
pub fn bounds()
    ensures bounded { AcceptedImagesAreBounded }
{}
