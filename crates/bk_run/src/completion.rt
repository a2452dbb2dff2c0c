ghost use Rattle.std.specs.Prelude.{◌≡◌, ℕ, IfOk, IsTrue, ◌↔◌};
ghost use Rattle.bk_system.specs.Runs.{issued_by, completed_by, IsPrefix, IsInOrder};
ghost use Rattle.bk_system.specs.Systems.{state_of};
ghost use Rattle.bk_run.specs.Completion.{IsWhole, IsDone, HasAsMany, IsFinished};

use bk_base::{Done, Op};
use bk_isa::Instr;
use bk_system::{Event, Hardware};
use bk_trace::Trace;
use std::alloc::{AllocError, Global};

// Each function that answers a `Result` fails only where memory runs out.

/// The Issues of a list of events, in order. There are far fewer of them.
fn issues_of(alloc: Global, events: &[Event]) -> Result<Vec<Event>, AllocError>
    ensures { IfOk result (λ v. (c : ℕ) → issued_by c v.items ≡ issued_by c events.now) }
{
    let mut issues = Vec::new(alloc);
    for event in events {
        if let Event::Issue { .. } = event {
            issues.push(*event)?;
        }
    }
    Ok(issues)
}

/// The operations that a list of events has a cache issue, in order.
fn issued_by(alloc: Global, cache: u8, events: &[Event]) -> Result<Vec<Op>, AllocError>
    ensures { IfOk result (λ v. v.items ≡ issued_by cache events.now) }
{
    let mut issued = Vec::new(alloc);
    for event in events {
        if let Event::Issue { cache: at, op, .. } = event {
            if *at == cache {
                issued.push(*op)?;
            }
        }
    }
    Ok(issued)
}

/// The operations of a cache in a history, in order.
fn completed_by(alloc: Global, cache: u8, history: &[Done]) -> Result<Vec<Op>, AllocError>
    ensures { IfOk result (λ v. v.items ≡ completed_by cache history.now) }
{
    let mut completed = Vec::new(alloc);
    for done in history {
        if done.cache == cache {
            completed.push(done.op)?;
        }
    }
    Ok(completed)
}

/// Whether the second list begins with the first.
fn is_prefix(xs: &[Op], ys: &[Op]) -> bool
    ensures { IsTrue result ↔ IsPrefix xs.now ys.now }
{
    ys.starts_with(xs)
}

/// Whether the two lists are the same.
fn is_same(xs: &[Op], ys: &[Op]) -> bool
    ensures { IsTrue result ↔ (xs.now ≡ ys.now) }
{
    xs == ys
}

/// Whether each cache issues its operations of the trace in order, and perhaps not all of them.
fn is_in_order(alloc: Global, trace: &Trace, events: &[Event]) -> Result<bool, AllocError>
    ensures { IfOk result (λ b. IsTrue b ↔ IsInOrder trace.now.config trace.now.lines events.now) }
{
    let config = trace.config();
    let issues = issues_of(alloc, events)?;
    for cache in 0..config.caches {
        let issued = issued_by(alloc, cache, &issues)?;
        let operations = trace.operations(alloc, cache)?;
        if !is_prefix(&issued, &operations) {
            return Ok(false);
        }
    }
    Ok(true)
}

/// Whether each cache has completed its whole trace.
fn is_whole(alloc: Global, trace: &Trace, history: &[Done]) -> Result<bool, AllocError>
    ensures { IfOk result (λ b. IsTrue b ↔ IsWhole trace.now.config trace.now.lines history.now) }
{
    let config = trace.config();
    for cache in 0..config.caches {
        let completed = completed_by(alloc, cache, history)?;
        let operations = trace.operations(alloc, cache)?;
        if !is_same(&completed, &operations) {
            return Ok(false);
        }
    }
    Ok(true)
}

/// Whether a list of events does all of a trace: the events are in order, their history holds the whole trace,
/// and the system rests after them.
pub(crate) fn is_done(
    alloc: Global,
    trace: &Trace,
    events: &[Event],
    history: &[Done],
    rested: bool,
) -> Result<bool, AllocError>
    ensures { IfOk result (λ b. IsTrue b ↔ IsDone trace.now.config trace.now.lines events.now history.now rested) }
{
    Ok(rested && is_in_order(alloc, trace, events)? && is_whole(alloc, trace, history)?)
}

/// Whether each cache has completed as many operations as it has in the trace.
fn has_as_many(hardware: &Hardware, trace: &Trace) -> bool
    requires { trace.now.config ≡ hardware.now.config }
    ensures { IsTrue result ↔ HasAsMany hardware.now.config trace.now.lines (state_of hardware.now).history }
{
    for cache in 0..hardware.cache_count() {
        if hardware.completed(cache) != trace.count(cache) {
            return false;
        }
    }
    true
}

/// Whether a greedy run does all of its trace. As it is made it is in order, and what a cache has completed are the first of its
/// operations: so they are counted and not compared.
pub(crate) fn is_finished(hardware: &Hardware, program: &[Instr], trace: &Trace) -> bool
    requires { trace.now.config ≡ hardware.now.config }
    ensures { IsTrue result ↔ IsFinished hardware.now.config program.now trace.now.lines (state_of hardware.now) }
{
    hardware.rested(program) && has_as_many(hardware, trace)
}
