ghost use Rattle.std.specs.Prelude.{◌≡◌, ◌≤◌, ◌<◌, length, IfSome, MatchOption};
ghost use Rattle.std.specs.Option.{option_copied};
ghost use Rattle.std.specs.Fn.{FnReturnsAt};
ghost use Rattle.bk_base.specs.Counting.{first_below};
ghost use Rattle.bk_lce.specs.Policies.{IsPolicy};
ghost use Rattle.bk_run.specs.Greedy.{ready_operation, engine_event, fill_event, if_enabled, least_other, next_operation, IsLeast, IsEnd};
ghost use Rattle.bk_run.specs.Schedule.{AreThrough};
ghost use Rattle.bk_system.specs.Systems.{state_of};
ghost use Rattle.bk_system.specs.declared.event.Event.TheVariants.{Command};

use bk_base::{Op, group_of};
use bk_engine::{CLASS_MEMORY, CLASS_NONE, CLASS_REQUEST, CLASS_RESPONSE, Choice};
use bk_isa::Instr;
use bk_lce::{Victim, WayView, address_of};
use bk_system::{Event, Hardware};
use bk_trace::Trace;

/// The next operation of a cache in the trace: number n of its own, where n is how many have completed.
fn next_operation<'a>(hardware: &Hardware, trace: &'a Trace, cache: u8) -> Option<&'a Op>
    requires config { trace.now.config ≡ hardware.now.config }
    requires cache { cache < hardware.now.config.caches }
    ensures { option_copied result ≡ next_operation (state_of hardware.now) trace.now.lines cache }
{
    trace.operation(cache, hardware.completed(cache))
}

/// The event, if it is enabled.
fn if_enabled(hardware: &Hardware, program: &[Instr], event: Event) -> Option<Event>
    requires { length program.now ≤ 256 }
    ensures { result ≡ if_enabled hardware.now.config program.now (state_of hardware.now) event }
{
    if hardware.enabled(program, &event) {
        Some(event)
    } else {
        None
    }
}

/// A cache with its next operation in the trace, if there is one and the cache may issue it. Whether it may doesn't depend on the way.
pub fn ready_operation(
    hardware: &Hardware,
    program: &[Instr],
    trace: &Trace,
    cache: u8,
) -> Option<(u8, Op)>
    requires few { length program.now ≤ 256 }
    requires config { trace.now.config ≡ hardware.now.config }
    requires cache { cache < hardware.now.config.caches }
    ensures own { IfSome result (λ at. at.0 ≡ cache) }
    ensures value { result ≡ ready_operation hardware.now.config program.now (state_of hardware.now) trace.now.lines cache }
{
    match next_operation(hardware, trace, cache) {
        None => None,
        Some(op) => {
            let issue = Event::Issue {
                cache,
                way: 0,
                op: *op,
            };
            if hardware.enabled(program, &issue) {
                Some((cache, *op))
            } else {
                None
            }
        }
    }
}

/// How many of the first caches are known to have done their whole trace after an event, from how many were before it: one more, if the
/// next one has too. No event of the engine completes an operation.
pub(crate) fn past_finished(hardware: &Hardware, trace: &Trace, event: &Event, finished: u8) -> u8
    requires config { trace.now.config ≡ hardware.now.config }
    requires finished { AreThrough (state_of hardware.now) trace.now.lines finished }
    ensures { AreThrough (state_of hardware.now) trace.now.lines result }
{
    if matches!(event, Event::Engine { .. }) {
        return finished;
    }
    if finished < hardware.cache_count() && trace.count(finished) <= hardware.completed(finished) {
        finished + 1
    } else {
        finished
    }
}

/// The first cache that may issue its next operation, with it. The first `finished` caches have none and aren't asked.
pub(crate) fn first_ready(
    hardware: &Hardware,
    program: &[Instr],
    trace: &Trace,
    finished: u8,
) -> Option<(u8, Op)>
    requires few { length program.now ≤ 256 }
    requires config { trace.now.config ≡ hardware.now.config }
    requires finished { AreThrough (state_of hardware.now) trace.now.lines finished }
    ensures cache { IfSome result (λ at. at.0 < hardware.now.config.caches) }
    ensures first { result ≡ first_below hardware.now.config.caches
        (ready_operation hardware.now.config program.now (state_of hardware.now) trace.now.lines) }
{
    let mut start = finished;
    for _ in 0..hardware.cache_count() {
        let Some(cache) = hardware.next_idle(start) else {
            return None;
        };
        match ready_operation(hardware, program, trace, cache) {
            None => {}
            Some(at) => return Some(at),
        }
        start = cache + 1;
    }
    None
}

fn engine_event(hardware: &Hardware, program: &[Instr], class: u8, source: u8) -> Option<Event>
    requires { length program.now ≤ 256 }
    ensures { result ≡ engine_event hardware.now.config program.now (state_of hardware.now) class source }
{
    if_enabled(
        hardware,
        program,
        Event::Engine {
            choice: Choice { class, source },
        },
    )
}

fn first_engine(hardware: &Hardware, program: &[Instr], class: u8) -> Option<Event>
    requires { length program.now ≤ 256 }
    ensures { result ≡ first_below hardware.now.config.caches
        (engine_event hardware.now.config program.now (state_of hardware.now) class) }
{
    for source in 0..hardware.cache_count() {
        match engine_event(hardware, program, class, source) {
            None => {}
            Some(event) => return Some(event),
        }
    }
    None
}

fn first_command(hardware: &Hardware, program: &[Instr]) -> Option<Event>
    requires { length program.now ≤ 256 }
    ensures { result ≡ first_below hardware.now.config.caches
        (λ c. if_enabled hardware.now.config program.now (state_of hardware.now) (Command c)) }
{
    for cache in 0..hardware.cache_count() {
        match if_enabled(hardware, program, Event::Command { cache }) {
            None => {}
            Some(event) => return Some(event),
        }
    }
    None
}

fn fill_event(hardware: &Hardware, program: &[Instr], to: u8, from: u8) -> Option<Event>
    requires { length program.now ≤ 256 }
    ensures { result ≡ fill_event hardware.now.config program.now (state_of hardware.now) to from }
{
    if_enabled(hardware, program, Event::Fill { to, from })
}

fn first_fill_to(hardware: &Hardware, program: &[Instr], to: u8) -> Option<Event>
    requires { length program.now ≤ 256 }
    ensures { result ≡ first_below hardware.now.config.caches (fill_event hardware.now.config program.now (state_of hardware.now) to) }
{
    for from in 0..hardware.cache_count() {
        match fill_event(hardware, program, to, from) {
            None => {}
            Some(event) => return Some(event),
        }
    }
    None
}

fn first_fill(hardware: &Hardware, program: &[Instr]) -> Option<Event>
    requires { length program.now ≤ 256 }
    ensures { result ≡ first_below hardware.now.config.caches
        (λ to. first_below hardware.now.config.caches (fill_event hardware.now.config program.now (state_of hardware.now) to)) }
{
    for to in 0..hardware.cache_count() {
        match first_fill_to(hardware, program, to) {
            None => {}
            Some(event) => return Some(event),
        }
    }
    None
}

/// The least enabled event of the greedy order but for Issue.
pub(crate) fn least_other(hardware: &Hardware, program: &[Instr]) -> Option<Event>
    requires { length program.now ≤ 256 }
    ensures { result ≡ least_other hardware.now.config program.now (state_of hardware.now) }
{
    if let Some(event) = engine_event(hardware, program, CLASS_NONE, 0) {
        return Some(event);
    }
    if let Some(event) = first_engine(hardware, program, CLASS_RESPONSE) {
        return Some(event);
    }
    if let Some(event) = engine_event(hardware, program, CLASS_MEMORY, 0) {
        return Some(event);
    }
    if let Some(event) = first_engine(hardware, program, CLASS_REQUEST) {
        return Some(event);
    }
    if let Some(event) = first_command(hardware, program) {
        return Some(event);
    }
    if let Some(event) = first_fill(hardware, program) {
        return Some(event);
    }
    if_enabled(hardware, program, Event::Memory)
}

/// The least enabled event of the greedy order; the way of an Issue is the policy's answer to the views of its set.
pub(crate) fn least_of<F: Fn(&[WayView]) -> u8 + Copy + Send>(
    hardware: &Hardware,
    victim: &Victim<F>,
    program: &[Instr],
    trace: &Trace,
) -> Option<Event>
    requires few { length program.now ≤ 256 }
    requires config { trace.now.config ≡ hardware.now.config }
    requires policy { IsPolicy F.Fn victim.now.pick }
    ensures { MatchOption result (IsEnd hardware.now.config program.now (state_of hardware.now) trace.now.lines)
        (IsLeast (FnReturnsAt F.Fn victim.now.pick) hardware.now.config program.now (state_of hardware.now) trace.now.lines) }
{
    let config = trace.config();
    match first_ready(hardware, program, trace, 0) {
        None => least_other(hardware, program),
        Some((cache, op)) => {
            let set = group_of(config, address_of(&op));
            let way = victim.choose(hardware.cache(cache), set);
            Some(Event::Issue { cache, way, op })
        }
    }
}
