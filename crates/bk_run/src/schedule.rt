//! The greedy schedule as a run goes by it: the least enabled event is found by making it, so that each event is decided once.
//! Channels that hold nothing, busy caches and classes that the engine doesn't wait for are passed over.

ghost use Rattle.std.specs.Prelude.{◌≡◌, ◌≤◌, ◌<◌, ◌⊎◌, length, Some, None, IfOk, IfSome, OnErr, MatchOption, slice_get};
ghost use Rattle.std.specs.Fn.{FnReturnsAt};
ghost use Rattle.bk_base.specs.Counting.{first_below};
ghost use Rattle.bk_isa.specs.declared.form.Form.TheVariants.{Wfq};
ghost use Rattle.bk_lce.specs.Policies.{IsPolicy};
ghost use Rattle.bk_run.specs.Greedy.{IsEnd, IsLeast, engine_event, if_enabled, least_other};
ghost use Rattle.bk_run.specs.Schedule.{AreThrough, Makes, heads, least_delivery, least_engine, least_fill, least_head};
ghost use Rattle.bk_system.specs.Events.{row};
ghost use Rattle.bk_system.specs.Lookups.{has_message};
ghost use Rattle.bk_system.specs.Next.{IsNextOf, IsNoneFrom};
ghost use Rattle.bk_system.specs.Systems.{state_of};
ghost use Rattle.bk_system.specs.declared.event.Event.TheVariants.{Command};

use crate::greedy::first_ready;
use bk_base::group_of;
use bk_engine::{CLASS_MEMORY, CLASS_NONE, CLASS_REQUEST, CLASS_RESPONSE, Choice, names_class};
use bk_isa::Instr;
use bk_lce::{Victim, WayView, address_of};
use bk_system::{Channel, Event, FILL_CHANNELS, Hardware, SENDERS};
use bk_trace::Trace;
use std::alloc::AllocError;

// Each function answers the event that it has made. It answers none where none is enabled, and an error where memory runs out; then
// nothing has changed.

/// Makes an event, if it is enabled, and answers it then. Where it isn't, or memory runs out, nothing has changed.
#[inline(always)]
pub fn make_enabled(
    hardware: &mut Hardware,
    program: &[Instr],
    event: Event,
) -> Result<Option<Event>, AllocError>
    requires { length program.now ≤ 256 }
    ensures made { Makes hardware.old.config program.now
        (if_enabled hardware.old.config program.now (state_of hardware.old) event) (state_of hardware.old) (state_of hardware.new)
        hardware.new.sent.items result }
    ensures config { hardware.new.config ≡ hardware.old.config }
{
    match hardware.step(program, &event) {
        Ok(true) => Ok(Some(event)),
        Ok(false) => Ok(None),
        Err(e) => Err(e),
    }
}

/// Makes the Engine event of a choice, if it is enabled.
#[inline(always)]
fn make_choice(
    hardware: &mut Hardware,
    program: &[Instr],
    class: u8,
    source: u8,
) -> Result<Option<Event>, AllocError>
    requires { length program.now ≤ 256 }
    ensures made { Makes hardware.old.config program.now
        (engine_event hardware.old.config program.now (state_of hardware.old) class source) (state_of hardware.old)
        (state_of hardware.new) hardware.new.sent.items result }
    ensures config { hardware.new.config ≡ hardware.old.config }
{
    let choice = Choice { class, source };
    make_enabled(hardware, program, Event::Engine { choice })
}

/// Makes the Engine event that names no channel, if it is enabled. Most are of internal instructions, which need no room.
#[inline(always)]
fn make_alone(hardware: &mut Hardware, program: &[Instr]) -> Result<Option<Event>, AllocError>
    requires { length program.now ≤ 256 }
    ensures made { Makes hardware.old.config program.now
        (engine_event hardware.old.config program.now (state_of hardware.old) CLASS_NONE 0) (state_of hardware.old)
        (state_of hardware.new) hardware.new.sent.items result }
    ensures config { hardware.new.config ≡ hardware.old.config }
{
    if !hardware.step_internal(program) {
        return make_choice(hardware, program, CLASS_NONE, 0);
    }
    let choice = Choice {
        class: CLASS_NONE,
        source: 0,
    };
    Ok(Some(Event::Engine { choice }))
}

/// The least cache from a start on whose channel of a class, of responses or of requests, holds a message.
fn next_head(hardware: &Hardware, class: u8, start: u8) -> Option<u8>
    requires { (class ≡ CLASS_RESPONSE) ⊎ (class ≡ CLASS_REQUEST) }
    ensures { MatchOption result (IsNoneFrom hardware.now.config.caches start (has_message (heads (state_of hardware.now) class)))
        (IsNextOf hardware.now.config.caches start (has_message (heads (state_of hardware.now) class))) }
{
    if class == CLASS_RESPONSE {
        hardware.next_response(start)
    } else {
        hardware.next_request(start)
    }
}

/// Makes the least Engine event of a class, of responses or of requests, at a `wfq` of these classes.
fn make_of_class(
    hardware: &mut Hardware,
    program: &[Instr],
    classes: u8,
    class: u8,
) -> Result<Option<Event>, AllocError>
    requires few { length program.now ≤ 256 }
    requires waits { slice_get program.now (state_of hardware.old).engine.core.place ≡ Some (Wfq classes) }
    requires class { (class ≡ CLASS_RESPONSE) ⊎ (class ≡ CLASS_REQUEST) }
    ensures made { Makes hardware.old.config program.now
        (first_below hardware.old.config.caches (engine_event hardware.old.config program.now (state_of hardware.old) class))
        (state_of hardware.old) (state_of hardware.new) hardware.new.sent.items result }
    ensures config { hardware.new.config ≡ hardware.old.config }
{
    if !names_class(classes, class) {
        return Ok(None);
    }
    let mut start = 0;
    for _ in 0..hardware.cache_count() {
        let Some(source) = next_head(hardware, class, start) else {
            return Ok(None);
        };
        match make_choice(hardware, program, class, source) {
            Ok(Some(event)) => return Ok(Some(event)),
            Ok(None) => {}
            Err(e) => return Err(e),
        }
        start = source + 1;
    }
    Ok(None)
}

/// Makes the Engine event that takes the memory's answer, if there is one, at a `wfq` of these classes.
fn make_answer(
    hardware: &mut Hardware,
    program: &[Instr],
    classes: u8,
) -> Result<Option<Event>, AllocError>
    requires few { length program.now ≤ 256 }
    requires waits { slice_get program.now (state_of hardware.old).engine.core.place ≡ Some (Wfq classes) }
    ensures made { Makes hardware.old.config program.now
        (engine_event hardware.old.config program.now (state_of hardware.old) CLASS_MEMORY 0)
        (state_of hardware.old) (state_of hardware.new) hardware.new.sent.items result }
    ensures config { hardware.new.config ≡ hardware.old.config }
{
    if !names_class(classes, CLASS_MEMORY) {
        return Ok(None);
    }
    if hardware.head(Channel::Memin).is_none() {
        return Ok(None);
    }
    make_choice(hardware, program, CLASS_MEMORY, 0)
}

/// Makes the least Engine event that takes a head, at a `wfq` of these classes: of a response, of the memory's answer, of a request.
fn make_head(
    hardware: &mut Hardware,
    program: &[Instr],
    classes: u8,
) -> Result<Option<Event>, AllocError>
    requires few { length program.now ≤ 256 }
    requires waits { slice_get program.now (state_of hardware.old).engine.core.place ≡ Some (Wfq classes) }
    ensures made { Makes hardware.old.config program.now (least_head hardware.old.config program.now (state_of hardware.old))
        (state_of hardware.old) (state_of hardware.new) hardware.new.sent.items result }
    ensures config { hardware.new.config ≡ hardware.old.config }
{
    match make_of_class(hardware, program, classes, CLASS_RESPONSE) {
        Ok(Some(event)) => return Ok(Some(event)),
        Ok(None) => {}
        Err(e) => return Err(e),
    }
    match make_answer(hardware, program, classes) {
        Ok(Some(event)) => return Ok(Some(event)),
        Ok(None) => {}
        Err(e) => return Err(e),
    }
    make_of_class(hardware, program, classes, CLASS_REQUEST)
}

/// Makes the least Engine event: without a class, or of a response, the memory's answer or a request, by source. It answers the event, or
/// none where none is enabled. Then, and where memory runs out, nothing has changed.
#[inline(always)]
pub fn make_engine(hardware: &mut Hardware, program: &[Instr]) -> Result<Option<Event>, AllocError>
    requires { length program.now ≤ 256 }
    ensures made { Makes hardware.old.config program.now (least_engine hardware.old.config program.now (state_of hardware.old))
        (state_of hardware.old) (state_of hardware.new) hardware.new.sent.items result }
    ensures config { hardware.new.config ≡ hardware.old.config }
{
    match hardware.waits_for(program) {
        None => make_alone(hardware, program),
        Some(classes) => make_head(hardware, program, classes),
    }
}

/// Makes the least Command event.
fn make_command(hardware: &mut Hardware, program: &[Instr]) -> Result<Option<Event>, AllocError>
    requires { length program.now ≤ 256 }
    ensures made { Makes hardware.old.config program.now
        (first_below hardware.old.config.caches
        (λ c. if_enabled hardware.old.config program.now (state_of hardware.old) (Command c)))
        (state_of hardware.old) (state_of hardware.new) hardware.new.sent.items result }
    ensures config { hardware.new.config ≡ hardware.old.config }
{
    let mut start = 0;
    for _ in 0..hardware.cache_count() {
        let Some(cache) = hardware.next_command(start) else {
            return Ok(None);
        };
        match make_enabled(hardware, program, Event::Command { cache }) {
            Ok(Some(event)) => return Ok(Some(event)),
            Ok(None) => {}
            Err(e) => return Err(e),
        }
        start = cache + 1;
    }
    Ok(None)
}

/// Makes the least Fill event.
fn make_fill(hardware: &mut Hardware, program: &[Instr]) -> Result<Option<Event>, AllocError>
    requires { length program.now ≤ 256 }
    ensures made { Makes hardware.old.config program.now (least_fill hardware.old.config program.now (state_of hardware.old))
        (state_of hardware.old) (state_of hardware.new) hardware.new.sent.items result }
    ensures config { hardware.new.config ≡ hardware.old.config }
{
    let mut start = 0;
    for _ in 0..FILL_CHANNELS {
        let Some(place) = hardware.next_fill(start) else {
            return Ok(None);
        };
        let event = Event::Fill {
            to: place / SENDERS,
            from: place % SENDERS,
        };
        match make_enabled(hardware, program, event) {
            Ok(Some(event)) => return Ok(Some(event)),
            Ok(None) => {}
            Err(e) => return Err(e),
        }
        start = place as u16 + 1;
    }
    Ok(None)
}

/// Makes the least event by which a cache or the memory takes a message.
fn make_delivery(hardware: &mut Hardware, program: &[Instr]) -> Result<Option<Event>, AllocError>
    requires { length program.now ≤ 256 }
    ensures made { Makes hardware.old.config program.now (least_delivery hardware.old.config program.now (state_of hardware.old))
        (state_of hardware.old) (state_of hardware.new) hardware.new.sent.items result }
    ensures config { hardware.new.config ≡ hardware.old.config }
{
    match make_command(hardware, program) {
        Ok(Some(event)) => return Ok(Some(event)),
        Ok(None) => {}
        Err(e) => return Err(e),
    }
    match make_fill(hardware, program) {
        Ok(Some(event)) => return Ok(Some(event)),
        Ok(None) => {}
        Err(e) => return Err(e),
    }
    make_enabled(hardware, program, Event::Memory)
}

/// Makes the least enabled event of the greedy order but for Issue.
#[inline(always)]
fn make_other(hardware: &mut Hardware, program: &[Instr]) -> Result<Option<Event>, AllocError>
    requires { length program.now ≤ 256 }
    ensures made { Makes hardware.old.config program.now (least_other hardware.old.config program.now (state_of hardware.old))
        (state_of hardware.old) (state_of hardware.new) hardware.new.sent.items result }
    ensures config { hardware.new.config ≡ hardware.old.config }
{
    match make_engine(hardware, program) {
        Ok(Some(event)) => return Ok(Some(event)),
        Ok(None) => {}
        Err(e) => return Err(e),
    }
    make_delivery(hardware, program)
}

/// Makes the least enabled event of the greedy order; the way of an Issue is the policy's answer to the views of its set. The first
/// `finished` caches have done their whole trace.
pub(crate) fn make_least<F: Fn(&[WayView]) -> u8 + Copy + Send>(
    hardware: &mut Hardware,
    victim: &Victim<F>,
    program: &[Instr],
    trace: &Trace,
    finished: u8,
) -> Result<Option<Event>, AllocError>
    requires few { length program.now ≤ 256 }
    requires config { trace.now.config ≡ hardware.old.config }
    requires finished { AreThrough (state_of hardware.old) trace.now.lines finished }
    requires policy { IsPolicy F.Fn victim.now.pick }
    ensures none { IfOk result (λ o. o ≡ None → IsEnd hardware.old.config program.now (state_of hardware.old) trace.now.lines) }
    ensures least { IfOk result (λ o. IfSome o (λ event. IsLeast (FnReturnsAt F.Fn victim.now.pick) hardware.old.config program.now
        (state_of hardware.old) trace.now.lines event)) }
    ensures row { IfOk result (λ o. IfSome o (λ event.
        row hardware.old.config program.now (state_of hardware.old) event
        ≡ Some (record { state = state_of hardware.new; sent = hardware.new.sent.items }))) }
    ensures still { IfOk result (λ o. o ≡ None → state_of hardware.new ≡ state_of hardware.old) }
    ensures err { OnErr result (state_of hardware.new ≡ state_of hardware.old) }
    ensures config { hardware.new.config ≡ hardware.old.config }
{
    let config = trace.config();
    match first_ready(hardware, program, trace, finished) {
        None => make_other(hardware, program),
        Some((cache, op)) => {
            let set = group_of(config, address_of(&op));
            let way = victim.choose(hardware.cache(cache), set);
            make_enabled(hardware, program, Event::Issue { cache, way, op })
        }
    }
}
