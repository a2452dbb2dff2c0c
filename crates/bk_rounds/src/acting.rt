ghost use Rattle.std.specs.Prelude.{◌≡◌, ◌<◌, ◌≤◌, ◌+◌, length, IfOk};
ghost use Rattle.std.specs.Fn.{FnReturnsAt};
ghost use Rattle.bk_lce.specs.Policies.{IsPolicy};
ghost use Rattle.bk_run.specs.Greedy.{fill_event};
ghost use Rattle.bk_run.specs.Schedule.{Makes};
ghost use Rattle.bk_base.specs.Counting.{first_below};
ghost use Rattle.bk_system.specs.Systems.{state_of};
ghost use Rattle.bk_rounds.specs.Tasks.{task_of, least_delivery_to};
ghost use Rattle.bk_rounds.specs.Moves.{Acts};

use bk_base::group_of;
use bk_isa::Instr;
use bk_lce::{Victim, WayView, address_of};
use bk_run::{make_enabled, make_engine, ready_operation};
use bk_system::{Event, Hardware};
use bk_trace::Trace;
use std::alloc::AllocError;

/// Makes the least Fill event of a cache, by sender.
fn make_fill(
    hardware: &mut Hardware,
    program: &[Instr],
    cache: u8,
) -> Result<Option<Event>, AllocError>
    requires { length program.now ≤ 256 }
    ensures made { Makes hardware.old.config program.now
        (first_below hardware.old.config.caches (fill_event hardware.old.config program.now (state_of hardware.old) cache))
        (state_of hardware.old) (state_of hardware.new) hardware.new.sent.items result }
    ensures config { hardware.new.config ≡ hardware.old.config }
{
    for from in 0..hardware.cache_count() {
        match make_enabled(hardware, program, Event::Fill { to: cache, from }) {
            Ok(Some(event)) => return Ok(Some(event)),
            Ok(None) => {}
            Err(e) => return Err(e),
        }
    }
    Ok(None)
}

/// Makes the least event by which a cache takes a message: its command, or a fill by sender.
fn make_delivery(
    hardware: &mut Hardware,
    program: &[Instr],
    cache: u8,
) -> Result<Option<Event>, AllocError>
    requires { length program.now ≤ 256 }
    ensures made { Makes hardware.old.config program.now
        (least_delivery_to hardware.old.config program.now (state_of hardware.old) cache)
        (state_of hardware.old) (state_of hardware.new) hardware.new.sent.items result }
    ensures config { hardware.new.config ≡ hardware.old.config }
{
    match make_enabled(hardware, program, Event::Command { cache }) {
        Ok(Some(event)) => Ok(Some(event)),
        Ok(None) => make_fill(hardware, program, cache),
        Err(e) => Err(e),
    }
}

/// Makes the next event of a cache: its next operation, with the way that the policy answers, or the message that it takes.
fn make_of_cache<F: Fn(&[WayView]) -> u8 + Copy + Send>(
    hardware: &mut Hardware,
    cache: u8,
    victim: &Victim<F>,
    program: &[Instr],
    trace: &Trace,
) -> Result<Option<Event>, AllocError>
    requires few { length program.now ≤ 256 }
    requires config { trace.now.config ≡ hardware.old.config }
    requires cache { cache < hardware.old.config.caches }
    requires policy { IsPolicy F.Fn victim.now.pick }
    ensures acts { IfOk result (Acts (task_of (FnReturnsAt F.Fn victim.now.pick) program.now trace.now) cache (state_of hardware.old)
        (state_of hardware.new) hardware.new.sent.items) }
    ensures config { hardware.new.config ≡ hardware.old.config }
{
    match ready_operation(hardware, program, trace, cache) {
        None => make_delivery(hardware, program, cache),
        Some((cache, op)) => {
            let set = group_of(trace.config(), address_of(&op));
            let way = victim.choose(hardware.cache(cache), set);
            make_enabled(hardware, program, Event::Issue { cache, way, op })
        }
    }
}

/// Makes the next event of the agent with this number in its hardware, and answers it. None where it has none.
pub(crate) fn act<F: Fn(&[WayView]) -> u8 + Copy + Send>(
    hardware: &mut Hardware,
    number: u8,
    victim: &Victim<F>,
    program: &[Instr],
    trace: &Trace,
) -> Result<Option<Event>, AllocError>
    requires few { length program.now ≤ 256 }
    requires config { trace.now.config ≡ hardware.old.config }
    requires number { number ≤ hardware.old.config.caches + 1 }
    requires policy { IsPolicy F.Fn victim.now.pick }
    ensures acts { IfOk result (Acts (task_of (FnReturnsAt F.Fn victim.now.pick) program.now trace.now) number (state_of hardware.old)
        (state_of hardware.new) hardware.new.sent.items) }
    ensures config { hardware.new.config ≡ hardware.old.config }
{
    let caches = hardware.cache_count();
    if number < caches {
        make_of_cache(hardware, number, victim, program, trace)
    } else if number == caches {
        make_engine(hardware, program)
    } else {
        make_enabled(hardware, program, Event::Memory)
    }
}
