ghost use Rattle.std.specs.Prelude.{◌≡◌, ◌≤◌, ◌++◌, length, IfOk, OnOk, string_bytes};
ghost use Rattle.bk_system.specs.Events.{row};
ghost use Rattle.bk_system.specs.Runs.{after};
ghost use Rattle.bk_system.specs.Systems.{state_of};
ghost use Rattle.bk_run.specs.Log.{row_text, log_of};

use crate::log_text::push_ran;
use bk_image::Image;
use bk_isa::Instr;
use bk_system::{Event, Hardware};
use bk_trace::Trace;
use std::alloc::{AllocError, Global};

/// Makes an event, and writes its line and those of the messages that it sent, if it was enabled. Fails only where memory runs
/// out; `out` may then hold a part of the text.
fn log_event(
    alloc: Global,
    out: &mut String,
    hardware: &mut Hardware,
    program: &[Instr],
    event: &Event,
) -> Result<(), AllocError>
    requires { length program.now ≤ 256 }
    ensures text { OnOk result (string_bytes out.new ≡ string_bytes out.old
        ++ row_text event.now (row hardware.old.config program.now (state_of hardware.old) event.now)) }
    ensures state { OnOk result (state_of hardware.new ≡ after hardware.old.config program.now (state_of hardware.old) event.now) }
    ensures config { hardware.new.config ≡ hardware.old.config }
{
    match hardware.step(program, event) {
        Ok(true) => push_ran(alloc, out, event, hardware.sent()),
        Ok(false) => Ok(()),
        Err(e) => Err(e),
    }
}

/// The log of a list of events, made one by one from the opening state of the trace's configuration (docs/FILES.md): a
/// line for each event that was enabled, and after it a line for each message that it sent, in order, with the bytes
/// of the message. Events that weren't enabled are left out. Fails only where memory runs out.
pub fn log(
    alloc: Global,
    image: &Image,
    trace: &Trace,
    events: &[Event],
) -> Result<Vec<u8>, AllocError>
    ensures { IfOk result (λ bytes. bytes.items ≡ log_of trace.now.config image.now.instrs events.now) }
{
    let program = image.instrs();
    let mut hardware = Hardware::make(alloc, trace.config())?;
    let mut out = String::new(alloc);
    for event in events {
        log_event(alloc, &mut out, &mut hardware, program, event)?;
    }
    Ok(out.into_bytes())
}
