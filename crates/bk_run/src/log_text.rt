//! The lines of a log: of an event, and of the messages that it sent.

ghost use Rattle.std.specs.Prelude.{◌≡◌, ◌++◌, OnOk, string_bytes};
ghost use Rattle.std.specs.List.{flat_map};
ghost use Rattle.bk_system.specs.declared.event.Event.TheVariants.{Issue};
ghost use Rattle.bk_run.specs.Log.{event_text, message_text, ran_text, text_if};

use bk_base::Op;
use bk_msg::{Message, spell};
use bk_system::Event;
use bk_trace::push_operation;
use std::alloc::{AllocError, Global};

// Each function fails only where memory runs out; `out` may then hold a part of its text.

/// Writes the line of an Issue.
fn push_issue(out: &mut String, cache: u8, op: &Op, way: u8) -> Result<(), AllocError>
    ensures { OnOk result (string_bytes out.new ≡ string_bytes out.old ++ event_text (Issue cache way op.now)) }
{
    out.push_str("I ")?;
    push_operation(out, cache, op)?;
    writeln!(out, " {way}")
}

/// Writes the line of an event.
fn push_event(out: &mut String, event: &Event) -> Result<(), AllocError>
    ensures { OnOk result (string_bytes out.new ≡ string_bytes out.old ++ event_text event.now) }
{
    match event {
        Event::Issue { cache, way, op } => push_issue(out, *cache, op, *way),
        Event::Command { cache } => writeln!(out, "C {cache}"),
        Event::Fill { to, from } => writeln!(out, "F {to} {from}"),
        Event::Memory => out.push_str("M\n"),
        Event::Engine { choice } => writeln!(out, "E {} {}", choice.class, choice.source),
    }
}

/// Writes the line of a message.
fn push_message(alloc: Global, out: &mut String, message: &Message) -> Result<(), AllocError>
    ensures { OnOk result (string_bytes out.new ≡ string_bytes out.old ++ message_text message.now) }
{
    let row = message.row();
    let bytes = spell(&row);
    let digits = hex::encode(alloc, bytes.as_slice())?;
    writeln!(out, "m {digits}")
}

/// Writes the lines of messages, in order.
fn push_messages(alloc: Global, out: &mut String, messages: &[Message]) -> Result<(), AllocError>
    ensures { OnOk result (string_bytes out.new ≡ string_bytes out.old ++ flat_map message_text messages.now) }
{
    for message in messages {
        push_message(alloc, out, message)?;
    }
    Ok(())
}

/// Writes the line of an event that was enabled, and those of the messages that it sent.
pub(crate) fn push_ran(
    alloc: Global,
    out: &mut String,
    event: &Event,
    sent: &[Message],
) -> Result<(), AllocError>
    ensures { OnOk result (string_bytes out.new ≡ string_bytes out.old ++ ran_text event.now sent.now) }
{
    push_event(out, event)?;
    push_messages(alloc, out, sent)
}

/// The same where the lines are wanted, and else nothing.
pub(crate) fn push_ran_if(
    alloc: Global,
    out: &mut String,
    is_wanted: bool,
    event: &Event,
    sent: &[Message],
) -> Result<(), AllocError>
    ensures { OnOk result (string_bytes out.new ≡ string_bytes out.old ++ text_if is_wanted (ran_text event.now sent.now)) }
{
    if !is_wanted {
        return Ok(());
    }
    push_ran(alloc, out, event, sent)
}
