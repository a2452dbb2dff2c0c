ghost use Rattle.std.specs.Prelude.{◌≡◌, ◌<◌, ◌++◌, OnOk, IfOk, flat_map, string_bytes};
ghost use Rattle.bk_run.specs.Report.{answer_text, done_text, events_text, messages_text, end_text, letter_of, line_text, set_text, cache_text, lines_text, report_text};
ghost use Rattle.bk_system.specs.Systems.{state_of};

use crate::counts::Counts;
use bk_base::{Coh, Done, Op};
use bk_lce::Line;
use bk_system::Hardware;
use bk_trace::push_operation;
use std::alloc::{AllocError, Global};

// Each function fails only where memory runs out; `out` may then hold a part of its text.

/// Writes what a load has read, and nothing for another operation.
fn push_answer(out: &mut String, op: &Op, answer: u64) -> Result<(), AllocError>
    ensures { OnOk result (string_bytes out.new ≡ string_bytes out.old ++ answer_text op.now answer) }
{
    match op {
        Op::Load(_) | Op::UcLoad(_) => write!(out, " = {answer}"),
        _ => Ok(()),
    }
}

/// Writes a line of the history.
pub(crate) fn push_done(out: &mut String, done: &Done) -> Result<(), AllocError>
    ensures { OnOk result (string_bytes out.new ≡ string_bytes out.old ++ done_text done.now) }
{
    push_operation(out, done.cache, &done.op)?;
    push_answer(out, &done.op, done.answer)?;
    out.push_str("\n")
}

/// Writes the lines of the history, the oldest first.
pub(crate) fn push_history(out: &mut String, history: &[Done]) -> Result<(), AllocError>
    ensures { OnOk result (string_bytes out.new ≡ string_bytes out.old ++ flat_map done_text history.now) }
{
    for done in history {
        push_done(out, done)?;
    }
    Ok(())
}

/// Writes the counts of events.
pub(crate) fn push_events(out: &mut String, counts: &Counts) -> Result<(), AllocError>
    ensures { OnOk result (string_bytes out.new ≡ string_bytes out.old ++ events_text counts.now) }
{
    let Counts {
        issue,
        command,
        fill,
        memory,
        engine,
        ..
    } = counts;
    writeln!(
        out,
        "events issue {issue} command {command} fill {fill} memory {memory} engine {engine}"
    )
}

/// Writes the counts of messages.
pub(crate) fn push_messages(out: &mut String, counts: &Counts) -> Result<(), AllocError>
    ensures { OnOk result (string_bytes out.new ≡ string_bytes out.old ++ messages_text counts.now) }
{
    let Counts {
        requests,
        commands,
        fills,
        responses,
        memouts,
        memins,
        ..
    } = counts;
    write!(
        out,
        "messages request {requests} command {commands} fill {fills}"
    )?;
    writeln!(out, " response {responses} memout {memouts} memin {memins}")
}

/// Writes how the list of events has ended.
pub(crate) fn push_end(out: &mut String, complete: bool) -> Result<(), AllocError>
    ensures { OnOk result (string_bytes out.new ≡ string_bytes out.old ++ end_text complete) }
{
    out.push_str(if complete {
        "end rested\n"
    } else {
        "end unrested\n"
    })
}

/// The letter of a state.
fn letter_of(state: Coh) -> &'static str
    ensures { result.now ≡ letter_of state }
{
    match state {
        Coh::I => "I",
        Coh::S => "S",
        Coh::E => "E",
        Coh::F => "F",
        Coh::M => "M",
        Coh::O => "O",
    }
}

/// Writes the line of an entry that holds a block, and nothing for another one.
fn push_line(out: &mut String, cache: u8, set: u8, way: u8, line: &Line) -> Result<(), AllocError>
    ensures { OnOk result (string_bytes out.new ≡ string_bytes out.old ++ line_text cache set way line.now) }
{
    if matches!(line.state, Coh::I) {
        return Ok(());
    }
    let letter = letter_of(line.state);
    write!(out, "cache {cache} set {set} way {way}")?;
    writeln!(out, " tag 0x{:x} {letter}", line.tag)
}

/// Writes the lines of a set of a cache, by way.
fn push_set(out: &mut String, hardware: &Hardware, cache: u8, set: u8) -> Result<(), AllocError>
    requires cache { cache < hardware.now.config.caches }
    requires set { set < hardware.now.config.sets }
    ensures { OnOk result (string_bytes out.new ≡ string_bytes out.old
        ++ set_text hardware.now.config (state_of hardware.now).caches cache set) }
{
    for way in 0..hardware.config().ways {
        let line = hardware.cache(cache).line(set, way);
        push_line(out, cache, set, way, &line)?;
    }
    Ok(())
}

/// Writes the lines of a cache, by set and way.
fn push_cache(out: &mut String, hardware: &Hardware, cache: u8) -> Result<(), AllocError>
    requires { cache < hardware.now.config.caches }
    ensures { OnOk result (string_bytes out.new ≡ string_bytes out.old
        ++ cache_text hardware.now.config (state_of hardware.now).caches cache) }
{
    for set in 0..hardware.config().sets {
        push_set(out, hardware, cache, set)?;
    }
    Ok(())
}

/// Writes the entries that hold a block, by cache, set and way.
fn push_caches(out: &mut String, hardware: &Hardware) -> Result<(), AllocError>
    ensures { OnOk result (string_bytes out.new ≡ string_bytes out.old ++ lines_text hardware.now.config (state_of hardware.now).caches) }
{
    for cache in 0..hardware.config().caches {
        push_cache(out, hardware, cache)?;
    }
    Ok(())
}

/// Room for so many bytes is made for each operation that has completed: most lines of the history are shorter.
const ROOM_FOR_EACH: usize = 24;

/// The report of a system's hardware and of the counts of its run. Fails only where memory runs out.
pub(crate) fn report_bytes(
    alloc: Global,
    hardware: &Hardware,
    counts: &Counts,
    complete: bool,
) -> Result<Vec<u8>, AllocError>
    ensures { IfOk result (λ v. v.items ≡ report_text hardware.now.config (state_of hardware.now) counts.now complete) }
{
    let mut out = String::with_capacity(
        alloc,
        hardware.history().len().saturating_mul(ROOM_FOR_EACH),
    )?;
    push_history(&mut out, hardware.history())?;
    push_events(&mut out, counts)?;
    push_messages(&mut out, counts)?;
    push_caches(&mut out, hardware)?;
    push_end(&mut out, complete)?;
    Ok(out.into_bytes())
}
