ghost use Rattle.std.specs.Prelude.{◌≡◌, ◌++◌, Some, Ok, OnOk, IfOk, string_bytes};
ghost use Rattle.std.specs.List.{flat_map};
ghost use Rattle.bk_trace.specs.Traces.{IsTrace};
ghost use Rattle.bk_trace.specs.Grammar.{trace_of};
ghost use Rattle.bk_trace.specs.Reading.{trace_at};
ghost use Rattle.bk_trace.specs.Spelling.{operation_text, line_text, config_text, spelling};

use crate::trace::Trace;
use bk_base::{Config, Op};
use std::alloc::{AllocError, Global};

// Each function fails only where memory runs out; `out` may then hold a part of its text.

/// Writes the line of a configuration.
fn push_config(out: &mut String, config: Config) -> Result<(), AllocError>
    ensures { OnOk result (string_bytes out.new ≡ string_bytes out.old ++ config_text config) }
{
    let Config {
        caches,
        sets,
        ways,
        ..
    } = config;
    writeln!(out, "config {caches} {sets} {ways}")
}

/// Writes `CACHE OP ADDRESS`, and the value of a store, as a trace has them, without a line's end. Fails only where memory
/// runs out; `out` may then hold a part of it.
pub fn push_operation(out: &mut String, cache: u8, op: &Op) -> Result<(), AllocError>
    ensures { OnOk result (string_bytes out.new ≡ string_bytes out.old ++ operation_text cache op.now) }
{
    match *op {
        Op::Load(address) => write!(out, "{cache} L 0x{:x}", address.value()),
        Op::Store(address, value) => write!(out, "{cache} S 0x{:x} {value}", address.value()),
        Op::UcLoad(address) => write!(out, "{cache} UL 0x{:x}", address.value()),
        Op::UcStore(address, value) => write!(out, "{cache} US 0x{:x} {value}", address.value()),
        Op::Evict(address) => write!(out, "{cache} EV 0x{:x}", address.value()),
    }
}

/// Writes the line of an operation.
fn push_line(out: &mut String, line: &(u8, Op)) -> Result<(), AllocError>
    ensures { OnOk result (string_bytes out.new ≡ string_bytes out.old ++ line_text line.now) }
{
    push_operation(out, line.0, &line.1)?;
    out.push_str("\n")
}

/// Writes the lines of operations.
fn push_lines(out: &mut String, lines: &[(u8, Op)]) -> Result<(), AllocError>
    ensures { OnOk result (string_bytes out.new ≡ string_bytes out.old ++ flat_map line_text lines.now) }
{
    for line in lines {
        push_line(out, line)?;
    }
    Ok(())
}

/// The text of a trace.
fn text_of(alloc: Global, trace: &Trace) -> Result<Vec<u8>, AllocError>
    ensures text { IfOk result (λ v. v.items ≡ spelling trace.now) }
    ensures trace { OnOk result (IsTrace trace.now) }
{
    let mut out = String::new(alloc);
    push_config(&mut out, trace.config())?;
    push_lines(&mut out, trace.lines())?;
    Ok(out.into_bytes())
}

/// The canonical text of a trace: addresses are `0x` and lower-case digits with no leading zero, other
/// numbers decimal, one blank stands between words, and LF ends each line. Fails only where memory
/// runs out.
pub fn write_trace(alloc: Global, trace: &Trace) -> Result<Vec<u8>, AllocError>
    ensures text { IfOk result (λ v. v.items ≡ spelling trace.now) }
    // What is written spells the trace, and is read as that trace again.
    ensures spells { IfOk result (λ v. trace_of v.items ≡ Some trace.now) }
    ensures again { IfOk result (λ v. trace_at v.items ≡ Ok trace.now) }
{
    text_of(alloc, trace)
}
