ghost use Rattle.std.specs.Prelude.{◌≡◌, ◌+◌, ◌<◌, ◌≤◌, ◌^◌, ◌++◌, length, Some, Ok, IfOk, IfErr, OnOk, option_to_list};
ghost use Rattle.std.specs.List.{All, list_any};
ghost use Rattle.std.specs.Str.Lines.{lines};
ghost use Rattle.bk_base.specs.Places.{InProfile};
ghost use Rattle.bk_trace.specs.Traces.{Parts, IsTrace, IsLine};
ghost use Rattle.bk_trace.specs.Grammar.{trace_of};
ghost use Rattle.bk_trace.specs.Faults.{fault_of, Gives, IsOff};
ghost use Rattle.bk_trace.specs.Reading.{no_config, has_words, config_from, lines_at, lines_read, trace_at};

use crate::fault::{At, Kind, TraceFault, on_line};
use crate::line::{first_at, line_at};
use crate::trace::Trace;
use bk_base::{Config, Op};
use bk_text::{TextLine, cut_line};
use std::alloc::{AllocError, Global};

/// What begins a comment.
const COMMENT: u8 = b'#';

/// The fault of a text without a configuration, which stands where the text begins.
fn no_config() -> TraceFault
    ensures { result ≡ fault_of no_config }
{
    let start = At {
        column: 1,
        kind: Kind::Config,
    };
    on_line(1, start)
}

/// Whether a line has a word before its comment.
fn has_words(line: &[u8]) -> bool
    ensures { result ≡ has_words line.now }
{
    TextLine::of(COMMENT, line).has_word()
}

/// Whether a line of a text has a word before its comment.
fn any_words(text: &[u8]) -> bool
    ensures { result ≡ list_any has_words (lines text.now) }
{
    let mut rest = text;
    while !rest.is_empty() {
        let (line, after) = cut_line(rest);
        if has_words(line) {
            return true;
        }
        rest = after;
    }
    false
}

/// The configuration, the number of the line behind it, and the text from there on.
#[tactic(auto, unfolding(crate::specs::Reading::config_from))]
fn config_from(text: &[u8]) -> Result<(Config, u64, &[u8]), TraceFault>
    ensures value { Gives (λ x. (x.0, (x.1, lines x.2.now))) result (config_from 1 (lines text.now)) }
    ensures profile { IfOk result (λ x. InProfile x.0) }
    ensures short { IfOk result (λ x. x.1 + length x.2.now ≤ length text.now + 1) }
{
    let mut rest = text;
    let mut line = 1;
    while !rest.is_empty() {
        let (front, after) = cut_line(rest);
        match first_at(&mut TextLine::of(COMMENT, front)) {
            Ok(Some(config)) => return Ok((config, line + 1, after)),
            Ok(None) => (),
            Err(fault) => return Err(on_line(line, fault)),
        }
        rest = after;
        line += 1;
    }
    Err(no_config())
}

/// Keeps what was found in a line.
fn keep(operations: &mut Vec<(u8, Op)>, found: Option<(u8, Op)>) -> Result<(), AllocError>
    ensures { OnOk result (operations.new.items ≡ operations.old.items ++ option_to_list found) }
{
    if let Some(operation) = found {
        operations.push(operation)?;
    }
    Ok(())
}

/// The operations of the lines of a text, of which the first has this number.
#[tactic(auto, unfolding(crate::specs::Reading::lines_at))]
fn operations(
    alloc: Global,
    caches: u8,
    first: u64,
    text: &[u8],
) -> Result<Vec<(u8, Op)>, TraceFault>
    requires { first + length text.now + 1 < 2 ^ 64 }
    ensures value { Gives (λ v. v.items) result (lines_at 10000 caches 0 first (lines text.now)) }
    ensures few { IfOk result (λ v. length v.items ≤ 10000) }
    ensures each { IfOk result (λ v. All (λ line. IsLine caches line) v.items) }
{
    let mut operations = Vec::new(alloc);
    let mut rest = text;
    let mut line = first;
    while !rest.is_empty() {
        let (front, after) = cut_line(rest);
        let found = match line_at(caches, operations.len(), &mut TextLine::of(COMMENT, front)) {
            Ok(found) => found,
            Err(fault) => return Err(on_line(line, fault)),
        };
        keep(&mut operations, found)?;
        rest = after;
        line += 1;
    }
    Ok(operations)
}

/// The trace of a text, or its first fault.
#[tactic(auto, using(crate::proofs::Loop::words_found), unfolding(crate::specs::Reading::lines_read))]
fn read(alloc: Global, text: &[u8]) -> Result<Trace, TraceFault>
    ensures { Gives (λ t. t) result (trace_at text.now) }
{
    let (config, line, rest) = match config_from(text) {
        Ok(found) => found,
        // What is wrong in a comment counts only where a line has words.
        Err(fault) => return Err(if any_words(text) { fault } else { no_config() }),
    };
    let lines = operations(alloc, config.caches, line, rest)?;
    Ok(Trace::make(alloc, config, lines)?)
}

/// The trace that a text spells, or the first fault of the text; at one place that of the least kind.
///
/// A fault of a word stands at its first byte, and of a missing word in the column after the line's
/// last byte. `Kind` has the kinds; a text without any word outside comments is `Kind::Config` at
/// line 1, column 1.
///
/// # Errors
///
/// `Bad` if the text spells no trace, `Memory` if memory runs out.
pub fn read_trace(alloc: Global, text: &[u8]) -> Result<Trace, TraceFault>
    // What is read is spelled so.
    ensures found { IfOk result (λ t. trace_of text.now ≡ Some t) }
    // What is spelled so is read, unless memory runs out.
    ensures only { (p : Parts) → trace_of text.now ≡ Some p → Gives (λ t. t) result (Ok p) }
    // A text with a fault spells nothing.
    ensures bad { IfErr result (λ e. IsOff e (trace_of text.now)) }
    // Which fault it is.
    ensures exact { Gives (λ t. t) result (trace_at text.now) }
{
    read(alloc, text)
}
