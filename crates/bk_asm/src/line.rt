ghost use Rattle.std.specs.Prelude.{◌≡◌, ◌≤◌, None, false, IfOk, IfSome};
ghost use Rattle.std.specs.Option.{option_map};
ghost use Rattle.bk_text.specs.Faults.{fault_behind, unless, LineGives};
ghost use Rattle.bk_asm.specs.declared.fault.Kind.TheVariants as kinds;
ghost use Rattle.bk_asm.specs.Reading.{label_of, content_at, rest_at, fresh_label, labelled_at, line_at, parts};

use crate::caches::caches_at;
use crate::fault::{At, Kind};
use crate::know::know_at;
use crate::labels::Labels;
use crate::operand::is_label;
use crate::statement::{Statement, mnemonic_at, operands_at};
use bk_know::Know;
use bk_text::{Placed, TextLine, fault_behind};

/// What a line has: a limit, or a label, a know line, an instruction.
#[derive(Drop)]
pub(crate) struct Line<'a> {
    pub limit: Option<u8>,
    pub label: Option<&'a [u8]>,
    pub know: Option<Know>,
    pub does: Option<Statement<'a>>,
}

/// What the lines before leave open: whether something was read, whether the image is full, and whether a know line waits.
#[derive(Clone, Copy)]
pub(crate) struct Before {
    pub begun: bool,
    pub full: bool,
    pub known: bool,
}

/// The name of a label, where a word is one with `:` behind it.
fn label_of(word: &[u8]) -> Option<&[u8]>
    ensures { option_map (λ w. w.now) result ≡ label_of word.now }
{
    match word {
        [name @ .., b':'] if is_label(name) => Some(name),
        _ => None,
    }
}

/// What a line has whose first word, or first word behind a label, this is.
#[tactic(auto, unfolding(crate::specs::Reading::content_at))]
fn content_at<'a>(
    before: Before,
    line: u64,
    word: Placed<'a>,
    row: &mut TextLine<'a>,
) -> Result<Line<'a>, At>
    ensures value { LineGives (λ l. record {
      limit = l.limit;
      label = option_map (λ w. w.now) l.label;
      know = l.know;
      does = l.does;
    }) result
        (content_at before.full before.known line (record { column = word.entry.column; word = word.entry.word.now }) row.old) }
    ensures room { IfOk result (λ l. IfSome l.does (λ _. before.full ≡ false)) }
    ensures plain { IfOk result (λ l. l.limit ≡ None) }
{
    if word.word == b"know".as_slice() {
        if before.known {
            return Err(At {
                column: word.column,
                kind: Kind::Know,
            });
        }
        let know = know_at(row)?;
        return Ok(Line {
            limit: None,
            label: None,
            know: Some(know),
            does: None,
        });
    }
    let operation = mnemonic_at(before.full, word, row)?;
    let statement = operands_at(line, operation, row)?;
    Ok(Line {
        limit: None,
        label: None,
        know: None,
        does: Some(statement),
    })
}

/// A line without words.
fn empty_at<'a>(row: &mut TextLine<'a>) -> Result<Line<'a>, At>
    ensures value { LineGives (λ l. record {
      limit = l.limit;
      label = option_map (λ w. w.now) l.label;
      know = l.know;
      does = l.does;
    }) result
        (unless (fault_behind kinds.Byte kinds.Extra row.old.words row.old.bad) (parts None None)) }
    ensures nothing { IfOk result (λ l. l.does ≡ None) }
    ensures plain { IfOk result (λ l. l.limit ≡ None) }
{
    match fault_behind(row) {
        None => Ok(Line {
            limit: None,
            label: None,
            know: None,
            does: None,
        }),
        Some(fault) => Err(fault),
    }
}

/// What stands behind a label.
#[tactic(auto, unfolding(crate::specs::Reading::rest_at))]
fn rest_at<'a>(before: Before, line: u64, row: &mut TextLine<'a>) -> Result<Line<'a>, At>
    ensures value { LineGives (λ l. record {
      limit = l.limit;
      label = option_map (λ w. w.now) l.label;
      know = l.know;
      does = l.does;
    }) result
        (rest_at before.full before.known line row.old row.old.words) }
    ensures room { IfOk result (λ l. IfSome l.does (λ _. before.full ≡ false)) }
    ensures plain { IfOk result (λ l. l.limit ≡ None) }
{
    match row.next_word() {
        Some(word) => content_at(before, line, word, row),
        None => empty_at(row),
    }
}

/// A line whose first word this is.
#[tactic(auto, unfolding(crate::specs::Reading::labelled_at))]
fn labelled_at<'a>(
    labels: &Labels<'a>,
    before: Before,
    line: u64,
    word: Placed<'a>,
    row: &mut TextLine<'a>,
) -> Result<Line<'a>, At>
    ensures value { LineGives (λ l. record {
      limit = l.limit;
      label = option_map (λ w. w.now) l.label;
      know = l.know;
      does = l.does;
    }) result
        (labelled_at labels.now before.full before.known line (record { column = word.entry.column; word = word.entry.word.now }) row.old
        (label_of word.entry.word.now)) }
    ensures room { IfOk result (λ l. IfSome l.does (λ _. before.full ≡ false)) }
    ensures plain { IfOk result (λ l. l.limit ≡ None) }
{
    let Some(name) = label_of(word.word) else {
        return content_at(before, line, word, row);
    };
    if labels.place_of(name).is_some() {
        return Err(At {
            column: word.column,
            kind: Kind::LabelTwice,
        });
    }
    let rest = rest_at(before, line, row)?;
    Ok(Line {
        label: Some(name),
        ..rest
    })
}

/// A line.
#[tactic(auto, unfolding(crate::specs::Reading::line_at))]
pub(crate) fn line_at<'a>(
    labels: &Labels<'a>,
    before: Before,
    line: u64,
    row: &mut TextLine<'a>,
) -> Result<Line<'a>, At>
    ensures value { LineGives (λ l. record {
      limit = l.limit;
      label = option_map (λ w. w.now) l.label;
      know = l.know;
      does = l.does;
    }) result
        (line_at labels.now before.begun before.full before.known line row.old row.old.words) }
    ensures room { IfOk result (λ l. IfSome l.does (λ _. before.full ≡ false)) }
    ensures limit { IfOk result (λ l. IfSome l.limit (λ n. (1 ≤ n) × (n ≤ 16))) }
{
    match row.next_word() {
        Some(word) if word.word == b"caches".as_slice() => {
            caches_at(before.begun, word.column, row)
        }
        Some(word) => labelled_at(labels, before, line, word, row),
        None => empty_at(row),
    }
}
