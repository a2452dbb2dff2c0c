ghost use Rattle.std.specs.Prelude.{◌≡◌, ◌<◌, ◌≤◌, ◌^◌, map, length, true, is_some, None, IfOk, IfSome};
ghost use Rattle.std.specs.List.{list_all};
ghost use Rattle.bk_text.specs.Faults.{Steps};
ghost use Rattle.bk_asm.specs.Names.{named, has_value, joined, all_below};
ghost use Rattle.bk_asm.specs.Operations.{operation_named};
ghost use Rattle.bk_asm.specs.Ranges.{slot_ok, last_ok, is_target};
ghost use Rattle.bk_asm.specs.Reading.{field, operand, number_below, number_at, target_at, is_letter, is_label_byte, is_label, slot_at, last_at};

use crate::fault::{At, Kind};
use crate::names::{class_names, joined, named, names_of, value_names};
use crate::operation::{Operation, operation_named};
use crate::slots::{Last, Slot};
use bk_text::{TextLine, number, word_at, wrong};
use std::marker::Model;

/// What separates the names of a set.
const COMMA: u8 = b',';
/// The most bytes of a label behind its first letter.
const LABEL_REST: usize = 15;

/// A use of a label: where it stands, and the label's name. Contracts see the three.
#[derive(Drop)]
pub(crate) struct Target<'a> {
    pub line: u64,
    pub column: u64,
    pub name: &'a [u8],
}

impl<'a> Model for Target<'a> {
    ghost use Rattle.bk_asm.specs.Programs.{Use};

    ghost Value = { Use };

    ghost view = { λ t. record { line = t.line; column = t.column; name = t.name.now } };
}

/// An operand that is a name.
#[tactic(auto, unfolding(crate::specs::Reading::field))]
fn name_at(names: &[(&str, u8)], row: &mut TextLine<'_>) -> Result<u8, At>
    ensures value { Steps (λ x. x) result row.new (operand (named (map (λ name. (name.0.now, name.1)) names.now)) row.old) }
    ensures range { IfOk result (λ n. has_value (map (λ name. (name.0.now, name.1)) names.now) n ≡ true) }
{
    let word = word_at(Kind::Operand, row)?;
    match named(names, word.word) {
        Some(value) => Ok(value),
        None => Err(wrong(word, Kind::Operand)),
    }
}

/// An operand that is a set of names.
#[tactic(auto, unfolding(crate::specs::Reading::field))]
fn set_at(names: &[(&str, u8)], row: &mut TextLine<'_>) -> Result<u8, At>
    requires few { length names.now ≤ 7 }
    requires below { all_below (length names.now) (map (λ name. (name.0.now, name.1)) names.now) ≡ true }
    ensures value { Steps (λ x. x) result row.new (operand (joined (map (λ name. (name.0.now, name.1)) names.now) 44) row.old) }
    ensures some { IfOk result (λ n. 0 < n) }
    ensures few { IfOk result (λ n. n < 2 ^ length names.now) }
{
    let word = word_at(Kind::Operand, row)?;
    match joined(names, COMMA, word.word) {
        Some(set) => Ok(set),
        None => Err(wrong(word, Kind::Operand)),
    }
}

/// An operand that is an operation: the word behind `pushq`.
#[tactic(auto, unfolding(crate::specs::Reading::field))]
pub(crate) fn pushed_at(
    operations: &[(&str, Operation)],
    row: &mut TextLine<'_>,
) -> Result<Operation, At>
    ensures { Steps (λ x. x) result row.new (operand (operation_named (map (λ m. (m.0.now, m.1)) operations.now)) row.old) }
{
    let word = word_at(Kind::Operand, row)?;
    match operation_named(operations, word.word) {
        Some(operation) => Ok(operation),
        None => Err(wrong(word, Kind::Operand)),
    }
}

/// An operand a, b or c. `field` is the know field that stands before a set of values.
pub(crate) fn slot_at(slot: Slot, field: u8, row: &mut TextLine<'_>) -> Result<u8, At>
    ensures value { Steps (λ x. x) result row.new (slot_at slot field row.old) }
    ensures range { IfOk result (λ n. slot_ok slot field n ≡ true) }
{
    match slot {
        Slot::Nothing => Ok(0),
        Slot::Name(sort) => name_at(names_of(sort), row),
        Slot::Perhaps(sort) => {
            if row.has_word() {
                name_at(names_of(sort), row)
            } else {
                Ok(0)
            }
        }
        Slot::Classes => set_at(class_names(), row),
        Slot::Values => set_at(value_names(field), row),
    }
}

/// The number that a word writes, if it is below a limit.
#[tactic(auto, unfolding(crate::specs::Reading::number_below))]
fn number_below(limit: u64, word: &[u8]) -> Option<u64>
    ensures value { result ≡ number_below limit word.now }
    ensures below { IfSome result (λ n. n < limit) }
{
    let number = number(word)?;
    if number < limit { Some(number) } else { None }
}

/// A last operand that is a number below a limit of at most 2^32.
#[tactic(auto, unfolding(crate::specs::Reading::number_at, crate::specs::Reading::field))]
fn number_at<'a>(limit: u64, row: &mut TextLine<'a>) -> Result<(u32, Option<Target<'a>>), At>
    requires { limit ≤ 2 ^ 32 }
    ensures value { Steps (λ x. x) result row.new (number_at limit row.old) }
    ensures range { IfOk result (λ x. x.0 < limit) }
    ensures target { IfOk result (λ x. x.1 ≡ None) }
{
    let word = word_at(Kind::Operand, row)?;
    match number_below(limit, word.word) {
        Some(number) => Ok((number as u32, None)),
        None => Err(wrong(word, Kind::Number)),
    }
}

/// Whether a byte is a letter.
fn is_letter(byte: u8) -> bool
    ensures { result ≡ is_letter byte }
{
    matches!(byte, b'a'..=b'z' | b'A'..=b'Z')
}

/// Whether a byte may stand in a label.
fn is_label_byte(byte: u8) -> bool
    ensures { result ≡ is_label_byte byte }
{
    is_letter(byte) || matches!(byte, b'0'..=b'9' | b'_')
}

/// Whether each byte may stand in a label.
fn are_label_bytes(bytes: &[u8]) -> bool
    ensures { result ≡ list_all is_label_byte bytes.now }
{
    bytes.iter().all(|byte| is_label_byte(*byte))
}

/// Whether a word is the name of a label: 1 to 16 letters, digits and `_`, the first a letter.
pub(crate) fn is_label(word: &[u8]) -> bool
    ensures { result ≡ is_label word.now }
{
    match word {
        [] => false,
        [first, rest @ ..] => {
            is_letter(*first) && rest.len() <= LABEL_REST && are_label_bytes(rest)
        }
    }
}

/// A last operand that is a label.
#[tactic(auto, unfolding(crate::specs::Reading::target_at))]
fn target_at<'a>(line: u64, row: &mut TextLine<'a>) -> Result<(u32, Option<Target<'a>>), At>
    ensures value { Steps (λ x. x) result row.new (target_at line row.old) }
    ensures range { IfOk result (λ x. x.0 ≡ 0) }
    ensures target { IfOk result (λ x. is_some x.1 ≡ true) }
{
    let word = word_at(Kind::Operand, row)?;
    if !is_label(word.word) {
        return Err(wrong(word, Kind::Operand));
    }
    let target = Target {
        line,
        column: word.column,
        name: word.word,
    };
    Ok((0, Some(target)))
}

/// The last operand.
pub(crate) fn last_at<'a>(
    last: Last,
    line: u64,
    row: &mut TextLine<'a>,
) -> Result<(u32, Option<Target<'a>>), At>
    ensures value { Steps (λ x. x) result row.new (last_at last line row.old) }
    ensures range { IfOk result (λ x. last_ok last x.0 ≡ true) }
    ensures target { IfOk result (λ x. is_some x.1 ≡ is_target last) }
{
    match last {
        Last::Nothing => Ok((0, None)),
        Last::Shift => number_at(64, row),
        Last::Number => number_at(1 << 32, row),
        Last::Target => target_at(line, row),
    }
}
