ghost use Rattle.std.specs.Prelude.{◌≡◌, true, false, IfOk};
ghost use Rattle.bk_text.specs.Faults.{at, Steps};
ghost use Rattle.bk_asm.specs.declared.fault.Kind.TheVariants as kinds;
ghost use Rattle.bk_isa.specs.Fields.{fields_with, pack, AreWide};
ghost use Rattle.bk_asm.specs.Operations.{slots_of, opcode};
ghost use Rattle.bk_asm.specs.Programs.{form_with};
ghost use Rattle.bk_asm.specs.Ranges.{last_ok, IsReady};
ghost use Rattle.bk_asm.specs.Reading.{operands_at, mnemonic_at};

use crate::fault::{At, Kind};
use crate::operand::{Target, last_at, pushed_at, slot_at};
use crate::operation::{Operation, mnemonics, operation_named, pushed};
use crate::slots::slots_of;
use bk_isa::{Instr, instr_of};
use bk_text::{Placed, TextLine, fault_behind, wrong};
use std::marker::Model;

/// An instruction with its operands, whose target is still a label. Contracts see the operation, the
/// operands and the target.
#[derive(Drop)]
pub(crate) struct Statement<'a> {
    operation: Operation,
    a: u8,
    b: u8,
    c: u8,
    imm: u32,
    pub target: Option<Target<'a>>,
}

impl<'a> Model for Statement<'a> {
    ghost use Rattle.bk_asm.specs.Programs.{Statement as Parts};
    ghost use Rattle.bk_asm.specs.Ranges.{IsReady};

    ghost Value = { Parts };

    ghost view = { λ s. record { operation = s.operation; a = s.a; b = s.b; c = s.c; imm = s.imm; target = s.target } };

    ghost invariant = { λ s. IsReady (record { operation = s.operation; a = s.a; b = s.b; c = s.c; imm = s.imm; target = s.target }) };
}

impl<'a> Statement<'a> {
    /// The word of the instruction, with this last operand.
    fn word_with(&self, last: u32) -> u64
        ensures value { let p = fields_with (opcode self.now.operation) self.now.a self.now.b self.now.c last in result ≡ pack p }
        ensures wide { AreWide (fields_with (opcode self.now.operation) self.now.a self.now.b self.now.c last) }
        ensures ready { IsReady self.now }
    {
        ((self.operation.opcode() as u64) << 56)
            + ((self.a as u64) << 48)
            + ((self.b as u64) << 40)
            + ((self.c as u64) << 32)
            + last as u64
    }

    /// The instruction, with this last operand.
    pub fn with_last(&self, last: u32) -> Instr
        requires { IsReady self.now → last_ok (slots_of self.now.operation).last last ≡ true }
        ensures { result ≡ form_with self.now last }
    {
        match instr_of(self.word_with(last)) {
            Ok(instr) => instr,
            Err(_) => unreachable!(),
        }
    }

    /// The last operand, where that is no label.
    pub fn last(&self) -> u32
        ensures value { result ≡ self.now.imm }
        ensures range { last_ok (slots_of self.now.operation).last result ≡ true }
    {
        self.imm
    }
}

/// The operands of an operation, and nothing behind them.
#[tactic(auto, unfolding(crate::specs::Reading::operands_at))]
pub(crate) fn operands_at<'a>(
    line: u64,
    operation: Operation,
    row: &mut TextLine<'a>,
) -> Result<Statement<'a>, At>
    ensures { result ≡ operands_at line operation row.old }
{
    let slots = slots_of(operation);
    let a = slot_at(slots.a, 0, row)?;
    let b = slot_at(slots.b, a, row)?;
    let c = slot_at(slots.c, a, row)?;
    let (imm, target) = last_at(slots.last, line, row)?;
    match fault_behind(row) {
        None => Ok(Statement {
            operation,
            a,
            b,
            c,
            imm,
            target,
        }),
        Some(fault) => Err(fault),
    }
}

/// The fault of an instruction too many.
fn too_many(word: Placed<'_>) -> At
    ensures { result ≡ at word.entry.column kinds.TooMany }
{
    At {
        column: word.column,
        kind: Kind::TooMany,
    }
}

/// The operation of a mnemonic, of which `full` says that an image has no room for it.
#[tactic(auto, unfolding(crate::specs::Reading::mnemonic_at))]
pub(crate) fn mnemonic_at(
    full: bool,
    word: Placed<'_>,
    row: &mut TextLine<'_>,
) -> Result<Operation, At>
    ensures value { Steps (λ x. x) result row.new
        (mnemonic_at full (record { column = word.entry.column; word = word.entry.word.now }) row.old) }
    ensures room { IfOk result (λ _. full ≡ false) }
{
    if word.word == b"pushq".as_slice() {
        if full {
            return Err(too_many(word));
        }
        return pushed_at(pushed(), row);
    }
    match operation_named(mnemonics(), word.word) {
        None => Err(wrong(word, Kind::Mnemonic)),
        Some(_) if full => Err(too_many(word)),
        Some(operation) => Ok(operation),
    }
}
