ghost use Rattle.std.specs.Prelude.{◌≡◌, Some};
ghost use Rattle.bk_isa.specs.Table.{admits, fault_at, first_fault, set_limit, ranges_in, ranges_of, fault_in};

use crate::fault::WordFault;
use crate::fields::Fields;
use crate::opcode;
use crate::operand::{
    CLASS_MEMORY, CLASS_REQUESTS, CLASS_RESPONSES, FIELD_HEAD, FIELD_KIND, FIELD_OWN, FIELD_OWNER,
    WHOSE_OWN, WHOSE_OWNER, WHOSE_VICTIM,
};

/// Which values a field of an instruction word may have.
#[derive(Clone, Copy, Debug, PartialEq, Eq)]
pub enum Allowed {
    /// 0 alone: the field is no operand.
    Zero,
    /// From one number up to another, and not that one.
    Range { from: u64, to: u64 },
    /// A number whose bit is set.
    OneOf { values: u32 },
}

/// What the fields of a word may be, for one operation.
#[derive(Clone, Copy, Debug, PartialEq, Eq)]
pub struct FieldRanges {
    pub a: Allowed,
    pub b: Allowed,
    pub c: Allowed,
    pub imm: Allowed,
}

/// 0, where the field is no operand.
const NONE: Allowed = Allowed::Zero;
/// A register.
const REGISTER: Allowed = Allowed::Range { from: 0, to: 8 };
/// A flag.
const FLAG: Allowed = Allowed::Range { from: 0, to: 4 };
/// By how many bits a register is shifted.
const SHIFT: Allowed = Allowed::Range { from: 0, to: 64 };
/// Each number of 32 bits.
const ANY_NUMBER: Allowed = Allowed::Range {
    from: 0,
    to: 0x1_0000_0000,
};
/// A place that a branch goes to.
const TARGET: Allowed = Allowed::Range { from: 0, to: 256 };
/// No or yes: of `popq` whether it marks the group, of `inv` whether it goes to the owner too.
const CHOICE: Allowed = Allowed::Range { from: 0, to: 2 };
/// The requester's own entry or the owner's.
const WHOSE: Allowed = Allowed::Range {
    from: WHOSE_OWN as u64,
    to: WHOSE_OWNER as u64 + 1,
};
/// The requester's own entry, the owner's or the victim.
const HOLDER: Allowed = Allowed::Range {
    from: WHOSE_OWN as u64,
    to: WHOSE_VICTIM as u64 + 1,
};
/// At least one class of messages.
const CLASSES: Allowed = Allowed::Range {
    from: 1,
    to: (CLASS_RESPONSES + CLASS_MEMORY + CLASS_REQUESTS) as u64 + 1,
};
/// The know fields that `bk` tests, one bit each: `FIELD_HEAD` to `FIELD_F3`.
const TESTED: Allowed = Allowed::OneOf {
    values: 0b111_1000_0111_1101_1100,
};
/// Each state.
const ALL_STATES: Allowed = Allowed::OneOf {
    values: 0b1100_1111,
};
/// Each state but I.
const VALID_STATES: Allowed = Allowed::OneOf {
    values: 0b1100_1110,
};
/// I or S.
const CLEAN_STATES: Allowed = Allowed::OneOf {
    values: 0b0000_0011,
};
/// S, E, F or M.
const GRANTED_STATES: Allowed = Allowed::OneOf {
    values: 0b0100_1110,
};
/// I, S, F or O.
const LEFT_STATES: Allowed = Allowed::OneOf {
    values: 0b1000_1011,
};
/// S, F, M or O.
const RECEIVED_STATES: Allowed = Allowed::OneOf {
    values: 0b1100_1010,
};

fn admits(allowed: Allowed, value: u32) -> bool
    ensures { result ≡ admits allowed value }
{
    match allowed {
        Allowed::Zero => value == 0,
        Allowed::Range { from, to } => from <= value as u64 && (value as u64) < to,
        Allowed::OneOf { values } => value < 32 && (values >> value) % 2 == 1,
    }
}

/// The fault of the field of this number, where its value isn't allowed.
fn fault_at(allowed: Allowed, number: u8) -> WordFault
    ensures { result ≡ fault_at allowed number }
{
    match allowed {
        Allowed::Zero => WordFault::Reserved(number),
        Allowed::Range { .. } => WordFault::Field(number),
        Allowed::OneOf { .. } => WordFault::Field(number),
    }
}

fn first_fault(ranges: FieldRanges, fields: Fields) -> Option<WordFault>
    ensures { result ≡ first_fault ranges fields }
{
    if !admits(ranges.a, fields.a as u32) {
        return Some(fault_at(ranges.a, 1));
    }
    if !admits(ranges.b, fields.b as u32) {
        return Some(fault_at(ranges.b, 2));
    }
    if !admits(ranges.c, fields.c as u32) {
        return Some(fault_at(ranges.c, 3));
    }
    if !admits(ranges.imm, fields.imm) {
        return Some(fault_at(ranges.imm, 4));
    }
    None
}

/// All sets of values of a know field are below this: 2 to the number of its values.
fn set_limit(field: u8) -> u64
    ensures { result ≡ set_limit field }
{
    match field {
        FIELD_HEAD => 128,
        FIELD_KIND | FIELD_OWNER => 32,
        FIELD_OWN => 64,
        _ => 4,
    }
}

fn allow(a: Allowed, b: Allowed, c: Allowed, imm: Allowed) -> Option<FieldRanges>
    ensures { result ≡ Some (record { a = a; b = b; c = c; imm = imm }) }
{
    Some(FieldRanges { a, b, c, imm })
}

/// What the fields may be for an operation, or none where there is no such operation.
/// The set of `bk` depends on its field `a`.
fn ranges_of(op: u8, a: u8) -> Option<FieldRanges>
    ensures { result ≡ ranges_of op a }
{
    match op {
        opcode::NOP => allow(NONE, NONE, NONE, NONE),
        opcode::ADD => allow(REGISTER, REGISTER, REGISTER, NONE),
        opcode::SUB => allow(REGISTER, REGISTER, REGISTER, NONE),
        opcode::AND => allow(REGISTER, REGISTER, REGISTER, NONE),
        opcode::OR => allow(REGISTER, REGISTER, REGISTER, NONE),
        opcode::XOR => allow(REGISTER, REGISTER, REGISTER, NONE),
        opcode::SHL => allow(REGISTER, REGISTER, NONE, SHIFT),
        opcode::SHR => allow(REGISTER, REGISTER, NONE, SHIFT),
        opcode::ADDI => allow(REGISTER, REGISTER, NONE, ANY_NUMBER),
        opcode::NOT => allow(REGISTER, REGISTER, NONE, NONE),
        opcode::NEG => allow(REGISTER, REGISTER, NONE, NONE),
        opcode::MOV => allow(REGISTER, REGISTER, NONE, NONE),
        opcode::MOVI => allow(REGISTER, NONE, NONE, ANY_NUMBER),
        opcode::MOVA => allow(REGISTER, NONE, NONE, NONE),
        opcode::MOVS => allow(REGISTER, NONE, NONE, NONE),
        opcode::MOVW => allow(REGISTER, NONE, NONE, NONE),
        opcode::MOVK => allow(REGISTER, NONE, NONE, NONE),
        opcode::BI => allow(NONE, NONE, NONE, TARGET),
        opcode::BEQ => allow(REGISTER, REGISTER, NONE, TARGET),
        opcode::BNE => allow(REGISTER, REGISTER, NONE, TARGET),
        opcode::BLT => allow(REGISTER, REGISTER, NONE, TARGET),
        opcode::BGE => allow(REGISTER, REGISTER, NONE, TARGET),
        opcode::BK => allow(
            TESTED,
            Allowed::Range {
                from: 1,
                to: set_limit(a),
            },
            NONE,
            TARGET,
        ),
        opcode::SF => allow(FLAG, NONE, NONE, NONE),
        opcode::CF => allow(FLAG, NONE, NONE, NONE),
        opcode::NF => allow(FLAG, NONE, NONE, NONE),
        opcode::MOVF => allow(FLAG, FLAG, NONE, NONE),
        opcode::ANDF => allow(FLAG, FLAG, NONE, NONE),
        opcode::ORF => allow(FLAG, FLAG, NONE, NONE),
        opcode::RDW => allow(NONE, NONE, NONE, NONE),
        opcode::GAD => allow(NONE, NONE, NONE, NONE),
        opcode::WDE => allow(VALID_STATES, NONE, NONE, NONE),
        opcode::WDS => allow(WHOSE, ALL_STATES, NONE, NONE),
        opcode::FIN => allow(NONE, NONE, NONE, NONE),
        opcode::WFQ => allow(CLASSES, NONE, NONE, NONE),
        opcode::POPQ => allow(CHOICE, NONE, NONE, NONE),
        opcode::DEFER => allow(NONE, NONE, NONE, NONE),
        opcode::INV => allow(CHOICE, NONE, NONE, NONE),
        opcode::STWB => allow(HOLDER, CLEAN_STATES, NONE, NONE),
        opcode::BLK => allow(GRANTED_STATES, NONE, NONE, NONE),
        opcode::WAKE => allow(NONE, NONE, NONE, NONE),
        opcode::TR => allow(LEFT_STATES, RECEIVED_STATES, NONE, NONE),
        opcode::UCBLK => allow(NONE, NONE, NONE, NONE),
        opcode::UCDONE => allow(NONE, NONE, NONE, NONE),
        opcode::DONE => allow(NONE, NONE, NONE, NONE),
        opcode::MEMRD => allow(NONE, NONE, NONE, NONE),
        opcode::MEMWB => allow(NONE, NONE, NONE, NONE),
        opcode::MEMWW => allow(NONE, NONE, NONE, NONE),
        _ => None,
    }
}

/// The first field, from the top, that no instruction has.
pub fn fault_in(fields: Fields) -> Option<WordFault>
    ensures { result ≡ fault_in fields }
{
    match ranges_of(fields.op, fields.a) {
        None => Some(WordFault::Opcode),
        Some(ranges) => first_fault(ranges, fields),
    }
}
