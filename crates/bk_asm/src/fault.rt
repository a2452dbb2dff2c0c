ghost use Rattle.std.specs.Prelude.{◌≡◌};
ghost use Rattle.bk_asm.specs.Faults.{kind_code, bad, fault_of};
ghost use Rattle.bk_asm.specs.declared.fault.Kind.TheVariants.{Byte, Extra};
ghost use Rattle.bk_asm.specs.declared.fault.AsmFault.TheVariants.{Memory};

use bk_text::FaultKind;
use std::alloc::{AllocError, AllocFailed};
use thiserror::Error;

/// What is wrong with a text of microcode.
#[derive(Clone, Copy, Debug, PartialEq, Eq)]
pub enum Kind {
    /// A byte is neither printable ASCII nor a tab.
    Byte,
    /// A word is no mnemonic.
    Mnemonic,
    /// An operand is missing, or is none that the instruction may have.
    Operand,
    /// A word is no number, or one out of its range.
    Number,
    /// A word follows a whole line.
    Extra,
    /// A label is defined for the second time.
    LabelTwice,
    /// A branch goes to a label that is defined nowhere.
    LabelUndefined,
    /// A know line is bad, or the second one of its instruction.
    Know,
    /// No instruction follows a label or a know line.
    WithoutInstruction,
    /// The text has no instruction.
    NoInstruction,
    /// The text has more than 256 instructions.
    TooMany,
    /// A `caches` line is repeated or misplaced, or its number is missing or not 1 to 16.
    Caches,
}

impl Kind {
    /// The number of the kind, in reports.
    pub fn code(self) -> u8
        ensures { result ≡ kind_code self }
    {
        match self {
            Kind::Byte => 20,
            Kind::Mnemonic => 21,
            Kind::Operand => 22,
            Kind::Number => 23,
            Kind::Extra => 24,
            Kind::LabelTwice => 25,
            Kind::LabelUndefined => 26,
            Kind::Know => 27,
            Kind::WithoutInstruction => 28,
            Kind::NoInstruction => 29,
            Kind::TooMany => 30,
            Kind::Caches => 31,
        }
    }
}

impl FaultKind for Kind {
    ghost byte = { Byte };

    ghost extra = { Extra };

    fn byte() -> Kind {
        Kind::Byte
    }

    fn extra() -> Kind {
        Kind::Extra
    }
}

/// What is wrong with a line, and in which column.
pub(crate) type At = bk_text::At<Kind>;

/// The same in the line of a number.
pub(crate) fn on_line(line: u64, fault: At) -> AsmFault
    ensures { result ≡ fault_of (bad line fault) }
{
    AsmFault::Bad {
        line,
        column: fault.column,
        kind: fault.kind.code(),
    }
}

/// Why a text was not read as an image.
#[derive(Debug, Drop, Error)]
pub enum AsmFault {
    /// The first fault of the text: its line and its column, from 1, and the number of its `Kind`.
    /// Columns count bytes.
    #[error("line {line}, column {column}: fault {kind}")]
    Bad { line: u64, column: u64, kind: u8 },
    /// Memory ran out. This says nothing of the text.
    #[error("out of memory")]
    Memory,
}

impl From<AllocError> for AsmFault {
    ghost from_gives = { λ _ e. e ≡ Memory };

    fn from(_e: AllocError) -> AsmFault {
        AsmFault::Memory
    }
}

impl<T: Drop> From<AllocFailed<T>> for AsmFault {
    ghost from_gives = { λ _ e. e ≡ Memory };

    fn from(_e: AllocFailed<T>) -> AsmFault {
        AsmFault::Memory
    }
}
