ghost use Rattle.std.specs.Prelude.{◌≡◌};
ghost use Rattle.bk_trace.specs.Faults.{kind_code, bad, fault_of};
ghost use Rattle.bk_trace.specs.declared.fault.Kind.TheVariants.{Byte, Extra};
ghost use Rattle.bk_trace.specs.declared.fault.TraceFault.TheVariants.{Memory};

use bk_text::FaultKind;
use std::alloc::{AllocError, AllocFailed};
use thiserror::Error;

/// What is wrong with the text of a trace.
#[derive(Clone, Copy, Debug, PartialEq, Eq)]
pub enum Kind {
    /// A byte is neither printable ASCII nor a tab.
    Byte,
    /// The configuration is missing or bad.
    Config,
    /// The cache is none of the configuration.
    Cache,
    /// The name of the operation is missing or none.
    Name,
    /// The address is missing, or is no multiple of 8 below 2^40.
    Address,
    /// The value of a store is missing or no number.
    Value,
    /// A word follows a whole line.
    Extra,
    /// The trace has more than 10,000 operations.
    TooMany,
}

impl Kind {
    /// The number of the kind, in reports.
    pub fn code(self) -> u8
        ensures { result ≡ kind_code self }
    {
        match self {
            Kind::Byte => 40,
            Kind::Config => 41,
            Kind::Cache => 42,
            Kind::Name => 43,
            Kind::Address => 44,
            Kind::Value => 45,
            Kind::Extra => 46,
            Kind::TooMany => 47,
        }
    }
}

impl FaultKind for Kind {
    ghost byte = { Byte };

    ghost extra = { Extra };

    fn byte() -> Kind {
        Kind::Byte
    }

    fn extra() -> Kind {
        Kind::Extra
    }
}

/// What is wrong with a line, and in which column.
pub(crate) type At = bk_text::At<Kind>;

/// The same in the line of a number.
pub(crate) fn on_line(line: u64, fault: At) -> TraceFault
    ensures { result ≡ fault_of (bad line fault) }
{
    TraceFault::Bad {
        line,
        column: fault.column,
        kind: fault.kind.code(),
    }
}

/// Why a text was not read as a trace.
#[derive(Debug, Drop, Error)]
pub enum TraceFault {
    /// The first fault of the text: its line and its column, from 1, and the number of its `Kind`.
    /// Columns count bytes.
    #[error("line {line}, column {column}: fault {kind}")]
    Bad { line: u64, column: u64, kind: u8 },
    /// Memory ran out. This says nothing of the text.
    #[error("out of memory")]
    Memory,
}

impl From<AllocError> for TraceFault {
    ghost from_gives = { λ _ e. e ≡ Memory };

    fn from(_e: AllocError) -> TraceFault {
        TraceFault::Memory
    }
}

impl<T: Drop> From<AllocFailed<T>> for TraceFault {
    ghost from_gives = { λ _ e. e ≡ Memory };

    fn from(_e: AllocFailed<T>) -> TraceFault {
        TraceFault::Memory
    }
}
