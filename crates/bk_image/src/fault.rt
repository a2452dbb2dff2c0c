ghost use Rattle.std.specs.Prelude.{◌≡◌};
ghost use Rattle.bk_image.specs.Faults.{kind_code, bad};
ghost use Rattle.bk_image.specs.declared.fault.ImageFault.TheVariants.{Memory};

use std::alloc::{AllocError, AllocFailed};
use thiserror::Error;

/// What is wrong with the bytes of an image.
#[derive(Clone, Copy, Debug, PartialEq, Eq)]
pub enum Kind {
    /// The image doesn't begin with `BKUC`.
    Magic,
    /// The version is neither 1 nor 2.
    Version,
    /// A reserved byte of the header isn't 0.
    ReservedByte,
    /// The count of instructions is 0, or that of know lines is above it.
    Count,
    /// The count of instructions is above 256.
    TooMany,
    /// An instruction word has an opcode of no instruction.
    Opcode,
    /// An operand of an instruction word is out of its range.
    WordField,
    /// A field of an instruction word is no operand and isn't 0.
    WordReserved,
    /// The place of a know line is not below the count of instructions, or a field of its mask has
    /// no value.
    KnowLine,
    /// The place of a know line is not above that of the know line before it.
    NotAscending,
    /// The bytes end within a field.
    Short,
    /// Bytes stand behind the last field.
    Trailing,
    /// The limit of a version 2 image isn't 1 to 16.
    Limit,
}

impl Kind {
    /// The number of the kind, in reports.
    pub fn code(self) -> u8
        ensures { result ≡ kind_code self }
    {
        match self {
            Kind::Magic => 1,
            Kind::Version => 2,
            Kind::ReservedByte => 3,
            Kind::Count => 4,
            Kind::TooMany => 5,
            Kind::Opcode => 6,
            Kind::WordField => 7,
            Kind::WordReserved => 8,
            Kind::KnowLine => 9,
            Kind::NotAscending => 10,
            Kind::Short => 11,
            Kind::Trailing => 12,
            Kind::Limit => 13,
        }
    }
}

/// Why an image could not be read.
#[derive(Debug, Drop, Error)]
pub enum ImageFault {
    /// The first fault of the bytes: at which byte the offending field begins, and the number of
    /// its `Kind`.
    #[error("byte {place}: fault {kind}")]
    Bad { place: u64, kind: u8 },
    /// Memory ran out.
    #[error("out of memory")]
    Memory,
}

impl From<AllocError> for ImageFault {
    ghost from_gives = { λ _ e. e ≡ Memory };

    fn from(_e: AllocError) -> ImageFault {
        ImageFault::Memory
    }
}

impl<T: Drop> From<AllocFailed<T>> for ImageFault {
    ghost from_gives = { λ _ e. e ≡ Memory };

    fn from(_e: AllocFailed<T>) -> ImageFault {
        ImageFault::Memory
    }
}

/// The fault of a kind, whose field begins at a place.
pub fn bad(place: u64, kind: Kind) -> ImageFault
    ensures { result ≡ ImageFault.Bad place (kind_code kind) }
{
    ImageFault::Bad {
        place,
        kind: kind.code(),
    }
}
