//! The instruction words of an image.

ghost use Rattle.std.specs.Prelude.{◌≡◌, ◌+◌, ◌≤◌, ◌^◌, length, IfOk, OnOk};
ghost use Rattle.bk_image.specs.Faults.{Gives, fault_of};
ghost use Rattle.bk_image.specs.Reading.{byte_of, word_fault, word_at, words_at};

use crate::fault::{ImageFault, Kind, bad};
use crate::fields::{place, u64_at};
use bk_isa::{Instr, WordFault, instr_of};
use std::alloc::Global;

/// How many bytes an instruction word has.
const WORD_BYTES: usize = 8;

/// Where the field of a number lies in the word that begins at a place: its bytes are counted from
/// the top, which is the last byte, and the 32 bits of number 4 lie first.
fn byte_of(place: u64, number: u8) -> u64
    requires { place + 8 ≤ 2 ^ 64 }
    ensures { result ≡ byte_of place number }
{
    if number == 4 {
        place
    } else {
        (place + 7).saturating_sub(number as u64)
    }
}

/// The fault of a word that begins at a place.
fn word_fault(place: u64, fault: WordFault) -> ImageFault
    requires { place + 8 ≤ 2 ^ 64 }
    ensures { result ≡ fault_of (word_fault place fault) }
{
    match fault {
        WordFault::Opcode => bad(byte_of(place, 0), Kind::Opcode),
        WordFault::Field(number) => bad(byte_of(place, number), Kind::WordField),
        WordFault::Reserved(number) => bad(byte_of(place, number), Kind::WordReserved),
    }
}

/// The instruction of the first eight bytes.
#[tactic(auto, unfolding(crate::specs::Reading::word_at))]
fn word_at(total: usize, bytes: &[u8]) -> Result<Instr, ImageFault>
    ensures value { Gives (λ x. x) result (word_at total bytes.now) }
    ensures whole { OnOk result (8 ≤ length bytes.now) }
{
    if bytes.len() < WORD_BYTES {
        return Err(bad(total as u64, Kind::Short));
    }
    let (word, _rest) = u64_at(total, bytes)?;
    match instr_of(word) {
        Ok(instr) => Ok(instr),
        Err(fault) => Err(word_fault(place(total, bytes), fault)),
    }
}

/// As many instructions as the count says, and the bytes behind their words.
pub(crate) fn words_of(
    alloc: Global,
    total: usize,
    count: u32,
    bytes: &[u8],
) -> Result<(Vec<Instr>, &[u8]), ImageFault>
    ensures length { IfOk result (λ x. length x.0.items ≡ count) }
    ensures value { Gives (λ x. (x.0.items, x.1.now)) result (words_at total count bytes.now) }
{
    let mut words = Vec::new(alloc);
    let mut rest = bytes;
    for _ in 0..count {
        let word = word_at(total, rest)?;
        words.push(word)?;
        let (_front, after) = rest.split_at(WORD_BYTES);
        rest = after;
    }
    Ok((words, rest))
}
