//! What stands before the instruction words of an image.

ghost use Rattle.std.specs.Prelude.{◌≡◌, ◌≤◌, IfOk};
ghost use Rattle.bk_image.specs.Faults.{Gives};
ghost use Rattle.bk_image.specs.Images.{IsFormat};
ghost use Rattle.bk_image.specs.Reading.{limit_at, count_at, know_count_at, heading_at, header_at};

use crate::fault::{ImageFault, Kind, bad};
use crate::fields::{byte_at, place, u32_at};
use crate::image::{FIRST_LIMIT, FIRST_VERSION, GREATEST_LIMIT, INSTRUCTION_LIMIT, SECOND_VERSION};

/// `BKUC`, read as a number.
const MAGIC: u32 = 0x4355_4b42;

/// What an image says before its words.
#[derive(Clone, Copy, Debug, PartialEq, Eq)]
pub(crate) struct Heading {
    /// The version of the format, 1 or 2.
    pub version: u8,
    /// The most caches that a replay has, 1 to 16; 8 in version 1.
    pub limit: u8,
    /// How many instructions, 1 to 256.
    pub instrs: u32,
    /// How many know lines, at most as many as instructions.
    pub knows: u32,
}

/// The limit, of an image of this version. Version 1 has a reserved byte in its place.
#[tactic(auto, unfolding(crate::specs::Reading::limit_at))]
fn limit_at(version: u8, total: usize, bytes: &[u8]) -> Result<(u8, &[u8]), ImageFault>
    ensures value { Gives (λ x. (x.0, x.1.now)) result (limit_at version total bytes.now) }
    ensures format { 1 ≤ version → version ≤ 2 → IfOk result (λ x. IsFormat version x.0) }
{
    if version == FIRST_VERSION {
        let (_reserved, rest) = byte_at(0, 0, Kind::ReservedByte, total, bytes)?;
        return Ok((FIRST_LIMIT, rest));
    }
    byte_at(1, GREATEST_LIMIT, Kind::Limit, total, bytes)
}

/// The count of instructions.
#[tactic(auto, unfolding(crate::specs::Reading::count_at))]
fn count_at(total: usize, bytes: &[u8]) -> Result<(u32, &[u8]), ImageFault>
    ensures length { IfOk result (λ x. (1 ≤ x.0) × (x.0 ≤ 256)) }
    ensures value { Gives (λ x. (x.0, x.1.now)) result (count_at total bytes.now) }
{
    let (count, rest) = u32_at(total, bytes)?;
    if count == 0 {
        return Err(bad(place(total, bytes), Kind::Count));
    }
    if count > INSTRUCTION_LIMIT {
        return Err(bad(place(total, bytes), Kind::TooMany));
    }
    Ok((count, rest))
}

/// The count of know lines, of an image with so many instructions.
#[tactic(auto, unfolding(crate::specs::Reading::know_count_at))]
fn know_count_at(instrs: u32, total: usize, bytes: &[u8]) -> Result<(u32, &[u8]), ImageFault>
    ensures { Gives (λ x. (x.0, x.1.now)) result (know_count_at instrs total bytes.now) }
{
    let (knows, rest) = u32_at(total, bytes)?;
    if knows > instrs {
        return Err(bad(place(total, bytes), Kind::Count));
    }
    Ok((knows, rest))
}

/// The version, the limit, two reserved bytes and both counts.
#[tactic(auto, unfolding(crate::specs::Reading::heading_at))]
fn heading_at(total: usize, bytes: &[u8]) -> Result<(Heading, &[u8]), ImageFault>
    ensures length { IfOk result (λ x. (1 ≤ x.0.instrs) × (x.0.instrs ≤ 256)) }
    ensures format { IfOk result (λ x. IsFormat x.0.version x.0.limit) }
    ensures value { Gives (λ x. (x.0, x.1.now)) result (heading_at total bytes.now) }
{
    let (version, rest) = byte_at(FIRST_VERSION, SECOND_VERSION, Kind::Version, total, bytes)?;
    let (limit, rest) = limit_at(version, total, rest)?;
    let (_first, rest) = byte_at(0, 0, Kind::ReservedByte, total, rest)?;
    let (_second, rest) = byte_at(0, 0, Kind::ReservedByte, total, rest)?;
    let (instrs, rest) = count_at(total, rest)?;
    let (knows, rest) = know_count_at(instrs, total, rest)?;
    let heading = Heading {
        version,
        limit,
        instrs,
        knows,
    };
    Ok((heading, rest))
}

/// The magic and all that stands before the words.
#[tactic(auto, unfolding(crate::specs::Reading::header_at))]
pub(crate) fn header_at(total: usize, bytes: &[u8]) -> Result<(Heading, &[u8]), ImageFault>
    ensures length { IfOk result (λ x. (1 ≤ x.0.instrs) × (x.0.instrs ≤ 256)) }
    ensures format { IfOk result (λ x. IsFormat x.0.version x.0.limit) }
    ensures value { Gives (λ x. (x.0, x.1.now)) result (header_at total bytes.now) }
{
    let (magic, rest) = u32_at(total, bytes)?;
    if magic != MAGIC {
        return Err(bad(place(total, bytes), Kind::Magic));
    }
    heading_at(total, rest)
}
