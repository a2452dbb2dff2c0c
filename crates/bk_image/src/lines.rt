//! The know lines of an image.

ghost use Rattle.std.specs.Prelude.{◌≡◌, ◌≤◌, ◌<◌, length, true, IfOk, OnOk};
ghost use Rattle.bk_image.specs.Faults.{Gives};
ghost use Rattle.bk_image.specs.Images.{are_lines};
ghost use Rattle.bk_image.specs.Reading.{mask_at, line_at, lines_at};

use crate::fault::{ImageFault, Kind, bad};
use crate::fields::{place, u32_at, u64_at};
use crate::header::Heading;
use bk_know::Know;
use std::alloc::Global;

/// How many bytes a mask has.
const MASK_BYTES: usize = 8;
/// How many bytes a know line has: a place of 32 bits, and its mask.
const LINE_BYTES: usize = 12;

/// What is known by the mask of the first eight bytes.
#[tactic(auto, unfolding(crate::specs::Reading::mask_at))]
fn mask_at(total: usize, bytes: &[u8]) -> Result<Know, ImageFault>
    ensures value { Gives (λ x. x) result (mask_at total bytes.now) }
    ensures whole { OnOk result (8 ≤ length bytes.now) }
{
    if bytes.len() < MASK_BYTES {
        return Err(bad(total as u64, Kind::Short));
    }
    let (mask, _rest) = u64_at(total, bytes)?;
    match Know::make(mask) {
        Some(know) => Ok(know),
        None => Err(bad(place(total, bytes), Kind::KnowLine)),
    }
}

/// The know line of the first twelve bytes, of an image with so many instructions. `least` is one
/// more than the place of the line before it, or 0 where it is the first.
#[tactic(auto, unfolding(crate::specs::Reading::line_at))]
fn line_at(total: usize, instrs: u32, least: u32, bytes: &[u8]) -> Result<(u32, Know), ImageFault>
    ensures value { Gives (λ x. x) result (line_at total instrs least bytes.now) }
    ensures whole { OnOk result (12 ≤ length bytes.now) }
    ensures below { IfOk result (λ x. x.0 < instrs) }
{
    let (at, rest) = u32_at(total, bytes)?;
    if at >= instrs {
        return Err(bad(place(total, bytes), Kind::KnowLine));
    }
    if at < least {
        return Err(bad(place(total, bytes), Kind::NotAscending));
    }
    let know = mask_at(total, rest)?;
    Ok((at, know))
}

/// As many know lines as the heading says, and the bytes behind them.
pub(crate) fn lines_of(
    alloc: Global,
    total: usize,
    heading: Heading,
    bytes: &[u8],
) -> Result<(Vec<(u32, Know)>, &[u8]), ImageFault>
    ensures value { Gives (λ x. (x.0.items, x.1.now)) result (lines_at total heading.instrs heading.knows 0 bytes.now) }
    ensures lines { IfOk result (λ x. are_lines heading.instrs 0 x.0.items ≡ true) }
{
    let mut lines = Vec::new(alloc);
    let mut rest = bytes;
    let mut least = 0;
    for _ in 0..heading.knows {
        let line = line_at(total, heading.instrs, least, rest)?;
        least = line.0 + 1;
        lines.push(line)?;
        let (_front, after) = rest.split_at(LINE_BYTES);
        rest = after;
    }
    Ok((lines, rest))
}
