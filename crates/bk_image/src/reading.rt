//! Reading an image.

ghost use Rattle.std.specs.Prelude.{◌≡◌, IfOk, Ok};
ghost use Rattle.bk_image.specs.Images.{Parts};
ghost use Rattle.bk_image.specs.Faults.{Gives};
ghost use Rattle.bk_image.specs.Spelling.{IsImage, spelling};
ghost use Rattle.bk_image.specs.Reading.{image_at};

use crate::fault::{ImageFault, Kind, bad};
use crate::fields::place;
use crate::header::header_at;
use crate::image::Image;
use crate::lines::lines_of;
use crate::words::words_of;
use std::alloc::Global;

#[tactic(auto, unfolding(crate::specs::Reading::image_at))]
fn read(alloc: Global, bytes: &[u8]) -> Result<Image, ImageFault>
    ensures { Gives (λ i. i) result (image_at bytes.now) }
{
    let total = bytes.len();
    let (heading, rest) = header_at(total, bytes)?;
    let (words, rest) = words_of(alloc, total, heading.instrs, rest)?;
    let (lines, rest) = lines_of(alloc, total, heading, rest)?;
    if !rest.is_empty() {
        return Err(bad(place(total, rest), Kind::Trailing));
    }
    Ok(Image::of(heading.version, heading.limit, words, lines))
}

/// The image that the bytes spell, all of the bytes, or the first fault in the order of the bytes.
///
/// An image has, little-endian: `BKUC`; the version 1 or 2, a byte; a byte that is 0 in version 1 and
/// the limit, 1 to 16, in version 2; two reserved bytes 0; the count of instructions, 1 to 256, and
/// that of know lines, at most as many, 32 bits each; the words of the instructions, 64 bits each;
/// and the know lines, each a place of 32 bits and a mask of 64 bits. The places of the know lines
/// ascend and are below the count of instructions. An image of version 1 has the limit 8
/// (`docs/FILES.md`).
///
/// Fails with `Memory` where memory runs out, and else with `Bad`: its place is the byte where the
/// offending field begins, or the length of the bytes where they end within a field. A byte of a
/// word, and its 32 bits as a whole, are fields.
pub fn read_image(alloc: Global, bytes: &[u8]) -> Result<Image, ImageFault>
    // What is read is an image that is spelled so.
    ensures found { IfOk result (λ i. IsImage i × (bytes.now ≡ spelling i)) }
    // What is spelled so is read, unless memory runs out.
    ensures only { (p : Parts) → IsImage p → bytes.now ≡ spelling p → Gives (λ i. i) result (Ok p) }
    // Which fault it is.
    ensures exact { Gives (λ i. i) result (image_at bytes.now) }
{
    read(alloc, bytes)
}
