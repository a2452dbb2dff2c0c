//! Writing an image.

ghost use Rattle.std.specs.Prelude.{◌≡◌, ◌++◌, length, IfOk, Ok};
ghost use Rattle.std.specs.List.{flat_map, AllByRecursion};
ghost use Rattle.bk_isa.specs.Words.{IsInRange};
ghost use Rattle.bk_image.specs.Reading.{image_at};
ghost use Rattle.bk_image.specs.Spelling.{limit_byte, header, word, line, HasMask, spelling};

use crate::header::Heading;
use crate::image::{FIRST_VERSION, Image};
use bk_isa::{Instr, word_of};
use bk_know::Know;
use std::alloc::{AllocError, Global};

/// `BKUC`.
const MAGIC: [u8; 4] = [0x42, 0x4b, 0x55, 0x43];

/// The byte of the limit, which is reserved in version 1.
fn limit_byte(heading: Heading) -> u8
    ensures { result ≡ limit_byte heading.version heading.limit }
{
    if heading.version == FIRST_VERSION {
        0
    } else {
        heading.limit
    }
}

/// What stands before the words of an image.
fn header_of(alloc: Global, heading: Heading) -> Result<Vec<u8>, AllocError>
    ensures { IfOk result (λ v. v.items ≡ header heading) }
{
    let mut bytes = Vec::new(alloc);
    bytes.extend_from_slice(&MAGIC)?;
    bytes.extend_from_slice(&[heading.version, limit_byte(heading), 0, 0])?;
    bytes.extend_from_slice(&heading.instrs.to_le_bytes())?;
    bytes.extend_from_slice(&heading.knows.to_le_bytes())?;
    Ok(bytes)
}

/// Appends the words of the instructions, each of which is one.
fn push_words(bytes: &mut Vec<u8>, instrs: &[Instr]) -> Result<(), AllocError>
    ensures value { IfOk result (λ _. bytes.new.items ≡ bytes.old.items ++ flat_map word instrs.now) }
    ensures in_range { IfOk result (λ _. AllByRecursion IsInRange instrs.now) }
{
    for instr in instrs {
        bytes.extend_from_slice(&word_of(*instr).to_le_bytes())?;
    }
    Ok(())
}

/// Appends a know line: its place and its mask.
fn push_line(bytes: &mut Vec<u8>, know_line: &(u32, Know)) -> Result<(), AllocError>
    ensures value { IfOk result (λ _. bytes.new.items ≡ bytes.old.items ++ line know_line.now) }
    ensures mask { IfOk result (λ _. HasMask know_line.now) }
{
    let (place, know) = *know_line;
    bytes.extend_from_slice(&place.to_le_bytes())?;
    bytes.extend_from_slice(&know.mask().to_le_bytes())?;
    Ok(())
}

/// Appends know lines, each of whose masks is one.
fn push_lines(bytes: &mut Vec<u8>, knows: &[(u32, Know)]) -> Result<(), AllocError>
    ensures value { IfOk result (λ _. bytes.new.items ≡ bytes.old.items ++ flat_map line knows.now) }
    ensures masks { IfOk result (λ _. AllByRecursion HasMask knows.now) }
{
    for know_line in knows {
        push_line(bytes, know_line)?;
    }
    Ok(())
}

/// The bytes of an image, which `read_image` reads as that image. Fails where memory runs out.
pub fn write_image(alloc: Global, image: &Image) -> Result<Vec<u8>, AllocError>
    ensures value { IfOk result (λ v. v.items ≡ spelling image.now) }
    // What is written is read as the image that was written.
    ensures again { IfOk result (λ v. image_at v.items ≡ Ok image.now) }
{
    let instrs = image.instrs();
    let knows = image.knows();
    let heading = Heading {
        version: image.version(),
        limit: image.limit(),
        instrs: instrs.len() as u32,
        knows: knows.len() as u32,
    };
    let mut bytes = header_of(alloc, heading)?;
    push_words(&mut bytes, instrs)?;
    push_lines(&mut bytes, knows)?;
    Ok(bytes)
}
