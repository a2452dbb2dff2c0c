ghost use Rattle.std.specs.Prelude.{◌≡◌, ◌<◌, ◌≤◌, length, max, IfOk, IfSome};
ghost use Rattle.std.specs.Option.{option_map};
ghost use Rattle.bk_asm.specs.Faults.{Gives};
ghost use Rattle.bk_asm.specs.Reading.{after, image_at};
ghost use Rattle.bk_asm.specs.Spelled.{Spells};

use crate::draft::Draft;
use crate::fault::{AsmFault, on_line};
use crate::line::{Line, line_at};
use bk_image::Image;
use bk_text::{TextLine, cut_line};
use std::alloc::{AllocError, Global};

/// What begins a comment.
const COMMENT: u8 = b';';

/// What was read with one more line. There is room for its instruction, if it has one.
fn after<'a>(draft: Draft<'a>, line: Line<'a>) -> Result<Draft<'a>, AllocError>
    requires room { IfSome line.does (λ _. length draft.statements < 256) }
    requires limit { IfSome line.limit (λ n. (1 ≤ n) × (n ≤ 16)) }
    ensures { IfOk result (λ d. d ≡ after (record {
      limit = line.entry.limit;
      label = option_map (λ w. w.now) line.entry.label;
      know = line.entry.know;
      does = line.entry.does;
    }) draft.entry) }
{
    let Line {
        limit,
        label,
        know,
        does,
    } = line;
    let mut draft = draft.with_limit(limit);
    if let Some(name) = label {
        draft = draft.with_label(name)?;
    }
    if let Some(know) = know {
        draft = draft.with_know(know);
    }
    if let Some(statement) = does {
        draft = draft.with_statement(statement)?;
    }
    Ok(draft)
}

/// The number of the last of so many lines: a text without a line counts as one line.
fn last_line(lines: u64) -> u64
    ensures { result ≡ max 1 lines }
{
    if lines == 0 { 1 } else { lines }
}

/// The image that a text spells, or the first fault of the text.
pub fn assemble(alloc: Global, text: &[u8]) -> Result<Image, AsmFault>
    ensures exact { Gives (λ i. i) result (image_at text.now) }
    ensures spelled { IfOk result (λ image. Spells text.now image) }
{
    let mut draft = Draft::new(alloc);
    let mut rest = text;
    let mut line = 0;
    while !rest.is_empty() {
        let (front, behind) = cut_line(rest);
        line += 1;
        let parts = match line_at(
            &draft.labels,
            draft.before(),
            line,
            &mut TextLine::of(COMMENT, front),
        ) {
            Ok(parts) => parts,
            Err(fault) => return Err(on_line(line, fault)),
        };
        draft = after(draft, parts)?;
        rest = behind;
    }
    draft.finish(alloc, last_line(line))
}
