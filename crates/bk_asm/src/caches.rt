//! The line that gives the limit of an image.

ghost use Rattle.std.specs.Prelude.{◌≡◌, ◌≤◌, None, IfOk, IfSome};
ghost use Rattle.std.specs.Option.{option_map};
ghost use Rattle.bk_text.specs.Faults.{LineGives};
ghost use Rattle.bk_asm.specs.Reading.{limit_of, caches_at};

use crate::fault::{At, Kind};
use crate::line::Line;
use bk_image::GREATEST_LIMIT;
use bk_text::{TextLine, fault_behind, number};

/// The limit that a word names, from 1 to 16.
#[tactic(auto, unfolding(crate::specs::Reading::limit_of))]
fn limit_of(word: &[u8]) -> Option<u8>
    ensures value { result ≡ limit_of word.now }
    ensures range { IfSome result (λ n. (1 ≤ n) × (n ≤ 16)) }
{
    let limit = number(word)?;
    if limit >= 1 && limit <= GREATEST_LIMIT as u64 {
        Some(limit as u8)
    } else {
        None
    }
}

/// What stands behind the word `caches`, which is the first of a line and stands in this column. `begun` says that something was read
/// before, so that the line is misplaced.
#[tactic(auto, unfolding(crate::specs::Reading::caches_at))]
pub(crate) fn caches_at<'a>(
    begun: bool,
    column: u64,
    row: &mut TextLine<'a>,
) -> Result<Line<'a>, At>
    ensures value { LineGives (λ l. record {
      limit = l.limit;
      label = option_map (λ w. w.now) l.label;
      know = l.know;
      does = l.does;
    }) result
        (caches_at begun column row.old row.old.words) }
    ensures nothing { IfOk result (λ l. l.does ≡ None) }
    ensures range { IfOk result (λ l. IfSome l.limit (λ n. (1 ≤ n) × (n ≤ 16))) }
{
    let fault = At {
        column,
        kind: Kind::Caches,
    };
    let Some(word) = row.next_word() else {
        return Err(fault);
    };
    if begun {
        return Err(fault);
    }
    let Some(limit) = limit_of(word.word) else {
        return Err(fault);
    };
    match fault_behind(row) {
        None => Ok(Line {
            limit: Some(limit),
            label: None,
            know: None,
            does: None,
        }),
        Some(fault) => Err(fault),
    }
}
