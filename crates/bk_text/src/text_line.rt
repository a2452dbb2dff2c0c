ghost use Rattle.std.specs.Prelude.{◌≡◌, ◌+◌, ◌<◌, ◌≤◌, ◌^◌, ◌∷◌, [], length, IfSome, IfNone};
ghost use Rattle.bk_text.specs.Texts.{is_nonempty};
ghost use Rattle.bk_text.specs.LineWords.{Marked, words_from, whole_line};

use crate::scan::{blanks_len, first_bad, first_index, word_len};
use std::marker::Model;

/// A word of a line.
#[derive(Clone, Copy, Debug)]
pub struct Placed<'a> {
    /// The column of its first byte, from 1.
    pub column: u64,
    /// Its bytes, at least one.
    pub word: &'a [u8],
}

/// The first word of what is left of a line from a column on, and what is left behind it.
pub(crate) fn cut_word(column: u64, rest: &[u8]) -> Option<(Placed<'_>, &[u8])>
    requires { column + length rest.now < 2 ^ 64 }
    ensures some { IfSome result (λ x. words_from column rest.now
        ≡ record { column = x.0.column; word = x.0.word.now } ∷ words_from (x.0.column + length x.0.word.now) x.1.now) }
    ensures none { IfNone result (words_from column rest.now ≡ []) }
    ensures after { IfSome result (λ x. column ≤ x.0.column) }
    ensures within { IfSome result (λ x. x.0.column + length x.0.word.now + length x.1.now ≡ column + length rest.now) }
{
    let (blanks, front) = rest.split_at(blanks_len(rest));
    if front.is_empty() {
        return None;
    }
    let (word, behind) = front.split_at(word_len(front));
    let column = column + blanks.len() as u64;
    Some((Placed { column, word }, behind))
}

/// What is left of a line. Contracts see its words, the place of a bad byte in its comment, and
/// the column after its last byte.
#[derive(Debug, Drop)]
pub struct TextLine<'a> {
    /// The column in which the rest begins.
    column: u64,
    rest: &'a [u8],
    comment_column: u64,
    comment: &'a [u8],
    end: u64,
}

impl<'a> Model for TextLine<'a> {
    ghost use Rattle.std.specs.Prelude.{◌+◌, ◌<◌, ◌^◌, length};
    ghost use Rattle.bk_text.specs.LineWords.{LineWords, words_from, bad_from};

    ghost Value = { LineWords };

    ghost view = { λ r. record {
      words = words_from r.column r.rest.now;
      bad = bad_from r.comment_column r.comment.now;
      end = r.end;
    } };

    ghost invariant = { λ r. (r.column + length r.rest.now < 2 ^ 64) × (r.comment_column + length r.comment.now < 2 ^ 64) };
}

impl<'a> TextLine<'a> {
    /// The line without its end. A `mark` begins its comment, also inside a word.
    pub fn of(mark: u8, line: &'a [u8]) -> TextLine<'a>
        ensures { result ≡ whole_line mark line.now }
    {
        let start = first_index(mark, line);
        let (rest, comment) = line.split_at(start);
        TextLine {
            column: 1,
            rest,
            comment_column: start as u64 + 1,
            comment,
            end: line.len() as u64 + 1,
        }
    }

    /// Takes the next word before the comment.
    pub fn next_word(&mut self) -> Option<Placed<'a>>
        ensures some { IfSome result (λ w. self.old
            ≡ record self.new { words = record { column = w.column; word = w.word.now } ∷ self.new.words }) }
        ensures none { IfNone result (self.old.words ≡ []) }
        ensures same { IfNone result (self.new ≡ self.old) }
    {
        let (word, rest) = cut_word(self.column, self.rest)?;
        self.column = word.column + word.word.len() as u64;
        self.rest = rest;
        Some(word)
    }

    /// Whether a word is left.
    pub fn has_word(&self) -> bool
        ensures { result ≡ is_nonempty self.now.words }
    {
        cut_word(self.column, self.rest).is_some()
    }

    /// The column of the first byte of the comment that no text has.
    pub fn bad_byte(&self) -> Option<u64>
        ensures { result ≡ self.now.bad }
    {
        let place = first_bad(self.comment)?;
        Some(self.comment_column + place as u64)
    }

    /// The column after the line's last byte, the comment's bytes included.
    pub fn end(&self) -> u64
        ensures { result ≡ self.now.end }
    {
        self.end
    }
}
