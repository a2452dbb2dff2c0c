ghost use Rattle.std.specs.Prelude.{◌≡◌, ◌+◌, ◌<◌, ◌^◌, length, drop};
ghost use Rattle.bk_text.specs.Items.{items_of, next_item};

use crate::scan::{LINE_FEED, first_index, strip_carriage_return};
use crate::text_line::cut_word;
use std::marker::Model;

/// What comes next in a text.
#[derive(Clone, Copy, Debug, PartialEq, Eq)]
pub enum Word {
    /// A word: its line and column from 1, and the places in the text where it begins and where it has ended.
    Word {
        line: u64,
        column: u64,
        from: usize,
        to: usize,
    },
    /// The end of the line of this number.
    LineEnd {
        line: u64,
    },
    /// Nothing is left.
    End,
}

/// The words and the line ends of a text. Contracts see the list of those that are left.
#[derive(Debug, Drop)]
pub struct Lines<'a> {
    line: u64,
    /// Where the line begins in the text.
    start: usize,
    /// What is left of the line, without its end, and the column in which that begins.
    column: u64,
    rest: &'a [u8],
    /// Whether LF ends the line, what follows that, and where.
    ends: bool,
    after: &'a [u8],
    next: usize,
}

impl<'a> Model for Lines<'a> {
    ghost use Rattle.std.specs.Prelude.{◌+◌, ◌-◌, ◌<◌, ◌≤◌, ◌^◌, ◌++◌, List, length, if◌then◌else◌};
    ghost use Rattle.bk_text.specs.LineWords.{words_from};
    ghost use Rattle.bk_text.specs.Items.{line_items, items_after};
    ghost use Rattle.bk_text.specs.declared.lines.Word.{Word as Item};

    ghost Value = { List Item };

    ghost view = { λ l. line_items l.line l.start (words_from l.column l.rest.now) ++ items_after l.line l.next l.ends l.after.now };

    ghost invariant = { λ l. (1 ≤ l.column) × (l.column + length l.rest.now < 2 ^ 64)
        × (l.start + (l.column - 1) + length l.rest.now < 2 ^ 64)
        × (l.next + length l.after.now + 1 < 2 ^ 64) × (l.line + (if l.ends then 1 else 0) + length l.after.now + 1 < 2 ^ 64) };
}

impl<'a> Lines<'a> {
    /// The words and line ends from the beginning of a line on.
    fn begin(line: u64, start: usize, text: &'a [u8]) -> Lines<'a>
        requires line { line + length text.now + 1 < 2 ^ 64 }
        requires start { start + length text.now + 1 < 2 ^ 64 }
        ensures { result ≡ items_of line start text.now }
    {
        let end = first_index(LINE_FEED, text);
        if end == text.len() {
            Lines {
                line,
                start,
                column: 1,
                rest: text,
                ends: false,
                after: &[],
                next: start,
            }
        } else {
            Lines {
                line,
                start,
                column: 1,
                rest: strip_carriage_return(&text[..end]),
                ends: true,
                after: &text[end + 1..],
                next: start + (end + 1),
            }
        }
    }

    /// The words and line ends of a text.
    pub fn over(bytes: &'a [u8]) -> Lines<'a>
        ensures { result ≡ items_of 1 0 bytes.now }
    {
        Lines::begin(1, 0, bytes)
    }

    /// The next word or line end, or `End` where nothing is left, and then again at each call.
    pub fn next_word(&mut self) -> Word
        ensures item { result ≡ next_item self.old }
        ensures rest { self.new ≡ drop 1 self.old }
    {
        match cut_word(self.column, self.rest) {
            Some((word, rest)) => {
                let from = self.start + (word.column - 1) as usize;
                self.column = word.column + word.word.len() as u64;
                self.rest = rest;
                Word::Word {
                    line: self.line,
                    column: word.column,
                    from,
                    to: from + word.word.len(),
                }
            }
            None if self.ends => {
                let line = self.line;
                *self = Lines::begin(line + 1, self.next, self.after);
                Word::LineEnd { line }
            }
            None => Word::End,
        }
    }
}
