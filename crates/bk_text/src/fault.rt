ghost use Rattle.std.specs.Prelude.{◌≡◌};
ghost use Rattle.bk_text.specs.Faults.{wrong, missing, word_in, fault_behind, Steps};

use crate::scan::is_text_byte;
use crate::text_line::{Placed, TextLine};

/// The kinds of fault of a grammar of lines.
pub trait FaultKind: Copy {
    ghost byte: { Self };

    ghost extra: { Self };

    /// A byte is none of a text.
    fn byte() -> Self
        ensures { result ≡ byte };

    /// A word follows a whole line.
    fn extra() -> Self
        ensures { result ≡ extra };
}

/// What is wrong with a line, and in which column.
#[derive(Clone, Copy, Debug, PartialEq, Eq)]
pub struct At<K> {
    pub column: u64,
    pub kind: K,
}

/// What is wrong with a word that should be something else.
pub fn wrong<K: FaultKind>(word: Placed<'_>, kind: K) -> At<K>
    ensures { result ≡ wrong K.byte (record { column = word.entry.column; word = word.entry.word.now }) kind }
{
    let kind = match word.word {
        [first, ..] if !is_text_byte(*first) => K::byte(),
        _ => kind,
    };
    At {
        column: word.column,
        kind,
    }
}

/// What is wrong where a word is missing.
fn missing<K: FaultKind>(line: &TextLine<'_>, kind: K) -> At<K>
    ensures { result ≡ missing K.byte line.now kind }
{
    match line.bad_byte() {
        Some(column) => At {
            column,
            kind: K::byte(),
        },
        None => At {
            column: line.end(),
            kind,
        },
    }
}

/// The next word, which has to be there.
pub fn word_at<'a, K: FaultKind>(kind: K, line: &mut TextLine<'a>) -> Result<Placed<'a>, At<K>>
    ensures { Steps (λ w. record { column = w.column; word = w.word.now }) result line.new
        (word_in K.byte kind line.old line.old.words) }
{
    match line.next_word() {
        Some(word) => Ok(word),
        None => Err(missing(line, kind)),
    }
}

/// What is wrong behind the last word of a line.
pub fn fault_behind<K: FaultKind>(line: &mut TextLine<'_>) -> Option<At<K>>
    ensures { result ≡ fault_behind K.byte K.extra line.old.words line.old.bad }
{
    match line.next_word() {
        Some(word) => Some(wrong(word, K::extra())),
        None => line.bad_byte().map(|column| At {
            column,
            kind: K::byte(),
        }),
    }
}
