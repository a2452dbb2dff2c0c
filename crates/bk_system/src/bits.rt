ghost use Rattle.std.specs.Prelude.{◌≡◌, ◌≤◌, ◌<◌, ℕ, MatchOption, if◌then◌else◌};
ghost use Rattle.std.specs.Int.{bit_at};
ghost use Rattle.bk_base.specs.Tables.{put};
ghost use Rattle.bk_system.specs.Bits.{IsFirstBit, mark_at};

// Words whose bits mark places: one word marks 64 of them, and four words mark 256.

/// How many places a word marks.
pub(crate) const WORD_PLACES: u8 = 64;

/// How many words of marks there are.
pub(crate) const MARK_WORDS: usize = 4;

/// The word with the bit of a place set or cleared.
pub(crate) fn marked(word: u64, place: u8, set: bool) -> u64
    requires { place < 64 }
    ensures { (c : ℕ) → c < 64 → bit_at result c ≡ put (bit_at word) place (if set then 1 else 0) c }
{
    let mark = 1 << place;
    if set { word | mark } else { word & !mark }
}

/// Sets or clears the mark of a place in four words of marks.
pub(crate) fn mark(marks: &mut [u64; MARK_WORDS], place: u8, set: bool)
    ensures { (c : ℕ) → c < 256 → mark_at marks.new c ≡ put (mark_at marks.old) place (if set then 1 else 0) c }
{
    let word = (place / WORD_PLACES) as usize;
    marks[word] = marked(marks[word], place % WORD_PLACES, set);
}

/// The least place from a start on whose bit is set.
pub(crate) fn first_bit(word: u64, start: u8) -> Option<u8>
    ensures { MatchOption result ((c : ℕ) → start ≤ c → bit_at word c ≡ 0) (λ c. IsFirstBit word start c) }
{
    if start >= 64 {
        return None;
    }
    let rest = word >> start;
    if rest == 0 {
        None
    } else {
        Some(start + rest.trailing_zeros() as u8)
    }
}
