//! A segment: what the directory keeps of a cache and a set. It is five words, the lowest first, and way w has bits
//! 37 * w to 37 * w + 36 of the number that they make: three bits of state code, then 34 bits of tag. The bits from 296 on
//! are 0.

ghost use Rattle.std.specs.Prelude.{◌≡◌, ℕ, ◌<◌, ◌+◌, ◌-◌, ◌*◌, ◌/◌, ◌%◌, ◌^◌, length, slice_index};
ghost use Rattle.bk_dir.specs.Segments.{entry_in, field_at, field_of, number_of, shift_of, state_in};

use crate::entry::Entry;
use bk_base::Coh;

/// How many ways a segment has room for. Those that a configuration doesn't have are 0 in it.
pub(crate) const SEGMENT_WAYS: u8 = 8;
/// How many words a segment has.
pub(crate) const SEGMENT_WORDS: usize = 5;
/// How many bits a way has.
const FIELD_BITS: usize = 37;
/// The ones of a way's bits.
const FIELD_MASK: u64 = 0x1f_ffff_ffff;
/// How many bits a word has.
const WORD_BITS: usize = 64;
/// What a tag is multiplied by in a field: the state code has three bits.
const TAG_UNIT: u64 = 8;

/// The state with a code. No field has a code without a state.
fn state_in(code: u64) -> Coh
    requires { code < 8 }
    ensures { result ≡ state_in code }
{
    Coh::from_code(code as u8).unwrap_or(Coh::I)
}

/// The tag in a field.
pub(crate) fn tag_in(field: u64) -> u64
    ensures { result ≡ field / 8 }
{
    field / TAG_UNIT
}

/// The code in a field.
pub(crate) fn code_in(field: u64) -> u64
    ensures value { result ≡ field % 8 }
    ensures small { result < 8 }
{
    field % TAG_UNIT
}

/// The entry that a field stands for.
pub(crate) fn entry_in(field: u64) -> Entry
    ensures { result ≡ entry_in field }
{
    Entry {
        tag: tag_in(field),
        state: state_in(code_in(field)),
    }
}

/// The field of an entry.
pub(crate) fn field_of(entry: Entry) -> u64
    requires { entry.tag < 2 ^ 34 }
    ensures value { result ≡ field_of entry }
    ensures small { result < 2 ^ 37 }
{
    entry.tag * TAG_UNIT + u64::from(entry.state.code())
}

/// The word in which a way's bits begin.
fn place_of(way: u8) -> usize
    requires { way < 8 }
    ensures value { result ≡ way * 37 / 64 }
    ensures within { result < 5 }
{
    way as usize * FIELD_BITS / WORD_BITS
}

/// The bit of that word at which they begin.
fn shift_of(way: u8) -> usize
    requires { way < 8 }
    ensures value { result ≡ shift_of way }
    ensures within { result < 64 }
{
    way as usize * FIELD_BITS % WORD_BITS
}

/// The word in which they end: the same one, or the next.
fn last_place(way: u8) -> usize
    requires { way < 8 }
    ensures value { result ≡ (way * 37 + 36) / 64 }
    ensures within { result < 5 }
{
    (way as usize * FIELD_BITS + (FIELD_BITS - 1)) / WORD_BITS
}

/// The 37 bits from a place on of two words, of which the second is the higher.
fn part(low: u64, high: u64, from: usize) -> u64
    requires { from < 64 }
    ensures { result ≡ (low + 2 ^ 64 * high) / 2 ^ from % 2 ^ 37 }
{
    (low >> from | high << 1 << (WORD_BITS - 1 - from)) & FIELD_MASK
}

/// What is in a word of a field that begins at a bit of it.
fn below(field: u64, from: usize) -> u64
    requires { from < 64 }
    ensures { result ≡ field * 2 ^ from % 2 ^ 64 }
{
    field << from
}

/// What is in the word after it.
fn above(field: u64, from: usize) -> u64
    requires { from < 64 }
    ensures { result ≡ field / 2 ^ (64 - from) }
{
    field >> 1 >> (WORD_BITS - 1 - from)
}

/// The field of a way.
pub(crate) fn field(words: &[u64; 5], way: u8) -> u64
    requires { way < 8 }
    ensures { result ≡ field_at (number_of words.now) way }
{
    let place = place_of(way);
    part(words[place], words[last_place(way)], shift_of(way))
}

/// A word of a segment.
fn word(words: &[u64; 5], number: usize) -> u64
    requires { number < 5 }
    ensures { result ≡ slice_index words.now number }
{
    words[number]
}

/// The words of a segment, as they stand: there are five of 64 bits.
pub(crate) fn words_of(words: &[u64; 5]) -> [u64; 5]
    ensures value { result ≡ words.now }
    ensures five { length result ≡ 5 }
    ensures small { (i : ℕ) → slice_index result i < 2 ^ 64 }
{
    [
        word(words, 0),
        word(words, 1),
        word(words, 2),
        word(words, 3),
        word(words, 4),
    ]
}

/// Writes the field of a way. The bits of the other ways stay.
pub(crate) fn write_field(words: &mut [u64; 5], way: u8, field: u64)
    requires way { way < 8 }
    requires field { field < 2 ^ 37 }
    ensures { number_of words.new + field_at (number_of words.old) way * 2 ^ (37 * way) ≡ number_of words.old + field * 2 ^ (37 * way) }
{
    let place = place_of(way);
    let next = last_place(way);
    let from = shift_of(way);
    let (low, high) = (words[place], words[next]);
    let old = part(low, high, from);
    // Where the way lies whole in one word, both writes go there, and the first of them leaves it as it is.
    words[next] = high - above(old, from) + above(field, from);
    words[place] = low - below(old, from) + below(field, from);
}
