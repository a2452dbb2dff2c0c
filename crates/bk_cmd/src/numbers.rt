//! Numbers of a command line.

ghost use Rattle.std.specs.Prelude.{◌≡◌, ◌<◌, IfSome};
ghost use Rattle.std.specs.List.{list_all};
ghost use Rattle.bk_cmd.specs.Numbers.{is_decimal, are_digits, decimal_word, below, config_in};

use bk_base::Config;
use bk_text::number;

/// The most digits that a number of a command line has.
const MOST_DIGITS: usize = 10;
/// One more than the greatest part of a configuration that is looked at.
const PART_LIMIT: u64 = 256;

/// Whether a byte is a decimal digit.
fn is_decimal(byte: u8) -> bool
    ensures { result ≡ is_decimal byte }
{
    b'0' <= byte && byte <= b'9'
}

/// Whether each byte is a decimal digit.
fn are_decimal(word: &[u8]) -> bool
    ensures { result ≡ list_all is_decimal word.now }
{
    word.iter().all(|byte| is_decimal(*byte))
}

/// Whether a word has at most 10 bytes, each a decimal digit.
fn are_digits(word: &[u8]) -> bool
    ensures { result ≡ are_digits word.now }
{
    word.len() <= MOST_DIGITS && are_decimal(word)
}

/// The number of 1 to 10 decimal digits.
fn decimal_word(word: &[u8]) -> Option<u64>
    ensures { result ≡ decimal_word word.now }
{
    if are_digits(word) { number(word) } else { None }
}

/// The number of a word, where it is below the limit.
pub(crate) fn below(limit: u64, word: &str) -> Option<u64>
    ensures value { result ≡ below limit word.now }
    ensures bound { IfSome result (λ n. n < limit) }
{
    match decimal_word(word.as_bytes()) {
        Some(n) => { if n < limit { Some(n) } else { None } }
        None => None,
    }
}

/// The configuration of three words, if it is in the profile.
pub(crate) fn config_in(caches: &str, sets: &str, ways: &str) -> Option<Config>
    ensures { result ≡ config_in caches.now sets.now ways.now }
{
    let caches = below(PART_LIMIT, caches);
    let sets = below(PART_LIMIT, sets);
    let ways = below(PART_LIMIT, ways);
    match (caches, sets, ways) {
        (Some(caches), Some(sets), Some(ways)) => {
            match Config::make(caches as u8, sets as u8, ways as u8) {
                Ok(config) => Some(config),
                Err(_) => None,
            }
        }
        _ => None,
    }
}
