ghost use Rattle.std.specs.Prelude.{◌≡◌, ◌≤◌};
ghost use Rattle.std.specs.Char.{digit_value};
ghost use Rattle.bk_text.specs.Texts.{digits_number, number_of};

/// The most digits of a decimal number.
const DECIMAL_DIGITS: usize = 20;
/// The most digits of a hexadecimal number, after its `0x`.
const HEX_DIGITS: usize = 16;
/// What a byte that is no digit of any radix counts for.
const NO_DIGIT: u64 = 36;

/// The value of a digit or a letter, 10 for `a` and `A`, and 36 for any other byte.
fn digit_value(byte: u8) -> u64
    ensures { result ≡ digit_value byte }
{
    match byte {
        b'0'..=b'9' => (byte - b'0') as u64,
        b'A'..=b'Z' => (byte - b'A') as u64 + 10,
        b'a'..=b'z' => (byte - b'a') as u64 + 10,
        _ => NO_DIGIT,
    }
}

/// The number of 1 to `most` digits, or none where it does not fit in 64 bits.
fn digits_number(radix: u64, most: usize, digits: &[u8]) -> Option<u64>
    requires { 2 ≤ radix }
    ensures { result ≡ digits_number radix most digits.now }
{
    if digits.is_empty() || digits.len() > most {
        return None;
    }
    let mut value = 0u64;
    for byte in digits {
        let digit = digit_value(*byte);
        if digit >= radix {
            return None;
        }
        value = value.checked_mul(radix)?.checked_add(digit)?;
    }
    Some(value)
}

/// The number that a word writes: 1 to 20 decimal digits, or `0x` and 1 to 16 hexadecimal digits
/// of either case. None for any other word, and for a number of 2^64 or above.
pub fn number(word: &[u8]) -> Option<u64>
    ensures { result ≡ number_of word.now }
{
    match word {
        [b'0', b'x', digits @ ..] => digits_number(16, HEX_DIGITS, digits),
        _ => digits_number(10, DECIMAL_DIGITS, word),
    }
}
