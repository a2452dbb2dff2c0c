ghost use Rattle.std.specs.Prelude.{◌≡◌, ◌<◌, ◌≤◌, ◌==◌, ◌∷◌, length, not, position, IfSome};
ghost use Rattle.std.specs.List.{position_or_len};
ghost use Rattle.std.specs.Str.Lines.{lines, strip_carriage_return};
ghost use Rattle.bk_text.specs.Texts.{is_text_byte, is_blank};

/// What ends a line.
pub(crate) const LINE_FEED: u8 = b'\n';

/// Whether a text may have this byte within a line: printable ASCII or a tab.
pub fn is_text_byte(byte: u8) -> bool
    ensures { result ≡ is_text_byte byte }
{
    matches!(byte, b'\t' | b' '..=b'~')
}

/// Whether this byte separates words.
fn is_blank(byte: u8) -> bool
    ensures { result ≡ is_blank byte }
{
    matches!(byte, b' ' | b'\t')
}

/// A line without the carriage return that stood before its LF.
pub(crate) fn strip_carriage_return(line: &[u8]) -> &[u8]
    ensures { result.now ≡ strip_carriage_return line.now }
{
    match line {
        [front @ .., b'\r'] => front,
        _ => line,
    }
}

/// The index of the first such byte, or the length where there is none.
pub(crate) fn first_index(byte: u8, bytes: &[u8]) -> usize
    ensures value { result ≡ position_or_len (λ b. b == byte) bytes.now }
    ensures within { result ≤ length bytes.now }
{
    bytes.iter().position(|b| *b == byte).unwrap_or(bytes.len())
}

/// How many blanks stand first.
pub(crate) fn blanks_len(bytes: &[u8]) -> usize
    ensures value { result ≡ position_or_len (λ b. not (is_blank b)) bytes.now }
    ensures within { result ≤ length bytes.now }
{
    bytes
        .iter()
        .position(|b| !is_blank(*b))
        .unwrap_or(bytes.len())
}

/// How many bytes stand before the first blank.
pub(crate) fn word_len(bytes: &[u8]) -> usize
    ensures value { result ≡ position_or_len is_blank bytes.now }
    ensures within { result ≤ length bytes.now }
{
    bytes
        .iter()
        .position(|b| is_blank(*b))
        .unwrap_or(bytes.len())
}

/// The index of the first byte that no text has within a line.
pub(crate) fn first_bad(bytes: &[u8]) -> Option<usize>
    ensures value { result ≡ position (λ b. not (is_text_byte b)) bytes.now }
    ensures within { IfSome result (λ i. i < length bytes.now) }
{
    bytes.iter().position(|byte| !is_text_byte(*byte))
}

/// The first line of a text, without its end, and what follows it.
pub fn cut_line(text: &[u8]) -> (&[u8], &[u8])
    requires { 0 < length text.now }
    ensures lines { lines text.now ≡ result.0.now ∷ lines result.1.now }
    ensures shorter { length result.1.now < length text.now }
{
    let end = first_index(LINE_FEED, text);
    if end == text.len() {
        (text, &[])
    } else {
        (strip_carriage_return(&text[..end]), &text[end + 1..])
    }
}
