ghost use Rattle.std.specs.Prelude.{◌≡◌, ◌+◌, ◌≤◌, ◌<◌, ◌++◌, ◌∷◌, [], length};
ghost use Rattle.std.specs.Fmt.{decimal};
ghost use Rattle.arrayvec.specs.ArrayString.{array_string_len};
ghost use Rattle.bk_cmd.specs.FaultTexts.{malformed_text, file_text, refused_text, fault_text};

use crate::outcome::{
    ABSENT, LIMIT, MALFORMED, MEMORY, Outcome, READ_FAULT, REFUSED, TOO_LONG, USAGE, WRITE_FAULT,
};
use arrayvec::ArrayString;
use bk_check::Refusal;

/// The most bytes that a line has. Its numbers have at most 20 digits.
const LINE_BYTES: usize = 96;

/// Appends a decimal digit.
fn push_digit(line: &mut ArrayString<LINE_BYTES>, digit: u8)
    requires digit { digit < 10 }
    requires room { array_string_len line.old < 96 }
    ensures { line.new.bytes ≡ line.old.bytes ++ (48 + digit) ∷ [] }
{
    line.push((b'0' + digit) as char);
}

/// Appends a number in decimal digits.
fn push_decimal(line: &mut ArrayString<LINE_BYTES>, n: u64)
    requires { array_string_len line.old + length (decimal n) ≤ 96 }
    ensures { line.new.bytes ≡ line.old.bytes ++ decimal n }
{
    if n < 10 {
        push_digit(line, n as u8);
    } else {
        push_decimal(line, n / 10);
        push_digit(line, (n % 10) as u8);
    }
}

/// Appends a number of up to 20 digits.
fn push_number(line: &mut ArrayString<LINE_BYTES>, n: u64)
    requires { array_string_len line.old + 20 ≤ 96 }
    ensures bytes { line.new.bytes ≡ line.old.bytes ++ decimal n }
    ensures length { array_string_len line.new ≤ array_string_len line.old + 20 }
{
    push_decimal(line, n);
}

/// Appends a number of up to 3 digits.
fn push_small(line: &mut ArrayString<LINE_BYTES>, n: u8)
    requires { array_string_len line.old + 3 ≤ 96 }
    ensures bytes { line.new.bytes ≡ line.old.bytes ++ decimal n }
    ensures length { array_string_len line.new ≤ array_string_len line.old + 3 }
{
    push_decimal(line, n as u64);
}

/// The line that is this text.
fn line_of(text: &str) -> ArrayString<LINE_BYTES>
    requires { length text.now ≤ 96 }
    ensures bytes { result.bytes ≡ text.now }
    ensures length { array_string_len result ≡ length text.now }
{
    let mut line = ArrayString::new();
    line.push_str(text);
    line
}

fn malformed_line(outcome: &Outcome) -> ArrayString<LINE_BYTES>
    ensures { result.bytes ≡ malformed_text outcome.now }
{
    let mut line = line_of("bedrock: malformed file ");
    push_small(&mut line, outcome.file);
    line.push_str(" at ");
    push_number(&mut line, outcome.at);
    line.push_str(":");
    push_number(&mut line, outcome.column);
    line.push_str(" kind ");
    push_small(&mut line, outcome.kind);
    line
}

/// The line that names a file behind this text.
fn file_line(what: &str, outcome: &Outcome) -> ArrayString<LINE_BYTES>
    requires { length what.now + 3 ≤ 96 }
    ensures { result.bytes ≡ file_text what.now outcome.now }
{
    let mut line = line_of(what);
    push_small(&mut line, outcome.file);
    line
}

fn refused_line(refusal: Option<Refusal>) -> ArrayString<LINE_BYTES>
    ensures { result.bytes ≡ refused_text refusal }
{
    let mut line = line_of("bedrock: refused");
    if let Some(refusal) = refusal {
        line.push_str(" at ");
        push_number(&mut line, refusal.at as u64);
        line.push_str(": O");
        push_small(&mut line, refusal.obligation);
    }
    line
}

/// What is told of an outcome, with no line's end: nothing at `OK`, and at what is no status.
pub fn fault_line(outcome: &Outcome) -> ArrayString<LINE_BYTES>
    ensures { result.bytes ≡ fault_text outcome.now }
{
    match outcome.status {
        MEMORY => line_of("bedrock: memory"),
        USAGE => line_of("bedrock: usage"),
        REFUSED => refused_line(outcome.refusal),
        MALFORMED => malformed_line(outcome),
        ABSENT => file_line("bedrock: absent file ", outcome),
        READ_FAULT => file_line("bedrock: read fault file ", outcome),
        WRITE_FAULT => line_of("bedrock: write fault"),
        TOO_LONG => file_line("bedrock: too long file ", outcome),
        LIMIT => line_of("bedrock: limit"),
        _ => ArrayString::new(),
    }
}
