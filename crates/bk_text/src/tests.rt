use super::*;
use std::test::*;

/// Of a word its line, its column and its two places; of a line's end the line alone; of the end nothing.
fn numbers_of(word: Word) -> [u64; 4] {
    match word {
        Word::Word {
            line,
            column,
            from,
            to,
        } => [line, column, from as u64, to as u64],
        Word::LineEnd { line } => [line, 0, 0, 0],
        Word::End => [0; 4],
    }
}

#[test]
fn words_of_a_text(rt: HostRuntime) {
    let mut lines = Lines::over(b" \r\n12 ab#cd\te\n\n\r0x1F \r");
    for numbers in [
        [1, 0, 0, 0],
        [2, 1, 3, 5],
        [2, 4, 6, 11],
        [2, 10, 12, 13],
        [2, 0, 0, 0],
        [3, 0, 0, 0],
        [4, 1, 15, 20],
        [4, 7, 21, 22],
        [0; 4],
        [0; 4],
    ] {
        assert_eq!(rt; numbers_of(lines.next_word()), numbers);
    }
}

#[test]
fn words_of_a_line(rt: HostRuntime) -> Result<(), Fail> {
    let (line, rest) = cut_line(b"\tbi  x;y\x01 z\r\n\n");
    assert!(rt; rest == b"\n".as_slice());
    let mut line = TextLine::of(b';', line);
    assert!(rt; line.has_word());
    let first = line.next_word().ok_or("a word")?;
    assert_eq!(rt; first.column, 2);
    assert!(rt; first.word == b"bi".as_slice());
    let second = line.next_word().ok_or("a word")?;
    assert_eq!(rt; second.column, 6);
    assert!(rt; second.word == b"x".as_slice());
    assert!(rt; !line.has_word());
    assert!(rt; line.next_word().is_none());
    assert_eq!(rt; line.bad_byte(), Some(9));
    assert_eq!(rt; line.end(), 12);
    Ok(())
}

#[test]
fn numbers(rt: HostRuntime) {
    for (word, value) in [
        (b"12".as_slice(), Some(12)),
        (b"00000000000000000012".as_slice(), Some(12)),
        (b"000000000000000000012".as_slice(), None),
        (b"18446744073709551615".as_slice(), Some(u64::MAX)),
        (b"18446744073709551616".as_slice(), None),
        (b"99999999999999999999".as_slice(), None),
        (b"0x1fF".as_slice(), Some(511)),
        (b"0xFFFFffffFFFFffff".as_slice(), Some(u64::MAX)),
        (b"0x00000000000000001".as_slice(), None),
        (b"0x".as_slice(), None),
        (b"0X1".as_slice(), None),
        (b"+1".as_slice(), None),
        (b"1a".as_slice(), None),
        (b"".as_slice(), None),
    ] {
        assert_eq!(rt; number(word), value, "{word:?}");
    }
}
