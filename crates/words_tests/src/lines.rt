//! Lines, words and numbers at worked values.

use text_lines::{cut_line, decimal, hexadecimal, split_words};

/// A text, its first line and what is behind that.
type Cut = (&'static [u8], &'static [u8], &'static [u8]);

static CUTS: [Cut; 5] = [
    (b"ab", b"ab", b""),
    (b"ab\n", b"ab", b""),
    (b"ab\ncd\n", b"ab", b"cd\n"),
    (b"\n\nab", b"", b"\nab"),
    (b"a b\r\n\n", b"a b\r", b"\n"),
];

#[test]
fn first_line_is_cut_off(rt: HostRuntime) {
    for (text, line, rest) in &CUTS {
        assert!(rt; !text.is_empty());
        assert!(rt; cut_line(text) == (*line, *rest));
    }
}

/// A line, and its words, nine at most.
type Split = (&'static [u8], Option<&'static [&'static [u8]]>);

#[rattlefmt::skip]
static SPLITS: [Split; 10] = [
    (b"", Some(&[b""])),
    (b"ab", Some(&[b"ab"])),
    (b"ab c", Some(&[b"ab", b"c"])),
    (b"ab  c", Some(&[b"ab", b"", b"c"])),
    (b" ab ", Some(&[b"", b"ab", b""])),
    (b"a\tb\r", Some(&[b"a\tb\r"])),
    (b"1 2 3 4 5 6 7 8 9", Some(&[b"1", b"2", b"3", b"4", b"5", b"6", b"7", b"8", b"9"])),
    // Ten words are too many.
    (b"1 2 3 4 5 6 7 8 9 0", None),
    (b"         ", None),
    (b"        ", Some(&[b"", b"", b"", b"", b"", b"", b"", b"", b""])),
];

/// Whether a line is split into these words.
fn is_split(line: &[u8], words: Option<&[&[u8]]>) -> bool {
    match (split_words(line), words) {
        (Some(found), Some(words)) => found.as_slice() == words,
        (None, None) => true,
        _ => false,
    }
}

#[test]
fn spaces_part_words(rt: HostRuntime) {
    for (line, words) in &SPLITS {
        assert!(rt; is_split(line, *words));
    }
}

/// A word, the most digits that it may have, and its number.
type Numeral = (&'static [u8], usize, Option<u64>);

static DECIMALS: [Numeral; 12] = [
    (b"0", 1, Some(0)),
    (b"42", 2, Some(42)),
    (b"0042", 4, Some(42)),
    (b"0042", 3, None),
    (b"", 3, None),
    (b"4a", 10, None),
    (b"+4", 10, None),
    (b"-4", 10, None),
    (b"4\r", 10, None),
    (b"18446744073709551615", 20, Some(u64::MAX)),
    (b"18446744073709551616", 20, None),
    (b"99999999999999999999", 20, None),
];

#[test]
fn decimal_digits_are_read(rt: HostRuntime) {
    for (word, most, number) in &DECIMALS {
        assert!(rt; decimal(word, *most) == *number);
    }
}

static HEXADECIMALS: [Numeral; 11] = [
    (b"aBcDeF09", 16, Some(0xABCD_EF09)),
    (b"ffffffffffffffff", 16, Some(u64::MAX)),
    (b"0000000000000010", 16, Some(16)),
    (b"00000000000000010", 16, None),
    (b"10000000000000000", 17, None),
    (b"0x10", 16, None),
    (b"g", 16, None),
    (b"@", 16, None),
    (b"`", 16, None),
    (b":", 16, None),
    (b"/", 16, None),
];

#[test]
fn hexadecimal_digits_are_read(rt: HostRuntime) {
    for (word, most, number) in &HEXADECIMALS {
        assert!(rt; hexadecimal(word, *most) == *number);
    }
}
