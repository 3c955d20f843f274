//! The words of a line.

ghost use Rattle.std.specs.Prelude.{◌≡◌, ◌<◌, length, map, MatchOption};
ghost use Rattle.std.specs.Str.{bytes_eq};
ghost use Rattle.text_lines.specs.TextLines.{words};

use crate::cut::cut_at;
use arrayvec::ArrayVec;

/// The most words that a line is split into; no format has a line of more.
pub const MOST_WORDS: usize = 9;

const SPACE: u8 = 0x20;

/// The words of a line, with a space between each two; None where they are more than 9. Each byte but the space is a
/// byte of a word, and a word may be empty, so a line has one word or more.
pub fn split_words(line: &[u8]) -> Option<ArrayVec<&[u8], MOST_WORDS>>
    ensures { MatchOption result (9 < length (words line.now))
        (λ found. map (λ word. word.now) found.items ≡ words line.now) }
{
    let mut found: ArrayVec<&[u8], MOST_WORDS> = ArrayVec::new();
    let mut rest = line;
    while let Some((word, behind)) = cut_at(rest, SPACE) {
        if let Err(_) = found.try_push(word) {
            return None;
        }
        rest = behind;
    }
    if let Err(_) = found.try_push(rest) {
        return None;
    }
    Some(found)
}

/// Whether a word is this text, byte for byte.
pub fn is_text(word: &[u8], text: &[u8]) -> bool
    ensures { result ≡ bytes_eq word.now text.now }
{
    word == text
}
