//! The lines of a text.

ghost use Rattle.std.specs.Prelude.{◌≡◌, ◌<◌, ◌∷◌, length};
ghost use Rattle.text_lines.specs.TextLines.{lines};

use crate::cut::cut_at;

/// LF, which ends a line.
const LINE_FEED: u8 = 0x0A;

/// The first line of a text that isn't empty, without the LF that ends it, and the text behind that LF. Where no LF is
/// left, the line is all of the text, and nothing is behind it.
pub fn cut_line(text: &[u8]) -> (&[u8], &[u8])
    requires { 0 < length text.now }
    ensures lines { lines text.now ≡ result.0.now ∷ lines result.1.now }
    ensures shorter { length result.1.now < length text.now }
{
    match cut_at(text, LINE_FEED) {
        Some(parts) => parts,
        None => text.split_at(text.len()),
    }
}
