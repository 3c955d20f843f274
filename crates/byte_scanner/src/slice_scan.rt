//! The scan of a slice of bytes.

ghost use Rattle.std.specs.Prelude.{◌≡◌, ◌<◌, ◌≤◌, slice_get, length, IfSome, MatchOption};
ghost use Rattle.byte_scanner.specs.LeastPlace.{IsNowhere, IsLeastPlace};
ghost use Rattle.byte_scanner.specs.Escapes.{NoneFrom, IsNextFrom};

use crate::encoding::{ESCAPE, length_at};
use memchr::memchr;

/// The first place from `from` on at which a protected encoding may begin.
fn next_escape(bytes: &[u8], from: usize) -> Option<usize>
    requires { from ≤ length bytes.now }
    ensures { MatchOption result (NoneFrom bytes.now from) (IsNextFrom bytes.now from) }
{
    let rest = bytes.split_at(from).1;
    match memchr(ESCAPE, rest) {
        Some(place) => Some(from + place),
        None => None,
    }
}

/// The least place at which a protected encoding stands, wholly inside the bytes.
pub fn first_protected(bytes: &[u8]) -> Option<usize>
    ensures least { let byte_at = slice_get bytes.now in
        MatchOption result (IsNowhere byte_at) (IsLeastPlace byte_at) }
    ensures inside { IfSome result (λ place. place < length bytes.now) }
{
    let mut from = 0;
    while let Some(place) = next_escape(bytes, from) {
        if length_at(bytes, place) != 0 {
            return Some(place);
        }
        from = place + 1;
    }
    None
}
