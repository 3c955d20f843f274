//! Where a piece follows the bytes that were kept.

ghost use Rattle.std.specs.Prelude.{◌≡◌, ◌+◌, ◌-◌, ◌<◌, ◌≤◌, ◌^◌, ◌∷◌, ◌++◌, length, slice_get, MatchOption};
ghost use Rattle.byte_scanner.specs.KeptBytes.{kept_bytes};
ghost use Rattle.byte_scanner.specs.LeastPlace.{IsNowhere, NoneBelow};
ghost use Rattle.byte_scanner.specs.PieceRuns.{IsFirstIn};

use crate::encoding::{Found, byte_at, found_at, found_of};
use crate::kept::Kept;
use crate::slice_scan::first_protected;

/// The first encoding that begins in two kept bytes, which end at `at`, where the piece begins.
fn first_of_two(at: u64, first: u8, last: u8, piece: &[u8]) -> Option<Found>
    requires { 2 ≤ at }
    ensures { let bytes = first ∷ last ∷ piece.now in
        MatchOption result (NoneBelow (slice_get bytes) 2) (IsFirstIn (at - 2) bytes) }
{
    let next = byte_at(piece, 0);
    match found_of(at - 2, first, Some(last), next) {
        Some(found) => Some(found),
        None => found_of(at - 1, last, next, byte_at(piece, 1)),
    }
}

/// The first encoding that begins in the kept bytes, which end at `at`, where the piece begins.
fn first_across(kept: Kept, at: u64, piece: &[u8]) -> Option<Found>
    requires { length (kept_bytes kept) ≤ at }
    ensures { let bytes = kept_bytes kept ++ piece.now in
        MatchOption result (NoneBelow (slice_get bytes) (length (kept_bytes kept)))
        (IsFirstIn (at - length (kept_bytes kept)) bytes) }
{
    match kept {
        Kept::Nothing => None,
        Kept::One(last) => found_of(at - 1, last, byte_at(piece, 0), byte_at(piece, 1)),
        Kept::Two(first, last) => first_of_two(at, first, last, piece),
    }
}

/// The first encoding of the piece.
fn first_within(at: u64, piece: &[u8]) -> Option<Found>
    requires { at + length piece.now < 2 ^ 64 }
    ensures { MatchOption result (IsNowhere (slice_get piece.now)) (IsFirstIn at piece.now) }
{
    match first_protected(piece) {
        Some(place) => found_at(piece, place, at + place as u64),
        None => None,
    }
}

/// The first encoding of the kept bytes, which end at `at`, and the piece, which begins there.
pub(crate) fn first_of_both(kept: Kept, at: u64, piece: &[u8]) -> Option<Found>
    requires kept { length (kept_bytes kept) ≤ at }
    requires fits { at + length piece.now < 2 ^ 64 }
    ensures { let bytes = kept_bytes kept ++ piece.now in
        MatchOption result (IsNowhere (slice_get bytes))
        (IsFirstIn (at - length (kept_bytes kept)) bytes) }
{
    match first_across(kept, at, piece) {
        Some(found) => Some(found),
        None => first_within(at, piece),
    }
}
