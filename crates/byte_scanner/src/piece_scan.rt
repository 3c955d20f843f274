//! The scan of code that comes in pieces.

ghost use Rattle.std.specs.Prelude.{◌≡◌, ◌+◌, ◌<◌, ◌≤◌, ◌^◌, [], length, if◌then◌else◌, ◌==◌, IfNone, IfSome};
ghost use Rattle.byte_scanner.specs.KeptBytes.{kept_bytes};
ghost use Rattle.byte_scanner.specs.PieceRuns.{Feeds, IsBehind};

use crate::encoding::Found;
use crate::kept::{Kept, kept_behind};
use crate::seam::first_of_both;
use std::marker::Model;

/// Looks for protected encodings in code that comes piece by piece, in ascending order. Pieces of which each begins
/// where the one before it ended are one run, across which an encoding may stand.
#[derive(Drop)]
pub struct Scanner {
    kept: Kept,
    end: u64,
}

impl Model for Scanner {
    ghost use Rattle.std.specs.Prelude.{◌≤◌, length};
    ghost use Rattle.byte_scanner.specs.Scanned.{Scanned};

    ghost Value = { Scanned };

    ghost use Rattle.byte_scanner.specs.KeptBytes.{kept_bytes};

    ghost view = { λ s. record { kept = kept_bytes s.kept; end = s.end } };

    ghost invariant = { λ s. length (kept_bytes s.kept) ≤ s.end };
}

/// What is kept of a run where the next piece begins at `at`: nothing behind a gap.
fn kept_at(kept: Kept, end: u64, at: u64) -> Kept
    ensures same { kept_bytes result ≡ (if end == at then kept_bytes kept else []) }
    ensures fewer { length (kept_bytes result) ≤ length (kept_bytes kept) }
{
    if end == at { kept } else { Kept::Nothing }
}

impl Scanner {
    /// A scanner that no piece was given yet.
    pub fn new() -> Scanner
        ensures nothing { IsBehind result 0 [] }
        ensures end { result.end ≡ 0 }
    {
        Scanner {
            kept: Kept::Nothing,
            end: 0,
        }
    }

    /// The address past the last byte that it was given, below which no further piece may begin.
    pub fn end(&self) -> u64
        ensures { result ≡ self.now.end }
    {
        self.end
    }

    /// Takes the next piece, which begins at linear address `at`. Takes no memory.
    ///
    /// Returns the protected encoding at the least address of the run so far. After that no more pieces may be given.
    pub fn feed(&mut self, at: u64, piece: &[u8]) -> Option<Found>
        requires fits { at + length piece.now < 2 ^ 64 }
        requires ahead { self.old.end ≤ at }
        ensures length { IfSome result (λ found. (2 ≤ found.count) × (found.count ≤ 3)) }
        ensures end { IfNone result (self.new.end ≡ at + length piece.now) }
        ensures found { Feeds self.old self.new at piece.now result }
    {
        let kept = kept_at(self.kept, self.end, at);
        if let Some(found) = first_of_both(kept, at, piece) {
            return Some(found);
        }
        self.kept = kept_behind(kept, piece);
        self.end = at + piece.len() as u64;
        None
    }
}
