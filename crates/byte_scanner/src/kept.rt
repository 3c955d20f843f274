//! The bytes that a scanner keeps of its run.

ghost use Rattle.std.specs.Prelude.{◌≡◌, ◌≤◌, ◌+◌, ◌++◌, ◌∷◌, [], length};
ghost use Rattle.byte_scanner.specs.KeptBytes.{kept_bytes};
ghost use Rattle.byte_scanner.specs.PieceRuns.{last_two};

/// The last bytes of a run. An encoding that goes on past the run begins in its last two bytes, since none has more than
/// three.
#[derive(Clone, Copy)]
pub(crate) enum Kept {
    /// The run has no byte.
    Nothing,
    /// It has one.
    One(u8),
    /// It has these two, or more bytes of which these are the last, in order.
    Two(u8, u8),
}

/// What is kept where one more byte follows.
fn kept_with(kept: Kept, byte: u8) -> Kept
    ensures last { kept_bytes result ≡ last_two (kept_bytes kept ++ byte ∷ []) }
    ensures fewer { length (kept_bytes result) ≤ length (kept_bytes kept) + 1 }
{
    match kept {
        Kept::Nothing => Kept::One(byte),
        Kept::One(last) => Kept::Two(last, byte),
        Kept::Two(_, last) => Kept::Two(last, byte),
    }
}

/// What is kept where a piece follows.
pub(crate) fn kept_behind(kept: Kept, piece: &[u8]) -> Kept
    ensures last { kept_bytes result ≡ last_two (kept_bytes kept ++ piece.now) }
    ensures fewer { length (kept_bytes result) ≤ length (kept_bytes kept) + length piece.now }
{
    match piece {
        [] => kept,
        [byte] => kept_with(kept, *byte),
        [.., next, last] => Kept::Two(*next, *last),
    }
}
