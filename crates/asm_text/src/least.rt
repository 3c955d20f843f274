//! The least spelling of an instruction.

ghost use Rattle.std.specs.Prelude.{◌≡◌, ℕ, List, IfNone, IfSome};
ghost use Rattle.x86_decode.specs.Spelling.{IsLawful};
ghost use Rattle.asm_text.specs.RowPlaces.{IsIndexFrom};
ghost use Rattle.asm_text.specs.LeastSpelling.{IsLeastSpelling};

use crate::best::Best;
use crate::row_index::{RowIndex, row_index};
use crate::search::find_best;
use arrayvec::ArrayVec;
use x86_decode::{Instr, decoding_law, rows_law};

/// The least of all spellings of the instruction: the shortest, and of those that are equally short the one that comes
/// first byte by byte. None exactly where no bytes of at most 15 spell it. It takes no memory.
pub fn encode(instr: &Instr) -> Option<ArrayVec<u8, 15>>
    ensures some { IfSome result (λ bytes. IsLeastSpelling instr.now bytes.items) }
    ensures none { IfNone result ((bytes : List ℕ) → IsLawful instr.now bytes → ⊥) }
{
    encode_by(instr, &row_index())
}

/// The same, by an index of rows that is there already.
pub(crate) fn encode_by(instr: &Instr, index: &RowIndex) -> Option<ArrayVec<u8, 15>>
    requires { IsIndexFrom 0 index.now }
    ensures some { IfSome result (λ bytes. IsLeastSpelling instr.now bytes.items) }
    ensures none { IfNone result ((bytes : List ℕ) → IsLawful instr.now bytes → ⊥) }
{
    decoding_law();
    rows_law();
    let mut best: Best = ArrayVec::new();
    find_best(instr, index, &mut best);
    if best.is_empty() {
        return None;
    }
    Some(best)
}
