//! The best bytes so far: none, where they are empty, or the least of those that spell the instruction.

ghost use Rattle.std.specs.Prelude.{◌≡◌, ◌≤◌, length};
ghost use Rattle.asm_text.specs.Candidates.{better, improves};

use crate::order::is_not_behind;
use crate::sameness::is_spelled;
use arrayvec::ArrayVec;
use x86_decode::Instr;

/// The bytes of a lawful spelling, or none.
pub(crate) type Best = ArrayVec<u8, 15>;

#[tactic(auto, unfolding(crate::specs::Candidates::improves))]
fn improves(best: &[u8], bytes: &[u8]) -> bool
    ensures { result ≡ improves best.now bytes.now }
{
    if best.is_empty() {
        return true;
    }
    !is_not_behind(best, bytes)
}

fn replace(best: &mut Best, bytes: &[u8])
    requires { length bytes.now ≤ 15 }
    ensures { best.new.items ≡ bytes.now }
{
    best.clear();
    for byte in bytes {
        best.push(*byte);
    }
}

/// Keeps these bytes in place of the best ones, where they come before them and spell the instruction.
#[tactic(auto, unfolding(crate::specs::Candidates::better))]
pub(crate) fn keep_better(instr: &Instr, best: &mut Best, bytes: &[u8])
    ensures { best.new.items ≡ better instr.now best.old.items bytes.now }
{
    if improves(best.as_slice(), bytes) {
        if is_spelled(instr, bytes) {
            replace(best, bytes);
        }
    }
}
