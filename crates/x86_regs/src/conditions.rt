//! The conditions of instructions (SDM volume 1, appendix B), which are read off the flags.

ghost use Rattle.std.specs.Prelude.{◌≡◌, ◌*◌, ◌/◌, ◌<◌, false, slice_index_or};
ghost use Rattle.x86_alu.specs.SignedNumbers.{bit};
ghost use Rattle.x86_regs.specs.Combinations.{condition_stands, conditions};

use x86_alu::{CF, OF, PF, SF, ZF};

/// The bit at a place, the lowest of which is 0.
#[inline(always)]
pub fn bit(number: u64, place: u8) -> bool
    requires { place < 64 }
    ensures { result ≡ bit number place }
{
    number >> place & 1 == 1
}

/// Whether the condition stands that the four low bits of this number name: each odd one is the even one below, negated.
#[inline(always)]
#[tactic(auto, unfolding(crate::specs::Combinations::condition_stands))]
pub fn condition_stands(condition: u8, flags: u64) -> bool
    ensures { result ≡ condition_stands condition flags }
{
    let number = condition % 16;
    let even = even_condition(number / 2, flags);
    (number % 2 == 1) != even
}

/// The condition of twice this number.
#[inline(always)]
fn even_condition(pair: u8, flags: u64) -> bool
    requires { pair < 8 }
    ensures { result ≡ slice_index_or (conditions flags) (2 * pair) false }
{
    match pair {
        0 => bit(flags, OF),
        1 => bit(flags, CF),
        2 => bit(flags, ZF),
        3 => bit(flags, CF) | bit(flags, ZF),
        4 => bit(flags, SF),
        5 => bit(flags, PF),
        6 => bit(flags, SF) != bit(flags, OF),
        _ => bit(flags, ZF) | (bit(flags, SF) != bit(flags, OF)),
    }
}
