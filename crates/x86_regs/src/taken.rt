//! Whether a branch is taken: by its condition, or by the count in RCX.

ghost use Rattle.std.specs.Prelude.{◌≡◌, slice_index};
ghost use Rattle.x86_regs.specs.Operands.{rcx};
ghost use Rattle.x86_regs.specs.OperandOutcomes.{count_after, is_taken_by_count, counts_down, is_taken};

use crate::conditions::condition_stands;
use crate::operands::{RCX, lowered};
use crate::registers::Regs;
use x86_decode::Op;

/// Whether a jump is taken with these flags: one without a condition always is.
#[inline(always)]
pub fn is_taken(op: Op, flags: u64) -> bool
    ensures { result ≡ is_taken op flags }
{
    match op {
        Op::J(condition) => condition_stands(condition, flags),
        _ => true,
    }
}

#[inline(always)]
fn counts_down(op: Op) -> bool
    ensures { result ≡ counts_down op }
{
    !matches!(op, Op::Jrcxz)
}

/// The number in RCX once it is counted down, where it is.
#[inline(always)]
pub fn count_by(op: Op, general: &[u64; 16]) -> u64
    ensures { result ≡ slice_index (count_after op general.now) rcx }
{
    if counts_down(op) {
        lowered(general[RCX as usize], 1)
    } else {
        general[RCX as usize]
    }
}

/// Puts the count that has gone down into RCX.
#[inline(always)]
pub fn set_count(op: Op, count: u64, regs: &mut Regs)
    requires { count ≡ slice_index (count_after op regs.old.general) rcx }
    ensures { regs.new ≡ record regs.old { general = count_after op regs.old.general } }
{
    if counts_down(op) {
        regs.general[RCX as usize] = count;
    }
}

/// Whether a branch by the count in RCX is taken, where the count has gone down already, by ZF.
#[inline(always)]
pub fn count_taken(op: Op, count: u64, zero: bool) -> bool
    ensures { result ≡ is_taken_by_count op count zero }
{
    match op {
        Op::Loop => count != 0,
        Op::Loope => count != 0 && zero,
        Op::Loopne => count != 0 && !zero,
        Op::Jrcxz => count == 0,
        _ => false,
    }
}
