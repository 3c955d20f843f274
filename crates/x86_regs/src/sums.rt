//! Sums, differences, logic and products of two operands of a width, in bits. Each operand is cut to the width.

ghost use Rattle.std.specs.Prelude.{◌≡◌, ◌-◌, ◌^◌, true, false};
ghost use Rattle.decode_fields.specs.Widths.{IsWidth};
ghost use Rattle.x86_alu.specs.SignedNumbers.{cut};
ghost use Rattle.x86_alu.specs.Sums.{difference_flags, difference_of, sum_flags, sum_of};
ghost use Rattle.x86_regs.specs.Combinations.{carry_kept, difference, logical, multiplied, out, sum};

use crate::conditions::bit;
use crate::numbers::ones;
use crate::registers::low;
use x86_alu::{CF, Logic, Out, add, logic, multiply, sub, with_flag};

/// The sum of two operands and a carry, as ADD and ADC make it.
#[inline(always)]
pub fn sum(width: u8, a: u64, b: u64, carry: bool, flags: u64) -> Out
    requires { IsWidth width }
    ensures { result ≡ sum width (cut width a) (cut width b) carry flags }
{
    let it = add(width, a, b, carry, flags);
    Out {
        value: it.value,
        flags: it.flags,
    }
}

/// The difference of two operands and a borrow, as SUB, SBB and CMP make it.
#[inline(always)]
pub fn difference(width: u8, a: u64, b: u64, borrow: bool, flags: u64) -> Out
    requires { IsWidth width }
    ensures { result ≡ difference width (cut width a) (cut width b) borrow flags }
{
    let it = sub(width, a, b, borrow, flags);
    Out {
        value: it.value,
        flags: it.flags,
    }
}

/// AND, OR or XOR of two operands.
#[inline(always)]
pub(crate) fn logical(kind: Logic, width: u8, a: u64, b: u64, flags: u64) -> Out
    requires { IsWidth width }
    ensures { result ≡ logical kind width (cut width a) (cut width b) flags }
{
    let it = logic(kind, width, a, b, flags);
    Out {
        value: it.value,
        flags: it.flags,
    }
}

/// IMUL: the low half of the signed product.
#[inline(never)]
pub(crate) fn multiplied(width: u8, a: u64, b: u64, flags: u64) -> Out
    requires { IsWidth width }
    ensures { result ≡ multiplied width (cut width a) (cut width b) flags }
{
    let it = multiply(true, false, width, a, b, flags);
    Out {
        value: it.value,
        flags: it.flags,
    }
}

/// NEG.
#[inline(always)]
pub(crate) fn negative(width: u8, a: u64, flags: u64) -> Out
    requires { IsWidth width }
    ensures { result ≡ difference width 0 (cut width a) false flags }
{
    difference(width, 0, a, false, flags)
}

/// NOT.
#[inline(always)]
pub(crate) fn inverse(width: u8, a: u64, flags: u64) -> Out
    requires { IsWidth width }
    ensures { result ≡ out (2 ^ width - 1 - cut width a) flags }
{
    Out {
        value: ones(width) - low(width, a),
        flags,
    }
}

/// INC.
#[inline(always)]
pub(crate) fn increased(width: u8, a: u64, flags: u64) -> Out
    requires { IsWidth width }
    ensures { result ≡ out (sum_of width (cut width a) 1 false)
        (carry_kept flags (sum_flags width (cut width a) 1 false flags)) }
{
    with_carry_of(flags, sum(width, a, 1, false, flags))
}

/// DEC.
#[inline(always)]
pub(crate) fn decreased(width: u8, a: u64, flags: u64) -> Out
    requires { IsWidth width }
    ensures { result ≡ out (difference_of width (cut width a) 1 false)
        (carry_kept flags (difference_flags width (cut width a) 1 false flags)) }
{
    with_carry_of(flags, difference(width, a, 1, false, flags))
}

/// A result whose CF is that of the flags before.
#[inline(always)]
fn with_carry_of(flags: u64, it: Out) -> Out
    ensures { result ≡ out it.value (carry_kept flags it.flags) }
{
    Out {
        value: it.value,
        flags: with_flag(it.flags, CF, bit(flags, CF)),
    }
}
