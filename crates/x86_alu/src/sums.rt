//! Sums and differences: `specs/Sums.antt`.

ghost use Rattle.std.specs.Prelude.{◌≡◌, ◌<◌, ◌≤◌, ◌^◌};
ghost use Rattle.x86_alu.specs.SignedNumbers.{cut};
ghost use Rattle.decode_fields.specs.Widths.{IsWidth};
ghost use Rattle.x86_alu.specs.Flags.{with_flag, result_flags};
ghost use Rattle.x86_alu.specs.Sums.{sum_of, has_carry, sum_overflows, sum_flags, difference_of, has_borrow, difference_overflows, difference_flags};

use crate::answers::Out;
use crate::flags::{AF, CF, OF, result_flags, with_flag};
use crate::width::{low, top};

/// The sum of `a`, `b` and the carry in, as ADD and ADC make it; each value is cut to the width, in bits.
#[inline(always)]
pub fn add(width: u8, a: u64, b: u64, carry: bool, flags: u64) -> Out
    requires { IsWidth width }
    ensures value { result.value ≡ sum_of width (cut width a) (cut width b) carry }
    ensures flags { result.flags ≡ sum_flags width (cut width a) (cut width b) carry flags }
{
    let (a, b) = (low(width, a), low(width, b));
    let value = sum_of(width, a, b, carry);
    let flags = result_flags(width, value, flags);
    let flags = with_flag(flags, OF, sum_overflows(width, a, b, carry));
    let flags = with_flag(flags, AF, has_half_carry(a, b, carry));
    let flags = with_flag(flags, CF, has_carry(width, a, b, carry));
    Out { value, flags }
}

/// `a` less `b` and the borrow in (`carry`), as SUB, SBB, CMP and NEG make it; each value is cut to the width, in bits.
#[inline(always)]
pub fn sub(width: u8, a: u64, b: u64, carry: bool, flags: u64) -> Out
    requires { IsWidth width }
    ensures value { result.value ≡ difference_of width (cut width a) (cut width b) carry }
    ensures flags { result.flags ≡ difference_flags width (cut width a) (cut width b) carry flags }
{
    let (a, b) = (low(width, a), low(width, b));
    let value = difference(width, a, b, carry);
    let flags = result_flags(width, value, flags);
    let flags = with_flag(flags, OF, difference_overflows(width, a, b, carry));
    let flags = with_flag(flags, AF, has_borrow(a & 0xf, b & 0xf, carry));
    let flags = with_flag(flags, CF, has_borrow(a, b, carry));
    Out { value, flags }
}

#[inline(always)]
fn sum_of(width: u8, a: u64, b: u64, carry: bool) -> u64
    requires { IsWidth width }
    ensures { result ≡ sum_of width a b carry }
{
    low(width, a.wrapping_add(b).wrapping_add(u64::from(carry)))
}

/// A sum that went past the width came back below its operand, or to it where the carry was the last step.
#[inline(always)]
fn has_carry(width: u8, a: u64, b: u64, carry: bool) -> bool
    requires width { IsWidth width }
    requires a_fits { a < 2 ^ width }
    requires b_fits { b < 2 ^ width }
    ensures { result ≡ has_carry width a b carry }
{
    let value = sum_of(width, a, b, carry);
    value < a || carry && value == a
}

/// The carry out of bit 3.
#[inline(always)]
fn has_half_carry(a: u64, b: u64, carry: bool) -> bool
    ensures { result ≡ has_carry 4 (cut 4 a) (cut 4 b) carry }
{
    (a & 0xf) + (b & 0xf) + u64::from(carry) >= 0x10
}

#[inline(always)]
fn sum_overflows(width: u8, a: u64, b: u64, carry: bool) -> bool
    requires width { IsWidth width }
    requires a_fits { a < 2 ^ width }
    requires b_fits { b < 2 ^ width }
    ensures { result ≡ sum_overflows width a b carry }
{
    let value = sum_of(width, a, b, carry);
    top(width, a) == top(width, b) && top(width, a) != top(width, value)
}

#[inline(always)]
fn difference(width: u8, a: u64, b: u64, borrow: bool) -> u64
    requires width { IsWidth width }
    requires b_fits { b < 2 ^ width }
    ensures { result ≡ difference_of width a b borrow }
{
    low(width, a.wrapping_sub(b).wrapping_sub(u64::from(borrow)))
}

#[inline(always)]
fn has_borrow(a: u64, b: u64, borrow: bool) -> bool
    ensures { result ≡ has_borrow a b borrow }
{
    a < b || borrow && a == b
}

#[inline(always)]
fn difference_overflows(width: u8, a: u64, b: u64, borrow: bool) -> bool
    requires width { IsWidth width }
    requires a_fits { a < 2 ^ width }
    requires b_fits { b < 2 ^ width }
    ensures { result ≡ difference_overflows width a b borrow }
{
    let value = difference(width, a, b, borrow);
    top(width, a) != top(width, b) && top(width, a) != top(width, value)
}
