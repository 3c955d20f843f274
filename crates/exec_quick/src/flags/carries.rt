//! The carries of sums and differences, read off the bits of the operands and of the result. Operands needn't be cut to
//! the width: bits above it aren't looked at.

ghost use Rattle.std.specs.Prelude.{◌≡◌, ◌-◌, ◌&&◌};
ghost use Rattle.decode_fields.specs.Widths.{IsWidth};
ghost use Rattle.x86_alu.specs.SignedNumbers.{bit, cut, differ, sign};
ghost use Rattle.x86_alu.specs.Sums.{difference_of, difference_overflows, has_borrow, has_carry, sum_of, sum_overflows};

use crate::flags::parts::raised;

/// A word whose highest bit is set where the signed sum goes past the width: its sign differs from both operands'.
#[inline(always)]
pub(crate) fn sum_overflow(width: u8, a: u64, b: u64, carry: bool, value: u64) -> u64
    requires width { IsWidth width }
    requires value { value ≡ sum_of width (cut width a) (cut width b) carry }
    ensures { bit result 63 ≡ sum_overflows width (cut width a) (cut width b) carry }
{
    sum_law(width, a, b, carry);
    let place = width - 1;
    let first = differing(a, value, place);
    let second = differing(b, value, place);
    raised(common(first, second, place), place)
}

/// A word whose highest bit is set where the signed difference goes past the width: the first operand's sign differs from
/// the other's and from its own.
#[inline(always)]
pub(crate) fn difference_overflow(width: u8, a: u64, b: u64, borrow: bool, value: u64) -> u64
    requires width { IsWidth width }
    requires value { value ≡ difference_of width (cut width a) (cut width b) borrow }
    ensures { bit result 63 ≡ difference_overflows width (cut width a) (cut width b) borrow }
{
    difference_law(width, a, b, borrow);
    let place = width - 1;
    let apart = differing(a, b, place);
    let turned = differing(a, value, place);
    raised(common(apart, turned, place), place)
}

/// A word whose bit 4 is the carry of a sum out of bit 3.
#[inline(always)]
pub(crate) fn half_carry(width: u8, a: u64, b: u64, carry: bool, value: u64) -> u64
    requires width { IsWidth width }
    requires value { value ≡ sum_of width (cut width a) (cut width b) carry }
    ensures { bit result 4 ≡ has_carry 4 (cut 4 (cut width a)) (cut 4 (cut width b)) carry }
{
    half_carry_law(width, a, b, carry);
    differing(differing(a, b, 4), value, 4)
}

/// A word whose bit 4 is the borrow of a difference out of bit 3.
#[inline(always)]
pub(crate) fn half_borrow(width: u8, a: u64, b: u64, borrow: bool, value: u64) -> u64
    requires width { IsWidth width }
    requires value { value ≡ difference_of width (cut width a) (cut width b) borrow }
    ensures { bit result 4 ≡ has_borrow (cut 4 (cut width a)) (cut 4 (cut width b)) borrow }
{
    half_borrow_law(width, a, b, borrow);
    differing(differing(a, b, 4), value, 4)
}

/// A word whose bit at a place is set where those of two others differ.
#[inline(always)]
fn differing(a: u64, b: u64, place: u8) -> u64
    ensures { bit result place ≡ differ (bit a place) (bit b place) }
{
    a ^ b
}

/// A word whose bit at a place is set where those of two others are.
#[inline(always)]
fn common(a: u64, b: u64, place: u8) -> u64
    ensures { bit result place ≡ (bit a place && bit b place) }
{
    a & b
}

#[inline(always)]
fn sum_law(width: u8, a: u64, b: u64, carry: bool)
    requires width { IsWidth width }
    ensures { (differ (bit a (width - 1)) (sign width (sum_of width (cut width a) (cut width b) carry))
        && differ (bit b (width - 1)) (sign width (sum_of width (cut width a) (cut width b) carry)))
        ≡ sum_overflows width (cut width a) (cut width b) carry }
{}

#[inline(always)]
fn difference_law(width: u8, a: u64, b: u64, borrow: bool)
    requires width { IsWidth width }
    ensures { (differ (bit a (width - 1)) (bit b (width - 1))
        && differ (bit a (width - 1)) (sign width (difference_of width (cut width a) (cut width b) borrow)))
        ≡ difference_overflows width (cut width a) (cut width b) borrow }
{}

#[inline(always)]
fn half_carry_law(width: u8, a: u64, b: u64, carry: bool)
    requires width { IsWidth width }
    ensures { differ (differ (bit a 4) (bit b 4)) (bit (sum_of width (cut width a) (cut width b) carry) 4)
        ≡ has_carry 4 (cut 4 (cut width a)) (cut 4 (cut width b)) carry }
{}

#[inline(always)]
fn half_borrow_law(width: u8, a: u64, b: u64, borrow: bool)
    requires width { IsWidth width }
    ensures { differ (differ (bit a 4) (bit b 4)) (bit (difference_of width (cut width a) (cut width b) borrow) 4)
        ≡ has_borrow (cut 4 (cut width a)) (cut 4 (cut width b)) borrow }
{}
