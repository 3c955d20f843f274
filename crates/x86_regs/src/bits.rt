//! Shifts, rotations, single bits and the order of bytes. Each operand is cut to the width, in bits.

ghost use Rattle.std.specs.Prelude.{◌≡◌, ◌%◌, ◌<◌, ◌^◌, true, false};
ghost use Rattle.decode_fields.specs.Widths.{IsWidth};
ghost use Rattle.x86_alu.specs.SignedNumbers.{bit, cut};
ghost use Rattle.x86_regs.specs.Combinations.{bit_cleared, bit_set, bit_tested, bit_turned, out, reversed, reversed_4, reversed_8, rotate_by, shift_by};

use crate::conditions::bit;
use crate::registers::low;
use x86_alu::{CF, Out, Shift, rotate, shift, with_flag};

/// A shift by the low byte of the count. At the widths of most instructions, 64 and 32, masks are constants.
#[inline(never)]
pub(crate) fn shift_by(kind: Shift, width: u8, a: u64, count: u64, flags: u64) -> Out
    requires { IsWidth width }
    ensures { result ≡ shift_by kind width (cut width a) (cut 8 count) flags }
{
    let count = low(8, count) as u8;
    let it = if width == 64 {
        shift(kind, 64, a, count, flags)
    } else if width == 32 {
        shift(kind, 32, a, count, flags)
    } else {
        shift(kind, width, a, count, flags)
    };
    Out {
        value: it.value,
        flags: it.flags,
    }
}

/// A rotation by the low byte of the count, likewise.
#[inline(never)]
pub(crate) fn rotate_by(left: bool, width: u8, a: u64, count: u64, flags: u64) -> Out
    requires { IsWidth width }
    ensures { result ≡ rotate_by left width (cut width a) (cut 8 count) flags }
{
    let count = low(8, count) as u8;
    let it = if width == 64 {
        rotate(left, 64, a, count, flags)
    } else if width == 32 {
        rotate(left, 32, a, count, flags)
    } else {
        rotate(left, width, a, count, flags)
    };
    Out {
        value: it.value,
        flags: it.flags,
    }
}

/// The number of a bit of an operand: modulo the width.
fn bit_number(width: u8, b: u64) -> u8
    requires { IsWidth width }
    ensures number { result ≡ cut width b % width }
    ensures bound { result < 64 }
{
    (low(width, b) % u64::from(width)) as u8
}

/// The flags after a bit test: CF is the bit.
pub(crate) fn bit_tested(width: u8, a: u64, b: u64, flags: u64) -> u64
    requires { IsWidth width }
    ensures { result ≡ bit_tested width (cut width a) (cut width b) flags }
{
    with_flag(flags, CF, bit(low(width, a), bit_number(width, b)))
}

/// BTS.
pub(crate) fn set(width: u8, a: u64, b: u64, flags: u64) -> Out
    requires { IsWidth width }
    ensures { result ≡ out (bit_set (cut width a) (cut width b % width))
        (bit_tested width (cut width a) (cut width b) flags) }
{
    Out {
        value: with_flag(low(width, a), bit_number(width, b), true),
        flags: bit_tested(width, a, b, flags),
    }
}

/// BTR.
pub(crate) fn cleared(width: u8, a: u64, b: u64, flags: u64) -> Out
    requires { IsWidth width }
    ensures { result ≡ out (bit_cleared (cut width a) (cut width b % width))
        (bit_tested width (cut width a) (cut width b) flags) }
{
    Out {
        value: with_flag(low(width, a), bit_number(width, b), false),
        flags: bit_tested(width, a, b, flags),
    }
}

/// BTC.
pub(crate) fn turned(width: u8, a: u64, b: u64, flags: u64) -> Out
    requires { IsWidth width }
    ensures { result ≡ out (bit_turned (cut width a) (cut width b % width))
        (bit_tested width (cut width a) (cut width b) flags) }
{
    let a = low(width, a);
    let number = bit_number(width, b);
    Out {
        value: with_flag(a, number, !bit(a, number)),
        flags: with_flag(flags, CF, bit(a, number)),
    }
}

/// BSWAP.
pub(crate) fn reversed(width: u8, a: u64) -> u64
    requires { IsWidth width }
    ensures { result ≡ reversed width (cut width a) }
{
    if width == 64 {
        reversed_8(low(width, a))
    } else {
        reversed_4(low(width, a))
    }
}

#[tactic(auto, unfolding(crate::specs::Combinations::reversed_8))]
fn reversed_8(number: u64) -> u64
    ensures { result ≡ reversed_8 number }
{
    (reversed_4(number & 0xFFFF_FFFF) << 32) + reversed_4(number >> 32)
}

#[tactic(auto, unfolding(crate::specs::Combinations::reversed_4))]
fn reversed_4(number: u64) -> u64
    ensures value { result ≡ reversed_4 number }
    ensures bound { result < 2 ^ 32 }
{
    ((number & 0xFF) << 24)
        + ((number >> 8 & 0xFF) << 16)
        + ((number >> 16 & 0xFF) << 8)
        + (number >> 24 & 0xFF)
}
