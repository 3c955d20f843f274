//! Shifts: `specs/Shifts.antt`.

ghost use Rattle.std.specs.Prelude.{◌≡◌, ◌<◌, ◌≤◌, ◌^◌};
ghost use Rattle.x86_alu.specs.SignedNumbers.{cut};
ghost use Rattle.decode_fields.specs.Widths.{IsWidth};
ghost use Rattle.x86_alu.specs.Shifts.{masked_count, sign_filled, shifted, shift_carry, shift_overflow, shift_flags};

use crate::answers::Out;
use crate::choices::Shift;
use crate::flags::{CF, OF, result_flags, with_flag};
use crate::width::{cut, differ, flag, low, top};

/// SHL, SHR or SAR of `a`, which is cut to the width, in bits, by the low 5 bits of the count, or 6 at width 64.
pub fn shift(op: Shift, width: u8, a: u64, count: u8, flags: u64) -> Out
    requires { IsWidth width }
    ensures value { result.value ≡ shifted op width (cut width a) (masked_count width count) }
    ensures flags { result.flags ≡
        shift_flags op width (cut width a) (masked_count width count) flags }
{
    let a = low(width, a);
    let count = masked_count(width, count);
    let value = shifted(op, width, a, count);
    Out {
        value,
        flags: shift_flags(op, width, a, count, value, flags),
    }
}

/// The count that a shift or a rotation obeys at a width, in bits.
pub fn masked_count(width: u8, count: u8) -> u8
    ensures { result ≡ masked_count width count }
{
    if width == 64 {
        count & 0x3f
    } else {
        count & 0x1f
    }
}

fn shifted(op: Shift, width: u8, a: u64, count: u8) -> u64
    requires width { IsWidth width }
    requires fits { a < 2 ^ width }
    requires count { count < 64 }
    ensures { result ≡ shifted op width a count }
{
    match op {
        Shift::Left => low(width, a << count),
        Shift::Right => a >> count,
        Shift::Signed => cut(width, sign_filled(width, a) >> count),
    }
}

fn sign_filled(width: u8, a: u64) -> u128
    requires width { IsWidth width }
    requires fits { a < 2 ^ width }
    ensures { result ≡ sign_filled width a }
{
    let ones = if top(width, a) { u64::MAX as u128 } else { 0 };
    (ones << width) + a as u128
}

fn shift_flags(op: Shift, width: u8, a: u64, count: u8, value: u64, flags: u64) -> u64
    requires width { IsWidth width }
    requires fits { a < 2 ^ width }
    requires count { count < 64 }
    requires value { value ≡ shifted op width a count }
    ensures { result ≡ shift_flags op width a count flags }
{
    if count == 0 {
        return flags;
    }
    let carry = shift_carry(op, width, a, count, flag(flags, CF));
    let overflow = if count == 1 {
        shift_overflow(op, width, a, value, carry)
    } else {
        flag(flags, OF)
    };
    let flags = result_flags(width, value, flags);
    let flags = with_flag(flags, OF, overflow);
    with_flag(flags, CF, carry)
}

fn shift_carry(op: Shift, width: u8, a: u64, count: u8, was: bool) -> bool
    requires width { IsWidth width }
    requires some { 0 < count }
    requires count { count < 64 }
    ensures { result ≡ shift_carry op width a count was }
{
    match op {
        Shift::Left if count < width => flag(a, width - count),
        Shift::Right | Shift::Signed if count < width => flag(a, count - 1),
        Shift::Left | Shift::Right => was,
        Shift::Signed => top(width, a),
    }
}

fn shift_overflow(op: Shift, width: u8, a: u64, value: u64, carry: bool) -> bool
    requires { IsWidth width }
    ensures { result ≡ shift_overflow op width a value carry }
{
    match op {
        Shift::Left => differ(top(width, value), carry),
        Shift::Right => top(width, a),
        Shift::Signed => false,
    }
}
