//! Rotations: `specs/Shifts.antt`.

ghost use Rattle.std.specs.Prelude.{◌≡◌, ◌<◌, ◌≤◌, ◌^◌};
ghost use Rattle.x86_alu.specs.SignedNumbers.{cut};
ghost use Rattle.decode_fields.specs.Widths.{IsWidth};
ghost use Rattle.x86_alu.specs.Shifts.{masked_count, low_above, rotated, rotate_carry, rotate_overflow, rotate_flags};

use crate::answers::Out;
use crate::flags::{CF, OF, with_flag};
use crate::shifts::masked_count;
use crate::width::{differ, flag, low, top};

/// ROL or ROR of `a`, which is cut to the width, in bits, by the count, masked as for a shift.
pub fn rotate(left: bool, width: u8, a: u64, count: u8, flags: u64) -> Out
    requires { IsWidth width }
    ensures value { result.value ≡ rotated left width (cut width a) (masked_count width count) }
    ensures flags { result.flags ≡
        rotate_flags left width (rotated left width (cut width a) (masked_count width count))
        (masked_count width count) flags }
{
    let a = low(width, a);
    let count = masked_count(width, count);
    let value = rotated(left, width, a, count);
    Out {
        value,
        flags: rotate_flags(left, width, value, count, flags),
    }
}

fn rotated(left: bool, width: u8, a: u64, count: u8) -> u64
    requires width { IsWidth width }
    requires fits { a < 2 ^ width }
    ensures { result ≡ rotated left width a count }
{
    let places = count % width;
    exchanged(width, a, if left { width - places } else { places })
}

fn exchanged(width: u8, a: u64, places: u8) -> u64
    requires width { IsWidth width }
    requires fits { a < 2 ^ width }
    requires places { places ≤ width }
    ensures { result ≡ low_above width a places }
{
    let a = a as u128;
    let low = a & ((1 << places) - 1);
    ((low << (width - places)) + (a >> places)) as u64
}

fn rotate_flags(left: bool, width: u8, value: u64, count: u8, flags: u64) -> u64
    requires { IsWidth width }
    ensures { result ≡ rotate_flags left width value count flags }
{
    if count == 0 {
        return flags;
    }
    let overflow = if count == 1 {
        rotate_overflow(left, width, value)
    } else {
        flag(flags, OF)
    };
    let flags = with_flag(flags, OF, overflow);
    with_flag(flags, CF, rotate_carry(left, width, value))
}

fn rotate_carry(left: bool, width: u8, value: u64) -> bool
    requires { IsWidth width }
    ensures { result ≡ rotate_carry left width value }
{
    if left {
        flag(value, 0)
    } else {
        top(width, value)
    }
}

fn rotate_overflow(left: bool, width: u8, value: u64) -> bool
    requires { IsWidth width }
    ensures { result ≡ rotate_overflow left width value }
{
    let other = if left {
        flag(value, 0)
    } else {
        flag(value, width - 2)
    };
    differ(top(width, value), other)
}
