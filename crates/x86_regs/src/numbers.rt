//! Numbers of a width, in bits: all ones, and extension by the sign.

ghost use Rattle.std.specs.Prelude.{◌≡◌, ◌-◌, ◌^◌, ◌<◌, ◌≤◌, ◌+◌};
ghost use Rattle.decode_fields.specs.Widths.{IsWidth};
ghost use Rattle.x86_alu.specs.SignedNumbers.{sign};
ghost use Rattle.x86_regs.specs.Combinations.{extended};

use crate::conditions::bit;

/// The greatest number of this width.
#[inline(always)]
pub fn ones(width: u8) -> u64
    requires { IsWidth width }
    ensures { result ≡ 2 ^ width - 1 }
{
    u64::MAX >> (64 - width)
}

/// The highest bit of a number of this width.
#[inline(always)]
pub fn sign(width: u8, number: u64) -> bool
    requires { IsWidth width }
    ensures { result ≡ sign width number }
{
    bit(number, width - 1)
}

/// A number of `from` bits, extended to `to` bits by its sign.
#[inline(always)]
pub fn extended(from: u8, to: u8, number: u64) -> u64
    requires from { IsWidth from }
    requires to { IsWidth to }
    requires fits { number < 2 ^ from }
    ensures { result ≡ extended from to number }
{
    if sign(from, number) {
        number + above(from, to)
    } else {
        number
    }
}

/// The bits of a number of `to` bits above its `from` low ones.
#[inline(always)]
fn above(from: u8, to: u8) -> u64
    requires from { IsWidth from }
    requires to { IsWidth to }
    ensures above { result ≡ 2 ^ to - 2 ^ from }
    ensures room { result + 2 ^ from ≤ 2 ^ 64 }
{
    ones(to).saturating_sub(ones(from))
}
