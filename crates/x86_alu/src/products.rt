//! Products, unsigned and signed: `specs/Products.antt`.

ghost use Rattle.std.specs.Prelude.{◌≡◌, ◌*◌, ◌<◌, ◌≤◌, ◌^◌, true};
ghost use Rattle.x86_alu.specs.SignedNumbers.{cut, negated, size, spelled};
ghost use Rattle.decode_fields.specs.Widths.{IsWidth};
ghost use Rattle.x86_alu.specs.Products.{signs_differ, product, exceeds_width, product_overflows, half_of, product_flags};

use crate::answers::Out;
use crate::flags::{CF, OF, with_flag};
use crate::width::{cut, differ, sign, size, spelled};

/// The high or the low half of the product of `a` and `b`, each cut to the width, in bits: MUL and IMUL.
pub fn multiply(signed: bool, high: bool, width: u8, a: u64, b: u64, flags: u64) -> Out
    requires { IsWidth width }
    ensures value { result.value ≡
        half_of high width (product signed width (cut width a) (cut width b)) }
    ensures flags { result.flags ≡ product_flags signed width (cut width a) (cut width b) flags }
{
    let (a, b) = (cut(width, a as u128), cut(width, b as u128));
    let product = product(signed, width, a, b);
    let overflow = product_overflows(signed, width, a, b);
    let flags = with_flag(flags, OF, overflow);
    let flags = with_flag(flags, CF, overflow);
    Out {
        value: half_of(high, width, product),
        flags,
    }
}

fn product(signed: bool, width: u8, a: u64, b: u64) -> u128
    requires width { IsWidth width }
    requires a_fits { a < 2 ^ width }
    requires b_fits { b < 2 ^ width }
    ensures product { result ≡ product signed width a b }
    ensures fits { result < 2 ^ (2 * width) }
{
    if signed {
        signed_product(width, a, b)
    } else {
        a as u128 * b as u128
    }
}

fn signed_product(width: u8, a: u64, b: u64) -> u128
    requires width { IsWidth width }
    requires a_fits { a < 2 ^ width }
    requires b_fits { b < 2 ^ width }
    ensures product { result ≡ product true width a b }
    ensures fits { result < 2 ^ (2 * width) }
{
    spelled(
        2 * width,
        signs_differ(width, a, b),
        product_size(width, a, b),
    )
}

fn signs_differ(width: u8, a: u64, b: u64) -> bool
    requires { IsWidth width }
    ensures { result ≡ signs_differ width a b }
{
    differ(sign(width, a as u128), sign(width, b as u128))
}

fn product_size(width: u8, a: u64, b: u64) -> u128
    requires width { IsWidth width }
    requires a_fits { a < 2 ^ width }
    requires b_fits { b < 2 ^ width }
    ensures size { result ≡ size width a * size width b }
    ensures fits { result < 2 ^ (2 * width) }
{
    size(width, a as u128) * size(width, b as u128)
}

/// Whether a signed number of this sign and this size, how far it is from zero, isn't one of `width` bits.
pub fn is_outside(width: u8, negative: bool, size: u128) -> bool
    requires { IsWidth width }
    ensures { result ≡ exceeds_width width negative size }
{
    let half = 1 << (width - 1);
    if negative { half < size } else { half <= size }
}

fn product_overflows(signed: bool, width: u8, a: u64, b: u64) -> bool
    requires width { IsWidth width }
    requires a_fits { a < 2 ^ width }
    requires b_fits { b < 2 ^ width }
    ensures { result ≡ product_overflows signed width a b }
{
    if signed {
        is_outside(width, signs_differ(width, a, b), product_size(width, a, b))
    } else {
        a as u128 * b as u128 >= 1 << width
    }
}

fn half_of(high: bool, width: u8, number: u128) -> u64
    requires width { IsWidth width }
    requires fits { number < 2 ^ (2 * width) }
    ensures { result ≡ half_of high width number }
{
    if high {
        (number >> width) as u64
    } else {
        cut(width, number)
    }
}
