//! Quotients, unsigned and signed: `specs/Quotients.antt`.

ghost use Rattle.std.specs.Prelude.{◌≡◌, ◌*◌, ◌<◌, ◌^◌, IfOk, is_err, true, false};
ghost use Rattle.x86_alu.specs.SignedNumbers.{cut};
ghost use Rattle.decode_fields.specs.Widths.{IsWidth};
ghost use Rattle.x86_alu.specs.Quotients.{joined, is_refused, quotient, rest};

use crate::answers::{Divide, Quotient};
use crate::products::is_outside;
use crate::width::{cut, differ, sign, size, spelled};

/// The quotient and the remainder of `high` and `low`, joined, by `by`, each cut to the width, in bits: DIV and IDIV.
///
/// # Errors
///
/// `Divide` where `by` is 0 or the quotient doesn't fit the width.
pub fn divide(signed: bool, width: u8, high: u64, low: u64, by: u64) -> Result<Quotient, Divide>
    requires { IsWidth width }
    ensures refused { is_err result ≡
        is_refused signed width (joined width (cut width high) (cut width low)) (cut width by) }
    ensures value { IfOk result (λ q. q.value ≡
        quotient signed width (joined width (cut width high) (cut width low)) (cut width by)) }
    ensures rest { IfOk result (λ q. q.rest ≡
        rest signed width (joined width (cut width high) (cut width low)) (cut width by)) }
{
    let (high, low, by) = (
        cut(width, high as u128),
        cut(width, low as u128),
        cut(width, by as u128),
    );
    let dividend = joined(width, high, low);
    if signed {
        divide_signed(width, dividend, by)
    } else {
        divide_unsigned(width, dividend, by)
    }
}

fn joined(width: u8, high: u64, low: u64) -> u128
    requires width { IsWidth width }
    requires high_fits { high < 2 ^ width }
    requires low_fits { low < 2 ^ width }
    ensures joined { result ≡ joined width high low }
    ensures fits { result < 2 ^ (2 * width) }
{
    ((high as u128) << width) + low as u128
}

fn divide_unsigned(width: u8, dividend: u128, by: u64) -> Result<Quotient, Divide>
    requires width { IsWidth width }
    requires by_fits { by < 2 ^ width }
    ensures refused { is_err result ≡ is_refused false width dividend by }
    ensures value { IfOk result (λ q. q.value ≡ quotient false width dividend by) }
    ensures rest { IfOk result (λ q. q.rest ≡ rest false width dividend by) }
{
    if by == 0 {
        return Err(Divide);
    }
    let value = dividend / by as u128;
    if value >= 1 << width {
        return Err(Divide);
    }
    Ok(Quotient {
        value: value as u64,
        rest: (dividend % by as u128) as u64,
    })
}

fn divide_signed(width: u8, dividend: u128, by: u64) -> Result<Quotient, Divide>
    requires width { IsWidth width }
    requires fits { dividend < 2 ^ (2 * width) }
    requires by_fits { by < 2 ^ width }
    ensures refused { is_err result ≡ is_refused true width dividend by }
    ensures value { IfOk result (λ q. q.value ≡ quotient true width dividend by) }
    ensures rest { IfOk result (λ q. q.rest ≡ rest true width dividend by) }
{
    if by == 0 {
        return Err(Divide);
    }
    let negative = sign(2 * width, dividend);
    let opposite = differ(negative, sign(width, by as u128));
    let (dividend, by) = (size(2 * width, dividend), size(width, by as u128));
    let value = dividend / by;
    if is_outside(width, opposite, value) {
        return Err(Divide);
    }
    Ok(Quotient {
        value: spelled(width, opposite, value) as u64,
        rest: spelled(width, negative, dividend % by) as u64,
    })
}
