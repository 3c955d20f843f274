//! What operations make of two operands: a result with flags, or flags alone.

ghost use Rattle.std.specs.Prelude.{◌≡◌};
ghost use Rattle.decode_fields.specs.Widths.{IsWidth};
ghost use Rattle.x86_alu.specs.SignedNumbers.{cut};
ghost use Rattle.x86_regs.specs.Combinations.{combination, comparison, source_width};

use crate::bits::{bit_tested, cleared, reversed, rotate_by, set, shift_by, turned};
use crate::conditions::{bit, condition_stands};
use crate::registers::low;
use crate::sums::{decreased, difference, increased, inverse, logical, multiplied, negative, sum};
use x86_alu::{CF, Logic, Out, Shift};
use x86_decode::Op;

/// What an operation makes of the operand that it writes, `a`, and of `b`, at this width in bits; `number` is the
/// instruction's. At the widths of most instructions, 64 and 32, masks and shifts are constants.
#[inline(never)]
pub fn combination(op: Op, width: u8, a: u64, b: u64, number: u64, flags: u64) -> Out
    requires { IsWidth width }
    ensures { result ≡ combination op width (cut width a) (cut (source_width op width) b) number flags }
{
    if width == 64 {
        combination_at(op, 64, a, b, number, flags)
    } else if width == 32 {
        combination_at(op, 32, a, b, number, flags)
    } else {
        combination_at(op, width, a, b, number, flags)
    }
}

/// `combination`, of which the most frequent operations stand in the caller's own code: it is for callers that know the
/// operation and the width.
#[inline(always)]
pub fn frequent_combination(op: Op, width: u8, a: u64, b: u64, number: u64, flags: u64) -> Out
    requires { IsWidth width }
    ensures { result ≡ combination op width (cut width a) (cut (source_width op width) b) number flags }
{
    match op {
        Op::Add => sum(width, a, b, false, flags),
        Op::Sub => difference(width, a, b, false, flags),
        Op::And => logical(Logic::And, width, a, b, flags),
        Op::Or => logical(Logic::Or, width, a, b, flags),
        Op::Xor => logical(Logic::Xor, width, a, b, flags),
        Op::Inc => increased(width, a, flags),
        Op::Dec => decreased(width, a, flags),
        _ => combination(op, width, a, b, number, flags),
    }
}

/// `combination`, of which the most frequent operations at the width of most instructions, 64, stand in the caller's own
/// code.
#[inline(always)]
pub fn usual_combination(op: Op, width: u8, a: u64, b: u64, number: u64, flags: u64) -> Out
    requires { IsWidth width }
    ensures { result ≡ combination op width (cut width a) (cut (source_width op width) b) number flags }
{
    if width == 64 {
        frequent_combination(op, 64, a, b, number, flags)
    } else {
        combination(op, width, a, b, number, flags)
    }
}

/// `combination`, of a width that the caller may know.
#[inline(always)]
fn combination_at(op: Op, width: u8, a: u64, b: u64, number: u64, flags: u64) -> Out
    requires { IsWidth width }
    ensures { result ≡ combination op width (cut width a) (cut (source_width op width) b) number flags }
{
    match op {
        Op::Add => sum(width, a, b, false, flags),
        Op::Adc => sum(width, a, b, bit(flags, CF), flags),
        Op::Sub => difference(width, a, b, false, flags),
        Op::Sbb => difference(width, a, b, bit(flags, CF), flags),
        Op::And => logical(Logic::And, width, a, b, flags),
        Op::Or => logical(Logic::Or, width, a, b, flags),
        Op::Xor => logical(Logic::Xor, width, a, b, flags),
        Op::Not => inverse(width, a, flags),
        Op::Neg => negative(width, a, flags),
        Op::Inc => increased(width, a, flags),
        Op::Dec => decreased(width, a, flags),
        Op::Imul => multiplied(width, a, b, flags),
        Op::Imul3 => multiplied(width, b, number, flags),
        Op::Shl => shift_by(Shift::Left, width, a, b, flags),
        Op::Shr => shift_by(Shift::Right, width, a, b, flags),
        Op::Sar => shift_by(Shift::Signed, width, a, b, flags),
        Op::Rol => rotate_by(true, width, a, b, flags),
        Op::Ror => rotate_by(false, width, a, b, flags),
        Op::Bts => set(width, a, b, flags),
        Op::Btr => cleared(width, a, b, flags),
        Op::Btc => turned(width, a, b, flags),
        Op::Bswap => Out {
            value: reversed(width, a),
            flags,
        },
        Op::Cmov(condition) if condition_stands(condition, flags) => Out {
            value: low(width, b),
            flags,
        },
        _ => Out {
            value: low(width, a),
            flags,
        },
    }
}

/// The flags after a comparison of `a` with `b`, at this width in bits.
#[inline(never)]
pub fn comparison(op: Op, width: u8, a: u64, b: u64, flags: u64) -> u64
    requires { IsWidth width }
    ensures { result ≡ comparison op width (cut width a) (cut width b) flags }
{
    if width == 64 {
        comparison_at(op, 64, a, b, flags)
    } else if width == 32 {
        comparison_at(op, 32, a, b, flags)
    } else {
        comparison_at(op, width, a, b, flags)
    }
}

/// `comparison`, of which the most frequent operations stand in the caller's own code, likewise.
#[inline(always)]
pub fn frequent_comparison(op: Op, width: u8, a: u64, b: u64, flags: u64) -> u64
    requires { IsWidth width }
    ensures { result ≡ comparison op width (cut width a) (cut width b) flags }
{
    match op {
        Op::Cmp => difference(width, a, b, false, flags).flags,
        Op::Test => logical(Logic::And, width, a, b, flags).flags,
        _ => comparison(op, width, a, b, flags),
    }
}

/// `comparison`, of which the most frequent operations at the widths of most instructions stand in the caller's own code.
#[inline(always)]
pub fn usual_comparison(op: Op, width: u8, a: u64, b: u64, flags: u64) -> u64
    requires { IsWidth width }
    ensures { result ≡ comparison op width (cut width a) (cut width b) flags }
{
    if width == 64 {
        frequent_comparison(op, 64, a, b, flags)
    } else if width == 32 {
        frequent_comparison(op, 32, a, b, flags)
    } else {
        comparison(op, width, a, b, flags)
    }
}

/// `comparison`, of a width that the caller may know.
#[inline(always)]
fn comparison_at(op: Op, width: u8, a: u64, b: u64, flags: u64) -> u64
    requires { IsWidth width }
    ensures { result ≡ comparison op width (cut width a) (cut width b) flags }
{
    match op {
        Op::Cmp => difference(width, a, b, false, flags).flags,
        Op::Test => logical(Logic::And, width, a, b, flags).flags,
        Op::Bt => bit_tested(width, a, b, flags),
        _ => flags,
    }
}
