//! What moves make of the operand that they read.

ghost use Rattle.std.specs.Prelude.{◌≡◌};
ghost use Rattle.decode_fields.specs.Widths.{IsWidth};
ghost use Rattle.x86_alu.specs.SignedNumbers.{cut};
ghost use Rattle.x86_regs.specs.Combinations.{movement, source_width};

use crate::conditions::condition_stands;
use crate::numbers::extended;
use crate::registers::low;
use x86_decode::Op;

/// The width of what an operation reads, in bits, which isn't that of the instruction for the source of an extension
/// and the count of a shift.
#[inline(always)]
pub fn source_width(op: Op, width: u8) -> u8
    requires { IsWidth width }
    ensures width { result ≡ source_width op width }
    ensures is_width { IsWidth result }
{
    match op {
        Op::Movzx8 | Op::Movsx8 | Op::Cbw => 8,
        Op::Movzx16 | Op::Movsx16 | Op::Cwde => 16,
        Op::Movsxd | Op::Cdqe => 32,
        Op::Shl | Op::Shr | Op::Sar | Op::Rol | Op::Ror => 8,
        _ => width,
    }
}

/// What is written of the operand `b`, at this width in bits. MOV, the most frequent, is tested for first.
#[inline(always)]
pub fn movement(op: Op, width: u8, b: u64, flags: u64) -> u64
    requires { IsWidth width }
    ensures { result ≡ movement op width (cut (source_width op width) b) flags }
{
    if matches!(op, Op::Mov) {
        low(width, b)
    } else {
        movement_by(op, width, b, flags)
    }
}

/// What any other operation than MOV writes of `b`.
#[inline(always)]
fn movement_by(op: Op, width: u8, b: u64, flags: u64) -> u64
    requires { IsWidth width }
    ensures { result ≡ movement op width (cut (source_width op width) b) flags }
{
    match op {
        Op::Movsx8 => extended(8, width, low(8, b)),
        Op::Movsx16 => extended(16, width, low(16, b)),
        Op::Movsxd => extended(32, width, low(32, b)),
        Op::Set(condition) => u64::from(condition_stands(condition, flags)),
        _ => low(source_width(op, width), b),
    }
}
