//! AND, OR and XOR: `specs/Bitwise.antt`.

ghost use Rattle.std.specs.Prelude.{◌≡◌};
ghost use Rattle.x86_alu.specs.SignedNumbers.{cut};
ghost use Rattle.decode_fields.specs.Widths.{IsWidth};
ghost use Rattle.x86_alu.specs.Bitwise.{combined, logic_flags};

use crate::answers::Out;
use crate::choices::Logic;
use crate::flags::{CF, OF, result_flags, with_flag};
use crate::width::low;

/// AND, OR or XOR of `a` and `b`, each cut to the width, in bits.
#[inline(always)]
pub fn logic(op: Logic, width: u8, a: u64, b: u64, flags: u64) -> Out
    requires { IsWidth width }
    ensures value { result.value ≡ combined op (cut width a) (cut width b) }
    ensures flags { result.flags ≡ logic_flags width (combined op (cut width a) (cut width b)) flags }
{
    let value = combined(op, low(width, a), low(width, b));
    let flags = result_flags(width, value, flags);
    let flags = with_flag(flags, OF, false);
    let flags = with_flag(flags, CF, false);
    Out { value, flags }
}

#[inline(always)]
fn combined(op: Logic, a: u64, b: u64) -> u64
    ensures { result ≡ combined op a b }
{
    match op {
        Logic::And => a & b,
        Logic::Or => a | b,
        Logic::Xor => a ^ b,
    }
}
