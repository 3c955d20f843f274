//! The two halves of a number of two operands' bits: the upper one stands in AH above AL, or in RDX beside the
//! accumulator.

ghost use Rattle.std.specs.Prelude.{◌≡◌};
ghost use Rattle.decode_fields.specs.Widths.{IsWidth};
ghost use Rattle.x86_alu.specs.SignedNumbers.{cut};
ghost use Rattle.x86_regs.specs.Registers.{written};
ghost use Rattle.x86_regs.specs.OperandOutcomes.{halves_written, upper_half, upper_place};

use crate::operands::{RAX, RDX};
use crate::registers::set_place;
use decode_fields::Place;

/// A number whose low bits are the upper half.
#[inline(always)]
pub fn upper_half(general: &[u64; 16], width: u8) -> u64
    requires { IsWidth width }
    ensures { cut width result ≡ upper_half general.now width }
{
    if width == 8 {
        general[usize::from(RAX)] >> 8
    } else {
        general[usize::from(RDX)]
    }
}

#[inline(always)]
fn set_upper(general: &mut [u64; 16], width: u8, value: u64)
    requires { IsWidth width }
    ensures { general.new ≡ written general.old (upper_place width) width value }
{
    if width == 8 {
        set_place(general, &Place::High(0), width, value);
    } else {
        set_place(general, &Place::Reg(RDX), width, value);
    }
}

/// Writes both halves.
#[inline(always)]
pub fn set_halves(general: &mut [u64; 16], width: u8, low: u64, high: u64)
    requires { IsWidth width }
    ensures { general.new ≡ halves_written general.old width low high }
{
    set_place(general, &Place::Reg(RAX), width, low);
    set_upper(general, width, high);
}
