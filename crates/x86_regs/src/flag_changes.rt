//! Changes of the flags by themselves: of CF by CMC, CLC and STC, of DF by CLD and STD, of all by POPFQ and IRETQ.

ghost use Rattle.std.specs.Prelude.{◌≡◌};
ghost use Rattle.x86_regs.specs.Combinations.{flags_loaded, flags_popped};
ghost use Rattle.x86_regs.specs.OperandOutcomes.{flags_changed};

use crate::conditions::bit;
use x86_alu::{CF, with_flag};
use x86_decode::Op;

/// The interrupt flag's place (SDM volume 1, figure 3-8).
pub const IF: u8 = 9;

/// The direction flag's place (SDM volume 1, figure 3-8).
pub const DF: u8 = 10;

/// The flags after CF or DF is changed; another operation changes none.
#[inline(always)]
pub fn flags_changed(op: Op, flags: u64) -> u64
    ensures { result ≡ flags_changed op flags }
{
    match op {
        Op::Cmc => with_flag(flags, CF, !bit(flags, CF)),
        Op::Clc => with_flag(flags, CF, false),
        Op::Stc => with_flag(flags, CF, true),
        Op::Cld => with_flag(flags, DF, false),
        Op::Std => with_flag(flags, DF, true),
        _ => flags,
    }
}

/// The flags that a program may load of a number: the others read as 0, and bit 1 as 1.
fn flags_loaded(value: u64) -> u64
    ensures { result ≡ flags_loaded value }
{
    (value & 0xED5) + 2
}

/// The flags once a number is popped: those that a program may load, but that IF stays above CPL 0 (SDM volume 2, POPF).
pub fn flags_popped(cpl: u8, before: u64, value: u64) -> u64
    ensures { result ≡ flags_popped cpl before value }
{
    if cpl == 0 {
        flags_loaded(value)
    } else {
        with_flag(flags_loaded(value), IF, bit(before, IF))
    }
}
