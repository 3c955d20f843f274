//! The flags as a whole, which PUSHFQ and POPFQ move, and IF, which CLI and STI change (SDM volume 1, 3.4.3).

ghost use Rattle.std.specs.Prelude.{◌≡◌, Ok};
ghost use Rattle.decode_fields.specs.Widths.{IsWidth};
ghost use Rattle.x86_alu.specs.SignedNumbers.{cut};
ghost use Rattle.x86_regs.specs.Combinations.{flags_popped};
ghost use Rattle.x86_regs.specs.OperandPlans.{risen};
ghost use Rattle.x86_regs.specs.OperandOutcomes.{change, fallen, flag_act, going_on, interrupt_flag_changed, quietly};

use x86_alu::with_flag;
use x86_decode::Op;
use x86_regs::{Act, Change, IF, Regs, bit, fallen, flags_popped, going_on, low, risen};

/// PUSHFQ, of `width` in bits.
pub(crate) fn push_flags(width: u8, next: u64, regs: &Regs) -> Change
    requires { IsWidth width }
    ensures { Ok result ≡ change (going_on regs.now (fallen regs.now width) regs.now.flags next)
        (cut width regs.now.flags) Act.Quiet }
{
    Change {
        regs: going_on(regs, fallen(regs, width), regs.flags, next),
        value: low(width, regs.flags),
        act: Act::Quiet,
    }
}

/// POPFQ of a number, of `width` in bits.
pub(crate) fn pop_flags(width: u8, next: u64, regs: &Regs, popped: u64) -> Change
    requires { IsWidth width }
    ensures { Ok result ≡ quietly (going_on regs.now (risen regs.now width)
        (flags_popped regs.now.cpl regs.now.flags (cut width popped)) next) }
{
    let flags = flags_popped(regs.cpl, regs.flags, low(width, popped));
    Change {
        regs: going_on(regs, risen(regs, width), flags, next),
        value: 0,
        act: Act::Quiet,
    }
}

/// CLI and STI.
pub(crate) fn change_interrupt_flag(op: Op, next: u64, regs: &Regs) -> Change
    ensures { Ok result ≡ change (going_on regs.now regs.now.general
        (interrupt_flag_changed op regs.now.flags) next) 0 (flag_act op regs.now.flags) }
{
    let flags = interrupt_flag_changed(op, regs.flags);
    Change {
        regs: going_on(regs, regs.general, flags, next),
        value: 0,
        act: flag_act(op, regs.flags),
    }
}

fn interrupt_flag_changed(op: Op, flags: u64) -> u64
    ensures { result ≡ interrupt_flag_changed op flags }
{
    match op {
        Op::Cli => with_flag(flags, IF, false),
        Op::Sti => with_flag(flags, IF, true),
        _ => flags,
    }
}

/// STI that turns IF from 0 to 1 shields the next instruction from interrupts.
fn flag_act(op: Op, flags: u64) -> Act
    ensures { result ≡ flag_act op flags }
{
    match op {
        Op::Sti if !bit(flags, IF) => Act::Enable,
        _ => Act::Quiet,
    }
}
