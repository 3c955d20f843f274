//! PUSH, POP and LEAVE.

ghost use Rattle.std.specs.Prelude.{◌≡◌, ◌+◌, Ok, slice_index};
ghost use Rattle.x86_decode.specs.WellFormed.{IsWellFormed};
ghost use Rattle.x86_alu.specs.SignedNumbers.{cut};
ghost use Rattle.x86_regs.specs.Operands.{wrapped, with_register};
ghost use Rattle.x86_regs.specs.Registers.{written};
ghost use Rattle.x86_regs.specs.OperandPlans.{risen};
ghost use Rattle.x86_regs.specs.OperandOutcomes.{change, fallen, going_on, quietly};

use crate::changes::quietly;
use x86_decode::Instr;
use x86_regs::{Act, Change, RBP, RSP, Regs, fallen, going_on, low, risen, with_register, written};

pub(crate) fn push(instr: &Instr, next: u64, regs: &Regs, from: u64) -> Change
    requires { IsWellFormed instr.now }
    ensures { Ok result ≡ change (going_on regs.now (fallen regs.now instr.now.width) regs.now.flags next)
        (cut instr.now.width from) Act.Quiet }
{
    Change {
        regs: going_on(regs, fallen(regs, instr.width), regs.flags, next),
        value: low(instr.width, from),
        act: Act::Quiet,
    }
}

pub(crate) fn pop(instr: &Instr, next: u64, regs: &Regs, to: u64) -> Change
    requires { IsWellFormed instr.now }
    ensures { Ok result ≡ change (going_on regs.now
        (written (risen regs.now instr.now.width) instr.now.to instr.now.width (cut instr.now.width to))
        regs.now.flags next) (cut instr.now.width to) Act.Quiet }
{
    let value = low(instr.width, to);
    let general = written(&risen(regs, instr.width), &instr.to, instr.width, value);
    Change {
        regs: going_on(regs, general, regs.flags, next),
        value,
        act: Act::Quiet,
    }
}

pub(crate) fn leave(next: u64, regs: &Regs, to: u64) -> Change
    ensures { Ok result ≡ quietly (going_on regs.now (with_register (with_register regs.now.general 4
        (wrapped (slice_index regs.now.general 5 + 8))) 5 (cut 64 to)) regs.now.flags next) }
{
    let top = regs.general[RBP as usize].wrapping_add(8);
    let general = with_register(&regs.general, RSP, top);
    let general = with_register(&general, RBP, low(64, to));
    quietly(going_on(regs, general, regs.flags, next))
}
