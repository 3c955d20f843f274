//! What an instruction makes of the values that it reads, by its form.

ghost use Rattle.std.specs.Prelude.{◌≡◌, ◌*◌, ◌<◌, ◌^◌};
ghost use Rattle.x86_decode.specs.WellFormed.{IsWellFormed};
ghost use Rattle.x86_regs.specs.OperandOutcomes.{flow_outcome};

use crate::branches::{branch, call, count_down, ret};
use crate::flags::{change_interrupt_flag, pop_flags, push_flags};
use crate::interrupt_returns::trap;
use crate::system::{acting, drop_page, from_control, input, load_table, output, to_control};
use nk_bits::Control;
use page_walk::Gathered;
use x86_decode::Instr;
use x86_regs::{Act, Change, Fault, FlowForm, Regs};

/// The registers afterwards, the number that is written where a write is checked, and the act. `next` is the address of
/// the next instruction, and memory has so many frames.
///
/// Fails with #GP where a branch's target isn't canonical, and where a control register doesn't take the value.
pub(crate) fn flow_outcome(
    form: FlowForm,
    instr: &Instr,
    next: u64,
    regs: &Regs,
    control: &Control,
    frames: u32,
    found: &Gathered,
) -> Result<Change, Fault>
    requires formed { IsWellFormed instr.now }
    requires root { 4096 * control.now.root < 2 ^ 64 }
    ensures { result ≡ flow_outcome form instr.now next regs.now control.now frames found.now }
{
    match form {
        FlowForm::Branch => branch(instr.op, &instr.from, next, regs, found.from),
        FlowForm::Call => call(&instr.from, next, regs, found.from),
        FlowForm::Return => ret(instr.value, next, regs, found.to),
        FlowForm::CountDown => count_down(instr.op, instr.value, next, regs),
        FlowForm::Trap => Ok(trap(instr.op, instr.value, next, regs)),
        FlowForm::PushFlags => Ok(push_flags(instr.width, next, regs)),
        FlowForm::PopFlags => Ok(pop_flags(instr.width, next, regs, found.to)),
        FlowForm::ChangeInterruptFlag => Ok(change_interrupt_flag(instr.op, next, regs)),
        FlowForm::Halt => Ok(acting(next, regs, Act::Halt)),
        FlowForm::Input => Ok(input(found.from, next, regs)),
        FlowForm::Output => Ok(output(found.from, found.to, next, regs)),
        FlowForm::FromControl => Ok(from_control(instr.value, &instr.to, next, regs, control)),
        FlowForm::ToControl => to_control(instr.value, next, regs, frames, found.from),
        FlowForm::LoadTable => Ok(load_table(found.from, found.to, next, regs)),
        FlowForm::DropPage => Ok(drop_page(found.from, next, regs)),
        FlowForm::TrapReturn | FlowForm::Refused => Ok(acting(next, regs, Act::Quiet)),
    }
}
