//! Instructions whose effect is an act alone: RIP goes on, the other registers stay, no byte is written, and what they read
//! changes no translation. Their act is found without an effect being built.

ghost use Rattle.std.specs.Prelude.{◌≡◌, ℕ, ◌*◌, ◌<◌, ◌^◌, None, false, true, IfNone, IfSome, length};
ghost use Rattle.nk_bits.specs.Translations.{IsAccessible, NamesFramesIn};
ghost use Rattle.nk_bits.specs.Outcomes.{answered};
ghost use Rattle.page_walk.specs.MemoryAccess.{view_of};
ghost use Rattle.x86_alu.specs.SignedNumbers.{cut};
ghost use Rattle.x86_decode.specs.declared.conditions.UndefinedWhere.TheVariants.{Nowhere};
ghost use Rattle.x86_decode.specs.Conditions.{conditions_of};
ghost use Rattle.x86_decode.specs.WellFormed.{IsWellFormed};
ghost use Rattle.x86_regs.specs.declared.registers.Regs.{Regs};
ghost use Rattle.x86_regs.specs.declared.form.Form.TheVariants.{Flow};
ghost use Rattle.x86_regs.specs.Effects.{effect_by, effect_of, frame_popped, names_no_register, refusal, refusal_by_cpl};
ghost use Rattle.x86_regs.specs.OperandOutcomes.{change, control_loaded, going_on};
ghost use Rattle.x86_regs.specs.OperandPlans.{instr_form};
ghost use Rattle.x86_regs.specs.Operands.{next_of};

use crate::interrupt_returns::{pop_kept_frame, vector_of};
use crate::system::{is_cr0, is_cr3, is_cr4, low_8, low_16, page_dropped};
use nk_bits::Control;
use page_walk::Origin;
use phys_mem::PhysMem;
use tlb_model::Tlb;
use x86_decode::{Instr, Op};
use x86_regs::{Act, FlowForm, Regs, from_address, from_source, next_of, to_source};

/// Makes an instruction of flow that is an act alone, whose form is known: RIP goes on, and the act is all else that it does.
/// Its effect writes nothing, and leaves the translations.
///
/// Nothing is made, and the registers stay, where the instruction does more, or faults, or reads what isn't kept.
#[inline(always)]
pub fn sole_act(
    form: FlowForm,
    instr: &Instr,
    size: u8,
    regs: &mut Regs,
    control: &Control,
    mem: &PhysMem,
    tlb: &Tlb,
) -> Option<Act>
    requires form { Flow form ≡ instr_form instr.now }
    requires formed { IsWellFormed instr.now }
    requires context { IsAccessible (length mem.now) control.now.root tlb.now }
    ensures made { IfSome result (λ act. answered (record { regs = regs.new; write = None; act = act }) tlb.now
        ≡ effect_of instr.now size regs.old control.now mem.now tlb.now) }
    ensures none { IfNone result (regs.new ≡ regs.old) }
{
    match act_of(form, instr, size, regs, control, mem, tlb) {
        Some(act) if is_unrefused(instr, regs.cpl) => {
            regs.rip = next_of(regs, size);
            Some(act)
        }
        _ => None,
    }
}

/// Whether no condition refuses an instruction at this CPL, of those that may be an act alone.
#[inline(always)]
fn is_unrefused(instr: &Instr, cpl: u8) -> bool
    ensures { result ≡ true → refusal instr.now cpl ≡ None }
{
    !instr.lock && is_admitted(instr.op, instr.value, cpl)
}

fn is_admitted(op: Op, number: u64, cpl: u8) -> bool
    ensures undefined { result ≡ true → (conditions_of op).undefined ≡ Nowhere }
    ensures cpl { result ≡ true → refusal_by_cpl (conditions_of op) cpl ≡ None }
    ensures register { result ≡ true → names_no_register op number ≡ false }
{
    match op {
        Op::Int3 | Op::Int | Op::Iretq => true,
        Op::Hlt | Op::In | Op::Out | Op::Invlpg => cpl == 0,
        Op::Movtc => cpl == 0 && matches!(number, 0 | 2 | 3 | 4),
        _ => false,
    }
}

/// The act of an instruction that no condition refuses, which has nothing else.
#[inline(always)]
#[tactic(auto, unfolding(page_walk::specs::AccessPlans::gathered))]
fn act_of(
    form: FlowForm,
    instr: &Instr,
    size: u8,
    regs: &Regs,
    control: &Control,
    mem: &PhysMem,
    tlb: &Tlb,
) -> Option<Act>
    requires formed { IsWellFormed instr.now }
    requires context { IsAccessible (length mem.now) control.now.root tlb.now }
    ensures { IfSome result (λ act. answered (record { regs = record regs.now { rip = next_of regs.now size }; write = None; act = act }) tlb.now
        ≡ effect_by (Flow form) instr.now size regs.now control.now mem.now
        (view_of mem.now control.now regs.now.cpl) tlb.now) }
{
    match form {
        FlowForm::Trap => Some(Act::Interrupt(vector_of(instr.op, instr.value))),
        FlowForm::TrapReturn => match pop_kept_frame(regs, control, mem, tlb) {
            Some(frame) => Some(Act::Return(frame)),
            None => None,
        },
        FlowForm::Halt => Some(Act::Halt),
        FlowForm::Input => match from_source(instr, size, regs, 16) {
            Origin::Is(port) => Some(Act::In(low_16(port))),
            Origin::At(_) => None,
        },
        FlowForm::Output => match (
            to_source(instr, size, regs, 16),
            from_source(instr, size, regs, 8),
        ) {
            (Origin::Is(port), Origin::Is(byte)) => Some(Act::Out(low_8(byte), low_16(port))),
            _ => None,
        },
        FlowForm::ToControl => match from_source(instr, size, regs, 64) {
            Origin::Is(value) => load_act(instr.value, mem.frames(), value),
            Origin::At(_) => None,
        },
        FlowForm::DropPage => Some(page_dropped(from_address(instr, size, regs))),
        _ => None,
    }
}

/// The act of MOV to the control register of this number, where that takes the value and memory has so many frames.
fn load_act(number: u64, frames: u32, value: u64) -> Option<Act>
    ensures { IfSome result (λ act. (regs : Regs) (next : ℕ) → change (going_on regs regs.general regs.flags next) 0 act
        ≡ control_loaded number regs next frames (cut 64 value)) }
{
    match number {
        0 if is_cr0(value) => Some(Act::Cr0(value)),
        2 => Some(Act::Cr2(value)),
        3 if is_cr3(frames, value) => Some(Act::Cr3(value)),
        4 if is_cr4(value) => Some(Act::Cr4(value)),
        _ => None,
    }
}
