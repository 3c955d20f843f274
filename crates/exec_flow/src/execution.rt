//! The effect of an instruction of flow: its conditions, and then IRETQ, or its execution over the accesses of
//! `mem_access`.

ghost use Rattle.std.specs.Prelude.{◌≡◌, IfOk, length};
ghost use Rattle.nk_bits.specs.Translations.{IsAccessible, NamesFramesIn};
ghost use Rattle.nk_bits.specs.Outcomes.{outcome_of};
ghost use Rattle.page_walk.specs.MemoryAccess.{view_of};
ghost use Rattle.x86_decode.specs.WellFormed.{IsWellFormed};
ghost use Rattle.x86_regs.specs.declared.form.Form.TheVariants.{Flow};
ghost use Rattle.x86_regs.specs.OperationForms.{IsFlow};
ghost use Rattle.x86_regs.specs.OperandPlans.{instr_form};
ghost use Rattle.x86_regs.specs.Effects.{FitsIn, HasAccessSize, effect_by, effect_of};

use crate::interrupt_returns::return_effect;
use crate::outcomes::flow_outcome;
use crate::plans::flow_plan;
use mem_access::{check_span, gather};
use nk_bits::{Control, Target};
use page_walk::{AccessPlan, Gathered, Span, SpanFault};
use phys_mem::PhysMem;
use tlb_model::Tlb;
use x86_decode::Instr;
use x86_regs::{
    Change, Effect, Execution, Fault, FlowForm, Regs, flow_form, next_of, planned_effect, refusal,
};

/// What an instruction of flow or of the system does, which has this length in bytes: the registers after it, its one
/// write, whose places are found but not yet written, and what it asks of the processor.
///
/// Fails with the first fault of the instruction: #UD and #GP by its conditions, a fault of a read, #GP by a branch's
/// target or a value for a control register, a fault of its write. Registers and memory stay as they were; translations
/// may have changed.
pub fn effect(
    instr: &Instr,
    size: u8,
    regs: &Regs,
    control: &Control,
    mem: &PhysMem,
    tlb: &mut Tlb,
) -> Result<Effect, Fault>
    requires formed { IsWellFormed instr.now }
    requires row { IsFlow (instr_form instr.now) }
    requires context { IsAccessible (length mem.now) control.now.root tlb.old }
    ensures outcome { outcome_of result tlb.new
        ≡ effect_of instr.now size regs.now control.now mem.now tlb.old }
    ensures frames { NamesFramesIn (length mem.now) tlb.new }
    ensures places { IfOk result (λ effect. FitsIn (length mem.now) effect.write) }
    ensures sized { IfOk result (λ effect. HasAccessSize effect.write) }
{
    effect_of(flow_form(instr), instr, size, regs, control, mem, tlb)
}

/// The effect of an instruction whose form is known: the fault of its conditions, or what its form makes.
#[inline(always)]
#[tactic(auto, unfolding(x86_regs::specs::Effects::effect_of))]
pub fn effect_of(
    form: FlowForm,
    instr: &Instr,
    size: u8,
    regs: &Regs,
    control: &Control,
    mem: &PhysMem,
    tlb: &mut Tlb,
) -> Result<Effect, Fault>
    requires form { Flow form ≡ instr_form instr.now }
    requires formed { IsWellFormed instr.now }
    requires context { IsAccessible (length mem.now) control.now.root tlb.old }
    ensures outcome { outcome_of result tlb.new
        ≡ effect_of instr.now size regs.now control.now mem.now tlb.old }
    ensures frames { NamesFramesIn (length mem.now) tlb.new }
    ensures places { IfOk result (λ effect. FitsIn (length mem.now) effect.write) }
    ensures sized { IfOk result (λ effect. HasAccessSize effect.write) }
{
    match refusal(instr, regs.cpl) {
        Some(fault) => Err(fault),
        None => effect_by(form, instr, size, regs, control, mem, tlb),
    }
}

fn effect_by(
    form: FlowForm,
    instr: &Instr,
    size: u8,
    regs: &Regs,
    control: &Control,
    mem: &PhysMem,
    tlb: &mut Tlb,
) -> Result<Effect, Fault>
    requires formed { IsWellFormed instr.now }
    requires context { IsAccessible (length mem.now) control.now.root tlb.old }
    ensures outcome { outcome_of result tlb.new
        ≡ effect_by (Flow form) instr.now size regs.now control.now mem.now
        (view_of mem.now control.now regs.now.cpl) tlb.old }
    ensures frames { NamesFramesIn (length mem.now) tlb.new }
    ensures places { IfOk result (λ effect. FitsIn (length mem.now) effect.write) }
    ensures sized { IfOk result (λ effect. HasAccessSize effect.write) }
{
    match form {
        FlowForm::TrapReturn => return_effect(next_of(regs, size), regs, control, mem, tlb),
        _ => {
            let execution = FlowExecution { form };
            planned_effect(&execution, instr, size, regs, control, mem, tlb)
        },
    }
}

/// The execution of an instruction of flow, of this form.
#[derive(Clone, Copy)]
struct FlowExecution {
    form: FlowForm,
}

impl Execution for FlowExecution {
    ghost use Rattle.x86_regs.specs.declared.form.Form.TheVariants.{Flow};

    ghost form = { λ execution. Flow execution.form };

    fn plan(&self, instr: &Instr, size: u8, regs: &Regs) -> AccessPlan {
        flow_plan(self.form, instr, size, regs)
    }

    fn gather(
        mem: &PhysMem,
        tlb: &mut Tlb,
        control: &Control,
        cpl: u8,
        plan: &AccessPlan,
    ) -> Result<Gathered, SpanFault> {
        gather(mem, tlb, control, cpl, plan)
    }

    fn outcome(
        &self,
        instr: &Instr,
        next: u64,
        regs: &Regs,
        control: &Control,
        frames: u32,
        found: &Gathered,
    ) -> Result<Change, Fault> {
        flow_outcome(self.form, instr, next, regs, control, frames, found)
    }

    fn check(
        mem: &PhysMem,
        tlb: &mut Tlb,
        control: &Control,
        cpl: u8,
        span: Option<Span>,
    ) -> Result<Option<Target>, SpanFault> {
        check_span(mem, tlb, control, cpl, span)
    }
}
