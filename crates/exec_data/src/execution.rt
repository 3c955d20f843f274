//! The effect of an instruction of data: its conditions, and then its execution over the accesses of `mem_access`.

ghost use Rattle.std.specs.Prelude.{◌≡◌, IfOk, length};
ghost use Rattle.nk_bits.specs.Outcomes.{outcome_of};
ghost use Rattle.nk_bits.specs.Translations.{IsAccessible, NamesFramesIn};
ghost use Rattle.x86_decode.specs.WellFormed.{IsWellFormed};
ghost use Rattle.x86_regs.specs.declared.form.Form.TheVariants.{Data};
ghost use Rattle.x86_regs.specs.OperationForms.{IsData};
ghost use Rattle.x86_regs.specs.OperandPlans.{instr_form};
ghost use Rattle.x86_regs.specs.Effects.{FitsIn, HasAccessSize, effect_of};

use crate::outcomes::data_outcome;
use crate::plans::data_plan;
use mem_access::{check_span, gather};
use nk_bits::{Control, Target};
use page_walk::{AccessPlan, Gathered, Span, SpanFault};
use phys_mem::PhysMem;
use tlb_model::Tlb;
use x86_decode::Instr;
use x86_regs::{
    Change, DataForm, Effect, Execution, Fault, Regs, data_form, planned_effect, refusal,
};

/// What an instruction of `size` bytes does that stands at RIP: the registers after it, its one write, which is judged and
/// not made, and what it asks of the processor. Only the translations kept change.
///
/// Fails with the first fault of the instruction, in the order of its conditions, its accesses, its outcome and the
/// check of its write.
pub fn effect(
    instr: &Instr,
    size: u8,
    regs: &Regs,
    control: &Control,
    mem: &PhysMem,
    tlb: &mut Tlb,
) -> Result<Effect, Fault>
    requires formed { IsWellFormed instr.now }
    requires row { IsData (instr_form instr.now) }
    requires context { IsAccessible (length mem.now) control.now.root tlb.old }
    ensures outcome { outcome_of result tlb.new
        ≡ effect_of instr.now size regs.now control.now mem.now tlb.old }
    ensures frames { NamesFramesIn (length mem.now) tlb.new }
    ensures places { IfOk result (λ effect. FitsIn (length mem.now) effect.write) }
    ensures sized { IfOk result (λ effect. HasAccessSize effect.write) }
{
    effect_of(data_form(instr), instr, size, regs, control, mem, tlb)
}

/// The effect of an instruction whose form is known: the fault of its conditions, or what its accesses and its outcome are.
#[inline(always)]
#[tactic(auto, unfolding(x86_regs::specs::Effects::effect_of))]
pub fn effect_of(
    form: DataForm,
    instr: &Instr,
    size: u8,
    regs: &Regs,
    control: &Control,
    mem: &PhysMem,
    tlb: &mut Tlb,
) -> Result<Effect, Fault>
    requires form { Data form ≡ instr_form instr.now }
    requires formed { IsWellFormed instr.now }
    requires context { IsAccessible (length mem.now) control.now.root tlb.old }
    ensures outcome { outcome_of result tlb.new
        ≡ effect_of instr.now size regs.now control.now mem.now tlb.old }
    ensures frames { NamesFramesIn (length mem.now) tlb.new }
    ensures places { IfOk result (λ effect. FitsIn (length mem.now) effect.write) }
    ensures sized { IfOk result (λ effect. HasAccessSize effect.write) }
{
    match refusal(instr, regs.cpl) {
        Some(fault) => Err(fault),
        None => {
            let execution = DataExecution { form };
            planned_effect(&execution, instr, size, regs, control, mem, tlb)
        },
    }
}

/// The execution of an instruction of data, of this form.
#[derive(Clone, Copy)]
struct DataExecution {
    form: DataForm,
}

impl Execution for DataExecution {
    ghost use Rattle.x86_regs.specs.declared.form.Form.TheVariants.{Data};

    ghost form = { λ execution. Data execution.form };

    fn plan(&self, instr: &Instr, size: u8, regs: &Regs) -> AccessPlan {
        data_plan(self.form, instr, size, regs)
    }

    fn gather(
        mem: &PhysMem,
        tlb: &mut Tlb,
        control: &Control,
        cpl: u8,
        plan: &AccessPlan,
    ) -> Result<Gathered, SpanFault> {
        gather(mem, tlb, control, cpl, plan)
    }

    fn outcome(
        &self,
        instr: &Instr,
        next: u64,
        regs: &Regs,
        _control: &Control,
        _frames: u32,
        found: &Gathered,
    ) -> Result<Change, Fault> {
        data_outcome(self.form, instr, next, regs, found)
    }

    fn check(
        mem: &PhysMem,
        tlb: &mut Tlb,
        control: &Control,
        cpl: u8,
        span: Option<Span>,
    ) -> Result<Option<Target>, SpanFault> {
        check_span(mem, tlb, control, cpl, span)
    }
}
