//! The effect of an instruction by its plan: its accesses in order, its outcome, and the check of its write.

ghost use Rattle.std.specs.Prelude.{◌≡◌, ◌*◌, ◌<◌, ◌^◌, IfOk, length};
ghost use Rattle.nk_bits.specs.Translations.{IsAccessible, NamesFramesIn};
ghost use Rattle.nk_bits.specs.Outcomes.{outcome_of};
ghost use Rattle.page_walk.specs.AccessPlans.{IsAccessPlan, IsChecked, IsSized, checked, gathered};
ghost use Rattle.page_walk.specs.MemoryAccess.{view_of};
ghost use Rattle.x86_decode.specs.WellFormed.{IsWellFormed};
ghost use Rattle.x86_regs.specs.declared.form.Form.{Form};
ghost use Rattle.x86_regs.specs.Effects.{FitsIn, HasAccessSize, concluded, planned_effect};
ghost use Rattle.x86_regs.specs.OperandOutcomes.{outcome_by};
ghost use Rattle.x86_regs.specs.OperandPlans.{plan_by};

use crate::effects::{Change, Effect};
use crate::faults::Fault;
use crate::operands::next_of;
use crate::refusals::raised;
use crate::registers::Regs;
use crate::writes::write_of;
use nk_bits::{Control, Target};
use page_walk::{AccessPlan, Gathered, Span, SpanFault};
use phys_mem::PhysMem;
use tlb_model::Tlb;
use x86_decode::Instr;

/// What executes an instruction of one form: its plan and its outcome, and how accesses are made.
pub trait Execution {
    // The form of the instruction.
    ghost form: { Self → Form };

    /// Which accesses the instruction makes: a function of the registers.
    fn plan(&self, instr: &Instr, size: u8, regs: &Regs) -> AccessPlan
        requires formed { IsWellFormed instr.now }
        ensures plan { result ≡ plan_by (form self.now) instr.now size regs.now }
        ensures sized { IsAccessPlan result };

    /// What the instruction makes of the values that it read, where the next one stands at `next` and memory has so many
    /// frames.
    ///
    /// Fails with the fault of the form alone: no access is made.
    fn outcome(
        &self,
        instr: &Instr,
        next: u64,
        regs: &Regs,
        control: &Control,
        frames: u32,
        found: &Gathered,
    ) -> Result<Change, Fault>
        requires formed { IsWellFormed instr.now }
        requires root { 4096 * control.now.root < 2 ^ 64 }
        ensures { result ≡ outcome_by (form self.now) instr.now next regs.now control.now frames found.now };

    /// Makes the accesses of a plan up to its last check.
    ///
    /// Fails with the first fault of these accesses; none is made after it.
    fn gather(
        mem: &PhysMem,
        tlb: &mut Tlb,
        control: &Control,
        cpl: u8,
        plan: &AccessPlan,
    ) -> Result<Gathered, SpanFault>
        requires plan { IsAccessPlan plan.now }
        requires context { IsAccessible (length mem.now) control.now.root tlb.old }
        ensures outcome { outcome_of result tlb.new
            ≡ gathered mem.now (view_of mem.now control.now cpl) plan.now tlb.old }
        ensures frames { NamesFramesIn (length mem.now) tlb.new }
        ensures places { IfOk result (λ found. IsChecked (length mem.now) plan.now.both found.both) };

    /// Judges the write to a place, where there is one, and finds the places of its bytes.
    ///
    /// Fails with the fault of the write.
    fn check(
        mem: &PhysMem,
        tlb: &mut Tlb,
        control: &Control,
        cpl: u8,
        span: Option<Span>,
    ) -> Result<Option<Target>, SpanFault>
        requires width { IsSized span }
        requires context { IsAccessible (length mem.now) control.now.root tlb.old }
        ensures outcome { outcome_of result tlb.new ≡ checked (view_of mem.now control.now cpl) span tlb.old }
        ensures frames { NamesFramesIn (length mem.now) tlb.new }
        ensures places { IfOk result (λ target. IsChecked (length mem.now) span target) };
}

/// The effect of an instruction that its conditions don't refuse, which has this length in bytes.
///
/// Fails with the first fault of its accesses, its outcome and the check of its write.
pub fn planned_effect<E: Execution>(
    execution: &E,
    instr: &Instr,
    size: u8,
    regs: &Regs,
    control: &Control,
    mem: &PhysMem,
    tlb: &mut Tlb,
) -> Result<Effect, Fault>
    requires formed { IsWellFormed instr.now }
    requires context { IsAccessible (length mem.now) control.now.root tlb.old }
    ensures outcome { outcome_of result tlb.new
        ≡ planned_effect (E.form execution.now) instr.now size regs.now control.now mem.now
        (view_of mem.now control.now regs.now.cpl) tlb.old }
    ensures frames { NamesFramesIn (length mem.now) tlb.new }
    ensures places { IfOk result (λ effect. FitsIn (length mem.now) effect.write) }
    ensures sized { IfOk result (λ effect. HasAccessSize effect.write) }
{
    let plan = execution.plan(instr, size, regs);
    let found = match E::gather(mem, tlb, control, regs.cpl, &plan) {
        Ok(found) => found,
        Err(fault) => return Err(raised(fault)),
    };
    let next = next_of(regs, size);
    let outcome = execution.outcome(instr, next, regs, control, mem.frames(), &found);
    conclude::<E>(mem, tlb, control, regs.cpl, &plan, &found, outcome)
}

/// The outcome's fault, or its change once its write is checked.
fn conclude<E: Execution>(
    mem: &PhysMem,
    tlb: &mut Tlb,
    control: &Control,
    cpl: u8,
    plan: &AccessPlan,
    found: &Gathered,
    outcome: Result<Change, Fault>,
) -> Result<Effect, Fault>
    requires plan { IsAccessPlan plan.now }
    requires both { IsChecked (length mem.now) plan.now.both found.now.both }
    requires context { IsAccessible (length mem.now) control.now.root tlb.old }
    ensures outcome { outcome_of result tlb.new
        ≡ concluded (view_of mem.now control.now cpl) plan.now found.now outcome tlb.old }
    ensures frames { NamesFramesIn (length mem.now) tlb.new }
    ensures places { IfOk result (λ effect. FitsIn (length mem.now) effect.write) }
    ensures sized { IfOk result (λ effect. HasAccessSize effect.write) }
{
    let change = match outcome {
        Ok(change) => change,
        Err(fault) => return Err(fault),
    };
    let last = match E::check(mem, tlb, control, cpl, plan.last) {
        Ok(last) => last,
        Err(fault) => return Err(raised(fault)),
    };
    Ok(Effect {
        regs: change.regs,
        write: write_of(plan, found, last, change.value),
        act: change.act,
    })
}
