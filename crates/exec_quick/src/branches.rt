//! Branches, which change RIP alone, or count down before: they are made where their target is canonical.

ghost use Rattle.std.specs.Prelude.{◌≡◌, true, false, length};
ghost use Rattle.nk_bits.specs.Translations.{NamesFramesIn};
ghost use Rattle.x86_regs.specs.declared.form.Form.TheVariants.{Flow};
ghost use Rattle.x86_regs.specs.declared.form.FlowForm.TheVariants as FlowForm;
ghost use Rattle.exec_quick.specs.declared.quick.Kind.TheVariants as Kind;
ghost use Rattle.page_walk.specs.declared.plan.Origin.TheVariants.{Is};
ghost use Rattle.x86_regs.specs.OperandOutcomes.{target_by};
ghost use Rattle.x86_regs.specs.Operands.{source_by};
ghost use Rattle.mem_access.specs.Windows.{IsWindow};
ghost use Rattle.exec_quick.specs.QuickForms.{AreSameOnPages, IsQuick, effect_made, is_left, next_address, operand_of, operand_value, quiet_outcome, went};

use crate::kept::load;
use crate::operands::{address, next_address};
use crate::quick::{Quick, Went};
use crate::running::Running;
use mem_access::Window;
use nk_bits::{Control, canonical};
use phys_mem::PhysMem;
use tlb_model::Tlb;
use x86_decode::Op;
use x86_regs::{count_by, count_taken};

/// A branch's target: a displacement from the next instruction, or what a register holds.
#[inline(always)]
pub(crate) fn target(quick: &Quick, next: u64, general: &[u64; 16]) -> u64
    requires ready { IsQuick quick.now }
    ensures source { source_by general.now next 64 quick.now.value (operand_of quick.now.from)
        ≡ Is (operand_value quick.now.from quick.now.value general.now 64) }
    ensures target { result ≡ target_by (operand_of quick.now.from) next
        (operand_value quick.now.from quick.now.value general.now 64) }
{
    if quick.from == 16 {
        next.wrapping_add(quick.value)
    } else if quick.from < 16 {
        general[usize::from(quick.from)]
    } else if quick.from == 17 {
        0
    } else {
        general[usize::from(quick.from - 18)] >> 8 & 0xFF
    }
}

/// Jcc and JMP.
#[inline]
#[tactic(auto, unfolding(page_walk::specs::AccessPlans::gathered))]
pub(crate) fn branch(
    quick: &Quick,
    op: Op,
    at: u64,
    regs: &mut Running,
    control: &Control,
    mem: &mut PhysMem,
    tlb: &Tlb,
) -> Went
    requires ready { IsQuick quick.now }
    ensures made { is_left result ≡ false
        → quiet_outcome (went result (next_address at quick.now.size) regs.new) mem.new tlb.now
        ≡ effect_made (Flow FlowForm.Branch)
        (record quick.now { kind = Kind.Branch; op = op }) (record regs.old { rip = at }) control.now mem.old tlb.now }
    ensures left { is_left result ≡ true → (regs.new ≡ regs.old) × (mem.new ≡ mem.old) }
    ensures memory { mem.new ≡ mem.old }
    ensures privilege { regs.new.cpl ≡ regs.old.cpl }
{
    let next = next_address(quick, at);
    if !regs.flags.is_taken(op) {
        return Went::On;
    }
    let target = target(quick, next, &regs.general);
    if !canonical(target) {
        return Went::Left;
    }
    regs.rip = target;
    Went::Off
}

/// JMP to an address in memory. No jump with a condition has one.
#[inline(never)]
#[tactic(auto, unfolding(page_walk::specs::AccessPlans::gathered))]
pub(crate) fn branch_load(
    quick: &Quick,
    at: u64,
    regs: &mut Running,
    control: &Control,
    mem: &mut PhysMem,
    tlb: &Tlb,
    window: &mut Window,
) -> Went
    requires ready { IsQuick quick.now }
    requires kind { quick.now.kind ≡ Kind.BranchLoad }
    requires frames { NamesFramesIn (length mem.old) tlb.now }
    requires window { IsWindow (length mem.old) control.now regs.old.cpl tlb.now window.old }
    ensures window { IsWindow (length mem.old) control.now regs.old.cpl tlb.now window.new }
    ensures made { is_left result ≡ false
        → quiet_outcome (went result (next_address at quick.now.size) regs.new) mem.new tlb.now
        ≡ effect_made (Flow FlowForm.Branch) quick.now (record regs.old { rip = at }) control.now mem.old tlb.now }
    ensures left { is_left result ≡ true → (regs.new ≡ regs.old) × (mem.new ≡ mem.old) }
    ensures off { window.new.off ≡ window.old.off }
    ensures code { AreSameOnPages window.old.off mem.old mem.new }
    ensures length { length mem.new ≡ length mem.old }
    ensures privilege { regs.new.cpl ≡ regs.old.cpl }
{
    if !regs.flags.is_taken(quick.op) {
        return Went::Left;
    }
    let next = next_address(quick, at);
    let va = address(quick, &regs.general, next);
    let Some(place) = window.readable(mem, tlb, control, regs.cpl, va, 8) else {
        return Went::Left;
    };
    let target = load(mem, place, va, 8);
    if !canonical(target) {
        return Went::Left;
    }
    regs.rip = target;
    Went::Off
}

/// LOOP, LOOPE, LOOPNE and JRCXZ, which count RCX down but for JRCXZ.
#[inline]
#[tactic(auto, unfolding(page_walk::specs::AccessPlans::gathered))]
pub(crate) fn count_down(
    quick: &Quick,
    op: Op,
    at: u64,
    regs: &mut Running,
    control: &Control,
    mem: &mut PhysMem,
    tlb: &Tlb,
) -> Went
    requires ready { IsQuick quick.now }
    ensures made { is_left result ≡ false
        → quiet_outcome (went result (next_address at quick.now.size) regs.new) mem.new tlb.now
        ≡ effect_made (Flow FlowForm.CountDown)
        (record quick.now { kind = Kind.CountDown; op = op }) (record regs.old { rip = at }) control.now mem.old tlb.now }
    ensures left { is_left result ≡ true → (regs.new ≡ regs.old) × (mem.new ≡ mem.old) }
    ensures memory { mem.new ≡ mem.old }
    ensures privilege { regs.new.cpl ≡ regs.old.cpl }
{
    let next = next_address(quick, at);
    let count = count_by(op, &regs.general);
    let rip = if count_taken(op, count, regs.flags.is_zero()) {
        next.wrapping_add(quick.value)
    } else {
        next
    };
    if !canonical(rip) {
        return Went::Left;
    }
    regs.set_count(op, count);
    regs.rip = rip;
    Went::Off
}
