//! Kinds without an operand, over registers and flags alone.

ghost use Rattle.std.specs.Prelude.{◌≡◌, ◌-◌, ◌^◌, if◌then◌else◌, true, false};
ghost use Rattle.decode_fields.specs.Widths.{IsWidth};
ghost use Rattle.x86_alu.specs.SignedNumbers.{cut, sign};
ghost use Rattle.x86_regs.specs.declared.form.Form.TheVariants.{Data};
ghost use Rattle.x86_regs.specs.declared.form.DataForm.TheVariants as DataForm;
ghost use Rattle.exec_quick.specs.declared.quick.Kind.TheVariants as Kind;
ghost use Rattle.exec_quick.specs.QuickForms.{IsQuick, effect_made, is_left, next_address, quiet_outcome, went};

use crate::quick::{Quick, Went};
use crate::running::Running;
use decode_fields::Place;
use nk_bits::Control;
use phys_mem::PhysMem;
use tlb_model::Tlb;
use x86_regs::{RAX, RDX, extended, flags_changed, low, ones, set_place, sign, source_width};

/// NOP.
#[inline(always)]
#[tactic(auto, unfolding(page_walk::specs::AccessPlans::gathered))]
pub(crate) fn nothing(
    quick: &Quick,
    at: u64,
    regs: &mut Running,
    control: &Control,
    mem: &mut PhysMem,
    tlb: &Tlb,
) -> Went
    requires ready { IsQuick quick.now }
    requires kind { quick.now.kind ≡ Kind.Nothing }
    ensures made { is_left result ≡ false
        → quiet_outcome (went result (next_address at quick.now.size) regs.new) mem.new tlb.now
        ≡ effect_made (Data DataForm.Nothing) quick.now (record regs.old { rip = at }) control.now mem.old tlb.now }
    ensures left { is_left result ≡ true → (regs.new ≡ regs.old) × (mem.new ≡ mem.old) }
    ensures memory { mem.new ≡ mem.old }
    ensures privilege { regs.new.cpl ≡ regs.old.cpl }
{
    Went::On
}

/// CBW, CWDE and CDQE.
#[inline(always)]
#[tactic(auto, unfolding(page_walk::specs::AccessPlans::gathered))]
pub(crate) fn widen(
    quick: &Quick,
    at: u64,
    regs: &mut Running,
    control: &Control,
    mem: &mut PhysMem,
    tlb: &Tlb,
) -> Went
    requires ready { IsQuick quick.now }
    requires kind { quick.now.kind ≡ Kind.Widen }
    ensures made { is_left result ≡ false
        → quiet_outcome (went result (next_address at quick.now.size) regs.new) mem.new tlb.now
        ≡ effect_made (Data DataForm.Widen) quick.now (record regs.old { rip = at }) control.now mem.old tlb.now }
    ensures left { is_left result ≡ true → (regs.new ≡ regs.old) × (mem.new ≡ mem.old) }
    ensures memory { mem.new ≡ mem.old }
    ensures privilege { regs.new.cpl ≡ regs.old.cpl }
{
    let width = source_width(quick.op, quick.width);
    let number = low(width, regs.general[usize::from(RAX)]);
    let value = extended(width, quick.width, number);
    set_place(&mut regs.general, &Place::Reg(RAX), quick.width, value);
    Went::On
}

/// CWD, CDQ and CQO.
#[inline(always)]
#[tactic(auto, unfolding(page_walk::specs::AccessPlans::gathered))]
pub(crate) fn double(
    quick: &Quick,
    at: u64,
    regs: &mut Running,
    control: &Control,
    mem: &mut PhysMem,
    tlb: &Tlb,
) -> Went
    requires ready { IsQuick quick.now }
    requires kind { quick.now.kind ≡ Kind.Double }
    ensures made { is_left result ≡ false
        → quiet_outcome (went result (next_address at quick.now.size) regs.new) mem.new tlb.now
        ≡ effect_made (Data DataForm.Double) quick.now (record regs.old { rip = at }) control.now mem.old tlb.now }
    ensures left { is_left result ≡ true → (regs.new ≡ regs.old) × (mem.new ≡ mem.old) }
    ensures memory { mem.new ≡ mem.old }
    ensures privilege { regs.new.cpl ≡ regs.old.cpl }
{
    let value = signs(quick.width, regs.general[usize::from(RAX)]);
    set_place(&mut regs.general, &Place::Reg(RDX), quick.width, value);
    Went::On
}

/// The sign of a number's low bits, as many as the width, at each of as many places.
#[inline(always)]
fn signs(width: u8, number: u64) -> u64
    requires { IsWidth width }
    ensures { result ≡ (if sign width (cut width number) then 2 ^ width - 1 else 0) }
{
    if sign(width, low(width, number)) {
        ones(width)
    } else {
        0
    }
}

/// CMC, CLC, STC, CLD and STD.
#[inline(always)]
#[tactic(auto, unfolding(page_walk::specs::AccessPlans::gathered))]
pub(crate) fn change_flag(
    quick: &Quick,
    at: u64,
    regs: &mut Running,
    control: &Control,
    mem: &mut PhysMem,
    tlb: &Tlb,
) -> Went
    requires ready { IsQuick quick.now }
    requires kind { quick.now.kind ≡ Kind.ChangeFlag }
    ensures made { is_left result ≡ false
        → quiet_outcome (went result (next_address at quick.now.size) regs.new) mem.new tlb.now
        ≡ effect_made (Data DataForm.ChangeFlag) quick.now (record regs.old { rip = at }) control.now mem.old tlb.now }
    ensures left { is_left result ≡ true → (regs.new ≡ regs.old) × (mem.new ≡ mem.old) }
    ensures memory { mem.new ≡ mem.old }
    ensures privilege { regs.new.cpl ≡ regs.old.cpl }
{
    let flags = flags_changed(quick.op, regs.flags.word());
    regs.flags.put(flags);
    Went::On
}
