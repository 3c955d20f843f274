//! Kinds over registers alone: they are always made.

ghost use Rattle.std.specs.Prelude.{◌≡◌, ◌<◌, true, false};
ghost use Rattle.decode_fields.specs.Widths.{IsWidth};
ghost use Rattle.x86_regs.specs.declared.form.Form.TheVariants.{Data};
ghost use Rattle.x86_regs.specs.declared.form.DataForm.TheVariants as DataForm;
ghost use Rattle.exec_quick.specs.declared.quick.Kind.TheVariants as Kind;
ghost use Rattle.exec_quick.specs.QuickForms.{IsQuick, effect_made, is_left, next_address, quiet_outcome, went};

use crate::operands::{address, first_register, next_address, put_result, source};
use crate::quick::{Quick, Went};
use crate::running::Running;
use decode_fields::Place;
use nk_bits::Control;
use phys_mem::PhysMem;
use tlb_model::Tlb;
use x86_decode::Op;
use x86_regs::{low, set_place, source_width};

/// ADD and all that writes its first operand by both.
#[inline]
#[tactic(auto, unfolding(page_walk::specs::AccessPlans::gathered))]
pub(crate) fn combine(
    quick: &Quick,
    op: Op,
    width: u8,
    at: u64,
    regs: &mut Running,
    control: &Control,
    mem: &mut PhysMem,
    tlb: &Tlb,
) -> Went
    requires ready { IsQuick quick.now }
    requires width { IsWidth width }
    requires register { quick.now.to < 16 }
    ensures made { is_left result ≡ false
        → quiet_outcome (went result (next_address at quick.now.size) regs.new) mem.new tlb.now
        ≡ effect_made (Data DataForm.Combine)
        (record quick.now { kind = Kind.Combine; op = op; width = width })
        (record regs.old { rip = at }) control.now mem.old tlb.now }
    ensures left { is_left result ≡ true → (regs.new ≡ regs.old) × (mem.new ≡ mem.old) }
    ensures memory { mem.new ≡ mem.old }
    ensures privilege { regs.new.cpl ≡ regs.old.cpl }
{
    let to = first_register(quick, width, at, regs);
    let bits = source_width(op, width);
    let from = source(quick, bits, at, regs);
    let value = regs.combine(op, width, to, from, quick.value);
    put_result(quick, width, value, regs);
    Went::On
}

/// CMP, TEST and BT.
#[inline]
#[tactic(auto, unfolding(page_walk::specs::AccessPlans::gathered))]
pub(crate) fn compare(
    quick: &Quick,
    op: Op,
    width: u8,
    at: u64,
    regs: &mut Running,
    control: &Control,
    mem: &mut PhysMem,
    tlb: &Tlb,
) -> Went
    requires ready { IsQuick quick.now }
    requires width { IsWidth width }
    requires register { quick.now.to < 16 }
    ensures made { is_left result ≡ false
        → quiet_outcome (went result (next_address at quick.now.size) regs.new) mem.new tlb.now
        ≡ effect_made (Data DataForm.Compare)
        (record quick.now { kind = Kind.Compare; op = op; width = width })
        (record regs.old { rip = at }) control.now mem.old tlb.now }
    ensures left { is_left result ≡ true → (regs.new ≡ regs.old) × (mem.new ≡ mem.old) }
    ensures memory { mem.new ≡ mem.old }
    ensures privilege { regs.new.cpl ≡ regs.old.cpl }
{
    let to = first_register(quick, width, at, regs);
    let from = source(quick, width, at, regs);
    regs.compare(op, width, to, from);
    Went::On
}

/// MOV and its kin, and SETcc.
#[inline]
#[tactic(auto, unfolding(page_walk::specs::AccessPlans::gathered))]
pub(crate) fn move_over(
    quick: &Quick,
    op: Op,
    width: u8,
    at: u64,
    regs: &mut Running,
    control: &Control,
    mem: &mut PhysMem,
    tlb: &Tlb,
) -> Went
    requires ready { IsQuick quick.now }
    requires width { IsWidth width }
    requires register { quick.now.to < 16 }
    ensures made { is_left result ≡ false
        → quiet_outcome (went result (next_address at quick.now.size) regs.new) mem.new tlb.now
        ≡ effect_made (Data DataForm.Move)
        (record quick.now { kind = Kind.Move; op = op; width = width })
        (record regs.old { rip = at }) control.now mem.old tlb.now }
    ensures left { is_left result ≡ true → (regs.new ≡ regs.old) × (mem.new ≡ mem.old) }
    ensures memory { mem.new ≡ mem.old }
    ensures privilege { regs.new.cpl ≡ regs.old.cpl }
{
    let bits = source_width(op, width);
    let from = source(quick, bits, at, regs);
    let value = regs.flags.movement(op, width, from);
    set_place(&mut regs.general, &Place::Reg(quick.to), width, value);
    Went::On
}

/// LEA.
#[inline]
#[tactic(auto, unfolding(page_walk::specs::AccessPlans::gathered))]
pub(crate) fn load_address(
    quick: &Quick,
    at: u64,
    regs: &mut Running,
    control: &Control,
    mem: &mut PhysMem,
    tlb: &Tlb,
) -> Went
    requires ready { IsQuick quick.now }
    requires kind { quick.now.kind ≡ Kind.Address }
    requires register { quick.now.to < 16 }
    ensures made { is_left result ≡ false
        → quiet_outcome (went result (next_address at quick.now.size) regs.new) mem.new tlb.now
        ≡ effect_made (Data DataForm.Address) quick.now (record regs.old { rip = at }) control.now mem.old tlb.now }
    ensures left { is_left result ≡ true → (regs.new ≡ regs.old) × (mem.new ≡ mem.old) }
    ensures memory { mem.new ≡ mem.old }
    ensures privilege { regs.new.cpl ≡ regs.old.cpl }
{
    let next = next_address(quick, at);
    let value = low(quick.width, address(quick, &regs.general, next));
    set_place(&mut regs.general, &Place::Reg(quick.to), quick.width, value);
    Went::On
}
