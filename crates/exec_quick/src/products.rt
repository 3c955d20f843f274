//! Products and quotients of twice the width: a quotient is made where its divisor isn't 0 and it fits.

ghost use Rattle.std.specs.Prelude.{◌≡◌, true, false, length};
ghost use Rattle.nk_bits.specs.Translations.{NamesFramesIn};
ghost use Rattle.x86_alu.specs.SignedNumbers.{cut};
ghost use Rattle.x86_regs.specs.declared.form.Form.TheVariants.{Data};
ghost use Rattle.x86_regs.specs.declared.form.DataForm.TheVariants as DataForm;
ghost use Rattle.x86_regs.specs.OperandOutcomes.{divided, is_signed, multiplied_wide, quietly};
ghost use Rattle.exec_quick.specs.declared.quick.Kind.TheVariants as Kind;
ghost use Rattle.mem_access.specs.Windows.{IsWindow};
ghost use Rattle.exec_quick.specs.QuickForms.{AreSameOnPages, IsQuick, effect_made, instruction_of, is_left, next_address, quiet_outcome, went, width_by};

use crate::kept::load;
use crate::operands::{address, first, next_address};
use crate::quick::{Quick, Went};
use crate::running::Running;
use mem_access::Window;
use nk_bits::Control;
use phys_mem::PhysMem;
use tlb_model::Tlb;
use x86_regs::{RAX, is_signed, set_halves, upper_half};

/// The accumulator times a number, into both halves, with CF and OF.
#[inline(always)]
fn multiply_by(quick: &Quick, at: u64, regs: &mut Running, by: u64)
    requires ready { IsQuick quick.now }
    requires width { width_by quick.now.kind quick.now.width ≡ quick.now.width }
    ensures product { quietly (record regs.new { rip = next_address at quick.now.size })
        ≡ multiplied_wide (instruction_of quick.now) (record regs.old { rip = at }) (next_address at quick.now.size)
        (is_signed quick.now.op) (cut quick.now.width by) }
    ensures privilege { regs.new.cpl ≡ regs.old.cpl }
{
    let signed = is_signed(quick.op);
    let flags = regs.flags.word();
    let accumulator = regs.general[usize::from(RAX)];
    let low = x86_alu::multiply(signed, false, quick.width, accumulator, by, flags);
    let high = x86_alu::multiply(signed, true, quick.width, accumulator, by, flags);
    set_halves(&mut regs.general, quick.width, low.value, high.value);
    regs.flags.put(low.flags);
}

/// Both halves by a number, into quotient and remainder; where the number is 0 or the
/// quotient doesn't fit, nothing.
#[inline(always)]
fn divide_by(quick: &Quick, at: u64, regs: &mut Running, by: u64) -> Went
    requires ready { IsQuick quick.now }
    requires width { width_by quick.now.kind quick.now.width ≡ quick.now.width }
    ensures quotient { is_left result ≡ false
        → quietly (went result (next_address at quick.now.size) regs.new)
        ≡ divided (instruction_of quick.now) (record regs.old { rip = at }) (next_address at quick.now.size)
        (is_signed quick.now.op) (cut quick.now.width by) }
    ensures left { is_left result ≡ true → regs.new ≡ regs.old }
    ensures privilege { regs.new.cpl ≡ regs.old.cpl }
{
    let signed = is_signed(quick.op);
    let high = upper_half(&regs.general, quick.width);
    let low = regs.general[usize::from(RAX)];
    let Ok(it) = x86_alu::divide(signed, quick.width, high, low, by) else {
        return Went::Left;
    };
    set_halves(&mut regs.general, quick.width, it.value, it.rest);
    Went::On
}

/// MUL, and IMUL of one operand.
#[inline(always)]
#[tactic(auto, unfolding(page_walk::specs::AccessPlans::gathered))]
pub(crate) fn multiply(
    quick: &Quick,
    at: u64,
    regs: &mut Running,
    control: &Control,
    mem: &mut PhysMem,
    tlb: &Tlb,
) -> Went
    requires ready { IsQuick quick.now }
    requires kind { quick.now.kind ≡ Kind.Multiply }
    ensures made { is_left result ≡ false
        → quiet_outcome (went result (next_address at quick.now.size) regs.new) mem.new tlb.now
        ≡ effect_made (Data DataForm.Multiply) quick.now (record regs.old { rip = at }) control.now mem.old tlb.now }
    ensures left { is_left result ≡ true → (regs.new ≡ regs.old) × (mem.new ≡ mem.old) }
    ensures memory { mem.new ≡ mem.old }
    ensures privilege { regs.new.cpl ≡ regs.old.cpl }
{
    let by = first(quick, quick.width, at, regs);
    multiply_by(quick, at, regs, by);
    Went::On
}

/// The same by a number in memory.
#[inline(always)]
#[tactic(auto, unfolding(page_walk::specs::AccessPlans::gathered))]
pub(crate) fn multiply_load(
    quick: &Quick,
    at: u64,
    regs: &mut Running,
    control: &Control,
    mem: &mut PhysMem,
    tlb: &Tlb,
    window: &mut Window,
) -> Went
    requires ready { IsQuick quick.now }
    requires kind { quick.now.kind ≡ Kind.MultiplyLoad }
    requires frames { NamesFramesIn (length mem.old) tlb.now }
    requires window { IsWindow (length mem.old) control.now regs.old.cpl tlb.now window.old }
    ensures window { IsWindow (length mem.old) control.now regs.old.cpl tlb.now window.new }
    ensures made { is_left result ≡ false
        → quiet_outcome (went result (next_address at quick.now.size) regs.new) mem.new tlb.now
        ≡ effect_made (Data DataForm.Multiply) quick.now (record regs.old { rip = at }) control.now mem.old tlb.now }
    ensures left { is_left result ≡ true → (regs.new ≡ regs.old) × (mem.new ≡ mem.old) }
    ensures off { window.new.off ≡ window.old.off }
    ensures code { AreSameOnPages window.old.off mem.old mem.new }
    ensures length { length mem.new ≡ length mem.old }
    ensures privilege { regs.new.cpl ≡ regs.old.cpl }
{
    let next = next_address(quick, at);
    let bytes = quick.width / 8;
    let va = address(quick, &regs.general, next);
    let Some(place) = window.readable(mem, tlb, control, regs.cpl, va, bytes) else {
        return Went::Left;
    };
    let by = load(mem, place, va, bytes);
    multiply_by(quick, at, regs, by);
    Went::On
}

/// DIV and IDIV.
#[inline(always)]
#[tactic(auto, unfolding(page_walk::specs::AccessPlans::gathered))]
pub(crate) fn divide(
    quick: &Quick,
    at: u64,
    regs: &mut Running,
    control: &Control,
    mem: &mut PhysMem,
    tlb: &Tlb,
) -> Went
    requires ready { IsQuick quick.now }
    requires kind { quick.now.kind ≡ Kind.Divide }
    ensures made { is_left result ≡ false
        → quiet_outcome (went result (next_address at quick.now.size) regs.new) mem.new tlb.now
        ≡ effect_made (Data DataForm.Divide) quick.now (record regs.old { rip = at }) control.now mem.old tlb.now }
    ensures left { is_left result ≡ true → (regs.new ≡ regs.old) × (mem.new ≡ mem.old) }
    ensures memory { mem.new ≡ mem.old }
    ensures privilege { regs.new.cpl ≡ regs.old.cpl }
{
    let by = first(quick, quick.width, at, regs);
    divide_by(quick, at, regs, by)
}

/// The same by a number in memory.
#[inline(always)]
#[tactic(auto, unfolding(page_walk::specs::AccessPlans::gathered))]
pub(crate) fn divide_load(
    quick: &Quick,
    at: u64,
    regs: &mut Running,
    control: &Control,
    mem: &mut PhysMem,
    tlb: &Tlb,
    window: &mut Window,
) -> Went
    requires ready { IsQuick quick.now }
    requires kind { quick.now.kind ≡ Kind.DivideLoad }
    requires frames { NamesFramesIn (length mem.old) tlb.now }
    requires window { IsWindow (length mem.old) control.now regs.old.cpl tlb.now window.old }
    ensures window { IsWindow (length mem.old) control.now regs.old.cpl tlb.now window.new }
    ensures made { is_left result ≡ false
        → quiet_outcome (went result (next_address at quick.now.size) regs.new) mem.new tlb.now
        ≡ effect_made (Data DataForm.Divide) quick.now (record regs.old { rip = at }) control.now mem.old tlb.now }
    ensures left { is_left result ≡ true → (regs.new ≡ regs.old) × (mem.new ≡ mem.old) }
    ensures off { window.new.off ≡ window.old.off }
    ensures code { AreSameOnPages window.old.off mem.old mem.new }
    ensures length { length mem.new ≡ length mem.old }
    ensures privilege { regs.new.cpl ≡ regs.old.cpl }
{
    let next = next_address(quick, at);
    let bytes = quick.width / 8;
    let va = address(quick, &regs.general, next);
    let Some(place) = window.readable(mem, tlb, control, regs.cpl, va, bytes) else {
        return Went::Left;
    };
    let by = load(mem, place, va, bytes);
    divide_by(quick, at, regs, by)
}
