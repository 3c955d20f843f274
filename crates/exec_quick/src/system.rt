//! Kinds of the supervisor alone: the flags as a whole, IF, and control registers that are read. They are made at CPL 0.

ghost use Rattle.std.specs.Prelude.{◌≡◌, ◌<◌, true, false, length};
ghost use Rattle.nk_bits.specs.Translations.{NamesFramesIn};
ghost use Rattle.x86_regs.specs.declared.form.Form.TheVariants.{Flow};
ghost use Rattle.x86_regs.specs.declared.form.FlowForm.TheVariants as FlowForm;
ghost use Rattle.exec_quick.specs.declared.quick.Kind.TheVariants as Kind;
ghost use Rattle.mem_access.specs.Windows.{IsWindow};
ghost use Rattle.exec_quick.specs.QuickForms.{AreSameOnPages, IsQuick, effect_made, is_left, next_address, quiet_outcome, went};

use crate::kept::{load, store};
use crate::quick::{Quick, Went};
use crate::running::Running;
use decode_fields::Place;
use mem_access::Window;
use nk_bits::Control;
use phys_mem::PhysMem;
use tlb_model::Tlb;
use x86_alu::with_flag;
use x86_regs::{IF, RSP, control_value, flags_popped, low, lowered, set_place, set_register};

/// PUSHFQ.
#[inline(never)]
#[tactic(auto, unfolding(page_walk::specs::AccessPlans::gathered))]
pub(crate) fn push_flags(
    quick: &Quick,
    at: u64,
    regs: &mut Running,
    control: &Control,
    mem: &mut PhysMem,
    tlb: &Tlb,
    window: &mut Window,
) -> Went
    requires ready { IsQuick quick.now }
    requires kind { quick.now.kind ≡ Kind.PushFlags }
    requires frames { NamesFramesIn (length mem.old) tlb.now }
    requires window { IsWindow (length mem.old) control.now regs.old.cpl tlb.now window.old }
    ensures window { IsWindow (length mem.old) control.now regs.old.cpl tlb.now window.new }
    ensures supervisor { is_left result ≡ false → regs.old.cpl ≡ 0 }
    ensures made { is_left result ≡ false
        → quiet_outcome (went result (next_address at quick.now.size) regs.new) mem.new tlb.now
        ≡ effect_made (Flow FlowForm.PushFlags) quick.now (record regs.old { rip = at }) control.now mem.old tlb.now }
    ensures left { is_left result ≡ true → (regs.new ≡ regs.old) × (mem.new ≡ mem.old) }
    ensures off { window.new.off ≡ window.old.off }
    ensures code { AreSameOnPages window.old.off mem.old mem.new }
    ensures length { length mem.new ≡ length mem.old }
    ensures privilege { regs.new.cpl ≡ regs.old.cpl }
{
    if regs.cpl != 0 {
        return Went::Left;
    }
    let bytes = quick.width / 8;
    let top = lowered(regs.general[usize::from(RSP)], u64::from(bytes));
    let Some(place) = window.writable(mem, tlb, control, regs.cpl, top, bytes) else {
        return Went::Left;
    };
    let flags = low(quick.width, regs.flags.word());
    store(mem, window, place, top, bytes, flags);
    set_register(&mut regs.general, RSP, top);
    Went::On
}

/// POPFQ.
#[inline(never)]
#[tactic(auto, unfolding(page_walk::specs::AccessPlans::gathered))]
pub(crate) fn pop_flags(
    quick: &Quick,
    at: u64,
    regs: &mut Running,
    control: &Control,
    mem: &mut PhysMem,
    tlb: &Tlb,
    window: &mut Window,
) -> Went
    requires ready { IsQuick quick.now }
    requires kind { quick.now.kind ≡ Kind.PopFlags }
    requires frames { NamesFramesIn (length mem.old) tlb.now }
    requires window { IsWindow (length mem.old) control.now regs.old.cpl tlb.now window.old }
    ensures window { IsWindow (length mem.old) control.now regs.old.cpl tlb.now window.new }
    ensures supervisor { is_left result ≡ false → regs.old.cpl ≡ 0 }
    ensures made { is_left result ≡ false
        → quiet_outcome (went result (next_address at quick.now.size) regs.new) mem.new tlb.now
        ≡ effect_made (Flow FlowForm.PopFlags) quick.now (record regs.old { rip = at }) control.now mem.old tlb.now }
    ensures left { is_left result ≡ true → (regs.new ≡ regs.old) × (mem.new ≡ mem.old) }
    ensures off { window.new.off ≡ window.old.off }
    ensures code { AreSameOnPages window.old.off mem.old mem.new }
    ensures length { length mem.new ≡ length mem.old }
    ensures privilege { regs.new.cpl ≡ regs.old.cpl }
{
    if regs.cpl != 0 {
        return Went::Left;
    }
    let bytes = quick.width / 8;
    let top = regs.general[usize::from(RSP)];
    let Some(place) = window.readable(mem, tlb, control, regs.cpl, top, bytes) else {
        return Went::Left;
    };
    let popped = low(quick.width, load(mem, place, top, bytes));
    let flags = flags_popped(regs.cpl, regs.flags.word(), popped);
    regs.flags.put(flags);
    set_register(&mut regs.general, RSP, top.wrapping_add(u64::from(bytes)));
    Went::On
}

/// CLI.
#[inline(never)]
#[tactic(auto, unfolding(page_walk::specs::AccessPlans::gathered))]
pub(crate) fn clear_interrupts(
    quick: &Quick,
    at: u64,
    regs: &mut Running,
    control: &Control,
    mem: &mut PhysMem,
    tlb: &Tlb,
) -> Went
    requires ready { IsQuick quick.now }
    requires kind { quick.now.kind ≡ Kind.ClearInterrupts }
    ensures supervisor { is_left result ≡ false → regs.old.cpl ≡ 0 }
    ensures made { is_left result ≡ false
        → quiet_outcome (went result (next_address at quick.now.size) regs.new) mem.new tlb.now
        ≡ effect_made (Flow FlowForm.ChangeInterruptFlag) quick.now (record regs.old { rip = at }) control.now mem.old tlb.now }
    ensures left { is_left result ≡ true → (regs.new ≡ regs.old) × (mem.new ≡ mem.old) }
    ensures memory { mem.new ≡ mem.old }
    ensures privilege { regs.new.cpl ≡ regs.old.cpl }
{
    if regs.cpl != 0 {
        return Went::Left;
    }
    let flags = with_flag(regs.flags.word(), IF, false);
    regs.flags.put(flags);
    Went::On
}

/// MOV from a control register.
#[inline(never)]
#[tactic(auto, unfolding(page_walk::specs::AccessPlans::gathered))]
pub(crate) fn from_control(
    quick: &Quick,
    at: u64,
    regs: &mut Running,
    control: &Control,
    mem: &mut PhysMem,
    tlb: &Tlb,
) -> Went
    requires ready { IsQuick quick.now }
    requires kind { quick.now.kind ≡ Kind.FromControl }
    requires register { quick.now.to < 16 }
    ensures supervisor { is_left result ≡ false → regs.old.cpl ≡ 0 }
    ensures made { is_left result ≡ false
        → quiet_outcome (went result (next_address at quick.now.size) regs.new) mem.new tlb.now
        ≡ effect_made (Flow FlowForm.FromControl) quick.now (record regs.old { rip = at }) control.now mem.old tlb.now }
    ensures left { is_left result ≡ true → (regs.new ≡ regs.old) × (mem.new ≡ mem.old) }
    ensures memory { mem.new ≡ mem.old }
    ensures privilege { regs.new.cpl ≡ regs.old.cpl }
{
    if regs.cpl != 0 {
        return Went::Left;
    }
    let value = control_value(control, quick.value);
    set_place(&mut regs.general, &Place::Reg(quick.to), 64, value);
    Went::On
}
