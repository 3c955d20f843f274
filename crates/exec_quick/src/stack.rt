//! Kinds over the stack: they are made where its page is kept and serves them.

ghost use Rattle.std.specs.Prelude.{◌≡◌, ◌<◌, true, false, length};
ghost use Rattle.decode_fields.specs.Widths.{IsWidth};
ghost use Rattle.nk_bits.specs.Translations.{NamesFramesIn};
ghost use Rattle.x86_regs.specs.declared.form.Form.TheVariants.{Data, Flow};
ghost use Rattle.x86_regs.specs.declared.form.DataForm.TheVariants as DataForm;
ghost use Rattle.x86_regs.specs.declared.form.FlowForm.TheVariants as FlowForm;
ghost use Rattle.exec_quick.specs.declared.quick.Kind.TheVariants as Kind;
ghost use Rattle.page_walk.specs.declared.plan.Origin.TheVariants.{Is};
ghost use Rattle.x86_alu.specs.SignedNumbers.{cut};
ghost use Rattle.x86_regs.specs.Operands.{source_by};
ghost use Rattle.mem_access.specs.Windows.{IsWindow};
ghost use Rattle.exec_quick.specs.QuickForms.{AreSameOnPages, IsQuick, effect_made, is_left, next_address, operand_of, operand_value, quiet_outcome, went};

use crate::branches::target;
use crate::kept::{load, store};
use crate::operands::{address, next_address, operand};
use crate::quick::{Quick, Went};
use crate::running::Running;
use decode_fields::Place;
use mem_access::Window;
use nk_bits::{Control, canonical};
use phys_mem::PhysMem;
use tlb_model::Tlb;
use x86_regs::{RBP, RSP, low, lowered, set_place, set_register};

/// The number that a push puts on the stack.
#[inline(always)]
fn pushed(quick: &Quick, width: u8, at: u64, regs: &Running) -> u64
    requires ready { IsQuick quick.now }
    requires width { IsWidth width }
    ensures source { source_by regs.now.general (next_address at quick.now.size) width quick.now.value
        (operand_of quick.now.from)
        ≡ Is (operand_value quick.now.from quick.now.value regs.now.general width) }
    ensures value { result ≡ cut width (operand_value quick.now.from quick.now.value regs.now.general width) }
{
    low(width, operand(quick.from, quick.value, &regs.general))
}

/// PUSH of a register or a number, which is read before RSP falls.
#[inline]
#[tactic(auto, unfolding(page_walk::specs::AccessPlans::gathered))]
pub(crate) fn push(
    quick: &Quick,
    width: u8,
    at: u64,
    regs: &mut Running,
    control: &Control,
    mem: &mut PhysMem,
    tlb: &Tlb,
    window: &mut Window,
) -> Went
    requires width { IsWidth width }
    requires ready { IsQuick quick.now }
    requires frames { NamesFramesIn (length mem.old) tlb.now }
    requires window { IsWindow (length mem.old) control.now regs.old.cpl tlb.now window.old }
    ensures window { IsWindow (length mem.old) control.now regs.old.cpl tlb.now window.new }
    ensures made { is_left result ≡ false
        → quiet_outcome (went result (next_address at quick.now.size) regs.new) mem.new tlb.now
        ≡ effect_made (Data DataForm.Push) (record quick.now { kind = Kind.Push; width = width })
        (record regs.old { rip = at }) control.now mem.old tlb.now }
    ensures left { is_left result ≡ true → (regs.new ≡ regs.old) × (mem.new ≡ mem.old) }
    ensures off { window.new.off ≡ window.old.off }
    ensures code { AreSameOnPages window.old.off mem.old mem.new }
    ensures length { length mem.new ≡ length mem.old }
    ensures privilege { regs.new.cpl ≡ regs.old.cpl }
{
    let bytes = width / 8;
    let top = lowered(regs.general[usize::from(RSP)], u64::from(bytes));
    let Some(place) = window.writable(mem, tlb, control, regs.cpl, top, bytes) else {
        return Went::Left;
    };
    let value = pushed(quick, width, at, regs);
    store(mem, window, place, top, bytes, value);
    set_register(&mut regs.general, RSP, top);
    Went::On
}

/// PUSH of memory.
#[inline(never)]
#[tactic(auto, unfolding(page_walk::specs::AccessPlans::gathered))]
pub(crate) fn push_load(
    quick: &Quick,
    at: u64,
    regs: &mut Running,
    control: &Control,
    mem: &mut PhysMem,
    tlb: &Tlb,
    window: &mut Window,
) -> Went
    requires ready { IsQuick quick.now }
    requires kind { quick.now.kind ≡ Kind.PushLoad }
    requires frames { NamesFramesIn (length mem.old) tlb.now }
    requires window { IsWindow (length mem.old) control.now regs.old.cpl tlb.now window.old }
    ensures window { IsWindow (length mem.old) control.now regs.old.cpl tlb.now window.new }
    ensures made { is_left result ≡ false
        → quiet_outcome (went result (next_address at quick.now.size) regs.new) mem.new tlb.now
        ≡ effect_made (Data DataForm.Push) quick.now (record regs.old { rip = at }) control.now mem.old tlb.now }
    ensures left { is_left result ≡ true → (regs.new ≡ regs.old) × (mem.new ≡ mem.old) }
    ensures off { window.new.off ≡ window.old.off }
    ensures code { AreSameOnPages window.old.off mem.old mem.new }
    ensures length { length mem.new ≡ length mem.old }
    ensures privilege { regs.new.cpl ≡ regs.old.cpl }
{
    let next = next_address(quick, at);
    let bytes = quick.width / 8;
    let va = address(quick, &regs.general, next);
    let Some(place) = window.readable(mem, tlb, control, regs.cpl, va, bytes) else {
        return Went::Left;
    };
    let from = load(mem, place, va, bytes);
    let top = lowered(regs.general[usize::from(RSP)], u64::from(bytes));
    let Some(place) = window.writable(mem, tlb, control, regs.cpl, top, bytes) else {
        return Went::Left;
    };
    store(mem, window, place, top, bytes, from);
    set_register(&mut regs.general, RSP, top);
    Went::On
}

/// POP to a register, which may be RSP: it is written last.
#[inline]
#[tactic(auto, unfolding(page_walk::specs::AccessPlans::gathered))]
pub(crate) fn pop(
    quick: &Quick,
    width: u8,
    at: u64,
    regs: &mut Running,
    control: &Control,
    mem: &mut PhysMem,
    tlb: &Tlb,
    window: &mut Window,
) -> Went
    requires width { IsWidth width }
    requires ready { IsQuick quick.now }
    requires register { quick.now.to < 16 }
    requires frames { NamesFramesIn (length mem.old) tlb.now }
    requires window { IsWindow (length mem.old) control.now regs.old.cpl tlb.now window.old }
    ensures window { IsWindow (length mem.old) control.now regs.old.cpl tlb.now window.new }
    ensures made { is_left result ≡ false
        → quiet_outcome (went result (next_address at quick.now.size) regs.new) mem.new tlb.now
        ≡ effect_made (Data DataForm.Pop) (record quick.now { kind = Kind.Pop; width = width })
        (record regs.old { rip = at }) control.now mem.old tlb.now }
    ensures left { is_left result ≡ true → (regs.new ≡ regs.old) × (mem.new ≡ mem.old) }
    ensures off { window.new.off ≡ window.old.off }
    ensures code { AreSameOnPages window.old.off mem.old mem.new }
    ensures length { length mem.new ≡ length mem.old }
    ensures privilege { regs.new.cpl ≡ regs.old.cpl }
{
    let bytes = width / 8;
    let top = regs.general[usize::from(RSP)];
    let Some(place) = window.readable(mem, tlb, control, regs.cpl, top, bytes) else {
        return Went::Left;
    };
    let popped = load(mem, place, top, bytes);
    set_register(&mut regs.general, RSP, top.wrapping_add(u64::from(bytes)));
    set_place(&mut regs.general, &Place::Reg(quick.to), width, popped);
    Went::On
}

/// CALL, which pushes the address of the next instruction.
#[inline]
#[tactic(auto, unfolding(page_walk::specs::AccessPlans::gathered))]
pub(crate) fn call(
    quick: &Quick,
    at: u64,
    regs: &mut Running,
    control: &Control,
    mem: &mut PhysMem,
    tlb: &Tlb,
    window: &mut Window,
) -> Went
    requires ready { IsQuick quick.now }
    requires kind { quick.now.kind ≡ Kind.Call }
    requires frames { NamesFramesIn (length mem.old) tlb.now }
    requires window { IsWindow (length mem.old) control.now regs.old.cpl tlb.now window.old }
    ensures window { IsWindow (length mem.old) control.now regs.old.cpl tlb.now window.new }
    ensures made { is_left result ≡ false
        → quiet_outcome (went result (next_address at quick.now.size) regs.new) mem.new tlb.now
        ≡ effect_made (Flow FlowForm.Call) quick.now (record regs.old { rip = at }) control.now mem.old tlb.now }
    ensures left { is_left result ≡ true → (regs.new ≡ regs.old) × (mem.new ≡ mem.old) }
    ensures off { window.new.off ≡ window.old.off }
    ensures code { AreSameOnPages window.old.off mem.old mem.new }
    ensures length { length mem.new ≡ length mem.old }
    ensures privilege { regs.new.cpl ≡ regs.old.cpl }
{
    let next = next_address(quick, at);
    let target = target(quick, next, &regs.general);
    if !canonical(target) {
        return Went::Left;
    }
    let top = lowered(regs.general[usize::from(RSP)], 8);
    let Some(place) = window.writable(mem, tlb, control, regs.cpl, top, 8) else {
        return Went::Left;
    };
    store(mem, window, place, top, 8, next);
    set_register(&mut regs.general, RSP, top);
    regs.rip = target;
    Went::Off
}

/// CALL of an address in memory.
#[inline(never)]
#[tactic(auto, unfolding(page_walk::specs::AccessPlans::gathered))]
pub(crate) fn call_load(
    quick: &Quick,
    at: u64,
    regs: &mut Running,
    control: &Control,
    mem: &mut PhysMem,
    tlb: &Tlb,
    window: &mut Window,
) -> Went
    requires ready { IsQuick quick.now }
    requires kind { quick.now.kind ≡ Kind.CallLoad }
    requires frames { NamesFramesIn (length mem.old) tlb.now }
    requires window { IsWindow (length mem.old) control.now regs.old.cpl tlb.now window.old }
    ensures window { IsWindow (length mem.old) control.now regs.old.cpl tlb.now window.new }
    ensures made { is_left result ≡ false
        → quiet_outcome (went result (next_address at quick.now.size) regs.new) mem.new tlb.now
        ≡ effect_made (Flow FlowForm.Call) quick.now (record regs.old { rip = at }) control.now mem.old tlb.now }
    ensures left { is_left result ≡ true → (regs.new ≡ regs.old) × (mem.new ≡ mem.old) }
    ensures off { window.new.off ≡ window.old.off }
    ensures code { AreSameOnPages window.old.off mem.old mem.new }
    ensures length { length mem.new ≡ length mem.old }
    ensures privilege { regs.new.cpl ≡ regs.old.cpl }
{
    let next = next_address(quick, at);
    let va = address(quick, &regs.general, next);
    let Some(place) = window.readable(mem, tlb, control, regs.cpl, va, 8) else {
        return Went::Left;
    };
    let callee = load(mem, place, va, 8);
    if !canonical(callee) {
        return Went::Left;
    }
    let top = lowered(regs.general[usize::from(RSP)], 8);
    let Some(place) = window.writable(mem, tlb, control, regs.cpl, top, 8) else {
        return Went::Left;
    };
    store(mem, window, place, top, 8, next);
    set_register(&mut regs.general, RSP, top);
    regs.rip = callee;
    Went::Off
}

/// RET, which lets as many bytes go as the instruction's number says beyond the address that it pops.
#[inline]
#[tactic(auto, unfolding(page_walk::specs::AccessPlans::gathered))]
pub(crate) fn ret(
    quick: &Quick,
    at: u64,
    regs: &mut Running,
    control: &Control,
    mem: &mut PhysMem,
    tlb: &Tlb,
    window: &mut Window,
) -> Went
    requires ready { IsQuick quick.now }
    requires kind { quick.now.kind ≡ Kind.Return }
    requires frames { NamesFramesIn (length mem.old) tlb.now }
    requires window { IsWindow (length mem.old) control.now regs.old.cpl tlb.now window.old }
    ensures window { IsWindow (length mem.old) control.now regs.old.cpl tlb.now window.new }
    ensures made { is_left result ≡ false
        → quiet_outcome (went result (next_address at quick.now.size) regs.new) mem.new tlb.now
        ≡ effect_made (Flow FlowForm.Return) quick.now (record regs.old { rip = at }) control.now mem.old tlb.now }
    ensures left { is_left result ≡ true → (regs.new ≡ regs.old) × (mem.new ≡ mem.old) }
    ensures off { window.new.off ≡ window.old.off }
    ensures code { AreSameOnPages window.old.off mem.old mem.new }
    ensures length { length mem.new ≡ length mem.old }
    ensures privilege { regs.new.cpl ≡ regs.old.cpl }
{
    let top = regs.general[usize::from(RSP)];
    let Some(place) = window.readable(mem, tlb, control, regs.cpl, top, 8) else {
        return Went::Left;
    };
    let popped = load(mem, place, top, 8);
    if !canonical(popped) {
        return Went::Left;
    }
    let above = top.wrapping_add(8).wrapping_add(quick.value);
    set_register(&mut regs.general, RSP, above);
    regs.rip = popped;
    Went::Off
}

/// LEAVE: RSP rises to above what RBP points at, and RBP gets that.
#[inline(never)]
#[tactic(auto, unfolding(page_walk::specs::AccessPlans::gathered))]
pub(crate) fn leave(
    quick: &Quick,
    at: u64,
    regs: &mut Running,
    control: &Control,
    mem: &mut PhysMem,
    tlb: &Tlb,
    window: &mut Window,
) -> Went
    requires ready { IsQuick quick.now }
    requires kind { quick.now.kind ≡ Kind.Leave }
    requires frames { NamesFramesIn (length mem.old) tlb.now }
    requires window { IsWindow (length mem.old) control.now regs.old.cpl tlb.now window.old }
    ensures window { IsWindow (length mem.old) control.now regs.old.cpl tlb.now window.new }
    ensures made { is_left result ≡ false
        → quiet_outcome (went result (next_address at quick.now.size) regs.new) mem.new tlb.now
        ≡ effect_made (Data DataForm.Leave) quick.now (record regs.old { rip = at }) control.now mem.old tlb.now }
    ensures left { is_left result ≡ true → (regs.new ≡ regs.old) × (mem.new ≡ mem.old) }
    ensures off { window.new.off ≡ window.old.off }
    ensures code { AreSameOnPages window.old.off mem.old mem.new }
    ensures length { length mem.new ≡ length mem.old }
    ensures privilege { regs.new.cpl ≡ regs.old.cpl }
{
    let base = regs.general[usize::from(RBP)];
    let Some(place) = window.readable(mem, tlb, control, regs.cpl, base, 8) else {
        return Went::Left;
    };
    let popped = load(mem, place, base, 8);
    set_register(&mut regs.general, RSP, base.wrapping_add(8));
    set_register(&mut regs.general, RBP, popped);
    Went::On
}
