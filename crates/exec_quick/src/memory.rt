//! Kinds with an operand in memory: they are made where its page is kept and serves them.

ghost use Rattle.std.specs.Prelude.{◌≡◌, ◌<◌, true, false, length};
ghost use Rattle.decode_fields.specs.Widths.{IsWidth};
ghost use Rattle.nk_bits.specs.Translations.{NamesFramesIn};
ghost use Rattle.x86_regs.specs.declared.form.Form.TheVariants.{Data};
ghost use Rattle.x86_regs.specs.declared.form.DataForm.TheVariants as DataForm;
ghost use Rattle.exec_quick.specs.declared.quick.Kind.TheVariants as Kind;
ghost use Rattle.mem_access.specs.Windows.{IsWindow};
ghost use Rattle.exec_quick.specs.QuickForms.{AreSameOnPages, IsQuick, effect_made, is_left, next_address, quiet_outcome, went};

use crate::kept::{load, store};
use crate::operands::{address, first_register, next_address, put_result, source};
use crate::quick::{Quick, Went};
use crate::running::Running;
use decode_fields::Place;
use mem_access::Window;
use nk_bits::Control;
use phys_mem::PhysMem;
use tlb_model::Tlb;
use x86_decode::Op;
use x86_regs::{set_place, source_width};

/// ADD and its kin of a register and memory.
#[inline]
#[tactic(auto, unfolding(page_walk::specs::AccessPlans::gathered))]
pub(crate) fn combine_load(
    quick: &Quick,
    op: Op,
    width: u8,
    at: u64,
    regs: &mut Running,
    control: &Control,
    mem: &mut PhysMem,
    tlb: &Tlb,
    window: &mut Window,
) -> Went
    requires ready { IsQuick quick.now }
    requires width { IsWidth width }
    requires register { quick.now.to < 16 }
    requires frames { NamesFramesIn (length mem.old) tlb.now }
    requires window { IsWindow (length mem.old) control.now regs.old.cpl tlb.now window.old }
    ensures window { IsWindow (length mem.old) control.now regs.old.cpl tlb.now window.new }
    ensures made { is_left result ≡ false
        → quiet_outcome (went result (next_address at quick.now.size) regs.new) mem.new tlb.now
        ≡ effect_made (Data DataForm.Combine)
        (record quick.now { kind = Kind.CombineLoad; op = op; width = width })
        (record regs.old { rip = at }) control.now mem.old tlb.now }
    ensures left { is_left result ≡ true → (regs.new ≡ regs.old) × (mem.new ≡ mem.old) }
    ensures off { window.new.off ≡ window.old.off }
    ensures code { AreSameOnPages window.old.off mem.old mem.new }
    ensures length { length mem.new ≡ length mem.old }
    ensures privilege { regs.new.cpl ≡ regs.old.cpl }
{
    let next = next_address(quick, at);
    let bytes = source_width(op, width) / 8;
    let va = address(quick, &regs.general, next);
    let Some(place) = window.readable(mem, tlb, control, regs.cpl, va, bytes) else {
        return Went::Left;
    };
    let from = load(mem, place, va, bytes);
    let to = first_register(quick, width, at, regs);
    let value = regs.combine(op, width, to, from, quick.value);
    put_result(quick, width, value, regs);
    Went::On
}

/// ADD and its kin of memory, which is read and written: what may be written may be read.
#[inline]
#[tactic(auto, unfolding(page_walk::specs::AccessPlans::gathered))]
pub(crate) fn combine_store(
    quick: &Quick,
    op: Op,
    width: u8,
    at: u64,
    regs: &mut Running,
    control: &Control,
    mem: &mut PhysMem,
    tlb: &Tlb,
    window: &mut Window,
) -> Went
    requires ready { IsQuick quick.now }
    requires width { IsWidth width }
    requires frames { NamesFramesIn (length mem.old) tlb.now }
    requires window { IsWindow (length mem.old) control.now regs.old.cpl tlb.now window.old }
    ensures window { IsWindow (length mem.old) control.now regs.old.cpl tlb.now window.new }
    ensures made { is_left result ≡ false
        → quiet_outcome (went result (next_address at quick.now.size) regs.new) mem.new tlb.now
        ≡ effect_made (Data DataForm.Combine)
        (record quick.now { kind = Kind.CombineStore; op = op; width = width })
        (record regs.old { rip = at }) control.now mem.old tlb.now }
    ensures left { is_left result ≡ true → (regs.new ≡ regs.old) × (mem.new ≡ mem.old) }
    ensures off { window.new.off ≡ window.old.off }
    ensures code { AreSameOnPages window.old.off mem.old mem.new }
    ensures length { length mem.new ≡ length mem.old }
    ensures privilege { regs.new.cpl ≡ regs.old.cpl }
{
    let next = next_address(quick, at);
    let bytes = width / 8;
    let va = address(quick, &regs.general, next);
    let Some(kept) = window.writable(mem, tlb, control, regs.cpl, va, bytes) else {
        return Went::Left;
    };
    let to = load(mem, kept, va, bytes);
    let bits = source_width(op, width);
    let from = source(quick, bits, at, regs);
    let value = regs.combine(op, width, to, from, quick.value);
    store(mem, window, kept, va, bytes, value);
    Went::On
}

/// CMP and TEST of a register and memory.
#[inline]
#[tactic(auto, unfolding(page_walk::specs::AccessPlans::gathered))]
pub(crate) fn compare_load(
    quick: &Quick,
    op: Op,
    width: u8,
    at: u64,
    regs: &mut Running,
    control: &Control,
    mem: &mut PhysMem,
    tlb: &Tlb,
    window: &mut Window,
) -> Went
    requires ready { IsQuick quick.now }
    requires width { IsWidth width }
    requires register { quick.now.to < 16 }
    requires frames { NamesFramesIn (length mem.old) tlb.now }
    requires window { IsWindow (length mem.old) control.now regs.old.cpl tlb.now window.old }
    ensures window { IsWindow (length mem.old) control.now regs.old.cpl tlb.now window.new }
    ensures made { is_left result ≡ false
        → quiet_outcome (went result (next_address at quick.now.size) regs.new) mem.new tlb.now
        ≡ effect_made (Data DataForm.Compare)
        (record quick.now { kind = Kind.CompareLoad; op = op; width = width })
        (record regs.old { rip = at }) control.now mem.old tlb.now }
    ensures left { is_left result ≡ true → (regs.new ≡ regs.old) × (mem.new ≡ mem.old) }
    ensures off { window.new.off ≡ window.old.off }
    ensures code { AreSameOnPages window.old.off mem.old mem.new }
    ensures length { length mem.new ≡ length mem.old }
    ensures privilege { regs.new.cpl ≡ regs.old.cpl }
{
    let next = next_address(quick, at);
    let bytes = width / 8;
    let va = address(quick, &regs.general, next);
    let Some(place) = window.readable(mem, tlb, control, regs.cpl, va, bytes) else {
        return Went::Left;
    };
    let from = load(mem, place, va, bytes);
    let to = first_register(quick, width, at, regs);
    regs.compare(op, width, to, from);
    Went::On
}

/// CMP and TEST of memory.
#[inline]
#[tactic(auto, unfolding(page_walk::specs::AccessPlans::gathered))]
pub(crate) fn compare_store(
    quick: &Quick,
    op: Op,
    width: u8,
    at: u64,
    regs: &mut Running,
    control: &Control,
    mem: &mut PhysMem,
    tlb: &Tlb,
    window: &mut Window,
) -> Went
    requires ready { IsQuick quick.now }
    requires width { IsWidth width }
    requires frames { NamesFramesIn (length mem.old) tlb.now }
    requires window { IsWindow (length mem.old) control.now regs.old.cpl tlb.now window.old }
    ensures window { IsWindow (length mem.old) control.now regs.old.cpl tlb.now window.new }
    ensures made { is_left result ≡ false
        → quiet_outcome (went result (next_address at quick.now.size) regs.new) mem.new tlb.now
        ≡ effect_made (Data DataForm.Compare)
        (record quick.now { kind = Kind.CompareStore; op = op; width = width })
        (record regs.old { rip = at }) control.now mem.old tlb.now }
    ensures left { is_left result ≡ true → (regs.new ≡ regs.old) × (mem.new ≡ mem.old) }
    ensures off { window.new.off ≡ window.old.off }
    ensures code { AreSameOnPages window.old.off mem.old mem.new }
    ensures length { length mem.new ≡ length mem.old }
    ensures privilege { regs.new.cpl ≡ regs.old.cpl }
{
    let next = next_address(quick, at);
    let bytes = width / 8;
    let va = address(quick, &regs.general, next);
    let Some(place) = window.readable(mem, tlb, control, regs.cpl, va, bytes) else {
        return Went::Left;
    };
    let to = load(mem, place, va, bytes);
    let from = source(quick, width, at, regs);
    regs.compare(op, width, to, from);
    Went::On
}

/// MOV and its kin from memory.
#[inline]
#[tactic(auto, unfolding(page_walk::specs::AccessPlans::gathered))]
pub(crate) fn move_load(
    quick: &Quick,
    op: Op,
    width: u8,
    at: u64,
    regs: &mut Running,
    control: &Control,
    mem: &mut PhysMem,
    tlb: &Tlb,
    window: &mut Window,
) -> Went
    requires ready { IsQuick quick.now }
    requires width { IsWidth width }
    requires register { quick.now.to < 16 }
    requires frames { NamesFramesIn (length mem.old) tlb.now }
    requires window { IsWindow (length mem.old) control.now regs.old.cpl tlb.now window.old }
    ensures window { IsWindow (length mem.old) control.now regs.old.cpl tlb.now window.new }
    ensures made { is_left result ≡ false
        → quiet_outcome (went result (next_address at quick.now.size) regs.new) mem.new tlb.now
        ≡ effect_made (Data DataForm.Move)
        (record quick.now { kind = Kind.MoveLoad; op = op; width = width })
        (record regs.old { rip = at }) control.now mem.old tlb.now }
    ensures left { is_left result ≡ true → (regs.new ≡ regs.old) × (mem.new ≡ mem.old) }
    ensures off { window.new.off ≡ window.old.off }
    ensures code { AreSameOnPages window.old.off mem.old mem.new }
    ensures length { length mem.new ≡ length mem.old }
    ensures privilege { regs.new.cpl ≡ regs.old.cpl }
{
    let next = next_address(quick, at);
    let read = source_width(op, width);
    let bytes = read / 8;
    let va = address(quick, &regs.general, next);
    let Some(place) = window.readable(mem, tlb, control, regs.cpl, va, bytes) else {
        return Went::Left;
    };
    let from = load(mem, place, va, bytes);
    let value = regs.flags.movement(op, width, from);
    set_place(&mut regs.general, &Place::Reg(quick.to), width, value);
    Went::On
}

/// MOV and its kin to memory.
#[inline]
#[tactic(auto, unfolding(page_walk::specs::AccessPlans::gathered))]
pub(crate) fn move_store(
    quick: &Quick,
    op: Op,
    width: u8,
    at: u64,
    regs: &mut Running,
    control: &Control,
    mem: &mut PhysMem,
    tlb: &Tlb,
    window: &mut Window,
) -> Went
    requires ready { IsQuick quick.now }
    requires width { IsWidth width }
    requires frames { NamesFramesIn (length mem.old) tlb.now }
    requires window { IsWindow (length mem.old) control.now regs.old.cpl tlb.now window.old }
    ensures window { IsWindow (length mem.old) control.now regs.old.cpl tlb.now window.new }
    ensures made { is_left result ≡ false
        → quiet_outcome (went result (next_address at quick.now.size) regs.new) mem.new tlb.now
        ≡ effect_made (Data DataForm.Move)
        (record quick.now { kind = Kind.MoveStore; op = op; width = width })
        (record regs.old { rip = at }) control.now mem.old tlb.now }
    ensures left { is_left result ≡ true → (regs.new ≡ regs.old) × (mem.new ≡ mem.old) }
    ensures off { window.new.off ≡ window.old.off }
    ensures code { AreSameOnPages window.old.off mem.old mem.new }
    ensures length { length mem.new ≡ length mem.old }
    ensures privilege { regs.new.cpl ≡ regs.old.cpl }
{
    let next = next_address(quick, at);
    let bytes = width / 8;
    let va = address(quick, &regs.general, next);
    let Some(place) = window.writable(mem, tlb, control, regs.cpl, va, bytes) else {
        return Went::Left;
    };
    let read = source_width(op, width);
    let from = source(quick, read, at, regs);
    let value = regs.flags.movement(op, width, from);
    store(mem, window, place, va, bytes, value);
    Went::On
}
