//! Kinds of string instructions, one turn of each: it is made where the pages at RSI and RDI are kept and serve it. Where a
//! repeated one's count is 0, the turn only goes on.

ghost use Rattle.std.specs.Prelude.{◌≡◌, ◌<◌, if◌then◌else◌, true, false, length};
ghost use Rattle.decode_fields.specs.Widths.{IsWidth};
ghost use Rattle.nk_bits.specs.Translations.{NamesFramesIn};
ghost use Rattle.x86_regs.specs.declared.form.Form.TheVariants.{Data};
ghost use Rattle.x86_regs.specs.declared.form.DataForm.TheVariants as DataForm;
ghost use Rattle.x86_regs.specs.OperandPlans.{is_idle};
ghost use Rattle.x86_regs.specs.OperandOutcomes.{counted, is_again, pointer_moved};
ghost use Rattle.exec_quick.specs.declared.quick.Kind.TheVariants as Kind;
ghost use Rattle.mem_access.specs.Windows.{IsWindow};
ghost use Rattle.exec_quick.specs.QuickForms.{AreSameOnPages, IsQuick, effect_made, instruction_of, is_left, next_address, quiet_outcome, went};

use crate::kept::{load, store};
use crate::operands::next_address;
use crate::quick::{Quick, Went};
use crate::running::Running;
use decode_fields::Place;
use mem_access::Window;
use nk_bits::Control;
use phys_mem::PhysMem;
use tlb_model::Tlb;
use x86_decode::Op;
use x86_regs::{
    RAX, RCX, RDI, RSI, held, is_asked, is_repeated, low, lowered, set_place, set_register,
};

/// A repeated instruction whose count is 0 does nothing.
#[inline(always)]
fn is_idle(quick: &Quick, regs: &Running) -> bool
    ensures { result ≡ is_idle (instruction_of quick.now) regs.now }
{
    is_repeated(quick.rep) & (regs.general[usize::from(RCX)] == 0)
}

/// Moves a pointer by an operand of `width` bits, down where DF is set.
#[inline(always)]
fn move_pointer(regs: &mut Running, width: u8, number: u8)
    requires width { IsWidth width }
    requires number { number < 16 }
    ensures { regs.new ≡ record regs.old { general = pointer_moved regs.old width number regs.old.general } }
{
    let at = regs.general[usize::from(number)];
    let step = u64::from(width / 8);
    let moved = if regs.flags.is_down() {
        lowered(at, step)
    } else {
        at.wrapping_add(step)
    };
    set_register(&mut regs.general, number, moved);
}

/// Counts a repeated instruction.
#[inline(always)]
fn count(quick: &Quick, regs: &mut Running)
    ensures { regs.new ≡ record regs.old { general = counted (instruction_of quick.now) regs.old.general } }
{
    if is_repeated(quick.rep) {
        let left = lowered(regs.general[usize::from(RCX)], 1);
        set_register(&mut regs.general, RCX, left);
    }
}

/// Counts a repeated instruction and goes on: at itself where it is made again, else at the next one.
#[inline(always)]
fn go_on(quick: &Quick, at: u64, regs: &mut Running, asked: bool)
    ensures { let after = counted (instruction_of quick.now) regs.old.general in
        regs.new ≡ record regs.old {
          general = after;
          rip = if is_again (instruction_of quick.now) after asked then at else next_address at quick.now.size;
        } }
{
    count(quick, regs);
    let again = is_repeated(quick.rep) & (regs.general[usize::from(RCX)] != 0) & asked;
    regs.rip = if again { at } else { next_address(quick, at) };
}

/// MOVS: the bytes are read before they are written, since they may be the same.
#[inline(always)]
#[tactic(auto, unfolding(page_walk::specs::AccessPlans::gathered))]
pub(crate) fn move_string(
    quick: &Quick,
    at: u64,
    regs: &mut Running,
    control: &Control,
    mem: &mut PhysMem,
    tlb: &Tlb,
    window: &mut Window,
) -> Went
    requires ready { IsQuick quick.now }
    requires kind { quick.now.kind ≡ Kind.MoveString }
    requires frames { NamesFramesIn (length mem.old) tlb.now }
    requires window { IsWindow (length mem.old) control.now regs.old.cpl tlb.now window.old }
    ensures window { IsWindow (length mem.old) control.now regs.old.cpl tlb.now window.new }
    ensures made { is_left result ≡ false
        → quiet_outcome (went result (next_address at quick.now.size) regs.new) mem.new tlb.now
        ≡ effect_made (Data DataForm.MoveString) quick.now (record regs.old { rip = at }) control.now mem.old tlb.now }
    ensures left { is_left result ≡ true → (regs.new ≡ regs.old) × (mem.new ≡ mem.old) }
    ensures off { window.new.off ≡ window.old.off }
    ensures code { AreSameOnPages window.old.off mem.old mem.new }
    ensures length { length mem.new ≡ length mem.old }
    ensures privilege { regs.new.cpl ≡ regs.old.cpl }
{
    if is_idle(quick, regs) {
        return Went::On;
    }
    let bytes = quick.width / 8;
    let from = regs.general[usize::from(RSI)];
    let Some(from_place) = window.readable(mem, tlb, control, regs.cpl, from, bytes) else {
        return Went::Left;
    };
    let to = regs.general[usize::from(RDI)];
    let Some(to_place) = window.writable(mem, tlb, control, regs.cpl, to, bytes) else {
        return Went::Left;
    };
    let value = load(mem, from_place, from, bytes);
    store(mem, window, to_place, to, bytes, low(quick.width, value));
    move_pointer(regs, quick.width, RSI);
    move_pointer(regs, quick.width, RDI);
    go_on(quick, at, regs, true);
    Went::Off
}

/// STOS.
#[inline(always)]
#[tactic(auto, unfolding(page_walk::specs::AccessPlans::gathered))]
pub(crate) fn store_string(
    quick: &Quick,
    at: u64,
    regs: &mut Running,
    control: &Control,
    mem: &mut PhysMem,
    tlb: &Tlb,
    window: &mut Window,
) -> Went
    requires ready { IsQuick quick.now }
    requires kind { quick.now.kind ≡ Kind.StoreString }
    requires frames { NamesFramesIn (length mem.old) tlb.now }
    requires window { IsWindow (length mem.old) control.now regs.old.cpl tlb.now window.old }
    ensures window { IsWindow (length mem.old) control.now regs.old.cpl tlb.now window.new }
    ensures made { is_left result ≡ false
        → quiet_outcome (went result (next_address at quick.now.size) regs.new) mem.new tlb.now
        ≡ effect_made (Data DataForm.StoreString) quick.now (record regs.old { rip = at }) control.now mem.old tlb.now }
    ensures left { is_left result ≡ true → (regs.new ≡ regs.old) × (mem.new ≡ mem.old) }
    ensures off { window.new.off ≡ window.old.off }
    ensures code { AreSameOnPages window.old.off mem.old mem.new }
    ensures length { length mem.new ≡ length mem.old }
    ensures privilege { regs.new.cpl ≡ regs.old.cpl }
{
    if is_idle(quick, regs) {
        return Went::On;
    }
    let bytes = quick.width / 8;
    let to = regs.general[usize::from(RDI)];
    let Some(place) = window.writable(mem, tlb, control, regs.cpl, to, bytes) else {
        return Went::Left;
    };
    let value = held(&regs.general, &Place::Reg(RAX), quick.width);
    store(mem, window, place, to, bytes, value);
    move_pointer(regs, quick.width, RDI);
    go_on(quick, at, regs, true);
    Went::Off
}

/// LODS.
#[inline(always)]
#[tactic(auto, unfolding(page_walk::specs::AccessPlans::gathered))]
pub(crate) fn load_string(
    quick: &Quick,
    at: u64,
    regs: &mut Running,
    control: &Control,
    mem: &mut PhysMem,
    tlb: &Tlb,
    window: &mut Window,
) -> Went
    requires ready { IsQuick quick.now }
    requires kind { quick.now.kind ≡ Kind.LoadString }
    requires frames { NamesFramesIn (length mem.old) tlb.now }
    requires window { IsWindow (length mem.old) control.now regs.old.cpl tlb.now window.old }
    ensures window { IsWindow (length mem.old) control.now regs.old.cpl tlb.now window.new }
    ensures made { is_left result ≡ false
        → quiet_outcome (went result (next_address at quick.now.size) regs.new) mem.new tlb.now
        ≡ effect_made (Data DataForm.LoadString) quick.now (record regs.old { rip = at }) control.now mem.old tlb.now }
    ensures left { is_left result ≡ true → (regs.new ≡ regs.old) × (mem.new ≡ mem.old) }
    ensures off { window.new.off ≡ window.old.off }
    ensures code { AreSameOnPages window.old.off mem.old mem.new }
    ensures length { length mem.new ≡ length mem.old }
    ensures privilege { regs.new.cpl ≡ regs.old.cpl }
{
    if is_idle(quick, regs) {
        return Went::On;
    }
    let bytes = quick.width / 8;
    let from = regs.general[usize::from(RSI)];
    let Some(place) = window.readable(mem, tlb, control, regs.cpl, from, bytes) else {
        return Went::Left;
    };
    let value = low(quick.width, load(mem, place, from, bytes));
    move_pointer(regs, quick.width, RSI);
    set_place(&mut regs.general, &Place::Reg(RAX), quick.width, value);
    go_on(quick, at, regs, true);
    Went::Off
}

/// CMPS: the bytes at RDI are taken from those at RSI, which are read first.
#[inline(always)]
#[tactic(auto, unfolding(page_walk::specs::AccessPlans::gathered))]
pub(crate) fn compare_strings(
    quick: &Quick,
    at: u64,
    regs: &mut Running,
    control: &Control,
    mem: &mut PhysMem,
    tlb: &Tlb,
    window: &mut Window,
) -> Went
    requires ready { IsQuick quick.now }
    requires kind { quick.now.kind ≡ Kind.CompareStrings }
    requires frames { NamesFramesIn (length mem.old) tlb.now }
    requires window { IsWindow (length mem.old) control.now regs.old.cpl tlb.now window.old }
    ensures window { IsWindow (length mem.old) control.now regs.old.cpl tlb.now window.new }
    ensures made { is_left result ≡ false
        → quiet_outcome (went result (next_address at quick.now.size) regs.new) mem.new tlb.now
        ≡ effect_made (Data DataForm.CompareStrings) quick.now (record regs.old { rip = at }) control.now mem.old tlb.now }
    ensures left { is_left result ≡ true → (regs.new ≡ regs.old) × (mem.new ≡ mem.old) }
    ensures off { window.new.off ≡ window.old.off }
    ensures code { AreSameOnPages window.old.off mem.old mem.new }
    ensures length { length mem.new ≡ length mem.old }
    ensures privilege { regs.new.cpl ≡ regs.old.cpl }
{
    if is_idle(quick, regs) {
        return Went::On;
    }
    let bytes = quick.width / 8;
    let to = regs.general[usize::from(RSI)];
    let Some(to_place) = window.readable(mem, tlb, control, regs.cpl, to, bytes) else {
        return Went::Left;
    };
    let from = regs.general[usize::from(RDI)];
    let Some(from_place) = window.readable(mem, tlb, control, regs.cpl, from, bytes) else {
        return Went::Left;
    };
    let to = load(mem, to_place, to, bytes);
    let from = load(mem, from_place, from, bytes);
    move_pointer(regs, quick.width, RSI);
    move_pointer(regs, quick.width, RDI);
    regs.compare(Op::Cmp, quick.width, to, from);
    let asked = is_asked(quick.rep, regs.flags.is_zero());
    go_on(quick, at, regs, asked);
    Went::Off
}

/// SCAS: the bytes at RDI are taken from RAX.
#[inline(always)]
#[tactic(auto, unfolding(page_walk::specs::AccessPlans::gathered))]
pub(crate) fn scan_string(
    quick: &Quick,
    at: u64,
    regs: &mut Running,
    control: &Control,
    mem: &mut PhysMem,
    tlb: &Tlb,
    window: &mut Window,
) -> Went
    requires ready { IsQuick quick.now }
    requires kind { quick.now.kind ≡ Kind.ScanString }
    requires frames { NamesFramesIn (length mem.old) tlb.now }
    requires window { IsWindow (length mem.old) control.now regs.old.cpl tlb.now window.old }
    ensures window { IsWindow (length mem.old) control.now regs.old.cpl tlb.now window.new }
    ensures made { is_left result ≡ false
        → quiet_outcome (went result (next_address at quick.now.size) regs.new) mem.new tlb.now
        ≡ effect_made (Data DataForm.ScanString) quick.now (record regs.old { rip = at }) control.now mem.old tlb.now }
    ensures left { is_left result ≡ true → (regs.new ≡ regs.old) × (mem.new ≡ mem.old) }
    ensures off { window.new.off ≡ window.old.off }
    ensures code { AreSameOnPages window.old.off mem.old mem.new }
    ensures length { length mem.new ≡ length mem.old }
    ensures privilege { regs.new.cpl ≡ regs.old.cpl }
{
    if is_idle(quick, regs) {
        return Went::On;
    }
    let bytes = quick.width / 8;
    let from = regs.general[usize::from(RDI)];
    let Some(place) = window.readable(mem, tlb, control, regs.cpl, from, bytes) else {
        return Went::Left;
    };
    let from = load(mem, place, from, bytes);
    let to = regs.general[usize::from(RAX)];
    move_pointer(regs, quick.width, RDI);
    regs.compare(Op::Cmp, quick.width, to, from);
    let asked = is_asked(quick.rep, regs.flags.is_zero());
    go_on(quick, at, regs, asked);
    Went::Off
}
