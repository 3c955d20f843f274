//! BSF and BSR.

ghost use Rattle.std.specs.Prelude.{◌≡◌, ◌<◌, true, false, length};
ghost use Rattle.nk_bits.specs.Translations.{NamesFramesIn};
ghost use Rattle.x86_alu.specs.SignedNumbers.{cut};
ghost use Rattle.x86_regs.specs.declared.form.Form.TheVariants.{Data};
ghost use Rattle.x86_regs.specs.declared.form.DataForm.TheVariants as DataForm;
ghost use Rattle.x86_regs.specs.OperandOutcomes.{bits_scanned, is_forward, quietly};
ghost use Rattle.exec_quick.specs.declared.quick.Kind.TheVariants as Kind;
ghost use Rattle.mem_access.specs.Windows.{IsWindow};
ghost use Rattle.exec_quick.specs.QuickForms.{AreSameOnPages, IsQuick, effect_made, has_memory_first, instruction_of, is_left, next_address, quiet_outcome, went, width_by};

use crate::kept::load;
use crate::operands::{address, next_address, source};
use crate::quick::{Quick, Went};
use crate::running::Running;
use decode_fields::Place;
use mem_access::Window;
use nk_bits::Control;
use phys_mem::PhysMem;
use tlb_model::Tlb;
use x86_alu::scan_bit;
use x86_regs::{is_forward, low, set_place};

/// The place of the first or the last set bit of a number, into the register; where no bit
/// is set the register keeps its whole value.
#[inline(always)]
fn scan(quick: &Quick, at: u64, regs: &mut Running, from: u64)
    requires ready { IsQuick quick.now }
    requires width { width_by quick.now.kind quick.now.width ≡ quick.now.width }
    requires first { has_memory_first quick.now.kind ≡ false }
    requires register { quick.now.to < 16 }
    ensures scanned { quietly (record regs.new { rip = next_address at quick.now.size })
        ≡ bits_scanned (instruction_of quick.now) (record regs.old { rip = at }) (next_address at quick.now.size)
        (is_forward quick.now.op) (cut quick.now.width from) }
    ensures privilege { regs.new.cpl ≡ regs.old.cpl }
{
    let it = scan_bit(is_forward(quick.op), quick.width, from, regs.flags.word());
    if low(quick.width, from) != 0 {
        set_place(
            &mut regs.general,
            &Place::Reg(quick.to),
            quick.width,
            it.value,
        );
    }
    regs.flags.put(it.flags);
}

/// BSF and BSR of a register.
#[inline(always)]
#[tactic(auto, unfolding(page_walk::specs::AccessPlans::gathered))]
pub(crate) fn scan_bits(
    quick: &Quick,
    at: u64,
    regs: &mut Running,
    control: &Control,
    mem: &mut PhysMem,
    tlb: &Tlb,
) -> Went
    requires ready { IsQuick quick.now }
    requires kind { quick.now.kind ≡ Kind.ScanBits }
    requires register { quick.now.to < 16 }
    ensures made { is_left result ≡ false
        → quiet_outcome (went result (next_address at quick.now.size) regs.new) mem.new tlb.now
        ≡ effect_made (Data DataForm.ScanBits) quick.now (record regs.old { rip = at }) control.now mem.old tlb.now }
    ensures left { is_left result ≡ true → (regs.new ≡ regs.old) × (mem.new ≡ mem.old) }
    ensures memory { mem.new ≡ mem.old }
    ensures privilege { regs.new.cpl ≡ regs.old.cpl }
{
    let from = source(quick, quick.width, at, regs);
    scan(quick, at, regs, from);
    Went::On
}

/// BSF and BSR of memory.
#[inline(always)]
#[tactic(auto, unfolding(page_walk::specs::AccessPlans::gathered))]
pub(crate) fn scan_bits_load(
    quick: &Quick,
    at: u64,
    regs: &mut Running,
    control: &Control,
    mem: &mut PhysMem,
    tlb: &Tlb,
    window: &mut Window,
) -> Went
    requires ready { IsQuick quick.now }
    requires kind { quick.now.kind ≡ Kind.ScanBitsLoad }
    requires register { quick.now.to < 16 }
    requires frames { NamesFramesIn (length mem.old) tlb.now }
    requires window { IsWindow (length mem.old) control.now regs.old.cpl tlb.now window.old }
    ensures window { IsWindow (length mem.old) control.now regs.old.cpl tlb.now window.new }
    ensures made { is_left result ≡ false
        → quiet_outcome (went result (next_address at quick.now.size) regs.new) mem.new tlb.now
        ≡ effect_made (Data DataForm.ScanBits) quick.now (record regs.old { rip = at }) control.now mem.old tlb.now }
    ensures left { is_left result ≡ true → (regs.new ≡ regs.old) × (mem.new ≡ mem.old) }
    ensures off { window.new.off ≡ window.old.off }
    ensures code { AreSameOnPages window.old.off mem.old mem.new }
    ensures length { length mem.new ≡ length mem.old }
    ensures privilege { regs.new.cpl ≡ regs.old.cpl }
{
    let next = next_address(quick, at);
    let bytes = quick.width / 8;
    let va = address(quick, &regs.general, next);
    let Some(place) = window.readable(mem, tlb, control, regs.cpl, va, bytes) else {
        return Went::Left;
    };
    let from = load(mem, place, va, bytes);
    scan(quick, at, regs, from);
    Went::On
}
