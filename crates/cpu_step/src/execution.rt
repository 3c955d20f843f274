//! The effect of an instruction, by the crate that has its form.

ghost use Rattle.std.specs.Prelude.{◌≡◌, IfOk, length};
ghost use Rattle.nk_bits.specs.Translations.{IsAccessible, NamesFramesIn};
ghost use Rattle.nk_bits.specs.Outcomes.{outcome_of};
ghost use Rattle.x86_decode.specs.WellFormed.{IsWellFormed};
ghost use Rattle.x86_regs.specs.Effects.{FitsIn, HasAccessSize, LeavesToDelivery, LoadsFrameIn, effect_of};

use nk_bits::Control;
use phys_mem::PhysMem;
use tlb_model::Tlb;
use x86_decode::Instr;
use x86_regs::{Effect, Fault, Form, Regs, effect_law, instr_form};

/// The effect of an instruction that was fetched; its write is judged and not made.
pub(crate) fn effect_of(
    instr: &Instr,
    size: u8,
    regs: &Regs,
    control: &Control,
    mem: &PhysMem,
    tlb: &mut Tlb,
) -> Result<Effect, Fault>
    requires formed { IsWellFormed instr.now }
    requires context { IsAccessible (length mem.now) control.now.root tlb.old }
    ensures outcome { outcome_of result tlb.new
        ≡ effect_of instr.now size regs.now control.now mem.now tlb.old }
    ensures privilege { IfOk result (λ effect. effect.regs.cpl ≡ regs.now.cpl) }
    ensures loads { IfOk result (λ effect. LoadsFrameIn (length mem.now) effect.act) }
    ensures delivered { IfOk result (LeavesToDelivery regs.now) }
    ensures frames { NamesFramesIn (length mem.now) tlb.new }
    ensures places { IfOk result (λ effect. FitsIn (length mem.now) effect.write) }
    ensures sized { IfOk result (λ effect. HasAccessSize effect.write) }
{
    effect_law();
    match instr_form(instr) {
        Form::Data(form) => exec_data::effect_of(form, instr, size, regs, control, mem, tlb),
        Form::Flow(form) => exec_flow::effect_of(form, instr, size, regs, control, mem, tlb),
    }
}
