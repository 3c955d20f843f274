//! Turns of instructions that are an act alone: no effect is built for them.

ghost use Rattle.std.specs.Prelude.{◌≡◌, true, false, None, IfNone, IfSome, length};
ghost use Rattle.nk_bits.specs.Translations.{IsAccessible};
ghost use Rattle.nk_bits.specs.Outcomes.{answered};
ghost use Rattle.page_walk.specs.MemoryAccess.{view_of};
ghost use Rattle.x86_decode.specs.WellFormed.{IsWellFormed};
ghost use Rattle.x86_regs.specs.Effects.{LeavesToDelivery, LoadsFrameIn, effect_of};
ghost use Rattle.cpu_step.specs.declared.stepped.Stepped.TheVariants.{Ran};
ghost use Rattle.cpu_step.specs.DecodingMemo.{IsFetched};
ghost use Rattle.cpu_step.specs.FramesTouched.{StaysOutside, instruction_touched, touched_by};
ghost use Rattle.cpu_step.specs.InstructionFetch.{instruction_at};
ghost use Rattle.cpu_step.specs.Processor.{IsSound};
ghost use Rattle.cpu_step.specs.Turns.{instructed, instruction_made, is_at_body};

use crate::fetch::answer_of;
use crate::memo::Memo;
use crate::processor::Cpu;
use crate::stepped::Stepped;
use mem_access::{kept_run, run_on_page};
use nk_bits::{Access, Control, access_law};
use page_walk::places_law;
use phys_mem::{PhysMem, memory_law};
use tlb_model::Tlb;
use x86_decode::{Decoded, Instr, decoding_law};
use x86_regs::{Act, Form, Regs, effect_law, instr_form};

impl Cpu {
    /// Makes the turn of an instruction that is an act alone and whose code is kept, away from the body's place; else it makes
    /// none, and all stays.
    #[inline(always)]
    pub(crate) fn act_alone(&mut self, mem: &mut PhysMem, shown: &mut Stepped) -> bool
        requires ran { shown.old ≡ Ran }
        requires elsewhere { is_at_body self.old.regs ≡ false }
        requires sound { IsSound (length mem.old) self.old }
        ensures instructed { result ≡ true
            → record { processor = self.new; memory = mem.new; stepped = shown.new } ≡ instructed self.old mem.old }
        ensures sound { IsSound (length mem.new) self.new }
        ensures length { length mem.new ≡ length mem.old }
        ensures touched { result ≡ true → StaysOutside (touched_by shown.new None) mem.old mem.new }
        ensures told { result ≡ true → touched_by shown.new None ≡ instruction_touched self.old mem.old }
        ensures same { result ≡ false → self.new ≡ self.old }
        ensures memory { result ≡ false → mem.new ≡ mem.old }
        ensures quiet { result ≡ false → shown.new ≡ Ran }
    {
        memory_law();
        places_law();
        let rip = self.regs.rip;
        match self.sole_act(mem) {
            Some(act) => {
                self.act(&act, rip, mem, shown);
                true
            }
            None => false,
        }
    }

    /// Takes RIP on behind an instruction that is an act alone, and gives that act.
    #[inline(always)]
    fn sole_act(&mut self, mem: &PhysMem) -> Option<Act>
        requires sound { IsSound (length mem.now) self.old }
        ensures made { IfSome result (λ act. answered (record { regs = self.new.regs; write = None; act = act }) self.old.tlb
            ≡ instruction_made self.old mem.now) }
        ensures rest { self.new ≡ record self.old { regs = self.new.regs } }
        ensures privilege { IfSome result (λ act. self.new.regs.cpl ≡ self.old.regs.cpl) }
        ensures loads { IfSome result (λ act. LoadsFrameIn (length mem.now) act) }
        ensures delivered { IfSome result (λ act. LeavesToDelivery self.old.regs (record { regs = self.new.regs; write = None; act = act })) }
        ensures none { IfNone result (self.new ≡ self.old) }
    {
        match kept_answer(&mut self.memo, mem, &self.tlb, &self.control, &self.regs) {
            Some(Decoded::Whole(instr, size)) => {
                act_of(instr, *size, &mut self.regs, &self.control, mem, &self.tlb)
            }
            _ => None,
        }
    }
}

/// What the code at RIP decodes to, where sixteen bytes from there on lie on one page that is kept: nothing changes.
#[inline(always)]
fn kept_answer<'a>(
    memo: &'a mut Memo,
    mem: &PhysMem,
    tlb: &Tlb,
    control: &Control,
    regs: &Regs,
) -> Option<&'a Decoded>
    requires context { IsAccessible (length mem.now) control.now.root tlb.now }
    ensures { IfSome result (λ answer. IsFetched
        (instruction_at mem.now (view_of mem.now control.now regs.now.cpl) regs.now.rip tlb.now) tlb.now answer.now) }
{
    decoding_law();
    access_law();
    mem.bytes_law();
    match kept_run(mem, tlb, Access::Fetch, control, regs.cpl, regs.rip, 16) {
        Some(place) => Some(answer_of(memo, regs.rip, run_on_page(mem, place, 15))),
        None => None,
    }
}

/// Makes an instruction that was fetched, where it is an act alone.
#[inline(always)]
fn act_of(
    instr: &Instr,
    size: u8,
    regs: &mut Regs,
    control: &Control,
    mem: &PhysMem,
    tlb: &Tlb,
) -> Option<Act>
    requires formed { IsWellFormed instr.now }
    requires context { IsAccessible (length mem.now) control.now.root tlb.now }
    ensures made { IfSome result (λ act. answered (record { regs = regs.new; write = None; act = act }) tlb.now
        ≡ effect_of instr.now size regs.old control.now mem.now tlb.now) }
    ensures privilege { IfSome result (λ act. regs.new.cpl ≡ regs.old.cpl) }
    ensures loads { IfSome result (λ act. LoadsFrameIn (length mem.now) act) }
    ensures delivered { IfSome result (λ act. LeavesToDelivery regs.old (record { regs = regs.new; write = None; act = act })) }
    ensures none { IfNone result (regs.new ≡ regs.old) }
{
    effect_law();
    match instr_form(instr) {
        Form::Flow(form) => match exec_flow::sole_act(form, instr, size, regs, control, mem, tlb) {
            Some(act) => Some(act),
            None => None,
        },
        Form::Data(_) => None,
    }
}
