//! A turn.

ghost use Rattle.std.specs.Prelude.{◌≡◌, ◌⊎◌, ℕ, None, ◌%◌, ◌≤◌, false, IsSome, IfOk, length};
ghost use Rattle.nk_bits.specs.Translations.{faulted};
ghost use Rattle.nk_bits.specs.Outcomes.{outcome_of};
ghost use Rattle.x86_regs.specs.Effects.{FitsIn, HasAccessSize, LeavesToDelivery, LoadsFrameIn, memory_after};
ghost use Rattle.cpu_step.specs.FramesTouched.{StaysOutside, instruction_touched, touched_by, turn_touched};
ghost use Rattle.cpu_step.specs.declared.stepped.Stepped.TheVariants.{Ran};
ghost use Rattle.cpu_step.specs.Processor.{IsSound, deliverable};
ghost use Rattle.cpu_step.specs.Turns.{acted, enters_body, instructed, instruction_made, is_at_body, refused_body, turned};

use crate::execution::effect_of;
use crate::fetch::{code_on_page, fetch_by_pages, is_on_page};
use crate::processor::Cpu;
use crate::stepped::Stepped;
use crate::touched::{Touched, touched_by};
use mem_access::commit;
use nk_bits::{BODY, NESTED_STACK_TOP, named_law};
use page_walk::places_law;
use phys_mem::{PhysMem, memory_law};
use x86_decode::Decoded;
use x86_regs::{Effect, Fault, Regs, Write};

/// Where the body's first push lies, on the nested stack, which isn't writable.
const BODY_STACK: u64 = NESTED_STACK_TOP - 8;

impl Cpu {
    /// One turn: an interrupt that is delivered, or an instruction. A fault is delivered, and an interrupt and a return
    /// by an instruction are made. Where the nested kernel's body is to run, its caller runs it instead.
    pub fn step(&mut self, mem: &mut PhysMem) -> Stepped
        requires body { enters_body self.old ≡ false }
        requires running { (self.old.halted ≡ false) ⊎ IsSome (deliverable self.old) }
        requires sound { IsSound (length mem.old) self.old }
        ensures turned { record { processor = self.new; memory = mem.new; stepped = result }
            ≡ turned self.old mem.old }
        ensures sound { IsSound (length mem.new) self.new }
        ensures length { length mem.new ≡ length mem.old }
    {
        let mut shown = Stepped::Ran;
        self.turn(mem, &mut shown);
        shown
    }

    /// One turn, with the frames that it may have changed: every byte of memory outside them is as it was.
    pub fn step_touching(&mut self, mem: &mut PhysMem) -> (Stepped, Touched)
        requires body { enters_body self.old ≡ false }
        requires running { (self.old.halted ≡ false) ⊎ IsSome (deliverable self.old) }
        requires sound { IsSound (length mem.old) self.old }
        ensures turned { record { processor = self.new; memory = mem.new; stepped = result.0 }
            ≡ turned self.old mem.old }
        ensures sound { IsSound (length mem.new) self.new }
        ensures length { length mem.new ≡ length mem.old }
        ensures touched { StaysOutside result.1 mem.old mem.new }
        ensures told { result.1 ≡ turn_touched self.old mem.old }
    {
        let mut shown = Stepped::Ran;
        let touched = self.turn(mem, &mut shown);
        (shown, touched)
    }

    /// One turn, which tells in place what it shows.
    #[inline]
    fn turn(&mut self, mem: &mut PhysMem, shown: &mut Stepped) -> Touched
        requires ran { shown.old ≡ Ran }
        requires body { enters_body self.old ≡ false }
        requires running { (self.old.halted ≡ false) ⊎ IsSome (deliverable self.old) }
        requires sound { IsSound (length mem.old) self.old }
        ensures turned { record { processor = self.new; memory = mem.new; stepped = shown.new }
            ≡ turned self.old mem.old }
        ensures sound { IsSound (length mem.new) self.new }
        ensures length { length mem.new ≡ length mem.old }
        ensures touched { StaysOutside result mem.old mem.new }
        ensures told { result ≡ turn_touched self.old mem.old }
    {
        match self.deliverable() {
            Some(vector) => {
                self.wake(vector);
                self.deliver(vector, None, mem, shown);
                Touched::Any
            }
            None => {
                self.shielded = false;
                self.instruct(mem, shown)
            }
        }
    }

    /// Whether the nested kernel's body is to run: the supervisor stands at its place, with WP clear.
    #[inline]
    pub fn enters_body(&self) -> bool
        ensures { result ≡ enters_body self.now }
    {
        is_at_body(&self.regs) && !self.control.write_protect()
    }

    /// Makes an instruction, unless RIP is at the body's place.
    #[inline]
    fn instruct(&mut self, mem: &mut PhysMem, shown: &mut Stepped) -> Touched
        requires ran { shown.old ≡ Ran }
        requires sound { IsSound (length mem.old) self.old }
        ensures instructed { record { processor = self.new; memory = mem.new; stepped = shown.new }
            ≡ instructed self.old mem.old }
        ensures sound { IsSound (length mem.new) self.new }
        ensures length { length mem.new ≡ length mem.old }
        ensures touched { StaysOutside result mem.old mem.new }
        ensures told { result ≡ instruction_touched self.old mem.old }
    {
        if is_at_body(&self.regs) {
            self.refuse_body(mem, shown);
            return Touched::Any;
        }
        if self.act_alone(mem, shown) {
            return touched_by(shown, &None);
        }
        self.instruct_by_effect(mem, shown)
    }

    /// Makes an instruction by its effect, away from the body's place.
    #[inline(never)]
    fn instruct_by_effect(&mut self, mem: &mut PhysMem, shown: &mut Stepped) -> Touched
        requires ran { shown.old ≡ Ran }
        requires elsewhere { is_at_body self.old.regs ≡ false }
        requires sound { IsSound (length mem.old) self.old }
        ensures instructed { record { processor = self.new; memory = mem.new; stepped = shown.new }
            ≡ instructed self.old mem.old }
        ensures sound { IsSound (length mem.new) self.new }
        ensures length { length mem.new ≡ length mem.old }
        ensures touched { StaysOutside result mem.old mem.new }
        ensures told { result ≡ instruction_touched self.old mem.old }
    {
        match self.make(mem) {
            Ok(effect) => {
                self.finish(&effect, mem, shown);
                touched_by(shown, &effect.write)
            }
            Err(fault) => {
                self.raise(fault, mem, shown);
                Touched::Any
            }
        }
    }

    /// Takes the registers of an effect, makes its write, and does what it asks.
    #[inline]
    fn finish(&mut self, effect: &Effect, mem: &mut PhysMem, shown: &mut Stepped)
        requires ran { shown.old ≡ Ran }
        requires privilege { effect.now.regs.cpl ≡ self.old.regs.cpl }
        requires places { FitsIn (length mem.old) effect.now.write }
        requires sized { HasAccessSize effect.now.write }
        requires loads { LoadsFrameIn (length mem.old) effect.now.act }
        requires sound { IsSound (length mem.old) self.old }
        ensures acted { record { processor = self.new; memory = mem.new; stepped = shown.new }
            ≡ acted effect.now.act (record effect.now.regs { rip = self.old.regs.rip })
            (record self.old { regs = effect.now.regs }) (memory_after effect.now.write mem.old) }
        ensures sound { IsSound (length mem.new) self.new }
        ensures length { length mem.new ≡ length mem.old }
        ensures touched { StaysOutside (touched_by shown.new effect.now.write) mem.old mem.new }
    {
        memory_law();
        places_law();
        let rip = self.regs.rip;
        self.regs = effect.regs;
        put(mem, &effect.write);
        self.act(&effect.act, rip, mem, shown);
    }

    /// With WP set the first push of the body is a page fault.
    #[inline(never)]
    fn refuse_body(&mut self, mem: &mut PhysMem, shown: &mut Stepped)
        requires sound { IsSound (length mem.old) self.old }
        ensures refused { record { processor = self.new; memory = mem.new; stepped = shown.new }
            ≡ refused_body self.old mem.old }
        ensures sound { IsSound (length mem.new) self.new }
        ensures length { length mem.new ≡ length mem.old }
    {
        self.drop_fault(BODY_STACK / 4096);
        self.raise(
            Fault::Page {
                code: 3,
                address: BODY_STACK,
            },
            mem,
            shown,
        );
    }

    /// A page fault forgets the translation of the page with this number, and the upper entries that serve it.
    fn drop_fault(&mut self, page: u64)
        ensures faulted { self.new ≡ record self.old { tlb = faulted self.old.tlb page } }
        ensures sound { (size : ℕ) → IsSound size self.old → IsSound size self.new }
    {
        named_law();
        self.tlb.drop_fault(page);
    }

    /// Fetches the instruction at RIP and makes its effect on the registers.
    fn make(&mut self, mem: &PhysMem) -> Result<Effect, Fault>
        requires sound { IsSound (length mem.now) self.old }
        ensures outcome { outcome_of result self.new.tlb ≡ instruction_made self.old mem.now }
        ensures rest { self.new ≡ record self.old { tlb = self.new.tlb } }
        ensures sound { IsSound (length mem.now) self.new }
        ensures privilege { IfOk result (λ effect. effect.regs.cpl ≡ self.old.regs.cpl) }
        ensures places { IfOk result (λ effect. FitsIn (length mem.now) effect.write) }
        ensures sized { IfOk result (λ effect. HasAccessSize effect.write) }
        ensures loads { IfOk result (λ effect. LoadsFrameIn (length mem.now) effect.act) }
        ensures delivered { IfOk result (LeavesToDelivery self.old.regs) }
    {
        if is_on_page(self.regs.rip) {
            self.make_on_page(mem)
        } else {
            self.make_by_pages(mem)
        }
    }

    /// Where the fifteen bytes from RIP on lie on one page: the instruction stays where the memo keeps it.
    fn make_on_page(&mut self, mem: &PhysMem) -> Result<Effect, Fault>
        requires sound { IsSound (length mem.now) self.old }
        requires page { self.old.regs.rip % 4096 ≤ 4080 }
        ensures outcome { outcome_of result self.new.tlb ≡ instruction_made self.old mem.now }
        ensures rest { self.new ≡ record self.old { tlb = self.new.tlb } }
        ensures sound { IsSound (length mem.now) self.new }
        ensures privilege { IfOk result (λ effect. effect.regs.cpl ≡ self.old.regs.cpl) }
        ensures places { IfOk result (λ effect. FitsIn (length mem.now) effect.write) }
        ensures sized { IfOk result (λ effect. HasAccessSize effect.write) }
        ensures loads { IfOk result (λ effect. LoadsFrameIn (length mem.now) effect.act) }
        ensures delivered { IfOk result (LeavesToDelivery self.old.regs) }
    {
        match code_on_page(
            &mut self.memo,
            mem,
            &mut self.tlb,
            &self.control,
            &self.regs,
        ) {
            Ok(Decoded::Whole(instr, size)) => {
                effect_of(instr, *size, &self.regs, &self.control, mem, &mut self.tlb)
            }
            Ok(Decoded::Short | Decoded::TooLong) => Err(Fault::General(0)),
            Ok(Decoded::Unknown) => Err(Fault::Opcode),
            Err(fault) => Err(fault),
        }
    }

    /// At the end of a page.
    fn make_by_pages(&mut self, mem: &PhysMem) -> Result<Effect, Fault>
        requires sound { IsSound (length mem.now) self.old }
        ensures outcome { outcome_of result self.new.tlb ≡ instruction_made self.old mem.now }
        ensures rest { self.new ≡ record self.old { tlb = self.new.tlb } }
        ensures sound { IsSound (length mem.now) self.new }
        ensures privilege { IfOk result (λ effect. effect.regs.cpl ≡ self.old.regs.cpl) }
        ensures places { IfOk result (λ effect. FitsIn (length mem.now) effect.write) }
        ensures sized { IfOk result (λ effect. HasAccessSize effect.write) }
        ensures loads { IfOk result (λ effect. LoadsFrameIn (length mem.now) effect.act) }
        ensures delivered { IfOk result (LeavesToDelivery self.old.regs) }
    {
        match fetch_by_pages(mem, &mut self.tlb, &self.control, &self.regs) {
            Ok(it) => effect_of(
                &it.instr,
                it.size,
                &self.regs,
                &self.control,
                mem,
                &mut self.tlb,
            ),
            Err(fault) => Err(fault),
        }
    }
}

/// Whether the supervisor stands at the body's place.
pub(crate) fn is_at_body(regs: &Regs) -> bool
    ensures { result ≡ is_at_body regs.now }
{
    regs.rip == BODY && regs.cpl == 0
}

/// Makes the one write of an instruction.
fn put(mem: &mut PhysMem, write: &Option<Write>)
    requires places { FitsIn (length mem.old) write.now }
    requires sized { HasAccessSize write.now }
    ensures memory { mem.new ≡ memory_after write.now mem.old }
    ensures length { length mem.new ≡ length mem.old }
{
    if let Some(write) = write {
        commit(mem, &write.target, write.va, write.width, write.value);
    }
}
