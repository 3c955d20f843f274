//! What an instruction asks of the processor.

ghost use Rattle.std.specs.Prelude.{◌≡◌, List, ℕ, ◌*◌, ◌/◌, ◌<◌, length};
ghost use Rattle.nk_bits.specs.Translations.{flushed, invalidated};
ghost use Rattle.x86_regs.specs.Effects.{LoadsFrameIn};
ghost use Rattle.cpu_step.specs.declared.stepped.Stepped.TheVariants.{Ran};
ghost use Rattle.cpu_step.specs.Processor.{IsSound};
ghost use Rattle.cpu_step.specs.Turns.{acted, interrupted, kept_in_cr0, returned_by, with_al};
ghost use Rattle.trap_unit.specs.TrapReturn.{returned};

use crate::processor::Cpu;
use crate::stepped::Stepped;
use decode_fields::Place;
use nk_bits::named_law;
use phys_mem::PhysMem;
use trap_unit::{interrupt_allowed, iretq};
use x86_regs::{Act, Fault, Frame};

/// The bits that CR0 keeps: PG, CD, NW, WP and PE (SDM volume 3, 2.5).
const KEPT_IN_CR0: u64 = 0xE001_0001;

impl Cpu {
    /// Does what an instruction asks, which stood at `rip` and has written its registers.
    pub(crate) fn act(&mut self, act: &Act, rip: u64, mem: &mut PhysMem, shown: &mut Stepped)
        requires ran { shown.old ≡ Ran }
        requires loads { LoadsFrameIn (length mem.old) act.now }
        requires sound { IsSound (length mem.old) self.old }
        ensures acted { record { processor = self.new; memory = mem.new; stepped = shown.new }
            ≡ acted act.now (record self.old.regs { rip = rip }) self.old mem.old }
        ensures sound { IsSound (length mem.new) self.new }
        ensures length { length mem.new ≡ length mem.old }
    {
        match *act {
            Act::Quiet => {}
            Act::Out(byte, port) => self.output(byte, port, shown),
            Act::In(port) => self.input(port),
            Act::Halt => self.halted = true,
            Act::Enable => self.shielded = true,
            Act::Interrupt(vector) => self.interrupt(vector, rip, mem, shown),
            Act::Return(frame) => self.return_by(&frame, rip, mem, shown),
            Act::Cr0(value) => self.control.cr0 = value & KEPT_IN_CR0,
            Act::Cr2(value) => self.control.cr2 = value,
            Act::Cr3(value) => self.load_root(value, mem),
            Act::Cr4(value) => self.control.cr4 = value,
            Act::Idt(base, limit) => {
                self.tables.idt = base;
                self.tables.limit = limit;
            }
            Act::DropPage(page) => self.invalidate(page),
        }
    }

    /// INT n or INT3, which stood at `rip`: it is delivered where its gate allows it, and else raises #GP.
    #[inline(never)]
    fn interrupt(&mut self, vector: u8, rip: u64, mem: &mut PhysMem, shown: &mut Stepped)
        requires ran { shown.old ≡ Ran }
        requires sound { IsSound (length mem.old) self.old }
        ensures interrupted { record { processor = self.new; memory = mem.new; stepped = shown.new }
            ≡ interrupted vector (record self.old.regs { rip = rip }) self.old mem.old }
        ensures sound { IsSound (length mem.new) self.new }
        ensures length { length mem.new ≡ length mem.old }
    {
        match interrupt_allowed(
            mem,
            &mut self.tlb,
            &self.control,
            &self.tables,
            self.regs.cpl,
            vector,
        ) {
            Ok(true) => self.deliver(vector, None, mem, shown),
            Ok(false) => {
                self.regs.rip = rip;
                self.raise(Fault::General(8 * u64::from(vector) + 2), mem, shown);
            }
            Err(_) => {
                self.regs.rip = rip;
                *shown = Stepped::Shutdown;
            }
        }
    }

    /// IRETQ, which stood at `rip` and popped this frame.
    #[inline(never)]
    fn return_by(&mut self, frame: &Frame, rip: u64, mem: &mut PhysMem, shown: &mut Stepped)
        requires ran { shown.old ≡ Ran }
        requires sound { IsSound (length mem.old) self.old }
        ensures returned { record { processor = self.new; memory = mem.new; stepped = shown.new }
            ≡ returned_by (returned self.old.regs frame.now) (record self.old.regs { rip = rip }) self.old mem.old }
        ensures sound { IsSound (length mem.new) self.new }
        ensures length { length mem.new ≡ length mem.old }
    {
        match iretq(&mut self.regs, frame) {
            Ok(()) => {}
            Err(fault) => {
                self.regs.rip = rip;
                self.raise(fault, mem, shown);
            }
        }
    }

    /// MOV to CR3: the root is the frame of bits 63 to 12, and no translation is kept.
    fn load_root(&mut self, value: u64, mem: &PhysMem)
        requires { 4096 * (value / 4096) < length mem.now }
        ensures { self.new ≡ record self.old {
          control = record self.old.control { root = value / 4096 };
          tlb = flushed;
        } }
    {
        let root = value / 4096;
        prove!(root < u64::from(mem.frames()));
        self.control.root = root as u32;
        self.tlb.flush();
    }

    /// INVLPG forgets the translation of the page with this number, and every upper entry.
    fn invalidate(&mut self, page: u64)
        ensures invalidated { self.new ≡ record self.old { tlb = invalidated self.old.tlb page } }
        ensures sound { (size : ℕ) → IsSound size self.old → IsSound size self.new }
    {
        named_law();
        self.tlb.invalidate(page);
    }

    fn output(&mut self, byte: u8, port: u16, shown: &mut Stepped)
        requires ran { shown.old ≡ Ran }
        ensures sound { (size : ℕ) → IsSound size self.old → IsSound size self.new }
        ensures acted { (m : List ℕ) → record { processor = self.new; memory = m; stepped = shown.new }
            ≡ acted (Act.Out byte port) self.old.regs self.old m }
    {
        if let Some(byte) = self.ports.give(port, byte) {
            *shown = Stepped::Console(byte);
        }
    }

    fn input(&mut self, port: u16)
        ensures sound { (size : ℕ) → IsSound size self.old → IsSound size self.new }
        ensures acted { (m : List ℕ) → record { processor = self.new; memory = m; stepped = Ran }
            ≡ acted (Act.In port) self.old.regs self.old m }
    {
        let byte = self.ports.take(port);
        self.regs.set(&Place::Reg(0), 8, u64::from(byte));
    }
}
