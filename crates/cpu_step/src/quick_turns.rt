//! Turns by quick forms.

ghost use Rattle.std.specs.Prelude.{◌≡◌, ◌+◌, ◌≤◌, false, IfSome, length};
ghost use Rattle.cpu_step.specs.KeptFetches.{IsKeptCode};
ghost use Rattle.cpu_step.specs.Processor.{IsSound};
ghost use Rattle.cpu_step.specs.QuickTurns.{AreQuickTurns};

use crate::kept_code::{KeptCode, kept_code};
use crate::processor::Cpu;
use phys_mem::PhysMem;

impl Cpu {
    /// Makes quick turns one after the other, at most so many, and tells how many. It makes none where an interrupt may be
    /// pending, and ends before the first turn that isn't quick.
    pub fn quick_turns(&mut self, mem: &mut PhysMem, most: u64) -> u64
        requires sound { IsSound (length mem.old) self.old }
        ensures most { result ≤ most }
        ensures turns { AreQuickTurns result self.old mem.old self.new mem.new }
        ensures sound { IsSound (length mem.new) self.new }
        ensures length { length mem.new ≡ length mem.old }
    {
        if self.halted || self.shielded || self.pending != 0 {
            return 0;
        }
        self.quick_run(mem, most)
    }

    /// The same where nothing is pending.
    fn quick_run(&mut self, mem: &mut PhysMem, most: u64) -> u64
        requires sound { IsSound (length mem.old) self.old }
        requires runs { self.old.halted ≡ false }
        requires shielded { self.old.shielded ≡ false }
        requires pending { self.old.pending ≡ 0 }
        ensures most { result ≤ most }
        ensures turns { AreQuickTurns result self.old mem.old self.new mem.new }
        ensures sound { IsSound (length mem.new) self.new }
        ensures length { length mem.new ≡ length mem.old }
    {
        let Some(code) = self.code_at(mem) else {
            return 0;
        };
        self.turns_by(&code, mem, most)
    }

    /// The code around RIP, looked up.
    fn code_at(&self, mem: &PhysMem) -> Option<KeptCode>
        requires sound { IsSound (length mem.now) self.now }
        ensures kept { IfSome result (IsKeptCode (length mem.now) self.now.control self.now.regs.cpl self.now.tlb) }
    {
        kept_code(mem, &self.tlb, &self.control, &self.regs)
    }

    /// Makes quick turns, at most so many, the first by code that is kept.
    fn turns_by(&mut self, code: &KeptCode, mem: &mut PhysMem, most: u64) -> u64
        requires sound { IsSound (length mem.old) self.old }
        requires runs { self.old.halted ≡ false }
        requires shielded { self.old.shielded ≡ false }
        requires pending { self.old.pending ≡ 0 }
        requires kept { IsKeptCode (length mem.old) self.old.control self.old.regs.cpl self.old.tlb code.now }
        ensures most { result ≤ most }
        ensures turns { AreQuickTurns result self.old mem.old self.new mem.new }
        ensures sound { IsSound (length mem.new) self.new }
        ensures length { length mem.new ≡ length mem.old }
    {
        self.memo
            .turns(code, &mut self.regs, &self.control, mem, &self.tlb, most)
    }
}
