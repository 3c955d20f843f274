//! The events of a plan.

ghost use Rattle.std.specs.Prelude.{◌≡◌, ℕ, ◌≤◌, length};
ghost use Rattle.nk_bits.specs.Translations.{entry_forgotten, forgotten};
ghost use Rattle.irq_plan.specs.PlannedEvents.{IsPlannable};
ghost use Rattle.cpu_step.specs.EventsTaken.{event_taken};
ghost use Rattle.cpu_step.specs.Processor.{IsSound};

use crate::processor::{Cpu, with_pending};
use irq_plan::What;
use mem_access::walk_kept;
use nk_bits::named_law;
use page_walk::upper;
use phys_mem::PhysMem;

impl Cpu {
    /// Takes an event of a plan: a vector is pending; the translation of a page goes, or the one comes that a walk
    /// finds; or the upper entry of a page comes that a walk from the root finds, or it goes.
    pub fn take_event(&mut self, mem: &PhysMem, what: What)
        requires sound { IsSound (length mem.now) self.old }
        requires what { IsPlannable what }
        ensures taken { self.new ≡ event_taken what mem.now self.old }
        ensures sound { IsSound (length mem.now) self.new }
    {
        match what {
            What::Irq(vector) => self.pending = with_pending(self.pending, vector, true),
            What::Drop(page) => self.drop_page(page / 4096),
            What::Fill(page) => self.fill(mem, page),
            What::Keep(level, page) => self.keep(mem, level, page),
            What::Forget(level, page) => self.forget(level, page / 4096),
        }
    }

    /// Forgets the translation of the page with this number.
    fn drop_page(&mut self, page: u64)
        ensures dropped { self.new ≡ record self.old { tlb = forgotten self.old.tlb page } }
        ensures sound { (size : ℕ) → IsSound size self.old → IsSound size self.new }
    {
        named_law();
        self.tlb.drop_page(page);
    }

    /// Keeps the translation that a walk finds for the page at an address, if it finds one.
    fn fill(&mut self, mem: &PhysMem, page: u64)
        requires sound { IsSound (length mem.now) self.old }
        requires page { IsPlannable (What.Fill page) }
        ensures filled { self.new ≡ event_taken (What.Fill page) mem.now self.old }
        ensures sound { IsSound (length mem.now) self.new }
    {
        named_law();
        if let Ok(leaf) = walk_kept(mem, &self.tlb, self.control.root, page) {
            self.tlb.fill(page / 4096, leaf);
        }
    }

    /// Keeps what the entry of this level names on the walk for the page at an address, if none down to it is missing.
    fn keep(&mut self, mem: &PhysMem, level: u8, page: u64)
        requires sound { IsSound (length mem.now) self.old }
        requires page { IsPlannable (What.Keep level page) }
        ensures kept { self.new ≡ event_taken (What.Keep level page) mem.now self.old }
        ensures sound { IsSound (length mem.now) self.new }
    {
        named_law();
        if let Some(it) = upper(mem, self.control.root, page, level) {
            self.tlb.keep(level, page / 4096, it);
        }
    }

    /// Forgets the entry of this level that serves the page with this number.
    fn forget(&mut self, level: u8, page: u64)
        requires level { (2 ≤ level) × (level ≤ 4) }
        ensures forgotten { self.new ≡ record self.old { tlb = entry_forgotten self.old.tlb level page } }
        ensures sound { (size : ℕ) → IsSound size self.old → IsSound size self.new }
    {
        named_law();
        self.tlb.forget(level, page);
    }
}
