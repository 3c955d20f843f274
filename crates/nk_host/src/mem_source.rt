//! A source in memory.
ghost use Rattle.std.specs.Prelude.{◌≡◌, ◌↔◌, ◌≤◌, IfOk, IsErr, IsTrue, Some, drop, length, take};
ghost use Rattle.nk_host.specs.Attempts.{is_due};
ghost use Rattle.nk_host.specs.FaultCounts.{raised};
ghost use Rattle.nk_host.specs.SourceInMemory.{after_take, count_given, take_fails};
ghost use Rattle.nk_host.specs.SourceTakes.{IsSourceTaken};

use crate::{Source, SourceFault};
use std::marker::Model;

/// A source in memory, which gives at most so many bytes at a time, and fails at the takes that it is told to.
#[derive(Drop)]
pub struct MemSource {
    bytes: Vec<u8>,
    given: usize,
    most: usize,
    failing: Vec<u64>,
    takes: u64,
    count: u64,
}

impl Model for MemSource {
    ghost use Rattle.std.specs.Prelude.{◌≤◌, drop, vec_len};
    ghost use Rattle.nk_host.specs.SourceInMemory.{Well};

    ghost Value = { Well };

    ghost view = { λ s. record {
      left = drop s.given s.bytes.items;
      most = s.most;
      failing = s.failing.items;
      takes = s.takes;
      faults = s.count;
    } };

    ghost invariant = { λ s. s.given ≤ vec_len s.bytes };
}

impl MemSource {
    /// A source that has given nothing. It gives at most `most` bytes at a time, or one where that is 0; `failing` are
    /// numbers of takes, which count from 1.
    pub fn new(bytes: Vec<u8>, most: usize, failing: Vec<u64>) -> MemSource
        ensures { result ≡ record { left = bytes.items; most = most; failing = failing.items; takes = 0; faults = 0 } }
    {
        MemSource {
            bytes,
            given: 0,
            most,
            failing,
            takes: 0,
            count: 0,
        }
    }

    /// Begins the next take, and says whether its number is among the failing ones.
    fn begin(&mut self) -> bool
        ensures after { self.new ≡ record self.old { takes = raised self.old.takes } }
        ensures due { result ≡ is_due self.old.failing (raised self.old.takes) }
    {
        self.takes = self.takes.saturating_add(1);
        self.failing.contains(&self.takes)
    }

    fn count_fault(&mut self)
        ensures after { self.new ≡ record self.old { faults = raised self.old.faults } }
        ensures never_falls { self.old.faults ≤ self.new.faults }
    {
        self.count = self.count.saturating_add(1);
    }

    /// Gives bytes at the block's front.
    fn give(&mut self, block: &mut [u8]) -> usize
        ensures count { result ≡ count_given self.old (length block.old) }
        ensures left { self.new ≡ record self.old { left = drop result self.old.left } }
        ensures given { take result block.new ≡ take result self.old.left }
        ensures size { length block.new ≡ length block.old }
    {
        let count = (self.bytes.len() - self.given).min(block.len().min(self.most.max(1)));
        let end = self.given + count;
        block[..count].copy_from_slice(&self.bytes[self.given..end]);
        self.given = end;
        count
    }
}

impl Source for MemSource {
    ghost left = { λ s. Some s.left };

    ghost faults = { λ s. s.faults };

    /// Fails exactly where its number is among `failing`.
    fn take(&mut self, block: &mut [u8]) -> Result<usize, SourceFault>
        ensures taken { IsSourceTaken (λ s. Some s.left) (λ s. s.faults) self.old self.new block.old block.new result }

        // Exactly when it fails, and what stands afterwards.
        ensures fails { IsErr result ↔ IsTrue (take_fails self.old) }
        ensures count { IfOk result (λ n. n ≡ count_given self.old (length block.old)) }
        ensures after { self.new ≡ after_take self.old (length block.old) }
    {
        if self.begin() {
            self.count_fault();
            return Err(SourceFault);
        }
        Ok(self.give(block))
    }
}
