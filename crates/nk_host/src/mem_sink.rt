//! A sink in memory.
ghost use Rattle.std.specs.Prelude.{◌≡◌, ◌≢◌, ◌+◌, ◌≤◌, ◌↔◌, [], ◌++◌, length, min, if◌then◌else◌, IfOk, IsErr, IsOk, IsTrue, Some};
ghost use Rattle.nk_host.specs.SinkInMemory.{after_put, put_fails, room_left};
ghost use Rattle.nk_host.specs.Attempts.{is_due};
ghost use Rattle.nk_host.specs.FaultCounts.{raised};
ghost use Rattle.nk_host.specs.TextPuts.{IsTextPut};

use crate::{NoMemory, Sink, SinkFault};
use std::alloc::Global;
use std::marker::Model;

/// A sink in memory, with room for so many bytes, which fails at the puts that it is told to.
#[derive(Drop)]
pub struct MemSink {
    bytes: Vec<u8>,
    room: usize,
    failing: Vec<u64>,
    cut: usize,
    puts: u64,
    count: u64,
}

impl Model for MemSink {
    ghost use Rattle.std.specs.Prelude.{◌≤◌, vec_len};
    ghost use Rattle.std.specs.Vec.{vec_capacity};
    ghost use Rattle.nk_host.specs.SinkInMemory.{Tray};

    ghost Value = { Tray };

    ghost view = { λ s. record {
      taken = s.bytes.items;
      room = s.room;
      failing = s.failing.items;
      cut = s.cut;
      puts = s.puts;
      faults = s.count;
    } };

    ghost invariant = { λ s. (vec_len s.bytes ≤ s.room) × (s.room ≤ vec_capacity s.bytes) };
}

impl MemSink {
    /// A sink that has taken nothing. `failing` are numbers of puts, which count from 1 those of at
    /// least one byte, and `cut` is the most bytes that a failing put takes.
    pub fn new(
        alloc: Global,
        room: usize,
        failing: Vec<u64>,
        cut: usize,
    ) -> Result<MemSink, NoMemory>
        ensures { IfOk result (λ s. s ≡ record {
          taken = [];
          room = room;
          failing = failing.items;
          cut = cut;
          puts = 0;
          faults = 0;
        }) }
    {
        let bytes = Vec::with_capacity(alloc, room).map_err(|_| NoMemory)?;
        Ok(MemSink {
            bytes,
            room,
            failing,
            cut,
            puts: 0,
            count: 0,
        })
    }

    /// The bytes taken so far.
    pub fn taken(&self) -> &[u8]
        ensures { result.now ≡ self.now.taken }
    {
        &self.bytes
    }

    /// Begins the next put, and says whether its number is among the failing ones.
    fn begin(&mut self) -> bool
        ensures after { self.new ≡ record self.old { puts = raised self.old.puts } }
        ensures due { result ≡ is_due self.old.failing (raised self.old.puts) }
    {
        self.puts = self.puts.saturating_add(1);
        self.failing.contains(&self.puts)
    }

    /// How many of so many bytes fit.
    fn fitting(&self, len: usize) -> usize
        ensures { result ≡ min len (room_left self.now) }
    {
        len.min(self.room - self.bytes.len())
    }

    fn append(&mut self, bytes: &[u8])
        requires { length bytes.now ≤ room_left self.old }
        ensures { self.new ≡ record self.old { taken = self.old.taken ++ bytes.now } }
    {
        if self.bytes.extend_from_slice(bytes).is_err() {
            unreachable!();
        }
    }

    fn count_fault(&mut self)
        ensures after { self.new ≡ record self.old { faults = raised self.old.faults } }
        ensures never_falls { self.old.faults ≤ self.new.faults }
    {
        self.count = self.count.saturating_add(1);
    }

    /// The put of at least one byte.
    fn take_some(&mut self, bytes: &[u8]) -> Result<(), SinkFault>
        ensures after { self.new ≡ after_put self.old bytes.now }
        ensures fails { IsErr result ↔ IsTrue (put_fails self.old bytes.now) }
        ensures never_falls { self.old.faults ≤ self.new.faults }
    {
        let due = self.begin();
        let fitting = self.fitting(bytes.len());
        let count = if due { fitting.min(self.cut) } else { fitting };
        self.append(&bytes[..count]);
        if due || fitting < bytes.len() {
            self.count_fault();
            return Err(SinkFault);
        }
        Ok(())
    }
}

impl Sink for MemSink {
    ghost taken = { λ s. Some s.taken };

    ghost faults = { λ s. s.faults };

    /// Fails exactly where its number is among `failing` or the bytes don't fit. What it takes then,
    /// `count_taken` says.
    fn put(&mut self, bytes: &[u8]) -> Result<(), SinkFault>
        ensures put { IsTextPut (λ s. Some s.taken) (λ s. s.faults) self.old self.new bytes.now result }
        ensures nothing { bytes.now ≡ [] → IsOk result }

        // Exactly when it fails, and what stands afterwards.
        ensures fails { bytes.now ≢ [] → IsErr result ↔ IsTrue (put_fails self.old bytes.now) }
        ensures after { bytes.now ≢ [] → self.new ≡ after_put self.old bytes.now }
        ensures unchanged { bytes.now ≡ [] → self.new ≡ self.old }
    {
        if bytes.is_empty() {
            return Ok(());
        }
        self.take_some(bytes)
    }
}
