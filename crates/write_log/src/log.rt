//! The log, as memory holds it.

ghost use Rattle.std.specs.Prelude.{◌≡◌, ◌+◌, ◌<◌, ◌≤◌, ℕ, IfSome, List, Some, length, slice_get, slice_index};
ghost use Rattle.std.specs.Option.{option_map};
ghost use Rattle.phys_mem.specs.Memory.{byte_at, number_at};
ghost use Rattle.write_log.specs.LogBytes.{DiffersInLog, HoldsLog, LogCounts, end_of, log_in, record_at, record_place};
ghost use Rattle.write_log.specs.LogRecords.{logged, noted, room_of};

use crate::laws::held_log_law;
use crate::record::{BYTES, count, offset, put, region};
use phys_mem::{PhysMem, frame_law};
use std::marker::Model;

/// Where the log begins: at frame 26.
const LOG_START: u32 = 0x1A000;

/// How many bytes the log has.
const MOST_BYTES: u32 = 65536;

/// The bytes that a record takes beside its own.
const RECORD_BYTES: u32 = 24;

/// A record of the log without its bytes.
#[derive(Clone, Copy, Debug, PartialEq, Eq)]
pub struct Noted {
    /// The identifier of the region that was written.
    pub region: u64,
    /// The offset of the first byte in the region.
    pub offset: u32,
    /// How many bytes were written, at most 65,512.
    pub length: u32,
}

/// The log: memory holds its records, in frames that nobody else sees. A contract sees how many there are, and how many
/// bytes they take.
#[derive(Drop)]
pub struct Log {
    records: u32,
    used: u32,
}

impl Model for Log {
    ghost use Rattle.std.specs.Prelude.{◌*◌, ◌≤◌};
    ghost use Rattle.write_log.specs.LogBytes.{LogCounts};

    ghost Value = { LogCounts };

    ghost view = { λ log. record { records = log.records; used = log.used } };

    ghost invariant = { λ log. (24 * log.records ≤ log.used) × (log.used ≤ 65536) };
}

impl Log {
    /// An empty log; its bytes are 0 from now on.
    pub fn start(mem: &mut PhysMem) -> Log
        requires size { 0x2A000 ≤ length mem.old }
        ensures empty { result ≡ record { records = 0; used = 0 } }
        ensures held { HoldsLog result mem.new }
        ensures elsewhere { DiffersInLog mem.old mem.new }
    {
        clear(mem);
        Log {
            records: 0,
            used: 0,
        }
    }

    /// How many bytes are left, of 65,536.
    pub fn room(&self) -> u64
        ensures room { (m : List ℕ) → HoldsLog self.now m → result ≡ room_of (log_in self.now m) }
        ensures left { result + self.now.used ≡ 65536 }
    {
        held_log_law();
        u64::from(MOST_BYTES - self.used)
    }

    /// Adds a record behind the others.
    pub fn add(&mut self, mem: &mut PhysMem, region: u64, offset: u32, bytes: &[u8])
        requires held { HoldsLog self.old mem.old }
        requires room { 24 + length bytes.now ≤ room_of (log_in self.old mem.old) }
        ensures added { log_in self.new mem.new ≡ logged (log_in self.old mem.old) region offset bytes.now }
        ensures held { HoldsLog self.new mem.new }
        ensures elsewhere { DiffersInLog mem.old mem.new }
    {
        held_log_law();
        let place = u64::from(LOG_START + self.used);
        put(mem, place, u64::from(self.records), region, offset, bytes);
        self.records += 1;
        self.used += RECORD_BYTES + bytes.len() as u32;
    }

    /// How many records there are.
    pub fn len(&self) -> u64
        ensures { result ≡ self.now.records }
    {
        u64::from(self.records)
    }

    /// A record by its number, counted from 0, in time linear in that; `Spot` goes on from one to the next.
    pub fn entry(&self, mem: &PhysMem, i: u64) -> Noted
        requires held { HoldsLog self.now mem.now }
        requires number { i < self.now.records }
        ensures { Some result ≡ option_map noted (slice_get (log_in self.now mem.now) i) }
    {
        let spot = self.spot(mem, i);
        self.entry_at(mem, i, spot)
    }

    /// A byte of a record.
    pub fn byte(&self, mem: &PhysMem, i: u64, at: u32) -> u8
        requires held { HoldsLog self.now mem.now }
        requires number { i < self.now.records }
        requires at { IfSome (slice_get (log_in self.now mem.now) i) (λ it. at < length it.bytes) }
        ensures { IfSome (slice_get (log_in self.now mem.now) i) (λ it. result ≡ slice_index it.bytes at) }
    {
        let spot = self.spot(mem, i);
        self.byte_at(mem, i, spot, at)
    }

    /// Where the first record stands, or would.
    #[tactic(auto, unfolding(crate::specs::LogBytes::end_from))]
    pub fn first(&self) -> Spot
        ensures { (m : List ℕ) → result.place ≡ record_place m 0 }
    {
        Spot {
            place: u64::from(LOG_START),
        }
    }

    /// The record of this number, which stands there.
    pub fn entry_at(&self, mem: &PhysMem, i: u64, spot: Spot) -> Noted
        requires held { HoldsLog self.now mem.now }
        requires number { i < self.now.records }
        requires spot { spot.place ≡ record_place mem.now i }
        ensures { Some result ≡ option_map noted (slice_get (log_in self.now mem.now) i) }
    {
        self.stands(mem, i, spot);
        Noted {
            region: region(mem, spot.place),
            offset: offset(mem, spot.place),
            length: count(mem, spot.place),
        }
    }

    /// A byte of the record of this number, which stands there.
    pub fn byte_at(&self, mem: &PhysMem, i: u64, spot: Spot, at: u32) -> u8
        requires held { HoldsLog self.now mem.now }
        requires number { i < self.now.records }
        requires spot { spot.place ≡ record_place mem.now i }
        requires at { IfSome (slice_get (log_in self.now mem.now) i) (λ it. at < length it.bytes) }
        ensures { IfSome (slice_get (log_in self.now mem.now) i) (λ it. result ≡ slice_index it.bytes at) }
    {
        self.stands(mem, i, spot);
        mem.load8(spot.place + BYTES + u64::from(at))
    }

    /// Where the record behind the one of this number stands, or would.
    pub fn next(&self, mem: &PhysMem, i: u64, spot: Spot) -> Spot
        requires held { HoldsLog self.now mem.now }
        requires number { i < self.now.records }
        requires spot { spot.place ≡ record_place mem.now i }
        ensures { result.place ≡ record_place mem.now (i + 1) }
    {
        self.stands(mem, i, spot);
        Spot {
            place: spot.place + BYTES + u64::from(count(mem, spot.place)),
        }
    }

    /// Where the record of this number stands.
    fn spot(&self, mem: &PhysMem, i: u64) -> Spot
        requires held { HoldsLog self.now mem.now }
        requires number { i < self.now.records }
        ensures { result.place ≡ record_place mem.now i }
    {
        let mut spot = self.first();
        for number in 0..i {
            spot = self.next(mem, number, spot);
        }
        spot
    }

    /// A record ends within the log, where the next one stands or would, and what is read there is the record of its number.
    fn stands(&self, mem: &PhysMem, i: u64, spot: Spot)
        requires held { HoldsLog self.now mem.now }
        requires number { i < self.now.records }
        requires spot { spot.place ≡ record_place mem.now i }
        ensures within { end_of mem.now spot.place ≤ 0x2A000 }
        ensures size { 0x2A000 ≤ length mem.now }
        ensures next { record_place mem.now (i + 1) ≡ end_of mem.now spot.place }
        ensures entry { slice_get (log_in self.now mem.now) i ≡ Some (record_at mem.now spot.place) }
        ensures count { length (record_at mem.now spot.place).bytes ≡ number_at mem.now 4 (spot.place + 20) }
    {}
}

/// Makes the bytes of the log 0: frames 26 to 41.
fn clear(mem: &mut PhysMem)
    requires size { 0x2A000 ≤ length mem.old }
    ensures zero { (p : ℕ) → 0x1A000 ≤ p → p < 0x2A000 → byte_at mem.new p ≡ 0 }
    ensures elsewhere { DiffersInLog mem.old mem.new }
{
    frame_law();
    for frame in 26..42 {
        mem.zero_frame(frame);
    }
}

/// A place in memory at which a record stands.
#[derive(Clone, Copy, Debug, PartialEq, Eq)]
pub struct Spot {
    /// Its first byte.
    pub place: u64,
}
