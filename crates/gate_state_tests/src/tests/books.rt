//! Slots of regions, written bits and log as memory holds them behind a call: slots are compared with what is told of the live
//! regions, bits and log with what is made here of the calls that were accepted.
ghost use Rattle.std.specs.Prelude.{◌≡◌};
ghost use Rattle.nk_body.specs.NestedRecord.{HoldsBooks};

use gate_state::Called;
use nk_body::Kernel;
use phys_mem::PhysMem;
use region_book::Region;
use std::alloc::{AllocError, Global};

/// Where the log stands, and how many bytes it has at most.
const LOG: u64 = 0x1_A000;

const LOG_SIZE: usize = 65_536;

/// Where the bits stand, and how many bytes they take.
const BITS: u64 = 0x2_A000;

const BITS_SIZE: usize = 73_728;

/// Where the slots stand, how many bytes each has, and how many there are.
const SLOTS: u64 = 0x3_C000;

const SLOT_SIZE: u64 = 64;

const SLOT_COUNT: u64 = 256;

/// The first linear address of the pool.
const POOL: u64 = 0xFFFF_FF80_0001_0000;

/// A byte of memory; 255 past its end.
fn byte(mem: &PhysMem, at: u64) -> u8 {
    if at < 4096 * u64::from(mem.frames()) {
        mem.load8(at)
    } else {
        255
    }
}

/// The number of so many bytes.
fn number(mem: &PhysMem, at: u64, count: u64) -> u64 {
    let mut value = 0;
    for i in 0..count.min(8) {
        value |= u64::from(byte(mem, at.saturating_add(i))) << (8 * i);
    }
    value
}

/// What a slot holds, but for a region's frames.
#[derive(Clone, Copy)]
struct Slot {
    id: u64,
    first: u64,
    size: u64,
    tail: u64,
    policy: u8,
    pooled: u8,
    /// How many pages were declared before it.
    before: u64,
}

fn slot_at(mem: &PhysMem, at: u64) -> Slot {
    Slot {
        id: number(mem, at, 8),
        first: number(mem, at.saturating_add(8), 8),
        size: number(mem, at.saturating_add(16), 4),
        tail: number(mem, at.saturating_add(20), 4),
        policy: byte(mem, at.saturating_add(24)),
        pooled: byte(mem, at.saturating_add(25)),
        before: number(mem, at.saturating_add(26), 2),
    }
}

/// The slot of an identifier.
fn find(mem: &PhysMem, id: u64) -> Option<Slot> {
    for s in 0..SLOT_COUNT {
        let slot = slot_at(mem, SLOTS + SLOT_SIZE * s);
        if slot.id == id {
            return Some(slot);
        }
    }
    None
}

/// How many slots hold a region; None where a slot without one has a byte that isn't 0.
fn count_slots(mem: &PhysMem) -> Option<usize> {
    let mut count: usize = 0;
    for s in 0..SLOT_COUNT {
        let at = SLOTS + SLOT_SIZE * s;
        if number(mem, at, 8) != 0 {
            count = count.saturating_add(1);
        } else if !is_empty(mem, at) {
            return None;
        }
    }
    Some(count)
}

fn is_empty(mem: &PhysMem, at: u64) -> bool {
    for i in 0..SLOT_SIZE {
        if byte(mem, at.saturating_add(i)) != 0 {
            return false;
        }
    }
    true
}

/// Whether the slot holds what is told of the region.
fn is_slot_of(slot: &Slot, region: &Region) -> bool {
    slot.first == region.place
        && slot.size == u64::from(region.size)
        && slot.tail == u64::from(region.tail)
        && slot.policy == region.policy
        && slot.pooled == u8::from(region.pooled)
}

/// Whether each live region stands in a slot, and every other slot is empty.
pub fn are_slots_right(kernel: &Kernel, mem: &PhysMem) -> bool
    requires { HoldsBooks kernel.now mem.now }
{
    let regions = kernel.regions();
    for i in 0..regions.count() {
        let region = regions.nth(mem, i);
        match find(mem, region.id) {
            Some(slot) => {
                if !is_slot_of(&slot, &region) {
                    return false;
                }
            }
            None => return false,
        }
    }
    count_slots(mem) == Some(regions.count())
}

/// What bits and log are to hold.
#[derive(Drop)]
pub struct Books {
    bits: Vec<u8>,
    log: Vec<u8>,
    records: u64,
    used: usize,
}

/// The first bit of the region in a slot.
fn first_bit(slot: &Slot) -> usize {
    if slot.pooled == 1 {
        slot.first.saturating_sub(POOL) as usize
    } else {
        65_536 + 4096 * slot.before.min(128) as usize
    }
}

/// Sets so many bits from one on, or clears them.
fn put_bits(bits: &mut [u8], from: usize, count: usize, is_set: bool) {
    for bit in from..from.saturating_add(count) {
        let at = bit / 8;
        if at < bits.len() {
            let one = 1 << (bit % 8);
            bits[at] = if is_set {
                bits[at] | one
            } else {
                bits[at] & !one
            };
        }
    }
}

/// Puts bytes at a place; gives the place behind them.
fn put_bytes(room: &mut [u8], at: usize, bytes: &[u8]) -> usize {
    for i in 0..bytes.len() {
        let to = at.saturating_add(i);
        if to < room.len() {
            room[to] = bytes[i];
        }
    }
    at.saturating_add(bytes.len())
}

/// Whether memory holds these bytes from a place on.
fn holds(mem: &PhysMem, at: u64, bytes: &[u8]) -> bool {
    for i in 0..bytes.len() {
        if byte(mem, at.saturating_add(i as u64)) != bytes[i] {
            return false;
        }
    }
    true
}

impl Books {
    /// No bit, and no record.
    pub fn new(alloc: Global) -> Result<Books, AllocError> {
        Ok(Books {
            bits: vec![in alloc; 0; BITS_SIZE]?,
            log: vec![in alloc; 0; LOG_SIZE]?,
            records: 0,
            used: 0,
        })
    }

    /// Follows a call that is made next, by its answer.
    pub fn follow(&mut self, mem: &PhysMem, called: &Called, source: &[u8]) {
        if called.answer.value != 0 {
            return;
        }
        let Some(slot) = find(mem, called.call.a) else {
            return;
        };
        let first = first_bit(&slot);
        if called.call.number == 8 {
            put_bits(&mut self.bits, first, slot.size as usize, false);
        } else if called.call.number == 9 {
            let offset = called.call.b;
            put_bits(
                &mut self.bits,
                first.saturating_add(offset as usize),
                source.len(),
                true,
            );
            if slot.policy == 4 {
                self.note(slot.id, offset.min(65_536) as u32, source);
            }
        }
    }

    /// Notes a write in the log.
    fn note(&mut self, id: u64, offset: u32, bytes: &[u8]) {
        let at = put_bytes(&mut self.log, self.used, &u64::to_le_bytes(self.records));
        let at = put_bytes(&mut self.log, at, &u64::to_le_bytes(id));
        let at = put_bytes(&mut self.log, at, &u32::to_le_bytes(offset));
        let count = bytes.len().min(LOG_SIZE) as u32;
        let at = put_bytes(&mut self.log, at, &u32::to_le_bytes(count));
        self.used = put_bytes(&mut self.log, at, bytes);
        self.records = self.records.saturating_add(1);
    }

    /// Whether memory holds them.
    pub fn are_in(&self, mem: &PhysMem) -> bool {
        holds(mem, BITS, &self.bits) && holds(mem, LOG, &self.log)
    }

    /// How many records were noted, and their bytes.
    pub fn noted(&self) -> (u64, usize) {
        (self.records, self.used)
    }
}
