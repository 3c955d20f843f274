//! The slots that hold a region's row each: which are in use, and the rows in them, as memory holds them.

ghost use Rattle.std.specs.Prelude.{if◌then◌else◌, ◌≡◌, ◌<◌, ◌≤◌, ℕ, ◌+◌, ◌*◌, ◌^◌, ◌==◌, All, IfNone, IfSome, List, [], ◌∷◌, ◌++◌, None, Some, false, length, map, slice_get, slice_index, slice_index_or, take};
ghost use Rattle.std.specs.List.{list_any, position, range_with_len, remove};
ghost use Rattle.phys_mem.specs.Memory.{byte_at, number_at};
ghost use Rattle.region_book.specs.declared.row.Row.{Row};
ghost use Rattle.region_book.specs.RegionBytes.{HasRowForm, row_in, slot_place};
ghost use Rattle.region_book.specs.RegionRecords.{IsEachOnce};
ghost use Rattle.region_book.specs.RegionRows.{row_of};
ghost use Rattle.region_book.specs.SlotChanges.{DiffersInSlot, DiffersWithin, Holds, IsStorableRow, head_of};

use crate::row::Row;
use phys_mem::{PhysMem, memory_law};
use std::marker::Model;

/// Where the slots begin: at frame 60.
const SLOTS: u64 = 0x3C000;

/// The bytes of a slot.
const SLOT_BYTES: u64 = 64;

/// The slots in use, in the order in which they were taken.
#[derive(Drop)]
pub(crate) struct Slots {
    /// All slots, those in use first.
    order: [u8; 256],
    count: u32,
}

impl Model for Slots {
    ghost use Rattle.std.specs.Prelude.{if◌then◌else◌, ℕ, ◌<◌, ◌≤◌, All, List, take};
    ghost use Rattle.region_book.specs.RegionRecords.{IsEachOnce};

    ghost Value = { List ℕ };

    ghost view = { λ r. take r.count r.order };

    ghost invariant = { λ r. (r.count ≤ 256) × All (λ s. s < 256) r.order × IsEachOnce r.order };
}

impl Slots {
    /// None is in use.
    pub(crate) fn new() -> Slots
        ensures { result ≡ [] }
    {
        Slots {
            order: numbers(),
            count: 0,
        }
    }

    /// How many are in use.
    pub(crate) fn count(&self) -> u32
        ensures count { result ≡ length self.now }
        ensures most { result ≤ 256 }
    {
        self.count
    }

    /// The slots in use are among the 256, each once.
    pub(crate) fn slots_law(&self)
        ensures count { length self.now ≤ 256 }
        ensures below { All (λ s. s < 256) self.now }
        ensures once { IsEachOnce self.now }
    {
        let _ = &self.order;
    }

    /// A slot in use, by its place in their order.
    pub(crate) fn at(&self, i: usize) -> u8
        requires number { i < length self.now }
        ensures slot { Some result ≡ slice_get self.now i }
        ensures index { slice_index self.now i ≡ result }
    {
        self.order[i]
    }

    /// Takes a slot that wasn't in use.
    pub(crate) fn add(&mut self) -> u8
        requires room { length self.old < 256 }
        ensures added { self.new ≡ self.old ++ result ∷ [] }
        ensures fresh { list_any (λ t. t == result) self.old ≡ false }
        ensures below { result < 256 }
    {
        let slot = next_of(&self.order, self.count);
        self.count += 1;
        slot
    }

    /// Lets the slot at a place of the order go.
    pub(crate) fn remove(&mut self, i: usize)
        requires number { i < length self.old }
        ensures removed { self.new ≡ remove self.old i }
    {
        let last = self.count - 1;
        move_back(&mut self.order, i, last as usize);
        self.count = last;
    }
}

/// The 256 slots, each once.
fn numbers() -> [u8; 256]
    ensures once { IsEachOnce result }
    ensures below { All (λ s. s < 256) result }
{
    let mut order = [0; 256];
    for i in 0..256 {
        order[i] = i as u8;
    }
    order
}

/// The slot behind those in front of a count.
#[tactic(auto, using(crate::proofs::SlotOrder::next_is_fresh))]
fn next_of(order: &[u8; 256], count: u32) -> u8
    requires within { count < 256 }
    requires once { IsEachOnce order.now }
    ensures next { result ≡ slice_index order.now count }
    ensures fresh { list_any (λ t. t == result) (take count order.now) ≡ false }
{
    order[count as usize]
}

/// Moves the slot at one place behind those up to another.
fn move_back(order: &mut [u8; 256], from: usize, to: usize)
    requires order { from ≤ to }
    requires within { to < 256 }
    requires once { IsEachOnce order.old }
    requires below { All (λ s. s < 256) order.old }
    ensures front { take to order.new ≡ remove (take (to + 1) order.old) from }
    ensures once { IsEachOnce order.new }
    ensures below { All (λ s. s < 256) order.new }
{
    for i in from..to {
        order.swap(i, i + 1);
    }
}

/// Where a slot begins in memory.
fn slot_place(slot: u8) -> u64
    ensures place { result ≡ slot_place slot }
    ensures within { result + 64 ≤ 0x40000 }
{
    SLOTS + SLOT_BYTES * u64::from(slot)
}

/// The identifier in a slot.
#[tactic(auto, unfolding(crate::specs::RegionBytes::row_in))]
fn id_in(mem: &PhysMem, slot: u8) -> u64
    requires memory { 0x40000 ≤ length mem.now }
    ensures { result ≡ (row_in mem.now slot).id }
{
    mem.load64(slot_place(slot))
}

/// Where the row of an identifier stands in the order of slots.
pub(crate) fn locate(slots: &Slots, mem: &PhysMem, id: u64) -> Option<usize>
    requires memory { 0x40000 ≤ length mem.now }
    ensures position { result ≡ position (λ row. row.id == id) (map (row_in mem.now) slots.now) }
    ensures none { IfNone result (row_of (map (row_in mem.now) slots.now) id ≡ None) }
    ensures some { IfSome result (λ i. (i < length slots.now)
        × ((d : Row) → row_of (map (row_in mem.now) slots.now) id ≡ Some (slice_index_or (map (row_in mem.now) slots.now) i d))) }
{
    position_of(slots, mem, id)
}

fn position_of(slots: &Slots, mem: &PhysMem, id: u64) -> Option<usize>
    requires memory { 0x40000 ≤ length mem.now }
    ensures { result ≡ position (λ row. row.id == id) (map (row_in mem.now) slots.now) }
{
    for i in 0..slots.count() as usize {
        if id_in(mem, slots.at(i)) == id {
            return Some(i);
        }
    }
    None
}

/// The row in a slot.
#[tactic(auto, unfolding(crate::specs::RegionBytes::row_in))]
pub(crate) fn row_at(mem: &PhysMem, slot: u8) -> Row
    requires memory { 0x40000 ≤ length mem.now }
    ensures { result ≡ row_in mem.now slot }
{
    let place = slot_place(slot);
    Row {
        id: mem.load64(place),
        first: mem.load64(place + 8),
        size: mem.load32(place + 16),
        tail: mem.load32(place + 20),
        policy: mem.load8(place + 24),
        pooled: mem.load8(place + 25) == 1,
        slot: u32::from(mem.load16(place + 26)),
        frames: frames_at(mem, place),
    }
}

/// The frames of the row in a slot that begins at a place.
fn frames_at(mem: &PhysMem, place: u64) -> [u16; 16]
    requires memory { 0x40000 ≤ length mem.now }
    requires place { place + 64 ≤ 0x40000 }
    ensures { result ≡ map (λ i. number_at mem.now 2 (place + 32 + 2 * i)) (range_with_len 0 16) }
{
    let mut frames = [0; 16];
    for i in 0..16 {
        frames[i] = mem.load16(place + 32 + 2 * i as u64);
    }
    frames
}

/// Puts a row into a slot.
pub(crate) fn put_row(mem: &mut PhysMem, slot: u8, row: &Row)
    requires memory { 0x40000 ≤ length mem.old }
    requires form { IsStorableRow row.now }
    ensures row { row_in mem.new slot ≡ row.now }
    ensures form { HasRowForm mem.new slot }
    ensures elsewhere { DiffersInSlot slot mem.old mem.new }
{
    let place = slot_place(slot);
    put_head(mem, place, row);
    put_frames(mem, place, &row.frames);
}

/// The numbers of a row have room in its slot.
fn numbers_law(id: u64, first: u64, size: u32, tail: u32, policy: u8)
    ensures id { id < 2 ^ 64 }
    ensures first { first < 2 ^ 64 }
    ensures size { size < 2 ^ 32 }
    ensures tail { tail < 2 ^ 32 }
    ensures policy { policy < 256 }
{}

/// A flag as a byte.
fn byte_of(flag: bool) -> u8
    ensures { result ≡ (if flag then 1 else 0) }
{
    u8::from(flag)
}

/// Puts what stands before the frames into the slot that begins at a place.
fn put_head(mem: &mut PhysMem, place: u64, row: &Row)
    requires memory { 0x40000 ≤ length mem.old }
    requires place { place + 64 ≤ 0x40000 }
    requires slot { row.now.slot < 65536 }
    ensures holds { Holds mem.new (head_of place row.now) }
    ensures differs { DiffersWithin place (place + 32) mem.old mem.new }
{
    memory_law();
    numbers_law(row.id, row.first, row.size, row.tail, row.policy);
    mem.store64(place, row.id);
    mem.store64(place + 8, row.first);
    mem.store32(place + 16, row.size);
    mem.store32(place + 20, row.tail);
    mem.store8(place + 24, row.policy);
    mem.store8(place + 25, byte_of(row.pooled));
    mem.store16(place + 26, row.slot as u16);
    mem.store32(place + 28, 0);
}

/// Puts frames there.
fn put_frames(mem: &mut PhysMem, place: u64, frames: &[u16; 16])
    requires memory { 0x40000 ≤ length mem.old }
    requires place { place + 64 ≤ 0x40000 }
    ensures frames { (i : ℕ) → i < 16 → number_at mem.new 2 (place + 32 + 2 * i) ≡ slice_index frames.now i }
    ensures size { length frames.now ≡ 16 }
    ensures differs { DiffersWithin (place + 32) (place + 64) mem.old mem.new }
{
    memory_law();
    for i in 0..16 {
        mem.store16(place + 32 + 2 * i as u64, frames[i]);
    }
}

/// Moves the tail of the row in a slot.
pub(crate) fn put_tail(mem: &mut PhysMem, slot: u8, tail: u32)
    requires memory { 0x40000 ≤ length mem.old }
    ensures row { row_in mem.new slot ≡ record (row_in mem.old slot) { tail = tail } }
    ensures form { HasRowForm mem.old slot → HasRowForm mem.new slot }
    ensures elsewhere { DiffersInSlot slot mem.old mem.new }
{
    memory_law();
    mem.store32(slot_place(slot) + 20, tail);
}

/// Makes every byte of a slot 0.
pub(crate) fn clear_slot(mem: &mut PhysMem, slot: u8)
    requires memory { 0x40000 ≤ length mem.old }
    ensures zero { (p : ℕ) → p < 64 → byte_at mem.new (slot_place slot + p) ≡ 0 }
    ensures elsewhere { DiffersInSlot slot mem.old mem.new }
{
    memory_law();
    let place = slot_place(slot);
    for i in 0..8 {
        mem.store64(place + 8 * i, 0);
    }
}
