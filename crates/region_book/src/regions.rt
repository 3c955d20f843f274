//! The book of regions, and the calls on it.

ghost use Rattle.std.specs.Prelude.{if◌then◌else◌, ◌≡◌, ◌⊎◌, ◌<◌, ◌≤◌, ℕ, ◌+◌, ◌-◌, ◌*◌, ◌/◌, ◌^◌, ◌==◌, ◌&&◌, ◌||◌, not, filter, nat_le, nat_lt, slice_index_or, slice_set, All, IfNone, IfOk, IfSome, IsSome, List, Bool, OnErr, OnOk, Some, None, [], length, option_map, replicate, slice_get, slice_index, false, true, map, take};
ghost use Rattle.phys_mem.specs.MaskedMemory.{is_book_frame, seen};
ghost use Rattle.phys_mem.specs.Memory.{byte_at, entry_in, stored};
ghost use Rattle.nk_bits.specs.Kinds.{is_data, kind_of};
ghost use Rattle.nk_bits.specs.Rules.{rule_of};
ghost use Rattle.page_desc.specs.DescriptorBytes.{DiffersInDescriptors, HoldsDescriptors, descriptors_in, kinds_in};
ghost use Rattle.region_book.specs.RegionCalls.{with_one_more, alloc_rule, pages_rule, fits_in, frames_from, free_rule, freed, guarded, is_policy, is_range_taken, mapped, page_region, pool_region, room};
ghost use Rattle.nk_bits.specs.KernelLayout.{pool_start};
ghost use Rattle.region_book.specs.RegionRecords.{Book, IsBook, byte_place, is_written_in, marked, region_of, region_stores, shown_region, with_region};
ghost use Rattle.region_book.specs.declared.row.Row.{Row};
ghost use Rattle.region_book.specs.SlotChanges.{DiffersInSlot, IsStorableRow};
ghost use Rattle.region_book.specs.RegionBytes.{DiffersInRegions, HasRowForm, HoldsRegions, KeepsSlots, bits_in, book_in, row_in};
ghost use Rattle.region_book.specs.RegionRows.{IsHeld, moved, pages_of_row, region_at, region_of_row, region_with, row_of};

use crate::bits::{any_set, clear_run, set_run};
use crate::laws::held_regions_law;
use crate::pages::{Pages, guard, judge_declare};
use crate::pool::room;
use crate::row::{POOL_SIZE, Row};
use crate::slots::{Slots, clear_slot, locate, put_row, put_tail, row_at};
use crate::stores::{clear_books, put, put_zeros};
use nk_bits::{POOL_START, Rule};
use page_desc::{Frames, stored_law};
use phys_mem::PhysMem;
use std::marker::Model;

/// The most regions that are live at once.
const MOST_REGIONS: usize = 256;

/// A region, as others see it.
#[derive(Clone, Copy, Debug, PartialEq, Eq)]
pub struct Region {
    pub id: u64,
    /// 1 is write-once, 2 append-only, 3 no-write, 4 write-log.
    pub policy: u8,
    /// Its first linear address.
    pub place: u64,
    /// In bytes, 1 to 65,536.
    pub size: u32,
    /// Behind the last byte that was appended.
    pub tail: u32,
    /// Whether it lies in the pool.
    pub pooled: bool,
}

impl Region {
    /// Whether a range isn't empty and lies in the region.
    pub fn fits(&self, offset: u64, length: u64) -> bool
        ensures { result ≡ (nat_le 1 length && nat_le (offset + length) self.now.size) }
    {
        fits_size(self.size, offset, length)
    }
}

/// A new region of the pool.
#[derive(Clone, Copy, Debug, PartialEq, Eq)]
pub struct Granted {
    pub id: u64,
    /// Its first linear address.
    pub place: u64,
}

/// The live regions, which memory holds in frames that nobody else sees, each with a bit for each of its bytes, set where it
/// was written. A contract sees in which slots they stand.
#[derive(Drop)]
pub struct Regions {
    /// Those of the live regions, in the order of identifiers.
    slots: Slots,
    next: u64,
    /// How many pages were declared.
    declared: u32,
}

impl Model for Regions {
    ghost use Rattle.region_book.specs.RegionBytes.{RegionIndex};

    ghost Value = { RegionIndex };

    ghost view = { λ r. record { slots = r.slots; next = r.next; declared = r.declared } };
}

impl Regions {
    /// No region, in slots and bits that are 0 from now on; the next identifier is 256.
    pub fn start(mem: &mut PhysMem) -> Regions
        requires size { 0x40000 ≤ length mem.old }
        ensures index { result ≡ record { slots = []; next = 256; declared = 0 } }
        ensures book { book_in result mem.new ≡ record { regions = []; next = 256; declared = 0 } }
        ensures held { HoldsRegions result mem.new }
        ensures elsewhere { DiffersInRegions mem.old mem.new }
    {
        clear_books(mem);
        Regions {
            slots: Slots::new(),
            next: 256,
            declared: 0,
        }
    }

    /// The next identifier.
    pub fn next(&self) -> u64
        ensures { result ≡ self.now.next }
    {
        self.next
    }

    /// How many regions are live, at most 256.
    pub fn count(&self) -> usize
        ensures { result ≡ length self.now.slots }
    {
        self.slots.count() as usize
    }

    /// A live region by its place in the order of identifiers, from 0 on.
    pub fn nth(&self, mem: &PhysMem, i: usize) -> Region
        requires held { HoldsRegions self.now mem.now }
        requires number { i < length self.now.slots }
        ensures { Some result ≡ option_map shown_region (slice_get (book_in self.now mem.now).regions i) }
    {
        row_at(mem, self.slots.at(i)).shown()
    }

    /// The place of a live region in the order of identifiers, from 0 on.
    pub fn position(&self, mem: &PhysMem, id: u64) -> Option<usize>
        requires held { HoldsRegions self.now mem.now }
        ensures none { IfNone result (region_of (book_in self.now mem.now) id ≡ None) }
        ensures some { IfSome result (λ i. (i < length self.now.slots)
            × (region_of (book_in self.now mem.now) id ≡ slice_get (book_in self.now mem.now).regions i)) }
    {
        locate(&self.slots, mem, id)
    }

    /// The row of a live region, by its place in the order.
    fn nth_row(&self, mem: &PhysMem, i: usize) -> Row
        requires held { HoldsRegions self.now mem.now }
        requires number { i < length self.now.slots }
        ensures held { IsHeld 128 result }
        ensures region { slice_get (book_in self.now mem.now).regions i ≡ Some (region_at (bits_in mem.now) result) }
    {
        row_at(mem, self.slots.at(i))
    }

    /// The row of a live region.
    fn row(&self, mem: &PhysMem, id: u64) -> Option<Row>
        requires held { HoldsRegions self.now mem.now }
        ensures none { IfNone result (region_of (book_in self.now mem.now) id ≡ None) }
        ensures held { IfSome result (λ row. IsHeld 128 row) }
        ensures some { IfSome result (λ row. (written : List Bool) × (region_of (book_in self.now mem.now) id ≡ Some (region_with written row))) }
    {
        match self.position(mem, id) {
            Some(i) => Some(self.nth_row(mem, i)),
            None => None,
        }
    }

    /// The live region that has this identifier.
    pub fn find(&self, mem: &PhysMem, id: u64) -> Option<Region>
        requires held { HoldsRegions self.now mem.now }
        ensures { result ≡ option_map shown_region (region_of (book_in self.now mem.now) id) }
    {
        match self.row(mem, id) {
            Some(row) => Some(row.shown()),
            None => None,
        }
    }

    /// The byte at an offset of a live region.
    pub fn byte(&self, mem: &PhysMem, id: u64, offset: u32) -> u8
        requires held { HoldsRegions self.now mem.now }
        requires book { IsBook (book_in self.now mem.now) }
        requires live { IsSome (region_of (book_in self.now mem.now) id) }
        requires within { IfSome (region_of (book_in self.now mem.now) id) (λ r. offset < r.size) }
        requires frames { IfSome (region_of (book_in self.now mem.now) id) (λ r. All (λ f. 4096 * f + 4096 ≤ length mem.now) r.frames) }
        ensures { IfSome (region_of (book_in self.now mem.now) id) (λ r. result ≡ byte_at mem.now (byte_place r offset)) }
    {
        let row = self.row(mem, id).unwrap();
        mem.load8(row.place(offset))
    }

    /// The place in memory of the byte at an offset of a live region.
    pub fn place(&self, mem: &PhysMem, id: u64, offset: u32) -> u64
        requires held { HoldsRegions self.now mem.now }
        requires live { IsSome (region_of (book_in self.now mem.now) id) }
        requires within { IfSome (region_of (book_in self.now mem.now) id) (λ r. offset < r.size) }
        ensures { IfSome (region_of (book_in self.now mem.now) id) (λ r. result ≡ byte_place r offset) }
    {
        self.row(mem, id).unwrap().place(offset)
    }

    /// Whether a range isn't empty and lies in the live region of this identifier.
    pub fn fits(&self, mem: &PhysMem, id: u64, offset: u64, length: u64) -> bool
        requires held { HoldsRegions self.now mem.now }
        ensures { result ≡ fits_in (book_in self.now mem.now) id offset length }
    {
        match self.row(mem, id) {
            Some(row) => fits_size(row.size, offset, length),
            None => false,
        }
    }

    /// Whether a byte of the range was written before; none is in an empty one.
    pub fn written(&self, mem: &PhysMem, id: u64, offset: u32, length: u32) -> bool
        requires held { HoldsRegions self.now mem.now }
        requires live { IsSome (region_of (book_in self.now mem.now) id) }
        requires within { IfSome (region_of (book_in self.now mem.now) id) (λ r. offset + length ≤ r.size) }
        ensures { IfSome (region_of (book_in self.now mem.now) id) (λ r. result ≡ is_written_in r offset length) }
    {
        let i = self.position(mem, id).unwrap();
        self.written_at(mem, i, offset, length)
    }

    /// The same of the live region at a place of the order.
    pub fn written_at(&self, mem: &PhysMem, i: usize, offset: u32, count: u32) -> bool
        requires held { HoldsRegions self.now mem.now }
        requires number { i < length self.now.slots }
        requires within { IfSome (slice_get (book_in self.now mem.now).regions i) (λ r. offset + count ≤ r.size) }
        ensures { IfSome (slice_get (book_in self.now mem.now).regions i) (λ r. result ≡ is_written_in r offset count) }
    {
        let row = self.nth_row(mem, i);
        any_set(mem, row.first_bit() + offset, count)
    }

    /// The slot of a live region, by its place in the order.
    fn slot_at(&self, i: usize) -> u8
        requires number { i < length self.now.slots }
        ensures { slice_index self.now.slots i ≡ result }
    {
        self.slots.at(i)
    }

    /// Writes bytes in a region from an offset on, and marks them as written; the tail of an append-only region moves behind them.
    pub fn mark(&mut self, mem: &mut PhysMem, id: u64, offset: u32, bytes: &[u8])
        requires held { HoldsRegions self.old mem.old }
        requires book { IsBook (book_in self.old mem.old) }
        requires live { IsSome (region_of (book_in self.old mem.old) id) }
        requires within { IfSome (region_of (book_in self.old mem.old) id) (λ r. offset + length bytes.now ≤ r.size) }
        requires frames { IfSome (region_of (book_in self.old mem.old) id) (λ r. All (λ f. 4096 * f + 4096 ≤ length mem.old) r.frames) }
        requires apart { IfSome (region_of (book_in self.old mem.old) id)
            (λ r. All (λ f. is_book_frame (length mem.old / 4096) f ≡ false) r.frames) }
        ensures marked { IfSome (region_of (book_in self.old mem.old) id)
            (λ r. book_in self.new mem.new ≡ with_region (book_in self.old mem.old) (marked r offset (length bytes.now))) }
        ensures memory { IfSome (region_of (book_in self.old mem.old) id)
            (λ r. seen mem.new ≡ stored (seen mem.old) (region_stores r offset bytes.now)) }
        ensures held { HoldsRegions self.new mem.new }
        ensures keeps { KeepsSlots self.old mem.old self.new mem.new }
        ensures others { (p : ℕ) → is_book_frame (length mem.old / 4096) (p / 4096) ≡ true → (p < 0x2A000) ⊎ (0x40000 ≤ p)
            → byte_at mem.new p ≡ byte_at mem.old p }
        ensures size { length mem.new ≡ length mem.old }
        ensures book { IsBook (book_in self.new mem.new) }
    {
        let i = self.position(mem, id).unwrap();
        self.mark_at(mem, i, offset, bytes);
    }

    /// The same with the live region at a place of the order.
    pub fn mark_at(&mut self, mem: &mut PhysMem, i: usize, offset: u32, bytes: &[u8])
        requires held { HoldsRegions self.old mem.old }
        requires book { IsBook (book_in self.old mem.old) }
        requires number { i < length self.old.slots }
        requires within { IfSome (slice_get (book_in self.old mem.old).regions i) (λ r. offset + length bytes.now ≤ r.size) }
        requires frames { IfSome (slice_get (book_in self.old mem.old).regions i)
            (λ r. All (λ f. 4096 * f + 4096 ≤ length mem.old) r.frames) }
        requires apart { IfSome (slice_get (book_in self.old mem.old).regions i)
            (λ r. All (λ f. is_book_frame (length mem.old / 4096) f ≡ false) r.frames) }
        ensures marked { IfSome (slice_get (book_in self.old mem.old).regions i)
            (λ r. book_in self.new mem.new ≡ with_region (book_in self.old mem.old) (marked r offset (length bytes.now))) }
        ensures memory { IfSome (slice_get (book_in self.old mem.old).regions i)
            (λ r. seen mem.new ≡ stored (seen mem.old) (region_stores r offset bytes.now)) }
        ensures held { HoldsRegions self.new mem.new }
        ensures keeps { KeepsSlots self.old mem.old self.new mem.new }
        ensures others { (p : ℕ) → is_book_frame (length mem.old / 4096) (p / 4096) ≡ true → (p < 0x2A000) ⊎ (0x40000 ≤ p)
            → byte_at mem.new p ≡ byte_at mem.old p }
        ensures size { length mem.new ≡ length mem.old }
        ensures book { IsBook (book_in self.new mem.new) }
    {
        held_regions_law();
        let row = self.nth_row(mem, i);
        put(mem, &row, offset, bytes);
        self.mark_range(mem, i, offset, bytes.len() as u32);
    }

    /// Marks a range as written.
    fn mark_range(&self, mem: &mut PhysMem, i: usize, offset: u32, count: u32)
        requires held { HoldsRegions self.now mem.old }
        requires book { IsBook (book_in self.now mem.old) }
        requires number { i < length self.now.slots }
        requires within { IfSome (slice_get (book_in self.now mem.old).regions i) (λ r. offset + count ≤ r.size) }
        ensures marked { IfSome (slice_get (book_in self.now mem.old).regions i)
            (λ r. book_in self.now mem.new ≡ with_region (book_in self.now mem.old) (marked r offset count)) }
        ensures held { HoldsRegions self.now mem.new }
        ensures keeps { KeepsSlots self.now mem.old self.now mem.new }
        ensures elsewhere { DiffersInRegions mem.old mem.new }
        ensures book { IsBook (book_in self.now mem.new) }
    {
        let slot = self.slot_at(i);
        let row = row_at(mem, slot);
        set_run(mem, row.first_bit() + offset, count);
        move_tail(mem, slot, offset + count);
    }

    /// Makes the frames of a range of pages a protected region, with the bytes that stand there. The frames of live regions
    /// and of the pool don't hold data, so none of them is declared.
    pub fn declare(
        &mut self,
        frames: &mut Frames,
        mem: &mut PhysMem,
        root: u32,
        va: u64,
        size: u64,
        policy: u64,
    ) -> Result<u64, Rule>
        requires described { HoldsDescriptors frames.old mem.old }
        requires held { HoldsRegions self.old mem.old }
        requires book { IsBook (book_in self.old mem.old) }
        requires next { self.old.next < 2 ^ 63 }
        requires root { 4096 * root < length mem.old }
        requires regions { All (λ r. All (λ f. is_data (kind_of (kinds_in mem.old) f) ≡ false) r.frames) (book_in self.old mem.old).regions }
        requires pool { (f : ℕ) → 10 ≤ f → f < 26 → is_data (kind_of (kinds_in mem.old) f) ≡ false }
        ensures judged { rule_of result ≡ pages_rule (book_in self.old mem.old) (kinds_in mem.old) (slice_index (descriptors_in mem.old).loose)
            (mapped (entry_in mem.old) (length mem.old / 4096) root) va size policy }
        ensures refused { OnErr result ((self.new ≡ self.old) × (mem.new ≡ mem.old)) }
        ensures declared { IfOk result (λ id. id ≡ self.old.next) }
        ensures region { OnOk result (IfSome (frames_from (mapped (entry_in mem.old) (length mem.old / 4096) root) (va / 4096) (size / 4096))
            (λ fs. (book_in self.new mem.new ≡ with_one_more (book_in self.old mem.old) (page_region (book_in self.old mem.old) va size policy fs) (length fs))
            × (descriptors_in mem.new ≡ record (descriptors_in mem.old) { kinds = guarded (kinds_in mem.old) fs }))) }
        ensures stays { frames.new ≡ frames.old }
        ensures described { HoldsDescriptors frames.new mem.new }
        ensures held { HoldsRegions self.new mem.new }
        ensures keeps { KeepsSlots self.old mem.old self.new mem.new }
        ensures unseen { seen mem.new ≡ seen mem.old }
        ensures others { (p : ℕ) → p < 0x2A000 → byte_at mem.new p ≡ byte_at mem.old p }
        ensures size { length mem.new ≡ length mem.old }
        ensures book { IsBook (book_in self.new mem.new) }
    {
        held_regions_law();
        stored_law();
        match judge_declare(
            self.count(),
            self.declared(),
            frames,
            mem,
            root,
            va,
            size,
            policy,
        ) {
            Ok(pages) => {
                let row = self.page_row(&pages, va, size as u32, policy as u8);
                guard(frames, mem, &pages);
                self.admit(mem, row, pages.count);
                Ok(row.id)
            }
            Err(rule) => Err(rule),
        }
    }

    /// How many pages were declared.
    fn declared(&self) -> u32
        ensures { result ≡ self.now.declared }
    {
        self.declared
    }

    /// The row of a new region of pages.
    fn page_row(&self, pages: &Pages, va: u64, size: u32, policy: u8) -> Row
        requires whole { size ≡ 4096 * pages.now.count }
        requires none { (i : ℕ) → i < 16 → pages.now.count ≤ i → slice_index pages.now.frames i ≡ 0 }
        ensures region { (book : Book) → book.next ≡ self.now.next → region_of_row result ≡ page_region book va size policy (take pages.now.count pages.now.frames) }
        ensures id { result.id ≡ self.now.next }
        ensures row { (result.size ≡ size) × (result.pooled ≡ false) × (result.slot ≡ self.now.declared) }
        ensures storable { self.now.declared ≤ 128 → IsStorableRow result }
    {
        Row {
            id: self.next,
            first: va,
            size,
            tail: 0,
            policy,
            pooled: false,
            slot: self.declared,
            frames: pages.frames,
        }
    }

    /// Allocates a region of the pool at the least multiple of 16 from which on it is free, and makes its bytes 0.
    pub fn alloc(&mut self, mem: &mut PhysMem, size: u64, policy: u64) -> Result<Granted, Rule>
        requires held { HoldsRegions self.old mem.old }
        requires book { IsBook (book_in self.old mem.old) }
        requires next { self.old.next < 2 ^ 63 }
        ensures judged { rule_of result ≡ alloc_rule (book_in self.old mem.old) size policy }
        ensures refused { OnErr result ((self.new ≡ self.old) × (mem.new ≡ mem.old)) }
        ensures granted { IfOk result (λ it. (it.id ≡ self.old.next) × (pool_start ≤ it.place) × (it.place < pool_start + 65536)
            × (room (book_in self.old mem.old).regions size ≡ Some (it.place - pool_start))) }
        ensures allocated { IfOk result (λ it. book_in self.new mem.new
            ≡ with_one_more (book_in self.old mem.old) (pool_region (book_in self.old mem.old) size policy (it.place - pool_start)) 0) }
        ensures memory { IfOk result (λ it. seen mem.new ≡ stored (seen mem.old)
            (region_stores (pool_region (book_in self.old mem.old) size policy (it.place - pool_start)) 0 (replicate size 0))) }
        ensures held { HoldsRegions self.new mem.new }
        ensures keeps { KeepsSlots self.old mem.old self.new mem.new }
        ensures others { (p : ℕ) → is_book_frame (length mem.old / 4096) (p / 4096) ≡ true → (p < 0x2A000) ⊎ (0x40000 ≤ p)
            → byte_at mem.new p ≡ byte_at mem.old p }
        ensures size { length mem.new ≡ length mem.old }
        ensures book { IsBook (book_in self.new mem.new) }
    {
        held_regions_law();
        match self.judge_alloc(mem, size, policy) {
            Ok(place) => {
                let row = self.pool_row(place, size as u32, policy as u8);
                put_zeros(mem, &row);
                self.admit(mem, row, 0);
                Ok(Granted {
                    id: row.id,
                    place: row.first,
                })
            }
            Err(rule) => Err(rule),
        }
    }

    /// The place in the pool that an allocation gets, or the rule that it breaks.
    #[tactic(auto, unfolding(crate::specs::RegionCalls::alloc_rule))]
    fn judge_alloc(&self, mem: &PhysMem, size: u64, policy: u64) -> Result<u32, Rule>
        requires held { HoldsRegions self.now mem.now }
        ensures judged { rule_of result ≡ alloc_rule (book_in self.now mem.now) size policy }
        ensures room { IfOk result (λ p. room (book_in self.now mem.now).regions size ≡ Some p) }
        ensures within { IfOk result (λ p. (1 ≤ size) × (p + size ≤ 65536)) }
        ensures policy { IfOk result (λ p. (1 ≤ policy) × (policy ≤ 4)) }
        ensures count { IfOk result (λ p. length self.now.slots < 256) }
    {
        if is_bad_size(size) {
            return Err(Rule::BadRange);
        }
        if !is_policy(policy) {
            return Err(Rule::BadPolicy);
        }
        if self.count() >= MOST_REGIONS {
            return Err(Rule::TooManyRegions);
        }
        match self.room(mem, size as u32) {
            Some(place) => Ok(place),
            None => Err(Rule::NoRoom),
        }
    }

    /// The least multiple of 16 from which on so many bytes of the pool are free.
    fn room(&self, mem: &PhysMem, size: u32) -> Option<u32>
        requires held { HoldsRegions self.now mem.now }
        requires size { (1 ≤ size) × (size ≤ 65536) }
        ensures room { result ≡ room (book_in self.now mem.now).regions size }
        ensures within { IfSome result (λ place. place + size ≤ 65536) }
    {
        room(&self.slots, mem, size)
    }

    /// The row of a new region at a place of the pool.
    fn pool_row(&self, place: u32, size: u32, policy: u8) -> Row
        requires within { place + size ≤ 65536 }
        ensures region { (book : Book) → book.next ≡ self.now.next → region_of_row result ≡ pool_region book size policy place }
        ensures first { result.first ≡ pool_start + place }
        ensures id { result.id ≡ self.now.next }
        ensures row { (result.size ≡ size) × (result.pooled ≡ true) × (result.slot ≡ 0) }
        ensures held { IsHeld 128 result }
        ensures storable { IsStorableRow result }
    {
        Row {
            id: self.next,
            first: POOL_START + u64::from(place),
            size,
            tail: 0,
            policy,
            pooled: true,
            slot: 0,
            frames: [0; 16],
        }
    }

    /// Makes a row that of the youngest region, with no byte written.
    fn admit(&mut self, mem: &mut PhysMem, row: Row, pages: u32)
        requires held { HoldsRegions self.old mem.old }
        requires book { IsBook (book_in self.old mem.old) }
        requires id { row.id ≡ self.old.next }
        requires next { self.old.next < 2 ^ 63 }
        requires count { length self.old.slots < 256 }
        requires most { self.old.declared + pages ≤ 128 }
        requires size { row.size ≤ 65536 }
        requires pooled { row.pooled ≡ true → (pool_start ≤ row.first) × (row.first + row.size ≤ pool_start + 65536)
            × (is_range_taken (book_in self.old mem.old).regions row.size (row.first - pool_start) ≡ false) }
        requires declared { row.pooled ≡ false → (row.size ≡ 4096 * pages) × (row.slot ≡ self.old.declared) }
        requires number { row.slot ≡ (if row.pooled then 0 else self.old.declared) }
        requires pages { pages_of_row row ≡ pages }
        requires storable { IsStorableRow row }
        ensures added { book_in self.new mem.new ≡ with_one_more (book_in self.old mem.old) (region_of_row row) pages }
        ensures held { HoldsRegions self.new mem.new }
        ensures keeps { KeepsSlots self.old mem.old self.new mem.new }
        ensures elsewhere { DiffersInRegions mem.old mem.new }
    {
        let slot = self.slots.add();
        put_row(mem, slot, &row);
        self.next += 1;
        self.declared += pages;
    }

    /// Lets a region of the pool go: its slot and its bits are 0 from now on, its bytes stay.
    pub fn free(&mut self, mem: &mut PhysMem, id: u64) -> Result<(), Rule>
        requires held { HoldsRegions self.old mem.old }
        requires book { IsBook (book_in self.old mem.old) }
        ensures judged { rule_of result ≡ free_rule (book_in self.old mem.old) id }
        ensures refused { OnErr result ((self.new ≡ self.old) × (mem.new ≡ mem.old)) }
        ensures freed { OnOk result (book_in self.new mem.new ≡ freed (book_in self.old mem.old) id) }
        ensures held { HoldsRegions self.new mem.new }
        ensures keeps { KeepsSlots self.old mem.old self.new mem.new }
        ensures elsewhere { DiffersInRegions mem.old mem.new }
        ensures book { IsBook (book_in self.new mem.new) }
    {
        match self.judge_free(mem, id) {
            Ok(i) => {
                self.remove(mem, i);
                Ok(())
            }
            Err(rule) => Err(rule),
        }
    }

    /// Lets a region of the pool go, by its place in the order.
    fn remove(&mut self, mem: &mut PhysMem, i: usize)
        requires held { HoldsRegions self.old mem.old }
        requires book { IsBook (book_in self.old mem.old) }
        requires number { i < length self.old.slots }
        requires pooled { IfSome (slice_get (book_in self.old mem.old).regions i) (λ r. r.pooled ≡ true) }
        ensures freed { IfSome (slice_get (book_in self.old mem.old).regions i)
            (λ r. book_in self.new mem.new ≡ freed (book_in self.old mem.old) r.id) }
        ensures held { HoldsRegions self.new mem.new }
        ensures keeps { KeepsSlots self.old mem.old self.new mem.new }
        ensures elsewhere { DiffersInRegions mem.old mem.new }
    {
        let slot = self.slot_at(i);
        let row = row_at(mem, slot);
        clear_run(mem, row.first_bit(), row.size);
        clear_slot(mem, slot);
        self.slots.remove(i);
    }

    /// The place in the order of the region that goes, or the rule that freeing it breaks.
    fn judge_free(&self, mem: &PhysMem, id: u64) -> Result<usize, Rule>
        requires held { HoldsRegions self.now mem.now }
        ensures judged { rule_of result ≡ free_rule (book_in self.now mem.now) id }
        ensures found { IfOk result (λ i. (i < length self.now.slots)
            × (region_of (book_in self.now mem.now) id ≡ slice_get (book_in self.now mem.now).regions i)) }
    {
        let Some(i) = self.position(mem, id) else {
            return Err(Rule::BadRegion);
        };
        if self.nth_row(mem, i).pooled {
            Ok(i)
        } else {
            Err(Rule::NotAllocated)
        }
    }
}

/// Whether a range isn't empty and ends within a size.
fn fits_size(size: u32, offset: u64, length: u64) -> bool
    ensures { result ≡ (nat_le 1 length && nat_le (offset + length) size) }
{
    (1 <= length) & (u128::from(offset) + u128::from(length) <= u128::from(size))
}

/// Whether no region has such a size.
fn is_bad_size(size: u64) -> bool
    ensures { result ≡ (size == 0 || nat_lt 65536 size) }
{
    (size == 0) | (size > u64::from(POOL_SIZE))
}

/// Whether there is such a policy.
fn is_policy(policy: u64) -> bool
    ensures { result ≡ is_policy policy }
{
    (1 <= policy) & (policy <= 4)
}

/// Moves the tail of the row in a slot, where it is append-only.
fn move_tail(mem: &mut PhysMem, slot: u8, tail: u32)
    requires memory { 0x40000 ≤ length mem.old }
    ensures row { row_in mem.new slot ≡ moved (row_in mem.old slot) tail }
    ensures form { HasRowForm mem.old slot → HasRowForm mem.new slot }
    ensures elsewhere { DiffersInSlot slot mem.old mem.new }
{
    if row_at(mem, slot).policy == 2 {
        put_tail(mem, slot, tail);
    }
}
