//! What the book keeps of a region, but for the bits of its written bytes.

ghost use Rattle.std.specs.Prelude.{◌≡◌, ◌≢◌, ◌==◌, ◌<◌, ◌≤◌, ℕ, ◌+◌, ◌-◌, ◌^◌, Bool, List, IfNone, IfSome, Some, None, length, slice_index_or, false, true};
ghost use Rattle.std.specs.List.{position};
ghost use Rattle.region_book.specs.declared.row.Row.{Row};
ghost use Rattle.nk_bits.specs.KernelLayout.{pool_start};
ghost use Rattle.region_book.specs.RegionRecords.{shown_region};
ghost use Rattle.region_book.specs.RegionRows.{IsHeld, first_bit, row_place, region_with, row_meets, row_of};

use crate::regions::Region;
use nk_bits::{POOL_FRAME, POOL_START};

/// The size of the pool, and of the largest region.
pub(crate) const POOL_SIZE: u32 = 65536;

/// Where the pool begins in memory.
const POOL_PLACE: u64 = 4096 * POOL_FRAME as u64;

/// A region's row.
#[derive(Clone, Copy)]
pub(crate) struct Row {
    pub id: u64,
    /// Its first linear address.
    pub first: u64,
    pub size: u32,
    pub tail: u32,
    pub policy: u8,
    pub pooled: bool,
    /// Of a declared region, how many pages were declared before it; 0 of one of the pool.
    pub slot: u32,
    /// Of a declared region, its frames in order.
    pub frames: [u16; 16],
}

impl Row {
    /// The row, as others see its region.
    pub fn shown(&self) -> Region
        ensures { (written : List Bool) → result ≡ shown_region (region_with written self.now) }
    {
        Region {
            id: self.id,
            policy: self.policy,
            place: self.first,
            size: self.size,
            tail: self.tail,
            pooled: self.pooled,
        }
    }

    /// Where a region of the pool begins in it.
    fn start(&self) -> u32
        requires held { IsHeld 128 self.now }
        requires pooled { self.now.pooled ≡ true }
        ensures start { result ≡ self.now.first - pool_start }
        ensures within { result + self.now.size ≤ 65536 }
    {
        (self.first - POOL_START) as u32
    }

    /// The first of its bits.
    #[tactic(auto, unfolding(crate::specs::RegionRows::first_bit))]
    pub fn first_bit(&self) -> u32
        requires held { IsHeld 128 self.now }
        ensures first { result ≡ first_bit self.now }
        ensures within { result + self.now.size ≤ 589824 }
    {
        if self.pooled {
            self.start()
        } else {
            POOL_SIZE + 4096 * self.slot
        }
    }

    /// The place in memory of the byte at an offset.
    #[tactic(auto, unfolding(crate::specs::RegionRows::row_place))]
    pub fn place(&self, offset: u32) -> u64
        requires held { IsHeld 128 self.now }
        requires offset { offset < self.now.size }
        ensures { result ≡ row_place self.now offset }
    {
        if self.pooled {
            POOL_PLACE + u64::from(self.start()) + u64::from(offset)
        } else {
            4096 * u64::from(self.frames[(offset / 4096) as usize]) + u64::from(offset % 4096)
        }
    }

    /// Where the region ends in the pool, if it lies there and has a byte of a range of the pool.
    pub fn end_of_met(&self, size: u32, place: u32) -> Option<u32>
        requires held { IsHeld 128 self.now }
        requires within { (size ≤ 65536) × (place ≤ 65536) }
        ensures none { IfNone result (row_meets size place self.now ≡ false) }
        ensures some { IfSome result (λ end. (place < end) × (end ≤ 65536)
            × ((q : ℕ) → place ≤ q → q < end → row_meets size q self.now ≡ true)) }
    {
        if !self.pooled {
            return None;
        }
        let start = self.start();
        let end = start + self.size;
        if place < end && start < place + size {
            Some(end)
        } else {
            None
        }
    }
}
