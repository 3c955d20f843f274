//! The places of the pool that are free.

ghost use Rattle.std.specs.Prelude.{◌≡◌, ◌<◌, ◌≤◌, ℕ, ◌+◌, ◌*◌, ◌%◌, All, IfNone, IfSome, List, Bool, false, true, length, map};
ghost use Rattle.std.specs.List.{list_any};
ghost use Rattle.region_book.specs.RegionCalls.{room};
ghost use Rattle.region_book.specs.RegionBytes.{row_in};
ghost use Rattle.region_book.specs.RegionRows.{IsHeld, region_at, row_meets};

use crate::row::POOL_SIZE;
use crate::slots::{Slots, row_at};
use phys_mem::PhysMem;

/// The least multiple of 16 from which on so many bytes of the pool are free. Each round passes one region's end.
pub(crate) fn room(slots: &Slots, mem: &PhysMem, size: u32) -> Option<u32>
    requires memory { 0x40000 ≤ length mem.now }
    requires held { All (IsHeld 128) (map (row_in mem.now) slots.now) }
    requires size { (1 ≤ size) × (size ≤ 65536) }
    ensures room { (bits : List ℕ) → result ≡ room (map (region_at bits) (map (row_in mem.now) slots.now)) size }
    ensures within { IfSome result (λ place. place + size ≤ 65536) }
{
    let mut place = 0;
    for _round in 0..POOL_SIZE / 16 {
        if place + size > POOL_SIZE {
            return None;
        }
        let behind = behind_met(slots, mem, size, place);
        if behind == place {
            return Some(place);
        }
        place = behind;
    }
    None
}

/// The place once it went behind each region in turn, in their order, that has a byte of so many from it on.
fn behind_met(slots: &Slots, mem: &PhysMem, size: u32, place: u32) -> u32
    requires memory { 0x40000 ≤ length mem.now }
    requires held { All (IsHeld 128) (map (row_in mem.now) slots.now) }
    requires within { (size ≤ 65536) × (place ≤ 65536) }
    requires even { place % 16 ≡ 0 }
    ensures stays { result ≡ place → list_any (row_meets size place) (map (row_in mem.now) slots.now) ≡ false }
    ensures on { (place ≤ result) × (result ≤ 65536) × (result % 16 ≡ 0) }
    ensures taken { (q : ℕ) → q % 16 ≡ 0 → place ≤ q → q < result
        → list_any (row_meets size q) (map (row_in mem.now) slots.now) ≡ true }
{
    let mut behind = place;
    for i in 0..slots.count() as usize {
        let row = row_at(mem, slots.at(i));
        if let Some(end) = row.end_of_met(size, behind) {
            behind = (end + 15) / 16 * 16;
        }
    }
    behind
}
