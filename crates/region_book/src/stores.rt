//! The bytes of a region in memory, written from an offset on, and the frames of all regions' rows and bits, made 0.

ghost use Rattle.std.specs.Prelude.{◌≡◌, ◌<◌, ◌≤◌, ℕ, ◌+◌, ◌/◌, false, true, length, replicate};
ghost use Rattle.phys_mem.specs.MaskedMemory.{is_book_frame, seen};
ghost use Rattle.phys_mem.specs.Memory.{byte_at, stored};
ghost use Rattle.region_book.specs.RegionBytes.{DiffersInRegions};
ghost use Rattle.region_book.specs.RegionRows.{IsHeld, row_place, row_stores};

use crate::row::Row;
use phys_mem::{PhysMem, frame_law, mask_law, memory_law};

/// The first frame of the bits.
const FIRST_FRAME: u32 = 42;

/// The first frame behind those of the slots.
const FRAMES_END: u32 = 64;

/// Writes bytes from an offset on.
pub(crate) fn put(mem: &mut PhysMem, row: &Row, offset: u32, bytes: &[u8])
    requires held { IsHeld 128 row.now }
    requires within { offset + length bytes.now ≤ row.now.size }
    requires memory { (k : ℕ) → k < row.now.size → row_place row.now k < length mem.old }
    requires apart { (k : ℕ) → k < row.now.size → is_book_frame (length mem.old / 4096) (row_place row.now k / 4096) ≡ false }
    ensures stored { mem.new ≡ stored mem.old (row_stores row.now offset bytes.now) }
    ensures seen { seen mem.new ≡ stored (seen mem.old) (row_stores row.now offset bytes.now) }
    ensures others { (p : ℕ) → is_book_frame (length mem.old / 4096) (p / 4096) ≡ true → byte_at mem.new p ≡ byte_at mem.old p }
    ensures length { length mem.new ≡ length mem.old }
{
    memory_law();
    mask_law();
    for i in 0..bytes.len() {
        let place = row.place(offset + i as u32);
        mem.store8(place, bytes[i]);
    }
}

/// Makes every byte 0.
pub(crate) fn put_zeros(mem: &mut PhysMem, row: &Row)
    requires held { IsHeld 128 row.now }
    requires memory { (k : ℕ) → k < row.now.size → row_place row.now k < length mem.old }
    requires apart { (k : ℕ) → k < row.now.size → is_book_frame (length mem.old / 4096) (row_place row.now k / 4096) ≡ false }
    ensures stored { mem.new ≡ stored mem.old (row_stores row.now 0 (replicate row.now.size 0)) }
    ensures seen { seen mem.new ≡ stored (seen mem.old) (row_stores row.now 0 (replicate row.now.size 0)) }
    ensures others { (p : ℕ) → is_book_frame (length mem.old / 4096) (p / 4096) ≡ true → byte_at mem.new p ≡ byte_at mem.old p }
    ensures length { length mem.new ≡ length mem.old }
{
    memory_law();
    mask_law();
    for offset in 0..row.size {
        let place = row.place(offset);
        mem.store8(place, 0);
    }
}

/// Makes every byte of the slots and the bits 0.
pub(crate) fn clear_books(mem: &mut PhysMem)
    requires size { 0x40000 ≤ length mem.old }
    ensures zero { (p : ℕ) → 0x2A000 ≤ p → p < 0x40000 → byte_at mem.new p ≡ 0 }
    ensures elsewhere { DiffersInRegions mem.old mem.new }
{
    frame_law();
    for frame in FIRST_FRAME..FRAMES_END {
        mem.zero_frame(frame);
    }
}
