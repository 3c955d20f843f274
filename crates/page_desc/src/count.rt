//! What counts, and one count of the descriptors in memory, up and down by one.

ghost use Rattle.std.specs.Prelude.{◌≡◌, ◌<◌, ◌≤◌, ℕ, ◌+◌, ◌-◌, ◌*◌, ◌^◌, true, ◌&&◌, ◌==◌, length};
ghost use Rattle.page_desc.specs.DescriptorBytes.{field_in};
ghost use Rattle.page_desc.specs.FieldChanges.{DiffersInField};
ghost use Rattle.page_desc.specs.FrameCounts.{is_link_level, is_loose, count_if};

use crate::fields::{field, put};
use nk_bits::Entry;
use phys_mem::PhysMem;

/// Whether the entry is a loose leaf, where it is one of a table of level 1.
pub fn is_loose(entry: Entry) -> bool
    ensures { result ≡ is_loose entry.0 }
{
    let rights = entry.rights();
    entry.is_present() && (rights.can_write || rights.user)
}

/// Whether the entries of a table of this level are links.
pub fn is_link_level(level: u8) -> bool
    ensures { result ≡ is_link_level level }
{
    2 <= level && level <= 4
}

/// Counts the frame once more where the test stands and the frame is in memory.
pub fn raise(mem: &mut PhysMem, at: u32, frames: u32, stands: bool, frame: u64)
    requires memory { (length mem.old ≡ 4096 * frames) × (65 ≤ frames) }
    requires at { at ≤ 12 }
    requires room { stands ≡ true → frame < frames → field_in mem.old at frame < 2 ^ 32 - 1 }
    ensures each { (other : ℕ) → other < frames
        → field_in mem.new at other ≡ field_in mem.old at other + count_if (stands && frame == other) }
    ensures differs { DiffersInField frames at mem.old mem.new }
{
    if stands && frame < u64::from(frames) {
        let count = field(mem, at, frame as u32);
        put(mem, at, frames, frame as u32, count + 1);
    }
}

/// Counts the frame once less where the test stands and the frame is in memory.
pub fn lower(mem: &mut PhysMem, at: u32, frames: u32, stands: bool, frame: u64)
    requires memory { (length mem.old ≡ 4096 * frames) × (65 ≤ frames) }
    requires at { at ≤ 12 }
    requires counted { stands ≡ true → frame < frames → 1 ≤ field_in mem.old at frame }
    ensures each { (other : ℕ) → other < frames
        → field_in mem.new at other + count_if (stands && frame == other) ≡ field_in mem.old at other }
    ensures differs { DiffersInField frames at mem.old mem.new }
{
    if stands && frame < u64::from(frames) {
        let count = field(mem, at, frame as u32);
        put(mem, at, frames, frame as u32, count - 1);
    }
}

/// Counts one frame once less where the first test stands, and then another once more where the second does.
pub fn change(mem: &mut PhysMem, at: u32, frames: u32, was: bool, from: u64, is: bool, to: u64)
    requires memory { (length mem.old ≡ 4096 * frames) × (65 ≤ frames) }
    requires at { at ≤ 12 }
    requires counted { was ≡ true → from < frames → 1 ≤ field_in mem.old at from }
    requires room { is ≡ true → to < frames → field_in mem.old at to < 2 ^ 32 - 1 }
    ensures each { (other : ℕ) → other < frames
        → field_in mem.new at other + count_if (was && from == other) ≡ field_in mem.old at other + count_if (is && to == other) }
    ensures differs { DiffersInField frames at mem.old mem.new }
{
    lower(mem, at, frames, was, from);
    raise(mem, at, frames, is, to);
}
