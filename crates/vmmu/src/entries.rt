//! The entries of tables in memory that holds descriptors: what is read and stored there is seen, and no book changes.

ghost use Rattle.std.specs.Prelude.{◌≡◌, ◌<◌, ◌≤◌, ℕ, ◌+◌, ◌*◌, ◌/◌, false, length};
ghost use Rattle.phys_mem.specs.MaskedMemory.{is_book_frame, seen};
ghost use Rattle.phys_mem.specs.Memory.{byte_at, entry_in, frame_zeroed};
ghost use Rattle.page_desc.specs.DescriptorBytes.{HoldsDescriptors, descriptors_in};
ghost use Rattle.vmmu.specs.TableCalls.{memory_written};

use nk_bits::Entry;
use page_desc::{Frames, stored_law};
use phys_mem::{PhysMem, frame_law, mask_law, memory_law};

/// The entry of the table in a frame that is none of the books'.
pub fn seen_entry(frames: &Frames, mem: &PhysMem, frame: u64, index: u64) -> Entry
    requires held { HoldsDescriptors frames.now mem.now }
    requires frame { frame < frames.now }
    requires index { index < 512 }
    requires shown { is_book_frame frames.now frame ≡ false }
    ensures { result.0 ≡ entry_in (seen mem.now) frame index }
{
    mask_law();
    let _frames = frames.frames();
    Entry(mem.entry(frame as u32, index as u32))
}

/// Stores an entry of the table in a frame that is none of the books'.
pub fn store_entry(frames: &Frames, mem: &mut PhysMem, frame: u64, index: u64, value: u64)
    requires held { HoldsDescriptors frames.now mem.old }
    requires frame { frame < frames.now }
    requires index { index < 512 }
    requires shown { is_book_frame frames.now frame ≡ false }
    ensures seen { seen mem.new ≡ memory_written (seen mem.old) frame index value }
    ensures descriptors { descriptors_in mem.new ≡ descriptors_in mem.old }
    ensures held { HoldsDescriptors frames.now mem.new }
    ensures others { (p : ℕ) → 0x1A000 ≤ p → p < 0x40000 → byte_at mem.new p ≡ byte_at mem.old p }
{
    memory_law();
    frame_law();
    mask_law();
    stored_law();
    let _frames = frames.frames();
    mem.store64(4096 * frame + 8 * index, value);
}

/// Makes every byte of a frame 0 that is none of the books'.
pub fn clear_frame(frames: &Frames, mem: &mut PhysMem, frame: u32)
    requires held { HoldsDescriptors frames.now mem.old }
    requires frame { frame < frames.now }
    requires shown { is_book_frame frames.now frame ≡ false }
    ensures seen { seen mem.new ≡ frame_zeroed (seen mem.old) frame }
    ensures descriptors { descriptors_in mem.new ≡ descriptors_in mem.old }
    ensures held { HoldsDescriptors frames.now mem.new }
    ensures others { (p : ℕ) → 0x1A000 ≤ p → p < 0x40000 → byte_at mem.new p ≡ byte_at mem.old p }
{
    frame_law();
    mask_law();
    stored_law();
    let _frames = frames.frames();
    mem.zero_frame(frame);
}
