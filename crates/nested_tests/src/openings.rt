//! What a memory of eighty frames and its kinds have to be for the descriptors to start, and whether it is so.

ghost use Rattle.std.specs.Prelude.{◌≡◌, ◌<◌, ◌≤◌, ℕ, ◌+◌, ◌*◌, ◌/◌, true, IfOk, length};
ghost use Rattle.nk_bits.specs.declared.kind.Kind.TheVariants.{Fixed, Hidden};
ghost use Rattle.nk_bits.specs.Kinds.{kind_of};
ghost use Rattle.page_desc.specs.FrameCounts.{IsSlotFixed};
ghost use Rattle.phys_mem.specs.MaskedMemory.{is_book_frame};
ghost use Rattle.phys_mem.specs.Memory.{byte_at, entry_in};

use memory_kit::memory_with;
use nk_bits::{Entry, Kind};
use phys_mem::{NoMemory, PhysMem};
use std::alloc::Global;

/// Frames from the first to before the end, and what they are.
pub type Run = (usize, usize, Kind);

/// The kind that the first run says of a frame; data where none says any.
fn kind_at(runs: &[Run], frame: usize) -> Kind {
    for (first, end, kind) in runs {
        if *first <= frame && frame < *end {
            return *kind;
        }
    }
    Kind::Data
}

/// The kinds of eighty frames: these, and data elsewhere.
pub fn kinds(runs: &[Run]) -> [Kind; 80] {
    let mut kinds = [Kind::Data; 80];
    for frame in 0..80 {
        kinds[frame] = kind_at(runs, frame);
    }
    kinds
}

/// A memory of eighty frames with these numbers of eight bytes, and 0 elsewhere.
pub fn memory(alloc: Global, entries: &[(u64, u64)]) -> Result<PhysMem, NoMemory>
    ensures { IfOk result (λ memory. length memory ≡ 4096 * 80) }
{
    memory_with(alloc, 80, entries)
}

/// Whether a frame of memory is fixed.
pub fn is_fixed(kinds: &[Kind], frame: u64) -> bool
    ensures { result ≡ true → kind_of kinds.now frame ≡ Fixed }
{
    frame < kinds.len() as u64 && matches!(kinds[frame as usize], Kind::Fixed)
}

/// Whether a frame of memory is hidden.
fn is_hidden(kinds: &[Kind], frame: u64) -> bool
    ensures { result ≡ true → kind_of kinds.now frame ≡ Hidden }
{
    frame < kinds.len() as u64 && matches!(kinds[frame as usize], Kind::Hidden)
}

/// Whether the kernel slot's tables are fixed.
pub fn is_slot_fixed(memory: &PhysMem, kinds: &[Kind]) -> bool
    requires { length memory.now ≡ 4096 * 80 }
    ensures { result ≡ true → IsSlotFixed kinds.now (entry_in memory.now) }
{
    for index in 0..512 {
        let entry = Entry(memory.entry(9, index));
        if entry.is_present() && !is_fixed(kinds, entry.frame()) {
            return false;
        }
    }
    is_fixed(kinds, 8) && is_fixed(kinds, 9)
}

/// Whether the books are hidden.
#[tactic(auto, unfolding(phys_mem::specs::MaskedMemory::is_book_frame))]
pub fn are_books_hidden(kinds: &[Kind]) -> bool
    ensures { result ≡ true → (f : ℕ) → is_book_frame 80 f ≡ true → kind_of kinds.now f ≡ Hidden }
{
    for frame in 26..65 {
        if !is_hidden(kinds, frame) {
            return false;
        }
    }
    true
}

/// Whether the frame of descriptors holds 0.
#[tactic(auto, unfolding(phys_mem::specs::MaskedMemory::is_book_frame))]
pub fn are_zero(memory: &PhysMem) -> bool
    requires { length memory.now ≡ 4096 * 80 }
    ensures { result ≡ true
        → (p : ℕ) → 0x40000 ≤ p → is_book_frame 80 (p / 4096) ≡ true → byte_at memory.now p ≡ 0 }
{
    for at in 0x40000..0x41000 {
        if memory.load8(at) != 0 {
            return false;
        }
    }
    true
}
