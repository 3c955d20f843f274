//! Declarations in a memory of 80 frames, with its descriptors in frame 64 and the slots of regions from 3C000 on, before and
//! after.

ghost use Rattle.std.specs.Prelude.{◌≡◌, ◌<◌, ◌≤◌, ◌+◌, ◌*◌, ◌/◌, ℕ, false, true, IfOk, IfSome, length};
ghost use Rattle.nk_bits.specs.declared.kind.Kind.TheVariants.{Hidden};
ghost use Rattle.nk_bits.specs.Kinds.{is_data, kind_of};
ghost use Rattle.nk_bits.specs.Paging.{is_present};
ghost use Rattle.page_desc.specs.DescriptorBytes.{HoldsDescriptors, kinds_in};
ghost use Rattle.page_desc.specs.FrameCounts.{IsSlotFixed};
ghost use Rattle.phys_mem.specs.MaskedMemory.{is_book_frame};
ghost use Rattle.phys_mem.specs.Memory.{byte_at, entry_in};
ghost use Rattle.region_book.specs.RegionBytes.{HoldsRegions, book_in};
ghost use Rattle.region_book.specs.RegionRecords.{IsBook};

use super::are_zero;
use memory_kit::{memory_with, peek_byte};
use nk_bits::{Kind, Rule};
use page_desc::Frames;
use phys_mem::{NoMemory, PhysMem};
use region_book::{Region, Regions, held_regions_law};
use std::alloc::{AllocError, Global};

/// Data but for a table of each level, those of the kernel slot, the pool and the books.
fn kinds(alloc: Global) -> Result<Vec<Kind>, AllocError>
    ensures { IfOk result (λ kinds. length kinds.items ≡ 80) }
{
    let mut kinds = vec![in alloc; Kind::Data; 80]?;
    kinds[4] = Kind::Table(4);
    kinds[5] = Kind::Table(3);
    kinds[6] = Kind::Table(2);
    kinds[7] = Kind::Table(1);
    kinds[8] = Kind::Fixed;
    kinds[9] = Kind::Fixed;
    for frame in 10..26 {
        kinds[frame] = Kind::Guarded;
    }
    for frame in 26..65 {
        kinds[frame] = Kind::Hidden;
    }
    Ok(kinds)
}

/// Pages 0 to 4 are frames 2, 3, 2, 70, which is loose, and 7, a table.
static ENTRIES: [(u64, u64); 8] = [
    (0x4000, 0x5027),
    (0x5000, 0x6027),
    (0x6000, 0x7027),
    (0x7000, 0x8000_0000_0000_2021),
    (0x7008, 0x8000_0000_0000_3021),
    (0x7010, 0x8000_0000_0000_2021),
    (0x7018, 0x8000_0000_0004_6063),
    (0x7020, 0x8000_0000_0000_7021),
];

/// A memory of eighty frames with those entries.
fn memory(alloc: Global) -> Result<PhysMem, NoMemory>
    ensures { IfOk result (λ mem. length mem ≡ 4096 * 80) }
{
    memory_with(alloc, 80, &ENTRIES)
}

/// Whether each of a row of frames is of one kind.
fn are_of(kinds: &[Kind], first: usize, end: usize, kind: Kind) -> bool
    requires { (first ≤ end) × (end ≤ length kinds.now) }
    ensures { result ≡ true → (f : ℕ) → first ≤ f → f < end → kind_of kinds.now f ≡ kind }
{
    for frame in first..end {
        if kinds[frame] != kind {
            return false;
        }
    }
    true
}

/// Whether the bytes of a frame are 0.
fn is_zero(mem: &PhysMem, frame: u32) -> bool
    requires { 4096 * frame + 4096 ≤ length mem.now }
    ensures { result ≡ true → (p : ℕ) → p / 4096 ≡ frame → byte_at mem.now p ≡ 0 }
{
    for byte in 0..4096 {
        if mem.load8(4096 * u64::from(frame) + byte) != 0 {
            return false;
        }
    }
    true
}

/// Whether no entry of frame 9 is present.
#[tactic(auto, unfolding(nk_bits::specs::Paging::is_present))]
fn is_directory_empty(mem: &PhysMem) -> bool
    requires { length mem.now ≡ 4096 * 80 }
    ensures { result ≡ true → (i : ℕ) → i < 512 → is_present (entry_in mem.now 9 i) ≡ false }
{
    for index in 0..512 {
        if mem.entry(9, index) != 0 {
            return false;
        }
    }
    true
}

/// Whether no entry of frame 9 is present, and frames 8 and 9 are fixed.
fn is_slot_fixed(mem: &PhysMem, kinds: &[Kind]) -> bool
    requires mem { length mem.now ≡ 4096 * 80 }
    requires kinds { length kinds.now ≡ 80 }
    ensures { result ≡ true → IsSlotFixed kinds.now (entry_in mem.now) }
{
    is_directory_empty(mem) & are_of(kinds, 8, 10, Kind::Fixed)
}

/// Whether the books are hidden.
#[tactic(auto, unfolding(phys_mem::specs::MaskedMemory::is_book_frame))]
fn are_books_hidden(kinds: &[Kind]) -> bool
    requires { length kinds.now ≡ 80 }
    ensures { result ≡ true → (f : ℕ) → is_book_frame 80 f ≡ true → kind_of kinds.now f ≡ Hidden }
{
    are_of(kinds, 26, 65, Kind::Hidden)
}

/// Starts the descriptors, where memory and kinds admit it.
#[tactic(auto, unfolding(phys_mem::specs::MaskedMemory::is_book_frame))]
fn begin(mem: &mut PhysMem, kinds: &[Kind], regions: &Regions) -> Option<Frames>
    requires mem { length mem.old ≡ 4096 * 80 }
    requires kinds { length kinds.now ≡ 80 }
    requires regions { HoldsRegions regions.now mem.old }
    requires book { IsBook (book_in regions.now mem.old) }
    ensures held { IfSome result (λ frames. HoldsDescriptors frames mem.new) }
    ensures regions { IfSome result (λ frames. HoldsRegions regions.now mem.new) }
    ensures book { IfSome result (λ frames. IsBook (book_in regions.now mem.new)) }
{
    held_regions_law();
    if is_slot_fixed(mem, kinds) & are_books_hidden(kinds) & is_zero(mem, 64) {
        Some(Frames::start(mem, kinds))
    } else {
        None
    }
}

/// What is done or asked, and what it is to give.
#[derive(Clone, Copy)]
enum Step {
    /// Pages of the root in frame 4 are declared, in a book with no region: from which on, how many, and a policy; the
    /// identifier, or the rule that is broken.
    Declare(u64, u64, u64, Result<u64, Rule>),
    /// The first byte of slot 0 that isn't one of `SLOT`.
    Slot(Option<usize>),
    /// A slot is 0.
    Empty(u64),
    /// The first frame of another kind than in `GUARDED`.
    Kinds(Option<u32>),
    /// A frame, and its loose leaves.
    Loose(u32, u32),
    /// An identifier, and its region.
    Found(u64, Option<Region>),
}

use Step::{Declare, Empty, Found, Kinds, Loose, Slot};

/// The index of the first step that gives something else. Where the opening can't be made it is the largest number.
fn wrong_step(alloc: Global, steps: &[Step]) -> Option<usize> {
    let Ok(mut mem) = memory(alloc) else {
        return Some(usize::MAX);
    };
    let Ok(kinds) = kinds(alloc) else {
        return Some(usize::MAX);
    };
    let mut regions = Regions::start(&mut mem);
    let Some(mut frames) = begin(&mut mem, &kinds, &regions) else {
        return Some(usize::MAX);
    };
    for (index, step) in steps.iter().enumerate() {
        if !is_met(&mut regions, &mut frames, &mut mem, step) {
            return Some(index);
        }
    }
    None
}

/// Whether a step gives what it is to give.
fn is_met(regions: &mut Regions, frames: &mut Frames, mem: &mut PhysMem, step: &Step) -> bool
    requires regions { HoldsRegions regions.old mem.old }
    requires book { IsBook (book_in regions.old mem.old) }
    requires held { HoldsDescriptors frames.old mem.old }
    ensures regions { HoldsRegions regions.new mem.new }
    ensures book { IsBook (book_in regions.new mem.new) }
    ensures held { HoldsDescriptors frames.new mem.new }
{
    match *step {
        Declare(page, pages, policy, answer) => {
            declare(regions, frames, mem, page.min(512), pages.min(512), policy) == answer
        }
        Slot(at) => first_other(mem) == at,
        Empty(slot) => are_zero(mem, 0x3C000 + 64 * slot.min(255), 8),
        Kinds(frame) => other_kind(frames, mem) == frame,
        Loose(frame, count) => frames.loose(mem, frame) == count,
        Found(id, region) => regions.find(mem, id) == region,
    }
}

/// Whether no frame of the pool is data.
fn is_pool_apart(frames: &Frames, mem: &PhysMem) -> bool
    requires { HoldsDescriptors frames.now mem.now }
    ensures { result ≡ true → (f : ℕ) → 10 ≤ f → f < 26 → is_data (kind_of (kinds_in mem.now) f) ≡ false }
{
    for frame in 10..26 {
        if frames.kind(mem, frame) == Kind::Data {
            return false;
        }
    }
    true
}

/// Declares pages of the root in frame 4, in a book with no region; in another rule 2 stands for what isn't tried.
fn declare(
    regions: &mut Regions,
    frames: &mut Frames,
    mem: &mut PhysMem,
    page: u64,
    pages: u64,
    policy: u64,
) -> Result<u64, Rule>
    requires regions { HoldsRegions regions.old mem.old }
    requires book { IsBook (book_in regions.old mem.old) }
    requires held { HoldsDescriptors frames.old mem.old }
    requires small { (page ≤ 512) × (pages ≤ 512) }
    ensures regions { HoldsRegions regions.new mem.new }
    ensures book { IsBook (book_in regions.new mem.new) }
    ensures held { HoldsDescriptors frames.new mem.new }
{
    let is_first = regions.count() == 0 && regions.next() == 256;
    if !is_first || !is_pool_apart(frames, mem) {
        return Err(Rule::BadFrame);
    }
    regions.declare(frames, mem, 4, 4096 * page, 4096 * pages, policy)
}

/// The first slot's bytes once pages 1 and 2 are declared: identifier 256, address 1000, size 2000, policy 2, frames 3 and 2.
#[rattlefmt::skip]
static SLOT: [u8; 64] = [
    0, 1, 0, 0, 0, 0, 0, 0, 0, 16, 0, 0, 0, 0, 0, 0, 0, 32, 0, 0, 0, 0, 0, 0, 2, 0, 0, 0, 0, 0, 0, 0,
    3, 0, 2, 0, 0, 0, 0, 0, 0, 0, 0, 0, 0, 0, 0, 0, 0, 0, 0, 0, 0, 0, 0, 0, 0, 0, 0, 0, 0, 0, 0, 0,
];

/// The first byte of slot 0 that isn't one of `SLOT`.
fn first_other(mem: &PhysMem) -> Option<usize> {
    for (at, byte) in SLOT.iter().enumerate() {
        if peek_byte(mem, 0x3C000 + (at as u64 & 63)) != *byte {
            return Some(at);
        }
    }
    None
}

/// The kinds of frames once pages 1 and 2 are declared.
static GUARDED: [(u32, Kind); 5] = [
    (1, Kind::Data),
    (2, Kind::Guarded),
    (3, Kind::Guarded),
    (4, Kind::Table(4)),
    (70, Kind::Data),
];

/// The first frame of another kind.
fn other_kind(frames: &Frames, mem: &PhysMem) -> Option<u32>
    requires { HoldsDescriptors frames.now mem.now }
{
    for row in &GUARDED {
        if frames.kind(mem, row.0) != row.1 {
            return Some(row.0);
        }
    }
    None
}

/// Steps, and the index of the first that gives something else.
type Case = (Option<usize>, &'static [Step]);

static CASES: [Case; 2] = [
    // A wrong rule is found: page 4 is a table, and not loose.
    (
        Some(1),
        &[
            Declare(0, 0, 1, Err(Rule::BadRange)),
            Declare(4, 1, 1, Err(Rule::StillLoose)),
            Declare(0, 17, 1, Err(Rule::BadRange)),
        ],
    ),
    // Declared pages are guarded, those of calls that are refused aren't.
    (
        None,
        &[
            Declare(0, 0, 1, Err(Rule::BadRange)),
            Declare(0, 17, 1, Err(Rule::BadRange)),
            Declare(5, 1, 1, Err(Rule::BadRange)),
            Declare(0, 3, 5, Err(Rule::BadRange)),
            Declare(0, 2, 0, Err(Rule::BadPolicy)),
            Declare(0, 2, 5, Err(Rule::BadPolicy)),
            Declare(3, 2, 1, Err(Rule::NotData)),
            Declare(2, 2, 1, Err(Rule::StillLoose)),
            Slot(Some(1)),
            Kinds(Some(2)),
            Declare(1, 2, 2, Ok(256)),
            Kinds(None),
            Loose(70, 1),
            Found(
                256,
                Some(Region {
                    id: 256,
                    policy: 2,
                    place: 4096,
                    size: 8192,
                    tail: 0,
                    pooled: false,
                }),
            ),
            Slot(None),
            Empty(1),
        ],
    ),
];

#[test]
fn declared_pages_are_guarded(rt: HostRuntime) {
    for (wrong, steps) in &CASES {
        assert!(rt; wrong_step(rt.alloc(), steps) == *wrong);
    }
}
