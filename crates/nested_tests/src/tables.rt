//! The calls, over a memory of eighty frames: the root in frame 5, the kernel slot's tables in frames 6 to 10, the books,
//! and data elsewhere but for frame 2. Frame 9 names 10; a leaf of frame 8 is loose to frame 3, and frame 14 isn't zero.

ghost use Rattle.std.specs.Prelude.{◌≡◌, ◌≢◌, ◌<◌, ◌≤◌, ℕ, ◌+◌, ◌*◌, ◌/◌, true, false, IfOk, IfSome, length};
ghost use Rattle.nk_bits.specs.declared.kind.Kind.TheVariants.{Fixed, Hidden, Table};
ghost use Rattle.nk_bits.specs.Kinds.{kind_of, level_of};
ghost use Rattle.nk_bits.specs.Paging.{frame_of, is_present};
ghost use Rattle.phys_mem.specs.MaskedMemory.{is_book_frame};
ghost use Rattle.phys_mem.specs.Memory.{byte_at, entry_in};
ghost use Rattle.page_desc.specs.DescriptorBytes.{HoldsTables};

use crate::openings::{Run, are_books_hidden, are_zero, is_fixed, kinds, memory};
use memory_kit::peek_word;
use nk_bits::{Entry, Kind};
use page_desc::{Frames, descriptor_law, stored_law};
use phys_mem::{PhysMem, mask_law};
use std::alloc::Global;
use vmmu::Tables4;

/// The root, the kernel slot's tables, the handler and the books.
static RUNS: [Run; 4] = [
    (2, 3, Kind::Fixed),
    (5, 6, Kind::Table(4)),
    (6, 11, Kind::Fixed),
    (26, 65, Kind::Hidden),
];

/// The entries of the root and of frames 6, 7 and 9, and others that no rule asks of.
static ENTRIES: [(u64, u64); 7] = [
    (0x5FF8, 0x6027),
    (0x6000, 0x7027),
    (0x8018, 0x8000_0000_0000_3063),
    (0x9000, 0xA027),
    (0xA000, 0x8000_0000_0000_2063),
    (0xE000, 0x2067),
    (0xEFF8, 0x2067),
];

/// Whether a frame holds no table.
fn is_no_table(kinds: &[Kind], frame: usize) -> bool
    requires { frame < length kinds.now }
    ensures { result ≡ true → level_of (kind_of kinds.now frame) ≡ 0 }
{
    !matches!(kinds[frame], Kind::Table(_))
}

/// Whether a frame of memory holds a table of level 4.
fn is_root(kinds: &[Kind], frame: usize) -> bool
    ensures { result ≡ true → kind_of kinds.now frame ≡ Table 4 }
{
    frame < kinds.len() && matches!(kinds[frame], Kind::Table(4))
}

/// Whether frame 5 alone holds a table by its kind.
fn is_one_table(kinds: &[Kind]) -> bool
    requires { length kinds.now ≡ 80 }
    ensures { result ≡ true → (f : ℕ) → f ≢ 5 → level_of (kind_of kinds.now f) ≡ 0 }
{
    for frame in 0..80 {
        if frame != 5 && !is_no_table(kinds, frame) {
            return false;
        }
    }
    true
}

/// Whether each present entry of a table names this frame.
fn names(mem: &PhysMem, table: u64, target: u64) -> bool
    requires { 4096 * table + 4096 ≤ length mem.now }
    ensures { result ≡ true → (i : ℕ) → i < 512 → is_present (entry_in mem.now table i) ≡ true
        → frame_of (entry_in mem.now table i) ≡ target }
{
    let _frames = mem.frames();
    for index in 0..512 {
        let entry = Entry(mem.entry(table as u32, index));
        if entry.is_present() && entry.frame() != target {
            return false;
        }
    }
    true
}

/// Whether no entry of the root is present but the last, which is the kernel slot's.
fn is_slot_alone(mem: &PhysMem) -> bool
    requires { 4096 * 80 ≤ length mem.now }
    ensures { result ≡ true → ((i : ℕ) → i < 511 → is_present (entry_in mem.now 5 i) ≡ false) × (entry_in mem.now 5 511 ≡ 24615) }
{
    for index in 0..511 {
        if Entry(mem.entry(5, index)).is_present() {
            return false;
        }
    }
    mem.entry(5, 511) == 0x6027
}

/// Starts the descriptors, where memory and kinds admit it.
fn begin(mem: &mut PhysMem, kinds: &[Kind]) -> Option<Tables4>
    requires memory { length mem.old ≡ 4096 * 80 }
    requires kinds { length kinds.now ≡ 80 }
    ensures { IfSome result (λ tables. HoldsTables tables.frames tables.root mem.new) }
{
    mask_law();
    stored_law();
    descriptor_law();
    let are_fixed = is_fixed(kinds, 2)
        & is_fixed(kinds, 6)
        & is_fixed(kinds, 7)
        & is_fixed(kinds, 8)
        & is_fixed(kinds, 9)
        & is_fixed(kinds, 10);
    let are_kinds = are_books_hidden(kinds) & is_one_table(kinds) & is_root(kinds, 5);
    let are_entries = names(mem, 6, 7) & names(mem, 7, 8) & names(mem, 9, 10);
    if are_fixed & are_kinds & are_entries & is_slot_alone(mem) & are_zero(mem) {
        let frames = Frames::start(mem, kinds);
        Some(Tables4 { frames, root: 5 })
    } else {
        None
    }
}

/// A call, or a question.
#[derive(Clone, Copy)]
enum Call {
    Declare(u64, u64),
    Write(u64, u64, u64),
    Remove(u64),
    Root(u64),
    /// The number of eight bytes at a place.
    Holds(u64),
    /// The frame of the root.
    RootFrame,
}

use Call::{Declare, Holds, Remove, Root, RootFrame, Write};

/// A call, and the number of the rule that it breaks, 0 where it breaks none; or a question and its answer.
type Row = (Call, u64);

/// The answer to a call or a question.
fn serve(tables: &mut Tables4, mem: &mut PhysMem, call: Call) -> u64
    requires books { HoldsTables tables.old.frames tables.old.root mem.old }
    ensures books { HoldsTables tables.new.frames tables.new.root mem.new }
{
    let answer = match call {
        Declare(level, frame) => tables.declare_table(mem, level, frame),
        Write(frame, index, value) => tables.write_entry(mem, frame, index, value),
        Remove(frame) => tables.remove_table(mem, frame),
        Root(frame) => tables.load_root(mem, frame),
        Holds(at) => return peek_word(mem, at),
        RootFrame => return u64::from(tables.root),
    };
    match answer {
        Ok(()) => 0,
        Err(rule) => rule.number(),
    }
}

/// The index of the first row with another answer, over the opening. Where that can't be made it is the largest number.
fn wrong_row(alloc: Global, rows: &[Row]) -> Option<usize> {
    let Ok(mut mem) = memory(alloc, &ENTRIES) else {
        return Some(usize::MAX);
    };
    let Some(mut tables) = begin(&mut mem, &kinds(&RUNS)) else {
        return Some(usize::MAX);
    };
    for (index, (call, number)) in rows.iter().enumerate() {
        if serve(&mut tables, &mut mem, *call) != *number {
            return Some(index);
        }
    }
    None
}

/// Rows, and the index of the first with another answer.
type Case = (Option<usize>, &'static [Row]);

static CASES: [Case; 6] = [
    // A call with another answer is found, at its place.
    (
        Some(1),
        &[(Declare(1, 80), 2), (Declare(0, 14), 4), (Declare(1, 2), 4)],
    ),
    // Tables are declared.
    (
        None,
        &[
            // Frames outside memory, levels, kinds, a leaf of the kernel slot that is loose.
            (Declare(1, 80), 2),
            (Declare(1, 0x1_0000_000E), 2),
            (Declare(0, 14), 3),
            (Declare(5, 14), 3),
            (Declare(0x101, 14), 3),
            (Declare(1, 2), 4),
            (Declare(1, 5), 4),
            (Declare(1, 10), 4),
            (Declare(1, 64), 4),
            (Declare(1, 3), 5),
            // Two rules at once.
            (Declare(0, 80), 2),
            (Declare(5, 10), 3),
            (Declare(4, 2), 4),
            // A table of each level, once.
            (Declare(3, 11), 0),
            (Declare(2, 12), 0),
            (Declare(1, 13), 0),
            (Declare(1, 13), 4),
            (Declare(4, 14), 0),
            (Write(5, 0, 0xB027), 0),
            (Write(11, 0, 0xC027), 0),
            (Write(12, 511, 0xD027), 0),
            (Write(13, 0, 0x8000_0000_0000_F063), 0),
            (Holds(0xE000), 0),
            (Holds(0xEFF0), 0),
            (Holds(0xEFF8), 0x6027),
            (Holds(0xBFF8), 0),
            (Holds(0xB000), 0xC027),
            (Holds(0xCFF8), 0xD027),
            // The descriptors of frames 13, 14 and 15: kind and loose leaves, links.
            (Holds(0x400D0), 0x102),
            (Holds(0x400D8), 1),
            (Holds(0x400E0), 0x402),
            (Holds(0x400E8), 0),
            (Holds(0x400F0), 0x1_0000_0000),
            (Holds(0x400F8), 0),
        ],
    ),
    // Entries are written.
    (
        None,
        &[
            (Declare(3, 11), 0),
            (Declare(2, 12), 0),
            (Declare(1, 13), 0),
            (Write(80, 0, 0), 2),
            (Write(0x1_0000_000D, 0, 0), 2),
            (Write(14, 0, 0), 6),
            (Write(10, 0, 0), 6),
            (Write(64, 0, 0), 6),
            (Write(13, 512, 0), 7),
            (Write(5, 511, 0), 8),
            (Write(5, 511, 0x6027), 8),
            (Write(13, 0, 0x8000_0000_0000_F029), 9),
            (Write(13, 0, 0x8000_0000_0005_0021), 10),
            (Write(13, 0, 0x8000_0000_0004_0021), 10),
            (Write(13, 0, 0xF021), 11),
            (Write(11, 0, 0xD027), 10),
            // Two rules at once.
            (Write(80, 512, 1), 2),
            (Write(14, 512, 1), 6),
            (Write(5, 512, 1), 7),
            (Write(5, 511, 1), 8),
            (Write(13, 0, 0x5_0001), 9),
            // A table may be named, but to be read alone; entry 511 is the kernel slot's at level 4 alone.
            (Write(13, 511, 0x8000_0000_0000_D021), 0),
            (Write(13, 511, 0x8000_0000_0000_D063), 11),
            (Write(13, 511, 0x8000_0000_0000_D025), 11),
            (Write(11, 511, 0xC027), 0),
            (Write(5, 510, 0xB027), 0),
            (Write(13, 1, 0), 0),
            (Holds(0xDFF8), 0x8000_0000_0000_D021),
        ],
    ),
    // A frame is loose in two tables, and released from one after the other; a leaf that is read only isn't loose.
    (
        None,
        &[
            (Declare(1, 13), 0),
            (Declare(1, 14), 0),
            (Write(13, 0, 0x8000_0000_0000_F063), 0),
            (Write(14, 5, 0xF025), 0),
            (Declare(1, 15), 5),
            (Write(13, 0, 0), 0),
            (Declare(1, 15), 5),
            (Write(14, 5, 0x8000_0000_0000_F021), 0),
            (Declare(1, 15), 0),
            (Write(14, 5, 0x8000_0000_0000_F063), 11),
            (Write(14, 5, 0), 0),
            (Holds(0xE028), 0),
            (Holds(0x400F0), 0x102),
        ],
    ),
    // Tables are removed.
    (
        None,
        &[
            (Remove(80), 2),
            (Remove(0x1_0000_0005), 2),
            (Remove(14), 6),
            (Remove(2), 6),
            (Remove(5), 12),
            // A table that is linked twice and holds an entry.
            (Declare(1, 13), 0),
            (Declare(2, 12), 0),
            (Write(12, 0, 0xD027), 0),
            (Write(12, 7, 0xD027), 0),
            (Write(13, 511, 0x8000_0000_0000_F063), 0),
            (Remove(13), 12),
            (Write(12, 0, 0), 0),
            (Remove(13), 12),
            (Write(12, 7, 0), 0),
            (Remove(13), 13),
            (Write(13, 511, 0), 0),
            (Remove(13), 0),
            (Remove(13), 6),
            (Write(12, 0, 0xD027), 10),
            // Level 4: the kernel slot's entry isn't counted as one that is present.
            (Declare(4, 14), 0),
            (Write(14, 510, 0), 0),
            (Declare(3, 11), 0),
            (Write(14, 510, 0xB027), 0),
            (Remove(14), 13),
            (Write(14, 510, 0), 0),
            (Holds(0xEFF8), 0x6027),
            (Remove(14), 0),
            (Holds(0xEFF8), 0),
            (Holds(0xDFF8), 0),
            (Holds(0x400E0), 0),
        ],
    ),
    // Roots are loaded.
    (
        None,
        &[
            (Root(80), 2),
            (Root(0x1_0000_0005), 2),
            (Root(14), 14),
            (Declare(3, 14), 0),
            (Root(14), 14),
            (Root(5), 0),
            (Declare(4, 15), 0),
            (Root(15), 0),
            (Remove(15), 12),
            (Remove(5), 0),
            (Root(5), 14),
            (RootFrame, 15),
        ],
    ),
];

#[test]
fn calls_are_answered(rt: HostRuntime) {
    for (wrong, rows) in &CASES {
        assert!(rt; wrong_row(rt.alloc(), rows) == *wrong);
    }
}
