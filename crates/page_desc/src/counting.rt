//! All descriptors anew: the kind of each frame, and all counts, from the page tables in memory. These are read while the
//! counts are put, since no table lies among the books.

ghost use Rattle.std.specs.Prelude.{◌≡◌, ◌<◌, ◌≤◌, ℕ, ◌+◌, ◌-◌, ◌*◌, ◌^◌, true, false, ◌&&◌, ◌||◌, ◌==◌, nat_lt, length};
ghost use Rattle.phys_mem.specs.MaskedMemory.{is_book_frame};
ghost use Rattle.phys_mem.specs.Memory.{entry_in};
ghost use Rattle.nk_bits.specs.Kinds.{kind_of, level_of};
ghost use Rattle.nk_bits.specs.Paging.{is_present};
ghost use Rattle.page_desc.specs.DescriptorBytes.{DiffersInDescriptors, field_in, kind_by, word_of};
ghost use Rattle.page_desc.specs.FieldChanges.{DiffersInField, IsReadable};
ghost use Rattle.page_desc.specs.FrameCounts.{holds_leaves, holds_links, is_link_level, is_link_to, is_loose, is_loose_leaf, is_slot_leaf_table, links_in, loose_in, count_if, sum_below};

use crate::count::{is_link_level, is_loose, raise};
use crate::fields::{KIND, LINKS, LOOSE, field, put, word_of};
use nk_bits::{AREA_TABLE, Entry, IMAGE_DIRECTORY, Kind};
use phys_mem::PhysMem;

/// The number of entries of a table.
const ENTRIES: u32 = 512;

/// The kind of a frame in memory.
fn kind_at(kinds: &[Kind], frame: u32) -> Kind
    requires { frame < length kinds.now }
    ensures { result ≡ kind_of kinds.now frame }
{
    kinds[frame as usize]
}

/// Counts each loose leaf in a frame.
fn add_leaves(mem: &mut PhysMem, count: u32, frame: u32)
    requires memory { (length mem.old ≡ 4096 * count) × (65 ≤ count) }
    requires frame { frame < count }
    requires apart { is_book_frame count frame ≡ false }
    requires room { (other : ℕ) → other < count → field_in mem.old 4 other ≤ 2 ^ 31 }
    ensures each { (other : ℕ) → other < count → field_in mem.new 4 other
        ≡ field_in mem.old 4 other + sum_below 512 (λ i. count_if (is_loose_leaf other (entry_in mem.old frame i))) }
    ensures differs { DiffersInField count 4 mem.old mem.new }
{
    for index in 0..ENTRIES {
        let value = mem.entry(frame, index);
        let entry = Entry(value);
        raise(mem, LOOSE, count, is_loose(entry), entry.frame());
    }
}

/// Counts each link in a frame.
fn add_links(mem: &mut PhysMem, count: u32, frame: u32)
    requires memory { (length mem.old ≡ 4096 * count) × (65 ≤ count) }
    requires frame { frame < count }
    requires apart { is_book_frame count frame ≡ false }
    requires room { (other : ℕ) → other < count → field_in mem.old 8 other ≤ 2 ^ 31 }
    ensures each { (other : ℕ) → other < count → field_in mem.new 8 other
        ≡ field_in mem.old 8 other + sum_below 512 (λ i. count_if (is_link_to other (entry_in mem.old frame i))) }
    ensures differs { DiffersInField count 8 mem.old mem.new }
{
    for index in 0..ENTRIES {
        let value = mem.entry(frame, index);
        let entry = Entry(value);
        raise(mem, LINKS, count, entry.is_present(), entry.frame());
    }
}

/// Whether a frame of this kind and with this mark holds a table of level 1.
fn holds_leaves(kind: Kind, frame: u32, mark: u32) -> bool
    ensures { result ≡ (level_of kind == 1 || (frame == 8 || nat_lt 0 mark)) }
{
    (kind.level() == 1) | ((frame == AREA_TABLE) | (mark > 0))
}

/// Counts each loose leaf in a frame, where it holds leaves.
fn count_loose_in(mem: &mut PhysMem, count: u32, kinds: &[Kind], frame: u32)
    requires count { count ≡ length kinds.now }
    requires frame { frame < count }
    requires readable { IsReadable kinds.now mem.old }
    requires marked { field_in mem.old 8 frame ≡ sum_below 512 (λ i. count_if (is_link_to frame (entry_in mem.old 9 i))) }
    requires room { (other : ℕ) → other < count → field_in mem.old 4 other ≤ 2 ^ 31 }
    ensures each { (other : ℕ) → other < count → field_in mem.new 4 other ≡ field_in mem.old 4 other
        + sum_below 512 (λ i. count_if (holds_leaves kinds.now (entry_in mem.old) frame && is_loose_leaf other (entry_in mem.old frame i))) }
    ensures differs { DiffersInField count 4 mem.old mem.new }
{
    let mark = field(mem, LINKS, frame);
    if holds_leaves(kind_at(kinds, frame), frame, mark) {
        add_leaves(mem, count, frame);
    }
}

/// Counts each link in a frame, where it holds links.
fn count_links_in(mem: &mut PhysMem, count: u32, kinds: &[Kind], frame: u32)
    requires count { count ≡ length kinds.now }
    requires frame { frame < count }
    requires readable { IsReadable kinds.now mem.old }
    requires room { (other : ℕ) → other < count → field_in mem.old 8 other ≤ 2 ^ 31 }
    ensures each { (other : ℕ) → other < count → field_in mem.new 8 other ≡ field_in mem.old 8 other
        + sum_below 512 (λ i. count_if (holds_links kinds.now frame && is_link_to other (entry_in mem.old frame i))) }
    ensures differs { DiffersInField count 8 mem.old mem.new }
{
    if is_link_level(kind_at(kinds, frame).level()) {
        add_links(mem, count, frame);
    }
}

/// Counts the loose leaves of every frame, by the marks that stand for the kernel slot's tables of level 1 but frame 8.
fn count_loose(mem: &mut PhysMem, count: u32, kinds: &[Kind])
    requires count { count ≡ length kinds.now }
    requires most { count ≤ 65536 }
    requires readable { IsReadable kinds.now mem.old }
    requires marked { (frame : ℕ) → frame < count
        → field_in mem.old 8 frame ≡ sum_below 512 (λ i. count_if (is_link_to frame (entry_in mem.old 9 i))) }
    requires zero { (other : ℕ) → other < count → field_in mem.old 4 other ≡ 0 }
    ensures each { (other : ℕ) → other < count → field_in mem.new 4 other ≡ loose_in kinds.now (entry_in mem.old) other }
    ensures differs { DiffersInField count 4 mem.old mem.new }
{
    for frame in 0..count {
        count_loose_in(mem, count, kinds, frame);
    }
}

/// Counts the links of every frame.
fn count_links(mem: &mut PhysMem, count: u32, kinds: &[Kind])
    requires count { count ≡ length kinds.now }
    requires most { count ≤ 65536 }
    requires readable { IsReadable kinds.now mem.old }
    requires zero { (other : ℕ) → other < count → field_in mem.old 8 other ≡ 0 }
    ensures each { (other : ℕ) → other < count → field_in mem.new 8 other ≡ links_in kinds.now (entry_in mem.old) other }
    ensures differs { DiffersInField count 8 mem.old mem.new }
{
    for frame in 0..count {
        count_links_in(mem, count, kinds, frame);
    }
}

/// No link is counted.
fn clear_links(mem: &mut PhysMem, count: u32)
    requires memory { (length mem.old ≡ 4096 * count) × (65 ≤ count) }
    ensures each { (other : ℕ) → other < count → field_in mem.new 8 other ≡ 0 }
    ensures differs { DiffersInField count 8 mem.old mem.new }
{
    for frame in 0..count {
        put(mem, LINKS, count, frame, 0);
    }
}

/// Puts the kind of each frame into its descriptor.
pub fn put_kinds(mem: &mut PhysMem, count: u32, kinds: &[Kind])
    requires count { count ≡ length kinds.now }
    requires memory { (length mem.old ≡ 4096 * count) × (65 ≤ count) }
    ensures words { (f : ℕ) → f < count → field_in mem.new 0 f ≡ word_of (kind_of kinds.now f) }
    ensures kinds { (f : ℕ) → f < count → kind_by (field_in mem.new 0 f) ≡ kind_of kinds.now f }
    ensures differs { DiffersInField count 0 mem.old mem.new }
{
    for frame in 0..count {
        put(mem, KIND, count, frame, word_of(kind_at(kinds, frame)));
    }
}

/// Counts all loose leaves and all links, where none is counted. The counts of links first mark the kernel slot's tables of
/// level 1 but frame 8: those that a present entry of frame 9 names.
pub fn count_all(mem: &mut PhysMem, count: u32, kinds: &[Kind])
    requires count { count ≡ length kinds.now }
    requires most { count ≤ 65536 }
    requires readable { IsReadable kinds.now mem.old }
    requires zero { (f : ℕ) → f < count → (field_in mem.old 4 f ≡ 0) × (field_in mem.old 8 f ≡ 0) }
    ensures loose { (f : ℕ) → f < count → field_in mem.new 4 f ≡ loose_in kinds.now (entry_in mem.old) f }
    ensures links { (f : ℕ) → f < count → field_in mem.new 8 f ≡ links_in kinds.now (entry_in mem.old) f }
    ensures others { (f : ℕ) → f < count → (field_in mem.new 0 f ≡ field_in mem.old 0 f) × (field_in mem.new 12 f ≡ field_in mem.old 12 f) }
    ensures elsewhere { DiffersInDescriptors mem.old mem.new }
{
    add_links(mem, count, IMAGE_DIRECTORY);
    count_loose(mem, count, kinds);
    clear_links(mem, count);
    count_links(mem, count, kinds);
}
