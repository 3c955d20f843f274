//! The descriptors of the frames, as memory holds them, carried from one change of the tables to the next.

ghost use Rattle.std.specs.Prelude.{◌≡◌, ◌<◌, ◌≤◌, ℕ, ◌*◌, ◌/◌, true, nat_lt, length, slice_index, slice_set};
ghost use Rattle.phys_mem.specs.MaskedMemory.{is_book_frame};
ghost use Rattle.phys_mem.specs.Memory.{byte_at, entry_in};
ghost use Rattle.nk_bits.specs.declared.kind.Kind.TheVariants.{Hidden};
ghost use Rattle.nk_bits.specs.Kinds.{kind_of};
ghost use Rattle.page_desc.specs.DescriptorBytes.{DiffersInDescriptors, HoldsDescriptors, descriptors_in, kinds_in};
ghost use Rattle.page_desc.specs.FrameCounts.{IsSlotFixed};
ghost use Rattle.page_desc.specs.FrameDescriptors.{AreCounted, IsReplaceable, IsReplaced};

use crate::count::{change, is_link_level, is_loose};
use crate::counting::{count_all, put_kinds};
use crate::fields::{KIND, LINKS, LOOSE, field, kind_by, put, word_of};
use nk_bits::{Entry, Kind};
use phys_mem::PhysMem;
use std::marker::Model;

/// For each frame of memory its kind, how many loose leaves it has, and how many links name it: memory holds them, in
/// frames that nobody else sees. A contract sees how many frames there are.
#[derive(Drop)]
pub struct Frames {
    count: u32,
}

impl Model for Frames {
    ghost use Rattle.std.specs.Prelude.{◌≤◌, ℕ};

    ghost Value = { ℕ };

    ghost view = { λ f. f.count };

    ghost invariant = { λ f. (65 ≤ f.count) × (f.count ≤ 65536) };
}

impl Frames {
    /// Puts the descriptors of frames of these kinds, as many as memory has, into frames that hold 0, with every count made
    /// anew.
    pub fn start(mem: &mut PhysMem, kinds: &[Kind]) -> Frames
        requires size { length mem.old ≡ 4096 * length kinds.now }
        requires least { 65 ≤ length kinds.now }
        requires zero { (p : ℕ) → 0x40000 ≤ p → is_book_frame (length kinds.now) (p / 4096) ≡ true → byte_at mem.old p ≡ 0 }
        requires hidden { (f : ℕ) → is_book_frame (length kinds.now) f ≡ true → kind_of kinds.now f ≡ Hidden }
        requires slot { IsSlotFixed kinds.now (entry_in mem.old) }
        ensures count { result ≡ length kinds.now }
        ensures kinds { (descriptors_in mem.new).kinds ≡ kinds.now }
        ensures counted { AreCounted (descriptors_in mem.new) (entry_in mem.old) }
        ensures held { HoldsDescriptors result mem.new }
        ensures elsewhere { DiffersInDescriptors mem.old mem.new }
    {
        let count = mem.frames();
        put_kinds(mem, count, kinds);
        count_all(mem, count, kinds);
        Frames { count }
    }

    /// The number of frames, 65 to 65,536.
    pub fn frames(&self) -> u32
        ensures frames { result ≡ self.now }
        ensures bounds { (65 ≤ result) × (result ≤ 65536) }
    {
        self.count
    }

    /// Whether a number names a frame of memory.
    pub fn is_inside(&self, mem: &PhysMem, frame: u64) -> bool
        requires held { HoldsDescriptors self.now mem.now }
        ensures inside { result ≡ nat_lt frame (length (kinds_in mem.now)) }
        ensures bounds { result ≡ true → (frame < self.now) × (frame < 65536) }
    {
        frame < u64::from(self.frames())
    }

    /// The kind of the frame that a number names; Hidden past the end of memory.
    pub fn kind_named(&self, mem: &PhysMem, frame: u64) -> Kind
        requires held { HoldsDescriptors self.now mem.now }
        ensures { result ≡ kind_of (kinds_in mem.now) frame }
    {
        if !self.is_inside(mem, frame) {
            return Kind::Hidden;
        }
        self.kind(mem, frame as u32)
    }

    /// The kind of a frame; Hidden past the end of memory.
    pub fn kind(&self, mem: &PhysMem, frame: u32) -> Kind
        requires held { HoldsDescriptors self.now mem.now }
        ensures { result ≡ kind_of (descriptors_in mem.now).kinds frame }
    {
        if frame < self.count {
            kind_by(field(mem, KIND, frame))
        } else {
            Kind::Hidden
        }
    }

    /// How many loose leaves the frame has; 0 past the end of memory.
    pub fn loose(&self, mem: &PhysMem, frame: u32) -> u32
        requires held { HoldsDescriptors self.now mem.now }
        ensures { result ≡ slice_index (descriptors_in mem.now).loose frame }
    {
        if frame < self.count {
            field(mem, LOOSE, frame)
        } else {
            0
        }
    }

    /// How many links name the frame; 0 past the end of memory.
    pub fn links(&self, mem: &PhysMem, frame: u32) -> u32
        requires held { HoldsDescriptors self.now mem.now }
        ensures { result ≡ slice_index (descriptors_in mem.now).links frame }
    {
        if frame < self.count {
            field(mem, LINKS, frame)
        } else {
            0
        }
    }

    /// The frame is of this kind from now on; the counts stay.
    pub fn set_kind(&mut self, mem: &mut PhysMem, frame: u32, kind: Kind)
        requires held { HoldsDescriptors self.old mem.old }
        requires frame { frame < self.old }
        ensures stays { self.new ≡ self.old }
        ensures set { descriptors_in mem.new
            ≡ record (descriptors_in mem.old) { kinds = slice_set (descriptors_in mem.old).kinds frame kind } }
        ensures held { HoldsDescriptors self.new mem.new }
        ensures elsewhere { DiffersInDescriptors mem.old mem.new }
    {
        put(mem, KIND, self.count, frame, word_of(kind));
    }

    /// Counts that an entry of a table of this level changed from the old value to the new one.
    pub fn replace(&mut self, mem: &mut PhysMem, level: u8, old: Entry, new: Entry)
        requires held { HoldsDescriptors self.old mem.old }
        requires counted { IsReplaceable level old.0 new.0 (descriptors_in mem.old) }
        ensures stays { self.new ≡ self.old }
        ensures replaced { IsReplaced level old.0 new.0 (descriptors_in mem.old) (descriptors_in mem.new) }
        ensures held { HoldsDescriptors self.new mem.new }
        ensures elsewhere { DiffersInDescriptors mem.old mem.new }
    {
        let is_leaf = level == 1;
        let was_loose = is_leaf & is_loose(old);
        let is_loose = is_leaf & is_loose(new);
        change(
            mem,
            LOOSE,
            self.count,
            was_loose,
            old.frame(),
            is_loose,
            new.frame(),
        );
        let is_link = is_link_level(level);
        let was_link = is_link & old.is_present();
        let is_link = is_link & new.is_present();
        change(
            mem,
            LINKS,
            self.count,
            was_link,
            old.frame(),
            is_link,
            new.frame(),
        );
    }
}
