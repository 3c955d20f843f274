//! Steps over a memory of eighty frames and its descriptors, one after the other, each with what it is to give.

ghost use Rattle.std.specs.Prelude.{◌≡◌, ◌+◌, ◌<◌, ◌≤◌, ℕ, ◌*◌, ◌/◌, true, IfSome, length};
ghost use Rattle.phys_mem.specs.MaskedMemory.{is_book_frame};
ghost use Rattle.phys_mem.specs.Memory.{byte_at, entry_in};
ghost use Rattle.nk_bits.specs.declared.kind.Kind.TheVariants.{Fixed, Hidden};
ghost use Rattle.nk_bits.specs.Kinds.{kind_of};
ghost use Rattle.page_desc.specs.DescriptorBytes.{HoldsDescriptors};
ghost use Rattle.page_desc.specs.FrameCounts.{IsSlotFixed};

use crate::openings::{Run, are_books_hidden, are_zero, is_slot_fixed, kinds, memory};
use memory_kit::peek_word;
use nk_bits::{Entry, Kind};
use page_desc::Frames;
use phys_mem::PhysMem;
use std::alloc::Global;
use table_rules::judge_entry;
use test_kit::first_wrong;

/// What is done or asked, and what it is to give.
#[derive(Clone, Copy)]
pub enum Step {
    /// How many frames there are.
    Frames(u32),
    /// A frame, and its loose leaves.
    Loose(u32, u32),
    /// A frame, and the links that name it.
    Links(u32, u32),
    /// A frame, and its kind.
    Is(u32, Kind),
    /// A frame, and the sixteen bytes of its descriptor as one number.
    Bytes(u32, u128),
    /// A frame in memory becomes of a kind.
    Set(u32, Kind),
    /// A change of an entry of a table of a level, from the old value to the new one, and what frame 2 has then: loose
    /// leaves and links.
    Replace(u8, u64, u64, u32, u32),
    /// A level, a value, and the number of the rule that it breaks; 0 where it breaks none.
    Judge(u8, u64, u64),
    /// A level, and a value that breaks no rule until it has a bit that is clear in every form.
    Clear(u8, u64),
}

/// Starts the descriptors, where memory and kinds admit it.
fn begin(memory: &mut PhysMem, kinds: &[Kind]) -> Option<Frames>
    requires memory { length memory.old ≡ 4096 * 80 }
    requires kinds { length kinds.now ≡ 80 }
    ensures { IfSome result (λ frames. HoldsDescriptors frames memory.new) }
{
    if is_slot_fixed(memory, kinds) & are_books_hidden(kinds) & are_zero(memory) {
        Some(Frames::start(memory, kinds))
    } else {
        None
    }
}

/// A memory, and its descriptors.
#[derive(Drop)]
struct Described {
    memory: PhysMem,
    frames: Frames,
    ghost held: { HoldsDescriptors frames memory },
}

impl Described {
    fn is_met(&mut self, step: &Step) -> bool {
        is_met(&mut self.frames, &mut self.memory, step)
    }
}

/// The index of the first step that gives something else, over a memory with these kinds and entries. Where that can't be
/// made it is the largest number.
pub fn wrong_step(
    alloc: Global,
    runs: &[Run],
    entries: &[(u64, u64)],
    steps: &[Step],
) -> Option<usize> {
    let Ok(mut memory) = memory(alloc, entries) else {
        return Some(usize::MAX);
    };
    let Some(frames) = begin(&mut memory, &kinds(runs)) else {
        return Some(usize::MAX);
    };
    let mut described = Described { memory, frames };
    first_wrong(steps, |step| described.is_met(step))
}

/// Whether a step gives what it is to give.
fn is_met(frames: &mut Frames, memory: &mut PhysMem, step: &Step) -> bool
    requires held { HoldsDescriptors frames.old memory.old }
    ensures held { HoldsDescriptors frames.new memory.new }
{
    match *step {
        Step::Frames(count) => frames.frames() == count,
        Step::Loose(frame, count) => frames.loose(memory, frame) == count,
        Step::Links(frame, count) => frames.links(memory, frame) == count,
        Step::Is(frame, kind) => frames.kind(memory, frame) == kind,
        Step::Bytes(frame, bytes) => descriptor(memory, frame) == bytes,
        Step::Set(frame, kind) => is_set(frames, memory, frame, kind),
        Step::Replace(level, old, new, loose, links) => {
            is_replaced(frames, memory, level, Entry(old), Entry(new))
                && frames.loose(memory, 2) == loose
                && frames.links(memory, 2) == links
        }
        Step::Judge(level, value, rule) => judged(frames, memory, level, value) == rule,
        Step::Clear(level, good) => are_bits_clear(frames, memory, level, good),
    }
}

/// The sixteen bytes of a frame's descriptor, as one number.
fn descriptor(memory: &PhysMem, frame: u32) -> u128 {
    let at = 0x40000 + 16 * u64::from(frame);
    u128::from(peek_word(memory, at + 8)) << 64 | u128::from(peek_word(memory, at))
}

/// Gives a frame a kind, where it is in memory.
fn is_set(frames: &mut Frames, memory: &mut PhysMem, frame: u32, kind: Kind) -> bool
    requires held { HoldsDescriptors frames.old memory.old }
    ensures held { HoldsDescriptors frames.new memory.new }
{
    if frame >= frames.frames() {
        return false;
    }
    frames.set_kind(memory, frame, kind);
    true
}

/// Replaces an entry of a frame below 16 by such a one, where the counts admit it whatever the old one's rights are.
fn is_replaced(frames: &mut Frames, memory: &mut PhysMem, level: u8, old: Entry, new: Entry) -> bool
    requires held { HoldsDescriptors frames.old memory.old }
    ensures held { HoldsDescriptors frames.new memory.new }
{
    if old.frame() >= 16 || new.frame() >= 16 {
        return false;
    }
    let from = old.frame() as u32;
    let to = new.frame() as u32;
    let is_counted = (level != 1 || frames.loose(memory, from) > 0)
        && (level == 1 || !old.is_present() || frames.links(memory, from) > 0);
    let has_room = frames.loose(memory, to) < u32::MAX && frames.links(memory, to) < u32::MAX;
    if is_counted && has_room {
        frames.replace(memory, level, old, new);
    }
    is_counted && has_room
}

/// The number of the rule that the value breaks; 0 where it breaks none.
fn judged(frames: &Frames, memory: &PhysMem, level: u8, value: u64) -> u64
    requires held { HoldsDescriptors frames.now memory.now }
{
    if level < 1 || level > 4 {
        return u64::MAX;
    }
    match judge_entry(frames, memory, level, value) {
        Ok(()) => 0,
        Err(rule) => rule.number(),
    }
}

/// The bits that are clear in every form: 3, 4, 7, 8 and 52 to 62.
static CLEAR: [u64; 15] = [
    0x8,
    0x10,
    0x80,
    0x100,
    0x10_0000_0000_0000,
    0x20_0000_0000_0000,
    0x40_0000_0000_0000,
    0x80_0000_0000_0000,
    0x100_0000_0000_0000,
    0x200_0000_0000_0000,
    0x400_0000_0000_0000,
    0x800_0000_0000_0000,
    0x1000_0000_0000_0000,
    0x2000_0000_0000_0000,
    0x4000_0000_0000_0000,
];

/// Whether the value breaks no rule, and with each of those bits rule 9, unless it isn't present.
fn are_bits_clear(frames: &Frames, memory: &PhysMem, level: u8, good: u64) -> bool
    requires held { HoldsDescriptors frames.now memory.now }
{
    for bit in &CLEAR {
        let set = good | *bit;
        let absent = set & 0xFFFF_FFFF_FFFF_FFFE;
        if judged(frames, memory, level, set) != 9 || judged(frames, memory, level, absent) != 0 {
            return false;
        }
    }
    judged(frames, memory, level, good) == 0
}
