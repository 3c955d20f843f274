//! Descriptors as memory holds them: their counts are those of the tables that stand there, and their bytes are what kind and
//! counts tell.

ghost use Rattle.page_desc.specs.DescriptorBytes.{HoldsDescriptors};

use memory_kit::peek_word;
use nk_bits::{Entry, Kind};
use page_desc::Frames;
use phys_mem::PhysMem;
use std::alloc::{AllocError, Global};

/// How many loose leaves each frame has, and how many links name it.
#[derive(Drop)]
struct Counts {
    loose: Vec<u32>,
    links: Vec<u32>,
}

fn entry(mem: &PhysMem, frame: u64, index: u64) -> Entry {
    if frame < 65_536 && index < 512 {
        Entry(peek_word(mem, 4096 * frame + 8 * index))
    } else {
        Entry(0)
    }
}

/// Counts one more of a frame of memory.
fn raise(counts: &mut Vec<u32>, frame: u64) {
    if frame < counts.len() as u64 {
        let at = frame as usize;
        counts[at] = counts[at].saturating_add(1);
    }
}

/// Counts the loose leaves of a table.
fn count_leaves(mem: &PhysMem, frame: u64, loose: &mut Vec<u32>) {
    for index in 0..512 {
        let entry = entry(mem, frame, index);
        let rights = entry.rights();
        if entry.is_present() && (rights.can_write || rights.user) {
            raise(loose, entry.frame());
        }
    }
}

/// Counts the links of a table.
fn count_links(mem: &PhysMem, frame: u64, links: &mut Vec<u32>) {
    for index in 0..512 {
        let entry = entry(mem, frame, index);
        if entry.is_present() {
            raise(links, entry.frame());
        }
    }
}

/// Counts the entries of a table, where the frame is one.
fn count_table(mem: &PhysMem, frame: u64, kind: Kind, counts: &mut Counts) {
    match kind {
        Kind::Table(1) => count_leaves(mem, frame, &mut counts.loose),
        Kind::Table(_) => count_links(mem, frame, &mut counts.links),
        _ => {}
    }
}

/// Counts the loose leaves of the kernel slot's own tables: frame 8, and those that frame 9 names.
fn count_slot(mem: &PhysMem, loose: &mut Vec<u32>) {
    count_leaves(mem, 8, loose);
    for index in 0..512 {
        let entry = entry(mem, 9, index);
        if entry.is_present() {
            count_leaves(mem, entry.frame(), loose);
        }
    }
}

/// Counts all frames anew.
fn count_all(alloc: Global, mem: &PhysMem, frames: &Frames) -> Result<Counts, AllocError>
    requires { HoldsDescriptors frames.now mem.now }
{
    let mut counts = Counts {
        loose: vec![in alloc; 0; frames.frames() as usize]?,
        links: vec![in alloc; 0; frames.frames() as usize]?,
    };
    count_slot(mem, &mut counts.loose);
    for frame in 0..frames.frames() {
        count_table(mem, u64::from(frame), frames.kind(mem, frame), &mut counts);
    }
    Ok(counts)
}

fn count_of(counts: &[u32], frame: u32) -> u32 {
    if (frame as usize) < counts.len() {
        counts[frame as usize]
    } else {
        u32::MAX
    }
}

/// Whether the counts that the books carry are these.
fn are_carried(mem: &PhysMem, frames: &Frames, counts: &Counts) -> bool
    requires { HoldsDescriptors frames.now mem.now }
{
    for frame in 0..frames.frames() {
        if frames.loose(mem, frame) != count_of(&counts.loose, frame) {
            return false;
        }
        if frames.links(mem, frame) != count_of(&counts.links, frame) {
            return false;
        }
    }
    true
}

/// Whether the counts that the books carry are those of the tables.
pub(super) fn is_counted(alloc: Global, mem: &PhysMem, frames: &Frames) -> bool
    requires { HoldsDescriptors frames.now mem.now }
{
    match count_all(alloc, mem, frames) {
        Ok(counts) => are_carried(mem, frames, &counts),
        Err(_) => false,
    }
}

/// The numbers of a kind and of its level.
fn code_of(kind: Kind) -> (u8, u8) {
    match kind {
        Kind::Data => (0, 0),
        Kind::Code => (1, 0),
        Kind::Table(level) => (2, level),
        Kind::Fixed => (3, 0),
        Kind::Trap => (4, 0),
        Kind::Guarded => (5, 0),
        Kind::Hidden => (6, 0),
    }
}

/// Whether the 16 bytes of a frame's descriptor, which those of all frames have from 40000 on, are the kind, its level, two
/// that are 0, the counts, and four that are 0.
fn is_told(mem: &PhysMem, frame: u32, kind: Kind, loose: u32, links: u32) -> bool {
    let at = 0x4_0000 + 16 * u64::from(frame);
    let (code, level) = code_of(kind);
    let first = u64::from(code) + 256 * u64::from(level) + 0x1_0000_0000 * u64::from(loose);
    peek_word(mem, at) == first && peek_word(mem, at + 8) == u64::from(links)
}

/// Whether the bytes of each frame's descriptor are what kind and counts tell.
pub(super) fn is_held(mem: &PhysMem, frames: &Frames) -> bool
    requires { HoldsDescriptors frames.now mem.now }
{
    for frame in 0..frames.frames() {
        let kind = frames.kind(mem, frame);
        let loose = frames.loose(mem, frame);
        let links = frames.links(mem, frame);
        if !is_told(mem, frame, kind, loose, links) {
            return false;
        }
    }
    true
}
