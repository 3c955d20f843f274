//! Changes of a memory and its translations between the accesses.

ghost use Rattle.std.specs.Prelude.{◌≡◌, ◌<◌, length};
ghost use Rattle.nk_bits.specs.Translations.{NamesFramesIn};

use super::steps::Width;
use super::{load, start};
use mem_access::put_kept;
use memory_kit::CONTROL;
use nk_bits::{Leaf, Rights, Upper, named_law};
use phys_mem::PhysMem;
use tlb_model::Tlb;

/// What is changed.
#[derive(Clone, Copy)]
pub enum Change {
    /// Memory holds the tables of pages 0 and 1 alone, whose leaves have these flags, and nothing
    /// is kept.
    Start(u64, u64),
    /// Memory holds a number at a place.
    Put(u64, u64),
    /// Memory holds a number's low bytes at a place that was found kept.
    PutKept(u64, Width, u64),
    /// The entry of level 2 of the first pages names the table in frame 4, and is kept with R/W set
    /// or clear.
    KeepTable(bool),
    /// A page's translation to this frame is kept, and serves each access of the user.
    KeepPage(u64, u32),
    /// Nothing is kept.
    Flush,
    /// Each canonical page is frame 1, whose table names itself in each entry.
    MapAll,
    /// One byte is read from each of the pages 2 to 1,024: one fewer than the translations that
    /// fit.
    ReadPages,
}

/// Whether a change can be made; then it is.
pub fn is_changed(mem: &mut PhysMem, tlb: &mut Tlb, change: Change) -> bool
    requires length { length mem.old ≡ 65536 }
    requires frames { NamesFramesIn (length mem.old) tlb.old }
    ensures length { length mem.new ≡ 65536 }
    ensures frames { NamesFramesIn (length mem.new) tlb.new }
{
    match change {
        Change::Start(first, second) if first < 4096 && second < 4096 => {
            start(mem, first, second);
            tlb.flush();
        }
        Change::Put(at, value) if at <= 0xFFF8 => mem.store64(at, value),
        Change::PutKept(at, width, value) if at <= 0xFFF8 => {
            put_kept(mem, at, width.bytes(), value);
        }
        Change::KeepTable(can_write) => keep_table(tlb, can_write),
        Change::KeepPage(page, frame) if frame < 16 => keep_page(tlb, page, frame),
        Change::Flush => tlb.flush(),
        Change::MapAll => map_all_to_the_table(mem),
        Change::ReadPages => read_pages(mem, tlb),
        _ => return false,
    }
    true
}

fn keep_table(tlb: &mut Tlb, can_write: bool)
    requires frames { NamesFramesIn 65536 tlb.old }
    ensures frames { NamesFramesIn 65536 tlb.new }
{
    named_law();
    let rights = Rights {
        can_write,
        user: true,
        exec: true,
    };
    tlb.keep(2, 0, Upper { frame: 4, rights });
}

fn keep_page(tlb: &mut Tlb, page: u64, frame: u32)
    requires frame { frame < 16 }
    requires frames { NamesFramesIn 65536 tlb.old }
    ensures frames { NamesFramesIn 65536 tlb.new }
{
    named_law();
    let rights = Rights {
        can_write: true,
        user: true,
        exec: true,
    };
    tlb.fill(page, Leaf { frame, rights });
}

fn map_all_to_the_table(mem: &mut PhysMem)
    requires { length mem.old ≡ 65536 }
    ensures { length mem.new ≡ 65536 }
{
    for entry in 0..512 {
        mem.store64(0x1000 + 8 * entry, 0x1007);
    }
}

fn read_pages(mem: &PhysMem, tlb: &mut Tlb)
    requires length { length mem.now ≡ 65536 }
    requires frames { NamesFramesIn (length mem.now) tlb.old }
    ensures { NamesFramesIn (length mem.now) tlb.new }
{
    for page in 2..1025 {
        let _ = load(mem, tlb, &CONTROL, 0, 4096 * page, 1);
    }
}
