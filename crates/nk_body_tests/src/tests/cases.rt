//! Calls as rows of tables: what stands before them, how each is answered, and what books and memory are behind them.

ghost use Rattle.std.specs.Prelude.{IfSome};
ghost use Rattle.nk_body.specs.NestedRecord.{HoldsBooks};

use super::counts::{is_counted, is_held};
use super::{Opened, Row, filled, logged, open, pages_declared, play, words};
use memory_kit::peek_word;
use nk_bits::Kind;
use nk_body::Kernel;
use phys_mem::PhysMem;
use region_book::Region;
use std::alloc::Global;
use test_kit::first_wrong_case;
use write_log::Noted;

/// What stands before the calls: the opening in so many frames, 256 regions, 128 pages that were declared, or a full log.
#[derive(Clone, Copy)]
pub(super) enum Start {
    Opening(u32),
    Regions,
    Pages,
    FullLog,
}

/// What is found behind the calls.
#[derive(Clone, Copy)]
pub(super) enum Found {
    /// The root.
    Root(u32),
    /// The handler, by the books and in memory from 2000 on; beside its slot are the last bytes of the gates' text, and
    /// zeros.
    Handler(u64),
    /// Entry 71 of frame 70, and the kind of frame 71.
    Leaf(u64, Kind),
    /// The next identifier, how many regions live and how many writes are logged, and the first eight bytes of the pool.
    Regions(u64, usize, u64, u64),
    /// Handler, entry and kind as above; root, regions, log and pool as at the opening.
    Opening(u64, u64, Kind),
    /// Eight numbers from a place of memory on.
    Numbers(u64, [u64; 8]),
    /// A number at a place of memory.
    Number(u64, u64),
    /// A live region by its place in the order.
    Nth(usize, Option<Region>),
    /// A region by its identifier.
    Region(u64, Option<Region>),
    /// How many bytes of the log are left.
    Room(u64),
    /// A record of the log, by its number.
    Record(u64, Option<Noted>),
    /// The descriptor of a frame as it stands in memory: the numbers of kind and level, no loose leaf, and the links.
    Descriptor(u64, u8, u8, u64),
    /// The counts of all frames are those of the tables, and the bytes of each descriptor are what kind and counts tell.
    Descriptors,
    /// How many bytes a call takes from memory.
    Wants(Row, Option<u64>),
}

/// Calls with the numbers by which they are answered, and what is found behind them.
#[derive(Clone, Copy)]
pub(super) struct Case<'r> {
    pub(super) calls: &'r [(Row, u64)],
    pub(super) found: &'r [Found],
}

/// Books and memory as they stand before the calls; None for want of memory.
fn begun(alloc: Global, start: Start) -> Option<Opened>
    ensures { IfSome result (λ it. HoldsBooks it.kernel it.mem) }
{
    match start {
        Start::Opening(frames) => open(alloc, frames),
        Start::Regions => filled(alloc),
        Start::Pages => pages_declared(alloc),
        Start::FullLog => logged(alloc),
    }
}

/// Whether this is the handler, by the books and in memory.
fn is_handler(kernel: &Kernel, mem: &PhysMem, trap: u64) -> bool {
    kernel.trap() == trap
        && peek_word(mem, 0x1FF8) == 0xCCCC_CCCC_CCCC_CCCC
        && peek_word(mem, 0x2000) == trap
        && peek_word(mem, 0x2008) == 0
}

/// Whether entry 71 of frame 70 and the kind of frame 71 are so.
fn is_leaf(kernel: &Kernel, mem: &PhysMem, leaf: u64, kind: Kind) -> bool
    requires { HoldsBooks kernel.now mem.now }
{
    peek_word(mem, 0x46238) == leaf && kernel.tables().frames.kind(mem, 71) == kind
}

/// Whether the next identifier and the number of regions are so, and the number of records and the pool's first bytes.
fn has_regions(
    kernel: &Kernel,
    mem: &PhysMem,
    next: u64,
    regions: usize,
    written: (u64, u64),
) -> bool
    requires { HoldsBooks kernel.now mem.now }
{
    kernel.regions().next() == next
        && kernel.regions().count() == regions
        && kernel.log().len() == written.0
        && peek_word(mem, 0xA000) == written.1
}

/// Whether these numbers stand from a place of memory on.
fn are_numbers(mem: &PhysMem, at: u64, numbers: &[u64; 8]) -> bool {
    for (k, number) in numbers.iter().enumerate() {
        if peek_word(mem, at.saturating_add(8 * k as u64)) != *number {
            return false;
        }
    }
    true
}

/// Whether the descriptor of a frame is so: those of all frames stand in memory from 40000 on, 16 bytes each.
fn is_descriptor(mem: &PhysMem, frame: u64, code: u8, level: u8, links: u64) -> bool {
    let at = frame.saturating_mul(16).saturating_add(0x4_0000);
    peek_word(mem, at) == u64::from(code) + 256 * u64::from(level)
        && peek_word(mem, at.saturating_add(8)) == links
}

/// A live region by its place in the order.
fn nth(kernel: &Kernel, mem: &PhysMem, i: usize) -> Option<Region>
    requires { HoldsBooks kernel.now mem.now }
{
    if i < kernel.regions().count() {
        Some(kernel.regions().nth(mem, i))
    } else {
        None
    }
}

/// A record of the log, where there are as many.
fn record(kernel: &Kernel, mem: &PhysMem, i: u64) -> Option<Noted>
    requires { HoldsBooks kernel.now mem.now }
{
    if i < kernel.log().len() {
        Some(kernel.log().entry(mem, i))
    } else {
        None
    }
}

/// Whether books and memory are so.
fn is_found(alloc: Global, kernel: &Kernel, mem: &PhysMem, found: &Found) -> bool
    requires { HoldsBooks kernel.now mem.now }
{
    match found {
        Found::Root(root) => kernel.root() == *root,
        Found::Handler(trap) => is_handler(kernel, mem, *trap),
        Found::Leaf(leaf, kind) => is_leaf(kernel, mem, *leaf, *kind),
        Found::Regions(next, regions, records, pool) => {
            has_regions(kernel, mem, *next, *regions, (*records, *pool))
        }
        Found::Opening(trap, leaf, kind) => {
            kernel.root() == 5
                && is_handler(kernel, mem, *trap)
                && is_leaf(kernel, mem, *leaf, *kind)
                && has_regions(kernel, mem, 256, 0, (0, 0))
        }
        Found::Numbers(at, numbers) => are_numbers(mem, *at, numbers),
        Found::Number(at, number) => peek_word(mem, *at) == *number,
        Found::Nth(i, region) => nth(kernel, mem, *i) == *region,
        Found::Region(id, region) => kernel.regions().find(mem, *id) == *region,
        Found::Room(room) => kernel.log().room() == *room,
        Found::Record(i, noted) => record(kernel, mem, *i) == *noted,
        Found::Descriptor(frame, code, level, links) => {
            is_descriptor(mem, *frame, *code, *level, *links)
        }
        Found::Descriptors => {
            let frames = &kernel.tables().frames;
            is_counted(alloc, mem, frames) && is_held(mem, frames)
        }
        Found::Wants(call, wanted) => kernel.wants(mem, &words(call)) == *wanted,
    }
}

/// Whether all of it is so.
fn are_found(alloc: Global, kernel: &Kernel, mem: &PhysMem, list: &[Found]) -> bool
    requires { HoldsBooks kernel.now mem.now }
{
    for found in list.iter() {
        if !is_found(alloc, kernel, mem, found) {
            return false;
        }
    }
    true
}

/// How many of the calls are answered as they should be, where not all are or something else is found behind them.
fn wrong_in(alloc: Global, start: Start, case: &Case) -> Option<usize> {
    let Some(mut it) = begun(alloc, start) else {
        return Some(0);
    };
    let answered = play(alloc, &mut it.kernel, &mut it.mem, case.calls);
    if answered == case.calls.len() && are_found(alloc, &it.kernel, &it.mem, case.found) {
        None
    } else {
        Some(answered)
    }
}

/// The place of the first case that isn't so, and how many of its calls are answered as they should be.
pub(super) fn wrong_case(alloc: Global, start: Start, cases: &[Case]) -> Option<(usize, usize)> {
    first_wrong_case(cases, |case| wrong_in(alloc, start, case))
}
