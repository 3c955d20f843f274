//! Writes by each policy, in regions of the pool in a memory of 80 frames. The pool's first byte stands at A000.

ghost use Rattle.std.specs.Prelude.{◌≡◌, ◌≤◌, ◌+◌, ◌*◌, ◌/◌, All, IfSome, false, length, true};
ghost use Rattle.phys_mem.specs.MaskedMemory.{is_book_frame};
ghost use Rattle.region_book.specs.RegionBytes.{HoldsRegions, book_in};
ghost use Rattle.region_book.specs.RegionRecords.{IsBook, region_of};
ghost use Rattle.write_log.specs.LogBytes.{HoldsLog};

use memory_kit::peek_byte;
use phys_mem::PhysMem;
use policy_book::write;
use region_book::{Regions, held_regions_law};
use std::alloc::Global;
use write_log::{Log, held_log_law};

/// An empty log beside the regions.
fn start_log(regions: &Regions, mem: &mut PhysMem) -> Log
    requires held { HoldsRegions regions.now mem.old }
    requires book { IsBook (book_in regions.now mem.old) }
    ensures held { HoldsRegions regions.now mem.new }
    ensures held_log { HoldsLog result mem.new }
    ensures book { IsBook (book_in regions.now mem.new) }
{
    held_regions_law();
    Log::start(mem)
}

/// A step with what it is to answer.
#[derive(Clone, Copy)]
enum Step {
    /// A size and a policy; the identifier, or 0 where there is none.
    Alloc(u64, u64, u64),
    /// An identifier.
    Free(u64, bool),
    /// An identifier and an offset; which of the bytes is the first, and how many; the number of the rule that is broken,
    /// or 0.
    Write(u64, u64, usize, usize, u64),
    /// A place in memory.
    Stored(u64, u8),
    /// An identifier.
    Tail(u64, u32),
    /// How many bytes of the log are left.
    Room(u64),
    /// A record's number; its region, offset and length.
    Logged(u64, u64, u32, u32),
    /// A record's number, and a place in it.
    Noted(u64, u32, u8),
}

use Step::{Alloc, Free, Logged, Noted, Room, Stored, Tail, Write};

fn allocate(regions: &mut Regions, log: &Log, mem: &mut PhysMem, size: u64, policy: u64) -> u64
    requires held { HoldsRegions regions.old mem.old }
    requires held_log { HoldsLog log.now mem.old }
    requires book { IsBook (book_in regions.old mem.old) }
    ensures held { HoldsRegions regions.new mem.new }
    ensures held_log { HoldsLog log.now mem.new }
    ensures book { IsBook (book_in regions.new mem.new) }
{
    held_log_law();
    if regions.next() >= 1 << 63 {
        return 0;
    }
    match regions.alloc(mem, size, policy) {
        Ok(it) => it.id,
        Err(_) => 0,
    }
}

fn free(regions: &mut Regions, log: &Log, mem: &mut PhysMem, id: u64) -> bool
    requires held { HoldsRegions regions.old mem.old }
    requires held_log { HoldsLog log.now mem.old }
    requires book { IsBook (book_in regions.old mem.old) }
    ensures held { HoldsRegions regions.new mem.new }
    ensures held_log { HoldsLog log.now mem.new }
    ensures book { IsBook (book_in regions.new mem.new) }
{
    held_log_law();
    regions.free(mem, id).is_ok()
}

/// Whether no region is live of this identifier, or its frames are in memory and none of the books', as those of the pool are.
fn is_within(regions: &Regions, mem: &PhysMem, id: u64) -> bool
    requires held { HoldsRegions regions.now mem.now }
    requires book { IsBook (book_in regions.now mem.now) }
    ensures within { result ≡ true → IfSome (region_of (book_in regions.now mem.now) id)
        (λ r. All (λ f. 4096 * f + 4096 ≤ length mem.now) r.frames) }
    ensures apart { result ≡ true → IfSome (region_of (book_in regions.now mem.now) id)
        (λ r. All (λ f. is_book_frame (length mem.now / 4096) f ≡ false) r.frames) }
{
    match regions.find(mem, id) {
        Some(region) => region.pooled,
        None => true,
    }
}

/// The number of the rule that a write breaks, or 0.
fn put(
    regions: &mut Regions,
    log: &mut Log,
    mem: &mut PhysMem,
    id: u64,
    offset: u64,
    bytes: &[u8],
) -> u64
    requires held { HoldsRegions regions.old mem.old }
    requires held_log { HoldsLog log.old mem.old }
    requires book { IsBook (book_in regions.old mem.old) }
    ensures held { HoldsRegions regions.new mem.new }
    ensures held_log { HoldsLog log.new mem.new }
    ensures book { IsBook (book_in regions.new mem.new) }
{
    if !is_within(regions, mem, id) {
        return 99;
    }
    match write(regions, log, mem, id, offset, bytes) {
        Ok(()) => 0,
        Err(rule) => rule.number(),
    }
}

/// So many bytes from one on, as far as there are any.
fn part(bytes: &[u8], first: usize, count: usize) -> &[u8] {
    let left = &bytes[first.min(bytes.len())..];
    &left[..count.min(left.len())]
}

fn has_tail(regions: &Regions, mem: &PhysMem, id: u64, answer: u32) -> bool
    requires { HoldsRegions regions.now mem.now }
{
    match regions.find(mem, id) {
        Some(region) => region.tail == answer,
        None => false,
    }
}

fn is_logged(log: &Log, mem: &PhysMem, i: u64, answer: (u64, u32, u32)) -> bool
    requires { HoldsLog log.now mem.now }
{
    if i >= log.len() {
        return false;
    }
    let noted = log.entry(mem, i);
    noted.region == answer.0 && noted.offset == answer.1 && noted.length == answer.2
}

fn is_noted(log: &Log, mem: &PhysMem, i: u64, at: u32, answer: u8) -> bool
    requires { HoldsLog log.now mem.now }
{
    i < log.len() && at < log.entry(mem, i).length && log.byte(mem, i, at) == answer
}

/// Whether a step is answered so.
fn is_answered(
    regions: &mut Regions,
    log: &mut Log,
    mem: &mut PhysMem,
    bytes: &[u8],
    step: &Step,
) -> bool
    requires held { HoldsRegions regions.old mem.old }
    requires held_log { HoldsLog log.old mem.old }
    requires book { IsBook (book_in regions.old mem.old) }
    ensures held { HoldsRegions regions.new mem.new }
    ensures held_log { HoldsLog log.new mem.new }
    ensures book { IsBook (book_in regions.new mem.new) }
{
    match *step {
        Alloc(size, policy, answer) => allocate(regions, log, mem, size, policy) == answer,
        Free(id, answer) => free(regions, log, mem, id) == answer,
        Write(id, offset, first, count, answer) => {
            put(regions, log, mem, id, offset, part(bytes, first, count)) == answer
        }
        Stored(at, answer) => peek_byte(mem, at) == answer,
        Tail(id, answer) => has_tail(regions, mem, id, answer),
        Room(answer) => log.room() == answer,
        Logged(i, region, offset, count) => is_logged(log, mem, i, (region, offset, count)),
        Noted(i, at, answer) => is_noted(log, mem, i, at, answer),
    }
}

/// The letters from a to p, and zeros behind them, as many as the longest write has.
fn bytes_of(alloc: Global) -> Option<Vec<u8>> {
    let mut bytes = Vec::from_array(alloc, *b"abcdefghijklmnop").ok()?;
    bytes.resize(32744, 0).ok()?;
    Some(bytes)
}

/// The index of the first step that isn't answered so. Want of memory fails at 0.
fn wrong_step(alloc: Global, steps: &[Step]) -> Option<usize> {
    let Some(bytes) = bytes_of(alloc) else {
        return Some(0);
    };
    let Ok(mut mem) = PhysMem::new(alloc, 80) else {
        return Some(0);
    };
    let mut regions = Regions::start(&mut mem);
    let mut log = start_log(&regions, &mut mem);
    for (index, step) in steps.iter().enumerate() {
        if !is_answered(&mut regions, &mut log, &mut mem, &bytes, step) {
            return Some(index);
        }
    }
    None
}

/// Steps, and the index of the first that is answered otherwise.
type Case = (Option<usize>, &'static [Step]);

static CASES: [Case; 9] = [
    // A step with another answer is found, at its place.
    (
        Some(1),
        &[
            Alloc(8, 1, 256),
            Write(256, 0, 0, 8, 24),
            Stored(0xA000, 97),
        ],
    ),
    // A byte is written once. Offsets 4 to 7 are written first: ranges overlap them in part, and at their first and last byte
    // alone.
    (
        None,
        &[
            Alloc(16, 1, 256),
            Write(256, 4, 0, 4, 0),
            Stored(0xA003, 0),
            Stored(0xA004, 97),
            Stored(0xA007, 100),
            Stored(0xA008, 0),
            Write(256, 4, 8, 4, 24),
            Write(256, 6, 8, 4, 24),
            Write(256, 5, 8, 1, 24),
            Write(256, 0, 8, 5, 24),
            Write(256, 7, 8, 8, 24),
            Stored(0xA000, 0),
            Stored(0xA004, 97),
            Stored(0xA007, 100),
            Stored(0xA008, 0),
            Write(256, 0, 8, 4, 0),
            Stored(0xA000, 105),
            Stored(0xA003, 108),
            Stored(0xA004, 97),
            Write(256, 8, 8, 8, 0),
            Write(256, 15, 0, 1, 24),
            Stored(0xA00F, 112),
            Tail(256, 0),
            Room(65536),
        ],
    ),
    // Bytes are appended in order.
    (
        None,
        &[
            Alloc(10, 2, 256),
            Write(256, 1, 0, 1, 25),
            Tail(256, 0),
            Write(256, 0, 0, 3, 0),
            Tail(256, 3),
            Write(256, 0, 3, 3, 25),
            Write(256, 2, 3, 1, 25),
            Write(256, 4, 3, 1, 25),
            Tail(256, 3),
            Write(256, 3, 3, 7, 0),
            Tail(256, 10),
            Write(256, 10, 0, 1, 21),
            Write(256, 9, 0, 1, 25),
            Stored(0xA000, 97),
            Stored(0xA003, 100),
            Stored(0xA009, 106),
            Stored(0xA00A, 0),
            Room(65536),
        ],
    ),
    // Policy 3 admits no write.
    (
        None,
        &[
            Alloc(16, 3, 256),
            Write(256, 0, 0, 1, 23),
            Write(256, 15, 0, 1, 23),
            Write(256, 0, 0, 16, 23),
            Stored(0xA000, 0),
            Stored(0xA00F, 0),
            Room(65536),
        ],
    ),
    // Writes are logged by policy 4 alone: two regions of it, and one of policy 1 between them.
    (
        None,
        &[
            Alloc(16, 4, 256),
            Alloc(16, 1, 257),
            Alloc(16, 4, 258),
            Write(258, 3, 0, 2, 0),
            Room(65510),
            Write(257, 0, 0, 16, 0),
            Room(65510),
            Write(256, 3, 2, 4, 0),
            Write(258, 4, 6, 1, 0),
            Room(65457),
            Stored(0xA003, 99),
            Stored(0xA023, 97),
            Stored(0xA024, 103),
            Tail(258, 0),
            Logged(0, 258, 3, 2),
            Logged(1, 256, 3, 4),
            Logged(2, 258, 4, 1),
            Noted(0, 1, 98),
            Noted(1, 0, 99),
            Noted(1, 3, 102),
            Noted(2, 0, 103),
        ],
    ),
    // The log is filled: 65,520 bytes of policy 4 and 16 of policy 1. Two long writes leave room for a record of one byte.
    (
        None,
        &[
            Alloc(65520, 4, 256),
            Alloc(16, 1, 257),
            Write(256, 0, 0, 32744, 0),
            Room(32768),
            Write(256, 32744, 0, 32719, 0),
            Room(25),
            Write(256, 0, 4, 2, 26),
            Room(25),
            Stored(0xA000, 97),
            Write(256, 65519, 4, 2, 21),
            Write(256, 0, 4, 1, 0),
            Room(0),
            Stored(0xA000, 101),
            Write(256, 0, 0, 1, 26),
            Stored(0xA000, 101),
            Logged(1, 256, 32744, 32719),
            Logged(2, 256, 0, 1),
            Write(257, 0, 0, 16, 0),
            Stored(0x1_9FFF, 112),
        ],
    ),
    // A write lies in a live region.
    (
        None,
        &[
            Alloc(16, 4, 256),
            Write(255, 0, 0, 1, 19),
            Write(257, 0, 0, 1, 19),
            Write(0x1_0000_0100, 0, 0, 1, 19),
            Write(256, 0, 0, 0, 21),
            Write(256, 16, 0, 1, 21),
            Write(256, 1, 0, 16, 21),
            Write(256, 0x1_0000_0000, 0, 1, 21),
            Write(256, u64::MAX, 0, 1, 21),
            Write(256, u64::MAX, 0, 2, 21),
            Room(65536),
            Write(256, 0, 0, 16, 0),
            Write(256, 15, 0, 1, 0),
            Free(256, true),
            Write(256, 0, 0, 1, 19),
            Room(65471),
        ],
    ),
    // Where a write breaks two rules the answer is the first.
    (
        None,
        &[
            Alloc(8, 1, 256),
            Alloc(8, 2, 257),
            Alloc(8, 3, 258),
            Write(259, 0, 0, 0, 19),
            Write(259, u64::MAX, 0, 2, 19),
            Write(256, 0, 0, 8, 0),
            Write(256, 1, 0, 8, 21),
            Write(256, 0, 0, 0, 21),
            Write(257, 4, 0, 5, 21),
            Write(257, 4, 0, 0, 21),
            Write(258, 4, 0, 5, 21),
            Write(258, 4, 0, 0, 21),
        ],
    ),
    // A new region in the place of one that was let go has nothing written.
    (
        None,
        &[
            Alloc(16, 1, 256),
            Write(256, 0, 0, 16, 0),
            Free(256, true),
            Alloc(16, 1, 257),
            Stored(0xA000, 0),
            Write(257, 0, 4, 12, 0),
            Write(257, 11, 0, 5, 24),
            Write(257, 12, 0, 4, 0),
            Stored(0xA000, 101),
        ],
    ),
];

#[test]
fn writes_are_judged_by_their_policies(rt: HostRuntime) {
    for (wrong, steps) in &CASES {
        assert!(rt; wrong_step(rt.alloc(), steps) == *wrong);
    }
}
