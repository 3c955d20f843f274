//! The log at worked values: a record takes 24 bytes and its own, of 65,536, and stands in memory byte by byte.

ghost use Rattle.std.specs.Prelude.{◌≡◌, ◌*◌, ◌≤◌, length};
ghost use Rattle.write_log.specs.LogBytes.{HoldsLog};

use memory_kit::peek_byte;
use phys_mem::PhysMem;
use std::alloc::Global;
use test_kit::first_wrong;
use write_log::{Log, Noted};

/// What is done or asked, and what it is to give.
#[derive(Clone, Copy)]
enum Step {
    /// A record of a region, an offset and bytes is added, if there is room for it.
    Add(u64, u32, &'static [u8]),
    /// A record of a region at offset 0 is added: so many bytes, 0 between a first and a last.
    AddLong(u64, usize, u8, u8),
    /// So many records without bytes are added.
    AddEmpty(u16),
    /// How many records there are, and the room that is left.
    Room(u64, u64),
    /// The record of a number.
    Entry(u64, Option<Noted>),
    /// The byte of a record at a place.
    Byte(u64, u32, Option<u8>),
    /// The first byte of the log that isn't one of `TWO`.
    Other(Option<usize>),
    /// The byte of memory at a place.
    Holds(u64, u8),
}

use Step::{Add, AddEmpty, AddLong, Byte, Entry, Holds, Other, Room};

/// Adds a record if there is room for it.
fn add(log: &mut Log, mem: &mut PhysMem, region: u64, offset: u32, bytes: &[u8])
    requires held { HoldsLog log.old mem.old }
    ensures held { HoldsLog log.new mem.new }
{
    if 24 + bytes.len() as u64 <= log.room() {
        log.add(mem, region, offset, bytes);
    }
}

/// Adds such a record if there is room for it; whether there is memory for its bytes.
fn add_long(
    alloc: Global,
    log: &mut Log,
    mem: &mut PhysMem,
    region: u64,
    count: usize,
    ends: (u8, u8),
) -> bool
    requires held { HoldsLog log.old mem.old }
    ensures held { HoldsLog log.new mem.new }
{
    let Ok(mut bytes) = vec![in alloc; 0; count] else {
        return false;
    };
    if count > 0 {
        bytes[0] = ends.0;
        bytes[count - 1] = ends.1;
    }
    add(log, mem, region, 0, &bytes);
    true
}

/// Adds so many records without bytes.
fn add_empty(log: &mut Log, mem: &mut PhysMem, count: u16)
    requires held { HoldsLog log.old mem.old }
    ensures held { HoldsLog log.new mem.new }
{
    for i in 0..count {
        add(log, mem, u64::from(i), 2 * u32::from(i), &[]);
    }
}

/// A record if there is one of this number.
fn entry(log: &Log, mem: &PhysMem, i: u64) -> Option<Noted>
    requires held { HoldsLog log.now mem.now }
{
    if i < log.len() {
        Some(log.entry(mem, i))
    } else {
        None
    }
}

/// A byte if there is one at this place.
fn byte(log: &Log, mem: &PhysMem, i: u64, at: u32) -> Option<u8>
    requires held { HoldsLog log.now mem.now }
{
    if i < log.len() {
        let noted = log.entry(mem, i);
        if at < noted.length {
            return Some(log.byte(mem, i, at));
        }
    }
    None
}

/// Number, region, offset, count and bytes of two records, and 0 behind them; all least significant byte first.
static TWO: [u8; 64] = *b"\
\0\0\0\0\0\0\0\0\x02\x01\0\0\0\0\0\0\x03\0\0\0\x05\0\0\0\x0a\x14\x1e\x28\xff\
\x01\0\0\0\0\0\0\0\x34\0\0\0\0\0\0\x80\xff\x0f\0\0\x02\0\0\0\x07\x08\
\0\0\0\0\0\0\0\0\0";

/// The first byte of the log that isn't one of `TWO`.
fn first_other(mem: &PhysMem) -> Option<usize> {
    for (at, value) in TWO.iter().enumerate() {
        if peek_byte(mem, 0x1A000 + (at as u64 & 0xFFFF)) != *value {
            return Some(at);
        }
    }
    None
}

/// Fills the log's frames, and a byte on either side.
fn mark(mem: &mut PhysMem, byte: u8)
    requires { length mem.old ≡ 4096 * 80 }
    ensures { length mem.new ≡ length mem.old }
{
    for at in 0x19FFF..0x2A001 {
        mem.store8(at, byte);
    }
}

/// Whether a step gives what it is to give.
fn is_met(alloc: Global, log: &mut Log, mem: &mut PhysMem, step: &Step) -> bool
    requires held { HoldsLog log.old mem.old }
    ensures held { HoldsLog log.new mem.new }
{
    match *step {
        Add(region, offset, bytes) => {
            add(log, mem, region, offset, bytes);
            true
        }
        AddLong(region, count, first, last) => {
            add_long(alloc, log, mem, region, count, (first, last))
        }
        AddEmpty(count) => {
            add_empty(log, mem, count);
            true
        }
        Room(count, room) => log.len() == count && log.room() == room,
        Entry(i, noted) => entry(log, mem, i) == noted,
        Byte(i, at, value) => byte(log, mem, i, at) == value,
        Other(at) => first_other(mem) == at,
        Holds(at, value) => peek_byte(mem, at) == value,
    }
}

/// A memory, and the log in it.
#[derive(Drop)]
struct Logged {
    mem: PhysMem,
    log: Log,
    ghost held: { HoldsLog log mem },
}

impl Logged {
    fn is_met(&mut self, alloc: Global, step: &Step) -> bool {
        is_met(alloc, &mut self.log, &mut self.mem, step)
    }
}

/// What memory is filled with before the log starts, the first byte of it that isn't one of `TWO` then, and steps.
type Case = (u8, Option<usize>, &'static [Step]);

/// The index of the first step that gives something else. Where the log can't start, or memory before it is another, it is
/// the largest number.
fn wrong_step(alloc: Global, case: &Case) -> Option<usize> {
    let Ok(mut mem) = PhysMem::new(alloc, 80) else {
        return Some(usize::MAX);
    };
    mark(&mut mem, case.0);
    if first_other(&mem) != case.1 {
        return Some(usize::MAX);
    }
    let log = Log::start(&mut mem);
    let mut logged = Logged { mem, log };
    first_wrong(case.2, |step| logged.is_met(alloc, step))
}

#[rattlefmt::skip]
static CASES: [Case; 5] = [
    // Records are kept in order.
    (0, Some(8), &[
        Room(0, 65536),
        Entry(0, None),
        Add(7, 100, &[1, 2, 3]),
        Add(9, 0, &[]),
        Add(7, 4095, &[4]),
        Add(0xFFFF_FFFF_FFFF_FFFF, 0xFFFF_FFFF, &[5, 6]),
        Room(4, 65434),
        Entry(0, Some(Noted { region: 7, offset: 100, length: 3 })),
        Entry(1, Some(Noted { region: 9, offset: 0, length: 0 })),
        Entry(2, Some(Noted { region: 7, offset: 4095, length: 1 })),
        Entry(3, Some(Noted { region: 0xFFFF_FFFF_FFFF_FFFF, offset: 0xFFFF_FFFF, length: 2 })),
        Entry(4, None),
    ]),
    // Each record has its own bytes and no other's.
    (0, Some(8), &[
        Add(7, 100, &[1, 2, 3]),
        Add(9, 0, &[]),
        Add(7, 4095, &[4]),
        Add(8, 5, &[5, 6]),
        Byte(0, 0, Some(1)),
        Byte(0, 2, Some(3)),
        Byte(0, 3, None),
        Byte(1, 0, None),
        Byte(2, 0, Some(4)),
        Byte(3, 0, Some(5)),
        Byte(3, 1, Some(6)),
        Byte(4, 0, None),
    ]),
    // 32,743 bytes and 32,745 bytes, with 48 for the two records, are all that the log has room for.
    (0, Some(8), &[
        AddLong(7, 32743, 1, 2),
        Room(1, 32769),
        AddLong(8, 32745, 3, 4),
        Room(2, 0),
        Entry(0, Some(Noted { region: 7, offset: 0, length: 32743 })),
        Entry(1, Some(Noted { region: 8, offset: 0, length: 32745 })),
        Byte(0, 0, Some(1)),
        Byte(0, 1, Some(0)),
        Byte(0, 32742, Some(2)),
        Byte(0, 32743, None),
        Byte(1, 0, Some(3)),
        Byte(1, 32743, Some(0)),
        Byte(1, 32744, Some(4)),
        Byte(1, 32745, None),
    ]),
    // 2,730 records without bytes leave 16, too little for another.
    (0, Some(8), &[
        AddEmpty(2730),
        Room(2730, 16),
        Add(1, 1, &[]),
        Room(2730, 16),
        Entry(0, Some(Noted { region: 0, offset: 0, length: 0 })),
        Entry(1365, Some(Noted { region: 1365, offset: 2730, length: 0 })),
        Entry(2729, Some(Noted { region: 2729, offset: 5458, length: 0 })),
    ]),
    // The records are these bytes; a byte in front of the log stays, and so does one behind it.
    (0xEE, Some(0), &[
        Add(258, 3, &[10, 20, 30, 40, 255]),
        Other(Some(29)),
        Add(0x8000_0000_0000_0034, 4095, &[7, 8]),
        Other(None),
        Holds(0x19FFF, 0xEE),
        Holds(0x29FFF, 0),
        Holds(0x2A000, 0xEE),
    ]),
];

#[test]
fn records_are_kept_in_order_byte_by_byte(rt: HostRuntime) {
    for case in &CASES {
        assert!(rt; wrong_step(rt.alloc(), case).is_none());
    }
}
