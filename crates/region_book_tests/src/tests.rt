//! Regions of the pool in a memory of 80 frames. The pool's 65,536 bytes stand in frames 10 to 25, from A000 on; the bits of
//! written bytes from 2A000 on, and the slots from 3C000 on, 64 bytes each.

mod declared;

ghost use Rattle.std.specs.Prelude.{◌≡◌, ◌<◌, ◌≤◌, ◌+◌, ◌*◌, ◌/◌, All, IfSome, IsSome, length, false, true};
ghost use Rattle.phys_mem.specs.MaskedMemory.{is_book_frame};
ghost use Rattle.region_book.specs.RegionBytes.{HoldsRegions, book_in};
ghost use Rattle.region_book.specs.RegionRecords.{IsBook, region_of};

use memory_kit::{memory_with, peek_byte, peek_word};
use nk_bits::Rule;
use phys_mem::PhysMem;
use region_book::{Region, Regions};
use std::alloc::Global;

/// The first linear address of the pool.
const POOL: u64 = 0xFFFF_FF80_0001_0000;

/// The bytes that are written, from the first on.
const BYTES: [u8; 16] = *b"abcdefghijklmnop";

/// A step with what it is to answer.
#[derive(Clone, Copy)]
enum Step {
    /// A size and a policy; an identifier and an offset in the pool, or a rule.
    Alloc(u64, u64, Result<(u64, u64), Rule>),
    /// An identifier.
    Free(u64, Result<(), Rule>),
    /// An identifier, an offset and how many bytes, at most 16; whether the range is in the region.
    Write(u64, u32, usize, bool),
    /// An identifier, an offset and a length.
    Fits(u64, u64, u64, bool),
    Written(u64, u32, u32, bool),
    /// An identifier; whether the region is live, with its size, policy and tail.
    Found(u64, Option<(u32, u8, u32)>),
    /// An identifier and an offset.
    Byte(u64, u32, u8),
    /// A place in memory.
    Stored(u64, u8),
    /// How many bits are set in all.
    Bits(u32),
    /// So many regions of a size, one behind the other, each in a space of the pool, from identifier 256 on.
    Fill(u64, u64, u64),
    /// Each of 128 holes of 512 bytes is filled by two regions of this size.
    Holes(u64),
    /// How many regions are live.
    Count(usize),
    /// The identifiers of the live regions rise in order.
    Rising,
    /// The identifier of the next region.
    Next(u64),
}

use Step::{
    Alloc, Bits, Byte, Count, Fill, Fits, Found, Free, Holes, Next, Rising, Stored, Write, Written,
};

fn allocate(
    regions: &mut Regions,
    mem: &mut PhysMem,
    size: u64,
    policy: u64,
) -> Result<(u64, u64), Rule>
    requires held { HoldsRegions regions.old mem.old }
    requires book { IsBook (book_in regions.old mem.old) }
    ensures held { HoldsRegions regions.new mem.new }
    ensures book { IsBook (book_in regions.new mem.new) }
{
    if regions.next() >= 1 << 63 {
        return Err(Rule::BadFrame);
    }
    match regions.alloc(mem, size, policy) {
        Ok(it) => Ok((it.id, it.place - POOL)),
        Err(rule) => Err(rule),
    }
}

/// Whether the region is live and its frames are in memory and no book frames, as those of the pool are.
fn stands(regions: &Regions, mem: &PhysMem, id: u64) -> bool
    requires held { HoldsRegions regions.now mem.now }
    requires book { IsBook (book_in regions.now mem.now) }
    ensures frames { result ≡ true → IfSome (region_of (book_in regions.now mem.now) id)
        (λ r. All (λ f. 4096 * f + 4096 ≤ length mem.now) r.frames) }
    ensures apart { result ≡ true → IfSome (region_of (book_in regions.now mem.now) id)
        (λ r. All (λ f. is_book_frame (length mem.now / 4096) f ≡ false) r.frames) }
{
    match regions.find(mem, id) {
        Some(region) => region.pooled,
        None => false,
    }
}

fn write(regions: &mut Regions, mem: &mut PhysMem, id: u64, offset: u32, count: usize) -> bool
    requires held { HoldsRegions regions.old mem.old }
    requires book { IsBook (book_in regions.old mem.old) }
    requires count { count ≤ 16 }
    ensures held { HoldsRegions regions.new mem.new }
    ensures book { IsBook (book_in regions.new mem.new) }
{
    let bytes = &BYTES[..count];
    if !stands(regions, mem, id) {
        return false;
    }
    if !regions.fits(mem, id, u64::from(offset), bytes.len() as u64) {
        return false;
    }
    regions.mark(mem, id, offset, bytes);
    true
}

/// Whether a range, which may be empty, ends within a live region.
fn ends_within(regions: &Regions, mem: &PhysMem, id: u64, offset: u32, length: u32) -> bool
    requires held { HoldsRegions regions.now mem.now }
    ensures live { result ≡ true → IsSome (region_of (book_in regions.now mem.now) id) }
    ensures within { result ≡ true → IfSome (region_of (book_in regions.now mem.now) id) (λ r. offset + length ≤ r.size) }
{
    match regions.find(mem, id) {
        Some(region) => u64::from(offset) + u64::from(length) <= u64::from(region.size),
        None => false,
    }
}

fn written(regions: &Regions, mem: &PhysMem, id: u64, offset: u32, length: u32) -> bool
    requires held { HoldsRegions regions.now mem.now }
{
    ends_within(regions, mem, id, offset, length) && regions.written(mem, id, offset, length)
}

fn byte(regions: &Regions, mem: &PhysMem, id: u64, offset: u32) -> u8
    requires held { HoldsRegions regions.now mem.now }
    requires book { IsBook (book_in regions.now mem.now) }
{
    if stands(regions, mem, id) && regions.fits(mem, id, u64::from(offset), 1) {
        regions.byte(mem, id, offset)
    } else {
        255
    }
}

fn found(regions: &Regions, mem: &PhysMem, id: u64) -> Option<(u32, u8, u32)>
    requires held { HoldsRegions regions.now mem.now }
{
    match regions.find(mem, id) {
        Some(region) => Some((region.size, region.policy, region.tail)),
        None => None,
    }
}

/// How many bits are set in all.
fn bits_set(mem: &PhysMem) -> u32 {
    let mut count: u32 = 0;
    for i in 0..9216 {
        count = count.saturating_add(peek_word(mem, 0x2A000 + 8 * i).count_ones());
    }
    count
}

/// Whether so many words from a place on are 0.
fn are_zero(mem: &PhysMem, at: u64, count: u64) -> bool
    requires { (at ≤ 0x40000) × (count ≤ 8) }
{
    for i in 0..count {
        if peek_word(mem, at + 8 * i) != 0 {
            return false;
        }
    }
    true
}

/// Whether a slot has the bytes of a region of the pool.
fn is_row_of(mem: &PhysMem, at: u64, region: &Region) -> bool
    requires { at ≤ 0x3FFC0 }
{
    let sizes = u64::from(region.size) + (u64::from(region.tail) << 32);
    let marks = u64::from(region.policy) + (u64::from(region.pooled) << 8);
    peek_word(mem, at) == region.id
        && peek_word(mem, at + 8) == region.place
        && peek_word(mem, at + 16) == sizes
        && peek_word(mem, at + 24) == marks
        && are_zero(mem, at + 32, 4)
}

/// Whether a slot is 0, or has the bytes of a live region.
fn is_slot_right(regions: &Regions, mem: &PhysMem, at: u64) -> bool
    requires held { HoldsRegions regions.now mem.now }
    requires at { at ≤ 0x3FFC0 }
{
    let id = peek_word(mem, at);
    match regions.find(mem, id) {
        Some(region) => is_row_of(mem, at, &region),
        None => are_zero(mem, at, 8),
    }
}

/// Whether slots hold the live regions, one each, and all others are 0.
fn are_slots_right(regions: &Regions, mem: &PhysMem) -> bool
    requires held { HoldsRegions regions.now mem.now }
{
    let mut count: usize = 0;
    for slot in 0..256 {
        let at = 0x3C000 + 64 * slot;
        if !is_slot_right(regions, mem, at) {
            return false;
        }
        if peek_word(mem, at) != 0 {
            count = count.saturating_add(1);
        }
    }
    count == regions.count()
}

/// Whether so many regions of this size are allocated one behind the other, from identifier 256 on.
fn is_filled(regions: &mut Regions, mem: &mut PhysMem, count: u64, size: u64, space: u64) -> bool
    requires held { HoldsRegions regions.old mem.old }
    requires book { IsBook (book_in regions.old mem.old) }
    ensures held { HoldsRegions regions.new mem.new }
    ensures book { IsBook (book_in regions.new mem.new) }
{
    for i in 0..count {
        let expected = (i.saturating_add(256), i.saturating_mul(space));
        if allocate(regions, mem, size, 1) != Ok(expected) {
            return false;
        }
    }
    true
}

/// Whether the identifiers rise in order.
fn are_rising(regions: &Regions, mem: &PhysMem) -> bool
    requires held { HoldsRegions regions.now mem.now }
{
    let mut last = 0;
    for i in 0..regions.count() {
        let region = regions.nth(mem, i);
        if region.id <= last {
            return false;
        }
        last = region.id;
    }
    true
}

/// The identifier of the region at an offset of the pool; 0 where there is none.
fn id_at(regions: &Regions, mem: &PhysMem, start: u64) -> u64
    requires held { HoldsRegions regions.now mem.now }
{
    let place = POOL.saturating_add(start);
    for i in 0..regions.count() {
        let region = regions.nth(mem, i);
        if region.place == place {
            return region.id;
        }
    }
    0
}

/// The offset in the pool of a new region; 65,536 where there is no room.
fn place_of(regions: &mut Regions, mem: &mut PhysMem, size: u64) -> u64
    requires held { HoldsRegions regions.old mem.old }
    requires book { IsBook (book_in regions.old mem.old) }
    ensures held { HoldsRegions regions.new mem.new }
    ensures book { IsBook (book_in regions.new mem.new) }
{
    match allocate(regions, mem, size, 1) {
        Ok(it) => it.1,
        Err(_) => 65536,
    }
}

/// Two regions of this size in the place of one of 512 bytes, and then one of 512 bytes again.
fn fills_a_hole(regions: &mut Regions, mem: &mut PhysMem, start: u64, size: u64) -> bool
    requires held { HoldsRegions regions.old mem.old }
    requires book { IsBook (book_in regions.old mem.old) }
    requires small { (start ≤ 65024) × (size ≤ 256) }
    ensures held { HoldsRegions regions.new mem.new }
    ensures book { IsBook (book_in regions.new mem.new) }
{
    let whole = id_at(regions, mem, start);
    let _freed = regions.free(mem, whole);
    let second = start + (size + 15) / 16 * 16;
    let first_place = place_of(regions, mem, size);
    let second_place = place_of(regions, mem, size);
    let one = id_at(regions, mem, start);
    let _freed = regions.free(mem, one);
    let other = id_at(regions, mem, second);
    let _freed = regions.free(mem, other);
    let last_place = place_of(regions, mem, 512);
    first_place == start && second_place == second && last_place == start
}

/// Whether each of the holes is filled so, in turn.
fn are_holes_filled(regions: &mut Regions, mem: &mut PhysMem, size: u64) -> bool
    requires held { HoldsRegions regions.old mem.old }
    requires book { IsBook (book_in regions.old mem.old) }
    requires small { size ≤ 256 }
    ensures held { HoldsRegions regions.new mem.new }
    ensures book { IsBook (book_in regions.new mem.new) }
{
    for i in 0..128_u64 {
        if !fills_a_hole(regions, mem, 512 * i, size) {
            return false;
        }
    }
    true
}

/// Whether a step is answered so.
fn is_answered(regions: &mut Regions, mem: &mut PhysMem, step: &Step) -> bool
    requires held { HoldsRegions regions.old mem.old }
    requires book { IsBook (book_in regions.old mem.old) }
    ensures held { HoldsRegions regions.new mem.new }
    ensures book { IsBook (book_in regions.new mem.new) }
{
    match *step {
        Alloc(size, policy, answer) => allocate(regions, mem, size, policy) == answer,
        Free(id, answer) => regions.free(mem, id) == answer,
        Write(id, offset, count, answer) => {
            write(regions, mem, id, offset, count.min(16)) == answer
        }
        Fits(id, offset, length, answer) => regions.fits(mem, id, offset, length) == answer,
        Written(id, offset, length, answer) => {
            written(regions, mem, id, offset, length) == answer
        }
        Found(id, answer) => found(regions, mem, id) == answer,
        Byte(id, offset, answer) => byte(regions, mem, id, offset) == answer,
        Stored(at, answer) => peek_byte(mem, at) == answer,
        Bits(answer) => bits_set(mem) == answer,
        Fill(count, size, space) => is_filled(regions, mem, count, size, space),
        Holes(size) => are_holes_filled(regions, mem, size.min(256)),
        Count(answer) => regions.count() == answer,
        Rising => are_rising(regions, mem),
        Next(answer) => regions.next() == answer,
    }
}

/// What stands in memory before the book starts, where slots and bits will.
static BEFORE: [(u64, u64); 4] = [
    (0x2A000, u64::MAX),
    (0x3BFF8, u64::MAX),
    (0x3C000, u64::MAX),
    (0x3FFF8, u64::MAX),
];

/// The index of the first step that isn't answered so, with slots that tell the live regions after each. Want of memory
/// fails at 0.
fn wrong_step(alloc: Global, steps: &[Step]) -> Option<usize> {
    let Ok(mut mem) = memory_with(alloc, 80, &BEFORE) else {
        return Some(0);
    };
    let mut regions = Regions::start(&mut mem);
    for (index, step) in steps.iter().enumerate() {
        if !is_answered(&mut regions, &mut mem, step) || !are_slots_right(&regions, &mem) {
            return Some(index);
        }
    }
    None
}

/// Steps, and the index of the first that is answered otherwise.
type Case = (Option<usize>, &'static [Step]);

static CASES: [Case; 8] = [
    // A step with another answer is found, at its place.
    (
        Some(1),
        &[
            Alloc(65536, 1, Ok((256, 0))),
            Alloc(1, 1, Err(Rule::BadRange)),
            Free(256, Ok(())),
        ],
    ),
    // A region is the whole pool.
    (
        None,
        &[
            Alloc(65536, 1, Ok((256, 0))),
            Alloc(1, 1, Err(Rule::NoRoom)),
            Free(255, Err(Rule::BadRegion)),
            Free(256, Ok(())),
            Alloc(1, 1, Ok((257, 0))),
            Free(256, Err(Rule::BadRegion)),
            Alloc(65521, 2, Err(Rule::NoRoom)),
            Alloc(65520, 2, Ok((258, 16))),
            Found(258, Some((65520, 2, 0))),
        ],
    ),
    // Refused calls take no identifier.
    (
        None,
        &[
            Alloc(0, 0, Err(Rule::BadRange)),
            Alloc(65537, 1, Err(Rule::BadRange)),
            Alloc(0x1_0000_0001, 1, Err(Rule::BadRange)),
            Alloc(1, 0, Err(Rule::BadPolicy)),
            Alloc(1, 5, Err(Rule::BadPolicy)),
            Alloc(1, 0x101, Err(Rule::BadPolicy)),
            Free(256, Err(Rule::BadRegion)),
            Found(256, None),
            Alloc(1, 4, Ok((256, 0))),
        ],
    ),
    // Bytes are written across borders: offset 16 of region 257 begins frame 11; its bit 16 is bit 4096 of all, the first of
    // byte 512.
    (
        None,
        &[
            Alloc(4080, 1, Ok((256, 0))),
            Alloc(40, 2, Ok((257, 4080))),
            Bits(0),
            Write(257, 15, 2, true),
            Bits(2),
            Stored(0xAFFF, 97),
            Stored(0xB000, 98),
            Stored(0xAFFE, 0),
            Stored(0xB001, 0),
            Stored(0x2A1FE, 0),
            Stored(0x2A1FF, 0x80),
            Stored(0x2A200, 1),
            Stored(0x2A201, 0),
            Stored(0x3C040, 1),
            Stored(0x3C048, 0xF0),
            Stored(0x3C049, 0x0F),
            Stored(0x3C050, 40),
            Stored(0x3C054, 17),
            Stored(0x3C058, 2),
            Stored(0x3C059, 1),
            Byte(257, 15, 97),
            Byte(257, 16, 98),
            Byte(257, 17, 0),
            Found(257, Some((40, 2, 17))),
            Written(257, 0, 15, false),
            Written(257, 0, 16, true),
            Written(257, 16, 1, true),
            Written(257, 16, 0, false),
            Written(257, 17, 23, false),
            Write(257, 24, 16, true),
            Written(257, 17, 7, false),
            Written(257, 39, 1, true),
            Found(257, Some((40, 2, 40))),
            Write(257, 25, 16, false),
            Write(257, 0, 0, false),
            Written(256, 0, 4080, false),
            Write(256, 4079, 1, true),
            Found(256, Some((4080, 1, 0))),
            Written(256, 0, 4079, false),
            Written(256, 4079, 1, true),
            Written(257, 0, 15, false),
            Stored(0xAFEF, 97),
            Bits(19),
            Stored(0x2A1FD, 0x80),
        ],
    ),
    // A new region has no byte written, in the place of one that was written and let go; its slot, the second, is the fourth
    // one's then.
    (
        None,
        &[
            Alloc(64, 3, Ok((256, 0))),
            Alloc(64, 2, Ok((257, 64))),
            Write(257, 48, 16, true),
            Alloc(64, 1, Ok((258, 128))),
            Write(258, 0, 1, true),
            Bits(17),
            Stored(0x2A00F, 0xFF),
            Free(257, Ok(())),
            Bits(1),
            Stored(0x2A00F, 0),
            Stored(0x2A010, 1),
            Stored(0x3C041, 0),
            Stored(0xA07F, 112),
            Found(257, None),
            Fits(257, 0, 1, false),
            Alloc(50, 4, Ok((259, 64))),
            Written(259, 0, 50, false),
            Found(259, Some((50, 4, 0))),
            Byte(259, 49, 0),
            Stored(0xA072, 99),
            Found(258, Some((64, 1, 0))),
            Bits(1),
        ],
    ),
    // A range lies in its region.
    (
        None,
        &[
            Alloc(64, 1, Ok((256, 0))),
            Fits(256, 0, 64, true),
            Fits(256, 63, 1, true),
            Fits(256, 0, 0, false),
            Fits(256, 1, 64, false),
            Fits(256, 64, 1, false),
            Fits(256, u64::MAX, 2, false),
            Fits(257, 0, 1, false),
        ],
    ),
    // At most 256 regions are live.
    (
        None,
        &[
            Fill(256, 1, 16),
            Count(256),
            Alloc(1, 1, Err(Rule::TooManyRegions)),
            Alloc(1, 5, Err(Rule::BadPolicy)),
            Rising,
        ],
    ),
    // Every hole of the pool is filled.
    (
        None,
        &[
            Fill(128, 512, 512),
            Holes(1),
            Holes(16),
            Holes(17),
            Rising,
            Next(256 + 128 + 9 * 128),
            Alloc(1, 1, Err(Rule::NoRoom)),
        ],
    ),
];

#[test]
fn steps_are_answered(rt: HostRuntime) {
    for (wrong, steps) in &CASES {
        assert!(rt; wrong_step(rt.alloc(), steps) == *wrong);
    }
}
