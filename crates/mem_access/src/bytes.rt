//! The bytes of an access at the places that its check found, least significant first. A width is in bytes.

ghost use Rattle.std.specs.Prelude.{◌≡◌, ◌+◌, ◌-◌, ◌*◌, ◌/◌, ◌%◌, ◌^◌, ◌<◌, ◌≤◌, drop, length, take};
ghost use Rattle.phys_mem.specs.Memory.{number_at, stores, stored};
ghost use Rattle.nk_bits.specs.Accesses.{IsTarget};
ghost use Rattle.page_walk.specs.MemoryAccess.{bytes_left, value_at, stores_at};

use crate::span::{crosses, first_part};
use nk_bits::Target;
use phys_mem::{PhysMem, memory_law};

/// The most bytes of an instruction.
const LONGEST: usize = 15;

/// The bytes of a page.
const PAGE_SIZE: usize = 4096;

/// Lends the bytes from the place of the byte at `va` to the end of its page, fifteen at most.
#[inline(always)]
#[tactic(auto, unfolding(page_walk::specs::MemoryAccess::bytes_left))]
pub fn lend(mem: &PhysMem, va: u64, place: u64) -> &[u8]
    requires agrees { place % 4096 ≡ va % 4096 }
    requires inside { place + (4096 - va % 4096) ≤ length mem.now }
    ensures bytes { result.now ≡ take (bytes_left va) (drop place mem.now) }
    ensures length { length result.now ≡ bytes_left va }
{
    prove!(place < 4096 * u64::from(mem.frames()));
    let page = mem.frame((place / 4096) as u32);
    let start = (place % 4096) as usize;
    let count = LONGEST.min(PAGE_SIZE - start);
    &page[start..start + count]
}

/// Lends so many bytes from a place on, which lie on one page.
pub fn run_on_page(mem: &PhysMem, place: u64, count: usize) -> &[u8]
    requires page { place % 4096 + count ≤ 4096 }
    requires inside { place + count ≤ length mem.now }
    requires some { 0 < count }
    ensures bytes { result.now ≡ take count (drop place mem.now) }
    ensures length { length result.now ≡ count }
{
    prove!(place < 4096 * u64::from(mem.frames()));
    let page = mem.frame((place / 4096) as u32);
    let first = (place % 4096) as usize;
    &page[first..first + count]
}

/// The number of `width` bytes that stands at these places.
pub fn read(mem: &PhysMem, target: &Target, va: u64, width: u8) -> u64
    requires width { width ≤ 8 }
    requires target { IsTarget (length mem.now) va width target.now }
    ensures value { result ≡ value_at mem.now va width target.now }
    ensures bound { result < 256 ^ width }
{
    if !crosses(va, width) {
        return number(mem, target.first, width);
    }
    let part = first_part(va, width);
    let low = number(mem, target.first, part);
    let high = number(mem, target.second, width - part);
    joined(low, part, high, width - part)
}

/// Puts the `width` low bytes of `value` at these places.
pub fn write(mem: &mut PhysMem, target: &Target, va: u64, width: u8, value: u64)
    requires width { width ≤ 8 }
    requires target { IsTarget (length mem.old) va width target.now }
    ensures stored { mem.new ≡ stored mem.old (stores_at va width target.now value) }
    ensures length { length mem.new ≡ length mem.old }
{
    memory_law();
    if !crosses(va, width) {
        put(mem, target.first, width, value);
        return;
    }
    let part = first_part(va, width);
    put(mem, target.first, part, value);
    put(mem, target.second, width - part, rest(value, part));
}

/// The number whose `count` bytes stand from `at` on.
#[inline(always)]
pub fn number(mem: &PhysMem, at: u64, count: u8) -> u64
    requires count { count ≤ 8 }
    requires inside { at + count ≤ length mem.now }
    ensures value { result ≡ number_at mem.now count at }
    ensures bound { result < 256 ^ count }
{
    if count == 8 {
        return mem.load64(at);
    }
    short_number(mem, at, count)
}

/// The same, where it mostly has fewer than eight bytes.
#[inline(always)]
fn short_number(mem: &PhysMem, at: u64, count: u8) -> u64
    requires count { count ≤ 8 }
    requires inside { at + count ≤ length mem.now }
    ensures value { result ≡ number_at mem.now count at }
    ensures bound { result < 256 ^ count }
{
    match count {
        1 => u64::from(mem.load8(at)),
        2 => u64::from(mem.load16(at)),
        4 => u64::from(mem.load32(at)),
        _ => number_by_bytes(mem, at, count),
    }
}

/// The same, byte by byte.
fn number_by_bytes(mem: &PhysMem, at: u64, count: u8) -> u64
    requires count { count ≤ 8 }
    requires inside { at + count ≤ length mem.now }
    ensures value { result ≡ number_at mem.now count at }
    ensures bound { result < 256 ^ count }
{
    prove!(at <= 4096 * u64::from(mem.frames()));
    let mut value = 0;
    for offset in (0..count).rev() {
        value = 256 * value + u64::from(mem.load8(at + u64::from(offset)));
    }
    value
}

/// Puts the `count` low bytes of `value` at the places from `at` on.
#[inline(always)]
pub fn put(mem: &mut PhysMem, at: u64, count: u8, value: u64)
    requires { at + count ≤ length mem.old }
    ensures stored { mem.new ≡ stored mem.old (stores count at value) }
    ensures length { length mem.new ≡ length mem.old }
{
    if count == 8 {
        mem.store64(at, value);
        return;
    }
    put_short(mem, at, count, value);
}

/// The same, where there are mostly fewer than eight bytes.
#[inline(always)]
fn put_short(mem: &mut PhysMem, at: u64, count: u8, value: u64)
    requires { at + count ≤ length mem.old }
    ensures stored { mem.new ≡ stored mem.old (stores count at value) }
    ensures length { length mem.new ≡ length mem.old }
{
    match count {
        1 => mem.store8(at, (value % 0x100) as u8),
        2 => mem.store16(at, (value % 0x1_0000) as u16),
        4 => mem.store32(at, (value % 0x1_0000_0000) as u32),
        _ => put_by_bytes(mem, at, count, value),
    }
}

/// The same, byte by byte.
fn put_by_bytes(mem: &mut PhysMem, at: u64, count: u8, value: u64)
    requires { at + count ≤ length mem.old }
    ensures stored { mem.new ≡ stored mem.old (stores count at value) }
    ensures length { length mem.new ≡ length mem.old }
{
    prove!(at <= 4096 * u64::from(mem.frames()));
    let mut rest = value;
    for offset in 0..count {
        mem.store8(at + u64::from(offset), (rest % 256) as u8);
        rest /= 256;
    }
}

/// The number of `part` low bytes and the `count` bytes above them.
fn joined(low: u64, part: u8, high: u64, count: u8) -> u64
    requires count { (1 ≤ count) × (part + count ≤ 8) }
    requires low { low < 256 ^ part }
    requires high { high < 256 ^ count }
    ensures value { result ≡ low + 256 ^ part * high }
    ensures bound { result < 256 ^ (part + count) }
{
    low + (high << (8 * part))
}

/// What is left of a number above its `part` low bytes.
fn rest(value: u64, part: u8) -> u64
    requires { part < 8 }
    ensures { result ≡ value / 256 ^ part }
{
    value >> (8 * part)
}
