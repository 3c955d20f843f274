//! The written bits in memory, in frames 42 to 59: those of a run are set, cleared and tested, a byte at a time.

ghost use Rattle.std.specs.Prelude.{◌≡◌, ◌<◌, ◌≤◌, ℕ, ◌+◌, ◌-◌, ◌*◌, not, ◌&&◌, ◌||◌, nat_le, nat_lt, length, min, slice_index, slice_set};
ghost use Rattle.std.specs.List.{list_any, range_with_len};
ghost use Rattle.region_book.specs.BitChanges.{DiffersInBits};
ghost use Rattle.region_book.specs.RegionBytes.{bits_in};
ghost use Rattle.region_book.specs.RegionRows.{bit_in, bit_of, in_run};

use phys_mem::PhysMem;

/// Where the bits begin: at frame 42.
const BITS: u64 = 0x2A000;

/// Sets so many bits from the first on.
pub(crate) fn set_run(mem: &mut PhysMem, first: u32, count: u32)
    requires size { 0x40000 ≤ length mem.old }
    requires within { first + count ≤ 589824 }
    ensures each { (k : ℕ) → bit_in (bits_in mem.new) k ≡ (bit_in (bits_in mem.old) k || in_run first count k) }
    ensures elsewhere { DiffersInBits mem.old mem.new }
{
    let end = first + count;
    for byte in first / 8..(end + 7) / 8 {
        let mask = mask(byte, first, end);
        let bits = byte_at(mem, byte);
        put(mem, byte, bits | mask);
    }
}

/// Clears so many bits from the first on.
pub(crate) fn clear_run(mem: &mut PhysMem, first: u32, count: u32)
    requires size { 0x40000 ≤ length mem.old }
    requires within { first + count ≤ 589824 }
    ensures each { (k : ℕ) → bit_in (bits_in mem.new) k ≡ (bit_in (bits_in mem.old) k && not (in_run first count k)) }
    ensures elsewhere { DiffersInBits mem.old mem.new }
{
    let end = first + count;
    for byte in first / 8..(end + 7) / 8 {
        let mask = mask(byte, first, end);
        let bits = byte_at(mem, byte);
        put(mem, byte, bits & !mask);
    }
}

/// Whether any of so many bits from the first on is set.
pub(crate) fn any_set(mem: &PhysMem, first: u32, count: u32) -> bool
    requires size { 0x40000 ≤ length mem.now }
    requires within { first + count ≤ 589824 }
    ensures { result ≡ list_any (bit_in (bits_in mem.now)) (range_with_len first count) }
{
    let end = first + count;
    for byte in first / 8..(end + 7) / 8 {
        let mask = mask(byte, first, end);
        let bits = byte_at(mem, byte);
        if bits & mask != 0 {
            return true;
        }
    }
    false
}

/// A byte of the bits.
fn byte_at(mem: &PhysMem, byte: u32) -> u8
    requires size { 0x40000 ≤ length mem.now }
    requires byte { byte < 73728 }
    ensures { result ≡ slice_index (bits_in mem.now) byte }
{
    mem.load8(BITS + u64::from(byte))
}

/// Puts a byte of the bits.
fn put(mem: &mut PhysMem, byte: u32, value: u8)
    requires size { 0x40000 ≤ length mem.old }
    requires byte { byte < 73728 }
    ensures bits { bits_in mem.new ≡ slice_set (bits_in mem.old) byte value }
    ensures elsewhere { DiffersInBits mem.old mem.new }
{
    mem.store8(BITS + u64::from(byte), value);
}

/// The bits of a byte from the first of a run on and before its end.
pub(crate) fn mask(byte: u32, first: u32, end: u32) -> u8
    requires order { first ≤ end }
    requires within { (byte ≤ 73728) × (end ≤ 589824) }
    ensures { (i : ℕ) → i < 8 → bit_of result i ≡ (nat_le first (8 * byte + i) && nat_lt (8 * byte + i) end) }
{
    let ones: u16 = (1 << edge(byte, end)) - (1 << edge(byte, first));
    ones as u8
}

/// How many bits of a byte stand before one.
fn edge(byte: u32, bit: u32) -> u32
    requires { byte ≤ 73728 }
    ensures { result ≡ min (bit - 8 * byte) 8 }
{
    bit.saturating_sub(8 * byte).min(8)
}
