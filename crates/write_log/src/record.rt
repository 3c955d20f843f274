//! The bytes of a record in memory: they are put at a place, and its numbers are read there.

ghost use Rattle.std.specs.Prelude.{◌≡◌, ◌+◌, ◌<◌, ◌≤◌, ◌^◌, length};
ghost use Rattle.phys_mem.specs.Memory.{number_at, stored};
ghost use Rattle.write_log.specs.RecordStores.{IsPut, byte_stores, with_head};

use phys_mem::{PhysMem, memory_law};

/// Where in a record its region stands; its number is the first.
const REGION: u64 = 8;

const OFFSET: u64 = 16;

const COUNT: u64 = 20;

/// Where in a record its bytes begin.
pub const BYTES: u64 = 24;

/// The region of the record that stands there.
pub fn region(mem: &PhysMem, at: u64) -> u64
    requires room { at + 24 ≤ length mem.now }
    ensures { result ≡ number_at mem.now 8 (at + 8) }
{
    let _frames = mem.frames();
    mem.load64(at + REGION)
}

/// The offset of the record that stands there.
pub fn offset(mem: &PhysMem, at: u64) -> u32
    requires room { at + 24 ≤ length mem.now }
    ensures { result ≡ number_at mem.now 4 (at + 16) }
{
    let _frames = mem.frames();
    mem.load32(at + OFFSET)
}

/// How many bytes the record has that stands there.
pub fn count(mem: &PhysMem, at: u64) -> u32
    requires room { at + 24 ≤ length mem.now }
    ensures { result ≡ number_at mem.now 4 (at + 20) }
{
    let _frames = mem.frames();
    mem.load32(at + COUNT)
}

/// Puts a record there.
pub fn put(mem: &mut PhysMem, at: u64, number: u64, region: u64, offset: u32, bytes: &[u8])
    requires room { at + 24 + length bytes.now ≤ length mem.old }
    requires count { length bytes.now < 2 ^ 32 }
    ensures { IsPut at number (record { region = region; offset = offset; bytes = bytes.now }) mem.old mem.new }
{
    let _frames = mem.frames();
    memory_law();
    put_head(mem, at, number, region, offset, bytes.len() as u32);
    put_bytes(mem, at + BYTES, bytes);
}

/// Puts the four numbers of a record there.
#[tactic(auto, unfolding(crate::specs::RecordStores::with_head))]
fn put_head(mem: &mut PhysMem, at: u64, number: u64, region: u64, offset: u32, count: u32)
    requires room { at + 24 ≤ length mem.old }
    ensures head { mem.new ≡ with_head mem.old at number region offset count }
    ensures length { length mem.new ≡ length mem.old }
{
    let _frames = mem.frames();
    mem.store64(at, number);
    mem.store64(at + REGION, region);
    mem.store32(at + OFFSET, offset);
    mem.store32(at + COUNT, count);
}

/// Puts bytes one by one from there on.
fn put_bytes(mem: &mut PhysMem, at: u64, bytes: &[u8])
    requires room { at + length bytes.now ≤ length mem.old }
    ensures { mem.new ≡ stored mem.old (byte_stores at bytes.now) }
{
    let _frames = mem.frames();
    for i in 0..bytes.len() {
        mem.store8(at + i as u64, bytes[i]);
    }
}
