//! Memories of few frames, by the numbers of eight bytes that stand in them, least significant byte first.

ghost use Rattle.std.specs.Prelude.{◌≡◌, ◌≤◌, ◌*◌, IfOk, length};

use phys_mem::{NoMemory, PhysMem};
use std::alloc::Global;

/// A memory of so many frames with these numbers, each at its place, and 0 elsewhere.
pub fn memory_with(alloc: Global, frames: u32, words: &[(u64, u64)]) -> Result<PhysMem, NoMemory>
    requires { (1 ≤ frames) × (frames ≤ 65536) }
    ensures { IfOk result (λ mem. length mem ≡ 4096 * frames) }
{
    let mut mem = PhysMem::new(alloc, frames)?;
    store_words(&mut mem, words);
    Ok(mem)
}

/// Stores numbers, each at its place; nothing where one isn't in memory.
pub fn store_words(mem: &mut PhysMem, words: &[(u64, u64)])
    ensures { length mem.new ≡ length mem.old }
{
    for (at, word) in words {
        store_word(mem, *at, *word);
    }
}

/// How many bytes a memory has.
fn size(mem: &PhysMem) -> u64
    ensures length { result ≡ length mem.now }
    ensures least { 4096 ≤ result }
{
    4096 * u64::from(mem.frames())
}

/// Stores a number; nothing where its place isn't in memory.
pub fn store_word(mem: &mut PhysMem, at: u64, word: u64)
    ensures { length mem.new ≡ length mem.old }
{
    if at <= size(mem) - 8 {
        mem.store64(at, word);
    }
}

/// The number at a place; the largest where that isn't in memory.
pub fn peek_word(mem: &PhysMem, at: u64) -> u64 {
    if at <= size(mem) - 8 {
        mem.load64(at)
    } else {
        u64::MAX
    }
}

/// The byte at a place; the largest where that isn't in memory.
pub fn peek_byte(mem: &PhysMem, at: u64) -> u8 {
    if at < size(mem) {
        mem.load8(at)
    } else {
        u8::MAX
    }
}
