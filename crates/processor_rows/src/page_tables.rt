//! The memory that instructions run in: ten frames, the first of them unused, then the four tables of one walk, then
//! the pages. Linear pages 210, 211 and 214 may be read and written, page 212 may be read alone, and every other page of
//! data is absent. Frames aren't in the order of pages, so that an access that crosses pages crosses no frames.

ghost use Rattle.std.specs.Prelude.{◌≡◌, ◌<◌, IfOk, IfSome, length};

use nk_bits::Control;
use phys_mem::{NoMemory, PhysMem};
use std::alloc::Global;

/// Paging and write protection are on, the tables' root is frame 1, and SMEP is set.
pub const CONTROL: Control = Control {
    cr0: 0x8001_0011,
    cr2: 0,
    root: 1,
    cr4: 0x10_0020,
    efer: 0xD00,
};

/// A memory with the page tables, and zeros elsewhere.
pub fn memory(alloc: Global) -> Result<PhysMem, NoMemory>
    ensures { IfOk result (λ mem. length mem ≡ 40960) }
{
    let mut mem = PhysMem::new(alloc, 10)?;
    mem.store64(0x1000, 0x2007);
    mem.store64(0x2000, 0x3007);
    mem.store64(0x3008, 0x4007);
    mem.store64(0x4080, 0x9007);
    mem.store64(0x4088, 0x6007);
    mem.store64(0x4090, 0x8005);
    mem.store64(0x40A0, 0x5007);
    Ok(mem)
}

/// Where the byte at a linear address stands in memory, if its page is there.
pub fn place_of(address: u64) -> Option<u64>
    ensures { IfSome result (λ place. place < 40960) }
{
    let frame = match address / 4096 {
        0x210 => 9,
        0x211 => 6,
        0x212 => 8,
        0x214 => 5,
        _ => return None,
    };
    Some(4096 * frame + address % 4096)
}
