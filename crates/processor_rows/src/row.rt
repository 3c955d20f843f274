//! A row: an instruction, what stands before it, and what a processor left after it.

ghost use Rattle.std.specs.Prelude.{◌≤◌, vec_len};

use row_fields::{MemoryByte, byte_at};
use std::alloc::Global;
use x86_regs::{Fault, Regs};

/// What stands before an instruction where its row doesn't say otherwise; bytes of memory are 0.
const BASE: Regs = Regs {
    general: [
        0x0706_0504_0302_0100,
        0x1716_1514_1312_1110,
        0x2726_2524_2322_2120,
        0x21_0100,
        0x21_0800,
        0x21_0900,
        0x21_0A00,
        0x21_0B00,
        0x8786_8584_8382_8180,
        0x9796_9594_9392_9190,
        0xA7A6_A5A4_A3A2_A1A0,
        0xB7B6_B5B4_B3B2_B1B0,
        0xC7C6_C5C4_C3C2_C1C0,
        0xD7D6_D5D4_D3D2_D1D0,
        0xE7E6_E5E4_E3E2_E1E0,
        0xF7F6_F5F4_F3F2_F1F0,
    ],
    rip: 0x20_0800,
    flags: 0x202,
    cpl: 3,
    ss: 0x23,
};

/// What stands before an instruction.
#[derive(Drop)]
pub struct Before {
    pub regs: Regs,
    /// The bytes that aren't 0, and maybe others.
    pub memory: Vec<MemoryByte>,
}

impl Before {
    /// What stands before an instruction whose row says nothing.
    pub fn base(alloc: Global) -> Before {
        Before {
            regs: BASE,
            memory: Vec::new(alloc),
        }
    }
}

/// What a processor left after an instruction.
#[derive(Drop)]
pub struct After {
    pub regs: Regs,
    /// The flags that the manual leaves undefined after the instruction.
    pub undefined: u64,
    /// The bytes that changed, and maybe others.
    pub memory: Vec<MemoryByte>,
    /// The instruction's fault, if it had one.
    pub fault: Option<Fault>,
}

/// An instruction, and what a processor made of it.
#[derive(Drop)]
pub struct Row {
    /// The bytes of the instruction.
    pub code: Vec<u8>,
    pub before: Before,
    pub after: After,
    ghost short: { vec_len code ≤ 15 },
}

impl Row {
    /// The byte at a linear address after the instruction.
    pub fn byte_after(&self, address: u64) -> u8 {
        match byte_at(&self.after.memory, address) {
            Some(byte) => byte,
            None => byte_at(&self.before.memory, address).unwrap_or(0),
        }
    }

    /// Whether the row says which byte stands at a linear address after the instruction.
    pub fn names_after(&self, address: u64) -> bool {
        byte_at(&self.after.memory, address).is_some()
    }
}
