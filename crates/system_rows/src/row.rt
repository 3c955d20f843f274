//! A row: what stands before a turn, and what a processor left after it.

use row_fields::MemoryByte;
use x86_regs::Regs;

/// The general registers before a turn where its row doesn't say otherwise.
const GENERAL: [u64; 16] = [
    0x0706_0504_0302_0100,
    0x1716_1514_1312_1110,
    0x2726_2524_2322_2120,
    0x1_1100,
    0x1_1800,
    0x1_1900,
    0x1_1A00,
    0x1_1B00,
    0x8786_8584_8382_8180,
    0x9796_9594_9392_9190,
    0xA7A6_A5A4_A3A2_A1A0,
    0xB7B6_B5B4_B3B2_B1B0,
    0xC7C6_C5C4_C3C2_C1C0,
    0xD7D6_D5D4_D3D2_D1D0,
    0xE7E6_E5E4_E3E2_E1E0,
    0xF7F6_F5F4_F3F2_F1F0,
];

/// The registers of a processor that rows speak of.
#[derive(Clone, Copy)]
pub struct State {
    pub regs: Regs,
    pub cr0: u64,
    pub cr2: u64,
    pub cr3: u64,
    pub cr4: u64,
    /// Whether HLT stopped the processor.
    pub halted: bool,
}

impl State {
    /// What stands before a turn at this CPL whose row says nothing.
    pub fn base(cpl: u8) -> State {
        let is_user = cpl == 3;
        State {
            regs: Regs {
                general: GENERAL,
                rip: if is_user { 0x1_0000 } else { 0x1_3000 },
                flags: 2,
                cpl,
                ss: if is_user { 0x23 } else { 0x10 },
            },
            cr0: 0x8001_0001,
            cr2: 0,
            cr3: 0x5000,
            cr4: 0x10_0020,
            halted: false,
        }
    }
}

/// What stands before a turn.
#[derive(Drop)]
pub struct Before {
    pub state: State,
    /// The bytes that aren't those of the base memory, and maybe others, by their places.
    pub memory: Vec<MemoryByte>,
}

/// What a processor left after a turn.
#[derive(Drop)]
pub struct After {
    pub state: State,
    /// The flags that the manual leaves undefined after the turn.
    pub undefined: u64,
    /// The bytes that changed, and maybe others, by their places.
    pub memory: Vec<MemoryByte>,
    /// The place of eight bytes that aren't compared.
    pub free: Option<u64>,
}

/// A turn of a processor.
#[derive(Drop)]
pub struct Row {
    pub before: Before,
    pub after: After,
}
