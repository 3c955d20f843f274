//! The tables of two pages, and the control registers by which accesses go through them.

use nk_bits::Control;

/// Paging and write protection are on, the tables' root is frame 1, and SMEP is set.
pub const CONTROL: Control = Control {
    cr0: 0x8001_0011,
    cr2: 0,
    root: 1,
    cr4: 0x10_0020,
    efer: 0xD00,
};

/// The tables stand in frames 1 to 4. Page 0 is frame 8, which the user may read and write; page 1 is frame 9, which may be
/// read alone. No other page has a translation.
pub const PAGES: [(u64, u64); 5] = [
    (0x1000, 0x2007),
    (0x2000, 0x3007),
    (0x3000, 0x4007),
    (0x4000, 0x8007),
    (0x4008, 0x9005),
];
