//! The sixteen conditions by their flags (SDM volume 1, appendix B, table B-1).

use x86_decode::Op;
use x86_regs::is_taken;

/// Whether a conditional jump by these flags is taken.
fn jumps(condition: u8, flags: u64) -> bool {
    is_taken(Op::J(condition), flags)
}

/// An even condition, and flags by which it stands: O, B, E, BE, S, P, L, LE.
static STANDING: [(u8, u64); 14] = [
    (0, 0x800),
    (2, 0x001),
    (4, 0x040),
    (6, 0x001),
    (6, 0x040),
    (6, 0x041),
    (8, 0x080),
    (10, 0x004),
    (12, 0x080),
    (12, 0x800),
    (14, 0x040),
    (14, 0x080),
    (14, 0x800),
    (14, 0x8C0),
];

/// An even condition, and all flags by which it doesn't stand.
static FALLING: [(u8, u64); 10] = [
    (0, 0x6D7),
    (2, 0xED6),
    (4, 0xE97),
    (6, 0xE96),
    (8, 0xE57),
    (10, 0xED3),
    (12, 0xED7),
    (12, 0x657),
    (14, 0xE97),
    (14, 0x617),
];

#[test]
fn condition_stands_by_its_flags(rt: HostRuntime) {
    for (condition, flags) in &STANDING {
        assert!(rt; jumps(*condition, *flags));
        assert!(rt; !jumps(*condition | 1, *flags));
    }
    for (condition, flags) in &FALLING {
        assert!(rt; !jumps(*condition, *flags));
        assert!(rt; jumps(*condition | 1, *flags));
    }
}
