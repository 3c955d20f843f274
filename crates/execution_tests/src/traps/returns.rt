//! Returns by IRETQ.

use super::REGS;
use test_kit::first_wrong;
use trap_unit::iretq;
use x86_regs::{Fault, Frame, RSP, Regs, with_register};

/// RSP in each frame.
const STACK: u64 = 0x7FFF_FFFF_F000;

/// The CPL and the flags before a return; RIP, CS, the flags and SS in its frame; and the flags,
/// CPL and SS after it, where None is #GP(0).
type Row = (u8, u64, [u64; 4], Option<(u64, u8, u16)>);

/// Whether a row's return leaves what it says.
fn is_right((cpl, flags, frame, after): &Row) -> bool {
    run(&before(*cpl, *flags), &frame_of(frame)) == expected(frame, after)
}

fn before(cpl: u8, flags: u64) -> Regs {
    let ss = if cpl == 0 { 0x10 } else { 0x23 };
    Regs {
        flags,
        cpl,
        ss,
        ..REGS
    }
}

fn frame_of(numbers: &[u64; 4]) -> Frame {
    Frame {
        rip: numbers[0],
        cs: numbers[1],
        flags: numbers[2],
        rsp: STACK,
        ss: numbers[3],
    }
}

/// The registers after a return by this frame, or its fault.
fn run(regs: &Regs, frame: &Frame) -> Result<Regs, Fault> {
    let mut after = *regs;
    match iretq(&mut after, frame) {
        Ok(()) => Ok(after),
        Err(fault) => Err(fault),
    }
}

fn expected(frame: &[u64; 4], after: &Option<(u64, u8, u16)>) -> Result<Regs, Fault> {
    match *after {
        Some((flags, cpl, ss)) => Ok(Regs {
            general: with_register(&REGS.general, RSP, STACK),
            rip: frame[0],
            flags,
            cpl,
            ss,
        }),
        None => Err(Fault::General(0)),
    }
}

/// Returns to either level, with the flags that they leave; the selectors of a frame are a pair,
/// and its RIP is canonical.
static RETURNS: [Row; 47] = [
    // the supervisor returns to the user, and to itself
    (
        0,
        0xED7,
        [0x40_0000, 0x1B, 0x246, 0x23],
        Some((0x246, 3, 0x23)),
    ),
    (0, 2, [0x40_0000, 0x1B, 0x246, 0x23], Some((0x246, 3, 0x23))),
    (
        0,
        0xED7,
        [0x40_0000, 0x1B, 0x46, 0x23],
        Some((0x46, 3, 0x23)),
    ),
    (
        0,
        0xED7,
        [0x40_0000, 8, 0x246, 0x10],
        Some((0x246, 0, 0x10)),
    ),
    (0, 0xED7, [0x40_0000, 8, 0x246, 0], Some((0x246, 0, 0))),
    // IF stays at CPL 3, whether it is set or clear there
    (
        3,
        0xED7,
        [0x40_0000, 0x1B, 0x46, 0x23],
        Some((0x246, 3, 0x23)),
    ),
    (3, 2, [0x40_0000, 0x1B, 0x246, 0x23], Some((0x46, 3, 0x23))),
    // flags that aren't kept are lost, and so are the bits of the selectors above 15; bit 1 reads
    // as 1
    (
        0,
        0xED7,
        [0x40_0000, 0xFFFF_FFFF_FFFF_001B, u64::MAX, 0x1_0023],
        Some((0xED7, 3, 0x23)),
    ),
    (0, 0xED7, [0x40_0000, 0x1B, 0, 0x23], Some((2, 3, 0x23))),
    // pairs of selectors, and others, at CPL 0
    (
        0,
        0xED7,
        [0x40_0000, 0x1B, 0x246, 0x23],
        Some((0x246, 3, 0x23)),
    ),
    (
        0,
        0xED7,
        [0x40_0000, 0x08, 0x246, 0x10],
        Some((0x246, 0, 0x10)),
    ),
    (0, 0xED7, [0x40_0000, 0x08, 0x246, 0], Some((0x246, 0, 0))),
    (0, 0xED7, [0x40_0000, 0x08, 0x246, 0x23], None),
    (0, 0xED7, [0x40_0000, 0x08, 0x246, 0x08], None),
    (0, 0xED7, [0x40_0000, 0x08, 0x246, 0x13], None),
    (0, 0xED7, [0x40_0000, 0x1B, 0x246, 0x10], None),
    (0, 0xED7, [0x40_0000, 0x1B, 0x246, 0], None),
    (0, 0xED7, [0x40_0000, 0x1B, 0x246, 0x1B], None),
    (0, 0xED7, [0x40_0000, 0x1B, 0x246, 0x20], None),
    (0, 0xED7, [0x40_0000, 0x18, 0x246, 0x23], None),
    (0, 0xED7, [0x40_0000, 0x0B, 0x246, 0x10], None),
    (0, 0xED7, [0x40_0000, 0x10, 0x246, 0x10], None),
    (0, 0xED7, [0x40_0000, 0, 0x246, 0], None),
    (0, 0xED7, [0x40_0000, 0, 0x246, 0x23], None),
    (0, 0xED7, [0x40_0000, 0x1_0000, 0x246, 0x10], None),
    // pairs of selectors, and others, at CPL 3
    (
        3,
        0xED7,
        [0x40_0000, 0x1B, 0x246, 0x23],
        Some((0x246, 3, 0x23)),
    ),
    (3, 0xED7, [0x40_0000, 0x08, 0x246, 0x10], None),
    (3, 0xED7, [0x40_0000, 0x08, 0x246, 0], None),
    (3, 0xED7, [0x40_0000, 0x08, 0x246, 0x23], None),
    (3, 0xED7, [0x40_0000, 0x08, 0x246, 0x08], None),
    (3, 0xED7, [0x40_0000, 0x08, 0x246, 0x13], None),
    (3, 0xED7, [0x40_0000, 0x1B, 0x246, 0x10], None),
    (3, 0xED7, [0x40_0000, 0x1B, 0x246, 0], None),
    (3, 0xED7, [0x40_0000, 0x1B, 0x246, 0x1B], None),
    (3, 0xED7, [0x40_0000, 0x1B, 0x246, 0x20], None),
    (3, 0xED7, [0x40_0000, 0x18, 0x246, 0x23], None),
    (3, 0xED7, [0x40_0000, 0x0B, 0x246, 0x10], None),
    (3, 0xED7, [0x40_0000, 0x10, 0x246, 0x10], None),
    (3, 0xED7, [0x40_0000, 0, 0x246, 0], None),
    (3, 0xED7, [0x40_0000, 0, 0x246, 0x23], None),
    (3, 0xED7, [0x40_0000, 0x1_0000, 0x246, 0x10], None),
    // RIP is canonical
    (3, 0xED7, [0, 0x1B, 0x246, 0x23], Some((0x246, 3, 0x23))),
    (
        3,
        0xED7,
        [0x7FFF_FFFF_FFFF, 0x1B, 0x246, 0x23],
        Some((0x246, 3, 0x23)),
    ),
    (3, 0xED7, [0x8000_0000_0000, 0x1B, 0x246, 0x23], None),
    (3, 0xED7, [0xFFFF_7FFF_FFFF_FFFF, 0x1B, 0x246, 0x23], None),
    (
        3,
        0xED7,
        [0xFFFF_8000_0000_0000, 0x1B, 0x246, 0x23],
        Some((0x246, 3, 0x23)),
    ),
    (
        3,
        0xED7,
        [u64::MAX, 0x1B, 0x246, 0x23],
        Some((0x246, 3, 0x23)),
    ),
];

#[test]
fn returns(rt: HostRuntime) {
    assert_eq!(rt; first_wrong(&RETURNS, is_right), None);
}

/// The second row leaves IF as the frame has it.
static WRONG: [Row; 3] = [
    (3, 2, [0x40_0000, 0x1B, 0x246, 0x23], Some((0x46, 3, 0x23))),
    (3, 2, [0x40_0000, 0x1B, 0x246, 0x23], Some((0x246, 3, 0x23))),
    (3, 2, [0x40_0000, 0x1B, 0x246, 0x10], Some((0x246, 3, 0x23))),
];

#[test]
fn wrong_row_is_found(rt: HostRuntime) {
    assert_eq!(rt; first_wrong(&WRONG, is_right), Some(1));
}
