//! Deliveries that are made.

use super::rows::Answer::Delivers;
use super::rows::Setting::{User, WithoutWp};
use super::rows::{Row, wrong_row};

/// The frame is pushed from SS to RIP, and an error code last.
static DELIVERIES: [Row; 10] = [
    (
        &[],
        &[],
        (0, None),
        Delivers(0xFFFF_FF80_0000_1040, 0xFFFF_FF80_0000_3FD8, 0x10),
        (0x9FD0, [0, 0x40_1234, 8, 0xED7, 0x40_0000_1008, 0x10]),
    ),
    (
        &[],
        &[],
        (13, Some(0x1A)),
        Delivers(0xFFFF_FF80_0000_10A8, 0xFFFF_FF80_0000_3FD0, 0x10),
        (0x9FD0, [0x1A, 0x40_1234, 8, 0xED7, 0x40_0000_1008, 0x10]),
    ),
    // the user leaves a null SS, and the code of its fault
    (
        &[],
        &[User],
        (47, None),
        Delivers(0xFFFF_FF80_0000_11B8, 0xFFFF_FF80_0000_3FD8, 0),
        (0x9FD0, [0, 0x40_1234, 0x1B, 0xED7, 0x40_0000_1008, 0x23]),
    ),
    (
        &[],
        &[User],
        (13, Some(0)),
        Delivers(0xFFFF_FF80_0000_10A8, 0xFFFF_FF80_0000_3FD0, 0),
        (0x9FD0, [0, 0x40_1234, 0x1B, 0xED7, 0x40_0000_1008, 0x23]),
    ),
    // the stack is aligned down: IST1 is FFFFFF800000400F, and then FFFFFF8000003FF8
    (
        &[(0x8424, 0xFFFF_FF80_0000_400F)],
        &[],
        (0, None),
        Delivers(0xFFFF_FF80_0000_1040, 0xFFFF_FF80_0000_3FD8, 0x10),
        (0x9FD0, [0, 0x40_1234, 8, 0xED7, 0x40_0000_1008, 0x10]),
    ),
    (
        &[(0x8424, 0xFFFF_FF80_0000_3FF8)],
        &[],
        (0, None),
        Delivers(0xFFFF_FF80_0000_1040, 0xFFFF_FF80_0000_3FC8, 0x10),
        (0x9FD0, [8, 0xED7, 0x40_0000_1008, 0x10, 0, 0]),
    ),
    // pushes wrap where IST1 is 0
    (
        &[(0x8424, 0)],
        &[],
        (0, None),
        Delivers(0xFFFF_FF80_0000_1040, 0xFFFF_FFFF_FFFF_FFD8, 0x10),
        (0x9FD0, [0, 0x40_1234, 8, 0xED7, 0x40_0000_1008, 0x10]),
    ),
    // with WP clear the supervisor pushes to a page that isn't writable
    (
        &[(0x8424, 0xFFFF_FF80_0000_5000)],
        &[WithoutWp],
        (0, None),
        Delivers(0xFFFF_FF80_0000_1040, 0xFFFF_FF80_0000_4FD8, 0x10),
        (0xAFD0, [0, 0x40_1234, 8, 0xED7, 0x40_0000_1008, 0x10]),
    ),
    // a push is judged over those before it: page 2 is the table of level 1, and the first push,
    // 23, is its entry of page 1, which had none: frame 0, writable; RFLAGS, CS and RIP are then
    // pushed to page 1
    (
        &[(0x8424, 0xFFFF_FF80_0000_2010), (0x4010, 0x4063)],
        &[User],
        (0, None),
        Delivers(0xFFFF_FF80_0000_1040, 0xFFFF_FF80_0000_1FE8, 0),
        (0xFD0, [0, 0, 0, 0x40_1234, 0x1B, 0xED7]),
    ),
    // a gate's bits that aren't looked at, bit 44 among them, and its address in three parts
    (
        &[
            (0x8000, 0x1234_FEF9_0008_5678),
            (0x8008, 0x9ABC_DEF0_FFFF_FF80),
        ],
        &[],
        (0, None),
        Delivers(0xFFFF_FF80_1234_5678, 0xFFFF_FF80_0000_3FD8, 0x10),
        (0x9FD0, [0, 0x40_1234, 8, 0xED7, 0x40_0000_1008, 0x10]),
    ),
];

#[test]
fn deliveries(rt: HostRuntime) {
    assert_eq!(rt; wrong_row(rt.alloc(), &DELIVERIES), None);
}
