//! Each way in which a delivery shuts the machine down.

use super::rows::Answer::{Delivers, Shuts};
use super::rows::Setting::{Idt, Limit, Tss, User, WithoutWp};
use super::rows::{NOTHING, Row, wrong_row};

/// The gate, the tables or the stack stop a delivery; pushes before a fault stay.
static SHUTDOWNS: [Row; 25] = [
    // the gate is absent, a trap gate, a call gate, or of a type below or above
    (
        &[(0x8000, 0x0000_0E01_0008_1040)],
        &[],
        (0, None),
        Shuts,
        NOTHING,
    ),
    (
        &[(0x8000, 0x0000_8F01_0008_1040)],
        &[],
        (0, None),
        Shuts,
        NOTHING,
    ),
    (
        &[(0x8000, 0x0000_8C01_0008_1040)],
        &[],
        (0, None),
        Shuts,
        NOTHING,
    ),
    (
        &[(0x8000, 0x0000_8601_0008_1040)],
        &[],
        (0, None),
        Shuts,
        NOTHING,
    ),
    (&[(0x8000, 0)], &[], (0, None), Shuts, NOTHING),
    // it leads to another segment, or to the segment at another CPL
    (
        &[(0x8000, 0x0000_8E01_0010_1040)],
        &[],
        (0, None),
        Shuts,
        NOTHING,
    ),
    (
        &[(0x8000, 0x0000_8E01_000B_1040)],
        &[],
        (0, None),
        Shuts,
        NOTHING,
    ),
    (
        &[(0x8000, 0x0000_8E01_0000_1040)],
        &[],
        (0, None),
        Shuts,
        NOTHING,
    ),
    // it names no stack, IST2, or IST3
    (
        &[(0x8000, 0x0000_8E00_0008_1040)],
        &[],
        (0, None),
        Shuts,
        NOTHING,
    ),
    (
        &[(0x8000, 0x0000_8E02_0008_1040)],
        &[],
        (0, None),
        Shuts,
        NOTHING,
    ),
    (
        &[(0x8000, 0x0000_8E03_0008_1040)],
        &[],
        (0, None),
        Shuts,
        NOTHING,
    ),
    // its address isn't canonical
    (&[(0x8008, 0x0000_8000)], &[], (0, None), Shuts, NOTHING),
    (&[(0x8008, 0xFFFF_7FFF)], &[], (0, None), Shuts, NOTHING),
    // the stack's first place is absent, is read alone, or isn't canonical
    (
        &[(0x8424, 0xFFFF_FF80_0000_3000)],
        &[],
        (0, None),
        Shuts,
        NOTHING,
    ),
    (
        &[(0x8424, 0xFFFF_FF80_0000_5000)],
        &[],
        (0, None),
        Shuts,
        NOTHING,
    ),
    (
        &[(0x8424, 0x0000_8000_0000_0010)],
        &[],
        (0, None),
        Shuts,
        NOTHING,
    ),
    // the limit is the last byte of gate 0, or just below it
    (
        &[(0x8FF8, 0x0000_8E01_0008_1040)],
        &[
            Idt(0xFFFF_FF80_0000_0000),
            Limit(14),
            Tss(0xFFFF_FF80_0000_0400),
        ],
        (0, None),
        Shuts,
        NOTHING,
    ),
    (
        &[(0x8FF8, 0x0000_8E01_0008_1040)],
        &[
            Idt(0xFFFF_FF80_0000_0000),
            Limit(15),
            Tss(0xFFFF_FF80_0000_0400),
        ],
        (0, None),
        Delivers(0xFFFF_FF80_0000_1040, 0xFFFF_FF80_0000_3FD8, 0x10),
        (0x9FD0, [0, 0x40_1234, 8, 0xED7, 0x40_0000_1008, 0x10]),
    ),
    // the gate's page is absent
    (
        &[(0x8FF8, 0x0000_8E01_0008_1040)],
        &[
            Idt(0xFFFF_FF80_0000_2000),
            Limit(767),
            Tss(0xFFFF_FF80_0000_0400),
        ],
        (0, None),
        Shuts,
        NOTHING,
    ),
    // it goes over to an absent page
    (
        &[(0x8FF8, 0x0000_8E01_0008_1040)],
        &[
            Idt(0xFFFF_FF80_0000_0FF8),
            Limit(767),
            Tss(0xFFFF_FF80_0000_0400),
        ],
        (0, None),
        Shuts,
        NOTHING,
    ),
    // IST1's page is absent
    (
        &[(0x8FF8, 0x0000_8E01_0008_1040)],
        &[
            Idt(0xFFFF_FF80_0000_0000),
            Limit(767),
            Tss(0xFFFF_FF80_0000_2000),
        ],
        (0, None),
        Shuts,
        NOTHING,
    ),
    // it goes over to one
    (
        &[(0x8FF8, 0x0000_8E01_0008_1040)],
        &[
            Idt(0xFFFF_FF80_0000_0000),
            Limit(767),
            Tss(0xFFFF_FF80_0000_0FD8),
        ],
        (0, None),
        Shuts,
        NOTHING,
    ),
    // the third push would go to page 2: SS and RSP are pushed to page 3
    (
        &[(0x8424, 0xFFFF_FF80_0000_3010)],
        &[User],
        (0, Some(5)),
        Shuts,
        (0x9000, [0x40_0000_1008, 0x23, 0, 0, 0, 0]),
    ),
    // an absent page is so with WP clear too, and the pushes are the supervisor's at CPL 3 too
    (
        &[(0x8424, 0xFFFF_FF80_0000_3000)],
        &[WithoutWp],
        (0, None),
        Shuts,
        NOTHING,
    ),
    (
        &[(0x8424, 0xFFFF_FF80_0000_5000)],
        &[User],
        (0, None),
        Shuts,
        NOTHING,
    ),
];

#[test]
fn shutdowns(rt: HostRuntime) {
    assert_eq!(rt; wrong_row(rt.alloc(), &SHUTDOWNS), None);
}
