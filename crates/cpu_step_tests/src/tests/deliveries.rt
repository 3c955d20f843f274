//! Deliveries and returns over pages that are kept, and across a page's edge: the handler of vector 3, at 3030, is INT3
//! again, so that the second delivery finds the pages of the first one kept. Page 8 may be written here.

use super::after::Change::{Gates, Register};
use super::after::Leaves::{Exactly, Ran, Trapped};
use super::after::Start::{Supervisor, SupervisorBut};
use super::after::{After, CONTROL, TABLES};
use super::cases::Step::{Begins, Holds, Put, Store, Turn};
use super::cases::{Step, first_failing};
use cpu_step::Stepped;
use nk_bits::Delivery;
use x86_regs::{RSP, Regs};

/// Three deliveries in a row, the last one from code that is kept too.
#[test]
fn pages_are_kept(rt: HostRuntime) {
    let steps: &[Step] = &[
        Begins(Supervisor, b"\xCC"),
        Put(0x7030, b"\xCC"),
        Turn(Trapped(3, 1)),
        Turn(Trapped(3, 0x3031)),
        Turn(Trapped(3, 0x3031)),
        Holds(0xFD8, &[0x3031, 8, 2, 0x9FD8, 0x10]),
    ];
    assert_eq!(rt; first_failing(rt.alloc(), steps), None);
}

/// What a delivery of vector 3 from 3030 leaves whose frame lies from 8FE8 on: the trap stack's top is as it was.
const ACROSS: After = After {
    stepped: Stepped::Delivered(Delivery {
        vector: 3,
        code: None,
        rip: 0x3031,
        cr2: None,
    }),
    regs: Regs {
        general: [
            0x41, 3, 0x10, 0x1010, 0x8FE8, 0, 0x1100, 0x1200, 0, 0, 0, 0, 0, 0, 0, 0,
        ],
        rip: 0x3030,
        flags: 2,
        cpl: 0,
        ss: 0x10,
    },
    control: CONTROL,
    tables: TABLES,
    shielded: false,
    halted: false,
    frame: [0, 0x3031, 8, 2, 0x9FD8, 0x10],
};

/// IST1 becomes 9010: two numbers are pushed to page 9 and three to page 8, twice.
#[test]
fn frame_across_pages(rt: HostRuntime) {
    let steps: &[Step] = &[
        Begins(Supervisor, b"\xCC"),
        Put(0x7030, b"\xCC"),
        Store(0x4040, &[0x5003]),
        Turn(Trapped(3, 1)),
        Turn(Trapped(3, 0x3031)),
        Store(0x5424, &[0x9010]),
        Turn(Exactly(ACROSS)),
        Holds(0x5FE8, &[0x3031, 8, 2]),
        Holds(0, &[0x9FD8, 0x10]),
        Turn(Exactly(ACROSS)),
        Holds(0, &[0x8FE8, 0x10]),
    ];
    assert_eq!(rt; first_failing(rt.alloc(), steps), None);
}

/// The gate of vector 3 has its low half at 8FF8, and its high half on page 9.
#[test]
fn gate_across_pages(rt: HostRuntime) {
    let steps: &[Step] = &[
        Begins(SupervisorBut(&[Gates(0x8FC8, 767)]), b"\xCC"),
        Put(0x7030, b"\xCC"),
        Store(0x5FF8, &[0x0000_EE01_0008_3030]),
        Turn(Trapped(3, 1)),
        Turn(Trapped(3, 0x3031)),
        Turn(Trapped(3, 0x3031)),
    ];
    assert_eq!(rt; first_failing(rt.alloc(), steps), None);
}

/// iretq to the second of two, which leads to itself: its frame lies on page 8, and then from 8FF0 on.
#[test]
fn returns_over_kept_pages(rt: HostRuntime) {
    let steps: &[Step] = &[
        Begins(SupervisorBut(&[Register(RSP, 0x8800)]), b"\x48\xCF\x48\xCF"),
        Store(0x5800, &[2, 8, 2, 0x8800, 0x10]),
        Turn(Ran(2)),
        Turn(Ran(2)),
        Begins(SupervisorBut(&[Register(RSP, 0x8FF0)]), b"\x48\xCF\x48\xCF"),
        Store(0x5FF0, &[2, 8]),
        Store(0, &[2, 0x8FF0, 0x10]),
        Turn(Ran(2)),
        Turn(Ran(2)),
    ];
    assert_eq!(rt; first_failing(rt.alloc(), steps), None);
}
