//! Tables of deliveries.

use super::{CONTROL, Machine, Outcome, REGS, TABLES, USER, WITHOUT_WP, run};
use std::alloc::Global;
use test_kit::first_wrong;
use trap_unit::Shut;
use x86_regs::{RSP, Regs, with_register};

/// What is changed of a machine with `REGS`, `CONTROL` and `TABLES`.
#[derive(Clone, Copy)]
pub(crate) enum Setting {
    /// The registers are `USER`.
    User,
    /// WP is clear.
    WithoutWp,
    /// The base of IDTR.
    Idt(u64),
    /// The limit of IDTR.
    Limit(u16),
    /// The base of the task-state segment.
    Tss(u64),
}

/// What comes of a delivery.
#[derive(Clone, Copy)]
pub(crate) enum Answer {
    /// The registers are those at a handler, with this RIP, RSP and SS.
    Delivers(u64, u64, u16),
    /// The machine shuts down, and the registers stay.
    Shuts,
}

/// Six numbers of memory, and the place of the lowest of them.
pub(crate) type Window = (u16, [u64; 6]);

/// Places and numbers of memory, two at most; settings; a vector and an error code; what comes of
/// its delivery, and numbers of memory after it.
pub(crate) type Row = (
    &'static [(u16, u64)],
    &'static [Setting],
    (u8, Option<u64>),
    Answer,
    Window,
);

/// The top of the trap stack, where nothing was pushed.
pub(crate) const NOTHING: Window = (0x9FD0, [0, 0, 0, 0, 0, 0]);

/// Whether a row's delivery leaves what it says.
fn is_right(alloc: Global, (numbers, settings, trap, answer, window): &Row) -> bool {
    let before = machine(settings);
    let expected = outcome(&before.regs, answer, window.1);
    numbers.len() <= 2 && run(alloc, &before, numbers, *trap, window.0) == Some(expected)
}

/// The index of the first row whose delivery leaves something else.
pub(crate) fn wrong_row(alloc: Global, rows: &[Row]) -> Option<usize> {
    first_wrong(rows, |row| is_right(alloc, row))
}

fn machine(settings: &[Setting]) -> Machine {
    let mut machine = Machine {
        control: CONTROL,
        tables: TABLES,
        regs: REGS,
    };
    for setting in settings {
        match *setting {
            Setting::User => machine.regs = USER,
            Setting::WithoutWp => machine.control = WITHOUT_WP,
            Setting::Idt(base) => machine.tables.idt = base,
            Setting::Limit(limit) => machine.tables.limit = limit,
            Setting::Tss(base) => machine.tables.tss = base,
        }
    }
    machine
}

fn outcome(before: &Regs, answer: &Answer, window: [u64; 6]) -> Outcome {
    match *answer {
        Answer::Delivers(rip, rsp, ss) => (Ok(()), at_handler(rip, rsp, ss), window),
        Answer::Shuts => (Err(Shut), *before, window),
    }
}

/// The registers at a handler: IF is clear, and all other flags are set.
fn at_handler(rip: u64, rsp: u64, ss: u16) -> Regs {
    Regs {
        general: with_register(&REGS.general, RSP, rsp),
        rip,
        flags: 0xCD7,
        cpl: 0,
        ss,
    }
}

/// Vector 0 is delivered.
const RIGHT: Row = (
    &[],
    &[],
    (0, None),
    Answer::Delivers(0xFFFF_FF80_0000_1040, 0xFFFF_FF80_0000_3FD8, 0x10),
    (0x9FD0, [0, 0x40_1234, 8, 0xED7, 0x40_0000_1008, 0x10]),
);

/// Rows with another number in memory, another SS, another answer, and three numbers before.
static WRONG: [Row; 4] = [
    (
        &[],
        &[],
        (0, None),
        Answer::Delivers(0xFFFF_FF80_0000_1040, 0xFFFF_FF80_0000_3FD8, 0x10),
        (0x9FD0, [0, 0x40_1234, 8, 0xED7, 0x40_0000_1008, 0x11]),
    ),
    (
        &[],
        &[],
        (0, None),
        Answer::Delivers(0xFFFF_FF80_0000_1040, 0xFFFF_FF80_0000_3FD8, 0),
        (0x9FD0, [0, 0x40_1234, 8, 0xED7, 0x40_0000_1008, 0x10]),
    ),
    (
        &[],
        &[],
        (0, None),
        Answer::Shuts,
        (0x9FD0, [0, 0x40_1234, 8, 0xED7, 0x40_0000_1008, 0x10]),
    ),
    (
        &[(0x8000, 0), (0, 0), (0, 0)],
        &[],
        (0, None),
        Answer::Shuts,
        NOTHING,
    ),
];

#[test]
fn wrong_rows_are_found(rt: HostRuntime) {
    for wrong in &WRONG {
        assert_eq!(rt; wrong_row(rt.alloc(), &[RIGHT, *wrong, RIGHT]), Some(1));
    }
}
