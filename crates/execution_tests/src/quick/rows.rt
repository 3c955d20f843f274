//! Tables of turns.

use super::{HELD, Outcome, REGS, turn};
use std::alloc::Global;
use test_kit::first_wrong;
use x86_regs::{RDI, RSI, RSP, Regs, with_register};

/// The flags, among the numbers of registers.
pub(crate) const FLAGS: u8 = 16;

/// CPL, among the numbers of registers: it becomes 0.
pub(crate) const CPL_0: u8 = 17;

/// Numbers of registers, `FLAGS` or `CPL_0`, and what they are set to. All others are those of `REGS`.
pub(crate) type Settings = &'static [(u8, u64)];

/// What a turn leaves.
#[derive(Clone, Copy)]
pub(crate) enum After {
    /// No turn is made: registers and memory stay.
    Left,
    /// These registers are set, then come the flags and RIP; memory stays.
    Goes(Settings, u64, u64),
    /// The same, and addresses 40 and 48 hold these numbers.
    Stores(Settings, u64, u64, [u64; 2]),
}

/// An instruction's bytes, what is set before it, and what its turn leaves.
pub(crate) type Row = (&'static [u8], Settings, After);

/// Whether a row's turn leaves what it says.
fn is_right(alloc: Global, (bytes, settings, after): &Row) -> bool {
    let Some(before) = with_all(&REGS, settings) else {
        return false;
    };
    let expected = outcome(&before, after);
    expected.is_some() && turn(alloc, bytes, &before) == expected
}

/// The index of the first row whose turn leaves something else.
pub(crate) fn wrong_row(alloc: Global, rows: &[Row]) -> Option<usize> {
    first_wrong(rows, |row| is_right(alloc, row))
}

/// What is left of these registers and of memory; None where a setting has no register.
fn outcome(before: &Regs, after: &After) -> Option<Outcome> {
    match *after {
        After::Left => Some((false, *before, HELD, 0)),
        After::Goes(settings, flags, rip) => {
            let regs = with_all(before, settings)?;
            Some((true, Regs { flags, rip, ..regs }, HELD, 0))
        }
        After::Stores(settings, flags, rip, held) => {
            let regs = with_all(before, settings)?;
            Some((true, Regs { flags, rip, ..regs }, held[0], held[1]))
        }
    }
}

/// These registers with others set, or None where a setting has no register.
pub(crate) fn with_all(regs: &Regs, settings: &[(u8, u64)]) -> Option<Regs> {
    let mut after = *regs;
    for (number, value) in settings {
        if *number < FLAGS {
            after.general = with_register(&after.general, *number, *value);
        } else if *number == FLAGS {
            after.flags = *value;
        } else if *number == CPL_0 {
            after.cpl = 0;
        } else {
            return None;
        }
    }
    Some(after)
}

/// MOVSB from address 40 to 48.
const RIGHT: Row = (
    b"\xA4",
    &[(RSI, 0x40), (RDI, 0x48)],
    After::Stores(&[(RSI, 0x41), (RDI, 0x49)], 2, 0x1001, [HELD, 0x11]),
);

/// Rows with another RIP, flags or a number in memory, with a count that stays, without a turn, and
/// with no register.
static WRONG: [Row; 6] = [
    (b"\x90", &[], After::Goes(&[], 2, 0x1002)),
    (b"\x90", &[], After::Goes(&[], 3, 0x1001)),
    (
        b"\x50",
        &[],
        After::Stores(&[(RSP, 0x40)], 2, 0x1001, [HELD, 0]),
    ),
    (
        b"\xF3\xA4",
        &[(RSI, 0x40), (RDI, 0x48)],
        After::Stores(&[(RSI, 0x41), (RDI, 0x49)], 2, 0x1000, [HELD, 0x11]),
    ),
    (b"\x90", &[], After::Left),
    (b"\xF4", &[(18, 0)], After::Left),
];

#[test]
fn wrong_rows_are_found(rt: HostRuntime) {
    for wrong in &WRONG {
        assert_eq!(rt; wrong_row(rt.alloc(), &[RIGHT, *wrong, RIGHT]), Some(1));
    }
}
