//! Tables of instructions and their effects.

use super::{REGS, RSP, run};
use nk_bits::Target;
use std::alloc::Global;
use test_kit::first_wrong;
use x86_regs::{Act, Effect, Fault, Regs, Write, with_register};

/// The flags, among the numbers of registers.
pub(crate) const FLAGS: u8 = 16;

/// RIP, among the numbers of registers.
pub(crate) const RIP: u8 = 17;

/// Numbers of registers, `FLAGS` or `RIP`, and what they are set to. All others are those of
/// `REGS`.
pub(crate) type Settings = &'static [(u8, u64)];

/// What an instruction does.
#[derive(Clone, Copy)]
pub(crate) enum After {
    /// These registers are set, and the next instruction stands at this address.
    Goes(Settings, u64),
    /// The same, and the processor is asked for this act.
    Acts(Settings, u64, Act),
    /// The next instruction stands at this address, and this number is written below RSP, which
    /// falls.
    Pushes(u64, u64),
    Faults(Fault),
}

/// An instruction's bytes, the CPL and what is set before it, and what it does.
pub(crate) type Row = (&'static [u8], u8, Settings, After);

/// Whether a row's instruction has its effect.
fn is_right(alloc: Global, (bytes, cpl, settings, after): &Row) -> bool {
    let Some(before) = with_all(&at_cpl(*cpl), settings) else {
        return false;
    };
    let expected = outcome(&before, after);
    expected.is_some() && run(alloc, bytes, &before) == expected
}

/// The index of the first row whose instruction has another effect.
pub(crate) fn wrong_row(alloc: Global, rows: &[Row]) -> Option<usize> {
    first_wrong(rows, |row| is_right(alloc, row))
}

/// What these registers give; None where a setting has no register.
fn outcome(before: &Regs, after: &After) -> Option<Result<Effect, Fault>> {
    match *after {
        After::Goes(settings, rip) => acting(before, settings, rip, Act::Quiet),
        After::Acts(settings, rip, act) => acting(before, settings, rip, act),
        After::Pushes(rip, value) => Some(Ok(pushing(before, rip, value))),
        After::Faults(fault) => Some(Err(fault)),
    }
}

fn acting(before: &Regs, settings: Settings, rip: u64, act: Act) -> Option<Result<Effect, Fault>> {
    let regs = with_all(before, settings)?;
    Some(Ok(Effect {
        regs: Regs { rip, ..regs },
        write: None,
        act,
    }))
}

/// Eight bytes are written below RSP, which falls.
fn pushing(before: &Regs, rip: u64, value: u64) -> Effect {
    Effect {
        regs: Regs {
            general: with_register(&before.general, RSP, 0x7F8),
            rip,
            ..*before
        },
        write: Some(Write {
            va: 0x7F8,
            width: 8,
            value,
            target: Target {
                first: 0x87F8,
                second: 0,
            },
        }),
        act: Act::Quiet,
    }
}

/// The registers at this CPL.
fn at_cpl(cpl: u8) -> Regs {
    let ss = if cpl == 0 { 0x10 } else { 0x23 };
    Regs { cpl, ss, ..REGS }
}

/// These registers with others set, or None where a setting has no register.
fn with_all(regs: &Regs, settings: &[(u8, u64)]) -> Option<Regs> {
    let mut after = *regs;
    for (number, value) in settings {
        if *number < FLAGS {
            after.general = with_register(&after.general, *number, *value);
        } else if *number == FLAGS {
            after.flags = *value;
        } else if *number == RIP {
            after.rip = *value;
        } else {
            return None;
        }
    }
    Some(after)
}

/// JMP to 12 bytes past the start.
const RIGHT: Row = (b"\xEB\x10", 0, &[], After::Goes(&[], 0x1012));

/// Rows with another target, another act, another fault, no instruction, another CPL, or no
/// register.
static WRONG: [Row; 6] = [
    (b"\xEB\x10", 0, &[], After::Goes(&[], 0x1010)),
    (b"\xEB\x10", 0, &[], After::Acts(&[], 0x1012, Act::Halt)),
    (b"\xEB\x10", 0, &[], After::Faults(Fault::General(0))),
    (b"\xEB", 0, &[], After::Goes(&[], 0x1012)),
    (b"\xEB\x10", 2, &[], After::Goes(&[], 0x1012)),
    (b"\xEB", 0, &[(18, 0)], After::Faults(Fault::Divide)),
];

#[test]
fn wrong_rows_are_found(rt: HostRuntime) {
    for wrong in &WRONG {
        assert_eq!(rt; wrong_row(rt.alloc(), &[RIGHT, *wrong, RIGHT]), Some(1));
    }
}
