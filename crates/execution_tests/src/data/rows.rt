//! Tables of instructions and their effects.

use super::{REGS, run};
use nk_bits::Target;
use std::alloc::Global;
use test_kit::first_wrong;
use x86_regs::{Act, Effect, Fault, RAX, Regs, Write, with_register};

/// The flags, among the numbers of registers.
pub(crate) const FLAGS: u8 = 16;

/// Numbers of registers, or `FLAGS`, and what they are set to. All others are those of `REGS`.
pub(crate) type Settings = &'static [(u8, u64)];

/// What an instruction does.
#[derive(Clone, Copy)]
pub(crate) enum After {
    /// These registers are set, then come the flags and RIP.
    Goes(Settings, u64, u64),
    /// The same, and on page 0 there is a write: its linear address, its width in bytes, and the
    /// number.
    Writes(Settings, u64, u64, (u64, u8, u64)),
    Faults(Fault),
}

/// An instruction's bytes, what is set before it, and what it does.
pub(crate) type Row = (&'static [u8], Settings, After);

/// Whether a row's instruction has its effect.
fn is_right(alloc: Global, (bytes, settings, after): &Row) -> bool {
    let Some(before) = with_all(&REGS, settings) else {
        return false;
    };
    let expected = outcome(&before, after);
    expected.is_some() && run(alloc, bytes, &before) == expected
}

/// The index of the first row whose instruction has another effect.
pub(crate) fn wrong_row(alloc: Global, rows: &[Row]) -> Option<usize> {
    first_wrong(rows, |row| is_right(alloc, row))
}

/// What these registers give; None where a setting has no register.
fn outcome(before: &Regs, after: &After) -> Option<Result<Effect, Fault>> {
    match *after {
        After::Goes(settings, flags, rip) => effect_of(before, settings, flags, rip, None),
        After::Writes(settings, flags, rip, (va, width, value)) => {
            effect_of(
                before,
                settings,
                flags,
                rip,
                Some(on_page_0(va, width, value)),
            )
        }
        After::Faults(fault) => Some(Err(fault)),
    }
}

fn effect_of(
    before: &Regs,
    settings: Settings,
    flags: u64,
    rip: u64,
    write: Option<Write>,
) -> Option<Result<Effect, Fault>> {
    let regs = with_all(before, settings)?;
    Some(Ok(Effect {
        regs: Regs { flags, rip, ..regs },
        write,
        act: Act::Quiet,
    }))
}

/// Page 0 stands in frame 8.
fn on_page_0(va: u64, width: u8, value: u64) -> Write {
    Write {
        va,
        width,
        value,
        target: Target {
            first: va.wrapping_add(0x8000),
            second: 0,
        },
    }
}

/// These registers with others set, or None where a setting has no register.
fn with_all(regs: &Regs, settings: &[(u8, u64)]) -> Option<Regs> {
    let mut after = *regs;
    for (number, value) in settings {
        if *number < FLAGS {
            after.general = with_register(&after.general, *number, *value);
        } else if *number == FLAGS {
            after.flags = *value;
        } else {
            return None;
        }
    }
    Some(after)
}

/// MOV EAX, ECX.
const RIGHT: Row = (b"\x89\xC8", &[], After::Goes(&[(RAX, 3)], 2, 0x1002));

/// Rows with another number, another next instruction, another fault, no instruction, other flags,
/// another write, or no register.
static WRONG: [Row; 7] = [
    (b"\x89\xC8", &[], After::Goes(&[(RAX, 4)], 2, 0x1002)),
    (b"\x89\xC8", &[], After::Goes(&[(RAX, 3)], 2, 0x1003)),
    (
        b"\x89\xC8",
        &[],
        After::Faults(Fault::Page {
            code: 4,
            address: 0x2000,
        }),
    ),
    (b"\x89", &[], After::Goes(&[(RAX, 3)], 2, 0x1002)),
    (b"\x89\xC8", &[], After::Goes(&[(RAX, 3)], 6, 0x1002)),
    (
        b"\x89\x0B",
        &[],
        After::Writes(&[], 2, 0x1002, (0x40, 8, 3)),
    ),
    (b"\x89", &[(17, 0)], After::Faults(Fault::General(99))),
];

#[test]
fn wrong_rows_are_found(rt: HostRuntime) {
    for wrong in &WRONG {
        assert_eq!(rt; wrong_row(rt.alloc(), &[RIGHT, *wrong, RIGHT]), Some(1));
    }
}
