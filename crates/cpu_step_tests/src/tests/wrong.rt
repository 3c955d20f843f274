//! What is wrong is found, at its place.

use super::after::Change::{Cpl, Flags, Register, Ss};
use super::after::Leaves::{Changed, Ran};
use super::after::RBX;
use super::after::Start::Supervisor;
use super::cases::Step::{Begins, Store, Turn};
use super::cases::{Row, Step, first_failing, wrong_code, wrong_row};
use x86_regs::RSP;

/// A row that is wrong in its registers alone is found between right ones, and so is one that is wrong in its size, and a
/// code.
#[test]
fn wrong_row_is_found(rt: HostRuntime) {
    let registers: &[Row] = &[
        (Supervisor, b"\x90", Ran(1)),
        (Supervisor, b"\x90", Changed(1, &[Register(RBX, 0)])),
        (Supervisor, b"\x90", Ran(1)),
    ];
    assert_eq!(rt; wrong_row(rt.alloc(), registers), Some(1));
    let size: &[Row] = &[
        (Supervisor, b"\x90", Ran(1)),
        (Supervisor, b"\x90", Ran(2)),
        (Supervisor, b"\x90", Ran(1)),
    ];
    assert_eq!(rt; wrong_row(rt.alloc(), size), Some(1));
    let codes: &[&[u8]] = &[b"\x90", b"\xF4", b"\x90"];
    assert_eq!(rt;
        wrong_code(rt.alloc(), &Supervisor, &Ran(1), codes),
        Some(1)
    );
}

/// IRETQ to the user, the second time with SS null: a step that is wrong in SS alone is found between right ones.
#[test]
fn wrong_step_is_found(rt: HostRuntime) {
    let steps: &[Step] = &[
        Begins(Supervisor, b"\x48\xCF"),
        Store(0x9800, &[0x6008, 0x1B, 0x202, 0x7900, 0x23]),
        Turn(Changed(
            0x6008,
            &[Register(RSP, 0x7900), Flags(0x202), Cpl(3), Ss(0x23)],
        )),
        Begins(Supervisor, b"\x48\xCF"),
        Store(0x9800, &[0x6008, 0x1B, 0x202, 0x7900, 0x23]),
        Turn(Changed(
            0x6008,
            &[Register(RSP, 0x7900), Flags(0x202), Cpl(3), Ss(0)],
        )),
        Begins(Supervisor, b"\x48\xCF"),
        Store(0x9800, &[0x6008, 0x1B, 0x202, 0x7900, 0x23]),
        Turn(Changed(
            0x6008,
            &[Register(RSP, 0x7900), Flags(0x202), Cpl(3), Ss(0x23)],
        )),
    ];
    assert_eq!(rt; first_failing(rt.alloc(), steps), Some(5));
}
