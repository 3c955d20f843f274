//! Turns one after another.

use super::after::Change::{Flags, Halted, Register, Shielded};
use super::after::Leaves::{Changed, Console, PageFault, Ran};
use super::after::Start::{Supervisor, SupervisorBut};
use super::cases::Step::{Begins, Due, Holds, Looks, Rests, Store, Turn};
use super::cases::{Step, first_failing};
use x86_regs::{RAX, RCX, RDI, RDX};

/// mov al, 41; out E9, al; hlt. Then mov [rsi], eax, and to page 2; a refused write changes nothing.
#[test]
fn console_halt_and_writes(rt: HostRuntime) {
    let steps: &[Step] = &[
        Begins(Supervisor, b"\xB0\x41\xE6\xE9\xF4"),
        Turn(Ran(2)),
        Turn(Console(0x41, 4)),
        Turn(Changed(5, &[Halted])),
        Rests,
        Begins(Supervisor, b"\x89\x06\x89\x86\x00\x10\x00\x00"),
        Turn(Ran(2)),
        Holds(0x9100, &[0x41]),
        Turn(PageFault(2, 0x2100)),
        Holds(0x9100, &[0x41]),
    ];
    assert_eq!(rt; first_failing(rt.alloc(), steps), None);
}

/// sti; rep stosb with the count 3: three turns, and the shield covers the first alone.
#[test]
fn repeated_string(rt: HostRuntime) {
    let steps: &[Step] = &[
        Begins(Supervisor, b"\xFB\xF3\xAA\xF4"),
        Turn(Changed(1, &[Flags(0x202), Shielded])),
        Due(None),
        Turn(Changed(1, &[Register(RCX, 2), Register(RDI, 0x1201)])),
        Turn(Changed(1, &[Register(RCX, 1), Register(RDI, 0x1202)])),
        Turn(Changed(3, &[Register(RCX, 0), Register(RDI, 0x1203)])),
        Holds(0x9200, &[0x41_4141]),
    ];
    assert_eq!(rt; first_failing(rt.alloc(), steps), None);
}

/// A kept translation serves after its entry is gone, until MOV to CR3 or INVLPG: mov eax, [rsi]; mov cr3, rdx; mov eax,
/// [rsi].
#[test]
fn translations_are_kept(rt: HostRuntime) {
    let steps: &[Step] = &[
        Begins(
            SupervisorBut(&[Register(RDX, 0x1000)]),
            b"\x8B\x06\x8B\x06\x0F\x22\xDA\x8B\x06",
        ),
        Turn(Changed(2, &[Register(RAX, 0x5A)])),
        Store(0x4008, &[0]),
        Turn(Ran(4)),
        Turn(Ran(7)),
        Looks(0, None),
        Turn(PageFault(0, 0x1100)),
    ];
    assert_eq!(rt; first_failing(rt.alloc(), steps), None);
}
