//! What instructions ask of the processor (SDM volume 2, each instruction's page; volume 3, 2.5 and 6.8.3).

use super::after::Change::{Cr0, Cr2, Cr4, Flags, Gates, Halted, Register, Root, Shielded};
use super::after::Leaves::{Changed, Console, Delivered, Ran};
use super::after::Start::{Supervisor, SupervisorBut};
use super::cases::Step::{Begins, Kept, Looks, Takes, Turn};
use super::cases::{Row, Step, first_failing, wrong_row};
use super::events::CODE;
use irq_plan::What;
use nk_bits::Leaf;
use x86_regs::RAX;

/// out dx, al, where DX is 10, is the third.
#[test]
fn ports(rt: HostRuntime) {
    let rows: &[Row] = &[
        (Supervisor, b"\xE6\xE9", Console(0x41, 2)),
        (Supervisor, b"\xE6\xE8", Ran(2)),
        (Supervisor, b"\xEE", Ran(1)),
        (
            SupervisorBut(&[Register(RAX, 0x1234)]),
            b"\xE4\xEA",
            Changed(2, &[Register(RAX, 0x1231)]),
        ),
        (Supervisor, b"\xE4\xEB", Changed(2, &[Register(RAX, 1)])),
        (Supervisor, b"\xE4\xE9", Changed(2, &[Register(RAX, 0xFF)])),
    ];
    assert_eq!(rt; wrong_row(rt.alloc(), rows), None);
}

/// HLT; STI where IF is clear and where it is set; CLI.
#[test]
fn halt_and_shield(rt: HostRuntime) {
    let rows: &[Row] = &[
        (Supervisor, b"\xF4", Changed(1, &[Halted])),
        (Supervisor, b"\xFB", Changed(1, &[Flags(0x202), Shielded])),
        (SupervisorBut(&[Flags(0x202)]), b"\xFB", Ran(1)),
        (
            SupervisorBut(&[Flags(0x202)]),
            b"\xFA",
            Changed(1, &[Flags(2)]),
        ),
    ];
    assert_eq!(rt; wrong_row(rt.alloc(), rows), None);
}

/// MOV to CR0, CR2, CR3 and CR4 from RAX, where CR0 keeps PE, WP, NW, CD and PG; MOV of CR3 to RAX; and LIDT from RBX,
/// which reads two bytes of limit and eight of base.
#[test]
fn control_registers_and_gates(rt: HostRuntime) {
    let rows: &[Row] = &[
        (
            SupervisorBut(&[Register(RAX, 0xFFFF_FFFF)]),
            b"\x0F\x22\xC0",
            Changed(3, &[Cr0(0xE001_0001)]),
        ),
        (
            SupervisorBut(&[Register(RAX, 0x8000_0011)]),
            b"\x0F\x22\xC0",
            Changed(3, &[Cr0(0x8000_0001)]),
        ),
        (
            SupervisorBut(&[Register(RAX, 0x1_0001)]),
            b"\x0F\x22\xC0",
            Delivered(13, Some(0)),
        ),
        (
            SupervisorBut(&[Register(RAX, 0x8877_6655_4433_2211)]),
            b"\x0F\x22\xD0",
            Changed(3, &[Cr2(0x8877_6655_4433_2211)]),
        ),
        (
            SupervisorBut(&[Register(RAX, 0x9FFF)]),
            b"\x0F\x22\xD8",
            Changed(3, &[Root(9)]),
        ),
        (
            SupervisorBut(&[Register(RAX, 0xA000)]),
            b"\x0F\x22\xD8",
            Delivered(13, Some(0)),
        ),
        (
            SupervisorBut(&[Register(RAX, 0x20)]),
            b"\x0F\x22\xE0",
            Changed(3, &[Cr4(0x20)]),
        ),
        (
            Supervisor,
            b"\x0F\x20\xD8",
            Changed(3, &[Register(RAX, 0x1000)]),
        ),
        (
            Supervisor,
            b"\x0F\x01\x1B",
            Changed(3, &[Gates(0x11_2233_4455, 0x6677)]),
        ),
    ];
    assert_eq!(rt; wrong_row(rt.alloc(), rows), None);
}

/// INVLPG at RBX drops the translation of page 1, and each upper entry, also one of the kernel slot's pages.
#[test]
fn invalidated_page(rt: HostRuntime) {
    let steps: &[Step] = &[
        Begins(Supervisor, b"\x0F\x01\x3B"),
        Takes(What::Fill(0x1000)),
        Takes(What::Fill(0x3000)),
        Takes(What::Keep(2, 0xFFFF_FF80_0000_0000)),
        Turn(Ran(3)),
        Looks(1, None),
        Looks(
            3,
            Some(Leaf {
                frame: 7,
                rights: CODE,
            }),
        ),
        Kept(2, 0xFFFF_FF80_0000_0, None),
    ];
    assert_eq!(rt; first_failing(rt.alloc(), steps), None);
}
