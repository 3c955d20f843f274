//! The fetch of an instruction: its bytes, its faults and their order (SDM volume 2, 2.3.11; volume 3, 6.15).

use super::after::Change::{Flags, Halted, Register, Rip};
use super::after::Leaves::{Changed, Delivered, PageFault, Ran};
use super::after::Start::{Supervisor, SupervisorBut};
use super::cases::Step::{Begins, Put, Turn};
use super::cases::{Row, Step, first_failing, wrong_row};
use x86_regs::RAX;

/// One byte; seven; ten; fourteen prefix bytes and NOP; fifteen prefix bytes; bytes that begin nothing.
#[test]
fn lengths(rt: HostRuntime) {
    let rows: &[Row] = &[
        (Supervisor, b"\xF4", Changed(1, &[Halted])),
        (
            Supervisor,
            b"\x48\xC7\xC0\x0F\x22\xC0\x00",
            Changed(7, &[Register(RAX, 0xC0_220F)]),
        ),
        (
            Supervisor,
            b"\x48\xB8\x01\x02\x03\x04\x05\x06\x07\x08",
            Changed(10, &[Register(RAX, 0x0807_0605_0403_0201)]),
        ),
        (
            Supervisor,
            b"\x66\x66\x66\x66\x66\x66\x66\x66\x66\x66\x66\x66\x66\x66\x90",
            Ran(15),
        ),
        (
            Supervisor,
            b"\x66\x66\x66\x66\x66\x66\x66\x66\x66\x66\x66\x66\x66\x66\x66\x90",
            Delivered(13, Some(0)),
        ),
        (Supervisor, b"\x64", Delivered(6, None)),
        (Supervisor, b"\x0F\x01\xD8", Delivered(6, None)),
    ];
    assert_eq!(rt; wrong_row(rt.alloc(), rows), None);
}

/// An instruction that ends with its page needs no other page; one that goes on faults at the next page's first byte, and
/// bytes that begin nothing fault before that. Page 1 is present, and page 5 isn't; page 4 follows page 3, though frame 6
/// stands before frame 7. In the last, three bytes end page 3, and seven begin page 4: the number is that of both.
#[test]
fn page_ends(rt: HostRuntime) {
    let steps: &[Step] = &[
        Begins(SupervisorBut(&[Rip(0xFFF)]), b""),
        Put(0x8FFF, b"\xF4"),
        Turn(Changed(0x1000, &[Halted])),
        Begins(SupervisorBut(&[Rip(0xFFA)]), b""),
        Put(0x8FFA, b"\x05\x01\x02\x03\x04\xF4"),
        Turn(Changed(0xFFF, &[Register(RAX, 0x0403_0242), Flags(6)])),
        Begins(SupervisorBut(&[Rip(0xFFF)]), b""),
        Put(0x8FFF, b"\x48"),
        Turn(PageFault(0x11, 0x1000)),
        Begins(SupervisorBut(&[Rip(0xFFC)]), b""),
        Put(0x8FFC, b"\xB8\x01\x02\x03"),
        Turn(PageFault(0x11, 0x1000)),
        Begins(SupervisorBut(&[Rip(0xFFF)]), b""),
        Put(0x8FFF, b"\x64"),
        Turn(Delivered(6, None)),
        Begins(SupervisorBut(&[Rip(0x4FFE)]), b""),
        Put(0x6FFE, b"\x0F\x22"),
        Turn(PageFault(0x10, 0x5000)),
        Begins(SupervisorBut(&[Rip(0x3FFE)]), b""),
        Put(0x7FFE, b"\x0F\x01"),
        Turn(Delivered(6, None)),
        Begins(SupervisorBut(&[Rip(0x3FFF)]), b""),
        Put(0x7FFF, b"\x04"),
        Turn(Changed(0x4001, &[Flags(6)])),
        Begins(SupervisorBut(&[Rip(0x4000)]), b""),
        Put(0x6000, b"\x0F\xAE\xE8"),
        Turn(Ran(0x4003)),
        Begins(SupervisorBut(&[Rip(0x3FFD)]), b""),
        Put(0x7FFD, b"\x48\xB8\x01"),
        Put(0x6000, b"\x02\x03\x04\x05\x06\x07\x08"),
        Turn(Changed(0x4007, &[Register(RAX, 0x0807_0605_0403_0201)])),
    ];
    assert_eq!(rt; first_failing(rt.alloc(), steps), None);
}

/// NOP stands on page 1, which isn't executed; page 2 is absent, and so is the lowest of the upper half's; between them no
/// address is canonical.
#[test]
fn pages_that_are_not_executed(rt: HostRuntime) {
    let steps: &[Step] = &[
        Begins(SupervisorBut(&[Rip(0x1000)]), b""),
        Put(0x9000, b"\x90"),
        Turn(PageFault(0x11, 0x1000)),
        Begins(SupervisorBut(&[Rip(0x2345)]), b""),
        Put(0x9000, b"\x90"),
        Turn(PageFault(0x10, 0x2345)),
        Begins(SupervisorBut(&[Rip(0x8000_0000_0000)]), b""),
        Put(0x9000, b"\x90"),
        Turn(Delivered(13, Some(0))),
        Begins(SupervisorBut(&[Rip(0xFFFF_8000_0000_0000)]), b""),
        Put(0x9000, b"\x90"),
        Turn(PageFault(0x10, 0xFFFF_8000_0000_0000)),
    ];
    assert_eq!(rt; first_failing(rt.alloc(), steps), None);
}
