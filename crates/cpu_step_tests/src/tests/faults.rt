//! Faults, delivered with their codes (SDM volume 3, 6.13 and 6.15).

use super::after::Change::{Cr2, Register, Rip};
use super::after::Leaves::{Delivered, Exactly, PageFault, Shutdown};
use super::after::Start::{Supervisor, SupervisorBut, User, UserBut};
use super::after::{After, CONTROL, RBX, TABLES};
use super::cases::Step::{Begins, Holds, Put, Store, Turn};
use super::cases::{Row, Step, first_failing, wrong_row};
use cpu_step::Stepped;
use nk_bits::{Control, Delivery};
use x86_regs::{RCX, RSP, Regs};

/// UD2 at CPL 3: five numbers are pushed below A000, and SS is null at the handler.
const UNDEFINED_OPCODE_OF_THE_USER: After = After {
    stepped: Stepped::Delivered(Delivery {
        vector: 6,
        code: None,
        rip: 0x6000,
        cr2: None,
    }),
    regs: Regs {
        general: [
            0x41, 3, 0x10, 0x1010, 0x9FD8, 0, 0x1100, 0x1200, 0, 0, 0, 0, 0, 0, 0, 0,
        ],
        rip: 0x3060,
        flags: 2,
        cpl: 0,
        ss: 0,
    },
    control: CONTROL,
    tables: TABLES,
    shielded: false,
    halted: false,
    frame: [0, 0x6000, 0x1B, 0x202, 0x7800, 0x23],
};

/// A load of page 2 at CPL 0: CR2 is its address, and the code 0 is pushed last.
const PAGE_FAULT_OF_THE_SUPERVISOR: After = After {
    stepped: Stepped::Delivered(Delivery {
        vector: 14,
        code: Some(0),
        rip: 0,
        cr2: Some(0x2345),
    }),
    regs: Regs {
        general: [
            0x41, 3, 0x10, 0x2345, 0x9FD0, 0, 0x1100, 0x1200, 0, 0, 0, 0, 0, 0, 0, 0,
        ],
        rip: 0x30E0,
        flags: 2,
        cpl: 0,
        ss: 0x10,
    },
    control: Control {
        cr2: 0x2345,
        ..CONTROL
    },
    tables: TABLES,
    shielded: false,
    halted: false,
    frame: [0, 0, 8, 2, 0x1800, 0x10],
};

/// UD2, and mov eax, [rbx].
#[test]
fn told_in_full(rt: HostRuntime) {
    let rows: &[Row] = &[
        (User, b"\x0F\x0B", Exactly(UNDEFINED_OPCODE_OF_THE_USER)),
        (
            SupervisorBut(&[Register(RBX, 0x2345)]),
            b"\x8B\x03",
            Exactly(PAGE_FAULT_OF_THE_SUPERVISOR),
        ),
    ];
    assert_eq!(rt; wrong_row(rt.alloc(), rows), None);
}

/// div ecx; UD2; LOCK NOP; bytes that begin nothing. Addresses that aren't canonical: push rax; mov eax, [rbx]; jmp rbx; a
/// fetch. Then an instruction of sixteen bytes.
#[test]
fn faults(rt: HostRuntime) {
    let rows: &[Row] = &[
        (
            SupervisorBut(&[Register(RCX, 0)]),
            b"\xF7\xF1",
            Delivered(0, None),
        ),
        (Supervisor, b"\x0F\x0B", Delivered(6, None)),
        (Supervisor, b"\xF0\x90", Delivered(6, None)),
        (Supervisor, b"\x64\x90", Delivered(6, None)),
        (
            SupervisorBut(&[Register(RSP, 0x8000_0000_0001)]),
            b"\x50",
            Delivered(12, Some(0)),
        ),
        (
            SupervisorBut(&[Register(RBX, 0x8000_0000_0000)]),
            b"\x8B\x03",
            Delivered(13, Some(0)),
        ),
        (
            SupervisorBut(&[Register(RBX, 0x8000_0000_0000)]),
            b"\xFF\xE3",
            Delivered(13, Some(0)),
        ),
        (
            SupervisorBut(&[Rip(0x8000_0000_0000)]),
            b"\x90",
            Delivered(13, Some(0)),
        ),
        (
            Supervisor,
            b"\x66\x66\x66\x66\x66\x66\x66\x66\x66\x66\x66\x66\x66\x66\x66\x90",
            Delivered(13, Some(0)),
        ),
    ];
    assert_eq!(rt; wrong_row(rt.alloc(), rows), None);
}

/// The code of a page fault: present (bit 0), a write (1), at CPL 3 (2), of a fetch (4). A push that reaches page 2; mov
/// [rbx], eax to the gates; mov eax, [rbx] from the supervisor's page. A fetch from page 2, from data, from the
/// supervisor's page at CPL 3, from the user's at CPL 0 with SMEP.
#[test]
fn codes_of_page_faults(rt: HostRuntime) {
    let rows: &[Row] = &[
        (
            SupervisorBut(&[Register(RSP, 0x2004)]),
            b"\x50",
            PageFault(2, 0x2000),
        ),
        (
            SupervisorBut(&[Register(RBX, 0x8000)]),
            b"\x89\x03",
            PageFault(3, 0x8000),
        ),
        (User, b"\x8B\x03", PageFault(5, 0x1010)),
        (
            SupervisorBut(&[Rip(0x2000)]),
            b"\x90",
            PageFault(0x10, 0x2000),
        ),
        (
            SupervisorBut(&[Rip(0x1000)]),
            b"\x90",
            PageFault(0x11, 0x1000),
        ),
        (UserBut(&[Rip(0)]), b"\x90", PageFault(0x15, 0)),
        (
            SupervisorBut(&[Rip(0x6000)]),
            b"\x90",
            PageFault(0x11, 0x6000),
        ),
    ];
    assert_eq!(rt; wrong_row(rt.alloc(), rows), None);
}

/// mov eax, 44332211 whose last byte would lie on page 1, which isn't executed: the fault's address is that byte's. HLT at
/// CPL 3, and then UD2 in the handler of #GP: its frame begins at the stack's top again, over that of #GP, whose code stays
/// below. The trap stack is absent: the push of SS faults, and the machine shuts down with the registers and memory from
/// before and CR2 that of the load.
#[test]
fn faults_behind_others(rt: HostRuntime) {
    let steps: &[Step] = &[
        Begins(SupervisorBut(&[Rip(0xFFC)]), b""),
        Put(0x8FFC, b"\xB8\x11\x22\x33\x44"),
        Turn(PageFault(0x11, 0x1000)),
        Begins(User, b"\xF4"),
        Put(0x70D0, b"\x0F\x0B"),
        Turn(Delivered(13, Some(0))),
        Turn(Delivered(6, None)),
        Holds(0xFF0, &[0x9FD0]),
        Begins(SupervisorBut(&[Register(RBX, 0x2345)]), b"\x8B\x03"),
        Store(0x4048, &[0]),
        Turn(Shutdown(&[Cr2(0x2345)])),
    ];
    assert_eq!(rt; first_failing(rt.alloc(), steps), None);
}
