//! What needs CPL 0, on the user's page at CPL 3: #GP(0) (SDM volume 3, 5.9; volume 2, each instruction's page); and what
//! raises #UD on this machine.

use super::after::Change::{Flags, Register};
use super::after::Leaves::{Changed, Delivered, Ran, Trapped};
use super::after::RBX;
use super::after::Start::{Supervisor, User, UserBut};
use super::cases::{Row, wrong_code, wrong_code_behind_iretq, wrong_row};
use x86_regs::{RCX, RDI, RDX, RSI, RSP};

/// HLT, CLI, STI; IN and OUT of AL by a number and by DX. MOV of RAX from and to CR0, CR2, CR3 and CR4; LGDT, LIDT and
/// INVLPG of [RBX]; LLDT, LTR and LMSW of AX; WRMSR; MOV of RAX to DR0.
static SYSTEM: [&[u8]; 23] = [
    b"\xF4",
    b"\xFA",
    b"\xFB",
    b"\xE4\xEA",
    b"\xE6\xE9",
    b"\xEC",
    b"\xEE",
    b"\x0F\x20\xC0",
    b"\x0F\x20\xD0",
    b"\x0F\x20\xD8",
    b"\x0F\x20\xE0",
    b"\x0F\x22\xC0",
    b"\x0F\x22\xD0",
    b"\x0F\x22\xD8",
    b"\x0F\x22\xE0",
    b"\x0F\x01\x13",
    b"\x0F\x01\x1B",
    b"\x0F\x01\x3B",
    b"\x0F\x00\xD0",
    b"\x0F\x00\xD8",
    b"\x0F\x01\xF0",
    b"\x0F\x30",
    b"\x0F\x23\xC0",
];

#[test]
fn refused(rt: HostRuntime) {
    let fault = Delivered(13, Some(0));
    assert_eq!(rt; wrong_code(rt.alloc(), &User, &fault, &SYSTEM), None);
}

/// Where CPL 3 was entered by IRETQ they are refused too; NOP isn't, nor is INT3, whose gate is open.
#[test]
fn refused_behind_iretq(rt: HostRuntime) {
    let fault = Delivered(13, Some(0));
    let lawful: &[&[u8]] = &[b"\xF4", b"\x90"];
    assert_eq!(rt; wrong_code_behind_iretq(rt.alloc(), &fault, &SYSTEM), None);
    assert_eq!(rt;
        wrong_code_behind_iretq(rt.alloc(), &fault, lawful),
        Some(1)
    );
    assert_eq!(rt;
        wrong_code_behind_iretq(rt.alloc(), &Ran(0x6009), &lawful[1..]),
        None
    );
    assert_eq!(rt;
        wrong_code_behind_iretq(rt.alloc(), &Trapped(3, 0x6009), &[b"\xCC"]),
        None
    );
}

/// A control register that isn't there, at either CPL; then WRMSR, MOV to DR0, LMSW, LLDT, LTR and LGDT at CPL 0.
#[test]
fn undefined(rt: HostRuntime) {
    let user: &[&[u8]] = &[b"\x0F\x20\xC8", b"\x0F\x22\xC8"];
    let supervisor: &[&[u8]] = &[
        b"\x0F\x20\xC8",
        b"\x0F\x30",
        b"\x0F\x23\xC0",
        b"\x0F\x01\xF0",
        b"\x0F\x00\xD0",
        b"\x0F\x00\xD8",
        b"\x0F\x01\x13",
    ];
    let fault = Delivered(6, None);
    assert_eq!(rt; wrong_code(rt.alloc(), &User, &fault, user), None);
    assert_eq!(rt;
        wrong_code(rt.alloc(), &Supervisor, &fault, supervisor),
        None
    );
}

/// POPFQ of a number whose low 16 bits are 6677, where IF is set and where it is clear: IF stays.
#[test]
fn interrupt_flag_of_the_user(rt: HostRuntime) {
    let rows: &[Row] = &[
        (
            UserBut(&[
                Register(RCX, 0),
                Register(RDX, 0),
                Register(RBX, 0),
                Register(RSP, 0x7010),
                Register(RSI, 0),
                Register(RDI, 0),
            ]),
            b"\x9D",
            Changed(0x6001, &[Register(RSP, 0x7018), Flags(0x657)]),
        ),
        (
            UserBut(&[
                Register(RCX, 0),
                Register(RDX, 0),
                Register(RBX, 0),
                Register(RSP, 0x7010),
                Register(RSI, 0),
                Register(RDI, 0),
                Flags(2),
            ]),
            b"\x9D",
            Changed(0x6001, &[Register(RSP, 0x7018), Flags(0x457)]),
        ),
    ];
    assert_eq!(rt; wrong_row(rt.alloc(), rows), None);
}
