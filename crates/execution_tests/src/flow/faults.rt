//! The faults of each instruction, and which of two that stand together counts.

use super::rows::After::Faults;
use super::rows::{RIP, Row, wrong_row};
use super::{RAX, RBX, RSP};
use x86_regs::Fault;

/// The least address that isn't canonical.
const HOLE: u64 = 0x8000_0000_0000;

/// A target is canonical. Reads come before the target and the push; the stack raises #SS, and
/// frames and tables are read upwards.
static ACCESSES: [Row; 27] = [
    // targets
    (b"\xFF\xE0", 0, &[(RAX, HOLE)], Faults(Fault::General(0))),
    (b"\xFF\xD0", 0, &[(RAX, HOLE)], Faults(Fault::General(0))),
    (
        b"\xEB\x10",
        0,
        &[(RIP, 0x7FFF_FFFF_FFFE)],
        Faults(Fault::General(0)),
    ),
    (
        b"\x75\x10",
        0,
        &[(RIP, 0x7FFF_FFFF_FFFE)],
        Faults(Fault::General(0)),
    ),
    (
        b"\xE2\x10",
        0,
        &[(RIP, 0x7FFF_FFFF_FFFE)],
        Faults(Fault::General(0)),
    ),
    // the stack isn't there: the target's fault is the first
    (
        b"\xFF\xD0",
        0,
        &[(RAX, HOLE), (RSP, 0x2008)],
        Faults(Fault::General(0)),
    ),
    // reads, targets, pushes
    (
        b"\xFF\x23",
        0,
        &[(RBX, 0x2010), (RSP, 0x2008)],
        Faults(Fault::Page {
            code: 0,
            address: 0x2010,
        }),
    ),
    (
        b"\xFF\x13",
        0,
        &[(RBX, 0x2010), (RSP, 0x2008)],
        Faults(Fault::Page {
            code: 0,
            address: 0x2010,
        }),
    ),
    (
        b"\xC3",
        0,
        &[(RBX, 0x2010), (RSP, 0x2008)],
        Faults(Fault::Page {
            code: 0,
            address: 0x2008,
        }),
    ),
    (
        b"\xFF\xD0",
        0,
        &[(RBX, 0x2010), (RSP, 0x2008)],
        Faults(Fault::Page {
            code: 2,
            address: 0x2000,
        }),
    ),
    (
        b"\xFF\xD0",
        3,
        &[(RSP, 0x1010)],
        Faults(Fault::Page {
            code: 7,
            address: 0x1008,
        }),
    ),
    (
        b"\x9C",
        3,
        &[(RSP, 0x1010)],
        Faults(Fault::Page {
            code: 7,
            address: 0x1008,
        }),
    ),
    // the stack
    (
        b"\xC3",
        0,
        &[(RBX, HOLE), (RSP, HOLE)],
        Faults(Fault::Stack),
    ),
    (
        b"\x9D",
        0,
        &[(RBX, HOLE), (RSP, HOLE)],
        Faults(Fault::Stack),
    ),
    (
        b"\x48\xCF",
        0,
        &[(RBX, HOLE), (RSP, HOLE)],
        Faults(Fault::Stack),
    ),
    (
        b"\xFF\x24\x24",
        0,
        &[(RBX, HOLE), (RSP, HOLE)],
        Faults(Fault::Stack),
    ),
    (
        b"\xFF\x23",
        0,
        &[(RBX, HOLE), (RSP, HOLE)],
        Faults(Fault::General(0)),
    ),
    (b"\x9C", 0, &[(RSP, 0x8000_0000_0008)], Faults(Fault::Stack)),
    (
        b"\xFF\xD0",
        0,
        &[(RSP, 0x8000_0000_0008)],
        Faults(Fault::Stack),
    ),
    // iretq
    (
        b"\x48\xCF",
        0,
        &[(RSP, 0x1FE8)],
        Faults(Fault::Page {
            code: 0,
            address: 0x2000,
        }),
    ),
    (
        b"\x48\xCF",
        3,
        &[(RSP, 0x1FE4)],
        Faults(Fault::Page {
            code: 4,
            address: 0x2000,
        }),
    ),
    // RIP and CS lie below the hole, the flags reach into it
    (
        b"\x48\xCF",
        0,
        &[(RSP, 0x7FFF_FFFF_FFEC)],
        Faults(Fault::Page {
            code: 0,
            address: 0x7FFF_FFFF_FFEC,
        }),
    ),
    // lidt: over the end of page 1 behind its first byte, and behind its limit
    (
        b"\x0F\x01\x1B",
        0,
        &[(RBX, 0x1FFF)],
        Faults(Fault::Page {
            code: 0,
            address: 0x2000,
        }),
    ),
    (
        b"\x0F\x01\x1B",
        0,
        &[(RBX, 0x1FF8)],
        Faults(Fault::Page {
            code: 0,
            address: 0x2000,
        }),
    ),
    (
        b"\x0F\x01\x1B",
        0,
        &[(RBX, 0x7FFF_FFFF_FFFC), (RSP, 0x7FFF_FFFF_FFFC)],
        Faults(Fault::Page {
            code: 0,
            address: 0x7FFF_FFFF_FFFC,
        }),
    ),
    (
        b"\x0F\x01\x1B",
        0,
        &[(RBX, HOLE), (RSP, HOLE)],
        Faults(Fault::General(0)),
    ),
    (
        b"\x0F\x01\x1C\x24",
        0,
        &[(RBX, HOLE), (RSP, HOLE)],
        Faults(Fault::Stack),
    ),
];

#[test]
fn faults_of_accesses(rt: HostRuntime) {
    assert_eq!(rt; wrong_row(rt.alloc(), &ACCESSES), None);
}

/// #UD by LOCK or by a width of 16 bits comes before any fault of the stack, and #UD by LOCK before
/// #GP by the CPL. There is no CR1 and no CR8, at either CPL.
static UNDEFINED_AND_REFUSED: [Row; 41] = [
    // pushf and popf of 16 bits; ud2
    (b"\x66\x9C", 3, &[(RSP, HOLE)], Faults(Fault::Opcode)),
    (b"\x66\x9D", 3, &[(RSP, HOLE)], Faults(Fault::Opcode)),
    (b"\x66\x48\x9D", 3, &[(RSP, HOLE)], Faults(Fault::Stack)),
    (b"\x0F\x0B", 3, &[(RSP, HOLE)], Faults(Fault::Opcode)),
    (b"\x0F\x0B", 0, &[], Faults(Fault::Opcode)),
    // lock on flow
    (b"\xF0\xEB\x10", 3, &[(RSP, HOLE)], Faults(Fault::Opcode)),
    (b"\xF0\xFF\x13", 3, &[(RSP, HOLE)], Faults(Fault::Opcode)),
    (b"\xF0\xC3", 3, &[(RSP, HOLE)], Faults(Fault::Opcode)),
    (b"\xF0\xE2\x10", 3, &[(RSP, HOLE)], Faults(Fault::Opcode)),
    (b"\xF0\xCC", 3, &[(RSP, HOLE)], Faults(Fault::Opcode)),
    (b"\xF0\x48\xCF", 3, &[(RSP, HOLE)], Faults(Fault::Opcode)),
    (b"\xF0\x9C", 3, &[(RSP, HOLE)], Faults(Fault::Opcode)),
    // lock on the system
    (b"\xF0\xFA", 3, &[], Faults(Fault::Opcode)),
    (b"\xF0\xF4", 3, &[], Faults(Fault::Opcode)),
    (b"\xF0\xEC", 3, &[], Faults(Fault::Opcode)),
    (b"\xF0\xE6\xE9", 3, &[], Faults(Fault::Opcode)),
    (b"\xF0\x0F\x22\xC0", 3, &[], Faults(Fault::Opcode)),
    (b"\xF0\x0F\x01\x1B", 3, &[], Faults(Fault::Opcode)),
    (b"\xF0\x0F\x01\x3B", 3, &[], Faults(Fault::Opcode)),
    // the system needs CPL 0
    (b"\xFA", 3, &[(RBX, HOLE)], Faults(Fault::General(0))),
    (b"\xFB", 3, &[(RBX, HOLE)], Faults(Fault::General(0))),
    (b"\xF4", 3, &[(RBX, HOLE)], Faults(Fault::General(0))),
    (b"\xE4\xEA", 3, &[(RBX, HOLE)], Faults(Fault::General(0))),
    (b"\xEE", 3, &[(RBX, HOLE)], Faults(Fault::General(0))),
    (
        b"\x0F\x20\xC0",
        3,
        &[(RBX, HOLE)],
        Faults(Fault::General(0)),
    ),
    (
        b"\x0F\x22\xD8",
        3,
        &[(RBX, HOLE)],
        Faults(Fault::General(0)),
    ),
    (
        b"\x0F\x01\x1B",
        3,
        &[(RBX, HOLE)],
        Faults(Fault::General(0)),
    ),
    (
        b"\x0F\x01\x3B",
        3,
        &[(RBX, HOLE)],
        Faults(Fault::General(0)),
    ),
    // some of the system is undefined at CPL 0
    (b"\x0F\x23\xC0", 0, &[], Faults(Fault::Opcode)),
    (b"\x0F\x30", 0, &[], Faults(Fault::Opcode)),
    (b"\x0F\x00\xD0", 0, &[], Faults(Fault::Opcode)),
    (b"\x0F\x00\xD8", 0, &[], Faults(Fault::Opcode)),
    (b"\x0F\x01\x13", 0, &[], Faults(Fault::Opcode)),
    (b"\x0F\x01\xF0", 0, &[], Faults(Fault::Opcode)),
    (b"\x0F\x23\xC0", 3, &[], Faults(Fault::General(0))),
    (b"\x0F\x30", 3, &[], Faults(Fault::General(0))),
    (b"\x0F\x01\x13", 3, &[], Faults(Fault::General(0))),
    // mov of CR1 and CR8
    (b"\x0F\x20\xC8", 0, &[], Faults(Fault::Opcode)),
    (b"\x0F\x22\xC8", 3, &[], Faults(Fault::Opcode)),
    (b"\x44\x0F\x20\xC0", 3, &[], Faults(Fault::Opcode)),
    (b"\x44\x0F\x22\xC0", 0, &[], Faults(Fault::Opcode)),
];

#[test]
fn undefined_and_refused(rt: HostRuntime) {
    assert_eq!(rt; wrong_row(rt.alloc(), &UNDEFINED_AND_REFUSED), None);
}
