//! Branches, calls and returns where no fault stands (SDM volume 2, JMP, CALL, RET, LOOP/LOOPcc,
//! INT n, IRET).

use super::rows::After::{Acts, Goes, Pushes};
use super::rows::{FLAGS, Row, wrong_row};
use super::{RAX, RCX, RSP};
use x86_regs::{Act, Frame};

/// The frame that stands from 800 on.
const FRAME: Frame = Frame {
    rip: 0x6000,
    cs: 0x1B,
    flags: 0x246,
    rsp: 0x900,
    ss: 0x23,
};

/// Jumps go to their targets, and by a condition only where it stands; and counts go down, also
/// beside ZF.
static JUMPS_AND_COUNTS: [Row; 25] = [
    // jmp
    (b"\xEB\x10", 0, &[], Goes(&[], 0x1012)),
    (b"\xEB\xFE", 0, &[], Goes(&[], 0x1000)),
    (b"\x66\xEB\x7F", 0, &[], Goes(&[], 0x1082)),
    (b"\xE9\x00\x01\x00\x00", 0, &[], Goes(&[], 0x1105)),
    (b"\xFF\xE0", 0, &[], Goes(&[], 0x5000)),
    (b"\xFF\x23", 0, &[], Goes(&[], 0x7000)),
    // relative to the next instruction: 1006 - FC6
    (b"\xFF\x25\x3A\xF0\xFF\xFF", 0, &[], Goes(&[], 0x7000)),
    (b"\xFF\x23", 3, &[], Goes(&[], 0x7000)),
    // jz, jnz
    (b"\x74\x10", 0, &[(FLAGS, 0x42)], Goes(&[], 0x1012)),
    (b"\x74\x10", 0, &[], Goes(&[], 0x1002)),
    (b"\x75\xF0", 0, &[], Goes(&[], 0xFF2)),
    (b"\x75\xF0", 0, &[(FLAGS, 0x42)], Goes(&[], 0x1002)),
    (
        b"\x0F\x84\x00\x01\x00\x00",
        0,
        &[(FLAGS, 0x42)],
        Goes(&[], 0x1106),
    ),
    (
        b"\x0F\x85\x00\x01\x00\x00",
        0,
        &[(FLAGS, 0x42)],
        Goes(&[], 0x1006),
    ),
    // loop, jrcxz
    (b"\xE2\xFE", 0, &[], Goes(&[(RCX, 1)], 0x1000)),
    (b"\xE2\xFE", 0, &[(RCX, 1)], Goes(&[(RCX, 0)], 0x1002)),
    (
        b"\xE2\xFE",
        0,
        &[(RCX, 0)],
        Goes(&[(RCX, u64::MAX)], 0x1000),
    ),
    (b"\xE3\x10", 0, &[(RCX, 0)], Goes(&[], 0x1012)),
    (b"\xE3\x10", 0, &[(RCX, 1)], Goes(&[], 0x1002)),
    // loope, loopne
    (b"\xE1\x10", 0, &[(FLAGS, 0x42)], Goes(&[(RCX, 1)], 0x1012)),
    (
        b"\xE1\x10",
        0,
        &[(RCX, 1), (FLAGS, 0x42)],
        Goes(&[(RCX, 0)], 0x1002),
    ),
    (b"\xE1\x10", 0, &[], Goes(&[(RCX, 1)], 0x1002)),
    (b"\xE0\x10", 0, &[], Goes(&[(RCX, 1)], 0x1012)),
    (b"\xE0\x10", 0, &[(RCX, 1)], Goes(&[(RCX, 0)], 0x1002)),
    (b"\xE0\x10", 0, &[(FLAGS, 0x42)], Goes(&[(RCX, 1)], 0x1002)),
];

#[test]
fn jumps_and_counts(rt: HostRuntime) {
    assert_eq!(rt; wrong_row(rt.alloc(), &JUMPS_AND_COUNTS), None);
}

/// A call pushes the address of the next instruction, and a return pops its target; a trap has its
/// vector, and its return pops five numbers.
static CALLS_AND_RETURNS: [Row; 14] = [
    // call
    (b"\xE8\x00\x01\x00\x00", 0, &[], Pushes(0x1105, 0x1005)),
    (b"\xFF\xD0", 0, &[], Pushes(0x5000, 0x1002)),
    (b"\xFF\x13", 0, &[], Pushes(0x7000, 0x1002)),
    // the target stands at the stack's top before the push
    (b"\xFF\x14\x24", 0, &[], Pushes(0x6000, 0x1003)),
    (b"\xFF\xD4", 0, &[], Pushes(0x800, 0x1002)),
    // ret
    (b"\xC3", 0, &[], Goes(&[(RSP, 0x808)], 0x6000)),
    (b"\xF3\xC3", 0, &[], Goes(&[(RSP, 0x808)], 0x6000)),
    (b"\xC2\x10\x00", 0, &[], Goes(&[(RSP, 0x818)], 0x6000)),
    (b"\xC2\xFF\xFF", 0, &[], Goes(&[(RSP, 0x1_0807)], 0x6000)),
    // int3, int
    (b"\xCC", 0, &[], Acts(&[], 0x1001, Act::Interrupt(3))),
    (b"\xCD\x2F", 3, &[], Acts(&[], 0x1002, Act::Interrupt(47))),
    (b"\xCD\xFF", 3, &[], Acts(&[], 0x1002, Act::Interrupt(255))),
    // iretq
    (b"\x48\xCF", 0, &[], Acts(&[], 0x1002, Act::Return(FRAME))),
    (
        b"\x48\xCF",
        3,
        &[(RAX, 1)],
        Acts(&[], 0x1002, Act::Return(FRAME)),
    ),
];

#[test]
fn calls_and_returns(rt: HostRuntime) {
    assert_eq!(rt; wrong_row(rt.alloc(), &CALLS_AND_RETURNS), None);
}
