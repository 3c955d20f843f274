//! IRETQ (SDM volume 2, IRET/IRETD/IRETQ). Its frame stands at 1800, or for the user at 7800: RIP, CS, RFLAGS, RSP, SS.

use super::after::Change::{Cpl, Flags, Register, Ss};
use super::after::Leaves::{Changed, Delivered};
use super::after::Start::{Supervisor, User, UserBut};
use super::cases::Step::{Begins, Holds, Put, Store, Turn};
use super::cases::{Step, first_failing};
use x86_regs::RSP;

const IRETQ: &[u8] = b"\x48\xCF";

/// From CPL 0 to either; the low 16 bits of CS and SS count, and of RFLAGS those that are kept.
#[test]
fn from_the_supervisor(rt: HostRuntime) {
    let steps: &[Step] = &[
        Begins(Supervisor, IRETQ),
        Store(0x9800, &[0x6008, 0x1B, 0x202, 0x7900, 0x23]),
        Turn(Changed(
            0x6008,
            &[Register(RSP, 0x7900), Flags(0x202), Cpl(3), Ss(0x23)],
        )),
        Begins(Supervisor, IRETQ),
        Store(0x9800, &[0x40, 0xFFFF_0008, 0xFFFF_FFFF, 0x1700, 0x2_0010]),
        Turn(Changed(
            0x40,
            &[Register(RSP, 0x1700), Flags(0xED7), Cpl(0), Ss(0x10)],
        )),
        Begins(Supervisor, IRETQ),
        Store(0x9800, &[0xFFFF_8000_0000_0000, 8, 0, 0, 0]),
        Turn(Changed(
            0xFFFF_8000_0000_0000,
            &[Register(RSP, 0), Flags(2), Cpl(0), Ss(0)],
        )),
    ];
    assert_eq!(rt; first_failing(rt.alloc(), steps), None);
}

/// From CPL 3 to CPL 3, where IF stays: it is set, and then clear.
#[test]
fn from_the_user(rt: HostRuntime) {
    let steps: &[Step] = &[
        Begins(User, IRETQ),
        Store(0x9800, &[0x6008, 0x1B, 0x41, 0x7900, 0x23]),
        Turn(Changed(
            0x6008,
            &[Register(RSP, 0x7900), Flags(0x243), Cpl(3), Ss(0x23)],
        )),
        Begins(UserBut(&[Flags(2)]), IRETQ),
        Store(0x9800, &[0x6008, 0x1B, 0x202, 0x7900, 0x23]),
        Turn(Changed(0x6008, &[Register(RSP, 0x7900), Flags(2), Cpl(3), Ss(0x23)])),
    ];
    assert_eq!(rt; first_failing(rt.alloc(), steps), None);
}

/// Another pair of selectors, and an address that isn't canonical: #GP(0), with RIP and RSP those of IRETQ.
#[test]
fn refused(rt: HostRuntime) {
    let steps: &[Step] = &[
        Begins(Supervisor, IRETQ),
        Store(0x9800, &[0x40, 0x1B, 2, 0x1700, 0x10]),
        Turn(Delivered(13, Some(0))),
        Begins(Supervisor, IRETQ),
        Store(0x9800, &[0x40, 8, 2, 0x1700, 0x23]),
        Turn(Delivered(13, Some(0))),
        Begins(Supervisor, IRETQ),
        Store(0x9800, &[0x8000_0000_0000, 8, 2, 0x1700, 0x10]),
        Turn(Delivered(13, Some(0))),
        Begins(User, IRETQ),
        Store(0x9800, &[0x40, 8, 2, 0x1700, 0x10]),
        Turn(Delivered(13, Some(0))),
    ];
    assert_eq!(rt; first_failing(rt.alloc(), steps), None);
}

/// IRETQ to CPL 3, HLT there, whose #GP comes back to CPL 0, and UD2 in its handler.
#[test]
fn to_the_user_and_back(rt: HostRuntime) {
    let steps: &[Step] = &[
        Begins(Supervisor, b"\x48\xCF\x90\x90\x90\x90\x90\x90\xF4"),
        Put(0x70D0, b"\x0F\x0B"),
        Store(0x9800, &[0x6008, 0x1B, 0x202, 0x7900, 0x23]),
        Turn(Changed(
            0x6008,
            &[Register(RSP, 0x7900), Flags(0x202), Cpl(3), Ss(0x23)],
        )),
        Turn(Delivered(13, Some(0))),
        Holds(0xFD0, &[0, 0x6008, 0x1B, 0x202, 0x7900, 0x23]),
        Turn(Delivered(6, None)),
    ];
    assert_eq!(rt; first_failing(rt.alloc(), steps), None);
}
