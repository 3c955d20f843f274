//! Quick turns: how many are made, and what they leave. The code is mov [rsi], eax; add [rsi], ecx; sub ecx, 1; jnz 0; hlt.

use super::after::Change::{Flags, Register, Rip};
use super::after::Leaves::{Changed, Ran};
use super::after::Start::Supervisor;
use super::cases::Step::{Begins, Byte, Holds, Put, Quick, Sets, Takes, Turn};
use super::cases::{Step, first_failing};
use irq_plan::What;
use x86_regs::{RAX, RBP, RCX, RDI, RDX, RSI};

const LOOP: &[u8] = b"\x89\x06\x01\x0E\x83\xE9\x01\x75\xF7\xF4";

/// None before the loop's first round, then three turns of the second, and up to HLT.
#[test]
fn rounds_of_a_loop(rt: HostRuntime) {
    let steps: &[Step] = &[
        Begins(Supervisor, LOOP),
        Quick(100, 0, &[]),
        Holds(0x9100, &[0x5A]),
        Turn(Ran(2)),
        Turn(Changed(4, &[Flags(6)])),
        Turn(Changed(7, &[Register(RCX, 2), Flags(2)])),
        Turn(Ran(0)),
        Quick(3, 3, &[Rip(7), Register(RCX, 1), Flags(2)]),
        Holds(0x9100, &[0x43]),
        Quick(100, 5, &[Rip(9), Register(RCX, 0), Flags(0x46)]),
        Holds(0x9100, &[0x42]),
    ];
    assert_eq!(rt; first_failing(rt.alloc(), steps), None);
}

/// A store is made with its own bytes in its place, and not where HLT has come there, without the translation of its page,
/// and where an interrupt is pending.
#[test]
fn where_none_is_made(rt: HostRuntime) {
    let steps: &[Step] = &[
        Begins(Supervisor, LOOP),
        Turn(Ran(2)),
        Sets(Rip(0)),
        Quick(1, 1, &[Rip(2)]),
        Sets(Rip(0)),
        Byte(0x8000, 0xF4),
        Quick(1, 0, &[]),
        Byte(0x8000, 0x89),
        Quick(1, 1, &[Rip(2)]),
        Sets(Rip(0)),
        Takes(What::Drop(0x1000)),
        Quick(1, 0, &[]),
        Turn(Ran(2)),
        Sets(Rip(0)),
        Takes(What::Irq(40)),
        Quick(1, 0, &[]),
    ];
    assert_eq!(rt; first_failing(rt.alloc(), steps), None);
}

/// jmp 3000; and there sub ecx, 1; jnz 0; hlt. One of three rounds is made before. Then two stores at bytes 4080 and 4082
/// of their page, of which the first alone is made again.
#[test]
fn ends_of_pages(rt: HostRuntime) {
    let steps: &[Step] = &[
        Begins(Supervisor, b"\xE9\xFB\x2F\x00\x00"),
        Put(0x7000, b"\x83\xE9\x01\x0F\x85\xF7\xCF\xFF\xFF\xF4"),
        Turn(Ran(0x3000)),
        Turn(Changed(0x3003, &[Register(RCX, 2)])),
        Turn(Ran(0)),
        Quick(100, 6, &[Rip(0x3009), Register(RCX, 0), Flags(0x46)]),
        Holds(0x9100, &[0x5A]),
        Begins(Supervisor, b""),
        Put(0x8FF0, b"\x89\x06\x89\x06"),
        Sets(Rip(0xFF0)),
        Turn(Ran(0xFF2)),
        Turn(Ran(0xFF4)),
        Sets(Rip(0xFF0)),
        Quick(100, 1, &[Rip(0xFF2)]),
        Holds(0x9100, &[0x41]),
    ];
    assert_eq!(rt; first_failing(rt.alloc(), steps), None);
}

/// add ecx, 1; mov [rsi], eax; jmp 0, where the store makes the first instruction add ecx, 2: it is no quick turn, and turns
/// behind it add 2, though the loop stood in a line before.
#[test]
fn code_that_is_written(rt: HostRuntime) {
    let steps: &[Step] = &[
        Begins(Supervisor, b"\x83\xC1\x01\x89\x06\xEB\xF9"),
        Sets(Register(RAX, 0x8902_C183)),
        Sets(Register(RSI, 0)),
        Sets(Register(RCX, 0)),
        Turn(Changed(3, &[Register(RCX, 1), Flags(2)])),
        Turn(Ran(5)),
        Turn(Ran(0)),
        Sets(Register(RCX, 0)),
        Byte(0x8002, 0x01),
        Quick(6, 1, &[Rip(3), Register(RCX, 1), Flags(2)]),
        Turn(Ran(5)),
        Quick(6, 2, &[Rip(3), Register(RCX, 3), Flags(6)]),
        Holds(0x8000, &[0x00F9_EB06_8902_C183]),
    ];
    assert_eq!(rt; first_failing(rt.alloc(), steps), None);
}

/// mov [rsi], eax; jmp 3000; and there lea ecx, [rcx+1]; jmp 0, where RSI leads to page 3 by another address. The store is a
/// quick turn until page 3 has code of the stretch, and then none, and turns behind it are those of what it wrote.
#[test]
fn code_that_is_written_elsewhere(rt: HostRuntime) {
    let steps: &[Step] = &[
        Begins(Supervisor, b"\x89\x06\xE9\xF9\x2F\x00\x00"),
        Put(0x7000, b"\x8D\x49\x01\xE9\xF8\xCF\xFF\xFF"),
        Sets(Register(RAX, 0xE901_498D)),
        Sets(Register(RSI, 0xFFFF_FF80_0000_3000)),
        Sets(Register(RCX, 0)),
        Turn(Ran(2)),
        Turn(Ran(0x3000)),
        Turn(Changed(0x3003, &[Register(RCX, 1)])),
        Turn(Ran(0)),
        Sets(Register(RAX, 0xE902_498D)),
        Quick(100, 4, &[Rip(0), Register(RCX, 3)]),
        Holds(0x7000, &[0xFFFF_CFF8_E902_498D]),
        Sets(Register(RAX, 0xE904_498D)),
        Turn(Ran(2)),
        Quick(100, 3, &[Rip(0), Register(RCX, 7)]),
        Sets(Register(RAX, 0xE901_498D)),
        Quick(3, 3, &[Rip(0x3003), Register(RCX, 8)]),
    ];
    assert_eq!(rt; first_failing(rt.alloc(), steps), None);
}

/// lea ecx, [rcx+1] and a jump on each of six pages of code in turn, of which four have one number among the codes kept.
#[test]
fn six_pages_of_code(rt: HostRuntime) {
    let steps: &[Step] = &[
        Begins(Supervisor, b"\x8D\x49\x01\xFF\xE0"),
        Put(0x6000, b"\x8D\x49\x01\xFF\xE2"),
        Put(0x7000, b"\x8D\x49\x01\xFF\xE5"),
        Put(0x6010, b"\x8D\x49\x01\xFF\xE7"),
        Put(0x7010, b"\x8D\x49\x01\xFF\xE6"),
        Put(0x8010, b"\x8D\x49\x01\x41\xFF\xE1"),
        Sets(Register(RCX, 0)),
        Sets(Register(RAX, 0x4000)),
        Sets(Register(RDX, 0xFFFF_FF80_0000_3000)),
        Sets(Register(RBP, 0xFFFF_FF80_0000_4010)),
        Sets(Register(RDI, 0x3010)),
        Sets(Register(RSI, 0xFFFF_FF80_0000_0010)),
        Sets(Register(9, 0)),
        Turn(Changed(3, &[Register(RCX, 1)])),
        Turn(Ran(0x4000)),
        Turn(Changed(0x4003, &[Register(RCX, 2)])),
        Turn(Ran(0xFFFF_FF80_0000_3000)),
        Turn(Changed(0xFFFF_FF80_0000_3003, &[Register(RCX, 3)])),
        Turn(Ran(0xFFFF_FF80_0000_4010)),
        Turn(Changed(0xFFFF_FF80_0000_4013, &[Register(RCX, 4)])),
        Turn(Ran(0x3010)),
        Turn(Changed(0x3013, &[Register(RCX, 5)])),
        Turn(Ran(0xFFFF_FF80_0000_0010)),
        Turn(Changed(0xFFFF_FF80_0000_0013, &[Register(RCX, 6)])),
        Turn(Ran(0)),
        Quick(25, 25, &[Rip(3), Register(RCX, 19)]),
        Quick(36, 36, &[Rip(3), Register(RCX, 37)]),
    ];
    assert_eq!(rt; first_failing(rt.alloc(), steps), None);
}
