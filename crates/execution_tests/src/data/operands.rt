//! Operands in memory and on the stack, with their faults (SDM volume 3, 4.7 and 6.15; volume 2,
//! PUSH, POP, LEAVE).

use super::rows::After::{Faults, Goes, Writes};
use super::rows::{Row, wrong_row};
use x86_regs::{Fault, RAX, RBP, RSP};

/// Operands that registers point to, their faults, and the stack.
static OPERANDS: [Row; 21] = [
    // mov rax, [rbx]; mov [rbx], rcx; add [rbx], cl; mov eax, [rbx+0xFBE] over the end of a page
    (
        b"\x48\x8B\x03",
        &[],
        Goes(&[(RAX, 0x8877_6655_4433_2211)], 2, 0x1003),
    ),
    (b"\x48\x89\x0B", &[], Writes(&[], 2, 0x1003, (0x40, 8, 3))),
    (b"\x00\x0B", &[], Writes(&[], 6, 0x1002, (0x40, 1, 0x14))),
    (
        b"\x8B\x83\xBE\x0F\x00\x00",
        &[],
        Goes(&[(RAX, 0x2211_DDCC)], 2, 0x1006),
    ),
    // lock cmpxchg [rbx], ecx, which writes the old value back; shl dword [rbx], 0, which writes
    (
        b"\xF0\x0F\xB1\x0B",
        &[],
        Writes(&[(RAX, 0x4433_2211)], 6, 0x1004, (0x40, 4, 0x4433_2211)),
    ),
    (
        b"\xC1\x23\x00",
        &[],
        Writes(&[], 2, 0x1003, (0x40, 4, 0x4433_2211)),
    ),
    // mov and add to page 1, mov from page 2, cmove from page 2 without its condition
    (
        b"\x89\x8B\xC0\x0F\x00\x00",
        &[],
        Faults(Fault::Page {
            code: 7,
            address: 0x1000,
        }),
    ),
    (
        b"\x01\x8B\xC0\x0F\x00\x00",
        &[],
        Faults(Fault::Page {
            code: 7,
            address: 0x1000,
        }),
    ),
    (
        b"\x8B\x83\xC0\x1F\x00\x00",
        &[],
        Faults(Fault::Page {
            code: 4,
            address: 0x2000,
        }),
    ),
    (
        b"\x0F\x44\x83\xC0\x1F\x00\x00",
        &[],
        Faults(Fault::Page {
            code: 4,
            address: 0x2000,
        }),
    ),
    // mov rax, [rbp] and mov rax, [rax] at addresses that aren't canonical
    (
        b"\x48\x8B\x45\x00",
        &[(RAX, 0x8000_0000_0000), (RBP, 0x8000_0000_0000)],
        Faults(Fault::Stack),
    ),
    (
        b"\x48\x8B\x00",
        &[(RAX, 0x8000_0000_0000), (RBP, 0x8000_0000_0000)],
        Faults(Fault::General(0)),
    ),
    // push rcx; push rsp; push -1 at width 16
    (
        b"\x51",
        &[],
        Writes(&[(RSP, 0x7F8)], 2, 0x1001, (0x7F8, 8, 3)),
    ),
    (
        b"\x54",
        &[],
        Writes(&[(RSP, 0x7F8)], 2, 0x1001, (0x7F8, 8, 0x800)),
    ),
    (
        b"\x66\x6A\xFF",
        &[],
        Writes(&[(RSP, 0x7FE)], 2, 0x1003, (0x7FE, 2, 0xFFFF)),
    ),
    // pop rax; pop rsp; pop [rsp]; leave
    (
        b"\x58",
        &[],
        Goes(&[(RAX, 0x6000), (RSP, 0x808)], 2, 0x1001),
    ),
    (b"\x5C", &[], Goes(&[(RSP, 0x6000)], 2, 0x1001)),
    (
        b"\x8F\x04\x24",
        &[],
        Writes(&[(RSP, 0x808)], 2, 0x1003, (0x808, 8, 0x6000)),
    ),
    (
        b"\xC9",
        &[],
        Goes(&[(RSP, 0x828), (RBP, 0x9999)], 2, 0x1001),
    ),
    // push onto page 1; pop from an address that isn't canonical
    (
        b"\x51",
        &[(RSP, 0x1008)],
        Faults(Fault::Page {
            code: 7,
            address: 0x1000,
        }),
    ),
    (b"\x58", &[(RSP, 0x8000_0000_0000)], Faults(Fault::Stack)),
];

#[test]
fn operands(rt: HostRuntime) {
    assert_eq!(rt; wrong_row(rt.alloc(), &OPERANDS), None);
}
