//! The usual instructions over registers, memory and the stack.

use super::RBX;
use super::rows::After::{Goes, Left, Stores};
use super::rows::{Row, wrong_row};
use x86_regs::{RAX, RCX, RSP};

/// The sum of RAX and what RBX points to is 9999999999999999, with SF and PF. MOVZX reads one byte
/// of its page. CALL to 1015 leaves 1005, and RET 8 goes to what address 100 holds. ZF is clear,
/// and LOOP counts RCX down to 2.
static USUAL: [Row; 16] = [
    // add rax, [rbx]; add [rbx], rax
    (
        b"\x48\x03\x03",
        &[],
        Goes(&[(RAX, 0x9999_9999_9999_9999)], 0x86, 0x1003),
    ),
    (
        b"\x48\x01\x03",
        &[],
        Stores(&[], 0x86, 0x1003, [0x9999_9999_9999_9999, 0]),
    ),
    // mov [rbx], rax; movzx eax, byte [rbx + 1]
    (
        b"\x48\x89\x03",
        &[],
        Stores(&[], 2, 0x1003, [0x1122_3344_5566_7788, 0]),
    ),
    (b"\x0F\xB6\x43\x01", &[], Goes(&[(RAX, 0x22)], 2, 0x1004)),
    // push rax; call
    (
        b"\x50",
        &[],
        Stores(&[(RSP, 0x40)], 2, 0x1001, [0x1122_3344_5566_7788, 0]),
    ),
    (
        b"\xE8\x10\x00\x00\x00",
        &[],
        Stores(&[(RSP, 0x40)], 2, 0x1015, [0x1005, 0]),
    ),
    // pop rax; ret 8
    (
        b"\x58",
        &[(RSP, 0x40)],
        Goes(&[(RAX, 0x8877_6655_4433_2211), (RSP, 0x48)], 2, 0x1001),
    ),
    (
        b"\xC2\x08\x00",
        &[(RSP, 0x100)],
        Goes(&[(RSP, 0x110)], 2, 0x5A),
    ),
    // jne; je; loop
    (b"\x75\x10", &[], Goes(&[], 2, 0x1012)),
    (b"\x74\x10", &[], Goes(&[], 2, 0x1002)),
    (b"\xE2\xFE", &[], Goes(&[(RCX, 2)], 2, 0x1000)),
    // a store to the page that may be read alone, a load over a page's end and from a page that
    // isn't kept, a return to an address that isn't canonical, and a load of the page that may be
    // read, which is made
    (b"\x48\x89\x03", &[(RBX, 0x1000)], Left),
    (b"\x48\x8B\x03", &[(RBX, 0xFF9)], Left),
    (b"\x48\x8B\x03", &[(RBX, 0x2000)], Left),
    (b"\xC3", &[(RSP, 0x40)], Left),
    (
        b"\x48\x8B\x03",
        &[(RBX, 0x1000)],
        Goes(&[(RAX, 0)], 2, 0x1003),
    ),
];

#[test]
fn usual_instructions(rt: HostRuntime) {
    assert_eq!(rt; wrong_row(rt.alloc(), &USUAL), None);
}
