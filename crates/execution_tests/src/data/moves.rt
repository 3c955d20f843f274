//! Moves, exchanges and extensions between registers (SDM volume 2, MOV, MOVSX, LEA, CMOVcc, XCHG,
//! XADD, CMPXCHG, CBW).

use super::rows::After::Goes;
use super::rows::{FLAGS, Row, wrong_row};
use x86_regs::{RAX, RCX, RDX};

/// Moves, also by a condition, exchanges and extensions.
static MOVES: [Row; 21] = [
    // mov ah, al; mov eax, ecx; mov ax, 0x1234; movzx eax, ah; movsx rax, al; movsxd rax, ecx
    (
        b"\x88\xC4",
        &[],
        Goes(&[(RAX, 0x1122_3344_5566_8888)], 2, 0x1002),
    ),
    (b"\x89\xC8", &[], Goes(&[(RAX, 3)], 2, 0x1002)),
    (
        b"\x66\xB8\x34\x12",
        &[],
        Goes(&[(RAX, 0x1122_3344_5566_1234)], 2, 0x1004),
    ),
    (b"\x0F\xB6\xC4", &[], Goes(&[(RAX, 0x77)], 2, 0x1003)),
    (
        b"\x48\x0F\xBE\xC0",
        &[],
        Goes(&[(RAX, 0xFFFF_FFFF_FFFF_FF88)], 2, 0x1004),
    ),
    (b"\x48\x63\xC1", &[], Goes(&[(RAX, 3)], 2, 0x1003)),
    // lea rax, [rbx+rcx*4+0x10]; lea eax, [rip-0x1007]
    (
        b"\x48\x8D\x44\x8B\x10",
        &[],
        Goes(&[(RAX, 0x5C)], 2, 0x1005),
    ),
    (
        b"\x8D\x05\xF9\xEF\xFF\xFF",
        &[],
        Goes(&[(RAX, 0xFFFF_FFFF)], 2, 0x1006),
    ),
    // sete cl; cmove eax, ecx; cmove rax, rcx
    (
        b"\x0F\x94\xC1",
        &[(FLAGS, 0x42)],
        Goes(&[(RCX, 1)], 0x42, 0x1003),
    ),
    (b"\x0F\x94\xC1", &[], Goes(&[(RCX, 0)], 2, 0x1003)),
    (b"\x0F\x44\xC1", &[], Goes(&[(RAX, 0x5566_7788)], 2, 0x1003)),
    (
        b"\x48\x0F\x44\xC1",
        &[(FLAGS, 0x42)],
        Goes(&[(RAX, 3)], 0x42, 0x1004),
    ),
    // xchg eax, ecx; xadd eax, ecx
    (
        b"\x91",
        &[],
        Goes(&[(RAX, 3), (RCX, 0x5566_7788)], 2, 0x1001),
    ),
    (
        b"\x0F\xC1\xC8",
        &[],
        Goes(&[(RAX, 0x5566_778B), (RCX, 0x5566_7788)], 6, 0x1003),
    ),
    // cmpxchg edx, ecx, where EAX is another number and where it is EDX
    (b"\x0F\xB1\xCA", &[], Goes(&[(RAX, 0x10)], 6, 0x1003)),
    (
        b"\x0F\xB1\xCA",
        &[(RAX, 0x10)],
        Goes(&[(RDX, 3)], 0x46, 0x1003),
    ),
    // cbw; cwde; cdqe; cqo; cdq of a negative number
    (
        b"\x66\x98",
        &[],
        Goes(&[(RAX, 0x1122_3344_5566_FF88)], 2, 0x1002),
    ),
    (b"\x98", &[], Goes(&[(RAX, 0x7788)], 2, 0x1001)),
    (b"\x48\x98", &[], Goes(&[(RAX, 0x5566_7788)], 2, 0x1002)),
    (b"\x48\x99", &[], Goes(&[(RDX, 0)], 2, 0x1002)),
    (
        b"\x99",
        &[(RAX, 0x8000_0000)],
        Goes(&[(RDX, 0xFFFF_FFFF)], 2, 0x1001),
    ),
];

#[test]
fn moves(rt: HostRuntime) {
    assert_eq!(rt; wrong_row(rt.alloc(), &MOVES), None);
}
