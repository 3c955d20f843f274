//! Results and flags of arithmetic (SDM volume 1, 3.4.3, and the instructions' pages of volume 2).

use super::rows::After::{Faults, Goes};
use super::rows::{FLAGS, Row, wrong_row};
use x86_regs::{Fault, RAX, RCX, RDX};

/// Sums, logic, products, quotients, shifts, rotations, and single bits and flags.
static ARITHMETIC: [Row; 41] = [
    // add rax, rcx; add al, 0x78; add eax, -1; sub eax, ecx
    (
        b"\x48\x01\xC8",
        &[],
        Goes(&[(RAX, 0x1122_3344_5566_778B)], 6, 0x1003),
    ),
    (
        b"\x04\x78",
        &[],
        Goes(&[(RAX, 0x1122_3344_5566_7700)], 0x57, 0x1002),
    ),
    (
        b"\x83\xC0\xFF",
        &[],
        Goes(&[(RAX, 0x5566_7787)], 0x17, 0x1003),
    ),
    (b"\x29\xC8", &[], Goes(&[(RAX, 0x5566_7785)], 2, 0x1002)),
    // neg eax; not al; and rax, rcx with 3 cleared; or al, ah
    (b"\xF7\xD8", &[], Goes(&[(RAX, 0xAA99_8878)], 0x97, 0x1002)),
    (
        b"\xF6\xD0",
        &[],
        Goes(&[(RAX, 0x1122_3344_5566_7777)], 2, 0x1002),
    ),
    (b"\x48\x21\xC8", &[], Goes(&[(RAX, 0)], 0x46, 0x1003)),
    (
        b"\x08\xE0",
        &[],
        Goes(&[(RAX, 0x1122_3344_5566_77FF)], 0x86, 0x1002),
    ),
    // dec rcx, which keeps the carry
    (b"\x48\xFF\xC9", &[(FLAGS, 3)], Goes(&[(RCX, 2)], 3, 0x1003)),
    // adc eax, 0 and sbb eax, 0 with the carry
    (
        b"\x83\xD0\x00",
        &[(FLAGS, 3)],
        Goes(&[(RAX, 0x5566_7789)], 2, 0x1003),
    ),
    (
        b"\x83\xD8\x00",
        &[(FLAGS, 3)],
        Goes(&[(RAX, 0x5566_7787)], 6, 0x1003),
    ),
    // imul ecx, ecx, 0x7F; mul ecx; mul cl
    (b"\x6B\xC9\x7F", &[], Goes(&[(RCX, 0x17D)], 2, 0x1003)),
    (
        b"\xF7\xE1",
        &[],
        Goes(&[(RAX, 0x0033_6698), (RDX, 1)], 0x803, 0x1002),
    ),
    (
        b"\xF6\xE1",
        &[],
        Goes(&[(RAX, 0x1122_3344_5566_0198)], 0x803, 0x1002),
    ),
    // div rcx of 100 and of more than fits; idiv rcx of -7 by 2
    (
        b"\x48\xF7\xF1",
        &[(RAX, 100), (RDX, 0)],
        Goes(&[(RAX, 33), (RDX, 1)], 2, 0x1003),
    ),
    (b"\x48\xF7\xF1", &[], Faults(Fault::Divide)),
    (
        b"\x48\xF7\xF9",
        &[
            (RAX, 0xFFFF_FFFF_FFFF_FFF9),
            (RCX, 2),
            (RDX, 0xFFFF_FFFF_FFFF_FFFF),
        ],
        Goes(&[(RAX, 0xFFFF_FFFF_FFFF_FFFD)], 2, 0x1003),
    ),
    // div cl of 301 by 3
    (
        b"\xF6\xF1",
        &[(RAX, 301)],
        Goes(&[(RAX, 0x0164)], 2, 0x1002),
    ),
    // shr al, 4; shl eax, cl; ror al, 1; sar al, 1; shl eax, 32
    (
        b"\xC0\xE8\x04",
        &[],
        Goes(&[(RAX, 0x1122_3344_5566_7708)], 3, 0x1003),
    ),
    (b"\xD3\xE0", &[], Goes(&[(RAX, 0xAB33_BC40)], 0x82, 0x1002)),
    (
        b"\xD0\xC8",
        &[],
        Goes(&[(RAX, 0x1122_3344_5566_7744)], 0x802, 0x1002),
    ),
    (
        b"\xD0\xF8",
        &[],
        Goes(&[(RAX, 0x1122_3344_5566_77C4)], 0x82, 0x1002),
    ),
    (b"\xC1\xE0\x20", &[], Goes(&[(RAX, 0x5566_7788)], 2, 0x1003)),
    // bts rax, 5; btr eax, 7; btc eax by edx, which is 16; bt eax, 3
    (
        b"\x48\x0F\xBA\xE8\x05",
        &[],
        Goes(&[(RAX, 0x1122_3344_5566_77A8)], 2, 0x1005),
    ),
    (
        b"\x0F\xBA\xF0\x07",
        &[],
        Goes(&[(RAX, 0x5566_7708)], 3, 0x1004),
    ),
    (b"\x0F\xBB\xD0", &[], Goes(&[(RAX, 0x5567_7788)], 2, 0x1003)),
    (b"\x0F\xBA\xE0\x03", &[], Goes(&[], 3, 0x1004)),
    // bsf eax, ecx; bsr rax, rdx; bsf eax, r8d, which is 0
    (b"\x0F\xBC\xC1", &[], Goes(&[(RAX, 0)], 2, 0x1003)),
    (b"\x48\x0F\xBD\xC2", &[], Goes(&[(RAX, 4)], 2, 0x1004)),
    (b"\x41\x0F\xBC\xC0", &[], Goes(&[], 0x42, 0x1004)),
    // bswap eax; bswap rax
    (b"\x0F\xC8", &[], Goes(&[(RAX, 0x8877_6655)], 2, 0x1002)),
    (
        b"\x48\x0F\xC8",
        &[],
        Goes(&[(RAX, 0x8877_6655_4433_2211)], 2, 0x1003),
    ),
    // stc; cmc; clc; std; cld; nop
    (b"\xF9", &[], Goes(&[], 3, 0x1001)),
    (b"\xF5", &[(FLAGS, 3)], Goes(&[], 2, 0x1001)),
    (b"\xF8", &[(FLAGS, 3)], Goes(&[], 2, 0x1001)),
    (b"\xFD", &[], Goes(&[], 0x402, 0x1001)),
    (b"\xFC", &[(FLAGS, 0x402)], Goes(&[], 2, 0x1001)),
    (b"\x0F\x1F\x00", &[], Goes(&[], 2, 0x1003)),
    // sti, which is of flow; lock with a register as destination, and with mov
    (b"\xFB", &[], Faults(Fault::General(99))),
    (b"\xF0\x01\xC8", &[], Faults(Fault::Opcode)),
    (b"\xF0\x89\x0B", &[], Faults(Fault::Opcode)),
];

#[test]
fn arithmetic(rt: HostRuntime) {
    assert_eq!(rt; wrong_row(rt.alloc(), &ARITHMETIC), None);
}
