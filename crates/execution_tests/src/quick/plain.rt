//! Instructions without an operand, and byte registers above the first byte. CF is bit 0 and DF bit
//! 10.

use super::rows::After::Goes;
use super::rows::{FLAGS, Row, wrong_row};
use x86_regs::{RAX, RDX};

/// Signs go into the upper half or into RDX, and flags change one by one. AH holds 77 and AL 88.
static PLAIN: [Row; 18] = [
    // nop, and nop [rax]
    (b"\x90", &[], Goes(&[], 2, 0x1001)),
    (b"\x0F\x1F\x00", &[], Goes(&[], 2, 0x1003)),
    // cbw, cwde, cdqe
    (
        b"\x66\x98",
        &[],
        Goes(&[(RAX, 0x1122_3344_5566_FF88)], 2, 0x1002),
    ),
    (b"\x98", &[], Goes(&[(RAX, 0x7788)], 2, 0x1001)),
    (
        b"\x48\x98",
        &[(RAX, 0x8000_0000), (RDX, 0xAAAA_AAAA_AAAA_AAAA)],
        Goes(&[(RAX, 0xFFFF_FFFF_8000_0000)], 2, 0x1002),
    ),
    // cwd, cdq, cqo
    (
        b"\x66\x99",
        &[(RAX, 0x8000_0000), (RDX, 0xAAAA_AAAA_AAAA_AAAA)],
        Goes(&[(RDX, 0xAAAA_AAAA_AAAA_0000)], 2, 0x1002),
    ),
    (
        b"\x99",
        &[(RAX, 0x8000_0000), (RDX, 0xAAAA_AAAA_AAAA_AAAA)],
        Goes(&[(RDX, 0xFFFF_FFFF)], 2, 0x1001),
    ),
    (
        b"\x48\x99",
        &[(RAX, 0x8000_0000), (RDX, 0xAAAA_AAAA_AAAA_AAAA)],
        Goes(&[(RDX, 0)], 2, 0x1002),
    ),
    // cmc, clc, stc, cld, std
    (b"\xF5", &[], Goes(&[], 3, 0x1001)),
    (b"\xF5", &[(FLAGS, 0xC57)], Goes(&[], 0xC56, 0x1001)),
    (b"\xF8", &[(FLAGS, 0xC57)], Goes(&[], 0xC56, 0x1001)),
    (b"\xF9", &[], Goes(&[], 3, 0x1001)),
    (b"\xFC", &[(FLAGS, 0xC57)], Goes(&[], 0x857, 0x1001)),
    (b"\xFD", &[], Goes(&[], 0x402, 0x1001)),
    // mov al, ah; movzx eax, ah
    (
        b"\x88\xE0",
        &[],
        Goes(&[(RAX, 0x1122_3344_5566_7777)], 2, 0x1002),
    ),
    (b"\x0F\xB6\xC4", &[], Goes(&[(RAX, 0x77)], 2, 0x1003)),
    // add al, ah, with SF and PF; cmp al, ah: 88 less 77 is 11, with OF and PF
    (
        b"\x00\xE0",
        &[],
        Goes(&[(RAX, 0x1122_3344_5566_77FF)], 0x86, 0x1002),
    ),
    (b"\x38\xE0", &[], Goes(&[], 0x806, 0x1002)),
];

#[test]
fn plain_instructions(rt: HostRuntime) {
    assert_eq!(rt; wrong_row(rt.alloc(), &PLAIN), None);
}
