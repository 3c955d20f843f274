//! Products and quotients of twice the width, and scans for a set bit. CF and OF are bits 0 and 11,
//! ZF is bit 6.

use super::RBX;
use super::rows::After::{Goes, Left};
use super::rows::{FLAGS, Row, wrong_row};
use x86_regs::{RAX, RCX, RDX};

/// A quotient that doesn't fit and a divisor of 0 are left to others. A scan where no bit is set
/// leaves the register all its bits.
static PRODUCTS: [Row; 18] = [
    // mul rcx, imul rcx
    (
        b"\x48\xF7\xE1",
        &[(RAX, 0x8000_0000_0000_0000)],
        Goes(&[(RAX, 0x8000_0000_0000_0000), (RDX, 1)], 0x803, 0x1003),
    ),
    (
        b"\x48\xF7\xE9",
        &[(RAX, 0xFFFF_FFFF_FFFF_FFFE)],
        Goes(
            &[(RAX, 0xFFFF_FFFF_FFFF_FFFA), (RDX, 0xFFFF_FFFF_FFFF_FFFF)],
            2,
            0x1003,
        ),
    ),
    // mul cl, mul ah, and mul byte [rbx], all into AX
    (
        b"\xF6\xE1",
        &[],
        Goes(&[(RAX, 0x1122_3344_5566_0198)], 0x803, 0x1002),
    ),
    (
        b"\xF6\xE4",
        &[],
        Goes(&[(RAX, 0x1122_3344_5566_3F38)], 0x803, 0x1002),
    ),
    (
        b"\xF6\x23",
        &[(RBX, 0x100)],
        Goes(&[(RAX, 0x1122_3344_5566_2FD0)], 0x803, 0x1002),
    ),
    // mul [rbx] of a page that isn't kept
    (b"\x48\xF7\x23", &[(RBX, 0x2000)], Left),
    // div rcx, idiv rcx
    (
        b"\x48\xF7\xF1",
        &[(RAX, 0x10)],
        Goes(&[(RAX, 5), (RDX, 1)], 2, 0x1003),
    ),
    (
        b"\x48\xF7\xF9",
        &[(RAX, 0xFFFF_FFFF_FFFF_FFF9), (RDX, 0xFFFF_FFFF_FFFF_FFFF)],
        Goes(
            &[(RAX, 0xFFFF_FFFF_FFFF_FFFE), (RDX, 0xFFFF_FFFF_FFFF_FFFF)],
            2,
            0x1003,
        ),
    ),
    // div cl, and div byte [rbx], all of AX
    (
        b"\xF6\xF1",
        &[(RAX, 0x100)],
        Goes(&[(RAX, 0x155)], 2, 0x1002),
    ),
    (
        b"\xF6\x33",
        &[(RAX, 0x100), (RBX, 0x100)],
        Goes(&[(RAX, 0x4C02)], 2, 0x1002),
    ),
    // the quotient of div cl is 27D8; div rcx by 0; div qword [rbx + 8] by 0
    (b"\xF6\xF1", &[], Left),
    (b"\x48\xF7\xF1", &[(RCX, 0)], Left),
    (b"\x48\xF7\x73\x08", &[], Left),
    // bsf rax, rcx; bsr eax, ecx; bsr rax, [rbx]
    (
        b"\x48\x0F\xBC\xC1",
        &[(FLAGS, 0x42), (RCX, 0x108)],
        Goes(&[(RAX, 3)], 2, 0x1004),
    ),
    (
        b"\x0F\xBD\xC1",
        &[(FLAGS, 0x42), (RCX, 0x108)],
        Goes(&[(RAX, 8)], 2, 0x1003),
    ),
    (b"\x48\x0F\xBD\x03", &[], Goes(&[(RAX, 63)], 2, 0x1004)),
    // bsf eax, ecx; bsf eax, [rbx + 8]
    (b"\x0F\xBC\xC1", &[(RCX, 0)], Goes(&[], 0x42, 0x1003)),
    (b"\x0F\xBC\x43\x08", &[], Goes(&[], 0x42, 0x1004)),
];

#[test]
fn products_quotients_and_scans(rt: HostRuntime) {
    assert_eq!(rt; wrong_row(rt.alloc(), &PRODUCTS), None);
}
