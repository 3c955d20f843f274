//! Instructions that have a quick turn at CPL 0 alone.

use super::rows::After::{Goes, Left, Stores};
use super::rows::{CPL_0, FLAGS, Row, wrong_row};
use x86_regs::{RAX, RSP};

/// PUSHFQ and POPFQ, by address 40, which holds 8877665544332211: of its low bits CF, AF and IF stand,
/// and IOPL stays 0. CLI clears IF. MOV reads CR0, CR2, CR3 and CR4.
static AT_CPL_0: [Row; 9] = [
    // pushfq; pushf of 16 bits, which isn't there
    (
        b"\x9C",
        &[(CPL_0, 0), (FLAGS, 0x246)],
        Stores(&[(RSP, 0x40)], 0x246, 0x1001, [0x246, 0]),
    ),
    (b"\x66\x9C", &[(CPL_0, 0)], Left),
    // popfq
    (
        b"\x9D",
        &[(CPL_0, 0), (RSP, 0x40)],
        Goes(&[(RSP, 0x48)], 0x213, 0x1001),
    ),
    // cli
    (
        b"\xFA",
        &[(CPL_0, 0), (FLAGS, 0x246)],
        Goes(&[], 0x46, 0x1001),
    ),
    // mov rax, cr0; mov rax, cr2; mov rax, cr3; mov rax, cr4; mov rax, cr8, which isn't there
    (
        b"\x0F\x20\xC0",
        &[(CPL_0, 0)],
        Goes(&[(RAX, 0x8001_0011)], 2, 0x1003),
    ),
    (b"\x0F\x20\xD0", &[(CPL_0, 0)], Goes(&[(RAX, 0)], 2, 0x1003)),
    (
        b"\x0F\x20\xD8",
        &[(CPL_0, 0)],
        Goes(&[(RAX, 0x1000)], 2, 0x1003),
    ),
    (
        b"\x0F\x20\xE0",
        &[(CPL_0, 0)],
        Goes(&[(RAX, 0x10_0020)], 2, 0x1003),
    ),
    (b"\x44\x0F\x20\xC0", &[(CPL_0, 0)], Left),
];

#[test]
fn at_cpl_0(rt: HostRuntime) {
    assert_eq!(rt; wrong_row(rt.alloc(), &AT_CPL_0), None);
}

/// The same at CPL 3, and a push to a page that isn't kept.
static LEFT: [Row; 5] = [
    (b"\x9C", &[], Left),
    (b"\x9D", &[(RSP, 0x40)], Left),
    (b"\xFA", &[(FLAGS, 0x246)], Left),
    (b"\x0F\x20\xC0", &[], Left),
    (b"\x9C", &[(CPL_0, 0), (RSP, 0x2008)], Left),
];

#[test]
fn left_where_they_are_not_allowed(rt: HostRuntime) {
    assert_eq!(rt; wrong_row(rt.alloc(), &LEFT), None);
}
