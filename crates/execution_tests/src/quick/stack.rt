//! Pushes and targets that stand in memory, and LEAVE.

use super::RBX;
use super::rows::After::{Goes, Left, Stores};
use super::rows::{Row, wrong_row};
use x86_regs::{RBP, RSP};

/// Address 40 holds a number that isn't a canonical address. LEAVE leaves RSP 8 above what RBP was.
static IN_MEMORY: [Row; 13] = [
    // push [rbx], push word [rbx]
    (
        b"\xFF\x33",
        &[(RBX, 0x100)],
        Stores(&[(RSP, 0x40)], 2, 0x1002, [0x5A, 0]),
    ),
    (
        b"\x66\xFF\x33",
        &[(RBX, 0x100)],
        Stores(&[(RSP, 0x46)], 2, 0x1003, [0x005A_6655_4433_2211, 0]),
    ),
    // push [rsp + B8], whose address is that of RSP before it falls
    (
        b"\xFF\xB4\x24\xB8\x00\x00\x00",
        &[],
        Stores(&[(RSP, 0x40)], 2, 0x1007, [0x5A, 0]),
    ),
    // to a page that may only be read, and from one that isn't kept
    (b"\xFF\x33", &[(RBX, 0x100), (RSP, 0x1008)], Left),
    (b"\xFF\x33", &[(RBX, 0x2000)], Left),
    // jmp [rbx]
    (b"\xFF\x23", &[(RBX, 0x100)], Goes(&[], 2, 0x5A)),
    (b"\xFF\x23", &[], Left),
    (b"\xFF\x23", &[(RBX, 0x2000)], Left),
    // call [rbx], which leaves 1002
    (
        b"\xFF\x13",
        &[(RBX, 0x100)],
        Stores(&[(RSP, 0x40)], 2, 0x5A, [0x1002, 0]),
    ),
    (b"\xFF\x13", &[], Left),
    (b"\xFF\x13", &[(RBX, 0x100), (RSP, 0x1008)], Left),
    // leave
    (
        b"\xC9",
        &[(RBP, 0x100)],
        Goes(&[(RSP, 0x108), (RBP, 0x5A)], 2, 0x1001),
    ),
    (b"\xC9", &[(RBP, 0x2000)], Left),
];

#[test]
fn pushes_and_targets_in_memory(rt: HostRuntime) {
    assert_eq!(rt; wrong_row(rt.alloc(), &IN_MEMORY), None);
}
