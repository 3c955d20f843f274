//! String instructions, alone and repeated (SDM volume 2, REP/REPE/REPZ/REPNE/REPNZ, MOVS, CMPS,
//! STOS, LODS, SCAS).

use super::rows::After::{Faults, Goes, Writes};
use super::rows::{FLAGS, Row, wrong_row};
use x86_regs::{Fault, RAX, RCX, RDI, RSI};

/// Moves, comparisons and faults.
static STRINGS: [Row; 12] = [
    // movsb; lodsb downwards
    (
        b"\xA4",
        &[],
        Writes(&[(RSI, 0x101), (RDI, 0x201)], 2, 0x1001, (0x200, 1, 0x5A)),
    ),
    (
        b"\xAC",
        &[(FLAGS, 0x402)],
        Goes(&[(RAX, 0x1122_3344_5566_775A), (RSI, 0xFF)], 0x402, 0x1001),
    ),
    // rep stosq with counts 3, 1 and 0
    (
        b"\xF3\x48\xAB",
        &[],
        Writes(
            &[(RCX, 2), (RDI, 0x208)],
            2,
            0x1000,
            (0x200, 8, 0x1122_3344_5566_7788),
        ),
    ),
    (
        b"\xF3\x48\xAB",
        &[(RCX, 1)],
        Writes(
            &[(RCX, 0), (RDI, 0x208)],
            2,
            0x1003,
            (0x200, 8, 0x1122_3344_5566_7788),
        ),
    ),
    (
        b"\xF3\x48\xAB",
        &[(RCX, 0), (RDI, 0x2000)],
        Goes(&[], 2, 0x1003),
    ),
    // repe cmpsb and repne cmpsb of equal bytes; repne scasb and repe scasb of bytes that differ;
    // cmpsb
    (
        b"\xF3\xA6",
        &[],
        Goes(&[(RCX, 2), (RSI, 0x101), (RDI, 0x201)], 0x46, 0x1000),
    ),
    (
        b"\xF2\xA6",
        &[],
        Goes(&[(RCX, 2), (RSI, 0x101), (RDI, 0x201)], 0x46, 0x1002),
    ),
    (
        b"\xF2\xAE",
        &[],
        Goes(&[(RCX, 2), (RDI, 0x201)], 0x816, 0x1000),
    ),
    (
        b"\xF3\xAE",
        &[],
        Goes(&[(RCX, 2), (RDI, 0x201)], 0x816, 0x1002),
    ),
    (
        b"\xA6",
        &[],
        Goes(&[(RSI, 0x101), (RDI, 0x201)], 0x46, 0x1001),
    ),
    // movsb: the first fault is that of the source
    (
        b"\xA4",
        &[(RSI, 0x2000), (RDI, 0x1000)],
        Faults(Fault::Page {
            code: 4,
            address: 0x2000,
        }),
    ),
    (
        b"\xA4",
        &[(RDI, 0x1000)],
        Faults(Fault::Page {
            code: 7,
            address: 0x1000,
        }),
    ),
];

#[test]
fn strings(rt: HostRuntime) {
    assert_eq!(rt; wrong_row(rt.alloc(), &STRINGS), None);
}
