//! String instructions, alone and repeated (SDM volume 2, REP/REPE/REPZ/REPNE/REPNZ, MOVS, CMPS,
//! STOS, LODS, SCAS). RCX holds 3 where it isn't set.

use super::HELD;
use super::rows::After::{Goes, Left, Stores};
use super::rows::{FLAGS, Row, Settings, wrong_row};
use x86_regs::{RAX, RCX, RDI, RSI};

/// From address 40 to 48.
const START: Settings = &[(RSI, 0x40), (RDI, 0x48)];

/// The same with DF set.
const DOWN: Settings = &[(RSI, 0x40), (RDI, 0x48), (FLAGS, 0x402)];

/// The same where this is the last time.
const LAST: Settings = &[(RCX, 1), (RSI, 0x40), (RDI, 0x48)];

/// Nothing is left to be done, from and to a page that isn't kept.
const IDLE: Settings = &[(RCX, 0), (RSI, 0x2000), (RDI, 0x2000)];

/// To the page that may be read alone.
const READ_ONLY: Settings = &[(RSI, 0x40), (RDI, 0x1000)];

/// Over a page's end.
const CROSSING: Settings = &[(RSI, 0xFF9), (RDI, 0xFF9)];

/// To a page that isn't kept.
const ABSENT: Settings = &[(RSI, 0x40), (RDI, 0x2000)];

/// From a page that isn't kept.
const ABSENT_SOURCE: Settings = &[(RSI, 0x2000), (RDI, 0x48)];

/// Pointers go up, and with DF set down, by the bytes of an operand. Flags stay where nothing is
/// compared.
static SINGLE: [Row; 18] = [
    // movsb, movsq; stosb, stosd; lodsw, and lodsd, which clears the upper half of RAX
    (
        b"\xA4",
        START,
        Stores(&[(RSI, 0x41), (RDI, 0x49)], 2, 0x1001, [HELD, 0x11]),
    ),
    (
        b"\x48\xA5",
        START,
        Stores(&[(RSI, 0x48), (RDI, 0x50)], 2, 0x1002, [HELD, HELD]),
    ),
    (
        b"\xAA",
        START,
        Stores(&[(RDI, 0x49)], 2, 0x1001, [HELD, 0x88]),
    ),
    (
        b"\xAB",
        START,
        Stores(&[(RDI, 0x4C)], 2, 0x1001, [HELD, 0x5566_7788]),
    ),
    (
        b"\x66\xAD",
        START,
        Goes(&[(RAX, 0x1122_3344_5566_2211), (RSI, 0x42)], 2, 0x1002),
    ),
    (
        b"\xAD",
        START,
        Goes(&[(RAX, 0x4433_2211), (RSI, 0x44)], 2, 0x1001),
    ),
    // cmpsb of 11 and 0, of 0 and 11, and of equal bytes
    (b"\xA6", START, Goes(&[(RSI, 0x41), (RDI, 0x49)], 6, 0x1001)),
    (
        b"\xA6",
        &[(RSI, 0x48), (RDI, 0x40)],
        Goes(&[(RSI, 0x49), (RDI, 0x41)], 0x93, 0x1001),
    ),
    (
        b"\xA6",
        &[(RSI, 0x40), (RDI, 0x40)],
        Goes(&[(RSI, 0x41), (RDI, 0x41)], 0x46, 0x1001),
    ),
    // scasb of 88 in AL and 0, and scasq of RAX and what address 40 holds
    (b"\xAE", START, Goes(&[(RDI, 0x49)], 0x86, 0x1001)),
    (
        b"\x48\xAF",
        &[(RSI, 0x48), (RDI, 0x40)],
        Goes(&[(RDI, 0x48)], 0x887, 0x1002),
    ),
    // movsq to bytes that it reads: they are read first
    (
        b"\x48\xA5",
        &[(RSI, 0x40), (RDI, 0x44)],
        Stores(
            &[(RSI, 0x48), (RDI, 0x4C)],
            2,
            0x1002,
            [0x4433_2211_4433_2211, 0x8877_6655],
        ),
    ),
    // the same downwards: movsb, movsq; stosd, lodsb; cmpsb, scasb
    (
        b"\xA4",
        DOWN,
        Stores(&[(RSI, 0x3F), (RDI, 0x47)], 0x402, 0x1001, [HELD, 0x11]),
    ),
    (
        b"\x48\xA5",
        DOWN,
        Stores(&[(RSI, 0x38), (RDI, 0x40)], 0x402, 0x1002, [HELD, HELD]),
    ),
    (
        b"\xAB",
        DOWN,
        Stores(&[(RDI, 0x44)], 0x402, 0x1001, [HELD, 0x5566_7788]),
    ),
    (
        b"\xAC",
        DOWN,
        Goes(&[(RAX, 0x1122_3344_5566_7711), (RSI, 0x3F)], 0x402, 0x1001),
    ),
    (
        b"\xA6",
        DOWN,
        Goes(&[(RSI, 0x3F), (RDI, 0x47)], 0x406, 0x1001),
    ),
    (b"\xAE", DOWN, Goes(&[(RDI, 0x47)], 0x486, 0x1001)),
];

#[test]
fn single_strings(rt: HostRuntime) {
    assert_eq!(rt; wrong_row(rt.alloc(), &SINGLE), None);
}

/// A count of 3 goes down to 2, and the instruction is made again; one of 1 goes down to 0, and the
/// next one follows. REPE goes on while operands are equal, REPNE while they differ, and neither
/// beyond the count.
static REPEATED: [Row; 21] = [
    // rep movsb, rep stosb, rep lodsb
    (
        b"\xF3\xA4",
        START,
        Stores(
            &[(RCX, 2), (RSI, 0x41), (RDI, 0x49)],
            2,
            0x1000,
            [HELD, 0x11],
        ),
    ),
    (
        b"\xF3\xA4",
        LAST,
        Stores(
            &[(RCX, 0), (RSI, 0x41), (RDI, 0x49)],
            2,
            0x1002,
            [HELD, 0x11],
        ),
    ),
    (
        b"\xF3\xAA",
        START,
        Stores(&[(RCX, 2), (RDI, 0x49)], 2, 0x1000, [HELD, 0x88]),
    ),
    (
        b"\xF3\xAA",
        LAST,
        Stores(&[(RCX, 0), (RDI, 0x49)], 2, 0x1002, [HELD, 0x88]),
    ),
    (
        b"\xF3\xAC",
        START,
        Goes(
            &[(RAX, 0x1122_3344_5566_7711), (RCX, 2), (RSI, 0x41)],
            2,
            0x1000,
        ),
    ),
    (
        b"\xF3\xAC",
        LAST,
        Goes(
            &[(RAX, 0x1122_3344_5566_7711), (RCX, 0), (RSI, 0x41)],
            2,
            0x1002,
        ),
    ),
    // cmpsb of bytes that differ, and of equal ones
    (
        b"\xF3\xA6",
        START,
        Goes(&[(RCX, 2), (RSI, 0x41), (RDI, 0x49)], 6, 0x1002),
    ),
    (
        b"\xF3\xA6",
        &[(RSI, 0x40), (RDI, 0x40)],
        Goes(&[(RCX, 2), (RSI, 0x41), (RDI, 0x41)], 0x46, 0x1000),
    ),
    (
        b"\xF3\xA6",
        &[(RCX, 1), (RSI, 0x40), (RDI, 0x40)],
        Goes(&[(RCX, 0), (RSI, 0x41), (RDI, 0x41)], 0x46, 0x1002),
    ),
    (
        b"\xF2\xA6",
        START,
        Goes(&[(RCX, 2), (RSI, 0x41), (RDI, 0x49)], 6, 0x1000),
    ),
    // scasb of AL and 0, and of AL and 88
    (
        b"\xF2\xAE",
        START,
        Goes(&[(RCX, 2), (RDI, 0x49)], 0x86, 0x1000),
    ),
    (
        b"\xF2\xAE",
        &[(RSI, 0x40), (RDI, 0x47)],
        Goes(&[(RCX, 2), (RDI, 0x48)], 0x46, 0x1002),
    ),
    (
        b"\xF2\xAE",
        LAST,
        Goes(&[(RCX, 0), (RDI, 0x49)], 0x86, 0x1002),
    ),
    (
        b"\xF3\xAE",
        START,
        Goes(&[(RCX, 2), (RDI, 0x49)], 0x86, 0x1002),
    ),
    // where the count is 0, RIP alone changes, and no page is needed
    (b"\xF3\xA4", IDLE, Goes(&[], 2, 0x1002)),
    (b"\xF3\xAA", IDLE, Goes(&[], 2, 0x1002)),
    (b"\xF3\xAC", IDLE, Goes(&[], 2, 0x1002)),
    (b"\xF3\xA6", IDLE, Goes(&[], 2, 0x1002)),
    (b"\xF2\xA6", IDLE, Goes(&[], 2, 0x1002)),
    (b"\xF3\xAE", IDLE, Goes(&[], 2, 0x1002)),
    (b"\xF2\xAE", IDLE, Goes(&[], 2, 0x1002)),
];

#[test]
fn repeated_strings(rt: HostRuntime) {
    assert_eq!(rt; wrong_row(rt.alloc(), &REPEATED), None);
}

/// A write to the page that may be read alone, bytes over a page's end, and a page that isn't kept
/// leave registers and memory. The page that may be read serves reads.
static MORE_IS_NEEDED: [Row; 12] = [
    (b"\xA4", READ_ONLY, Left),
    (b"\xF3\xA4", READ_ONLY, Left),
    (b"\xAA", READ_ONLY, Left),
    (
        b"\xA6",
        READ_ONLY,
        Goes(&[(RSI, 0x41), (RDI, 0x1001)], 6, 0x1001),
    ),
    (b"\x48\xA5", CROSSING, Left),
    (b"\x48\xAB", CROSSING, Left),
    (b"\x48\xAD", CROSSING, Left),
    (b"\xA6", ABSENT, Left),
    (b"\xAE", ABSENT, Left),
    (b"\xA4", ABSENT_SOURCE, Left),
    (b"\xAC", ABSENT_SOURCE, Left),
    (b"\xA6", ABSENT_SOURCE, Left),
];

#[test]
fn nothing_is_made_where_more_is_needed(rt: HostRuntime) {
    assert_eq!(rt; wrong_row(rt.alloc(), &MORE_IS_NEEDED), None);
}
