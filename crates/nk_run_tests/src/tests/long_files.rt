//! Worked cases of `run` over long files, with ample memory: an input of a million bytes, a plan of many lines, and an
//! image with as many headers as one may have.
use super::cases::Failing::No;
use super::cases::File::{Code, Filled, Lines, Pages};
use super::cases::Table::Cases;
use super::cases::Wanted::Text;
use super::cases::{Case, INPUT, PLAN, first_other};
use super::deliveries::TURNS;
use super::run::{NO_INPUT, NO_PLAN, RUN};
use super::{NAME, READ, READ_EXECUTE};
use std::test::Fail;

/// MOV ECX, 20000.
const COUNTS: [u8; 5] = [0xb9, 0x20, 0x4e, 0x00, 0x00];

/// Ten times IN AL, EA.
const READS: [u8; 20] = [
    0xe4, 0xea, 0xe4, 0xea, 0xe4, 0xea, 0xe4, 0xea, 0xe4, 0xea, 0xe4, 0xea, 0xe4, 0xea, 0xe4, 0xea,
    0xe4, 0xea, 0xe4, 0xea,
];

/// DEC ECX; JNZ to the first IN; OUT E9, AL; IN AL, EB; OUT E9, AL; HLT: the console gets the millionth byte, and whether
/// one is left.
const GOES_ON: [u8; 11] = [
    0xff, 0xc9, 0x75, 0x98, 0xe6, 0xe9, 0xe4, 0xeb, 0xe6, 0xe9, 0xf4,
];

/// What is written where the last line's vector goes first: all events that are due are taken before the first interrupt
/// is delivered.
const DELIVERED: &str =
    "i 47 - ffffffff80000001 -\nend halted\nturns 15\nroot 5\ntrap ffffff80000011da\n";

/// An input and a plan are taken to their end.
static TAKEN: [Case; 3] = [
    // 20,000 times 52 turns, and five beside them.
    (
        &["run", NAME, INPUT, PLAN, "2000000", "512"],
        &[
            (
                NAME,
                Code(&[&COUNTS, &READS, &READS, &READS, &READS, &READS, &GOES_ON]),
            ),
            (INPUT, Filled(0x41, 999_999, &[0x5a])),
            NO_PLAN,
        ],
        No,
        0,
        Text("c 5a\nc 00\nend halted\nturns 1040005\nroot 5\ntrap ffffff80000011da\n"),
    ),
    (
        &RUN,
        &[
            (NAME, Code(&[&TURNS])),
            NO_INPUT,
            (PLAN, Lines(20_000, b"3 irq 32\n", b"3 irq 47\n")),
        ],
        No,
        0,
        Text(DELIVERED),
    ),
    (
        &RUN,
        &[
            (NAME, Code(&[&TURNS])),
            NO_INPUT,
            (PLAN, Lines(20_000, b"3 irq 32\n", b"2 irq 47\n")),
        ],
        No,
        6,
        Text("plan line 20001\n"),
    ),
];

/// MOV AL, the byte at FFFFFFFF80001000; OUT E9, AL; MOV AL, the byte at FFFFFFFF8003F000; OUT E9, AL; HLT.
const SHOWS: [u8; 19] = [
    0x8a, 0x04, 0x25, 0x00, 0x10, 0x00, 0x80, 0xe6, 0xe9, 0x8a, 0x04, 0x25, 0x00, 0xf0, 0x03, 0x80,
    0xe6, 0xe9, 0xf4,
];

/// An image of 64 headers runs.
static HEADED: [Case; 1] = [(
    &RUN,
    &[
        (
            NAME,
            Pages(&[
                (1, READ_EXECUTE, &SHOWS),
                (1, READ, b"!"),
                (61, READ, b"*"),
                (1, READ, b"Z"),
            ]),
        ),
        NO_INPUT,
        NO_PLAN,
    ],
    No,
    0,
    Text("c 21\nc 5a\nend halted\nturns 5\nroot 5\ntrap ffffff80000011da\n"),
)];

#[test]
fn long_files_are_taken_to_their_end(rt: HostRuntime) -> Result<(), Fail> {
    let tables = [Cases(&TAKEN), Cases(&HEADED)];
    assert_eq!(rt; first_other(rt.alloc(), &tables)?, None);
    Ok(())
}
