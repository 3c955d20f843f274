//! Worked cases of `run` with calls of the nested kernel, through the gates and by a jump into them.
use super::NAME;
use super::cases::Failing::Put;
use super::cases::File::Code;
use super::cases::Table::{Cases, Runs};
use super::cases::Wanted::Text;
use super::cases::{Case, Run, UNCHANGED, first_other};
use super::run::{NO_INPUT, NO_PLAN, RUN};
use std::test::Fail;

/// MOV EDI, 1; MOV RSI, FFFFFFFF8000001A; MOV RAX, the gates; CALL RAX; UD2; HLT: the handler of traps is the HLT.
const SETS: [u8; 27] = [
    0xbf, 0x01, 0x00, 0x00, 0x00, 0x48, 0xc7, 0xc6, 0x1a, 0x00, 0x00, 0x80, 0x48, 0xb8, 0x00, 0x10,
    0x00, 0x00, 0x80, 0xff, 0xff, 0xff, 0xff, 0xd0, 0x0f, 0x0b, 0xf4,
];

/// The lines of a run of it, and the section behind them.
const SET: &str =
    "k 1 ffffffff8000001a 0 0 0 - 0 -\ni 6 - ffffffff80000018 -\nend halted\nturns 34";

const HANDLED: &str = "\nroot 5\ntrap ffffffff8000001a\n";

/// A handler is set and takes the next trap.
static TAKEN: [Run; 1] = [(&[&SETS], "", "100", SET)];

/// The handler's address isn't canonical: MOV RSI, 800000000000.
const SETS_NO_ADDRESS: [u8; 28] = [
    0xbf, 0x01, 0x00, 0x00, 0x00, 0x48, 0xbe, 0x00, 0x00, 0x00, 0x00, 0x00, 0x80, 0x00, 0x00, 0x48,
    0xb8, 0x00, 0x10, 0x00, 0x00, 0x80, 0xff, 0xff, 0xff, 0xff, 0xd0, 0xf4,
];

/// No call has the number 0; RSI is the number of frames.
const CALLS_0: [u8; 18] = [
    0xbf, 0x00, 0x00, 0x00, 0x00, 0x48, 0xb8, 0x00, 0x10, 0x00, 0x00, 0x80, 0xff, 0xff, 0xff, 0xff,
    0xd0, 0xf4,
];

/// MOV RCX, offset 13 of the gates; MOV EAX, 80000001, which is WP clear; JMP RCX. RDI is the first free frame.
const JUMPS: [u8; 17] = [
    0x48, 0xb9, 0x0d, 0x10, 0x00, 0x00, 0x80, 0xff, 0xff, 0xff, 0xb8, 0x01, 0x00, 0x00, 0x80, 0xff,
    0xe1,
];

/// A call that breaks a rule changes nothing.
static REFUSED: [Run; 4] = [
    (
        &[&SETS_NO_ADDRESS],
        "",
        "100",
        "k 1 800000000000 0 0 0 - 27 -\nend halted\nturns 23",
    ),
    (
        &[&CALLS_0],
        "",
        "100",
        "k 0 200 0 0 0 - 1 -\nend halted\nturns 22",
    ),
    // The body takes one turn: as many turns as it may take come first, and an event that is due comes behind.
    (&[&JUMPS], "6 drop 0", "6", "end steps\nturns 6"),
    (
        &[&JUMPS],
        "6 drop 0",
        "7",
        "k 47 200 0 ffffff800000100d 0 - 1 -\nend steps\nturns 7",
    ),
];

/// The line of a call may be cut.
static CUTS: [Case; 1] = [(
    &RUN,
    &[(NAME, Code(&[&SETS])), NO_INPUT, NO_PLAN],
    Put(1, 7),
    4,
    Text("k 1 fff"),
)];

#[test]
fn calls_go_through_the_gates(rt: HostRuntime) -> Result<(), Fail> {
    let tables = [
        Runs(0, HANDLED, &TAKEN),
        Runs(0, UNCHANGED, &REFUSED),
        Cases(&CUTS),
    ];
    assert_eq!(rt; first_other(rt.alloc(), &tables)?, None);
    Ok(())
}
