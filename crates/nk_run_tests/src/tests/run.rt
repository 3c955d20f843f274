//! Worked cases of `run`, with texts written by hand: a run ends with why it ended, its turns, the root's frame and
//! the trap handler, which is the halt loop of the gates' text until the outer kernel names one.
use super::cases::Failing::{Fetch, No, Put};
use super::cases::File::{Code, Empty, Filled, Holds, Nops};
use super::cases::Table::{Cases, Forms, Runs};
use super::cases::Wanted::Text;
use super::cases::{Case, File, HALTING, HALTS, INPUT, PLAN, Run, UNCHANGED, first_other};
use super::{NAME, PAST_THE_LIMIT};
use std::test::Fail;

/// The words of a run of at most 10 turns in the least memory, and of one of at most 100.
const RUN_10: [&str; 6] = ["run", NAME, INPUT, PLAN, "10", "512"];

pub(super) const RUN: [&str; 6] = ["run", NAME, INPUT, PLAN, "100", "512"];

/// An input and a plan without bytes.
pub(super) const NO_INPUT: (&str, File) = (INPUT, Empty);

pub(super) const NO_PLAN: (&str, File) = (PLAN, Empty);

/// What a run of the halting kernel writes.
const HALTED: &str = "end halted\nturns 1\nroot 5\ntrap ffffff80000011da\n";

/// MOV AL, 41; OUT E9, AL; HLT: a byte goes to the console.
const SHOWS: [u8; 5] = [0xb0, 0x41, 0xe6, 0xe9, 0xf4];

/// A run is told line by line.
static TOLD: [Run; 3] = [
    (&[&HALTS], "", "10", "end halted\nturns 1"),
    (&[&HALTS], "", "0", "end steps\nturns 0"),
    (&[&SHOWS], "", "10", "c 41\nend halted\nturns 3"),
];

/// The second run has other lines.
pub(super) static OTHERS: [Run; 3] = [
    (&[&HALTS], "", "10", "end halted\nturns 1"),
    (&[&HALTS], "", "10", "end halted\nturns 2"),
    (&[&HALTS], "", "10", "end halted\nturns 1"),
];

/// A run has the largest memory and room for its opening.
static ROOMY: [Case; 3] = [
    (
        &["run", NAME, INPUT, PLAN, "10", "65536"],
        &[HALTING, NO_INPUT, NO_PLAN],
        No,
        0,
        Text(HALTED),
    ),
    (
        &RUN_10,
        &[(NAME, Nops(2_000_000, &[])), NO_INPUT, NO_PLAN],
        No,
        1,
        Text("noroom 559 512\n"),
    ),
    // The files come first.
    (
        &RUN_10,
        &[
            (NAME, Nops(2_000_000, &[])),
            NO_INPUT,
            (PLAN, Holds(&[b"\n"])),
        ],
        No,
        6,
        Text("plan line 1\n"),
    ),
];

/// The first line of a plan out of form is named.
static UNPLANNED: [Run; 10] = [
    (&[&HALTS], "\n", "10", "plan line 1\n"),
    (&[&HALTS], "5 irq 32\n9 irq", "10", "plan line 2\n"),
    (&[&HALTS], "5 irq 32\n4 irq 32\n", "10", "plan line 2\n"),
    (&[&HALTS], "5 irq 32\n\n\n", "10", "plan line 2\n"),
    (
        &[&HALTS],
        "0 irq 32\n0 drop 0\n0 fill 800000000000\n",
        "10",
        "plan line 3\n",
    ),
    (&[&HALTS], "0 irq 31\n", "10", "plan line 1\n"),
    (&[&HALTS], "4294967297 irq 32\n", "10", "plan line 1\n"),
    (&[&HALTS], "5 fill 1001\n", "10", "plan line 1\n"),
    (&[&HALTS], "5 drop 800000000000\n", "10", "plan line 1\n"),
    (&[&HALTS], "1 irq 32\n0 irq 32\n", "10", "plan line 2\n"),
];

/// Input and plan are fetched after the image.
static UNREAD: [Case; 3] = [
    (
        &RUN_10,
        &[HALTING, NO_INPUT, NO_PLAN],
        Fetch(1),
        3,
        Text("unread image\n"),
    ),
    (
        &RUN_10,
        &[HALTING, NO_INPUT, NO_PLAN],
        Fetch(2),
        3,
        Text("unread input\n"),
    ),
    (
        &RUN_10,
        &[HALTING, NO_INPUT, NO_PLAN],
        Fetch(3),
        3,
        Text("unread plan\n"),
    ),
];

/// Names without a file, and files past the limit.
static UNNAMED: [Case; 4] = [
    // Names without a file.
    (
        &["run", NAME, "none", "none", "10", "512"],
        &[HALTING, NO_INPUT, NO_PLAN],
        No,
        3,
        Text("unread input\n"),
    ),
    (
        &["run", NAME, INPUT, "none", "10", "512"],
        &[HALTING, NO_INPUT, NO_PLAN],
        No,
        3,
        Text("unread plan\n"),
    ),
    // Files past the limit.
    (
        &RUN_10,
        &[HALTING, (INPUT, Filled(0, PAST_THE_LIMIT, &[])), NO_PLAN],
        No,
        7,
        Text("longer input 67108864\n"),
    ),
    (
        &RUN_10,
        &[HALTING, NO_INPUT, (PLAN, Filled(0, PAST_THE_LIMIT, &[]))],
        No,
        7,
        Text("longer plan 67108864\n"),
    ),
];

/// LMSW with a register: the first line is that of a delivery.
const DELIVERS: (&str, File) = (NAME, Code(&[&[0x0f, 0x01, 0xd8]]));

/// MOV AL, 5E; OUT E9, AL; NOP; HLT.
const TELLS: (&str, File) = (NAME, Code(&[&[0xb0, 0x5e, 0xe6, 0xe9, 0x90, 0xf4]]));

/// Each line of a run may be cut.
static CUTS: [Case; 4] = [
    (
        &RUN,
        &[HALTING, NO_INPUT, NO_PLAN],
        Put(2, 3),
        4,
        Text("end halted\ntur"),
    ),
    (&RUN, &[DELIVERS, NO_INPUT, NO_PLAN], Put(1, 0), 4, Text("")),
    (
        &RUN,
        &[DELIVERS, NO_INPUT, NO_PLAN],
        Put(1, 5),
        4,
        Text("i 6 -"),
    ),
    (
        &RUN,
        &[DELIVERS, NO_INPUT, NO_PLAN],
        Put(2, 5),
        4,
        Text("i 6 - ffffffff80000000 -\nend h"),
    ),
];

/// Those of a run that shows a byte, too.
static CONSOLE_CUTS: [Case; 5] = [
    (&RUN, &[TELLS, NO_INPUT, NO_PLAN], Put(1, 2), 4, Text("c ")),
    (
        &RUN,
        &[TELLS, NO_INPUT, NO_PLAN],
        Put(2, 2),
        4,
        Text("c 5e\nen"),
    ),
    (
        &RUN,
        &[TELLS, NO_INPUT, NO_PLAN],
        Put(3, 2),
        4,
        Text("c 5e\nend halted\ntu"),
    ),
    (
        &RUN,
        &[TELLS, NO_INPUT, NO_PLAN],
        Put(4, 2),
        4,
        Text("c 5e\nend halted\nturns 4\nro"),
    ),
    (
        &RUN,
        &[TELLS, NO_INPUT, NO_PLAN],
        Put(5, 2),
        4,
        Text("c 5e\nend halted\nturns 4\nroot 5\ntr"),
    ),
];

/// Steps and frames have bounds.
static BOUNDS: [&[&str]; 6] = [
    &["run", NAME, INPUT, PLAN, "4294967297", "512"],
    &["run", NAME, INPUT, PLAN, "01", "512"],
    &["run", NAME, INPUT, PLAN, "+1", "512"],
    &["run", NAME, INPUT, PLAN, "-1", "512"],
    &["run", NAME, INPUT, PLAN, "10", "511"],
    &["run", NAME, INPUT, PLAN, "10", "65537"],
];

#[test]
fn runs_are_as_worked_out(rt: HostRuntime) -> Result<(), Fail> {
    let tables = [
        Runs(0, UNCHANGED, &TOLD),
        Runs(6, "", &UNPLANNED),
        Cases(&ROOMY),
        Cases(&UNREAD),
        Cases(&UNNAMED),
        Cases(&CUTS),
        Cases(&CONSOLE_CUTS),
        Forms(&BOUNDS),
    ];
    assert_eq!(rt; first_other(rt.alloc(), &tables)?, None);
    Ok(())
}
