//! Worked cases of `audit`: processes that a chain of eight or sixteen bytes a time hides and shows again, regions that
//! have no log, and what comes before either.
use super::cases::Failing::{Fetch, No, Put};
use super::cases::File::{Code, Filled, Holds, Nops, Written};
use super::cases::Table::{Cases, Forms};
use super::cases::Wanted::{Any, Text};
use super::cases::{Case, File, HALTING, HALTS, JOURNAL, first_other};
use super::regions::{ALLOCATES_LOGGED, CALLS, STORES, WRITES};
use super::run::{NO_INPUT, NO_PLAN, RUN};
use super::{NAME, PAST_THE_LIMIT};
use std::test::Fail;

/// The words of an audit of the regions that the tests have.
const AUDIT_256: [&str; 5] = ["audit", NAME, "512", JOURNAL, "256"];

const AUDIT_257: [&str; 5] = ["audit", NAME, "512", JOURNAL, "257"];

const AUDIT_300: [&str; 5] = ["audit", NAME, "512", JOURNAL, "300"];

/// A region of 64 bytes, four slots, whose writes are logged.
const GIVES: &[u8] = b"k 7 40 4 0 0 - 256 ffffff8000010000\n";

/// Three slots: 0 leads to slot 1, that of process 1; and this to slot 2, that of process 7, which is the last.
const LISTS: &[u8] = b"k 9 100 0 ffff800000047000 30 \
    000000000000000002000000000000000100000000000000030000000000000007000000000000000000000000000000 0 -\n";

/// Slot 1 leads to none, and then to slot 2 again.
const UNLINKS: &[u8] = b"k 9 100 18 ffff800000047000 8 0000000000000000 0 -\n";

const LINKS: &[u8] = b"k 9 100 18 ffff800000047000 8 0300000000000000 0 -\n";

/// Slot 0 leads to itself, and then to slot 1 again.
const LOOPS: &[u8] = b"k 9 100 8 ffff800000047000 8 0100000000000000 0 -\n";

const MENDS: &[u8] = b"k 9 100 8 ffff800000047000 8 0200000000000000 0 -\n";

const FREES: &[u8] = b"k 8 100 0 0 0 - 0 -\n";

const HIDDEN: &str = "h 1 2 7\nrecords 2\nhidden 1\nchain good\n";

const CLEAN: &str = "records 0\nhidden 0\nchain good\n";

/// What the records of a region hide.
static HIDING: [Case; 4] = [
    (
        &AUDIT_256,
        &[HALTING, (JOURNAL, Holds(&[GIVES]))],
        No,
        0,
        Text(CLEAN),
    ),
    (
        &AUDIT_256,
        &[HALTING, (JOURNAL, Holds(&[GIVES, LISTS]))],
        No,
        0,
        Text("records 1\nhidden 0\nchain good\n"),
    ),
    (
        &AUDIT_256,
        &[HALTING, (JOURNAL, Holds(&[GIVES, LISTS, UNLINKS]))],
        No,
        0,
        Text(HIDDEN),
    ),
    (
        &AUDIT_256,
        &[HALTING, (JOURNAL, Holds(&[GIVES, LISTS, UNLINKS, LOOPS]))],
        No,
        0,
        Text("h 1 2 7\nb 2\nh 2 1 1\nrecords 3\nhidden 2\nchain broken\n"),
    ),
];

/// What later records show again, and what stands behind the records.
static SHOWING: [Case; 4] = [
    (
        &AUDIT_256,
        &[HALTING, (JOURNAL, Holds(&[GIVES, LISTS, UNLINKS, LINKS]))],
        No,
        0,
        Text("h 1 2 7\nu 2 2 7\nrecords 3\nhidden 0\nchain good\n"),
    ),
    (
        &AUDIT_256,
        &[
            HALTING,
            (JOURNAL, Holds(&[GIVES, LISTS, UNLINKS, LOOPS, MENDS])),
        ],
        No,
        0,
        Text("h 1 2 7\nb 2\nh 2 1 1\ng 3\nu 3 1 1\nrecords 4\nhidden 1\nchain good\n"),
    ),
    // What is freed was written all the same.
    (
        &AUDIT_256,
        &[HALTING, (JOURNAL, Holds(&[GIVES, LISTS, UNLINKS, FREES]))],
        No,
        0,
        Text(HIDDEN),
    ),
    // Nothing is looked at behind the end.
    (
        &AUDIT_256,
        &[
            HALTING,
            (
                JOURNAL,
                Holds(&[GIVES, LISTS, UNLINKS, b"end steps\n", LOOPS, b"\n"]),
            ),
        ],
        No,
        0,
        Text(HIDDEN),
    ),
];

/// Slot 1 of two has process 9, and no slot leads there.
const TWO_REGIONS: (&str, File) = (
    JOURNAL,
    Holds(&[
        GIVES,
        b"k 7 20 4 0 0 - 257 ffffff8000010040\n",
        b"k 9 101 10 ffff800000047000 8 0900000000000000 0 -\n",
        LISTS,
        UNLINKS,
        FREES,
        b"k 7 40 4 0 0 - 258 ffffff8000010000\n",
    ]),
);

/// A write of 15 bytes.
const FIFTEEN: &[u8] = b"k 9 100 0 ffff800000047000 f ffffffffffffffffffffffffffffff 0 -\n";

/// Records of two regions are numbered in one row.
static NUMBERED: [Case; 3] = [
    (
        &AUDIT_256,
        &[HALTING, TWO_REGIONS],
        No,
        0,
        Text("h 2 2 7\nrecords 2\nhidden 1\nchain good\n"),
    ),
    (
        &AUDIT_257,
        &[HALTING, TWO_REGIONS],
        No,
        0,
        Text("h 0 1 9\nrecords 1\nhidden 1\nchain good\n"),
    ),
    (
        &["audit", NAME, "512", JOURNAL, "258"],
        &[HALTING, TWO_REGIONS],
        No,
        0,
        Text(CLEAN),
    ),
];

/// Fifteen bytes have no slot and sixteen have one.
static SLOTS: [Case; 2] = [
    (
        &AUDIT_256,
        &[
            HALTING,
            (
                JOURNAL,
                Holds(&[b"k 7 f 4 0 0 - 256 ffffff8000010000\n", FIFTEEN]),
            ),
        ],
        No,
        0,
        Text("records 1\nhidden 0\nchain good\n"),
    ),
    (
        &AUDIT_256,
        &[
            HALTING,
            (
                JOURNAL,
                Holds(&[b"k 7 10 4 0 0 - 256 ffffff8000010000\n", FIFTEEN]),
            ),
        ],
        No,
        0,
        Text("b 0\nrecords 1\nhidden 0\nchain broken\n"),
    ),
];

/// A page that is declared with policy 4.
const DECLARED: &[u8] =
    b"k 3 46 47 8000000000047021 0 - 0 -\nk 6 ffff800000047000 1000 4 0 - 256 -\n";

/// No region has the number.
static UNKNOWN: [Case; 4] = [
    (
        &AUDIT_256,
        &[HALTING, (JOURNAL, Holds(&[]))],
        No,
        9,
        Text("noregion 256\n"),
    ),
    (
        &AUDIT_300,
        &[HALTING, (JOURNAL, Holds(&[GIVES, LISTS]))],
        No,
        9,
        Text("noregion 300\n"),
    ),
    (
        &AUDIT_257,
        &[HALTING, (JOURNAL, Holds(&[GIVES]))],
        No,
        9,
        Text("noregion 257\n"),
    ),
    (
        &["audit", NAME, "512", JOURNAL, "8589934591"],
        &[HALTING, (JOURNAL, Holds(&[GIVES]))],
        No,
        9,
        Text("noregion 8589934591\n"),
    ),
];

/// A region has a log where a call 7 gave it policy 4.
static UNLOGGED: [Case; 5] = [
    (
        &AUDIT_256,
        &[
            HALTING,
            (JOURNAL, Holds(&[b"k 7 40 3 0 0 - 256 ffffff8000010000\n"])),
        ],
        No,
        9,
        Text("noregion 256\n"),
    ),
    (
        &AUDIT_256,
        &[
            HALTING,
            (JOURNAL, Holds(&[b"k 7 40 1 0 0 - 256 ffffff8000010000\n"])),
        ],
        No,
        9,
        Text("noregion 256\n"),
    ),
    (
        &AUDIT_256,
        &[HALTING, (JOURNAL, Holds(&[DECLARED]))],
        No,
        9,
        Text("noregion 256\n"),
    ),
    // An allocation that is refused, and one behind the end.
    (
        &AUDIT_256,
        &[HALTING, (JOURNAL, Holds(&[b"k 7 0 4 0 0 - 15 -\n"]))],
        No,
        9,
        Text("noregion 256\n"),
    ),
    (
        &AUDIT_256,
        &[HALTING, (JOURNAL, Holds(&[b"end halted\n", GIVES]))],
        No,
        9,
        Text("noregion 256\n"),
    ),
];

/// The lines of a journal come before its regions.
static UNFORMED: [Case; 5] = [
    (
        &AUDIT_256,
        &[HALTING, (JOURNAL, Holds(&[b"\n"]))],
        No,
        6,
        Text("journal line 1\n"),
    ),
    (
        &AUDIT_300,
        &[HALTING, (JOURNAL, Holds(&[GIVES, b"k 7\n"]))],
        No,
        6,
        Text("journal line 2\n"),
    ),
    (
        &AUDIT_256,
        &[HALTING, (JOURNAL, Holds(&[GIVES, LISTS, b"c 4"]))],
        No,
        6,
        Text("journal line 3\n"),
    ),
    // Answers that are noted and weren't given, and a write that the region hasn't room for.
    (
        &AUDIT_257,
        &[
            HALTING,
            (JOURNAL, Holds(&[b"k 7 40 4 0 0 - 257 ffffff8000010000\n"])),
        ],
        No,
        6,
        Text("journal line 1\n"),
    ),
    (
        &AUDIT_256,
        &[
            HALTING,
            (
                JOURNAL,
                Holds(&[b"k 7 8 4 0 0 - 256 ffffff8000010000\n", LISTS]),
            ),
        ],
        No,
        6,
        Text("journal line 2\n"),
    ),
];

/// The files and the room come before the journal's lines.
static UNREAD: [Case; 5] = [
    (
        &AUDIT_300,
        &[HALTING, (JOURNAL, Holds(&[b"\n"]))],
        Fetch(1),
        3,
        Text("unread image\n"),
    ),
    (
        &AUDIT_300,
        &[HALTING, (JOURNAL, Holds(&[b"\n"]))],
        Fetch(2),
        3,
        Text("unread journal\n"),
    ),
    (
        &["audit", NAME, "512", "none", "300"],
        &[(NAME, Code(&[&[0x0f, 0x30]])), (JOURNAL, Holds(&[b"\n"]))],
        No,
        1,
        Text("protected ffffffff80000000 0f30\n"),
    ),
    (
        &AUDIT_300,
        &[(NAME, Nops(2_000_000, &[])), (JOURNAL, Holds(&[b"\n"]))],
        No,
        1,
        Text("noroom 559 512\n"),
    ),
    (
        &AUDIT_300,
        &[HALTING, (JOURNAL, Filled(b'c', PAST_THE_LIMIT, &[]))],
        No,
        7,
        Text("longer journal 67108864\n"),
    ),
];

/// The image of a region and a write to it.
const WRITING: (&str, File) = (
    NAME,
    Code(&[&STORES, &ALLOCATES_LOGGED, &CALLS, &WRITES, &CALLS, &HALTS]),
);

/// A run is audited by its text. The journal of a run is its own text, with the closing section behind it.
static AUDITED: [Case; 2] = [
    (&RUN, &[WRITING, NO_INPUT, NO_PLAN], No, 0, Any),
    (
        &AUDIT_256,
        &[WRITING, (JOURNAL, Written)],
        No,
        0,
        Text("records 1\nhidden 0\nchain good\n"),
    ),
];

/// An audit may be cut.
static CUTS: [Case; 3] = [
    (
        &AUDIT_256,
        &[HALTING, (JOURNAL, Holds(&[GIVES, LISTS, UNLINKS]))],
        Put(1, 2),
        4,
        Text("h "),
    ),
    (
        &AUDIT_256,
        &[HALTING, (JOURNAL, Holds(&[GIVES, LISTS, UNLINKS]))],
        Put(2, 2),
        4,
        Text("h 1 2 7\nre"),
    ),
    (
        &AUDIT_256,
        &[HALTING, (JOURNAL, Holds(&[]))],
        Put(1, 5),
        4,
        Text("noreg"),
    ),
];

/// Other words are no audit.
static OTHER_WORDS: [&[&str]; 13] = [
    &["audit", NAME, "512", JOURNAL],
    &["audit", NAME, "512", JOURNAL, "256", "256"],
    &["audit", NAME, JOURNAL, "512", "256"],
    &["audits", NAME, "512", JOURNAL, "256"],
    &["audit", NAME, "511", JOURNAL, "256"],
    &["audit", NAME, "65537", JOURNAL, "256"],
    &["audit", NAME, "512", JOURNAL, "255"],
    &["audit", NAME, "512", JOURNAL, "8589934592"],
    &["audit", NAME, "512", JOURNAL, "18446744073709551872"],
    &["audit", NAME, "512", JOURNAL, "0256"],
    &["audit", NAME, "512", JOURNAL, "+256"],
    &["audit", NAME, "512", JOURNAL, "0x100"],
    &["audit", NAME, "512", JOURNAL, ""],
];

#[test]
fn audits_are_as_worked_out(rt: HostRuntime) -> Result<(), Fail> {
    let tables = [
        Cases(&HIDING),
        Cases(&SHOWING),
        Cases(&NUMBERED),
        Cases(&SLOTS),
        Cases(&UNKNOWN),
        Cases(&UNLOGGED),
        Cases(&UNFORMED),
        Cases(&UNREAD),
        Cases(&AUDITED),
        Cases(&CUTS),
        Forms(&OTHER_WORDS),
    ];
    assert_eq!(rt; first_other(rt.alloc(), &tables)?, None);
    Ok(())
}
