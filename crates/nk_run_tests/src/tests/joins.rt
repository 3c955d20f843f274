//! Worked cases of `join`: a module behind a guard page and packed, each of its statuses, and the order of its checks.
use super::cases::Failing::{Fetch, No, Put};
use super::cases::File::{Code, Filled, Holds, Lines, Nops, Segments, Written};
use super::cases::Table::Cases;
use super::cases::Wanted::{Any, Front, Long, Text};
use super::cases::{Case, File, HALTING, HALTS, LIST, first_other};
use super::{CODE, DATA, NAME, SCAN, Segment};
use std::test::Fail;

const JOIN: [&str; 3] = ["join", NAME, LIST];

/// A module of one RET.
const RETURNS: (&str, File) = ("a", Holds(&[&[0xc3]]));

/// The directory: one module, at FFFFFFFF80002000, of one byte.
const DIRECTORY: [u8; 24] = [
    1, 0, 0, 0, 0, 0, 0, 0, 0, 0x20, 0, 0x80, 0xff, 0xff, 0xff, 0xff, 1, 0, 0, 0, 0, 0, 0, 0,
];

/// A module stands behind a guard page.
static GUARDED: [Case; 2] = [
    (
        &JOIN,
        &[HALTING, (LIST, Holds(&[b"guard a"])), RETURNS],
        No,
        0,
        Long(12_312, &DIRECTORY),
    ),
    (
        &SCAN,
        &[(NAME, Written)],
        No,
        0,
        Text("admitted entry ffffffff80000000 pages 2\n"),
    ),
];

/// A packed module is scanned with its neighbours.
static PACKED: [Case; 2] = [
    (
        &JOIN,
        &[
            (NAME, Nops(4094, &[0x0f, 0x22])),
            (LIST, Holds(&[b"pack a\n"])),
            ("a", Holds(&[&[0xc0]])),
        ],
        No,
        1,
        Text("protected ffffffff80000ffe 0f22c0\n"),
    ),
    (
        &JOIN,
        &[
            (NAME, Nops(4094, &[0x0f, 0x22])),
            (LIST, Holds(&[b"guard a\n"])),
            ("a", Holds(&[&[0xc0]])),
        ],
        No,
        0,
        Any,
    ),
];

/// Each check has its line: those of the list, and of a module that no file holds.
static LISTS: [Case; 4] = [
    (&JOIN, &[HALTING], No, 3, Text("unread list\n")),
    (
        &JOIN,
        &[HALTING, (LIST, Holds(&[]))],
        No,
        6,
        Text("list line 1\n"),
    ),
    (
        &JOIN,
        &[
            HALTING,
            (LIST, Holds(&[b"pack a\npack A\n"])),
            ("a", Holds(&[])),
        ],
        No,
        6,
        Text("list line 2\n"),
    ),
    (
        &JOIN,
        &[HALTING, (LIST, Holds(&[b"pack a"]))],
        No,
        3,
        Text("unread module\n"),
    ),
];

/// Those of modules.
static MODULES: [Case; 4] = [
    (
        &JOIN,
        &[HALTING, (LIST, Holds(&[b"pack a"])), ("a", Holds(&[]))],
        No,
        8,
        Text("module 0 empty\n"),
    ),
    (
        &JOIN,
        &[
            HALTING,
            (LIST, Holds(&[b"pack a\nguard b\n"])),
            RETURNS,
            ("b", Holds(&[])),
        ],
        No,
        8,
        Text("module 1 empty\n"),
    ),
    // A later file that isn't read comes before an earlier one that is empty.
    (
        &JOIN,
        &[
            HALTING,
            (LIST, Holds(&[b"pack a\npack b"])),
            ("a", Holds(&[])),
        ],
        No,
        3,
        Text("unread module\n"),
    ),
    // One file may be named twice, with a line's guard each.
    (
        &JOIN,
        &[
            HALTING,
            (LIST, Holds(&[b"pack a\nguard a\npack a"])),
            ("a", Holds(&[b"\x0f\x30"])),
        ],
        No,
        1,
        Text("protected ffffffff80001000 0f30\n"),
    ),
];

/// Those of each file that isn't read, in order.
static UNREAD: [Case; 4] = [
    (
        &JOIN,
        &[HALTING, (LIST, Holds(&[b"pack a"])), RETURNS],
        Fetch(1),
        3,
        Text("unread image\n"),
    ),
    (
        &JOIN,
        &[HALTING, (LIST, Holds(&[b"pack a"])), RETURNS],
        Fetch(2),
        3,
        Text("unread list\n"),
    ),
    (
        &JOIN,
        &[HALTING, (LIST, Holds(&[b"pack a"])), RETURNS],
        Fetch(3),
        3,
        Text("unread module\n"),
    ),
    (
        &JOIN,
        &[HALTING, (LIST, Holds(&[b"pack a\npack a"])), RETURNS],
        Fetch(4),
        3,
        Text("unread module\n"),
    ),
];

/// Images, lists and modules have bounds. The image is judged before the list.
static BOUNDS: [Case; 6] = [
    (
        &JOIN,
        &[(NAME, Holds(&[]))],
        No,
        1,
        Text("image 1 Short 0\n"),
    ),
    (
        &JOIN,
        &[(NAME, Code(&[&[0x0f, 0x30]]))],
        No,
        1,
        Text("protected ffffffff80000000 0f30\n"),
    ),
    // A module has at most a mebibyte. Behind it stands one that is refused, so that no long file is written.
    (
        &JOIN,
        &[
            HALTING,
            (LIST, Holds(&[b"pack a\npack b"])),
            ("a", Filled(0x90, 1_048_576, &[])),
            ("b", Holds(&[])),
        ],
        No,
        8,
        Text("module 1 empty\n"),
    ),
    (
        &JOIN,
        &[
            HALTING,
            (LIST, Holds(&[b"pack a\npack b"])),
            ("a", Filled(0x90, 1_048_577, &[])),
            ("b", Holds(&[])),
        ],
        No,
        7,
        Text("longer module 1048576\n"),
    ),
    // A list has 32 lines.
    (
        &JOIN,
        &[HALTING, (LIST, Lines(32, b"pack a\n", &[])), RETURNS],
        No,
        0,
        Any,
    ),
    (
        &JOIN,
        &[HALTING, (LIST, Lines(33, b"pack a\n", &[])), RETURNS],
        No,
        6,
        Text("list line 33\n"),
    ),
];

/// Code at the first page of the home.
const FIRST: Segment = Segment {
    memory: 1,
    bytes: &HALTS,
    ..CODE
};

/// A page of data at the last page of the home, and those before it.
const AT_LAST: Segment = Segment {
    address: 0xffff_ffff_bfff_f000,
    memory: 1,
    bytes: &HALTS,
    ..DATA
};

const ONE_BEFORE: Segment = Segment {
    address: 0xffff_ffff_bfff_e000,
    ..AT_LAST
};

const TWO_BEFORE: Segment = Segment {
    address: 0xffff_ffff_bfff_d000,
    ..AT_LAST
};

const THREE_BEFORE: Segment = Segment {
    address: 0xffff_ffff_bfff_c000,
    ..AT_LAST
};

/// Modules end before the directory.
static TALL: [Case; 5] = [
    (
        &JOIN,
        &[
            (NAME, Segments(&[FIRST, TWO_BEFORE])),
            (LIST, Holds(&[b"pack a"])),
            RETURNS,
        ],
        No,
        0,
        Any,
    ),
    (
        &JOIN,
        &[
            (NAME, Segments(&[FIRST, TWO_BEFORE])),
            (LIST, Holds(&[b"guard a"])),
            RETURNS,
        ],
        No,
        8,
        Text("nofit\n"),
    ),
    (
        &JOIN,
        &[
            (NAME, Segments(&[FIRST, ONE_BEFORE])),
            (LIST, Holds(&[b"pack a"])),
            RETURNS,
        ],
        No,
        8,
        Text("nofit\n"),
    ),
    (
        &JOIN,
        &[
            (NAME, Segments(&[FIRST, AT_LAST])),
            (LIST, Holds(&[b"pack a"])),
            RETURNS,
        ],
        No,
        8,
        Text("nofit\n"),
    ),
    (
        &JOIN,
        &[
            (NAME, Segments(&[FIRST, THREE_BEFORE])),
            (LIST, Holds(&[b"pack a\npack a"])),
            RETURNS,
        ],
        No,
        0,
        Any,
    ),
];

/// A joined image goes out in pieces.
static PIECES: [Case; 4] = [
    (
        &JOIN,
        &[HALTING, (LIST, Holds(&[b"guard a"])), RETURNS],
        No,
        0,
        Any,
    ),
    (
        &JOIN,
        &[HALTING, (LIST, Holds(&[b"guard a"])), RETURNS],
        Put(1, 7),
        4,
        Front(7),
    ),
    (
        &JOIN,
        &[HALTING, (LIST, Holds(&[b"guard a"])), RETURNS],
        Put(2, 3),
        4,
        Front(4099),
    ),
    (
        &JOIN,
        &[HALTING, (LIST, Holds(&[b"guard a"])), RETURNS],
        Put(4, 2),
        4,
        Front(12_290),
    ),
];

#[test]
fn joins_are_as_worked_out(rt: HostRuntime) -> Result<(), Fail> {
    let tables = [
        Cases(&GUARDED),
        Cases(&PACKED),
        Cases(&LISTS),
        Cases(&MODULES),
        Cases(&UNREAD),
        Cases(&BOUNDS),
        Cases(&TALL),
        Cases(&PIECES),
    ];
    assert_eq!(rt; first_other(rt.alloc(), &tables)?, None);
    Ok(())
}
