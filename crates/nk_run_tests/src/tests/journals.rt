//! Worked cases of `replay`: texts of runs as they are, changed and cut off, and journals that are out of form.
use super::cases::Failing::{Fetch, No, Put};
use super::cases::File::{Code, Filled, Holds, Nops, Written};
use super::cases::Table::{Cases, Forms};
use super::cases::Wanted::{Any, Ending, Padded, Text};
use super::cases::{Case, File, HALTING, HALTS, JOURNAL, first_other, shelf_of};
use super::regions::{ALLOCATES_LOGGED, CALLS, DECLARES_71, READS_71, STORES, WRITES};
use super::run::{NO_INPUT, NO_PLAN, RUN};
use super::tables::{DECLARED, DECLARES};
use super::{NAME, PAST_THE_LIMIT, gives, run_over};
use std::alloc::Global;
use std::test::Fail;

/// The words of a replay in the least memory.
const REPLAY: [&str; 4] = ["replay", NAME, "512", JOURNAL];

/// What a replay shows of an opening that no call changed.
const OPENED: &str = "root 5\ntrap ffffff80000011da\n";

/// Images that declare a table, write to a region, and write to a page and declare it.
const TABLES: (&str, File) = (NAME, Code(&[&DECLARES]));

const REGION: (&str, File) = (
    NAME,
    Code(&[&STORES, &ALLOCATES_LOGGED, &CALLS, &WRITES, &CALLS, &HALTS]),
);

const PAGE: (&str, File) = (
    NAME,
    Code(&[&STORES, &READS_71, &CALLS, &DECLARES_71, &CALLS, &HALTS]),
);

/// What is shown of the region and its log.
const LOGGED: &str = "root 5\ntrap ffffff80000011da\n\
    r 256 4 ffffff8000010000 8 0000616263640000\nl 0 256 2 61626364\n";

/// The text of a run is a journal.
static REPLAYED: [Case; 4] = [
    (&RUN, &[TABLES, NO_INPUT, NO_PLAN], No, 0, Text(DECLARED)),
    (
        &REPLAY,
        &[TABLES, (JOURNAL, Written)],
        No,
        0,
        Text("root 5\ntrap ffffff80000011da\nf 71 table1\nt 70 71 8000000000047021\n"),
    ),
    // A region and its log.
    (&RUN, &[REGION, NO_INPUT, NO_PLAN], No, 0, Any),
    (&REPLAY, &[REGION, (JOURNAL, Written)], No, 0, Text(LOGGED)),
];

/// The section of the page, up to its bytes.
const GUARDED: &str = "root 5\ntrap ffffff80000011da\nf 71 guarded\nt 70 71 8000000000047021\n\
    r 256 3 ffff800000047000 4096 ";

/// A replay shows what calls alone leave. The outer kernel's own stores are no calls: the run shows what it stored
/// before it declared the page, and a replay what the opening has there.
static LEFT: [Case; 2] = [
    (
        &RUN,
        &[PAGE, NO_INPUT, NO_PLAN],
        No,
        0,
        Ending(&[(GUARDED, 0), ("61626364", 8184), ("\n", 0)]),
    ),
    (
        &REPLAY,
        &[PAGE, (JOURNAL, Written)],
        No,
        0,
        Padded(&[(GUARDED, 8192), ("\n", 0)]),
    ),
];

/// A region of 8 bytes, whose writes are logged.
const GIVES: &[u8] = b"k 7 8 4 0 0 - 256 ffffff8000010000\n";

/// A journal that was changed is refused.
static REFUSED: [Case; 3] = [
    // The second answer.
    (
        &REPLAY,
        &[
            TABLES,
            (
                JOURNAL,
                Holds(&[
                    b"k 3 46 47 8000000000047021 0 - 0 -\n\
                    k 2 1 47 8000000000047021 0 - 5 -\nend halted\n",
                ]),
            ),
        ],
        No,
        6,
        Text("journal line 2\n"),
    ),
    // The first call is missing: frame 71 is mapped writable.
    (
        &REPLAY,
        &[
            TABLES,
            (
                JOURNAL,
                Holds(&[b"k 2 1 47 8000000000047021 0 - 0 -\nend halted\n"]),
            ),
        ],
        No,
        6,
        Text("journal line 1\n"),
    ),
    // A call that was never made, with the answer that it would have had, and one more after it.
    (
        &REPLAY,
        &[
            TABLES,
            (
                JOURNAL,
                Holds(&[b"k 2 1 47 0 0 - 5 -\nk 5 5 0 0 0 - 0 -\nk 5 5 0 0 0 - 1 -\n"]),
            ),
        ],
        No,
        6,
        Text("journal line 3\n"),
    ),
];

/// A place or a source that was changed is refused.
static MISPLACED: [Case; 3] = [
    // The place of a region, and the bytes of a source, which have to number the length.
    (
        &REPLAY,
        &[
            TABLES,
            (JOURNAL, Holds(&[b"k 7 8 4 0 0 - 256 ffffff8000010010\n"])),
        ],
        No,
        6,
        Text("journal line 1\n"),
    ),
    (
        &REPLAY,
        &[
            TABLES,
            (
                JOURNAL,
                Holds(&[GIVES, b"k 9 100 2 ffff800000047000 4 616263 0 -\n"]),
            ),
        ],
        No,
        6,
        Text("journal line 2\n"),
    ),
    (
        &REPLAY,
        &[
            TABLES,
            (
                JOURNAL,
                Holds(&[GIVES, b"k 9 100 2 ffff800000047000 4 - 0 -\n"]),
            ),
        ],
        No,
        6,
        Text("journal line 2\n"),
    ),
];

/// What is shown where a call set the handler.
const HANDLED: &str = "root 5\ntrap ffffffff8000001a\n";

/// A journal may be empty and end anywhere.
static ENDED: [Case; 4] = [
    (
        &REPLAY,
        &[HALTING, (JOURNAL, Holds(&[b""]))],
        No,
        0,
        Text(OPENED),
    ),
    (
        &REPLAY,
        &[HALTING, (JOURNAL, Holds(&[b"end halted"]))],
        No,
        0,
        Text(OPENED),
    ),
    (
        &REPLAY,
        &[HALTING, (JOURNAL, Holds(&[b"end steps\n"]))],
        No,
        0,
        Text(OPENED),
    ),
    // Nothing is looked at behind the end.
    (
        &REPLAY,
        &[HALTING, (JOURNAL, Holds(&[b"end steps\n\nend\nk\n"]))],
        No,
        0,
        Text(OPENED),
    ),
];

/// Lines without an end, and calls that the end follows or not.
static WITHOUT_END: [Case; 4] = [
    // What the console and deliveries show has no effect.
    (
        &REPLAY,
        &[
            HALTING,
            (JOURNAL, Holds(&[b"c 41\ni 6 - ffffffff80000000 -\n"])),
        ],
        No,
        0,
        Text(OPENED),
    ),
    (
        &REPLAY,
        &[
            HALTING,
            (
                JOURNAL,
                Holds(&[b"i 14 3 ffffffff8000004e ffff800000047000"]),
            ),
        ],
        No,
        0,
        Text(OPENED),
    ),
    // A handler is set.
    (
        &REPLAY,
        &[
            HALTING,
            (JOURNAL, Holds(&[b"k 1 ffffffff8000001a 0 0 0 - 0 -"])),
        ],
        No,
        0,
        Text(HANDLED),
    ),
    (
        &REPLAY,
        &[
            HALTING,
            (
                JOURNAL,
                Holds(&[b"k 1 ffffffff8000001a 0 0 0 - 0 -\nend halted\nk 1 0 0 0 0 - 0 -\n"]),
            ),
        ],
        No,
        0,
        Text(HANDLED),
    ),
];

/// The first line of a journal out of form is named: one that is empty, or ends otherwise.
static UNENDED: [Case; 4] = [
    (
        &REPLAY,
        &[HALTING, (JOURNAL, Holds(&[b"\n"]))],
        No,
        6,
        Text("journal line 1\n"),
    ),
    (
        &REPLAY,
        &[HALTING, (JOURNAL, Holds(&[b"c 41\n\nc 42\n"]))],
        No,
        6,
        Text("journal line 2\n"),
    ),
    (
        &REPLAY,
        &[HALTING, (JOURNAL, Holds(&[b"c 41\r\n"]))],
        No,
        6,
        Text("journal line 1\n"),
    ),
    (
        &REPLAY,
        &[HALTING, (JOURNAL, Holds(&[b"c 41\n\r"]))],
        No,
        6,
        Text("journal line 2\n"),
    ),
];

/// One that isn't a line of a run.
static UNFORMED: [Case; 5] = [
    (
        &REPLAY,
        &[HALTING, (JOURNAL, Holds(&[b"c 4\0\n"]))],
        No,
        6,
        Text("journal line 1\n"),
    ),
    (
        &REPLAY,
        &[HALTING, (JOURNAL, Holds(&[b"c 41\0"]))],
        No,
        6,
        Text("journal line 1\n"),
    ),
    (
        &REPLAY,
        &[HALTING, (JOURNAL, Holds(&[b"c 4A\n"]))],
        No,
        6,
        Text("journal line 1\n"),
    ),
    (
        &REPLAY,
        &[HALTING, (JOURNAL, Holds(&[b"end halted \n"]))],
        No,
        6,
        Text("journal line 1\n"),
    ),
    (
        &REPLAY,
        &[HALTING, (JOURNAL, Holds(&[b"turns 1\n"]))],
        No,
        6,
        Text("journal line 1\n"),
    ),
];

/// One with a number that is too long or too large.
static TOO_LONG: [Case; 4] = [
    // Numbers of 17 digits, and an answer of 2^64.
    (
        &REPLAY,
        &[
            HALTING,
            (JOURNAL, Holds(&[b"k 1 00000000000000001 0 0 0 - 0 -\n"])),
        ],
        No,
        6,
        Text("journal line 1\n"),
    ),
    (
        &REPLAY,
        &[
            HALTING,
            (JOURNAL, Holds(&[b"k 1 10000000000000000 0 0 0 - 0 -\n"])),
        ],
        No,
        6,
        Text("journal line 1\n"),
    ),
    (
        &REPLAY,
        &[
            HALTING,
            (
                JOURNAL,
                Holds(&[b"i 6 10000000000000000 ffffffff80000000 -\n"]),
            ),
        ],
        No,
        6,
        Text("journal line 1\n"),
    ),
    (
        &REPLAY,
        &[
            HALTING,
            (JOURNAL, Holds(&[b"k 1 0 0 0 0 - 18446744073709551616 -\n"])),
        ],
        No,
        6,
        Text("journal line 1\n"),
    ),
];

/// A journal is fetched after the image and read after the room.
static UNREAD: [Case; 4] = [
    (
        &REPLAY,
        &[HALTING, (JOURNAL, Filled(b'c', 67_108_864, &[]))],
        No,
        6,
        Text("journal line 1\n"),
    ),
    (
        &REPLAY,
        &[HALTING, (JOURNAL, Filled(b'c', PAST_THE_LIMIT, &[]))],
        No,
        7,
        Text("longer journal 67108864\n"),
    ),
    (
        &REPLAY,
        &[HALTING, (JOURNAL, Holds(&[]))],
        Fetch(1),
        3,
        Text("unread image\n"),
    ),
    (
        &REPLAY,
        &[HALTING, (JOURNAL, Holds(&[]))],
        Fetch(2),
        3,
        Text("unread journal\n"),
    ),
];

/// A journal's name has no file, or what comes before isn't so; and a line may be cut.
static UNNAMED: [Case; 5] = [
    (
        &["replay", NAME, "512", "none"],
        &[HALTING, (JOURNAL, Holds(&[]))],
        No,
        3,
        Text("unread journal\n"),
    ),
    (
        &["replay", NAME, "512", "none"],
        &[(NAME, Code(&[&[0x0f, 0x30]])), (JOURNAL, Holds(&[]))],
        No,
        1,
        Text("protected ffffffff80000000 0f30\n"),
    ),
    (
        &REPLAY,
        &[(NAME, Nops(2_000_000, &[])), (JOURNAL, Holds(&[b"\n"]))],
        No,
        1,
        Text("noroom 559 512\n"),
    ),
    // A line may be cut.
    (
        &REPLAY,
        &[HALTING, (JOURNAL, Holds(&[]))],
        Put(1, 2),
        4,
        Text("ro"),
    ),
    (
        &REPLAY,
        &[HALTING, (JOURNAL, Holds(&[]))],
        Put(2, 2),
        4,
        Text("root 5\ntr"),
    ),
];

/// Other words are no replay.
static OTHER_WORDS: [&[&str]; 4] = [
    &["replay", NAME, "512"],
    &["replay", NAME, "512", JOURNAL, JOURNAL],
    &["replay", NAME, JOURNAL, "512"],
    &["Replay", NAME, "512", JOURNAL],
];

#[test]
fn replays_are_as_worked_out(rt: HostRuntime) -> Result<(), Fail> {
    let tables = [
        Cases(&REPLAYED),
        Cases(&LEFT),
        Cases(&REFUSED),
        Cases(&MISPLACED),
        Cases(&ENDED),
        Cases(&WITHOUT_END),
        Cases(&UNENDED),
        Cases(&UNFORMED),
        Cases(&TOO_LONG),
        Cases(&UNREAD),
        Cases(&UNNAMED),
        Forms(&OTHER_WORDS),
    ];
    assert_eq!(rt; first_other(rt.alloc(), &tables)?, None);
    Ok(())
}

/// What a replay says of a line that is cut off, by the number of the lines before it. The fourth line is the end.
static CUT_OFF: [&str; 4] = [
    "journal line 1\n",
    "journal line 2\n",
    "journal line 3\n",
    "journal line 4\n",
];

/// How many lines of a text are ended.
fn count_ends(text: &[u8]) -> usize {
    let mut count = 0usize;
    for byte in text {
        if *byte == b'\n' {
            count = count.saturating_add(1);
        }
    }
    count
}

/// Whether a replay of the front gives what it should.
fn is_judged(alloc: Global, front: &[u8], behind: &[u8]) -> Result<bool, Fail> {
    let is_whole = front.is_empty() || front.ends_with(b"\n") || behind.starts_with(b"\n");
    let mut files = shelf_of(alloc, &[TABLES], &[])?;
    files.push((String::from_str(alloc, JOURNAL)?, front.to_vec(alloc)?))?;
    let ran = run_over(alloc, &REPLAY, files, &[], &[], 0)?;
    match CUT_OFF.get(count_ends(front)) {
        Some(line) if !is_whole => Ok(gives(&ran, 6, line)),
        _ => Ok(ran.status == 0 && ran.text.starts_with(OPENED.as_bytes())),
    }
}

/// A journal that is cut off within a line is refused at that line, and behind a whole line it has fewer calls.
#[test]
fn a_journal_may_be_cut_off(rt: HostRuntime) -> Result<(), Fail> {
    for cut in 0..DECLARED.len() + 1 {
        let (front, behind) = DECLARED.as_bytes().split_at(cut);
        assert!(rt; is_judged(rt.alloc(), front, behind)?, "{cut}");
    }
    Ok(())
}
