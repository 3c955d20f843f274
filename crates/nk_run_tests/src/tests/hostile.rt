//! Hostile files, and ends that fail at each of their calls.
use super::cases::Failing::No;
use super::cases::File::{Changed, Cut, Holds, Segments};
use super::cases::Table::Cases;
use super::cases::Wanted::Text;
use super::cases::{Case, File, HALTING, HALTS, INPUT, JOURNAL, LIST, PLAN, first_other, shelf_of};
use super::run::{NO_INPUT, NO_PLAN};
use super::{CODE, NAME, Ran, SCAN, Segment, gives, run_over};
use std::alloc::Global;
use std::test::Fail;

/// The names of the other files.
const MODULE: &str = "a";

const TEXT: &str = "text";

/// Each fault has its line: those of the file's header.
static FILE_FAULTS: [Case; 5] = [
    (
        &SCAN,
        &[(NAME, Changed(&[(3, &[0x47])]))],
        No,
        1,
        Text("image 2 Magic 0\n"),
    ),
    (
        &SCAN,
        &[(NAME, Changed(&[(4, &[1])]))],
        No,
        1,
        Text("image 3 Class 4\n"),
    ),
    (
        &SCAN,
        &[(NAME, Changed(&[(5, &[2])]))],
        No,
        1,
        Text("image 3 Class 5\n"),
    ),
    (
        &SCAN,
        &[(NAME, Changed(&[(16, &[3])]))],
        No,
        1,
        Text("image 4 FileType 16\n"),
    ),
    (
        &SCAN,
        &[(NAME, Changed(&[(18, &[3])]))],
        No,
        1,
        Text("image 5 Machine 18\n"),
    ),
];

/// Those of the table.
static TABLE_FAULTS: [Case; 4] = [
    (
        &SCAN,
        &[(NAME, Changed(&[(54, &[57])]))],
        No,
        1,
        Text("image 6 Table 54\n"),
    ),
    (
        &SCAN,
        &[(NAME, Changed(&[(56, &[0])]))],
        No,
        1,
        Text("image 6 Table 56\n"),
    ),
    (
        &SCAN,
        &[(NAME, Changed(&[(56, &[65])]))],
        No,
        1,
        Text("image 6 Table 56\n"),
    ),
    (
        &SCAN,
        &[(NAME, Changed(&[(32, &[0xff; 8])]))],
        No,
        1,
        Text("image 6 Table 32\n"),
    ),
];

/// Those of a segment.
static SEGMENT_FAULTS: [Case; 4] = [
    (
        &SCAN,
        &[(NAME, Changed(&[(96, &[2])]))],
        No,
        1,
        Text("image 7 SegmentRange 0\n"),
    ),
    (
        &SCAN,
        &[(NAME, Changed(&[(80, &[1])]))],
        No,
        1,
        Text("image 8 Align 0\n"),
    ),
    (
        &SCAN,
        &[(NAME, Changed(&[(104, &[0]), (111, &[0x80])]))],
        No,
        1,
        Text("image 9 OutsideHome 0\n"),
    ),
    (
        &SCAN,
        &[(NAME, Changed(&[(68, &[7])]))],
        No,
        1,
        Text("image 11 WritableCode 0\n"),
    ),
];

/// Those of the entry and of the size; the largest image is admitted.
static ENTRY_FAULTS: [Case; 4] = [
    (
        &SCAN,
        &[(NAME, Changed(&[(68, &[4])]))],
        No,
        1,
        Text("image 12 BadEntry 24\n"),
    ),
    (
        &SCAN,
        &[(NAME, Changed(&[(107, &[2])]))],
        No,
        1,
        Text("image 13 TooLarge 8193\n"),
    ),
    (
        &SCAN,
        &[(NAME, Changed(&[(24, &[0; 8])]))],
        No,
        1,
        Text("image 12 BadEntry 24\n"),
    ),
    (
        &SCAN,
        &[(NAME, Changed(&[(104, &[0]), (107, &[2])]))],
        No,
        0,
        Text("admitted entry ffffffff80000000 pages 8192\n"),
    ),
];

/// The segment and the entry at 1000, below the home of images.
const LOW: [(usize, &[u8]); 2] = [
    (80, &[0, 0x10, 0, 0, 0, 0, 0, 0]),
    (24, &[0, 0x10, 0, 0, 0, 0, 0, 0]),
];

/// The segment of the halting kernel.
const PAGE: Segment = Segment {
    memory: 1,
    bytes: &HALTS,
    ..CODE
};

/// A segment is whole and lies alone at home.
static ALONE: [Case; 6] = [
    (&SCAN, &[(NAME, Cut(0))], No, 1, Text("image 1 Short 0\n")),
    (&SCAN, &[(NAME, Cut(63))], No, 1, Text("image 1 Short 63\n")),
    (&SCAN, &[(NAME, Cut(64))], No, 1, Text("image 6 Table 32\n")),
    (
        &SCAN,
        &[(NAME, Cut(4096))],
        No,
        1,
        Text("image 7 SegmentRange 0\n"),
    ),
    (
        &SCAN,
        &[(NAME, Changed(&LOW))],
        No,
        1,
        Text("image 9 OutsideHome 0\n"),
    ),
    // The first program header twice, so that both segments have the page.
    (
        &SCAN,
        &[(NAME, Segments(&[PAGE, PAGE]))],
        No,
        1,
        Text("image 10 SharedPage 1\n"),
    ),
];

const REPLAY: [&str; 4] = ["replay", NAME, "512", JOURNAL];

/// A journal is judged by its calls.
static JUDGED: [Case; 4] = [
    (
        &REPLAY,
        &[HALTING, (JOURNAL, Holds(&[b"k 0 0 0 0 0 - 1 -\n"]))],
        No,
        0,
        Text("root 5\ntrap ffffff80000011da\n"),
    ),
    (
        &REPLAY,
        &[HALTING, (JOURNAL, Holds(&[b"k 0 0 0 0 0 - 0 -\n"]))],
        No,
        6,
        Text("journal line 1\n"),
    ),
    (
        &REPLAY,
        &[HALTING, (JOURNAL, Holds(&[b"K\n"]))],
        No,
        6,
        Text("journal line 1\n"),
    ),
    (
        &REPLAY,
        &[HALTING, (JOURNAL, Holds(&[b"k 1 0 0 0 0 - 0 -\n"]))],
        No,
        0,
        Text("root 5\ntrap 0000000000000000\n"),
    ),
];

#[test]
fn hostile_files_have_their_lines(rt: HostRuntime) -> Result<(), Fail> {
    let tables = [
        Cases(&FILE_FAULTS),
        Cases(&TABLE_FAULTS),
        Cases(&SEGMENT_FAULTS),
        Cases(&ENTRY_FAULTS),
        Cases(&ALONE),
        Cases(&JUDGED),
    ];
    assert_eq!(rt; first_other(rt.alloc(), &tables)?, None);
    Ok(())
}

/// The halting kernel, an input and a plan without bytes, a journal of one call that gives a region of 64 bytes whose
/// writes are logged, a list of one module of RET, and a text of RET.
static FILES: [(&str, File); 7] = [
    HALTING,
    NO_INPUT,
    NO_PLAN,
    (JOURNAL, Holds(&[b"k 7 40 4 0 0 - 256 ffffff8000010000\n"])),
    (LIST, Holds(&[b"pack a"])),
    (MODULE, Holds(&[&[0xc3]])),
    (TEXT, Holds(&[b"ret.64 - value 0"])),
];

/// A command's words, the line that each of its own calls of the shelf has where it fails, and how many calls of the sink
/// it makes.
struct Calls {
    words: &'static [&'static str],
    unread: &'static [&'static str],
    puts: u64,
}

/// Each command once, over the halting kernel. `scan` asks for its file's size, first bytes, table and page.
static EACH: [Calls; 10] = [
    Calls {
        words: &["scan", NAME],
        unread: &[
            "unread image\n",
            "unread image\n",
            "unread image\n",
            "unread image\n",
        ],
        puts: 1,
    },
    Calls {
        words: &["map", NAME, "512", "0"],
        unread: &["unread image\n"],
        puts: 1,
    },
    Calls {
        words: &["run", NAME, INPUT, PLAN, "10", "512"],
        unread: &["unread image\n", "unread input\n", "unread plan\n"],
        puts: 4,
    },
    Calls {
        words: &["replay", NAME, "512", JOURNAL],
        unread: &["unread image\n", "unread journal\n"],
        puts: 3,
    },
    Calls {
        words: &["make", "1"],
        unread: &[],
        puts: 4,
    },
    Calls {
        words: &["work", "1"],
        unread: &[],
        puts: 7,
    },
    Calls {
        words: &["join", NAME, LIST],
        unread: &["unread image\n", "unread list\n", "unread module\n"],
        puts: 4,
    },
    Calls {
        words: &["audit", NAME, "512", JOURNAL, "256"],
        unread: &["unread image\n", "unread journal\n"],
        puts: 3,
    },
    Calls {
        words: &["asm", TEXT],
        unread: &["unread text\n"],
        puts: 1,
    },
    Calls {
        words: &["list", NAME, "ffffffff80000000", "1"],
        unread: &["unread image\n"],
        puts: 1,
    },
];

/// What a command gives where a call of the shelf or of the sink fails, by their numbers, 0 for none.
fn give(alloc: Global, calls: &Calls, fetch: u64, put: u64, cut: usize) -> Result<Ran, Fail> {
    run_over(
        alloc,
        calls.words,
        shelf_of(alloc, &FILES, &[])?,
        &[fetch],
        &[put],
        cut,
    )
}

/// Whether the command ends as it does where no call fails.
fn is_same(ran: &Ran, whole: &Ran) -> bool {
    ran.status == 0 && ran.text.as_slice() == whole.text.as_slice()
}

/// Whether a call of the shelf that fails is told by the role of its file where the command makes it, and else changes
/// nothing; `place` is the number of the calls before it.
fn is_told(alloc: Global, calls: &Calls, whole: &Ran, place: usize) -> Result<bool, Fail> {
    let ran = give(alloc, calls, (place as u64).saturating_add(1), 0, 0)?;
    match calls.unread.get(place) {
        Some(line) => Ok(gives(&ran, 3, line)),
        None => Ok(is_same(&ran, whole)),
    }
}

/// How many of the first six calls of the shelf are told as they should be, up to the first other one.
fn count_told(alloc: Global, calls: &Calls) -> Result<usize, Fail> {
    let whole = give(alloc, calls, 0, 0, 0)?;
    for place in 0..6 {
        if whole.status != 0 || !is_told(alloc, calls, &whole, place)? {
            return Ok(place);
        }
    }
    Ok(6)
}

/// How many bytes stand in the first lines of a text, so many of them.
fn bytes_of_lines(text: &[u8], count: u64) -> usize {
    let mut lines = 0u64;
    let mut bytes = 0usize;
    for byte in text {
        if lines < count {
            bytes = bytes.saturating_add(1);
        }
        if *byte == b'\n' {
            lines = lines.saturating_add(1);
        }
    }
    bytes
}

/// How many bytes of a text stand before a put that has so many before it: lines go out one by one, and an image, a
/// joined file and code in pieces of 4,096 bytes.
fn before(calls: &Calls, text: &[u8], puts: u64) -> usize {
    if matches!(calls.words.first(), Some(&"make" | &"join" | &"asm")) {
        return (puts as usize).saturating_mul(4096);
    }
    bytes_of_lines(text, puts)
}

/// Whether a put that fails, with so many before it, ends the command with what was taken: a prefix of the text.
fn is_cut(alloc: Global, calls: &Calls, whole: &Ran, puts: u64, cut: usize) -> Result<bool, Fail> {
    let ran = give(alloc, calls, 0, puts.saturating_add(1), cut)?;
    let taken = before(calls, &whole.text, puts).saturating_add(cut);
    Ok(ran.status == 4 && ran.text.len() == taken && whole.text.starts_with(&ran.text))
}

/// How many puts end the command as they should where they fail, up to the first other one, with or without a byte; the
/// one behind the last is never made.
fn count_cut(alloc: Global, calls: &Calls) -> Result<u64, Fail> {
    let whole = give(alloc, calls, 0, 0, 0)?;
    for puts in 0..calls.puts {
        if !is_cut(alloc, calls, &whole, puts, 0)? || !is_cut(alloc, calls, &whole, puts, 1)? {
            return Ok(puts);
        }
    }
    let ran = give(alloc, calls, 0, calls.puts.saturating_add(1), 0)?;
    Ok(calls.puts.saturating_add(u64::from(is_same(&ran, &whole))))
}

#[test]
fn each_call_of_the_shelf_and_of_the_sink_may_fail(rt: HostRuntime) -> Result<(), Fail> {
    let alloc = rt.alloc();
    for calls in &EACH {
        let counts = (count_told(alloc, calls)?, count_cut(alloc, calls)?);
        assert_eq!(rt; counts, (6, calls.puts.saturating_add(1)));
    }
    Ok(())
}
