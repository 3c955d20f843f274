//! Worked cases of the command line, over a shelf and a sink in memory.
mod audits;
mod calls;
mod cases;
mod compiled;
mod deliveries;
mod entries;
mod hostile;
mod joins;
mod journals;
mod long_files;
mod made;
mod maps;
mod policies;
mod regions;
mod run;
mod scans;
mod sources;
mod tables;
mod texts;

use cases::Failing::{No, Put};
use cases::File::{Filled, Holds, Nops, Placed, Segments};
use cases::Table::{Cases, Forms, Pages, Runs};
use cases::Wanted::{Bytes, Ending, Front, Lines, Long, Padded, Text};
use cases::{Case, HALTING, first_other, first_other_case};
use nk_host::{MemShelf, MemSink};
use nk_run::nk_main;
use std::alloc::{AllocError, Global};
use std::test::Fail;
use test_kit::{HOME, SegmentHeader, image_file, push_head, push_segment};

/// The name of the file that holds the image.
const NAME: &str = "kernel.elf";

/// The flags of a segment: what may be done with it.
const READ: u32 = 4;

const READ_EXECUTE: u32 = 5;

const READ_WRITE: u32 = 6;

/// How many bytes the sink takes, in the longest text under test.
const ROOM: usize = 524_288;

const USAGE: &str =
    "usage: nkrun scan IMAGE | map IMAGE FRAMES VA | run IMAGE INPUT PLAN STEPS FRAMES | replay IMAGE FRAMES JOURNAL | make NUMBER | work NUMBER | join IMAGE LIST | audit IMAGE FRAMES JOURNAL ID | asm TEXT | list IMAGE ADDR COUNT\n";

/// What the top call gave and wrote.
#[derive(Drop)]
struct Ran {
    status: u8,
    text: Vec<u8>,
}

/// A segment of an image under test, and where its bytes stand in the file.
#[derive(Clone, Copy)]
struct Segment<'a> {
    flags: u32,
    offset: u64,
    address: u64,
    memory: u64,
    /// How many NOPs stand before its bytes.
    nops: usize,
    bytes: &'a [u8],
}

/// A page of code: NOP; HLT.
const CODE: Segment = Segment {
    flags: READ_EXECUTE,
    offset: 4096,
    address: HOME,
    memory: 2,
    nops: 0,
    bytes: &[0x90, 0xf4],
};

/// Adds a segment's program header.
fn push_header(file: &mut Vec<u8>, segment: &Segment) -> Result<(), AllocError> {
    push_segment(
        file,
        &SegmentHeader {
            flags: segment.flags,
            offset: segment.offset,
            address: segment.address,
            file_size: segment.nops.saturating_add(segment.bytes.len()) as u64,
            memory_size: segment.memory,
        },
    )
}

/// Adds a segment's bytes, at their place in the file.
fn push_bytes(file: &mut Vec<u8>, segment: &Segment) -> Result<(), AllocError> {
    file.resize(segment.offset as usize, 0)?;
    file.resize(file.len().saturating_add(segment.nops), 0x90)?;
    file.extend_from_slice(segment.bytes)
}

/// An ELF file with these segments, in table order, whose bytes stand in the file in that order too. The entry is
/// FFFFFFFF80000000.
fn image_of(alloc: Global, segments: &[Segment]) -> Result<Vec<u8>, AllocError> {
    let mut file = Vec::new(alloc);
    push_head(&mut file, (segments.len() % 0x1_0000) as u16)?;
    for segment in segments {
        push_header(&mut file, segment)?;
    }
    for segment in segments {
        push_bytes(&mut file, segment)?;
    }
    Ok(file)
}

/// An ELF file with one program header, which loads the text from file offset 4,096 to FFFFFFFF80000000, the entry
/// there.
fn image(alloc: Global, text: &[u8]) -> Result<Vec<u8>, AllocError> {
    image_file(alloc, text, text.len() as u64)
}

fn owned(alloc: Global, words: &[&str]) -> Result<Vec<String>, AllocError> {
    let mut list = Vec::new(alloc);
    for word in words {
        list.push(String::from_str(alloc, word)?)?;
    }
    Ok(list)
}

/// Runs the words over a shelf; `failing` are the numbers of failing fetches and puts, and a failing put takes `cut` bytes.
fn run_over(
    alloc: Global,
    words: &[&str],
    files: Vec<(String, Vec<u8>)>,
    failing_fetches: &[u64],
    failing_puts: &[u64],
    cut: usize,
) -> Result<Ran, Fail> {
    let words = owned(alloc, words)?;
    let mut shelf = MemShelf::new(alloc, files, failing_fetches.to_vec(alloc)?)?;
    let mut sink = MemSink::new(alloc, ROOM, failing_puts.to_vec(alloc)?, cut)?;
    let status = nk_main(alloc, &words, &mut shelf, &mut sink);
    Ok(Ran {
        status,
        text: sink.taken().to_vec(alloc)?,
    })
}

/// The status, and whether this is what was written.
fn gives(ran: &Ran, status: u8, text: &str) -> bool {
    ran.status == status && ran.text.as_slice() == text.as_bytes()
}

const SCAN: [&str; 2] = ["scan", NAME];

/// What `scan` writes of an image with one page of code.
const ADMITTED: &str = "admitted entry ffffffff80000000 pages 1\n";

/// One byte more than a file may have.
const PAST_THE_LIMIT: usize = 67_108_865;

/// Code is searched at every address. The text is so many NOPs and then these bytes; a page that it doesn't fill is
/// padded with zeros.
static SEARCHED: [Case; 4] = [
    (&SCAN, &[(NAME, Nops(0, &[0xf4]))], No, 0, Text(ADMITTED)),
    // Inside an immediate.
    (
        &SCAN,
        &[(NAME, Nops(0, &[0x48, 0xc7, 0xc0, 0x0f, 0x22, 0xc0, 0x00]))],
        No,
        1,
        Text("protected ffffffff80000003 0f22c0\n"),
    ),
    // Across a page border.
    (
        &SCAN,
        &[(NAME, Nops(4095, &[0x0f, 0x22, 0xc0]))],
        No,
        1,
        Text("protected ffffffff80000fff 0f22c0\n"),
    ),
    // The run of pages ends before the encoding does.
    (
        &SCAN,
        &[(NAME, Nops(4094, &[0x0f, 0x22]))],
        No,
        0,
        Text(ADMITTED),
    ),
];

/// What stands behind the text counts, and the operand byte.
static DECIDED: [Case; 4] = [
    (
        &SCAN,
        &[(NAME, Nops(4094, &[0x0f, 0x30]))],
        No,
        1,
        Text("protected ffffffff80000ffe 0f30\n"),
    ),
    // Padding completes it.
    (
        &SCAN,
        &[(NAME, Nops(1, &[0x0f, 0x23]))],
        No,
        1,
        Text("protected ffffffff80000001 0f2300\n"),
    ),
    // The operand byte decides after 0F 01: LIDT from memory, and a register form.
    (
        &SCAN,
        &[(NAME, Nops(0, &[0x0f, 0x01, 0x18]))],
        No,
        1,
        Text("protected ffffffff80000000 0f0118\n"),
    ),
    (
        &SCAN,
        &[(NAME, Nops(0, &[0x0f, 0x01, 0xd8]))],
        No,
        0,
        Text(ADMITTED),
    ),
];

/// The second case has another status.
static OTHERS: [Case; 3] = [
    (&SCAN, &[HALTING], No, 0, Text(ADMITTED)),
    (&SCAN, &[HALTING], No, 1, Text(ADMITTED)),
    (&SCAN, &[HALTING], No, 0, Text(ADMITTED)),
];

/// Nothing of this is written.
static UNWRITTEN: [Case; 8] = [
    (
        &SCAN,
        &[HALTING],
        No,
        0,
        Text("admitted entry ffffffff80000000 pages 2\n"),
    ),
    (&SCAN, &[HALTING], No, 0, Bytes(b"admitted")),
    (&SCAN, &[HALTING], No, 0, Padded(&[(ADMITTED, 1)])),
    (&SCAN, &[HALTING], No, 0, Ending(&[("pages 1\n", 1)])),
    (&SCAN, &[HALTING], No, 0, Long(39, b"pages 1\n")),
    (&SCAN, &[HALTING], No, 0, Long(40, b"pages 2\n")),
    (&SCAN, &[HALTING], No, 0, Front(40)),
    (&SCAN, &[HALTING], No, 0, Lines(&[(b'a', 1)])),
];

/// The form is judged before the code.
static UNFORMED: [Case; 3] = [
    (
        &SCAN,
        &[(NAME, Holds(&[]))],
        No,
        1,
        Text("image 1 Short 0\n"),
    ),
    (
        &SCAN,
        &[(NAME, Segments(&[WRITABLE]))],
        No,
        1,
        Text("image 11 WritableCode 0\n"),
    ),
    (
        &SCAN,
        &[(NAME, Filled(0, PAST_THE_LIMIT, &[]))],
        No,
        7,
        Text("longer image 67108864\n"),
    ),
];

/// Other words have no form.
static OTHER_WORDS: [&[&str]; 18] = [
    &[],
    &["scan"],
    &["scan", NAME, NAME],
    &["Scan", NAME],
    &["join", NAME],
    &["join", NAME, NAME, NAME],
    &["--help"],
    &["run", NAME, NAME, NAME, "10", "511"],
    &["map", NAME, "512"],
    &["map", NAME, "511", "0"],
    &["map", NAME, "65537", "0"],
    &["map", NAME, "0512", "0"],
    &["map", NAME, "+512", "0"],
    &["map", NAME, "", "0"],
    &["map", NAME, "512", ""],
    &["map", NAME, "512", "0x1000"],
    &["map", NAME, "512", "0000800000000000"],
    &["map", NAME, "512", "00000000000000000"],
];

/// The second words have a form.
static FORMED: [&[&str]; 3] = [&["scan"], &SCAN, &["scan"]];

/// A failing put leaves a prefix.
static FRONTS: [Case; 2] = [
    (&SCAN, &[HALTING], Put(1, 3), 4, Text("adm")),
    (
        &["scan"],
        &[(NAME, Holds(&[]))],
        Put(1, 9),
        4,
        Text("usage: nk"),
    ),
];

/// Code that may be written: WRMSR.
const WRITABLE: Segment = Segment {
    flags: 7,
    bytes: &[0x0f, 0x30],
    ..CODE
};

/// A page of code that ends with 0F.
const FIRST: Segment = Segment {
    memory: 4096,
    nops: 4095,
    bytes: &[0x0f],
    ..CODE
};

/// The page behind it.
const SECOND: Segment = Segment {
    offset: 8192,
    address: 0xffff_ffff_8000_1000,
    bytes: &[0x22, 0xf4],
    ..CODE
};

/// As data.
const DATA: Segment = Segment {
    flags: READ,
    ..SECOND
};

/// Adjacent code pages of two segments are one run.
static ADJACENT: [Case; 3] = [
    (
        &SCAN,
        &[(NAME, Segments(&[FIRST, SECOND]))],
        No,
        1,
        Text("protected ffffffff80000fff 0f22f4\n"),
    ),
    (
        &SCAN,
        &[(NAME, Segments(&[FIRST, DATA]))],
        No,
        0,
        Text(ADMITTED),
    ),
    (
        &SCAN,
        &[(NAME, Segments(&[FIRST, FIRST]))],
        No,
        1,
        Text("image 10 SharedPage 1\n"),
    ),
];

/// What is loaded of the compiled kernel's file.
const COMPILED: [(usize, &[u8]); 4] = [
    (0, &compiled::HEADERS),
    (0xf0, &compiled::CODE),
    (0x278, &compiled::CONSTANTS),
    (0x2d0, &compiled::DATA),
];

/// What gcc and ld built of examples/outer is admitted: code, constants and data stand on one page of the file, and in
/// memory on pages of their own, the first byte of code within its page.
static BUILT: [Case; 1] = [(
    &SCAN,
    &[(NAME, Placed(&COMPILED))],
    No,
    0,
    Text("admitted entry ffffffff800000f0 pages 1\n"),
)];

#[test]
fn scans_are_as_worked_out(rt: HostRuntime) -> Result<(), Fail> {
    let tables = [
        Cases(&SEARCHED),
        Cases(&DECIDED),
        Cases(&UNFORMED),
        Cases(&FRONTS),
        Cases(&ADJACENT),
        Cases(&BUILT),
        Forms(&OTHER_WORDS),
    ];
    assert_eq!(rt; first_other(rt.alloc(), &tables)?, None);
    Ok(())
}

/// A row that doesn't give what it should is found at its place.
#[test]
fn other_rows_are_found(rt: HostRuntime) -> Result<(), Fail> {
    let alloc = rt.alloc();
    let others = [
        (Cases(&OTHERS), 1),
        (Runs(0, cases::UNCHANGED, &run::OTHERS), 1),
        (Runs(0, "", &run::OTHERS), 0),
        (Runs(1, cases::UNCHANGED, &run::OTHERS), 0),
        (Pages(&maps::KERNEL, "512", &maps::OTHERS), 1),
        (Forms(&FORMED), 1),
    ];
    for (table, place) in others {
        assert_eq!(rt;
            first_other(alloc, &[Cases(&FRONTS), table])?,
            Some((1, place))
        );
    }
    for case in &UNWRITTEN {
        assert_eq!(rt; first_other_case(alloc, &[*case])?, Some(0));
    }
    Ok(())
}
