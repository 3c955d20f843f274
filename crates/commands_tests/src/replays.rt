//! Journals on the opening of an image of one byte, F4. In 512 frames its page is frame 67, the direct map's tables are
//! 68, 69 and 70, and frame 71 is the first free one, which entry 71 of frame 70 maps for writing. The handler stands
//! in memory from 2000 on, the pool from A000 on.

mod grants;

ghost use Rattle.std.specs.Prelude.{◌≡◌, IfSome};
ghost use Rattle.nk_body.specs.NestedRecord.{HoldsBooks, books_in};
ghost use Rattle.nk_body.specs.SourceWords.{opening_ledger};

use boot_map::{Layout, prepare};
use elf_image::Image;
use nk_bits::Kind;
use nk_body::Kernel;
use phys_mem::PhysMem;
use replay_core::{ReplayFault, replay};
use std::alloc::{AllocError, Global};
use std::process::Abort;
use std::test::Fail;
use test_kit::halting_file;

/// The handler at the opening: the halt loop of the gates' text.
const HALTS: u64 = 0xFFFF_FF80_0000_11DA;

/// The opening's leaf of frame 71: P, R/W, A, D and XD.
const WRITABLE: u64 = 0x8000_0000_0004_7063;

/// Books, and the memory that they are of.
#[derive(Drop)]
struct Opened {
    kernel: Kernel,
    mem: PhysMem,
}

/// Memory and books of the opening; None for want of memory.
fn open(alloc: Global) -> Option<Opened>
    ensures books { IfSome result (λ it. HoldsBooks it.kernel it.mem) }
    ensures ledger { IfSome result (λ it. (books_in it.kernel it.mem).ledger ≡ opening_ledger) }
{
    let Ok(file) = halting_file(alloc) else {
        return None;
    };
    let Ok(image) = Image::read(file) else {
        return None;
    };
    let Ok(layout) = Layout::of(&image, 512) else {
        return None;
    };
    let Ok(mut mem) = prepare(alloc, &image, &layout) else {
        return None;
    };
    match Kernel::start(alloc, &mut mem, &image, &layout) {
        Ok(kernel) => Some(Opened { kernel, mem }),
        Err(_) => None,
    }
}

/// What a replay leaves: the root and the handler, the handler in memory, entry 71 of frame 70, the kind of frame 71,
/// the next identifier, how many regions live and how many writes are logged, region, offset and length of the first of
/// these, if any, and the first eight bytes of the pool.
#[derive(Clone, Copy, PartialEq)]
struct State {
    root: u32,
    trap: u64,
    slot: u64,
    leaf: u64,
    kind: Kind,
    next: u64,
    regions: usize,
    records: u64,
    first: Option<(u64, u32, u32)>,
    pool: u64,
}

/// What stands at the opening.
const OPENING: State = State {
    root: 5,
    trap: HALTS,
    slot: HALTS,
    leaf: WRITABLE,
    kind: Kind::Data,
    next: 256,
    regions: 0,
    records: 0,
    first: None,
    pool: 0,
};

/// A table of level 1 is declared, and mapped no longer for writing.
const DECLARED: State = State {
    leaf: 0x8000_0000_0004_7021,
    kind: Kind::Table(1),
    ..OPENING
};

/// There is no handler.
const WITHOUT_HANDLER: State = State {
    trap: 0,
    slot: 0,
    ..OPENING
};

/// Another handler is set.
const OTHER_HANDLER: State = State {
    trap: 0x5000,
    slot: 0x5000,
    ..OPENING
};

/// A region of sixteen bytes lives.
const GRANTED: State = State {
    next: 257,
    regions: 1,
    ..OPENING
};

/// Four bytes of it are written.
const STORED: State = State {
    pool: 0x0403_0201,
    ..GRANTED
};

/// Of two regions the second is freed, and nine bytes of the first were written.
const WRITTEN: State = State {
    next: 258,
    regions: 1,
    records: 1,
    first: Some((256, 0, 9)),
    pool: 0x0908_0706_0504_0302,
    ..OPENING
};

/// A region of eight bytes is freed, of which the last four were written: they stay in the pool.
const FREED: State = State {
    next: 257,
    records: 1,
    first: Some((256, 4, 4)),
    pool: 0x0403_0201_0000_0000,
    ..OPENING
};

/// A region of eight bytes is allocated, its last four bytes are written where nine would not fit, and it is freed.
const WRITE_AND_FREE: &str = "k 7 8 4 0 0 - 256 ffffff8000010000
k 9 100 4 ffff800000047000 5 - 21 -
k 9 100 4 ffff800000047000 4 01020304 0 -
k 8 100 0 0 0 - 0 -
end halted
";

/// What stands before a text and behind it.
type Around = (&'static str, &'static str);

const ALONE: Around = ("", "");

const IN_A_REGION: Around = ("k 7 10 1 0 0 - 256 ffffff8000010000\n", "\nK\n");

const BEFORE_A_CALL: Around = ("", "\nk 1 6000 0 0 0 - 0 -\n");

const BETWEEN: Around = ("c 41\n", "\nk 1 6000 0 0 0 - 0 -\n");

/// A journal or a part of one, the number of the first line that isn't right, if any, and what the replay leaves.
type Row = (&'static str, Option<u64>, State);

/// A part of a journal so many times, with what stands around.
fn text(alloc: Global, around: Around, times: usize, part: &str) -> Result<Vec<u8>, AllocError> {
    let mut whole = Vec::new(alloc);
    for i in 0..times.saturating_add(2) {
        let next = if i == 0 {
            around.0
        } else if i > times {
            around.1
        } else {
            part
        };
        whole.extend_from_slice(next.as_bytes())?;
    }
    Ok(whole)
}

/// The number at a place of memory.
fn load(mem: &PhysMem, at: u64) -> u64 {
    if at < 0x1000_0000 && at + 8 <= 4096 * u64::from(mem.frames()) {
        mem.load64(at)
    } else {
        u64::MAX
    }
}

/// Region, offset and length of the first write in the log, if any.
fn first_write(kernel: &Kernel, mem: &PhysMem) -> Option<(u64, u32, u32)>
    requires { HoldsBooks kernel.now mem.now }
{
    if kernel.log().len() == 0 {
        None
    } else {
        let noted = kernel.log().entry(mem, 0);
        Some((noted.region, noted.offset, noted.length))
    }
}

/// What books and memory are.
fn seen(kernel: &Kernel, mem: &PhysMem) -> State
    requires { HoldsBooks kernel.now mem.now }
{
    State {
        root: kernel.root(),
        trap: kernel.trap(),
        slot: load(mem, 0x2000),
        leaf: load(mem, 0x46238),
        kind: kernel.tables().frames.kind(mem, 71),
        next: kernel.regions().next(),
        regions: kernel.regions().count(),
        records: kernel.log().len(),
        first: first_write(kernel, mem),
        pool: load(mem, 0xA000),
    }
}

/// Whether this line of a journal is the first that isn't right, and the replay leaves this. False for want of memory.
fn leaves(alloc: Global, journal: &[u8], line: Option<u64>, state: &State) -> bool {
    let Some(mut it) = open(alloc) else {
        return false;
    };
    let bad = match replay(alloc, &mut it.kernel, &mut it.mem, journal) {
        Ok(()) => None,
        Err(ReplayFault::Line(number)) => Some(number),
        Err(ReplayFault::Memory) => return false,
    };
    bad == line && seen(&it.kernel, &it.mem) == *state
}

/// Each row's part, with what stands around, stops at its line, if any, and leaves what it says.
fn assert_rows(
    rt: &impl Abort,
    alloc: Global,
    around: Around,
    rows: &[Row],
) -> Result<(), AllocError> {
    for (index, (part, line, state)) in rows.iter().enumerate() {
        let journal = text(alloc, around, 1, part)?;
        assert!(rt; leaves(alloc, &journal, *line, state), "row {index}");
    }
    Ok(())
}

#[rattlefmt::skip]
static ACCEPTED: [Row; 4] = [
    // A run's text: a frame becomes a page table, and a store through the direct map faults.
    ("k 3 46 47 8000000000047021 0 - 0 -
k 2 1 47 8000000000047021 0 - 0 -
i 14 3 ffffffff8000004e ffff800000047000
end halted
turns 62
root 5
trap ffffff80000011da
f 71 table1
t 70 71 8000000000047021
", None, DECLARED),
    ("k 1 0 0 0 0 - 0 -", None, WITHOUT_HANDLER),
    ("c 41
k 7 40 4 0 0 - 256 ffffff8000010000
k 7 ffff 1 0 0 - 18 -
k 7 10 3 5 6 - 257 ffffff8000010040
k 9 100 0 ffff800000047000 9 02030405060708090a 0 -
i 32 - ffffff8000001010 -
k 8 101 0 0 0 - 0 -
k 8 101 0 0 0 - 19 -
k 9 100 40 ffff800000047000 1 - 21 -
k 9 100 0 1000 4 ! 22 -
", None, WRITTEN),
    // The write in the log ends with the region that was asked for.
    (WRITE_AND_FREE, None, FREED),
];

#[rattlefmt::skip]
static REFUSED: [Row; 1] = [
    ("k 0 0 0 0 0 - 1 -
k ffffffffffffffff ffffffffffffffff ffffffffffffffff ffffffffffffffff ffffffffffffffff - 1 -
k 1 800000000000 0 0 0 - 27 -
k 2 9 258 0 0 - 2 -
k 3 46 47 47003 0 - 9 -
k 4 5 0 0 0 - 12 -
k 5 47 0 0 0 - 14 -
k 6 ffff800000047000 1000 1 0 - 5 -
k 7 0 1 0 0 - 15 -
k 8 100 0 0 0 - 19 -
k 9 100 0 0 4 - 19 -
end steps", None, OPENING),
];

#[test]
fn accepted_calls_are_made(rt: HostRuntime) -> Result<(), Fail> {
    assert_rows(&rt, rt.alloc(), ALONE, &ACCEPTED)?;
    Ok(())
}

#[test]
fn refused_calls_change_nothing(rt: HostRuntime) -> Result<(), Fail> {
    assert_rows(&rt, rt.alloc(), ALONE, &REFUSED)?;
    Ok(())
}

#[rattlefmt::skip]
static ENDED: [Row; 8] = [
    ("", None, OPENING),
    ("c 41\n", None, OPENING),
    ("c 41", None, OPENING),
    ("end halted", None, OPENING),
    ("end steps\n", None, OPENING),
    ("end steps\n\nrubbish\r\n\0", None, OPENING),
    ("end halted\nk 1 0 0 0 0 - 0 -\n", None, OPENING),
    ("c 00\nend steps\nend\n", None, OPENING),
];

#[test]
fn nothing_behind_the_end_counts(rt: HostRuntime) -> Result<(), Fail> {
    assert_rows(&rt, rt.alloc(), ALONE, &ENDED)?;
    Ok(())
}

#[rattlefmt::skip]
static OUT_OF_FORM: [Row; 17] = [
    ("\n", Some(1), OPENING),
    ("c 41\n\nend halted\n", Some(2), OPENING),
    ("c 41\r\n", Some(1), OPENING),
    ("c 41\n\0\n", Some(2), OPENING),
    ("c 41\nc 4A\n", Some(2), OPENING),
    ("K", Some(1), OPENING),
    ("root 5\n", Some(1), OPENING),
    ("k 1 00000000000000000 0 0 0 - 0 -", Some(1), OPENING),
    ("k 1 10000000000000000 0 0 0 - 0 -", Some(1), OPENING),
    ("k 1 0 0 0 0 - 18446744073709551616 -", Some(1), OPENING),
    ("k 1 A 0 0 0 - 0 -", Some(1), OPENING),
    ("k 1 0 0 0 0 - 0 - ", Some(1), OPENING),
    ("k 1 0 0 0 0 - 0 -\r\n", Some(1), OPENING),
    ("k 1 0 0 0 0 - 0 - 0", Some(1), OPENING),
    ("i 48 - ffffffff80000000 -", Some(1), OPENING),
    ("i 14 0 ffffffff80000000 -", Some(1), OPENING),
    ("c 41\nc 42\nc 43\nend", Some(4), OPENING),
];

#[test]
fn lines_out_of_form_stop(rt: HostRuntime) -> Result<(), Fail> {
    assert_rows(&rt, rt.alloc(), ALONE, &OUT_OF_FORM)?;
    Ok(())
}

/// What is noted of a source must be what the call takes; else the call isn't made.
#[rattlefmt::skip]
static SOURCES: [Row; 15] = [
    ("k 9 100 0 1000 4 - 0 -", Some(2), GRANTED),
    ("k 9 100 0 1000 4 - 22 -", Some(2), GRANTED),
    ("k 9 100 0 1000 4 010203 0 -", Some(2), GRANTED),
    ("k 9 100 0 1000 4 0102030405 0 -", Some(2), GRANTED),
    ("k 9 100 0 1000 4 0102030 0 -", Some(2), GRANTED),
    ("k 9 100 0 1000 4 010203xx 0 -", Some(2), GRANTED),
    ("k 9 100 0 1000 4 0102030A 0 -", Some(2), GRANTED),
    ("k 9 100 0 1000 4  0 -", Some(2), GRANTED),
    ("k 9 100 0 1000 4 ! 22 0", Some(2), GRANTED),
    ("k 9 100 d 1000 4 01020304 21 -", Some(2), GRANTED),
    ("k 9 100 d 1000 4 ! 21 -", Some(2), GRANTED),
    ("k 9 100 0 1000 0  21 -", Some(2), GRANTED),
    ("k 9 101 0 1000 4 01020304 19 -", Some(2), GRANTED),
    ("k 1 0 0 1000 4 01020304 0 -", Some(2), GRANTED),
    ("k 1 0 0 1000 4 ! 0 -", Some(2), GRANTED),
];

#[test]
fn sources_that_are_not_taken_stop(rt: HostRuntime) -> Result<(), Fail> {
    assert_rows(&rt, rt.alloc(), IN_A_REGION, &SOURCES)?;
    Ok(())
}

/// A call whose answer isn't right is made, and is the last.
#[rattlefmt::skip]
static OTHER_ANSWERS: [Row; 4] = [
    ("k 1 5000 0 0 0 - 5 -", Some(2), OTHER_HANDLER),
    ("k 1 5000 0 0 0 - 256 -", Some(2), OTHER_HANDLER),
    ("k 1 5000 0 0 0 - 18446744073709551615 -", Some(2), OTHER_HANDLER),
    ("k 1 5000 0 0 0 - 0 0000000000000000", Some(2), OTHER_HANDLER),
];

/// So is one whose answer or place isn't right.
#[rattlefmt::skip]
static OTHER_PLACES: [Row; 4] = [
    ("k 7 10 1 0 0 - 0 ffffff8000010000", Some(1), GRANTED),
    ("k 7 10 1 0 0 - 257 ffffff8000010000", Some(1), GRANTED),
    ("k 7 10 1 0 0 - 256 ffffff8000010010", Some(1), GRANTED),
    ("k 7 10 1 0 0 - 256 -", Some(1), GRANTED),
];

#[rattlefmt::skip]
static LAST: [Row; 2] = [
    ("k 7 10 1 0 0 - 256 ffffff8000010000\nk 9 100 0 1000 4 01020304 24 -\n", Some(2), STORED),
    ("k 1 800000000000 0 0 0 - 0 -\n", Some(1), OPENING),
];

#[test]
fn wrong_answers_stop_behind_the_call(rt: HostRuntime) -> Result<(), Fail> {
    assert_rows(&rt, rt.alloc(), BETWEEN, &OTHER_ANSWERS)?;
    assert_rows(&rt, rt.alloc(), BEFORE_A_CALL, &OTHER_PLACES)?;
    assert_rows(&rt, rt.alloc(), ALONE, &LAST)?;
    Ok(())
}

/// What stands before a part, how often that stands, the part, the number of the first line that isn't right, if any,
/// and what the replay leaves.
type Long = (&'static str, usize, &'static str, Option<u64>, State);

#[rattlefmt::skip]
static LONG: [Long; 7] = [
    // One line of a megabyte is out of form, whatever it is of.
    ("", 1_000_000, "k", Some(1), OPENING),
    ("", 1_000_000, " ", Some(1), OPENING),
    ("", 1_000_000, "\0", Some(1), OPENING),
    ("c ", 1_000_000 - 2, "4", Some(1), OPENING),
    ("k 1 ", 1_000_000 - 4, "0", Some(1), OPENING),
    ("k 9 100 0 1000 4 ", 1_000_000 - 17, "0", Some(1), OPENING),
    // A journal may hold many calls: nothing but memory bounds their number.
    ("", 5_000, "k 1 0 0 0 0 - 0 -\n", None, WITHOUT_HANDLER),
];

#[test]
fn long_journals_are_replayed(rt: HostRuntime) -> Result<(), Fail> {
    for (index, (front, times, part, line, state)) in LONG.iter().enumerate() {
        let journal = text(rt.alloc(), (*front, ""), *times, part)?;
        assert!(rt; leaves(rt.alloc(), &journal, *line, state), "row {index}");
    }
    Ok(())
}

/// The number of the line of which a cut leaves a part, where it doesn't leave whole lines.
fn line_cut_off(text: &[u8], cut: usize) -> Option<u64> {
    let (front, behind) = text.split_at_checked(cut)?;
    if matches!(front, [] | [.., b'\n']) || matches!(behind, [] | [b'\n', ..]) {
        return None;
    }
    let mut line = 1u64;
    for byte in front {
        if *byte == b'\n' {
            line = line.wrapping_add(1);
        }
    }
    Some(line)
}

static CUT: &str = "c 41\nk 7 10 1 0 0 - 256 ffffff8000010000\ni 6 - ffffffff80000000 -\nend steps";

/// What a cut before byte 40 leaves, and one behind it, which leaves the call.
static BEFORE_CALL: State = OPENING;

static BEHIND_CALL: State = GRANTED;

/// A journal that is cut off anywhere is right to its last whole line, and a part of a line isn't.
#[test]
fn a_journal_may_be_cut_off(rt: HostRuntime) {
    let text = CUT.as_bytes();
    for cut in 0..text.len() + 1 {
        let state = if cut < 40 { &BEFORE_CALL } else { &BEHIND_CALL };
        assert!(rt;
            leaves(rt.alloc(), &text[..cut], line_cut_off(text, cut), state),
            "cut at {cut}"
        );
    }
}
