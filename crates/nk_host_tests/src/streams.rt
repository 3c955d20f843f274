//! Readers and writers of std with their faults counted.

use Step::{Faults, Fill, Go, ReadAll, Size, WriteAll};
use nk_host::{
    Counted, FetchFault, PieceFault, Placed, SinkFault, fill, fill_from, read_whole, write_whole,
};
use std::alloc::Global;
use std::io::{Cursor, Error, ErrorKind, Read, Result as IoResult, Seek, SeekFrom, Write};
use test_kit::first_wrong;

/// A reader and a writer of so many single bytes, which then fails.
#[derive(Drop)]
struct Halting {
    left: u64,
    kind: ErrorKind,
}

impl Read for Halting {
    fn read(&mut self, block: &mut [u8]) -> IoResult<usize> {
        if self.left == 0 {
            return Err(Error::from(self.kind));
        }
        if block.is_empty() {
            return Ok(0);
        }
        self.left -= 1;
        block[0] = 7;
        Ok(1)
    }
}

impl Write for Halting {
    fn write(&mut self, bytes: &[u8]) -> IoResult<usize> {
        if self.left == 0 {
            return if self.kind == ErrorKind::WriteZero {
                Ok(0)
            } else {
                Err(Error::from(self.kind))
            };
        }
        self.left -= 1;
        Ok(bytes.len().min(1))
    }

    fn flush(&mut self) -> IoResult<()> {
        Ok(())
    }
}

// It has no end to go to.
impl Seek for Halting {
    fn seek(&mut self, _to: SeekFrom) -> IoResult<u64> {
        Err(Error::from(ErrorKind::NotSeekable))
    }
}

/// What is asked of the stream, and what it is to answer.
#[derive(Clone, Copy)]
enum Step {
    /// The most bytes that all may be, and why they aren't read.
    ReadAll(u64, Option<FetchFault>),
    /// The bytes that are written.
    WriteAll(&'static [u8], Result<(), SinkFault>),
    /// How many bytes a block has, at most three; where it is filled, each is 7.
    Fill(usize, Result<(), PieceFault>),
    /// The length.
    Size(Result<u64, PieceFault>),
    /// A place that it goes to.
    Go(u64, Result<(), PieceFault>),
    /// The count of faults.
    Faults(u64),
}

// Functions without exact contracts hide those that they call: the tests run the code, and their
// proofs stay short.

fn read_fault(alloc: Global, from: &mut Counted<Halting>, most: u64) -> Option<FetchFault> {
    read_whole(alloc, from, most).err()
}

fn written(to: &mut Counted<Halting>, bytes: &[u8]) -> Result<(), SinkFault> {
    write_whole(to, bytes)
}

fn is_filled(from: &mut Counted<Halting>, len: usize, wanted: Result<(), PieceFault>) -> bool {
    let mut block = [0; 3];
    let filled = fill(from, &mut block[..len.min(3)]);
    filled == wanted && (filled.is_err() || block[..len.min(3)] == [7, 7, 7][..len.min(3)])
}

/// Whether a step is answered so.
fn is_met(alloc: Global, stream: &mut Counted<Halting>, step: &Step) -> bool {
    match *step {
        ReadAll(most, wanted) => read_fault(alloc, stream, most) == wanted,
        WriteAll(bytes, wanted) => written(stream, bytes) == wanted,
        Fill(len, wanted) => is_filled(stream, len, wanted),
        Size(wanted) => stream.size() == wanted,
        Go(at, wanted) => stream.go_to(at) == wanted,
        Faults(wanted) => stream.faults() == wanted,
    }
}

/// The index of the first step that is answered otherwise, of a stream that had five faults before.
fn wrong_step(alloc: Global, left: u64, kind: ErrorKind, steps: &[Step]) -> Option<usize> {
    let mut stream = Counted::after(Halting { left, kind }, 5);
    first_wrong(steps, |step| is_met(alloc, &mut stream, step))
}

/// How many bytes the stream takes or gives before it fails, and how; steps, and the index of the
/// first that is answered otherwise.
type Case = (u64, ErrorKind, &'static [Step], Option<usize>);

static CASES: [Case; 6] = [
    // A read that halts is a fault.
    (
        3,
        ErrorKind::Interrupted,
        &[ReadAll(9, Some(FetchFault::Failed)), Faults(6)],
        None,
    ),
    (
        100,
        ErrorKind::Other,
        &[ReadAll(9, Some(FetchFault::Longer)), Faults(5)],
        None,
    ),
    // A write that halts is a fault.
    (
        3,
        ErrorKind::Interrupted,
        &[
            WriteAll(b"abc", Ok(())),
            WriteAll(b"d", Err(SinkFault)),
            Faults(6),
        ],
        None,
    ),
    (
        0,
        ErrorKind::WriteZero,
        &[WriteAll(b"a", Err(SinkFault)), Faults(6)],
        None,
    ),
    // A block is filled by single bytes.
    (
        3,
        ErrorKind::Interrupted,
        &[
            Fill(3, Ok(())),
            Fill(0, Ok(())),
            Faults(5),
            Fill(3, Err(PieceFault::Failed)),
            Faults(6),
            Size(Err(PieceFault::Failed)),
            Faults(7),
            Go(0, Err(PieceFault::Failed)),
            Faults(8),
        ],
        None,
    ),
    // A wrong step is found, at its place.
    (
        3,
        ErrorKind::Interrupted,
        &[Fill(3, Ok(())), Faults(6), Fill(3, Err(PieceFault::Failed))],
        Some(1),
    ),
];

#[test]
fn what_halts_is_a_fault(rt: HostRuntime) {
    for (left, kind, steps, wrong) in &CASES {
        assert!(rt; wrong_step(rt.alloc(), *left, *kind, steps) == *wrong);
    }
}

/// Fills the block from a place on; the reader after that, its faults, and how that ended.
fn filled<F: Read + Seek>(
    from: Placed<F>,
    faults: u64,
    at: u64,
    block: &mut [u8],
) -> (Placed<F>, u64, Result<(), PieceFault>) {
    let Placed { file, stands } = from;
    let mut stands = stands;
    let mut reader = Counted::after(file, faults);
    let answer = fill_from(&mut reader, &mut stands, at, block);
    let faults = reader.faults();
    (Placed::new(reader.into_inner(), stands), faults, answer)
}

/// Whether the block was filled by these bytes, or wasn't for this fault.
fn is_block(
    answer: Result<(), PieceFault>,
    block: &[u8],
    wanted: Result<&[u8], PieceFault>,
) -> bool {
    match wanted {
        Ok(bytes) => answer.is_ok() && block == bytes,
        Err(fault) => answer == Err(fault),
    }
}

/// A place, the three bytes from it on or why they can't be read, and the count of faults after
/// that.
type Piece = (u64, Result<&'static [u8], PieceFault>, u64);

/// The index of the first piece of `abcdef` that is read otherwise, by a reader that had five
/// faults before, and was asked for its length.
fn wrong_piece(rows: &[Piece]) -> Option<usize> {
    let mut reader = Counted::after(Cursor::new(b"abcdef".as_slice()), 5);
    if reader.size() != Ok(6) {
        return Some(0);
    }
    let mut faults = reader.faults();
    let mut from = Placed::new(reader.into_inner(), None);
    for (index, row) in rows.iter().enumerate() {
        let mut block = [0; 3];
        let (after, count, answer) = filled(from, faults, row.0, &mut block);
        from = after;
        faults = count;
        if !is_block(answer, &block, row.1) || faults != row.2 {
            return Some(index);
        }
    }
    None
}

static PIECES: [(&[Piece], Option<usize>); 3] = [
    (
        &[
            (2, Ok(b"cde"), 5),
            (3, Ok(b"def"), 5),
            (4, Err(PieceFault::Failed), 6),
        ],
        None,
    ),
    // The second row's bytes are wrong, and then its count.
    (&[(2, Ok(b"cde"), 5), (3, Ok(b"dee"), 5)], Some(1)),
    (
        &[(2, Ok(b"cde"), 5), (4, Err(PieceFault::Failed), 5)],
        Some(1),
    ),
];

#[test]
fn a_block_is_filled_from_its_place(rt: HostRuntime) {
    for (rows, wrong) in &PIECES {
        assert!(rt; wrong_piece(rows) == *wrong);
    }
}

/// A reader of twelve bytes, each of which is its place. It gives one at a read, counts its reads and
/// how often it is moved, and fails once, at the read of that number.
#[derive(Drop)]
struct Places {
    at: u8,
    reads: u64,
    seeks: u64,
    failing: u64,
}

impl Read for Places {
    fn read(&mut self, block: &mut [u8]) -> IoResult<usize> {
        self.reads = self.reads.saturating_add(1);
        if self.reads == self.failing {
            return Err(Error::from(ErrorKind::Other));
        }
        if block.is_empty() || self.at >= 12 {
            return Ok(0);
        }
        block[0] = self.at;
        self.at += 1;
        Ok(1)
    }
}

impl Seek for Places {
    fn seek(&mut self, to: SeekFrom) -> IoResult<u64> {
        match to {
            SeekFrom::Start(at) if at <= 12 => {
                self.seeks = self.seeks.saturating_add(1);
                self.at = at as u8;
                Ok(at)
            }
            _ => Err(Error::from(ErrorKind::NotSeekable)),
        }
    }
}

/// A place, the two bytes from it on or why they can't be read, and how often the reader was moved by
/// then.
type Move = (u64, Result<&'static [u8], PieceFault>, u64);

/// The index of the first row that is read otherwise, by a reader that stands at 7, which isn't
/// known, and fails at its eighth read.
fn wrong_move(rows: &[Move]) -> Option<usize> {
    let places = Places {
        at: 7,
        reads: 0,
        seeks: 0,
        failing: 8,
    };
    let mut from = Placed::new(places, None);
    for (index, row) in rows.iter().enumerate() {
        let mut block = [0; 2];
        let (after, _, answer) = filled(from, 0, row.0, &mut block);
        from = after;
        if !is_block(answer, &block, row.1) || from.file.seeks != row.2 {
            return Some(index);
        }
    }
    None
}

static MOVES: [(&[Move], Option<usize>); 3] = [
    (
        &[
            (3, Ok(&[3, 4]), 1),
            (5, Ok(&[5, 6]), 1),
            (1, Ok(&[1, 2]), 2),
            (3, Err(PieceFault::Failed), 2),
            (3, Ok(&[3, 4]), 3),
            (11, Err(PieceFault::Failed), 4),
            (10, Ok(&[10, 11]), 5),
        ],
        None,
    ),
    // The second row's bytes are wrong, and then its count.
    (&[(3, Ok(&[3, 4]), 1), (5, Ok(&[5, 7]), 1)], Some(1)),
    (&[(3, Ok(&[3, 4]), 1), (5, Ok(&[5, 6]), 2)], Some(1)),
];

#[test]
fn a_reader_is_moved_where_it_stands_elsewhere(rt: HostRuntime) {
    for (rows, wrong) in &MOVES {
        assert!(rt; wrong_move(rows) == *wrong);
    }
}
