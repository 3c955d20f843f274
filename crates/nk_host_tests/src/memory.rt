//! Files and output in memory.

use crate::content::Content::{Text, Zeros};
use crate::content::{Content, bytes_of, is_file, repeated};
use Out::{All, Line};
use nk_host::FetchFault::{Failed, Longer};
use nk_host::{FetchFault, MemShelf, MemSink, PIECE, Pieces, Shelf, Sink, SinkFault, put_all};
use std::alloc::Global;
use test_kit::first_wrong;

/// A file's name, the most bytes that it may have, and the file.
type Fetch = (&'static str, u64, Result<Content, FetchFault>);

fn named(alloc: Global, name: &str, content: Content) -> Option<(String, Vec<u8>)> {
    String::from_str(alloc, name)
        .ok()
        .zip(bytes_of(alloc, content))
}

pub(crate) fn four_files(alloc: Global, failing: &[u64]) -> Option<MemShelf> {
    let files = vec![in alloc;
        named(alloc, "one", Text(b"first"))?,
        named(alloc, "two", Text(b""))?,
        named(alloc, "one", Text(b"second"))?,
        named(alloc, "long", Zeros(1_000_000))?,
    ];
    MemShelf::new(alloc, files.ok()?, failing.to_vec(alloc).ok()?).ok()
}

// Over any shelf, which hides the exact contract of one: the tests run the code, and their proofs
// stay short.
fn wrong_of<S: Shelf>(shelf: &mut S, alloc: Global, rows: &[Fetch]) -> Option<usize> {
    first_wrong(rows, |row| is_file(shelf.fetch(alloc, row.0, row.1), row.2))
}

/// The index of the first fetch that is answered otherwise, where those of some numbers fail. Want
/// of memory fails at 0.
fn wrong_fetch(alloc: Global, failing: &[u64], rows: &[Fetch]) -> Option<usize> {
    match four_files(alloc, failing) {
        Some(mut shelf) => wrong_of(&mut shelf, alloc, rows),
        None => Some(0),
    }
}

static NONE_FAILS: [Fetch; 5] = [
    ("one", 5, Ok(Text(b"first"))),
    ("two", 0, Ok(Text(b""))),
    ("one", 4, Err(Longer)),
    ("three", 9, Err(Failed)),
    ("long", 1_000_000, Ok(Zeros(1_000_000))),
];

#[test]
fn the_first_file_of_a_name_counts(rt: HostRuntime) {
    assert_eq!(rt; wrong_fetch(rt.alloc(), &[], &NONE_FAILS), None);
}

/// The fetches 2 and 3 fail.
static TWO_FAIL: [Fetch; 4] = [
    ("one", 5, Ok(Text(b"first"))),
    ("one", 5, Err(Failed)),
    ("one", 4, Err(Failed)),
    ("one", 5, Ok(Text(b"first"))),
];

#[test]
fn a_fetch_fails_at_its_number(rt: HostRuntime) {
    assert_eq!(rt; wrong_fetch(rt.alloc(), &[2, 3], &TWO_FAIL), None);
}

/// The second of each two is wrong.
#[rattlefmt::skip]
static WRONG: [[Fetch; 2]; 3] = [
    [("one", 5, Ok(Text(b"first"))), ("one", 5, Ok(Text(b"second")))],
    [("one", 5, Ok(Text(b"first"))), ("one", 4, Err(Failed))],
    [("one", 5, Ok(Text(b"first"))), ("two", 0, Err(Failed))],
];

#[test]
fn a_wrong_row_is_found(rt: HostRuntime) {
    for rows in &WRONG {
        assert_eq!(rt; wrong_fetch(rt.alloc(), &[], rows), Some(1));
    }
}

fn sink(alloc: Global, room: usize, failing: &[u64], cut: usize) -> Option<MemSink> {
    MemSink::new(alloc, room, failing.to_vec(alloc).ok()?, cut).ok()
}

/// Bytes that are put, whether all are taken, and what was taken by then.
type Put = (&'static [u8], Result<(), SinkFault>, &'static [u8]);

/// A sink with room for ten bytes, of which the puts 2 and 4 of some bytes fail and take at most
/// three bytes.
static PUTS: [Put; 6] = [
    (b"abcd", Ok(()), b"abcd"),
    (b"", Ok(()), b"abcd"),
    (b"efgh", Err(SinkFault), b"abcdefg"),
    (b"ij", Ok(()), b"abcdefgij"),
    (b"klm", Err(SinkFault), b"abcdefgijk"),
    (b"n", Err(SinkFault), b"abcdefgijk"),
];

fn put<O: Sink>(out: &mut O, bytes: &[u8]) -> Result<(), SinkFault> {
    out.put(bytes)
}

fn is_taken(out: &MemSink, bytes: &[u8]) -> bool {
    out.taken() == bytes
}

/// The index of the first put that is answered otherwise, or leaves other bytes. Want of memory
/// fails at 0.
fn wrong_put(alloc: Global, rows: &[Put]) -> Option<usize> {
    let Some(mut out) = sink(alloc, 10, &[2, 4], 3) else {
        return Some(0);
    };
    first_wrong(
        rows,
        |row| put(&mut out, row.0) == row.1 && is_taken(&out, row.2),
    )
}

#[test]
fn a_put_is_cut_at_its_number_and_at_the_room(rt: HostRuntime) {
    assert_eq!(rt; wrong_put(rt.alloc(), &PUTS), None);
}

/// What goes out in pieces.
#[derive(Clone, Copy)]
enum Out {
    /// So many zeros.
    All(usize),
    /// So many bytes `a`, the two digits of a byte, and a line's end.
    Line(usize, u8),
}

/// What goes out, the number of the put that fails, and how many bytes that put takes at most;
/// whether all went out, how many bytes did, and the last of them.
type Going = (Out, u64, usize, bool, usize, &'static [u8]);

static TEXTS: [Going; 19] = [
    (All(0), 1, 0, true, 0, b""),
    (All(4096), 1, 0, false, 0, b""),
    (All(4096), 2, 0, true, 4096, b""),
    (All(4097), 2, 0, false, 4096, b""),
    (All(4097), 3, 0, true, 4097, b""),
    (All(8192), 2, 0, false, 4096, b""),
    (All(8192), 3, 0, true, 8192, b""),
    // lines whose ends meet the end of a piece
    (Line(4093, 0), 1, 0, false, 0, b""),
    (Line(4093, 0), 2, 0, true, 4096, b"a00\n"),
    (Line(4094, 0), 2, 0, false, 4096, b"a00"),
    (Line(4094, 0), 3, 0, true, 4097, b"a00\n"),
    (Line(8189, 0), 2, 0, false, 4096, b"aaaa"),
    (Line(8189, 0), 3, 0, true, 8192, b"a00\n"),
    // digits of each kind
    (Line(1, 0x00), 2, 0, true, 4, b"a00\n"),
    (Line(1, 0x09), 2, 0, true, 4, b"a09\n"),
    (Line(1, 0xA0), 2, 0, true, 4, b"aa0\n"),
    (Line(1, 0xFF), 2, 0, true, 4, b"aff\n"),
    // a cut line leaves a prefix
    (Line(2, 0x1E), 1, 3, false, 3, b"aa1"),
    (Line(4095, 0x1E), 2, 1, false, 4097, b"a1e"),
];

fn push_line<O: Sink>(
    pieces: &mut Pieces,
    out: &mut O,
    text: &[u8],
    byte: u8,
) -> Result<(), SinkFault> {
    pieces.push_all(out, text)?;
    pieces.push_hex(out, byte)?;
    pieces.push(out, b'\n')?;
    pieces.finish(out)
}

/// Whether all went out, where there is memory for it.
fn goes_out<O: Sink>(alloc: Global, out: &mut O, text: Out) -> Option<bool> {
    match text {
        All(len) => Some(put_all(out, &repeated(alloc, 0, len)?).is_ok()),
        Line(len, byte) => {
            let text = repeated(alloc, b'a', len)?;
            Some(push_line(&mut Pieces::new(), out, &text, byte).is_ok())
        }
    }
}

fn is_met(alloc: Global, row: &Going) -> bool {
    let Some(mut out) = sink(alloc, 3 * PIECE, &[row.1], row.2) else {
        return false;
    };
    goes_out(alloc, &mut out, row.0) == Some(row.3)
        && out.taken().len() == row.4
        && out.taken().ends_with(row.5)
}

#[test]
fn texts_go_out_in_pieces(rt: HostRuntime) {
    assert_eq!(rt; first_wrong(&TEXTS, |row| is_met(rt.alloc(), row)), None);
}

/// The second put is answered otherwise, and the third leaves other bytes.
static WRONG_PUTS: [Put; 3] = [
    (b"abcd", Ok(()), b"abcd"),
    (b"efgh", Ok(()), b"abcdefg"),
    (b"ij", Ok(()), b"abcdefg"),
];

/// The second row is of too many bytes, and the third of another end.
static WRONG_TEXTS: [Going; 3] = [
    (Line(1, 0x1E), 2, 0, true, 4, b"a1e\n"),
    (Line(1, 0x1E), 2, 0, true, 5, b"a1e\n"),
    (Line(1, 0x1E), 2, 0, true, 4, b"ae1\n"),
];

#[test]
fn a_wrong_row_of_output_is_found(rt: HostRuntime) {
    assert_eq!(rt; wrong_put(rt.alloc(), &WRONG_PUTS), Some(1));
    assert_eq!(rt;
        first_wrong(&WRONG_TEXTS, |row| is_met(rt.alloc(), row)),
        Some(1)
    );
}
