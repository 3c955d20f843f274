//! The machine's files.

use crate::content::Content::{Counting, Text, Zeros};
use crate::content::{Content, bytes_of, has, is_file, repeated};
use Step::{Get, Read, Remove, Size, Write};
use nk_host::FetchFault::{Failed, Longer};
use nk_host::{FetchFault, FileShelf, PieceFault, Shelf};
use std::alloc::Global;
use std::fs;
use std::rt::Files;
use test_kit::first_wrong_case;

/// What is done with the machine's files, or asked of a shelf of them.
#[derive(Clone, Copy)]
enum Step {
    /// A file is written.
    Write(&'static str, Content),
    /// A file is removed.
    Remove(&'static str),
    /// A file's name, the most bytes that it may have, and the file.
    Get(&'static str, u64, Result<Content, FetchFault>),
    /// A file's name, the most bytes that it may have, and its length.
    Size(&'static str, u64, Result<u64, FetchFault>),
    /// A file's name, a place, how many bytes are read from it on, and the bytes.
    Read(&'static str, u64, usize, Result<Content, PieceFault>),
}

fn is_written<R: Files>(rt: &R, alloc: Global, name: &str, content: Content) -> bool {
    match bytes_of(alloc, content) {
        Some(bytes) => fs::write(rt, name, bytes.as_slice()).is_ok(),
        None => false,
    }
}

fn is_piece<R: Files>(
    shelf: &mut FileShelf<'_, R>,
    alloc: Global,
    name: &str,
    at: u64,
    len: usize,
    wanted: Result<Content, PieceFault>,
) -> bool {
    let Some(mut into) = repeated(alloc, 0, len) else {
        return false;
    };
    let read = shelf.piece(alloc, name, at, &mut into);
    match wanted {
        Ok(content) => read.is_ok() && has(&into, content),
        Err(fault) => read == Err(fault),
    }
}

/// Whether a step gives what it is to give.
fn is_met<R: Files>(rt: &R, shelf: &mut FileShelf<'_, R>, alloc: Global, step: &Step) -> bool {
    match *step {
        Write(name, content) => is_written(rt, alloc, name, content),
        Remove(name) => fs::remove_file(rt, name).is_ok(),
        Get(name, most, wanted) => is_file(shelf.fetch(alloc, name, most), wanted),
        Size(name, most, wanted) => shelf.size(alloc, name, most) == wanted,
        Read(name, at, len, wanted) => is_piece(shelf, alloc, name, at, len, wanted),
    }
}

/// The index of the first step that gives something else, on a new shelf. Those after it are
/// taken too: they remove the files.
fn wrong_step<R: Files>(rt: &R, alloc: Global, steps: &[Step]) -> Option<usize> {
    let mut shelf = FileShelf::new(rt);
    let mut wrong = None;
    for (index, step) in steps.iter().enumerate() {
        if !is_met(rt, &mut shelf, alloc, step) && wrong.is_none() {
            wrong = Some(index);
        }
    }
    wrong
}

/// The index of the first case that has a wrong step, and of that step in it.
fn wrong_case<R: Files>(rt: &R, alloc: Global, cases: &[&[Step]]) -> Option<(usize, usize)> {
    first_wrong_case(cases, |steps| wrong_step(rt, alloc, steps))
}

static FETCHED: [&[Step]; 2] = [
    &[
        Write("fetched.tmp", Zeros(5000)),
        Get("fetched.tmp", 5000, Ok(Zeros(5000))),
        Get("fetched.tmp", 4999, Err(Longer)),
        Remove("fetched.tmp"),
        Get("fetched.tmp", 5000, Err(Failed)),
        Get(".", 5000, Err(Failed)),
        Get("/dev/zero", 10, Err(Longer)),
    ],
    // many blocks of reads: nothing but memory and the caller's limit bounds a file
    &[
        Write("long.tmp", Zeros(1_000_000)),
        Get("long.tmp", 1_000_000, Ok(Zeros(1_000_000))),
        Remove("long.tmp"),
    ],
];

#[test]
fn the_machine_s_files_are_fetched(rt: HostRuntime) {
    assert_eq!(rt; wrong_case(&rt, rt.alloc(), &FETCHED), None);
}

static IN_PIECES: [&[Step]; 4] = [
    &[
        Write("pieces.tmp", Counting(0, 5000)),
        Size("pieces.tmp", 5000, Ok(5000)),
        Size("pieces.tmp", 4999, Err(Longer)),
        Read("pieces.tmp", 0, 1, Ok(Counting(0, 1))),
        Read("pieces.tmp", 1, 1, Ok(Counting(1, 1))),
        Read("pieces.tmp", 451, 1, Ok(Counting(451, 1))),
        Read("pieces.tmp", 4999, 1, Ok(Counting(4999, 1))),
        Read("pieces.tmp", 0, 2, Ok(Counting(0, 2))),
        Read("pieces.tmp", 1, 2, Ok(Counting(1, 2))),
        Read("pieces.tmp", 451, 2, Ok(Counting(451, 2))),
        Read("pieces.tmp", 4998, 2, Ok(Counting(4998, 2))),
        Read("pieces.tmp", 0, 4096, Ok(Counting(0, 4096))),
        Read("pieces.tmp", 1, 4096, Ok(Counting(1, 4096))),
        Read("pieces.tmp", 451, 4096, Ok(Counting(451, 4096))),
        Read("pieces.tmp", 904, 4096, Ok(Counting(904, 4096))),
        Read("pieces.tmp", 5000, 0, Ok(Counting(5000, 0))),
        Read("pieces.tmp", 4999, 2, Err(PieceFault::Failed)),
        Remove("pieces.tmp"),
    ],
    // a file that shrinks is a fault
    &[
        Write("shrinks.tmp", Text(b"twelve bytes")),
        Size("shrinks.tmp", 12, Ok(12)),
        Write("shrinks.tmp", Text(b"four")),
        Read("shrinks.tmp", 2, 4, Err(PieceFault::Failed)),
        Read("shrinks.tmp", 8, 4, Err(PieceFault::Failed)),
        Read("shrinks.tmp", 0, 4, Ok(Text(b"four"))),
        Remove("shrinks.tmp"),
    ],
    // each piece is of its own file
    &[
        Write("a.tmp", Text(b"of a")),
        Write("b.tmp", Text(b"of b")),
        Size("a.tmp", 4, Ok(4)),
        Read("b.tmp", 3, 1, Ok(Text(b"b"))),
        Read("a.tmp", 3, 1, Ok(Text(b"a"))),
        Read("a.tmp", 0, 4, Ok(Text(b"of a"))),
        Remove("a.tmp"),
        Remove("b.tmp"),
    ],
    // what has no piece is a fault
    &[
        Write("empty.tmp", Text(b"")),
        Size("empty.tmp", 0, Ok(0)),
        Read("empty.tmp", 0, 0, Ok(Text(b""))),
        Read("empty.tmp", 0, 1, Err(PieceFault::Failed)),
        Read("empty.tmp", u64::MAX, 1, Err(PieceFault::Failed)),
        Read(".", 0, 1, Err(PieceFault::Failed)),
        Read("missing.tmp", 0, 1, Err(PieceFault::Failed)),
        Remove("empty.tmp"),
        Size(".", u64::MAX, Err(Failed)),
        Size("missing.tmp", u64::MAX, Err(Failed)),
    ],
];

#[test]
fn files_on_disk_are_read_in_pieces(rt: HostRuntime) {
    assert_eq!(rt; wrong_case(&rt, rt.alloc(), &IN_PIECES), None);
}

/// The second case's steps 1 and 2 are wrong.
static WRONG: [&[Step]; 2] = [
    &[Size("missing.tmp", 5, Err(Failed))],
    &[
        Write("wrong.tmp", Text(b"bytes")),
        Read("wrong.tmp", 1, 2, Ok(Text(b"by"))),
        Size("wrong.tmp", 5, Ok(4)),
        Remove("wrong.tmp"),
    ],
];

#[test]
fn a_wrong_step_is_found(rt: HostRuntime) {
    assert_eq!(rt; wrong_case(&rt, rt.alloc(), &WRONG), Some((1, 1)));
}
