//! Files in memory that are read in pieces, with fetches and sizes between.

ghost use Rattle.nk_host.specs.Files.{IsWithin};
ghost use Rattle.nk_host.specs.Told.{IfTold};

use crate::memory::four_files;
use Step::{Get, Read, Size};
use nk_host::FetchFault::{Failed, Longer};
use nk_host::{FetchFault, MemShelf, PieceFault, Shelf};
use std::alloc::Global;
use test_kit::first_wrong;

/// What is asked of the shelf, and what it is to answer.
#[derive(Clone, Copy)]
enum Step {
    /// A file's name, the most bytes that it may have, and why it isn't fetched, if it isn't.
    Get(&'static str, u64, Option<FetchFault>),
    /// A file's name, the most bytes that it may have, and its length.
    Size(&'static str, u64, Result<u64, FetchFault>),
    /// A file's name, a place, how many bytes are read from it on, and the bytes.
    Read(&'static str, u64, usize, Result<&'static [u8], PieceFault>),
}

// Over any shelf, which hides the exact contract of one: the tests run the code, and their proofs
// stay short.

fn fault<S: Shelf>(shelf: &mut S, alloc: Global, name: &str, most: u64) -> Option<FetchFault> {
    shelf.fetch(alloc, name, most).err()
}

fn size<S: Shelf>(shelf: &mut S, alloc: Global, name: &str, most: u64) -> Result<u64, FetchFault> {
    shelf.size(alloc, name, most)
}

/// Whether the piece is these bytes, or fails so.
fn is_piece<S: Shelf>(
    shelf: &mut S,
    alloc: Global,
    name: &str,
    at: u64,
    len: usize,
    wanted: Result<&[u8], PieceFault>,
) -> bool
    requires { IfTold (S.files shelf.old) (λ held. IsWithin held name.now at len) }
{
    let Ok(mut into) = vec![in alloc; 0; len] else {
        return false;
    };
    let read = shelf.piece(alloc, name, at, &mut into);
    match wanted {
        Ok(bytes) => read.is_ok() && into.as_slice() == bytes,
        Err(fault) => read == Err(fault),
    }
}

/// Whether a step is answered so. A file may not be asked for more than it has.
fn is_met(shelf: &mut MemShelf, alloc: Global, step: &Step) -> bool {
    match *step {
        Get(name, most, wanted) => fault(shelf, alloc, name, most) == wanted,
        Size(name, most, wanted) => size(shelf, alloc, name, most) == wanted,
        Read(name, at, len, wanted) => {
            shelf.is_within(name, at, len) && is_piece(shelf, alloc, name, at, len, wanted)
        }
    }
}

/// The index of the first step that is answered otherwise, where the reads of some numbers fail.
/// Want of memory fails at 0.
fn wrong_step(alloc: Global, failing: &[u64], steps: &[Step]) -> Option<usize> {
    let Some(mut shelf) = four_files(alloc, failing) else {
        return Some(0);
    };
    first_wrong(steps, |step| is_met(&mut shelf, alloc, step))
}

/// The reads that fail, steps, and the index of the first that is answered otherwise.
type Case = (&'static [u64], &'static [Step], Option<usize>);

static CASES: [Case; 3] = [
    // A file is read in pieces.
    (
        &[],
        &[
            Size("one", 5, Ok(5)),
            Size("one", 4, Err(Longer)),
            Size("two", 0, Ok(0)),
            Size("three", 9, Err(Failed)),
            Read("one", 0, 5, Ok(b"first")),
            Read("one", 0, 1, Ok(b"f")),
            Read("one", 1, 3, Ok(b"irs")),
            Read("one", 4, 1, Ok(b"t")),
            Read("one", 5, 0, Ok(b"")),
            Read("three", 0, 5, Err(PieceFault::Failed)),
        ],
        None,
    ),
    // Fetches, sizes and pieces are counted together.
    (
        &[2, 3, 4],
        &[
            Size("one", 5, Ok(5)),
            Read("one", 0, 5, Err(PieceFault::Failed)),
            Get("one", 5, Some(Failed)),
            Size("one", 4, Err(Failed)),
            Read("one", 1, 3, Ok(b"irs")),
            Get("one", 5, None),
            Size("one", 5, Ok(5)),
        ],
        None,
    ),
    // A wrong step is found, at its place.
    (
        &[],
        &[
            Read("one", 0, 5, Ok(b"first")),
            Read("one", 1, 3, Ok(b"fir")),
            Size("one", 5, Ok(5)),
        ],
        Some(1),
    ),
];

#[test]
fn reads_are_answered(rt: HostRuntime) {
    for (failing, steps, wrong) in &CASES {
        assert!(rt; wrong_step(rt.alloc(), failing, steps) == *wrong);
    }
}
