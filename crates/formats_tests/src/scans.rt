//! Each encoding once, and what stands close to one; runs in pieces; encodings at the edges of an image's pages.

use crate::files::{Change, HOME, file_with};
use byte_scanner::{Found, Scanner, first_protected, scan};
use elf_image::Image;
use std::alloc::Global;

/// What is found.
enum Row {
    /// Bytes, and the place of the first encoding among them.
    Place(&'static [u8], Option<usize>),
    /// Six bytes of a run at address 0x1000, and what a scanner finds in them, whichever way the run is cut.
    Run([u8; 6], Option<Found>),
    /// Pieces with their addresses, and what is found with the last one. With those before it nothing is, and the
    /// scanner's end is then theirs.
    Pieces(&'static [(u64, &'static [u8])], Option<Found>),
    /// Bytes at a place of two pages of NOPs at the home's start, and what is found in them.
    Edge(Change, Option<Found>),
}

/// Rows, each with whether it is so.
#[rattlefmt::skip]
static ROWS: [(bool, Row); 59] = [
    // MOV to CR0 and DR7; WRMSR; LGDT [rax], LIDT [rax+disp8]; LMSW ax; LLDT ax, LTR [rax].
    (true, Row::Place(&[0x90, 0x0F, 0x22, 0xC0], Some(1))),
    (true, Row::Place(&[0x90, 0x0F, 0x23, 0xF8], Some(1))),
    (true, Row::Place(&[0x90, 0x0F, 0x30], Some(1))),
    (true, Row::Place(&[0x90, 0x0F, 0x01, 0x10], Some(1))),
    (true, Row::Place(&[0x90, 0x0F, 0x01, 0x58], Some(1))),
    (true, Row::Place(&[0x90, 0x0F, 0x01, 0xF0], Some(1))),
    (true, Row::Place(&[0x90, 0x0F, 0x00, 0xD0], Some(1))),
    (true, Row::Place(&[0x90, 0x0F, 0x00, 0x18], Some(1))),
    // The least place counts.
    (true, Row::Place(&[0x0F, 0x0F, 0x30, 0x0F, 0x22, 0x00], Some(1))),
    // MOV from CR0; RDMSR; SGDT [rax], VMCALL, INVLPG [rax]; SLDT ax, VERR ax.
    (true, Row::Place(&[0x0F, 0x20, 0xC0], None)),
    (true, Row::Place(&[0x0F, 0x32], None)),
    (true, Row::Place(&[0x0F, 0x01, 0x00], None)),
    (true, Row::Place(&[0x0F, 0x01, 0xD1], None)),
    (true, Row::Place(&[0x0F, 0x01, 0x38], None)),
    (true, Row::Place(&[0x0F, 0x00, 0xC0], None)),
    (true, Row::Place(&[0x0F, 0x00, 0xE0], None)),
    // Encodings that the end cuts off; no bytes.
    (true, Row::Place(&[0x0F, 0x22], None)),
    (true, Row::Place(&[0x0F, 0x01], None)),
    (true, Row::Place(&[0x0F], None)),
    (true, Row::Place(&[], None)),
    // MOV to CR0; WRMSR before MOV to DR7; LMSW ax behind an escape byte; LIDT [rax+disp8] and WRMSR at the end; VMCALL
    // and SLDT ax; MOV to a control register without its last byte.
    (
        true,
        Row::Run(
            [0x90, 0x90, 0x0F, 0x22, 0xC0, 0x90],
            Some(Found { at: 0x1002, bytes: [0x0F, 0x22, 0xC0], count: 3 }),
        ),
    ),
    (
        true,
        Row::Run(
            [0x90, 0x0F, 0x30, 0x0F, 0x23, 0xF8],
            Some(Found { at: 0x1001, bytes: [0x0F, 0x30, 0], count: 2 }),
        ),
    ),
    (
        true,
        Row::Run(
            [0x0F, 0x0F, 0x01, 0xF0, 0x90, 0x90],
            Some(Found { at: 0x1001, bytes: [0x0F, 0x01, 0xF0], count: 3 }),
        ),
    ),
    (
        true,
        Row::Run(
            [0x90, 0x90, 0x90, 0x0F, 0x01, 0x58],
            Some(Found { at: 0x1003, bytes: [0x0F, 0x01, 0x58], count: 3 }),
        ),
    ),
    (
        true,
        Row::Run(
            [0x90, 0x90, 0x90, 0x90, 0x0F, 0x30],
            Some(Found { at: 0x1004, bytes: [0x0F, 0x30, 0], count: 2 }),
        ),
    ),
    (true, Row::Run([0x0F, 0x01, 0xD1, 0x0F, 0x00, 0xC0], None)),
    (true, Row::Run([0x90, 0x90, 0x90, 0x90, 0x0F, 0x22], None)),
    // MOV to CR0 and WRMSR, which the second piece completes, but not behind a gap.
    (
        true,
        Row::Pieces(
            &[(0x1000, &[0x90, 0x0F]), (0x1002, &[0x22, 0xC0])],
            Some(Found { at: 0x1001, bytes: [0x0F, 0x22, 0xC0], count: 3 }),
        ),
    ),
    (true, Row::Pieces(&[(0x1000, &[0x90, 0x0F]), (0x1003, &[0x22, 0xC0])], None)),
    (true, Row::Pieces(&[(0x1000, &[0x90, 0x0F]), (0x1004, &[0x22, 0xC0])], None)),
    (true, Row::Pieces(&[(0x1000, &[0x90, 0x0F]), (0x2002, &[0x22, 0xC0])], None)),
    (
        true,
        Row::Pieces(
            &[(0x1000, &[0x0F, 0x22]), (0x1002, &[0xC0, 0x90])],
            Some(Found { at: 0x1000, bytes: [0x0F, 0x22, 0xC0], count: 3 }),
        ),
    ),
    (true, Row::Pieces(&[(0x1000, &[0x0F, 0x22]), (0x1003, &[0xC0, 0x90])], None)),
    (true, Row::Pieces(&[(0x1000, &[0x0F, 0x22]), (0x1004, &[0xC0, 0x90])], None)),
    (true, Row::Pieces(&[(0x1000, &[0x0F, 0x22]), (0x2002, &[0xC0, 0x90])], None)),
    (
        true,
        Row::Pieces(
            &[(0x1000, &[0x90, 0x0F]), (0x1002, &[0x30, 0x90])],
            Some(Found { at: 0x1001, bytes: [0x0F, 0x30, 0], count: 2 }),
        ),
    ),
    (true, Row::Pieces(&[(0x1000, &[0x90, 0x0F]), (0x1003, &[0x30, 0x90])], None)),
    (true, Row::Pieces(&[(0x1000, &[0x90, 0x0F]), (0x1004, &[0x30, 0x90])], None)),
    (true, Row::Pieces(&[(0x1000, &[0x90, 0x0F]), (0x2002, &[0x30, 0x90])], None)),
    // WRMSR behind the gap, where it stands.
    (
        true,
        Row::Pieces(
            &[(0x1000, &[0x90, 0x0F]), (0x1003, &[0x0F, 0x30])],
            Some(Found { at: 0x1003, bytes: [0x0F, 0x30, 0], count: 2 }),
        ),
    ),
    // WRMSR around an empty piece; the same with a gap before it.
    (
        true,
        Row::Pieces(
            &[(0x1000, &[0x0F]), (0x1001, &[]), (0x1001, &[0x30])],
            Some(Found { at: 0x1000, bytes: [0x0F, 0x30, 0], count: 2 }),
        ),
    ),
    (true, Row::Pieces(&[(0x1000, &[0x0F]), (0x1002, &[]), (0x1002, &[0x30])], None)),
    // Encodings at the edges of pages.
    (true, Row::Edge((0, 2, 0x30_0F), Some(Found { at: HOME, bytes: [0x0F, 0x30, 0], count: 2 }))),
    (true, Row::Edge((4094, 3, 0xC0_22_0F), Some(Found { at: HOME + 4094, bytes: [0x0F, 0x22, 0xC0], count: 3 }))),
    (true, Row::Edge((4095, 3, 0xC0_22_0F), Some(Found { at: HOME + 4095, bytes: [0x0F, 0x22, 0xC0], count: 3 }))),
    (true, Row::Edge((4095, 2, 0x30_0F), Some(Found { at: HOME + 4095, bytes: [0x0F, 0x30, 0], count: 2 }))),
    (true, Row::Edge((4095, 2, 0x23_0F), Some(Found { at: HOME + 4095, bytes: [0x0F, 0x23, 0x90], count: 3 }))),
    (true, Row::Edge((8189, 3, 0xF0_01_0F), Some(Found { at: HOME + 8189, bytes: [0x0F, 0x01, 0xF0], count: 3 }))),
    (true, Row::Edge((8190, 2, 0x30_0F), Some(Found { at: HOME + 8190, bytes: [0x0F, 0x30, 0], count: 2 }))),
    // The code ends before the third byte, and before the second.
    (true, Row::Edge((8190, 2, 0x22_0F), None)),
    (true, Row::Edge((8191, 1, 0x0F), None)),
    // A right row, and one with another place.
    (true, Row::Place(&[0x90, 0x0F, 0x30], Some(1))),
    (false, Row::Place(&[0x90, 0x0F, 0x30], Some(0))),
    // WRMSR, and as if it weren't found.
    (
        true,
        Row::Run(
            [0x90, 0x90, 0x90, 0x90, 0x0F, 0x30],
            Some(Found { at: 0x1004, bytes: [0x0F, 0x30, 0], count: 2 }),
        ),
    ),
    (false, Row::Run([0x90, 0x90, 0x90, 0x90, 0x0F, 0x30], None)),
    // Nothing found, and what is found before the last piece.
    (true, Row::Pieces(&[(0x1000, &[0x0F]), (0x1001, &[0x90])], None)),
    (false, Row::Pieces(&[(0x1000, &[0x0F, 0x30]), (0x1002, &[0x90])], None)),
    // Nothing found, and as if WRMSR weren't.
    (true, Row::Edge((8191, 1, 0x0F), None)),
    (false, Row::Edge((8190, 2, 0x30_0F), None)),
];

/// Gives a scanner its next piece. None where it can't take it.
fn give(scanner: &mut Scanner, at: u64, piece: &[u8]) -> Option<Option<Found>> {
    if scanner.end() > at || at >= u64::MAX - 8192 || piece.len() > 8192 {
        return None;
    }
    Some(scanner.feed(at, piece))
}

/// Where a run is cut into pieces.
#[derive(Clone, Copy)]
enum Cuts {
    /// Behind place k where bit k is set.
    Bits(u32),
    /// Behind each so many bytes.
    Every(usize),
}

/// Whether a run is cut behind place k.
fn is_cut(cuts: Cuts, k: usize) -> bool {
    match cuts {
        Cuts::Bits(bits) => k < 32 && (bits >> k) & 1 == 1,
        Cuts::Every(size) => size > 0 && k % size == size - 1,
    }
}

/// What a scanner says of a run that is cut so. The last piece may be shorter.
fn scan_cut(run: &[u8], at: u64, cuts: Cuts) -> Option<Option<Found>> {
    let mut scanner = Scanner::new();
    let mut next = at;
    let mut from = 0;
    for k in 0..run.len() {
        if from > k {
            return None;
        }
        if k + 1 == run.len() || is_cut(cuts, k) {
            let answer = give(&mut scanner, next, &run[from..k + 1])?;
            if answer.is_some() {
                return Some(answer);
            }
            next = scanner.end();
            from = k + 1;
        }
    }
    Some(None)
}

/// Whether a scanner says so of a run, whichever way the run is cut.
fn is_found_in_every_cut(run: &[u8; 6], found: Option<Found>) -> bool {
    for cuts in 0..32 {
        if scan_cut(run, 0x1000, Cuts::Bits(cuts)) != Some(found) {
            return false;
        }
    }
    true
}

/// What a scanner says of the last piece. None where it finds something before, or has another end.
fn scan_pieces(pieces: &[(u64, &[u8])]) -> Option<Option<Found>> {
    let mut scanner = Scanner::new();
    let mut answer = None;
    for (at, piece) in pieces {
        if answer.is_some() {
            return None;
        }
        answer = give(&mut scanner, *at, piece)?;
        if answer.is_none() && scanner.end() != at.wrapping_add(piece.len() as u64) {
            return None;
        }
    }
    Some(answer)
}

/// Whether a scanner says so of a run at the home's start, in pieces of each of four sizes.
fn is_found_by_each_size(run: &[u8], found: Option<Found>) -> bool {
    for size in [1, 2, 3, 4096] {
        if scan_cut(run, HOME, Cuts::Every(size)) != Some(found) {
            return false;
        }
    }
    true
}

/// Whether it is found in so many bytes that are NOPs but for a change, at most two pages of them, and in the image of
/// a file that loads them as code.
fn is_found_in_text(alloc: Global, length: usize, change: Change, found: Option<Found>) -> bool {
    let (place, size, value) = change;
    if length > 8192 || place >= length {
        return false;
    }
    let count = length as u64;
    let changes = [(96, 8, count), (104, 8, count), (4096 + place, size, value)];
    let Some(file) = file_with(alloc, 4096 + length, 0x90, &changes) else {
        return false;
    };
    if file.len() != 4096 + length || !is_found_by_each_size(&file[4096..], found) {
        return false;
    }
    match Image::read(file) {
        Ok(image) => scan(&image) == found,
        Err(_) => false,
    }
}

fn is_so(alloc: Global, row: &Row) -> bool {
    match row {
        Row::Place(bytes, place) => first_protected(bytes) == *place,
        Row::Run(run, found) => is_found_in_every_cut(run, *found),
        Row::Pieces(pieces, found) => scan_pieces(pieces) == Some(*found),
        Row::Edge(change, found) => is_found_in_text(alloc, 8192, *change, *found),
    }
}

#[test]
fn encodings_are_found_where_they_stand(rt: HostRuntime) {
    for (index, (so, row)) in ROWS.iter().enumerate() {
        assert!(rt; is_so(rt.alloc(), row) == *so, "row {index}");
    }
}

/// A text of 4,098 bytes whose last three are a MOV to CR0, over a page's border. The zeros behind one of 4,097 bytes
/// complete an SGDT, which isn't protected.
#[test]
fn an_encoding_ends_a_text_of_a_page_and_two_bytes(rt: HostRuntime) {
    let load = (4095, 3, 0xC0_22_0F);
    let found = Found {
        at: HOME + 4095,
        bytes: [0x0F, 0x22, 0xC0],
        count: 3,
    };
    assert!(rt; is_found_in_text(rt.alloc(), 4098, load, Some(found)));
    assert!(rt; !is_found_in_text(rt.alloc(), 4098, load, None));
    assert!(rt; is_found_in_text(rt.alloc(), 4097, (4095, 2, 0x01_0F), None));
}
