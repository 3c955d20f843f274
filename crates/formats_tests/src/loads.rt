//! What a file in form loads, read as a whole and by its headers alone.

use crate::files::{Change, HOME, change_all, halting_with};
use crate::images::{LOADED, TWO, in_parts};
use elf_image::{Headers, Image, PageInfo, Part, Segment};
use std::alloc::Global;

/// What is so of an image. Pages have their numbers, from 0 on.
enum Fact {
    /// Its entry, the number of its pages, and of those that may be executed.
    Counts(u64, u32, u32),
    /// A page at this address that may be executed but not written.
    Code(u32, u64),
    /// A page that may be written but not executed.
    Data(u32, u64),
    /// A page that may only be read.
    Constants(u32, u64),
    /// A page's part of the file.
    Part(u32, Part),
    /// A page that is copied holds these bytes from this place on.
    Copied(u32, usize, &'static [u8]),
    /// The byte at an address.
    Byte(u64, u8),
    /// Whether the page of an address may be executed.
    IsCode(u64, bool),
    /// The number of its segments.
    Segments(usize),
    /// A segment, by its number from 0 on.
    Segment(usize, Segment),
}

/// A file.
enum Source {
    /// The halting one after changes.
    Changed(&'static [Change]),
    /// 64 segments of 128 pages each, one behind the other: the most headers and the most pages.
    MostSegments,
}

/// Whether the row is so, a file, and what is so of it.
type Row = (bool, Source, &'static [Fact]);

#[rattlefmt::skip]
static ROWS: [Row; 19] = [
    // The halting file's only page.
    (
        true, Source::Changed(&[]),
        &[
            Fact::Counts(HOME, 1, 1),
            Fact::Code(0, HOME),
            Fact::Byte(HOME, 0xF4),
            Fact::Byte(HOME + 1, 0),
            Fact::Copied(0, 0, &[0xF4]),
            Fact::Copied(0, 4095, &[0]),
        ],
    ),
    // Three segments that do not stand in the order of their addresses, and a header between them that is passed over.
    // The four bytes are the file's type and machine.
    (
        true,
        Source::Changed(&[
            (56, 2, 4),
            // Header 1: a note.
            (120, 4, 4), (160, 8, 1),
            // Header 2: two pages of data, past the code, with four bytes of the file from the middle of
            // the first on.
            (176, 4, 1), (180, 4, 6), (184, 8, 16), (192, 8, HOME + 0x5010), (208, 8, 4), (216, 8, 0x1000),
            // Header 3: one page that may only be read, between the two.
            (232, 4, 1), (236, 4, 4), (248, 8, HOME + 0x2FFF), (272, 8, 1),
        ]),
        &[
            Fact::Counts(HOME, 4, 1),
            Fact::Code(0, HOME),
            Fact::Constants(1, HOME + 0x2000),
            Fact::Data(2, HOME + 0x5000),
            Fact::Data(3, HOME + 0x6000),
            Fact::Copied(2, 15, &[0, 2, 0, 62, 0, 0]),
            Fact::Copied(2, 4095, &[0]),
            Fact::Byte(HOME + 0x5012, 62),
            Fact::Byte(HOME + 0x5014, 0),
            Fact::IsCode(HOME + 0xFFF, true),
            Fact::IsCode(HOME + 0x1000, false),
        ],
    ),
    // A second segment loads the file's last two bytes, one to the end of its first page, one to the start of its
    // second.
    (
        true,
        Source::Changed(&[
            TWO,
            LOADED, (124, 4, 6), (128, 8, 4095), (136, 8, HOME + 0x1FFF), (152, 8, 2), (160, 8, 0x1002),
        ]),
        &[
            Fact::Counts(HOME, 4, 1),
            Fact::Code(0, HOME),
            Fact::Part(0, Part { at: 4096, skip: 0, len: 1 }),
            Fact::Data(1, HOME + 0x1000),
            Fact::Part(1, Part { at: 4095, skip: 4095, len: 1 }),
            Fact::Data(2, HOME + 0x2000),
            Fact::Part(2, Part { at: 4096, skip: 0, len: 1 }),
            Fact::Data(3, HOME + 0x3000),
            Fact::Part(3, Part { at: 0, skip: 0, len: 0 }),
            Fact::Segments(2),
            Fact::Segment(
                1,
                Segment { flags: 6, offset: 4095, va: HOME + 0x1FFF, file_size: 2, mem_size: 0x1002 },
            ),
        ],
    ),
    (
        true, Source::MostSegments,
        &[
            Fact::Counts(HOME, 8192, 8192),
            Fact::Code(0, HOME),
            Fact::Code(127, HOME + 4096 * 127),
            Fact::Code(128, HOME + 4096 * 128),
            Fact::Code(8191, HOME + 4096 * 8191),
        ],
    ),
    // What isn't so of the halting file: each kind of fact once or more, past its ends too.
    (false, Source::Changed(&[]), &[Fact::Counts(HOME, 1, 1), Fact::Counts(HOME + 1, 1, 1)]),
    (false, Source::Changed(&[]), &[Fact::Counts(HOME, 1, 1), Fact::Counts(HOME, 2, 1)]),
    (false, Source::Changed(&[]), &[Fact::Counts(HOME, 1, 1), Fact::Counts(HOME, 1, 0)]),
    (false, Source::Changed(&[]), &[Fact::Counts(HOME, 1, 1), Fact::Code(0, HOME + 0x1000)]),
    (false, Source::Changed(&[]), &[Fact::Counts(HOME, 1, 1), Fact::Code(1, HOME)]),
    (false, Source::Changed(&[]), &[Fact::Counts(HOME, 1, 1), Fact::Data(0, HOME)]),
    (false, Source::Changed(&[]), &[Fact::Counts(HOME, 1, 1), Fact::Constants(0, HOME)]),
    (false, Source::Changed(&[]), &[Fact::Counts(HOME, 1, 1), Fact::Part(0, Part { at: 4096, skip: 0, len: 2 })]),
    (false, Source::Changed(&[]), &[Fact::Counts(HOME, 1, 1), Fact::Copied(0, 0, &[0xF4, 1])]),
    (false, Source::Changed(&[]), &[Fact::Counts(HOME, 1, 1), Fact::Copied(0, 4095, &[0, 0])]),
    (false, Source::Changed(&[]), &[Fact::Counts(HOME, 1, 1), Fact::Byte(HOME, 0xF5)]),
    (false, Source::Changed(&[]), &[Fact::Counts(HOME, 1, 1), Fact::IsCode(HOME + 0xFFF, false)]),
    (false, Source::Changed(&[]), &[Fact::Counts(HOME, 1, 1), Fact::Segments(2)]),
    (
        false,
        Source::Changed(&[]),
        &[
            Fact::Counts(HOME, 1, 1),
            Fact::Segment(0, Segment { flags: 4, offset: 4096, va: HOME, file_size: 1, mem_size: 1 }),
        ],
    ),
    (
        false,
        Source::Changed(&[]),
        &[
            Fact::Counts(HOME, 1, 1),
            Fact::Segment(1, Segment { flags: 5, offset: 4096, va: HOME, file_size: 1, mem_size: 1 }),
        ],
    ),
];

fn has_counts(image: &Image, headers: &Headers, entry: u64, pages: u32, executable: u32) -> bool {
    image.entry() == entry
        && image.pages() == pages
        && image.executable_pages() == executable
        && headers.entry() == entry
        && headers.pages() == pages
        && headers.executable_pages() == executable
}

/// Whether a page stands there, and may be written or executed, or neither.
fn has_page(
    image: &Image,
    headers: &Headers,
    i: u32,
    va: u64,
    can_write: bool,
    exec: bool,
) -> bool {
    let page = PageInfo {
        va,
        can_write,
        exec,
    };
    i < image.pages() && image.page(i) == page && i < headers.pages() && headers.page(i) == page
}

/// Whether a page that is copied over bytes of 7 holds these bytes from this place on.
fn is_copied(image: &Image, i: u32, at: usize, wanted: &[u8]) -> bool {
    let mut bytes = [7u8; 4096];
    if i >= image.pages() || at > 4096 || wanted.len() > 4096 - at {
        return false;
    }
    image.copy_page(i, &mut bytes);
    &bytes[at..at + wanted.len()] == wanted
}

fn holds(image: &Image, headers: &Headers, fact: &Fact) -> bool {
    match *fact {
        Fact::Counts(entry, pages, executable) => {
            has_counts(image, headers, entry, pages, executable)
        }
        Fact::Code(i, va) => has_page(image, headers, i, va, false, true),
        Fact::Data(i, va) => has_page(image, headers, i, va, true, false),
        Fact::Constants(i, va) => has_page(image, headers, i, va, false, false),
        Fact::Part(i, part) => i < headers.pages() && headers.part(i) == part,
        Fact::Copied(i, at, bytes) => is_copied(image, i, at, bytes),
        Fact::Byte(va, byte) => image.byte(va) == byte,
        Fact::IsCode(va, executable) => image.is_code(va) == executable,
        Fact::Segments(count) => headers.segments() == count,
        Fact::Segment(i, segment) => i < headers.segments() && headers.segment(i) == segment,
    }
}

/// Whether the file is in form, and all of this is so of it.
fn all_hold(file: Vec<u8>, facts: &[Fact]) -> bool {
    let Some(Ok(headers)) = in_parts(&file) else {
        return false;
    };
    let Ok(image) = Image::read(file) else {
        return false;
    };
    for fact in facts {
        if !holds(&image, &headers, fact) {
            return false;
        }
    }
    true
}

/// 64 segments of 128 pages each, one behind the other: the most headers and the most pages.
fn most_segments(alloc: Global) -> Option<Vec<u8>> {
    let mut file = halting_with(alloc, &[(56, 2, 64)])?;
    for i in 0..64 {
        let header = 64 + 56 * i;
        let changes = [
            (header, 4, 1),
            (header + 4, 4, 5),
            (header + 8, 8, 4096),
            (header + 16, 8, HOME + 0x8_0000 * i as u64),
            (header + 32, 8, 1),
            (header + 40, 8, 0x8_0000),
        ];
        if !change_all(&mut file, &changes) {
            return None;
        }
    }
    Some(file)
}

/// Whether there is the file, and all of this is so of it.
fn is_so(alloc: Global, source: &Source, facts: &[Fact]) -> bool {
    let file = match source {
        Source::Changed(changes) => halting_with(alloc, changes),
        Source::MostSegments => most_segments(alloc),
    };
    match file {
        Some(file) => all_hold(file, facts),
        None => false,
    }
}

#[test]
fn pages_and_bytes_that_files_load(rt: HostRuntime) {
    for (index, (so, source, facts)) in ROWS.iter().enumerate() {
        assert!(rt; is_so(rt.alloc(), source, facts) == *so, "row {index}");
    }
}
