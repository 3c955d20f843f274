//! Joined images at worked values.

mod lists;
mod read_back;

use byte_scanner::{Found, scan};
use code_modules::JoinFault::{self, Empty, NoFit, Protected};
use code_modules::join;
use elf_image::Image;
use std::alloc::{AllocError, Global};
use std::process::Abort;
use std::test::Fail;
use test_kit::{HOME, SegmentHeader, push_head, push_numbers, push_segment};

/// Where the directory stands.
const DIRECTORY: u64 = 0xFFFF_FFFF_BFFF_F000;

/// A segment of a file: its flags, its place in the file, its address, and its two sizes.
type Row = (u64, u64, u64, u64, u64);

/// So many NOPs, and these bytes behind them.
type Part = (usize, &'static [u8]);

/// A file by its first segments, how many there are, and the first bytes of its code. Each further segment is a byte of
/// memory, on the page of its number.
type Source = (&'static [Row], usize, Part);

/// Whether the case is so; an image, modules that are joined with it and whether each has a guard page, and why they
/// aren't joined, if they aren't.
type Case = (
    bool,
    Source,
    &'static [Part],
    &'static [bool],
    Option<JoinFault>,
);

/// The program header of one byte of code, and the byte.
const CODE: Row = (5, 4096, HOME, 1, 1);

const HALT: Part = (0, &[0xF4]);

/// A module of one byte.
const NOP: Part = (1, &[]);

const HALTING: Source = (&[CODE], 1, HALT);

/// A page of code that ends with 0F 22: MOV to a control register, without its last byte.
const CUT_OFF: Source = (&[(5, 4096, HOME, 4096, 4096)], 1, (4094, &[0x0F, 0x22]));

/// The halting image with a byte in the directory's page, which leaves no room for any.
const FULL: Source = (&[CODE, (6, 4097, DIRECTORY + 1, 1, 1)], 2, HALT);

const MOV_AT_SEAM: Found = Found {
    at: HOME + 4094,
    bytes: [0x0F, 0x22, 0xC0],
    count: 3,
};

/// Puts the program header of a segment.
fn put_row(file: &mut Vec<u8>, row: &Row) -> Result<(), AllocError> {
    let (flags, offset, address, file_size, memory_size) = *row;
    let flags = (flags % 8) as u32;
    push_segment(
        file,
        &SegmentHeader {
            flags,
            offset,
            address,
            file_size,
            memory_size,
        },
    )
}

/// The headers of a file with these segments, and further ones up to so many, with zeros up to its second page. Its
/// entry is the home's first address.
fn headers(alloc: Global, rows: &[Row], count: usize) -> Result<Vec<u8>, AllocError> {
    let mut file = Vec::new(alloc);
    push_head(&mut file, (count % 0x1_0000) as u16)?;
    for i in 0..count {
        let further = (
            6,
            0,
            HOME.wrapping_add(0x1000u64.wrapping_mul(i as u64)),
            0,
            1,
        );
        put_row(&mut file, rows.get(i).unwrap_or(&further))?;
    }
    file.resize(4096, 0)?;
    Ok(file)
}

fn put_part(file: &mut Vec<u8>, part: &Part) -> Result<(), AllocError> {
    let (nops, bytes) = *part;
    if nops <= 8192 {
        file.resize(file.len().saturating_add(nops), 0x90)?;
    }
    file.extend_from_slice(bytes)
}

/// The file, whose second page begins with the code, and is zeros behind it.
fn file(alloc: Global, source: &Source) -> Result<Vec<u8>, AllocError> {
    let (rows, count, code) = *source;
    let mut file = headers(alloc, rows, count)?;
    put_part(&mut file, &code)?;
    file.resize(8192, 0)?;
    Ok(file)
}

fn image(alloc: Global, source: &Source) -> Option<Image> {
    Image::read(file(alloc, source).ok()?).ok()
}

fn modules(alloc: Global, parts: &[Part]) -> Result<Vec<Vec<u8>>, AllocError> {
    let mut modules = Vec::new(alloc);
    for part in parts.iter() {
        let mut module = Vec::new(alloc);
        put_part(&mut module, part)?;
        modules.push(module)?;
    }
    Ok(modules)
}

/// What becomes of modules that are joined with an image in which nothing is protected.
fn joined(
    alloc: Global,
    image: &Image,
    modules: &[Vec<u8>],
    guards: &[bool],
) -> Option<Result<Vec<u8>, JoinFault>> {
    if modules.is_empty() || modules.len() > 32 || modules.len() != guards.len() {
        return None;
    }
    match scan(image) {
        Some(_) => None,
        None => Some(join(alloc, image, image.headers(), modules, guards)),
    }
}

/// What becomes of a case's modules.
fn joined_in(alloc: Global, case: &Case) -> Option<Result<Vec<u8>, JoinFault>> {
    let (_, source, parts, guards, _) = case;
    let image = image(alloc, source)?;
    let modules = modules(alloc, parts).ok()?;
    joined(alloc, &image, &modules, guards)
}

/// Whether the case's modules are joined, or this is why not.
fn is_right(alloc: Global, case: &Case) -> bool {
    match joined_in(alloc, case) {
        Some(Ok(_)) => case.4.is_none(),
        Some(Err(fault)) => case.4 == Some(fault),
        None => false,
    }
}

/// Each case is so, or isn't, as it says.
fn assert_cases(rt: &impl Abort, alloc: Global, cases: &[Case]) {
    for (index, case) in cases.iter().enumerate() {
        assert!(rt; is_right(alloc, case) == case.0, "case {index}");
    }
}

/// A guard page ends the run.
#[rattlefmt::skip]
static GUARDED: [Case; 5] = [
    // MOV CR0, RAX around the seam.
    (true, CUT_OFF, &[(0, &[0xC0, 0x90])], &[false], Some(Protected(MOV_AT_SEAM))),
    (true, CUT_OFF, &[(0, &[0xC0, 0x90])], &[true], None),
    // WRMSR in the module.
    (
        true, CUT_OFF, &[(0, &[0x0F, 0x30])], &[true],
        Some(Protected(Found { at: HOME + 0x2000, bytes: [0x0F, 0x30, 0], count: 2 })),
    ),
    // MOV to a control register whose last byte is the padding's.
    (
        true, CUT_OFF, &[(0, &[0x0F, 0x22])], &[true],
        Some(Protected(Found { at: HOME + 0x2000, bytes: [0x0F, 0x22, 0], count: 3 })),
    ),
    // RDMSR.
    (true, CUT_OFF, &[(0, &[0x0F, 0x32])], &[true], None),
];

#[test]
fn a_guard_page_ends_the_run(rt: HostRuntime) {
    assert_cases(&rt, rt.alloc(), &GUARDED);
}

/// Two modules, of which the first fills a page up to its last byte, 0F, and the second is 30.
#[rattlefmt::skip]
static NEIGHBOURS: [Case; 4] = [
    (
        true, HALTING, &[(4095, &[0x0F]), (0, &[0x30])], &[false, false],
        Some(Protected(Found { at: HOME + 0x1FFF, bytes: [0x0F, 0x30, 0], count: 2 })),
    ),
    (
        true, HALTING, &[(4095, &[0x0F]), (0, &[0x30])], &[true, false],
        Some(Protected(Found { at: HOME + 0x2FFF, bytes: [0x0F, 0x30, 0], count: 2 })),
    ),
    (true, HALTING, &[(4095, &[0x0F]), (0, &[0x30])], &[false, true], None),
    (true, HALTING, &[(4095, &[0x0F]), (0, &[0x30])], &[true, true], None),
];

#[test]
fn modules_are_scanned_with_their_neighbours(rt: HostRuntime) {
    assert_cases(&rt, rt.alloc(), &NEIGHBOURS);
}

/// The first module without bytes comes before what doesn't fit, and that before what is protected.
#[rattlefmt::skip]
static EMPTY: [Case; 4] = [
    (true, FULL, &[(0, &[]), (0, &[0x0F])], &[false, true], Some(Empty(0))),
    (true, FULL, &[(0, &[0x0F]), (0, &[])], &[false, true], Some(Empty(1))),
    (true, FULL, &[(0, &[]), (0, &[])], &[false, true], Some(Empty(0))),
    (true, FULL, &[(0, &[0x0F, 0x30]), (0, &[0x0F])], &[false, true], Some(NoFit)),
];

#[test]
fn the_first_empty_module_is_told(rt: HostRuntime) {
    assert_cases(&rt, rt.alloc(), &EMPTY);
}

/// 8,192 pages with those of the code, the module and the directory, and one more.
#[rattlefmt::skip]
static PAGES: [Case; 4] = [
    (true, (&[CODE, (6, 0, HOME + 0x1000, 0, 8189 * 4096)], 2, HALT), &[(4096, &[])], &[false], None),
    (true, (&[CODE, (6, 0, HOME + 0x1000, 0, 8189 * 4096)], 2, HALT), &[(4096, &[])], &[true], None),
    (true, (&[CODE, (6, 0, HOME + 0x1000, 0, 8189 * 4096 + 1)], 2, HALT), &[(4096, &[])], &[false], Some(NoFit)),
    (true, (&[CODE, (6, 0, HOME + 0x1000, 0, 8189 * 4096)], 2, HALT), &[(4097, &[])], &[false], Some(NoFit)),
];

#[test]
fn as_many_pages_as_may_be(rt: HostRuntime) {
    assert_cases(&rt, rt.alloc(), &PAGES);
}

#[rattlefmt::skip]
static DIRECTORIES: [Case; 7] = [
    // Up to the directory's page, and one more.
    (true, (&[CODE, (6, 0, DIRECTORY - 0x1001, 0, 1)], 2, HALT), &[(4096, &[])], &[false], None),
    (true, (&[CODE, (6, 0, DIRECTORY - 0x1001, 0, 1)], 2, HALT), &[(1, &[])], &[true], Some(NoFit)),
    (true, (&[CODE, (6, 0, DIRECTORY - 0x1001, 0, 1)], 2, HALT), &[(4097, &[])], &[false], Some(NoFit)),
    (true, (&[CODE, (6, 0, DIRECTORY - 0x2001, 0, 1)], 2, HALT), &[(4096, &[])], &[true], None),
    (true, (&[CODE, (6, 0, DIRECTORY - 1, 0, 1)], 2, HALT), &[(1, &[])], &[false], Some(NoFit)),
    // The image has the directory's page.
    (true, (&[CODE, (6, 0, DIRECTORY, 0, 1)], 2, HALT), &[(1, &[])], &[false], Some(NoFit)),
    (true, (&[CODE, (6, 0, DIRECTORY + 0xFFF, 0, 1)], 2, HALT), &[(1, &[])], &[false], Some(NoFit)),
];

#[test]
fn what_fits_before_the_directory(rt: HostRuntime) {
    assert_cases(&rt, rt.alloc(), &DIRECTORIES);
}

/// 64 program headers are the most, with those of the modules and the directory, and 32 modules.
#[rattlefmt::skip]
static HEADERS: [Case; 4] = [
    (true, (&[CODE], 62, HALT), &[(1, &[])], &[true], None),
    (true, (&[CODE], 63, HALT), &[(1, &[])], &[true], Some(NoFit)),
    (true, (&[CODE], 31, HALT), &[NOP; 32], &[true; 32], None),
    (true, (&[CODE], 32, HALT), &[NOP; 32], &[true; 32], Some(NoFit)),
];

#[test]
fn as_many_headers_as_may_be(rt: HostRuntime) {
    assert_cases(&rt, rt.alloc(), &HEADERS);
}

/// A case of which something else becomes is found: a module that isn't joined, or for another reason.
#[rattlefmt::skip]
static WRONG: [Case; 3] = [
    (true, HALTING, &[(0, &[])], &[true], Some(Empty(0))),
    (false, HALTING, &[(0, &[])], &[true], None),
    (false, HALTING, &[(0, &[])], &[true], Some(NoFit)),
];

#[test]
fn wrong_cases_are_found(rt: HostRuntime) {
    assert_cases(&rt, rt.alloc(), &WRONG);
}

/// F4, and a module of C3 behind a guard page.
static TWO_BYTES: Case = (true, HALTING, &[(0, &[0xC3])], &[true], None);

/// Its file: the headers field by field, code and directory in their places, and zeros.
fn file_by_byte(alloc: Global) -> Result<Vec<u8>, AllocError> {
    let rows = [
        CODE,
        (5, 8192, HOME + 0x2000, 1, 4096),
        (4, 12_288, DIRECTORY, 24, 24),
    ];
    let mut file = headers(alloc, &rows, 3)?;
    file.push(0xF4)?;
    file.resize(8192, 0)?;
    file.push(0xC3)?;
    file.resize(12_288, 0)?;
    push_numbers(&mut file, &[1, HOME + 0x2000, 1])?;
    Ok(file)
}

#[test]
fn a_joined_file_byte_by_byte(rt: HostRuntime) -> Result<(), Fail> {
    let want = file_by_byte(rt.alloc())?;
    match joined_in(rt.alloc(), &TWO_BYTES) {
        Some(Ok(file)) => assert!(rt; file == want),
        _ => assert!(rt; false, "the module is joined"),
    }
    Ok(())
}
