//! The join of an image with modules of code.

ghost use Rattle.std.specs.Prelude.{◌≡◌, ◌+◌, ◌<◌, ◌≤◌, false, None, Ok, Err, IfErr, IfOk, MatchOption, length, map};
ghost use Rattle.std.specs.List.{sum_by};
ghost use Rattle.elf_image.specs.FileParts.{IsImage};
ghost use Rattle.elf_image.specs.Rows.{first_fault};
ghost use Rattle.byte_scanner.specs.FirstFound.{first_found};
ghost use Rattle.code_modules.specs.JoinAnswers.{IsFaultOf, IsShortFault, empty_from, is_fitting, join_answer, modules_with, part_pages, unless_protected};
ghost use Rattle.code_modules.specs.JoinedFile.{file_from, placed_parts};
ghost use Rattle.code_modules.specs.PartWords.{IsLaidOut, as_file_part, part_of, parts_answer};

use crate::fault::JoinFault;
use crate::file::write_file;
use crate::image_parts::{add_image, image_end};
use crate::laws::joined_form;
use crate::layout::{Layout, MOST_PARTS, total_pages};
use crate::module_parts::{add_modules, directory_of, directory_part};
use crate::part::FilePart;
use byte_scanner::scan;
use elf_image::{Headers, Image, MOST_PAGES};
use std::alloc::Global;

/// The number of the first module without bytes.
fn first_empty(modules: &[Vec<u8>]) -> Option<u32>
    requires { length modules.now ≤ 32 }
    ensures { result ≡ empty_from 0 (map (λ m. m.items) modules.now) }
{
    for i in 0..modules.len() {
        if modules[i].is_empty() {
            return Some(i as u32);
        }
    }
    None
}

/// The file of a joined image, unless a protected encoding stands in its code.
fn unless_protected(file: Vec<u8>) -> Result<Vec<u8>, JoinFault>
    requires { first_fault file.items ≡ None }
    ensures file { IfOk result (λ kept. unless_protected file.items (first_found file.items) ≡ Ok kept.items) }
    ensures fault { IfErr result (λ fault. unless_protected file.items (first_found file.items) ≡ Err fault) }
    ensures short { IfErr result IsShortFault }
{
    let Ok(image) = Image::read(file) else {
        unreachable!();
    };
    match scan(&image) {
        Some(found) => Err(JoinFault::Protected(found)),
        None => Ok(image.into_bytes()),
    }
}

/// The segments of an image and the modules behind them, each placed in the file; None where there are more parts than
/// an image may have, or a module would reach the directory's page.
fn lay_out<'a>(
    image: &'a Image,
    headers: &Headers,
    modules: &'a [Vec<u8>],
    guards: &[bool],
) -> Option<Layout<'a>>
    requires few { length modules.now ≤ 32 }
    requires guarded { length guards.now ≡ length modules.now }
    requires headers { IsImage image.now headers.now }
    ensures { let joined = modules_with guards.now (map (λ m. m.items) modules.now) in
        MatchOption result (is_fitting image.now joined ≡ false)
        (λ layout. IsLaidOut image.now joined (map as_file_part layout.parts.items) layout.end) }
{
    let count = headers.segments() + modules.len() + 1;
    if count > MOST_PARTS {
        return None;
    }
    let mut layout = Layout::new(count as u64);
    add_image(&mut layout, image, headers);
    if !add_modules(&mut layout, image_end(image), modules, guards) {
        return None;
    }
    Some(layout)
}

/// The file of parts that were placed, unless they have too many pages, or a protected encoding stands in their code.
fn checked_file(
    alloc: Global,
    entry: u64,
    parts: &[FilePart],
    end: u64,
) -> Result<Vec<u8>, JoinFault>
    requires placed { map as_file_part parts.now ≡ placed_parts (map part_of parts.now) }
    requires some { 0 < length parts.now }
    requires few { length parts.now ≤ 64 }
    requires form { sum_by part_pages (map part_of parts.now) ≤ 8192
        → first_fault (file_from entry (map part_of parts.now)) ≡ None }
    ensures file { IfOk result (λ file. parts_answer entry (map part_of parts.now) ≡ Ok file.items) }
    ensures fault { IfErr result (IsFaultOf (parts_answer entry (map part_of parts.now))) }
    ensures short { IfErr result IsShortFault }
{
    if total_pages(parts) > MOST_PAGES {
        return Err(JoinFault::NoFit);
    }
    let Some(file) = write_file(alloc, entry, parts, end) else {
        return Err(JoinFault::Memory);
    };
    unless_protected(file)
}

/// Joins modules of code with an image, whose headers these are: behind its highest page, each on whole pages, and a
/// guard page before each for which `guards` says so, with a directory of them on the last page of the image's home.
/// Takes memory for the file alone, all of it before the first byte.
///
/// Returns the file of the joined image, which is in form and holds no protected encoding.
pub fn join(
    alloc: Global,
    image: &Image,
    headers: &Headers,
    modules: &[Vec<u8>],
    guards: &[bool],
) -> Result<Vec<u8>, JoinFault>
    requires some { 0 < length modules.now }
    requires few { length modules.now ≤ 32 }
    requires guarded { length guards.now ≡ length modules.now }
    requires headers { IsImage image.now headers.now }
    requires clean { first_found image.now ≡ None }
    ensures file { IfOk result (λ file.
        join_answer image.now (modules_with guards.now (map (λ m. m.items) modules.now)) ≡ Ok file.items) }
    ensures fault { IfErr result
        (IsFaultOf (join_answer image.now (modules_with guards.now (map (λ m. m.items) modules.now)))) }
    ensures short { IfErr result IsShortFault }
{
    if let Some(i) = first_empty(modules) {
        return Err(JoinFault::Empty(i));
    }
    let Some(layout) = lay_out(image, headers, modules, guards) else {
        return Err(JoinFault::NoFit);
    };
    let directory = directory_of(layout.parts.as_slice().split_at(headers.segments()).1);
    let mut layout = layout;
    layout.add(directory_part(directory.as_slice()));
    joined_form();
    checked_file(alloc, image.entry(), layout.parts.as_slice(), layout.end)
}
