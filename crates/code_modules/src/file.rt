//! The file of a joined image.

ghost use Rattle.std.specs.Prelude.{◌≡◌, ◌++◌, ◌+◌, ◌-◌, ◌*◌, ◌<◌, ◌≤◌, true, IfSome, length, map, replicate};
ghost use Rattle.elf_image.specs.WrittenHeaders.{byte_in_fields};
ghost use Rattle.code_modules.specs.JoinedFile.{file_of_parts, joined_byte, part_header};
ghost use Rattle.code_modules.specs.PartWords.{Follow, as_file_part};

use crate::layout::{ENTRY_SIZE, HEADER_SIZE};
use crate::part::FilePart;
use elf_image::{Segment, file_header_byte, program_header_byte};
use std::alloc::Global;

/// The byte at a place of the program header of a part.
fn header_byte(placed: &FilePart, at: u64) -> u8
    ensures { result ≡ byte_in_fields (part_header (as_file_part placed.now)) at }
{
    let segment = Segment {
        flags: placed.part.flags,
        offset: placed.offset,
        va: placed.part.address,
        file_size: placed.part.bytes.len() as u64,
        mem_size: placed.part.memory_size,
    };
    program_header_byte(&segment, at)
}

/// The byte at a place of the headers of a file with this entry.
fn headers_byte(entry: u64, parts: &[FilePart], at: u64) -> u8
    requires few { length parts.now ≤ 64 }
    requires inside { at < 64 + 56 * length parts.now }
    ensures { result ≡ joined_byte entry (map as_file_part parts.now) at }
{
    if at < HEADER_SIZE {
        return file_header_byte(entry, parts.len() as u16, at);
    }
    let table_at = at - HEADER_SIZE;
    header_byte(
        &parts[(table_at / ENTRY_SIZE) as usize],
        table_at % ENTRY_SIZE,
    )
}

/// Puts the bytes of a part at its offset, behind zeros.
fn put_part(file: &mut Vec<u8>, placed: &FilePart) -> bool
    requires { length file.old.items ≤ placed.now.offset }
    ensures { result ≡ true → file.new.items ≡ file.old.items
        ++ (replicate (placed.now.offset - length file.old.items) 0 ++ placed.now.part.bytes.now) }
{
    if let Err(_) = file.resize(placed.offset as usize, 0) {
        return false;
    }
    file.extend_from_slice(placed.part.bytes).is_ok()
}

/// The file of these parts, with this entry, which ends at this place; None where there is no room for it.
pub(crate) fn write_file(alloc: Global, entry: u64, parts: &[FilePart], end: u64) -> Option<Vec<u8>>
    requires some { 0 < length parts.now }
    requires few { length parts.now ≤ 64 }
    requires follow { Follow (64 + 56 * length parts.now) (map as_file_part parts.now) }
    ensures { IfSome result (λ file. file.items ≡ file_of_parts entry (map as_file_part parts.now)) }
{
    let Ok(mut file) = Vec::with_capacity(alloc, end as usize) else {
        return None;
    };
    for at in 0..HEADER_SIZE + ENTRY_SIZE * parts.len() as u64 {
        if let Err(_) = file.push(headers_byte(entry, parts, at)) {
            return None;
        }
    }
    for placed in parts {
        if !put_part(&mut file, placed) {
            return None;
        }
    }
    Some(file)
}
