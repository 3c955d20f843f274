//! The program header table.

ghost use Rattle.std.specs.Prelude.{◌≡◌, ◌*◌, ◌==◌, ◌≤◌, find, length};
ghost use Rattle.elf_image.specs.Elf.{phdr_size};
ghost use Rattle.elf_image.specs.HeaderRows.{segments_in};
ghost use Rattle.elf_image.specs.Loaded.{in_table_order};

use crate::elf::{MOST_HEADERS, PHDR_SIZE};
use crate::program_header::ProgramHeader;
use arrayvec::ArrayVec;

/// The segments of a program header table with `count` entries.
#[tactic(auto, unfolding(crate::specs::HeaderRows::segments_in))]
pub fn read_segments(table: &[u8], count: u16) -> ArrayVec<ProgramHeader, MOST_HEADERS>
    requires few { count ≤ 64 }
    requires whole { length table.now ≡ phdr_size * count }
    ensures segments { result.items ≡ segments_in table.now count }
    ensures few { length result.items ≤ 64 }
{
    let mut found = ArrayVec::new();
    for index in 0..count as usize {
        let header = ProgramHeader::read(table, PHDR_SIZE * index, index);
        if header.is_segment() {
            found.push(header);
        }
    }
    found
}

/// The segment at a place in the table.
fn at_index(segments: &[ProgramHeader], index: u64) -> Option<ProgramHeader>
    ensures { result ≡ find (λ s. s.index == index) segments.now }
{
    segments.iter().find(|s| s.index == index).copied()
}

/// The segments in the order of the table that they stand in.
pub fn in_table_order(segments: &[ProgramHeader]) -> ArrayVec<ProgramHeader, MOST_HEADERS>
    ensures { result.items ≡ in_table_order segments.now }
{
    let mut found = ArrayVec::new();
    for index in 0..MOST_HEADERS as u64 {
        if let Some(segment) = at_index(segments, index) {
            found.push(segment);
        }
    }
    found
}
