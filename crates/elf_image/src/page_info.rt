//! What is told of a page of an image.

ghost use Rattle.std.specs.Prelude.{◌+◌, ◌≤◌};
ghost use Rattle.elf_image.specs.Home.{home_end, page_size};
ghost use Rattle.elf_image.specs.Loaded.{IsFilePart};
ghost use Rattle.elf_image.specs.SegmentForm.{IsPlaced};

use crate::elf::PAGE_SIZE;
use crate::program_header::ProgramHeader;

/// A page of an image, 4,096 bytes, and what may be done with it besides reading.
#[derive(Clone, Copy, Debug, PartialEq, Eq)]
pub struct PageInfo {
    /// The linear address of its first byte.
    pub va: u64,
    /// Whether its segment has `PF_W`.
    pub can_write: bool,
    /// Whether its segment has `PF_X`.
    pub exec: bool,
}

/// The bytes of a page that come from the file; the others are 0. Where none do, all three are 0.
#[derive(Clone, Copy, Debug, PartialEq, Eq)]
pub struct Part {
    /// The place in the file of the first of them.
    pub at: u64,
    /// The number of the page's bytes before it.
    pub skip: u16,
    /// How many they are.
    pub len: u16,
}

/// What a segment of a file of this size loads into the page at `va`.
pub fn part_of(size: u64, va: u64, segment: &ProgramHeader) -> Part
    requires placed { IsPlaced size segment.now }
    requires home { va + page_size ≤ home_end }
    ensures { IsFilePart size segment.now va result.at result.skip result.len }
{
    let start = va.max(segment.address);
    let end = (va + PAGE_SIZE).min(segment.address + segment.file_size);
    if end <= start {
        return Part {
            at: 0,
            skip: 0,
            len: 0,
        };
    }
    Part {
        at: segment.offset + (start - segment.address),
        skip: (start - va) as u16,
        len: (end - start) as u16,
    }
}
