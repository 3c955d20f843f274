//! The parts of a joined image, and how many bytes and pages they take.

ghost use Rattle.std.specs.Prelude.{◌≡◌, ◌+◌, ◌^◌, ◌<◌, ◌≤◌, length};
ghost use Rattle.code_modules.specs.JoinAnswers.{part_pages};
ghost use Rattle.code_modules.specs.JoinedFile.{offset_from};
ghost use Rattle.code_modules.specs.JoinedParts.{whole_pages};
ghost use Rattle.code_modules.specs.PartWords.{as_part};

use elf_image::PAGE_SIZE;

/// What a program header loads: its flags, its address, how many bytes it takes in memory, and those that come first.
#[derive(Clone, Copy, Debug, Default)]
pub(crate) struct JoinedPart<'a> {
    pub flags: u32,
    pub address: u64,
    pub memory_size: u64,
    pub bytes: &'a [u8],
}

/// A part, and the place in the file of its first byte.
#[derive(Clone, Copy, Debug, Default)]
pub(crate) struct FilePart<'a> {
    pub offset: u64,
    pub part: JoinedPart<'a>,
}

/// The size of the pages that hold so many bytes.
pub(crate) fn whole_pages(size: u64) -> u64
    requires { size ≤ 2 ^ 63 }
    ensures { result ≡ whole_pages size }
{
    (size + (PAGE_SIZE - 1)) / PAGE_SIZE * PAGE_SIZE
}

/// The offset of a part behind this place in the file.
pub(crate) fn offset_from(end: u64, part: &JoinedPart) -> u64
    requires { end < 2 ^ 63 }
    ensures offset { result ≡ offset_from end (as_part part.now) }
    ensures after { end ≤ result }
    ensures near { result ≤ end + 4095 }
{
    if part.bytes.is_empty() {
        end
    } else {
        end + (part.address % PAGE_SIZE + PAGE_SIZE - end % PAGE_SIZE) % PAGE_SIZE
    }
}

/// How many pages a part has.
pub(crate) fn part_pages(part: &JoinedPart) -> u64
    ensures pages { result ≡ part_pages (as_part part.now) }
    ensures small { result ≤ 2 ^ 53 }
{
    let end = part.address as u128 + part.memory_size as u128;
    let last = (end.saturating_sub(1) / PAGE_SIZE as u128) as u64;
    last.saturating_sub(part.address / PAGE_SIZE) + 1
}
