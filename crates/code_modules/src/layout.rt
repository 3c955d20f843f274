//! The parts in the order of their program headers, each placed in the file behind the one before.

ghost use Rattle.std.specs.Prelude.{◌≡◌, ◌∷◌, ◌++◌, ◌+◌, ◌*◌, ◌^◌, ◌<◌, ◌≤◌, [], length, map};
ghost use Rattle.std.specs.List.{sum_by};
ghost use Rattle.arrayvec.specs.ArrayVec.{array_vec_len};
ghost use Rattle.code_modules.specs.JoinAnswers.{part_pages};
ghost use Rattle.code_modules.specs.JoinedFile.{data_start, offset_from};
ghost use Rattle.code_modules.specs.PartWords.{as_file_part, as_part};

use crate::part::{FilePart, JoinedPart, offset_from, part_pages, whole_pages};
use arrayvec::ArrayVec;

/// The most program headers that an image may have.
pub(crate) const MOST_PARTS: usize = 64;

/// The size of the file header in bytes.
pub(crate) const HEADER_SIZE: u64 = 64;

/// The size of a program header in bytes.
pub(crate) const ENTRY_SIZE: u64 = 56;

/// Parts that were placed, and the place in the file behind the last of them.
#[derive(Drop)]
pub(crate) struct Layout<'a> {
    pub parts: ArrayVec<FilePart<'a>, MOST_PARTS>,
    pub end: u64,
}

/// Where the bytes of so many parts begin.
pub(crate) fn data_start(count: u64) -> u64
    requires { count ≤ 64 }
    ensures start { result ≡ data_start count }
    ensures small { result ≤ 4096 }
{
    whole_pages(HEADER_SIZE + ENTRY_SIZE * count)
}

impl<'a> Layout<'a> {
    /// No part yet of so many.
    pub(crate) fn new(count: u64) -> Layout<'a>
        requires { count ≤ 64 }
        ensures none { result.parts.items ≡ [] }
        ensures end { result.end ≡ data_start count }
        ensures small { result.end ≤ 4096 }
    {
        Layout {
            parts: ArrayVec::new(),
            end: data_start(count),
        }
    }

    /// Places one more part.
    pub(crate) fn add(&mut self, part: JoinedPart<'a>)
        requires room { array_vec_len self.old.parts < 64 }
        requires end { self.old.end < 2 ^ 62 }
        requires bytes { length part.bytes.now < 2 ^ 62 }
        ensures listed { map as_file_part self.new.parts.items ≡ map as_file_part self.old.parts.items
            ++ (record { offset = offset_from self.old.end (as_part part.entry); part = as_part part.entry }) ∷ [] }
        ensures end { self.new.end ≡ offset_from self.old.end (as_part part.entry) + length part.entry.bytes.now }
        ensures count { array_vec_len self.new.parts ≡ array_vec_len self.old.parts + 1 }
        ensures small { self.new.end ≤ self.old.end + 4095 + length part.entry.bytes.now }
    {
        let offset = offset_from(self.end, &part);
        self.end = offset + part.bytes.len() as u64;
        self.parts.push(FilePart { offset, part });
    }
}

/// How many pages the parts have.
pub(crate) fn total_pages(parts: &[FilePart]) -> u64
    requires { length parts.now ≤ 64 }
    ensures { result ≡ sum_by (λ p. part_pages (as_part p.part)) parts.now }
{
    let mut total = 0;
    for placed in parts {
        total += part_pages(&placed.part);
    }
    total
}
