//! The headers of an image: its pages and segments, and where in the file their bytes are.

ghost use Rattle.std.specs.Prelude.{◌≡◌, ◌+◌, ◌*◌, ◌/◌, ◌<◌, ◌≤◌, filter, length, option_map, slice_get, slice_index, IfSome, IsTrue, Some, None, MatchResult};
ghost use Rattle.elf_image.specs.Elf.{phdr_size};
ghost use Rattle.elf_image.specs.FileParts.{ArePages, IsPart, segment_of};
ghost use Rattle.elf_image.specs.HeaderRows.{later_fault, segments_in};
ghost use Rattle.elf_image.specs.Home.{home_end, home_start, page_size};
ghost use Rattle.elf_image.specs.Loaded.{Supplies};
ghost use Rattle.elf_image.specs.SegmentPages.{is_executable_of, is_writable_of, pages_in, loaded_place};

use crate::elf::{MOST_HEADERS, PAGE_SIZE};
use crate::fault::ImageFault;
use crate::page_info::{PageInfo, Part, part_of};
use crate::page_list::{
    executable_pages, is_executable, is_writable, nth_page, sort_by_address, touching,
};
use crate::program_header::ProgramHeader;
use crate::segment_rows::segment_fault;
use crate::table::{in_table_order, read_segments};
use crate::whole_rows::{total_pages, whole_fault};
use arrayvec::ArrayVec;
use std::marker::Model;

/// A segment of an image, by the fields of its program header.
#[derive(Clone, Copy, Debug, PartialEq, Eq)]
pub struct Segment {
    /// `p_flags`.
    pub flags: u32,
    /// `p_offset`, in bytes from the file's start.
    pub offset: u64,
    /// `p_vaddr`, a linear address.
    pub va: u64,
    /// `p_filesz`, in bytes.
    pub file_size: u64,
    /// `p_memsz`, in bytes.
    pub mem_size: u64,
}

/// The headers of a file that is in form. To contracts they are its size, its entry and its segments.
#[derive(Drop)]
pub struct Headers {
    size: u64,
    entry: u64,
    /// In the order of their addresses.
    sorted: ArrayVec<ProgramHeader, MOST_HEADERS>,
}

impl Model for Headers {
    ghost use Rattle.elf_image.specs.HeaderRows.{FileHeaders};
    ghost use Rattle.elf_image.specs.Loaded.{AreLoaded, in_table_order};

    ghost Value = { FileHeaders };

    ghost view = { λ h. record { size = h.size; entry = h.entry; segments = in_table_order h.sorted.items } };

    ghost invariant = { λ h. AreLoaded h.size h.entry (in_table_order h.sorted.items) h.sorted.items };
}

/// The first row on the segments that stands, for a file of this size with this entry.
#[tactic(auto, unfolding(crate::specs::HeaderRows::later_fault))]
fn later_fault(segments: &[ProgramHeader], size: u64, entry: u64) -> Option<ImageFault>
    requires { length segments.now ≤ 64 }
    ensures { result ≡ later_fault size entry segments.now }
{
    if let Some(fault) = segment_fault(segments, size) {
        return Some(fault);
    }
    whole_fault(segments, entry)
}

impl Headers {
    /// Reads the headers of a file of this size and with this entry from a program header table of `count` entries.
    pub(crate) fn read(
        size: u64,
        entry: u64,
        count: u16,
        table: &[u8],
    ) -> Result<Headers, ImageFault>
        requires few { count ≤ 64 }
        requires whole { length table.now ≡ phdr_size * count }
        ensures { MatchResult result
            (λ headers. (headers ≡ record { size = size; entry = entry; segments = segments_in table.now count })
            × (later_fault size entry (segments_in table.now count) ≡ None))
            (λ fault. later_fault size entry (segments_in table.now count) ≡ Some fault) }
    {
        let mut segments = read_segments(table, count);
        if let Some(fault) = later_fault(segments.as_slice(), size, entry) {
            return Err(fault);
        }
        sort_by_address(&mut segments);
        Ok(Headers {
            size,
            entry,
            sorted: segments,
        })
    }

    /// The linear address of the first instruction, `e_entry`.
    pub fn entry(&self) -> u64
        ensures entry { result ≡ self.now.entry }
        ensures code { IsTrue (is_executable_of self.now.segments (result / page_size)) }
    {
        self.entry
    }

    /// The number of pages, 1 to 8,192.
    pub fn pages(&self) -> u32
        ensures count { result ≡ length (pages_in self.now.segments) }
        ensures some { 0 < result }
        ensures few { result ≤ 8192 }
        ensures list { ArePages self.now.segments (pages_in self.now.segments) }
    {
        total_pages(self.sorted.as_slice()) as u32
    }

    fn page_number(&self, i: u32) -> u64
        requires { i < length (pages_in self.now.segments) }
        ensures number { result ≡ slice_index (pages_in self.now.segments) i }
        ensures above { home_start ≤ page_size * result }
        ensures below { page_size * result + page_size ≤ home_end }
    {
        nth_page(self.sorted.as_slice(), i as u64)
    }

    fn is_writable(&self, page: u64) -> bool
        ensures { result ≡ is_writable_of self.now.segments page }
    {
        is_writable(self.sorted.as_slice(), page)
    }

    /// Whether page `page` is one of the image's and may be executed.
    pub(crate) fn is_executable(&self, page: u64) -> bool
        ensures { result ≡ is_executable_of self.now.segments page }
    {
        is_executable(self.sorted.as_slice(), page)
    }

    /// Page number `i` of the image, from 0 on, in ascending order of their addresses.
    pub fn page(&self, i: u32) -> PageInfo
        requires { i < length (pages_in self.now.segments) }
        ensures va { result.va ≡ page_size * slice_index (pages_in self.now.segments) i }
        ensures above { home_start ≤ result.va }
        ensures below { result.va + page_size ≤ home_end }
        ensures can_write { result.can_write
            ≡ is_writable_of self.now.segments (slice_index (pages_in self.now.segments) i) }
        ensures exec { result.exec
            ≡ is_executable_of self.now.segments (slice_index (pages_in self.now.segments) i) }
    {
        let page = self.page_number(i);
        PageInfo {
            va: PAGE_SIZE * page,
            can_write: self.is_writable(page),
            exec: self.is_executable(page),
        }
    }

    /// The segment that touches a page.
    fn segment_at(&self, page: u64) -> Option<ProgramHeader>
        ensures { Supplies self.now.size self.now.segments page result }
    {
        touching(self.sorted.as_slice(), page)
    }

    fn size(&self) -> u64
        ensures { result ≡ self.now.size }
    {
        self.size
    }

    /// The place in the file of the byte at linear address `va`, where a segment loads one.
    pub(crate) fn place(&self, va: u64) -> Option<u64>
        ensures place { result ≡ loaded_place self.now.segments va }
        ensures inside { IfSome result (λ at. at < self.now.size) }
    {
        let _size = self.size();
        match self.segment_at(va / PAGE_SIZE) {
            Some(s) if s.loads(va) => Some(s.offset + (va - s.address)),
            _ => None,
        }
    }

    /// The part of the file in page number `i`.
    pub fn part(&self, i: u32) -> Part
        requires { i < length (pages_in self.now.segments) }
        ensures { IsPart self.now.size self.now.segments
            (page_size * slice_index (pages_in self.now.segments) i) result.at result.skip result.len }
    {
        let page = self.page_number(i);
        let Some(segment) = self.segment_at(page) else {
            return Part {
                at: 0,
                skip: 0,
                len: 0,
            };
        };
        part_of(self.size(), PAGE_SIZE * page, &segment)
    }

    /// The number of segments, 1 to 64.
    pub fn segments(&self) -> usize
        ensures count { result ≡ length self.now.segments }
        ensures some { 0 < result }
        ensures few { result ≤ 64 }
    {
        self.sorted.as_slice().len()
    }

    /// Segment number `i`, from 0 on, in the order of the program header table.
    pub fn segment(&self, i: usize) -> Segment
        requires { i < length self.now.segments }
        ensures { option_map segment_of (slice_get self.now.segments i) ≡ Some result }
    {
        let table = in_table_order(self.sorted.as_slice());
        let header = table.as_slice()[i];
        Segment {
            flags: header.flags,
            offset: header.offset,
            va: header.address,
            file_size: header.file_size,
            mem_size: header.memory_size,
        }
    }

    /// The number of pages that may be executed, 1 to 8,192.
    pub fn executable_pages(&self) -> u32
        ensures count { result ≡ length (filter (λ n. is_executable_of self.now.segments n) (pages_in self.now.segments)) }
        ensures some { 0 < result }
        ensures few { result ≤ 8192 }
    {
        executable_pages(self.sorted.as_slice()) as u32
    }
}
