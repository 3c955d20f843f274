//! The pages of segments that stand in the order of their addresses and share none.

ghost use Rattle.std.specs.Prelude.{◌≡◌, ◌<◌, ◌≤◌, ◌&&◌, filter, find, length, slice_index, sum_by};
ghost use Rattle.std.specs.List.{flat_map, list_any};
ghost use Rattle.std.specs.List.Sorted.{IsNonDecreasingBy, IsPermutation};
ghost use Rattle.elf_image.specs.Elf.{has_flag, pf_w, pf_x};
ghost use Rattle.elf_image.specs.Segments.{pages_of_segment, pages_touched, total_pages, touches};

use crate::elf::{MOST_HEADERS, PF_W, PF_X};
use crate::program_header::ProgramHeader;
use arrayvec::ArrayVec;

/// Puts the segments in the order of their addresses.
pub fn sort_by_address(segments: &mut ArrayVec<ProgramHeader, MOST_HEADERS>)
    ensures same { IsPermutation segments.old.items segments.new.items }
    ensures ascending { IsNonDecreasingBy (λ s. s.address) segments.new.items }
{
    segments.sort_unstable_by_key(|s| s.address);
}

/// Page number `i` of the segments, each of whose pages follow those of the one before.
pub fn nth_page(segments: &[ProgramHeader], i: u64) -> u64
    requires { i < total_pages segments.now }
    ensures { result ≡ slice_index (flat_map pages_of_segment segments.now) i }
{
    let mut left = i;
    for segment in segments {
        let pages = segment.pages_touched();
        if left < pages {
            return segment.first_page() + left;
        }
        left -= pages;
    }
    unreachable!()
}

/// The segment that touches a page.
pub fn touching(segments: &[ProgramHeader], page: u64) -> Option<ProgramHeader>
    ensures { result ≡ find (λ s. touches s page) segments.now }
{
    segments.iter().find(|s| s.touches(page)).copied()
}

/// Whether a segment that touches a page may be written.
pub fn is_writable(segments: &[ProgramHeader], page: u64) -> bool
    ensures { result ≡ list_any (λ s. touches s page && has_flag s pf_w) segments.now }
{
    segments.iter().any(|s| s.touches(page) && s.is_writable())
}

/// Whether a segment that touches a page may be executed.
pub fn is_executable(segments: &[ProgramHeader], page: u64) -> bool
    ensures { result ≡ list_any (λ s. touches s page && has_flag s pf_x) segments.now }
{
    segments
        .iter()
        .any(|s| s.touches(page) && s.is_executable())
}

/// How many pages the segments have that may be executed, each segment counted by itself.
pub fn executable_pages(segments: &[ProgramHeader]) -> u64
    requires { length segments.now ≤ 64 }
    ensures { result ≡ sum_by pages_touched (filter (λ s. has_flag s pf_x) segments.now) }
{
    segments
        .iter()
        .filter(|s| s.is_executable())
        .map(|s| s.pages_touched())
        .sum()
}
