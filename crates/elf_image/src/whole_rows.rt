//! The rows on all segments together.

ghost use Rattle.std.specs.Prelude.{◌≡◌, ◌≤◌, length, Some};
ghost use Rattle.std.specs.List.{list_any};
ghost use Rattle.elf_image.specs.Rows.{whole_fault};
ghost use Rattle.elf_image.specs.Segments.{is_code_at, total_pages};

use crate::elf::{E_ENTRY, MOST_HEADERS, MOST_PAGES};
use crate::fault::{FaultKind, ImageFault};
use crate::program_header::ProgramHeader;

fn is_code_at(segments: &[ProgramHeader], va: u64) -> bool
    ensures { result ≡ list_any (is_code_at va) segments.now }
{
    segments.iter().any(|s| s.is_code_at(va))
}

/// How many pages the segments have, each counted by itself.
pub fn total_pages(segments: &[ProgramHeader]) -> u64
    requires { length segments.now ≤ 64 }
    ensures { result ≡ total_pages segments.now }
{
    segments.iter().map(|s| s.pages_touched()).sum()
}

/// The first row on all segments together that stands.
#[tactic(auto, unfolding(crate::specs::Rows::whole_fault))]
pub fn whole_fault(segments: &[ProgramHeader], entry: u64) -> Option<ImageFault>
    requires { length segments.now ≤ 64 }
    ensures { result ≡ whole_fault entry segments.now }
{
    if !is_code_at(segments, entry) {
        return Some(ImageFault::new(FaultKind::BadEntry, E_ENTRY as u64));
    }
    let pages = total_pages(segments);
    if pages > MOST_PAGES {
        return Some(ImageFault::new(FaultKind::TooLarge, pages));
    }
    None
}
