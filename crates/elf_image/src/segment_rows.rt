//! The rows on each segment: the first that breaks one, in table order.

ghost use Rattle.std.specs.Prelude.{◌≡◌};
ghost use Rattle.elf_image.specs.Rows.{first_index, segment_fault};
ghost use Rattle.elf_image.specs.Segments.{is_misaligned, is_writable_code, leaves_home, passes_end, shares_with_earlier};

use crate::fault::{FaultKind, ImageFault};
use crate::program_header::ProgramHeader;

fn first_past_end(segments: &[ProgramHeader], file_length: u64) -> Option<u64>
    ensures { result ≡ first_index (passes_end file_length) segments.now }
{
    let first = segments.iter().find(|s| s.passes_end(file_length))?;
    Some(first.index)
}

fn first_misaligned(segments: &[ProgramHeader]) -> Option<u64>
    ensures { result ≡ first_index is_misaligned segments.now }
{
    let first = segments.iter().find(|s| s.is_misaligned())?;
    Some(first.index)
}

fn first_outside_home(segments: &[ProgramHeader]) -> Option<u64>
    ensures { result ≡ first_index leaves_home segments.now }
{
    let first = segments.iter().find(|s| s.leaves_home())?;
    Some(first.index)
}

fn first_writable_code(segments: &[ProgramHeader]) -> Option<u64>
    ensures { result ≡ first_index is_writable_code segments.now }
{
    let first = segments.iter().find(|s| s.is_writable_code())?;
    Some(first.index)
}

fn shares_with_earlier(segments: &[ProgramHeader], segment: &ProgramHeader) -> bool
    ensures { result ≡ shares_with_earlier segments.now segment.now }
{
    segments
        .iter()
        .any(|s| s.index < segment.index && s.shares_page(segment))
}

fn first_sharing(segments: &[ProgramHeader]) -> Option<u64>
    ensures { result ≡ first_index (shares_with_earlier segments.now) segments.now }
{
    let first = segments.iter().find(|s| shares_with_earlier(segments, s))?;
    Some(first.index)
}

/// The first row on the segments of a file of this length that stands.
#[tactic(auto, unfolding(crate::specs::Rows::segment_fault))]
pub fn segment_fault(segments: &[ProgramHeader], file_length: u64) -> Option<ImageFault>
    ensures { result ≡ segment_fault file_length segments.now }
{
    if let Some(index) = first_past_end(segments, file_length) {
        return Some(ImageFault::new(FaultKind::SegmentRange, index));
    }
    if let Some(index) = first_misaligned(segments) {
        return Some(ImageFault::new(FaultKind::Align, index));
    }
    if let Some(index) = first_outside_home(segments) {
        return Some(ImageFault::new(FaultKind::OutsideHome, index));
    }
    if let Some(index) = first_sharing(segments) {
        return Some(ImageFault::new(FaultKind::SharedPage, index));
    }
    if let Some(index) = first_writable_code(segments) {
        return Some(ImageFault::new(FaultKind::WritableCode, index));
    }
    None
}
