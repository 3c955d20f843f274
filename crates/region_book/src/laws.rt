//! What follows from the definitions for those who say what a call on regions leaves: each byte of a live region has a place
//! of its own, the frames of a declaration stand once and become guarded, and its pages keep their numbers.

ghost use Rattle.region_book.specs.RegionLaws.{ApartLaws, DeclaredLaws, HeldRegionsLaws, NumberedLaws};

use phys_mem::{mask_law, memory_law};

/// In a sound book no byte of a live region stands where another byte of it stands, nor where one of another live region
/// does; so a write to one region leaves every byte of all others. Each region of the list is the one of its identifier.
pub fn apart_law()
    ensures { ApartLaws }
{
    memory_law();
}

/// What a declaration of pages asks of their frames and makes of the kinds: frames that don't hold one twice stand once each,
/// and those that are guarded one after the other are guarded together.
pub fn declared_law()
    ensures { DeclaredLaws }
{}

/// Regions in memory: a memory with the same bytes in their frames holds the same book, and a change of these bytes alone
/// doesn't show.
pub fn held_regions_law()
    ensures { HeldRegionsLaws }
{
    mask_law();
}

/// Declared pages are numbered from 0 on in the order in which they were declared: the book gives the number of each region's
/// first page, and no call on regions changes it.
pub fn numbered_law()
    ensures { NumberedLaws }
{}
