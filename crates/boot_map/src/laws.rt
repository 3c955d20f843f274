//! What follows from the definitions of the opening for those who read its memory.

ghost use Rattle.std.specs.Prelude.{◌≡◌, ℕ, ◌<◌, true, List, IfOk};
ghost use Rattle.nk_bits.specs.Kinds.{allows, kind_of};
ghost use Rattle.nk_bits.specs.Paging.{is_canonical_page, walk};
ghost use Rattle.elf_image.specs.Pages.{IsPageList, pages_of};
ghost use Rattle.nk_bits.specs.KernelLayout.{opening_root};
ghost use Rattle.boot_map.specs.Division.{IsLayout, division_of};
ghost use Rattle.boot_map.specs.OpeningKinds.{kinds};
ghost use Rattle.boot_map.specs.OpeningEntries.{opening_entry};
ghost use Rattle.boot_map.specs.KernelSlot.{slot_start};
ghost use Rattle.boot_map.specs.OpeningLaws.{OpeningTablesLaws, HeldOpeningLaws, OpeningKindsLaws, OpeningBytesLaws, OpeningEntriesLaws};
ghost use Rattle.boot_map.specs.SlotLaws.{SlotLaws, SlotUpperLaws, SlotLeafLaws};

use nk_bits::upper_law;

/// The entries of the opening's tables stand in its memory, so that the walk from the opening's root finds in memory
/// what it finds in the entries.
pub fn tables_law()
    ensures { OpeningTablesLaws }
{}

/// The walk of a page of the kernel slot finds the slot's linear layout: from the opening's root, and from any root
/// whose entry 511 is the slot's, over any tables that hold the slot; the opening's memory holds it.
pub fn slot_law()
    ensures { SlotLaws }
{}

/// The upper entries of the kernel slot's pages: in any tables that hold the slot, from any root whose entry 511 is the
/// slot's, a walk comes to those of the opening, whose frames are in memory, and below each it finds the slot's linear
/// layout.
pub fn slot_upper_law()
    ensures { SlotUpperLaws }
{
    upper_law();
}

/// What follows for tables that hold the opening's page tables: they hold the kernel slot, from the opening's root too,
/// whose walk finds in them what it finds in the opening's entries. The opening's memory holds them, and no page table
/// may be stored to.
pub fn held_law()
    ensures { HeldOpeningLaws }
{}

/// What the leaves of the kernel slot grant: none is the user's, each names a frame in memory; an executable one is the
/// gates' or that of an executable page of the image, whose frame is code; a writable one names a frame that may be
/// stored to.
pub fn slot_leaf_law()
    ensures { SlotLeafLaws }
{}

/// The kinds of the frames that every opening has at the same place, and the list of the kinds of all frames.
pub fn opening_kinds_law()
    ensures { OpeningKindsLaws }
{}

/// The bytes of the gates' text and of the image's pages in the opening's memory.
pub fn opening_bytes_law()
    ensures { OpeningBytesLaws }
{}

/// Outside the kernel slot the walk of a canonical page from the opening's root grants only what the kind of the frame
/// that it finds allows.
pub fn opening_respects_law()
    ensures { (b : List ℕ) (frames page : ℕ) → IsLayout b (division_of b frames)
        → IsPageList b (pages_of b) → is_canonical_page page ≡ true → page < slot_start
        → IfOk (walk (opening_entry b frames) frames opening_root page)
        (λ leaf. allows (kind_of (kinds b frames) leaf.frame) leaf.rights ≡ true) }
{}

/// Tables that hold the opening's: no table is of a level above 4; a present entry at level 1 names a frame whose kind allows
/// its rights, one above it a table of the next lower level, with every right, and entry 511 of the root is the kernel
/// slot's. Tables that hold the kernel slot: its tables lead to each other alone, that for the image to fixed frames other
/// than the handler's; and a writable leaf of the slot stands in one of its tables of level 1. A present entry of each of these
/// tables has the form of its level, in the kernel slot's own tables too.
pub fn opening_entries_law()
    ensures { OpeningEntriesLaws }
{}
