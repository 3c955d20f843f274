//! What follows from the definitions for those who say what a whole machine keeps.

ghost use Rattle.nk_body.specs.CallLaws.{CallLaws, CallLeavesLaws};
ghost use Rattle.nk_body.specs.BookLaws.{StoresLaws, HeldBooksLaws, OpeningSoundLaws, BesideLaws};

use boot_map::{opening_entries_law, opening_kinds_law};
use nk_bits::walk_law;
use page_desc::{guarded_law, page_tables_law, record_walk_law, sound_law, stored_law};
use phys_mem::{frame_law, memory_law};
use region_book::{apart_law, declared_law, held_regions_law};
use vmmu::{accepted_law, table_calls_law};
use write_log::held_log_law;

/// Memory after a call stands for the record that the call makes, whose tables are sound and whose regions lie in guarded
/// frames.
pub fn call_law()
    ensures { CallLaws }
{
    memory_law();
    frame_law();
    page_tables_law();
    table_calls_law();
    accepted_law();
    guarded_law();
    declared_law();
    record_walk_law();
    walk_law();
}

/// What a call leaves of kinds and bytes: kinds that are settled stay and no frame gets one that is reserved; a frame with a
/// loose leaf that may be stored to still may; outside the handler slot frames of settled kinds but Guarded keep their
/// bytes. Where translations stay, so do kinds and root. At most one identifier more is used.
pub fn call_leaves_law()
    ensures { CallLeavesLaws }
{
    memory_law();
    frame_law();
    page_tables_law();
    table_calls_law();
    accepted_law();
    guarded_law();
    declared_law();
    record_walk_law();
    walk_law();
}

/// Stores in frames that may be stored to leave the record, keep its tables sound, and keep the books.
pub fn stores_law()
    ensures { StoresLaws }
{
    memory_law();
    page_tables_law();
}

/// The books stay held over other bytes in frames that aren't the books', under which they and what is seen of memory stand
/// for one record.
pub fn held_law()
    ensures { HeldBooksLaws }
{
    stored_law();
    held_regions_law();
    held_log_law();
}

/// The opening's memory holds sound tables under the opening's root, and its ledger is kept: the pool is guarded.
pub fn opening_sound_law()
    ensures { OpeningSoundLaws }
{
    boot_map::held_law();
    opening_kinds_law();
    opening_entries_law();
    sound_law();
}

/// The accepted calls, made once more in a memory that doesn't take the outer kernel's stores, leave a record beside the one
/// that they made: the opening's is beside itself, and each accepted call keeps that. Every call is judged and answered alike
/// over both.
pub fn beside_law()
    ensures { BesideLaws }
{
    memory_law();
    frame_law();
    accepted_law();
    apart_law();
    declared_law();
    opening_kinds_law();
}
