//! What follows from the definitions, for those who change tables and kinds. Tables are any function from frame and index
//! to a value, so that the laws serve memory and every other record of the tables alike.

ghost use Rattle.page_desc.specs.CountLaws.{CountLaws, DescriptorLaws};
ghost use Rattle.page_desc.specs.SoundLaws.{SoundLaws};
ghost use Rattle.page_desc.specs.PageTableLaws.{MemoryTablesLaws, PageTablesLaws, RecordWalkLaws, GuardedLaws};

use nk_bits::kind_law;
use phys_mem::{frame_law, memory_law};

/// The counts made anew after an entry of a table is replaced, over tables that agree in each frame that may hold one, after
/// the kind of a frame with no present entry changes, and after a frame becomes a new table or an empty one data: then the
/// kernel slot's entry of a table of level 4 alone counts, for frame 6. What a count of 0 says, and the most that one can be.
pub fn count_law()
    ensures { CountLaws }
{
    kind_law();
}

/// The carried counts may be changed as `Frames::replace` changes them, and go on being those of the tables: over an entry
/// replaced, over tables of the same entries, over changes in frames that hold no table, over another kind of a frame with
/// no present entry, over a new table whose last entry was counted, and over an empty table whose last entry is counted no
/// more.
pub fn descriptor_law()
    ensures { DescriptorLaws }
{
    kind_law();
}

/// Over sound tables the walk of a canonical page outside the kernel slot, from any table of level 4, finds only a leaf
/// that the kind of its frame allows, and so does what is left of a walk from any table; on the way it comes to tables
/// of the next lower level alone, with all rights. Sound tables stay sound over a lawful entry, over changes in frames
/// that are no tables, and where a frame of data with no loose leaf becomes a new table or guarded, a table that
/// nothing links data, and a guarded frame data. What a lawful entry is by its level. A present entry of sound tables
/// has the form of its level, and so has the kernel slot's value.
pub fn sound_law()
    ensures { SoundLaws }
{
    kind_law();
}

/// The tables of a memory after an entry is stored, after a frame is zeroed, and after a new table's last entry is stored in
/// a zeroed frame.
pub fn memory_tables_law()
    ensures { MemoryTablesLaws }
{
    frame_law();
}

/// What memory's sound tables stand for: their counts are those of memory; and stores outside tables and outside the bytes
/// that never change leave them, and keep them sound, with the descriptors.
pub fn page_tables_law()
    ensures { PageTablesLaws }
{
    memory_law();
    frame_law();
}

/// The walk over what sound tables stand for is the walk over memory, of every page.
pub fn record_walk_law()
    ensures { RecordWalkLaws }
{}

/// A frame of data that has no loose leaf becomes guarded: tables stay sound, descriptors stay theirs, and but for the kinds
/// the tables stay.
pub fn guarded_law()
    ensures { GuardedLaws }
{
    kind_law();
}
