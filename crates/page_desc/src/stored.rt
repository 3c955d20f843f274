//! What follows from the form of the descriptors in memory, for those who change other bytes.

ghost use Rattle.page_desc.specs.StoredLaws.{StoredLaws, HeldTablesLaws};

use phys_mem::{frame_law, mask_law, memory_law};

/// Descriptors in memory: there is one for each frame. A memory with the same bytes in the frames from 64 on that nobody
/// else sees holds the same ones; a change of descriptors alone doesn't show, and leaves the bytes in front of them.
pub fn stored_law()
    ensures { StoredLaws }
{
    mask_law();
}

/// Tables under descriptors in memory: they stay, with the descriptors, over stores outside tables, outside the bytes that
/// never change and in frames that aren't hidden, and these stores show. The walk of any page over all of memory is the one
/// over what is seen of it.
pub fn held_tables_law()
    ensures { HeldTablesLaws }
{
    memory_law();
    frame_law();
    mask_law();
}
