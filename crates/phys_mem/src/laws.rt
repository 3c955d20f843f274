//! What follows from the definitions of memory for those who read it after stores: elsewhere a read finds what it found
//! before, and at the same place what was stored.

ghost use Rattle.phys_mem.specs.MemoryLaws.{MemoryLaws, FrameLaws};
ghost use Rattle.phys_mem.specs.MaskLaws.{MaskLaws};

/// Bytes and numbers after stores.
pub fn memory_law()
    ensures { MemoryLaws }
{}

/// Frames, and the entries of the tables in them, after stores and after a frame is zeroed.
pub fn frame_law()
    ensures { FrameLaws }
{}

/// Memory with frames hidden, by any test of a frame's number: elsewhere all stays, stores elsewhere are made there
/// too, and stores in hidden frames don't show. Where what is hidden is 0, it is the memory itself.
pub fn mask_law()
    ensures { MaskLaws }
{}
