//! The machine's physical memory: frames of 4,096 bytes, held in one allocation that is zeroed when it is made, lent by
//! runs, and freed once, at the memory's end. A contract sees one list of bytes, of which `specs/Memory.antt` says what a
//! read finds and a store leaves. `cells` alone follows the pointer; `block` and `memory` are safe code over it. This crate
//! alone holds and touches those bytes; what an address or a frame means, and who may write it, is left to others. Floor:
//! memory.
#![tactic(auto)]

// The allocation, from the pointer up.
mod block;
mod cells;

// The memory over it.
mod memory;

// What follows from the definitions.
mod laws;

pub use laws::{frame_law, mask_law, memory_law};
pub use memory::{NoMemory, PhysMem};
