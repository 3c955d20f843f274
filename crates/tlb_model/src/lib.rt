//! What the processor keeps of its walks: the translations (SDM volume 3, 4.10.2), a list of at most 1,024 pairs of a
//! page number and its leaf, and the upper entries (4.10.3), a list of at most 64; both youngest last, with the
//! operations that `nk_bits` defines on such lists. The translations stand in a table of 1,024 slots, which no contract sees:
//! slots are found by buckets, a flush begins a new generation, and a ring holds their ages. The room of all is taken when
//! it is made; no later call takes memory. When something is kept, used or dropped is left to the access, to the
//! instructions and to the plan. Floor: memory.
#![tactic(auto)]

// The upper entries; and the translations: slots, which are taken, how they are found, and the table of them.
mod chains;
mod entries;
mod listing;
mod order;
mod slot;
mod steps;
mod table;
mod translations;

pub use translations::{CAPACITY, NoMemory, Tlb};
