//! The walk over the page tables in memory: SDM volume 3, 4.5. It finds the frame and the rights of a page, or the
//! first level whose entry is missing, exactly as `nk_bits` defines the walk over a table function, here that of a
//! memory. A walk can also begin below an upper entry that was looked up before, or end at one. Paging meets memory in
//! `specs/MemoryAccess.antt`, which says what an access by linear address reads and leaves. The crate reads memory and
//! changes nothing; what a walk is made for, and the translations that are kept, are left to others. Floor: memory.
#![tactic(auto)]

// The walk, and the accesses that an instruction plans.
mod levels;
mod plan;

// What follows from the definitions.
mod laws;

pub use laws::places_law;
pub use levels::{Missing, upper, walk, walk_below};
pub use nk_bits::{Leaf, Upper};
pub use plan::{AccessPlan, Gathered, Origin, Span, SpanFault};
