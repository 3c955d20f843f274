//! Accesses to memory by linear address (SDM volume 3, 4.6, 4.7 and 4.10): loads, stores and instruction fetches of the
//! processor, over the translations kept and else a walk of the page tables, which begins at an upper entry where one
//! is kept, exactly as `nk_bits` and `page_walk` define an access. A check touches what is kept alone; only `commit`,
//! `store` and `put_kept` write memory, and only the bytes of the access. The accesses that an instruction plans are made
//! in the order of their faults. No call takes memory. Which accesses those are, and what a fault leads to, is left to
//! the instructions. Floor: memory.
#![tactic(auto)]

// An access, by the addresses of its bytes and by its pages; where those are kept, nothing changes.
mod access;
mod kept;
mod pages;
mod runs;
mod span;
mod window;

// The accesses of an instruction, in order.
mod plan;

// What a page grants, and the bytes of an access.
mod bytes;
mod rights;

pub use access::{check_store, commit, fetch_byte, fetch_place, load, page_bytes, store};
pub use bytes::run_on_page;
pub use kept::{kept_frame, kept_number, one_page_law, put_kept};
pub use nk_bits::{AccessFault, Control, Target};
pub use page_walk::{AccessPlan, Gathered, Missing, Origin, Span, SpanFault};
pub use pages::{translate, walk_kept};
pub use plan::{check_span, gather};
pub use runs::kept_run;
pub use window::{KeptPage, Window};
