//! The nested kernel's work on one call: it judges the call by the rules of `specs/CallRules.antt`, in order, and makes
//! what an accepted one asks of the record that `specs/NestedRecord.antt` reads from its books and memory. It touches the
//! memory that it is handed and its own books, and no register; only its start takes memory. Floor: nested kernel.
#![tactic(auto)]

// The calls, what is read for one, and the books with the calls on them.
mod call;
mod kernel;
mod source;

// What follows from the definitions.
mod laws;

pub use call::{
    ALLOCATE, Call, DECLARE_PAGES, DECLARE_TABLE, FREE, LOAD_ROOT, REMOVE_TABLE, SET_HANDLER,
    WRITE, WRITE_ENTRY, call_of,
};
pub use kernel::{Kernel, NoMemory};
pub use laws::{beside_law, call_law, call_leaves_law, held_law, opening_sound_law, stores_law};
pub use source::Source;
