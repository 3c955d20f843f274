//! Paging, as words and as definitions that the crates above cite: canonical addresses and table indices, page-table entries
//! and their rights, control registers, accesses and their faults; in `specs/` the walk over page tables, the translations
//! that the processor keeps, and the judgement of an access. Beside it the words of the nested kernel: its layout, the kinds
//! of frames, the rules of its calls and the words in which a call and its answer travel. It touches nothing but its
//! arguments and takes no memory; reading tables, keeping translations and judging calls is left to others. Floor: words.
#![tactic(auto)]

// Linear addresses, and the entries that they select.
mod address;
mod entry;
mod leaf;

// Where the nested kernel stands.
mod layout;

// Kinds of frames, and accesses to them.
mod access;
mod control;
mod fault;
mod kind;

// Calls of the nested kernel.
mod call;
mod rule;

// What follows from the definitions.
mod laws;

pub use access::Access;
pub use address::{canonical, index};
pub use call::{Answer, CallWords, Delivery};
pub use control::Control;
pub use entry::{Entry, EntryFlags};
pub use fault::AccessFault;
pub use kind::Kind;
pub use laws::{
    access_law, kept_law, kind_law, named_law, span_law, table_law, translation_law, upper_law,
    walk_law,
};
pub use layout::{
    AREA_DIRECTORY, AREA_START, AREA_TABLE, BODY, EXIT, GATE, GATE_TEXT, HANDLER_FRAME,
    IDT_AND_TSS, IMAGE_DIRECTORY, NESTED_STACK, NESTED_STACK_TOP, OPENING_ROOT, POOL_END,
    POOL_FRAME, POOL_START, SLOT_TABLE, TRAP_STACK, TRAP_STACK_TOP, TSS_ADDRESS, layout_law,
};
pub use leaf::{Leaf, Rights, Target, Upper};
pub use rule::Rule;
