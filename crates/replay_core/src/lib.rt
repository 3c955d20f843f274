//! The replay of a journal: the calls of a run, made without the processor. It meets the definitions of `specs/`: what
//! a line says by its words, and what the calls make of books and memory. It touches the books and the memory that it
//! is handed, and takes memory before the first line alone. Fetching the journal, and writing what the calls leave, is
//! left to others. Floor: whole.
#![tactic(auto)]

mod fault;

// A line by its words: numbers and texts, what they say, and the bytes that a call took.
mod heard;
mod source;
mod word;

// The calls of all lines, and one of them by its answer.
mod calls;
mod granting;

pub use calls::replay;
pub use fault::ReplayFault;
pub use granting::{granted, granted_law};
