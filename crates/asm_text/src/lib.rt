//! Instructions as texts, and as their least spellings. It meets the definitions of `specs/`: the text of an instruction,
//! and which instructions have one; and which of its spellings is the least. Which bytes spell which instruction is said
//! by the table of opcodes in `x86_decode`; here byte strings are tried, checked with its decoding, and the best of them
//! is kept. It looks at what it is given and at nothing else. Printing, reading and encoding take no memory;
//! a text of lines is assembled into a list. Floor: formats.

#![tactic(auto)]

mod operation;

// Texts: what is printed, and what is read.
mod op_names;
mod parsing;
mod printing;
mod reading;

// What follows of them.
mod text_laws;

// The order of spellings, and whether bytes are one.
mod order;
mod sameness;

// The best so far.
mod best;

// What is tried.
mod assembly;
mod fitting;
mod row_index;
mod search;
mod skipping;

// The least of all.
mod least;

// A text of lines as code.
mod assembling;

pub use assembling::{TextFault, assemble, assembly_law};
pub use least::encode;
pub use printing::{hex_digit, print};
pub use reading::read;
pub use text_laws::{more_digits_law, one_digit_law, round_trip, text_law};
