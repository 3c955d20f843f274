//! Files to read, a place to write to and one to read from, as three traits with a count of faults
//! each: the whole of what the programs ask of the outside. `Shelf`, `Sink` and `Source` meet the
//! definitions of `specs/Files`, `specs/Taken`, `specs/SourceTakes` and `specs/FaultCounts`.
//! `MemShelf`, `MemSink` and `MemSource` lie in memory, tell their content, and fail where they are told
//! to; `FileShelf`, `StdSink` and `std_source` reach the machine's files, its standard output and its
//! standard input, and tell no content. Both go over readers and writers of std with their faults
//! counted (`Counted`), which are published too: `read_whole`, `fill` and `fill_from`, the last with a
//! place that is kept (`Placed`), meet `specs/Streams`, and `write_whole` `specs/Taken`. This crate
//! alone touches the machine; what files hold and what is written it leaves to the crates above.
//! Floor: outside.
#![tactic(auto)]

// What is asked of the outside, and what is answered where it fails.
mod fault;
mod shelf;
mod sink;
mod source;

// A text of any length, put in pieces; its bytes may come one by one.
mod pieces;

// Readers and writers, with their faults counted; a reader may stand at a known place.
mod counted;
mod filling;
mod placed;
mod whole;

// The machine's files, its standard output and its standard input.
mod file_shelf;
mod standard_input;
mod std_sink;

// Files, output and input in memory.
mod mem_shelf;
mod mem_sink;
mod mem_source;

pub use counted::Counted;
pub use fault::{FetchFault, NoMemory, PieceFault, SinkFault, SourceFault};
pub use file_shelf::FileShelf;
pub use filling::{fill, fill_from};
pub use mem_shelf::MemShelf;
pub use mem_sink::MemSink;
pub use mem_source::MemSource;
pub use pieces::{PIECE, Pieces, pieces_law, put_all};
pub use placed::Placed;
pub use shelf::Shelf;
pub use sink::Sink;
pub use source::Source;
pub use standard_input::std_source;
pub use std_sink::StdSink;
pub use whole::{read_whole, write_whole};
