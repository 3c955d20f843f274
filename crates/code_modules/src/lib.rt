//! Modules of code that are joined with an image before it starts: a list that names them, and the file of an image
//! that has them behind its own segments, with a directory of them. It meets the definitions of `specs/`: the list is
//! `list_of` of a file's bytes, and what comes of a join is `join_answer`, which is a file by the byte at each place, or
//! the first check that refuses it. Laws say what a joined file loads, and when modules may be scanned one by one. It
//! takes memory for the list and for the file alone. Fetching the modules is left to others. Floor: whole.
#![tactic(auto)]

// Why something is refused.
mod fault;

// The list of modules.
mod list;
mod list_line;

// The parts of a joined image: each by itself, and each in its place in the file.
mod layout;
mod part;
// The image's, the modules' and the directory.
mod image_parts;
mod module_parts;

// The whole file.
mod file;
mod image_join;

// What follows.
mod laws;

pub use fault::{JoinFault, ListFault};
pub use image_join::join;
pub use laws::{guarded_law, joined_law, list_law};
pub use list::{List, read_list};
