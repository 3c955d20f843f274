//! The words of the command line: which of the ten commands they ask for, with its numbers, and the names of its files. It
//! meets `specs/CommandLine`, looks at the words that it is given and at nothing else, and takes no memory. What is done
//! for a command, and with which files, is left to the top call. Floor: words.
#![tactic(auto)]

// Words that are numbers within bounds.
mod numbers;

// The forms of the words, and a command that was read of them.
mod command_line;
mod request;

pub use crate::command_line::{Command, Role};
pub use crate::request::Request;
