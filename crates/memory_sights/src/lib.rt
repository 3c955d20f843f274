//! Memory as the addresses of a debugger name it: a linear address as the processor sees it now, or as the supervisor or
//! the user would, and a place in memory. The machine is looked at between two steps, and nothing changes: what is walked
//! for isn't kept, and no access is made. Of the nested kernel's books each byte is 0. Floor: whole.
#![tactic(auto)]

// What an address names.
mod sight;

// The bytes that are seen there.
mod seen;

pub use seen::{byte_seen, glance, read_seen};
pub use sight::{Sight, sight_of};
