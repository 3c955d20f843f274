//! Lays out memory at the opening of an image: which frame serves what, the kind of each frame, the entries of the page
//! tables and every byte. It meets the definitions of `specs/`, from `Division.antt` (how many frames of each part) to
//! `Opening.antt` (the byte at each place). It reads the image through its public questions and writes nothing but the
//! memory that it makes; registers, the walk of the tables and what happens afterwards it leaves to others. Floor:
//! memory.

#![tactic(auto)]

// The image's pages, and the part of each frame.
mod image_pages;
mod layout;
mod part;

// What the parts hold.
mod entries;
mod kinds;
mod trap_frames;

// The memory, and what follows for those who read it.
mod laws;
mod opening;

pub use laws::{
    held_law, opening_bytes_law, opening_entries_law, opening_kinds_law, opening_respects_law,
    slot_law, slot_leaf_law, slot_upper_law, tables_law,
};
pub use layout::{Layout, NoRoom};
pub use opening::{NoMemory, prepare};
