//! Images that are made of a number: an outer kernel whose script declares page tables, fills and loads them, and
//! writes to regions, for as many processes as the number says. It meets the definition of `specs/MadeImage.antt`. Each
//! byte of the file is a pure function of the number and the byte's place, with one such function for each part of the
//! file. It takes memory for the file alone, all of it before the first byte, and time linear in the file. A law says
//! that each image is good and has room, so that its run needs no check. Floor: whole.
#![tactic(auto)]

// How large the parts of the file are, and where the opening puts them.
mod layout;

// The program headers.
mod header;

// The text at CPL 0, and a user's code.
mod text;

// The script: one record, and all of them.
mod record;
mod script;

// The whole file, and what holds of it.
mod image;
mod laws;

pub use image::{NoMemory, make_image};
pub use laws::made_image_law;
