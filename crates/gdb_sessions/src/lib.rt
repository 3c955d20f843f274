//! A debugger's session on a run: where it stands, and what a question makes of that. It meets the definitions of `specs/`,
//! and takes memory for replies, for stops, and where it goes back. How questions come and replies go, others say. Floor:
//! whole.
#![tactic(auto)]

// What stops a debugger.
mod points;

// Where a question asks it to go, and the whole of what is made of one.
mod moves;
mod session;

pub use session::Session;
