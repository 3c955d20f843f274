//! The text of the gates between the outer and the nested kernel: entry, exit and trap, as bytes. It meets the
//! listing of `specs/Listing.antt`. It reads nothing and changes nothing; where the text stands in memory, and
//! what its instructions do, others say. Floor: formats.

#![tactic(auto)]

mod text;

pub use text::{byte, is_point, listing_law};
