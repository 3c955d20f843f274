//! The scan of an image's file on a shelf, which is read in pieces: its size, its headers, and the pages that may be
//! executed, one after another in the same room. So neither the file nor the image is held, and no memory is taken but the
//! shelf's. It meets `specs/ScanStops`, and touches the outside through the shelf alone; what is said of an image that
//! isn't admitted is left to the top call. Floor: formats.
#![tactic(auto)]

// The headers, from the pieces that have them.
mod pieces;

// The pages, each read and scanned in turn.
mod page_pieces;

pub use crate::page_pieces::scan_file;
pub use crate::pieces::{Admitted, FILE_LIMIT, Stop};
