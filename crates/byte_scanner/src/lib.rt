//! The scan of outer code: the least place, or address, at which an encoding stands that outer code must not hold.
//!
//! Every offset counts, whether or not an instruction begins there, since outer code may jump to any byte. What is
//! protected is defined with the fields of instructions, in `decode_fields`; what an image maps where is `elf_image`'s.
//! Nothing here takes memory. Floor: formats.
#![tactic(auto)]

// Encodings in a slice.
mod encoding;
mod slice_scan;
// In a run of bytes that comes in pieces.
mod kept;
mod piece_scan;
mod seam;
// In the pages of an image.
mod image_scan;
// What follows where nothing is found, and what the pieces of an image's code say of it.
mod laws;

pub use crate::encoding::Found;
pub use crate::image_scan::scan;
pub use crate::laws::{clean_image_law, clean_law, page_pieces_law, pieces_law};
pub use crate::piece_scan::Scanner;
pub use crate::slice_scan::first_protected;
