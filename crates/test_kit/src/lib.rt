//! What tests share: rows that are tried one after the other, and the files of small images. It stands on no other crate.
//! Floor: tests.
#![tactic(auto)]

mod images;
mod rows;

pub use images::{
    HOME, SegmentHeader, halting_file, image_file, push_head, push_numbers, push_segment,
};
pub use rows::{first_wrong, first_wrong_case};
