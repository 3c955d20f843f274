//! Small memories that tests share, with the page tables that stand in them, and the control registers over these.
//! Floor: tests.
#![tactic(auto)]

mod memory;
mod pages;

pub use memory::{memory_with, peek_byte, peek_word, store_word, store_words};
pub use pages::{CONTROL, PAGES};
