//! Texts of lines: the lines of a text of bytes, the words of a line, and numbers as words spell them. It meets the
//! definitions of `specs/`, looks at the bytes that it is given and at nothing else, and takes no memory. What the
//! words of a line mean, and which lines are in form, is left to the formats. Floor: words.
#![tactic(auto)]

mod cut;

// A text by lines, a line by words.
mod line;
mod words;

// Words that are numbers.
mod number;

pub use line::cut_line;
pub use number::{all_digits, decimal, hexadecimal, is_least};
pub use words::{MOST_WORDS, is_text, split_words};
