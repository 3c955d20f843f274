//! Rows that were recorded on a processor: the fields of a row, a key, `=` and a value, all numbers hexadecimal, and the
//! bytes of memory that fields name; and the comparison of all rows of a file, by whoever compares one. It knows no row as
//! a whole. Floor: program.
#![tactic(auto)]

mod comparison;
mod field;
mod memory;

pub use comparison::{Comparison, compare_rows};
pub use field::{Register, parse_bytes, parse_number, parse_register, split_field};
pub use memory::{MemoryByte, byte_at, push_bytes};
