//! Tests of the crates of words, over what they publish. Floor: tests.
#![tactic(auto)]

#[cfg(test)]
mod arithmetic;
#[cfg(test)]
mod bit_fields;
#[cfg(test)]
mod instruction_fields;
#[cfg(test)]
mod lines;
