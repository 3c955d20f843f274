//! Tests of accesses to memory and of the translations that are kept, over what their crates publish. Floor: tests.
#![tactic(auto)]

#[cfg(test)]
mod access;
#[cfg(test)]
mod translations;
