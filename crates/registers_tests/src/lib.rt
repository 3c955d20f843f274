//! Tests of registers and ports, over what their crates publish. Floor: tests.
#![tactic(auto)]

#[cfg(test)]
mod ports;
#[cfg(test)]
mod registers;
