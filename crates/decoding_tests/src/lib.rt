//! Tests of the decoder and of instructions as texts, over what their crates publish. Floor: tests.
#![tactic(auto)]

#[cfg(test)]
mod assembling;
#[cfg(test)]
mod decoder;
#[cfg(test)]
mod spellings;
#[cfg(test)]
mod texts;
