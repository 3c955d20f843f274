//! Tests of `nk_host` over what it publishes. Floor: tests.
#![tactic(auto)]

#[cfg(test)]
mod content;
#[cfg(test)]
mod disk;
#[cfg(test)]
mod memory;
#[cfg(test)]
mod output;
#[cfg(test)]
mod pieces;
#[cfg(test)]
mod streams;
