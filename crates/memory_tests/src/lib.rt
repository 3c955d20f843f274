//! Tests of the crates of memory, over what they publish; `mem_access` and `tlb_model` have crates of their own.
//! Floor: tests.
#![tactic(auto)]

#[cfg(test)]
mod openings;
#[cfg(test)]
mod stores;
#[cfg(test)]
mod walks;
