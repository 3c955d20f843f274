//! Tests of `region_book`, and of `policy_book`, which writes in its regions, over what they publish. Floor: tests.
#![tactic(auto)]

#[cfg(test)]
mod policies;
#[cfg(test)]
mod tests;
