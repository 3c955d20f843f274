//! Tests of `nk_run` over what it publishes. Floor: tests.
#![tactic(auto)]

#[cfg(test)]
mod tests;
