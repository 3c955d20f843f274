//! Tests of `nk_body` over what it publishes. Floor: tests.
#![tactic(auto)]

#[cfg(test)]
mod tests;
