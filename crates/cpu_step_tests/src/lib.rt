//! Tests of `cpu_step` over what it publishes. Floor: tests.
#![tactic(auto)]

#[cfg(test)]
mod tests;
