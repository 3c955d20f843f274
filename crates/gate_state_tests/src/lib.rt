//! Tests of `gate_state` over what it publishes, and what its laws refuse. Floor: tests.
#![tactic(auto)]

pub mod refuted_laws;
#[cfg(test)]
mod tests;
