//! Tests of `code_modules` over what it publishes. Floor: tests.
#![tactic(auto)]

#[cfg(test)]
mod tests;
