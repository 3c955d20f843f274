//! Tests of `report_text` over what it publishes. Floor: tests.
#![tactic(auto)]

#[cfg(test)]
mod audits;
#[cfg(test)]
mod lines;
#[cfg(test)]
mod sections;
#[cfg(test)]
mod tests;
