//! Tests of the crates that execute instructions and deliver traps, over what they publish. Floor: tests.
#![tactic(auto)]

#[cfg(test)]
mod data;
#[cfg(test)]
mod flow;
#[cfg(test)]
mod quick;
#[cfg(test)]
mod status_flags;
#[cfg(test)]
mod traps;
