//! Tests of the crates of formats, over what they publish; `x86_decode` and `asm_text` have crates of their own.
//! Floor: tests.
#![tactic(auto)]

#[cfg(test)]
mod fault_pairs;
#[cfg(test)]
mod files;
#[cfg(test)]
mod gates;
#[cfg(test)]
mod images;
#[cfg(test)]
mod loads;
#[cfg(test)]
mod plans;
#[cfg(test)]
mod scans;
