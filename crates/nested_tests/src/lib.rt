//! Tests of the crates of the nested kernel, over what they publish; `nk_body`, and `region_book` with `policy_book`, have
//! crates of their own. Floor: tests.
#![tactic(auto)]

#[cfg(test)]
mod descriptors;
#[cfg(test)]
mod logs;
#[cfg(test)]
mod openings;
#[cfg(test)]
mod rules;
#[cfg(test)]
mod steps;
#[cfg(test)]
mod tables;
