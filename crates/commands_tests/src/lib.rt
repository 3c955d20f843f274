//! Tests of what commands but `run` are made of, over what their crates publish. Floor: tests.
#![tactic(auto)]

#[cfg(test)]
mod made_images;
#[cfg(test)]
mod processes;
#[cfg(test)]
mod replays;
