//! Writes in regions: the policies, and what an accepted write makes of book, log and memory, by the rules of
//! `specs/PolicyRules.antt` in order. It takes no memory; the bytes are those that the caller read. Floor: nested kernel.
#![tactic(auto)]

mod policy;

pub use policy::write;
