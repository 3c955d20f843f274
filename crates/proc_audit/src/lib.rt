//! A list of processes in the bytes of a region, followed to find those that were hidden by unlinking them. It meets the
//! definitions of `specs/`: the region is a row of slots, the chain is the slots that its links meet from slot 0 on, and
//! what a slot hides is `hidden_at`. An audit begins with zeros, takes writes over them as they come, and can be asked
//! about the bytes that these left at any time. It looks at the bytes that it is given and at nothing else, and takes
//! memory only when it starts. Which region has a list, and what is told of it, is left to others. Floor: whole.
#![tactic(auto)]

// The numbers of a slot.
mod slot;

// The chain from slot 0 on.
mod chain;

// The region's bytes with what is kept of their chain.
mod audit;

// What follows.
mod laws;

pub use audit::{Audit, NoMemory};
pub use laws::process_law;
