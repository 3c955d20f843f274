//! The log of accepted writes: a list of records, each with its region, offset and bytes, within 65,536 bytes of which a
//! record takes 24 beside its own. They stand in guest memory, in frames 26 to 41; `specs/LogBytes.antt` says how. No call
//! takes memory. Which writes are logged, others say; no record ever goes. Floor: nested kernel.
#![tactic(auto)]

// A record's bytes.
mod record;

// The log, and what follows from its form.
mod laws;
mod log;

pub use laws::held_log_law;
pub use log::{Log, Noted, Spot};
