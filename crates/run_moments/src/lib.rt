//! A run at a moment, forwards and backwards: a machine behind so many steps of the run that its parts make. Going back is
//! beginning anew, so that a moment's state is the same whichever way led to it. It meets the definitions of `specs/`, and
//! takes memory for a machine and its input where it begins anew. What a debugger asks at a moment, others say. Floor: whole.
#![tactic(auto)]

// What a run is made of, and a run at a moment.
mod moment;
mod run;

// The way to a moment.
mod going;

// Where a debugger stops.
mod stops;

// What its stops are met by: the address at which a step begins, and the bytes of watchpoints.
mod begins;
mod watched;

// The ways to a stop: over steps, forwards and backwards.
mod ahead;
mod behind;
mod passing;

pub use moment::Moment;
pub use run::Run;
pub use stops::{Catches, Stop, Stops, Watch};
