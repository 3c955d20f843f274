//! The whole machine in its three states: `OuterMachine` with WP set, `GateMachine` with WP clear at a gate point, and
//! `NestedMachine` with WP clear at the nested kernel's body. Each owns processor, memory and books, and is consumed by
//! its step, so that only the body changes what the nested kernel guards. It meets the definitions of `specs/`: the next
//! state, the record guarded, what is safe, and the invariant of which safety follows, in every state of every run. What
//! a run writes, and how many turns it takes, others say. No step takes memory. Floor: whole.
#![tactic(auto)]

// The step from a state, and what it shows.
mod moves;
mod seen;

// The machine as a run begins, and what its three states share.
mod opening;
mod source;
mod touched;
mod turns_left;
mod whole;

// The three states.
mod gate;
mod machine;
mod nested;
mod outer;

// Looks that change nothing.
mod looks;

// What follows from the definitions.
mod laws;

pub use gate::GateMachine;
pub use laws::{
    entry_forms_law, hidden_law, highest_pending_law, masked_law, moves_law, safety_law, shown_law,
    turns_law, window_law,
};
pub use looks::look_up;
pub use machine::Machine;
pub use moves::Move;
pub use nested::NestedMachine;
pub use opening::NoMemory;
pub use outer::OuterMachine;
pub use seen::{Called, Seen, Step, Took};
pub use touched::StepTouched;
pub use whole::Finished;
