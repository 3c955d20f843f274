//! The plan of a run: the events that come from outside, each with the number of turns after which it is due. It meets
//! the definition of the plan file in `specs/`, and takes memory for the events alone. When an event is taken, and what
//! it does to the processor, is left to others. Floor: formats.
#![tactic(auto)]

mod event;
mod fault;

// A line of the file, and all lines.
mod line;
mod plan;

// What follows from the definition.
mod law;

pub use event::{Event, What};
pub use fault::PlanFault;
pub use law::plan_law;
pub use plan::Plan;
