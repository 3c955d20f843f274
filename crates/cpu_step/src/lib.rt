//! One turn of the processor: an interrupt is delivered, or the instruction at RIP is fetched, its effect made, and what
//! it asks of the processor done; a fault is delivered. It meets `turned` of `specs/Turns.antt`: registers, control
//! registers, translations, ports and memory after the turn, and what the turn shows; and `event_taken` for the events
//! of a plan. It owns the processor's state, and changes memory by an instruction's one write and the pushes of a
//! delivery. The nested kernel's body isn't run here: no turn begins where it is to run. No turn takes memory. Floor:
//! processor.
#![tactic(auto)]

// What a turn shows, and the fetch that begins it.
mod fetch;
mod kept_code;
mod line_turns;
mod lines;
mod memo;
mod stepped;
mod stretches;
mod touched;

// What an instruction does, and what it asks; deliveries.
mod acts;
mod delivered;
mod execution;
mod sole_turns;

// The events of a plan.
mod events;

// The whole, and turns by quick forms.
mod processor;
mod quick_turns;
mod turn;

// What follows from the definitions.
mod laws;

pub use fetch::Fetched;
pub use laws::{alike_fetch_law, fetch_law, pending_law, turn_stores_law};
pub use processor::{Cpu, NoMemory};
pub use stepped::Stepped;
pub use touched::Touched;
