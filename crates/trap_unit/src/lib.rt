//! The delivery of interrupts, traps and faults, and the return from them (SDM volume 3, 6.14; volume 2, IRET): the
//! gate is read and judged, a frame is pushed to the stack that the task-state segment names, and the registers are
//! those of the handler; IRETQ's frame is judged and loaded. It meets the definitions of `specs/`. It writes memory by
//! its pushes alone and takes no memory; which vector is delivered, and when, is left to the processor.
//! Floor: processor.
#![tactic(auto)]

// Segments, and the end of what can't be delivered.
mod selectors;
mod shutdown;

// A delivery: the gate, the stack, the whole.
mod delivery;
mod gate;
mod reads;
mod stack;

// The return.
mod trap_return;

// What follows from the definitions.
mod laws;

pub use delivery::deliver;
pub use gate::interrupt_allowed;
pub use laws::{alike_reads_law, delivery_law, return_law};
pub use shutdown::Shut;
pub use trap_return::iretq;
