//! What the instructions of flow and of the system do: branches, calls and returns, traps and their return, the flags
//! as a whole, IF, HLT, ports, control registers, tables and pages. It meets the definition of an effect of `x86_regs`
//! on these forms (`FlowForm`): the registers after an instruction, its one write and what it asks of the processor, or
//! its fault. It reads memory and changes the translations kept; it writes no byte and takes no memory. Floor:
//! processor.
#![tactic(auto)]

// An instruction: its conditions, its accesses in order, its outcome, the check of its write.
mod execution;
mod outcomes;
mod plans;
mod sole_acts;

// What each form makes of the values that it reads.
mod branches;
mod flags;
mod interrupt_returns;
mod system;

pub use execution::{effect, effect_of};
pub use sole_acts::sole_act;
