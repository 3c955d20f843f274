//! What the instructions of arithmetic, of moves, of the stack and of strings do, and those that change CF, DF or
//! nothing. It meets the definition of an effect of `x86_regs` on these forms (`DataForm`): the registers after an
//! instruction and its one write, or its fault. An instruction plans its accesses by its registers, makes them in
//! order, and computes its change as a value of what they read. It reads memory and changes the translations kept; it
//! writes no byte and takes no memory. Floor: processor.
#![tactic(auto)]

// What each form makes of the values that it reads.
mod changes;
mod stack;
mod strings;
mod wide;

// Which accesses a form makes, and what it does with what they read.
mod outcomes;
mod plans;

// The call.
mod execution;

pub use execution::{effect, effect_of};
