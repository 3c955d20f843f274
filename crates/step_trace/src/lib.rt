//! The steps of a machine, a line each, with what they change: the machine's own calls take them, and it is looked at
//! between them. Its lines are in docs/FORMATS.md. What is written is the trace that `specs/` defines, or a part from its
//! beginning. Floor: whole.
#![tactic(auto)]

// What is shown.
mod asked;

// Words and names.
mod names;
mod words;

// The parts of a line: the instruction, registers, memory, what is kept of walks, and what is shown.
mod code;
mod kept;
mod memory;
mod registers;
mod shown;

// The line of a step, and the state that a trace begins at.
mod line;
mod state;

// How a trace begins and ends.
mod ends;
mod opening;
mod passing;
mod reach;

// Where instructions began.
mod ran;

// The steps.
mod steps;
mod telling;

pub use crate::asked::{Kind, MemoryShown, Shown};
pub use crate::ends::TraceFault;
pub use crate::opening::put_all_kept;
pub use crate::ran::put_ran;
pub use crate::state::put_state;
pub use crate::steps::drive_shown;
pub use crate::words::{put_16, put_bytes, put_decimal, put_text};
