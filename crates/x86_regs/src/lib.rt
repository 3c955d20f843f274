//! The effect of an instruction: the plain values that pass between the parts of one turn, an instruction's effect or
//! fault, the frame of a return, and the places of the tables of delivery; what operations make of the values of their
//! operands; and the engine that executes an instruction by its plan and its outcome. Beside them the registers that an
//! effect is over, with reads and partial writes of the general ones (SDM volume 1, 3.4.1). It meets the definitions of
//! `specs/`; which plan and outcome an instruction has, and how accesses are made, is left to the crates above. Floor:
//! processor.
#![tactic(auto)]

// The registers, and the operands that name them.
mod operands;
mod registers;

// The form of an operation, which says what its accesses are, and the conditions on flags.
mod conditions;
mod form;

// What an operation makes of the values of its operands, and whether a branch is taken.
mod bits;
mod combinations;
mod halves;
mod movements;
mod numbers;
mod questions;
mod sums;
mod taken;

// What an instruction does or raises, and what passes to and from a delivery.
mod delivery;
mod effects;
mod faults;
mod flag_changes;
mod refusals;
mod writes;

// An instruction, by its plan and its outcome.
mod execution;

// What follows from the definition of an effect.
mod laws;

pub use combinations::{
    combination, comparison, frequent_combination, frequent_comparison, usual_combination,
    usual_comparison,
};
pub use conditions::{bit, condition_stands};
pub use delivery::{Frame, Tables};
pub use effects::{Act, Change, Effect, Write};
pub use execution::{Execution, planned_effect};
pub use faults::Fault;
pub use flag_changes::{DF, IF, flags_changed, flags_popped};
pub use form::{DataForm, FlowForm, Form, data_form, flow_form, instr_form};
pub use halves::{set_halves, upper_half};
pub use laws::{alike_law, bound_law, effect_law, grant_law};
pub use movements::{movement, source_width};
pub use numbers::{extended, ones, sign};
pub use operands::{
    RAX, RBP, RCX, RDI, RDX, RSI, RSP, fallen, from_address, from_source, going_on, lowered,
    next_of, place_span, pop_source, push_span, risen, stack_span, string_span, to_source,
};
pub use questions::{control_value, is_asked, is_forward, is_repeated, is_signed};
pub use refusals::{is_unconditional, raised, refusal};
pub use registers::{Regs, held, low, set_place, set_register, with_register, written};
pub use sums::{difference, sum};
pub use taken::{count_by, count_taken, is_taken, set_count};
pub use writes::write_of;
