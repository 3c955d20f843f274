//! The arithmetic of the processor: results and status flags of add, subtract, logic, shifts, rotations,
//! multiply, divide and bit scans, for operands of 8, 16, 32 and 64 bits (SDM volume 1, 3.4.3, and the
//! instructions' pages of volume 2). Each call meets the definitions of `specs/`, which speak of numbers,
//! carries and ranges; a flag that an operation doesn't name, or that the manual leaves undefined, keeps its
//! value. A call takes plain values and answers plain values: it touches no register and no memory, and which
//! instruction uses which call is left to the effect of instructions. Floor: words.
#![tactic(auto)]

mod answers;
mod bitwise;
mod choices;
mod flags;
mod products;
mod quotients;
mod rotations;
mod scans;
mod shifts;
mod sums;
mod width;

pub use answers::{Divide, Out, Quotient};
pub use bitwise::logic;
pub use choices::{Logic, Shift};
pub use flags::{AF, CF, OF, PF, SF, ZF, flag_law, with_flag};
pub use products::multiply;
pub use quotients::divide;
pub use rotations::rotate;
pub use scans::scan_bit;
pub use shifts::shift;
pub use sums::{add, sub};
