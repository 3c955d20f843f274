//! The common instructions in place: an instruction is taken apart once, into a quick form, and a turn by it reads and writes
//! registers and memory where they stand. It is made where each page that it needs is kept and serves it; else nothing is
//! changed, and the turn is left to others. No call takes memory. Floor: processor.
#![tactic(auto)]

// What an instruction is taken apart into.
mod kinds;
mod quick;
mod taken_apart;

// What it works on: registers whose status flags stand apart.
mod flags;
mod running;

// Loads and stores at a place that was found kept.
mod kept;

// The kinds: over registers, over memory, over the stack, of branches, of products and scans, of no operand, of strings,
// and of the supervisor.
mod branches;
mod memory;
mod operands;
mod plain;
mod products;
mod registers;
mod scans;
mod stack;
mod strings;
mod system;

// The call.
mod turn;

pub use flags::FlagParts;
pub use quick::{Kind, Quick, SLOW, Went};
pub use running::Running;
pub use taken_apart::quick_of;
pub use turn::make_at;
