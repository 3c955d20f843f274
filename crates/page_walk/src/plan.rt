//! What an instruction asks of memory: its accesses, in the order of its faults. No register is named here.

use nk_bits::{AccessFault, Target};

/// The bytes that an operand has in memory.
#[derive(Clone, Copy, Debug, PartialEq, Eq)]
pub struct Span {
    /// The linear address of the first.
    pub va: u64,
    /// How many: 1, 2, 4 or 8 bytes.
    pub width: u8,
    /// Whether the stack is addressed, so that an address that isn't canonical raises #SS in place of #GP.
    pub stack: bool,
}

/// Where the value of an operand comes from.
#[derive(Clone, Copy, Debug, PartialEq, Eq)]
pub enum Origin {
    /// It is at hand: in a register or in the instruction, or there is no operand and it is 0.
    Is(u64),
    /// It stands in memory.
    At(Span),
}

/// The accesses of an instruction, in the order in which their faults count.
#[derive(Clone, Copy, Debug, PartialEq, Eq)]
pub struct AccessPlan {
    /// The check of an operand that is both read and written.
    pub both: Option<Span>,
    /// The first read, as a rule that of the first operand.
    pub to: Origin,
    /// The second read.
    pub from: Origin,
    /// The check of a write to a place that isn't read, which comes last.
    pub last: Option<Span>,
}

/// What the checks and reads of a plan give, before the last check.
#[derive(Clone, Copy, Debug, PartialEq, Eq)]
pub struct Gathered {
    /// Where the bytes stand of an operand that is both read and written.
    pub both: Option<Target>,
    /// What was read first.
    pub to: u64,
    /// What was read second.
    pub from: u64,
}

/// The fault of an access of a plan.
#[derive(Clone, Copy, Debug, PartialEq, Eq)]
pub struct SpanFault {
    pub fault: AccessFault,
    /// Whether the access addressed the stack.
    pub stack: bool,
}
