//! The words in which a call of the nested kernel and its answer travel, and the delivery of a trap.

/// A call of the nested kernel: its number and its four arguments, as the gate's registers hold them.
#[derive(Clone, Copy, Debug, PartialEq, Eq)]
pub struct CallWords {
    /// The call's number.
    pub number: u64,
    /// The first argument.
    pub a: u64,
    /// The second argument.
    pub b: u64,
    /// The third argument.
    pub c: u64,
    /// The fourth argument.
    pub d: u64,
}

/// The answer to a call.
#[derive(Clone, Copy, Debug, PartialEq, Eq)]
pub struct Answer {
    /// 0 for an accepted call, the number of the broken rule, or the identifier of a new region.
    pub value: u64,
    /// The linear address of an allocated region.
    pub place: Option<u64>,
    /// Whether the processor drops every translation that it keeps.
    pub flush: bool,
}

/// The delivery of a trap to its handler.
#[derive(Clone, Copy, Debug, PartialEq, Eq)]
pub struct Delivery {
    /// The number of the vector, 0 to 47.
    pub vector: u8,
    /// The error code, where the vector pushes one.
    pub code: Option<u64>,
    /// The address of the instruction that the handler returns to.
    pub rip: u64,
    /// The linear address that faulted, where the trap is a page fault.
    pub cr2: Option<u64>,
}
