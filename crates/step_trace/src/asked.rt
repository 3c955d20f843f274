//! What a trace shows.

/// A kind of step, to which a trace may be kept.
#[derive(Clone, Copy, Debug, PartialEq, Eq)]
pub enum Kind {
    /// It begins with WP clear: in the gates, or at the body.
    Gate,
    /// It is the nested kernel's body.
    Call,
    /// An interrupt, a trap or a fault is delivered.
    Delivery,
    /// It is an event of the plan.
    Event,
    /// A byte of memory changes.
    Memory,
    /// A byte goes to the console.
    Console,
}

/// What of memory is shown as a trace begins.
#[derive(Clone, Copy, Debug, PartialEq, Eq)]
pub enum MemoryShown {
    Nothing,
    /// Each frame that isn't all zeros.
    Whole,
    /// The bytes from a physical address on, at most so many.
    Bytes { first: u64, count: u64 },
}

/// What a trace shows of a run.
#[derive(Drop)]
pub struct Shown {
    /// The least number of turns taken before a step that is shown.
    pub from: u64,
    /// The most.
    pub to: Option<u64>,
    /// The trace ends behind a step that leaves RIP at one of these addresses.
    pub until: Vec<u64>,
    /// Steps that change nothing but RIP, and show nothing, are left out.
    pub changes: bool,
    /// Steps of other kinds are left out.
    pub only: Option<Kind>,
    /// What of memory is shown as the trace begins.
    pub memory: MemoryShown,
    /// All that the processor keeps of walks is shown then.
    pub translations: bool,
}
