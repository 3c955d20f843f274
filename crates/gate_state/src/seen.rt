//! What a step shows to the outside.

use nk_bits::{Answer, CallWords, Delivery};

/// What a step shows that isn't the nested kernel's.
#[derive(Clone, Copy, Debug, PartialEq, Eq)]
pub enum Seen {
    /// An event of the plan was taken; no turn was.
    Event,
    /// A turn shows nothing.
    Quiet,
    /// A byte went to the console.
    Console(u8),
    /// An interrupt, a trap or a fault was delivered.
    Delivered(Delivery),
}

/// What a call took from memory.
#[derive(Clone, Copy, Debug, PartialEq, Eq)]
pub enum Took {
    /// The call takes nothing.
    NotTaken,
    /// A byte couldn't be read.
    Unreadable,
    /// The bytes of the source.
    Taken,
}

/// A call that the nested kernel served.
#[derive(Clone, Copy, Debug, PartialEq, Eq)]
pub struct Called {
    pub call: CallWords,
    pub source: Took,
    pub answer: Answer,
}

/// What the step from a state was, with what it shows.
#[derive(Clone, Copy, Debug, PartialEq, Eq)]
pub enum Step {
    /// None was left: the machine rests for good.
    Rested,
    /// An event of the plan, or a turn.
    Seen(Seen),
    /// The nested kernel's body.
    Called(Called),
}
