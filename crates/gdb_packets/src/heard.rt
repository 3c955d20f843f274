//! What is heard of a debugger.

use nk_host::SourceFault;

/// What was heard.
#[derive(Clone, Copy, Debug, PartialEq, Eq)]
pub enum Heard {
    /// A packet, whose body was handed over.
    Body,
    /// A packet whose digits don't write its body's sum.
    Damaged,
    /// The source ended before a further packet did.
    End,
}

/// Why nothing was heard.
#[derive(Clone, Copy, Debug, PartialEq, Eq)]
pub enum HearFault {
    /// The source couldn't be read.
    Source(SourceFault),
    /// There was no memory for the body; or 2^64 - 1 bytes came without a packet's first one, more than any source gives.
    NoMemory,
}
