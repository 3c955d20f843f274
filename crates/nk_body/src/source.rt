//! What is read in memory for a call.

/// The bytes that a call takes from memory, as they were read before it is made.
#[derive(Clone, Copy, Debug, PartialEq, Eq)]
pub enum Source<'s> {
    /// The call takes none.
    NotTaken,
    /// A byte of them couldn't be read.
    Unreadable,
    Bytes(&'s [u8]),
}
