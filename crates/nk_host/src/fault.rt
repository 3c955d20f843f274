//! What the questions to a shelf, a put, a take and the making of a shelf, a sink or a source answer where they fail.

/// Why a fetch gave no file, or a size no length.
#[derive(Clone, Copy, Debug, PartialEq, Eq)]
pub enum FetchFault {
    /// There was no memory for it.
    Memory,
    /// The file couldn't be read, or there is none of that name.
    Failed,
    /// The file has more bytes than the caller allows.
    Longer,
}

/// Why a piece of a file wasn't read.
#[derive(Clone, Copy, Debug, PartialEq, Eq)]
pub enum PieceFault {
    /// There was no memory for it.
    Memory,
    /// The file couldn't be read, ended before the piece did, or there is none of that name.
    Failed,
}

/// A put failed, and took only some of the bytes or none.
#[derive(Clone, Copy, Debug, PartialEq, Eq)]
pub struct SinkFault;

/// A take failed, and gave no byte.
#[derive(Clone, Copy, Debug, PartialEq, Eq)]
pub struct SourceFault;

/// There was no memory.
#[derive(Clone, Copy, Debug, PartialEq, Eq)]
pub struct NoMemory;
