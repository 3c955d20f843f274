//! What an access does to the bytes that it addresses.

/// The purpose of an access: SDM volume 3, 4.6.
#[derive(Clone, Copy, Debug, PartialEq, Eq)]
pub enum Access {
    /// A read of data.
    Read,
    /// A write of data.
    Write,
    /// An instruction fetch.
    Fetch,
}
