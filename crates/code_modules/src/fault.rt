//! Why a list of modules isn't read, and why modules aren't joined with an image.

use byte_scanner::Found;

/// Why a list of modules isn't read.
#[derive(Clone, Copy, Debug, PartialEq, Eq)]
pub enum ListFault {
    /// The first line that is out of form, numbered from 1.
    Line(u64),

    /// There is no room for the list.
    Memory,
}

/// Why modules aren't joined with an image.
#[derive(Clone, Copy, Debug, PartialEq, Eq)]
pub enum JoinFault {
    /// The module of this number, from 0 on, is the first without bytes.
    Empty(u32),

    /// There would be more than 64 segments or more than 8,192 pages, or a module would reach the directory's page.
    NoFit,

    /// This protected encoding would stand in the code of the joined image, at the least address.
    Protected(Found),

    /// There is no room for the file.
    Memory,
}
