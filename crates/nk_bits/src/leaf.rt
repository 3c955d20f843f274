//! What a walk finds: the frame of a page and the rights to it.

/// What a translation grants, beside reading by the supervisor.
#[derive(Clone, Copy, Debug, PartialEq, Eq)]
pub struct Rights {
    /// Writes are granted: R/W is set.
    pub can_write: bool,
    /// Access at CPL 3 is granted: U/S is set.
    pub user: bool,
    /// Instruction fetches are granted: XD is clear.
    pub exec: bool,
}

/// The translation of a page.
#[derive(Clone, Copy, Debug, PartialEq, Eq)]
pub struct Leaf {
    /// The number of the page's frame: its physical address divided by 4,096.
    pub frame: u32,
    /// The rights common to all entries on the path.
    pub rights: Rights,
}

/// What an upper entry names, as a walk has found it: SDM volume 3, 4.10.3.
#[derive(Clone, Copy, Debug, PartialEq, Eq)]
pub struct Upper {
    /// The number of the frame of the table that the entry names.
    pub frame: u32,
    /// The rights common to the entry and to those above it.
    pub rights: Rights,
}

/// The places in memory of a write that was judged.
#[derive(Clone, Copy, Debug, PartialEq, Eq)]
pub struct Target {
    /// The physical address of the write's first byte.
    pub first: u64,
    /// The physical address of its first byte on the second page, or 0 where all its bytes lie on one page.
    pub second: u64,
}
