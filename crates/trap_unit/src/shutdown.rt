//! The end of a machine whose delivery can't be made.

/// A delivery shuts the machine down: its gate is past the table's limit or isn't one that the machine serves, or one
/// of its accesses faults.
#[derive(Clone, Copy, Debug, PartialEq, Eq)]
pub struct Shut;
