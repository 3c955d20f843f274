//! Why a plan isn't read.

/// Why a plan isn't read.
#[derive(Clone, Copy, Debug, PartialEq, Eq)]
pub enum PlanFault {
    /// The first line that is out of form, numbered from 1.
    Line(u64),

    /// There is no room for the events.
    Memory,
}
