//! Why a replay stops before the journal's end.

/// Why a replay stops before the journal's end.
#[derive(Clone, Copy, Debug, PartialEq, Eq)]
pub enum ReplayFault {
    /// The first line that is out of form, or whose source, answer or place isn't what the books give. Lines are
    /// numbered from 1.
    Line(u64),

    /// There is no room for the bytes of a source. No line was read.
    Memory,
}
