//! The events of a plan.

/// What an event does. A page is given as the plan file writes it, by the linear address of its first byte: canonical,
/// with its low 12 bits clear. Translations are kept under page numbers, which are that address divided by 4,096.
#[derive(Clone, Copy, Debug, PartialEq, Eq)]
pub enum What {
    /// An external interrupt (SDM volume 3, 6.3.1): this vector, 32 to 47, becomes pending.
    Irq(u8),

    /// The processor drops the translation of this page, if it keeps one (SDM volume 3, 4.10.2).
    Drop(u64),

    /// The processor walks the tables for this page, and keeps the translation that it finds.
    Fill(u64),

    /// The processor walks the tables for this page down to its entry of this level, 2, 3 or 4, and keeps that entry in
    /// a paging-structure cache (SDM volume 3, 4.10.3), if none on the way is missing.
    Keep(u8, u64),

    /// The processor drops this page's entry of this level, 2, 3 or 4, if it keeps one.
    Forget(u8, u64),
}

/// An event, and when it is due.
#[derive(Clone, Copy, Debug, PartialEq, Eq)]
pub struct Event {
    /// The number of turns after which it is due, 0 to 4,294,967,296.
    pub due: u64,

    pub what: What,
}
