//! The rules that the nested kernel's calls are judged by.

ghost use Rattle.std.specs.Prelude.{◌≡◌};
ghost use Rattle.nk_bits.specs.Rules.{rule_number};

/// A rule that a call may break, in the order of the rules' numbers.
#[derive(Clone, Copy, Debug, PartialEq, Eq)]
pub enum Rule {
    /// The number is that of no call.
    BadCall,
    /// The frame isn't below the number of frames.
    BadFrame,
    /// The level isn't 1 to 4.
    BadLevel,
    /// The frame's kind isn't Data.
    NotData,
    /// A writable or user leaf of some table names the frame.
    StillLoose,
    /// The frame isn't a page table.
    NotTable,
    /// The index exceeds 511.
    BadIndex,
    /// The entry is the kernel slot of a level 4 table.
    KernelSlot,
    /// The value is present and its bits are out of form.
    BadBits,
    /// The value is present and names a frame outside memory, a leaf's frame that is Hidden, or a table of another level
    /// than the next lower one.
    BadTarget,
    /// The value is a present leaf whose rights the kind of its frame forbids.
    TooFree,
    /// An entry of some table names the table, or it is the current root.
    StillLinked,
    /// An entry of the table is present, other than the kernel slot's.
    NotEmpty,
    /// The frame isn't a page table of level 4.
    NotRoot,
    /// The size is out of bounds, or the range isn't one of whole, mapped pages that are distinct.
    BadRange,
    /// The policy isn't 1 to 4.
    BadPolicy,
    /// 256 regions are live.
    TooManyRegions,
    /// No place in the pool fits, or more than 128 pages would be declared.
    NoRoom,
    /// No live region has the identifier.
    BadRegion,
    /// The region was declared, not allocated.
    NotAllocated,
    /// The length is 0, or the range passes the region's end.
    OutOfBounds,
    /// A byte of the source can't be read.
    BadSource,
    /// The policy admits no write.
    NoWrite,
    /// The policy is write-once and a byte of the range was written before.
    WrittenOnce,
    /// The policy is append-only and the offset isn't the tail.
    NotAtEnd,
    /// The policy is write-log and the record exceeds what is left of the log.
    LogFull,
    /// The address isn't canonical.
    NotCanonical,
}

impl Rule {
    /// The rule's number, 1 to 27, which is the answer to a call that breaks it.
    pub fn number(self) -> u64
        ensures value { result ≡ rule_number self }
    {
        match self {
            Rule::BadCall => 1,
            Rule::BadFrame => 2,
            Rule::BadLevel => 3,
            Rule::NotData => 4,
            Rule::StillLoose => 5,
            Rule::NotTable => 6,
            Rule::BadIndex => 7,
            Rule::KernelSlot => 8,
            Rule::BadBits => 9,
            Rule::BadTarget => 10,
            Rule::TooFree => 11,
            Rule::StillLinked => 12,
            Rule::NotEmpty => 13,
            Rule::NotRoot => 14,
            Rule::BadRange => 15,
            Rule::BadPolicy => 16,
            Rule::TooManyRegions => 17,
            Rule::NoRoom => 18,
            Rule::BadRegion => 19,
            Rule::NotAllocated => 20,
            Rule::OutOfBounds => 21,
            Rule::BadSource => 22,
            Rule::NoWrite => 23,
            Rule::WrittenOnce => 24,
            Rule::NotAtEnd => 25,
            Rule::LogFull => 26,
            Rule::NotCanonical => 27,
        }
    }
}
