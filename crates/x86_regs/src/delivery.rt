//! What passes between the processor and the delivery of a trap, and its return.

/// What IRETQ pops, in the order in which it stands from RSP up (SDM volume 3, 6.14.3).
#[derive(Clone, Copy, Debug, PartialEq, Eq)]
pub struct Frame {
    pub rip: u64,
    /// The low 16 bits are the selector.
    pub cs: u64,
    pub flags: u64,
    pub rsp: u64,
    /// The low 16 bits are the selector.
    pub ss: u64,
}

/// Where the tables of delivery stand, as linear addresses.
#[derive(Clone, Copy, Debug, PartialEq, Eq)]
pub struct Tables {
    /// The base of IDTR.
    pub idt: u64,
    /// The limit of IDTR: the offset of the table's last byte.
    pub limit: u16,
    /// The base of the task-state segment.
    pub tss: u64,
}
