//! The faults of instructions.

/// An instruction's fault (SDM volume 3, 6.15).
#[derive(Clone, Copy, Debug, PartialEq, Eq)]
pub enum Fault {
    /// #DE.
    Divide,
    /// #UD.
    Opcode,
    /// #SS with error code 0.
    Stack,
    /// #GP with this error code.
    General(u64),
    /// #PF with this error code, at this linear address.
    Page { code: u64, address: u64 },
}
