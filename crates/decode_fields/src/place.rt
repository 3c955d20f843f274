//! Where an operand stands.

/// A place in memory: the sum of its parts, which wraps at 2^64. With `rip` the sum starts at the next instruction.
#[derive(Clone, Copy, Debug, PartialEq, Eq)]
pub struct Address {
    /// The number of the register, 0 to 15.
    pub base: Option<u8>,

    /// The number of the register that is scaled, 0 to 15 but never 4.
    pub index: Option<u8>,

    /// 1, 2, 4 or 8, and 1 without an index.
    pub scale: u8,

    /// The displacement, extended to 64 bits by its sign.
    pub disp: u64,

    /// Whether the sum starts at the next instruction; then neither base nor index is there.
    pub rip: bool,
}

/// Where an operand stands.
#[derive(Clone, Copy, Debug, PartialEq, Eq)]
pub enum Place {
    /// There is no such operand.
    Nothing,

    /// A general register, 0 to 15.
    Reg(u8),

    /// AH, CH, DH or BH, 0 to 3.
    High(u8),

    /// A place in memory.
    Mem(Address),

    /// A number, which the instruction holds beside.
    Value,
}
