//! Which of several operations a call makes.

/// A bitwise operation: AND, OR or XOR.
#[derive(Clone, Copy, Debug, PartialEq, Eq)]
pub enum Logic {
    And,
    Or,
    Xor,
}

/// A shift: SHL, SHR, or SAR, which keeps the sign.
#[derive(Clone, Copy, Debug, PartialEq, Eq)]
pub enum Shift {
    Left,
    Right,
    Signed,
}
