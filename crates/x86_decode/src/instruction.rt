//! An instruction, and what bytes stand for.

use crate::operation::Op;
use decode_fields::{Place, Rep};

/// What a spelling asks for. Prefixes that have no effect on the instruction leave no trace.
#[derive(Clone, Copy, Debug, PartialEq, Eq)]
pub struct Instr {
    pub op: Op,

    /// The operand's width in bits: 8, 16, 32 or 64.
    pub width: u8,

    /// The first operand, as a rule the one that is written.
    pub to: Place,

    /// The second operand, or the only one where it is read alone.
    pub from: Place,

    /// The number of an operand `Place::Value`, cut to the width, or that of a control or debug register; else 0.
    pub value: u64,

    /// `Rep::No` unless the instruction is a string instruction.
    pub rep: Rep,

    /// Whether F0 stands among the prefix bytes, lawful there or not.
    pub lock: bool,
}

/// What bytes stand for.
#[derive(Clone, Copy, Debug, PartialEq, Eq)]
pub enum Decoded {
    /// They begin with a lawful spelling of this instruction, which has this length in bytes.
    Whole(Instr, u8),

    /// More bytes are needed.
    Short,

    /// More bytes than 15 are needed.
    TooLong,

    /// No spelling begins so.
    Unknown,
}
