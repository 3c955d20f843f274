//! What prefix bytes and ModRM say.

use crate::place::Place;

/// How often a string instruction is repeated.
#[derive(Clone, Copy, Debug, PartialEq, Eq)]
pub enum Rep {
    No,

    /// By F3: REP, and REPE where the instruction compares.
    WhileEqual,

    /// By F2: REPNE.
    WhileNot,
}

/// What the prefix bytes in front of an opcode say.
#[derive(Clone, Copy, Debug, PartialEq, Eq)]
pub struct Prefixes {
    /// The number of prefix bytes, 0 to 15.
    pub length: u8,

    /// Whether the operand size is 16 bits, unless REX.W asks for 64.
    pub narrow: bool,

    /// Whether F0 stands among them.
    pub lock: bool,

    /// By the last of F2 and F3.
    pub rep: Rep,

    /// The REX byte, 40 to 4F, where it is the last prefix byte.
    pub rex: Option<u8>,
}

/// The operands that ModRM names.
#[derive(Clone, Copy, Debug, PartialEq, Eq)]
pub struct ModRm {
    /// The register by reg, 0 to 15, REX.R included.
    pub reg: u8,

    /// The register or place in memory by mod and rm.
    pub place: Place,

    /// The bytes of ModRM, SIB and displacement together, 1 to 6.
    pub length: u8,
}
