//! What a call answers: a result with its flags, or a quotient with its remainder.

/// A result and the flags word after it.
#[derive(Clone, Copy, Debug, PartialEq, Eq)]
pub struct Out {
    pub value: u64,
    pub flags: u64,
}

/// A quotient (`value`) and its remainder (`rest`).
#[derive(Clone, Copy, Debug, PartialEq, Eq)]
pub struct Quotient {
    pub value: u64,
    pub rest: u64,
}

/// The divide error, #DE.
#[derive(Clone, Copy, Debug, PartialEq, Eq)]
pub struct Divide;
