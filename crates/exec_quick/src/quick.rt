//! A quick form.

use decode_fields::Rep;
use x86_decode::Op;

/// What an instruction does, by its form and by which of its operands stands in memory. The most frequent have kinds of
/// their own, which say the operation, and the width too.
#[derive(Clone, Copy, Debug, PartialEq, Eq)]
pub enum Kind {
    /// Anything else: no quick form is made of it.
    Slow,
    // two operands
    Combine,
    CombineLoad,
    CombineStore,
    Compare,
    CompareLoad,
    CompareStore,
    Move,
    MoveLoad,
    MoveStore,
    Address,
    // the stack
    Push,
    PushLoad,
    Pop,
    Leave,
    // flow
    Branch,
    BranchLoad,
    Call,
    CallLoad,
    Return,
    CountDown,
    // one operand, and none
    ScanBits,
    ScanBitsLoad,
    Multiply,
    MultiplyLoad,
    Divide,
    DivideLoad,
    Widen,
    Double,
    ChangeFlag,
    Nothing,
    // strings
    MoveString,
    StoreString,
    LoadString,
    CompareStrings,
    ScanString,
    // the most frequent operations, each at one width, in bits
    Add64,
    Add32,
    Sub64,
    Sub32,
    And64,
    And32,
    Or64,
    Or32,
    Xor64,
    Xor32,
    Inc64,
    Inc32,
    Dec64,
    Dec32,
    Shl64,
    Shl32,
    Shr64,
    Shr32,
    Sar64,
    Sar32,
    Rol64,
    Rol32,
    Ror64,
    Ror32,
    Neg64,
    Neg32,
    Not64,
    Not32,
    Adc64,
    Adc32,
    Sbb64,
    Sbb32,
    Cmp64,
    Cmp32,
    Test64,
    Test32,
    Cmp8,
    Test8,
    Mov64,
    Mov32,
    MovzxByte32,
    MovzxWord32,
    MovsxByte64,
    MovsxByte32,
    MovsxWord64,
    MovsxWord32,
    Movsxd64,
    // the same of a register and memory
    AddLoad64,
    AddLoad32,
    SubLoad64,
    SubLoad32,
    AndLoad64,
    AndLoad32,
    OrLoad64,
    OrLoad32,
    XorLoad64,
    XorLoad32,
    CmpLoad64,
    CmpLoad32,
    CmpLoad8,
    // the same of memory
    AddStore64,
    AddStore32,
    SubStore64,
    SubStore32,
    AndStore64,
    AndStore32,
    OrStore64,
    OrStore32,
    IncStore64,
    IncStore32,
    DecStore64,
    DecStore32,
    IncStore8,
    DecStore8,
    AndStore8,
    OrStore8,
    CmpStore64,
    CmpStore32,
    CmpStore8,
    TestStore64,
    TestStore32,
    TestStore8,
    // moves from and to memory
    Load64,
    Load32,
    Load8,
    LoadByte,
    MovzxWordLoad32,
    MovsxByteLoad64,
    MovsxByteLoad32,
    MovsxWordLoad64,
    MovsxWordLoad32,
    MovsxdLoad64,
    Store64,
    Store32,
    Store16,
    Store8,
    // the stack, at 64 bits
    Push64,
    Pop64,
    // the supervisor's, at CPL 0
    PushFlags,
    PopFlags,
    ClearInterrupts,
    FromControl,
    // branches by one condition
    Loop,
    Jump,
    JumpZero,
    JumpNotZero,
    JumpBelow,
    JumpNotBelow,
    JumpNotAbove,
    JumpAbove,
    JumpLess,
    JumpNotLess,
    JumpNotGreater,
    JumpGreater,
}

/// What came of an instruction: nothing; it was made, and goes on behind it, which RIP doesn't say yet; or it was made, and
/// RIP says where it goes on.
#[derive(Clone, Copy, Debug, PartialEq, Eq)]
pub enum Went {
    Left,
    On,
    Off,
}

/// An instruction taken apart: numbers of registers stand at fixed places.
#[derive(Clone, Copy, Debug, PartialEq, Eq)]
pub struct Quick {
    pub kind: Kind,
    pub op: Op,
    /// In bits: 8, 16, 32 or 64.
    pub width: u8,
    /// The instruction's length in bytes.
    pub size: u8,
    /// Where it begins in the line of code that it is kept in, in bytes.
    pub at: u8,
    /// The first operand where it isn't in memory: a register, 16 for the number, 17 for nothing, or from 18 on AH, CH, DH
    /// or BH.
    pub to: u8,
    /// The second operand, likewise.
    pub from: u8,
    /// The registers of the address, or 16 for none.
    pub base: u8,
    pub index: u8,
    /// 1, 2, 4 or 8.
    pub scale: u8,
    /// The address starts at the next instruction.
    pub follows_rip: bool,
    /// The prefix of a repeated string instruction.
    pub rep: Rep,
    pub displacement: u64,
    /// The instruction's number.
    pub value: u64,
}

/// No quick form.
pub const SLOW: Quick = Quick {
    kind: Kind::Slow,
    op: Op::Nop,
    width: 64,
    size: 1,
    at: 0,
    to: 17,
    from: 17,
    base: 16,
    index: 16,
    scale: 1,
    follows_rip: false,
    displacement: 0,
    value: 0,
    rep: Rep::No,
};
