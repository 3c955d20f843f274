//! What stands at an opcode: nothing, one row, or a group of rows, told apart by a field of ModRM or REX or by the
//! operand size. In the tables a row has brackets around its operation and its form, and a group has parentheses
//! around what tells its rows apart and its name.

use crate::operation::Op;
use crate::operation::Op::*;
use crate::shape::*;

/// A row of a group, or none.
#[derive(Clone, Copy)]
pub(crate) enum Slot {
    Empty,
    Row(Op, Shape),
}

/// What tells the rows of a group apart: reg of ModRM, REX.B, or the operand size (16, 32 and 64 bits from 0 on).
#[derive(Clone, Copy)]
pub(crate) enum Selector {
    Digit,
    RexB,
    Size,
}

#[derive(Clone, Copy)]
pub(crate) enum OpcodeEntry {
    Absent,
    One(Op, Shape),
    /// The rows from this place of `GROUPS` on, one for each number that the selector gives.
    Many(Selector, u8),
}

/// The groups in the order of `GROUPS`. Those with a number have it, and with more than one form the operands, from the
/// SDM, volume 2, table A-6; the others are named for their operations.
pub(crate) enum Group {
    Group1EbIb,
    Group1EvIz,
    Group1EvIb,
    Group1A,
    Group2EbUb,
    Group2EvUb,
    Group2Eb1,
    Group2Ev1,
    Group2EbCl,
    Group2EvCl,
    Group3Eb,
    Group3Ev,
    Group4,
    Group5,
    Group6,
    Group7,
    Group8,
    Group11Eb,
    Group11Ev,
    Group15,
    NopXchg,
    SignExtend,
    Widen,
    Double,
    LongReturn,
    Swap,
}

macro_rules! opcode {
    (__) => { OpcodeEntry::Absent };
    ([$op:ident $form:ident]) => { OpcodeEntry::One($op, $form) };
    ([$op:ident($condition:literal) $form:ident]) => { OpcodeEntry::One($op($condition), $form) };
    (($selector:ident $group:ident)) => { OpcodeEntry::Many(Selector::$selector, 8 * (Group::$group as u8)) };
}

/// The opcodes of a map, row by row, each row behind its first opcode.
macro_rules! opcodes {
    ($($first:literal { $($cell:tt)* })*) => { [$($(opcode!($cell)),*),*] };
}

macro_rules! slot {
    (__) => { Slot::Empty };
    ([$op:ident $form:ident]) => { Slot::Row($op, $form) };
}

macro_rules! groups {
    ($($group:ident { $($cell:tt)* })*) => { [$($(slot!($cell)),*),*] };
}

pub(crate) use opcode;
pub(crate) use opcodes;

/// The rows of all groups, eight places each.
pub(crate) static GROUPS: [Slot; 208] = groups! {
    Group1EbIb { [Add EB_IB]   [Or EB_IB]     [Adc EB_IB]      [Sbb EB_IB]     [And EB_IB]   [Sub EB_IB] [Xor EB_IB]      [Cmp EB_IB] }
    Group1EvIz { [Add EV_IZ]   [Or EV_IZ]     [Adc EV_IZ]      [Sbb EV_IZ]     [And EV_IZ]   [Sub EV_IZ] [Xor EV_IZ]      [Cmp EV_IZ] }
    Group1EvIb { [Add EV_IB]   [Or EV_IB]     [Adc EV_IB]      [Sbb EV_IB]     [And EV_IB]   [Sub EV_IB] [Xor EV_IB]      [Cmp EV_IB] }
    Group1A    { [Pop POP_EV]  __             __               __              __            __          __               __ }
    Group2EbUb { [Rol EB_UB]   [Ror EB_UB]    __               __              [Shl EB_UB]   [Shr EB_UB] __               [Sar EB_UB] }
    Group2EvUb { [Rol EV_UB]   [Ror EV_UB]    __               __              [Shl EV_UB]   [Shr EV_UB] __               [Sar EV_UB] }
    Group2Eb1  { [Rol EB_1]    [Ror EB_1]     __               __              [Shl EB_1]    [Shr EB_1]  __               [Sar EB_1] }
    Group2Ev1  { [Rol EV_1]    [Ror EV_1]     __               __              [Shl EV_1]    [Shr EV_1]  __               [Sar EV_1] }
    Group2EbCl { [Rol EB_CL]   [Ror EB_CL]    __               __              [Shl EB_CL]   [Shr EB_CL] __               [Sar EB_CL] }
    Group2EvCl { [Rol EV_CL]   [Ror EV_CL]    __               __              [Shl EV_CL]   [Shr EV_CL] __               [Sar EV_CL] }
    Group3Eb   { [Test EB_IB]  __             [Not EB]         [Neg EB]        [Mul EB]      [Imul EB]   [Div EB]         [Idiv EB] }
    Group3Ev   { [Test EV_IZ]  __             [Not EV]         [Neg EV]        [Mul EV]      [Imul EV]   [Div EV]         [Idiv EV] }
    Group4     { [Inc EB]      [Dec EB]       __               __              __            __          __               __ }
    Group5     { [Inc EV]      [Dec EV]       [Call NEAR_EV]   __              [Jmp NEAR_EV] __          [Push PUSH_EV]   __ }
    Group6     { __            __             [Lldt SYSTEM_EW] [Ltr SYSTEM_EW] __            __          __               __ }
    Group7     { __            __             [Lgdt SYSTEM_M]  [Lidt SYSTEM_M] __            __          [Lmsw SYSTEM_EW] [Invlpg SYSTEM_M] }
    Group8     { __            __             __               __              [Bt EV_IB]    [Bts EV_IB] [Btr EV_IB]      [Btc EV_IB] }
    Group11Eb  { [Mov EB_IB]   __             __               __              __            __          __               __ }
    Group11Ev  { [Mov EV_IZ]   __             __               __              __            __          __               __ }
    Group15    { __            __             __               __              __            [Nop FENCE] [Nop FENCE]      [Nop FENCE] }
    NopXchg    { [Nop ALONE]   [Xchg AX_ZV]   __               __              __            __          __               __ }
    SignExtend { __            __             [Movsxd GV_EV]   __              __            __          __               __ }
    Widen      { [Cbw ALONE_V] [Cwde ALONE_V] [Cdqe ALONE_V]   __              __            __          __               __ }
    Double     { [Cwd ALONE_V] [Cdq ALONE_V]  [Cqo ALONE_V]    __              __            __          __               __ }
    LongReturn { __            __             [Iretq ALONE]    __              __            __          __               __ }
    Swap       { __            [Bswap ZV]     [Bswap ZV]       __              __            __          __               __ }
};
