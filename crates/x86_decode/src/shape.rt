//! The forms of rows: where the operands stand, which bytes follow the opcode, and which width counts. The letters
//! are those of the SDM, volume 2, appendix A.2: E is the operand by mod and rm, G the one by reg, R a general
//! register by rm, C a control register by reg, I an immediate, J a displacement, M a place in memory; b is a byte, w
//! a word, z a word or doubleword, q a quadword, v the operand size. Two letters aren't the manual's: Z is a register
//! by the opcode's low bits, which the manual names register by register, and U an immediate without a sign, where
//! the manual has I for both and U for a vector register. C stands for a debug register too, where the manual has D.

/// An operand of a row: by its letter, or AL to RAX, CL, DX, or the row's number.
#[derive(Clone, Copy)]
pub enum Operand {
    Absent,
    Eb,
    Ev,
    Gb,
    Gv,
    Zb,
    Zv,
    Accumulator,
    Counter,
    Port,
    Constant,
}

/// Where the row's number comes from: 0 or 1, bytes with a sign (I, J) or without (U), or reg, which numbers a
/// control or debug register (C). Ib and Ub have 8 bits, Uw has 16, Jz 32, Iz 16 or 32, Iv the operand size.
#[derive(Clone, Copy)]
pub enum Number {
    Zero,
    One,
    Ib,
    Iz,
    Iv,
    Jz,
    Ub,
    Uw,
    Cn,
}

/// Which width counts: the operand size (64 bits with REX.W, else 16 with 66, else 32), that of the stack (16 with 66
/// and without REX.W, else 64), or always one.
#[derive(Clone, Copy)]
pub enum Width {
    Byte,
    Word,
    Quad,
    Variable,
    Stack,
}

/// What follows the opcode: no ModRM; ModRM of any form, of a memory form, or of a register form; or a ModRM byte
/// whose mod is taken as 3.
#[derive(Clone, Copy)]
pub enum RowLayout {
    Plain,
    AnyForm,
    Memory,
    Register,
    Ignored,
}

/// The form of a row.
#[derive(Clone, Copy)]
pub struct Shape {
    pub layout: RowLayout,
    pub to: Operand,
    pub from: Operand,
    pub number: Number,
    pub width: Width,
}

macro_rules! shape {
    ($layout:ident $to:ident $from:ident $number:ident $width:ident) => {
        Shape {
            layout: RowLayout::$layout,
            to: Operand::$to,
            from: Operand::$from,
            number: Number::$number,
            width: Width::$width,
        }
    };
}

pub(crate) const ALONE: Shape = shape!(Plain Absent Absent Zero Quad);

pub(crate) const ALONE_STACK: Shape = shape!(Plain Absent Absent Zero Stack);

pub(crate) const ALONE_B: Shape = shape!(Plain Absent Absent Zero Byte);

pub(crate) const ALONE_V: Shape = shape!(Plain Absent Absent Zero Variable);

pub(crate) const NO_ACCESS: Shape = shape!(AnyForm Absent Absent Zero Quad);

pub(crate) const FENCE: Shape = shape!(Register Absent Absent Zero Quad);

pub(crate) const EB: Shape = shape!(AnyForm Eb Absent Zero Byte);

pub(crate) const EV: Shape = shape!(AnyForm Ev Absent Zero Variable);

pub(crate) const EB_GB: Shape = shape!(AnyForm Eb Gb Zero Byte);

pub(crate) const EV_GV: Shape = shape!(AnyForm Ev Gv Zero Variable);

pub(crate) const GB_EB: Shape = shape!(AnyForm Gb Eb Zero Byte);

pub(crate) const GV_EV: Shape = shape!(AnyForm Gv Ev Zero Variable);

pub(crate) const GV_EB: Shape = shape!(AnyForm Gv Eb Zero Variable);

pub(crate) const GV_M: Shape = shape!(Memory Gv Ev Zero Variable);

pub(crate) const RV_GV: Shape = shape!(Register Ev Gv Zero Variable);

pub(crate) const GV_EV_IB: Shape = shape!(AnyForm Gv Ev Ib Variable);

pub(crate) const GV_EV_IZ: Shape = shape!(AnyForm Gv Ev Iz Variable);

pub(crate) const EB_IB: Shape = shape!(AnyForm Eb Constant Ib Byte);

pub(crate) const EV_IB: Shape = shape!(AnyForm Ev Constant Ib Variable);

pub(crate) const EV_IZ: Shape = shape!(AnyForm Ev Constant Iz Variable);

pub(crate) const EB_UB: Shape = shape!(AnyForm Eb Constant Ub Byte);

pub(crate) const EV_UB: Shape = shape!(AnyForm Ev Constant Ub Variable);

pub(crate) const EB_1: Shape = shape!(AnyForm Eb Constant One Byte);

pub(crate) const EV_1: Shape = shape!(AnyForm Ev Constant One Variable);

pub(crate) const EB_CL: Shape = shape!(AnyForm Eb Counter Zero Byte);

pub(crate) const EV_CL: Shape = shape!(AnyForm Ev Counter Zero Variable);

pub(crate) const ZB_IB: Shape = shape!(Plain Zb Constant Ib Byte);

pub(crate) const ZV_IV: Shape = shape!(Plain Zv Constant Iv Variable);

pub(crate) const ZV: Shape = shape!(Plain Zv Absent Zero Variable);

pub(crate) const AX_ZV: Shape = shape!(Plain Accumulator Zv Zero Variable);

pub(crate) const AL_IB: Shape = shape!(Plain Accumulator Constant Ib Byte);

pub(crate) const AX_IZ: Shape = shape!(Plain Accumulator Constant Iz Variable);

pub(crate) const AL_UB: Shape = shape!(Plain Accumulator Constant Ub Byte);

pub(crate) const UB_AL: Shape = shape!(Plain Constant Accumulator Ub Byte);

pub(crate) const AL_DX: Shape = shape!(Plain Accumulator Port Zero Byte);

pub(crate) const DX_AL: Shape = shape!(Plain Port Accumulator Zero Byte);

pub(crate) const PUSH_ZV: Shape = shape!(Plain Absent Zv Zero Stack);

pub(crate) const PUSH_IB: Shape = shape!(Plain Absent Constant Ib Stack);

pub(crate) const PUSH_IZ: Shape = shape!(Plain Absent Constant Iz Stack);

pub(crate) const PUSH_EV: Shape = shape!(AnyForm Absent Ev Zero Stack);

pub(crate) const POP_ZV: Shape = shape!(Plain Zv Absent Zero Stack);

pub(crate) const POP_EV: Shape = shape!(AnyForm Ev Absent Zero Stack);

pub(crate) const NEAR_EV: Shape = shape!(AnyForm Absent Ev Zero Quad);

pub(crate) const JB: Shape = shape!(Plain Absent Constant Ib Quad);

pub(crate) const JZ: Shape = shape!(Plain Absent Constant Jz Quad);

pub(crate) const RET_0: Shape = shape!(Plain Absent Constant Zero Quad);

pub(crate) const RET_UW: Shape = shape!(Plain Absent Constant Uw Quad);

pub(crate) const INT_UB: Shape = shape!(Plain Absent Constant Ub Quad);

pub(crate) const SYSTEM_EW: Shape = shape!(AnyForm Absent Ev Zero Word);

pub(crate) const SYSTEM_M: Shape = shape!(Memory Absent Ev Zero Quad);

pub(crate) const RQ_CN: Shape = shape!(Ignored Ev Absent Cn Quad);

pub(crate) const CN_RQ: Shape = shape!(Ignored Absent Ev Cn Quad);
