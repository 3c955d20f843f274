//! The one-byte opcodes (SDM volume 2, table A-2): eight columns, the low three bits of the opcode from 0 to 7.

use crate::entry::{Group, OpcodeEntry, Selector, opcode, opcodes};
use crate::operation::Op::*;
use crate::shape::*;

pub(crate) static ONE_BYTE: [OpcodeEntry; 256] = opcodes! {
    0x00 { [Add EB_GB] [Add EV_GV] [Add GB_EB] [Add GV_EV] [Add AL_IB] [Add AX_IZ] __ __ }
    0x08 { [Or EB_GB]  [Or EV_GV]  [Or GB_EB]  [Or GV_EV]  [Or AL_IB]  [Or AX_IZ]  __ __ }
    0x10 { [Adc EB_GB] [Adc EV_GV] [Adc GB_EB] [Adc GV_EV] [Adc AL_IB] [Adc AX_IZ] __ __ }
    0x18 { [Sbb EB_GB] [Sbb EV_GV] [Sbb GB_EB] [Sbb GV_EV] [Sbb AL_IB] [Sbb AX_IZ] __ __ }
    0x20 { [And EB_GB] [And EV_GV] [And GB_EB] [And GV_EV] [And AL_IB] [And AX_IZ] __ __ }
    0x28 { [Sub EB_GB] [Sub EV_GV] [Sub GB_EB] [Sub GV_EV] [Sub AL_IB] [Sub AX_IZ] __ __ }
    0x30 { [Xor EB_GB] [Xor EV_GV] [Xor GB_EB] [Xor GV_EV] [Xor AL_IB] [Xor AX_IZ] __ __ }
    0x38 { [Cmp EB_GB] [Cmp EV_GV] [Cmp GB_EB] [Cmp GV_EV] [Cmp AL_IB] [Cmp AX_IZ] __ __ }
    0x40 { __ __ __ __ __ __ __ __ }
    0x48 { __ __ __ __ __ __ __ __ }
    0x50 { [Push PUSH_ZV] [Push PUSH_ZV] [Push PUSH_ZV] [Push PUSH_ZV] [Push PUSH_ZV] [Push PUSH_ZV] [Push PUSH_ZV] [Push PUSH_ZV] }
    0x58 { [Pop POP_ZV]   [Pop POP_ZV]   [Pop POP_ZV]   [Pop POP_ZV]   [Pop POP_ZV]   [Pop POP_ZV]   [Pop POP_ZV]   [Pop POP_ZV] }
    0x60 { __             __               __             (Size SignExtend) __ __ __ __ }
    0x68 { [Push PUSH_IZ] [Imul3 GV_EV_IZ] [Push PUSH_IB] [Imul3 GV_EV_IB]  __ __ __ __ }
    0x70 { [J(0) JB] [J(1) JB] [J(2) JB]  [J(3) JB]  [J(4) JB]  [J(5) JB]  [J(6) JB]  [J(7) JB] }
    0x78 { [J(8) JB] [J(9) JB] [J(10) JB] [J(11) JB] [J(12) JB] [J(13) JB] [J(14) JB] [J(15) JB] }
    0x80 { (Digit Group1EbIb) (Digit Group1EvIz) __          (Digit Group1EvIb) [Test EB_GB] [Test EV_GV] [Xchg EB_GB] [Xchg EV_GV] }
    0x88 { [Mov EB_GB]        [Mov EV_GV]        [Mov GB_EB] [Mov GV_EV]        __           [Lea GV_M]   __           (Digit Group1A) }
    0x90 { (RexB NopXchg) [Xchg AX_ZV]  [Xchg AX_ZV] [Xchg AX_ZV] [Xchg AX_ZV]         [Xchg AX_ZV]        [Xchg AX_ZV] [Xchg AX_ZV] }
    0x98 { (Size Widen)   (Size Double) __           __           [Pushfq ALONE_STACK] [Popfq ALONE_STACK] __           __ }
    0xA0 { __           __           __             __             [Movs ALONE_B] [Movs ALONE_V] [Cmps ALONE_B] [Cmps ALONE_V] }
    0xA8 { [Test AL_IB] [Test AX_IZ] [Stos ALONE_B] [Stos ALONE_V] [Lods ALONE_B] [Lods ALONE_V] [Scas ALONE_B] [Scas ALONE_V] }
    0xB0 { [Mov ZB_IB] [Mov ZB_IB] [Mov ZB_IB] [Mov ZB_IB] [Mov ZB_IB] [Mov ZB_IB] [Mov ZB_IB] [Mov ZB_IB] }
    0xB8 { [Mov ZV_IV] [Mov ZV_IV] [Mov ZV_IV] [Mov ZV_IV] [Mov ZV_IV] [Mov ZV_IV] [Mov ZV_IV] [Mov ZV_IV] }
    0xC0 { (Digit Group2EbUb) (Digit Group2EvUb) [Ret RET_UW] [Ret RET_0] __           __           (Digit Group11Eb) (Digit Group11Ev) }
    0xC8 { __                 [Leave ALONE]      __           __          [Int3 ALONE] [Int INT_UB] __                (Size LongReturn) }
    0xD0 { (Digit Group2Eb1) (Digit Group2Ev1) (Digit Group2EbCl) (Digit Group2EvCl) __ __ __ __ }
    0xD8 { __                __                __                 __                 __ __ __ __ }
    0xE0 { [Loopne JB] [Loope JB] [Loop JB] [Jrcxz JB] [In AL_UB] __ [Out UB_AL] __ }
    0xE8 { [Call JZ]   [Jmp JZ]   __        [Jmp JB]   [In AL_DX] __ [Out DX_AL] __ }
    0xF0 { __          __          __          __          [Hlt ALONE] [Cmc ALONE] (Digit Group3Eb) (Digit Group3Ev) }
    0xF8 { [Clc ALONE] [Stc ALONE] [Cli ALONE] [Sti ALONE] [Cld ALONE] [Std ALONE] (Digit Group4)   (Digit Group5) }
};
