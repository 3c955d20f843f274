//! The opcodes after 0F (SDM volume 2, table A-3): eight columns, the low three bits of the opcode from 0 to 7.

use crate::entry::{Group, OpcodeEntry, Selector, opcode, opcodes};
use crate::operation::Op::*;
use crate::shape::*;

pub(crate) static TWO_BYTE: [OpcodeEntry; 256] = opcodes! {
    0x00 { (Digit Group6) (Digit Group7) __ __          __ __ __ __ }
    0x08 { __             __             __ [Ud2 ALONE] __ __ __ __ }
    0x10 { __ __ __ __ __ __ __              __ }
    0x18 { __ __ __ __ __ __ [Nop NO_ACCESS] [Nop NO_ACCESS] }
    0x20 { [Movfc RQ_CN] __ [Movtc CN_RQ] [Movtd CN_RQ] __ __ __ __ }
    0x28 { __            __ __            __            __ __ __ __ }
    0x30 { [Wrmsr ALONE] __ __ __ __ __ __ __ }
    0x38 { __            __ __ __ __ __ __ __ }
    0x40 { [Cmov(0) GV_EV] [Cmov(1) GV_EV] [Cmov(2) GV_EV]  [Cmov(3) GV_EV]  [Cmov(4) GV_EV]  [Cmov(5) GV_EV]  [Cmov(6) GV_EV]  [Cmov(7) GV_EV] }
    0x48 { [Cmov(8) GV_EV] [Cmov(9) GV_EV] [Cmov(10) GV_EV] [Cmov(11) GV_EV] [Cmov(12) GV_EV] [Cmov(13) GV_EV] [Cmov(14) GV_EV] [Cmov(15) GV_EV] }
    0x50 { __ __ __ __ __ __ __ __ }
    0x58 { __ __ __ __ __ __ __ __ }
    0x60 { __ __ __ __ __ __ __ __ }
    0x68 { __ __ __ __ __ __ __ __ }
    0x70 { __ __ __ __ __ __ __ __ }
    0x78 { __ __ __ __ __ __ __ __ }
    0x80 { [J(0) JZ] [J(1) JZ] [J(2) JZ]  [J(3) JZ]  [J(4) JZ]  [J(5) JZ]  [J(6) JZ]  [J(7) JZ] }
    0x88 { [J(8) JZ] [J(9) JZ] [J(10) JZ] [J(11) JZ] [J(12) JZ] [J(13) JZ] [J(14) JZ] [J(15) JZ] }
    0x90 { [Set(0) EB] [Set(1) EB] [Set(2) EB]  [Set(3) EB]  [Set(4) EB]  [Set(5) EB]  [Set(6) EB]  [Set(7) EB] }
    0x98 { [Set(8) EB] [Set(9) EB] [Set(10) EB] [Set(11) EB] [Set(12) EB] [Set(13) EB] [Set(14) EB] [Set(15) EB] }
    0xA0 { __ __ __ [Bt RV_GV]  __ __ __              __ }
    0xA8 { __ __ __ [Bts RV_GV] __ __ (Digit Group15) [Imul GV_EV] }
    0xB0 { [Cmpxchg EB_GB] [Cmpxchg EV_GV] __             [Btr RV_GV] __          __          [Movzx8 GV_EB] [Movzx16 GV_EV] }
    0xB8 { __              __              (Digit Group8) [Btc RV_GV] [Bsf GV_EV] [Bsr GV_EV] [Movsx8 GV_EB] [Movsx16 GV_EV] }
    0xC0 { [Xadd EB_GB] [Xadd EV_GV] __          __          __          __          __          __ }
    0xC8 { (Size Swap)  (Size Swap)  (Size Swap) (Size Swap) (Size Swap) (Size Swap) (Size Swap) (Size Swap) }
    0xD0 { __ __ __ __ __ __ __ __ }
    0xD8 { __ __ __ __ __ __ __ __ }
    0xE0 { __ __ __ __ __ __ __ __ }
    0xE8 { __ __ __ __ __ __ __ __ }
    0xF0 { __ __ __ __ __ __ __ __ }
    0xF8 { __ __ __ __ __ __ __ __ }
};
