//! The operations by name and by number.

use x86_decode::Op;

/// The names of the operations, as the SDM, volume 2, writes them; `Op` says what the endings mean.
#[rattlefmt::skip]
static NAMES: [u8; 431] = *b"\
ADD OR ADC SBB AND SUB XOR CMP TEST NOT NEG INC DEC MUL IMUL IMUL3 DIV IDIV ROL ROR SHL SHR SAR
BT BTS BTR BTC BSF BSR MOV MOVSXD MOVZX8 MOVZX16 MOVSX8 MOVSX16 LEA XCHG XADD CMPXCHG BSWAP
CMOV SET CBW CWDE CDQE CWD CDQ CQO PUSH POP PUSHFQ POPFQ LEAVE MOVS CMPS STOS LODS SCAS J JMP
CALL RET LOOP LOOPE LOOPNE JRCXZ INT3 INT IRETQ UD2 NOP CMC CLC STC CLI STI CLD STD HLT IN OUT
MOVFC MOVTC MOVTD WRMSR LLDT LTR LGDT LIDT LMSW INVLPG";

/// The place of an operation in `NAMES`, counted from 1.
pub(super) fn number(op: Op) -> u8 {
    match op {
        Op::Add => 1,
        Op::Or => 2,
        Op::Adc => 3,
        Op::Sbb => 4,
        Op::And => 5,
        Op::Sub => 6,
        Op::Xor => 7,
        Op::Cmp => 8,
        Op::Test => 9,
        Op::Not => 10,
        Op::Neg => 11,
        Op::Inc => 12,
        Op::Dec => 13,
        Op::Mul => 14,
        Op::Imul => 15,
        Op::Imul3 => 16,
        Op::Div => 17,
        Op::Idiv => 18,
        Op::Rol => 19,
        Op::Ror => 20,
        Op::Shl => 21,
        Op::Shr => 22,
        Op::Sar => 23,
        Op::Bt => 24,
        Op::Bts => 25,
        Op::Btr => 26,
        Op::Btc => 27,
        Op::Bsf => 28,
        Op::Bsr => 29,
        Op::Mov => 30,
        Op::Movsxd => 31,
        Op::Movzx8 => 32,
        Op::Movzx16 => 33,
        Op::Movsx8 => 34,
        Op::Movsx16 => 35,
        Op::Lea => 36,
        Op::Xchg => 37,
        Op::Xadd => 38,
        Op::Cmpxchg => 39,
        Op::Bswap => 40,
        Op::Cmov(_) => 41,
        Op::Set(_) => 42,
        Op::Cbw => 43,
        Op::Cwde => 44,
        Op::Cdqe => 45,
        Op::Cwd => 46,
        Op::Cdq => 47,
        Op::Cqo => 48,
        Op::Push => 49,
        Op::Pop => 50,
        Op::Pushfq => 51,
        Op::Popfq => 52,
        Op::Leave => 53,
        Op::Movs => 54,
        Op::Cmps => 55,
        Op::Stos => 56,
        Op::Lods => 57,
        Op::Scas => 58,
        Op::J(_) => 59,
        Op::Jmp => 60,
        Op::Call => 61,
        Op::Ret => 62,
        Op::Loop => 63,
        Op::Loope => 64,
        Op::Loopne => 65,
        Op::Jrcxz => 66,
        Op::Int3 => 67,
        Op::Int => 68,
        Op::Iretq => 69,
        Op::Ud2 => 70,
        Op::Nop => 71,
        Op::Cmc => 72,
        Op::Clc => 73,
        Op::Stc => 74,
        Op::Cli => 75,
        Op::Sti => 76,
        Op::Cld => 77,
        Op::Std => 78,
        Op::Hlt => 79,
        Op::In => 80,
        Op::Out => 81,
        Op::Movfc => 82,
        Op::Movtc => 83,
        Op::Movtd => 84,
        Op::Wrmsr => 85,
        Op::Lldt => 86,
        Op::Ltr => 87,
        Op::Lgdt => 88,
        Op::Lidt => 89,
        Op::Lmsw => 90,
        Op::Invlpg => 91,
    }
}

/// The condition that an operation holds, or 0.
pub(super) fn condition(op: Op) -> u8 {
    match op {
        Op::J(condition) | Op::Set(condition) | Op::Cmov(condition) => condition,
        _ => 0,
    }
}

/// The number of the operation of this name, or 0 where there is none.
pub(super) fn number_of(name: &[u8]) -> usize {
    let mut place = 0usize;
    for known in NAMES.split(|byte| byte.is_ascii_whitespace()) {
        place = place.saturating_add(1);
        if known == name {
            return place;
        }
    }
    0
}
