//! Whole answers at every opcode of both maps: 4,096 inputs of 15 bytes each, by a checksum.
//!
//! The inputs of an opcode, in this order: each set of prefixes, each first byte of a tail, each byte behind the
//! opcode. Prefixes, 0F or nothing, opcode, that byte and the tail are cut at 15 bytes. Each byte of a tail is 37 times
//! the one before plus 35 (hexadecimal), modulo 256. The checksum is FNV-1a of 64 bits. All take half a second as the
//! gate builds them; interpreted, each test takes seconds.

use super::checksums::{ONE_BYTE, TWO_BYTE};
use super::operations::{condition, number};
use decode_fields::{Place, Rep};
use x86_decode::{Decoded, Instr, decode};

/// How many prefixes, and which: none; 66; REX.W; REX.R and B; 66 and REX.W, X and B; F3 and REX.B; F0 and F2; REX and
/// 66 behind it.
static PREFIXES: [(u8, [u8; 2]); 8] = [
    (0, [0, 0]),
    (1, [0x66, 0]),
    (1, [0x48, 0]),
    (1, [0x45, 0]),
    (2, [0x66, 0x4B]),
    (2, [0xF3, 0x41]),
    (2, [0xF0, 0xF2]),
    (2, [0x40, 0x66]),
];

/// The first bytes of an instruction, of which those past the fifteenth are left out.
#[derive(Drop)]
struct Input {
    bytes: [u8; 15],
    length: usize,
}

impl Input {
    fn push(&mut self, byte: u8) {
        if self.length < 15 {
            self.bytes[self.length] = byte;
            self.length += 1;
        }
    }
}

fn input_of(
    prefixes: (u8, [u8; 2]),
    after_escape: bool,
    opcode: u8,
    behind: u8,
    tail: u8,
) -> Input {
    let mut input = Input {
        bytes: [0; 15],
        length: 0,
    };
    if prefixes.0 > 0 {
        input.push(prefixes.1[0]);
    }
    if prefixes.0 > 1 {
        input.push(prefixes.1[1]);
    }
    if after_escape {
        input.push(0x0F);
    }
    input.push(opcode);
    input.push(behind);
    let mut byte = tail;
    for _ in 0..15u8 {
        input.push(byte);
        byte = byte.wrapping_mul(37).wrapping_add(0x35);
    }
    input
}

fn fold(sum: u64, byte: u8) -> u64 {
    (sum ^ byte as u64).wrapping_mul(0x100_0000_01B3)
}

fn fold_all(sum: u64, bytes: &[u8]) -> u64 {
    let mut sum = sum;
    for byte in bytes {
        sum = fold(sum, *byte);
    }
    sum
}

/// The kind of a place, its register, and base, index, scale and RIP of an address; and the displacement.
fn fold_place(sum: u64, place: Place) -> u64 {
    let (bytes, disp) = match place {
        Place::Nothing => ([0; 6], 0),
        Place::Reg(register) => ([1, register, 0, 0, 0, 0], 0),
        Place::High(register) => ([2, register, 0, 0, 0, 0], 0),
        Place::Mem(address) => (
            [
                3,
                0,
                address.base.unwrap_or(255),
                address.index.unwrap_or(255),
                address.scale,
                address.rip as u8,
            ],
            address.disp,
        ),
        Place::Value => ([4, 0, 0, 0, 0, 0], 0),
    };
    fold_all(fold_all(sum, &bytes), &disp.to_le_bytes())
}

fn fold_instr(sum: u64, instr: Instr, length: u8) -> u64 {
    let rep = match instr.rep {
        Rep::No => 0,
        Rep::WhileEqual => 1,
        Rep::WhileNot => 2,
    };
    let head = [
        1,
        length,
        number(instr.op),
        condition(instr.op),
        instr.width,
        rep,
        instr.lock as u8,
    ];
    let sum = fold_all(fold_all(sum, &head), &instr.value.to_le_bytes());
    fold_place(fold_place(sum, instr.to), instr.from)
}

fn fold_answer(sum: u64, answer: Decoded) -> u64 {
    match answer {
        Decoded::Whole(instr, length) => fold_instr(sum, instr, length),
        Decoded::Short => fold(sum, 2),
        Decoded::TooLong => fold(sum, 3),
        Decoded::Unknown => fold(sum, 4),
    }
}

/// The answers at each byte behind the opcode.
fn fold_each(sum: u64, prefixes: (u8, [u8; 2]), after_escape: bool, opcode: u8, tail: u8) -> u64 {
    let mut sum = sum;
    for behind in 0..=255u8 {
        let input = input_of(prefixes, after_escape, opcode, behind, tail);
        sum = fold_answer(sum, decode(&input.bytes));
    }
    sum
}

fn checksum(after_escape: bool, opcode: u8) -> u64 {
    let mut sum = 0xCBF2_9CE4_8422_2325;
    for prefixes in PREFIXES {
        for tail in [0x91, 0xE5] {
            sum = fold_each(sum, prefixes, after_escape, opcode, tail);
        }
    }
    sum
}

/// The first of these opcodes, of the one-byte map or of that after 0F, whose checksum is another.
fn first_other(after_escape: bool, sums: &[u64; 256], first: u8, last: u8) -> Option<u8> {
    for opcode in first..=last {
        if checksum(after_escape, opcode) != sums[opcode as usize] {
            return Some(opcode);
        }
    }
    None
}

#[test]
fn checksums_of_00_to_3f(rt: HostRuntime) {
    assert_eq!(rt; first_other(false, &ONE_BYTE, 0x00, 0x3F), None);
}

#[test]
fn checksums_of_40_to_7f(rt: HostRuntime) {
    assert_eq!(rt; first_other(false, &ONE_BYTE, 0x40, 0x7F), None);
}

#[test]
fn checksums_of_80_to_bf(rt: HostRuntime) {
    assert_eq!(rt; first_other(false, &ONE_BYTE, 0x80, 0xBF), None);
}

#[test]
fn checksums_of_c0_to_ff(rt: HostRuntime) {
    assert_eq!(rt; first_other(false, &ONE_BYTE, 0xC0, 0xFF), None);
}

#[test]
fn checksums_of_0f_00_to_7f(rt: HostRuntime) {
    assert_eq!(rt; first_other(true, &TWO_BYTE, 0x00, 0x7F), None);
}

#[test]
fn checksums_of_0f_80_to_ff(rt: HostRuntime) {
    assert_eq!(rt; first_other(true, &TWO_BYTE, 0x80, 0xFF), None);
}

/// The maps agree at 07, which is no opcode in either, and differ at 08.
#[test]
fn another_checksum_is_found(rt: HostRuntime) {
    assert_eq!(rt; first_other(false, &TWO_BYTE, 0x07, 0x09), Some(0x08));
}
