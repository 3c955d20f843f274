//! Reads rows of test vectors, and finds the first that says something else than the decoder.
//!
//! A row has bytes, `=`, and what they spell: an operation, with `.` and its condition where it has one, the width,
//! `to` and `from`, then the value where it isn't 0, `rep` or `repne`, and `lock`. Numbers are hexadecimal, but for
//! widths and registers. `Short`, `TooLong` and `Unknown` are the other answers. Behind `#` stands a row of the map.

ghost use Rattle.std.specs.Prelude.{◌≤◌, length};

use super::operations::{condition, number, number_of};
use decode_fields::{Address, Place, Rep};
use x86_decode::{Decoded, Instr, decode};

/// The number that these digits write to the base 10 or 16.
fn number_in(base: u64, digits: &[u8]) -> Option<u64> {
    let mut value = 0u64;
    for digit in digits {
        let found = match *digit {
            b'0'..=b'9' => *digit - b'0',
            b'A'..=b'F' => *digit - b'A' + 10,
            _ => 16,
        };
        if found as u64 >= base {
            return None;
        }
        value = value.wrapping_mul(base).wrapping_add(found as u64);
    }
    Some(value)
}

/// A number below 256, to the base 10 or 16.
fn byte_in(base: u64, digits: &[u8]) -> Option<u8> {
    match number_in(base, digits) {
        Some(value) if value < 256 => Some(value as u8),
        _ => None,
    }
}

/// The three places in memory that rows name: base and index without REX, with REX.B and REX.X, and relative to RIP.
fn memory(word: &[u8]) -> Option<Address> {
    if word == b"[rip-2]".as_slice() {
        return Some(Address {
            base: None,
            index: None,
            scale: 1,
            disp: 0xFFFF_FFFF_FFFF_FFFE,
            rip: true,
        });
    }
    let plain = word == b"[r3+r1*4-16]".as_slice();
    if !plain && word != b"[r11+r9*4-16]".as_slice() {
        return None;
    }
    Some(Address {
        base: Some(if plain { 3 } else { 11 }),
        index: Some(if plain { 1 } else { 9 }),
        scale: 4,
        disp: 0xFFFF_FFFF_FFFF_FFF0,
        rip: false,
    })
}

fn place(word: &[u8]) -> Option<Place> {
    match word.first().copied() {
        Some(b'-') => Some(Place::Nothing),
        Some(b'i') => Some(Place::Value),
        Some(b'[') => match memory(word) {
            Some(address) => Some(Place::Mem(address)),
            None => None,
        },
        Some(b'r') => match byte_in(10, &word[1..]) {
            Some(register) => Some(Place::Reg(register)),
            None => None,
        },
        Some(b'a') => Some(Place::High(0)),
        Some(b'c') => Some(Place::High(1)),
        Some(b'd') => Some(Place::High(2)),
        Some(b'b') => Some(Place::High(3)),
        _ => None,
    }
}

/// The word at this place of a text, or no bytes where there are fewer.
fn word_at(text: &[u8], place: usize) -> &[u8] {
    text.split(|byte| *byte == b' ').nth(place).unwrap_or(&[])
}

/// Whether an operation has this name, which may end in `.` and a condition.
fn is_operation(found: &Instr, name: &[u8]) -> bool {
    let mut parts = name.split(|byte| *byte == b'.');
    let named = number_of(parts.next().unwrap_or(&[]));
    let under = byte_in(16, parts.next().unwrap_or(&[]));
    (number(found.op) as usize == named) & (Some(condition(found.op)) == under)
}

/// What the words from the sixth on say: the value, the repeat, and whether there is LOCK.
fn ending(said: &[u8]) -> Option<(u64, Rep, bool)> {
    let mut value = 0;
    let mut rep = Rep::No;
    let mut lock = false;
    for word in said.split(|byte| *byte == b' ').skip(5) {
        match word {
            b"rep" => rep = Rep::WhileEqual,
            b"repne" => rep = Rep::WhileNot,
            b"lock" => lock = true,
            digits => match number_in(16, digits) {
                Some(number) => value = number,
                None => return None,
            },
        }
    }
    Some((value, rep, lock))
}

/// The instruction that the words from the third on say, with the operation of another.
fn said_by(found: &Instr, said: &[u8]) -> Option<Instr> {
    let width = byte_in(10, word_at(said, 2))?;
    let to = place(word_at(said, 3))?;
    let from = place(word_at(said, 4))?;
    let (value, rep, lock) = ending(said)?;
    Some(Instr {
        op: found.op,
        width,
        to,
        from,
        value,
        rep,
        lock,
    })
}

/// Whether each cut of a spelling is short.
fn has_short_cuts(bytes: &[u8]) -> bool
    requires { length bytes.now ≤ 15 }
{
    for size in 0..bytes.len() {
        if decode(&bytes[..size]) != Decoded::Short {
            return false;
        }
    }
    true
}

/// Whether an instruction is what the row says behind `=`.
fn is_said(instr: &Instr, said: &[u8]) -> bool {
    is_operation(instr, word_at(said, 1)) && Some(*instr) == said_by(instr, said)
}

/// Whether bytes spell what the row says behind `=`, of which the first word is empty.
fn spells(bytes: &[u8], said: &[u8]) -> bool
    requires { length bytes.now ≤ 15 }
{
    match decode(bytes) {
        Decoded::Whole(instr, size) => {
            size as usize == bytes.len() && is_said(&instr, said) && has_short_cuts(bytes)
        }
        Decoded::Short => said == b" Short".as_slice(),
        Decoded::TooLong => said == b" TooLong".as_slice(),
        Decoded::Unknown => said == b" Unknown".as_slice(),
    }
}

/// The bytes of a row, and their number: 16 where there are more than 15, or where a word isn't a byte.
fn bytes_of(text: &[u8]) -> ([u8; 15], usize) {
    let mut bytes = [0; 15];
    let mut length = 0usize;
    for word in text.split(|byte| *byte == b' ') {
        if !word.is_empty() {
            if length >= 15 {
                return (bytes, 16);
            }
            let Some(byte) = byte_in(16, word) else {
                return (bytes, 16);
            };
            bytes[length] = byte;
            length += 1;
        }
    }
    (bytes, length)
}

/// Whether the decoder says what the row says.
fn is_right(row: &[u8]) -> bool {
    let mut halves = row.split(|byte| *byte == b'=');
    let (bytes, length) = bytes_of(halves.next().unwrap_or(&[]));
    length <= 15 && spells(&bytes[..length], halves.next().unwrap_or(&[]))
}

/// The place among a table's lines, from 0 on, of the first row that isn't right.
pub(super) fn first_wrong_line(table: &[u8]) -> Option<usize> {
    for (line, row) in table.split(|byte| *byte == b'\n').enumerate() {
        if row.first() != Some(&b'#') && !row.is_empty() && !is_right(row) {
            return Some(line);
        }
    }
    None
}

/// A right row, and wrong ones: the operation, the condition, an operand, the value, a repeat, the size, another
/// answer, and letters that are no digits.
#[test]
fn wrong_rows_are_found(rt: HostRuntime) {
    assert!(rt; is_right(b"3E 74 91 = J.4 64 - imm FFFFFFFFFFFFFF91"));
    assert!(rt; !is_right(b"3E 74 91 = JMP.4 64 - imm FFFFFFFFFFFFFF91"));
    assert!(rt; !is_right(b"3E 74 91 = J.5 64 - imm FFFFFFFFFFFFFF91"));
    assert!(rt; !is_right(b"3E 74 91 = J.4 64 r4 imm FFFFFFFFFFFFFF91"));
    assert!(rt; !is_right(b"3E 74 91 = J.4 64 - imm 91"));
    assert!(rt; !is_right(b"3E 74 91 = J.4 64 - imm FFFFFFFFFFFFFF91 rep"));
    assert!(rt; !is_right(b"3E 74 91 90 = J.4 64 - imm FFFFFFFFFFFFFF91"));
    assert!(rt; !is_right(b"3E 74 91 = Unknown"));
    assert!(rt; !is_right(b"3E 74 91 = J.4 64 - imm GFFFFFFFFFFFFF91"));
}

/// The lines of a table are counted with those that say what stands below them.
#[test]
fn first_of_the_wrong_rows_is_found(rt: HostRuntime) {
    assert_eq!(rt;
        first_wrong_line(b"# NOP\n90 = NOP 64 - -\n90 = CMC 64 - -\n90 = Short\n"),
        Some(2)
    );
}

/// MOV RAX, C0220F, in whose constant a MOV to CR0 stands, is one instruction of seven bytes; from its fourth byte on
/// there is that MOV.
#[test]
fn a_load_of_cr0_within_a_constant(rt: HostRuntime) {
    assert!(rt; is_right(b"48 C7 C0 0F 22 C0 00 = MOV 64 r0 imm C0220F"));
    assert!(rt; is_right(b"0F 22 C0 = MOVTC 64 - r0"));
}
