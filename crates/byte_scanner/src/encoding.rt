//! The encodings that outer code must not hold.

ghost use Rattle.std.specs.Prelude.{◌≡◌, ◌<◌, ◌≤◌, length, slice_get, Some, true, false, MatchOption};
ghost use Rattle.decode_fields.specs.Protected.{is_protected_at, is_refused_with, length_after_escape, length_at, length_of_bytes};
ghost use Rattle.byte_scanner.specs.FirstFound.{found_with};
ghost use Rattle.byte_scanner.specs.FoundBytes.{IsFoundOf};

use decode_fields::{names_register, reg_field};

/// A protected encoding in an image.
#[derive(Clone, Copy, Debug, PartialEq, Eq)]
pub struct Found {
    /// Its linear address.
    pub at: u64,
    /// Its bytes in the order in which they stand, 0 past its length.
    pub bytes: [u8; 3],
    /// Its length in bytes, 2 or 3.
    pub count: u8,
}

/// The byte that every protected encoding begins with: the escape to the two-byte opcodes.
pub(crate) const ESCAPE: u8 = 0x0f;

/// WRMSR, which has no operand byte.
const WRMSR: u8 = 0x30;

/// Whether 0F, this opcode and this ModRM byte are one of the protected encodings of three bytes.
fn is_refused_with_modrm(opcode: u8, modrm: u8) -> bool
    ensures { result ≡ is_refused_with opcode modrm }
{
    let reg = reg_field(modrm);
    match opcode {
        // MOV to CRn, MOV to DRn
        0x22 | 0x23 => true,
        // LGDT and LIDT from memory, LMSW
        0x01 => ((reg == 2 || reg == 3) && !names_register(modrm)) || reg == 6,
        // LLDT, LTR
        0x00 => reg == 2 || reg == 3,
        _ => false,
    }
}

/// The length of the encoding that the bytes after an escape byte complete, 0 where they complete none.
fn length_after(second: Option<u8>, third: Option<u8>) -> u8
    ensures is { result ≡ length_after_escape second third }
    ensures most { result ≤ 3 }
{
    match second {
        None => 0,
        Some(WRMSR) => 2,
        Some(opcode) => match third {
            Some(modrm) if is_refused_with_modrm(opcode, modrm) => 3,
            _ => 0,
        },
    }
}

/// The length, 2 or 3, of the protected encoding that begins with these bytes, 0 where none does.
fn length_of(first: u8, second: Option<u8>, third: Option<u8>) -> u8
    ensures is { result ≡ length_of_bytes (Some first) second third }
    ensures most { result ≤ 3 }
{
    if first == ESCAPE {
        length_after(second, third)
    } else {
        0
    }
}

/// The protected encoding that begins with these bytes, as one that stands at an address.
pub(crate) fn found_of(at: u64, first: u8, second: Option<u8>, third: Option<u8>) -> Option<Found>
    ensures { MatchOption result (length_of_bytes (Some first) second third ≡ 0)
        (IsFoundOf at (Some first) second third) }
{
    let count = length_of(first, second, third);
    if count == 0 {
        return None;
    }
    let third = if count == 3 { third.unwrap_or(0) } else { 0 };
    Some(Found {
        at,
        bytes: [first, second.unwrap_or(0), third],
        count,
    })
}

/// The byte at a place, if one stands there.
pub(crate) fn byte_at(bytes: &[u8], place: usize) -> Option<u8>
    ensures { result ≡ slice_get bytes.now place }
{
    bytes.get(place).copied()
}

/// The length, 2 or 3, of the protected encoding at a place, wholly inside the bytes; 0 where none stands there.
pub(crate) fn length_at(bytes: &[u8], place: usize) -> u8
    requires { place < length bytes.now }
    ensures { result ≡ length_at (slice_get bytes.now) place }
{
    let second = byte_at(bytes, place + 1);
    let third = byte_at(bytes, place + 2);
    length_of(bytes[place], second, third)
}

/// The protected encoding at a place of the bytes, as one that stands at an address.
pub(crate) fn found_at(bytes: &[u8], place: usize, at: u64) -> Option<Found>
    requires { place < length bytes.now }
    ensures { MatchOption result (is_protected_at (slice_get bytes.now) place ≡ false)
        (λ found. (is_protected_at (slice_get bytes.now) place ≡ true)
        × (found ≡ found_with (slice_get bytes.now) place at)) }
{
    let second = byte_at(bytes, place + 1);
    let third = byte_at(bytes, place + 2);
    found_of(at, bytes[place], second, third)
}
