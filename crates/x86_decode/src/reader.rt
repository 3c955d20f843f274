//! From bytes to an instruction: prefixes, opcode, row, and the bytes behind the opcode.

ghost use Rattle.std.specs.Prelude.{◌≡◌, ◌<◌, ◌≤◌, ◌+◌, true, length, slice_get, take, drop};
ghost use Rattle.decode_fields.specs.Prefixes.{prefix_bytes, prefixes_of};
ghost use Rattle.decode_fields.specs.ModRm.{IsRex};
ghost use Rattle.x86_decode.specs.Conditions.{is_protected};
ghost use Rattle.x86_decode.specs.Decoding.{BeginsProtected, Decodes, IfWhole};
ghost use Rattle.x86_decode.specs.declared.instruction.Decoded.{Decoded};
ghost use Rattle.x86_decode.specs.WellFormed.{IsWellFormed};
ghost use Rattle.x86_decode.specs.Grid.{entry_at};
ghost use Rattle.x86_decode.specs.Meaning.{rex_number};
ghost use Rattle.x86_decode.specs.Reader.{answer_of, decoded_of, finished, read_choice, read_escaped, read_of, read_rest, read_row};
ghost use Rattle.x86_decode.specs.SpellingLaws.{DecodingLaws, SpellingLaws};

use crate::choice::{Choice, choose, rex};
use crate::entry::OpcodeEntry;
use crate::fields::{fields, instr, size_of_number, width};
use crate::instruction::Decoded;
use crate::one_byte::ONE_BYTE;
use crate::operation::Op;
use crate::shape::Shape;
use crate::two_byte::TWO_BYTE;
use decode_fields::{Prefixes, longer_law, prefixes, prefixes_law};

/// The escape to the two-byte opcodes.
const ESCAPE: u8 = 0x0F;

/// The bytes of the longest spelling that is lawful.
const LONGEST: usize = 15;

/// A map of opcodes: those of one byte, and those after 0F.
#[derive(Clone, Copy)]
pub enum Map {
    OneByte,
    TwoByte,
}

pub(crate) fn entry(map: Map, opcode: u8) -> OpcodeEntry
    ensures { result ≡ entry_at map opcode }
{
    match map {
        Map::OneByte => ONE_BYTE[opcode as usize],
        Map::TwoByte => TWO_BYTE[opcode as usize],
    }
}

/// The answer where bytes are missing, by how many there are.
fn cut(count: usize) -> Decoded
    ensures { result ≡ answer_of Decoded.Short count }
{
    if count < LONGEST {
        Decoded::Short
    } else {
        Decoded::TooLong
    }
}

/// A row with the bytes behind its opcode; `front` counts those up to the opcode, `count` all.
fn finish(
    op: Op,
    shape: Shape,
    prefixes: &Prefixes,
    opcode: u8,
    operands: &[u8],
    front: u8,
    count: usize,
) -> Decoded
    requires few { front + length operands.now ≤ 15 }
    requires rex { IsRex (rex_number prefixes.now) }
    ensures { result ≡ answer_of (finished op shape prefixes.now opcode operands.now front) count }
{
    let Some(fields) = fields(shape.layout, operands, rex(prefixes)) else {
        return cut(count);
    };
    let rest = &operands[fields.length as usize..];
    let size = size_of_number(shape.number, width(shape.width, prefixes));
    if rest.len() < size {
        return cut(count);
    }
    let instr = instr(op, shape, prefixes, opcode, &fields, rest);
    Decoded::Whole(instr, front + fields.length + size as u8)
}

/// An opcode and the bytes behind it.
fn row(
    map: Map,
    prefixes: &Prefixes,
    opcode: u8,
    operands: &[u8],
    front: u8,
    count: usize,
) -> Decoded
    requires few { front + length operands.now ≤ 15 }
    requires rex { IsRex (rex_number prefixes.now) }
    ensures { result ≡ answer_of (read_row map prefixes.now opcode operands.now front) count }
{
    match choose(entry(map, opcode), prefixes, operands.first().copied()) {
        Choice::Row(op, shape) => finish(op, shape, prefixes, opcode, operands, front, count),
        Choice::Missing => cut(count),
        Choice::Absent => Decoded::Unknown,
    }
}

fn escaped(prefixes: &Prefixes, bytes: &[u8], front: u8, count: usize) -> Decoded
    requires few { front + length bytes.now ≤ 15 }
    requires rex { IsRex (rex_number prefixes.now) }
    ensures { result ≡ answer_of (read_escaped prefixes.now bytes.now front) count }
{
    match bytes.split_first() {
        None => cut(count),
        Some((opcode, operands)) => {
            row(Map::TwoByte, prefixes, *opcode, operands, front + 1, count)
        }
    }
}

fn rest(prefixes: &Prefixes, bytes: &[u8], front: u8, count: usize) -> Decoded
    requires few { front + length bytes.now ≤ 15 }
    requires rex { IsRex (rex_number prefixes.now) }
    ensures { result ≡ answer_of (read_rest prefixes.now bytes.now front) count }
{
    match bytes.split_first() {
        None => cut(count),
        Some((byte, bytes)) => if *byte == ESCAPE {
            escaped(prefixes, bytes, front + 1, count)
        } else {
            row(Map::OneByte, prefixes, *byte, bytes, front + 1, count)
        },
    }
}

/// The answer as the definition computes it.
fn read(bytes: &[u8]) -> Decoded
    requires { length bytes.now ≤ 15 }
    ensures { result ≡ decoded_of bytes.now }
{
    let prefixes = prefixes(bytes);
    rest(
        &prefixes,
        &bytes[prefixes.length as usize..],
        prefixes.length,
        bytes.len(),
    )
}

/// What the bytes stand for. They are the first of an instruction, as many as were fetched so far, 15 at most.
pub fn decode(bytes: &[u8]) -> Decoded
    requires { length bytes.now ≤ 15 }
    ensures value { result ≡ decoded_of bytes.now }
    ensures right { Decodes bytes.now result }
    ensures only { (other : Decoded) → Decodes bytes.now other → other ≡ result }
    ensures formed { IfWhole result (λ instr size. IsWellFormed instr) }

    // The law on spellings: a load of a protected register has its protected encoding right behind its prefix bytes.
    ensures law { IfWhole result (λ instr size. is_protected instr.op ≡ true
        → BeginsProtected (take size bytes.now)) }
{
    decoding_law();
    spelling_law();
    read(bytes)
}

/// The computed answer is right, and no other is.
pub fn decoding_law()
    ensures { DecodingLaws }
{
    prefixes_law();
    longer_law();
}

/// No spelling is a proper prefix of another, and bytes spell at most one instruction, which is well formed and,
/// where it loads a protected register, has a protected encoding right behind its prefix bytes.
pub fn spelling_law()
    ensures { SpellingLaws }
{
    prefixes_law();
    longer_law();
}
