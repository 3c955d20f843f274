//! The bytes of a spelling, put together from its parts.

ghost use Rattle.std.specs.Prelude.{◌≡◌, ◌≤◌, ◌+◌, ◌++◌, ◌∷◌, [], length};
ghost use Rattle.arrayvec.specs.ArrayVec.{array_vec_len};
ghost use Rattle.x86_decode.specs.Spelling.{opcode_bytes};
ghost use Rattle.asm_text.specs.Assembly.{byte_if, front_of, number_bytes_of, operand_bytes, place_bytes, rep_bytes, rex_bytes};
ghost use Rattle.asm_text.specs.Fitting.{asks_sib};

use arrayvec::ArrayVec;
use decode_fields::{Rep, needs_sib, size_of_displacement};
use x86_decode::{Map, RowLayout};

/// Bytes that are put together: four prefix bytes, two of the opcode, ModRM and SIB, four of displacement and eight of
/// a number at most.
pub(crate) type Bytes = ArrayVec<u8, 24>;

fn put_if(bytes: &mut Bytes, stands: bool, byte: u8)
    requires { array_vec_len bytes.old + 1 ≤ 24 }
    ensures value { bytes.new.items ≡ bytes.old.items ++ byte_if stands byte }
    ensures few { array_vec_len bytes.new ≤ array_vec_len bytes.old + 1 }
{
    if stands {
        bytes.push(byte);
    }
}

fn put_rep(bytes: &mut Bytes, rep: Rep)
    requires { array_vec_len bytes.old + 1 ≤ 24 }
    ensures value { bytes.new.items ≡ bytes.old.items ++ rep_bytes rep }
    ensures few { array_vec_len bytes.new ≤ array_vec_len bytes.old + 1 }
{
    match rep {
        Rep::No => {}
        Rep::WhileEqual => bytes.push(0xF3),
        Rep::WhileNot => bytes.push(0xF2),
    }
}

fn put_rex(bytes: &mut Bytes, rex: Option<u8>)
    requires { array_vec_len bytes.old + 1 ≤ 24 }
    ensures value { bytes.new.items ≡ bytes.old.items ++ rex_bytes rex }
    ensures few { array_vec_len bytes.new ≤ array_vec_len bytes.old + 1 }
{
    if let Some(rex) = rex {
        bytes.push(rex);
    }
}

fn put_opcode(bytes: &mut Bytes, map: Map, opcode: u8)
    requires { array_vec_len bytes.old + 2 ≤ 24 }
    ensures value { bytes.new.items ≡ bytes.old.items ++ opcode_bytes map opcode }
    ensures few { array_vec_len bytes.new ≤ array_vec_len bytes.old + 2 }
{
    match map {
        Map::OneByte => bytes.push(opcode),
        Map::TwoByte => {
            bytes.push(0x0F);
            bytes.push(opcode);
        }
    }
}

fn put_all(bytes: &mut Bytes, others: &[u8])
    requires { array_vec_len bytes.old + length others.now ≤ 24 }
    ensures value { bytes.new.items ≡ bytes.old.items ++ others.now }
    ensures few { array_vec_len bytes.new ≡ array_vec_len bytes.old + length others.now }
{
    for byte in others {
        bytes.push(*byte);
    }
}

fn put_number(bytes: &mut Bytes, size: usize, number: u64)
    requires { array_vec_len bytes.old + size ≤ 24 }
    ensures value { bytes.new.items ≡ bytes.old.items ++ number_bytes_of size number }
    ensures few { array_vec_len bytes.new ≡ array_vec_len bytes.old + size }
{
    let mut rest = number;
    for i in 0..size {
        bytes.push((rest % 256) as u8);
        rest = rest / 256;
    }
}

/// Prefix bytes and opcode.
pub(crate) fn stem(
    narrow: bool,
    lock: bool,
    rep: Rep,
    rex: Option<u8>,
    map: Map,
    opcode: u8,
) -> Bytes
    ensures value { result.items ≡ front_of narrow lock rep rex ++ opcode_bytes map opcode }
    ensures few { array_vec_len result ≤ 6 }
{
    let mut bytes = ArrayVec::new();
    put_if(&mut bytes, narrow, 0x66);
    put_if(&mut bytes, lock, 0xF0);
    put_rep(&mut bytes, rep);
    put_rex(&mut bytes, rex);
    put_opcode(&mut bytes, map, opcode);
    bytes
}

/// The bytes of a row's number, which has eight at most.
pub(crate) fn tail(size: usize, number: u64) -> Bytes
    requires { size ≤ 8 }
    ensures value { result.items ≡ number_bytes_of size number }
    ensures few { array_vec_len result ≤ 8 }
{
    let mut bytes = ArrayVec::new();
    put_number(&mut bytes, size, number);
    bytes
}

/// Whether ModRM asks for SIB, by the layout of the row.
pub(crate) fn asks_sib(layout: RowLayout, modrm: u8) -> bool
    ensures { result ≡ asks_sib layout modrm }
{
    match layout {
        RowLayout::Plain | RowLayout::Ignored => false,
        RowLayout::AnyForm | RowLayout::Memory | RowLayout::Register => needs_sib(modrm),
    }
}

fn put_place(bytes: &mut Bytes, modrm: u8, sib: u8, disp: u64)
    requires { array_vec_len bytes.old + 6 ≤ 24 }
    ensures value { bytes.new.items ≡ bytes.old.items ++ place_bytes modrm sib disp }
    ensures few { array_vec_len bytes.new ≤ array_vec_len bytes.old + 6 }
{
    let size = size_of_displacement(modrm, sib);
    bytes.push(modrm);
    put_if(bytes, needs_sib(modrm), sib);
    put_number(bytes, size, disp);
}

fn put_operands(bytes: &mut Bytes, layout: RowLayout, modrm: u8, sib: u8, disp: u64)
    requires { array_vec_len bytes.old + 6 ≤ 24 }
    ensures value { bytes.new.items ≡ bytes.old.items ++ operand_bytes layout modrm sib disp }
    ensures few { array_vec_len bytes.new ≤ array_vec_len bytes.old + 6 }
{
    match layout {
        RowLayout::Plain => {}
        RowLayout::Ignored => bytes.push(modrm),
        RowLayout::AnyForm | RowLayout::Memory | RowLayout::Register => {
            put_place(bytes, modrm, sib, disp);
        }
    }
}

/// All bytes: prefix bytes and opcode, ModRM with SIB and displacement, and those of the number.
pub(crate) fn assembled(
    stem: &[u8],
    layout: RowLayout,
    modrm: u8,
    sib: u8,
    disp: u64,
    tail: &[u8],
) -> Bytes
    requires front { length stem.now ≤ 6 }
    requires number { length tail.now ≤ 8 }
    ensures { result.items ≡ stem.now ++ (operand_bytes layout modrm sib disp ++ tail.now) }
{
    let mut bytes = ArrayVec::new();
    put_all(&mut bytes, stem);
    put_operands(&mut bytes, layout, modrm, sib, disp);
    put_all(&mut bytes, tail);
    bytes
}
