//! What the bytes behind an opcode say, by the form of its row.

ghost use Rattle.std.specs.Prelude.{◌≡◌, ◌<◌, ◌≤◌, ◌+◌, ◌^◌, ◌*◌, ◌%◌, ◌⊎◌, length, drop, IfNone, IfSome};
ghost use Rattle.decode_fields.specs.ModRm.{IsRex, modrm_byte, modrm_length, place_of, reg_of};
ghost use Rattle.decode_fields.specs.Widths.{IsWidth};
ghost use Rattle.x86_decode.specs.Meaning.{place_of_byte, byte_register, cut_number, fields_in, instr_by, is_string, layout_length, number_size, number_value, opcode_register, operand_place, rep_by, width_of};

use crate::choice::{rex, size};
use crate::instruction::Instr;
use crate::operation::Op;
use crate::shape::{Number, Operand, RowLayout, Shape, Width};
use decode_fields::{
    ModRm, Place, Prefixes, Rep, immediate, modrm, register_by_reg, register_by_rm,
};

/// The width of a row, in bits.
pub(crate) fn width(of: Width, prefixes: &Prefixes) -> u8
    ensures value { result ≡ width_of of prefixes.now }
    ensures known { IsWidth result }
{
    match of {
        Width::Byte => 8,
        Width::Word => 16,
        Width::Quad => 64,
        Width::Variable => size(prefixes),
        Width::Stack => if size(prefixes) == 16 { 16 } else { 64 },
    }
}

/// The bytes of a row's number.
pub(crate) fn size_of_number(number: Number, width: u8) -> usize
    requires { IsWidth width }
    ensures value { result ≡ number_size number width }
    ensures small { result ≤ 8 }
{
    match number {
        Number::Zero | Number::One | Number::Cn => 0,
        Number::Ib | Number::Ub => 1,
        Number::Uw => 2,
        Number::Jz => 4,
        Number::Iz => if width == 16 { 2 } else { 4 },
        Number::Iv => (width / 8) as usize,
    }
}

fn cut(number: u64, width: u8) -> u64
    requires { IsWidth width }
    ensures { result ≡ number % 2 ^ width }
{
    match width {
        8 => number & 0xFF,
        16 => number & 0xFFFF,
        32 => number & 0xFFFF_FFFF,
        _ => number,
    }
}

/// The first bytes as a number, extended by its sign and cut to a width.
fn signed(bytes: &[u8], size: usize, width: u8) -> u64
    requires few { length bytes.now ≤ 15 }
    requires there { size ≤ length bytes.now }
    requires known { (size ≡ 1) ⊎ ((size ≡ 2) ⊎ ((size ≡ 4) ⊎ (size ≡ 8))) }
    requires target { IsWidth width }
    ensures { result ≡ cut_number size width bytes.now }
{
    cut(immediate(bytes, 8 * size as u8).unwrap_or(0), width)
}

/// A row's number, by reg of ModRM and the bytes behind it.
fn value(number: Number, width: u8, reg: u8, bytes: &[u8]) -> u64
    requires few { length bytes.now ≤ 15 }
    requires known { IsWidth width }
    requires there { number_size number width ≤ length bytes.now }
    ensures { result ≡ number_value number width reg bytes.now }
{
    match number {
        Number::Zero => 0,
        Number::One => 1,
        Number::Ib => signed(bytes, 1, width),
        Number::Iz => signed(bytes, size_of_number(number, width), width),
        Number::Iv => signed(bytes, (width / 8) as usize, width),
        Number::Jz => signed(bytes, 4, width),
        Number::Ub => bytes[0] as u64,
        Number::Uw => bytes[0] as u64 + 256 * bytes[1] as u64,
        Number::Cn => reg as u64,
    }
}

fn register_of_byte(rex: Option<u8>, number: u8) -> Place
    ensures { result ≡ byte_register rex number }
{
    if rex.is_none() & (4 <= number) {
        Place::High(number - 4)
    } else {
        Place::Reg(number)
    }
}

fn place_of_byte(rex: Option<u8>, place: Place) -> Place
    ensures { result ≡ place_of_byte rex place }
{
    match place {
        Place::Reg(number) => register_of_byte(rex, number),
        _ => place,
    }
}

fn register_of_opcode(prefixes: &Prefixes, opcode: u8) -> u8
    ensures { result ≡ opcode_register prefixes.now opcode }
{
    register_by_rm(opcode, rex(prefixes))
}

/// Where an operand stands.
fn place(operand: Operand, prefixes: &Prefixes, opcode: u8, fields: &ModRm) -> Place
    ensures { result ≡ operand_place operand prefixes.now opcode fields.now }
{
    match operand {
        Operand::Absent => Place::Nothing,
        Operand::Eb => place_of_byte(prefixes.rex, fields.place),
        Operand::Ev => fields.place,
        Operand::Gb => register_of_byte(prefixes.rex, fields.reg),
        Operand::Gv => Place::Reg(fields.reg),
        Operand::Zb => register_of_byte(prefixes.rex, register_of_opcode(prefixes, opcode)),
        Operand::Zv => Place::Reg(register_of_opcode(prefixes, opcode)),
        Operand::Accumulator => Place::Reg(0),
        Operand::Counter => Place::Reg(1),
        Operand::Port => Place::Reg(2),
        Operand::Constant => Place::Value,
    }
}

fn repeats(op: Op) -> bool
    ensures { result ≡ is_string op }
{
    match op {
        Op::Movs | Op::Cmps | Op::Stos | Op::Lods | Op::Scas => true,
        _ => false,
    }
}

fn rep(op: Op, prefixes: &Prefixes) -> Rep
    ensures { result ≡ rep_by op prefixes.now }
{
    if repeats(op) { prefixes.rep } else { Rep::No }
}

/// ModRM with mod taken as 3.
fn register_fields(operands: &[u8], rex: u8) -> Option<ModRm>
    ensures { result ≡ fields_in RowLayout.Ignored operands.now rex }
{
    if operands.len() < 1 {
        return None;
    }
    let byte = operands[0];
    Some(ModRm {
        reg: register_by_reg(byte, rex),
        place: Place::Reg(register_by_rm(byte, rex)),
        length: 1,
    })
}

/// What ModRM says where the layout has it, unless its bytes are cut.
pub(crate) fn fields(layout: RowLayout, operands: &[u8], rex: u8) -> Option<ModRm>
    requires few { length operands.now ≤ 15 }
    requires known { IsRex rex }
    ensures value { result ≡ fields_in layout operands.now rex }
{
    match layout {
        RowLayout::Plain => Some(ModRm {
            reg: 0,
            place: Place::Nothing,
            length: 0,
        }),
        RowLayout::Ignored => register_fields(operands, rex),
        RowLayout::AnyForm | RowLayout::Memory | RowLayout::Register => modrm(operands, rex),
    }
}

/// The instruction of a row, by its fields and the bytes behind them.
pub(crate) fn instr(
    op: Op,
    shape: Shape,
    prefixes: &Prefixes,
    opcode: u8,
    fields: &ModRm,
    bytes: &[u8],
) -> Instr
    requires few { length bytes.now ≤ 15 }
    requires there { number_size shape.number (width_of shape.width prefixes.now) ≤ length bytes.now }
    ensures { result ≡ instr_by op shape prefixes.now opcode fields.now bytes.now }
{
    let width = width(shape.width, prefixes);
    Instr {
        op,
        width,
        to: place(shape.to, prefixes, opcode, fields),
        from: place(shape.from, prefixes, opcode, fields),
        value: value(shape.number, width, fields.reg, bytes),
        rep: rep(op, prefixes),
        lock: prefixes.lock,
    }
}
