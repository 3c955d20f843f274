//! What can be seen of an instruction before its bytes are put together: which rows, which REX bytes and which ModRM
//! bytes can't spell it.

ghost use Rattle.std.specs.Prelude.{◌≡◌, ◌<◌, true};
ghost use Rattle.decode_fields.specs.Widths.{IsWidth};
ghost use Rattle.asm_text.specs.Skipping.{shape_fits};
ghost use Rattle.asm_text.specs.Fitting.{address_fits, wanted_form, has_bit, has_high_bit, is_by_number, is_by_reg, is_by_rm, is_byte_register, is_general, is_ignored_layout, is_memory_place, is_no_place, is_numbered, is_option_of, is_plain_layout, is_value, letter_fits, low_of, low_or, modrm_fits, place_disp, reg_fits, reg_place, rex_fits, rm_fits, rm_place, sib_low, size_fits, wanted_reg};

use decode_fields::{Place, Prefixes, Rep, names_register, reg_field, rm_field};
use x86_decode::{Instr, Number, Operand, RowLayout, Shape, TableRow, row_width};

/// What ModRM has to say.
#[derive(Clone, Copy)]
pub(crate) struct Form {
    pub layout: RowLayout,

    /// Its field reg, 0 to 7, where that is known.
    pub reg: Option<u8>,

    /// The operand by mod and rm.
    pub place: Place,
}

fn is_no_place(place: Place) -> bool
    ensures { result ≡ is_no_place place }
{
    match place {
        Place::Nothing => true,
        _ => false,
    }
}

fn is_value(place: Place) -> bool
    ensures { result ≡ is_value place }
{
    match place {
        Place::Value => true,
        _ => false,
    }
}

fn is_numbered(wanted: u8, place: Place) -> bool
    ensures { result ≡ is_numbered wanted place }
{
    match place {
        Place::Reg(number) => number == wanted,
        _ => false,
    }
}

fn is_general(place: Place) -> bool
    ensures { result ≡ is_general place }
{
    match place {
        Place::Reg(_) => true,
        _ => false,
    }
}

fn is_memory_place(place: Place) -> bool
    ensures { result ≡ is_memory_place place }
{
    match place {
        Place::Mem(_) => true,
        _ => false,
    }
}

fn is_byte_register(place: Place) -> bool
    ensures { result ≡ is_byte_register place }
{
    match place {
        Place::Reg(_) | Place::High(_) => true,
        _ => false,
    }
}

/// The low three bits of a register's number; those of a high byte register are 4 to 7.
pub(crate) fn low_of(place: Place) -> Option<u8>
    ensures { result ≡ low_of place }
{
    match place {
        Place::Reg(number) => Some(number % 8),
        Place::High(number) => Some(number % 4 + 4),
        _ => None,
    }
}

pub(crate) fn is_option_of(option: Option<u8>, number: u8) -> bool
    ensures { result ≡ is_option_of option number }
{
    match option {
        None => false,
        Some(other) => other == number,
    }
}

/// Whether an operand of this letter can stand there, behind this opcode.
fn letter_fits(letter: Operand, opcode: u8, place: Place) -> bool
    ensures { result ≡ letter_fits letter opcode place }
{
    match letter {
        Operand::Absent => is_no_place(place),
        Operand::Eb => is_byte_register(place) | is_memory_place(place),
        Operand::Ev => is_general(place) | is_memory_place(place),
        Operand::Gb => is_byte_register(place),
        Operand::Gv => is_general(place),
        Operand::Zb | Operand::Zv => is_option_of(low_of(place), opcode % 8),
        Operand::Accumulator => is_numbered(0, place),
        Operand::Counter => is_numbered(1, place),
        Operand::Port => is_numbered(2, place),
        Operand::Constant => is_value(place),
    }
}

fn is_by_rm(letter: Operand) -> bool
    ensures { result ≡ is_by_rm letter }
{
    match letter {
        Operand::Eb | Operand::Ev => true,
        _ => false,
    }
}

fn is_by_reg(letter: Operand) -> bool
    ensures { result ≡ is_by_reg letter }
{
    match letter {
        Operand::Gb | Operand::Gv => true,
        _ => false,
    }
}

/// Whether no ModRM follows the opcode.
pub(crate) fn is_plain_layout(layout: RowLayout) -> bool
    ensures { result ≡ is_plain_layout layout }
{
    match layout {
        RowLayout::Plain => true,
        _ => false,
    }
}

pub(crate) fn is_ignored_layout(layout: RowLayout) -> bool
    ensures { result ≡ is_ignored_layout layout }
{
    match layout {
        RowLayout::Ignored => true,
        _ => false,
    }
}

/// Whether a row of the instruction's operation can spell it behind this opcode. Where ModRM names no operand, NOP by
/// itself is shorter.
pub(crate) fn shape_fits(instr: &Instr, opcode: u8, shape: Shape) -> bool
    ensures { result ≡ shape_fits instr.now opcode shape }
{
    letter_fits(shape.to, opcode, instr.to)
        & (letter_fits(shape.from, opcode, instr.from)
            & (is_plain_layout(shape.layout) | (is_by_rm(shape.to) | is_by_rm(shape.from))))
}

/// The place by mod and rm.
fn rm_place(shape: Shape, instr: &Instr) -> Place
    ensures { result ≡ rm_place shape instr.now }
{
    if is_by_rm(shape.to) {
        instr.to
    } else if is_by_rm(shape.from) {
        instr.from
    } else {
        Place::Nothing
    }
}

/// The place by reg.
fn reg_place(shape: Shape, instr: &Instr) -> Place
    ensures { result ≡ reg_place shape instr.now }
{
    if is_by_reg(shape.to) {
        instr.to
    } else if is_by_reg(shape.from) {
        instr.from
    } else {
        Place::Nothing
    }
}

fn is_by_number(number: Number) -> bool
    ensures { result ≡ is_by_number number }
{
    match number {
        Number::Cn => true,
        _ => false,
    }
}

/// Which reg of ModRM the row or an operand names.
fn wanted_reg(digit: Option<u8>, shape: Shape, instr: &Instr) -> Option<u8>
    ensures { result ≡ wanted_reg digit shape instr.now }
{
    match digit {
        Some(digit) => Some(digit),
        None => if is_by_number(shape.number) {
            Some((instr.value % 8) as u8)
        } else {
            low_of(reg_place(shape, instr))
        },
    }
}

/// What ModRM has to say.
pub(crate) fn wanted_form(row: &TableRow, instr: &Instr) -> Form
    ensures { result ≡ wanted_form row.now instr.now }
{
    Form {
        layout: row.shape.layout,
        reg: wanted_reg(row.digit, row.shape, instr),
        place: rm_place(row.shape, instr),
    }
}

fn reg_fits(wanted: Option<u8>, reg: u8) -> bool
    ensures { result ≡ reg_fits wanted reg }
{
    match wanted {
        None => true,
        Some(wanted) => wanted == reg,
    }
}

fn rm_fits(layout: RowLayout, place: Place, modrm: u8) -> bool
    ensures { result ≡ rm_fits layout place modrm }
{
    match place {
        Place::Reg(number) => {
            (is_ignored_layout(layout) | names_register(modrm)) & (number % 8 == rm_field(modrm))
        }
        Place::High(number) => {
            (is_ignored_layout(layout) | names_register(modrm))
                & (number % 4 + 4 == rm_field(modrm))
        }
        Place::Mem(_) => !names_register(modrm),
        Place::Nothing | Place::Value => false,
    }
}

/// Whether ModRM can be this byte.
pub(crate) fn modrm_fits(form: &Form, modrm: u8) -> bool
    ensures { result ≡ modrm_fits form.now modrm }
{
    if !reg_fits(form.reg, reg_field(modrm)) {
        return false;
    }
    rm_fits(form.layout, form.place, modrm)
}

fn low_or(low: u8, number: Option<u8>) -> u8
    requires { low < 8 }
    ensures value { result ≡ low_or low number }
    ensures small { result < 8 }
{
    match number {
        None => low,
        Some(number) => number % 8,
    }
}

/// The low six bits of SIB by the operand in memory: index 4 stands for none, and so does base 5.
pub(crate) fn sib_low(place: Place) -> u8
    ensures value { result ≡ sib_low place }
    ensures small { result < 64 }
{
    match place {
        Place::Mem(address) => 8 * low_or(4, address.index) + low_or(5, address.base),
        _ => 0,
    }
}

/// The displacement of the operand in memory.
pub(crate) fn place_disp(place: Place) -> u64
    ensures { result ≡ place_disp place }
{
    match place {
        Place::Mem(address) => address.disp,
        _ => 0,
    }
}

/// Whether a register's number has this high bit; a high byte register wants no REX.
fn has_high_bit(rex: Option<u8>, bit: u8, place: Place) -> bool
    ensures { result ≡ has_high_bit rex bit place }
{
    match place {
        Place::Reg(number) => number / 8 == bit,
        Place::High(_) => rex.is_none(),
        Place::Nothing | Place::Mem(_) | Place::Value => true,
    }
}

fn has_bit(bit: u8, number: Option<u8>) -> bool
    ensures { result ≡ has_bit bit number }
{
    match number {
        None => true,
        Some(number) => number / 8 == bit,
    }
}

/// Whether base and index have the high bits that REX gives them.
fn address_fits(rex: u8, place: Place) -> bool
    ensures { result ≡ address_fits rex place }
{
    match place {
        Place::Mem(address) => has_bit(rex % 2, address.base) & has_bit(rex / 2 % 2, address.index),
        Place::Nothing | Place::Reg(_) | Place::High(_) | Place::Value => true,
    }
}

/// Whether REX has the high bits of the operand's registers.
fn rex_fits(rex: Option<u8>, letter: Operand, place: Place) -> bool
    ensures { result ≡ rex_fits rex letter place }
{
    let byte = rex.unwrap_or(0);
    match letter {
        Operand::Eb | Operand::Ev => has_high_bit(rex, byte % 2, place) & address_fits(byte, place),
        Operand::Gb | Operand::Gv => has_high_bit(rex, byte / 4 % 2, place),
        Operand::Zb | Operand::Zv => has_high_bit(rex, byte % 2, place),
        _ => true,
    }
}

/// Whether 66 and REX give the width and the registers of the instruction.
pub(crate) fn size_fits(shape: Shape, instr: &Instr, narrow: bool, rex: Option<u8>) -> bool
    ensures value { result ≡ size_fits shape instr.now narrow rex }
    ensures known { result ≡ true → IsWidth instr.now.width }
{
    let prefixes = Prefixes {
        length: 0,
        narrow,
        lock: false,
        rep: Rep::No,
        rex,
    };
    if row_width(shape.width, &prefixes) != instr.width {
        return false;
    }
    rex_fits(rex, shape.to, instr.to) & rex_fits(rex, shape.from, instr.from)
}
