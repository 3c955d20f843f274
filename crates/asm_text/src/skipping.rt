//! What needn't be tried: REX bytes that don't give the registers and the width, forms of ModRM that don't name the
//! operands, and bytes that are longer than the best ones.

ghost use Rattle.std.specs.Prelude.{◌≡◌, ◌≤◌, true};
ghost use Rattle.decode_fields.specs.Widths.{IsWidth};
ghost use Rattle.asm_text.specs.Skipping.{address_base, address_index, address_may_fit, base_bit, base_may_fit, either_bit, form_length, has_width, high_bit, high_of, index_bit, is_ahead, is_behind, is_width, known_bit, mode_may_fit, narrow_length, number_least, opcode_length, reg_bit, rex_bits, rex_may_fit, rm_may_fit, row_least, value_of, wide_bit};

use crate::best::Best;
use crate::fitting::{is_ignored_layout, is_plain_layout};
use crate::order::is_bytewise_least;
use decode_fields::{Address, Place, Prefixes, Rep};
use x86_decode::{Instr, Map, Number, Operand, RowLayout, Shape, number_bytes, row_width};

/// Which of the low four bits of REX are known, and what they are; more than these where no REX fits.
#[derive(Clone, Copy)]
pub(crate) struct RexBits {
    pub known: u8,
    pub bits: u16,
}

fn high_bit(place: Place) -> Option<u8>
    ensures { result ≡ high_bit place }
{
    match place {
        Place::Reg(number) => Some(number / 8),
        Place::High(_) => Some(2),
        Place::Nothing | Place::Mem(_) | Place::Value => None,
    }
}

fn high_of(number: Option<u8>) -> Option<u8>
    ensures { result ≡ high_of number }
{
    match number {
        Some(number) => Some(number / 8),
        None => None,
    }
}

fn reg_bit(letter: Operand, place: Place) -> Option<u8>
    ensures { result ≡ reg_bit letter place }
{
    match letter {
        Operand::Gb | Operand::Gv => high_bit(place),
        _ => None,
    }
}

fn address_index(place: Place) -> Option<u8>
    ensures { result ≡ address_index place }
{
    match place {
        Place::Mem(address) => high_of(address.index),
        _ => None,
    }
}

fn address_base(place: Place) -> Option<u8>
    ensures { result ≡ address_base place }
{
    match place {
        Place::Mem(address) => high_of(address.base),
        _ => high_bit(place),
    }
}

fn index_bit(letter: Operand, place: Place) -> Option<u8>
    ensures { result ≡ index_bit letter place }
{
    match letter {
        Operand::Eb | Operand::Ev => address_index(place),
        _ => None,
    }
}

fn base_bit(letter: Operand, place: Place) -> Option<u8>
    ensures { result ≡ base_bit letter place }
{
    match letter {
        Operand::Eb | Operand::Ev => address_base(place),
        Operand::Zb | Operand::Zv => high_bit(place),
        _ => None,
    }
}

fn either_bit(bit: Option<u8>, other: Option<u8>) -> Option<u8>
    ensures { result ≡ either_bit bit other }
{
    match bit {
        Some(bit) => Some(bit),
        None => other,
    }
}

fn has_width(shape: Shape, instr: &Instr, narrow: bool, rex: u8) -> bool
    ensures { result ≡ has_width shape instr.now narrow rex }
{
    let prefixes = Prefixes {
        length: 0,
        narrow,
        lock: false,
        rep: Rep::No,
        rex: Some(rex),
    };
    row_width(shape.width, &prefixes) == instr.width
}

fn wide_bit(shape: Shape, instr: &Instr, narrow: bool) -> Option<u8>
    ensures { result ≡ wide_bit shape instr.now narrow }
{
    if has_width(shape, instr, narrow, 0x40) {
        if has_width(shape, instr, narrow, 0x48) {
            None
        } else {
            Some(0)
        }
    } else if has_width(shape, instr, narrow, 0x48) {
        Some(1)
    } else {
        Some(2)
    }
}

/// A bit, where it is known.
fn known_bit(bit: Option<u8>, value: u8) -> u8
    ensures value { result ≡ known_bit bit value }
    ensures small { result ≤ value }
{
    match bit {
        Some(_) => value,
        None => 0,
    }
}

fn value_of(bit: Option<u8>, value: u16) -> u16
    requires { value ≤ 8 }
    ensures value { result ≡ value_of bit value }
    ensures small { result ≤ 2040 }
{
    match bit {
        Some(bit) => bit as u16 * value,
        None => 0,
    }
}

#[tactic(auto, unfolding(crate::specs::Skipping::rex_bits))]
pub(crate) fn rex_bits(shape: Shape, instr: &Instr, narrow: bool) -> RexBits
    ensures { result ≡ rex_bits shape instr.now narrow }
{
    let wide = wide_bit(shape, instr, narrow);
    let reg = either_bit(reg_bit(shape.to, instr.to), reg_bit(shape.from, instr.from));
    let index = either_bit(
        index_bit(shape.to, instr.to),
        index_bit(shape.from, instr.from),
    );
    let base = either_bit(
        base_bit(shape.to, instr.to),
        base_bit(shape.from, instr.from),
    );
    RexBits {
        known: known_bit(wide, 8) + known_bit(reg, 4) + known_bit(index, 2) + known_bit(base, 1),
        bits: value_of(wide, 8) + value_of(reg, 4) + value_of(index, 2) + value_of(base, 1),
    }
}

/// Whether REX can have these low bits.
#[tactic(auto, unfolding(crate::specs::Skipping::rex_may_fit))]
pub(crate) fn rex_may_fit(it: RexBits, low: u8) -> bool
    ensures { result ≡ rex_may_fit it low }
{
    (low & it.known) as u16 == it.bits
}

pub(crate) fn mode_may_fit(layout: RowLayout, place: Place, mode: u8) -> bool
    ensures { result ≡ mode_may_fit layout place mode }
{
    match place {
        Place::Reg(_) | Place::High(_) => is_ignored_layout(layout) | (mode == 3),
        Place::Mem(_) => mode != 3,
        Place::Nothing | Place::Value => false,
    }
}

fn base_may_fit(base: Option<u8>, alone: bool, disp: u64, mode: u8, rm: u8) -> bool
    ensures { result ≡ base_may_fit base alone disp mode rm }
{
    match base {
        None => (mode == 0) & (rm == 4),
        Some(base) => !((mode == 0) & (disp != 0)) & ((rm == 4) | ((base % 8 == rm) & alone)),
    }
}

fn address_may_fit(address: &Address, mode: u8, rm: u8) -> bool
    ensures { result ≡ address_may_fit address.now mode rm }
{
    if address.rip {
        return (mode == 0) & (rm == 5);
    }
    base_may_fit(
        address.base,
        address.index.is_none(),
        address.disp,
        mode,
        rm,
    )
}

/// Whether rm can be this for an operand in memory.
pub(crate) fn rm_may_fit(place: Place, mode: u8, rm: u8) -> bool
    ensures { result ≡ rm_may_fit place mode rm }
{
    match place {
        Place::Mem(address) => address_may_fit(&address, mode, rm),
        _ => true,
    }
}

pub(crate) fn form_length(layout: RowLayout) -> usize
    ensures value { result ≡ form_length layout }
    ensures small { result ≤ 1 }
{
    if is_plain_layout(layout) { 0 } else { 1 }
}

pub(crate) fn narrow_length(narrow: bool) -> usize
    ensures value { result ≡ narrow_length narrow }
    ensures small { result ≤ 1 }
{
    if narrow { 1 } else { 0 }
}

fn opcode_length(map: Map) -> usize
    ensures { result ≡ opcode_length map }
{
    match map {
        Map::OneByte => 1,
        Map::TwoByte => 2,
    }
}

/// Whether there are best bytes, and fewer than these.
#[tactic(auto, unfolding(crate::specs::Skipping::is_behind))]
pub(crate) fn is_behind(best: &Best, least: usize) -> bool
    ensures { result ≡ is_behind best.now.items least }
{
    !best.is_empty() && best.len() < least
}

/// Whether there are best bytes, which come before all of so many bytes that begin with these.
#[tactic(auto, unfolding(crate::specs::Skipping::is_ahead))]
pub(crate) fn is_ahead(best: &Best, stem: &[u8], least: usize) -> bool
    ensures { result ≡ is_ahead best.now.items stem.now least }
{
    if best.is_empty() | (best.len() > least) {
        return false;
    }
    best.len() < least || is_bytewise_least(best.as_slice(), stem)
}

fn is_width(width: u8) -> bool
    ensures value { result ≡ is_width width }
    ensures known { result ≡ true → IsWidth width }
{
    (width == 8) | (width == 16) | (width == 32) | (width == 64)
}

fn number_least(number: Number, width: u8) -> usize
    ensures value { result ≡ number_least number width }
    ensures small { result ≤ 8 }
{
    if is_width(width) {
        number_bytes(number, width)
    } else {
        0
    }
}

/// The least length of what the row spells, without prefixes.
#[tactic(auto, unfolding(crate::specs::Skipping::row_least))]
pub(crate) fn row_least(map: Map, shape: Shape, instr: &Instr) -> usize
    ensures value { result ≡ row_least map shape instr.now }
    ensures small { result ≤ 11 }
{
    opcode_length(map) + form_length(shape.layout) + number_least(shape.number, instr.width)
}
