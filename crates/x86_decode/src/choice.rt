//! Which row of an entry stands, as far as the bytes tell.

ghost use Rattle.std.specs.Prelude.{◌≡◌, ◌<◌, ◌∷◌, [], slice_index_or, IfSome};
ghost use Rattle.decode_fields.specs.ModRm.{is_register, reg_field, rex_b, rex_w};
ghost use Rattle.x86_decode.specs.Grid.{slots_from};
ghost use Rattle.x86_decode.specs.Meaning.{layout_stands, operand_size, rex_number};
ghost use Rattle.x86_decode.specs.Reader.{asks_form, chosen, picked, picked_at, place_in_group, tested};

use crate::entry::{GROUPS, OpcodeEntry, Selector, Slot};
use crate::operation::Op;
use crate::shape::{RowLayout, Shape};
use decode_fields::{Prefixes, names_register, reg_field};

#[derive(Clone, Copy)]
pub(crate) enum Choice {
    Row(Op, Shape),

    /// The ModRM byte is needed.
    Missing,

    /// No row stands.
    Absent,
}

/// The REX byte, or 0 for none.
pub(crate) fn rex(prefixes: &Prefixes) -> u8
    ensures { result ≡ rex_number prefixes.now }
{
    prefixes.rex.unwrap_or(0)
}

/// The operand size in bits.
pub(crate) fn size(prefixes: &Prefixes) -> u8
    ensures value { result ≡ operand_size prefixes.now }
{
    if rex(prefixes) >> 3 & 1 == 1 {
        64
    } else if prefixes.narrow {
        16
    } else {
        32
    }
}

fn needs_form(layout: RowLayout) -> bool
    ensures { result ≡ asks_form layout }
{
    match layout {
        RowLayout::Memory | RowLayout::Register => true,
        _ => false,
    }
}

fn has_form(layout: RowLayout, modrm: u8) -> bool
    ensures { result ≡ layout_stands layout (modrm ∷ []) }
{
    match layout {
        RowLayout::Memory => !names_register(modrm),
        RowLayout::Register => names_register(modrm),
        _ => true,
    }
}

fn test(op: Op, shape: Shape, modrm: Option<u8>) -> Choice
    ensures { result ≡ tested op shape modrm }
{
    match modrm {
        Some(byte) => if has_form(shape.layout, byte) {
            Choice::Row(op, shape)
        } else {
            Choice::Absent
        },
        None => if needs_form(shape.layout) {
            Choice::Missing
        } else {
            Choice::Row(op, shape)
        },
    }
}

fn pick(slot: Slot, modrm: Option<u8>) -> Choice
    ensures { result ≡ picked slot modrm }
{
    match slot {
        Slot::Empty => Choice::Absent,
        Slot::Row(op, shape) => test(op, shape, modrm),
    }
}

/// The place in a group of the row that stands.
fn place(by: Selector, prefixes: &Prefixes, modrm: Option<u8>) -> Option<usize>
    ensures value { result ≡ place_in_group by prefixes.now modrm }
    ensures small { IfSome result (λ place. place < 8) }
{
    match by {
        Selector::Digit => match modrm {
            Some(byte) => Some(reg_field(byte) as usize),
            None => None,
        },
        Selector::Size => Some((size(prefixes) / 32) as usize),
        Selector::RexB => Some((rex(prefixes) & 1) as usize),
    }
}

/// The slot at a place of a group.
pub(crate) fn slot(first: u8, place: usize) -> Slot
    requires { place < 8 }
    ensures { result ≡ slice_index_or (slots_from first) place Slot.Empty }
{
    let at = first as usize + place;
    if at < GROUPS.len() {
        GROUPS[at]
    } else {
        Slot::Empty
    }
}

/// The row at a place of a group.
fn pick_at(first: u8, place: Option<usize>, modrm: Option<u8>) -> Choice
    requires { IfSome place (λ place. place < 8) }
    ensures { result ≡ picked_at (slots_from first) place modrm }
{
    match place {
        None => Choice::Missing,
        Some(place) => pick(slot(first, place), modrm),
    }
}

/// The row that an entry has at these prefixes and, where it is there, this ModRM byte.
pub(crate) fn choose(entry: OpcodeEntry, prefixes: &Prefixes, modrm: Option<u8>) -> Choice
    ensures { result ≡ chosen entry prefixes.now modrm }
{
    match entry {
        OpcodeEntry::Absent => Choice::Absent,
        OpcodeEntry::One(op, shape) => test(op, shape, modrm),
        OpcodeEntry::Many(by, first) => pick_at(first, place(by, prefixes, modrm), modrm),
    }
}
