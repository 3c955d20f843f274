//! The rows of the table of opcodes by their operations: which is the first, and which one follows another.

ghost use Rattle.std.specs.Prelude.{◌≡◌, ◌+◌, ◌<◌, length};
ghost use Rattle.asm_text.specs.RowPlaces.{IsIndexFrom, is_by_opcode, map_at, opcode_at, table_row};

use crate::operation::{NUMBERS, op_number};
use x86_decode::{Map, Operand, TableRow, row_at, row_places};

/// How many places there are, eight for each opcode of both maps.
pub(crate) const PLACES: u16 = 4096;

/// The places of rows by the number of their operation, in ascending order. Behind the last one stands `PLACES`.
#[derive(Clone, Copy)]
pub(crate) struct RowIndex {
    /// The first place of each number.
    pub first: [u16; NUMBERS],

    /// For each place that has a row the next one of its operation.
    pub next: [u16; 4096],

    /// Whether the opcode of a place names a register.
    pub by_opcode: [bool; 4096],
}

/// The map of a place.
#[tactic(auto, unfolding(crate::specs::RowPlaces::map_at))]
pub(crate) fn map_at(place: u16) -> Map
    ensures { result ≡ map_at place }
{
    if place < 2048 {
        Map::OneByte
    } else {
        Map::TwoByte
    }
}

/// The opcode of a place.
#[tactic(auto, unfolding(crate::specs::RowPlaces::opcode_at))]
pub(crate) fn opcode_at(place: u16) -> u8
    ensures { result ≡ opcode_at place }
{
    (place / 8 % 256) as u8
}

/// The row that stands at a place, if there is one.
#[tactic(auto, unfolding(crate::specs::RowPlaces::table_row))]
pub(crate) fn table_row(place: u16) -> Option<TableRow>
    ensures { result ≡ table_row place }
{
    let among = (place % 8) as u8;
    if among < row_places(map_at(place), opcode_at(place)) {
        row_at(map_at(place), opcode_at(place), among)
    } else {
        None
    }
}

fn is_by_opcode(letter: Operand) -> bool
    ensures { result ≡ is_by_opcode letter }
{
    match letter {
        Operand::Zb | Operand::Zv => true,
        _ => false,
    }
}

/// Puts the row of a place in front, if there is one.
fn put_row(index: &mut RowIndex, place: u16)
    requires within { place < 4096 }
    requires behind { IsIndexFrom (place + 1) index.old }
    ensures { IsIndexFrom place index.new }
{
    if let Some(row) = table_row(place) {
        let number = op_number(row.op) as usize;
        index.next[place as usize] = index.first[number];
        index.first[number] = place;
        index.by_opcode[place as usize] = is_by_opcode(row.shape.to) | is_by_opcode(row.shape.from);
    }
}

/// The index of all rows, which is made from the last one to the first.
pub(crate) fn row_index() -> RowIndex
    ensures { IsIndexFrom 0 result }
{
    let mut index = RowIndex {
        first: [PLACES; NUMBERS],
        next: [PLACES; 4096],
        by_opcode: [false; 4096],
    };
    for i in 0..PLACES {
        put_row(&mut index, PLACES - 1 - i);
    }
    index
}
