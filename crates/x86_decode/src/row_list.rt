//! The rows of the table of opcodes one by one, for whoever goes over them.

ghost use Rattle.std.specs.Prelude.{◌≡◌, ◌<◌, ◌≤◌};
ghost use Rattle.decode_fields.specs.Widths.{IsWidth};
ghost use Rattle.x86_decode.specs.Grid.{entry_at};
ghost use Rattle.x86_decode.specs.Meaning.{number_size, width_of};
ghost use Rattle.x86_decode.specs.RowList.{places_of, entry_row, slot_row};
ghost use Rattle.x86_decode.specs.RowListLaws.{RowListLaws};

use crate::choice::slot;
use crate::entry::{OpcodeEntry, Selector, Slot};
use crate::fields::{size_of_number, width};
use crate::operation::Op;
use crate::reader::{Map, entry};
use crate::shape::{Number, Shape, Width};
use decode_fields::Prefixes;

/// A row of the table.
#[derive(Clone, Copy)]
pub struct TableRow {
    pub op: Op,
    pub shape: Shape,

    /// What reg of ModRM has to be, 0 to 7, where that tells the row from others of its opcode.
    pub digit: Option<u8>,
}

fn places(entry: OpcodeEntry) -> u8
    ensures value { result ≡ places_of entry }
    ensures few { result ≤ 8 }
{
    match entry {
        OpcodeEntry::Absent => 0,
        OpcodeEntry::One(_, _) => 1,
        OpcodeEntry::Many(_, _) => 8,
    }
}

/// How many places the rows of an opcode have, 0 to 8; a place may be empty.
pub fn row_places(map: Map, opcode: u8) -> u8
    ensures value { result ≡ places_of (entry_at map opcode) }
    ensures few { result ≤ 8 }
{
    places(entry(map, opcode))
}

fn slot_row(by: Selector, place: u8, slot: Slot) -> Option<TableRow>
    ensures { result ≡ slot_row by place slot }
{
    match slot {
        Slot::Empty => None,
        Slot::Row(op, shape) => Some(TableRow {
            op,
            shape,
            digit: match by {
                Selector::Digit => Some(place),
                Selector::Size | Selector::RexB => None,
            },
        }),
    }
}

fn entry_row(entry: OpcodeEntry, place: u8) -> Option<TableRow>
    requires { place < 8 }
    ensures { result ≡ entry_row entry place }
{
    match entry {
        OpcodeEntry::Absent => None,
        OpcodeEntry::One(op, shape) => Some(TableRow {
            op,
            shape,
            digit: None,
        }),
        OpcodeEntry::Many(by, first) => slot_row(by, place, slot(first, place as usize)),
    }
}

/// The row of an opcode at a place, if one stands there. An opcode with one place has its only row at each.
pub fn row_at(map: Map, opcode: u8, place: u8) -> Option<TableRow>
    requires { place < 8 }
    ensures { result ≡ entry_row (entry_at map opcode) place }
{
    entry_row(entry(map, opcode), place)
}

/// The width of a row in bits, by the prefixes.
pub fn row_width(of: Width, prefixes: &Prefixes) -> u8
    ensures value { result ≡ width_of of prefixes.now }
    ensures known { IsWidth result }
{
    width(of, prefixes)
}

/// How many bytes the number of a row has, by the row's width in bits.
pub fn number_bytes(number: Number, width: u8) -> usize
    requires { IsWidth width }
    ensures value { result ≡ number_size number width }
    ensures small { result ≤ 8 }
{
    size_of_number(number, width)
}

/// Each row of the table stands at a place of its opcode.
pub fn rows_law()
    ensures { RowListLaws }
{}
