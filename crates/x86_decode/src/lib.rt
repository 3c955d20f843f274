//! The decoder: which instruction bytes spell. It meets the grammar of `specs/Spelling.antt` over the table of
//! opcodes in `specs/OpcodeTable.antt`, after the SDM, volume 2, in both directions: what it answers stands, and what
//! stands it answers. It looks at the bytes that it is given and at nothing else, and takes no memory; what an
//! instruction does, and whether it may, others say; under which conditions its operation faults is a table here.
//! Floor: formats.

#![tactic(auto)]

mod operation;

pub use operation::Op;

mod instruction;

pub use instruction::{Decoded, Instr};

mod conditions;

pub use conditions::{Conditions, UndefinedWhere, conditions_of};

mod shape;

pub use shape::{Number, Operand, RowLayout, Shape, Width};

// the tables, whose rows the macros of `entry` write
mod entry;
mod one_byte;
mod two_byte;

// one row: which stands, and what its bytes say
mod choice;
mod fields;

// all bytes
mod reader;

pub use reader::{Map, decode, decoding_law, spelling_law};

// the table's rows, one by one
mod row_list;

pub use row_list::{TableRow, number_bytes, row_at, row_places, row_width, rows_law};
