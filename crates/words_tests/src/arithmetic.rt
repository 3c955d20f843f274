//! Worked values at the edges of each width, as a processor gives them. Flags that an operation leaves alone, and those
//! that the manual leaves undefined, stay as they were before.

mod products;
mod shifts;
mod sums;

ghost use Rattle.std.specs.Prelude.{IfSome};
ghost use Rattle.decode_fields.specs.Widths.{IsWidth};

use x86_alu::{Logic, Out, Shift, add, logic, rotate, scan_bit, shift, sub};

/// All of 64 bits.
const ONES: u64 = u64::MAX;

/// The highest of 64 bits alone: the least signed number.
const TOP: u64 = 1 << 63;

/// All of 64 bits but the highest: the greatest signed number.
const MOST: u64 = TOP - 1;

fn out(value: u64, flags: u64) -> Out {
    Out { value, flags }
}

/// A row's width, in bits, if it is one of the four.
pub(crate) fn width_of(width: u8) -> Option<u8>
    ensures { IfSome result IsWidth }
{
    if width == 8 || width == 16 || width == 32 || width == 64 {
        Some(width)
    } else {
        None
    }
}

/// What is done with operands.
#[derive(Clone, Copy)]
enum Operation {
    /// Whether a carry comes in.
    Add(bool),
    /// Whether a borrow comes in.
    Subtract(bool),
    Combine(Logic),
    Shift(Shift),
    /// Whether to the left.
    Rotate(bool),
    /// Whether from the lowest bit up.
    Scan(bool),
}

/// Width in bits, both operands, the flags before; the value, the flags. The second operand of a shift or a rotation is
/// its count, and a scan has none.
type Row = (u8, u64, u64, u64, u64, u64);

/// An operation, rows of it, and the index of the first that is to be wrong.
type Case = (Operation, &'static [Row], Option<usize>);

fn answer(operation: Operation, width: u8, a: u64, b: u64, before: u64) -> Out
    requires { IsWidth width }
{
    let count = (b % 256) as u8;
    match operation {
        Operation::Add(carry) => add(width, a, b, carry, before),
        Operation::Subtract(borrow) => sub(width, a, b, borrow, before),
        Operation::Combine(op) => logic(op, width, a, b, before),
        Operation::Shift(op) => shift(op, width, a, count, before),
        Operation::Rotate(left) => rotate(left, width, a, count, before),
        Operation::Scan(up) => scan_bit(up, width, a, before),
    }
}

/// Whether a row is so.
fn is_so(operation: Operation, row: &Row) -> bool {
    let (width, a, b, before, value, flags) = *row;
    match width_of(width) {
        Some(width) => answer(operation, width, a, b, before) == out(value, flags),
        None => false,
    }
}
