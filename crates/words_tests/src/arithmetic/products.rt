//! Products and quotients: rows of each width, with operands at its edges and, last, what follows from them.
//! Flags that an operation leaves alone, and those that the manual leaves undefined, stay as they were before.

use super::{MOST, ONES, TOP, out, width_of};
use test_kit::first_wrong;
use x86_alu::{Divide, Quotient, divide, multiply};

/// Width in bits, a, b, the flags before; the low half, the high half, the flags.
type Product = (u8, u64, u64, u64, u64, u64, u64);

/// Width in bits, the dividend's halves, the divisor; the quotient and the remainder, or the divide error.
type Division = (u8, u64, u64, u64, Option<(u64, u64)>);

/// Whether signed, rows, and the index of the first that is to be wrong.
type Products = (bool, &'static [Product], Option<usize>);

/// Whether signed, rows, and the index of the first that is to be wrong.
type Divisions = (bool, &'static [Division], Option<usize>);

#[rattlefmt::skip]
static PRODUCTS: [Products; 6] = [
    // MUL.
    (false, &[
        (8, 0, 0, 0x8d7, 0, 0, 0xd6),
        (8, 1, 0xff, 0x8d7, 0xff, 0, 0xd6),
        (8, 0x7f, 1, 2, 0x7f, 0, 2),
        (8, 0x80, 0xff, 2, 0x80, 0x7f, 0x803),
        (8, 0xff, 0xff, 0x8d7, 1, 0xfe, 0x8d7),
        (16, 0, 0, 0x8d7, 0, 0, 0xd6),
        (16, 1, 0xffff, 0x8d7, 0xffff, 0, 0xd6),
        (16, 0x7fff, 1, 2, 0x7fff, 0, 2),
        (16, 0x8000, 0xffff, 2, 0x8000, 0x7fff, 0x803),
        (16, 0xffff, 0xffff, 0x8d7, 1, 0xfffe, 0x8d7),
        (32, 0, 0, 0x8d7, 0, 0, 0xd6),
        (32, 1, 0xffffffff, 0x8d7, 0xffffffff, 0, 0xd6),
        (32, 0x7fffffff, 1, 2, 0x7fffffff, 0, 2),
        (32, 0x80000000, 0xffffffff, 2, 0x80000000, 0x7fffffff, 0x803),
        (32, 0xffffffff, 0xffffffff, 0x8d7, 1, 0xfffffffe, 0x8d7),
        (64, 0, 0, 0x8d7, 0, 0, 0xd6),
        (64, 1, ONES, 0x8d7, ONES, 0, 0xd6),
        (64, MOST, 1, 2, MOST, 0, 2),
        (64, TOP, ONES, 2, TOP, MOST, 0x803),
        (64, ONES, ONES, 0x8d7, 1, 0xfffffffffffffffe, 0x8d7),
    ], None),
    // IMUL.
    (true, &[
        (8, 0, 0, 0x8d7, 0, 0, 0xd6),
        (8, 1, 0xff, 0x8d7, 0xff, 0xff, 0xd6),
        (8, 0x7f, 1, 2, 0x7f, 0, 2),
        (8, 0x80, 0xff, 2, 0x80, 0, 0x803),
        (8, 0xff, 0xff, 0x8d7, 1, 0, 0xd6),
        (16, 0, 0, 0x8d7, 0, 0, 0xd6),
        (16, 1, 0xffff, 0x8d7, 0xffff, 0xffff, 0xd6),
        (16, 0x7fff, 1, 2, 0x7fff, 0, 2),
        (16, 0x8000, 0xffff, 2, 0x8000, 0, 0x803),
        (16, 0xffff, 0xffff, 0x8d7, 1, 0, 0xd6),
        (32, 0, 0, 0x8d7, 0, 0, 0xd6),
        (32, 1, 0xffffffff, 0x8d7, 0xffffffff, 0xffffffff, 0xd6),
        (32, 0x7fffffff, 1, 2, 0x7fffffff, 0, 2),
        (32, 0x80000000, 0xffffffff, 2, 0x80000000, 0, 0x803),
        (32, 0xffffffff, 0xffffffff, 0x8d7, 1, 0, 0xd6),
        (64, 0, 0, 0x8d7, 0, 0, 0xd6),
        (64, 1, ONES, 0x8d7, ONES, ONES, 0xd6),
        (64, MOST, 1, 2, MOST, 0, 2),
        (64, TOP, ONES, 2, TOP, 0, 0x803),
        (64, ONES, ONES, 0x8d7, 1, 0, 0xd6),
    ], None),
    // Rows with another answer, and a width that there isn't, are found, at their place.
    (false, &[
        (8, 0x80, 0xff, 2, 0x80, 0x7f, 0x803),
        (8, 0x80, 0xff, 2, 0x81, 0x7f, 0x803),
        (8, 0x80, 0xff, 2, 0x80, 0x7f, 0x803),
    ], Some(1)),
    (false, &[
        (8, 0x80, 0xff, 2, 0x80, 0x7f, 0x803),
        (8, 0x80, 0xff, 2, 0x80, 0x7e, 0x803),
        (8, 0x80, 0xff, 2, 0x80, 0x7f, 0x803),
    ], Some(1)),
    (false, &[
        (8, 0x80, 0xff, 2, 0x80, 0x7f, 0x803),
        (8, 0x80, 0xff, 2, 0x80, 0x7f, 0x802),
        (8, 0x80, 0xff, 2, 0x80, 0x7f, 0x803),
    ], Some(1)),
    (false, &[
        (8, 0x80, 0xff, 2, 0x80, 0x7f, 0x803),
        (9, 0x80, 0xff, 2, 0x80, 0x7f, 0x803),
        (8, 0x80, 0xff, 2, 0x80, 0x7f, 0x803),
    ], Some(1)),
];

#[rattlefmt::skip]
static QUOTIENTS: [Divisions; 7] = [
    // DIV.
    (false, &[
        (8, 0, 7, 2, Some((3, 1))),
        (8, 1, 0, 1, None),
        (8, 0xff, 0xf9, 2, None),
        (8, 0xff, 0xf9, 0xfe, None),
        (8, 0xff, 0x80, 1, None),
        (8, 0, 0x80, 0xff, Some((0, 0x80))),
        (8, 0, 5, 0, None),
        (8, 0x40, 0, 0x80, Some((0x80, 0))),
        (16, 0, 7, 2, Some((3, 1))),
        (16, 1, 0, 1, None),
        (16, 0xffff, 0xfff9, 2, None),
        (16, 0xffff, 0xfff9, 0xfffe, None),
        (16, 0xffff, 0x8000, 1, None),
        (16, 0, 0x8000, 0xffff, Some((0, 0x8000))),
        (16, 0, 5, 0, None),
        (16, 0x4000, 0, 0x8000, Some((0x8000, 0))),
        (32, 0, 7, 2, Some((3, 1))),
        (32, 1, 0, 1, None),
        (32, 0xffffffff, 0xfffffff9, 2, None),
        (32, 0xffffffff, 0xfffffff9, 0xfffffffe, None),
        (32, 0xffffffff, 0x80000000, 1, None),
        (32, 0, 0x80000000, 0xffffffff, Some((0, 0x80000000))),
        (32, 0, 5, 0, None),
        (32, 0x40000000, 0, 0x80000000, Some((0x80000000, 0))),
        (64, 0, 7, 2, Some((3, 1))),
        (64, 1, 0, 1, None),
        (64, ONES, 0xfffffffffffffff9, 2, None),
        (64, ONES, 0xfffffffffffffff9, 0xfffffffffffffffe, None),
        (64, ONES, TOP, 1, None),
        (64, 0, TOP, ONES, Some((0, TOP))),
        (64, 0, 5, 0, None),
        (64, 0x4000000000000000, 0, TOP, Some((TOP, 0))),
    ], None),
    // IDIV.
    (true, &[
        (8, 0, 7, 2, Some((3, 1))),
        (8, 1, 0, 1, None),
        (8, 0xff, 0xf9, 2, Some((0xfd, 0xff))),
        (8, 0xff, 0xf9, 0xfe, Some((3, 0xff))),
        (8, 0xff, 0x80, 1, Some((0x80, 0))),
        (8, 0, 0x80, 0xff, Some((0x80, 0))),
        (8, 0, 5, 0, None),
        (8, 0x40, 0, 0x80, Some((0x80, 0))),
        (16, 0, 7, 2, Some((3, 1))),
        (16, 1, 0, 1, None),
        (16, 0xffff, 0xfff9, 2, Some((0xfffd, 0xffff))),
        (16, 0xffff, 0xfff9, 0xfffe, Some((3, 0xffff))),
        (16, 0xffff, 0x8000, 1, Some((0x8000, 0))),
        (16, 0, 0x8000, 0xffff, Some((0x8000, 0))),
        (16, 0, 5, 0, None),
        (16, 0x4000, 0, 0x8000, Some((0x8000, 0))),
        (32, 0, 7, 2, Some((3, 1))),
        (32, 1, 0, 1, None),
        (32, 0xffffffff, 0xfffffff9, 2, Some((0xfffffffd, 0xffffffff))),
        (32, 0xffffffff, 0xfffffff9, 0xfffffffe, Some((3, 0xffffffff))),
        (32, 0xffffffff, 0x80000000, 1, Some((0x80000000, 0))),
        (32, 0, 0x80000000, 0xffffffff, Some((0x80000000, 0))),
        (32, 0, 5, 0, None),
        (32, 0x40000000, 0, 0x80000000, Some((0x80000000, 0))),
        (64, 0, 7, 2, Some((3, 1))),
        (64, 1, 0, 1, None),
        (64, ONES, 0xfffffffffffffff9, 2, Some((0xfffffffffffffffd, ONES))),
        (64, ONES, 0xfffffffffffffff9, 0xfffffffffffffffe, Some((3, ONES))),
        (64, ONES, TOP, 1, Some((TOP, 0))),
        (64, 0, TOP, ONES, Some((TOP, 0))),
        (64, 0, 5, 0, None),
        (64, 0x4000000000000000, 0, TOP, Some((TOP, 0))),
    ], None),
    // Rows with another answer, and a width that there isn't, are found, at their place.
    (false, &[(8, 0, 7, 2, Some((3, 1))), (8, 0, 7, 2, Some((2, 1))), (8, 0, 7, 2, Some((3, 1)))], Some(1)),
    (false, &[(8, 0, 7, 2, Some((3, 1))), (8, 0, 7, 2, Some((3, 0))), (8, 0, 7, 2, Some((3, 1)))], Some(1)),
    (false, &[(8, 0, 7, 2, Some((3, 1))), (8, 0, 7, 2, None), (8, 0, 7, 2, Some((3, 1)))], Some(1)),
    (false, &[(8, 0, 7, 2, Some((3, 1))), (8, 0, 7, 0, Some((3, 1))), (8, 0, 7, 2, Some((3, 1)))], Some(1)),
    (false, &[(8, 0, 7, 2, Some((3, 1))), (9, 0, 7, 2, Some((3, 1))), (8, 0, 7, 2, Some((3, 1)))], Some(1)),
];

#[test]
fn multiplies(rt: HostRuntime) {
    for (signed, rows, wrong) in &PRODUCTS {
        assert!(rt; first_wrong(rows, |row| is_product(*signed, row)) == *wrong);
    }
}

#[test]
fn divides(rt: HostRuntime) {
    for (signed, rows, wrong) in &QUOTIENTS {
        assert!(rt; first_wrong(rows, |row| is_quotient(*signed, row)) == *wrong);
    }
}

fn is_product(signed: bool, row: &Product) -> bool {
    let (width, a, b, before, low, high, flags) = *row;
    let Some(width) = width_of(width) else {
        return false;
    };
    let is_low = multiply(signed, false, width, a, b, before) == out(low, flags);
    let is_high = multiply(signed, true, width, a, b, before) == out(high, flags);
    is_low & is_high
}

fn is_quotient(signed: bool, row: &Division) -> bool {
    let (width, high, low, by, answer) = *row;
    let Some(width) = width_of(width) else {
        return false;
    };
    let wanted = match answer {
        Some((value, rest)) => Ok(Quotient { value, rest }),
        None => Err(Divide),
    };
    divide(signed, width, high, low, by) == wanted
}
