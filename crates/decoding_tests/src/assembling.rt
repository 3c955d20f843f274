//! Texts of lines, and the code that was worked out by hand from the manual's opcode maps.

use asm_text::{TextFault, assemble};
use std::alloc::Global;
use test_kit::first_wrong;

/// A text, and its code or the number of its first line without code.
type Row = (&'static str, Result<&'static [u8], u64>);

/// Whether the text is assembled to this.
fn is_assembled(alloc: Global, row: &Row) -> bool {
    match (assemble(alloc, row.0.as_bytes()), row.1) {
        (Ok(code), Ok(bytes)) => code.as_slice() == bytes,
        (Err(TextFault::Line(number)), Err(wanted)) => number == wanted,
        _ => false,
    }
}

#[rattlefmt::skip]
static ROWS: [Row; 9] = [
    ("", Ok(&[])),
    ("mov.8 r0 value 41", Ok(&[0xB0, 0x41])),
    ("mov.8 r0 value 41\n", Ok(&[0xB0, 0x41])),
    ("mov.8 r0 value 41\nmov.32 r0 r1 0\n", Ok(&[0xB0, 0x41, 0x89, 0xC8])),
    ("mov.8 r0 value 41\nmov.9 r0 r1 0\nmov.9 r0 r1 0", Err(2)),
    ("mov.9 r0 r1 0", Err(1)),
    ("\n", Err(1)),
    ("mov.8 r0 value 41\n\n", Err(2)),
    ("mov.8 r0 value 41\r\n", Err(1)),
];

#[test]
fn texts_of_lines(rt: HostRuntime) {
    assert_eq!(rt;
        first_wrong(&ROWS, |row| is_assembled(rt.alloc(), row)),
        None
    );
}

/// A row with other code, or another line, is found at its place.
#[test]
fn wrong_rows_are_found(rt: HostRuntime) {
    let right: Row = ("mov.8 r0 value 41", Ok(&[0xB0, 0x41]));
    let longer: Row = ("mov.8 r0 value 41", Ok(&[0xC6, 0xC0, 0x41]));
    let later: Row = ("mov.9 r0 r1 0", Err(2));
    assert_eq!(rt;
        first_wrong(&[right, longer], |row| is_assembled(rt.alloc(), row)),
        Some(1)
    );
    assert_eq!(rt;
        first_wrong(&[right, right, later], |row| is_assembled(rt.alloc(), row)),
        Some(2)
    );
}
