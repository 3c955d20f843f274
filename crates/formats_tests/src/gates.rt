//! Bytes of the text, as an assembler gives them.

use gate_text::{byte, is_point};

/// Whether the row is so, an offset in the text, and the bytes from there on.
type Row = (bool, usize, &'static [u8]);

/// Whether the text holds these bytes from this offset on.
fn holds(start: usize, bytes: &[u8]) -> bool {
    for (i, expected) in bytes.iter().enumerate() {
        if start >= 4096 || i >= 4096 - start || byte(start + i) != *expected {
            return false;
        }
    }
    true
}

#[rattlefmt::skip]
static TEXT: [Row; 9] = [
    // The stub of the first interrupt: jmp 448 from the end of the stub at 64 + 8 * 32, seven bytes
    // long.
    (true, 320, &[0x6A, 0x20, 0xE9, 0x79, 0x00, 0x00, 0x00, 0xCC]),
    // The exit gate sets WP again.
    (true, 29, &[0x0F, 0x20, 0xC0, 0x0D, 0x00, 0x00, 0x01, 0x00, 0x0F, 0x22, 0xC0]),
    // The body is an instruction of its own.
    (true, 27, &[0x0F, 0x0B]),
    (true, 4095, &[0xCC]),
    // Another byte behind the body's first one.
    (true, 27, &[0x0F, 0x0B]),
    (false, 27, &[0x0F, 0x0A]),
    (true, 27, &[0x0F, 0x0B]),
    // The second row passes the text's end.
    (true, 4095, &[0xCC]),
    (false, 4095, &[0xCC, 0xCC]),
];

#[test]
fn bytes_of_the_text(rt: HostRuntime) {
    for (index, (so, start, bytes)) in TEXT.iter().enumerate() {
        assert!(rt; holds(*start, bytes) == *so, "row {index}");
    }
}

/// How many offsets below this one are points.
fn points_below(end: usize) -> usize {
    let mut count = 0usize;
    for offset in 0..end {
        if is_point(offset) {
            count = count.wrapping_add(1);
        }
    }
    count
}

/// Whether the row is so, an offset, and whether it is a point.
type Point = (bool, usize, bool);

/// The first behind the load that clears WP, the body's place, the last stub; neither the loads nor
/// the stub of a fault.
#[rattlefmt::skip]
static POINTS: [Point; 15] = [
    (true, 16, true), (true, 27, true), (true, 37, true), (true, 320, true), (true, 442, true), (true, 457, true),
    (true, 13, false), (true, 47, false), (true, 64, false), (true, 312, false), (true, 321, false), (true, 467, false),
    (true, 4095, false),
    // A load that would be a point.
    (true, 16, true), (false, 13, true),
];

/// Fourteen in the gates, and two in each of the sixteen stubs of interrupts.
#[test]
fn points_of_the_listing(rt: HostRuntime) {
    assert!(rt; points_below(512) == 46);
    for (index, (so, offset, expected)) in POINTS.iter().enumerate() {
        assert!(rt; (is_point(*offset) == *expected) == *so, "row {index}");
    }
}
