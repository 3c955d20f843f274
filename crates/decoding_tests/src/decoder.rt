//! Each row of the opcode maps by vectors of examples/opcodes, whole answers by checksums, and what prefixes and ends
//! of bytes do.

mod checksums;
mod edges;
mod one_byte_00;
mod one_byte_80;
mod one_byte_c0;
mod operations;
mod prefixes;
mod rows;
mod two_byte;
mod whole;

use rows::first_wrong_line;

#[test]
fn opcodes_00_to_3f(rt: HostRuntime) {
    assert_eq!(rt; first_wrong_line(&one_byte_00::FROM_00), None);
}

#[test]
fn opcodes_40_to_7f(rt: HostRuntime) {
    assert_eq!(rt; first_wrong_line(&one_byte_00::FROM_40), None);
}

#[test]
fn opcodes_80_to_83(rt: HostRuntime) {
    assert_eq!(rt; first_wrong_line(&one_byte_80::FROM_80), None);
}

#[test]
fn opcodes_84_to_bf(rt: HostRuntime) {
    assert_eq!(rt; first_wrong_line(&one_byte_80::FROM_84), None);
}

#[test]
fn opcodes_c0_to_df(rt: HostRuntime) {
    assert_eq!(rt; first_wrong_line(&one_byte_c0::FROM_C0), None);
}

#[test]
fn opcodes_e0_to_ff(rt: HostRuntime) {
    assert_eq!(rt; first_wrong_line(&one_byte_c0::FROM_E0), None);
}

#[test]
fn opcodes_0f_00_to_7f(rt: HostRuntime) {
    assert_eq!(rt; first_wrong_line(&two_byte::FROM_0F_00), None);
}

#[test]
fn opcodes_0f_80_to_b7(rt: HostRuntime) {
    assert_eq!(rt; first_wrong_line(&two_byte::FROM_0F_80), None);
}

#[test]
fn opcodes_0f_b8_to_ff(rt: HostRuntime) {
    assert_eq!(rt; first_wrong_line(&two_byte::FROM_0F_B8), None);
}

#[test]
fn prefixes_and_ends_of_bytes(rt: HostRuntime) {
    assert_eq!(rt; first_wrong_line(&edges::EDGES), None);
}
