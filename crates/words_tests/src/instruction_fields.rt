//! Prefixes, forms of ModRM and immediates. The bytes of a form are an assembler's, whose notation stands beside them.

use crate::arithmetic::width_of;
use decode_fields::{Address, ModRm, Place, Prefixes, Rep, immediate, modrm, prefixes};
use test_kit::first_wrong;

/// ModRM, SIB and displacement; REX; and what they name: reg, base, index, scale and displacement.
type Form = (&'static [u8], u8, u8, Option<u8>, Option<u8>, u8, u64);

#[rattlefmt::skip]
static FORMS: [Form; 13] = [
    (&[0x03], 0, 0, Some(3), None, 1, 0),                                                // mov eax, [rbx]
    (&[0x0B], 0x45, 9, Some(11), None, 1, 0),                                            // mov r9d, [r11]
    (&[0x04, 0x24], 0, 0, Some(4), None, 1, 0),                                          // mov eax, [rsp]
    (&[0x0C, 0x24], 0x49, 1, Some(12), None, 1, 0),                                      // mov rcx, [r12]
    (&[0x45, 0x80], 0, 0, Some(5), None, 1, 0xFFFF_FFFF_FFFF_FF80),                      // mov eax, [rbp-128]
    (&[0x5D, 0], 0x45, 11, Some(13), None, 1, 0),                                        // mov r11d, [r13]
    (&[0xB7, 0, 0, 0, 0x80], 0x41, 6, Some(15), None, 1, 0xFFFF_FFFF_8000_0000),         // mov esi, [r15-0x80000000]
    (&[0x04, 0x48], 0, 0, Some(0), Some(1), 2, 0),                                       // mov eax, [rax+rcx*2]
    (&[0x44, 0xA5, 0xF8], 0x42, 0, Some(5), Some(12), 4, 0xFFFF_FFFF_FFFF_FFF8),         // mov eax, [rbp+r12*4-8]
    (&[0x84, 0xD5, 0xFF, 0xFF, 0xFF, 0x7F], 0x41, 0, Some(13), Some(2), 8, 0x7FFF_FFFF), // mov eax, [r13+rdx*8+2^31-1]
    (&[0x0C, 0xDD, 0, 1, 0, 0], 0, 1, None, Some(3), 8, 0x100),                          // mov ecx, [rbx*8+0x100]
    (&[0x34, 0x0D, 0xF0, 0xFF, 0xFF, 0xFF], 0x46, 14, None, Some(9), 1, 0xFFFF_FFFF_FFFF_FFF0), // mov r14d, [r9*1-16]
    (&[0x7C, 0x2C, 1], 0, 7, Some(4), Some(5), 1, 1),                                    // mov edi, [rsp+rbp*1+1]
];

/// Whether the bytes are this form to their last, and each cut of them is none.
fn is_form(bytes: &[u8], rex: u8, reg: u8, place: Place) -> bool {
    let is_rex = (rex == 0) | ((0x40 <= rex) & (rex < 0x50));
    if bytes.len() > 15 || !is_rex {
        return false;
    }
    let length = bytes.len() as u8;
    for size in 0..bytes.len() {
        if modrm(&bytes[..size], rex) != None {
            return false;
        }
    }
    modrm(bytes, rex) == Some(ModRm { reg, place, length })
}

/// Whether a row's bytes are its form in memory.
fn is_so(form: &Form) -> bool {
    let (bytes, rex, reg, base, index, scale, disp) = *form;
    let address = Address {
        base,
        index,
        scale,
        disp,
        rip: false,
    };
    is_form(bytes, rex, reg, Place::Mem(address))
}

#[test]
fn base_index_scale_and_displacement(rt: HostRuntime) {
    assert_eq!(rt; first_wrong(&FORMS, is_so), None);
}

/// A form that names something else, and one whose cut is a form, each between two that are right.
static WRONG_FORMS: [[Form; 3]; 2] = [
    [
        (&[0x03], 0, 0, Some(3), None, 1, 0),
        (&[0x03], 0, 0, Some(2), None, 1, 0),
        (&[0x03], 0, 0, Some(3), None, 1, 0),
    ],
    [
        (&[0x03], 0, 0, Some(3), None, 1, 0),
        (&[0x03, 0], 0, 0, Some(3), None, 1, 0),
        (&[0x03], 0, 0, Some(3), None, 1, 0),
    ],
];

#[test]
fn wrong_forms_are_found(rt: HostRuntime) {
    for forms in &WRONG_FORMS {
        assert!(rt; first_wrong(forms, is_so) == Some(1));
    }
}

/// So far from the next instruction.
fn relative(disp: u64) -> Place {
    Place::Mem(Address {
        base: None,
        index: None,
        scale: 1,
        disp,
        rip: true,
    })
}

#[test]
fn registers_and_relative_to_the_next_instruction(rt: HostRuntime) {
    // mov eax, ebx; mov r15, r8; mov eax, [rip+0x12345678]; mov r10d, [rip-2], with and without REX.B
    assert!(rt; is_form(&[0xC3], 0, 0, Place::Reg(3)));
    assert!(rt; is_form(&[0xF8], 0x4D, 15, Place::Reg(8)));
    assert!(rt; is_form(&[0x05, 0x78, 0x56, 0x34, 0x12], 0, 0, relative(0x1234_5678)));
    let below: &[u8] = &[0x15, 0xFE, 0xFF, 0xFF, 0xFF];
    assert!(rt; is_form(below, 0x44, 10, relative(0xFFFF_FFFF_FFFF_FFFE)));
    assert!(rt; is_form(below, 0x45, 10, relative(0xFFFF_FFFF_FFFF_FFFE)));
    assert!(rt; !is_form(below, 0x44, 10, relative(0xFFFF_FFFE)));
}

#[test]
fn prefixes_before_an_opcode(rt: HostRuntime) {
    // rex.w, then repne and rep, lock, operand size, rex.b
    let found = prefixes(&[0x48, 0xF2, 0xF3, 0xF0, 0x66, 0x41, 0x90, 0x40]);
    let expected = Prefixes {
        length: 6,
        narrow: true,
        lock: true,
        rep: Rep::WhileEqual,
        rex: Some(0x41),
    };
    assert!(rt; found == expected);
    assert!(rt; prefixes(&[0x48, 0x2E, 0x90]).rex == None);
    assert!(rt; prefixes(&[0x64, 0x90]).length == 0);
}

/// Bytes, a width in bits, and the number that they begin with.
type Immediate = (&'static [u8], u8, Option<u64>);

#[rattlefmt::skip]
static IMMEDIATES: [Immediate; 6] = [
    (&[0x80], 8, Some(0xFFFF_FFFF_FFFF_FF80)),
    (&[0x34, 0x12, 0xFF], 16, Some(0x1234)),
    (&[0x34, 0x92], 16, Some(0xFFFF_FFFF_FFFF_9234)),
    (&[0, 0, 0, 0x80], 32, Some(0xFFFF_FFFF_8000_0000)),
    (&[1, 2, 3, 4, 5, 6, 7, 0x88], 64, Some(0x8807_0605_0403_0201)),
    (&[0, 0, 0], 32, None),
];

fn is_immediate(bytes: &[u8], width: u8, number: Option<u64>) -> bool {
    match width_of(width) {
        Some(width) => bytes.len() <= 15 && immediate(bytes, width) == number,
        None => false,
    }
}

#[test]
fn immediates_keep_their_sign(rt: HostRuntime) {
    for (bytes, width, number) in &IMMEDIATES {
        assert!(rt; is_immediate(bytes, *width, *number));
    }
}
