//! Least spellings, worked out by hand from the manual's opcode maps; an assembler's choices are the same where they are
//! the least.

use asm_text::encode;
use decode_fields::{Address, Place, Rep};
use test_kit::first_wrong;
use x86_decode::{Instr, Op};

/// An instruction without prefixes that count: operation, width, operands and number; and its bytes.
type Row = (Op, u8, Place, Place, u64, &'static [u8]);

/// [base + index * scale + disp]
fn memory(base: Option<u8>, index: Option<u8>, scale: u8, disp: u64) -> Place {
    Place::Mem(Address {
        base,
        index,
        scale,
        disp,
        rip: false,
    })
}

const RAX: Place = Place::Reg(0);

#[rattlefmt::skip]
static ROWS: [Row; 12] = [
    (Op::Mov, 8, RAX, Place::Value, 0x41, &[0xB0, 0x41]),
    (Op::Mov, 8, Place::High(0), Place::Value, 1, &[0xB4, 1]),
    (Op::Mov, 8, Place::Reg(4), Place::Value, 1, &[0x40, 0xB4, 1]),
    (Op::Mov, 32, RAX, Place::Reg(1), 0, &[0x89, 0xC8]),
    (Op::Mov, 64, RAX, Place::Value, 0xC0220F, &[0x48, 0xC7, 0xC0, 0x0F, 0x22, 0xC0, 0]),
    (Op::Mov, 64, RAX, Place::Value, 0x1234_5678_9ABC_DEF0, &[0x48, 0xB8, 0xF0, 0xDE, 0xBC, 0x9A, 0x78, 0x56, 0x34, 0x12]),
    (Op::Add, 64, RAX, Place::Value, 1, &[0x48, 0x83, 0xC0, 1]),
    (Op::Xchg, 16, RAX, Place::Reg(1), 0, &[0x66, 0x91]),
    (Op::Push, 64, Place::Nothing, Place::Reg(12), 0, &[0x41, 0x54]),
    (Op::Jmp, 64, Place::Nothing, Place::Value, 0xFFFF_FFFF_FFFF_FFFE, &[0xEB, 0xFE]),
    (Op::Movtc, 64, Place::Nothing, RAX, 3, &[0x0F, 0x22, 0x18]),
    (Op::Nop, 64, Place::Nothing, Place::Nothing, 0, &[0x90]),
];

fn instruction(row: &Row) -> Instr {
    Instr {
        op: row.0,
        width: row.1,
        to: row.2,
        from: row.3,
        value: row.4,
        rep: Rep::No,
        lock: false,
    }
}

/// Whether these bytes are the least that spell it.
fn is_encoded(instr: &Instr, bytes: &[u8]) -> bool {
    match encode(instr) {
        Some(found) => found.as_slice() == bytes,
        None => false,
    }
}

/// Whether a row's bytes are the least that spell its instruction.
fn is_so(row: &Row) -> bool {
    is_encoded(&instruction(row), row.5)
}

#[test]
fn registers_numbers_and_control_registers(rt: HostRuntime) {
    assert_eq!(rt; first_wrong(&ROWS, is_so), None);
}

/// A row with a longer spelling, or one that comes later, is found at its place.
#[test]
fn wrong_rows_are_found(rt: HostRuntime) {
    let right: Row = (Op::Mov, 8, RAX, Place::Value, 0x41, &[0xB0, 0x41]);
    let longer: Row = (Op::Mov, 8, RAX, Place::Value, 0x41, &[0xC6, 0xC0, 0x41]);
    let later: Row = (Op::Mov, 32, RAX, Place::Reg(1), 0, &[0x8B, 0xC1]);
    assert_eq!(rt; first_wrong(&[right, longer, right], is_so), Some(1));
    assert_eq!(rt; first_wrong(&[right, right, later], is_so), Some(2));
}

#[test]
fn places_in_memory_and_prefixes(rt: HostRuntime) {
    // mov r8, [rsp + 8]; lea rax, [rax + rcx*8 + 256]; lock add dword [r13], 1; rep movsq
    let from_stack: Row = (
        Op::Mov,
        64,
        Place::Reg(8),
        memory(Some(4), None, 1, 8),
        0,
        &[],
    );
    assert!(rt; is_encoded(&instruction(&from_stack), &[0x4C, 0x8B, 0x44, 0x24, 8]));
    let lea: Row = (Op::Lea, 64, RAX, memory(Some(0), Some(1), 8, 256), 0, &[]);
    assert!(rt; is_encoded(&instruction(&lea), &[0x48, 0x8D, 0x84, 0xC8, 0, 1, 0, 0]));
    let add: Row = (
        Op::Add,
        32,
        memory(Some(13), None, 1, 0),
        Place::Value,
        1,
        &[],
    );
    let locked = Instr {
        lock: true,
        ..instruction(&add)
    };
    assert!(rt; is_encoded(&locked, &[0xF0, 0x41, 0x83, 0x45, 0, 1]));
    let moves: Row = (Op::Movs, 64, Place::Nothing, Place::Nothing, 0, &[]);
    let repeated = Instr {
        rep: Rep::WhileEqual,
        ..instruction(&moves)
    };
    assert!(rt; is_encoded(&repeated, &[0xF3, 0x48, 0xA5]));
}

#[test]
fn some_have_no_spelling(rt: HostRuntime) {
    let nine: Row = (Op::Mov, 9, RAX, Place::Reg(1), 0, &[]);
    assert!(rt; encode(&instruction(&nine)).is_none());
    let scaled: Row = (Op::Mov, 32, RAX, memory(Some(1), Some(4), 2, 0), 0, &[]);
    assert!(rt; encode(&instruction(&scaled)).is_none());
    let condition: Row = (Op::J(16), 64, Place::Nothing, Place::Value, 0, &[]);
    assert!(rt; encode(&instruction(&condition)).is_none());
}
