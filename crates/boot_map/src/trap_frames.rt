//! The bytes of the frames that traps go by: the interrupt descriptor table (IDT) with the task-state segment (TSS),
//! and the handler slot. SDM volume 3, 6.14.1 and 7.7.

ghost use Rattle.std.specs.Prelude.{◌≡◌, ◌<◌};
ghost use Rattle.boot_map.specs.Opening.{byte_of_number, gate_of, gate_type, handler_byte, idt_and_tss_byte};

use nk_bits::{GATE, TRAP_STACK_TOP};

/// The number of bytes that the 48 gates take, 16 each.
const GATES_END: usize = 48 * 16;

/// Where IST1 stands in frame 0: at byte 36 of the task-state segment, which begins at 1,024.
const IST1: usize = 1024 + 36;

const IST1_END: usize = IST1 + 8;

/// The linear address of the first vector's stub in the gates' text; the stubs of the others follow, 8 bytes each.
const STUBS: u64 = GATE + 64;

/// The linear address of the halt loop in the gates' text.
const HALT_LOOP: u64 = GATE + 474;

/// The selector of the code segment at CPL 0.
const CODE_SELECTOR: u8 = 0x08;

/// Byte `index` of a number, least significant first.
#[tactic(auto, using(crate::proofs::Bytes::byte_of_le_bytes))]
fn number_byte(number: u64, index: usize) -> u8
    requires { index < 8 }
    ensures { result ≡ byte_of_number number index }
{
    number.to_le_bytes()[index]
}

fn gate_type(vector: u64) -> u8
    ensures { result ≡ gate_type vector }
{
    match vector {
        3 | 4 | 47 => 0xEE,
        _ => 0x8E,
    }
}

#[tactic(auto, unfolding(crate::specs::Opening::gate_of))]
fn gate(vector: u64) -> [u8; 16]
    requires { vector < 48 }
    ensures { result ≡ gate_of vector }
{
    let at = STUBS + 8 * vector;
    [
        number_byte(at, 0),
        number_byte(at, 1),
        CODE_SELECTOR,
        0,
        1,
        gate_type(vector),
        number_byte(at, 2),
        number_byte(at, 3),
        number_byte(at, 4),
        number_byte(at, 5),
        number_byte(at, 6),
        number_byte(at, 7),
        0,
        0,
        0,
        0,
    ]
}

/// The byte at an offset, in bytes, in the frame of the IDT and the TSS.
#[tactic(auto, unfolding(crate::specs::Opening::idt_and_tss_byte))]
pub fn idt_and_tss_byte(offset: usize) -> u8
    ensures { result ≡ idt_and_tss_byte offset }
{
    match offset {
        0..GATES_END => gate(offset as u64 / 16)[offset % 16],
        IST1..IST1_END => number_byte(TRAP_STACK_TOP, offset - IST1),
        _ => 0,
    }
}

/// The byte at an offset, in bytes, in the frame of the handler slot.
pub fn handler_byte(offset: usize) -> u8
    ensures { result ≡ handler_byte offset }
{
    if offset < 8 {
        number_byte(HALT_LOOP, offset)
    } else {
        0
    }
}
