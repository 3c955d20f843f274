//! Instructions that are an act alone: RIP goes on and the act is given; of all others nothing is made.

use super::{CONTROL, REGS, memory};
use exec_flow::sole_act;
use std::alloc::Global;
use test_kit::first_wrong;
use tlb_model::Tlb;
use x86_decode::{Decoded, decode};
use x86_regs::{Act, Form, Regs, instr_form};

/// Bytes, the CPL, RAX, and the act that they are alone.
type Row = (&'static [u8], u8, u64, Option<Act>);

/// hlt; int3, int 80; mov cr0, cr2, cr3 and cr4, rax; out dx, al; in al, 60; invlpg [rax].
static ALONE: [Row; 10] = [
    (b"\xF4", 0, 0, Some(Act::Halt)),
    (b"\xCC", 3, 0, Some(Act::Interrupt(3))),
    (b"\xCD\x80", 0, 0, Some(Act::Interrupt(0x80))),
    (b"\x0F\x22\xC0", 0, 0x8001_0001, Some(Act::Cr0(0x8001_0001))),
    (b"\x0F\x22\xD0", 0, 0x1234, Some(Act::Cr2(0x1234))),
    (b"\x0F\x22\xD8", 0, 0x5000, Some(Act::Cr3(0x5000))),
    (b"\x0F\x22\xE0", 0, 0x20, Some(Act::Cr4(0x20))),
    (b"\xEE", 0, 0x41, Some(Act::Out(0x41, 0xEA))),
    (b"\xE4\x60", 0, 0, Some(Act::In(0x60))),
    (b"\x0F\x01\x38", 0, 0x5123, Some(Act::DropPage(5))),
];

/// hlt at CPL 3; mov cr0 without PE, and cr3 of a frame that there isn't; mov cr1; LOCK int3; pushf, popf, cli, mov rax, cr0;
/// iretq whose frame isn't kept; lidt [rax].
static OTHERS: [Row; 11] = [
    (b"\xF4", 3, 0, None),
    (b"\x0F\x22\xC0", 0, 0x8001_0000, None),
    (b"\x0F\x22\xD8", 0, 0xA000, None),
    (b"\x0F\x22\xC8", 0, 0, None),
    (b"\xF0\xCC", 0, 0, None),
    (b"\x9C", 0, 0, None),
    (b"\x9D", 0, 0, None),
    (b"\xFA", 0, 0, None),
    (b"\x0F\x20\xC0", 0, 0, None),
    (b"\x48\xCF", 0, 0, None),
    (b"\x0F\x01\x18", 0, 0, None),
];

/// Whether the bytes are this act alone, and RIP goes on behind them where they are one.
fn is_right(alloc: Global, row: &Row) -> bool {
    let (bytes, cpl, rax, wanted) = row;
    let Ok(mem) = memory(alloc) else {
        return false;
    };
    let Ok(tlb) = Tlb::new(alloc) else {
        return false;
    };
    if bytes.len() > 15 {
        return false;
    }
    let mut regs = Regs { cpl: *cpl, ..REGS };
    regs.general[0] = *rax;
    match decode(bytes) {
        Decoded::Whole(instr, size) => match instr_form(&instr) {
            Form::Flow(form) => {
                let act = sole_act(form, &instr, size, &mut regs, &CONTROL, &mem, &tlb);
                let next = if act.is_some() {
                    0x1000 + u64::from(size)
                } else {
                    0x1000
                };
                act == *wanted && regs.rip == next
            }
            Form::Data(_) => false,
        },
        _ => false,
    }
}

#[test]
fn acts_alone(rt: HostRuntime) {
    assert_eq!(rt; first_wrong(&ALONE, |row| is_right(rt.alloc(), row)), None);
}

#[test]
fn others(rt: HostRuntime) {
    assert_eq!(rt; first_wrong(&OTHERS, |row| is_right(rt.alloc(), row)), None);
}
