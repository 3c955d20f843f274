//! Each instruction of flow and of the system from its bytes, with values by the manual. Page 0 may
//! be read and written, page 1 may be read alone, and page 2 has no translation; pages 0 and 1
//! stand in frames 8 and 9.

mod acts;
mod branches;
mod faults;
mod rows;
mod system;

ghost use Rattle.std.specs.Prelude.{◌≡◌, ◌⊎◌, ◌<◌, IfOk, length};
ghost use Rattle.nk_bits.specs.Translations.{NamesFramesIn};

use exec_flow::effect;
use memory_kit::{PAGES, memory_with};
use nk_bits::Control;
use phys_mem::{NoMemory, PhysMem};
use std::alloc::Global;
use tlb_model::Tlb;
use x86_decode::{Decoded, decode};
use x86_regs::{Effect, Fault, Form, Regs, instr_form};

const CONTROL: Control = Control {
    cr2: 0x1234,
    ..memory_kit::CONTROL
};

/// RAX 5000, RCX 2, RDX 100EA, RBX 40, RSP 800, at address 1000.
const REGS: Regs = Regs {
    general: [
        0x5000, 2, 0x1_00EA, 0x40, 0x800, 0, 0, 0, 0, 0, 0, 0, 0, 0, 0, 0,
    ],
    rip: 0x1000,
    flags: 2,
    cpl: 0,
    ss: 0x10,
};

/// The numbers of registers.
const RAX: u8 = 0;

const RCX: u8 = 1;

const RBX: u8 = 3;

const RSP: u8 = 4;

/// At 40 stands the number 7000, and from 800 on a frame.
fn memory(alloc: Global) -> Result<PhysMem, NoMemory>
    ensures { IfOk result (λ mem. length mem ≡ 40960) }
{
    let mut mem = memory_with(alloc, 10, &PAGES)?;
    mem.store64(0x8040, 0x7000);
    mem.store64(0x8800, 0x6000);
    mem.store64(0x8808, 0x1B);
    mem.store64(0x8810, 0x246);
    mem.store64(0x8818, 0x900);
    mem.store64(0x8820, 0x23);
    Ok(mem)
}

/// Want of memory is None. No instruction of flow raises #DE, which stands for bytes that the call
/// doesn't take.
fn run(alloc: Global, bytes: &[u8], regs: &Regs) -> Option<Result<Effect, Fault>> {
    let Ok(mem) = memory(alloc) else {
        return None;
    };
    let Ok(mut tlb) = Tlb::new(alloc) else {
        return None;
    };
    Some(run_over(&mem, &mut tlb, bytes, regs))
}

fn run_over(mem: &PhysMem, tlb: &mut Tlb, bytes: &[u8], regs: &Regs) -> Result<Effect, Fault>
    requires root { 4096 < length mem.now }
    requires frames { NamesFramesIn (length mem.now) tlb.old }
{
    if bytes.len() > 15 {
        return Err(Fault::Divide);
    }
    match decode(bytes) {
        Decoded::Whole(instr, size) => match instr_form(&instr) {
            Form::Data(_) => Err(Fault::Divide),
            Form::Flow(_) => effect(&instr, size, &with_cpl(regs), &CONTROL, mem, tlb),
        },
        _ => Err(Fault::Divide),
    }
}

/// The registers at a CPL that there is.
fn with_cpl(regs: &Regs) -> Regs
    ensures { (result.cpl ≡ 0) ⊎ (result.cpl ≡ 3) }
{
    if regs.cpl == 0 {
        *regs
    } else {
        Regs { cpl: 3, ..*regs }
    }
}
