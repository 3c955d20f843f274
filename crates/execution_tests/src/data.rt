//! Instructions from their bytes, with values by the manual. Page 0 may be read and written, page 1
//! may be read alone, and page 2 has no translation; pages 0 and 1 stand in frames 8 and 9.

mod arithmetic;
mod moves;
mod operands;
mod rows;
mod strings;

ghost use Rattle.std.specs.Prelude.{◌≡◌, ◌<◌, IfOk, length};
ghost use Rattle.nk_bits.specs.Translations.{NamesFramesIn};

use exec_data::effect;
use memory_kit::{CONTROL, PAGES, memory_with};
use phys_mem::{NoMemory, PhysMem};
use std::alloc::Global;
use tlb_model::Tlb;
use x86_decode::{Decoded, decode};
use x86_regs::{Effect, Fault, Form, Regs, instr_form};

/// RAX 1122334455667788, RCX 3, RDX 10, RBX 40, RSP 800, RBP 820, RSI 100, RDI 200, at address 1000
/// and CPL 3.
const REGS: Regs = Regs {
    general: [
        0x1122_3344_5566_7788,
        3,
        0x10,
        0x40,
        0x800,
        0x820,
        0x100,
        0x200,
        0,
        0,
        0,
        0,
        0,
        0,
        0,
        0,
    ],
    rip: 0x1000,
    flags: 2,
    cpl: 3,
    ss: 0x23,
};

fn memory(alloc: Global) -> Result<PhysMem, NoMemory>
    ensures { IfOk result (λ mem. length mem ≡ 40960) }
{
    let mut mem = memory_with(alloc, 10, &PAGES)?;
    mem.store64(0x8040, 0x8877_6655_4433_2211);
    mem.store64(0x8100, 0x5A);
    mem.store64(0x8200, 0x5A);
    mem.store64(0x8800, 0x6000);
    mem.store64(0x8820, 0x9999);
    mem.store64(0x8FFC, 0xDDCC_BBAA);
    mem.store64(0x9000, 0x4433_2211);
    Ok(mem)
}

/// Want of memory is None, and bytes that the call doesn't take raise #GP(99) here.
fn run(alloc: Global, bytes: &[u8], regs: &Regs) -> Option<Result<Effect, Fault>> {
    let Ok(mem) = memory(alloc) else {
        return None;
    };
    let Ok(mut tlb) = Tlb::new(alloc) else {
        return None;
    };
    Some(run_over(&mem, &mut tlb, bytes, regs))
}

fn run_over(mem: &PhysMem, tlb: &mut Tlb, bytes: &[u8], regs: &Regs) -> Result<Effect, Fault>
    requires root { 4096 < length mem.now }
    requires frames { NamesFramesIn (length mem.now) tlb.old }
{
    if bytes.len() > 15 || (regs.cpl != 0 && regs.cpl != 3) {
        return Err(Fault::General(99));
    }
    match decode(bytes) {
        Decoded::Whole(instr, size) => match instr_form(&instr) {
            Form::Data(_) => effect(&instr, size, regs, &CONTROL, mem, tlb),
            Form::Flow(_) => Err(Fault::General(99)),
        },
        _ => Err(Fault::General(99)),
    }
}
