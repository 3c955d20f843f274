//! Quick forms of instructions from their bytes, and what they do, with values by the manual. Page
//! 0 is kept and may be read and written, page 1 is kept and may be read alone, and page 2 isn't
//! kept; pages 0 and 1 stand in frames 8 and 9.

mod beside;
mod kinds;
mod plain;
mod products;
mod rows;
mod stack;
mod strings;
mod supervisor;
mod usual;

ghost use Rattle.std.specs.Prelude.{◌≡◌, ◌<◌, true, IfOk, IfSome, length};
ghost use Rattle.nk_bits.specs.Translations.{NamesFramesIn};
ghost use Rattle.x86_decode.specs.WellFormed.{IsWellFormed};
ghost use Rattle.exec_quick.specs.QuickForms.{IsQuick, has_register_first};

use exec_quick::{Kind, Quick, Running, Went, make_at, quick_of};
use mem_access::{Window, load};
use memory_kit::{CONTROL, PAGES, memory_with};
use phys_mem::{NoMemory, PhysMem};
use std::alloc::Global;
use tlb_model::Tlb;
use x86_decode::{Decoded, Instr, decode};
use x86_regs::Regs;

/// RBX.
const RBX: u8 = 3;

/// What address 40 holds at first. Address 48 holds 0.
const HELD: u64 = 0x8877_6655_4433_2211;

/// RAX 1122334455667788, RCX 3, RBX 40 and RSP 48, at address 1000 and CPL 3.
const REGS: Regs = Regs {
    general: [
        0x1122_3344_5566_7788,
        3,
        0,
        0x40,
        0x48,
        0,
        0,
        0,
        0,
        0,
        0,
        0,
        0,
        0,
        0,
        0,
    ],
    rip: 0x1000,
    flags: 2,
    cpl: 3,
    ss: 0x23,
};

/// Address 40 holds 8877665544332211, and address 100 holds 5A.
fn memory(alloc: Global) -> Result<PhysMem, NoMemory>
    ensures { IfOk result (λ mem. length mem ≡ 40960) }
{
    let mut mem = memory_with(alloc, 10, &PAGES)?;
    mem.store64(0x8040, 0x8877_6655_4433_2211);
    mem.store64(0x8100, 0x5A);
    Ok(mem)
}

/// The quick form of an instruction, where it has one.
fn form_of(instr: &Instr, size: u8) -> Option<Quick>
    requires formed { IsWellFormed instr.now }
    ensures ready { IfSome result IsQuick }
    ensures register { IfSome result (λ q. has_register_first q.kind ≡ true → q.to < 16) }
{
    let quick = quick_of(instr, size);
    match quick.kind {
        Kind::Slow => None,
        _ => Some(quick),
    }
}

/// Makes a quick form that stands at RIP, with a window of its own, and goes on behind it where it
/// doesn't lead elsewhere.
fn make_alone(quick: &Quick, regs: &mut Regs, mem: &mut PhysMem, tlb: &Tlb) -> bool
    requires ready { IsQuick quick.now }
    requires register { has_register_first quick.now.kind ≡ true → quick.now.to < 16 }
    requires frames { NamesFramesIn (length mem.old) tlb.now }
    ensures length { length mem.new ≡ length mem.old }
{
    let mut window = Window::new();
    let mut running = Running::new(regs);
    let at = running.rip();
    let went = make_at(quick, at, &mut running, &CONTROL, mem, tlb, &mut window);
    if went == Went::On {
        running.set_rip(at.wrapping_add(u64::from(quick.size)));
    }
    *regs = running.regs();
    went != Went::Left
}

/// Whether a turn is made, the registers after it, and what addresses 40 and 48 hold.
type Outcome = (bool, Regs, u64, u64);

/// What a turn by the quick form of these bytes leaves. Want of memory is None.
fn turn(alloc: Global, bytes: &[u8], before: &Regs) -> Option<Outcome> {
    let Ok(mut mem) = memory(alloc) else {
        return None;
    };
    let Ok(mut tlb) = Tlb::new(alloc) else {
        return None;
    };
    let _ = load(&mem, &mut tlb, &CONTROL, 3, 0, 1);
    let _ = load(&mem, &mut tlb, &CONTROL, 3, 0x1000, 1);
    let mut regs = *before;
    let made = is_made(&mut mem, &tlb, bytes, &mut regs);
    Some((made, regs, mem.load64(0x8040), mem.load64(0x8048)))
}

fn is_made(mem: &mut PhysMem, tlb: &Tlb, bytes: &[u8], regs: &mut Regs) -> bool
    requires frames { NamesFramesIn (length mem.old) tlb.now }
    ensures length { length mem.new ≡ length mem.old }
{
    if bytes.len() > 15 {
        return false;
    }
    match decode(bytes) {
        Decoded::Whole(instr, size) => match form_of(&instr, size) {
            Some(quick) => make_alone(&quick, regs, mem, tlb),
            None => false,
        },
        _ => false,
    }
}
