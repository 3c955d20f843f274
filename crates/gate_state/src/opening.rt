//! The processor as a run begins.

ghost use Rattle.std.specs.Prelude.{◌≡◌, IfOk};
ghost use Rattle.boot_map.specs.Division.{IsLayout};
ghost use Rattle.cpu_step.specs.Processor.{started};
ghost use Rattle.gate_state.specs.MachineOpening.{opening_control, opening_regs, opening_tables};

use boot_map::Layout;
use cpu_step::Cpu;
use elf_image::Image;
use nk_bits::{AREA_START, Control, OPENING_ROOT, TRAP_STACK_TOP, TSS_ADDRESS};
use std::alloc::Global;
use x86_regs::{Regs, Tables};

/// There is no room for the processor's translations, or for the bytes that are read for a call.
#[derive(Clone, Copy, Debug, PartialEq, Eq)]
pub struct NoMemory;

/// Bit 1 of RFLAGS is always set (SDM volume 1, 3.4.3).
const FLAGS: u64 = 2;

/// The selector of the supervisor's stack segment.
const STACK_SELECTOR: u16 = 0x10;

/// PG, WP and PE.
const CR0: u64 = 0x8001_0001;

/// SMEP and PAE.
const CR4: u64 = 0x10_0020;

/// NXE, LMA and LME.
const EFER: u64 = 0xD00;

/// The greatest offset of a byte of the descriptors of traps, which are 48 of 16 bytes each.
const IDT_LIMIT: u16 = 767;

/// The registers as a run begins: the entry, the trap stack's top, the first free frame and the number of frames.
fn opening_regs(image: &Image, layout: &Layout) -> Regs
    requires { IsLayout image.now layout.now }
    ensures { result ≡ opening_regs (record { image = image.now; frames = layout.now.frames }) }
{
    let frames = u64::from(layout.frames());
    let free = u64::from(layout.first_free());
    let top = TRAP_STACK_TOP;
    Regs {
        general: [0, 0, 0, 0, top, 0, frames, free, 0, 0, 0, 0, 0, 0, 0, 0],
        rip: image.entry(),
        flags: FLAGS,
        cpl: 0,
        ss: STACK_SELECTOR,
    }
}

/// The control registers as a run begins.
fn opening_control() -> Control
    ensures { result ≡ opening_control }
{
    Control {
        cr0: CR0,
        cr2: 0,
        root: OPENING_ROOT,
        cr4: CR4,
        efer: EFER,
    }
}

/// Where the processor finds its tables as a run begins.
fn opening_tables() -> Tables
    ensures { result ≡ opening_tables }
{
    Tables {
        idt: AREA_START,
        limit: IDT_LIMIT,
        tss: TSS_ADDRESS,
    }
}

/// The processor as a run begins, with these bytes of input.
pub(crate) fn opening_cpu(
    alloc: Global,
    image: &Image,
    layout: &Layout,
    input: Vec<u8>,
) -> Result<Cpu, NoMemory>
    requires { IsLayout image.now layout.now }
    ensures { IfOk result (λ cpu. cpu ≡ started (opening_regs (record { image = image.now; frames = layout.now.frames }))
        opening_control opening_tables input.items) }
{
    let regs = opening_regs(image, layout);
    match Cpu::new(alloc, regs, opening_control(), opening_tables(), input) {
        Ok(cpu) => Ok(cpu),
        Err(_) => Err(NoMemory),
    }
}
