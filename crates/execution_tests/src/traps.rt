//! Deliveries and returns with values by the manual, over a small memory: gate 0 is 40 10 08 00 01
//! 8E 00 00 80 FF FF FF 00 00 00 00, and the pages of the kernel slot are those of the opening, as
//! far as a delivery needs them.

mod deliveries;
mod interrupts;
mod returns;
mod rows;
mod shutdowns;

ghost use Rattle.std.specs.Prelude.{◌≡◌, ◌⊎◌, ◌<◌, IfOk, length};

use memory_kit::memory_with;
use nk_bits::Control;
use phys_mem::{NoMemory, PhysMem};
use std::alloc::Global;
use tlb_model::Tlb;
use trap_unit::{Shut, deliver};
use x86_regs::{Regs, Tables};

/// WP is set, and the root is frame 1.
const CONTROL: Control = Control {
    cr0: 0x8001_0001,
    ..memory_kit::CONTROL
};

const WITHOUT_WP: Control = Control {
    cr0: 0x8000_0001,
    ..CONTROL
};

/// The last gate is that of vector 47.
const TABLES: Tables = Tables {
    idt: 0xFFFF_FF80_0000_0000,
    limit: 767,
    tss: 0xFFFF_FF80_0000_0400,
};

/// RSP is 40 0000 1008, and every flag is set.
const REGS: Regs = Regs {
    general: [
        0,
        1,
        2,
        3,
        0x40_0000_1008,
        5,
        6,
        7,
        8,
        9,
        10,
        11,
        12,
        13,
        14,
        15,
    ],
    rip: 0x40_1234,
    flags: 0xED7,
    cpl: 0,
    ss: 0x10,
};

const USER: Regs = Regs {
    general: [
        0,
        1,
        2,
        3,
        0x40_0000_1008,
        5,
        6,
        7,
        8,
        9,
        10,
        11,
        12,
        13,
        14,
        15,
    ],
    rip: 0x40_1234,
    flags: 0xED7,
    cpl: 3,
    ss: 0x23,
};

/// A machine before a delivery.
#[derive(Clone, Copy)]
struct Machine {
    control: Control,
    tables: Tables,
    regs: Regs,
}

/// The answer of a delivery, the registers after it, and six numbers that memory then holds.
type Outcome = (Result<(), Shut>, Regs, [u64; 6]);

/// The tables stand in frames 1 to 4. Page 0 of the kernel slot is frame 8, which is read alone and
/// has the gates of 0, 13 and 47 and the task-state segment; page 3 and the last page of all are
/// frame 9, the trap stack; page 4 is frame 10, which is read alone; pages 1 and 2 are absent.
static WORDS: [(u64, u64); 16] = [
    (0x1FF8, 0x2027),
    (0x2000, 0x3027),
    (0x3000, 0x4027),
    (0x4000, 0x8021),
    (0x4018, 0x9063),
    (0x4020, 0xA021),
    (0x2FF8, 0x3027),
    (0x3FF8, 0x4027),
    (0x4FF8, 0x9063),
    (0x8000, 0x0000_8E01_0008_1040),
    (0x8008, 0xFFFF_FF80),
    (0x80D0, 0x0000_8E01_0008_10A8),
    (0x80D8, 0xFFFF_FF80),
    (0x82F0, 0x0000_EE01_0008_11B8),
    (0x82F8, 0xFFFF_FF80),
    (0x8424, 0xFFFF_FF80_0000_4000),
];

fn memory(alloc: Global) -> Result<PhysMem, NoMemory>
    ensures { IfOk result (λ mem. length mem ≡ 69632) }
{
    memory_with(alloc, 17, &WORDS)
}

/// What the delivery of a vector leaves of this machine, over memory with these numbers, two at
/// most; the six that are looked at stand from `place` on. Want of memory is None.
fn run(
    alloc: Global,
    before: &Machine,
    numbers: &[(u16, u64)],
    trap: (u8, Option<u64>),
    place: u16,
) -> Option<Outcome> {
    let Ok(mut mem) = memory(alloc) else {
        return None;
    };
    let Ok(mut tlb) = Tlb::new(alloc) else {
        return None;
    };
    change(&mut mem, numbers.first());
    change(&mut mem, numbers.get(1));
    let control = with_root(&before.control);
    let mut regs = with_cpl(&before.regs);
    let answer = deliver(
        &mut mem,
        &mut tlb,
        &mut regs,
        &control,
        &before.tables,
        trap.0,
        trap.1,
    );
    Some((answer, regs, window(&mem, place)))
}

fn change(mem: &mut PhysMem, change: Option<&(u16, u64)>)
    requires { length mem.old ≡ 69632 }
    ensures { length mem.new ≡ 69632 }
{
    if let Some((place, number)) = change {
        mem.store64(u64::from(*place), *number);
    }
}

fn window(mem: &PhysMem, at: u16) -> [u64; 6]
    requires { length mem.now ≡ 69632 }
{
    let at = u64::from(at);
    [
        mem.load64(at),
        mem.load64(at + 8),
        mem.load64(at + 16),
        mem.load64(at + 24),
        mem.load64(at + 32),
        mem.load64(at + 40),
    ]
}

/// The control registers with the root that there is.
fn with_root(control: &Control) -> Control
    ensures { result.root ≡ 1 }
{
    Control {
        root: 1,
        ..*control
    }
}

/// The registers at a CPL that there is.
fn with_cpl(regs: &Regs) -> Regs
    ensures { (result.cpl ≡ 0) ⊎ (result.cpl ≡ 3) }
{
    if regs.cpl == 0 {
        *regs
    } else {
        Regs { cpl: 3, ..*regs }
    }
}
