//! The memory and the processor of a case.

ghost use Rattle.std.specs.Prelude.{◌≡◌, ◌≤◌, IfOk, length};
ghost use Rattle.cpu_step.specs.Processor.{IsSound};

use super::after::After;
use cpu_step::{Cpu, Stepped};
use memory_kit::{memory_with, store_word, store_words};
use phys_mem::{NoMemory, PhysMem};
use std::alloc::Global;

/// The page tables, and what the pages hold.
const PAGES: [(u64, u64); 14] = [
    (0x1000, 0x2007),
    (0x1FF8, 0x2007),
    (0x2000, 0x3007),
    (0x3000, 0x4007),
    (0x4000, 0x8003),
    (0x4008, 0x8000_0000_0000_9003),
    (0x4018, 0x7003),
    (0x4020, 0x6003),
    (0x4030, 0x8007),
    (0x4038, 0x8000_0000_0000_9007),
    (0x4040, 0x8000_0000_0000_5001),
    (0x4048, 0x8000_0000_0000_0003),
    (0x9010, 0x0011_2233_4455_6677),
    (0x9100, 0x5A),
];

/// The gates of the vectors that are delivered, of which those of 3 and 47 are the user's too; and the trap stack's top.
const GATES: [(u64, u64); 11] = [
    (0x5000, 0x0000_8E01_0008_3000),
    (0x5030, 0x0000_EE01_0008_3030),
    (0x5060, 0x0000_8E01_0008_3060),
    (0x50C0, 0x0000_8E01_0008_30C0),
    (0x50D0, 0x0000_8E01_0008_30D0),
    (0x50E0, 0x0000_8E01_0008_30E0),
    (0x5200, 0x0000_8E01_0008_3200),
    (0x5210, 0x0000_8E01_0008_3210),
    (0x5280, 0x0000_8E01_0008_3280),
    (0x52F0, 0x0000_EE01_0008_32F0),
    (0x5424, 0xA000),
];

pub(super) fn memory(alloc: Global) -> Result<PhysMem, NoMemory>
    ensures { IfOk result (λ mem. length mem ≡ 40960) }
{
    let mut mem = memory_with(alloc, 10, &PAGES)?;
    store_words(&mut mem, &GATES);
    Ok(mem)
}

/// Stores numbers of eight bytes one behind the other.
pub(super) fn store_run(mem: &mut PhysMem, from: u64, words: &[u64])
    requires { length mem.old ≡ 40960 }
    ensures { length mem.new ≡ 40960 }
{
    let mut at = from;
    for word in words {
        store_word(mem, at, *word);
        at = at.saturating_add(8);
    }
}

/// Whether these numbers of eight bytes stand one behind the other.
pub(super) fn holds_run(mem: &PhysMem, from: u64, words: &[u64]) -> bool
    requires { length mem.now ≡ 40960 }
{
    let mut at = from;
    for word in words {
        if at > 40952 || mem.load64(at) != *word {
            return false;
        }
        at = at.saturating_add(8);
    }
    true
}

/// Eight bytes from a place on, least significant first; 0 where there are none.
fn word(bytes: &[u8], from: usize) -> u64
    requires { from ≤ 8 }
{
    let mut word = [0; 8];
    for offset in 0..8 {
        if let Some(byte) = bytes.get(from + offset) {
            word[offset] = *byte;
        }
    }
    u64::from_le_bytes(word)
}

/// Puts up to sixteen bytes of code into memory, and zeros behind them.
pub(super) fn put(mem: &mut PhysMem, place: u64, bytes: &[u8])
    requires { length mem.old ≡ 40960 }
    ensures { length mem.new ≡ 40960 }
{
    if place <= 40944 {
        mem.store64(place, word(bytes, 0));
        mem.store64(place + 8, word(bytes, 8));
    }
}

/// A processor that stands here, with the input 31 32; none whose CPL or root can't be.
pub(super) fn cpu(alloc: Global, start: &After) -> Result<Cpu, cpu_step::NoMemory>
    ensures { IfOk result (λ cpu. IsSound 40960 cpu) }
{
    if (start.regs.cpl != 0 && start.regs.cpl != 3) || start.control.root > 9 {
        return Err(cpu_step::NoMemory);
    }
    match b"12".to_vec(alloc) {
        Ok(input) => Cpu::new(alloc, start.regs, start.control, start.tables, input),
        Err(_) => Err(cpu_step::NoMemory),
    }
}

/// What one more turn shows, or None where the body is to run, and where the processor is halted and no interrupt wakes
/// it.
pub(super) fn next(cpu: &mut Cpu, mem: &mut PhysMem) -> Option<Stepped>
    requires sound { IsSound 40960 cpu.old }
    requires length { length mem.old ≡ 40960 }
    ensures sound { IsSound 40960 cpu.new }
    ensures length { length mem.new ≡ 40960 }
{
    if cpu.enters_body() {
        return None;
    }
    match cpu.deliverable() {
        Some(_) => Some(cpu.step(mem)),
        None => {
            if cpu.halted() {
                None
            } else {
                Some(cpu.step(mem))
            }
        }
    }
}

/// What a turn left that showed this.
pub(super) fn left_by(stepped: Stepped, cpu: &Cpu, mem: &PhysMem) -> After
    requires { length mem.now ≡ 40960 }
{
    After {
        stepped,
        regs: *cpu.regs(),
        control: *cpu.control(),
        tables: *cpu.tables(),
        shielded: cpu.shielded(),
        halted: cpu.halted(),
        frame: frame(mem),
    }
}

/// The six numbers at the top of the trap stack.
fn frame(mem: &PhysMem) -> [u64; 6]
    requires { length mem.now ≡ 40960 }
{
    [
        mem.load64(0xFD0),
        mem.load64(0xFD8),
        mem.load64(0xFE0),
        mem.load64(0xFE8),
        mem.load64(0xFF0),
        mem.load64(0xFF8),
    ]
}
