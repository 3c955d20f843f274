//! Accesses over small memories, by the rules of SDM volume 3, 4.6 to 4.10: the tables stand in
//! frames 1 to 4, and pages 0 and 1 in frames 8 and 9.
mod accesses;
mod changes;
mod kept;
mod plan;
mod rights;
mod steps;
mod window;

ghost use Rattle.std.specs.Prelude.{◌≡◌, ◌*◌, ◌<◌, IfOk, length};
ghost use Rattle.nk_bits.specs.Accesses.{IsAccessSize, IsTarget};
ghost use Rattle.nk_bits.specs.Translations.{NamesFramesIn};

use mem_access::{AccessFault, Control, Target};
use memory_kit::{CONTROL, PAGES, store_words};
use phys_mem::{NoMemory, PhysMem};
use std::alloc::Global;
use tlb_model::Tlb;

/// Flags of an entry: P, R/W and U/S.
pub const ALL: u64 = 0x7;

pub const READ_ONLY: u64 = 0x5;

pub const ABSENT: u64 = 0x6;

pub const WITHOUT_WP: Control = Control {
    cr0: 0x8000_0011,
    ..CONTROL
};

/// A memory of sixteen frames.
pub fn memory(alloc: Global) -> Result<PhysMem, NoMemory>
    ensures { IfOk result (λ mem. length mem ≡ 65536) }
{
    PhysMem::new(alloc, 16)
}

/// Clears memory but for the tables of pages 0 and 1, whose leaves have these flags.
pub fn start(mem: &mut PhysMem, first: u64, second: u64)
    requires length { length mem.old ≡ 65536 }
    requires first { first < 4096 }
    requires second { second < 4096 }
    ensures { length mem.new ≡ 65536 }
{
    for frame in 0..16 {
        mem.zero_frame(frame);
    }
    store_words(mem, &PAGES);
    mem.store64(0x4000, 0x8000 + first);
    mem.store64(0x4008, 0x9000 + second);
}

// The calls under test. Nothing is said of what they give, so that a test runs them and its proof
// stays short.

pub fn load(
    mem: &PhysMem,
    tlb: &mut Tlb,
    control: &Control,
    cpl: u8,
    va: u64,
    width: u8,
) -> Result<u64, AccessFault>
    requires width { IsAccessSize width }
    requires root { 4096 * control.now.root < length mem.now }
    requires frames { NamesFramesIn (length mem.now) tlb.old }
    ensures frames { NamesFramesIn (length mem.now) tlb.new }
{
    mem_access::load(mem, tlb, control, cpl, va, width)
}

pub fn check_store(
    mem: &PhysMem,
    tlb: &mut Tlb,
    control: &Control,
    cpl: u8,
    va: u64,
    width: u8,
) -> Result<Target, AccessFault>
    requires width { IsAccessSize width }
    requires root { 4096 * control.now.root < length mem.now }
    requires frames { NamesFramesIn (length mem.now) tlb.old }
    ensures frames { NamesFramesIn (length mem.now) tlb.new }
    ensures places { IfOk result (λ target. IsTarget (length mem.now) va width target) }
{
    mem_access::check_store(mem, tlb, control, cpl, va, width)
}

pub fn commit(mem: &mut PhysMem, target: &Target, va: u64, width: u8, value: u64)
    requires width { IsAccessSize width }
    requires target { IsTarget (length mem.old) va width target.now }
    ensures length { length mem.new ≡ length mem.old }
{
    mem_access::commit(mem, target, va, width, value);
}

pub fn store(
    mem: &mut PhysMem,
    tlb: &mut Tlb,
    control: &Control,
    cpl: u8,
    va: u64,
    width: u8,
    value: u64,
) -> Result<(), AccessFault>
    requires width { IsAccessSize width }
    requires root { 4096 * control.now.root < length mem.old }
    requires frames { NamesFramesIn (length mem.old) tlb.old }
    ensures length { length mem.new ≡ length mem.old }
    ensures frames { NamesFramesIn (length mem.new) tlb.new }
{
    mem_access::store(mem, tlb, control, cpl, va, width, value)
}

pub fn fetch_byte(
    mem: &PhysMem,
    tlb: &mut Tlb,
    control: &Control,
    cpl: u8,
    va: u64,
) -> Result<u8, AccessFault>
    requires root { 4096 * control.now.root < length mem.now }
    requires frames { NamesFramesIn (length mem.now) tlb.old }
    ensures frames { NamesFramesIn (length mem.now) tlb.new }
{
    mem_access::fetch_byte(mem, tlb, control, cpl, va)
}
