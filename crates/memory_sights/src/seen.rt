//! The bytes that are seen from an address on.

ghost use Rattle.std.specs.Prelude.{◌≡◌, ◌≤◌, ◌+◌, ◌*◌, ◌/◌, ◌++◌, IfSome, IsTrue, OnOk, length};
ghost use Rattle.nk_bits.specs.Paging.{is_canonical, page_of};
ghost use Rattle.nk_bits.specs.Translations.{translation};
ghost use Rattle.phys_mem.specs.Memory.{entry_in};
ghost use Rattle.gate_state.specs.MachineOf.{whole_of};
ghost use Rattle.memory_sights.specs.Sights.{byte_named, byte_seen, bytes_seen};
ghost use Rattle.memory_sights.specs.SightsSought.{byte_for};
ghost use Rattle.memory_sights.specs.declared.sight.Sight.TheVariants.{Linear};

use crate::sight::{Sight, sight_of};
use arrayvec::ArrayVec;
use gate_state::Machine;
use nk_bits::{Leaf, canonical, named_law, translation_law};
use std::alloc::AllocError;

/// The bytes of a page.
const PAGE_SIZE: u64 = 4096;

/// The translation of the page of a canonical address; its frame lies in memory.
fn leaf_at(machine: &Machine<'_>, va: u64) -> Option<Leaf>
    requires canonical { IsTrue (is_canonical va) }
    ensures found { result ≡ translation (entry_in (whole_of machine.now).state.memory)
        (length (whole_of machine.now).state.memory / 4096) (whole_of machine.now).state.processor.control.root
        (whole_of machine.now).state.processor.tlb (page_of va) }
    ensures frame { IfSome result (λ leaf. 4096 * leaf.frame + 4096 ≤ length (whole_of machine.now).state.memory) }
{
    translation_law();
    named_law();
    let _sound = machine.processor();
    let _whole_frames = machine.memory();
    machine.translation(va)
}

/// The byte at an address whose page has this translation, if that serves a read at this CPL.
fn byte_for(machine: &Machine<'_>, cpl: u8, va: u64, leaf: Option<Leaf>) -> Option<u8>
    requires { IfSome leaf (λ leaf. 4096 * leaf.frame + 4096 ≤ length (whole_of machine.now).state.memory) }
    ensures { result ≡ byte_for (whole_of machine.now).state.memory cpl va leaf }
{
    match leaf {
        Some(leaf) if cpl == 0 || leaf.rights.user => {
            machine.byte(PAGE_SIZE * u64::from(leaf.frame) + va % PAGE_SIZE)
        }
        _ => None,
    }
}

/// The byte that a load at a linear address would read now at this CPL.
fn byte_linear(machine: &Machine<'_>, cpl: u8, va: u64) -> Option<u8>
    ensures { result ≡ byte_named (whole_of machine.now).state (Linear cpl va) }
{
    if !canonical(va) {
        return None;
    }
    let leaf = leaf_at(machine, va);
    byte_for(machine, cpl, va, leaf)
}

/// The byte that an address names.
fn byte_named(machine: &Machine<'_>, sight: Sight) -> Option<u8>
    ensures { result ≡ byte_named (whole_of machine.now).state sight }
{
    match sight {
        Sight::Physical(place) => machine.byte(place),
        Sight::Linear(cpl, va) => byte_linear(machine, cpl, va),
        Sight::Nowhere => None,
    }
}

/// The byte that is seen at an address, if there is one.
#[tactic(auto, unfolding(crate::specs::Sights::byte_seen))]
pub fn byte_seen(machine: &Machine<'_>, address: u64) -> Option<u8>
    ensures { result ≡ byte_seen (whole_of machine.now).state address }
{
    byte_named(machine, sight_of(address))
}

/// The byte that is seen so far behind an address: none past the last address.
#[tactic(auto, unfolding(crate::specs::Sights::byte_seen))]
fn byte_behind(machine: &Machine<'_>, address: u64, offset: u64) -> Option<u8>
    ensures { result ≡ byte_seen (whole_of machine.now).state (address + offset) }
{
    match address.checked_add(offset) {
        Some(at) => byte_seen(machine, at),
        None => None,
    }
}

/// Puts the bytes that are seen from an address on behind others, at most so many. Err where memory for them is wanting.
pub fn read_seen(
    machine: &Machine<'_>,
    address: u64,
    count: usize,
    bytes: &mut Vec<u8>,
) -> Result<(), AllocError>
    ensures { OnOk result (bytes.new.items
        ≡ bytes.old.items ++ bytes_seen (whole_of machine.now).state address count) }
{
    for done in 0..count {
        let Some(byte) = byte_behind(machine, address, done as u64) else {
            return Ok(());
        };
        bytes.push(byte)?;
    }
    Ok(())
}

/// The bytes that are seen from an address on, at most so many.
pub fn glance(machine: &Machine<'_>, address: u64, count: u8) -> ArrayVec<u8, 8>
    requires { count ≤ 8 }
    ensures { result.items ≡ bytes_seen (whole_of machine.now).state address count }
{
    let mut bytes = ArrayVec::new();
    for done in 0..count {
        let Some(byte) = byte_behind(machine, address, u64::from(done)) else {
            return bytes;
        };
        bytes.push(byte);
    }
    bytes
}
