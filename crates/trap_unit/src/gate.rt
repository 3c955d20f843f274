//! The gate of a vector (SDM volume 3, 6.14.1).

ghost use Rattle.std.specs.Prelude.{◌≡◌, ◌+◌, IfSome, length};
ghost use Rattle.nk_bits.specs.Translations.{IsAccessible, NamesFramesIn};
ghost use Rattle.nk_bits.specs.Outcomes.{answered, outcome_of};
ghost use Rattle.trap_unit.specs.TrapDelivery.{descriptor_address, gate_found, gate_level, gate_offset, gate_read, interrupt_allowed, is_good, passes_limit};

use crate::reads::read_at;
use crate::selectors::SUPERVISOR_CODE;
use crate::shutdown::Shut;
use mem_access::{kept_number, kept_run, one_page_law};
use nk_bits::{Access, Control, canonical};
use phys_mem::PhysMem;
use tlb_model::Tlb;
use x86_regs::Tables;

/// The sixteen bytes of a gate (SDM volume 3, figure 6-8).
#[derive(Clone, Copy)]
pub struct Gate {
    /// Bytes 0 to 7.
    pub low: u64,
    /// Bytes 8 to 15.
    pub high: u64,
}

/// The bytes of a gate.
const GATE_SIZE: u16 = 16;

/// An interrupt gate's type.
const INTERRUPT_GATE: u64 = 14;

/// The number of the stack in the task-state segment.
const IST1: u64 = 1;

/// Whether INT n or INT3 may be delivered at this CPL: its gate is within the table's limit, and the CPL doesn't exceed
/// the gate's level (SDM volume 3, 6.12.1.2). Where it may not, the instruction raises #GP(8n + 2).
///
/// Fails where the read of the gate faults.
#[tactic(auto, unfolding(crate::specs::TrapDelivery::interrupt_allowed))]
pub fn interrupt_allowed(
    mem: &PhysMem,
    tlb: &mut Tlb,
    control: &Control,
    tables: &Tables,
    cpl: u8,
    vector: u8,
) -> Result<bool, Shut>
    requires context { IsAccessible (length mem.now) control.now.root tlb.old }
    ensures outcome { outcome_of result tlb.new
        ≡ interrupt_allowed control.now tables.now cpl vector mem.now tlb.old }
    ensures frames { NamesFramesIn (length mem.now) tlb.new }
{
    if passes_limit(tables, vector) {
        return Ok(false);
    }
    match read_at(mem, tlb, control, gate_address(tables, vector)) {
        Ok(low) => Ok(u64::from(cpl) <= gate_level(low)),
        Err(shut) => Err(shut),
    }
}

/// The gate of a vector.
///
/// Fails where it is past the table's limit, where its read faults, and where the machine doesn't serve it.
pub(crate) fn gate_found(
    mem: &PhysMem,
    tlb: &mut Tlb,
    control: &Control,
    tables: &Tables,
    vector: u8,
) -> Result<Gate, Shut>
    requires context { IsAccessible (length mem.now) control.now.root tlb.old }
    ensures outcome { outcome_of result tlb.new ≡ gate_found control.now tables.now vector mem.now tlb.old }
    ensures frames { NamesFramesIn (length mem.now) tlb.new }
{
    if passes_limit(tables, vector) {
        return Err(Shut);
    }
    match gate_read(mem, tlb, control, tables, vector) {
        Ok(gate) => { if is_good(&gate) { Ok(gate) } else { Err(Shut) } }
        Err(shut) => Err(shut),
    }
}

fn gate_read(
    mem: &PhysMem,
    tlb: &mut Tlb,
    control: &Control,
    tables: &Tables,
    vector: u8,
) -> Result<Gate, Shut>
    requires context { IsAccessible (length mem.now) control.now.root tlb.old }
    ensures outcome { outcome_of result tlb.new ≡ gate_read control.now tables.now vector mem.now tlb.old }
    ensures frames { NamesFramesIn (length mem.now) tlb.new }
{
    match kept_gate(mem, tlb, control, tables, vector) {
        Some(gate) => Ok(gate),
        None => gate_by_halves(mem, tlb, control, tables, vector),
    }
}

/// The gate of a vector, where its bytes lie on one page that is kept: one look-up reads both halves, and changes nothing.
#[inline(always)]
fn kept_gate(
    mem: &PhysMem,
    tlb: &Tlb,
    control: &Control,
    tables: &Tables,
    vector: u8,
) -> Option<Gate>
    requires frames { NamesFramesIn (length mem.now) tlb.now }
    ensures { IfSome result (λ gate. answered gate tlb.now ≡ gate_read control.now tables.now vector mem.now tlb.now) }
{
    one_page_law();
    // places are below 2^64
    let _frames = mem.frames();
    let address = gate_address(tables, vector);
    match kept_run(mem, tlb, Access::Read, control, 0, address, GATE_SIZE) {
        Some(place) => Some(Gate {
            low: kept_number(mem, place, 8),
            high: kept_number(mem, place + 8, 8),
        }),
        None => None,
    }
}

/// The gate of a vector, half by half.
#[inline(never)]
#[tactic(auto, unfolding(crate::specs::TrapDelivery::gate_read))]
fn gate_by_halves(
    mem: &PhysMem,
    tlb: &mut Tlb,
    control: &Control,
    tables: &Tables,
    vector: u8,
) -> Result<Gate, Shut>
    requires context { IsAccessible (length mem.now) control.now.root tlb.old }
    ensures outcome { outcome_of result tlb.new ≡ gate_read control.now tables.now vector mem.now tlb.old }
    ensures frames { NamesFramesIn (length mem.now) tlb.new }
{
    let address = gate_address(tables, vector);
    let low = match read_at(mem, tlb, control, address) {
        Ok(low) => low,
        Err(shut) => return Err(shut),
    };
    match read_at(mem, tlb, control, address.wrapping_add(8)) {
        Ok(high) => Ok(Gate { low, high }),
        Err(shut) => Err(shut),
    }
}

fn gate_address(tables: &Tables, vector: u8) -> u64
    ensures { result ≡ descriptor_address tables.now vector }
{
    tables.idt.wrapping_add(16 * u64::from(vector))
}

fn passes_limit(tables: &Tables, vector: u8) -> bool
    ensures { result ≡ passes_limit tables.now vector }
{
    tables.limit < 16 * u16::from(vector) + 15
}

/// The handler's address.
pub(crate) fn gate_offset(gate: &Gate) -> u64
    ensures { result ≡ gate_offset gate.now }
{
    (gate.low & 0xFFFF) + (gate.low >> 48 << 16) + (gate.high << 32)
}

fn gate_level(low: u64) -> u64
    ensures { result ≡ gate_level low }
{
    low >> 45 & 3
}

/// Whether the machine serves the gate.
fn is_good(gate: &Gate) -> bool
    ensures { result ≡ is_good gate.now }
{
    let is_present = gate.low >> 47 & 1 == 1;
    let has_type = gate.low >> 40 & 0xF == INTERRUPT_GATE;
    let has_selector = gate.low >> 16 & 0xFFFF == u64::from(SUPERVISOR_CODE);
    let has_stack = gate.low >> 32 & 7 == IST1;
    is_present && has_type && has_selector && has_stack && canonical(gate_offset(gate))
}
