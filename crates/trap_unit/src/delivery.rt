//! A delivery, from the gate to the handler's registers (SDM volume 3, 6.14).

ghost use Rattle.std.specs.Prelude.{◌≡◌, ◌⊎◌, ◌*◌, ◌/◌, OnErr, OnOk, length};
ghost use Rattle.nk_bits.specs.Translations.{IsAccessible, NamesFramesIn};
ghost use Rattle.nk_bits.specs.Outcomes.{outcome_of};
ghost use Rattle.trap_unit.specs.TrapDelivery.{at_handler, delivered, entry_found};

use crate::gate::{gate_found, gate_offset};
use crate::reads::read_at;
use crate::shutdown::Shut;
use crate::stack::push_frame;
use nk_bits::Control;
use phys_mem::PhysMem;
use tlb_model::Tlb;
use x86_alu::with_flag;
use x86_regs::{IF, RSP, Regs, Tables, with_register};

/// Where a delivery goes on.
#[derive(Clone, Copy)]
pub struct Entry {
    /// The handler's address.
    pub handler: u64,
    /// The top of its stack.
    pub top: u64,
}

/// The place of IST1 in the task-state segment, in bytes (SDM volume 3, figure 7-11).
const IST1_PLACE: u64 = 36;

/// Delivers a vector, with an error code or without: pushes SS, RSP, RFLAGS, CS and RIP and then the code to the stack
/// that IST1 names, and leaves the registers at the gate's handler.
///
/// Fails where the machine shuts down: the gate is past the table's limit, or isn't a present interrupt gate with
/// selector 8, IST 1 and a canonical offset, or an access faults. Then the registers stay, memory holds the pushes made
/// before, and the translations are those that the accesses left.
#[tactic(auto, unfolding(crate::specs::TrapDelivery::delivered))]
pub fn deliver(
    mem: &mut PhysMem,
    tlb: &mut Tlb,
    regs: &mut Regs,
    control: &Control,
    tables: &Tables,
    vector: u8,
    code: Option<u64>,
) -> Result<(), Shut>
    requires cpl { (regs.old.cpl ≡ 0) ⊎ (regs.old.cpl ≡ 3) }
    requires context { IsAccessible (length mem.old) control.now.root tlb.old }
    ensures delivered { record { regs = regs.new; memory = mem.new; tlb = tlb.new; answer = result }
        ≡ delivered regs.old control.now tables.now vector code mem.old tlb.old }
    ensures length { length mem.new ≡ length mem.old }
    ensures frames { NamesFramesIn (length mem.new) tlb.new }
    ensures supervisor { OnOk result (regs.new.cpl ≡ 0) }
    ensures shut { OnErr result (regs.new ≡ regs.old) }
    ensures cpl { (regs.new.cpl ≡ 0) ⊎ (regs.new.cpl ≡ 3) }
{
    let entry = match entry_found(mem, tlb, control, tables, vector) {
        Ok(entry) => entry,
        Err(shut) => return Err(shut),
    };
    match push_frame(mem, tlb, control, regs, code, entry.top) {
        Ok(top) => {
            *regs = at_handler(regs, entry.handler, top);
            Ok(())
        }
        Err(shut) => Err(shut),
    }
}

/// Where the delivery of a vector goes on.
#[tactic(auto, unfolding(crate::specs::TrapDelivery::entry_found))]
fn entry_found(
    mem: &PhysMem,
    tlb: &mut Tlb,
    control: &Control,
    tables: &Tables,
    vector: u8,
) -> Result<Entry, Shut>
    requires context { IsAccessible (length mem.now) control.now.root tlb.old }
    ensures outcome { outcome_of result tlb.new ≡ entry_found control.now tables.now vector mem.now tlb.old }
    ensures frames { NamesFramesIn (length mem.now) tlb.new }
{
    let gate = match gate_found(mem, tlb, control, tables, vector) {
        Ok(gate) => gate,
        Err(shut) => return Err(shut),
    };
    match read_at(mem, tlb, control, tables.tss.wrapping_add(IST1_PLACE)) {
        Ok(stack) => Ok(Entry {
            handler: gate_offset(&gate),
            top: aligned(stack),
        }),
        Err(shut) => Err(shut),
    }
}

/// The address, aligned down to 16 bytes.
fn aligned(address: u64) -> u64
    ensures { result ≡ address / 16 * 16 }
{
    address & !0xF
}

/// The registers at the handler, once a frame is pushed.
fn at_handler(regs: &Regs, handler: u64, top: u64) -> Regs
    ensures { result ≡ at_handler regs.now handler top }
{
    Regs {
        general: with_register(&regs.general, RSP, top),
        rip: handler,
        flags: with_flag(regs.flags, IF, false),
        cpl: 0,
        ss: if regs.cpl == 0 { regs.ss } else { 0 },
    }
}
