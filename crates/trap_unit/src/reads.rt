//! The reads of a delivery, which are the supervisor's.

ghost use Rattle.std.specs.Prelude.{◌≡◌, length};
ghost use Rattle.nk_bits.specs.Translations.{IsAccessible, NamesFramesIn};
ghost use Rattle.nk_bits.specs.Outcomes.{outcome_of};
ghost use Rattle.trap_unit.specs.TrapDelivery.{read_at};

use crate::shutdown::Shut;
use mem_access::load;
use nk_bits::Control;
use phys_mem::PhysMem;
use tlb_model::Tlb;

/// The eight bytes from `va` on.
pub(crate) fn read_at(mem: &PhysMem, tlb: &mut Tlb, control: &Control, va: u64) -> Result<u64, Shut>
    requires context { IsAccessible (length mem.now) control.now.root tlb.old }
    ensures outcome { outcome_of result tlb.new ≡ read_at control.now va mem.now tlb.old }
    ensures frames { NamesFramesIn (length mem.now) tlb.new }
{
    match load(mem, tlb, control, 0, va, 8) {
        Ok(value) => Ok(value),
        Err(_) => Err(Shut),
    }
}
