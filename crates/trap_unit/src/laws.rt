//! What follows from the definitions, for those who say what a turn of the processor keeps.

ghost use Rattle.std.specs.Prelude.{◌≡◌, ◌⊎◌, IfOk};
ghost use Rattle.x86_regs.specs.declared.delivery.Frame.{Frame};
ghost use Rattle.x86_regs.specs.declared.registers.Regs.{Regs};
ghost use Rattle.trap_unit.specs.TrapReturn.{returned};
ghost use Rattle.trap_unit.specs.DeliveryLaws.{DeliveryLaws, AlikeReadsLaws};

use nk_bits::access_law;
use phys_mem::memory_law;
use x86_regs::alike_law;

/// A delivery ends at CPL 0, or shuts the machine down and leaves the registers; memory is that after its stores, and
/// keeps its size.
pub fn delivery_law()
    ensures { DeliveryLaws }
{
    memory_law();
}

/// A return goes to CPL 3, or from CPL 0 to CPL 0: none gains privilege.
pub fn return_law()
    ensures { (regs : Regs) (frame : Frame) → IfOk (returned regs frame)
        (λ after. (after.cpl ≡ 3) ⊎ ((regs.cpl ≡ 0) × (after.cpl ≡ 0))) }
{}

/// Over two memories that are alike where translations that pass a claim lead, a delivery's reads, of the gate and of
/// the stack's top, are the same, and so is the question whether an interrupt is allowed.
pub fn alike_reads_law()
    ensures { AlikeReadsLaws }
{
    access_law();
    alike_law();
}
