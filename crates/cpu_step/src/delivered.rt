//! Deliveries to the processor: of interrupts, traps and faults.

ghost use Rattle.std.specs.Prelude.{◌≡◌, length};
ghost use Rattle.cpu_step.specs.Processor.{IsSound};
ghost use Rattle.cpu_step.specs.Turns.{error_code_of, control_after, delivery_of, fault_raised, trapped, vector_of};

use crate::processor::Cpu;
use crate::stepped::Stepped;
use nk_bits::Delivery;
use phys_mem::PhysMem;
use trap_unit::deliver;
use x86_regs::Fault;

/// The vector of a page fault.
const PAGE_FAULT: u8 = 14;

impl Cpu {
    /// Delivers a vector, with an error code or without.
    #[inline(never)]
    #[tactic(auto, unfolding(crate::specs::Turns::trapped))]
    pub(crate) fn deliver(
        &mut self,
        vector: u8,
        code: Option<u64>,
        mem: &mut PhysMem,
        shown: &mut Stepped,
    )
        requires sound { IsSound (length mem.old) self.old }
        ensures trapped { record { processor = self.new; memory = mem.new; stepped = shown.new }
            ≡ trapped vector code self.old mem.old }
        ensures sound { IsSound (length mem.new) self.new }
        ensures length { length mem.new ≡ length mem.old }
    {
        *shown = Stepped::Delivered(self.shown(vector, code));
        if deliver(
            mem,
            &mut self.tlb,
            &mut self.regs,
            &self.control,
            &self.tables,
            vector,
            code,
        )
        .is_err()
        {
            *shown = Stepped::Shutdown;
        }
    }

    /// What the delivery of a vector shows.
    fn shown(&self, vector: u8, code: Option<u64>) -> Delivery
        ensures { result ≡ delivery_of vector code self.now }
    {
        Delivery {
            vector,
            code,
            rip: self.regs.rip,
            cr2: if vector == PAGE_FAULT {
                Some(self.control.cr2)
            } else {
                None
            },
        }
    }

    /// Delivers a fault, whose linear address CR2 gets where it is a page fault.
    #[inline(never)]
    pub(crate) fn raise(&mut self, fault: Fault, mem: &mut PhysMem, shown: &mut Stepped)
        requires sound { IsSound (length mem.old) self.old }
        ensures raised { record { processor = self.new; memory = mem.new; stepped = shown.new }
            ≡ fault_raised fault self.old mem.old }
        ensures sound { IsSound (length mem.new) self.new }
        ensures length { length mem.new ≡ length mem.old }
    {
        self.note(fault);
        self.deliver(vector_of(fault), code_of(fault), mem, shown);
    }

    /// CR2 gets the linear address of a page fault.
    fn note(&mut self, fault: Fault)
        ensures { self.new ≡ record self.old { control = control_after fault self.old.control } }
    {
        if let Fault::Page { address, .. } = fault {
            self.control.cr2 = address;
        }
    }
}

/// The vector of a fault (SDM volume 3, table 6-1).
fn vector_of(fault: Fault) -> u8
    ensures { result ≡ vector_of fault }
{
    match fault {
        Fault::Divide => 0,
        Fault::Opcode => 6,
        Fault::Stack => 12,
        Fault::General(_) => 13,
        Fault::Page { .. } => PAGE_FAULT,
    }
}

/// The error code that a fault pushes, if it pushes one.
fn code_of(fault: Fault) -> Option<u64>
    ensures { result ≡ error_code_of fault }
{
    match fault {
        Fault::Divide | Fault::Opcode => None,
        Fault::Stack => Some(0),
        Fault::General(code) | Fault::Page { code, .. } => Some(code),
    }
}
