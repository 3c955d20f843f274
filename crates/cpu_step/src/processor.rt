//! The processor between two turns.

ghost use Rattle.std.specs.Prelude.{◌≡◌, ◌≤◌, ◌<◌, ◌-◌, IfOk, IfSome};
ghost use Rattle.std.specs.Borrow.{sem};
ghost use Rattle.x86_alu.specs.Flags.{with_flag};
ghost use Rattle.x86_regs.specs.Operands.{with_register};
ghost use Rattle.cpu_step.specs.Processor.{deliverable, highest_pending, started};
ghost use Rattle.cpu_step.specs.Turns.{woken};

use crate::memo::Memo;
use nk_bits::Control;
use port_bus::Ports;
use std::alloc::Global;
use std::marker::Model;
use tlb_model::Tlb;
use x86_alu::{scan_bit, with_flag};
use x86_regs::{IF, Regs, Tables, bit, set_register};

/// There is no room for the translations and decodings that a processor keeps.
#[derive(Clone, Copy, Debug, PartialEq, Eq)]
pub struct NoMemory;

/// The processor's state, its ports with the input included.
#[derive(Drop)]
pub struct Cpu {
    pub(crate) regs: Regs,
    pub(crate) control: Control,
    pub(crate) tables: Tables,
    pub(crate) tlb: Tlb,
    pub(crate) ports: Ports,
    /// Bit v - 32 is set where the maskable vector v, 32 to 47, is pending.
    pub(crate) pending: u16,
    /// The next instruction is shielded from interrupts.
    pub(crate) shielded: bool,
    pub(crate) halted: bool,
    /// What code decoded to before: it changes no answer.
    pub(crate) memo: Memo,
}

impl Model for Cpu {
    ghost use Rattle.cpu_step.specs.Processor.{Processor};

    ghost Value = { Processor };

    ghost view = { λ cpu. record {
      regs = cpu.regs;
      control = cpu.control;
      tables = cpu.tables;
      tlb = cpu.tlb;
      input = cpu.ports;
      pending = cpu.pending;
      shielded = cpu.shielded;
      halted = cpu.halted;
    } };
}

impl Cpu {
    ghost use Rattle.cpu_step.specs.TranslationsLent.{LendsTranslations};

    /// A processor that keeps no translation yet, with this input behind its ports.
    pub fn new(
        alloc: Global,
        regs: Regs,
        control: Control,
        tables: Tables,
        input: Vec<u8>,
    ) -> Result<Cpu, NoMemory>
        ensures { IfOk result (λ cpu. cpu ≡ started regs control tables input.items) }
    {
        let Ok(tlb) = Tlb::new(alloc) else {
            return Err(NoMemory);
        };
        let Ok(memo) = Memo::new(alloc) else {
            return Err(NoMemory);
        };
        Ok(Cpu {
            regs,
            control,
            tables,
            tlb,
            ports: Ports::new(input),
            pending: 0,
            shielded: false,
            halted: false,
            memo,
        })
    }

    /// The vector that is to be delivered before the next instruction.
    pub fn deliverable(&self) -> Option<u8>
        ensures vector { result ≡ deliverable self.now }
        ensures bounds { IfSome result (λ vector. (32 ≤ vector) × (vector < 48)) }
    {
        if bit(self.regs.flags, IF) && !self.shielded {
            highest_pending(self.pending)
        } else {
            None
        }
    }

    /// The vector that is delivered waits no longer, and the processor is awake.
    pub(crate) fn wake(&mut self, vector: u8)
        requires { (32 ≤ vector) × (vector < 48) }
        ensures { self.new ≡ woken vector self.old }
    {
        self.pending = with_pending(self.pending, vector, false);
        self.halted = false;
    }

    /// The registers that instructions name.
    pub fn regs(&self) -> &Regs
        ensures { result.now ≡ self.now.regs }
    {
        &self.regs
    }

    /// The control registers.
    pub fn control(&self) -> &Control
        ensures { result.now ≡ self.now.control }
    {
        &self.control
    }

    /// The bases and limits of the tables.
    pub fn tables(&self) -> &Tables
        ensures { result.now ≡ self.now.tables }
    {
        &self.tables
    }

    /// The vectors that wait: bit v - 32 is that of the vector v, 32 to 47.
    pub fn pending(&self) -> u16
        ensures { result ≡ self.now.pending }
    {
        self.pending
    }

    /// Whether no interrupt is delivered before the next instruction, whatever IF is.
    pub fn shielded(&self) -> bool
        ensures { result ≡ self.now.shielded }
    {
        self.shielded
    }

    /// Whether HLT stopped the processor.
    pub fn halted(&self) -> bool
        ensures { result ≡ self.now.halted }
    {
        self.halted
    }

    /// The translations kept.
    pub fn tlb(&self) -> &Tlb
        ensures { result.now ≡ self.now.tlb }
    {
        &self.tlb
    }

    /// The translations kept, to be changed; all else stays.
    pub fn tlb_mut(&mut self) -> &mut Tlb
        ensures* writes_back { sem 𝓛 (LendsTranslations self.entry result) }
        ensures tlb { result.now ≡ self.old.tlb }
    {
        &mut self.tlb
    }

    /// Writes a general register whole; its number is that of its encoding.
    pub fn set_reg(&mut self, number: u8, value: u64)
        requires { number < 16 }
        ensures { self.new ≡ record self.old {
          regs = record self.old.regs { general = with_register self.old.regs.general number value };
        } }
    {
        set_register(&mut self.regs.general, number, value);
    }

    /// Goes on at another address.
    pub fn set_rip(&mut self, rip: u64)
        ensures { self.new ≡ record self.old { regs = record self.old.regs { rip = rip } } }
    {
        self.regs.rip = rip;
    }

    /// Names another root of the page tables; the translations stay.
    pub fn set_root(&mut self, root: u32)
        ensures { self.new ≡ record self.old { control = record self.old.control { root = root } } }
    {
        self.control.root = root;
    }
}

/// The pending vectors, of which this one waits now, or no longer.
pub(crate) fn with_pending(pending: u16, vector: u8, waits: bool) -> u16
    requires { (32 ≤ vector) × (vector < 48) }
    ensures { result ≡ with_flag (vector - 32) waits pending }
{
    with_flag(u64::from(pending), vector - 32, waits) as u16
}

/// The highest pending vector, 32 to 47.
fn highest_pending(pending: u16) -> Option<u8>
    ensures vector { result ≡ highest_pending pending }
    ensures bounds { IfSome result (λ vector. (32 ≤ vector) × (vector < 48)) }
{
    if pending == 0 {
        None
    } else {
        let place = scan_bit(false, 64, u64::from(pending), 0).value;
        Some(32 + place as u8)
    }
}
