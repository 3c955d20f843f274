//! The registers while quick turns are made.

ghost use Rattle.std.specs.Prelude.{◌≡◌, slice_index};
ghost use Rattle.decode_fields.specs.Widths.{IsWidth};
ghost use Rattle.x86_alu.specs.SignedNumbers.{cut};
ghost use Rattle.x86_regs.specs.Combinations.{combination, comparison, source_width};
ghost use Rattle.x86_regs.specs.Operands.{rcx};
ghost use Rattle.x86_regs.specs.OperandOutcomes.{count_after, counts_down};

use crate::flags::FlagParts;
use std::marker::Model;
use x86_decode::Op;
use x86_regs::{RCX, Regs};

/// The registers, whose status flags stand apart, so that an instruction leaves them without packing them. A contract sees
/// the registers.
#[derive(Drop)]
pub struct Running {
    pub(crate) general: [u64; 16],
    pub(crate) rip: u64,
    pub(crate) flags: FlagParts,
    pub(crate) cpl: u8,
    pub(crate) ss: u16,
}

impl Model for Running {
    ghost use Rattle.x86_regs.specs.declared.registers.Regs.{Regs};

    ghost Value = { Regs };

    ghost view = { λ it. record {
      general = it.general;
      rip = it.rip;
      flags = it.flags;
      cpl = it.cpl;
      ss = it.ss;
    } };
}

impl Running {
    /// These registers.
    pub fn new(regs: &Regs) -> Running
        ensures { result ≡ regs.now }
    {
        Running {
            general: regs.general,
            rip: regs.rip,
            flags: FlagParts::new(regs.flags),
            cpl: regs.cpl,
            ss: regs.ss,
        }
    }

    /// The registers, with their flags in one word.
    pub fn regs(&self) -> Regs
        ensures { result ≡ self.now }
    {
        Regs {
            general: self.general,
            rip: self.rip,
            flags: self.flags.word(),
            cpl: self.cpl,
            ss: self.ss,
        }
    }

    #[inline(always)]
    pub fn rip(&self) -> u64
        ensures { result ≡ self.now.rip }
    {
        self.rip
    }

    #[inline(always)]
    pub fn set_rip(&mut self, rip: u64)
        ensures { self.new ≡ record self.old { rip = rip } }
    {
        self.rip = rip;
    }

    /// The flags after an operation, and what it makes of the operand that it writes, `to`, and of `from`, at this width in
    /// bits; `number` is the instruction's. It is for callers that know the operation and the width.
    #[inline(always)]
    pub(crate) fn combine(&mut self, op: Op, width: u8, to: u64, from: u64, number: u64) -> u64
        requires { IsWidth width }
        ensures value { result
            ≡ (combination op width (cut width to) (cut (source_width op width) from) number self.old.flags).value }
        ensures flags { self.new ≡ record self.old {
          flags = (combination op width (cut width to) (cut (source_width op width) from) number self.old.flags).flags;
        } }
    {
        self.flags.combine(op, width, to, from, number)
    }

    /// The flags after a comparison of `to` with `from`, at this width in bits, likewise.
    #[inline(always)]
    pub(crate) fn compare(&mut self, op: Op, width: u8, to: u64, from: u64)
        requires { IsWidth width }
        ensures { self.new ≡ record self.old { flags = comparison op width (cut width to) (cut width from) self.old.flags } }
    {
        self.flags.compare(op, width, to, from);
    }

    /// Puts the count that has gone down into RCX, where an operation counts down.
    #[inline(always)]
    pub(crate) fn set_count(&mut self, op: Op, count: u64)
        requires { count ≡ slice_index (count_after op self.old.general) rcx }
        ensures { self.new ≡ record self.old { general = count_after op self.old.general } }
    {
        if !matches!(op, Op::Jrcxz) {
            self.general[usize::from(RCX)] = count;
        }
    }
}
