//! A flags word in parts.

ghost use Rattle.std.specs.Prelude.{◌≡◌, if◌then◌else◌};
ghost use Rattle.decode_fields.specs.Widths.{IsWidth};
ghost use Rattle.x86_alu.specs.Flags.{carry_flag, zero_flag};
ghost use Rattle.x86_alu.specs.SignedNumbers.{bit, cut};
ghost use Rattle.x86_regs.specs.Combinations.{combination, comparison, condition_stands, direction_flag, movement, source_width};
ghost use Rattle.x86_regs.specs.OperandOutcomes.{is_taken};

use crate::flags::parts::Parts;
use std::marker::Model;
use x86_alu::{Logic, Shift};
use x86_decode::Op;
use x86_regs::{combination, comparison, low, movement, source_width};

/// A flags word.
#[derive(Drop)]
pub struct FlagParts {
    parts: Parts,
}

impl Model for FlagParts {
    ghost use Rattle.std.specs.Prelude.{ℕ};
    ghost use Rattle.exec_quick.specs.StatusFlags.{flags_word};

    ghost Value = { ℕ };

    ghost view = { λ it. flags_word it.parts };
}

impl FlagParts {
    /// The parts of a flags word.
    #[inline(always)]
    pub fn new(flags: u64) -> FlagParts
        ensures { result ≡ flags }
    {
        FlagParts {
            parts: Parts::of(flags),
        }
    }

    /// The flags word.
    #[inline(always)]
    pub fn word(&self) -> u64
        ensures { result ≡ self.now }
    {
        self.parts.word()
    }

    /// Puts another flags word in the place of this one.
    #[inline(always)]
    pub fn put(&mut self, flags: u64)
        ensures { self.new ≡ flags }
    {
        self.parts = Parts::of(flags);
    }

    /// The flags after an operation, and what it makes of the operand that it writes, `to`, and of `from`, at this width in
    /// bits; `number` is the instruction's. It is for callers that know the operation and the width.
    #[inline(always)]
    pub fn combine(&mut self, op: Op, width: u8, to: u64, from: u64, number: u64) -> u64
        requires { IsWidth width }
        ensures value { result ≡ (combination op width (cut width to) (cut (source_width op width) from) number self.old).value }
        ensures flags { self.new ≡ (combination op width (cut width to) (cut (source_width op width) from) number self.old).flags }
    {
        match op {
            Op::Add => self.parts.sum(width, to, from, false),
            Op::Sub => self.parts.difference(width, to, from, false),
            Op::And => self.parts.logical(Logic::And, width, to, from),
            Op::Or => self.parts.logical(Logic::Or, width, to, from),
            Op::Xor => self.parts.logical(Logic::Xor, width, to, from),
            Op::Inc => self.parts.increased(width, to),
            Op::Dec => self.parts.decreased(width, to),
            Op::Neg => self.parts.difference(width, 0, to, false),
            Op::Adc => self.parts.sum_with_carry(width, to, from),
            Op::Sbb => self.parts.difference_with_borrow(width, to, from),
            Op::Shl => self.parts.shift_by(Shift::Left, width, to, from),
            Op::Shr => self.parts.shift_by(Shift::Right, width, to, from),
            Op::Sar => self.parts.shift_by(Shift::Signed, width, to, from),
            Op::Rol => self.parts.rotate_by(true, width, to, from),
            Op::Ror => self.parts.rotate_by(false, width, to, from),
            Op::Imul => self.parts.multiplied(width, to, from),
            Op::Imul3 => self.parts.multiplied(width, from, number),
            Op::Not | Op::Bswap => combination(op, width, to, from, number, 0).value,
            Op::Cmov(condition) => self.chosen(condition, width, to, from),
            _ => self.combine_packed(op, width, to, from, number),
        }
    }

    /// What CMOV writes.
    #[inline(always)]
    fn chosen(&self, condition: u8, width: u8, to: u64, from: u64) -> u64
        requires { IsWidth width }
        ensures { result ≡ if condition_stands condition self.now then cut width from else cut width to }
    {
        if self.condition_stands(condition) {
            low(width, from)
        } else {
            low(width, to)
        }
    }

    /// `combine` of an operation that is rare, on the whole word.
    #[inline(never)]
    fn combine_packed(&mut self, op: Op, width: u8, to: u64, from: u64, number: u64) -> u64
        requires { IsWidth width }
        ensures value { result ≡ (combination op width (cut width to) (cut (source_width op width) from) number self.old).value }
        ensures flags { self.new ≡ (combination op width (cut width to) (cut (source_width op width) from) number self.old).flags }
    {
        let it = combination(op, width, to, from, number, self.word());
        self.put(it.flags);
        it.value
    }

    /// The flags after a comparison of `to` with `from`, at this width in bits, likewise.
    #[inline(always)]
    pub fn compare(&mut self, op: Op, width: u8, to: u64, from: u64)
        requires { IsWidth width }
        ensures { self.new ≡ comparison op width (cut width to) (cut width from) self.old }
    {
        match op {
            Op::Cmp => {
                let _value = self.parts.difference(width, to, from, false);
            }
            Op::Test => {
                let _value = self.parts.logical(Logic::And, width, to, from);
            }
            _ => self.compare_packed(op, width, to, from),
        }
    }

    /// `compare` of an operation that is rare, on the whole word.
    #[inline(never)]
    fn compare_packed(&mut self, op: Op, width: u8, to: u64, from: u64)
        requires { IsWidth width }
        ensures { self.new ≡ comparison op width (cut width to) (cut width from) self.old }
    {
        let flags = comparison(op, width, to, from, self.word());
        self.put(flags);
    }

    /// Whether the condition stands that the four low bits of this number name.
    #[inline(always)]
    pub fn condition_stands(&self, number: u8) -> bool
        ensures { result ≡ condition_stands number self.now }
    {
        self.parts.condition_stands(number)
    }

    /// Whether a jump is taken: one without a condition always is.
    #[inline(always)]
    pub fn is_taken(&self, op: Op) -> bool
        ensures { result ≡ is_taken op self.now }
    {
        match op {
            Op::J(condition) => self.condition_stands(condition),
            _ => true,
        }
    }

    /// What a move writes of the operand `from`, at this width in bits.
    #[inline(always)]
    pub fn movement(&self, op: Op, width: u8, from: u64) -> u64
        requires { IsWidth width }
        ensures { result ≡ movement op width (cut (source_width op width) from) self.now }
    {
        match op {
            Op::Movsx8 | Op::Movsx16 | Op::Movsxd => movement(op, width, from, 0),
            Op::Set(condition) => u64::from(self.condition_stands(condition)),
            _ => low(source_width(op, width), from),
        }
    }

    /// Whether CF is set.
    #[inline(always)]
    pub fn is_carry(&self) -> bool
        ensures { result ≡ bit self.now carry_flag }
    {
        self.parts.is_carry()
    }

    /// Whether ZF is set.
    #[inline(always)]
    pub fn is_zero(&self) -> bool
        ensures { result ≡ bit self.now zero_flag }
    {
        self.parts.is_zero()
    }

    /// Whether DF is set: string instructions go down.
    #[inline(always)]
    pub fn is_down(&self) -> bool
        ensures { result ≡ bit self.now direction_flag }
    {
        self.parts.is_down()
    }
}
