//! The parts that a flags word is packed from, put one by one.

ghost use Rattle.std.specs.Prelude.{◌≡◌, ◌<◌, ◌==◌};
ghost use Rattle.decode_fields.specs.Widths.{IsWidth};
ghost use Rattle.x86_alu.specs.SignedNumbers.{bit};
ghost use Rattle.x86_alu.specs.Flags.{auxiliary_carry_flag, carry_flag, even_parity, overflow_flag, parity_flag, result_flags, sign_flag, with_flag, zero_flag};
ghost use Rattle.exec_quick.specs.StatusFlags.{packed, flags_word};

use x86_alu::{AF, CF, OF, PF, SF, ZF, flag_law, with_flag};
use x86_regs::bit;

/// A flags word but for its status flags, and what these are read from.
#[derive(Drop)]
pub(crate) struct Parts {
    pub(crate) rest: u64,
    pub(crate) carry: bool,
    /// AF is bit 4.
    pub(crate) auxiliary: u64,
    /// OF is the highest bit.
    pub(crate) overflow: u64,
    /// ZF is set where this is 0.
    pub(crate) zero: u64,
    /// SF is the highest bit.
    pub(crate) sign: u64,
    /// PF is the parity of the low byte.
    pub(crate) parity: u64,
}

impl Parts {
    /// The parts of a flags word.
    #[inline(always)]
    #[tactic(auto, unfolding(crate::specs::StatusFlags::flags_word))]
    pub(crate) fn of(flags: u64) -> Parts
        ensures { flags_word result ≡ flags }
    {
        flag_law();
        Parts {
            rest: flags,
            carry: bit(flags, CF),
            auxiliary: flags,
            overflow: raised(flags, OF),
            zero: zero_where(bit(flags, ZF)),
            sign: raised(flags, SF),
            parity: even_where(bit(flags, PF)),
        }
    }

    /// The flags word.
    #[inline(always)]
    #[tactic(auto, unfolding(crate::specs::StatusFlags::flags_word, crate::specs::StatusFlags::packed))]
    pub(crate) fn word(&self) -> u64
        ensures { result ≡ flags_word self.now }
    {
        let word = with_flag(self.rest, PF, self.has_parity());
        let word = with_flag(word, SF, bit(self.sign, 63));
        let word = with_flag(word, ZF, self.zero == 0);
        let word = with_flag(word, OF, bit(self.overflow, 63));
        let word = with_flag(word, AF, bit(self.auxiliary, 4));
        with_flag(word, CF, self.carry)
    }

    /// Whether PF is set.
    #[inline(always)]
    pub(crate) fn has_parity(&self) -> bool
        ensures { result ≡ even_parity self.now.parity }
    {
        (self.parity & 0xFF).count_ones() % 2 == 0
    }

    /// Puts CF.
    #[inline(always)]
    #[tactic(auto, unfolding(crate::specs::StatusFlags::flags_word))]
    pub(crate) fn put_carry(&mut self, carry: bool)
        ensures { flags_word self.new ≡ with_flag carry_flag carry (flags_word self.old) }
    {
        flag_law();
        self.carry = carry;
    }

    /// Puts AF, as bit 4 of a word has it.
    #[inline(always)]
    #[tactic(auto, unfolding(crate::specs::StatusFlags::flags_word))]
    pub(crate) fn put_auxiliary(&mut self, word: u64)
        ensures { flags_word self.new ≡ with_flag auxiliary_carry_flag (bit word 4) (flags_word self.old) }
    {
        flag_law();
        self.auxiliary = word;
    }

    /// Puts OF, as the highest bit of a word has it.
    #[inline(always)]
    #[tactic(auto, unfolding(crate::specs::StatusFlags::flags_word))]
    pub(crate) fn put_overflow(&mut self, word: u64)
        ensures { flags_word self.new ≡ with_flag overflow_flag (bit word 63) (flags_word self.old) }
    {
        flag_law();
        self.overflow = word;
    }

    /// Puts ZF, SF and PF by a result, of `width` bits.
    #[inline(always)]
    #[tactic(auto, unfolding(crate::specs::StatusFlags::flags_word))]
    pub(crate) fn put_result(&mut self, width: u8, value: u64)
        requires { IsWidth width }
        ensures { flags_word self.new ≡ result_flags width value (flags_word self.old) }
    {
        flag_law();
        self.zero = value;
        self.sign = raised(value, width - 1);
        self.parity = value;
    }
}

/// A word whose highest bit is the one at a place of another.
#[inline(always)]
pub(crate) fn raised(word: u64, place: u8) -> u64
    requires { place < 64 }
    ensures { bit result 63 ≡ bit word place }
{
    word << (63 - place)
}

/// A number that is 0 where ZF is set.
#[inline(always)]
fn zero_where(set: bool) -> u64
    ensures { (result == 0) ≡ set }
{
    u64::from(!set)
}

/// A byte of even parity where PF is set.
#[inline(always)]
fn even_where(set: bool) -> u64
    ensures { even_parity result ≡ set }
{
    u64::from(!set)
}
