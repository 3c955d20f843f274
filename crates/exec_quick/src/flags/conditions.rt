//! Flags and conditions, read from the parts (SDM volume 1, appendix B).

ghost use Rattle.std.specs.Prelude.{◌≡◌, ◌+◌, ◌<◌, false, slice_index_or};
ghost use Rattle.x86_alu.specs.SignedNumbers.{bit, differ};
ghost use Rattle.x86_alu.specs.Flags.{carry_flag, overflow_flag, parity_flag, sign_flag, zero_flag};
ghost use Rattle.x86_regs.specs.Combinations.{condition_stands, conditions, direction_flag};
ghost use Rattle.exec_quick.specs.StatusFlags.{flags_word};

use crate::flags::parts::Parts;
use x86_alu::flag_law;
use x86_regs::{DF, bit};

impl Parts {
    #[inline(always)]
    #[tactic(auto, unfolding(crate::specs::StatusFlags::flags_word))]
    pub(crate) fn is_carry(&self) -> bool
        ensures { result ≡ bit (flags_word self.now) carry_flag }
    {
        flag_law();
        self.carry
    }

    #[inline(always)]
    #[tactic(auto, unfolding(crate::specs::StatusFlags::flags_word))]
    pub(crate) fn is_overflow(&self) -> bool
        ensures { result ≡ bit (flags_word self.now) overflow_flag }
    {
        flag_law();
        bit(self.overflow, 63)
    }

    #[inline(always)]
    #[tactic(auto, unfolding(crate::specs::StatusFlags::flags_word))]
    pub(crate) fn is_zero(&self) -> bool
        ensures { result ≡ bit (flags_word self.now) zero_flag }
    {
        flag_law();
        self.zero == 0
    }

    #[inline(always)]
    #[tactic(auto, unfolding(crate::specs::StatusFlags::flags_word))]
    pub(crate) fn is_negative(&self) -> bool
        ensures { result ≡ bit (flags_word self.now) sign_flag }
    {
        flag_law();
        bit(self.sign, 63)
    }

    #[inline(always)]
    #[tactic(auto, unfolding(crate::specs::StatusFlags::flags_word))]
    pub(crate) fn is_even(&self) -> bool
        ensures { result ≡ bit (flags_word self.now) parity_flag }
    {
        flag_law();
        self.has_parity()
    }

    #[inline(always)]
    #[tactic(auto, unfolding(crate::specs::StatusFlags::flags_word))]
    pub(crate) fn is_down(&self) -> bool
        ensures { result ≡ bit (flags_word self.now) direction_flag }
    {
        flag_law();
        bit(self.rest, DF)
    }

    /// Less, of signed numbers.
    #[inline(always)]
    fn is_less(&self) -> bool
        ensures { result ≡ differ (bit (flags_word self.now) sign_flag) (bit (flags_word self.now) overflow_flag) }
    {
        self.is_negative() != self.is_overflow()
    }

    /// Whether the condition stands that the four low bits of this number name.
    #[inline(always)]
    #[tactic(auto, unfolding(x86_regs::specs::Combinations::condition_stands))]
    pub(crate) fn condition_stands(&self, number: u8) -> bool
        ensures { result ≡ condition_stands number (flags_word self.now) }
    {
        let number = number % 16;
        if number < 8 {
            self.lower_condition(number)
        } else {
            self.upper_condition(number - 8)
        }
    }

    /// One of the first eight conditions.
    #[inline(always)]
    fn lower_condition(&self, number: u8) -> bool
        requires { number < 8 }
        ensures { result ≡ slice_index_or (conditions (flags_word self.now)) number false }
    {
        match number {
            0 => self.is_overflow(),
            1 => !self.is_overflow(),
            2 => self.is_carry(),
            3 => !self.is_carry(),
            4 => self.is_zero(),
            5 => !self.is_zero(),
            6 => self.is_carry() | self.is_zero(),
            _ => !self.is_carry() & !self.is_zero(),
        }
    }

    /// One of the last eight conditions.
    #[inline(always)]
    fn upper_condition(&self, number: u8) -> bool
        requires { number < 8 }
        ensures { result ≡ slice_index_or (conditions (flags_word self.now)) (8 + number) false }
    {
        match number {
            0 => self.is_negative(),
            1 => !self.is_negative(),
            2 => self.is_even(),
            3 => !self.is_even(),
            4 => self.is_less(),
            5 => !self.is_less(),
            6 => self.is_zero() | self.is_less(),
            _ => !self.is_zero() & !self.is_less(),
        }
    }
}
