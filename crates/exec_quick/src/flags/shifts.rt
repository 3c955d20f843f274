//! Shifts and rotations, with the status flags that they leave.

ghost use Rattle.std.specs.Prelude.{◌≡◌, ◌==◌, not};
ghost use Rattle.decode_fields.specs.Widths.{IsWidth};
ghost use Rattle.x86_alu.specs.Flags.{carry_flag, overflow_flag};
ghost use Rattle.x86_alu.specs.Shifts.{masked_count, rotate_flags, rotated, shift_flags, shifted};
ghost use Rattle.x86_alu.specs.SignedNumbers.{bit, cut};
ghost use Rattle.exec_quick.specs.StatusFlags.{flags_word};

use crate::flags::parts::{Parts, raised};
use x86_alu::{CF, OF, Shift, flag_law, rotate, shift, with_flag};
use x86_regs::{bit, low};

impl Parts {
    /// A shift by the low byte of the count.
    #[inline]
    pub(crate) fn shift_by(&mut self, kind: Shift, width: u8, a: u64, count: u64) -> u64
        requires { IsWidth width }
        ensures value { result ≡ shifted kind width (cut width a) (masked_count width (cut 8 count)) }
        ensures flags { flags_word self.new ≡ shift_flags kind width (cut width a) (masked_count width (cut 8 count)) (flags_word self.old) }
    {
        let count = low(8, count) as u8;
        let it = shift(kind, width, a, count, self.carry_and_overflow());
        flag_law();
        if is_counted(width, count) {
            self.put_result(width, it.value);
            self.put_overflow(raised(it.flags, OF));
            self.put_carry(bit(it.flags, CF));
        }
        it.value
    }

    /// A rotation by the low byte of the count.
    #[inline]
    pub(crate) fn rotate_by(&mut self, left: bool, width: u8, a: u64, count: u64) -> u64
        requires { IsWidth width }
        ensures value { result ≡ rotated left width (cut width a) (masked_count width (cut 8 count)) }
        ensures flags { flags_word self.new ≡ rotate_flags left width
            (rotated left width (cut width a) (masked_count width (cut 8 count))) (masked_count width (cut 8 count)) (flags_word self.old) }
    {
        let count = low(8, count) as u8;
        let it = rotate(left, width, a, count, self.carry_and_overflow());
        flag_law();
        if is_counted(width, count) {
            self.put_overflow(raised(it.flags, OF));
            self.put_carry(bit(it.flags, CF));
        }
        it.value
    }

    /// A flags word with these two flags, which a shift may keep.
    #[inline(always)]
    fn carry_and_overflow(&self) -> u64
        ensures carry { bit result carry_flag ≡ bit (flags_word self.now) carry_flag }
        ensures overflow { bit result overflow_flag ≡ bit (flags_word self.now) overflow_flag }
    {
        flag_law();
        let word = with_flag(0, OF, self.is_overflow());
        with_flag(word, CF, self.is_carry())
    }
}

/// Whether anything is shifted: a count of 0 leaves all flags.
#[inline(always)]
fn is_counted(width: u8, count: u8) -> bool
    ensures { result ≡ not (masked_count width count == 0) }
{
    if width == 64 {
        count & 0x3F != 0
    } else {
        count & 0x1F != 0
    }
}
