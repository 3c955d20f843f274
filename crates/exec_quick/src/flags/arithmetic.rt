//! What operations make of two operands, with the status flags that they leave.

ghost use Rattle.std.specs.Prelude.{◌≡◌, true, false};
ghost use Rattle.decode_fields.specs.Widths.{IsWidth};
ghost use Rattle.x86_alu.specs.SignedNumbers.{bit, cut};
ghost use Rattle.x86_alu.specs.Flags.{carry_flag};
ghost use Rattle.x86_alu.specs.Bitwise.{combined, logic_flags};
ghost use Rattle.x86_alu.specs.Products.{half_of, product, product_flags};
ghost use Rattle.x86_alu.specs.Sums.{difference_flags, difference_of, sum_flags, sum_of};
ghost use Rattle.x86_regs.specs.Combinations.{carry_kept};
ghost use Rattle.exec_quick.specs.StatusFlags.{flags_word};

use crate::flags::carries::{difference_overflow, half_borrow, half_carry, sum_overflow};
use crate::flags::parts::{Parts, raised};
use x86_alu::{CF, Logic, add, flag_law, logic, multiply, sub};
use x86_regs::bit;

impl Parts {
    /// The sum of two operands and a carry, as ADD and ADC make it.
    #[inline]
    pub(crate) fn sum(&mut self, width: u8, a: u64, b: u64, carry: bool) -> u64
        requires { IsWidth width }
        ensures value { result ≡ sum_of width (cut width a) (cut width b) carry }
        ensures flags { flags_word self.new ≡ sum_flags width (cut width a) (cut width b) carry (flags_word self.old) }
    {
        let it = add(width, a, b, carry, 0);
        flag_law();
        self.put_result(width, it.value);
        self.put_overflow(sum_overflow(width, a, b, carry, it.value));
        self.put_auxiliary(half_carry(width, a, b, carry, it.value));
        self.put_carry(bit(it.flags, CF));
        it.value
    }

    /// The difference of two operands and a borrow, as SUB, SBB, CMP and NEG make it.
    #[inline]
    pub(crate) fn difference(&mut self, width: u8, a: u64, b: u64, borrow: bool) -> u64
        requires { IsWidth width }
        ensures value { result ≡ difference_of width (cut width a) (cut width b) borrow }
        ensures flags { flags_word self.new ≡ difference_flags width (cut width a) (cut width b) borrow (flags_word self.old) }
    {
        let it = sub(width, a, b, borrow, 0);
        flag_law();
        self.put_result(width, it.value);
        self.put_overflow(difference_overflow(width, a, b, borrow, it.value));
        self.put_auxiliary(half_borrow(width, a, b, borrow, it.value));
        self.put_carry(bit(it.flags, CF));
        it.value
    }

    /// ADC, which takes CF in.
    #[inline]
    pub(crate) fn sum_with_carry(&mut self, width: u8, a: u64, b: u64) -> u64
        requires { IsWidth width }
        ensures value { result ≡ sum_of width (cut width a) (cut width b) (bit (flags_word self.old) carry_flag) }
        ensures flags { flags_word self.new
            ≡ sum_flags width (cut width a) (cut width b) (bit (flags_word self.old) carry_flag) (flags_word self.old) }
    {
        let carry = self.is_carry();
        self.sum(width, a, b, carry)
    }

    /// SBB, which takes CF in.
    #[inline]
    pub(crate) fn difference_with_borrow(&mut self, width: u8, a: u64, b: u64) -> u64
        requires { IsWidth width }
        ensures value { result ≡ difference_of width (cut width a) (cut width b) (bit (flags_word self.old) carry_flag) }
        ensures flags { flags_word self.new
            ≡ difference_flags width (cut width a) (cut width b) (bit (flags_word self.old) carry_flag) (flags_word self.old) }
    {
        let borrow = self.is_carry();
        self.difference(width, a, b, borrow)
    }

    /// AND, OR or XOR of two operands.
    #[inline]
    pub(crate) fn logical(&mut self, kind: Logic, width: u8, a: u64, b: u64) -> u64
        requires { IsWidth width }
        ensures value { result ≡ combined kind (cut width a) (cut width b) }
        ensures flags { flags_word self.new ≡ logic_flags width (combined kind (cut width a) (cut width b)) (flags_word self.old) }
    {
        let value = logic(kind, width, a, b, 0).value;
        self.put_result(width, value);
        self.put_overflow(0);
        self.put_carry(false);
        value
    }

    /// INC, which keeps CF.
    #[inline]
    pub(crate) fn increased(&mut self, width: u8, a: u64) -> u64
        requires { IsWidth width }
        ensures value { result ≡ sum_of width (cut width a) 1 false }
        ensures flags { flags_word self.new ≡ carry_kept (flags_word self.old) (sum_flags width (cut width a) 1 false (flags_word self.old)) }
    {
        let carry = self.is_carry();
        let value = self.sum(width, a, 1, false);
        self.put_carry(carry);
        value
    }

    /// DEC, which keeps CF.
    #[inline]
    pub(crate) fn decreased(&mut self, width: u8, a: u64) -> u64
        requires { IsWidth width }
        ensures value { result ≡ difference_of width (cut width a) 1 false }
        ensures flags { flags_word self.new ≡ carry_kept (flags_word self.old) (difference_flags width (cut width a) 1 false (flags_word self.old)) }
    {
        let carry = self.is_carry();
        let value = self.difference(width, a, 1, false);
        self.put_carry(carry);
        value
    }

    /// The low half of the signed product, as IMUL makes it.
    #[inline]
    pub(crate) fn multiplied(&mut self, width: u8, a: u64, b: u64) -> u64
        requires { IsWidth width }
        ensures value { result ≡ half_of false width (product true width (cut width a) (cut width b)) }
        ensures flags { flags_word self.new ≡ product_flags true width (cut width a) (cut width b) (flags_word self.old) }
    {
        let it = multiply(true, false, width, a, b, 0);
        flag_law();
        self.put_overflow(raised(it.flags, CF));
        self.put_carry(bit(it.flags, CF));
        it.value
    }
}
