//! What the forms of two operands make of the values read, and those of the accumulator and of one flag.

ghost use Rattle.std.specs.Prelude.{◌≡◌, Ok, false};
ghost use Rattle.x86_decode.specs.WellFormed.{IsWellFormed};
ghost use Rattle.x86_alu.specs.SignedNumbers.{cut};
ghost use Rattle.x86_regs.specs.Combinations.{combination, comparison, movement, source_width, sum};
ghost use Rattle.x86_regs.specs.Registers.{held};
ghost use Rattle.x86_regs.specs.OperandOutcomes.{bits_scanned, compared, doubled, exchanged, flags_changed, going_on, is_forward, quietly, sum_exchanged, widened, with_result};

use decode_fields::Place;
use x86_alu::{Out, scan_bit};
use x86_decode::{Instr, Op};
use x86_regs::{
    Act, Change, RAX, RDX, Regs, combination, comparison, difference, extended, flags_changed,
    going_on, held, is_forward, low, movement, ones, sign, source_width, sum, written,
};

/// A change of registers alone.
pub(crate) fn quietly(regs: Regs) -> Change
    ensures { Ok result ≡ quietly regs }
{
    Change {
        regs,
        value: 0,
        act: Act::Quiet,
    }
}

/// The result goes to the first operand.
fn with_result(instr: &Instr, regs: &Regs, next: u64, it: Out) -> Change
    requires { IsWellFormed instr.now }
    ensures { Ok result ≡ with_result instr.now regs.now next it }
{
    let general = written(&regs.general, &instr.to, instr.width, it.value);
    Change {
        regs: going_on(regs, general, it.flags, next),
        value: it.value,
        act: Act::Quiet,
    }
}

/// ADD and all that writes its first operand by both.
pub(crate) fn combine(instr: &Instr, next: u64, regs: &Regs, to: u64, from: u64) -> Change
    requires { IsWellFormed instr.now }
    ensures { Ok result ≡ with_result instr.now regs.now next
        (combination instr.now.op instr.now.width (cut instr.now.width to)
        (cut (source_width instr.now.op instr.now.width) from) instr.now.value regs.now.flags) }
{
    let it = combination(instr.op, instr.width, to, from, instr.value, regs.flags);
    with_result(instr, regs, next, it)
}

/// CMP, TEST and BT.
pub(crate) fn compare(instr: &Instr, next: u64, regs: &Regs, to: u64, from: u64) -> Change
    requires { IsWellFormed instr.now }
    ensures { Ok result ≡ quietly (going_on regs.now regs.now.general
        (comparison instr.now.op instr.now.width (cut instr.now.width to) (cut instr.now.width from) regs.now.flags)
        next) }
{
    let flags = comparison(instr.op, instr.width, to, from, regs.flags);
    quietly(going_on(regs, regs.general, flags, next))
}

/// MOV and its kin, and SETcc.
pub(crate) fn move_over(instr: &Instr, next: u64, regs: &Regs, from: u64) -> Change
    requires { IsWellFormed instr.now }
    ensures { Ok result ≡ with_result instr.now regs.now next (record {
      value = movement instr.now.op instr.now.width
          (cut (source_width instr.now.op instr.now.width) from) regs.now.flags;
      flags = regs.now.flags;
    }) }
{
    let value = movement(instr.op, instr.width, from, regs.flags);
    let flags = regs.flags;
    with_result(instr, regs, next, Out { value, flags })
}

/// LEA.
pub(crate) fn load_address(instr: &Instr, next: u64, regs: &Regs, address: u64) -> Change
    requires { IsWellFormed instr.now }
    ensures { Ok result ≡ with_result instr.now regs.now next (record {
      value = cut instr.now.width address;
      flags = regs.now.flags;
    }) }
{
    let value = low(instr.width, address);
    let flags = regs.flags;
    with_result(instr, regs, next, Out { value, flags })
}

/// XCHG.
pub(crate) fn exchange(instr: &Instr, next: u64, regs: &Regs, to: u64, from: u64) -> Change
    requires { IsWellFormed instr.now }
    ensures { Ok result ≡ exchanged instr.now regs.now next
        (cut instr.now.width to) (cut instr.now.width from) }
{
    let (a, b) = (low(instr.width, to), low(instr.width, from));
    let general = written(&regs.general, &instr.to, instr.width, b);
    let general = written(&general, &instr.from, instr.width, a);
    Change {
        regs: going_on(regs, general, regs.flags, next),
        value: b,
        act: Act::Quiet,
    }
}

/// XADD: the second operand gets the first, and then the first the sum.
pub(crate) fn exchange_add(instr: &Instr, next: u64, regs: &Regs, to: u64, from: u64) -> Change
    requires { IsWellFormed instr.now }
    ensures { Ok result ≡ sum_exchanged instr.now regs.now next (cut instr.now.width to)
        (sum instr.now.width (cut instr.now.width to) (cut instr.now.width from) false regs.now.flags) }
{
    let it = sum(instr.width, to, from, false, regs.flags);
    let a = low(instr.width, to);
    let general = written(&regs.general, &instr.from, instr.width, a);
    let general = written(&general, &instr.to, instr.width, it.value);
    Change {
        regs: going_on(regs, general, it.flags, next),
        value: it.value,
        act: Act::Quiet,
    }
}

/// CMPXCHG.
pub(crate) fn compare_exchange(instr: &Instr, next: u64, regs: &Regs, to: u64, from: u64) -> Change
    requires { IsWellFormed instr.now }
    ensures { Ok result ≡ compared instr.now regs.now next
        (held regs.now.general (Place.Reg 0) instr.now.width) (cut instr.now.width to) (cut instr.now.width from) }
{
    let width = instr.width;
    let accumulator = regs.general[RAX as usize];
    let flags = difference(width, accumulator, to, false, regs.flags).flags;
    let (a, b) = (low(width, to), low(width, from));
    let is_equal = low(width, accumulator) == a;
    let general = if is_equal {
        regs.general
    } else {
        written(&regs.general, &Place::Reg(RAX), width, a)
    };
    let value = if is_equal { b } else { a };
    Change {
        regs: going_on(
            regs,
            written(&general, &instr.to, width, value),
            flags,
            next,
        ),
        value,
        act: Act::Quiet,
    }
}

/// BSF and BSR.
pub(crate) fn scan_bits(instr: &Instr, next: u64, regs: &Regs, from: u64) -> Change
    requires { IsWellFormed instr.now }
    ensures { Ok result ≡ bits_scanned instr.now regs.now next (is_forward instr.now.op)
        (cut instr.now.width from) }
{
    let it = scan_bit(is_forward(instr.op), instr.width, from, regs.flags);
    if low(instr.width, from) == 0 {
        return quietly(going_on(regs, regs.general, it.flags, next));
    }
    let general = written(&regs.general, &instr.to, instr.width, it.value);
    quietly(going_on(regs, general, it.flags, next))
}

/// CBW, CWDE and CDQE.
pub(crate) fn widen(instr: &Instr, next: u64, regs: &Regs) -> Change
    requires { IsWellFormed instr.now }
    ensures { Ok result ≡ quietly (going_on regs.now (widened instr.now regs.now) regs.now.flags next) }
{
    let width = source_width(instr.op, instr.width);
    let number = low(width, regs.general[RAX as usize]);
    let value = extended(width, instr.width, number);
    let general = written(&regs.general, &Place::Reg(RAX), instr.width, value);
    quietly(going_on(regs, general, regs.flags, next))
}

/// CWD, CDQ and CQO.
pub(crate) fn double(instr: &Instr, next: u64, regs: &Regs) -> Change
    requires { IsWellFormed instr.now }
    ensures { Ok result ≡ quietly (going_on regs.now (doubled instr.now regs.now) regs.now.flags next) }
{
    let is_negative = sign(instr.width, low(instr.width, regs.general[RAX as usize]));
    let value = if is_negative { ones(instr.width) } else { 0 };
    let general = written(&regs.general, &Place::Reg(RDX), instr.width, value);
    quietly(going_on(regs, general, regs.flags, next))
}

/// CMC, CLC, STC, CLD and STD.
pub(crate) fn change_flag(op: Op, next: u64, regs: &Regs) -> Change
    ensures { Ok result ≡ quietly (going_on regs.now regs.now.general (flags_changed op regs.now.flags) next) }
{
    let flags = flags_changed(op, regs.flags);
    quietly(going_on(regs, regs.general, flags, next))
}
