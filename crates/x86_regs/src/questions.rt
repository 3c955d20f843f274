//! Questions on an operation or its prefix: whether its numbers have signs, which way it goes, whether it is repeated; and
//! what a control register holds.

ghost use Rattle.std.specs.Prelude.{◌≡◌};
ghost use Rattle.x86_regs.specs.OperandOutcomes.{control_value, is_asked, is_forward, is_signed};
ghost use Rattle.x86_regs.specs.OperandPlans.{is_repeated};

use decode_fields::Rep;
use nk_bits::Control;
use x86_decode::Op;

/// Whether a product or a quotient of twice the width is one of signed numbers.
#[inline(always)]
pub fn is_signed(op: Op) -> bool
    ensures { result ≡ is_signed op }
{
    matches!(op, Op::Imul | Op::Idiv)
}

/// Whether a scan of bits begins at the lowest one.
#[inline(always)]
pub fn is_forward(op: Op) -> bool
    ensures { result ≡ is_forward op }
{
    matches!(op, Op::Bsf)
}

/// Whether a string instruction is counted by RCX.
#[inline(always)]
pub fn is_repeated(rep: Rep) -> bool
    ensures { result ≡ is_repeated rep }
{
    match rep {
        Rep::No => false,
        Rep::WhileEqual | Rep::WhileNot => true,
    }
}

/// Whether ZF is what the prefix of an instruction that compares asks.
#[inline(always)]
pub fn is_asked(rep: Rep, zero: bool) -> bool
    ensures { result ≡ is_asked rep zero }
{
    match rep {
        Rep::No => false,
        Rep::WhileEqual => zero,
        Rep::WhileNot => !zero,
    }
}

/// What the control register of this number holds: CR0, CR2, CR3, or else CR4 (SDM volume 3, 2.5).
pub fn control_value(control: &Control, number: u64) -> u64
    ensures { result ≡ control_value control.now number }
{
    match number {
        0 => control.cr0,
        2 => control.cr2,
        3 => 4096 * u64::from(control.root),
        _ => control.cr4,
    }
}
