//! The operands of a quick form.

ghost use Rattle.std.specs.Prelude.{◌≡◌, ◌<◌, ◌≤◌, ◌*◌, ◌^◌, ℕ, None};
ghost use Rattle.decode_fields.specs.Widths.{IsWidth};
ghost use Rattle.x86_alu.specs.SignedNumbers.{cut};
ghost use Rattle.page_walk.specs.declared.plan.Origin.TheVariants.{Is};
ghost use Rattle.x86_regs.specs.Operands.{added, address_by, place_span, source_by};
ghost use Rattle.x86_regs.specs.Registers.{written};
ghost use Rattle.exec_quick.specs.QuickForms.{IsQuick, next_address, quick_address, operand_of, operand_value, register_of};

use crate::quick::Quick;
use crate::running::Running;
use decode_fields::Place;
use x86_regs::set_place;

/// The value of an operand that isn't in memory, of which the low bits count.
#[inline(always)]
pub(crate) fn operand(number: u8, value: u64, general: &[u64; 16]) -> u64
    requires number { number < 22 }
    ensures { (w : ℕ) → IsWidth w → cut w result ≡ cut w (operand_value number value general.now w) }
{
    if number < 16 {
        general[usize::from(number)]
    } else if number == 16 {
        value
    } else if number == 17 {
        0
    } else {
        general[usize::from((number + 2) % 4)] >> 8 & 0xFF
    }
}

/// The address of the next instruction, where this one stands at `at`.
#[inline(always)]
pub(crate) fn next_address(quick: &Quick, at: u64) -> u64
    ensures { result ≡ next_address at quick.now.size }
{
    at.wrapping_add(u64::from(quick.size))
}

/// The value of the first operand, which isn't in memory, of which so many low bits count.
#[inline(always)]
pub(crate) fn first(quick: &Quick, width: u8, at: u64, regs: &Running) -> u64
    requires ready { IsQuick quick.now }
    requires width { IsWidth width }
    ensures source { source_by regs.now.general (next_address at quick.now.size) width quick.now.value
        (operand_of quick.now.to) ≡ Is (operand_value quick.now.to quick.now.value regs.now.general width) }
    ensures value { cut width result
        ≡ cut width (operand_value quick.now.to quick.now.value regs.now.general width) }
{
    operand(quick.to, quick.value, &regs.general)
}

/// The value of the first operand, which is a register, of which so many low bits count.
#[inline(always)]
pub(crate) fn first_register(quick: &Quick, width: u8, at: u64, regs: &Running) -> u64
    requires register { quick.now.to < 16 }
    requires width { IsWidth width }
    ensures source { source_by regs.now.general (next_address at quick.now.size) width quick.now.value
        (operand_of quick.now.to) ≡ Is (cut width result) }
    ensures span { place_span regs.now.general (next_address at quick.now.size) width (operand_of quick.now.to)
        ≡ None }
{
    regs.general[usize::from(quick.to)]
}

/// Puts a result into the first operand, which is a register, whose flags are put already.
#[inline(always)]
pub(crate) fn put_result(quick: &Quick, width: u8, value: u64, regs: &mut Running)
    requires register { quick.now.to < 16 }
    requires width { IsWidth width }
    ensures put { regs.new ≡ record regs.old {
      general = written regs.old.general (operand_of quick.now.to) width value;
    } }
{
    set_place(&mut regs.general, &Place::Reg(quick.to), width, value);
}

/// The value of the second operand, which isn't in memory, of which so many low bits count.
#[inline(always)]
pub(crate) fn source(quick: &Quick, width: u8, at: u64, regs: &Running) -> u64
    requires ready { IsQuick quick.now }
    requires width { IsWidth width }
    ensures source { source_by regs.now.general (next_address at quick.now.size) width quick.now.value
        (operand_of quick.now.from) ≡ Is (operand_value quick.now.from quick.now.value regs.now.general width) }
    ensures value { cut width result
        ≡ cut width (operand_value quick.now.from quick.now.value regs.now.general width) }
{
    operand(quick.from, quick.value, &regs.general)
}

/// The linear address of the operand in memory.
#[inline(always)]
pub(crate) fn address(quick: &Quick, general: &[u64; 16], next: u64) -> u64
    requires ready { IsQuick quick.now }
    ensures { result ≡ address_by general.now next (quick_address quick.now) }
{
    let base = register(quick.base, general);
    let index = scaled(register(quick.index, general), quick.scale);
    let start = if quick.follows_rip { next } else { 0 };
    let sum = base as u128 + index + quick.displacement as u128 + start as u128;
    (sum & u64::MAX as u128) as u64
}

#[inline(always)]
fn scaled(index: u64, scale: u8) -> u128
    ensures value { result ≡ index * scale }
    ensures bound { result ≤ 2 ^ 72 }
{
    index as u128 * scale as u128
}

/// What a register of an address adds.
#[inline(always)]
fn register(number: u8, general: &[u64; 16]) -> u64
    requires number { number ≤ 16 }
    ensures { result ≡ added general.now (register_of number) }
{
    if number < 16 {
        general[usize::from(number)]
    } else {
        0
    }
}
