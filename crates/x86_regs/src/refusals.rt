//! The faults that an instruction raises whatever its operands hold, and those of its accesses.

ghost use Rattle.std.specs.Prelude.{◌≡◌, ℕ, None, false, true};
ghost use Rattle.x86_decode.specs.declared.conditions.UndefinedWhere.TheVariants.{AtWidth16, Nowhere};
ghost use Rattle.x86_decode.specs.declared.operation.Op.TheVariants.{Bswap};
ghost use Rattle.x86_decode.specs.Conditions.{conditions_of};
ghost use Rattle.x86_regs.specs.Effects.{is_control_register, is_locked_wrongly, is_memory, is_undefined, is_undefined_at_cpl_0, names_no_register, access_raised, refusal, refusal_by_cpl};

use crate::faults::Fault;
use decode_fields::Place;
use nk_bits::AccessFault;
use page_walk::SpanFault;
use x86_decode::{Conditions, Instr, Op, UndefinedWhere, conditions_of};

/// The fault that the conditions of an instruction raise at this CPL: #UD by LOCK, by its operand size or by a control
/// register that isn't there, then #GP(0) by the CPL, then #UD at CPL 0.
#[inline(always)]
pub fn refusal(instr: &Instr, cpl: u8) -> Option<Fault>
    ensures { result ≡ refusal instr.now cpl }
{
    if is_unconditional(instr) {
        None
    } else {
        refusal_by_conditions(instr, cpl)
    }
}

#[inline(never)]
fn refusal_by_conditions(instr: &Instr, cpl: u8) -> Option<Fault>
    ensures { result ≡ refusal instr.now cpl }
{
    let conditions = conditions_of(instr.op);
    if is_locked_wrongly(instr) {
        Some(Fault::Opcode)
    } else if is_undefined(conditions.undefined, instr.width) {
        Some(Fault::Opcode)
    } else if names_no_register(instr.op, instr.value) {
        Some(Fault::Opcode)
    } else {
        refusal_by_cpl(conditions, cpl)
    }
}

/// Whether an instruction is of those that no condition refuses, at whatever CPL: the common ones without LOCK.
#[inline(always)]
pub fn is_unconditional(instr: &Instr) -> bool
    ensures { result ≡ true → (cpl : ℕ) → refusal instr.now cpl ≡ None }
{
    !instr.lock && (has_no_condition(instr.op) || is_wide_swap(instr.op, instr.width))
}

#[inline(always)]
fn has_no_condition(op: Op) -> bool
    ensures undefined { result ≡ true → (conditions_of op).undefined ≡ Nowhere }
    ensures cpl { result ≡ true → (conditions_of op).needs_cpl_0 ≡ false }
    ensures register { result ≡ true → (n : ℕ) → names_no_register op n ≡ false }
{
    match op {
        Op::Add | Op::Or | Op::Adc | Op::Sbb | Op::And | Op::Sub | Op::Xor => true,
        Op::Not | Op::Neg | Op::Inc | Op::Dec | Op::Cmp | Op::Test => true,
        Op::Rol | Op::Ror | Op::Shl | Op::Shr | Op::Sar | Op::Imul | Op::Cmov(_) => true,
        Op::Mov | Op::Movsxd | Op::Movzx8 | Op::Movzx16 | Op::Movsx8 | Op::Movsx16 => true,
        Op::Set(_) | Op::Lea | Op::Push | Op::Pop => true,
        Op::J(_) | Op::Jmp | Op::Call | Op::Ret => true,
        Op::Loop | Op::Loope | Op::Loopne | Op::Jrcxz => true,
        Op::Mul | Op::Imul3 | Op::Div | Op::Idiv | Op::Bsf | Op::Bsr => true,
        Op::Cbw | Op::Cwde | Op::Cdqe | Op::Cwd | Op::Cdq | Op::Cqo => true,
        Op::Bt | Op::Bts | Op::Btr | Op::Btc | Op::Leave | Op::Nop => true,
        Op::Movs | Op::Cmps | Op::Stos | Op::Lods | Op::Scas => true,
        Op::Cmc | Op::Clc | Op::Stc | Op::Cld | Op::Std => true,
        _ => false,
    }
}

/// Whether it is a BSWAP of 32 or 64 bits.
fn is_wide_swap(op: Op, width: u8) -> bool
    ensures op { result ≡ true → op ≡ Bswap }
    ensures width { result ≡ true → is_undefined AtWidth16 width ≡ false }
{
    matches!(op, Op::Bswap) && width != 16
}

fn refusal_by_cpl(conditions: Conditions, cpl: u8) -> Option<Fault>
    ensures { result ≡ refusal_by_cpl conditions cpl }
{
    if conditions.needs_cpl_0 & (cpl != 0) {
        Some(Fault::General(0))
    } else if is_undefined_at_cpl_0(conditions.undefined) {
        Some(Fault::Opcode)
    } else {
        None
    }
}

fn is_memory(place: &Place) -> bool
    ensures { result ≡ is_memory place.now }
{
    matches!(place, Place::Mem(_))
}

fn is_locked_wrongly(instr: &Instr) -> bool
    ensures { result ≡ is_locked_wrongly instr.now }
{
    let takes_lock = conditions_of(instr.op).takes_lock;
    instr.lock & !(takes_lock & is_memory(&instr.to))
}

fn is_undefined(undefined: UndefinedWhere, width: u8) -> bool
    ensures { result ≡ is_undefined undefined width }
{
    match undefined {
        UndefinedWhere::Nowhere | UndefinedWhere::AtCpl0 => false,
        UndefinedWhere::Everywhere => true,
        UndefinedWhere::AtWidth16 => width == 16,
    }
}

fn is_undefined_at_cpl_0(undefined: UndefinedWhere) -> bool
    ensures { result ≡ is_undefined_at_cpl_0 undefined }
{
    match undefined {
        UndefinedWhere::AtCpl0 => true,
        UndefinedWhere::Nowhere | UndefinedWhere::Everywhere | UndefinedWhere::AtWidth16 => false,
    }
}

fn names_no_register(op: Op, number: u64) -> bool
    ensures { result ≡ names_no_register op number }
{
    match op {
        Op::Movfc | Op::Movtc => !is_control_register(number),
        _ => false,
    }
}

fn is_control_register(number: u64) -> bool
    ensures { result ≡ is_control_register number }
{
    (number == 0) | (number == 2) | (number == 3) | (number == 4)
}

/// The fault of an access: a page fault, or by an address that isn't canonical #SS where the stack is addressed and #GP
/// elsewhere.
pub fn raised(it: SpanFault) -> Fault
    ensures { result ≡ access_raised it.stack it.fault }
{
    match it.fault {
        AccessFault::Page { code, address } => Fault::Page { code, address },
        AccessFault::NonCanonical if it.stack => Fault::Stack,
        AccessFault::NonCanonical => Fault::General(0),
    }
}
