//! The quick form of an instruction.

ghost use Rattle.std.specs.Prelude.{◌≡◌, ◌<◌, ◌≤◌, IfSome, false, true};
ghost use Rattle.decode_fields.specs.Bounds.{IsAddress, IsPlace};
ghost use Rattle.x86_decode.specs.declared.instruction.Decoded.TheVariants.{Whole};
ghost use Rattle.x86_decode.specs.WellFormed.{IsWellFormed};
ghost use Rattle.x86_regs.specs.declared.form.Form.TheVariants.{Data, Flow};
ghost use Rattle.x86_regs.specs.declared.form.DataForm.TheVariants as DataForm;
ghost use Rattle.x86_regs.specs.declared.form.FlowForm.TheVariants as FlowForm;
ghost use Rattle.x86_regs.specs.OperandPlans.{instr_form};
ghost use Rattle.exec_quick.specs.QuickForms.{StandsFor, form_by, has_memory_first, has_memory_second, has_register_first, is_slow, is_supervisor, op_by, operand_of, register_of, width_by};
ghost use Rattle.exec_quick.specs.QuickParts.{HasParts};

use crate::kinds::of_its_kind;
use crate::quick::{Kind, Quick, SLOW};
use decode_fields::{Address, Place};
use x86_decode::{Instr, Op};
use x86_regs::{DataForm, FlowForm, Form, instr_form, is_unconditional, refusal};

/// The quick form of an instruction of so many bytes, or `SLOW`.
pub fn quick_of(instr: &Instr, size: u8) -> Quick
    requires formed { IsWellFormed instr.now }
    ensures stands { is_slow result.kind ≡ false → StandsFor result (Whole instr.now size) }
{
    if instr.lock {
        SLOW
    } else if is_unconditional(instr) {
        of_its_kind(by_form(instr, size))
    } else if refusal(instr, 0).is_none() {
        supervising(instr, size)
    } else {
        SLOW
    }
}

/// The quick form of an instruction that no condition refuses at CPL 0, where it is the supervisor's alone.
fn supervising(instr: &Instr, size: u8) -> Quick
    requires formed { IsWellFormed instr.now }
    requires lock { instr.now.lock ≡ false }
    ensures parts { is_slow result.kind ≡ false → HasParts result instr.now size }
    ensures form { is_slow result.kind ≡ false → instr_form instr.now ≡ form_by result.kind }
    ensures supervisor { is_slow result.kind ≡ false → is_supervisor result.kind ≡ true }
{
    match (instr_form(instr), instr.op) {
        (Form::Flow(FlowForm::PushFlags), _) => without_register(Kind::PushFlags, instr, size),
        (Form::Flow(FlowForm::PopFlags), _) => without_register(Kind::PopFlags, instr, size),
        (Form::Flow(FlowForm::ChangeInterruptFlag), Op::Cli) => {
            without_register(Kind::ClearInterrupts, instr, size)
        }
        (Form::Flow(FlowForm::FromControl), _) => with_register(Kind::FromControl, instr, size),
        _ => SLOW,
    }
}

fn by_form(instr: &Instr, size: u8) -> Quick
    requires formed { IsWellFormed instr.now }
    requires lock { instr.now.lock ≡ false }
    ensures parts { is_slow result.kind ≡ false → HasParts result instr.now size }
    ensures form { is_slow result.kind ≡ false → instr_form instr.now ≡ form_by result.kind }
{
    match instr_form(instr) {
        Form::Data(form) => by_data_form(form, instr, size),
        Form::Flow(form) => by_flow_form(form, instr, size),
    }
}

fn by_data_form(form: DataForm, instr: &Instr, size: u8) -> Quick
    requires formed { IsWellFormed instr.now }
    requires lock { instr.now.lock ≡ false }
    ensures parts { is_slow result.kind ≡ false → HasParts result instr.now size }
    ensures form { is_slow result.kind ≡ false → form_by result.kind ≡ Data form }
{
    match form {
        DataForm::Combine => combining(instr, size),
        DataForm::Compare => comparing(instr, size),
        DataForm::Move => moving(instr, size),
        DataForm::Address => loading(Kind::Address, instr, size),
        DataForm::Exchange | DataForm::ExchangeAdd | DataForm::CompareExchange => SLOW,
        DataForm::ScanBits => scanning(instr, size),
        DataForm::Widen => without_register(Kind::Widen, instr, size),
        DataForm::Double => without_register(Kind::Double, instr, size),
        DataForm::Multiply => multiplying(instr, size),
        DataForm::Divide => dividing(instr, size),
        DataForm::Push => pushing(instr, size),
        DataForm::Pop => with_register(Kind::Pop, instr, size),
        DataForm::Leave => without_register(Kind::Leave, instr, size),
        DataForm::MoveString => without_register(Kind::MoveString, instr, size),
        DataForm::StoreString => without_register(Kind::StoreString, instr, size),
        DataForm::LoadString => without_register(Kind::LoadString, instr, size),
        DataForm::CompareStrings => without_register(Kind::CompareStrings, instr, size),
        DataForm::ScanString => without_register(Kind::ScanString, instr, size),
        DataForm::ChangeFlag => without_register(Kind::ChangeFlag, instr, size),
        DataForm::Nothing => without_register(Kind::Nothing, instr, size),
    }
}

fn by_flow_form(form: FlowForm, instr: &Instr, size: u8) -> Quick
    requires formed { IsWellFormed instr.now }
    requires lock { instr.now.lock ≡ false }
    ensures parts { is_slow result.kind ≡ false → HasParts result instr.now size }
    ensures form { is_slow result.kind ≡ false → form_by result.kind ≡ Flow form }
{
    match form {
        FlowForm::Branch => branching(instr, size),
        FlowForm::Call => calling(instr, size),
        FlowForm::Return => without_register(Kind::Return, instr, size),
        FlowForm::CountDown => without_register(Kind::CountDown, instr, size),
        _ => SLOW,
    }
}

fn combining(instr: &Instr, size: u8) -> Quick
    requires formed { IsWellFormed instr.now }
    requires lock { instr.now.lock ≡ false }
    ensures parts { is_slow result.kind ≡ false → HasParts result instr.now size }
    ensures form { is_slow result.kind ≡ false → form_by result.kind ≡ Data DataForm.Combine }
{
    match (&instr.to, &instr.from) {
        (Place::Mem(_), _) => storing(Kind::CombineStore, instr, size),
        (_, Place::Mem(_)) => loading(Kind::CombineLoad, instr, size),
        _ => with_register(Kind::Combine, instr, size),
    }
}

fn comparing(instr: &Instr, size: u8) -> Quick
    requires formed { IsWellFormed instr.now }
    requires lock { instr.now.lock ≡ false }
    ensures parts { is_slow result.kind ≡ false → HasParts result instr.now size }
    ensures form { is_slow result.kind ≡ false → form_by result.kind ≡ Data DataForm.Compare }
{
    match (&instr.to, &instr.from) {
        (Place::Mem(_), _) => storing(Kind::CompareStore, instr, size),
        (_, Place::Mem(_)) => loading(Kind::CompareLoad, instr, size),
        _ => with_register(Kind::Compare, instr, size),
    }
}

fn moving(instr: &Instr, size: u8) -> Quick
    requires formed { IsWellFormed instr.now }
    requires lock { instr.now.lock ≡ false }
    ensures parts { is_slow result.kind ≡ false → HasParts result instr.now size }
    ensures form { is_slow result.kind ≡ false → form_by result.kind ≡ Data DataForm.Move }
{
    match (&instr.to, &instr.from) {
        (Place::Mem(_), _) => storing(Kind::MoveStore, instr, size),
        (_, Place::Mem(_)) => loading(Kind::MoveLoad, instr, size),
        _ => with_register(Kind::Move, instr, size),
    }
}

fn pushing(instr: &Instr, size: u8) -> Quick
    requires formed { IsWellFormed instr.now }
    requires lock { instr.now.lock ≡ false }
    ensures parts { is_slow result.kind ≡ false → HasParts result instr.now size }
    ensures form { is_slow result.kind ≡ false → form_by result.kind ≡ Data DataForm.Push }
{
    match &instr.from {
        Place::Mem(_) => reading(Kind::PushLoad, instr, size),
        _ => without_register(Kind::Push, instr, size),
    }
}

fn branching(instr: &Instr, size: u8) -> Quick
    requires formed { IsWellFormed instr.now }
    requires lock { instr.now.lock ≡ false }
    ensures parts { is_slow result.kind ≡ false → HasParts result instr.now size }
    ensures form { is_slow result.kind ≡ false → form_by result.kind ≡ Flow FlowForm.Branch }
{
    match &instr.from {
        Place::Mem(_) => reading(Kind::BranchLoad, instr, size),
        _ => without_register(Kind::Branch, instr, size),
    }
}

fn calling(instr: &Instr, size: u8) -> Quick
    requires formed { IsWellFormed instr.now }
    requires lock { instr.now.lock ≡ false }
    ensures parts { is_slow result.kind ≡ false → HasParts result instr.now size }
    ensures form { is_slow result.kind ≡ false → form_by result.kind ≡ Flow FlowForm.Call }
{
    match &instr.from {
        Place::Mem(_) => reading(Kind::CallLoad, instr, size),
        _ => without_register(Kind::Call, instr, size),
    }
}

fn scanning(instr: &Instr, size: u8) -> Quick
    requires formed { IsWellFormed instr.now }
    requires lock { instr.now.lock ≡ false }
    ensures parts { is_slow result.kind ≡ false → HasParts result instr.now size }
    ensures form { is_slow result.kind ≡ false → form_by result.kind ≡ Data DataForm.ScanBits }
{
    match &instr.from {
        Place::Mem(_) => loading(Kind::ScanBitsLoad, instr, size),
        _ => with_register(Kind::ScanBits, instr, size),
    }
}

fn multiplying(instr: &Instr, size: u8) -> Quick
    requires formed { IsWellFormed instr.now }
    requires lock { instr.now.lock ≡ false }
    ensures parts { is_slow result.kind ≡ false → HasParts result instr.now size }
    ensures form { is_slow result.kind ≡ false → form_by result.kind ≡ Data DataForm.Multiply }
{
    match &instr.to {
        Place::Mem(_) => storing(Kind::MultiplyLoad, instr, size),
        _ => without_register(Kind::Multiply, instr, size),
    }
}

fn dividing(instr: &Instr, size: u8) -> Quick
    requires formed { IsWellFormed instr.now }
    requires lock { instr.now.lock ≡ false }
    ensures parts { is_slow result.kind ≡ false → HasParts result instr.now size }
    ensures form { is_slow result.kind ≡ false → form_by result.kind ≡ Data DataForm.Divide }
{
    match &instr.to {
        Place::Mem(_) => storing(Kind::DivideLoad, instr, size),
        _ => without_register(Kind::Divide, instr, size),
    }
}

/// A register, and an operand that isn't in memory.
fn with_register(kind: Kind, instr: &Instr, size: u8) -> Quick
    requires first { has_memory_first kind ≡ false }
    requires second { has_memory_second kind ≡ false }
    requires op { op_by kind instr.now.op ≡ instr.now.op }
    requires width { width_by kind instr.now.width ≡ instr.now.width }
    requires formed { IsWellFormed instr.now }
    requires lock { instr.now.lock ≡ false }
    ensures parts { is_slow result.kind ≡ false → HasParts result instr.now size }
    ensures kind { is_slow result.kind ≡ false → result.kind ≡ kind }
{
    match (&instr.to, number_of(&instr.from)) {
        (Place::Reg(to), Some(from)) => over(kind, instr, size, *to, from),
        _ => SLOW,
    }
}

/// No operand that is written, and none in memory.
fn without_register(kind: Kind, instr: &Instr, size: u8) -> Quick
    requires first { has_memory_first kind ≡ false }
    requires second { has_memory_second kind ≡ false }
    requires register { has_register_first kind ≡ false }
    requires op { op_by kind instr.now.op ≡ instr.now.op }
    requires width { width_by kind instr.now.width ≡ instr.now.width }
    requires formed { IsWellFormed instr.now }
    requires lock { instr.now.lock ≡ false }
    ensures parts { is_slow result.kind ≡ false → HasParts result instr.now size }
    ensures kind { is_slow result.kind ≡ false → result.kind ≡ kind }
{
    match (number_of(&instr.to), number_of(&instr.from)) {
        (Some(to), Some(from)) => over(kind, instr, size, to, from),
        _ => SLOW,
    }
}

/// A register, and an operand in memory.
fn loading(kind: Kind, instr: &Instr, size: u8) -> Quick
    requires first { has_memory_first kind ≡ false }
    requires second { has_memory_second kind ≡ true }
    requires op { op_by kind instr.now.op ≡ instr.now.op }
    requires width { width_by kind instr.now.width ≡ instr.now.width }
    requires formed { IsWellFormed instr.now }
    requires lock { instr.now.lock ≡ false }
    ensures parts { is_slow result.kind ≡ false → HasParts result instr.now size }
    ensures kind { is_slow result.kind ≡ false → result.kind ≡ kind }
{
    match (&instr.to, &instr.from) {
        (Place::Reg(to), Place::Mem(address)) => at(address, over(kind, instr, size, *to, 17)),
        _ => SLOW,
    }
}

/// No operand that is written, and one in memory.
fn reading(kind: Kind, instr: &Instr, size: u8) -> Quick
    requires first { has_memory_first kind ≡ false }
    requires second { has_memory_second kind ≡ true }
    requires register { has_register_first kind ≡ false }
    requires op { op_by kind instr.now.op ≡ instr.now.op }
    requires width { width_by kind instr.now.width ≡ instr.now.width }
    requires formed { IsWellFormed instr.now }
    requires lock { instr.now.lock ≡ false }
    ensures parts { is_slow result.kind ≡ false → HasParts result instr.now size }
    ensures kind { is_slow result.kind ≡ false → result.kind ≡ kind }
{
    match (number_of(&instr.to), &instr.from) {
        (Some(to), Place::Mem(address)) => at(address, over(kind, instr, size, to, 17)),
        _ => SLOW,
    }
}

/// An operand in memory, and one that isn't.
fn storing(kind: Kind, instr: &Instr, size: u8) -> Quick
    requires first { has_memory_first kind ≡ true }
    requires second { has_memory_second kind ≡ false }
    requires register { has_register_first kind ≡ false }
    requires op { op_by kind instr.now.op ≡ instr.now.op }
    requires width { width_by kind instr.now.width ≡ instr.now.width }
    requires formed { IsWellFormed instr.now }
    requires lock { instr.now.lock ≡ false }
    ensures parts { is_slow result.kind ≡ false → HasParts result instr.now size }
    ensures kind { is_slow result.kind ≡ false → result.kind ≡ kind }
{
    match (&instr.to, number_of(&instr.from)) {
        (Place::Mem(address), Some(from)) => at(address, over(kind, instr, size, 17, from)),
        _ => SLOW,
    }
}

/// Operands by these numbers.
fn over(kind: Kind, instr: &Instr, size: u8, to: u8, from: u8) -> Quick
    ensures { result ≡ record {
      kind = kind;
      op = instr.now.op;
      width = instr.now.width;
      size = size;
      at = 0;
      to = to;
      from = from;
      base = 16;
      index = 16;
      scale = 1;
      follows_rip = false;
      displacement = 0;
      value = instr.now.value;
      rep = instr.now.rep;
    } }
{
    Quick {
        kind,
        op: instr.op,
        width: instr.width,
        size,
        at: 0,
        to,
        from,
        base: 16,
        index: 16,
        scale: 1,
        follows_rip: false,
        displacement: 0,
        value: instr.value,
        rep: instr.rep,
    }
}

/// The same with this address.
fn at(address: &Address, quick: Quick) -> Quick
    requires address { IsAddress address.now }
    ensures quick { result ≡ record quick {
      base = result.base;
      index = result.index;
      scale = address.now.scale;
      follows_rip = address.now.rip;
      displacement = address.now.disp;
    } }
    ensures base { result.base ≤ 16 }
    ensures index { result.index ≤ 16 }
    ensures base_is { register_of result.base ≡ address.now.base }
    ensures index_is { register_of result.index ≡ address.now.index }
{
    Quick {
        base: number_or_none(address.base),
        index: number_or_none(address.index),
        scale: address.scale,
        follows_rip: address.rip,
        displacement: address.disp,
        ..quick
    }
}

/// A register of an address, or 16 for none.
fn number_or_none(register: Option<u8>) -> u8
    requires register { IfSome register (λ number. number < 16) }
    ensures number { result ≤ 16 }
    ensures register { register_of result ≡ register }
{
    match register {
        Some(number) => number,
        None => 16,
    }
}

/// The number of an operand that isn't in memory.
fn number_of(place: &Place) -> Option<u8>
    requires place { IsPlace place.now }
    ensures number { IfSome result (λ n. n < 22) }
    ensures operand { IfSome result (λ n. operand_of n ≡ place.now) }
{
    match *place {
        Place::Reg(number) => Some(number),
        Place::Value => Some(16),
        Place::Nothing => Some(17),
        Place::High(number) => Some(18 + number),
        Place::Mem(_) => None,
    }
}
