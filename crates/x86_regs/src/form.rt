//! The form of each operation.

ghost use Rattle.std.specs.Prelude.{◌≡◌};
ghost use Rattle.x86_regs.specs.OperandPlans.{instr_form, is_imul, is_nothing};
ghost use Rattle.x86_regs.specs.declared.form.Form.TheVariants.{Data, Flow};
ghost use Rattle.x86_regs.specs.OperationForms.{IsData, IsFlow, form_of};

use decode_fields::Place;
use x86_decode::{Instr, Op};

/// The form of an operation: which accesses it makes, and what it does with what it reads. Operations of one form
/// differ in their arithmetic alone.
#[derive(Clone, Copy, Debug, PartialEq, Eq)]
pub enum Form {
    Data(DataForm),
    Flow(FlowForm),
}

/// The forms of arithmetic, of moves, of the stack and of strings, and of what changes a flag or nothing.
#[derive(Clone, Copy, Debug, PartialEq, Eq)]
pub enum DataForm {
    /// The first operand is read and written, the second read.
    Combine,
    /// Both operands are read.
    Compare,
    /// The first operand is written, the second read.
    Move,
    /// The first operand gets the address of the second.
    Address,
    /// Each operand gets what the other held.
    Exchange,
    /// The second operand gets the first, and the first the sum.
    ExchangeAdd,
    /// The first operand is written by its comparison with the accumulator.
    CompareExchange,
    /// A register is written, unless no bit of the operand is set.
    ScanBits,
    /// The accumulator is widened by its sign.
    Widen,
    /// The sign of the accumulator goes to the register at its side.
    Double,
    /// A product of twice the width.
    Multiply,
    /// A quotient of a number of twice the width, and the remainder.
    Divide,
    Push,
    Pop,
    Leave,
    MoveString,
    StoreString,
    LoadString,
    CompareStrings,
    ScanString,
    /// CF or DF is changed.
    ChangeFlag,
    /// Nothing is done.
    Nothing,
}

/// The forms of branches, of traps and their return, of the flags as a whole, of IF, of ports and of the system.
#[derive(Clone, Copy, Debug, PartialEq, Eq)]
pub enum FlowForm {
    /// Jumps, with a condition or without.
    Branch,
    Call,
    Return,
    /// Branches by the count in RCX.
    CountDown,
    /// INT3 and INT.
    Trap,
    /// IRETQ.
    TrapReturn,
    PushFlags,
    PopFlags,
    /// CLI and STI.
    ChangeInterruptFlag,
    Halt,
    Input,
    Output,
    /// MOV from a control register.
    FromControl,
    /// MOV to a control register.
    ToControl,
    /// LIDT.
    LoadTable,
    /// INVLPG.
    DropPage,
    /// The conditions refuse the operation at every CPL.
    Refused,
}

/// The form of an instruction: that of its operation, and of MUL for IMUL of one operand.
#[inline(always)]
pub fn instr_form(instr: &Instr) -> Form
    ensures { result ≡ instr_form instr.now }
{
    if is_imul(instr.op) & is_nothing(&instr.from) {
        Form::Data(DataForm::Multiply)
    } else {
        form_of(instr.op)
    }
}

/// The form of an instruction of data.
pub fn data_form(instr: &Instr) -> DataForm
    requires row { IsData (instr_form instr.now) }
    ensures { Data result ≡ instr_form instr.now }
{
    match instr_form(instr) {
        Form::Data(form) => form,
        Form::Flow(_) => unreachable!(),
    }
}

/// The form of an instruction of flow.
pub fn flow_form(instr: &Instr) -> FlowForm
    requires row { IsFlow (instr_form instr.now) }
    ensures { Flow result ≡ instr_form instr.now }
{
    match instr_form(instr) {
        Form::Flow(form) => form,
        Form::Data(_) => unreachable!(),
    }
}

#[inline(always)]
fn is_imul(op: Op) -> bool
    ensures { result ≡ is_imul op }
{
    matches!(op, Op::Imul)
}

#[inline(always)]
fn is_nothing(place: &Place) -> bool
    ensures { result ≡ is_nothing place.now }
{
    matches!(place, Place::Nothing)
}

#[inline(always)]
fn form_of(op: Op) -> Form
    ensures { result ≡ form_of op }
{
    match op {
        Op::Add
        | Op::Or
        | Op::Adc
        | Op::Sbb
        | Op::And
        | Op::Sub
        | Op::Xor
        | Op::Not
        | Op::Neg
        | Op::Inc
        | Op::Dec
        | Op::Imul
        | Op::Imul3
        | Op::Rol
        | Op::Ror
        | Op::Shl
        | Op::Shr
        | Op::Sar
        | Op::Bts
        | Op::Btr
        | Op::Btc
        | Op::Bswap
        | Op::Cmov(_) => Form::Data(DataForm::Combine),
        Op::Cmp | Op::Test | Op::Bt => Form::Data(DataForm::Compare),
        Op::Mul => Form::Data(DataForm::Multiply),
        Op::Div | Op::Idiv => Form::Data(DataForm::Divide),
        Op::Bsf | Op::Bsr => Form::Data(DataForm::ScanBits),
        Op::Mov | Op::Movsxd | Op::Movzx8 | Op::Movzx16 | Op::Movsx8 | Op::Movsx16 | Op::Set(_) =>
            Form::Data(DataForm::Move),
        Op::Lea => Form::Data(DataForm::Address),
        Op::Xchg => Form::Data(DataForm::Exchange),
        Op::Xadd => Form::Data(DataForm::ExchangeAdd),
        Op::Cmpxchg => Form::Data(DataForm::CompareExchange),
        Op::Cbw | Op::Cwde | Op::Cdqe => Form::Data(DataForm::Widen),
        Op::Cwd | Op::Cdq | Op::Cqo => Form::Data(DataForm::Double),
        Op::Push => Form::Data(DataForm::Push),
        Op::Pop => Form::Data(DataForm::Pop),
        Op::Leave => Form::Data(DataForm::Leave),
        Op::Movs => Form::Data(DataForm::MoveString),
        Op::Cmps => Form::Data(DataForm::CompareStrings),
        Op::Stos => Form::Data(DataForm::StoreString),
        Op::Lods => Form::Data(DataForm::LoadString),
        Op::Scas => Form::Data(DataForm::ScanString),
        Op::Cmc | Op::Clc | Op::Stc | Op::Cld | Op::Std => Form::Data(DataForm::ChangeFlag),
        Op::Nop => Form::Data(DataForm::Nothing),
        Op::J(_) | Op::Jmp => Form::Flow(FlowForm::Branch),
        Op::Call => Form::Flow(FlowForm::Call),
        Op::Ret => Form::Flow(FlowForm::Return),
        Op::Loop | Op::Loope | Op::Loopne | Op::Jrcxz => Form::Flow(FlowForm::CountDown),
        Op::Int3 | Op::Int => Form::Flow(FlowForm::Trap),
        Op::Iretq => Form::Flow(FlowForm::TrapReturn),
        Op::Pushfq => Form::Flow(FlowForm::PushFlags),
        Op::Popfq => Form::Flow(FlowForm::PopFlags),
        Op::Cli | Op::Sti => Form::Flow(FlowForm::ChangeInterruptFlag),
        Op::Hlt => Form::Flow(FlowForm::Halt),
        Op::In => Form::Flow(FlowForm::Input),
        Op::Out => Form::Flow(FlowForm::Output),
        Op::Movfc => Form::Flow(FlowForm::FromControl),
        Op::Movtc => Form::Flow(FlowForm::ToControl),
        Op::Lidt => Form::Flow(FlowForm::LoadTable),
        Op::Invlpg => Form::Flow(FlowForm::DropPage),
        Op::Ud2 | Op::Movtd | Op::Wrmsr | Op::Lldt | Op::Ltr | Op::Lgdt | Op::Lmsw => Form::Flow(
            FlowForm::Refused,
        ),
    }
}
