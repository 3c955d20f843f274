//! The kinds of the most frequent operations.

ghost use Rattle.std.specs.Prelude.{◌≡◌};
ghost use Rattle.exec_quick.specs.declared.quick.Kind.TheVariants as Kind;
ghost use Rattle.exec_quick.specs.QuickParts.{IsKindOf};

use crate::quick::{Kind, Quick};
use x86_decode::Op;

/// The same quick form by the kind of its operation, where there is one.
pub(crate) fn of_its_kind(quick: Quick) -> Quick
    ensures quick { result ≡ record quick { kind = result.kind } }
    ensures kind { IsKindOf quick.kind quick.op quick.width result.kind }
{
    Quick {
        kind: narrowed(quick.kind, quick.op, quick.width),
        ..quick
    }
}

fn narrowed(kind: Kind, op: Op, width: u8) -> Kind
    ensures { IsKindOf kind op width result }
{
    match kind {
        Kind::Combine => combining(op, width),
        Kind::CombineLoad => combining_load(op, width),
        Kind::CombineStore => combining_store(op, width),
        Kind::Compare => comparing(op, width),
        Kind::CompareLoad => comparing_load(op, width),
        Kind::CompareStore => comparing_store(op, width),
        Kind::Move => moving(op, width),
        Kind::MoveLoad => loading(op, width),
        Kind::MoveStore => storing(op, width),
        Kind::Branch => branching(op, width),
        Kind::CountDown => counting(op, width),
        Kind::Push => pushing(op, width),
        Kind::Pop => popping(op, width),
        _ => kind,
    }
}

fn combining(op: Op, width: u8) -> Kind
    ensures { IsKindOf Kind.Combine op width result }
{
    match (op, width) {
        (Op::Add, 64) => Kind::Add64,
        (Op::Add, 32) => Kind::Add32,
        (Op::Sub, 64) => Kind::Sub64,
        (Op::Sub, 32) => Kind::Sub32,
        (Op::And, 64) => Kind::And64,
        (Op::And, 32) => Kind::And32,
        (Op::Or, 64) => Kind::Or64,
        (Op::Or, 32) => Kind::Or32,
        (Op::Xor, 64) => Kind::Xor64,
        (Op::Xor, 32) => Kind::Xor32,
        (Op::Inc, 64) => Kind::Inc64,
        (Op::Inc, 32) => Kind::Inc32,
        (Op::Dec, 64) => Kind::Dec64,
        (Op::Dec, 32) => Kind::Dec32,
        (Op::Shl, 64) => Kind::Shl64,
        (Op::Shl, 32) => Kind::Shl32,
        (Op::Shr, 64) => Kind::Shr64,
        (Op::Shr, 32) => Kind::Shr32,
        (Op::Sar, 64) => Kind::Sar64,
        (Op::Sar, 32) => Kind::Sar32,
        (Op::Rol, 64) => Kind::Rol64,
        (Op::Rol, 32) => Kind::Rol32,
        (Op::Ror, 64) => Kind::Ror64,
        (Op::Ror, 32) => Kind::Ror32,
        (Op::Neg, 64) => Kind::Neg64,
        (Op::Neg, 32) => Kind::Neg32,
        (Op::Not, 64) => Kind::Not64,
        (Op::Not, 32) => Kind::Not32,
        (Op::Adc, 64) => Kind::Adc64,
        (Op::Adc, 32) => Kind::Adc32,
        (Op::Sbb, 64) => Kind::Sbb64,
        (Op::Sbb, 32) => Kind::Sbb32,
        _ => Kind::Combine,
    }
}

fn combining_load(op: Op, width: u8) -> Kind
    ensures { IsKindOf Kind.CombineLoad op width result }
{
    match (op, width) {
        (Op::Add, 64) => Kind::AddLoad64,
        (Op::Add, 32) => Kind::AddLoad32,
        (Op::Sub, 64) => Kind::SubLoad64,
        (Op::Sub, 32) => Kind::SubLoad32,
        (Op::And, 64) => Kind::AndLoad64,
        (Op::And, 32) => Kind::AndLoad32,
        (Op::Or, 64) => Kind::OrLoad64,
        (Op::Or, 32) => Kind::OrLoad32,
        (Op::Xor, 64) => Kind::XorLoad64,
        (Op::Xor, 32) => Kind::XorLoad32,
        _ => Kind::CombineLoad,
    }
}

fn combining_store(op: Op, width: u8) -> Kind
    ensures { IsKindOf Kind.CombineStore op width result }
{
    match (op, width) {
        (Op::Add, 64) => Kind::AddStore64,
        (Op::Add, 32) => Kind::AddStore32,
        (Op::Sub, 64) => Kind::SubStore64,
        (Op::Sub, 32) => Kind::SubStore32,
        (Op::And, 64) => Kind::AndStore64,
        (Op::And, 32) => Kind::AndStore32,
        (Op::Or, 64) => Kind::OrStore64,
        (Op::Or, 32) => Kind::OrStore32,
        (Op::Inc, 64) => Kind::IncStore64,
        (Op::Inc, 32) => Kind::IncStore32,
        (Op::Dec, 64) => Kind::DecStore64,
        (Op::Dec, 32) => Kind::DecStore32,
        (Op::Inc, 8) => Kind::IncStore8,
        (Op::Dec, 8) => Kind::DecStore8,
        (Op::And, 8) => Kind::AndStore8,
        (Op::Or, 8) => Kind::OrStore8,
        _ => Kind::CombineStore,
    }
}

fn comparing(op: Op, width: u8) -> Kind
    ensures { IsKindOf Kind.Compare op width result }
{
    match (op, width) {
        (Op::Cmp, 64) => Kind::Cmp64,
        (Op::Cmp, 32) => Kind::Cmp32,
        (Op::Test, 64) => Kind::Test64,
        (Op::Test, 32) => Kind::Test32,
        (Op::Cmp, 8) => Kind::Cmp8,
        (Op::Test, 8) => Kind::Test8,
        _ => Kind::Compare,
    }
}

fn comparing_load(op: Op, width: u8) -> Kind
    ensures { IsKindOf Kind.CompareLoad op width result }
{
    match (op, width) {
        (Op::Cmp, 64) => Kind::CmpLoad64,
        (Op::Cmp, 32) => Kind::CmpLoad32,
        (Op::Cmp, 8) => Kind::CmpLoad8,
        _ => Kind::CompareLoad,
    }
}

fn comparing_store(op: Op, width: u8) -> Kind
    ensures { IsKindOf Kind.CompareStore op width result }
{
    match (op, width) {
        (Op::Cmp, 64) => Kind::CmpStore64,
        (Op::Cmp, 32) => Kind::CmpStore32,
        (Op::Cmp, 8) => Kind::CmpStore8,
        (Op::Test, 64) => Kind::TestStore64,
        (Op::Test, 32) => Kind::TestStore32,
        (Op::Test, 8) => Kind::TestStore8,
        _ => Kind::CompareStore,
    }
}

fn moving(op: Op, width: u8) -> Kind
    ensures { IsKindOf Kind.Move op width result }
{
    match (op, width) {
        (Op::Mov, 64) => Kind::Mov64,
        (Op::Mov, 32) => Kind::Mov32,
        (Op::Movzx8, 32) => Kind::MovzxByte32,
        (Op::Movzx16, 32) => Kind::MovzxWord32,
        (Op::Movsx8, 64) => Kind::MovsxByte64,
        (Op::Movsx8, 32) => Kind::MovsxByte32,
        (Op::Movsx16, 64) => Kind::MovsxWord64,
        (Op::Movsx16, 32) => Kind::MovsxWord32,
        (Op::Movsxd, 64) => Kind::Movsxd64,
        _ => Kind::Move,
    }
}

fn loading(op: Op, width: u8) -> Kind
    ensures { IsKindOf Kind.MoveLoad op width result }
{
    match (op, width) {
        (Op::Mov, 64) => Kind::Load64,
        (Op::Mov, 32) => Kind::Load32,
        (Op::Movzx8, 32) => Kind::LoadByte,
        (Op::Mov, 8) => Kind::Load8,
        (Op::Movzx16, 32) => Kind::MovzxWordLoad32,
        (Op::Movsx8, 64) => Kind::MovsxByteLoad64,
        (Op::Movsx8, 32) => Kind::MovsxByteLoad32,
        (Op::Movsx16, 64) => Kind::MovsxWordLoad64,
        (Op::Movsx16, 32) => Kind::MovsxWordLoad32,
        (Op::Movsxd, 64) => Kind::MovsxdLoad64,
        _ => Kind::MoveLoad,
    }
}

fn storing(op: Op, width: u8) -> Kind
    ensures { IsKindOf Kind.MoveStore op width result }
{
    match (op, width) {
        (Op::Mov, 64) => Kind::Store64,
        (Op::Mov, 32) => Kind::Store32,
        (Op::Mov, 16) => Kind::Store16,
        (Op::Mov, 8) => Kind::Store8,
        _ => Kind::MoveStore,
    }
}

fn branching(op: Op, width: u8) -> Kind
    ensures { IsKindOf Kind.Branch op width result }
{
    match (op, width) {
        (Op::Jmp, _) => Kind::Jump,
        (Op::J(4), _) => Kind::JumpZero,
        (Op::J(5), _) => Kind::JumpNotZero,
        (Op::J(2), _) => Kind::JumpBelow,
        (Op::J(3), _) => Kind::JumpNotBelow,
        (Op::J(6), _) => Kind::JumpNotAbove,
        (Op::J(7), _) => Kind::JumpAbove,
        (Op::J(12), _) => Kind::JumpLess,
        (Op::J(13), _) => Kind::JumpNotLess,
        (Op::J(14), _) => Kind::JumpNotGreater,
        (Op::J(15), _) => Kind::JumpGreater,
        _ => Kind::Branch,
    }
}

fn counting(op: Op, width: u8) -> Kind
    ensures { IsKindOf Kind.CountDown op width result }
{
    match (op, width) {
        (Op::Loop, _) => Kind::Loop,
        _ => Kind::CountDown,
    }
}

fn pushing(op: Op, width: u8) -> Kind
    ensures { IsKindOf Kind.Push op width result }
{
    if width == 64 {
        Kind::Push64
    } else {
        Kind::Push
    }
}

fn popping(op: Op, width: u8) -> Kind
    ensures { IsKindOf Kind.Pop op width result }
{
    if width == 64 { Kind::Pop64 } else { Kind::Pop }
}
