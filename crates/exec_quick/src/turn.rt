//! One turn by a quick form.

ghost use Rattle.std.specs.Prelude.{◌≡◌, ◌<◌, true, false, length};
ghost use Rattle.nk_bits.specs.Translations.{NamesFramesIn};
ghost use Rattle.mem_access.specs.Windows.{IsWindow};
ghost use Rattle.exec_quick.specs.TurnsByForm.{IsTurn};
ghost use Rattle.exec_quick.specs.QuickForms.{AreSameOnPages, IsQuick, effect_made, form_by, has_register_first, is_left, is_slow, is_supervisor, next_address, quiet_outcome, went};

use crate::branches::{branch, branch_load, count_down};
use crate::memory::{
    combine_load, combine_store, compare_load, compare_store, move_load, move_store,
};
use crate::plain::{change_flag, double, nothing, widen};
use crate::products::{divide, divide_load, multiply, multiply_load};
use crate::quick::{Kind, Quick, Went};
use crate::registers::{combine, compare, load_address, move_over};
use crate::running::Running;
use crate::scans::{scan_bits, scan_bits_load};
use crate::stack::{call, call_load, leave, pop, push, push_load, ret};
use crate::strings::{compare_strings, load_string, move_string, scan_string, store_string};
use crate::system::{clear_interrupts, from_control, pop_flags, push_flags};
use mem_access::Window;
use nk_bits::Control;
use phys_mem::PhysMem;
use tlb_model::Tlb;
use x86_decode::Op;

/// Makes the instruction of a quick form, which stands at `at`, with its write, where each page that it needs is kept and
/// serves it and no fault is raised; else changes neither registers nor memory, and says so. RIP isn't read, and is written
/// only where the instruction leads elsewhere than behind itself. The page that the window keeps off isn't written.
#[inline(always)]
pub fn make_at(
    quick: &Quick,
    at: u64,
    regs: &mut Running,
    control: &Control,
    mem: &mut PhysMem,
    tlb: &Tlb,
    window: &mut Window,
) -> Went
    requires ready { IsQuick quick.now }
    requires register { has_register_first quick.now.kind ≡ true → quick.now.to < 16 }
    requires frames { NamesFramesIn (length mem.old) tlb.now }
    requires window { IsWindow (length mem.old) control.now regs.old.cpl tlb.now window.old }
    ensures window { IsWindow (length mem.old) control.now regs.old.cpl tlb.now window.new }
    ensures quick { is_left result ≡ false → is_slow quick.now.kind ≡ false }
    ensures supervisor { is_left result ≡ false → is_supervisor quick.now.kind ≡ true → regs.old.cpl ≡ 0 }
    ensures made { is_left result ≡ false
        → quiet_outcome (went result (next_address at quick.now.size) regs.new) mem.new tlb.now
        ≡ effect_made (form_by quick.now.kind) quick.now (record regs.old { rip = at }) control.now mem.old tlb.now }
    ensures left { is_left result ≡ true → (regs.new ≡ regs.old) × (mem.new ≡ mem.old) }
    ensures off { window.new.off ≡ window.old.off }
    ensures code { AreSameOnPages window.old.off mem.old mem.new }
    ensures length { length mem.new ≡ length mem.old }
    ensures privilege { regs.new.cpl ≡ regs.old.cpl }
{
    make_common(quick, at, regs, control, mem, tlb, window)
}

/// The same turn, in one record: an arm a kind.
#[inline(always)]
fn make_common(
    quick: &Quick,
    at: u64,
    regs: &mut Running,
    control: &Control,
    mem: &mut PhysMem,
    tlb: &Tlb,
    window: &mut Window,
) -> Went
    requires ready { IsQuick quick.now }
    requires register { has_register_first quick.now.kind ≡ true → quick.now.to < 16 }
    requires frames { NamesFramesIn (length mem.old) tlb.now }
    requires window { IsWindow (length mem.old) control.now regs.old.cpl tlb.now window.old }
    ensures { IsTurn quick.now at control.now tlb.now regs.old mem.old window.old result regs.new mem.new window.new }
{
    match quick.kind {
        Kind::Slow => Went::Left,
        Kind::Add64 => combine(quick, Op::Add, 64, at, regs, control, mem, tlb),
        Kind::Add32 => combine(quick, Op::Add, 32, at, regs, control, mem, tlb),
        Kind::Sub64 => combine(quick, Op::Sub, 64, at, regs, control, mem, tlb),
        Kind::Sub32 => combine(quick, Op::Sub, 32, at, regs, control, mem, tlb),
        Kind::And64 => combine(quick, Op::And, 64, at, regs, control, mem, tlb),
        Kind::And32 => combine(quick, Op::And, 32, at, regs, control, mem, tlb),
        Kind::Or64 => combine(quick, Op::Or, 64, at, regs, control, mem, tlb),
        Kind::Or32 => combine(quick, Op::Or, 32, at, regs, control, mem, tlb),
        Kind::Xor64 => combine(quick, Op::Xor, 64, at, regs, control, mem, tlb),
        Kind::Xor32 => combine(quick, Op::Xor, 32, at, regs, control, mem, tlb),
        Kind::Inc64 => combine(quick, Op::Inc, 64, at, regs, control, mem, tlb),
        Kind::Inc32 => combine(quick, Op::Inc, 32, at, regs, control, mem, tlb),
        Kind::Dec64 => combine(quick, Op::Dec, 64, at, regs, control, mem, tlb),
        Kind::Dec32 => combine(quick, Op::Dec, 32, at, regs, control, mem, tlb),
        Kind::Shl64 => combine(quick, Op::Shl, 64, at, regs, control, mem, tlb),
        Kind::Shl32 => combine(quick, Op::Shl, 32, at, regs, control, mem, tlb),
        Kind::Shr64 => combine(quick, Op::Shr, 64, at, regs, control, mem, tlb),
        Kind::Shr32 => combine(quick, Op::Shr, 32, at, regs, control, mem, tlb),
        Kind::Sar64 => combine(quick, Op::Sar, 64, at, regs, control, mem, tlb),
        Kind::Sar32 => combine(quick, Op::Sar, 32, at, regs, control, mem, tlb),
        Kind::Rol64 => combine(quick, Op::Rol, 64, at, regs, control, mem, tlb),
        Kind::Rol32 => combine(quick, Op::Rol, 32, at, regs, control, mem, tlb),
        Kind::Ror64 => combine(quick, Op::Ror, 64, at, regs, control, mem, tlb),
        Kind::Ror32 => combine(quick, Op::Ror, 32, at, regs, control, mem, tlb),
        Kind::Neg64 => combine(quick, Op::Neg, 64, at, regs, control, mem, tlb),
        Kind::Neg32 => combine(quick, Op::Neg, 32, at, regs, control, mem, tlb),
        Kind::Not64 => combine(quick, Op::Not, 64, at, regs, control, mem, tlb),
        Kind::Not32 => combine(quick, Op::Not, 32, at, regs, control, mem, tlb),
        Kind::Adc64 => combine(quick, Op::Adc, 64, at, regs, control, mem, tlb),
        Kind::Adc32 => combine(quick, Op::Adc, 32, at, regs, control, mem, tlb),
        Kind::Sbb64 => combine(quick, Op::Sbb, 64, at, regs, control, mem, tlb),
        Kind::Sbb32 => combine(quick, Op::Sbb, 32, at, regs, control, mem, tlb),
        Kind::AddLoad64 => combine_load(quick, Op::Add, 64, at, regs, control, mem, tlb, window),
        Kind::AddLoad32 => combine_load(quick, Op::Add, 32, at, regs, control, mem, tlb, window),
        Kind::SubLoad64 => combine_load(quick, Op::Sub, 64, at, regs, control, mem, tlb, window),
        Kind::SubLoad32 => combine_load(quick, Op::Sub, 32, at, regs, control, mem, tlb, window),
        Kind::AndLoad64 => combine_load(quick, Op::And, 64, at, regs, control, mem, tlb, window),
        Kind::AndLoad32 => combine_load(quick, Op::And, 32, at, regs, control, mem, tlb, window),
        Kind::OrLoad64 => combine_load(quick, Op::Or, 64, at, regs, control, mem, tlb, window),
        Kind::OrLoad32 => combine_load(quick, Op::Or, 32, at, regs, control, mem, tlb, window),
        Kind::XorLoad64 => combine_load(quick, Op::Xor, 64, at, regs, control, mem, tlb, window),
        Kind::XorLoad32 => combine_load(quick, Op::Xor, 32, at, regs, control, mem, tlb, window),
        Kind::AddStore64 => combine_store(quick, Op::Add, 64, at, regs, control, mem, tlb, window),
        Kind::AddStore32 => combine_store(quick, Op::Add, 32, at, regs, control, mem, tlb, window),
        Kind::SubStore64 => combine_store(quick, Op::Sub, 64, at, regs, control, mem, tlb, window),
        Kind::SubStore32 => combine_store(quick, Op::Sub, 32, at, regs, control, mem, tlb, window),
        Kind::AndStore64 => combine_store(quick, Op::And, 64, at, regs, control, mem, tlb, window),
        Kind::AndStore32 => combine_store(quick, Op::And, 32, at, regs, control, mem, tlb, window),
        Kind::OrStore64 => combine_store(quick, Op::Or, 64, at, regs, control, mem, tlb, window),
        Kind::OrStore32 => combine_store(quick, Op::Or, 32, at, regs, control, mem, tlb, window),
        Kind::IncStore64 => combine_store(quick, Op::Inc, 64, at, regs, control, mem, tlb, window),
        Kind::IncStore32 => combine_store(quick, Op::Inc, 32, at, regs, control, mem, tlb, window),
        Kind::DecStore64 => combine_store(quick, Op::Dec, 64, at, regs, control, mem, tlb, window),
        Kind::DecStore32 => combine_store(quick, Op::Dec, 32, at, regs, control, mem, tlb, window),
        Kind::IncStore8 => combine_store(quick, Op::Inc, 8, at, regs, control, mem, tlb, window),
        Kind::DecStore8 => combine_store(quick, Op::Dec, 8, at, regs, control, mem, tlb, window),
        Kind::AndStore8 => combine_store(quick, Op::And, 8, at, regs, control, mem, tlb, window),
        Kind::OrStore8 => combine_store(quick, Op::Or, 8, at, regs, control, mem, tlb, window),
        Kind::Cmp64 => compare(quick, Op::Cmp, 64, at, regs, control, mem, tlb),
        Kind::Cmp32 => compare(quick, Op::Cmp, 32, at, regs, control, mem, tlb),
        Kind::Test64 => compare(quick, Op::Test, 64, at, regs, control, mem, tlb),
        Kind::Test32 => compare(quick, Op::Test, 32, at, regs, control, mem, tlb),
        Kind::Cmp8 => compare(quick, Op::Cmp, 8, at, regs, control, mem, tlb),
        Kind::Test8 => compare(quick, Op::Test, 8, at, regs, control, mem, tlb),
        Kind::CmpLoad64 => compare_load(quick, Op::Cmp, 64, at, regs, control, mem, tlb, window),
        Kind::CmpLoad32 => compare_load(quick, Op::Cmp, 32, at, regs, control, mem, tlb, window),
        Kind::CmpLoad8 => compare_load(quick, Op::Cmp, 8, at, regs, control, mem, tlb, window),
        Kind::CmpStore64 => compare_store(quick, Op::Cmp, 64, at, regs, control, mem, tlb, window),
        Kind::CmpStore32 => compare_store(quick, Op::Cmp, 32, at, regs, control, mem, tlb, window),
        Kind::CmpStore8 => compare_store(quick, Op::Cmp, 8, at, regs, control, mem, tlb, window),
        Kind::TestStore64 => {
            compare_store(quick, Op::Test, 64, at, regs, control, mem, tlb, window)
        }
        Kind::TestStore32 => {
            compare_store(quick, Op::Test, 32, at, regs, control, mem, tlb, window)
        }
        Kind::TestStore8 => compare_store(quick, Op::Test, 8, at, regs, control, mem, tlb, window),
        Kind::Mov64 => move_over(quick, Op::Mov, 64, at, regs, control, mem, tlb),
        Kind::Mov32 => move_over(quick, Op::Mov, 32, at, regs, control, mem, tlb),
        Kind::MovzxByte32 => move_over(quick, Op::Movzx8, 32, at, regs, control, mem, tlb),
        Kind::MovzxWord32 => move_over(quick, Op::Movzx16, 32, at, regs, control, mem, tlb),
        Kind::MovsxByte64 => move_over(quick, Op::Movsx8, 64, at, regs, control, mem, tlb),
        Kind::MovsxByte32 => move_over(quick, Op::Movsx8, 32, at, regs, control, mem, tlb),
        Kind::MovsxWord64 => move_over(quick, Op::Movsx16, 64, at, regs, control, mem, tlb),
        Kind::MovsxWord32 => move_over(quick, Op::Movsx16, 32, at, regs, control, mem, tlb),
        Kind::Movsxd64 => move_over(quick, Op::Movsxd, 64, at, regs, control, mem, tlb),
        Kind::Load64 => move_load(quick, Op::Mov, 64, at, regs, control, mem, tlb, window),
        Kind::Load32 => move_load(quick, Op::Mov, 32, at, regs, control, mem, tlb, window),
        Kind::LoadByte => move_load(quick, Op::Movzx8, 32, at, regs, control, mem, tlb, window),
        Kind::Load8 => move_load(quick, Op::Mov, 8, at, regs, control, mem, tlb, window),
        Kind::MovzxWordLoad32 => {
            move_load(quick, Op::Movzx16, 32, at, regs, control, mem, tlb, window)
        }
        Kind::MovsxByteLoad64 => {
            move_load(quick, Op::Movsx8, 64, at, regs, control, mem, tlb, window)
        }
        Kind::MovsxByteLoad32 => {
            move_load(quick, Op::Movsx8, 32, at, regs, control, mem, tlb, window)
        }
        Kind::MovsxWordLoad64 => {
            move_load(quick, Op::Movsx16, 64, at, regs, control, mem, tlb, window)
        }
        Kind::MovsxWordLoad32 => {
            move_load(quick, Op::Movsx16, 32, at, regs, control, mem, tlb, window)
        }
        Kind::MovsxdLoad64 => move_load(quick, Op::Movsxd, 64, at, regs, control, mem, tlb, window),
        Kind::Store64 => move_store(quick, Op::Mov, 64, at, regs, control, mem, tlb, window),
        Kind::Store32 => move_store(quick, Op::Mov, 32, at, regs, control, mem, tlb, window),
        Kind::Store16 => move_store(quick, Op::Mov, 16, at, regs, control, mem, tlb, window),
        Kind::Store8 => move_store(quick, Op::Mov, 8, at, regs, control, mem, tlb, window),
        Kind::Loop => count_down(quick, Op::Loop, at, regs, control, mem, tlb),
        Kind::Jump => branch(quick, Op::Jmp, at, regs, control, mem, tlb),
        Kind::JumpZero => branch(quick, Op::J(4), at, regs, control, mem, tlb),
        Kind::JumpNotZero => branch(quick, Op::J(5), at, regs, control, mem, tlb),
        Kind::JumpBelow => branch(quick, Op::J(2), at, regs, control, mem, tlb),
        Kind::JumpNotBelow => branch(quick, Op::J(3), at, regs, control, mem, tlb),
        Kind::JumpNotAbove => branch(quick, Op::J(6), at, regs, control, mem, tlb),
        Kind::JumpAbove => branch(quick, Op::J(7), at, regs, control, mem, tlb),
        Kind::JumpLess => branch(quick, Op::J(12), at, regs, control, mem, tlb),
        Kind::JumpNotLess => branch(quick, Op::J(13), at, regs, control, mem, tlb),
        Kind::JumpNotGreater => branch(quick, Op::J(14), at, regs, control, mem, tlb),
        Kind::JumpGreater => branch(quick, Op::J(15), at, regs, control, mem, tlb),
        Kind::Address => load_address(quick, at, regs, control, mem, tlb),
        Kind::Push64 => push(quick, 64, at, regs, control, mem, tlb, window),
        Kind::Pop64 => pop(quick, 64, at, regs, control, mem, tlb, window),
        Kind::Call => call(quick, at, regs, control, mem, tlb, window),
        Kind::Return => ret(quick, at, regs, control, mem, tlb, window),
        _ => make_rest(quick, at, regs, control, mem, tlb, window),
    }
}

/// The kinds that aren't so common: they stay out of the way of the others.
#[inline(never)]
fn make_rest(
    quick: &Quick,
    at: u64,
    regs: &mut Running,
    control: &Control,
    mem: &mut PhysMem,
    tlb: &Tlb,
    window: &mut Window,
) -> Went
    requires ready { IsQuick quick.now }
    requires register { has_register_first quick.now.kind ≡ true → quick.now.to < 16 }
    requires frames { NamesFramesIn (length mem.old) tlb.now }
    requires window { IsWindow (length mem.old) control.now regs.old.cpl tlb.now window.old }
    ensures { IsTurn quick.now at control.now tlb.now regs.old mem.old window.old result regs.new mem.new window.new }
{
    match quick.kind {
        Kind::Combine => combine(quick, quick.op, quick.width, at, regs, control, mem, tlb),
        Kind::Compare => compare(quick, quick.op, quick.width, at, regs, control, mem, tlb),
        Kind::CombineLoad => combine_load(
            quick,
            quick.op,
            quick.width,
            at,
            regs,
            control,
            mem,
            tlb,
            window,
        ),
        Kind::CombineStore => combine_store(
            quick,
            quick.op,
            quick.width,
            at,
            regs,
            control,
            mem,
            tlb,
            window,
        ),
        Kind::CompareLoad => compare_load(
            quick,
            quick.op,
            quick.width,
            at,
            regs,
            control,
            mem,
            tlb,
            window,
        ),
        Kind::CompareStore => compare_store(
            quick,
            quick.op,
            quick.width,
            at,
            regs,
            control,
            mem,
            tlb,
            window,
        ),
        Kind::Move => move_over(quick, quick.op, quick.width, at, regs, control, mem, tlb),
        Kind::MoveLoad => move_load(
            quick,
            quick.op,
            quick.width,
            at,
            regs,
            control,
            mem,
            tlb,
            window,
        ),
        Kind::MoveStore => move_store(
            quick,
            quick.op,
            quick.width,
            at,
            regs,
            control,
            mem,
            tlb,
            window,
        ),
        Kind::Branch => branch(quick, quick.op, at, regs, control, mem, tlb),
        Kind::CountDown => count_down(quick, quick.op, at, regs, control, mem, tlb),
        Kind::Push => push(quick, quick.width, at, regs, control, mem, tlb, window),
        Kind::Pop => pop(quick, quick.width, at, regs, control, mem, tlb, window),
        Kind::PushLoad => push_load(quick, at, regs, control, mem, tlb, window),
        Kind::Leave => leave(quick, at, regs, control, mem, tlb, window),
        Kind::BranchLoad => branch_load(quick, at, regs, control, mem, tlb, window),
        Kind::CallLoad => call_load(quick, at, regs, control, mem, tlb, window),
        Kind::ScanBits => scan_bits(quick, at, regs, control, mem, tlb),
        Kind::ScanBitsLoad => scan_bits_load(quick, at, regs, control, mem, tlb, window),
        Kind::Multiply => multiply(quick, at, regs, control, mem, tlb),
        Kind::MultiplyLoad => multiply_load(quick, at, regs, control, mem, tlb, window),
        Kind::Divide => divide(quick, at, regs, control, mem, tlb),
        Kind::DivideLoad => divide_load(quick, at, regs, control, mem, tlb, window),
        Kind::Widen => widen(quick, at, regs, control, mem, tlb),
        Kind::Double => double(quick, at, regs, control, mem, tlb),
        Kind::ChangeFlag => change_flag(quick, at, regs, control, mem, tlb),
        Kind::Nothing => nothing(quick, at, regs, control, mem, tlb),
        Kind::PushFlags => push_flags(quick, at, regs, control, mem, tlb, window),
        Kind::PopFlags => pop_flags(quick, at, regs, control, mem, tlb, window),
        Kind::ClearInterrupts => clear_interrupts(quick, at, regs, control, mem, tlb),
        Kind::FromControl => from_control(quick, at, regs, control, mem, tlb),
        Kind::MoveString => move_string(quick, at, regs, control, mem, tlb, window),
        Kind::StoreString => store_string(quick, at, regs, control, mem, tlb, window),
        Kind::LoadString => load_string(quick, at, regs, control, mem, tlb, window),
        Kind::CompareStrings => compare_strings(quick, at, regs, control, mem, tlb, window),
        Kind::ScanString => scan_string(quick, at, regs, control, mem, tlb, window),
        _ => Went::Left,
    }
}
