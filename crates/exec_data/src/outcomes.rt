//! What each form does with what its accesses read.

ghost use Rattle.std.specs.Prelude.{◌≡◌};
ghost use Rattle.x86_decode.specs.WellFormed.{IsWellFormed};
ghost use Rattle.x86_regs.specs.OperandOutcomes.{data_outcome};

use crate::changes::{
    change_flag, combine, compare, compare_exchange, double, exchange, exchange_add, load_address,
    move_over, quietly, scan_bits, widen,
};
use crate::stack::{leave, pop, push};
use crate::strings::{compare_strings, load_string, move_string, scan_string, store_string};
use crate::wide::{divide_wide, multiply_wide};
use page_walk::Gathered;
use x86_decode::Instr;
use x86_regs::{Change, DataForm, Fault, Regs, going_on};

/// The change that an instruction makes, or its fault, where the next one stands at `next`.
///
/// Fails with #DE for a division that has no answer.
pub(crate) fn data_outcome(
    form: DataForm,
    instr: &Instr,
    next: u64,
    regs: &Regs,
    found: &Gathered,
) -> Result<Change, Fault>
    requires formed { IsWellFormed instr.now }
    ensures { result ≡ data_outcome form instr.now next regs.now found.now }
{
    let (to, from) = (found.to, found.from);
    match form {
        DataForm::Combine => Ok(combine(instr, next, regs, to, from)),
        DataForm::Compare => Ok(compare(instr, next, regs, to, from)),
        DataForm::Move => Ok(move_over(instr, next, regs, from)),
        DataForm::Address => Ok(load_address(instr, next, regs, from)),
        DataForm::Exchange => Ok(exchange(instr, next, regs, to, from)),
        DataForm::ExchangeAdd => Ok(exchange_add(instr, next, regs, to, from)),
        DataForm::CompareExchange => Ok(compare_exchange(instr, next, regs, to, from)),
        DataForm::ScanBits => Ok(scan_bits(instr, next, regs, from)),
        DataForm::Widen => Ok(widen(instr, next, regs)),
        DataForm::Double => Ok(double(instr, next, regs)),
        DataForm::Multiply => Ok(multiply_wide(instr, next, regs, to)),
        DataForm::Divide => divide_wide(instr, next, regs, to),
        DataForm::Push => Ok(push(instr, next, regs, from)),
        DataForm::Pop => Ok(pop(instr, next, regs, to)),
        DataForm::Leave => Ok(leave(next, regs, to)),
        DataForm::MoveString => Ok(move_string(instr, next, regs, from)),
        DataForm::StoreString => Ok(store_string(instr, next, regs)),
        DataForm::LoadString => Ok(load_string(instr, next, regs, from)),
        DataForm::CompareStrings => Ok(compare_strings(instr, next, regs, to, from)),
        DataForm::ScanString => Ok(scan_string(instr, next, regs, from)),
        DataForm::ChangeFlag => Ok(change_flag(instr.op, next, regs)),
        DataForm::Nothing => Ok(quietly(going_on(regs, regs.general, regs.flags, next))),
    }
}
