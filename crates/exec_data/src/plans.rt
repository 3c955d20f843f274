//! Which accesses each form makes: a function of the registers alone.

ghost use Rattle.std.specs.Prelude.{◌≡◌, None, Some, slice_index};
ghost use Rattle.decode_fields.specs.Widths.{IsWidth};
ghost use Rattle.page_walk.specs.declared.plan.Origin.TheVariants.{Is, At};
ghost use Rattle.page_walk.specs.AccessPlans.{IsAccessPlan, IsSized, IsSource};
ghost use Rattle.nk_bits.specs.Accesses.{IsAccessSize};
ghost use Rattle.x86_decode.specs.WellFormed.{IsWellFormed};
ghost use Rattle.x86_regs.specs.Combinations.{source_width};
ghost use Rattle.x86_regs.specs.Operands.{next_of, place_span, stack_span};
ghost use Rattle.x86_regs.specs.OperandPlans.{data_plan, from_address, from_source, is_idle, no_access, plan, pop_source, push_span, rdi_span, risen, rsi_span, to_source, to_span, unless_idle};

use crate::strings::is_idle;
use page_walk::{AccessPlan, Origin, Span};
use x86_decode::Instr;
use x86_regs::{
    DataForm, RBP, RDI, RSI, Regs, from_address, from_source, next_of, place_span, pop_source,
    push_span, risen, source_width, stack_span, string_span, to_source,
};

/// The bytes of the first operand.
fn to_span(instr: &Instr, size: u8, regs: &Regs) -> Option<Span>
    requires { IsWellFormed instr.now }
    ensures span { result ≡ to_span instr.now size regs.now }
    ensures size { IsSized result }
{
    place_span(&regs.general, next_of(regs, size), instr.width, &instr.to)
}

fn rsi_span(instr: &Instr, regs: &Regs) -> Span
    requires { IsWellFormed instr.now }
    ensures span { result ≡ rsi_span instr.now regs.now }
    ensures size { IsAccessSize result.width }
{
    string_span(regs.general[RSI as usize], instr.width)
}

fn rdi_span(instr: &Instr, regs: &Regs) -> Span
    requires { IsWellFormed instr.now }
    ensures span { result ≡ rdi_span instr.now regs.now }
    ensures size { IsAccessSize result.width }
{
    string_span(regs.general[RDI as usize], instr.width)
}

/// Reads alone.
fn reads(to: Origin, from: Origin) -> AccessPlan
    requires to { IsSource to }
    requires from { IsSource from }
    ensures plan { result ≡ plan None to from None }
    ensures sized { IsAccessPlan result }
{
    AccessPlan {
        both: None,
        to,
        from,
        last: None,
    }
}

fn no_access() -> AccessPlan
    ensures plan { result ≡ no_access }
    ensures sized { IsAccessPlan result }
{
    reads(Origin::Is(0), Origin::Is(0))
}

/// The first operand is read and written, the second is read at this width in bits.
fn read_and_written(instr: &Instr, size: u8, regs: &Regs, width: u8) -> AccessPlan
    requires formed { IsWellFormed instr.now }
    requires width { IsWidth width }
    ensures plan { result ≡ plan (to_span instr.now size regs.now)
        (to_source instr.now size regs.now instr.now.width) (from_source instr.now size regs.now width) None }
    ensures sized { IsAccessPlan result }
{
    AccessPlan {
        both: to_span(instr, size, regs),
        to: to_source(instr, size, regs, instr.width),
        from: from_source(instr, size, regs, width),
        last: None,
    }
}

fn read_to_write(from: Origin, last: Option<Span>) -> AccessPlan
    requires from { IsSource from }
    requires last { IsSized last }
    ensures plan { result ≡ plan None (Is 0) from last }
    ensures sized { IsAccessPlan result }
{
    AccessPlan {
        both: None,
        to: Origin::Is(0),
        from,
        last,
    }
}

fn compare_plan(instr: &Instr, size: u8, regs: &Regs) -> AccessPlan
    requires { IsWellFormed instr.now }
    ensures plan { result ≡ plan None (to_source instr.now size regs.now instr.now.width)
        (from_source instr.now size regs.now instr.now.width) None }
    ensures sized { IsAccessPlan result }
{
    let to = to_source(instr, size, regs, instr.width);
    let from = from_source(instr, size, regs, instr.width);
    reads(to, from)
}

fn move_plan(instr: &Instr, size: u8, regs: &Regs) -> AccessPlan
    requires { IsWellFormed instr.now }
    ensures plan { result ≡ plan None (Is 0)
        (from_source instr.now size regs.now (source_width instr.now.op instr.now.width))
        (to_span instr.now size regs.now) }
    ensures sized { IsAccessPlan result }
{
    let from = from_source(instr, size, regs, source_width(instr.op, instr.width));
    read_to_write(from, to_span(instr, size, regs))
}

fn address_plan(instr: &Instr, size: u8, regs: &Regs) -> AccessPlan
    requires { IsWellFormed instr.now }
    ensures plan { result ≡ plan None (Is 0) (Is (from_address instr.now size regs.now)) None }
    ensures sized { IsAccessPlan result }
{
    let address = from_address(instr, size, regs);
    reads(Origin::Is(0), Origin::Is(address))
}

fn push_plan(instr: &Instr, size: u8, regs: &Regs) -> AccessPlan
    requires { IsWellFormed instr.now }
    ensures plan { result ≡ plan None (Is 0) (from_source instr.now size regs.now instr.now.width)
        (Some (push_span regs.now instr.now.width)) }
    ensures sized { IsAccessPlan result }
{
    let from = from_source(instr, size, regs, instr.width);
    read_to_write(from, Some(push_span(regs, instr.width)))
}

/// The address of the first operand is computed after RSP rose.
fn pop_plan(instr: &Instr, size: u8, regs: &Regs) -> AccessPlan
    requires { IsWellFormed instr.now }
    ensures plan { result ≡ plan None (pop_source regs.now instr.now.width) (Is 0)
        (place_span (risen regs.now instr.now.width) (next_of regs.now size) instr.now.width instr.now.to) }
    ensures sized { IsAccessPlan result }
{
    AccessPlan {
        both: None,
        to: pop_source(regs, instr.width),
        from: Origin::Is(0),
        last: place_span(
            &risen(regs, instr.width),
            next_of(regs, size),
            instr.width,
            &instr.to,
        ),
    }
}

fn leave_plan(regs: &Regs) -> AccessPlan
    ensures plan { result ≡ plan None (At (stack_span (slice_index regs.now.general 5) 64)) (Is 0) None }
    ensures sized { IsAccessPlan result }
{
    reads(
        Origin::At(stack_span(regs.general[RBP as usize], 64)),
        Origin::Is(0),
    )
}

/// The accesses of a string instruction, unless its count is 0.
fn unless_idle(instr: &Instr, regs: &Regs, accesses: AccessPlan) -> AccessPlan
    requires { IsAccessPlan accesses }
    ensures plan { result ≡ unless_idle instr.now regs.now accesses }
    ensures sized { IsAccessPlan result }
{
    if is_idle(instr, regs) {
        no_access()
    } else {
        accesses
    }
}

fn move_string_plan(instr: &Instr, regs: &Regs) -> AccessPlan
    requires { IsWellFormed instr.now }
    ensures plan { result ≡ unless_idle instr.now regs.now
        (plan None (Is 0) (At (rsi_span instr.now regs.now)) (Some (rdi_span instr.now regs.now))) }
    ensures sized { IsAccessPlan result }
{
    let accesses = read_to_write(
        Origin::At(rsi_span(instr, regs)),
        Some(rdi_span(instr, regs)),
    );
    unless_idle(instr, regs, accesses)
}

fn store_string_plan(instr: &Instr, regs: &Regs) -> AccessPlan
    requires { IsWellFormed instr.now }
    ensures plan { result ≡ unless_idle instr.now regs.now
        (plan None (Is 0) (Is 0) (Some (rdi_span instr.now regs.now))) }
    ensures sized { IsAccessPlan result }
{
    let accesses = read_to_write(Origin::Is(0), Some(rdi_span(instr, regs)));
    unless_idle(instr, regs, accesses)
}

fn load_string_plan(instr: &Instr, regs: &Regs) -> AccessPlan
    requires { IsWellFormed instr.now }
    ensures plan { result ≡ unless_idle instr.now regs.now
        (plan None (Is 0) (At (rsi_span instr.now regs.now)) None) }
    ensures sized { IsAccessPlan result }
{
    let accesses = reads(Origin::Is(0), Origin::At(rsi_span(instr, regs)));
    unless_idle(instr, regs, accesses)
}

fn compare_strings_plan(instr: &Instr, regs: &Regs) -> AccessPlan
    requires { IsWellFormed instr.now }
    ensures plan { result ≡ unless_idle instr.now regs.now
        (plan None (At (rsi_span instr.now regs.now)) (At (rdi_span instr.now regs.now)) None) }
    ensures sized { IsAccessPlan result }
{
    let accesses = reads(
        Origin::At(rsi_span(instr, regs)),
        Origin::At(rdi_span(instr, regs)),
    );
    unless_idle(instr, regs, accesses)
}

fn scan_string_plan(instr: &Instr, regs: &Regs) -> AccessPlan
    requires { IsWellFormed instr.now }
    ensures plan { result ≡ unless_idle instr.now regs.now
        (plan None (Is 0) (At (rdi_span instr.now regs.now)) None) }
    ensures sized { IsAccessPlan result }
{
    let accesses = reads(Origin::Is(0), Origin::At(rdi_span(instr, regs)));
    unless_idle(instr, regs, accesses)
}

/// The accesses of an instruction of `size` bytes.
pub(crate) fn data_plan(form: DataForm, instr: &Instr, size: u8, regs: &Regs) -> AccessPlan
    requires formed { IsWellFormed instr.now }
    ensures plan { result ≡ data_plan form instr.now size regs.now }
    ensures sized { IsAccessPlan result }
{
    match form {
        DataForm::Combine => read_and_written(
            instr,
            size,
            regs,
            source_width(instr.op, instr.width),
        ),
        DataForm::Exchange | DataForm::ExchangeAdd | DataForm::CompareExchange => {
            read_and_written(instr, size, regs, instr.width)
        }
        DataForm::Compare => compare_plan(instr, size, regs),
        DataForm::Move => move_plan(instr, size, regs),
        DataForm::Address => address_plan(instr, size, regs),
        DataForm::ScanBits => reads(Origin::Is(0), from_source(instr, size, regs, instr.width)),
        DataForm::Multiply | DataForm::Divide => reads(
            to_source(instr, size, regs, instr.width),
            Origin::Is(0),
        ),
        DataForm::Push => push_plan(instr, size, regs),
        DataForm::Pop => pop_plan(instr, size, regs),
        DataForm::Leave => leave_plan(regs),
        DataForm::MoveString => move_string_plan(instr, regs),
        DataForm::StoreString => store_string_plan(instr, regs),
        DataForm::LoadString => load_string_plan(instr, regs),
        DataForm::CompareStrings => compare_strings_plan(instr, regs),
        DataForm::ScanString => scan_string_plan(instr, regs),
        DataForm::Widen | DataForm::Double | DataForm::ChangeFlag | DataForm::Nothing =>
            no_access(),
    }
}
