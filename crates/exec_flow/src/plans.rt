//! Which accesses an instruction makes: a function of the registers.

ghost use Rattle.std.specs.Prelude.{◌≡◌, None, Some};
ghost use Rattle.nk_bits.specs.Accesses.{IsAccessSize};
ghost use Rattle.page_walk.specs.declared.plan.Origin.TheVariants.{Is};
ghost use Rattle.page_walk.specs.AccessPlans.{IsAccessPlan, IsSized, IsSource};
ghost use Rattle.x86_decode.specs.WellFormed.{IsWellFormed};
ghost use Rattle.x86_regs.specs.OperandPlans.{base_span, flow_plan, from_address, from_source, plan, table_plan, to_source};

use page_walk::{AccessPlan, Origin, Span};
use x86_decode::Instr;
use x86_regs::{
    FlowForm, Regs, from_address, from_source, next_of, place_span, pop_source, push_span,
    to_source,
};

/// The accesses of an instruction of this form, which has this length in bytes.
pub(crate) fn flow_plan(form: FlowForm, instr: &Instr, size: u8, regs: &Regs) -> AccessPlan
    requires formed { IsWellFormed instr.now }
    ensures plan { result ≡ flow_plan form instr.now size regs.now }
    ensures sized { IsAccessPlan result }
{
    match form {
        FlowForm::Branch | FlowForm::ToControl => reading(from_source(instr, size, regs, 64)),
        FlowForm::Call => calling(from_source(instr, size, regs, 64), push_span(regs, 64)),
        FlowForm::Return => popping(pop_source(regs, 64)),
        FlowForm::PushFlags => calling(Origin::Is(0), push_span(regs, instr.width)),
        FlowForm::PopFlags => popping(pop_source(regs, instr.width)),
        FlowForm::Input => reading(from_source(instr, size, regs, 16)),
        FlowForm::Output => reading_both(
            to_source(instr, size, regs, 16),
            from_source(instr, size, regs, 8),
        ),
        FlowForm::LoadTable => table_plan(place_span(
            &regs.general,
            next_of(regs, size),
            16,
            &instr.from,
        )),
        FlowForm::DropPage => reading(Origin::Is(from_address(instr, size, regs))),
        FlowForm::CountDown
        | FlowForm::Trap
        | FlowForm::TrapReturn
        | FlowForm::ChangeInterruptFlag => no_access(),
        FlowForm::Halt | FlowForm::FromControl | FlowForm::Refused => no_access(),
    }
}

fn no_access() -> AccessPlan
    ensures plan { result ≡ plan None (Is 0) (Is 0) None }
    ensures sized { IsAccessPlan result }
{
    reading(Origin::Is(0))
}

/// The second operand is read.
fn reading(from: Origin) -> AccessPlan
    requires { IsSource from }
    ensures plan { result ≡ plan None (Is 0) from None }
    ensures sized { IsAccessPlan result }
{
    reading_both(Origin::Is(0), from)
}

/// The stack is read.
fn popping(to: Origin) -> AccessPlan
    requires { IsSource to }
    ensures plan { result ≡ plan None to (Is 0) None }
    ensures sized { IsAccessPlan result }
{
    reading_both(to, Origin::Is(0))
}

fn reading_both(to: Origin, from: Origin) -> AccessPlan
    requires to { IsSource to }
    requires from { IsSource from }
    ensures plan { result ≡ plan None to from None }
    ensures sized { IsAccessPlan result }
{
    AccessPlan {
        both: None,
        to,
        from,
        last: None,
    }
}

/// The second operand is read, and the stack is written.
fn calling(from: Origin, span: Span) -> AccessPlan
    requires from { IsSource from }
    requires span { IsAccessSize span.width }
    ensures plan { result ≡ plan None (Is 0) from (Some span) }
    ensures sized { IsAccessPlan result }
{
    AccessPlan {
        both: None,
        to: Origin::Is(0),
        from,
        last: Some(span),
    }
}

/// The base of a table stands behind its limit.
fn base_span(limit: Span) -> Span
    ensures span { result ≡ base_span limit }
    ensures sized { IsAccessSize result.width }
{
    Span {
        va: limit.va.wrapping_add(2),
        width: 8,
        stack: limit.stack,
    }
}

/// The limit of a table is read, then its base.
fn table_plan(limit: Option<Span>) -> AccessPlan
    requires { IsSized limit }
    ensures plan { result ≡ table_plan limit }
    ensures sized { IsAccessPlan result }
{
    match limit {
        None => no_access(),
        Some(limit) => reading_both(Origin::At(limit), Origin::At(base_span(limit))),
    }
}
