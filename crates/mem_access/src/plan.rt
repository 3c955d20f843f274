//! The accesses of an instruction's plan, made in the order of its faults: a fault leaves what comes after it undone.

ghost use Rattle.std.specs.Prelude.{◌≡◌, IfOk, IfSome, length};
ghost use Rattle.nk_bits.specs.Translations.{IsAccessible, NamesFramesIn};
ghost use Rattle.nk_bits.specs.Outcomes.{outcome_of};
ghost use Rattle.page_walk.specs.MemoryAccess.{view_of};
ghost use Rattle.page_walk.specs.AccessPlans.{IsSized, IsSource, IsAccessPlan, IsChecked, FitsSource, checked, taken, gathered};

use crate::access::{check_store, load};
use nk_bits::{AccessFault, Control, Target};
use page_walk::{AccessPlan, Gathered, Origin, Span, SpanFault};
use phys_mem::PhysMem;
use tlb_model::Tlb;

/// Judges the write to an operand in memory, where there is one, and finds the places of its bytes for `commit`.
///
/// Fails as `check_store` does, and tells whether the stack was addressed.
pub fn check_span(
    mem: &PhysMem,
    tlb: &mut Tlb,
    control: &Control,
    cpl: u8,
    span: Option<Span>,
) -> Result<Option<Target>, SpanFault>
    requires width { IsSized span }
    requires context { IsAccessible (length mem.now) control.now.root tlb.old }
    ensures outcome { outcome_of result tlb.new ≡ checked (view_of mem.now control.now cpl) span tlb.old }
    ensures frames { NamesFramesIn (length mem.now) tlb.new }
    ensures places { IfOk result (λ target. IsChecked (length mem.now) span target) }
{
    let Some(span) = span else {
        return Ok(None);
    };
    match check_store(mem, tlb, control, cpl, span.va, span.width) {
        Ok(target) => Ok(Some(target)),
        Err(fault) => Err(marked(&span, fault)),
    }
}

/// Makes the accesses of a plan up to its last check: the check of an operand that is read and written, the first read,
/// the second. The last check is for `check_span`, once the outcome of the instruction is known.
///
/// Fails with the first fault of these accesses; none is made after it.
#[tactic(auto, unfolding(page_walk::specs::AccessPlans::gathered))]
pub fn gather(
    mem: &PhysMem,
    tlb: &mut Tlb,
    control: &Control,
    cpl: u8,
    plan: &AccessPlan,
) -> Result<Gathered, SpanFault>
    requires plan { IsAccessPlan plan.now }
    requires context { IsAccessible (length mem.now) control.now.root tlb.old }
    ensures outcome { outcome_of result tlb.new
        ≡ gathered mem.now (view_of mem.now control.now cpl) plan.now tlb.old }
    ensures frames { NamesFramesIn (length mem.now) tlb.new }
    ensures places { IfOk result (λ found. IsChecked (length mem.now) plan.now.both found.both) }
    ensures to { IfOk result (λ found. FitsSource plan.now.to found.to) }
    ensures from { IfOk result (λ found. FitsSource plan.now.from found.from) }
{
    let both = match check_span(mem, tlb, control, cpl, plan.both) {
        Ok(both) => both,
        Err(fault) => return Err(fault),
    };
    let to = match take(mem, tlb, control, cpl, &plan.to) {
        Ok(to) => to,
        Err(fault) => return Err(fault),
    };
    let from = match take(mem, tlb, control, cpl, &plan.from) {
        Ok(from) => from,
        Err(fault) => return Err(fault),
    };
    Ok(Gathered { both, to, from })
}

/// The value of an operand, which is loaded where it stands in memory.
fn take(
    mem: &PhysMem,
    tlb: &mut Tlb,
    control: &Control,
    cpl: u8,
    source: &Origin,
) -> Result<u64, SpanFault>
    requires width { IsSource source.now }
    requires context { IsAccessible (length mem.now) control.now.root tlb.old }
    ensures outcome { outcome_of result tlb.new
        ≡ taken mem.now (view_of mem.now control.now cpl) source.now tlb.old }
    ensures frames { NamesFramesIn (length mem.now) tlb.new }
    ensures value { IfOk result (λ value. FitsSource source.now value) }
{
    match source {
        Origin::Is(value) => Ok(*value),
        Origin::At(span) => match load(mem, tlb, control, cpl, span.va, span.width) {
            Ok(value) => Ok(value),
            Err(fault) => Err(marked(span, fault)),
        },
    }
}

/// The fault of an access, with whether the stack was addressed.
fn marked(span: &Span, fault: AccessFault) -> SpanFault
    ensures fault { result.fault ≡ fault }
    ensures stack { result.stack ≡ span.now.stack }
{
    SpanFault {
        fault,
        stack: span.stack,
    }
}
