//! The one write of an instruction, to the places that its checks found.

ghost use Rattle.std.specs.Prelude.{◌≡◌, ℕ};
ghost use Rattle.page_walk.specs.AccessPlans.{IsChecked, IsSized};
ghost use Rattle.x86_regs.specs.Effects.{FitsIn, HasAccessSize, write_at, write_of};

use crate::effects::Write;
use nk_bits::Target;
use page_walk::{AccessPlan, Gathered, Span};

/// The write of a value: to the place that was checked last, or to the operand that is read and written.
pub fn write_of(
    plan: &AccessPlan,
    found: &Gathered,
    last: Option<Target>,
    value: u64,
) -> Option<Write>
    ensures write { result ≡ write_of plan.now found.now last value }
    ensures fits { (size : ℕ) → IsChecked size plan.now.both found.now.both
        → IsChecked size plan.now.last last → FitsIn size result }
    ensures sized { IsSized plan.now.both → IsSized plan.now.last → HasAccessSize result }
{
    let other = write_at(plan.both, found.both, value, None);
    write_at(plan.last, last, value, other)
}

fn write_at(
    span: Option<Span>,
    target: Option<Target>,
    value: u64,
    other: Option<Write>,
) -> Option<Write>
    ensures write { result ≡ write_at span target value other }
    ensures fits { (size : ℕ) → IsChecked size span target → FitsIn size other → FitsIn size result }
    ensures sized { IsSized span → HasAccessSize other → HasAccessSize result }
{
    match (span, target) {
        (Some(span), Some(target)) => Some(Write {
            va: span.va,
            width: span.width,
            value,
            target,
        }),
        _ => other,
    }
}
