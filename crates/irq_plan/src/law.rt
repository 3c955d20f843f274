//! What follows from the definition of the plan file.

ghost use Rattle.std.specs.Prelude.{◌≡◌, ℕ, List, Ok};
ghost use Rattle.irq_plan.specs.declared.event.Event.{Event};
ghost use Rattle.irq_plan.specs.PlanFile.{plan_of};
ghost use Rattle.irq_plan.specs.PlannedEvents.{IsPlan};

/// Each event of a file in form is one that a line in form can give, and none is due before an earlier one.
pub fn plan_law()
    ensures { (bytes : List ℕ) (events : List Event) → plan_of bytes ≡ Ok events → IsPlan events }
{}
