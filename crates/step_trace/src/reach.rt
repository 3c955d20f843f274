//! The steps before those that are shown.

ghost use Rattle.std.specs.Prelude.{◌≡◌, ◌<◌, ◌≤◌};
ghost use Rattle.gate_state.specs.MachineOf.{whole_of};
ghost use Rattle.step_trace.specs.Traces.{IsFirstReached, is_there};

use gate_state::{Machine, moves_law};
use irq_plan::Plan;

/// Whether so many turns were taken, or no step is left.
pub(crate) fn is_there(machine: &Machine<'_>, plan: &Plan, limit: u64) -> bool
    ensures { result ≡ is_there limit plan.now (whole_of machine.now).state }
{
    machine.turns() >= limit || machine.done(plan)
}

/// Takes the steps before so many turns were taken: quick turns, as far as there are any, and then one by one.
pub(crate) fn go_to<'i>(machine: Machine<'i>, plan: &Plan, limit: u64) -> Machine<'i>
    requires limit { limit ≤ 4294967296 }
    ensures reached { IsFirstReached limit plan.now (whole_of machine.entry).state (whole_of result).state }
    ensures opening { (whole_of result).opening ≡ (whole_of machine.entry).opening }
{
    moves_law();
    let mut machine = machine;
    loop {
        if is_there(&machine, plan, limit) {
            return machine;
        }
        let hurried = machine.hurry(plan, limit);
        if is_there(&hurried, plan, limit) {
            return hurried;
        }
        let (next, _) = hurried.step(plan);
        machine = next;
    }
}
