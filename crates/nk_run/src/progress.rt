//! How a run goes on: the machine's quick turns and a step behind them, or the run's end.
ghost use Rattle.std.specs.Prelude.{◌≤◌};
ghost use Rattle.gate_state.specs.MachineOf.{whole_of};
ghost use Rattle.nk_run.specs.RunProgress.{GoesOn};

use crate::ending::Ending;
use gate_state::{Machine, Step};
use irq_plan::Plan;

/// How a run goes on from a state.
pub(crate) enum Progress<'i> {
    /// It ends behind the quick turns.
    Ends(Machine<'i>, Ending),
    /// A step was taken behind the quick turns.
    Goes(Machine<'i>, Step),
}

/// Takes the quick turns from a state on, and a step behind them, unless the run ends there.
pub(crate) fn go_on<'i>(machine: Machine<'i>, plan: &Plan, steps: u64) -> Progress<'i>
    requires steps { steps ≤ 4294967296 }
    requires within { (whole_of machine).state.turns ≤ steps }
    ensures { GoesOn steps plan.now (whole_of machine.entry) result }
{
    let hurried = machine.hurry(plan, steps);
    if hurried.turns() == steps {
        return Progress::Ends(hurried, Ending::Steps);
    }
    let (next, step) = hurried.step(plan);
    match step {
        Step::Rested => Progress::Ends(next, Ending::Halted),
        Step::Seen(_) | Step::Called(_) => Progress::Goes(next, step),
    }
}
