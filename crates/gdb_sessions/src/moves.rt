//! Where a question asks a debugger to go.

ghost use Rattle.std.specs.Prelude.{◌≡◌, IfSome};
ghost use Rattle.gdb_sessions.specs.Standings.{AreWatches, IsGone, IsSteppedBack, IsSteppedOn};

use gdb_questions::{Order, Question};
use run_moments::{Moment, Stop, Stops};
use std::alloc::Global;

/// One step on, unless the run is over.
fn step_on(moment: Moment<'_>) -> (Moment<'_>, Stop)
    ensures { IsSteppedOn moment.entry result.0 result.1 }
{
    if moment.is_over() {
        return (moment, Stop::Ended);
    }
    let (next, _) = moment.step();
    (next, Stop::Stepped)
}

/// One step back, unless it is the beginning. None where there is no memory for that.
fn step_back(alloc: Global, moment: Moment<'_>) -> Option<(Moment<'_>, Stop)>
    ensures { IfSome result (λ it. IsSteppedBack moment.entry it.0 it.1) }
{
    let steps = moment.steps();
    if steps == 0 {
        return Some((moment, Stop::Begun));
    }
    match moment.go_to(alloc, steps - 1) {
        Some(next) => Some((next, Stop::Stepped)),
        None => None,
    }
}

/// Goes from a moment to where a question asks one to go, and tells why it stands there. None where there is no memory for
/// that, and then the moment is gone.
pub(crate) fn go<'r>(
    alloc: Global,
    moment: Moment<'r>,
    stops: &Stops,
    why: Stop,
    question: &Question,
) -> Option<(Moment<'r>, Stop)>
    requires { AreWatches stops.now.watches.items }
    ensures { IfSome result (λ it. IsGone question.now stops.now moment.entry why it.0 it.1) }
{
    match question {
        Question::StepOn => Some(step_on(moment)),
        Question::StepBack => step_back(alloc, moment),
        Question::GoOn => moment.go_ahead(alloc, stops),
        Question::GoBack => moment.go_back(alloc, stops),
        Question::Monitor(Order::GoToTurn(turns)) => match moment.go_to_turn(alloc, *turns) {
            Some(next) => Some((next, Stop::Stepped)),
            None => None,
        },
        Question::Monitor(Order::GoToStep(steps)) => match moment.go_to(alloc, *steps) {
            Some(next) => Some((next, Stop::Stepped)),
            None => None,
        },
        _ => Some((moment, why)),
    }
}
