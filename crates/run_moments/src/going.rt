//! The way to a moment of a run: forwards from another, or from the beginning.

ghost use Rattle.std.specs.Prelude.{◌≡◌, ℕ, ◌+◌, ◌<◌, ◌≤◌, IfSome, false, length};
ghost use Rattle.run_moments.specs.Moments.{IsComeBehind, IsFirstBehind, is_over, state_at};

use crate::moment::Moment;
use gate_state::moves_law;
use std::alloc::Global;

/// How many turns there may be in all, so that no more steps than these are taken by quick turns.
pub(crate) fn limit_for(moment: &Moment<'_>, left: u64) -> u64
    ensures most { result ≤ moment.now.run.turns }
    ensures least { (state_at moment.now.run moment.now.steps).turns ≤ result }
    ensures left { result ≤ (state_at moment.now.run moment.now.steps).turns + left }
{
    let turns = moment.turns();
    turns + left.min(moment.run().turns() - turns)
}

/// Goes on by at most so many steps, and by one at least.
fn come_on<'r>(moment: Moment<'r>, left: u64) -> Moment<'r>
    requires going { is_over moment.run moment.steps ≡ false }
    requires left { 0 < left }
    ensures run { result.run ≡ moment.entry.run }
    ensures on { moment.entry.steps < result.steps }
    ensures within { result.steps ≤ moment.entry.steps + left }
    ensures most { result.steps ≤ moment.entry.run.turns + length moment.entry.run.plan }
{
    let limit = limit_for(&moment, left);
    let (next, _) = moment.advance(limit);
    next.reached_law();
    next
}

/// Goes on to the moment behind so many steps, or to the run's end.
fn go_on<'r>(moment: Moment<'r>, steps: u64) -> Moment<'r>
    requires { moment.steps ≤ steps }
    ensures run { result.run ≡ moment.entry.run }
    ensures behind { IsComeBehind moment.entry.run steps result.steps }
{
    let mut moment = moment;
    loop {
        moment.reached_law();
        let done = moment.steps();
        if done == steps {
            return moment;
        }
        if moment.is_over() {
            return moment;
        }
        moment = come_on(moment, steps - done);
    }
}

/// Goes on to the first moment at which so many turns were taken, or to the run's end.
fn go_through<'r>(moment: Moment<'r>, turns: u64) -> Moment<'r>
    requires { (k : ℕ) → k < moment.steps → (state_at moment.run k).turns < turns }
    ensures run { result.run ≡ moment.entry.run }
    ensures behind { IsFirstBehind moment.entry.run turns result.steps }
{
    moves_law();
    let mut moment = moment;
    loop {
        moment.reached_law();
        let taken = moment.turns();
        if taken >= turns {
            return moment;
        }
        if moment.is_over() {
            return moment;
        }
        moment = come_on(moment, turns - taken);
    }
}

/// The beginning of a moment's run. The moment's machine is ended before, so that there is memory for one at a time.
pub(crate) fn begin_anew<'r>(moment: Moment<'r>, alloc: Global) -> Option<Moment<'r>>
    ensures { IfSome result (λ it. (it.run ≡ moment.entry.run) × (it.steps ≡ 0)) }
{
    let run = moment.run();
    moment.finish();
    Moment::begin(alloc, run)
}

impl<'r> Moment<'r> {
    /// Goes to the moment behind so many steps, or to the run's end where it is over before: forwards, or from a new
    /// beginning where it lies behind. None where there is no memory for that.
    pub fn go_to(self, alloc: Global, steps: u64) -> Option<Moment<'r>>
        ensures run { IfSome result (λ it. it.run ≡ self.entry.run) }
        ensures behind { IfSome result (λ it. IsComeBehind self.entry.run steps it.steps) }
    {
        if self.steps() <= steps {
            return Some(go_on(self, steps));
        }
        match begin_anew(self, alloc) {
            Some(moment) => Some(go_on(moment, steps)),
            None => None,
        }
    }

    /// Goes to the first moment at which so many turns were taken, or to the run's end where they never are: forwards, or
    /// from a new beginning. None where there is no memory for that.
    pub fn go_to_turn(self, alloc: Global, turns: u64) -> Option<Moment<'r>>
        ensures run { IfSome result (λ it. it.run ≡ self.entry.run) }
        ensures behind { IfSome result (λ it. IsFirstBehind self.entry.run turns it.steps) }
    {
        moves_law();
        if self.turns() < turns {
            return Some(go_through(self, turns));
        }
        match begin_anew(self, alloc) {
            Some(moment) => Some(go_through(moment, turns)),
            None => None,
        }
    }
}
