//! A run at a moment: a machine behind so many of its steps.

ghost use Rattle.std.specs.Prelude.{◌≡◌, ◌+◌, ◌<◌, ◌≤◌, IfSome, false, length};
ghost use Rattle.gate_state.specs.MachineOf.{whole_of};
ghost use Rattle.gate_state.specs.MachineSteps.{move_of, step_by};
ghost use Rattle.run_moments.specs.AdvancedMoments.{AreQuietBetween, IsAdvanced};
ghost use Rattle.run_moments.specs.Moments.{IsInRun, is_over, state_at};

use crate::run::Run;
use gate_state::{Machine, Step, moves_law};
use std::alloc::Global;
use std::marker::Model;

/// A run at a moment.
pub struct Moment<'r> {
    run: &'r Run<'r>,
    machine: Machine<'r>,
    steps: u64,
}

impl<'r> Model for Moment<'r> {
    ghost use Rattle.gate_state.specs.MachineOf.{whole_of};
    ghost use Rattle.run_moments.specs.Moments.{IsMoment, MomentOf};

    ghost Value = { MomentOf };

    ghost view = { λ m. record { run = m.run.now; steps = m.steps } };

    ghost invariant = { λ m. IsMoment m.run.now m.steps (whole_of m.machine) };
}

impl<'r> Moment<'r> {
    /// The run's beginning; None where there is no memory for the machine.
    pub fn begin(alloc: Global, run: &'r Run<'r>) -> Option<Moment<'r>>
        ensures { IfSome result (λ moment. moment ≡ record { run = run.now; steps = 0 }) }
    {
        match run.machine(alloc) {
            Some(machine) => Some(Moment {
                run,
                machine,
                steps: 0,
            }),
            None => None,
        }
    }

    /// How many steps were taken.
    pub fn steps(&self) -> u64
        ensures { result ≡ self.now.steps }
    {
        self.steps
    }

    /// The run.
    pub fn run(&self) -> &'r Run<'r>
        ensures { result.now ≡ self.now.run }
    {
        self.run
    }

    /// The machine, lent for looking.
    pub fn machine(&self) -> &Machine<'r>
        ensures state { (whole_of result.now).state ≡ state_at self.now.run self.now.steps }
        ensures opening { (whole_of result.now).opening ≡ self.now.run.opening }
    {
        &self.machine
    }

    /// Whether the run is over.
    pub fn is_over(&self) -> bool
        ensures { result ≡ is_over self.now.run self.now.steps }
    {
        self.machine.turns() >= self.run.turns() || self.machine.done(self.run.plan())
    }

    /// Ends it.
    pub fn finish(self) {
        let Moment {
            run: _,
            machine,
            steps: _,
        } = self;
        let _finished = machine.finish();
    }

    /// Takes a step, and tells what it was.
    pub fn step(self) -> (Moment<'r>, Step)
        requires going { is_over self.run self.steps ≡ false }
        ensures moment { result.0 ≡ record self.entry { steps = self.entry.steps + 1 } }
        ensures step { let s = state_at self.entry.run self.entry.steps in result.1 ≡ step_by (move_of self.entry.run.plan s) s }
    {
        moves_law();
        let Moment {
            run,
            machine,
            steps,
        } = self;
        let (machine, step) = machine.step(run.plan());
        let moment = Moment {
            run,
            machine,
            steps: steps + 1,
        };
        (moment, step)
    }

    /// Takes quick turns, as long as there are any and fewer than so many were taken in all.
    fn hurry(self, limit: u64) -> Moment<'r>
        requires limit { limit ≤ self.run.turns }
        requires before { (state_at self.run self.steps).turns ≤ limit }
        ensures run { result.run ≡ self.entry.run }
        ensures on { self.entry.steps ≤ result.steps }
        ensures quiet { AreQuietBetween self.entry.run self.entry.steps result.steps }
        ensures within { result.steps + (state_at self.entry.run self.entry.steps).turns ≤ limit + self.entry.steps }
    {
        moves_law();
        let Moment {
            run,
            machine,
            steps,
        } = self;
        let turns = machine.turns();
        let machine = machine.hurry(run.plan(), limit);
        let gone = machine.turns() - turns;
        Moment {
            run,
            machine,
            steps: steps + gone,
        }
    }

    /// Goes on: by quick turns, if there are any and fewer than so many were taken in all, or else by a step, which it tells.
    pub(crate) fn advance(self, limit: u64) -> (Moment<'r>, Option<Step>)
        requires going { is_over self.run self.steps ≡ false }
        requires limit { limit ≤ self.run.turns }
        requires before { (state_at self.run self.steps).turns ≤ limit }
        ensures run { result.0.run ≡ self.entry.run }
        ensures advanced { IsAdvanced self.entry.run limit self.entry.steps result.0.steps result.1 }
    {
        let steps = self.steps;
        let hurried = self.hurry(limit);
        if hurried.steps > steps {
            return (hurried, None);
        }
        let (moment, step) = hurried.step();
        (moment, Some(step))
    }

    /// How many turns were taken: no more than the run may have.
    pub(crate) fn turns(&self) -> u64
        ensures turns { result ≡ (state_at self.now.run self.now.steps).turns }
        ensures within { result ≤ self.now.run.turns }
    {
        self.machine.turns()
    }

    /// What holds at each moment: the run isn't over before it, and each step took a turn or an event.
    pub(crate) fn reached_law(&self)
        ensures reached { IsInRun self.now.run self.now.steps }
        ensures most { self.now.steps ≤ self.now.run.turns + length self.now.run.plan }
    {
        let _steps = self.steps;
    }
}
