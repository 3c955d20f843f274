//! The machine in one of its three states.

ghost use Rattle.std.specs.Prelude.{◌≡◌, ◌<◌, false, length, ◌*◌};
ghost use Rattle.cpu_step.specs.Processor.{IsSound};
ghost use Rattle.cpu_step.specs.Turns.{enters_body};
ghost use Rattle.phys_mem.specs.MaskedMemory.{seen};
ghost use Rattle.page_desc.specs.DescriptorBytes.{kinds_in};
ghost use Rattle.nk_body.specs.CallRules.{Sourced, bytes_read};
ghost use Rattle.nk_body.specs.NestedRecord.{HoldsBooks, books_in};
ghost use Rattle.nk_body.specs.SourceWords.{sourced_of};
ghost use Rattle.gate_state.specs.MachineOf.{IsOf, real_of, whole_of};
ghost use Rattle.gate_state.specs.MachineSteps.{move_of, seen_by, step_by, took_by};
ghost use Rattle.gate_state.specs.QuietSteps.{IsHurried};
ghost use Rattle.gate_state.specs.SafeStates.{IsSafe};
ghost use Rattle.gate_state.specs.declared.seen.Step.TheVariants as told;
ghost use Rattle.gate_state.specs.StepsTouched.{KeepsOutside, ShowsWithin, touched_by_move, touched_if_shown};
ghost use Rattle.gate_state.specs.WholeMachine.{is_rest, known_of, next_whole, stepped_whole};

use crate::gate::GateMachine;
use crate::nested::NestedMachine;
use crate::outer::OuterMachine;
use crate::seen::{Seen, Step, Took};
use crate::source::sourced;
use crate::touched::StepTouched;
use crate::whole::{Finished, Whole};
use cpu_step::Cpu;
use irq_plan::Plan;
use nk_body::Source;
use phys_mem::PhysMem;

/// The machine between two steps, by what its supervisor may write: with WP set, with WP clear in the gates, and with WP
/// clear at the nested kernel's body.
pub enum Machine<'i> {
    Outer(OuterMachine<'i>),
    Gate(GateMachine<'i>),
    Nested(NestedMachine<'i>),
}

impl<'i> Machine<'i> {
    /// Whether the machine rests for good. In the gates it never does.
    pub fn done(&self, plan: &Plan) -> bool
        ensures done { result ≡ is_rest (move_of plan.now (whole_of self.now).state) }
        ensures sorted { IsOf self.now }
    {
        match self {
            Machine::Outer(machine) => machine.done(plan),
            Machine::Gate(machine) => machine.done(plan),
            Machine::Nested(machine) => machine.done(plan),
        }
    }

    /// Goes on by quick turns, if there are any: steps that show nothing, each from a safe state, until the plan's next event
    /// is due or so many turns were taken in all. At the nested kernel's body there are none.
    pub fn hurry(self, plan: &Plan, limit: u64) -> Machine<'i>
        ensures hurried { IsHurried plan.now limit (whole_of self.entry) (whole_of result) }
        ensures sorted { IsOf result }
    {
        match self {
            Machine::Outer(machine) => Machine::Outer(machine.hurry(plan, limit)),
            Machine::Gate(machine) => machine.hurry(plan, limit),
            Machine::Nested(machine) => {
                machine.at_body_law();
                Machine::Nested(machine)
            }
        }
    }

    /// The step from this state, with what it shows: none where the machine rests for good, and then it stays as it was.
    pub fn step(self, plan: &Plan) -> (Machine<'i>, Step)
        requires turns { (whole_of self).state.turns < 4294967296 }
        ensures next { whole_of result.0 ≡ stepped_whole plan.now (whole_of self.entry) }
        ensures step { result.1 ≡ step_by (move_of plan.now (whole_of self.entry).state) (whole_of self.entry).state }
        ensures safe { IsSafe (whole_of self.entry).opening (whole_of self.entry).state }
        ensures sorted { IsOf result.0 }
    {
        let (machine, step, _) = self.step_touching(plan);
        (machine, step)
    }

    /// The step from this state, with what it shows, and the frames that it may have changed: every byte of memory
    /// outside them is as it was.
    pub fn step_touching(self, plan: &Plan) -> (Machine<'i>, Step, StepTouched)
        requires turns { (whole_of self).state.turns < 4294967296 }
        ensures next { whole_of result.0 ≡ stepped_whole plan.now (whole_of self.entry) }
        ensures step { result.1 ≡ step_by (move_of plan.now (whole_of self.entry).state) (whole_of self.entry).state }
        ensures safe { IsSafe (whole_of self.entry).opening (whole_of self.entry).state }
        ensures sorted { IsOf result.0 }
        ensures touched { KeepsOutside result.2 (real_of self.entry) (real_of result.0) }
        ensures told { result.2 ≡ touched_by_move (move_of plan.now (whole_of self.entry).state)
            (whole_of self.entry).state (real_of self.entry) }
        ensures shown { ShowsWithin result.1 result.2 (touched_if_shown (whole_of self.entry).state (real_of self.entry)) }
    {
        match self {
            Machine::Outer(machine) => step_outer(machine, plan),
            Machine::Gate(machine) => step_gate(machine, plan),
            Machine::Nested(machine) => step_nested(machine, plan),
        }
    }

    /// What the step from this state may change of memory, if it shows something.
    pub fn touches_if_shown(&self) -> StepTouched
        ensures { result ≡ touched_if_shown (whole_of self.now).state (real_of self.now) }
    {
        self.whole().touches_if_shown()
    }

    /// What a call took that was the last step, with the bytes that were read for it.
    pub fn source(&self, took: Took) -> Source<'_>
        ensures { (source : Sourced) → took ≡ took_by source → (whole_of self.now).source ≡ bytes_read source
            → sourced_of result ≡ source }
    {
        match self {
            Machine::Outer(machine) => sourced(took, machine.source()),
            Machine::Gate(machine) => sourced(took, machine.source()),
            Machine::Nested(machine) => sourced(took, machine.source()),
        }
    }

    /// The processor, lent for looking.
    pub fn processor(&self) -> &Cpu
        ensures processor { result.now ≡ (whole_of self.now).state.processor }
        ensures sound { IsSound (length (whole_of self.now).state.memory) result.now }
    {
        self.whole().processor()
    }

    /// Memory, lent for looking, with what the nested kernel hides in it.
    pub fn memory(&self) -> &PhysMem
        ensures seen { seen result.now ≡ (whole_of self.now).state.memory }
        ensures length { length result.now ≡ length (whole_of self.now).state.memory }
        ensures size { length result.now ≡ 4096 * (whole_of self.now).opening.frames }
        ensures real { result.now ≡ real_of self.now }
    {
        self.whole().memory()
    }

    /// What the three states share.
    pub(crate) fn whole(&self) -> &Whole<'i>
        ensures whole { known_of result.now ≡ whole_of self.now }
        ensures real { result.now.real ≡ real_of self.now }
    {
        match self {
            Machine::Outer(machine) => &machine.whole,
            Machine::Gate(machine) => &machine.whole,
            Machine::Nested(machine) => &machine.whole,
        }
    }

    /// How many turns were taken.
    pub fn turns(&self) -> u64
        ensures { result ≡ (whole_of self.now).state.turns }
    {
        match self {
            Machine::Outer(machine) => machine.turns(),
            Machine::Gate(machine) => machine.turns(),
            Machine::Nested(machine) => machine.turns(),
        }
    }

    /// How many events of the plan were taken.
    pub fn taken(&self) -> usize
        ensures { result ≡ (whole_of self.now).state.taken }
    {
        self.whole().taken
    }

    /// Memory as it is and what is kept beside it, at any moment of a run: memory holds the books.
    pub fn finish(self) -> Finished
        ensures memory { seen result.mem ≡ (whole_of self.entry).state.memory }
        ensures real { result.mem ≡ real_of self.entry }
        ensures size { length result.mem ≡ 4096 * (whole_of self.entry).opening.frames }
        ensures kinds { kinds_in result.mem ≡ (whole_of self.entry).state.kinds }
        ensures root { result.kernel.root ≡ (whole_of self.entry).state.processor.control.root }
        ensures ledger { (books_in result.kernel result.mem).ledger ≡ (whole_of self.entry).state.ledger }
        ensures books { HoldsBooks result.kernel result.mem }
        ensures safe { IsSafe (whole_of self.entry).opening (whole_of self.entry).state }
        ensures sorted { IsOf self.entry }
    {
        match self {
            Machine::Outer(machine) => machine.finish(),
            Machine::Gate(machine) => machine.finish(),
            Machine::Nested(machine) => machine.finish(),
        }
    }
}

/// The state that the machine is in.
pub(crate) fn sorted<'i>(whole: Box<Whole<'i>>) -> Machine<'i>
    ensures whole { whole_of result ≡ known_of whole.entry.value }
    ensures real { real_of result ≡ whole.entry.value.real }
    ensures sorted { IsOf result }
{
    if whole.keeps_supervisor() {
        whole.outer_law();
        Machine::Outer(OuterMachine { whole })
    } else if whole.is_at_body() {
        whole.at_body_law();
        Machine::Nested(NestedMachine { whole })
    } else {
        whole.in_gates_law();
        Machine::Gate(GateMachine { whole })
    }
}

/// The step of the outer kernel's machine, with what it shows, unless it rests for good.
fn step_outer<'i>(machine: OuterMachine<'i>, plan: &Plan) -> (Machine<'i>, Step, StepTouched)
    requires turns { machine.state.turns < 4294967296 }
    ensures next { whole_of result.0 ≡ stepped_whole plan.now (known_of machine.entry) }
    ensures step { result.1 ≡ step_by (move_of plan.now machine.entry.state) machine.entry.state }
    ensures safe { IsSafe machine.entry.opening machine.entry.state }
    ensures sorted { IsOf result.0 }
    ensures touched { KeepsOutside result.2 machine.entry.real (real_of result.0) }
    ensures told { result.2 ≡ touched_by_move (move_of plan.now machine.entry.state) machine.entry.state
        machine.entry.real }
    ensures shown { ShowsWithin result.1 result.2 (touched_if_shown machine.entry.state machine.entry.real) }
{
    if machine.done(plan) {
        machine.whole.safe_law();
        return (Machine::Outer(machine), Step::Rested, StepTouched::Nothing);
    }
    let (next, seen, touched) = machine.step_touching(plan);
    (next, Step::Seen(seen), touched)
}

/// The step of the machine in the gates, with what it shows.
fn step_gate<'i>(machine: GateMachine<'i>, plan: &Plan) -> (Machine<'i>, Step, StepTouched)
    requires turns { machine.state.turns < 4294967296 }
    ensures next { whole_of result.0 ≡ stepped_whole plan.now (known_of machine.entry) }
    ensures step { result.1 ≡ step_by (move_of plan.now machine.entry.state) machine.entry.state }
    ensures safe { IsSafe machine.entry.opening machine.entry.state }
    ensures sorted { IsOf result.0 }
    ensures touched { KeepsOutside result.2 machine.entry.real (real_of result.0) }
    ensures told { result.2 ≡ touched_by_move (move_of plan.now machine.entry.state) machine.entry.state
        machine.entry.real }
    ensures shown { ShowsWithin result.1 result.2 (touched_if_shown machine.entry.state machine.entry.real) }
{
    let (next, seen, touched) = machine.step_touching(plan);
    (next, Step::Seen(seen), touched)
}

/// The body, as a step, with what it shows.
fn step_nested<'i>(machine: NestedMachine<'i>, plan: &Plan) -> (Machine<'i>, Step, StepTouched)
    requires turns { machine.state.turns < 4294967296 }
    ensures next { whole_of result.0 ≡ stepped_whole plan.now (known_of machine.entry) }
    ensures step { result.1 ≡ step_by (move_of plan.now machine.entry.state) machine.entry.state }
    ensures safe { IsSafe machine.entry.opening machine.entry.state }
    ensures sorted { IsOf result.0 }
    ensures touched { KeepsOutside result.2 machine.entry.real (real_of result.0) }
    ensures told { result.2 ≡ touched_by_move (move_of plan.now machine.entry.state) machine.entry.state
        machine.entry.real }
    ensures shown { ShowsWithin result.1 result.2 (touched_if_shown machine.entry.state machine.entry.real) }
{
    let (next, called, touched) = machine.serve_touching();
    (Machine::Gate(next), Step::Called(called), touched)
}

/// The step of a machine that doesn't rest and at which no body is to run, with what it shows, and the frames that it may
/// have changed.
pub(crate) fn step<'i>(whole: Box<Whole<'i>>, plan: &Plan) -> (Machine<'i>, Seen, StepTouched)
    requires no_body { enters_body whole.value.state.processor ≡ false }
    requires left { is_rest (move_of plan.now whole.value.state) ≡ false }
    requires turns { whole.value.state.turns < 4294967296 }
    ensures next { whole_of result.0 ≡ next_whole plan.now (known_of whole.entry.value) }
    ensures seen { result.1 ≡ seen_by (move_of plan.now whole.entry.value.state) whole.entry.value.state }
    ensures safe { IsSafe whole.entry.value.opening whole.entry.value.state }
    ensures sorted { IsOf result.0 }
    ensures touched { KeepsOutside result.2 whole.entry.value.real (real_of result.0) }
    ensures told { result.2 ≡ touched_by_move (move_of plan.now whole.entry.value.state) whole.entry.value.state
        whole.entry.value.real }
    ensures shown { ShowsWithin (told.Seen result.1) result.2 (touched_if_shown whole.entry.value.state whole.entry.value.real) }
{
    whole.safe_law();
    let mut whole = whole;
    let (seen, touched) = whole.advance(plan);
    (sorted(whole), seen, touched)
}
