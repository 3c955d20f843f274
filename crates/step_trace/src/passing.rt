//! The steps of a trace that is kept to deliveries, calls, events or bytes of the console: those between are passed over, by
//! quick turns as far as there are any.

ghost use Rattle.std.specs.Prelude.{◌≡◌, ◌<◌, ◌≤◌, ◌*◌, ℕ, None, true, false, length, OnOk, IfOk};
ghost use Rattle.phys_mem.specs.MaskedMemory.{seen};
ghost use Rattle.gate_state.specs.MachineOf.{IsOf, real_of, whole_of};
ghost use Rattle.gate_state.specs.StepsTouched.{touched_if_shown};
ghost use Rattle.gate_state.specs.WholeMachine.{HeldState};
ghost use Rattle.step_trace.specs.CopiesOfMemory.{AgreesIn, IsCopyFor};
ghost use Rattle.step_trace.specs.PassedSteps.{ArePassed, IsLookedAt, IsPassedBy, IsSilentFrom, IsStepFrom, passes};
ghost use Rattle.step_trace.specs.RestsOfTraces.{IsRestTaken, head_text, held_of};
ghost use Rattle.step_trace.specs.ToldSteps.{IsHere};
ghost use Rattle.step_trace.specs.Traces.{ending_before, ending_behind, is_past};

use crate::asked::{Kind, Shown};
use crate::ends::{TraceEnd, TraceFault, end, stop};
use crate::kept::kept_of;
use crate::memory::settle_in;
use crate::steps::{end_before, is_at};
use crate::telling::{Here, are_kinds, begin_line, tell};
use gate_state::{Machine, Step, StepTouched, moves_law, turns_law};
use irq_plan::Plan;
use nk_host::Sink;
use phys_mem::{PhysMem, mask_law};
use std::alloc::{AllocError, Global};

/// Whether no turn is shown that shows nothing.
pub(crate) fn passes(only: Option<Kind>) -> bool
    ensures { result ≡ passes only }
{
    matches!(
        only,
        Some(Kind::Call | Kind::Delivery | Kind::Event | Kind::Console)
    )
}

/// How many turns there may be in all before a state is looked at.
fn look_at(turns: u64, shown: &Shown, steps: u64) -> u64
    requires steps { steps ≤ 4294967296 }
    requires below { turns < steps }
    requires inside { is_past shown.now.to turns ≡ false }
    ensures { IsLookedAt shown.now steps turns result }
{
    if !shown.until.is_empty() {
        return turns + 1;
    }
    match shown.to {
        Some(to) => steps.min(to.saturating_add(1)),
        None => steps,
    }
}

/// Why the trace ends behind a step, if it does.
fn end_behind(machine: &Machine<'_>, plan: &Plan, shown: &Shown, steps: u64) -> Option<TraceEnd>
    ensures { result ≡ ending_behind shown.now steps plan.now (whole_of machine.now).state }
{
    if is_at(machine, shown) {
        return Some(TraceEnd::Until);
    }
    end_before(machine, plan, shown, steps)
}

/// What holds of a machine: its state has the invariant, with memory of which it sees all but the books.
fn standing_law(machine: &Machine<'_>, plan: &Plan)
    ensures sorted { IsOf machine.now }
    ensures real { seen (real_of machine.now) ≡ (whole_of machine.now).state.memory }
    ensures seen { seen (whole_of machine.now).state.memory ≡ (whole_of machine.now).state.memory }
    ensures size { length (real_of machine.now) ≡ 4096 * (whole_of machine.now).opening.frames }
{
    mask_law();
    let _memory = machine.memory();
    let _done = machine.done(plan);
}

/// Passes over quick turns, if there are any: up to the next address at which the trace may end, or to the last turn that is
/// shown.
fn pass_some<'i>(machine: Machine<'i>, plan: &Plan, shown: &Shown, steps: u64) -> Machine<'i>
    requires steps { steps ≤ 4294967296 }
    requires passes { passes shown.now.only ≡ true }
    requires goes { ending_behind shown.now steps plan.now (whole_of machine).state ≡ None }
    ensures passed { ArePassed shown.now steps plan.now (whole_of machine.entry) (whole_of result) }
    ensures still { (whole_of result).state.turns ≡ (whole_of machine.entry).state.turns
        → (whole_of result).state ≡ (whole_of machine.entry).state }
    ensures further { (whole_of machine.entry).state.turns ≤ (whole_of result).state.turns }
    ensures inside { (whole_of result).state.turns ≤ steps }
{
    moves_law();
    turns_law();
    standing_law(&machine, plan);
    let limit = look_at(machine.turns(), shown, steps);
    machine.hurry(plan, limit)
}

/// Passes over quick turns as far as there are any, or to where the trace ends.
fn pass<'i>(
    machine: Machine<'i>,
    plan: &Plan,
    shown: &Shown,
    steps: u64,
) -> (Machine<'i>, Option<TraceEnd>)
    requires steps { steps ≤ 4294967296 }
    requires passes { passes shown.now.only ≡ true }
    ensures passed { ArePassed shown.now steps plan.now (whole_of machine.entry) (whole_of result.0) }
    ensures why { result.1 ≡ ending_behind shown.now steps plan.now (whole_of result.0).state }
{
    let mut machine = machine;
    loop {
        if let Some(why) = end_behind(&machine, plan, shown, steps) {
            return (machine, Some(why));
        }
        let turns = machine.turns();
        let next = pass_some(machine, plan, shown, steps);
        if next.turns() == turns {
            return (next, None);
        }
        machine = next;
    }
}

/// What follows a state.
pub(crate) enum Passed<'i> {
    /// The trace ends, or was cut.
    Ended(Result<(), TraceFault>),
    /// Steps were taken.
    Goes(Machine<'i>),
}

/// What follows a step that isn't shown: quick turns, as far as there are any.
fn pass_behind<'i, O: Sink>(
    line: &mut Vec<u8>,
    next: Machine<'i>,
    plan: &Plan,
    steps: u64,
    shown: &Shown,
    sink: &mut O,
) -> Passed<'i>
    requires steps { steps ≤ 4294967296 }
    requires passes { passes shown.now.only ≡ true }
    ensures { (h : HeldState) → IsSilentFrom shown.now steps plan.now h (held_of next.entry)
        → IsPassedBy O.taken O.faults sink.old sink.new shown.now steps plan.now h result }
{
    let (last, why) = pass(next, plan, shown, steps);
    standing_law(&last, plan);
    match why {
        Some(why) => Passed::Ended(end(line, last, why, sink)),
        None => Passed::Goes(last),
    }
}

/// What follows a step that is shown, once it is told.
fn tell_over<'i, O: Sink>(
    alloc: Global,
    line: &mut Vec<u8>,
    here: &Here,
    step: &Step,
    next: Machine<'i>,
    touched: StepTouched,
    plan: &Plan,
    steps: u64,
    shown: &Shown,
    copy: &mut PhysMem,
    sink: &mut O,
) -> Passed<'i>
    requires size { length copy.old ≡ length (real_of next) }
    ensures passed { (h : HeldState) → IsStepFrom shown.now steps plan.now h step.now (held_of next.entry) → IsHere here.now plan.now h
        → IsCopyFor touched copy.old h.real (real_of next.entry)
        → line.old.items ≡ head_text h.state.turns h.state.processor
        → IsPassedBy O.taken O.faults sink.old sink.new shown.now steps plan.now h result }
    ensures size { length copy.new ≡ length copy.old }
{
    match tell(alloc, line, here, step, &next, touched, shown, copy, sink) {
        Err(fault) => Passed::Ended(Err(stop(next, fault))),
        Ok(_) if is_at(&next, shown) => Passed::Ended(end(line, next, TraceEnd::Until, sink)),
        Ok(_) => Passed::Goes(next),
    }
}

/// What is kept of a state, whose words are put into the line; the copy becomes memory there, where a step that is shown may
/// change it.
fn look_before(
    alloc: Global,
    line: &mut Vec<u8>,
    machine: &Machine<'_>,
    plan: &Plan,
    copy: &mut PhysMem,
) -> Result<Here, AllocError>
    requires size { length copy.old ≡ length (real_of machine.now) }
    ensures head { OnOk result (line.new.items
        ≡ head_text (whole_of machine.now).state.turns (whole_of machine.now).state.processor) }
    ensures here { IfOk result (λ here. IsHere here plan.now (held_of machine.now)) }
    ensures copy { AgreesIn (touched_if_shown (whole_of machine.now).state (real_of machine.now)) copy.new (real_of machine.now) }
    ensures size { length copy.new ≡ length copy.old }
{
    settle_in(machine.memory(), copy, machine.touches_if_shown());
    let kept = kept_of(alloc, machine.processor())?;
    begin_line(line, machine, plan, kept)
}

/// Takes the step from a state at which the trace doesn't end, and tells it if it is shown.
fn step_over<'i, O: Sink>(
    alloc: Global,
    line: &mut Vec<u8>,
    machine: Machine<'i>,
    plan: &Plan,
    steps: u64,
    shown: &Shown,
    copy: &mut PhysMem,
    sink: &mut O,
) -> Passed<'i>
    requires steps { steps ≤ 4294967296 }
    requires passes { passes shown.now.only ≡ true }
    requires goes { ending_before shown.now steps plan.now (whole_of machine).state ≡ None }
    requires size { length copy.old ≡ length (real_of machine) }
    ensures passed { IsPassedBy O.taken O.faults sink.old sink.new shown.now steps plan.now (held_of machine.entry) result }
    ensures size { length copy.new ≡ length copy.old }
{
    moves_law();
    standing_law(&machine, plan);
    let Ok(here) = look_before(alloc, line, &machine, plan, copy) else {
        return Passed::Ended(Err(stop(machine, TraceFault::NoMemory)));
    };
    let (next, step, touched) = machine.step_touching(plan);
    standing_law(&next, plan);
    if are_kinds(shown.only, false, &step, false) {
        tell_over(
            alloc, line, &here, &step, next, touched, plan, steps, shown, copy, sink,
        )
    } else {
        pass_behind(line, next, plan, steps, shown, sink)
    }
}

/// What follows a state where steps are passed over.
fn pass_on<'i, O: Sink>(
    alloc: Global,
    line: &mut Vec<u8>,
    machine: Machine<'i>,
    plan: &Plan,
    steps: u64,
    shown: &Shown,
    copy: &mut PhysMem,
    sink: &mut O,
) -> Passed<'i>
    requires steps { steps ≤ 4294967296 }
    requires passes { passes shown.now.only ≡ true }
    requires size { length copy.old ≡ 4096 * (whole_of machine).opening.frames }
    ensures passed { IsPassedBy O.taken O.faults sink.old sink.new shown.now steps plan.now (held_of machine.entry) result }
    ensures size { length copy.new ≡ length copy.old }
{
    if let Some(why) = end_before(&machine, plan, shown, steps) {
        return Passed::Ended(end(line, machine, why, sink));
    }
    standing_law(&machine, plan);
    step_over(alloc, line, machine, plan, steps, shown, copy, sink)
}

/// Shows the steps from a state on that show something, and passes over the others. The copy may hold anything.
pub(crate) fn follow_shown<O: Sink>(
    alloc: Global,
    line: &mut Vec<u8>,
    machine: Machine<'_>,
    plan: &Plan,
    steps: u64,
    shown: &Shown,
    copy: &mut PhysMem,
    sink: &mut O,
) -> Result<(), TraceFault>
    requires steps { steps ≤ 4294967296 }
    requires passes { passes shown.now.only ≡ true }
    requires size { length copy.old ≡ length (real_of machine) }
    ensures { IsRestTaken O.taken O.faults sink.old sink.new shown.now steps plan.now
        (ending_before shown.now steps plan.now (whole_of machine.entry).state) (held_of machine.entry) result }
{
    standing_law(&machine, plan);
    let mut machine = machine;
    loop {
        match pass_on(alloc, line, machine, plan, steps, shown, copy, sink) {
            Passed::Ended(put) => return put,
            Passed::Goes(next) => machine = next,
        }
    }
}
