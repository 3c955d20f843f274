//! The steps of a trace: those before it, by quick turns, and then one by one.

ghost use Rattle.std.specs.Prelude.{◌≡◌, ◌<◌, ◌≤◌, ◌*◌, ℕ, None, length};
ghost use Rattle.phys_mem.specs.MaskedMemory.{seen};
ghost use Rattle.gate_state.specs.MachineOf.{real_of, whole_of};
ghost use Rattle.step_trace.specs.RestsOfTraces.{IsFollowedBy, IsRestTaken, head_text, held_of};
ghost use Rattle.step_trace.specs.ToldSteps.{IsHere, kept_lists};
ghost use Rattle.step_trace.specs.Traces.{ending_before, is_at};
ghost use Rattle.step_trace.specs.TracesPut.{IsTraceTaken};

use crate::asked::Shown;
use crate::ends::{TraceEnd, TraceFault, end, stop};
use crate::kept::{Kept, kept_of};
use crate::memory::settle;
use crate::opening::put_opening;
use crate::passing::{follow_shown, passes};
use crate::reach::go_to;
use crate::telling::{Here, begin_line, tell};
use gate_state::{Machine, moves_law};
use irq_plan::Plan;
use nk_host::Sink;
use phys_mem::PhysMem;
use std::alloc::Global;

/// Why the trace ends before a step, if it does.
pub(crate) fn end_before(
    machine: &Machine<'_>,
    plan: &Plan,
    shown: &Shown,
    steps: u64,
) -> Option<TraceEnd>
    ensures { result ≡ ending_before shown.now steps plan.now (whole_of machine.now).state }
{
    if machine.turns() >= steps {
        return Some(TraceEnd::Steps);
    }
    match shown.to {
        Some(to) if machine.turns() > to => Some(TraceEnd::To),
        _ if machine.done(plan) => Some(TraceEnd::Halted),
        _ => None,
    }
}

/// Whether a step left RIP at an address at which the trace ends.
pub(crate) fn is_at(machine: &Machine<'_>, shown: &Shown) -> bool
    ensures { result ≡ is_at shown.now.until.items (whole_of machine.now).state.processor.regs.rip }
{
    shown.until.contains(&machine.processor().regs().rip)
}

/// Of memory as it is a machine's state has what is seen, and it has the opening's size.
fn memory_law(machine: &Machine<'_>)
    ensures seen { seen (real_of machine.now) ≡ (whole_of machine.now).state.memory }
    ensures size { length (real_of machine.now) ≡ 4096 * (whole_of machine.now).opening.frames }
{
    let _memory = machine.memory();
}

/// What follows a state of a trace.
pub(crate) enum Followed<'i> {
    /// The trace ends there, or was cut.
    Ended(Result<(), TraceFault>),
    /// A step, and what the processor keeps of walks behind it.
    Goes(Machine<'i>, Kept),
}

/// Takes the step from a state of which the line's beginning is put, and tells it.
fn follow_step<'i, O: Sink>(
    alloc: Global,
    line: &mut Vec<u8>,
    machine: Machine<'i>,
    here: &Here,
    plan: &Plan,
    shown: &Shown,
    copy: &mut PhysMem,
    sink: &mut O,
) -> Followed<'i>
    requires turns { (whole_of machine).state.turns < 4294967296 }
    requires here { IsHere here.now plan.now (held_of machine) }
    requires head { line.old.items ≡ head_text (whole_of machine).state.turns (whole_of machine).state.processor }
    requires copy { copy.old ≡ real_of machine }
    ensures { (steps : ℕ) → ending_before shown.now steps plan.now (whole_of machine.entry).state ≡ None
        → IsFollowedBy O.taken O.faults sink.old sink.new shown.now steps plan.now (held_of machine.entry) copy.new result }
{
    moves_law();
    memory_law(&machine);
    let (next, step, touched) = machine.step_touching(plan);
    memory_law(&next);
    match tell(alloc, line, here, &step, &next, touched, shown, copy, sink) {
        Err(fault) => Followed::Ended(Err(stop(next, fault))),
        Ok(_) if is_at(&next, shown) => Followed::Ended(end(line, next, TraceEnd::Until, sink)),
        Ok(kept) => Followed::Goes(next, kept),
    }
}

/// What follows a state.
fn follow_one<'i, O: Sink>(
    alloc: Global,
    line: &mut Vec<u8>,
    machine: Machine<'i>,
    kept: Kept,
    plan: &Plan,
    steps: u64,
    shown: &Shown,
    copy: &mut PhysMem,
    sink: &mut O,
) -> Followed<'i>
    requires steps { steps ≤ 4294967296 }
    requires kept { kept_lists kept ≡ (whole_of machine).state.processor.tlb }
    requires copy { copy.old ≡ real_of machine }
    ensures { IsFollowedBy O.taken O.faults sink.old sink.new shown.now steps plan.now (held_of machine.entry) copy.new result }
{
    if let Some(why) = end_before(&machine, plan, shown, steps) {
        return Followed::Ended(end(line, machine, why, sink));
    }
    match begin_line(line, &machine, plan, kept) {
        Ok(here) => follow_step(alloc, line, machine, &here, plan, shown, copy, sink),
        Err(_) => Followed::Ended(Err(stop(machine, TraceFault::NoMemory))),
    }
}

/// Shows step after step from a state on.
fn follow<O: Sink>(
    alloc: Global,
    line: &mut Vec<u8>,
    machine: Machine<'_>,
    plan: &Plan,
    steps: u64,
    shown: &Shown,
    copy: &mut PhysMem,
    sink: &mut O,
) -> Result<(), TraceFault>
    requires steps { steps ≤ 4294967296 }
    requires copy { copy.old ≡ real_of machine }
    ensures { IsRestTaken O.taken O.faults sink.old sink.new shown.now steps plan.now
        (ending_before shown.now steps plan.now (whole_of machine.entry).state) (held_of machine.entry) result }
{
    let Ok(kept) = kept_of(alloc, machine.processor()) else {
        return Err(stop(machine, TraceFault::NoMemory));
    };
    let mut machine = machine;
    let mut kept = kept;
    loop {
        match follow_one(alloc, line, machine, kept, plan, steps, shown, copy, sink) {
            Followed::Ended(put) => return put,
            Followed::Goes(next, later) => {
                machine = next;
                kept = later;
            }
        }
    }
}

/// Takes the steps of a run, and writes those that are shown, as docs/FORMATS.md has them. The copy has the size of the
/// machine's memory, and may hold anything: it becomes that of memory as the shown steps find it. Err where the text is
/// cut, since the sink failed or there is no memory for a line.
pub fn drive_shown<O: Sink>(
    alloc: Global,
    machine: Machine<'_>,
    plan: &Plan,
    steps: u64,
    shown: &Shown,
    copy: &mut PhysMem,
    sink: &mut O,
) -> Result<(), TraceFault>
    requires steps { steps ≤ 4294967296 }
    requires copy { length copy.old ≡ 4096 * (whole_of machine).opening.frames }
    ensures { IsTraceTaken O.taken O.faults sink.old sink.new shown.now steps plan.now (whole_of machine.entry).state result }
{
    let machine = go_to(machine, plan, steps.min(shown.from));
    memory_law(&machine);
    let mut line = Vec::new(alloc);
    if let Err(fault) = put_opening(alloc, &mut line, &machine, shown, sink) {
        return Err(stop(machine, fault));
    }
    if passes(shown.only) {
        return follow_shown(alloc, &mut line, machine, plan, steps, shown, copy, sink);
    }
    settle(machine.memory(), copy);
    follow(alloc, &mut line, machine, plan, steps, shown, copy, sink)
}
