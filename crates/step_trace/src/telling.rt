//! The step from a state to the next one, told.

ghost use Rattle.std.specs.Prelude.{◌≡◌, List, [], length, if◌then◌else◌, IfOk, OnOk};
ghost use Rattle.gate_state.specs.StepsTouched.{KeepsOutside};
ghost use Rattle.step_trace.specs.CopiesOfMemory.{IsCopyFor};
ghost use Rattle.irq_plan.specs.declared.event.Event.{Event};
ghost use Rattle.gate_state.specs.MachineOf.{real_of, whole_of};
ghost use Rattle.gate_state.specs.MachineSteps.{move_of, step_by};
ghost use Rattle.gate_state.specs.WholeMachine.{HeldState};
ghost use Rattle.step_trace.specs.RestsOfTraces.{head_text, held_of, step_shown};
ghost use Rattle.nk_bits.specs.Accesses.{wp_of};
ghost use Rattle.step_trace.specs.StepLines.{is_wanted, line_of};
ghost use Rattle.step_trace.specs.ToldSteps.{IsBefore, IsHere, IsToldOf, are_kinds_told, is_called, is_console_byte, is_delivery_step, is_kind_told, is_taken_event, is_wanted_told, kept_lists, what_next};
ghost use Rattle.step_trace.specs.TracesPut.{IsTaken};

use crate::asked::{Kind, Shown};
use crate::code::told_code;
use crate::ends::{TraceFault, put_line};
use crate::kept::{Kept, kept_of};
use crate::line::{Before, Told, put_head, put_step};
use gate_state::{Machine, Seen, Step, StepTouched};
use irq_plan::{Plan, What};
use nk_host::Sink;
use phys_mem::PhysMem;
use std::alloc::{AllocError, Global};

/// The plan's next event.
fn event_after(plan: &Plan, taken: usize) -> Option<What>
    ensures { result ≡ what_next plan.now taken }
{
    if taken < plan.len() {
        Some(plan.event(taken).what)
    } else {
        None
    }
}

/// What is kept of the state that a machine is in, with what the processor keeps of walks there.
fn before_of(machine: &Machine<'_>, kept: Kept) -> Before
    requires kept { kept_lists kept ≡ (whole_of machine.now).state.processor.tlb }
    ensures { IsBefore result (whole_of machine.now).state.processor (real_of machine.now) }
{
    let cpu = machine.processor();
    Before {
        regs: *cpu.regs(),
        control: *cpu.control(),
        halted: cpu.halted(),
        vector: cpu.deliverable(),
        code: told_code(machine.memory(), cpu),
        kept,
    }
}

/// A state before a step: what is kept of it, whether WP is set, and the plan's next event.
#[derive(Drop)]
pub(crate) struct Here {
    pub before: Before,
    pub in_outer: bool,
    pub event: Option<What>,
}

/// What is kept of a state, whose words are put into the line.
pub(crate) fn begin_line(
    line: &mut Vec<u8>,
    machine: &Machine<'_>,
    plan: &Plan,
    kept: Kept,
) -> Result<Here, AllocError>
    requires kept { kept_lists kept ≡ (whole_of machine.now).state.processor.tlb }
    ensures head { OnOk result (line.new.items
        ≡ head_text (whole_of machine.now).state.turns (whole_of machine.now).state.processor) }
    ensures here { IfOk result (λ here. IsHere here plan.now (held_of machine.now)) }
{
    line.clear();
    put_head(line, machine.turns(), machine.processor())?;
    Ok(Here {
        in_outer: machine.processor().control().write_protect(),
        event: event_after(plan, machine.taken()),
        before: before_of(machine, kept),
    })
}

/// Whether a step is the nested kernel's body.
fn is_called(step: &Step) -> bool
    ensures { result ≡ is_called step.now }
{
    matches!(step, Step::Called(_))
}

/// Whether a step is a delivery.
fn is_delivery_step(step: &Step) -> bool
    ensures { result ≡ is_delivery_step step.now }
{
    matches!(step, Step::Seen(Seen::Delivered(_)))
}

/// Whether a step is an event of the plan.
fn is_taken_event(step: &Step) -> bool
    ensures { result ≡ is_taken_event step.now }
{
    matches!(step, Step::Seen(Seen::Event))
}

/// Whether a step writes a byte to the console.
fn is_console_byte(step: &Step) -> bool
    ensures { result ≡ is_console_byte step.now }
{
    matches!(step, Step::Seen(Seen::Console(_)))
}

/// Whether a step is of a kind.
fn is_kind(kind: Kind, in_outer: bool, step: &Step, is_stored: bool) -> bool
    ensures { result ≡ is_kind_told kind in_outer step.now is_stored }
{
    match kind {
        Kind::Gate => !in_outer,
        Kind::Call => is_called(step),
        Kind::Delivery => is_delivery_step(step),
        Kind::Event => is_taken_event(step),
        Kind::Memory => is_stored,
        Kind::Console => is_console_byte(step),
    }
}

/// Whether a step is of the kind that is asked for, if one is.
pub(crate) fn are_kinds(only: Option<Kind>, in_outer: bool, step: &Step, is_stored: bool) -> bool
    ensures { result ≡ are_kinds_told only in_outer step.now is_stored }
{
    match only {
        Some(kind) => is_kind(kind, in_outer, step, is_stored),
        None => true,
    }
}

/// Whether a step is shown, by what is told of it.
fn is_step_wanted(shown: &Shown, in_outer: bool, step: &Step, told: Told) -> bool
    ensures { result ≡ is_wanted_told shown.now in_outer step.now told }
{
    let are_kinds = are_kinds(shown.only, in_outer, step, told.is_stored);
    let is_event = is_taken_event(step);
    are_kinds && (!shown.changes || is_event || told.is_more)
}

/// Whether the line of a step is shown.
fn is_wanted(shown: &Shown, in_outer: bool, step: &Step, told: Told) -> bool
    ensures { (plan : List Event) (h next : HeldState) → in_outer ≡ wp_of h.state.processor.control.cr0
        → step.now ≡ step_by (move_of plan h.state) h.state → IsToldOf told (line_of plan h next).changes
        → result ≡ is_wanted shown.now (line_of plan h next) }
{
    is_step_wanted(shown, in_outer, step, told)
}

/// Puts the line of a step where it is wanted.
fn put_wanted<O: Sink>(sink: &mut O, line: &[u8], wanted: bool) -> Result<(), TraceFault>
    ensures { IsTaken O.taken O.faults sink.old sink.new (if wanted then line.now else []) result }
{
    if wanted { put_line(sink, line) } else { Ok(()) }
}

/// Tells the step from a state to the next one, where it is to be shown, and gives what the processor keeps of walks then.
pub(crate) fn tell<O: Sink>(
    alloc: Global,
    line: &mut Vec<u8>,
    here: &Here,
    step: &Step,
    next: &Machine<'_>,
    touched: StepTouched,
    shown: &Shown,
    copy: &mut PhysMem,
    sink: &mut O,
) -> Result<Kept, TraceFault>
    requires size { length copy.old ≡ length (real_of next.now) }
    ensures kept { IfOk result (λ kept. kept_lists kept ≡ (whole_of next.now).state.processor.tlb) }
    ensures copy { KeepsOutside touched copy.old (real_of next.now) → OnOk result (copy.new ≡ real_of next.now) }
    ensures size { length copy.new ≡ length (real_of next.now) }
    ensures told { (plan : List Event) (h : HeldState) → IsHere here.now plan h
        → IsCopyFor touched copy.old h.real (real_of next.now)
        → step.now ≡ step_by (move_of plan h.state) h.state → line.old.items ≡ head_text h.state.turns h.state.processor
        → IsTaken O.taken O.faults sink.old sink.new (step_shown shown.now plan h (held_of next.now)) result }
{
    let cpu = next.processor();
    let Ok(kept) = kept_of(alloc, cpu) else {
        return Err(TraceFault::NoMemory);
    };
    let Here {
        before,
        in_outer,
        event,
    } = here;
    let Ok(told) = put_step(
        line,
        before,
        step,
        *event,
        cpu,
        &kept,
        next.memory(),
        copy,
        touched,
    ) else {
        return Err(TraceFault::NoMemory);
    };
    let wanted = is_wanted(shown, *in_outer, step, told);
    if let Err(fault) = put_wanted(sink, line, wanted) {
        return Err(fault);
    }
    Ok(kept)
}
