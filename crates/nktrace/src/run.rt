//! The trace of a run: the run's own refusals, or its steps as far as they are shown.

ghost use Rattle.std.specs.Prelude.{◌≡◌, ◌≤◌, ◌⊎◌, ℕ, None, MatchResult};
ghost use Rattle.byte_scanner.specs.FirstFound.{first_found};
ghost use Rattle.boot_map.specs.Division.{IsLayout};
ghost use Rattle.file_scan.specs.ShelfChanges.{shelf_change};
ghost use Rattle.gate_state.specs.MachineOf.{whole_of};
ghost use Rattle.gate_state.specs.MachineOpening.{opening_state};
ghost use Rattle.nk_run.specs.Witness.{sink_change};
ghost use Rattle.nktrace.specs.TracedRuns.{IsNoMemoryPut, IsRanPut, IsRanTold, IsTraced, IsTracePut, status_of};

use command_words::Request;
use gate_state::Machine;
use irq_plan::Plan;
use nk_host::{Shelf, Sink, SinkFault, put_all};
use nk_run::{ReadyRun, begin, ready_run};
use phys_mem::PhysMem;
use std::alloc::Global;
use step_trace::{Shown, TraceFault, drive_shown, put_ran};

/// The status where all was written.
const DONE: u8 = 0;

/// The status where the text couldn't be written whole.
const CUT: u8 = 4;

/// The status where there is no memory for the run.
const NO_MEMORY: u8 = 5;

/// This status where a text was put.
fn unless_cut(status: u8, put: Result<(), SinkFault>) -> u8
    ensures { MatchResult put (λ _. result ≡ status) (λ _. result ≡ 4) }
{
    match put {
        Ok(()) => status,
        Err(_) => CUT,
    }
}

/// Says that there is no memory.
fn no_memory<O: Sink>(sink: &mut O) -> u8
    ensures { IsNoMemoryPut (sink_change O.taken O.faults sink.old sink.new) result }
{
    unless_cut(NO_MEMORY, put_all(sink, b"no memory\n"))
}

/// The status of a trace: all was written, or the sink failed, or there was no memory for a line.
fn told_status(told: Result<(), TraceFault>) -> u8
    ensures { result ≡ status_of told }
{
    match told {
        Ok(()) => DONE,
        Err(TraceFault::Cut(_)) => CUT,
        Err(TraceFault::NoMemory) => NO_MEMORY,
    }
}

/// Shows the steps of a machine.
fn show_machine<O: Sink>(
    alloc: Global,
    machine: Machine<'_>,
    plan: &Plan,
    steps: u64,
    shown: &Shown,
    sink: &mut O,
) -> u8
    requires { steps ≤ 4294967296 }
    ensures { IsTracePut shown.now steps plan.now (whole_of machine.entry).state
        (sink_change O.taken O.faults sink.old sink.new) result ⊎ IsNoMemoryPut (sink_change O.taken O.faults sink.old sink.new) result }
{
    let frames = machine.memory().frames();
    match PhysMem::new(alloc, frames) {
        Ok(copy) => {
            let mut copy = copy;
            told_status(drive_shown(alloc, machine, plan, steps, shown, &mut copy, sink))
        }
        Err(_) => {
            let _finished = machine.finish();
            no_memory(sink)
        }
    }
}

/// Shows the steps of a run that may begin.
fn show_run<O: Sink>(alloc: Global, ready: ReadyRun, shown: &Shown, sink: &mut O) -> u8
    requires layout { IsLayout ready.opened.image ready.opened.layout }
    requires clean { first_found ready.opened.image ≡ None }
    requires steps { ready.steps ≤ 4294967296 }
    ensures { IsTracePut shown.now ready.steps ready.plan (opening_state (record {
      image = ready.opened.image;
      frames = ready.opened.layout.frames;
    }) ready.input.items) (sink_change O.taken O.faults sink.old sink.new) result
        ⊎ IsNoMemoryPut (sink_change O.taken O.faults sink.old sink.new) result }
{
    let ReadyRun {
        opened,
        input,
        plan,
        steps,
    } = ready;
    match begin(alloc, &opened, input) {
        Some(machine) => show_machine(alloc, machine, &plan, steps, shown, sink),
        None => no_memory(sink),
    }
}

/// Shows the run that is asked for, or answers as the top call of `nkrun` does where none is, or where it doesn't begin.
/// With status 0 the text is the trace, whole; with 4, where the sink failed, or 5, where there was no memory, it is a part
/// from its beginning.
pub fn trace<S: Shelf, O: Sink>(
    alloc: Global,
    request: &Request<'_>,
    shown: &Shown,
    shelf: &mut S,
    sink: &mut O,
) -> u8
    ensures files_stay { S.files shelf.new ≡ S.files shelf.old }
    ensures traced { IsTraced shown.now request.now
        (shelf_change S.files S.faults S.wants shelf.old shelf.new)
        (sink_change O.taken O.faults sink.old sink.new) result }
{
    match ready_run(alloc, request, shelf) {
        Ok(ready) => show_run(alloc, ready, shown, sink),
        Err(refusal) => refusal.write(sink),
    }
}

/// Shows where instructions began in a run that may begin.
fn show_ran<O: Sink>(alloc: Global, ready: ReadyRun, sink: &mut O) -> u8
    requires layout { IsLayout ready.opened.image ready.opened.layout }
    requires clean { first_found ready.opened.image ≡ None }
    requires steps { ready.steps ≤ 4294967296 }
    ensures { IsRanPut ready.opened.image ready.steps ready.plan (opening_state (record {
      image = ready.opened.image;
      frames = ready.opened.layout.frames;
    }) ready.input.items) (sink_change O.taken O.faults sink.old sink.new) result
        ⊎ IsNoMemoryPut (sink_change O.taken O.faults sink.old sink.new) result }
{
    let ReadyRun {
        opened,
        input,
        plan,
        steps,
    } = ready;
    match begin(alloc, &opened, input) {
        Some(machine) => told_status(put_ran(alloc, machine, &opened.image, &plan, steps, sink)),
        None => no_memory(sink),
    }
}

/// Shows the addresses of the image at which instructions began in the run that is asked for, or answers as the top call
/// of `nkrun` does where none is, or where it doesn't begin. With status 0 the text is whole; with 4, where the sink
/// failed, or 5, where there was no memory, it is a part from its beginning.
pub fn ran<S: Shelf, O: Sink>(
    alloc: Global,
    request: &Request<'_>,
    shelf: &mut S,
    sink: &mut O,
) -> u8
    ensures files_stay { S.files shelf.new ≡ S.files shelf.old }
    ensures told { IsRanTold request.now
        (shelf_change S.files S.faults S.wants shelf.old shelf.new)
        (sink_change O.taken O.faults sink.old sink.new) result }
{
    match ready_run(alloc, request, shelf) {
        Ok(ready) => show_ran(alloc, ready, sink),
        Err(refusal) => refusal.write(sink),
    }
}
