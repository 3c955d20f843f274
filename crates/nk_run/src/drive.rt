//! The loop of a run: step after step of the machine, with the text as it comes.
ghost use Rattle.std.specs.Prelude.{◌≡◌, ◌<◌, ◌≤◌, ◌*◌, ◌++◌, length, OnErr, OnOk};
ghost use Rattle.std.specs.Io.KnownBytes.{Appends};
ghost use Rattle.nk_host.specs.FaultCounts.{RoseTo};
ghost use Rattle.nk_host.specs.Taken.{AppendsPrefix};
ghost use Rattle.nk_host.specs.TextPuts.{IsTextPut};
ghost use Rattle.boot_map.specs.Division.{IsLayout};
ghost use Rattle.nk_body.specs.NestedRecord.{HoldsBooks, nested_held};
ghost use Rattle.gate_state.specs.MachineOf.{whole_of};
ghost use Rattle.gate_state.specs.MachineStates.{nested_of};
ghost use Rattle.gate_state.specs.MachineSteps.{next, step_by};
ghost use Rattle.gate_state.specs.WholeMachine.{WholeState, source_after};
ghost use Rattle.gate_state.specs.declared.moves.Move.{Move};
ghost use Rattle.report_text.specs.ClosingSection.{section};
ghost use Rattle.report_text.specs.RunLines.{ending_line, turns_line};
ghost use Rattle.nk_run.specs.RunStates.{is_halted, run_text, shown, shown_by};

use crate::ending::Ending;
use crate::opening::Opened;
use crate::progress::{Progress, go_on};
use gate_state::{Finished, Machine, Seen, Step, moves_law};
use irq_plan::Plan;
use nk_host::{Sink, SinkFault};

/// Takes the steps of a run, and writes its text.
pub(crate) fn drive<O: Sink>(
    machine: Machine<'_>,
    opened: &Opened,
    plan: &Plan,
    steps: u64,
    sink: &mut O,
) -> Result<(), SinkFault>
    requires opening { (whole_of machine).opening
        ≡ record { image = opened.now.image; frames = opened.now.layout.frames } }
    requires layout { IsLayout opened.now.image opened.now.layout }
    requires steps { steps ≤ 4294967296 }
    requires turns { (whole_of machine).state.turns ≡ 0 }
    ensures { IsTextPut O.taken O.faults sink.old sink.new
        (run_text (record { image = opened.now.image; frames = opened.now.layout.frames }) steps plan.now
        (whole_of machine.entry).state) result }
{
    moves_law();
    let mut machine = machine;
    loop {
        match go_on(machine, plan, steps) {
            Progress::Ends(ended, ending) => return end(ended, opened, ending, sink),
            Progress::Goes(next, step) => {
                machine = next;
                if let Err(fault) = show(&machine, &step, sink) {
                    let _finished = machine.finish();
                    return Err(fault);
                }
            }
        }
    }
}

/// Writes what a step shows that the machine took last.
fn show<O: Sink>(machine: &Machine<'_>, step: &Step, sink: &mut O) -> Result<(), SinkFault>
    ensures never_falls { O.faults sink.old ≤ O.faults sink.new }
    ensures failed { OnErr result (RoseTo (O.faults sink.old) (O.faults sink.new)) }
    ensures all { (m : Move) (w : WholeState) → step.now ≡ step_by m w.state → (whole_of machine.now).source ≡ source_after m w
        → OnOk result (Appends (O.taken sink.old) (O.taken sink.new) (shown_by m w.state)) }
    ensures some { (m : Move) (w : WholeState) → step.now ≡ step_by m w.state → (whole_of machine.now).source ≡ source_after m w
        → OnErr result (AppendsPrefix (O.taken sink.old) (O.taken sink.new) (shown_by m w.state)) }
{
    match step {
        Step::Rested => Ok(()),
        Step::Seen(seen) => show_seen(seen, sink),
        Step::Called(it) => {
            report_text::called(sink, &it.call, &machine.source(it.source), &it.answer)
        }
    }
}

/// Writes what a step shows that isn't the nested kernel's.
fn show_seen<O: Sink>(seen: &Seen, sink: &mut O) -> Result<(), SinkFault>
    ensures { IsTextPut O.taken O.faults sink.old sink.new (shown seen.now) result }
{
    match seen {
        Seen::Console(byte) => report_text::console(sink, *byte),
        Seen::Delivered(it) => report_text::delivery(sink, it),
        Seen::Quiet | Seen::Event => Ok(()),
    }
}

/// Ends the run of a machine, and writes why, how many turns it took, and the closing section.
fn end<O: Sink>(
    machine: Machine<'_>,
    opened: &Opened,
    ending: Ending,
    sink: &mut O,
) -> Result<(), SinkFault>
    requires opening { (whole_of machine).opening
        ≡ record { image = opened.now.image; frames = opened.now.layout.frames } }
    requires layout { IsLayout opened.now.image opened.now.layout }
    ensures { IsTextPut O.taken O.faults sink.old sink.new
        (ending_line (is_halted ending) ++ (turns_line (whole_of machine.entry).state.turns
        ++ section opened.now.image opened.now.layout.frames (nested_of (whole_of machine.entry).state))) result }
{
    let turns = machine.turns();
    let finished = machine.finish();
    close(&finished, opened, turns, ending, sink)
}

/// Writes why the run ended, how many turns it took, and the closing section.
fn close<O: Sink>(
    finished: &Finished,
    opened: &Opened,
    turns: u64,
    ending: Ending,
    sink: &mut O,
) -> Result<(), SinkFault>
    requires layout { IsLayout opened.now.image opened.now.layout }
    requires books { HoldsBooks finished.now.kernel finished.now.mem }
    requires size { length finished.now.mem ≡ 4096 * opened.now.layout.frames }
    ensures { IsTextPut O.taken O.faults sink.old sink.new
        (ending_line (is_halted ending) ++ (turns_line turns
        ++ section opened.now.image opened.now.layout.frames (nested_held finished.now.kernel finished.now.mem))) result }
{
    match report_text::ending(sink, ending.is_halted(), turns) {
        Ok(()) => finish(finished, opened, sink),
        Err(fault) => Err(fault),
    }
}

/// Writes the closing section.
fn finish<O: Sink>(finished: &Finished, opened: &Opened, sink: &mut O) -> Result<(), SinkFault>
    requires layout { IsLayout opened.now.image opened.now.layout }
    requires books { HoldsBooks finished.now.kernel finished.now.mem }
    requires size { length finished.now.mem ≡ 4096 * opened.now.layout.frames }
    ensures { IsTextPut O.taken O.faults sink.old sink.new
        (section opened.now.image opened.now.layout.frames (nested_held finished.now.kernel finished.now.mem)) result }
{
    report_text::section(
        sink,
        &opened.image,
        &opened.layout,
        &finished.mem,
        &finished.kernel,
    )
}
