//! The loop of a run that is counted: step after step of the machine, and the summary in the end.
ghost use Rattle.std.specs.Prelude.{◌≡◌, ◌<◌, ◌+◌, ◌++◌, filter, length};
ghost use Rattle.nk_host.specs.TextPuts.{IsTextPut};
ghost use Rattle.page_desc.specs.PageTables.{is_table};
ghost use Rattle.page_desc.specs.DescriptorBytes.{HoldsDescriptors, kinds_in};
ghost use Rattle.nk_body.specs.NestedRecord.{HoldsBooks, nested_held};
ghost use Rattle.gate_state.specs.MachineOf.{whole_of};
ghost use Rattle.gate_state.specs.MachineStates.{MachineState, nested_of};
ghost use Rattle.gate_state.specs.declared.moves.Move.{Move};
ghost use Rattle.gate_state.specs.MachineSteps.{next, step_by};
ghost use Rattle.report_text.specs.RunLines.{ending_line, turns_line};
ghost use Rattle.report_text.specs.RunSummary.{summary_lines};
ghost use Rattle.nk_run.specs.Replies.{CanCount};
ghost use Rattle.nk_run.specs.RunStates.{is_halted};
ghost use Rattle.nk_run.specs.WorkSummary.{summary_of, with_answer, with_shown, with_step, work_text};

use crate::ending::Ending;
use crate::progress::{Progress, go_on};
use gate_state::{Machine, Seen, Step, moves_law};
use irq_plan::Plan;
use nk_bits::Answer;
use nk_body::Kernel;
use nk_host::{Sink, SinkFault};
use page_desc::{Frames, stored_law};
use phys_mem::PhysMem;
use report_text::{RunCounts, ending, summary};
use write_log::held_log_law;

/// How many turns the run of a made image may take.
const STEPS: u64 = 2_000_000;

/// The bytes of the log.
const LOG_BYTES: u64 = 65_536;

/// What a run showed so far: calls that were made, those of them that were accepted, and traps that were delivered.
#[derive(Clone, Copy)]
pub(crate) struct Tally {
    pub calls: u64,
    pub accepted: u64,
    pub deliveries: u64,
}

impl Tally {
    /// Before the first step.
    const NOTHING: Tally = Tally {
        calls: 0,
        accepted: 0,
        deliveries: 0,
    };
}

/// Takes the steps of a run of a made image, and writes its summary.
pub(crate) fn count<O: Sink>(
    machine: Machine<'_>,
    plan: &Plan,
    sink: &mut O,
) -> Result<(), SinkFault>
    requires turns { (whole_of machine).state.turns ≡ 0 }
    ensures { IsTextPut O.taken O.faults sink.old sink.new
        (work_text 2000000 plan.now (whole_of machine.entry).state) result }
{
    moves_law();
    let mut machine = machine;
    let mut tally = Tally::NOTHING;
    loop {
        match go_on(machine, plan, STEPS) {
            Progress::Ends(ended, ending) => return sum_up(ended, ending, &tally, sink),
            Progress::Goes(next, step) => {
                machine = next;
                tally = stepped(tally, &step);
            }
        }
    }
}

/// Counts a step by what it shows.
fn stepped(tally: Tally, step: &Step) -> Tally
    requires { CanCount tally }
    ensures { (m : Move) (s : MachineState) → step.now ≡ step_by m s → result ≡ with_step m s tally }
{
    match step {
        Step::Rested => tally,
        Step::Seen(seen) => shown(tally, seen),
        Step::Called(it) => answered(tally, &it.answer),
    }
}

/// Counts what a step shows that isn't the nested kernel's.
fn shown(tally: Tally, seen: &Seen) -> Tally
    requires { CanCount tally }
    ensures { result ≡ with_shown seen.now tally }
{
    match seen {
        Seen::Delivered(_) => Tally {
            deliveries: tally.deliveries + 1,
            ..tally
        },
        Seen::Console(_) | Seen::Quiet | Seen::Event => tally,
    }
}

/// Counts a call by its answer.
fn answered(tally: Tally, answer: &Answer) -> Tally
    requires { CanCount tally }
    ensures { result ≡ with_answer answer.now tally }
{
    let is_accepted = answer.value == 0 || answer.value >= 256;
    Tally {
        calls: tally.calls + 1,
        accepted: if is_accepted {
            tally.accepted + 1
        } else {
            tally.accepted
        },
        deliveries: tally.deliveries,
    }
}

/// Ends the run of a machine, and writes why, how many turns it took, and the counts.
fn sum_up<O: Sink>(
    machine: Machine<'_>,
    reason: Ending,
    tally: &Tally,
    sink: &mut O,
) -> Result<(), SinkFault>
    ensures { IsTextPut O.taken O.faults sink.old sink.new
        (ending_line (is_halted reason) ++ (turns_line (whole_of machine.entry).state.turns
        ++ summary_lines (summary_of tally.now (nested_of (whole_of machine.entry).state)))) result }
{
    let turns = machine.turns();
    let finished = machine.finish();
    let counts = summed(&finished.kernel, &finished.mem, tally);
    match ending(sink, reason.is_halted(), turns) {
        Ok(()) => put_counts(&counts, sink),
        Err(fault) => Err(fault),
    }
}

/// Writes the counts.
fn put_counts<O: Sink>(counts: &RunCounts, sink: &mut O) -> Result<(), SinkFault>
    ensures { IsTextPut O.taken O.faults sink.old sink.new (summary_lines counts.now) result }
{
    summary(sink, counts)
}

/// What was counted, and what the books have in the end.
fn summed(kernel: &Kernel, mem: &PhysMem, tally: &Tally) -> RunCounts
    requires { HoldsBooks kernel.now mem.now }
    ensures { result ≡ summary_of tally.now (nested_held kernel.now mem.now) }
{
    held_log_law();
    RunCounts {
        calls: tally.calls,
        accepted: tally.accepted,
        deliveries: tally.deliveries,
        tables: count_tables(&kernel.tables().frames, mem),
        regions: kernel.regions().count() as u64,
        records: kernel.log().len(),
        log_bytes: LOG_BYTES - kernel.log().room(),
    }
}

/// How many frames are page tables.
fn count_tables(frames: &Frames, mem: &PhysMem) -> u64
    requires { HoldsDescriptors frames.now mem.now }
    ensures { result ≡ length (filter is_table (kinds_in mem.now)) }
{
    stored_law();
    let mut count = 0;
    for frame in 0..frames.frames() {
        count += u64::from(frames.kind(mem, frame).is_table());
    }
    count
}
