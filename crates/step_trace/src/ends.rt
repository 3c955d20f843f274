//! How a trace ends, and how its text is put.

ghost use Rattle.std.specs.Prelude.{◌≡◌, ◌++◌, codes, OnOk};
ghost use Rattle.report_text.specs.RunLines.{turns_line};
ghost use Rattle.gate_state.specs.MachineOf.{whole_of};
ghost use Rattle.step_trace.specs.Traces.{end_text};
ghost use Rattle.step_trace.specs.TracesPut.{IsTaken};

use crate::words::{put_decimal, put_text};
use gate_state::Machine;
use nk_host::{Sink, SinkFault, put_all};
use std::alloc::AllocError;

/// Why a trace isn't whole.
#[derive(Clone, Copy, Debug, PartialEq, Eq)]
pub enum TraceFault {
    /// The sink failed.
    Cut(SinkFault),
    /// There is no memory for a line.
    NoMemory,
}

/// Why a trace ends.
#[derive(Clone, Copy)]
pub(crate) enum TraceEnd {
    /// As many turns were taken as the run may have.
    Steps,
    /// The processor is halted, and nothing is left that could wake it.
    Halted,
    /// A step left RIP at one of the addresses.
    Until,
    /// The last step that is shown was taken.
    To,
}

impl TraceEnd {
    fn text(self) -> &'static str
        ensures { result.now ≡ end_text self }
    {
        match self {
            TraceEnd::Steps => "end steps\n",
            TraceEnd::Halted => "end halted\n",
            TraceEnd::Until => "end until\n",
            TraceEnd::To => "end to\n",
        }
    }
}

/// Writes a line.
pub(crate) fn put_line<O: Sink>(sink: &mut O, line: &[u8]) -> Result<(), TraceFault>
    ensures { IsTaken O.taken O.faults sink.old sink.new line.now result }
{
    match put_all(sink, line) {
        Ok(()) => Ok(()),
        Err(fault) => Err(TraceFault::Cut(fault)),
    }
}

/// The last lines: why the trace ended, and how many turns were taken.
#[tactic(auto, unfolding(report_text::specs::RunLines::turns_line))]
fn put_end(line: &mut Vec<u8>, why: TraceEnd, turns: u64) -> Result<(), AllocError>
    ensures { OnOk result (line.new.items ≡ end_text why ++ turns_line turns) }
{
    line.clear();
    put_text(line, why.text())?;
    put_text(line, "turns ")?;
    put_decimal(line, turns)?;
    put_text(line, "\n")
}

/// Spends the machine, and writes the last lines.
pub(crate) fn end<O: Sink>(
    line: &mut Vec<u8>,
    machine: Machine<'_>,
    why: TraceEnd,
    sink: &mut O,
) -> Result<(), TraceFault>
    ensures { IsTaken O.taken O.faults sink.old sink.new
        (end_text why ++ turns_line (whole_of machine.entry).state.turns) result }
{
    let turns = machine.turns();
    let _finished = machine.finish();
    match put_end(line, why, turns) {
        Ok(()) => put_line(sink, line),
        Err(_) => Err(TraceFault::NoMemory),
    }
}

/// Spends a machine whose trace isn't told to its end.
pub(crate) fn stop(machine: Machine<'_>, fault: TraceFault) -> TraceFault
    ensures { result ≡ fault }
{
    let _finished = machine.finish();
    fault
}
