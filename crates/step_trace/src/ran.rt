//! The addresses of an image at which instructions began in a run.

ghost use Rattle.std.specs.Prelude.{◌≡◌, ◌<◌, ◌≤◌, ◌++◌, [], codes, OnErr, OnOk};
ghost use Rattle.gate_state.specs.MachineOf.{whole_of};
ghost use Rattle.gate_state.specs.MachineSteps.{next};
ghost use Rattle.gate_state.specs.WholeMachine.{stepped_whole};
ghost use Rattle.report_text.specs.RunLines.{hex_16};
ghost use Rattle.step_trace.specs.AddressesRan.{IsRanTaken, begins_at, begun_in, ran_text};
ghost use Rattle.step_trace.specs.RanSteps.{IsGone, begun_of, with_begun};
ghost use Rattle.step_trace.specs.TracesPut.{IsTaken};

use crate::ends::{TraceFault, put_line};
use crate::reach::is_there;
use crate::words::{put_16, put_text};
use elf_image::Image;
use gate_state::{Machine, Seen, Step, moves_law};
use irq_plan::Plan;
use nk_host::Sink;
use std::alloc::{AllocError, Global};
use std::collections::BTreeSet;

/// Where the instruction of a turn begins, if the step is a turn; none does where a vector is delivered.
fn begins_at(machine: &Machine<'_>) -> Option<u64>
    ensures { result ≡ begins_at (whole_of machine.now).state.processor }
{
    let cpu = machine.processor();
    if cpu.deliverable().is_none() {
        Some(cpu.regs().rip)
    } else {
        None
    }
}

/// Where the instruction of a step began, by what it shows.
fn begun_of(step: &Step, begins: Option<u64>) -> Option<u64>
    ensures { result ≡ begun_of step.now begins }
{
    match step {
        Step::Seen(Seen::Event) | Step::Called(_) | Step::Rested => None,
        Step::Seen(_) => begins,
    }
}

/// Takes a step, with where its instruction began.
fn step_on<'i>(machine: Machine<'i>, plan: &Plan) -> (Machine<'i>, Option<u64>)
    requires turns { (whole_of machine).state.turns < 4294967296 }
    ensures next { whole_of result.0 ≡ stepped_whole plan.now (whole_of machine.entry) }
    ensures begun { result.1 ≡ begun_in plan.now (whole_of machine.entry).state }
{
    let begins = begins_at(&machine);
    let (next, step) = machine.step(plan);
    let begun = begun_of(&step, begins);
    (next, begun)
}

/// Takes a step, with where its instruction began: a quick turn, where there is one.
fn go_on<'i>(machine: Machine<'i>, plan: &Plan) -> (Machine<'i>, Option<u64>)
    requires turns { (whole_of machine).state.turns < 4294967296 }
    ensures next { (whole_of result.0).state ≡ next plan.now (whole_of machine.entry).state }
    ensures begun { result.1 ≡ begun_in plan.now (whole_of machine.entry).state }
{
    let begins = begins_at(&machine);
    let turns = machine.turns();
    let hurried = machine.hurry(plan, turns + 1);
    if hurried.turns() > turns {
        return (hurried, begins);
    }
    step_on(hurried, plan)
}

/// Notes where an instruction began, if that is code of the image.
fn note(image: &Image, begun: Option<u64>, ran: &mut BTreeSet<u64>) -> Result<(), AllocError>
    ensures noted { OnOk result (ran.new.keys ≡ with_begun image.now begun ran.old.keys) }
    ensures unchanged { OnErr result (ran.new.keys ≡ ran.old.keys) }
{
    match begun {
        Some(address) if image.is_code(address) => match ran.insert(address) {
            Ok(_) => Ok(()),
            Err(_) => Err(AllocError),
        },
        _ => Ok(()),
    }
}

/// Takes the steps of a run of at most so many turns, and notes where instructions began. Spends the machine.
fn go_through(
    machine: Machine<'_>,
    image: &Image,
    plan: &Plan,
    turns: u64,
    ran: &mut BTreeSet<u64>,
) -> Result<(), AllocError>
    requires turns { turns ≤ 4294967296 }
    requires none { ran.old.keys ≡ [] }
    ensures { IsGone image.now turns plan.now (whole_of machine.entry).state ran.new.keys result }
{
    moves_law();
    let mut machine = machine;
    loop {
        if is_there(&machine, plan, turns) {
            let _finished = machine.finish();
            return Ok(());
        }
        let (next, begun) = go_on(machine, plan);
        if note(image, begun, ran).is_err() {
            let _finished = next.finish();
            return Err(AllocError);
        }
        machine = next;
    }
}

/// Writes an address's line.
fn put_address<O: Sink>(line: &mut Vec<u8>, address: u64, sink: &mut O) -> Result<(), TraceFault>
    ensures { IsTaken O.taken O.faults sink.old sink.new (hex_16 address ++ codes "\n") result }
{
    line.clear();
    if put_16(line, address).is_err() || put_text(line, "\n").is_err() {
        return Err(TraceFault::NoMemory);
    }
    put_line(sink, line)
}

/// Writes a line for each address.
fn put_addresses<O: Sink>(
    alloc: Global,
    ran: &BTreeSet<u64>,
    sink: &mut O,
) -> Result<(), TraceFault>
    ensures { IsTaken O.taken O.faults sink.old sink.new (ran_text ran.now.keys) result }
{
    let mut line = Vec::new(alloc);
    for address in ran.iter() {
        if let Err(fault) = put_address(&mut line, *address, sink) {
            return Err(fault);
        }
    }
    Ok(())
}

/// Takes the steps of a run of at most so many turns, and writes a line for each address of the image's code at which an
/// instruction began, as docs/FORMATS.md has them. Spends the machine. Err where the text is cut, since the sink failed or
/// there is no memory for the addresses or for a line.
pub fn put_ran<O: Sink>(
    alloc: Global,
    machine: Machine<'_>,
    image: &Image,
    plan: &Plan,
    turns: u64,
    sink: &mut O,
) -> Result<(), TraceFault>
    requires turns { turns ≤ 4294967296 }
    ensures { IsRanTaken O.taken O.faults sink.old sink.new image.now turns plan.now (whole_of machine.entry).state result }
{
    let mut ran = BTreeSet::new(alloc);
    if go_through(machine, image, plan, turns, &mut ran).is_err() {
        return Err(TraceFault::NoMemory);
    }
    let _count = ran.len();
    put_addresses(alloc, &ran, sink)
}
