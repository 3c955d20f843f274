//! The opening of a trace: the state before its first step.

ghost use Rattle.std.specs.Prelude.{◌≡◌, ◌-◌, ◌*◌, ◌<◌, ◌≤◌, ◌++◌, true, OnOk, drop, length, take};
ghost use Rattle.nk_bits.specs.Translations.{flushed};
ghost use Rattle.phys_mem.specs.Memory.{frame_bytes};
ghost use Rattle.gate_state.specs.MachineOf.{whole_of};
ghost use Rattle.step_trace.specs.declared.asked.MemoryShown.TheVariants.{Bytes};
ghost use Rattle.step_trace.specs.RestsOfTraces.{held_of};
ghost use Rattle.step_trace.specs.StepTexts.{are_zeros, bytes_text, frame_text, memory_text, state_text};
ghost use Rattle.step_trace.specs.ToldSteps.{kept_lists};
ghost use Rattle.step_trace.specs.Traces.{kept_shown, memory_shown, opening_text};
ghost use Rattle.step_trace.specs.TracesPut.{IsTaken};

use crate::asked::{MemoryShown, Shown};
use crate::ends::{TraceFault, put_line};
use crate::kept::{Kept, kept_of, put_kept};
use crate::state::put_state;
use crate::words::{put_byte, put_bytes, put_decimal, put_named, put_text};
use cpu_step::Cpu;
use gate_state::Machine;
use nk_host::Sink;
use phys_mem::PhysMem;
use std::alloc::{AllocError, Global};

/// Whether all bytes are zeros.
fn are_zeros(bytes: &[u8]) -> bool
    ensures { result ≡ are_zeros bytes.now }
{
    for i in 0..bytes.len() {
        if bytes[i] != 0 {
            return false;
        }
    }
    true
}

/// The line of a frame with all its bytes, unless they are zeros.
fn put_frame(line: &mut Vec<u8>, frame: u32, bytes: &[u8]) -> Result<(), AllocError>
    ensures { OnOk result (line.new.items ≡ line.old.items ++ frame_text frame bytes.now) }
{
    if are_zeros(bytes) {
        return Ok(());
    }
    put_text(line, "frame ")?;
    put_decimal(line, u64::from(frame))?;
    put_text(line, " ")?;
    put_bytes(line, bytes)?;
    put_text(line, "\n")
}

/// Writes the line of a frame that memory has, unless it is all zeros.
fn put_frame_line<O: Sink>(
    line: &mut Vec<u8>,
    mem: &PhysMem,
    frame: u32,
    sink: &mut O,
) -> Result<(), TraceFault>
    requires { 4096 * frame < length mem.now }
    ensures { IsTaken O.taken O.faults sink.old sink.new (frame_text frame (frame_bytes mem.now frame)) result }
{
    line.clear();
    match put_frame(line, frame, mem.frame(frame)) {
        Ok(()) => put_line(sink, line),
        Err(_) => Err(TraceFault::NoMemory),
    }
}

/// Writes a line for each frame that isn't all zeros.
fn put_frames<O: Sink>(line: &mut Vec<u8>, mem: &PhysMem, sink: &mut O) -> Result<(), TraceFault>
    ensures { IsTaken O.taken O.faults sink.old sink.new (memory_text mem.now) result }
{
    for frame in 0..mem.frames() {
        if let Err(fault) = put_frame_line(line, mem, frame, sink) {
            return Err(fault);
        }
    }
    Ok(())
}

/// The bytes of memory between two places, or a dash where there are none.
fn put_places(line: &mut Vec<u8>, mem: &PhysMem, first: u64, end: u64) -> Result<(), AllocError>
    requires { end ≤ length mem.now }
    ensures { OnOk result (line.new.items ≡ line.old.items ++ bytes_text (take (end - first) (drop first mem.now))) }
{
    if first >= end {
        return put_text(line, "-");
    }
    for place in first..end {
        put_byte(line, mem.load8(place))?;
    }
    Ok(())
}

/// The line of the bytes from an address on, at most so many, as far as memory goes.
fn put_range(line: &mut Vec<u8>, mem: &PhysMem, first: u64, count: u64) -> Result<(), AllocError>
    ensures { OnOk result (line.new.items ≡ line.old.items ++ memory_shown (Bytes first count) mem.now) }
{
    let size = 4096 * u64::from(mem.frames());
    put_named(line, "mem", first)?;
    put_text(line, " ")?;
    put_places(line, mem, first, first.saturating_add(count).min(size))?;
    put_text(line, "\n")
}

/// Nothing is kept.
fn none_kept(alloc: Global) -> Kept
    ensures { kept_lists result ≡ flushed }
{
    Kept {
        pairs: Vec::new(alloc),
        upper: Vec::new(alloc),
    }
}

/// Puts the line of all that a processor keeps of walks. Err where memory for it is wanting.
pub fn put_all_kept(alloc: Global, line: &mut Vec<u8>, cpu: &Cpu) -> Result<(), AllocError>
    ensures { OnOk result (line.new.items ≡ line.old.items ++ kept_shown true cpu.now.tlb) }
{
    let none = none_kept(alloc);
    let kept = kept_of(alloc, cpu)?;
    put_text(line, "kept")?;
    put_kept(line, false, &none, &kept)?;
    put_text(line, "\n")
}

/// Writes the line of the state.
fn put_state_line<O: Sink>(
    line: &mut Vec<u8>,
    machine: &Machine<'_>,
    sink: &mut O,
) -> Result<(), TraceFault>
    ensures { IsTaken O.taken O.faults sink.old sink.new
        (state_text (whole_of machine.now).state.turns (whole_of machine.now).state.processor) result }
{
    line.clear();
    match put_state(line, machine.turns(), machine.processor()) {
        Ok(()) => put_line(sink, line),
        Err(_) => Err(TraceFault::NoMemory),
    }
}

/// Writes what is asked for of memory.
fn put_memory_shown<O: Sink>(
    line: &mut Vec<u8>,
    mem: &PhysMem,
    shown: MemoryShown,
    sink: &mut O,
) -> Result<(), TraceFault>
    ensures { IsTaken O.taken O.faults sink.old sink.new (memory_shown shown mem.now) result }
{
    match shown {
        MemoryShown::Nothing => Ok(()),
        MemoryShown::Whole => put_frames(line, mem, sink),
        MemoryShown::Bytes { first, count } => {
            line.clear();
            match put_range(line, mem, first, count) {
                Ok(()) => put_line(sink, line),
                Err(_) => Err(TraceFault::NoMemory),
            }
        }
    }
}

/// Writes what is kept of walks, where that is asked for.
fn put_kept_shown<O: Sink>(
    alloc: Global,
    line: &mut Vec<u8>,
    cpu: &Cpu,
    shown: bool,
    sink: &mut O,
) -> Result<(), TraceFault>
    ensures { IsTaken O.taken O.faults sink.old sink.new (kept_shown shown cpu.now.tlb) result }
{
    if !shown {
        return Ok(());
    }
    line.clear();
    match put_all_kept(alloc, line, cpu) {
        Ok(()) => put_line(sink, line),
        Err(_) => Err(TraceFault::NoMemory),
    }
}

/// Writes the state, and with it what is asked for of memory and of what is kept of walks.
pub(crate) fn put_opening<O: Sink>(
    alloc: Global,
    line: &mut Vec<u8>,
    machine: &Machine<'_>,
    shown: &Shown,
    sink: &mut O,
) -> Result<(), TraceFault>
    ensures { IsTaken O.taken O.faults sink.old sink.new (opening_text shown.now (held_of machine.now)) result }
{
    if let Err(fault) = put_state_line(line, machine, sink) {
        return Err(fault);
    }
    if let Err(fault) = put_memory_shown(line, machine.memory(), shown.memory, sink) {
        return Err(fault);
    }
    put_kept_shown(alloc, line, machine.processor(), shown.translations, sink)
}
