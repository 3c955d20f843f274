//! The line of a step: what it was, what it changed and what it shows, behind the state that it began at.

ghost use Rattle.std.specs.Prelude.{◌≡◌, ℕ, List, ◌/◌, ◌++◌, ◌&&◌, ◌+◌, IfOk, OnOk, codes, decimal, length, nat_lt, not};
ghost use Rattle.gate_state.specs.StepsTouched.{KeepsOutside};
ghost use Rattle.step_trace.specs.CopiesOfMemory.{IsCopyFor};
ghost use Rattle.cpu_step.specs.Processor.{Processor};
ghost use Rattle.report_text.specs.RunLines.{hex_16};
ghost use Rattle.step_trace.specs.StepChanges.{Halted, control_changes, flushes, memory_changes, shown_changes, step_changes, translation_changes, where_so};
ghost use Rattle.step_trace.specs.StepLines.{Code, has, is_stored, size_by, stand_in, turn_by};
ghost use Rattle.step_trace.specs.StepTexts.{changes_text, stand_name, was_text};
ghost use Rattle.step_trace.specs.ToldSteps.{IsBefore, IsToldOf, kept_lists, registers_behind, was_before};

use crate::code::{ToldCode, put_code};
use crate::kept::{Kept, put_kept};
use crate::memory::put_memory;
use crate::registers::{put_control, put_registers, put_rip};
use crate::shown::{put_call, put_event, put_halted, put_shown, put_vector};
use crate::state::put_stand;
use crate::words::{put_16, put_decimal, put_text};
use cpu_step::Cpu;
use gate_state::{Seen, Step, StepTouched};
use irq_plan::What;
use nk_bits::Control;
use phys_mem::PhysMem;
use std::alloc::AllocError;
use x86_regs::Regs;

/// What is kept of a state, to be compared with the one after the step.
#[derive(Drop)]
pub(crate) struct Before {
    pub regs: Regs,
    pub control: Control,
    pub halted: bool,
    /// The vector that a turn delivers before an instruction.
    pub vector: Option<u8>,
    pub code: ToldCode,
    pub kept: Kept,
}

/// What a line tells.
#[derive(Clone, Copy)]
pub(crate) struct Told {
    /// A byte of memory changed.
    pub is_stored: bool,
    /// More changed than RIP, or something is shown.
    pub is_more: bool,
}

/// The state that a step begins at: the turns before it, where the supervisor stands, CPL and RIP.
pub(crate) fn put_head(line: &mut Vec<u8>, turns: u64, cpu: &Cpu) -> Result<(), AllocError>
    ensures { OnOk result (line.new.items ≡ line.old.items
        ++ (decimal turns ++ (codes " " ++ (stand_name (stand_in cpu.now) ++ (codes " "
        ++ (decimal cpu.now.regs.cpl ++ (codes " " ++ hex_16 cpu.now.regs.rip))))))) }
{
    put_decimal(line, turns)?;
    put_text(line, " ")?;
    put_stand(line, cpu)?;
    put_text(line, " ")?;
    put_decimal(line, u64::from(cpu.regs().cpl))?;
    put_text(line, " ")?;
    put_16(line, cpu.regs().rip)
}

/// The instruction, or the delivery of a vector that was pending before it.
fn put_turn(line: &mut Vec<u8>, before: &Before) -> Result<u64, AllocError>
    ensures text { OnOk result (line.new.items ≡ line.old.items
        ++ was_text (turn_by before.now.vector (Code before.now.code.bytes.items before.now.code.found))) }
    ensures size { IfOk result (λ size. size
        ≡ size_by (turn_by before.now.vector (Code before.now.code.bytes.items before.now.code.found))) }
{
    match before.vector {
        Some(vector) => {
            put_vector(line, vector)?;
            Ok(0)
        }
        None => put_code_sized(line, before),
    }
}

/// The instruction, with how many bytes it has.
fn put_code_sized(line: &mut Vec<u8>, before: &Before) -> Result<u64, AllocError>
    ensures text { OnOk result (line.new.items ≡ line.old.items
        ++ was_text (Code before.now.code.bytes.items before.now.code.found)) }
    ensures size { IfOk result (λ size. size ≡ length before.now.code.bytes.items) }
{
    put_code(line, &before.code)?;
    Ok(before.code.bytes.len() as u64)
}

/// What the step was; and by how many bytes RIP goes on where nothing else is told of it.
fn put_was(
    line: &mut Vec<u8>,
    before: &Before,
    step: &Step,
    event: Option<What>,
) -> Result<u64, AllocError>
    ensures text { OnOk result (line.new.items ≡ line.old.items ++ was_text (was_before before.now step.now event)) }
    ensures size { IfOk result (λ size. size ≡ size_by (was_before before.now step.now event)) }
{
    match (step, event) {
        (Step::Called(called), _) => {
            put_call(line, &called.call)?;
            Ok(0)
        }
        (Step::Seen(Seen::Event), Some(what)) => {
            put_event(line, what)?;
            Ok(0)
        }
        (Step::Seen(Seen::Event), None) => put_code_sized(line, before),
        _ => put_turn(line, before),
    }
}

/// Whether a step drops all that is kept of walks.
fn flushes(step: &Step) -> bool
    ensures { result ≡ flushes step.now }
{
    match step {
        Step::Called(called) => called.answer.flush,
        _ => false,
    }
}

/// That the processor is halted now.
fn put_halt(line: &mut Vec<u8>, before: bool, after: bool) -> Result<(), AllocError>
    ensures { OnOk result (line.new.items ≡ line.old.items ++ changes_text (where_so (not before && after) Halted)) }
{
    if after && !before {
        put_halted(line)
    } else {
        Ok(())
    }
}

/// The bytes of memory that changed; whether there are any.
fn put_stored(
    line: &mut Vec<u8>,
    mem: &PhysMem,
    copy: &mut PhysMem,
    touched: StepTouched,
) -> Result<bool, AllocError>
    requires size { length copy.old ≡ length mem.now }
    ensures text { (before : List ℕ) → IsCopyFor touched copy.old before mem.now → OnOk result (line.new.items
        ≡ line.old.items ++ changes_text (memory_changes (length mem.now / 4096) 0 before mem.now)) }
    ensures told { (before : List ℕ) → IsCopyFor touched copy.old before mem.now → IfOk result (λ stored. stored
        ≡ has is_stored (memory_changes (length mem.now / 4096) 0 before mem.now)) }
    ensures copy { KeepsOutside touched copy.old mem.now → OnOk result (copy.new ≡ mem.now) }
    ensures size { length copy.new ≡ length mem.now }
{
    let begin = line.len();
    put_memory(line, mem, copy, touched)?;
    Ok(begin < line.len())
}

/// All changes but that of RIP, and what is shown; a line has more than RIP where any of it has a text.
fn put_changes(
    line: &mut Vec<u8>,
    before: &Before,
    step: &Step,
    cpu: &Cpu,
    after: &Kept,
    mem: &PhysMem,
    copy: &mut PhysMem,
    touched: StepTouched,
) -> Result<Told, AllocError>
    requires size { length copy.old ≡ length mem.now }
    ensures text { (m : List ℕ) → IsCopyFor touched copy.old m mem.now → OnOk result (line.new.items ≡ line.old.items
        ++ (changes_text (registers_behind before.now.regs cpu.now.regs)
        ++ (changes_text (control_changes before.now.control cpu.now.control)
        ++ (changes_text (memory_changes (length mem.now / 4096) 0 m mem.now)
        ++ (changes_text (translation_changes (flushes step.now) (kept_lists before.now.kept) (kept_lists after.now))
        ++ (changes_text (shown_changes step.now)
        ++ changes_text (where_so (not before.now.halted && cpu.now.halted) Halted))))))) }
    ensures stored { (m : List ℕ) → IsCopyFor touched copy.old m mem.now → IfOk result (λ told. told.is_stored
        ≡ has is_stored (memory_changes (length mem.now / 4096) 0 m mem.now)) }
    ensures more { IfOk result (λ told. told.is_more ≡ nat_lt (length line.old.items) (length line.new.items)) }
    ensures copy { KeepsOutside touched copy.old mem.now → OnOk result (copy.new ≡ mem.now) }
    ensures size { length copy.new ≡ length mem.now }
{
    let begin = line.len();
    put_registers(line, &before.regs, cpu.regs())?;
    put_control(line, &before.control, cpu.control())?;
    let is_stored = put_stored(line, mem, copy, touched)?;
    put_kept(line, flushes(step), &before.kept, after)?;
    put_shown(line, step)?;
    put_halt(line, before.halted, cpu.halted())?;
    Ok(Told {
        is_stored,
        is_more: begin < line.len(),
    })
}

/// What the step was, what it changed and what it shows, to the line's end. The copy is memory as it was where the step
/// may have changed it, and becomes memory as it is there.
pub(crate) fn put_step(
    line: &mut Vec<u8>,
    before: &Before,
    step: &Step,
    event: Option<What>,
    cpu: &Cpu,
    after: &Kept,
    mem: &PhysMem,
    copy: &mut PhysMem,
    touched: StepTouched,
) -> Result<Told, AllocError>
    requires size { length copy.old ≡ length mem.now }
    requires kept { kept_lists after.now ≡ cpu.now.tlb }
    ensures text { (p : Processor) (m : List ℕ) → IsBefore before.now p m → IsCopyFor touched copy.old m mem.now
        → OnOk result (line.new.items ≡ line.old.items ++ (was_text (was_before before.now step.now event)
        ++ (changes_text (step_changes (size_by (was_before before.now step.now event)) step.now p cpu.now m mem.now)
        ++ codes "\n"))) }
    ensures told { (p : Processor) (m : List ℕ) → IsBefore before.now p m → IsCopyFor touched copy.old m mem.now
        → IfOk result (λ told. IsToldOf told
        (step_changes (size_by (was_before before.now step.now event)) step.now p cpu.now m mem.now)) }
    ensures copy { KeepsOutside touched copy.old mem.now → OnOk result (copy.new ≡ mem.now) }
    ensures size { length copy.new ≡ length mem.now }
{
    let size = put_was(line, before, step, event)?;
    put_rip(line, &before.regs, size, cpu.regs())?;
    let told = put_changes(line, before, step, cpu, after, mem, copy, touched)?;
    put_text(line, "\n")?;
    Ok(told)
}
