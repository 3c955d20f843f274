//! Where the step from a state begins.

ghost use Rattle.std.specs.Prelude.{◌≡◌, ℕ, Some, None, slice_get};
ghost use Rattle.gate_state.specs.MachineOf.{whole_of};
ghost use Rattle.gate_state.specs.MachineSteps.{move_by, move_of};
ghost use Rattle.step_trace.specs.AddressesRan.{begins_at};
ghost use Rattle.run_moments.specs.Stops.{begins_by};

use cpu_step::Cpu;
use gate_state::Machine;
use irq_plan::{Event, Plan};

/// Where the instruction of a turn begins; none does where a vector is delivered.
fn begins_at(cpu: &Cpu) -> Option<u64>
    ensures { result ≡ begins_at cpu.now }
{
    if cpu.deliverable().is_none() {
        Some(cpu.regs().rip)
    } else {
        None
    }
}

/// Where the step begins if this event is the plan's next one.
fn begins_before(event: &Event, turns: u64, cpu: &Cpu) -> Option<u64>
    ensures { result ≡ begins_by (move_by (Some event.now) turns cpu.now) cpu.now }
{
    if event.due <= turns || cpu.halted() {
        None
    } else {
        begins_at(cpu)
    }
}

/// Where the step begins if no event is left.
fn begins_without(cpu: &Cpu) -> Option<u64>
    ensures { (turns : ℕ) → result ≡ begins_by (move_by None turns cpu.now) cpu.now }
{
    if cpu.halted() { None } else { begins_at(cpu) }
}

/// Where the step begins if it isn't the body's.
fn begins_outside(cpu: &Cpu, plan: &Plan, turns: u64, taken: usize) -> Option<u64>
    ensures { result ≡ begins_by (move_by (slice_get plan.now taken) turns cpu.now) cpu.now }
{
    if taken < plan.len() {
        begins_before(&plan.event(taken), turns, cpu)
    } else {
        begins_without(cpu)
    }
}

/// The address at which the step from a machine's state begins, if it does at one.
pub(crate) fn begins(machine: &Machine<'_>, plan: &Plan) -> Option<u64>
    ensures { result ≡ begins_by (move_of plan.now (whole_of machine.now).state) (whole_of machine.now).state.processor }
{
    let cpu = machine.processor();
    if cpu.enters_body() {
        return Some(cpu.regs().rip);
    }
    begins_outside(cpu, plan, machine.turns(), machine.taken())
}
