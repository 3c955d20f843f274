//! The machine in the gates: WP is clear, and the supervisor stands at a gate point that isn't the body's place.

ghost use Rattle.std.specs.Prelude.{◌≡◌, ◌<◌, ◌≤◌, false, length, ◌*◌};
ghost use Rattle.nk_bits.specs.Accesses.{wp_of};
ghost use Rattle.phys_mem.specs.MaskedMemory.{seen};
ghost use Rattle.page_desc.specs.DescriptorBytes.{kinds_in};
ghost use Rattle.nk_body.specs.NestedRecord.{HoldsBooks, books_in};
ghost use Rattle.cpu_step.specs.Turns.{enters_body};
ghost use Rattle.gate_state.specs.MachineOf.{IsStanding, IsInGates, IsOf, real_of, whole_of};
ghost use Rattle.gate_state.specs.MachineSteps.{move_of, seen_by};
ghost use Rattle.gate_state.specs.QuietSteps.{IsHurried};
ghost use Rattle.gate_state.specs.StepsTouched.{KeepsOutside, ShowsWithin, touched_by_move, touched_if_shown};
ghost use Rattle.gate_state.specs.declared.seen.Step.TheVariants as told;
ghost use Rattle.gate_state.specs.SafeStates.{IsSafe};
ghost use Rattle.gate_state.specs.WholeMachine.{is_rest, known_of, next_whole};
ghost use Rattle.gate_state.specs.WindowLeft.{ComesNearer, HasFewerLeft, left};

use crate::machine::{Machine, sorted, step};
use crate::seen::Seen;
use crate::touched::StepTouched;
use crate::whole::{Finished, Whole};
use irq_plan::Plan;
use std::marker::Model;

/// The machine with WP clear in the gates.
pub struct GateMachine<'i> {
    pub(crate) whole: Box<Whole<'i>>,
}

impl<'i> Model for GateMachine<'i> {
    ghost use Rattle.std.specs.Prelude.{◌≡◌, false};
    ghost use Rattle.nk_bits.specs.Accesses.{wp_of};
    ghost use Rattle.cpu_step.specs.Turns.{enters_body};
    ghost use Rattle.gate_state.specs.WholeMachine.{HeldState};

    ghost Value = { HeldState };

    ghost view = { λ m. m.whole.value };

    ghost invariant = { λ m. (wp_of m.whole.value.state.processor.control.cr0 ≡ false)
        × (enters_body m.whole.value.state.processor ≡ false) };
}

impl<'i> GateMachine<'i> {
    /// One step: an event of the plan, or a turn; with what it shows. In the gates the machine never rests. A turn sets WP
    /// or leaves fewer turns until it is set.
    pub fn step(self, plan: &Plan) -> (Machine<'i>, Seen)
        requires turns { self.state.turns < 4294967296 }
        ensures next { whole_of result.0 ≡ next_whole plan.now (known_of self.entry) }
        ensures seen { result.1 ≡ seen_by (move_of plan.now self.entry.state) self.entry.state }
        ensures no_body { enters_body self.entry.state.processor ≡ false }
        ensures safe { IsSafe self.entry.opening self.entry.state }
        ensures in_gates { IsStanding IsInGates self.entry.opening self.entry.state }
        ensures sorted { IsOf result.0 }
        ensures nearer { ComesNearer (move_of plan.now self.entry.state) self.entry.state.processor
            (whole_of result.0).state.processor }
    {
        let (machine, seen, _) = self.step_touching(plan);
        (machine, seen)
    }

    /// The same step, with the frames that it may have changed: every byte of memory outside them is as it was.
    pub(crate) fn step_touching(self, plan: &Plan) -> (Machine<'i>, Seen, StepTouched)
        requires turns { self.state.turns < 4294967296 }
        ensures left { is_rest (move_of plan.now self.entry.state) ≡ false }
        ensures next { whole_of result.0 ≡ next_whole plan.now (known_of self.entry) }
        ensures seen { result.1 ≡ seen_by (move_of plan.now self.entry.state) self.entry.state }
        ensures no_body { enters_body self.entry.state.processor ≡ false }
        ensures safe { IsSafe self.entry.opening self.entry.state }
        ensures in_gates { IsStanding IsInGates self.entry.opening self.entry.state }
        ensures sorted { IsOf result.0 }
        ensures nearer { ComesNearer (move_of plan.now self.entry.state) self.entry.state.processor
            (whole_of result.0).state.processor }
        ensures touched { KeepsOutside result.2 self.entry.real (real_of result.0) }
        ensures told { result.2 ≡ touched_by_move (move_of plan.now self.entry.state) self.entry.state self.entry.real }
        ensures shown { ShowsWithin (told.Seen result.1) result.2 (touched_if_shown self.entry.state self.entry.real) }
    {
        let GateMachine { whole } = self;
        whole.in_gates_law();
        whole.running_law(plan);
        whole.nearer_law(plan);
        step(whole, plan)
    }

    /// Goes on by quick turns, if there are any: steps that show nothing, each from a safe state, until the plan's next event
    /// is due or so many turns were taken in all. WP stays clear, and each leaves fewer turns until it is set. The body is no
    /// quick turn, so that they end in front of it.
    pub fn hurry(self, plan: &Plan, limit: u64) -> Machine<'i>
        ensures hurried { IsHurried plan.now limit (known_of self.entry) (whole_of result) }
        ensures clear { wp_of (whole_of result).state.processor.control.cr0 ≡ false }
        ensures nearer { HasFewerLeft self.entry.state (whole_of result).state }
        ensures sorted { IsOf result }
    {
        let GateMachine { mut whole } = self;
        whole.hurry(plan, limit);
        sorted(whole)
    }

    /// How many turns at most go by until WP is set, the one that sets it counted in.
    pub fn left(&self) -> u8
        ensures left { result ≡ left self.now.state.processor }
        ensures some { 1 ≤ result }
        ensures most { result ≤ 11 }
        ensures in_gates { IsStanding IsInGates self.now.opening self.now.state }
    {
        self.whole.in_gates_law();
        self.whole.left()
    }

    /// Whether the machine rests for good. In the gates the machine never rests.
    pub fn done(&self, plan: &Plan) -> bool
        ensures done { result ≡ is_rest (move_of plan.now self.now.state) }
        ensures never { result ≡ false }
        ensures in_gates { IsStanding IsInGates self.now.opening self.now.state }
    {
        self.whole.in_gates_law();
        self.whole.running_law(plan);
        false
    }

    /// How many turns were taken.
    pub fn turns(&self) -> u64
        ensures { result ≡ self.now.state.turns }
    {
        self.whole.turns
    }

    /// The bytes that were read last for a call.
    pub fn source(&self) -> &[u8]
        ensures { result.now ≡ self.now.source }
    {
        &self.whole.source
    }

    /// Memory and books, at the end of a run.
    pub fn finish(self) -> Finished
        ensures memory { seen result.mem ≡ self.entry.state.memory }
        ensures real { result.mem ≡ self.entry.real }
        ensures size { length result.mem ≡ 4096 * self.entry.opening.frames }
        ensures kinds { kinds_in result.mem ≡ self.entry.state.kinds }
        ensures root { result.kernel.root ≡ self.entry.state.processor.control.root }
        ensures ledger { (books_in result.kernel result.mem).ledger ≡ self.entry.state.ledger }
        ensures books { HoldsBooks result.kernel result.mem }
        ensures safe { IsSafe self.entry.opening self.entry.state }
        ensures in_gates { IsStanding IsInGates self.entry.opening self.entry.state }
    {
        let GateMachine { whole } = self;
        whole.in_gates_law();
        whole.safe_law();
        Box::into_inner(whole).finish()
    }
}
