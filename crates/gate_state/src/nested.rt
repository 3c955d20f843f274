//! The machine at the nested kernel's body: WP is clear.

ghost use Rattle.std.specs.Prelude.{◌≡◌, ◌<◌, ◌≤◌, false, true, length, OnSome, ◌*◌, ◌/◌};
ghost use Rattle.phys_mem.specs.MaskedMemory.{seen};
ghost use Rattle.page_desc.specs.DescriptorBytes.{kinds_in};
ghost use Rattle.nk_body.specs.BooksTouched.{LeavesBooks};
ghost use Rattle.nk_body.specs.NestedRecord.{HoldsBooks, books_in};
ghost use Rattle.cpu_step.specs.Turns.{enters_body};
ghost use Rattle.gate_state.specs.MachineOf.{IsStanding, IsAtBody, IsInGates};
ghost use Rattle.gate_state.specs.MachineSteps.{asked_in, called_in, move_of, verdict_in};
ghost use Rattle.gate_state.specs.SafeStates.{IsSafe};
ghost use Rattle.gate_state.specs.StepsTouched.{KeepsOutside, touched_by_call};
ghost use Rattle.gate_state.specs.WholeMachine.{is_rest, known_of, served_whole};
ghost use Rattle.gate_state.specs.WindowLeft.{left};

use crate::gate::GateMachine;
use crate::seen::Called;
use crate::touched::StepTouched;
use crate::whole::{Finished, Whole};
use irq_plan::Plan;
use std::marker::Model;

/// The machine with WP clear at the body's place: the one state from which what the nested kernel guards changes.
pub struct NestedMachine<'i> {
    pub(crate) whole: Box<Whole<'i>>,
}

impl<'i> Model for NestedMachine<'i> {
    ghost use Rattle.std.specs.Prelude.{◌≡◌, true};
    ghost use Rattle.cpu_step.specs.Turns.{enters_body};
    ghost use Rattle.gate_state.specs.WholeMachine.{HeldState};

    ghost Value = { HeldState };

    ghost view = { λ m. m.whole.value };

    ghost invariant = { λ m. enters_body m.whole.value.state.processor ≡ true };
}

impl<'i> NestedMachine<'i> {
    /// The body: the call that the registers hold is served, and the exit gate is next, with fewer turns until WP is set. A
    /// call that breaks a rule leaves every byte of memory, the books in it.
    pub fn serve(self) -> (GateMachine<'i>, Called)
        requires turns { self.state.turns < 4294967296 }
        ensures next { known_of result.0 ≡ served_whole (known_of self.entry) }
        ensures called { result.1 ≡ called_in self.entry.state }
        ensures refused { OnSome (verdict_in self.entry.state) (result.0.real ≡ self.entry.real) }
        ensures leaves { LeavesBooks self.entry.state.ledger.book (asked_in self.entry.state) self.entry.real
            result.0.real }
        ensures body { enters_body self.entry.state.processor ≡ true }
        ensures safe { IsSafe self.entry.opening self.entry.state }
        ensures at_body { IsStanding IsAtBody self.entry.opening self.entry.state }
        ensures in_gates { IsStanding IsInGates result.0.opening result.0.state }
        ensures nearer { left result.0.state.processor < left self.entry.state.processor }
    {
        let (machine, called, _) = self.serve_touching();
        (machine, called)
    }

    /// The same, with the frames that it may have changed: every byte of memory outside them is as it was.
    pub(crate) fn serve_touching(self) -> (GateMachine<'i>, Called, StepTouched)
        requires turns { self.state.turns < 4294967296 }
        ensures next { known_of result.0 ≡ served_whole (known_of self.entry) }
        ensures called { result.1 ≡ called_in self.entry.state }
        ensures refused { OnSome (verdict_in self.entry.state) (result.0.real ≡ self.entry.real) }
        ensures leaves { LeavesBooks self.entry.state.ledger.book (asked_in self.entry.state) self.entry.real
            result.0.real }
        ensures body { enters_body self.entry.state.processor ≡ true }
        ensures safe { IsSafe self.entry.opening self.entry.state }
        ensures at_body { IsStanding IsAtBody self.entry.opening self.entry.state }
        ensures in_gates { IsStanding IsInGates result.0.opening result.0.state }
        ensures nearer { left result.0.state.processor < left self.entry.state.processor }
        ensures touched { KeepsOutside result.2 self.entry.real result.0.real }
        ensures told { result.2 ≡ touched_by_call (length self.entry.real / 4096) self.entry.state.ledger.book
            (asked_in self.entry.state) }
    {
        let NestedMachine { mut whole } = self;
        whole.at_body_law();
        whole.served_law();
        whole.safe_law();
        let (called, touched) = whole.serve();
        whole.in_gates_law();
        (GateMachine { whole }, called, touched)
    }

    /// What every machine at the body is.
    pub(crate) fn at_body_law(&self)
        ensures { IsStanding IsAtBody self.now.opening self.now.state }
    {
        self.whole.at_body_law();
    }

    /// How many turns at most go by until WP is set, the body and the one that sets it counted in.
    pub fn left(&self) -> u8
        ensures left { result ≡ left self.now.state.processor }
        ensures some { 1 ≤ result }
        ensures most { result ≤ 11 }
        ensures at_body { IsStanding IsAtBody self.now.opening self.now.state }
    {
        self.whole.at_body_law();
        self.whole.left()
    }

    /// Whether the machine rests for good. At the body the machine never rests.
    pub fn done(&self, plan: &Plan) -> bool
        ensures done { result ≡ is_rest (move_of plan.now self.now.state) }
        ensures never { result ≡ false }
        ensures at_body { IsStanding IsAtBody self.now.opening self.now.state }
    {
        self.whole.at_body_law();
        self.whole.serving_law(plan);
        false
    }

    /// How many turns were taken.
    pub fn turns(&self) -> u64
        ensures { result ≡ self.now.state.turns }
    {
        self.whole.turns
    }

    /// The bytes that were read last for a call.
    pub fn source(&self) -> &[u8]
        ensures { result.now ≡ self.now.source }
    {
        &self.whole.source
    }

    /// Memory and books, at the end of a run.
    pub fn finish(self) -> Finished
        ensures memory { seen result.mem ≡ self.entry.state.memory }
        ensures real { result.mem ≡ self.entry.real }
        ensures size { length result.mem ≡ 4096 * self.entry.opening.frames }
        ensures kinds { kinds_in result.mem ≡ self.entry.state.kinds }
        ensures root { result.kernel.root ≡ self.entry.state.processor.control.root }
        ensures ledger { (books_in result.kernel result.mem).ledger ≡ self.entry.state.ledger }
        ensures books { HoldsBooks result.kernel result.mem }
        ensures safe { IsSafe self.entry.opening self.entry.state }
        ensures at_body { IsStanding IsAtBody self.entry.opening self.entry.state }
    {
        let NestedMachine { whole } = self;
        whole.at_body_law();
        whole.safe_law();
        Box::into_inner(whole).finish()
    }
}
