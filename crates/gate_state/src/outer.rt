//! The outer kernel's machine: WP is set.

ghost use Rattle.std.specs.Prelude.{◌≡◌, ◌<◌, true, false, IfOk, None, [], length, ◌*◌};
ghost use Rattle.nk_bits.specs.KernelLayout.{opening_root};
ghost use Rattle.boot_map.specs.Division.{IsLayout};
ghost use Rattle.boot_map.specs.Opening.{IsOpening};
ghost use Rattle.boot_map.specs.OpeningKinds.{kinds};
ghost use Rattle.byte_scanner.specs.FirstFound.{first_found};
ghost use Rattle.phys_mem.specs.MaskedMemory.{seen};
ghost use Rattle.page_desc.specs.DescriptorBytes.{kinds_in};
ghost use Rattle.nk_body.specs.NestedRecord.{HoldsBooks, books_in};
ghost use Rattle.nk_body.specs.SourceWords.{opening_ledger};
ghost use Rattle.cpu_step.specs.Turns.{enters_body};
ghost use Rattle.gate_state.specs.MachineOf.{IsStanding, IsOf, IsOuter, real_of, whole_of};
ghost use Rattle.gate_state.specs.MachineOpening.{opening_state};
ghost use Rattle.gate_state.specs.MachineSteps.{move_of, seen_by};
ghost use Rattle.gate_state.specs.QuietSteps.{IsHurried};
ghost use Rattle.gate_state.specs.StepsTouched.{KeepsOutside, ShowsWithin, touched_by_move, touched_if_shown};
ghost use Rattle.gate_state.specs.declared.seen.Step.TheVariants as told;
ghost use Rattle.gate_state.specs.SafeStates.{IsSafe};
ghost use Rattle.gate_state.specs.WholeMachine.{is_rest, known_of, next_whole};

use crate::laws::safety_law;
use crate::machine::{Machine, step};
use crate::moves::Move;
use crate::opening::{NoMemory, opening_cpu};
use crate::seen::Seen;
use crate::touched::StepTouched;
use crate::whole::{Finished, Whole};
use boot_map::Layout;
use byte_scanner::clean_image_law;
use elf_image::Image;
use irq_plan::Plan;
use nk_body::Kernel;
use phys_mem::PhysMem;
use std::alloc::Global;
use std::marker::Model;

/// The most bytes that are read for a call: those of the greatest region.
const MOST_READ: usize = 65_536;

/// The machine with WP set: the outer kernel runs, or the gates do before they clear WP and after they set it.
pub struct OuterMachine<'i> {
    pub(crate) whole: Box<Whole<'i>>,
}

impl<'i> Model for OuterMachine<'i> {
    ghost use Rattle.std.specs.Prelude.{◌≡◌, true};
    ghost use Rattle.nk_bits.specs.Accesses.{wp_of};
    ghost use Rattle.gate_state.specs.WholeMachine.{HeldState};

    ghost Value = { HeldState };

    ghost view = { λ m. m.whole.value };

    ghost invariant = { λ m. wp_of m.whole.value.state.processor.control.cr0 ≡ true };
}

impl<'i> OuterMachine<'i> {
    /// The machine as a run of the image begins, with the memory and the books of its opening.
    ///
    /// Returns an error where there is no room for the processor's translations, or for the bytes that are read for a
    /// call; memory, books and input are dropped.
    pub fn start(
        alloc: Global,
        mem: PhysMem,
        kernel: Kernel,
        image: &'i Image,
        layout: &'i Layout,
        input: Vec<u8>,
    ) -> Result<OuterMachine<'i>, NoMemory>
        requires layout { IsLayout image.now layout.now }
        requires opening { IsOpening image.now layout.now.frames (seen mem) }
        requires kinds { kinds_in mem ≡ kinds image.now layout.now.frames }
        requires root { kernel.root ≡ opening_root }
        requires ledger { (books_in kernel mem).ledger ≡ opening_ledger }
        requires books { HoldsBooks kernel mem }
        requires clean { first_found image.now ≡ None }
        ensures opening { IfOk result (λ machine. machine.opening ≡ record { image = image.now; frames = layout.now.frames }) }
        ensures state { IfOk result (λ machine. machine.state
            ≡ opening_state (record { image = image.now; frames = layout.now.frames }) input.items) }
        ensures source { IfOk result (λ machine. machine.source ≡ []) }
        ensures outer { IfOk result (λ machine. IsStanding IsOuter machine.opening machine.state) }
    {
        safety_law();
        clean_image_law(image);
        let _entry = image.entry();
        let _pages = image.pages();
        let cpu = match opening_cpu(alloc, image, layout, input) {
            Ok(cpu) => cpu,
            Err(fault) => return Err(fault),
        };
        let Ok(source) = Vec::with_capacity(alloc, MOST_READ) else {
            return Err(NoMemory);
        };
        let whole = Whole {
            cpu,
            mem,
            kernel,
            turns: 0,
            taken: 0,
            source,
            image,
            layout,
        };
        whole.outer_law();
        match Box::new(alloc, whole) {
            Ok(whole) => Ok(OuterMachine { whole }),
            Err(failed) => {
                drop(failed.value.finish());
                Err(NoMemory)
            }
        }
    }

    /// One step: an event of the plan, or a turn; with what it shows.
    pub fn step(self, plan: &Plan) -> (Machine<'i>, Seen)
        requires left { is_rest (move_of plan.now self.state) ≡ false }
        requires turns { self.state.turns < 4294967296 }
        ensures next { whole_of result.0 ≡ next_whole plan.now (known_of self.entry) }
        ensures seen { result.1 ≡ seen_by (move_of plan.now self.entry.state) self.entry.state }
        ensures no_body { enters_body self.entry.state.processor ≡ false }
        ensures safe { IsSafe self.entry.opening self.entry.state }
        ensures outer { IsStanding IsOuter self.entry.opening self.entry.state }
        ensures sorted { IsOf result.0 }
    {
        let (machine, seen, _) = self.step_touching(plan);
        (machine, seen)
    }

    /// The same step, with the frames that it may have changed: every byte of memory outside them is as it was.
    pub(crate) fn step_touching(self, plan: &Plan) -> (Machine<'i>, Seen, StepTouched)
        requires left { is_rest (move_of plan.now self.state) ≡ false }
        requires turns { self.state.turns < 4294967296 }
        ensures next { whole_of result.0 ≡ next_whole plan.now (known_of self.entry) }
        ensures seen { result.1 ≡ seen_by (move_of plan.now self.entry.state) self.entry.state }
        ensures no_body { enters_body self.entry.state.processor ≡ false }
        ensures safe { IsSafe self.entry.opening self.entry.state }
        ensures outer { IsStanding IsOuter self.entry.opening self.entry.state }
        ensures sorted { IsOf result.0 }
        ensures touched { KeepsOutside result.2 self.entry.real (real_of result.0) }
        ensures told { result.2 ≡ touched_by_move (move_of plan.now self.entry.state) self.entry.state self.entry.real }
        ensures shown { ShowsWithin (told.Seen result.1) result.2 (touched_if_shown self.entry.state self.entry.real) }
    {
        let OuterMachine { whole } = self;
        whole.outer_law();
        step(whole, plan)
    }

    /// Goes on by quick turns, if there are any: steps that show nothing, each from a safe state, until the plan's next event
    /// is due or so many turns were taken in all.
    pub fn hurry(self, plan: &Plan, limit: u64) -> OuterMachine<'i>
        ensures hurried { IsHurried plan.now limit (known_of self.entry) (known_of result) }
        ensures outer { IsStanding IsOuter result.opening result.state }
    {
        let OuterMachine { mut whole } = self;
        whole.hurry(plan, limit);
        whole.outer_law();
        OuterMachine { whole }
    }

    /// Whether the machine is halted for good: no vector wakes it, and no event of the plan is left.
    pub fn done(&self, plan: &Plan) -> bool
        ensures done { result ≡ is_rest (move_of plan.now self.now.state) }
        ensures outer { IsStanding IsOuter self.now.opening self.now.state }
    {
        self.whole.outer_law();
        matches!(self.whole.next_move(plan), Move::Rest)
    }

    /// How many turns were taken.
    pub fn turns(&self) -> u64
        ensures { result ≡ self.now.state.turns }
    {
        self.whole.turns
    }

    /// The bytes that were read last for a call.
    pub fn source(&self) -> &[u8]
        ensures { result.now ≡ self.now.source }
    {
        &self.whole.source
    }

    /// Memory and books, at the end of a run.
    pub fn finish(self) -> Finished
        ensures memory { seen result.mem ≡ self.entry.state.memory }
        ensures real { result.mem ≡ self.entry.real }
        ensures size { length result.mem ≡ 4096 * self.entry.opening.frames }
        ensures kinds { kinds_in result.mem ≡ self.entry.state.kinds }
        ensures root { result.kernel.root ≡ self.entry.state.processor.control.root }
        ensures ledger { (books_in result.kernel result.mem).ledger ≡ self.entry.state.ledger }
        ensures books { HoldsBooks result.kernel result.mem }
        ensures safe { IsSafe self.entry.opening self.entry.state }
        ensures outer { IsStanding IsOuter self.entry.opening self.entry.state }
    {
        let OuterMachine { whole } = self;
        whole.outer_law();
        whole.safe_law();
        Box::into_inner(whole).finish()
    }
}
