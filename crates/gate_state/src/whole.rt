//! What the three states share: the machine with the opening of its run.

ghost use Rattle.std.specs.Prelude.{◌≡◌, ℕ, ◌+◌, ◌<◌, ◌≤◌, ◌^◌, true, false, slice_get, IfSome, OnSome, Some, None, length, ◌*◌, ◌/◌};
ghost use Rattle.irq_plan.specs.PlannedEvents.{IsPlannable};
ghost use Rattle.nk_bits.specs.Accesses.{wp_of};
ghost use Rattle.cpu_step.specs.FramesTouched.{turn_touched};
ghost use Rattle.cpu_step.specs.Processor.{IsSound};
ghost use Rattle.cpu_step.specs.Turns.{enters_body};
ghost use Rattle.phys_mem.specs.MaskedMemory.{seen};
ghost use Rattle.page_desc.specs.DescriptorBytes.{kinds_in};
ghost use Rattle.nk_body.specs.BooksTouched.{LeavesBooks};
ghost use Rattle.nk_body.specs.NestedRecord.{HoldsBooks, books_in};
ghost use Rattle.gate_state.specs.EventMoves.{IfTaken, IsBodyBy};
ghost use Rattle.gate_state.specs.MachineOf.{IsStanding, IsAtBody, IsInGates, IsOuter};
ghost use Rattle.gate_state.specs.MachineSteps.{after_event, after_turn, answered_with, asked_in, call_in, called_in, move_by, move_of, next, seen_by, served, shown_by_turn, turn_of, verdict_in, waits};
ghost use Rattle.gate_state.specs.QuietSteps.{IsHurried};
ghost use Rattle.gate_state.specs.SafeStates.{IsSafe, TakesTurn};
ghost use Rattle.gate_state.specs.StepsTouched.{KeepsOutside, ShowsWithin, of_turn, touched_by_call, touched_by_move, touched_if_shown};
ghost use Rattle.gate_state.specs.declared.seen.Step.TheVariants as told;
ghost use Rattle.gate_state.specs.declared.touched.StepTouched.TheVariants.{Frames};
ghost use Rattle.gate_state.specs.WholeMachine.{is_rest, known_of, next_whole, served_whole};
ghost use Rattle.gate_state.specs.WindowLeft.{ComesNearer, HasFewerLeft, left};

use crate::laws::{steps_law, window_law};
use crate::moves::Move;
use crate::seen::{Called, Seen};
use crate::source::{source_place, sourced, take_source};
use crate::touched::{StepTouched, TRAP_STACK, of_turn, touched_by_call};
use crate::turns_left::left;
use boot_map::Layout;
use cpu_step::{Cpu, Stepped};
use elf_image::Image;
use irq_plan::{Event, Plan, What};
use nk_bits::{Answer, CallWords, EXIT};
use nk_body::{Kernel, held_law};
use phys_mem::{PhysMem, frame_law, mask_law, memory_law};
use std::marker::Model;
use x86_regs::Regs;

/// Processor, memory with the books in it, and what the nested kernel keeps beside it, with how many turns and events were taken.
pub(crate) struct Whole<'i> {
    pub cpu: Cpu,
    pub mem: PhysMem,
    pub kernel: Kernel,
    pub turns: u64,
    pub taken: usize,
    /// The bytes that were read last for a call, with room for as many as a region has.
    pub source: Vec<u8>,
    pub image: &'i Image,
    pub layout: &'i Layout,
}

impl<'i> Model for Whole<'i> {
    ghost use Rattle.std.specs.Prelude.{◌≤◌, vec_capacity};
    ghost use Rattle.phys_mem.specs.MaskedMemory.{seen};
    ghost use Rattle.page_desc.specs.DescriptorBytes.{kinds_in};
    ghost use Rattle.nk_body.specs.NestedRecord.{books_in};
    ghost use Rattle.gate_state.specs.WholeMachine.{HeldState, IsWhole};

    ghost Value = { HeldState };

    ghost view = { λ w. record {
      opening = record { image = w.image.now; frames = w.layout.now.frames };
      state = record {
        processor = w.cpu;
        memory = seen w.mem;
        kinds = kinds_in w.mem;
        ledger = (books_in w.kernel w.mem).ledger;
        turns = w.turns;
        taken = w.taken;
      };
      source = w.source.items;
      real = w.mem;
    } };

    ghost invariant = { λ w. IsWhole (record { image = w.image.now; frames = w.layout.now.frames })
        (record {
          processor = w.cpu;
          memory = seen w.mem;
          kinds = kinds_in w.mem;
          ledger = (books_in w.kernel w.mem).ledger;
          turns = w.turns;
          taken = w.taken;
        }) w.kernel w.mem × (65536 ≤ vec_capacity w.source) };
}

impl<'i> Whole<'i> {
    /// The step from this state.
    pub fn next_move(&self, plan: &Plan) -> Move
        ensures moved { result ≡ move_of plan.now self.now.state }
        ensures planned { IfTaken result (λ what. IsPlannable what × (self.now.state.taken + 1 < 2 ^ 64)) }
        ensures body { IsBodyBy (enters_body self.now.state.processor) result }
    {
        if self.cpu.enters_body() {
            return Move::Serve;
        }
        move_by(&self.cpu, plan, self.turns, self.taken)
    }

    /// Takes the step from a state that doesn't rest and at which no body is to run, and tells the frames that it may have
    /// changed: every byte of memory outside them is as it was.
    pub fn advance(&mut self, plan: &Plan) -> (Seen, StepTouched)
        requires no_body { enters_body self.old.state.processor ≡ false }
        requires left { is_rest (move_of plan.now self.old.state) ≡ false }
        requires turns { self.old.state.turns < 4294967296 }
        ensures next { known_of self.new ≡ next_whole plan.now (known_of self.old) }
        ensures seen { result.0 ≡ seen_by (move_of plan.now self.old.state) self.old.state }
        ensures touched { KeepsOutside result.1 self.old.real self.new.real }
        ensures told { result.1 ≡ touched_by_move (move_of plan.now self.old.state) self.old.state self.old.real }
        ensures shown { ShowsWithin (told.Seen result.0) result.1 (touched_if_shown self.old.state self.old.real) }
    {
        match self.next_move(plan) {
            Move::Take(what) => (self.take(what), StepTouched::Nothing),
            Move::Turn => self.turn(),
            Move::Serve | Move::Rest => unreachable!(),
        }
    }

    /// Takes an event of the plan.
    fn take(&mut self, what: What) -> Seen
        requires what { IsPlannable what }
        requires count { self.old.state.taken + 1 < 2 ^ 64 }
        ensures taken { self.new ≡ record self.old { state = after_event what self.old.state } }
        ensures seen { result ≡ Seen.Event }
    {
        steps_law();
        mask_law();
        self.cpu.take_event(&self.mem, what);
        self.taken += 1;
        Seen::Event
    }

    /// Takes a turn of the processor, and tells the frames that it may have changed.
    fn turn(&mut self) -> (Seen, StepTouched)
        requires takes { TakesTurn self.old.state.processor }
        requires turns { self.old.state.turns < 4294967296 }
        ensures turned { known_of self.new ≡ record (known_of self.old) { state = after_turn self.old.state } }
        ensures seen { result.0 ≡ shown_by_turn (turn_of self.old.state).stepped }
        ensures touched { KeepsOutside result.1 self.old.real self.new.real }
        ensures told { result.1 ≡ of_turn (turn_touched self.old.state.processor self.old.real) }
        ensures shown { ShowsWithin (told.Seen result.0) result.1 (Frames 3 3) }
    {
        steps_law();
        mask_law();
        held_law();
        let (stepped, touched) = self.cpu.step_touching(&mut self.mem);
        self.turns += 1;
        (seen_of(stepped), of_turn(touched))
    }

    /// Takes quick turns, if there are any, until the next event is due or so many turns were taken in all.
    pub fn hurry(&mut self, plan: &Plan, limit: u64)
        ensures hurried { IsHurried plan.now limit (known_of self.old) (known_of self.new) }
        ensures control { self.new.state.processor.control ≡ self.old.state.processor.control }
        ensures nearer { wp_of self.old.state.processor.control.cr0 ≡ false → HasFewerLeft self.old.state self.new.state }
    {
        steps_law();
        window_law();
        mask_law();
        held_law();
        let until = self.until(plan, limit);
        if self.turns < until {
            self.turns += self.cpu.quick_turns(&mut self.mem, until - self.turns);
        }
    }

    /// How many turns may be taken in all before an event is looked for.
    fn until(&self, plan: &Plan, limit: u64) -> u64
        ensures limit { result ≤ limit }
        ensures event { IfSome (slice_get plan.now self.now.state.taken) (λ event. result ≤ event.due) }
    {
        if self.taken < plan.len() {
            limit.min(plan.event(self.taken).due)
        } else {
            limit
        }
    }

    /// Runs the nested kernel's body, and tells the frames that it may have changed.
    pub fn serve(&mut self) -> (Called, StepTouched)
        requires body { enters_body self.old.state.processor ≡ true }
        requires turns { self.old.state.turns < 4294967296 }
        ensures served { known_of self.new ≡ served_whole (known_of self.old) }
        ensures called { result.0 ≡ called_in self.old.state }
        ensures refused { OnSome (verdict_in self.old.state) (self.new.real ≡ self.old.real) }
        ensures leaves { LeavesBooks self.old.state.ledger.book (asked_in self.old.state) self.old.real self.new.real }
        ensures touched { KeepsOutside result.1 self.old.real self.new.real }
        ensures told { result.1 ≡ touched_by_call (length self.old.real / 4096) self.old.state.ledger.book (asked_in self.old.state) }
    {
        steps_law();
        memory_law();
        frame_law();
        mask_law();
        let call = call_in(self.cpu.regs());
        let touched = touched_by_call(&self.kernel, &self.mem, &call);
        let wanted = self.kernel.wants(&self.mem, &call);
        let place = source_place(&call);
        let took = take_source(&mut self.cpu, &self.mem, place, wanted, &mut self.source);
        let source = sourced(took, &self.source);
        let answer = self.kernel.serve(&mut self.mem, &call, source);
        answer_with(&mut self.cpu, &answer, self.kernel.root());
        self.turns += 1;
        let called = Called {
            call,
            source: took,
            answer,
        };
        (called, touched)
    }

    /// What the step from this state may change of memory, if it shows something.
    pub fn touches_if_shown(&self) -> StepTouched
        ensures { result ≡ touched_if_shown self.now.state self.now.real }
    {
        if self.is_at_body() {
            touched_by_call(&self.kernel, &self.mem, &call_in(self.cpu.regs()))
        } else {
            StepTouched::Frames(TRAP_STACK, TRAP_STACK)
        }
    }

    /// Whether WP is set.
    pub fn keeps_supervisor(&self) -> bool
        ensures { result ≡ wp_of self.now.state.processor.control.cr0 }
    {
        self.cpu.control().write_protect()
    }

    /// Whether the nested kernel's body is to run.
    pub fn is_at_body(&self) -> bool
        ensures { result ≡ enters_body self.now.state.processor }
    {
        self.cpu.enters_body()
    }

    /// With WP clear the machine never rests.
    pub(crate) fn running_law(&self, plan: &Plan)
        requires { wp_of self.now.state.processor.control.cr0 ≡ false }
        ensures { is_rest (move_of plan.now self.now.state) ≡ false }
    {
        let _taken = self.taken;
    }

    /// Nor does it at the body.
    pub(crate) fn serving_law(&self, plan: &Plan)
        requires { enters_body self.now.state.processor ≡ true }
        ensures { is_rest (move_of plan.now self.now.state) ≡ false }
    {
        let _taken = self.taken;
    }

    /// With WP set, the machine is the outer kernel's.
    pub(crate) fn outer_law(&self)
        requires { wp_of self.now.state.processor.control.cr0 ≡ true }
        ensures { IsStanding IsOuter self.now.opening self.now.state }
    {
        let _taken = self.taken;
    }

    /// With WP clear, where no body is to run, the supervisor stands in the gates.
    pub(crate) fn in_gates_law(&self)
        requires clear { wp_of self.now.state.processor.control.cr0 ≡ false }
        requires no_body { enters_body self.now.state.processor ≡ false }
        ensures { IsStanding IsInGates self.now.opening self.now.state }
    {
        steps_law();
        let _taken = self.taken;
    }

    /// Where the body is to run, the supervisor stands at its place.
    pub(crate) fn at_body_law(&self)
        requires { enters_body self.now.state.processor ≡ true }
        ensures { IsStanding IsAtBody self.now.opening self.now.state }
    {
        steps_law();
        let _taken = self.taken;
    }

    /// With WP clear, the step from this state comes nearer to where WP is set.
    pub(crate) fn nearer_law(&self, plan: &Plan)
        requires clear { wp_of self.now.state.processor.control.cr0 ≡ false }
        ensures { ComesNearer (move_of plan.now self.now.state) self.now.state.processor
            (next plan.now self.now.state).processor }
    {
        window_law();
        let _taken = self.taken;
    }

    /// Behind the body fewer turns are left.
    pub(crate) fn served_law(&self)
        requires body { enters_body self.now.state.processor ≡ true }
        ensures { left (served self.now.state).processor < left self.now.state.processor }
    {
        window_law();
        let _taken = self.taken;
    }

    /// How many turns are left until WP is set.
    pub fn left(&self) -> u8
        ensures left { result ≡ left self.now.state.processor }
        ensures some { 1 ≤ result }
        ensures most { result ≤ 11 }
    {
        window_law();
        left(self.cpu.regs())
    }

    /// What the invariant gives: the state is safe.
    pub(crate) fn safe_law(&self)
        ensures { IsSafe self.now.opening self.now.state }
    {
        steps_law();
        let _taken = self.taken;
    }

    /// The processor.
    pub(crate) fn processor(&self) -> &Cpu
        ensures processor { result.now ≡ self.now.state.processor }
        ensures sound { IsSound (length self.now.state.memory) result.now }
    {
        steps_law();
        &self.cpu
    }

    /// Memory, with what the nested kernel hides in it.
    pub(crate) fn memory(&self) -> &PhysMem
        ensures seen { seen result.now ≡ self.now.state.memory }
        ensures length { length result.now ≡ length self.now.state.memory }
        ensures size { length result.now ≡ 4096 * self.now.opening.frames }
        ensures real { result.now ≡ self.now.real }
    {
        mask_law();
        &self.mem
    }

    /// Memory and books.
    pub fn finish(self) -> Finished
        ensures memory { seen result.mem ≡ self.entry.state.memory }
        ensures real { result.mem ≡ self.entry.real }
        ensures size { length result.mem ≡ 4096 * self.entry.opening.frames }
        ensures kinds { kinds_in result.mem ≡ self.entry.state.kinds }
        ensures root { result.kernel.root ≡ self.entry.state.processor.control.root }
        ensures ledger { (books_in result.kernel result.mem).ledger ≡ self.entry.state.ledger }
        ensures books { HoldsBooks result.kernel result.mem }
    {
        mask_law();
        let Whole {
            cpu: _,
            mem,
            kernel,
            turns: _,
            taken: _,
            source: _,
            image: _,
            layout: _,
        } = self;
        Finished { mem, kernel }
    }
}

/// Memory and books of a machine that was spent.
#[derive(Drop)]
pub struct Finished {
    pub mem: PhysMem,
    pub kernel: Kernel,
}

/// The step that the next event of the plan decides, or that none is left.
fn move_by(cpu: &Cpu, plan: &Plan, turns: u64, taken: usize) -> Move
    ensures moved { result ≡ move_by (slice_get plan.now taken) turns cpu.now }
    ensures planned { IfTaken result (λ what. IsPlannable what × (taken + 1 < 2 ^ 64)) }
{
    if taken < plan.len() {
        move_before(&plan.event(taken), turns, cpu)
    } else {
        move_without(cpu)
    }
}

/// The step where this event is the next one.
fn move_before(event: &Event, turns: u64, cpu: &Cpu) -> Move
    ensures { result ≡ move_by (Some event.now) turns cpu.now }
{
    if event.due <= turns || waits(cpu) {
        Move::Take(event.what)
    } else {
        Move::Turn
    }
}

/// The step where no event is left.
fn move_without(cpu: &Cpu) -> Move
    ensures { (turns : ℕ) → result ≡ move_by None turns cpu.now }
{
    if waits(cpu) { Move::Rest } else { Move::Turn }
}

/// Whether the processor is halted, and no pending vector wakes it.
fn waits(cpu: &Cpu) -> bool
    ensures { result ≡ waits cpu.now }
{
    cpu.halted() && cpu.deliverable().is_none()
}

/// What a turn shows.
fn seen_of(stepped: Stepped) -> Seen
    ensures { result ≡ shown_by_turn stepped }
{
    match stepped {
        Stepped::Ran | Stepped::Shutdown => Seen::Quiet,
        Stepped::Console(byte) => Seen::Console(byte),
        Stepped::Delivered(it) => Seen::Delivered(it),
    }
}

/// The call that the registers hold: its number in RDI, its arguments in RSI, RDX, RCX and R8.
fn call_in(regs: &Regs) -> CallWords
    ensures { result ≡ call_in regs.now }
{
    CallWords {
        number: regs.general[7],
        a: regs.general[6],
        b: regs.general[2],
        c: regs.general[1],
        d: regs.general[8],
    }
}

/// The processor behind the body: R9 has the answer, RDX the place of a region, if one was placed.
fn answer_with(cpu: &mut Cpu, answer: &Answer, root: u32)
    ensures { cpu.new ≡ answered_with answer.now root cpu.old }
{
    cpu.set_reg(9, answer.value);
    if let Some(place) = answer.place {
        cpu.set_reg(2, place);
    }
    cpu.set_rip(EXIT);
    cpu.set_root(root);
    if answer.flush {
        cpu.tlb_mut().flush();
    }
}
