//! What follows from the definitions: the invariant holds in every state of every run, and what it holds of is safe.

ghost use Rattle.std.specs.Prelude.{◌≡◌, ◌≢◌, ◌⊎◌, ℕ, ◌/◌, ◌^◌, ◌<◌, ◌≤◌, List, length, false, true};
ghost use Rattle.irq_plan.specs.declared.event.Event.{Event};
ghost use Rattle.irq_plan.specs.declared.event.What.{What};
ghost use Rattle.irq_plan.specs.PlannedEvents.{IsPlan, IsPlannable};
ghost use Rattle.nk_bits.specs.Accesses.{wp_of};
ghost use Rattle.nk_bits.specs.EntryForms.{has_form, has_leaf_form, has_table_form};
ghost use Rattle.nk_bits.specs.declared.kind.Kind.TheVariants.{Hidden};
ghost use Rattle.nk_bits.specs.Kinds.{kind_of, level_of};
ghost use Rattle.nk_bits.specs.Paging.{is_present};
ghost use Rattle.nk_bits.specs.Translations.{translation};
ghost use Rattle.phys_mem.specs.MaskedMemory.{is_book_frame, masked, seen};
ghost use Rattle.phys_mem.specs.Memory.{byte_at, entry_in};
ghost use Rattle.boot_map.specs.KernelSlot.{IsNamedIn};
ghost use Rattle.page_walk.specs.MemoryAccess.{view_of};
ghost use Rattle.cpu_step.specs.EventsTaken.{event_taken};
ghost use Rattle.cpu_step.specs.declared.touched.Touched.TheVariants.{Any};
ghost use Rattle.cpu_step.specs.FramesTouched.{turn_touched};
ghost use Rattle.cpu_step.specs.InstructionFetch.{instruction_at};
ghost use Rattle.cpu_step.specs.TurnStores.{turn_stores};
ghost use Rattle.cpu_step.specs.Processor.{IsSound, Processor};
ghost use Rattle.cpu_step.specs.Turns.{enters_body, turned};
ghost use Rattle.nk_body.specs.NestedRecord.{AreBooks, Books};
ghost use Rattle.gate_state.specs.declared.moves.Move.TheVariants.{Turn};
ghost use Rattle.gate_state.specs.AnyVector.{DeliversAny};
ghost use Rattle.gate_state.specs.GateCalls.{IsCalledBack, IsCalledThrough, IsCalling};
ghost use Rattle.gate_state.specs.GuardedStates.{IsAdmitted, IsGuarded};
ghost use Rattle.gate_state.specs.HighestPendingLaws.{HighestPendingLaws};
ghost use Rattle.gate_state.specs.MachineOf.{IsAtBody, IsInGates};
ghost use Rattle.gate_state.specs.MachineOpening.{opening_state};
ghost use Rattle.gate_state.specs.MachineStates.{MachineState, Opening, nested_of};
ghost use Rattle.gate_state.specs.MachineSteps.{after_event, after_turn, calls, made_by_all, move_of, nested_after, next, seen_by, served, shown_by_turn, state, turn_of};
ghost use Rattle.gate_state.specs.SafeStates.{IsSafe, TakesTurn};
ghost use Rattle.gate_state.specs.ShownSteps.{IsShown, IsShownCall};
ghost use Rattle.gate_state.specs.SourceBytes.{source_read};
ghost use Rattle.gate_state.specs.StepsTaken.{CountsSteps};
ghost use Rattle.gate_state.specs.WindowLeft.{ComesNearer, IsNearer, IsShortWindow, left};

use boot_map::{
    opening_bytes_law, opening_entries_law, opening_kinds_law, slot_law, slot_leaf_law,
    slot_upper_law,
};
use cpu_step::{alike_fetch_law, fetch_law, pending_law, turn_stores_law};
use decode_fields::{longer_law, prefixes_law};
use elf_image::entry_law;
use gate_text::listing_law;
use nk_bits::{access_law, kept_law, kind_law, upper_law, walk_law};
use nk_body::{call_law, call_leaves_law, opening_sound_law, stores_law};
use page_desc::{count_law, sound_law};
use phys_mem::{frame_law, mask_law, memory_law};
use trap_unit::alike_reads_law;
use x86_alu::flag_law;
use x86_decode::{decoding_law, spelling_law};
use x86_regs::{alike_law, bound_law, effect_law, grant_law};

/// Each kind of step keeps the invariant, over which a state is safe, the processor sound and, with WP clear, in the gates
/// or at the body; books stay those of memory over a turn. What a turn and a call show are bytes, and numbers of 64 bits.
/// With WP clear, a turn sets it or leaves fewer turns until it is set, and so does the body. Bytes in the books' frames
/// change none of this. A turn that is told to touch any byte changes none outside the trap stack.
pub(crate) fn steps_law()
    ensures opening { (o : Opening) (input : List ℕ) → IsAdmitted o → IsGuarded o (opening_state o input) }
    ensures event { (o : Opening) (s : MachineState) (what : What) → IsAdmitted o → IsPlannable what
        → IsGuarded o s → IsGuarded o (after_event what s) }
    ensures turn { (o : Opening) (s : MachineState) → IsAdmitted o → TakesTurn s.processor
        → IsGuarded o s → IsGuarded o (after_turn s) }
    ensures body { (o : Opening) (s : MachineState) → IsAdmitted o → enters_body s.processor ≡ true
        → IsGuarded o s → IsGuarded o (served s) }
    ensures stays { (o : Opening) (s : MachineState) → IsAdmitted o → TakesTurn s.processor
        → IsGuarded o s → nested_of (after_turn s) ≡ nested_of s }
    ensures books { (o : Opening) (s : MachineState) (books : Books) → IsAdmitted o → TakesTurn s.processor
        → IsGuarded o s → books.frames.kinds ≡ s.kinds → AreBooks books s.memory → AreBooks books (after_turn s).memory }
    ensures serves { (o : Opening) (s : MachineState) → IsAdmitted o → IsGuarded o s
        → nested_of (served s) ≡ nested_after s }
    ensures safe { (o : Opening) (s : MachineState) → IsAdmitted o → IsGuarded o s → IsSafe o s }
    ensures in_gates { (o : Opening) (s : MachineState) → IsAdmitted o → IsGuarded o s
        → wp_of s.processor.control.cr0 ≡ false → enters_body s.processor ≡ false → IsInGates s.processor }
    ensures at_body { (o : Opening) (s : MachineState) → IsAdmitted o → IsGuarded o s
        → enters_body s.processor ≡ true → IsAtBody s.processor }
    ensures called { (o : Opening) (s : MachineState) (plan : List Event) (k : ℕ) → IsAdmitted o → IsPlan plan
        → IsGuarded o s → IsCalling s.processor → IsCalledThrough plan s k }
    ensures delivers { (o : Opening) (s : MachineState) → IsAdmitted o → IsGuarded o s → DeliversAny s }
    ensures sound { (o : Opening) (s : MachineState) → IsAdmitted o → IsGuarded o s
        → IsSound (length s.memory) s.processor }
    ensures shown { (o : Opening) (s : MachineState) → IsAdmitted o → TakesTurn s.processor
        → IsGuarded o s → IsShown (shown_by_turn (turn_of s).stepped) }
    ensures shown_call { (o : Opening) (s : MachineState) → IsAdmitted o → IsGuarded o s → s.turns < 2 ^ 62
        → IsShownCall s }
    ensures turn_left { (o : Opening) (s : MachineState) → IsAdmitted o → TakesTurn s.processor → IsGuarded o s
        → wp_of s.processor.control.cr0 ≡ false → IsNearer s.processor (after_turn s).processor }
    ensures body_left { (o : Opening) (s : MachineState) → IsAdmitted o → enters_body s.processor ≡ true
        → IsGuarded o s → left (served s).processor < left s.processor }
    ensures masked_turn { (o : Opening) (s : MachineState) (m : List ℕ) → IsAdmitted o → TakesTurn s.processor
        → IsGuarded o s → masked (is_book_frame o.frames) m ≡ s.memory
        → ((turned s.processor m).processor ≡ (turn_of s).processor)
        × ((turned s.processor m).stepped ≡ (turn_of s).stepped)
        × (masked (is_book_frame o.frames) (turned s.processor m).memory ≡ (turn_of s).memory) }
    ensures masked_stays { (o : Opening) (s : MachineState) (m : List ℕ) (place : ℕ) → IsAdmitted o
        → TakesTurn s.processor → IsGuarded o s → masked (is_book_frame o.frames) m ≡ s.memory
        → is_book_frame o.frames (place / 4096) ≡ true → byte_at (turned s.processor m).memory place ≡ byte_at m place }
    ensures masked_stores { (o : Opening) (s : MachineState) (m : List ℕ) → IsAdmitted o → TakesTurn s.processor
        → IsGuarded o s → masked (is_book_frame o.frames) m ≡ s.memory
        → turn_stores s.processor m ≡ turn_stores s.processor s.memory }
    ensures trapped { (o : Opening) (s : MachineState) (m : List ℕ) (place : ℕ) → IsAdmitted o → TakesTurn s.processor
        → IsGuarded o s → masked (is_book_frame o.frames) m ≡ s.memory → turn_touched s.processor m ≡ Any
        → place / 4096 ≢ 3 → byte_at (turned s.processor m).memory place ≡ byte_at m place }
    ensures masked_fetch { (o : Opening) (s : MachineState) (m : List ℕ) → IsAdmitted o → IsGuarded o s
        → masked (is_book_frame o.frames) m ≡ s.memory
        → instruction_at m (view_of m s.processor.control s.processor.regs.cpl) s.processor.regs.rip s.processor.tlb
        ≡ instruction_at s.memory (view_of s.memory s.processor.control s.processor.regs.cpl) s.processor.regs.rip
        s.processor.tlb }
    ensures masked_event { (o : Opening) (s : MachineState) (m : List ℕ) (what : What) → IsAdmitted o → IsGuarded o s
        → masked (is_book_frame o.frames) m ≡ s.memory
        → event_taken what m s.processor ≡ event_taken what s.memory s.processor }
    ensures masked_source { (o : Opening) (s : MachineState) (m : List ℕ) (va count : ℕ) → IsAdmitted o → IsGuarded o s
        → masked (is_book_frame o.frames) m ≡ s.memory
        → source_read m s.processor.control.root s.processor.tlb va count
        ≡ source_read s.memory s.processor.control.root s.processor.tlb va count }
    ensures masked_translation { (o : Opening) (s : MachineState) (m : List ℕ) (page : ℕ) → IsAdmitted o → IsGuarded o s
        → masked (is_book_frame o.frames) m ≡ s.memory
        → translation (entry_in m) (length m / 4096) s.processor.control.root s.processor.tlb page
        ≡ translation (entry_in s.memory) (length s.memory / 4096) s.processor.control.root s.processor.tlb page }
    ensures hidden { (o : Opening) (s : MachineState) (f : ℕ) → IsAdmitted o → IsGuarded o s → f < o.frames
        → kind_of s.kinds f ≡ Hidden → is_book_frame o.frames f ≡ true }
    ensures books_hidden { (o : Opening) (s : MachineState) (f : ℕ) → IsAdmitted o → IsGuarded o s
        → is_book_frame o.frames f ≡ true → kind_of s.kinds f ≡ Hidden }
{
    access_law();
    kept_law();
    upper_law();
    kind_law();
    memory_law();
    frame_law();
    slot_law();
    slot_leaf_law();
    slot_upper_law();
    opening_kinds_law();
    opening_bytes_law();
    opening_entries_law();
    opening_sound_law();
    count_law();
    sound_law();
    decoding_law();
    spelling_law();
    longer_law();
    prefixes_law();
    listing_law();
    flag_law();
    effect_law();
    grant_law();
    bound_law();
    fetch_law();
    pending_law();
    entry_law();
    call_law();
    call_leaves_law();
    stores_law();
    mask_law();
    walk_law();
    alike_law();
    alike_reads_law();
    alike_fetch_law();
    turn_stores_law();
}

/// Every state of every run is guarded, and so safe: in the opening, and after each step under any plan. In a guarded
/// state each vector can be delivered. What the nested kernel guards in a state is what the accepted calls make of the
/// opening's record. A call that is made through the gates with interrupts off comes back, and is answered. Of turns in a
/// row that each begin with WP clear there are at most eleven.
pub fn safety_law()
    ensures opening { (o : Opening) (input : List ℕ) → IsAdmitted o → IsGuarded o (opening_state o input) }
    ensures guarded { (o : Opening) (input : List ℕ) (plan : List Event) (k : ℕ) → IsAdmitted o → IsPlan plan
        → IsGuarded o (state plan (opening_state o input) k) }
    ensures delivers { (o : Opening) (s : MachineState) → IsAdmitted o → IsGuarded o s → DeliversAny s }
    ensures safe { (o : Opening) (input : List ℕ) (plan : List Event) (k : ℕ) → IsAdmitted o → IsPlan plan
        → IsSafe o (state plan (opening_state o input) k) }
    ensures nested { (o : Opening) (input : List ℕ) (plan : List Event) (k : ℕ) → IsAdmitted o → IsPlan plan
        → nested_of (state plan (opening_state o input) k)
        ≡ made_by_all (nested_of (opening_state o input)) (calls plan (opening_state o input) k) }
    ensures called { (o : Opening) (input : List ℕ) (plan : List Event) (n k : ℕ) → IsAdmitted o → IsPlan plan
        → IsCalling (state plan (opening_state o input) n).processor
        → IsCalledThrough plan (state plan (opening_state o input) n) k }
    ensures comes_back { (o : Opening) (input : List ℕ) (plan : List Event) (n : ℕ) → IsAdmitted o → IsPlan plan
        → IsCalling (state plan (opening_state o input) n).processor
        → IsCalledBack plan (state plan (opening_state o input) n) }
    ensures window { (o : Opening) (input : List ℕ) (plan : List Event) → IsAdmitted o → IsPlan plan
        → IsShortWindow plan (opening_state o input) }
{
    steps_law();
}

/// From a guarded state with WP clear, at least one turn and at most eleven are left until WP is set. A turn sets it or
/// leaves fewer, the body leaves fewer, and an event of the plan leaves CR0 and as many.
pub fn window_law()
    ensures within { (p : Processor) → (1 ≤ left p) × (left p ≤ 11) }
    ensures turn { (o : Opening) (s : MachineState) → IsAdmitted o → IsGuarded o s → TakesTurn s.processor
        → wp_of s.processor.control.cr0 ≡ false → IsNearer s.processor (after_turn s).processor }
    ensures body { (o : Opening) (s : MachineState) → IsAdmitted o → IsGuarded o s → enters_body s.processor ≡ true
        → left (served s).processor < left s.processor }
    ensures event { (what : What) (s : MachineState)
        → ((after_event what s).processor.control.cr0 ≡ s.processor.control.cr0)
        × (left (after_event what s).processor ≡ left s.processor) }
    ensures step { (o : Opening) (plan : List Event) (s : MachineState) → IsAdmitted o → IsGuarded o s
        → wp_of s.processor.control.cr0 ≡ false → ComesNearer (move_of plan s) s.processor (next plan s).processor }
{
    steps_law();
}

/// Every state of every run is guarded. What a step from a guarded state shows are bytes, and numbers of 64 bits; so
/// are the words of its call, with source and answer.
pub fn shown_law()
    ensures guarded { (o : Opening) (input : List ℕ) (plan : List Event) (k : ℕ) → IsAdmitted o → IsPlan plan
        → IsGuarded o (state plan (opening_state o input) k) }
    ensures seen { (o : Opening) (plan : List Event) (s : MachineState) → IsAdmitted o → IsGuarded o s
        → IsShown (seen_by (move_of plan s) s) }
    ensures called { (o : Opening) (s : MachineState) → IsAdmitted o → IsGuarded o s → s.turns < 2 ^ 62
        → IsShownCall s }
{
    steps_law();
}

/// Over a memory of which a guarded state's is what is seen where the books' frames are hidden, a turn does what it
/// does over the state's memory, stores the same bytes at the same places, and leaves the books' bytes; the fetch of an
/// instruction, an event, the reading of a source and the translation of a page do the same there.
pub fn masked_law()
    ensures turn { (o : Opening) (s : MachineState) (m : List ℕ) → IsAdmitted o → TakesTurn s.processor
        → IsGuarded o s → masked (is_book_frame o.frames) m ≡ s.memory
        → ((turned s.processor m).processor ≡ (turn_of s).processor)
        × ((turned s.processor m).stepped ≡ (turn_of s).stepped)
        × (masked (is_book_frame o.frames) (turned s.processor m).memory ≡ (turn_of s).memory) }
    ensures stays { (o : Opening) (s : MachineState) (m : List ℕ) (place : ℕ) → IsAdmitted o
        → TakesTurn s.processor → IsGuarded o s → masked (is_book_frame o.frames) m ≡ s.memory
        → is_book_frame o.frames (place / 4096) ≡ true → byte_at (turned s.processor m).memory place ≡ byte_at m place }
    ensures stores { (o : Opening) (s : MachineState) (m : List ℕ) → IsAdmitted o → TakesTurn s.processor
        → IsGuarded o s → masked (is_book_frame o.frames) m ≡ s.memory
        → turn_stores s.processor m ≡ turn_stores s.processor s.memory }
    ensures fetch { (o : Opening) (s : MachineState) (m : List ℕ) → IsAdmitted o → IsGuarded o s
        → masked (is_book_frame o.frames) m ≡ s.memory
        → instruction_at m (view_of m s.processor.control s.processor.regs.cpl) s.processor.regs.rip s.processor.tlb
        ≡ instruction_at s.memory (view_of s.memory s.processor.control s.processor.regs.cpl) s.processor.regs.rip
        s.processor.tlb }
    ensures event { (o : Opening) (s : MachineState) (m : List ℕ) (what : What) → IsAdmitted o → IsGuarded o s
        → masked (is_book_frame o.frames) m ≡ s.memory
        → event_taken what m s.processor ≡ event_taken what s.memory s.processor }
    ensures source { (o : Opening) (s : MachineState) (m : List ℕ) (va count : ℕ) → IsAdmitted o → IsGuarded o s
        → masked (is_book_frame o.frames) m ≡ s.memory
        → source_read m s.processor.control.root s.processor.tlb va count
        ≡ source_read s.memory s.processor.control.root s.processor.tlb va count }
    ensures translation { (o : Opening) (s : MachineState) (m : List ℕ) (page : ℕ) → IsAdmitted o → IsGuarded o s
        → masked (is_book_frame o.frames) m ≡ s.memory
        → translation (entry_in m) (length m / 4096) s.processor.control.root s.processor.tlb page
        ≡ translation (entry_in s.memory) (length s.memory / 4096) s.processor.control.root s.processor.tlb page }
{
    steps_law();
}

/// In a guarded state exactly the frames of the nested kernel's books are hidden.
pub fn hidden_law()
    ensures hidden { (o : Opening) (s : MachineState) (f : ℕ) → IsAdmitted o → IsGuarded o s → f < o.frames
        → kind_of s.kinds f ≡ Hidden → is_book_frame o.frames f ≡ true }
    ensures books { (o : Opening) (s : MachineState) (f : ℕ) → IsAdmitted o → IsGuarded o s
        → is_book_frame o.frames f ≡ true → kind_of s.kinds f ≡ Hidden }
{
    steps_law();
}

/// Of sixteen pending vectors the highest is the greatest of 32 to 47 that waits, and there is none where none waits.
pub fn highest_pending_law()
    ensures { HighestPendingLaws }
{}

/// A step takes one turn or one event of the plan; a machine that rests stays as it is.
pub fn moves_law()
    ensures { (plan : List Event) (s : MachineState) → CountsSteps plan (move_of plan s) s (next plan s) }
{}

/// Behind a turn a guarded state is guarded, and where the books are hidden in its memory, they stay so.
pub fn turns_law()
    ensures guarded { (o : Opening) (plan : List Event) (s : MachineState) → IsAdmitted o → IsGuarded o s
        → move_of plan s ≡ Turn → IsGuarded o (next plan s) }
    ensures seen { (o : Opening) (plan : List Event) (s : MachineState) → IsAdmitted o → IsGuarded o s
        → move_of plan s ≡ Turn → seen s.memory ≡ s.memory → seen (next plan s).memory ≡ (next plan s).memory }
{
    steps_law();
}

/// In a guarded state, as every state of every run of an admitted image is, each present entry of a page table has the
/// form of its level: of the tables by kind, linked or not, and of the kernel slot's own. Of these frame 6 is of level 3,
/// frames 7 and 9 are of level 2, and frame 8 and each frame that a present entry of frame 9 names are of level 1.
pub fn entry_forms_law()
    ensures tables { (o : Opening) (s : MachineState) (f i : ℕ) → IsAdmitted o → IsGuarded o s → i < 512
        → 1 ≤ level_of (kind_of s.kinds f) → is_present (entry_in s.memory f i) ≡ true
        → (level_of (kind_of s.kinds f) ≤ 4) × (has_form (level_of (kind_of s.kinds f)) (entry_in s.memory f i) ≡ true) }
    ensures slot_links { (o : Opening) (s : MachineState) (f i : ℕ) → IsAdmitted o → IsGuarded o s → i < 512
        → (f ≡ 6) ⊎ ((f ≡ 7) ⊎ (f ≡ 9)) → is_present (entry_in s.memory f i) ≡ true
        → has_table_form (entry_in s.memory f i) ≡ true }
    ensures slot_leaves { (o : Opening) (s : MachineState) (f i : ℕ) → IsAdmitted o → IsGuarded o s → i < 512
        → (f ≡ 8) ⊎ IsNamedIn (entry_in s.memory) 9 f → is_present (entry_in s.memory f i) ≡ true
        → has_leaf_form (entry_in s.memory f i) ≡ true }
{
    sound_law();
    opening_entries_law();
}
