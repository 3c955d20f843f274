//! What the laws on guarded states leave no room for. Each function calls a law, and says of each of its clauses what
//! it refuses: a clause that is dropped, or that asks for more, is missed here.

ghost use Rattle.std.specs.Prelude.{◌≡◌, ◌≢◌, ◌⊎◌, ℕ, ◌-◌, ◌/◌, ◌^◌, ◌<◌, ◌≤◌, List, None, Some, false, true};
ghost use Rattle.irq_plan.specs.declared.event.Event.{Event};
ghost use Rattle.irq_plan.specs.declared.event.What.{What};
ghost use Rattle.nk_bits.specs.Accesses.{wp_of};
ghost use Rattle.nk_bits.specs.EntryForms.{has_form, has_leaf_form, has_table_form};
ghost use Rattle.nk_bits.specs.declared.kind.Kind.TheVariants.{Hidden};
ghost use Rattle.nk_bits.specs.Kinds.{kind_of, level_of};
ghost use Rattle.nk_bits.specs.Paging.{is_present};
ghost use Rattle.phys_mem.specs.MaskedMemory.{is_book_frame, masked};
ghost use Rattle.phys_mem.specs.Memory.{byte_at, entry_in};
ghost use Rattle.boot_map.specs.KernelSlot.{IsNamedIn};
ghost use Rattle.page_walk.specs.MemoryAccess.{view_of};
ghost use Rattle.cpu_step.specs.EventsTaken.{event_taken};
ghost use Rattle.cpu_step.specs.InstructionFetch.{instruction_at};
ghost use Rattle.x86_alu.specs.SignedNumbers.{bit};
ghost use Rattle.cpu_step.specs.Processor.{Processor, highest_pending};
ghost use Rattle.cpu_step.specs.TurnStores.{turn_stores};
ghost use Rattle.cpu_step.specs.Turns.{enters_body, turned};
ghost use Rattle.gate_state.specs.GuardedStates.{IsAdmitted, IsGuarded};
ghost use Rattle.gate_state.specs.MachineStates.{MachineState, Opening};
ghost use Rattle.gate_state.specs.MachineSteps.{after_event, after_turn, move_of, next, served, turn_of};
ghost use Rattle.gate_state.specs.SafeStates.{TakesTurn};
ghost use Rattle.gate_state.specs.SourceBytes.{source_read};
ghost use Rattle.gate_state.specs.WindowLeft.{ComesNearer, left};

use gate_state::{entry_forms_law, hidden_law, highest_pending_law, masked_law, window_law};

/// Over memory as it is, the books in it, a turn from a guarded state ends no otherwise than over the state's, shows
/// and stores nothing else, and changes no byte of the books; nor is another instruction fetched, another event taken,
/// or another source read.
pub fn other_over_real_memory()
    ensures processor { (o : Opening) (s : MachineState) (m : List ℕ) → IsAdmitted o → TakesTurn s.processor
        → IsGuarded o s → masked (is_book_frame o.frames) m ≡ s.memory
        → (turned s.processor m).processor ≢ (turn_of s).processor → ⊥ }
    ensures shown { (o : Opening) (s : MachineState) (m : List ℕ) → IsAdmitted o → TakesTurn s.processor
        → IsGuarded o s → masked (is_book_frame o.frames) m ≡ s.memory
        → (turned s.processor m).stepped ≢ (turn_of s).stepped → ⊥ }
    ensures memory { (o : Opening) (s : MachineState) (m : List ℕ) → IsAdmitted o → TakesTurn s.processor
        → IsGuarded o s → masked (is_book_frame o.frames) m ≡ s.memory
        → masked (is_book_frame o.frames) (turned s.processor m).memory ≢ (turn_of s).memory → ⊥ }
    ensures books { (o : Opening) (s : MachineState) (m : List ℕ) (place : ℕ) → IsAdmitted o → TakesTurn s.processor
        → IsGuarded o s → masked (is_book_frame o.frames) m ≡ s.memory → is_book_frame o.frames (place / 4096) ≡ true
        → byte_at (turned s.processor m).memory place ≢ byte_at m place → ⊥ }
    ensures stores { (o : Opening) (s : MachineState) (m : List ℕ) → IsAdmitted o → TakesTurn s.processor
        → IsGuarded o s → masked (is_book_frame o.frames) m ≡ s.memory
        → turn_stores s.processor m ≢ turn_stores s.processor s.memory → ⊥ }
    ensures fetch { (o : Opening) (s : MachineState) (m : List ℕ) → IsAdmitted o → IsGuarded o s
        → masked (is_book_frame o.frames) m ≡ s.memory
        → instruction_at m (view_of m s.processor.control s.processor.regs.cpl) s.processor.regs.rip s.processor.tlb
        ≢ instruction_at s.memory (view_of s.memory s.processor.control s.processor.regs.cpl) s.processor.regs.rip
        s.processor.tlb → ⊥ }
    ensures event { (o : Opening) (s : MachineState) (m : List ℕ) (what : What) → IsAdmitted o → IsGuarded o s
        → masked (is_book_frame o.frames) m ≡ s.memory
        → event_taken what m s.processor ≢ event_taken what s.memory s.processor → ⊥ }
    ensures source { (o : Opening) (s : MachineState) (m : List ℕ) (va count : ℕ) → IsAdmitted o → IsGuarded o s
        → masked (is_book_frame o.frames) m ≡ s.memory
        → source_read m s.processor.control.root s.processor.tlb va count
        ≢ source_read s.memory s.processor.control.root s.processor.tlb va count → ⊥ }
{
    masked_law();
}

/// In a guarded state no frame beside the books' is hidden, and no book stands in a frame that isn't.
pub fn otherwise_hidden()
    ensures beside { (o : Opening) (s : MachineState) (f : ℕ) → IsAdmitted o → IsGuarded o s → f < o.frames
        → kind_of s.kinds f ≡ Hidden → is_book_frame o.frames f ≡ false → ⊥ }
    ensures seen { (o : Opening) (s : MachineState) (f : ℕ) → IsAdmitted o → IsGuarded o s
        → is_book_frame o.frames f ≡ true → kind_of s.kinds f ≢ Hidden → ⊥ }
{
    hidden_law();
}

/// With WP clear there are never twelve turns left, nor none; a turn and the body leave no more than there were, and an
/// event leaves CR0.
pub fn longer_window()
    ensures twelve { (p : Processor) → left p ≡ 12 → ⊥ }
    ensures none { (p : Processor) → left p ≡ 0 → ⊥ }
    ensures turn { (o : Opening) (s : MachineState) → IsAdmitted o → IsGuarded o s → TakesTurn s.processor
        → wp_of s.processor.control.cr0 ≡ false → wp_of (after_turn s).processor.control.cr0 ≡ false
        → left s.processor ≤ left (after_turn s).processor → ⊥ }
    ensures body { (o : Opening) (s : MachineState) → IsAdmitted o → IsGuarded o s → enters_body s.processor ≡ true
        → left s.processor ≤ left (served s).processor → ⊥ }
    ensures event { (what : What) (s : MachineState)
        → (after_event what s).processor.control.cr0 ≢ s.processor.control.cr0 → ⊥ }
    ensures event_left { (what : What) (s : MachineState)
        → left (after_event what s).processor ≢ left s.processor → ⊥ }
    ensures step { (o : Opening) (plan : List Event) (s : MachineState) → IsAdmitted o → IsGuarded o s
        → wp_of s.processor.control.cr0 ≡ false
        → (ComesNearer (move_of plan s) s.processor (next plan s).processor → ⊥) → ⊥ }
{
    window_law();
}

/// In a guarded state no page table, nor a table of the kernel slot, has a present entry that isn't in the form of its
/// level.
pub fn formless_entry()
    ensures high { (o : Opening) (s : MachineState) (f i : ℕ) → IsAdmitted o → IsGuarded o s → i < 512
        → is_present (entry_in s.memory f i) ≡ true → level_of (kind_of s.kinds f) ≡ 5 → ⊥ }
    ensures table { (o : Opening) (s : MachineState) (f i : ℕ) → IsAdmitted o → IsGuarded o s → i < 512
        → 1 ≤ level_of (kind_of s.kinds f) → is_present (entry_in s.memory f i) ≡ true
        → has_form (level_of (kind_of s.kinds f)) (entry_in s.memory f i) ≡ false → ⊥ }
    ensures slot_link { (o : Opening) (s : MachineState) (f i : ℕ) → IsAdmitted o → IsGuarded o s → i < 512
        → (f ≡ 6) ⊎ ((f ≡ 7) ⊎ (f ≡ 9)) → is_present (entry_in s.memory f i) ≡ true
        → has_table_form (entry_in s.memory f i) ≡ false → ⊥ }
    ensures slot_leaf { (o : Opening) (s : MachineState) (f i : ℕ) → IsAdmitted o → IsGuarded o s → i < 512
        → (f ≡ 8) ⊎ IsNamedIn (entry_in s.memory) 9 f → is_present (entry_in s.memory f i) ≡ true
        → has_leaf_form (entry_in s.memory f i) ≡ false → ⊥ }
{
    entry_forms_law();
}

/// Of sixteen pending vectors none is passed over: where none is told, none waits, and what is told is the greatest.
pub fn another_pending_vector()
    ensures passed_over { (pending vector : ℕ) → pending < 2 ^ 16 → highest_pending pending ≡ None
        → bit pending (vector - 32) ≡ true → ⊥ }
    ensures least { (pending : ℕ) → pending < 2 ^ 16 → highest_pending pending ≡ Some 31 → ⊥ }
    ensures most { (pending : ℕ) → pending < 2 ^ 16 → highest_pending pending ≡ Some 48 → ⊥ }
    ensures waits { (pending vector : ℕ) → pending < 2 ^ 16 → highest_pending pending ≡ Some vector
        → bit pending (vector - 32) ≡ false → ⊥ }
    ensures above { (pending vector other : ℕ) → pending < 2 ^ 16 → highest_pending pending ≡ Some vector
        → vector < other → bit pending (other - 32) ≡ true → ⊥ }
{
    highest_pending_law();
}
