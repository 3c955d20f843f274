//! What follows from the definitions for the runs that are made, and for the images that are joined.

ghost use Rattle.std.specs.Prelude.{◌≡◌, ◌≤◌, ℕ, List, Some};
ghost use Rattle.irq_plan.specs.declared.event.Event.{Event};
ghost use Rattle.irq_plan.specs.PlannedEvents.{IsPlan};
ghost use Rattle.gate_state.specs.GuardedStates.{IsAdmitted};
ghost use Rattle.gate_state.specs.MachineStates.{MachineState, Opening};
ghost use Rattle.command_words.specs.declared.command_line.Command.{Command};
ghost use Rattle.command_words.specs.CommandLine.{command_of};
ghost use Rattle.file_scan.specs.ShelfChanges.{Files};
ghost use Rattle.nk_run.specs.Clauses.{HasEnd, HasJoined, HasJournal, HasSafeRun, IsSafeRun};
ghost use Rattle.nk_run.specs.JournalLaw.{IsReplayedRun};
ghost use Rattle.nk_run.specs.Replies.{ReadsBytes};
ghost use Rattle.nk_run.specs.RunStates.{EndsAfter, run_length};

use boot_map::{opening_bytes_law, opening_kinds_law, slot_leaf_law};
use byte_scanner::clean_law;
use code_modules::{joined_law, list_law};
use elf_image::pages_law;
use gate_state::{moves_law, safety_law, shown_law};
use image_maker::made_image_law;
use irq_plan::plan_law;
use nk_body::beside_law;

/// Where the checks of a run pass, the run is safe in each of its states, and its text is a journal of its calls; the run
/// of a made image is safe; and each run goes on to the first state at which it ends.
pub(crate) fn run_law()
    ensures safe { (words : List (List ℕ)) (files : Files) (command : Command) → command_of words ≡ Some command
        → ReadsBytes command (Some files) → HasSafeRun command words files }
    ensures replayed { (words : List (List ℕ)) (files : Files) (command : Command) → command_of words ≡ Some command
        → ReadsBytes command (Some files) → HasJournal command words files }
    ensures ended { (words : List (List ℕ)) (files : Files) (command : Command) → HasEnd command words files }
{
    pages_law();
    clean_law();
    plan_law();
    made_image_law();
    safe_law();
    journal_law();
    length_law();
}

/// Where the checks of a join pass, its file is an image that loads all that was joined and nothing else, is made of
/// bytes, and holds no protected encoding; every run of it is safe, and in each of its states the modules' bytes stand
/// where they were put.
pub(crate) fn join_law()
    ensures { (words : List (List ℕ)) (files : Files) (command : Command) → ReadsBytes command (Some files)
        → HasJoined command words files }
{
    joined_law();
    list_law();
    pages_law();
    clean_law();
    opening_kinds_law();
    opening_bytes_law();
    slot_leaf_law();
    safe_law();
}

/// The run of an admitted image under a plan in form is safe.
fn safe_law()
    ensures { (o : Opening) (input : List ℕ) (plan : List Event) → IsAdmitted o → IsPlan plan
        → IsSafeRun plan o input }
{
    safety_law();
}

/// As many steps as a run's length says are taken: the state after them is the first at which it ends.
fn length_law()
    ensures { (steps : ℕ) (plan : List Event) (s : MachineState) → s.turns ≤ steps
        → EndsAfter (run_length steps plan s) steps plan s }
{
    moves_law();
}

/// A replay of a run's text finds each line right, and ends with the run's own closing section, but for bytes of
/// declared regions that no call wrote.
fn journal_law()
    ensures { (o : Opening) (input : List ℕ) (plan : List Event) (steps : ℕ)
        → IsAdmitted o → IsPlan plan → steps ≤ 4294967296 → IsReplayedRun o input plan steps }
{
    beside_law();
    safety_law();
    shown_law();
    moves_law();
}
