//! What a run and a replay begin from: the division of memory, the opening's memory with the nested kernel's books, and the
//! machine.
ghost use Rattle.std.specs.Prelude.{◌≡◌, ◌≤◌, ◌*◌, length, None, IfSome, MatchResult};
ghost use Rattle.phys_mem.specs.MaskedMemory.{seen};
ghost use Rattle.byte_scanner.specs.FirstFound.{first_found};
ghost use Rattle.boot_map.specs.Division.{IsLayout, need};
ghost use Rattle.boot_map.specs.Opening.{IsOpening};
ghost use Rattle.boot_map.specs.OpeningKinds.{kinds};
ghost use Rattle.page_desc.specs.DescriptorBytes.{kinds_in};
ghost use Rattle.nk_body.specs.NestedRecord.{HoldsBooks, books_in};
ghost use Rattle.nk_body.specs.SourceWords.{opening_ledger};
ghost use Rattle.gate_state.specs.MachineOf.{whole_of};
ghost use Rattle.gate_state.specs.MachineOpening.{opening_state};
ghost use Rattle.nk_run.specs.Outcome.{passes, roomy};
ghost use Rattle.nk_run.specs.ReplyText.{line_bytes};
ghost use Rattle.nk_run.specs.Statuses.{status_number};
ghost use Rattle.nk_run.specs.Replies.{RefusesBy};

use crate::lines::noroom_line;
use crate::reply::{Reply, made};
use crate::status::Status;
use boot_map::{Layout, prepare};
use elf_image::Image;
use gate_state::{Machine, OuterMachine};
use irq_plan::Plan;
use nk_body::Kernel;
use phys_mem::{PhysMem, mask_law};
use std::alloc::Global;

/// An image, and the division of a memory for it.
#[derive(Drop)]
pub struct Opened {
    pub image: Image,
    pub layout: Layout,
}

/// A run that may begin: the image with its memory's division, the input, the plan, and the most turns.
#[derive(Drop)]
pub struct ReadyRun {
    pub opened: Opened,
    pub input: Vec<u8>,
    pub plan: Plan,
    pub steps: u64,
}

/// The opening's memory with the books in it, and what the nested kernel keeps beside it.
#[derive(Drop)]
pub(crate) struct Guarded {
    pub memory: PhysMem,
    pub kernel: Kernel,
}

/// The image with the division of a memory of so many frames, or the reply where it has no room.
pub(crate) fn divide(alloc: Global, image: Image, frames: u32) -> Result<Opened, Reply>
    requires least { 512 ≤ frames }
    requires most { frames ≤ 65536 }
    ensures { MatchResult result
        (λ opened. (opened.image ≡ image) × IsLayout image opened.layout × (opened.layout.frames ≡ frames)
        × (roomy (need image frames) frames ≡ passes))
        (λ reply. RefusesBy 1 (roomy (need image frames) frames)
        (status_number reply.status) (line_bytes reply.line)) }
{
    match Layout::of(&image, frames) {
        Ok(layout) => Ok(Opened { image, layout }),
        Err(fault) => Err(made(Status::Refused, noroom_line(alloc, &fault))),
    }
}

/// The opening's memory with the books in it, None where there is no memory for them.
pub(crate) fn guard(alloc: Global, opened: &Opened) -> Option<Guarded>
    requires layout { IsLayout opened.now.image opened.now.layout }
    ensures opening { IfSome result (λ it. IsOpening opened.now.image opened.now.layout.frames (seen it.memory)) }
    ensures size { IfSome result (λ it. length it.memory ≡ 4096 * opened.now.layout.frames) }
    ensures kinds { IfSome result (λ it. kinds_in it.memory ≡ kinds opened.now.image opened.now.layout.frames) }
    ensures root { IfSome result (λ it. it.kernel.root ≡ 5) }
    ensures ledger { IfSome result (λ it. (books_in it.kernel it.memory).ledger ≡ opening_ledger) }
    ensures books { IfSome result (λ it. HoldsBooks it.kernel it.memory) }
{
    mask_law();
    let mut memory = match prepare(alloc, &opened.image, &opened.layout) {
        Ok(memory) => memory,
        Err(_) => return None,
    };
    match Kernel::start(alloc, &mut memory, &opened.image, &opened.layout) {
        Ok(kernel) => Some(Guarded { memory, kernel }),
        Err(_) => None,
    }
}

/// The machine as a run begins; None where there is no memory for it.
pub fn begin(alloc: Global, opened: &Opened, input: Vec<u8>) -> Option<Machine<'_>>
    requires layout { IsLayout opened.now.image opened.now.layout }
    requires clean { first_found opened.now.image ≡ None }
    ensures opening { IfSome result (λ machine. (whole_of machine).opening
        ≡ record { image = opened.now.image; frames = opened.now.layout.frames }) }
    ensures state { IfSome result (λ machine. (whole_of machine).state
        ≡ opening_state (record { image = opened.now.image; frames = opened.now.layout.frames }) input.items) }
{
    let Guarded { memory, kernel } = match guard(alloc, opened) {
        Some(guarded) => guarded,
        None => return None,
    };
    match OuterMachine::start(alloc, memory, kernel, &opened.image, &opened.layout, input) {
        Ok(machine) => Some(Machine::Outer(machine)),
        Err(_) => None,
    }
}
