//! The command `work NUMBER`: the image of a number is made and run, and what the run showed is counted.
ghost use Rattle.std.specs.Prelude.{◌≡◌, ◌≤◌, ℕ, List, [], IfSome, Some};
ghost use Rattle.command_words.specs.declared.command_line.Command.TheVariants.{Work};
ghost use Rattle.command_words.specs.CommandLine.{command_of, IsBounded};
ghost use Rattle.file_scan.specs.ShelfChanges.{Change, ShelfState};
ghost use Rattle.nk_run.specs.Replies.{IsAnswered, IsWorkable};
ghost use Rattle.nk_run.specs.Statuses.{status_number};
ghost use Rattle.nk_run.specs.Witness.{sink_change};

use crate::count::count;
use crate::opening::{Opened, begin};
use crate::reply::no_memory;
use crate::status::Status;
use boot_map::Layout;
use elf_image::Image;
use image_maker::{made_image_law, make_image};
use irq_plan::Plan;
use nk_host::Sink;
use std::alloc::Global;

/// How many frames the memory of a made image has.
const FRAMES: u32 = 4096;

/// What the run of a made image begins from, None where there is no memory for it.
fn make_ready(alloc: Global, number: u64) -> Option<Opened>
    requires least { 1 ≤ number }
    requires most { number ≤ 100 }
    ensures { IfSome result (λ it. IsWorkable number it.image it.layout) }
{
    let file = match make_image(alloc, number) {
        Ok(file) => file,
        Err(_) => return None,
    };
    made_image_law();
    let image = match Image::read(file) {
        Ok(image) => image,
        Err(_) => unreachable!(),
    };
    match Layout::of(&image, FRAMES) {
        Ok(layout) => Some(Opened { image, layout }),
        Err(_) => unreachable!(),
    }
}

/// A plan without events, None where there is no memory for it.
fn quiet(alloc: Global) -> Option<Plan>
    ensures { IfSome result (λ plan. plan ≡ []) }
{
    match Plan::read(alloc, b"") {
        Ok(plan) => Some(plan),
        Err(_) => None,
    }
}

/// Runs the image of a number, and writes the counts. The shelf isn't looked at.
#[inline(never)]
pub(crate) fn work<O: Sink>(alloc: Global, number: u64, sink: &mut O) -> Status
    requires { IsBounded (Work number) }
    ensures { (words : List (List ℕ)) (shelf : Change ShelfState) → command_of words ≡ Some (Work number)
        → shelf.after.files ≡ shelf.before.files → IsAnswered (record {
          words = words;
          shelf = shelf;
          sink = sink_change O.taken O.faults sink.old sink.new;
        }) (status_number result) }
{
    let opened = match make_ready(alloc, number) {
        Some(opened) => opened,
        None => return no_memory().write(sink),
    };
    let plan = match quiet(alloc) {
        Some(plan) => plan,
        None => return no_memory().write(sink),
    };
    match begin(alloc, &opened, Vec::new(alloc)) {
        Some(machine) => Status::Done.unless_cut(count(machine, &plan, sink)),
        None => no_memory().write(sink),
    }
}
