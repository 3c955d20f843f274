//! The command `run IMAGE INPUT PLAN STEPS FRAMES`.
ghost use Rattle.std.specs.Prelude.{◌≡◌, None, MatchResult, Ok, Some, [], ◌∷◌};
ghost use Rattle.irq_plan.specs.PlanFile.{plan_of};
ghost use Rattle.nk_host.specs.Told.{IfTold};
ghost use Rattle.byte_scanner.specs.FirstFound.{first_found};
ghost use Rattle.command_words.specs.declared.command_line.Command.TheVariants.{Run};
ghost use Rattle.command_words.specs.CommandLine.{command_of, IsBounded};
ghost use Rattle.file_scan.specs.ShelfChanges.{shelf_change};
ghost use Rattle.nk_run.specs.Witness.{sink_change};
ghost use Rattle.nk_run.specs.Outcome.{file_in, first_verdict, passes, run_checks};
ghost use Rattle.nk_run.specs.ReplyText.{line_bytes};
ghost use Rattle.nk_run.specs.Statuses.{status_number};
ghost use Rattle.nk_run.specs.Replies.{CommandSays, IsAnswered, StopsIn, TellsBytes};
ghost use Rattle.nk_run.specs.RunsBegun.{MayRun};

use crate::drive::drive;
use crate::image::open;
use crate::inputs::{Outside, open_outside};
use crate::opening::{ReadyRun, begin, divide};
use crate::reply::{Reply, no_memory};
use crate::status::Status;
use command_words::{Request, Role};
use elf_image::Image;
use nk_host::{Shelf, Sink};
use std::alloc::Global;

/// What a run reads from its files.
#[derive(Drop)]
struct Held {
    image: Image,
    outside: Outside,
}

/// The files of a run, or the reply to the first check on them that doesn't pass.
fn hold<S: Shelf>(alloc: Global, request: &Request<'_>, shelf: &mut S) -> Result<Held, Reply>
    ensures files_stay { S.files shelf.new ≡ S.files shelf.old }
    ensures bytes { TellsBytes (S.files shelf.old) }
    ensures held { MatchResult result
        (λ held. (first_found held.image ≡ None)
        × IfTold (S.files shelf.old) (λ files. (held.image ≡ file_in files request.now Role.Image)
        × (held.outside.input.items ≡ file_in files request.now Role.Input)
        × (plan_of (file_in files request.now Role.Plan) ≡ Ok held.outside.plan)
        × (first_verdict (run_checks files request.now) ≡ passes)))
        (λ reply. StopsIn request.now (shelf_change S.files S.faults S.wants shelf.old shelf.new)
        (Role.Image ∷ Role.Input ∷ Role.Plan ∷ []) (λ files. run_checks files request.now)
        (status_number reply.status) (line_bytes reply.line)) }
{
    let image = match open(alloc, request, shelf) {
        Ok(image) => image,
        Err(reply) => return Err(reply),
    };
    match open_outside(alloc, request, shelf) {
        Ok(outside) => Ok(Held { image, outside }),
        Err(reply) => Err(reply),
    }
}

/// What the run begins from, or the reply where it doesn't.
pub(crate) fn make_ready<S: Shelf>(
    alloc: Global,
    request: &Request<'_>,
    steps: u64,
    frames: u32,
    shelf: &mut S,
) -> Result<ReadyRun, Reply>
    requires asked { command_of request.now ≡ Some (Run steps frames) }
    requires bounds { IsBounded (Run steps frames) }
    ensures files_stay { S.files shelf.new ≡ S.files shelf.old }
    ensures bytes { TellsBytes (S.files shelf.old) }
    ensures ready { MatchResult result
        (λ it. MayRun request.now (S.files shelf.old) it.steps it.opened.image it.opened.layout
        it.input.items it.plan)
        (λ reply. CommandSays request.now (shelf_change S.files S.faults S.wants shelf.old shelf.new)
        (status_number reply.status) (line_bytes reply.line)) }
{
    let held = match hold(alloc, request, shelf) {
        Ok(held) => held,
        Err(reply) => return Err(reply),
    };
    let Held { image, outside } = held;
    let Outside { input, plan } = outside;
    match divide(alloc, image, frames) {
        Ok(opened) => Ok(ReadyRun {
            opened,
            input,
            plan,
            steps,
        }),
        Err(reply) => Err(reply),
    }
}

/// Runs the image, and writes what the run shows while it is made.
#[inline(never)]
pub(crate) fn run<S: Shelf, O: Sink>(
    alloc: Global,
    request: &Request<'_>,
    steps: u64,
    frames: u32,
    shelf: &mut S,
    sink: &mut O,
) -> Status
    requires asked { command_of request.now ≡ Some (Run steps frames) }
    requires bounds { IsBounded (Run steps frames) }
    ensures bytes { TellsBytes (S.files shelf.old) }
    ensures answered { IsAnswered (record {
      words = request.now;
      shelf = shelf_change S.files S.faults S.wants shelf.old shelf.new;
      sink = sink_change O.taken O.faults sink.old sink.new;
    }) (status_number result) }
{
    let ready = match make_ready(alloc, request, steps, frames, shelf) {
        Ok(ready) => ready,
        Err(reply) => return reply.write(sink),
    };
    let ReadyRun {
        opened,
        input,
        plan,
        steps,
    } = ready;
    match begin(alloc, &opened, input) {
        Some(machine) => Status::Done.unless_cut(drive(machine, &opened, &plan, steps, sink)),
        None => no_memory().write(sink),
    }
}
