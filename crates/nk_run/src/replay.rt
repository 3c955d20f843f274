//! The command `replay IMAGE FRAMES JOURNAL`, and what an audit has in common with it.
ghost use Rattle.std.specs.Prelude.{◌≡◌, ◌*◌, None, length, MatchResult, Some, [], ◌∷◌};
ghost use Rattle.nk_host.specs.TextPuts.{IsTextPut};
ghost use Rattle.byte_scanner.specs.FirstFound.{first_found};
ghost use Rattle.boot_map.specs.Division.{IsLayout};
ghost use Rattle.nk_body.specs.NestedRecord.{HoldsBooks, nested_held};
ghost use Rattle.report_text.specs.ClosingSection.{section};
ghost use Rattle.replay_core.specs.ReplayedCalls.{replay_of};
ghost use Rattle.command_words.specs.declared.command_line.Command.TheVariants.{Replay};
ghost use Rattle.command_words.specs.CommandLine.{command_of, IsBounded};
ghost use Rattle.file_scan.specs.ShelfChanges.{shelf_change};
ghost use Rattle.nk_run.specs.Witness.{sink_change};
ghost use Rattle.nk_run.specs.Outcome.{checks_of, journal_checks, journaled, opened};
ghost use Rattle.nk_run.specs.ReplyText.{line_bytes};
ghost use Rattle.nk_run.specs.Statuses.{status_number};
ghost use Rattle.nk_run.specs.Replies.{HoldsReplay, IsAnswered, IsReplayedFrom, RefusesBy, StopsIn};

use crate::image::{fetch, open};
use crate::lines::journal_line;
use crate::opening::{Guarded, Opened, divide, guard};
use crate::reply::{Reply, made, no_memory};
use crate::status::Status;
use command_words::{Request, Role};
use elf_image::Image;
use nk_host::{Shelf, Sink, SinkFault};
use replay_core::ReplayFault;
use std::alloc::Global;

/// What a replay reads from its files.
#[derive(Drop)]
struct Held {
    image: Image,
    journal: Vec<u8>,
}

/// A journal, and what its calls left of an opening.
#[derive(Drop)]
pub(crate) struct Replayed {
    pub opened: Opened,
    pub journal: Vec<u8>,
    pub left: Guarded,
}

/// The files of a replay, or the reply to the first check on them that doesn't pass.
fn hold<S: Shelf>(alloc: Global, request: &Request<'_>, shelf: &mut S) -> Result<Held, Reply>
    ensures files_stay { S.files shelf.new ≡ S.files shelf.old }
    ensures held { MatchResult result
        (λ held. (first_found held.image ≡ None)
        × HoldsReplay request.now (S.files shelf.old) held.image held.journal.items (λ files. journal_checks files request.now))
        (λ reply. StopsIn request.now (shelf_change S.files S.faults S.wants shelf.old shelf.new)
        (Role.Image ∷ Role.Journal ∷ []) (λ files. journal_checks files request.now)
        (status_number reply.status) (line_bytes reply.line)) }
{
    let image = match open(alloc, request, shelf) {
        Ok(image) => image,
        Err(reply) => return Err(reply),
    };
    match fetch(alloc, request, Role::Journal, shelf) {
        Ok(journal) => Ok(Held { image, journal }),
        Err(reply) => Err(reply),
    }
}

/// The reply to the first line of a journal that isn't right.
fn refuse(alloc: Global, number: u64) -> Reply
    ensures { RefusesBy 6 (journaled (Some number)) (status_number result.status) (line_bytes result.line) }
{
    made(Status::WrongLine, journal_line(alloc, number))
}

/// What the calls of a journal leave of the opening, or the reply to its first line that isn't right.
fn make_calls(alloc: Global, opening: &Opened, journal: &[u8]) -> Result<Guarded, Reply>
    requires { IsLayout opening.now.image opening.now.layout }
    ensures { let from = opened (record { image = opening.now.image; frames = opening.now.layout.frames }) in
        MatchResult result
        (λ left. ((replay_of journal.now from).bad ≡ None)
        × (nested_held left.kernel left.memory ≡ (replay_of journal.now from).made.nested)
        × HoldsBooks left.kernel left.memory
        × (length left.memory ≡ 4096 * opening.now.layout.frames))
        (λ reply. RefusesBy 6 (journaled (replay_of journal.now from).bad)
        (status_number reply.status) (line_bytes reply.line)) }
{
    let Guarded { memory, kernel } = match guard(alloc, opening) {
        Some(guarded) => guarded,
        None => return Err(no_memory()),
    };
    let mut memory = memory;
    let mut kernel = kernel;
    match replay_core::replay(alloc, &mut kernel, &mut memory, journal) {
        Ok(()) => Ok(Guarded { memory, kernel }),
        Err(ReplayFault::Line(number)) => Err(refuse(alloc, number)),
        Err(ReplayFault::Memory) => Err(no_memory()),
    }
}

/// What the calls of the journal left, or the reply to the first check of a replay that doesn't pass.
pub(crate) fn make_replay<S: Shelf>(
    alloc: Global,
    request: &Request<'_>,
    frames: u32,
    shelf: &mut S,
) -> Result<Replayed, Reply>
    requires { IsBounded (Replay frames) }
    ensures files_stay { S.files shelf.new ≡ S.files shelf.old }
    ensures made { MatchResult result
        (λ it. IsReplayedFrom request.now (S.files shelf.old) frames it.opened.image it.journal.items
        it.opened.layout it.left.kernel it.left.memory)
        (λ reply. StopsIn request.now (shelf_change S.files S.faults S.wants shelf.old shelf.new)
        (Role.Image ∷ Role.Journal ∷ []) (λ files. checks_of (Replay frames) files request.now)
        (status_number reply.status) (line_bytes reply.line)) }
{
    let held = match hold(alloc, request, shelf) {
        Ok(held) => held,
        Err(reply) => return Err(reply),
    };
    let Held { image, journal } = held;
    let opened = match divide(alloc, image, frames) {
        Ok(opened) => opened,
        Err(reply) => return Err(reply),
    };
    match make_calls(alloc, &opened, &journal) {
        Ok(left) => Ok(Replayed {
            opened,
            journal,
            left,
        }),
        Err(reply) => Err(reply),
    }
}

/// Makes the calls of a journal, and writes the closing section.
#[inline(never)]
pub(crate) fn replay<S: Shelf, O: Sink>(
    alloc: Global,
    request: &Request<'_>,
    frames: u32,
    shelf: &mut S,
    sink: &mut O,
) -> Status
    requires asked { command_of request.now ≡ Some (Replay frames) }
    requires bounds { IsBounded (Replay frames) }
    ensures { IsAnswered (record {
      words = request.now;
      shelf = shelf_change S.files S.faults S.wants shelf.old shelf.new;
      sink = sink_change O.taken O.faults sink.old sink.new;
    }) (status_number result) }
{
    let replayed = match make_replay(alloc, request, frames, shelf) {
        Ok(replayed) => replayed,
        Err(reply) => return reply.write(sink),
    };
    Status::Done.unless_cut(show(&replayed, sink))
}

/// Writes the closing section.
fn show<O: Sink>(replayed: &Replayed, sink: &mut O) -> Result<(), SinkFault>
    requires layout { IsLayout replayed.now.opened.image replayed.now.opened.layout }
    requires books { HoldsBooks replayed.now.left.kernel replayed.now.left.memory }
    requires size { length replayed.now.left.memory ≡ 4096 * replayed.now.opened.layout.frames }
    ensures { IsTextPut O.taken O.faults sink.old sink.new
        (section replayed.now.opened.image replayed.now.opened.layout.frames
        (nested_held replayed.now.left.kernel replayed.now.left.memory)) result }
{
    report_text::section(
        sink,
        &replayed.opened.image,
        &replayed.opened.layout,
        &replayed.left.memory,
        &replayed.left.kernel,
    )
}
