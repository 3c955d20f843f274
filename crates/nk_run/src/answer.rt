//! What the words ask for, done over the shelf's files and written to the sink.
ghost use Rattle.std.specs.Prelude.{◌≡◌, IfSome};
ghost use Rattle.command_words.specs.CommandLine.{command_of};
ghost use Rattle.file_scan.specs.ShelfChanges.{shelf_change};
ghost use Rattle.nk_run.specs.Lines.{usage_line};
ghost use Rattle.nk_run.specs.Witness.{sink_change};
ghost use Rattle.nk_run.specs.ReplyText.{line_bytes};
ghost use Rattle.nk_run.specs.Replies.{IsAnswered, ReadsBytes};
ghost use Rattle.nk_run.specs.Statuses.{status_number};

use crate::assemble::assemble;
use crate::audit::audit;
use crate::join::join;
use crate::lines::usage_line;
use crate::listing::list_code;
use crate::make::make;
use crate::map::map;
use crate::replay::replay;
use crate::reply::{Line, Reply};
use crate::run::run;
use crate::scan::scan;
use crate::status::Status;
use crate::work::work;
use command_words::{Command, Request};
use nk_host::{Shelf, Sink};
use std::alloc::Global;

/// The reply to words without a form.
pub(crate) fn usage() -> Reply
    ensures status { status_number result.status ≡ 2 }
    ensures text { line_bytes result.line ≡ usage_line }
{
    Reply {
        status: Status::Usage,
        line: Line::Fixed(usage_line()),
    }
}

/// Answers the request, and gives the status.
pub(crate) fn answer<S: Shelf, O: Sink>(
    alloc: Global,
    request: &Request<'_>,
    shelf: &mut S,
    sink: &mut O,
) -> Status
    ensures bytes { IfSome (command_of request.now) (λ command. ReadsBytes command (S.files shelf.old)) }
    ensures answered { IsAnswered (record {
      words = request.now;
      shelf = shelf_change S.files S.faults S.wants shelf.old shelf.new;
      sink = sink_change O.taken O.faults sink.old sink.new;
    }) (status_number result) }
{
    match request.command() {
        None => usage().write(sink),
        Some(Command::Scan) => scan(alloc, request, shelf).write(sink),
        Some(Command::Map { frames, va }) => map(alloc, request, frames, va, shelf).write(sink),
        Some(Command::Run { steps, frames }) => run(alloc, request, steps, frames, shelf, sink),
        Some(Command::Replay { frames }) => replay(alloc, request, frames, shelf, sink),
        Some(Command::Make { number }) => make(alloc, number, sink),
        Some(Command::Work { number }) => work(alloc, number, sink),
        Some(Command::Join) => join(alloc, request, shelf, sink),
        Some(Command::Audit { frames, id }) => audit(alloc, request, frames, id, shelf, sink),
        Some(Command::Assemble) => assemble(alloc, request, shelf, sink),
        Some(Command::Listing { address, count }) => {
            list_code(alloc, request, address, count, shelf, sink)
        }
    }
}
