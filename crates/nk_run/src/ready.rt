//! What a run begins from, for a program that takes the run's steps itself.
ghost use Rattle.std.specs.Prelude.{◌≡◌, ◌≤◌, IfErr, IfOk};
ghost use Rattle.file_scan.specs.ShelfChanges.{shelf_change};
ghost use Rattle.nk_run.specs.RunsBegun.{IsAnswerPut, IsRefusedRun, MayRun};
ghost use Rattle.nk_run.specs.Witness.{sink_change};

use crate::answer::usage;
use crate::opening::ReadyRun;
use crate::reply::Reply;
use crate::run::make_ready;
use command_words::{Command, Request};
use nk_host::{Shelf, Sink};
use std::alloc::Global;
use std::marker::Model;

/// What the top call answers where a run doesn't begin: its exit status, and its text.
#[derive(Drop)]
pub struct Refusal {
    reply: Reply,
}

impl Model for Refusal {
    ghost use Rattle.nk_run.specs.Outcome.{Answer};
    ghost use Rattle.nk_run.specs.ReplyText.{line_bytes};
    ghost use Rattle.nk_run.specs.Statuses.{status_number};

    ghost Value = { Answer };

    ghost view = { λ it. record { status = status_number it.reply.status; text = line_bytes it.reply.line } };
}

impl Refusal {
    /// Writes the text and gives the status, or 4 where it couldn't be written whole.
    pub fn write<O: Sink>(&self, sink: &mut O) -> u8
        ensures never_falls { O.faults sink.old ≤ O.faults sink.new }
        ensures written { IsAnswerPut (sink_change O.taken O.faults sink.old sink.new) self.now result }
    {
        self.reply.write(sink).number()
    }
}

/// What the run of this request begins from, or what the top call answers where it asks for no run, or where the run
/// doesn't begin.
pub fn ready_run<S: Shelf>(
    alloc: Global,
    request: &Request<'_>,
    shelf: &mut S,
) -> Result<ReadyRun, Refusal>
    ensures files_stay { S.files shelf.new ≡ S.files shelf.old }
    ensures ready { IfOk result (λ it. MayRun request.now (S.files shelf.old) it.steps it.opened.image it.opened.layout
        it.input.items it.plan) }
    ensures refused { IfErr result (IsRefusedRun request.now (shelf_change S.files S.faults S.wants shelf.old shelf.new)) }
{
    match request.command() {
        Some(Command::Run { steps, frames }) => {
            match make_ready(alloc, request, steps, frames, shelf) {
                Ok(ready) => Ok(ready),
                Err(reply) => Err(Refusal { reply }),
            }
        }
        _ => Err(Refusal { reply: usage() }),
    }
}
