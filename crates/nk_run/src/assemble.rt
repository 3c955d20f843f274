//! The command `asm TEXT`.
ghost use Rattle.std.specs.Prelude.{◌≡◌, Ok, Some, MatchResult};
ghost use Rattle.nk_host.specs.Told.{IfTold};
ghost use Rattle.asm_text.specs.AssembledText.{assembled_of};
ghost use Rattle.command_words.specs.declared.command_line.Command.TheVariants.{Assemble};
ghost use Rattle.command_words.specs.CommandLine.{command_of};
ghost use Rattle.file_scan.specs.ShelfChanges.{shelf_change};
ghost use Rattle.nk_run.specs.Witness.{sink_change};
ghost use Rattle.nk_run.specs.Outcome.{assembled, file_in, first_verdict, passes, text_checks};
ghost use Rattle.nk_run.specs.ReplyText.{line_bytes};
ghost use Rattle.nk_run.specs.Statuses.{status_number};
ghost use Rattle.nk_run.specs.Replies.{IsAnswered, RefusesBy, Stops};

use crate::image::fetch;
use crate::lines::text_line;
use crate::reply::{Reply, made, no_memory};
use crate::status::Status;
use asm_text::TextFault;
use command_words::{Request, Role};
use nk_host::{Shelf, Sink, put_all};
use std::alloc::Global;

/// The code of a text, or the reply to its first line without code.
fn assemble_text(alloc: Global, text: &[u8]) -> Result<Vec<u8>, Reply>
    ensures { MatchResult result
        (λ code. assembled_of text.now ≡ Ok code.items)
        (λ reply. RefusesBy 6 (assembled (assembled_of text.now))
        (status_number reply.status) (line_bytes reply.line)) }
{
    match asm_text::assemble(alloc, text) {
        Ok(code) => Ok(code),
        Err(TextFault::Line(number)) => Err(made(Status::WrongLine, text_line(alloc, number))),
        Err(TextFault::Memory) => Err(no_memory()),
    }
}

/// The code of a file's text, or the reply to the first check on it that doesn't pass.
fn make_code<S: Shelf>(
    alloc: Global,
    request: &Request<'_>,
    shelf: &mut S,
) -> Result<Vec<u8>, Reply>
    ensures files_stay { S.files shelf.new ≡ S.files shelf.old }
    ensures made { MatchResult result
        (λ code. IfTold (S.files shelf.old) (λ files. (assembled_of (file_in files request.now Role.Text) ≡ Ok code.items)
        × (first_verdict (text_checks files request.now) ≡ passes)))
        (λ reply. Stops request.now (shelf_change S.files S.faults S.wants shelf.old shelf.new) Role.Text
        (λ files. first_verdict (text_checks files request.now))
        (status_number reply.status) (line_bytes reply.line)) }
{
    match fetch(alloc, request, Role::Text, shelf) {
        Ok(bytes) => assemble_text(alloc, &bytes),
        Err(reply) => Err(reply),
    }
}

/// Assembles a text, and writes its code.
#[inline(never)]
pub(crate) fn assemble<S: Shelf, O: Sink>(
    alloc: Global,
    request: &Request<'_>,
    shelf: &mut S,
    sink: &mut O,
) -> Status
    requires { command_of request.now ≡ Some Assemble }
    ensures { IsAnswered (record {
      words = request.now;
      shelf = shelf_change S.files S.faults S.wants shelf.old shelf.new;
      sink = sink_change O.taken O.faults sink.old sink.new;
    }) (status_number result) }
{
    match make_code(alloc, request, shelf) {
        Ok(code) => Status::Done.unless_cut(put_all(sink, &code)),
        Err(reply) => reply.write(sink),
    }
}
