//! The command `list IMAGE ADDR COUNT`.
ghost use Rattle.std.specs.Prelude.{◌≡◌, ◌/◌, Some, true, MatchOption, MatchResult};
ghost use Rattle.elf_image.specs.Pages.{is_executable};
ghost use Rattle.command_words.specs.declared.command_line.Command.TheVariants.{Listing};
ghost use Rattle.command_words.specs.CommandLine.{command_of};
ghost use Rattle.file_scan.specs.ShelfChanges.{shelf_change};
ghost use Rattle.nk_run.specs.Witness.{sink_change};
ghost use Rattle.nk_run.specs.Outcome.{addressed};
ghost use Rattle.nk_run.specs.ReplyText.{line_bytes};
ghost use Rattle.nk_run.specs.Statuses.{status_number};
ghost use Rattle.nk_run.specs.Replies.{CommandSays, IsAnswered, IsListable, RefusesBy};

use crate::image::open_formed;
use crate::lines::noaddress_line;
use crate::reply::{Reply, made};
use crate::status::Status;
use command_words::Request;
use elf_image::Image;
use nk_host::{Shelf, Sink};
use report_text::list;
use std::alloc::Global;

/// Nothing where an executable page of the image holds the address, else the reply that none does.
fn find_code(alloc: Global, image: &Image, address: u64) -> Option<Reply>
    ensures { MatchOption result
        (is_executable image.now (address / 4096) ≡ true)
        (λ reply. RefusesBy 10 (addressed (is_executable image.now (address / 4096)) address)
        (status_number reply.status) (line_bytes reply.line)) }
{
    if image.is_code(address) {
        return None;
    }
    Some(made(Status::NoAddress, noaddress_line(alloc, address)))
}

/// An image that has code at the address, or the reply to the first check that doesn't pass.
fn open_code<S: Shelf>(
    alloc: Global,
    request: &Request<'_>,
    address: u64,
    count: u32,
    shelf: &mut S,
) -> Result<Image, Reply>
    requires { command_of request.now ≡ Some (Listing address count) }
    ensures files_stay { S.files shelf.new ≡ S.files shelf.old }
    ensures made { MatchResult result
        (λ image. IsListable request.now (S.files shelf.old) address count image)
        (λ reply. CommandSays request.now (shelf_change S.files S.faults S.wants shelf.old shelf.new)
        (status_number reply.status) (line_bytes reply.line)) }
{
    let image = match open_formed(alloc, request, shelf) {
        Ok(image) => image,
        Err(reply) => return Err(reply),
    };
    match find_code(alloc, &image, address) {
        None => Ok(image),
        Some(reply) => Err(reply),
    }
}

/// Writes the listing of an image's code.
#[inline(never)]
pub(crate) fn list_code<S: Shelf, O: Sink>(
    alloc: Global,
    request: &Request<'_>,
    address: u64,
    count: u32,
    shelf: &mut S,
    sink: &mut O,
) -> Status
    requires { command_of request.now ≡ Some (Listing address count) }
    ensures { IsAnswered (record {
      words = request.now;
      shelf = shelf_change S.files S.faults S.wants shelf.old shelf.new;
      sink = sink_change O.taken O.faults sink.old sink.new;
    }) (status_number result) }
{
    match open_code(alloc, request, address, count, shelf) {
        Ok(image) => Status::Done.unless_cut(list(sink, &image, address, count)),
        Err(reply) => reply.write(sink),
    }
}
