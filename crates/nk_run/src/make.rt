//! The command `make NUMBER`.
ghost use Rattle.std.specs.Prelude.{◌≡◌, ℕ, List, Some};
ghost use Rattle.command_words.specs.declared.command_line.Command.TheVariants.{Make};
ghost use Rattle.command_words.specs.CommandLine.{command_of, IsBounded};
ghost use Rattle.file_scan.specs.ShelfChanges.{Change, ShelfState};
ghost use Rattle.nk_run.specs.Replies.{IsAnswered};
ghost use Rattle.nk_run.specs.Statuses.{status_number};
ghost use Rattle.nk_run.specs.Witness.{sink_change};

use crate::reply::no_memory;
use crate::status::Status;
use image_maker::make_image;
use nk_host::{Sink, put_all};
use std::alloc::Global;

/// Writes the image of a number, in pieces. The shelf isn't looked at.
#[inline(never)]
pub(crate) fn make<O: Sink>(alloc: Global, number: u64, sink: &mut O) -> Status
    requires { IsBounded (Make number) }
    ensures { (words : List (List ℕ)) (shelf : Change ShelfState) → command_of words ≡ Some (Make number)
        → shelf.after.files ≡ shelf.before.files → IsAnswered (record {
          words = words;
          shelf = shelf;
          sink = sink_change O.taken O.faults sink.old sink.new;
        }) (status_number result) }
{
    match make_image(alloc, number) {
        Ok(file) => Status::Done.unless_cut(put_all(sink, &file)),
        Err(_) => no_memory().write(sink),
    }
}
