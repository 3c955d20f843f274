//! The command `scan IMAGE`, which holds neither the file nor the image.
ghost use Rattle.std.specs.Prelude.{◌≡◌, Some};
ghost use Rattle.command_words.specs.declared.command_line.Command.TheVariants.{Scan};
ghost use Rattle.command_words.specs.CommandLine.{command_of};
ghost use Rattle.file_scan.specs.ShelfChanges.{shelf_change};
ghost use Rattle.nk_run.specs.ReplyText.{line_bytes};
ghost use Rattle.nk_run.specs.Statuses.{status_number};
ghost use Rattle.nk_run.specs.Replies.{CommandSays};
ghost use Rattle.nk_run.specs.ScanReplies.{IsReplyTo, IsShort};

use crate::image::{faulty, protected};
use crate::lines::{longer_line, unread_line};
use crate::reply::{Line, Reply, no_memory};
use crate::status::Status;
use command_words::{Request, Role};
use file_scan::{Stop, scan_file};
use nk_host::Shelf;
use report_text::admitted_line;
use std::alloc::Global;

/// The reply to a scan that stopped.
fn stopped(stop: Stop) -> Reply
    requires { IsShort stop }
    ensures { IsReplyTo stop (status_number result.status) (line_bytes result.line) }
{
    match stop {
        Stop::Unread => Reply {
            status: Status::Unread,
            line: Line::Fixed(unread_line(Role::Image)),
        },
        Stop::Want => no_memory(),
        Stop::Longer => Reply {
            status: Status::TooLong,
            line: Line::Fixed(longer_line(Role::Image)),
        },
        Stop::Faulty(fault) => faulty(&fault),
        Stop::Protected(found) => protected(&found),
    }
}

/// Admits or refuses the image. Takes no memory but the shelf's.
#[inline(never)]
pub(crate) fn scan<S: Shelf>(alloc: Global, request: &Request<'_>, shelf: &mut S) -> Reply
    requires { command_of request.now ≡ Some Scan }
    ensures files_stay { S.files shelf.new ≡ S.files shelf.old }
    ensures says { CommandSays request.now
        (shelf_change S.files S.faults S.wants shelf.old shelf.new)
        (status_number result.status) (line_bytes result.line) }
{
    match scan_file(alloc, request.name(Role::Image), shelf) {
        Ok(it) => Reply {
            status: Status::Done,
            line: Line::Short(admitted_line(it.entry, it.pages)),
        },
        Err(stop) => stopped(stop),
    }
}
