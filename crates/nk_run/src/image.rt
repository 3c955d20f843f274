//! The fetch of a file, and the checks on the image, which every command on files makes first.
ghost use Rattle.std.specs.Prelude.{◌≡◌, ◌≤◌, None, Some, IfOk, MatchOption, MatchResult};
ghost use Rattle.nk_host.specs.FaultCounts.{NeverFalls};
ghost use Rattle.nk_host.specs.Told.{IfTold};
ghost use Rattle.elf_image.specs.Rows.{first_fault};
ghost use Rattle.byte_scanner.specs.FirstFound.{first_found};
ghost use Rattle.command_words.specs.CommandLine.{name_in};
ghost use Rattle.file_scan.specs.ShelfChanges.{shelf_change};
ghost use Rattle.nk_run.specs.Lines.{most_of};
ghost use Rattle.nk_run.specs.Outcome.{fetch_verdict, formed, clean, first_verdict, form_checks, formed_checks, image_checks, file_in, passes};
ghost use Rattle.nk_run.specs.ReplyText.{line_bytes};
ghost use Rattle.nk_run.specs.Statuses.{status_number};
ghost use Rattle.nk_run.specs.Replies.{EndsBy, IsWordRole, Stops, StopsFetch, TellsBytes};

use crate::lines::{longer_line, unread_line};
use crate::reply::{Line, Reply, no_memory};
use crate::status::Status;
use byte_scanner::{Found, scan};
use command_words::{Request, Role};
use elf_image::{Image, ImageFault};
use file_scan::FILE_LIMIT;
use nk_host::{FetchFault, Shelf};
use report_text::{ShortLine, image_line, protected_line};
use std::alloc::Global;

/// The most bytes of a module that is read: 1 MiB.
const MODULE_LIMIT: u64 = 1_048_576;

/// The most bytes of a role's file.
fn limit_of(role: Role) -> u64
    ensures { result ≡ most_of role }
{
    match role {
        Role::Module(_) => MODULE_LIMIT,
        _ => FILE_LIMIT,
    }
}

/// The file of this name, for a role, or the reply to a failed fetch.
pub(crate) fn fetch_named<S: Shelf>(
    alloc: Global,
    name: &str,
    role: Role,
    shelf: &mut S,
) -> Result<Vec<u8>, Reply>
    ensures files_stay { S.files shelf.new ≡ S.files shelf.old }
    ensures never_falls { NeverFalls (S.faults shelf.old) (S.faults shelf.new) }
    ensures bytes { TellsBytes (S.files shelf.old) }
    ensures fetched { MatchResult result
        (λ bytes. IfTold (S.files shelf.old) (λ files.
        (files name.now ≡ Some bytes.items) × (fetch_verdict role (files name.now) ≡ passes)))
        (λ reply. StopsFetch (shelf_change S.files S.faults S.wants shelf.old shelf.new) role name.now
        (status_number reply.status) (line_bytes reply.line)) }
{
    match shelf.fetch(alloc, name, limit_of(role)) {
        Ok(bytes) => Ok(bytes),
        Err(FetchFault::Memory) => Err(no_memory()),
        Err(FetchFault::Failed) => Err(Reply {
            status: Status::Unread,
            line: Line::Fixed(unread_line(role)),
        }),
        Err(FetchFault::Longer) => Err(Reply {
            status: Status::TooLong,
            line: Line::Fixed(longer_line(role)),
        }),
    }
}

/// The file of a role whose name stands among the words, or the reply to a failed fetch.
pub(crate) fn fetch<S: Shelf>(
    alloc: Global,
    request: &Request<'_>,
    role: Role,
    shelf: &mut S,
) -> Result<Vec<u8>, Reply>
    requires { IsWordRole role }
    ensures files_stay { S.files shelf.new ≡ S.files shelf.old }
    ensures never_falls { NeverFalls (S.faults shelf.old) (S.faults shelf.new) }
    ensures bytes { TellsBytes (S.files shelf.old) }
    ensures fetched { MatchResult result
        (λ bytes. IfTold (S.files shelf.old) (λ files. (files (name_in request.now role) ≡ Some bytes.items)
        × (fetch_verdict role (files (name_in request.now role)) ≡ passes)))
        (λ reply. Stops request.now (shelf_change S.files S.faults S.wants shelf.old shelf.new) role
        (λ files. fetch_verdict role (files (name_in request.now role)))
        (status_number reply.status) (line_bytes reply.line)) }
{
    match fetch_named(alloc, request.name(role), role, shelf) {
        Ok(bytes) => Ok(bytes),
        Err(reply) => Err(reply),
    }
}

/// The reply to an image that isn't admitted, of this line.
fn refused(line: ShortLine) -> Reply
    ensures status { status_number result.status ≡ 1 }
    ensures line { line_bytes result.line ≡ line }
{
    Reply {
        status: Status::Refused,
        line: Line::Short(line),
    }
}

/// The reply to the image's first fault.
pub(crate) fn faulty(fault: &ImageFault) -> Reply
    ensures { EndsBy 1 (formed (Some fault.now)) (status_number result.status) (line_bytes result.line) }
{
    refused(image_line(fault))
}

/// The reply to the first protected encoding in the image's code.
pub(crate) fn protected(found: &Found) -> Reply
    requires { found.now.count ≤ 3 }
    ensures { EndsBy 1 (clean (Some found.now)) (status_number result.status) (line_bytes result.line) }
{
    let bytes = &found.bytes[..found.count as usize];
    refused(protected_line(found.at, bytes))
}

/// The image that the file is, or the reply to its first fault.
fn form(bytes: Vec<u8>) -> Result<Image, Reply>
    ensures { MatchResult result
        (λ image. (image ≡ bytes.items) × (formed (first_fault bytes.items) ≡ passes))
        (λ reply. EndsBy 1 (formed (first_fault bytes.items))
        (status_number reply.status) (line_bytes reply.line)) }
{
    match Image::read(bytes) {
        Ok(image) => Ok(image),
        Err(fault) => Err(faulty(&fault)),
    }
}

/// The image, whatever its code holds, or the reply to the first check on it that doesn't pass.
pub(crate) fn open_formed<S: Shelf>(
    alloc: Global,
    request: &Request<'_>,
    shelf: &mut S,
) -> Result<Image, Reply>
    ensures files_stay { S.files shelf.new ≡ S.files shelf.old }
    ensures opened { MatchResult result
        (λ image. IfTold (S.files shelf.old) (λ files. (image ≡ file_in files request.now Role.Image)
        × (first_verdict (formed_checks files request.now) ≡ passes)))
        (λ reply. Stops request.now (shelf_change S.files S.faults S.wants shelf.old shelf.new) Role.Image
        (λ files. first_verdict (formed_checks files request.now))
        (status_number reply.status) (line_bytes reply.line)) }
{
    let bytes = match fetch(alloc, request, Role::Image, shelf) {
        Ok(bytes) => bytes,
        Err(reply) => return Err(reply),
    };
    form(bytes)
}

/// Nothing where the image's code holds no protected encoding, else the reply to the first one.
fn admit(image: &Image) -> Option<Reply>
    ensures { MatchOption result
        ((first_found image.now ≡ None) × (clean (first_found image.now) ≡ passes))
        (λ reply. EndsBy 1 (clean (first_found image.now))
        (status_number reply.status) (line_bytes reply.line)) }
{
    match scan(image) {
        None => None,
        Some(found) => Some(protected(&found)),
    }
}

/// The image that the file is, or the reply to its first fault, else to the first protected encoding in its code.
fn judge(bytes: Vec<u8>) -> Result<Image, Reply>
    ensures clean { IfOk result (λ image. first_found image ≡ None) }
    ensures judged { MatchResult result
        (λ image. (image ≡ bytes.items) × (first_verdict (form_checks bytes.items) ≡ passes))
        (λ reply. EndsBy 1 (first_verdict (form_checks bytes.items))
        (status_number reply.status) (line_bytes reply.line)) }
{
    let image = match form(bytes) {
        Ok(image) => image,
        Err(reply) => return Err(reply),
    };
    match admit(&image) {
        None => Ok(image),
        Some(reply) => Err(reply),
    }
}

/// The image, or the reply to the first check on it that doesn't pass.
pub(crate) fn open<S: Shelf>(
    alloc: Global,
    request: &Request<'_>,
    shelf: &mut S,
) -> Result<Image, Reply>
    ensures files_stay { S.files shelf.new ≡ S.files shelf.old }
    ensures never_falls { NeverFalls (S.faults shelf.old) (S.faults shelf.new) }
    ensures bytes { TellsBytes (S.files shelf.old) }
    ensures clean { IfOk result (λ image. first_found image ≡ None) }
    ensures opened { MatchResult result
        (λ image. IfTold (S.files shelf.old) (λ files. (image ≡ file_in files request.now Role.Image)
        × (first_verdict (image_checks files request.now) ≡ passes)))
        (λ reply. Stops request.now (shelf_change S.files S.faults S.wants shelf.old shelf.new) Role.Image
        (λ files. first_verdict (image_checks files request.now))
        (status_number reply.status) (line_bytes reply.line)) }
{
    let bytes = match fetch(alloc, request, Role::Image, shelf) {
        Ok(bytes) => bytes,
        Err(reply) => return Err(reply),
    };
    judge(bytes)
}
