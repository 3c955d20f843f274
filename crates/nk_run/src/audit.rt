//! The command `audit IMAGE FRAMES JOURNAL ID`.
ghost use Rattle.std.specs.Prelude.{◌≡◌, ◌≤◌, None, Some, IfSome, MatchResult, length, replicate};
ghost use Rattle.nk_host.specs.TextPuts.{IsTextPut};
ghost use Rattle.write_log.specs.LogBytes.{HoldsLog, log_in};
ghost use Rattle.report_text.specs.AuditLines.{audit_text};
ghost use Rattle.nk_body.specs.Calls.{call_of};
ghost use Rattle.replay_core.specs.GrantedCalls.{granted_of};
ghost use Rattle.replay_core.specs.ReplayedCalls.{replay_of};
ghost use Rattle.command_words.specs.declared.command_line.Command.TheVariants.{Audit};
ghost use Rattle.command_words.specs.CommandLine.{command_of, IsBounded};
ghost use Rattle.file_scan.specs.ShelfChanges.{shelf_change};
ghost use Rattle.nk_run.specs.Witness.{sink_change};
ghost use Rattle.nk_run.specs.Outcome.{given, logged_by, logged_size, opened};
ghost use Rattle.nk_run.specs.ReplyText.{line_bytes};
ghost use Rattle.nk_run.specs.Statuses.{status_number};
ghost use Rattle.nk_run.specs.Replies.{CommandSays, IsAnswered, IsAuditable, LiesWithin, RefusesBy};

use crate::lines::noregion_line;
use crate::replay::{Replayed, make_replay};
use crate::reply::{Reply, made, no_memory};
use crate::status::Status;
use command_words::Request;
use nk_bits::CallWords;
use nk_body::{Call, call_of};
use nk_host::{Shelf, Sink, SinkFault};
use replay_core::{granted, granted_law};
use report_text::Auditing;
use std::alloc::Global;

/// The policy of a region whose writes are logged.
const WRITE_LOG: u64 = 4;

/// What the calls of a journal left, and the room for the bytes of a region as its log has them.
#[derive(Drop)]
struct Auditable {
    replayed: Replayed,
    auditing: Auditing,
}

/// The size in bytes of a region to which a call of the journal gave this identifier, where its writes are logged.
fn logged_size(journal: &[u8], id: u64) -> Option<u64>
    ensures { result ≡ logged_size (granted_of journal.now id) }
{
    match granted(journal, id) {
        Some(words) => logged_by(&words),
        None => None,
    }
}

/// The size of the region that a call gives, where its writes are logged.
fn logged_by(words: &CallWords) -> Option<u64>
    ensures { result ≡ logged_by (call_of words.now) }
{
    match call_of(words) {
        Call::Allocate { size, policy } if policy == WRITE_LOG => Some(size),
        _ => None,
    }
}

/// The reply where no call of the journal gave such a region this identifier.
fn refuse(alloc: Global, id: u64) -> Reply
    ensures { RefusesBy 9 (given id None) (status_number result.status) (line_bytes result.line) }
{
    made(Status::NoRegion, noregion_line(alloc, id))
}

/// That size, and that each record of the region lies within it.
fn size_within(replayed: &Replayed, id: u64) -> Option<u32>
    requires right { (replay_of replayed.now.journal.items (opened (record {
      image = replayed.now.opened.image;
      frames = replayed.now.opened.layout.frames;
    }))).bad ≡ None }
    requires region { 256 ≤ id }
    ensures size { result ≡ logged_size (granted_of replayed.now.journal.items id) }
    ensures within { let from = opened (record {
      image = replayed.now.opened.image;
      frames = replayed.now.opened.layout.frames;
    }) in
        IfSome result (λ size. LiesWithin id size (replay_of replayed.now.journal.items from).made.nested.ledger.log) }
{
    granted_law();
    match logged_size(&replayed.journal, id) {
        Some(size) => Some(size as u32),
        None => None,
    }
}

/// The room for the bytes of the region, or the reply where there is no such region.
fn take_room(alloc: Global, replayed: &Replayed, id: u64) -> Result<Auditing, Reply>
    requires right { (replay_of replayed.now.journal.items (opened (record {
      image = replayed.now.opened.image;
      frames = replayed.now.opened.layout.frames;
    }))).bad ≡ None }
    requires region { 256 ≤ id }
    ensures { let from = opened (record {
      image = replayed.now.opened.image;
      frames = replayed.now.opened.layout.frames;
    }) in
        MatchResult result
        (λ auditing. (logged_size (granted_of replayed.now.journal.items id) ≡ Some (length auditing))
        × (auditing ≡ replicate (length auditing) 0)
        × LiesWithin id (length auditing) (replay_of replayed.now.journal.items from).made.nested.ledger.log)
        (λ reply. RefusesBy 9 (given id (logged_size (granted_of replayed.now.journal.items id)))
        (status_number reply.status) (line_bytes reply.line)) }
{
    let size = match size_within(replayed, id) {
        Some(size) => size,
        None => return Err(refuse(alloc, id)),
    };
    match Auditing::start(alloc, size) {
        Ok(auditing) => Ok(auditing),
        Err(_) => Err(no_memory()),
    }
}

/// All that the audit is made of, or the reply to the first check that doesn't pass.
fn make_audit<S: Shelf>(
    alloc: Global,
    request: &Request<'_>,
    frames: u32,
    id: u64,
    shelf: &mut S,
) -> Result<Auditable, Reply>
    requires asked { command_of request.now ≡ Some (Audit frames id) }
    requires bounds { IsBounded (Audit frames id) }
    ensures files_stay { S.files shelf.new ≡ S.files shelf.old }
    ensures made { MatchResult result
        (λ it. IsAuditable request.now (S.files shelf.old) id it.auditing
        it.replayed.left.kernel it.replayed.left.memory)
        (λ reply. CommandSays request.now (shelf_change S.files S.faults S.wants shelf.old shelf.new)
        (status_number reply.status) (line_bytes reply.line)) }
{
    let replayed = match make_replay(alloc, request, frames, shelf) {
        Ok(replayed) => replayed,
        Err(reply) => return Err(reply),
    };
    match take_room(alloc, &replayed, id) {
        Ok(auditing) => Ok(Auditable { replayed, auditing }),
        Err(reply) => Err(reply),
    }
}

/// Makes the calls of a journal, and writes the audit of a region.
#[inline(never)]
pub(crate) fn audit<S: Shelf, O: Sink>(
    alloc: Global,
    request: &Request<'_>,
    frames: u32,
    id: u64,
    shelf: &mut S,
    sink: &mut O,
) -> Status
    requires asked { command_of request.now ≡ Some (Audit frames id) }
    requires bounds { IsBounded (Audit frames id) }
    ensures { IsAnswered (record {
      words = request.now;
      shelf = shelf_change S.files S.faults S.wants shelf.old shelf.new;
      sink = sink_change O.taken O.faults sink.old sink.new;
    }) (status_number result) }
{
    let mut auditable = match make_audit(alloc, request, frames, id, shelf) {
        Ok(auditable) => auditable,
        Err(reply) => return reply.write(sink),
    };
    Status::Done.unless_cut(show(&mut auditable, id, sink))
}

/// Writes the audit.
fn show<O: Sink>(auditable: &mut Auditable, id: u64, sink: &mut O) -> Result<(), SinkFault>
    requires log { HoldsLog auditable.old.replayed.left.kernel.log auditable.old.replayed.left.memory }
    requires within { LiesWithin id (length auditable.old.auditing)
        (log_in auditable.old.replayed.left.kernel.log auditable.old.replayed.left.memory) }
    requires fresh { auditable.old.auditing ≡ replicate (length auditable.old.auditing) 0 }
    ensures { IsTextPut O.taken O.faults sink.old sink.new
        (audit_text id (length auditable.old.auditing)
        (log_in auditable.old.replayed.left.kernel.log auditable.old.replayed.left.memory)) result }
{
    let left = &auditable.replayed.left;
    report_text::audit(
        sink,
        &left.memory,
        left.kernel.log(),
        id,
        &mut auditable.auditing,
    )
}
