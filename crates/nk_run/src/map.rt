//! The command `map IMAGE FRAMES VA`.
ghost use Rattle.std.specs.Prelude.{◌≡◌, ◌<◌, ◌*◌, ◌/◌, length, Some, IsTrue};
ghost use Rattle.phys_mem.specs.Memory.{entry_in};
ghost use Rattle.nk_bits.specs.Paging.{is_canonical, page_of, walk};
ghost use Rattle.boot_map.specs.Division.{need};
ghost use Rattle.nk_bits.specs.KernelLayout.{opening_root};
ghost use Rattle.command_words.specs.declared.command_line.Command.TheVariants.{Map};
ghost use Rattle.command_words.specs.CommandLine.{command_of, IsBounded};
ghost use Rattle.file_scan.specs.ShelfChanges.{shelf_change};
ghost use Rattle.nk_run.specs.Lines.{walk_line};
ghost use Rattle.nk_run.specs.Outcome.{roomy, translation_of};
ghost use Rattle.nk_run.specs.ReplyText.{line_bytes};
ghost use Rattle.nk_run.specs.Statuses.{status_number};
ghost use Rattle.nk_run.specs.Replies.{CommandSays, Concludes, ShowsWalk};

use crate::image::open;
use crate::lines::{frame_line, missing_line};
use crate::opening::divide;
use crate::reply::{Reply, made, no_memory};
use crate::status::Status;
use boot_map::{prepare, tables_law};
use command_words::Request;
use elf_image::Image;
use nk_bits::OPENING_ROOT;
use nk_host::Shelf;
use page_walk::walk;
use phys_mem::PhysMem;
use std::alloc::Global;

/// The line for what the walk over a memory finds.
fn walk_reply(alloc: Global, memory: &PhysMem, va: u64) -> Reply
    requires root { 4096 * opening_root < length memory.now }
    requires canonical { IsTrue (is_canonical va) }
    ensures { let frames = length memory.now / 4096 in
        ShowsWalk (walk (entry_in memory.now) frames opening_root (page_of va))
        (status_number result.status) (line_bytes result.line) }
{
    match walk(memory, OPENING_ROOT, va) {
        Ok(leaf) => made(Status::Done, frame_line(alloc, leaf)),
        Err(fault) => made(Status::Done, missing_line(alloc, fault.level)),
    }
}

/// Opens the image in a memory of so many frames, and walks its tables for an address.
fn translate(alloc: Global, image: Image, frames: u32, va: u64) -> Reply
    requires { IsBounded (Map frames va) }
    ensures { Concludes (roomy (need image frames) frames)
        (walk_line (translation_of image frames va))
        (status_number result.status) (line_bytes result.line) }
{
    let opened = match divide(alloc, image, frames) {
        Ok(opened) => opened,
        Err(reply) => return reply,
    };
    tables_law();
    match prepare(alloc, &opened.image, &opened.layout) {
        Ok(memory) => walk_reply(alloc, &memory, va),
        Err(_) => no_memory(),
    }
}

/// Shows the translation of an address by the opening tables, in a memory of so many frames.
#[inline(never)]
pub(crate) fn map<S: Shelf>(
    alloc: Global,
    request: &Request<'_>,
    frames: u32,
    va: u64,
    shelf: &mut S,
) -> Reply
    requires asked { command_of request.now ≡ Some (Map frames va) }
    requires bounds { IsBounded (Map frames va) }
    ensures files_stay { S.files shelf.new ≡ S.files shelf.old }
    ensures says { CommandSays request.now
        (shelf_change S.files S.faults S.wants shelf.old shelf.new)
        (status_number result.status) (line_bytes result.line) }
{
    match open(alloc, request, shelf) {
        Ok(image) => translate(alloc, image, frames, va),
        Err(reply) => reply,
    }
}
