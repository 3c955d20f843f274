//! The command `join IMAGE LIST`.
ghost use Rattle.std.specs.Prelude.{◌≡◌, ℕ, List, [], ◌∷◌, None, Ok, Err, Some, IfOk, MatchResult, length, map, take};
ghost use Rattle.std.specs.List.{range_with_len};
ghost use Rattle.nk_host.specs.FaultCounts.{NeverFalls};
ghost use Rattle.nk_host.specs.Told.{IfTold};
ghost use Rattle.byte_scanner.specs.FirstFound.{first_found};
ghost use Rattle.code_modules.specs.JoinAnswers.{IsShortFault, join_answer, modules_with};
ghost use Rattle.code_modules.specs.ModuleList.{list_of};
ghost use Rattle.command_words.specs.declared.command_line.Command.TheVariants.{Join};
ghost use Rattle.command_words.specs.CommandLine.{command_of};
ghost use Rattle.file_scan.specs.ShelfChanges.{shelf_change};
ghost use Rattle.nk_run.specs.Witness.{sink_change};
ghost use Rattle.nk_run.specs.Outcome.{file_in, first_verdict, joinable, list_checks, listing_checks, module_checks, module_fetches, module_held, modules_in, modules_named, outcome, passes, well_listed};
ghost use Rattle.nk_run.specs.ReplyText.{line_bytes};
ghost use Rattle.nk_run.specs.Statuses.{status_number};
ghost use Rattle.nk_run.specs.Replies.{CommandSays, EndsOwn, IsAnswered, RefusesBy, Stops, StopsIn, TellsBytes};

use crate::image::{fetch, fetch_named, open, protected};
use crate::lines::{empty_line, list_line, nofit_line};
use crate::reply::{Line, Reply, made, no_memory};
use crate::status::Status;
use code_modules::{JoinFault, ListFault, read_list};
use command_words::{Request, Role};
use elf_image::Image;
use nk_host::{Shelf, Sink, put_all};
use std::alloc::Global;

/// The most modules of a list.
const MOST_MODULES: usize = 32;

/// An image, and the list of what is joined with it.
#[derive(Drop)]
struct Listed {
    image: Image,
    list: code_modules::List,
}

/// What a join reads from its files.
#[derive(Drop)]
struct Held {
    listed: Listed,
    modules: Vec<Vec<u8>>,
}

/// The list of a file, or the reply to its first line that is out of form.
fn read_names(alloc: Global, bytes: &[u8]) -> Result<code_modules::List, Reply>
    ensures { MatchResult result
        (λ list. list_of bytes.now ≡ Ok list)
        (λ reply. RefusesBy 6 (well_listed (list_of bytes.now))
        (status_number reply.status) (line_bytes reply.line)) }
{
    match read_list(alloc, bytes) {
        Ok(list) => Ok(list),
        Err(ListFault::Line(number)) => Err(made(Status::WrongLine, list_line(alloc, number))),
        Err(ListFault::Memory) => Err(no_memory()),
    }
}

/// The list, or the reply to the first check on it that doesn't pass.
fn open_list<S: Shelf>(
    alloc: Global,
    request: &Request<'_>,
    shelf: &mut S,
) -> Result<code_modules::List, Reply>
    ensures files_stay { S.files shelf.new ≡ S.files shelf.old }
    ensures never_falls { NeverFalls (S.faults shelf.old) (S.faults shelf.new) }
    ensures opened { MatchResult result
        (λ list. IfTold (S.files shelf.old) (λ files. (list_of (file_in files request.now Role.ModuleList) ≡ Ok list)
        × (first_verdict (listing_checks files request.now) ≡ passes)))
        (λ reply. Stops request.now (shelf_change S.files S.faults S.wants shelf.old shelf.new) Role.ModuleList
        (λ files. first_verdict (listing_checks files request.now))
        (status_number reply.status) (line_bytes reply.line)) }
{
    match fetch(alloc, request, Role::ModuleList, shelf) {
        Ok(bytes) => read_names(alloc, &bytes),
        Err(reply) => Err(reply),
    }
}

/// The image and the list, or the reply to the first check on either that doesn't pass.
fn open_listed<S: Shelf>(
    alloc: Global,
    request: &Request<'_>,
    shelf: &mut S,
) -> Result<Listed, Reply>
    ensures files_stay { S.files shelf.new ≡ S.files shelf.old }
    ensures never_falls { NeverFalls (S.faults shelf.old) (S.faults shelf.new) }
    ensures bytes { TellsBytes (S.files shelf.old) }
    ensures opened { MatchResult result
        (λ listed. (first_found listed.image ≡ None)
        × IfTold (S.files shelf.old) (λ files. (listed.image ≡ file_in files request.now Role.Image)
        × (listed.list ≡ modules_named files request.now)
        × (first_verdict (list_checks files request.now) ≡ passes)))
        (λ reply. StopsIn request.now (shelf_change S.files S.faults S.wants shelf.old shelf.new)
        (Role.Image ∷ Role.ModuleList ∷ []) (λ files. list_checks files request.now)
        (status_number reply.status) (line_bytes reply.line)) }
{
    let image = match open(alloc, request, shelf) {
        Ok(image) => image,
        Err(reply) => return Err(reply),
    };
    match open_list(alloc, request, shelf) {
        Ok(list) => Ok(Listed { image, list }),
        Err(reply) => Err(reply),
    }
}

/// The modules of a list, in its order, or the reply to the first of them that isn't fetched.
fn fetch_modules<S: Shelf>(
    alloc: Global,
    list: &code_modules::List,
    shelf: &mut S,
) -> Result<Vec<Vec<u8>>, Reply>
    ensures files_stay { S.files shelf.new ≡ S.files shelf.old }
    ensures count { IfOk result (λ modules. length modules.items ≡ length list.now) }
    ensures fetched { MatchResult result
        (λ modules. IfTold (S.files shelf.old) (λ files.
        (map (λ m. m.items) modules.items ≡ map (λ it. (module_held files it).bytes) list.now)
        × (first_verdict (module_fetches files 0 list.now) ≡ passes)))
        (λ reply. (words : List (List ℕ)) → IfTold (S.files shelf.old) (λ files. list.now ≡ modules_named files words)
        → StopsIn words (shelf_change S.files S.faults S.wants shelf.old shelf.new)
        (map Role.Module (range_with_len 0 32)) (λ files. module_fetches files 0 list.now)
        (status_number reply.status) (line_bytes reply.line)) }
{
    let mut modules = Vec::new(alloc);
    for i in 0..list.len() {
        let name = list.name(i);
        let bytes = match fetch_named(alloc, name, Role::Module(i as u32), shelf) {
            Ok(bytes) => bytes,
            Err(reply) => return Err(reply),
        };
        if let Err(_) = modules.push(bytes) {
            return Err(no_memory());
        }
    }
    Ok(modules)
}

/// All files of a join, or the reply to the first check on them that doesn't pass.
fn hold<S: Shelf>(alloc: Global, request: &Request<'_>, shelf: &mut S) -> Result<Held, Reply>
    ensures files_stay { S.files shelf.new ≡ S.files shelf.old }
    ensures bytes { TellsBytes (S.files shelf.old) }
    ensures count { IfOk result (λ held. length held.modules.items ≡ length held.listed.list) }
    ensures held { MatchResult result
        (λ held. (first_found held.listed.image ≡ None)
        × IfTold (S.files shelf.old) (λ files. (held.listed.image ≡ file_in files request.now Role.Image)
        × (modules_with (map (λ it. it.guard) held.listed.list) (map (λ m. m.items) held.modules.items) ≡ modules_in files request.now)
        × (first_verdict (module_checks files request.now) ≡ passes)))
        (λ reply. StopsIn request.now (shelf_change S.files S.faults S.wants shelf.old shelf.new)
        (Role.Image ∷ Role.ModuleList ∷ map Role.Module (range_with_len 0 32)) (λ files. module_checks files request.now)
        (status_number reply.status) (line_bytes reply.line)) }
{
    let listed = match open_listed(alloc, request, shelf) {
        Ok(listed) => listed,
        Err(reply) => return Err(reply),
    };
    match fetch_modules(alloc, &listed.list, shelf) {
        Ok(modules) => Ok(Held { listed, modules }),
        Err(reply) => Err(reply),
    }
}

/// Which of the modules of a list have a guard page before them, in its order.
fn guards_of(list: &code_modules::List) -> [bool; MOST_MODULES]
    ensures { take (length list.now) result ≡ map (λ it. it.guard) list.now }
{
    let mut guards = [false; MOST_MODULES];
    for i in 0..list.len() {
        guards[i] = list.guard(i);
    }
    guards
}

/// The reply to modules that aren't joined with an image.
fn refuse(alloc: Global, fault: JoinFault) -> Reply
    requires { IsShortFault fault }
    ensures { EndsOwn (joinable (Err fault)) (status_number result.status) (line_bytes result.line) }
{
    match fault {
        JoinFault::Empty(number) => made(Status::Unfit, empty_line(alloc, number)),
        JoinFault::NoFit => Reply {
            status: Status::Unfit,
            line: Line::Fixed(nofit_line()),
        },
        JoinFault::Protected(found) => protected(&found),
        JoinFault::Memory => no_memory(),
    }
}

/// The file of the joined image, or the reply where the modules aren't joined.
fn join_held(alloc: Global, held: &Held) -> Result<Vec<u8>, Reply>
    requires count { length held.now.modules.items ≡ length held.now.listed.list }
    requires clean { first_found held.now.listed.image ≡ None }
    ensures { let answer = join_answer held.now.listed.image
        (modules_with (map (λ it. it.guard) held.now.listed.list) (map (λ m. m.items) held.now.modules.items)) in
        MatchResult result
        (λ file. answer ≡ Ok file.items)
        (λ reply. EndsOwn (joinable answer) (status_number reply.status) (line_bytes reply.line)) }
{
    let guards = guards_of(&held.listed.list);
    let count = held.listed.list.len();
    match code_modules::join(
        alloc,
        &held.listed.image,
        held.listed.image.headers(),
        &held.modules,
        &guards[..count],
    ) {
        Ok(file) => Ok(file),
        Err(fault) => Err(refuse(alloc, fault)),
    }
}

/// The file of the joined image, or the reply where there is none.
fn make_joined<S: Shelf>(
    alloc: Global,
    request: &Request<'_>,
    shelf: &mut S,
) -> Result<Vec<u8>, Reply>
    requires { command_of request.now ≡ Some Join }
    ensures files_stay { S.files shelf.new ≡ S.files shelf.old }
    ensures bytes { TellsBytes (S.files shelf.old) }
    ensures made { MatchResult result
        (λ file. IfTold (S.files shelf.old) (λ files. outcome request.now files ≡ Some (record { status = 0; text = file.items })))
        (λ reply. CommandSays request.now (shelf_change S.files S.faults S.wants shelf.old shelf.new)
        (status_number reply.status) (line_bytes reply.line)) }
{
    let held = match hold(alloc, request, shelf) {
        Ok(held) => held,
        Err(reply) => return Err(reply),
    };
    match join_held(alloc, &held) {
        Ok(file) => Ok(file),
        Err(reply) => Err(reply),
    }
}

/// Joins the modules of a list with an image, and writes the file.
#[inline(never)]
pub(crate) fn join<S: Shelf, O: Sink>(
    alloc: Global,
    request: &Request<'_>,
    shelf: &mut S,
    sink: &mut O,
) -> Status
    requires { command_of request.now ≡ Some Join }
    ensures bytes { TellsBytes (S.files shelf.old) }
    ensures answered { IsAnswered (record {
      words = request.now;
      shelf = shelf_change S.files S.faults S.wants shelf.old shelf.new;
      sink = sink_change O.taken O.faults sink.old sink.new;
    }) (status_number result) }
{
    match make_joined(alloc, request, shelf) {
        Ok(file) => Status::Done.unless_cut(put_all(sink, &file)),
        Err(reply) => reply.write(sink),
    }
}
