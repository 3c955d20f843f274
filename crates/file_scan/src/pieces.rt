//! The headers of a file on a shelf, from the pieces that have them.

ghost use Rattle.std.specs.Prelude.{◌≡◌, ℕ, ◌+◌, ◌*◌, ◌<◌, ◌≤◌, List, drop, length, min, take, MatchResult};
ghost use Rattle.elf_image.specs.Elf.{phdr_size};
ghost use Rattle.elf_image.specs.HeaderRows.{table_of};
ghost use Rattle.file_scan.specs.ShelfChanges.{shelf_change};
ghost use Rattle.file_scan.specs.HeldFile.{AreFilesKept, OfFile, WhereHeld};
ghost use Rattle.file_scan.specs.ScanStops.{HasFault, IsStop};
ghost use Rattle.file_scan.specs.WalkedPieces.{IsStopWhereHeld, HasHeaders, HasShape, IsOfSize};

use byte_scanner::Found;
use elf_image::{Headers, ImageFault, Shape, headers_law};
use nk_host::{FetchFault, PieceFault, Shelf};
use std::alloc::Global;

/// The most bytes of a file that is read: 64 MiB.
pub const FILE_LIMIT: u64 = 67_108_864;

/// The most bytes of a program header table: 64 entries.
const TABLE_LIMIT: usize = 3_584;

/// Why a file isn't admitted.
#[derive(Clone, Copy)]
pub enum Stop {
    /// A piece of it couldn't be read, or its size, or there is none of that name.
    Unread,
    /// The shelf had no memory.
    Want,
    /// It has more bytes than `FILE_LIMIT`.
    Longer,
    /// It isn't in form; its first fault.
    Faulty(ImageFault),
    /// Its code holds a protected encoding; that at the least address.
    Protected(Found),
}

/// What is told of an image that is admitted.
#[derive(Clone, Copy)]
pub struct Admitted {
    /// The linear address of the first instruction.
    pub entry: u64,
    /// The number of pages that may be executed.
    pub pages: u32,
}

/// The size of the file.
pub(crate) fn size_of<S: Shelf>(alloc: Global, name: &str, shelf: &mut S) -> Result<u64, Stop>
    ensures kept { AreFilesKept (shelf_change S.files S.faults S.wants shelf.old shelf.new) }
    ensures size { MatchResult result
        (λ size. OfFile (S.files shelf.old) name.now (IsOfSize size))
        (IsStop (shelf_change S.files S.faults S.wants shelf.old shelf.new) name.now) }
{
    match shelf.size(alloc, name, FILE_LIMIT) {
        Ok(size) => Ok(size),
        Err(FetchFault::Memory) => Err(Stop::Want),
        Err(FetchFault::Failed) => Err(Stop::Unread),
        Err(FetchFault::Longer) => Err(Stop::Longer),
    }
}

/// Fills `into` with the file's bytes from place `at` on.
pub(crate) fn piece_of<S: Shelf>(
    alloc: Global,
    name: &str,
    at: u64,
    into: &mut [u8],
    shelf: &mut S,
) -> Result<(), Stop>
    requires within { WhereHeld (S.files shelf.old) name.now (λ b. at + length into.old ≤ length b) }
    ensures kept { AreFilesKept (shelf_change S.files S.faults S.wants shelf.old shelf.new) }
    ensures len { length into.new ≡ length into.old }
    ensures piece { MatchResult result
        (λ _. WhereHeld (S.files shelf.old) name.now (λ b. into.new ≡ take (length into.old) (drop at b)))
        (IsStopWhereHeld (shelf_change S.files S.faults S.wants shelf.old shelf.new) name.now) }
{
    match shelf.piece(alloc, name, at, into) {
        Ok(()) => Ok(()),
        Err(PieceFault::Memory) => Err(Stop::Want),
        Err(PieceFault::Failed) => Err(Stop::Unread),
    }
}

/// The shape of a file of `size` bytes that begins with `head`.
fn judge_head(size: u64, head: &[u8]) -> Result<Shape, ImageFault>
    requires { length head.now ≡ min size 64 }
    ensures { (b : List ℕ) → IsOfSize size b → head.now ≡ take 64 b
        → MatchResult result (λ shape. HasShape shape b) (λ fault. HasFault fault b) }
{
    headers_law();
    Shape::new(size, head)
}

/// The headers of a file of this shape from its program header table.
fn judge_table(shape: Shape, table: &[u8]) -> Result<Headers, ImageFault>
    requires { length table.now ≡ phdr_size * shape.count }
    ensures { (b : List ℕ) → HasShape shape b → table.now ≡ table_of b
        → MatchResult result (λ headers. HasHeaders headers b) (λ fault. HasFault fault b) }
{
    headers_law();
    shape.headers(table)
}

/// Reads the file's first 64 bytes, or all where it has fewer, into `head`, and judges them.
fn shape_in<S: Shelf>(
    alloc: Global,
    name: &str,
    size: u64,
    head: &mut [u8],
    shelf: &mut S,
) -> Result<Shape, Stop>
    requires size { WhereHeld (S.files shelf.old) name.now (IsOfSize size) }
    requires head { length head.old ≡ min size 64 }
    ensures kept { AreFilesKept (shelf_change S.files S.faults S.wants shelf.old shelf.new) }
    ensures shape { MatchResult result
        (λ shape. WhereHeld (S.files shelf.old) name.now (HasShape shape))
        (IsStopWhereHeld (shelf_change S.files S.faults S.wants shelf.old shelf.new) name.now) }
{
    if let Err(stop) = piece_of(alloc, name, 0, head, shelf) {
        return Err(stop);
    }
    match judge_head(size, head) {
        Ok(shape) => Ok(shape),
        Err(fault) => Err(Stop::Faulty(fault)),
    }
}

/// Reads the file's program header table into `table`, and judges it.
fn headers_in<S: Shelf>(
    alloc: Global,
    name: &str,
    shape: Shape,
    table: &mut [u8],
    shelf: &mut S,
) -> Result<Headers, Stop>
    requires shape { WhereHeld (S.files shelf.old) name.now (HasShape shape) }
    requires table { length table.old ≡ phdr_size * shape.count }
    ensures kept { AreFilesKept (shelf_change S.files S.faults S.wants shelf.old shelf.new) }
    ensures headers { MatchResult result
        (λ headers. WhereHeld (S.files shelf.old) name.now (HasHeaders headers))
        (IsStopWhereHeld (shelf_change S.files S.faults S.wants shelf.old shelf.new) name.now) }
{
    if let Err(stop) = piece_of(alloc, name, shape.table_at(), table, shelf) {
        return Err(stop);
    }
    match judge_table(shape, table) {
        Ok(headers) => Ok(headers),
        Err(fault) => Err(Stop::Faulty(fault)),
    }
}

/// The shape of the file, which has `size` bytes.
fn read_shape<S: Shelf>(alloc: Global, name: &str, size: u64, shelf: &mut S) -> Result<Shape, Stop>
    requires size { WhereHeld (S.files shelf.old) name.now (IsOfSize size) }
    ensures kept { AreFilesKept (shelf_change S.files S.faults S.wants shelf.old shelf.new) }
    ensures shape { MatchResult result
        (λ shape. WhereHeld (S.files shelf.old) name.now (HasShape shape))
        (IsStopWhereHeld (shelf_change S.files S.faults S.wants shelf.old shelf.new) name.now) }
{
    let mut head = [0u8; 64];
    shape_in(alloc, name, size, &mut head[..size.min(64) as usize], shelf)
}

/// The headers of the file, which has `size` bytes.
pub(crate) fn read_headers<S: Shelf>(
    alloc: Global,
    name: &str,
    size: u64,
    shelf: &mut S,
) -> Result<Headers, Stop>
    requires size { WhereHeld (S.files shelf.old) name.now (IsOfSize size) }
    ensures kept { AreFilesKept (shelf_change S.files S.faults S.wants shelf.old shelf.new) }
    ensures headers { MatchResult result
        (λ headers. WhereHeld (S.files shelf.old) name.now (HasHeaders headers))
        (IsStopWhereHeld (shelf_change S.files S.faults S.wants shelf.old shelf.new) name.now) }
{
    let shape = match read_shape(alloc, name, size, shelf) {
        Ok(shape) => shape,
        Err(stop) => return Err(stop),
    };
    let mut table = [0u8; TABLE_LIMIT];
    let len = shape.table_len();
    headers_in(alloc, name, shape, &mut table[..len], shelf)
}
