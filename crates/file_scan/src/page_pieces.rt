//! The pages of a file on a shelf, each read and scanned in turn.

ghost use Rattle.std.specs.Prelude.{◌≡◌, ℕ, ◌+◌, ◌-◌, ◌<◌, ◌≤◌, ◌++◌, List, drop, length, replicate, slice_index, take, true, IfNone, IfSome, MatchOption, MatchResult, OnOk, None, Some};
ghost use Rattle.elf_image.specs.Home.{page_size};
ghost use Rattle.elf_image.specs.Pages.{IsBytesOfPage, pages_of};
ghost use Rattle.elf_image.specs.SegmentPages.{is_executable_of, pages_in};
ghost use Rattle.byte_scanner.specs.FirstFound.{first_found};
ghost use Rattle.byte_scanner.specs.ScannedCode.{HasWalked};
ghost use Rattle.file_scan.specs.ShelfChanges.{shelf_change};
ghost use Rattle.file_scan.specs.HeldFile.{AreFilesKept, OfFile, WhereHeld};
ghost use Rattle.file_scan.specs.ScanStops.{IsGoodWith, IsStop};
ghost use Rattle.file_scan.specs.WalkedPieces.{IsStopWhereHeld, HasHeaders, IsAhead, IsOfSize};

use crate::pieces::{Admitted, Stop, piece_of, read_headers, size_of};
use byte_scanner::{Found, Scanner, page_pieces_law};
use elf_image::{Headers, PAGE_SIZE, Part, image_law, pages_law};
use nk_host::Shelf;
use std::alloc::Global;

/// Fills the page with a part of the file, and with zeros before and after it.
fn fill_page<S: Shelf>(
    alloc: Global,
    name: &str,
    part: Part,
    page: &mut [u8],
    shelf: &mut S,
) -> Result<(), Stop>
    requires within { WhereHeld (S.files shelf.old) name.now (λ b. part.at + part.len ≤ length b) }
    requires fits { part.skip + part.len ≤ length page.old }
    ensures kept { AreFilesKept (shelf_change S.files S.faults S.wants shelf.old shelf.new) }
    ensures len { length page.new ≡ length page.old }
    ensures page { MatchResult result
        (λ _. WhereHeld (S.files shelf.old) name.now (λ b. page.new ≡ replicate part.skip 0
        ++ (take part.len (drop part.at b) ++ replicate (length page.old - (part.skip + part.len)) 0)))
        (IsStopWhereHeld (shelf_change S.files S.faults S.wants shelf.old shelf.new) name.now) }
{
    let from = part.skip as usize;
    let upto = from + part.len as usize;
    page[..from].fill(0);
    page[upto..].fill(0);
    piece_of(alloc, name, part.at, &mut page[from..upto], shelf)
}

/// Reads page number `i` of the file.
fn read_page<S: Shelf>(
    alloc: Global,
    name: &str,
    headers: &Headers,
    i: u32,
    page: &mut [u8],
    shelf: &mut S,
) -> Result<(), Stop>
    requires inside { i < length (pages_in headers.now.segments) }
    requires size { length page.old ≡ page_size }
    requires headers { WhereHeld (S.files shelf.old) name.now (HasHeaders headers.now) }
    ensures kept { AreFilesKept (shelf_change S.files S.faults S.wants shelf.old shelf.new) }
    ensures len { length page.new ≡ page_size }
    ensures page { MatchResult result
        (λ _. WhereHeld (S.files shelf.old) name.now (λ b. IsBytesOfPage b (slice_index (pages_of b) i) page.new))
        (IsStopWhereHeld (shelf_change S.files S.faults S.wants shelf.old shelf.new) name.now) }
{
    image_law();
    if let Err(stop) = fill_page(alloc, name, headers.part(i), page, shelf) {
        return Err(stop);
    }
    Ok(())
}

/// Gives the scanner page number `i`, which may be executed. Returns the protected encoding at the least address.
fn feed_page(headers: &Headers, i: u32, page: &[u8], scanner: &mut Scanner) -> Option<Found>
    requires inside { i < length (pages_in headers.now.segments) }
    requires exec { is_executable_of headers.now.segments (slice_index (pages_in headers.now.segments) i) ≡ true }
    requires size { length page.now ≡ page_size }
    requires ahead { IsAhead (pages_in headers.now.segments) scanner.old i }
    ensures length { IfSome result (λ found. (2 ≤ found.count) × (found.count ≤ 3)) }
    ensures ahead { IfNone result (IsAhead (pages_in headers.now.segments) scanner.new (i + 1)) }
    ensures fed { (b : List ℕ) → HasHeaders headers.now b → HasWalked b scanner.old i
        → IsBytesOfPage b (slice_index (pages_of b) i) page.now
        → MatchOption result (HasWalked b scanner.new (i + 1)) (λ found. first_found b ≡ Some found) }
{
    image_law();
    pages_law();
    page_pieces_law();
    let _count = headers.pages();
    scanner.feed(headers.page(i).va, page)
}

/// Reads and scans page number `i` of the file, where it may be executed.
fn scan_page<S: Shelf>(
    alloc: Global,
    name: &str,
    headers: &Headers,
    i: u32,
    page: &mut [u8],
    scanner: &mut Scanner,
    shelf: &mut S,
) -> Result<(), Stop>
    requires inside { i < length (pages_in headers.now.segments) }
    requires size { length page.old ≡ page_size }
    requires headers { WhereHeld (S.files shelf.old) name.now (HasHeaders headers.now) }
    requires ahead { IsAhead (pages_in headers.now.segments) scanner.old i }
    requires walked { WhereHeld (S.files shelf.old) name.now (λ b. HasWalked b scanner.old i) }
    ensures kept { AreFilesKept (shelf_change S.files S.faults S.wants shelf.old shelf.new) }
    ensures len { length page.new ≡ page_size }
    ensures ahead { OnOk result (IsAhead (pages_in headers.now.segments) scanner.new (i + 1)) }
    ensures walked { MatchResult result
        (λ _. WhereHeld (S.files shelf.old) name.now (λ b. HasWalked b scanner.new (i + 1)))
        (IsStopWhereHeld (shelf_change S.files S.faults S.wants shelf.old shelf.new) name.now) }
{
    image_law();
    page_pieces_law();
    let info = headers.page(i);
    if !info.exec {
        return Ok(());
    }
    if let Err(stop) = read_page(alloc, name, headers, i, page, shelf) {
        return Err(stop);
    }
    match feed_page(headers, i, page, scanner) {
        None => Ok(()),
        Some(found) => Err(Stop::Protected(found)),
    }
}

/// Scans the file's pages in the order of their addresses, each in the same room of 4,096 bytes.
fn scan_pages<S: Shelf>(
    alloc: Global,
    name: &str,
    headers: &Headers,
    shelf: &mut S,
) -> Result<(), Stop>
    requires headers { WhereHeld (S.files shelf.old) name.now (HasHeaders headers.now) }
    ensures kept { AreFilesKept (shelf_change S.files S.faults S.wants shelf.old shelf.new) }
    ensures clean { MatchResult result
        (λ _. WhereHeld (S.files shelf.old) name.now (λ b. first_found b ≡ None))
        (IsStopWhereHeld (shelf_change S.files S.faults S.wants shelf.old shelf.new) name.now) }
{
    image_law();
    pages_law();
    page_pieces_law();
    let mut scanner = Scanner::new();
    let mut page = [0u8; PAGE_SIZE as usize];
    for i in 0..headers.pages() {
        if let Err(stop) = scan_page(alloc, name, headers, i, &mut page, &mut scanner, shelf) {
            return Err(stop);
        }
    }
    Ok(())
}

/// Scans the file of that name, which has `size` bytes.
fn scan_sized<S: Shelf>(
    alloc: Global,
    name: &str,
    size: u64,
    shelf: &mut S,
) -> Result<Admitted, Stop>
    requires size { WhereHeld (S.files shelf.old) name.now (IsOfSize size) }
    ensures kept { AreFilesKept (shelf_change S.files S.faults S.wants shelf.old shelf.new) }
    ensures says { MatchResult result
        (λ it. WhereHeld (S.files shelf.old) name.now (IsGoodWith it.entry it.pages))
        (IsStopWhereHeld (shelf_change S.files S.faults S.wants shelf.old shelf.new) name.now) }
{
    image_law();
    let headers = match read_headers(alloc, name, size, shelf) {
        Ok(headers) => headers,
        Err(stop) => return Err(stop),
    };
    if let Err(stop) = scan_pages(alloc, name, &headers, shelf) {
        return Err(stop);
    }
    Ok(Admitted {
        entry: headers.entry(),
        pages: headers.executable_pages(),
    })
}

/// Scans the file of that name. Holds neither the file nor the image, and takes no memory but the shelf's.
pub fn scan_file<S: Shelf>(alloc: Global, name: &str, shelf: &mut S) -> Result<Admitted, Stop>
    ensures kept { AreFilesKept (shelf_change S.files S.faults S.wants shelf.old shelf.new) }
    ensures says { MatchResult result
        (λ it. OfFile (S.files shelf.old) name.now (IsGoodWith it.entry it.pages))
        (IsStop (shelf_change S.files S.faults S.wants shelf.old shelf.new) name.now) }
{
    let size = match size_of(alloc, name, shelf) {
        Ok(size) => size,
        Err(stop) => return Err(stop),
    };
    scan_sized(alloc, name, size, shelf)
}
