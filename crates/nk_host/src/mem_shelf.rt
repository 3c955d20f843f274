//! A shelf in memory.
ghost use Rattle.std.specs.Prelude.{◌≡◌, ◌≢◌, ℕ, ◌+◌, ◌≤◌, ◌<◌, ◌↔◌, List, [], map, length, take, drop, replicate, Option, IfOk, OnOk, IfErr, IsTrue, IsFalse, Some, slice_set, position, ◌-◌, ◌^◌, vec_len};
ghost use Rattle.std.specs.Option.{option_copied};
ghost use Rattle.nk_host.specs.Files.{AreFilesOfBytes, HasSize, IsFile, IsFileOfBytes, IsLonger, IsPiece, IsWithin};
ghost use Rattle.std.specs.Str.{bytes_eq};
ghost use Rattle.std.specs.String.{string_bytes};
ghost use Rattle.nk_host.specs.Attempts.{is_due};
ghost use Rattle.nk_host.specs.FaultCounts.{NeverFalls, OnlyAt, Rose, RoseTo, raised};
ghost use Rattle.nk_host.specs.ShelfInMemory.{after_read, count_of, file_of, named_files, name_place, read_fails, with_fault};

use crate::{FetchFault, NoMemory, PieceFault, Shelf};
use std::alloc::Global;
use std::marker::Model;

/// A shelf of files in memory, which fails at the reads that it is told to: fetches, sizes and pieces
/// are counted together.
#[derive(Drop)]
pub struct MemShelf {
    held: Vec<(String, Vec<u8>)>,
    counts: Vec<u64>,
    others: u64,
    failing: Vec<u64>,
    reads: u64,
}

impl Model for MemShelf {
    ghost use Rattle.std.specs.Prelude.{◌≡◌, vec_len};
    ghost use Rattle.nk_host.specs.ShelfInMemory.{Stock, named_files};

    ghost Value = { Stock };

    ghost view = { λ s. record {
      files = named_files s.held.items;
      counts = s.counts.items;
      others = s.others;
      failing = s.failing.items;
      reads = s.reads;
    } };

    ghost invariant = { λ s. vec_len s.counts ≡ vec_len s.held };
}

/// The place of the first pair of a name.
fn first_place(held: &[(String, Vec<u8>)], name: &str) -> Option<usize>
    ensures { result ≡ position (λ file. bytes_eq (string_bytes file.0) name.now) held.now }
{
    held.iter().position(|file| file.0.as_str() == name)
}

/// The place of the first file of a name.
fn place_of_name(held: &[(String, Vec<u8>)], name: &str) -> Option<usize>
    ensures { result ≡ name_place (named_files held.now) name.now }
{
    first_place(held, name)
}

/// Counts of no fault yet, one for each of so many files.
fn no_faults(alloc: Global, len: usize) -> Result<Vec<u64>, NoMemory>
    ensures { IfOk result (λ counts. counts.items ≡ replicate len 0) }
{
    vec![in alloc; 0; len].map_err(|_| NoMemory)
}

/// Each element of a slice of bytes is a byte.
fn are_bytes(file: &[u8])
    ensures { IsFileOfBytes file.now }
{}

/// Each file is made of bytes.
fn are_files_of_bytes(held: &[(String, Vec<u8>)])
    ensures { AreFilesOfBytes (file_of (named_files held.now)) }
{
    for file in held {
        are_bytes(&file.1);
    }
}

/// A copy of the file, where it has at most `most` bytes.
fn copy_of(alloc: Global, file: &[u8], most: u64) -> Result<Vec<u8>, FetchFault>
    ensures whole { IfOk result (λ bytes. bytes.items ≡ file.now) }
    ensures longer { result ≡ Err FetchFault.Longer ↔ most < length file.now }
    ensures at_most { IfOk result (λ bytes. vec_len bytes ≤ most) }
    ensures not_failed { result ≢ Err FetchFault.Failed }
{
    if file.len() as u64 > most {
        return Err(FetchFault::Longer);
    }
    file.to_vec(alloc).map_err(|_| FetchFault::Memory)
}

/// The length of the file, where it has at most `most` bytes.
fn size_of(file: &[u8], most: u64) -> Result<u64, FetchFault>
    ensures whole { IfOk result (λ size. size ≡ length file.now) }
    ensures longer { result ≡ Err FetchFault.Longer ↔ most < length file.now }
    ensures at_most { IfOk result (λ size. size ≤ most) }
    ensures only { IfErr result (λ fault. fault ≡ FetchFault.Longer) }
{
    let size = file.len() as u64;
    if size > most {
        Err(FetchFault::Longer)
    } else {
        Ok(size)
    }
}

/// Copies the file's bytes from place `at` on.
fn copy_piece(file: &[u8], at: u64, into: &mut [u8])
    requires { at + length into.old ≤ length file.now }
    ensures { into.new ≡ take (length into.new) (drop at file.now) }
{
    let rest = file.split_at(at as usize).1;
    let len = into.len();
    into.copy_from_slice(rest.split_at(len).0);
}

impl MemShelf {
    /// A shelf of these files, of which the first of a name counts, that has no fault yet. `failing`
    /// are numbers of reads, which count from 1.
    pub fn new(
        alloc: Global,
        files: Vec<(String, Vec<u8>)>,
        failing: Vec<u64>,
    ) -> Result<MemShelf, NoMemory>
        ensures shelf { IfOk result (λ shelf. shelf ≡ record {
          files = named_files files.items;
          counts = replicate (length files.items) 0;
          others = 0;
          failing = failing.items;
          reads = 0;
        }) }
        ensures no_faults { IfOk result (λ shelf. (name : List ℕ) → count_of shelf name ≡ 0) }
    {
        let counts = no_faults(alloc, files.len())?;
        Ok(MemShelf {
            held: files,
            counts,
            others: 0,
            failing,
            reads: 0,
        })
    }

    /// Begins the next read, and says whether its number is among the failing ones.
    fn begin(&mut self) -> bool
        ensures after { self.new ≡ record self.old { reads = raised self.old.reads } }
        ensures due { result ≡ is_due self.old.failing (raised self.old.reads) }
    {
        self.reads = self.reads.saturating_add(1);
        self.failing.contains(&self.reads)
    }

    fn count_fault(&mut self, name: &str)
        ensures after { self.new ≡ with_fault self.old name.now }
        ensures one_each { length self.old.files ≡ length self.old.counts }
        ensures fits { count_of self.old name.now ≤ 2 ^ 64 - 1 }
    {
        match place_of_name(&self.held, name) {
            Some(place) => self.counts[place] = self.counts[place].saturating_add(1),
            None => self.others = self.others.saturating_add(1),
        }
    }

    fn file(&self, name: &str) -> Option<&[u8]>
        ensures held { option_copied result ≡ file_of self.now.files name.now }
    {
        let place = place_of_name(&self.held, name)?;
        Some(&self.held[place].1)
    }

    fn fetch_next(&mut self, alloc: Global, name: &str, most: u64) -> Result<Vec<u8>, FetchFault>
        ensures after { self.new ≡ after_read self.old name.now }
        ensures bytes { AreFilesOfBytes (file_of self.old.files) }
        ensures failed { result ≡ Err FetchFault.Failed ↔ IsTrue (read_fails self.old name.now) }
        ensures longer { result ≡ Err FetchFault.Longer
            ↔ IsFalse (read_fails self.old name.now) × IsLonger (file_of self.old.files) name.now most }
        ensures whole { IfOk result (λ bytes. IsFile (file_of self.old.files) name.now bytes.items) }
        ensures at_most { IfOk result (λ bytes. vec_len bytes ≤ most) }

        // A count stands beside each file, and has 64 bits.
        ensures one_each { IsTrue (read_fails self.old name.now) → length self.old.files ≡ length self.old.counts }
        ensures fits { IsTrue (read_fails self.old name.now) → count_of self.old name.now ≤ 2 ^ 64 - 1 }
    {
        are_files_of_bytes(&self.held);
        let due = self.begin();
        match self.file(name) {
            Some(file) if !due => copy_of(alloc, file, most),
            _ => {
                self.count_fault(name);
                Err(FetchFault::Failed)
            }
        }
    }

    fn size_next(&mut self, name: &str, most: u64) -> Result<u64, FetchFault>
        ensures after { self.new ≡ after_read self.old name.now }
        ensures bytes { AreFilesOfBytes (file_of self.old.files) }
        ensures failed { result ≡ Err FetchFault.Failed ↔ IsTrue (read_fails self.old name.now) }
        ensures longer { result ≡ Err FetchFault.Longer
            ↔ IsFalse (read_fails self.old name.now) × IsLonger (file_of self.old.files) name.now most }
        ensures whole { IfOk result (λ size. HasSize (file_of self.old.files) name.now size) }
        ensures at_most { IfOk result (λ size. size ≤ most) }
        ensures not_memory { result ≢ Err FetchFault.Memory }

        // A count stands beside each file, and has 64 bits.
        ensures one_each { IsTrue (read_fails self.old name.now) → length self.old.files ≡ length self.old.counts }
        ensures fits { IsTrue (read_fails self.old name.now) → count_of self.old name.now ≤ 2 ^ 64 - 1 }
    {
        are_files_of_bytes(&self.held);
        let due = self.begin();
        match self.file(name) {
            Some(file) if !due => size_of(file, most),
            _ => {
                self.count_fault(name);
                Err(FetchFault::Failed)
            }
        }
    }

    fn piece_next(&mut self, name: &str, at: u64, into: &mut [u8]) -> Result<(), PieceFault>
        requires { IsWithin (file_of self.old.files) name.now at (length into.old) }
        ensures after { self.new ≡ after_read self.old name.now }
        ensures failed { result ≡ Err PieceFault.Failed ↔ IsTrue (read_fails self.old name.now) }
        ensures whole { OnOk result (IsPiece (file_of self.old.files) name.now at into.new) }
        ensures not_memory { result ≢ Err PieceFault.Memory }

        // A count stands beside each file, and has 64 bits.
        ensures one_each { IsTrue (read_fails self.old name.now) → length self.old.files ≡ length self.old.counts }
        ensures fits { IsTrue (read_fails self.old name.now) → count_of self.old name.now ≤ 2 ^ 64 - 1 }
    {
        let due = self.begin();
        match self.file(name) {
            Some(file) if !due => {
                copy_piece(file, at, into);
                Ok(())
            }
            _ => {
                self.count_fault(name);
                Err(PieceFault::Failed)
            }
        }
    }

    /// Whether the file of that name, where one is held, has so many bytes from place `at` on, as `piece`
    /// requires. It is no read.
    pub fn is_within(&self, name: &str, at: u64, len: usize) -> bool
        ensures { IsTrue result ↔ IsWithin (file_of self.now.files) name.now at len }
    {
        match self.file(name) {
            Some(file) => len <= file.len() && at <= (file.len() - len) as u64,
            None => true,
        }
    }
}

impl Shelf for MemShelf {
    ghost files = { λ s. Some (file_of s.files) };

    ghost faults = { λ s. count_of s };

    ghost wants = { λ _. 0 };

    /// Fails exactly where its number is among `failing` or the name isn't held; else the file is
    /// longer, or it is given, or there is no memory for it.
    fn fetch(&mut self, alloc: Global, name: &str, most: u64) -> Result<Vec<u8>, FetchFault>
        ensures files_stay { Some (file_of self.new.files) ≡ Some (file_of self.old.files) }
        ensures bytes { AreFilesOfBytes (file_of self.old.files) }
        ensures never_falls { NeverFalls (count_of self.old) (count_of self.new) }
        ensures only_at { OnlyAt (file_of self.old.files) (count_of self.old) (count_of self.new) name.now }
        ensures counts_stay { result ≢ Err FetchFault.Failed → count_of self.new ≡ count_of self.old }
        ensures failed { result ≡ Err FetchFault.Failed → Rose (count_of self.old) (count_of self.new) name.now }
        ensures wants_stand { 0 ≤ 0 }
        ensures at_most { IfOk result (λ bytes. vec_len bytes ≤ most) }
        ensures whole { IfOk result (λ bytes. IsFile (file_of self.old.files) name.now bytes.items) }
        ensures longer { result ≡ Err FetchFault.Longer → IsLonger (file_of self.old.files) name.now most }

        // Exactly when each fault comes, and what stands afterwards.
        ensures failed_exactly { result ≡ Err FetchFault.Failed ↔ IsTrue (read_fails self.old name.now) }
        ensures longer_exactly { result ≡ Err FetchFault.Longer
            ↔ IsFalse (read_fails self.old name.now) × IsLonger (file_of self.old.files) name.now most }
        ensures after { self.new ≡ after_read self.old name.now }
    {
        self.fetch_next(alloc, name, most)
    }

    /// Fails exactly where its number is among `failing` or the name isn't held; else the file is
    /// longer, or its length is given. It takes no memory.
    fn size(&mut self, _alloc: Global, name: &str, most: u64) -> Result<u64, FetchFault>
        ensures files_stay { Some (file_of self.new.files) ≡ Some (file_of self.old.files) }
        ensures bytes { AreFilesOfBytes (file_of self.old.files) }
        ensures never_falls { NeverFalls (count_of self.old) (count_of self.new) }
        ensures only_at { OnlyAt (file_of self.old.files) (count_of self.old) (count_of self.new) name.now }
        ensures counts_stay { result ≢ Err FetchFault.Failed → count_of self.new ≡ count_of self.old }
        ensures failed { result ≡ Err FetchFault.Failed → Rose (count_of self.old) (count_of self.new) name.now }
        ensures wants_stand { 0 ≤ 0 }
        ensures wanted { result ≡ Err FetchFault.Memory → RoseTo 0 0 }
        ensures at_most { IfOk result (λ size. size ≤ most) }
        ensures whole { IfOk result (λ size. HasSize (file_of self.old.files) name.now size) }
        ensures longer { result ≡ Err FetchFault.Longer → IsLonger (file_of self.old.files) name.now most }

        // Exactly when each fault comes, and what stands afterwards.
        ensures failed_exactly { result ≡ Err FetchFault.Failed ↔ IsTrue (read_fails self.old name.now) }
        ensures longer_exactly { result ≡ Err FetchFault.Longer
            ↔ IsFalse (read_fails self.old name.now) × IsLonger (file_of self.old.files) name.now most }
        ensures not_memory { result ≢ Err FetchFault.Memory }
        ensures after { self.new ≡ after_read self.old name.now }
    {
        self.size_next(name, most)
    }

    /// Fails exactly where its number is among `failing` or the name isn't held. It takes no memory.
    fn piece(
        &mut self,
        _alloc: Global,
        name: &str,
        at: u64,
        into: &mut [u8],
    ) -> Result<(), PieceFault>
        requires within { IsWithin (file_of self.old.files) name.now at (length into.old) }
        ensures files_stay { Some (file_of self.new.files) ≡ Some (file_of self.old.files) }
        ensures never_falls { NeverFalls (count_of self.old) (count_of self.new) }
        ensures only_at { OnlyAt (file_of self.old.files) (count_of self.old) (count_of self.new) name.now }
        ensures counts_stay { result ≢ Err PieceFault.Failed → count_of self.new ≡ count_of self.old }
        ensures failed { result ≡ Err PieceFault.Failed → Rose (count_of self.old) (count_of self.new) name.now }
        ensures wants_stand { 0 ≤ 0 }
        ensures wanted { result ≡ Err PieceFault.Memory → RoseTo 0 0 }
        ensures len { length into.new ≡ length into.old }
        ensures whole { OnOk result (IsPiece (file_of self.old.files) name.now at into.new) }

        // Exactly when it fails, and what stands afterwards.
        ensures failed_exactly { result ≡ Err PieceFault.Failed ↔ IsTrue (read_fails self.old name.now) }
        ensures not_memory { result ≢ Err PieceFault.Memory }
        ensures after { self.new ≡ after_read self.old name.now }
    {
        self.piece_next(name, at, into)
    }
}
