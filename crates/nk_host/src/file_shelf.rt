//! The machine's files.
ghost use Rattle.std.specs.Prelude.{◌≡◌, ◌≢◌, ◌↔◌, ◌≤◌, IfOk, IfSome, length, vec_len};
ghost use Rattle.nk_host.specs.FaultCounts.{RoseTo, raised};
ghost use Rattle.nk_host.specs.Streams.{StandsAt};

use crate::counted::Counted;
use crate::filling::fill_from;
use crate::placed::Placed;
use crate::whole::read_whole;
use crate::{FetchFault, PieceFault, Shelf};
use std::alloc::Global;
use std::fs;
use std::io::{Read, Seek};
use std::marker::Model;
use std::rt::Files;

/// The machine's files, under their paths. Contracts see the count of all faults, which is that of
/// every name, the count of wants of memory, and nothing of the files. The file that a size or a piece
/// opened last stays open.
#[derive(Drop)]
pub struct FileShelf<'a, R: Files> {
    rt: &'a R,
    faults: u64,
    wants: u64,
    last: Option<OpenFile<R::File>>,
}

/// A file that is open, under its name.
#[derive(Drop)]
struct OpenFile<F: Read + Seek> {
    name: String,
    placed: Placed<F>,
}

impl<'a, R: Files> Model for FileShelf<'a, R> {
    ghost use Rattle.nk_host.specs.FaultCounts.{Counts};

    ghost Value = { Counts };

    ghost view = { λ s. record { faults = s.faults; wants = s.wants } };
}

/// Opens a file to read. A directory opens too, but it is none.
fn open_file<R: Files>(rt: &R, name: &str) -> Option<R::File> {
    let file = fs::open(rt, name).ok()?;
    let data = std::fs::OpenFile::metadata(&file).ok()?;
    if data.is_dir() { None } else { Some(file) }
}

/// The size as it was read, where it is at most `most`.
fn at_most(size: Result<u64, PieceFault>, most: u64) -> Result<u64, FetchFault>
    ensures at_most { IfOk result (λ size. size ≤ most) }
    ensures memory { result ≡ Err FetchFault.Memory ↔ size ≡ Err PieceFault.Memory }
    ensures failed { result ≡ Err FetchFault.Failed ↔ size ≡ Err PieceFault.Failed }
{
    match size {
        Ok(size) if size <= most => Ok(size),
        Ok(_) => Err(FetchFault::Longer),
        Err(PieceFault::Memory) => Err(FetchFault::Memory),
        Err(PieceFault::Failed) => Err(FetchFault::Failed),
    }
}

impl<'a, R: Files> FileShelf<'a, R> {
    /// The machine's files, with no fault and no want of memory yet.
    pub fn new(rt: &'a R) -> FileShelf<'a, R>
        ensures { result ≡ record { faults = 0; wants = 0 } }
    {
        FileShelf {
            rt,
            faults: 0,
            wants: 0,
            last: None,
        }
    }

    fn count_fault(&mut self)
        ensures after { self.new ≡ record self.old { faults = raised self.old.faults } }
        ensures never_falls { self.old.faults ≤ self.new.faults }
    {
        self.faults = self.faults.saturating_add(1);
    }

    fn count_want(&mut self)
        ensures after { self.new ≡ record self.old { wants = raised self.old.wants } }
        ensures wants_stand { self.old.wants ≤ self.new.wants }
    {
        self.wants = self.wants.saturating_add(1);
    }

    /// Opens a file anew, with its name beside it.
    fn open(&mut self, alloc: Global, name: &str) -> Result<OpenFile<R::File>, PieceFault>
        ensures never_falls { self.old.faults ≤ self.new.faults }
        ensures wants_stand { self.old.wants ≤ self.new.wants }
        ensures counts_stay { result ≢ Err PieceFault.Failed → self.new.faults ≡ self.old.faults }
        ensures failed { result ≡ Err PieceFault.Failed → RoseTo self.old.faults self.new.faults }
        ensures wanted { result ≡ Err PieceFault.Memory → RoseTo self.old.wants self.new.wants }
    {
        let Ok(name) = String::from_str(alloc, name) else {
            self.count_want();
            return Err(PieceFault::Memory);
        };
        match open_file(self.rt, name.as_str()) {
            Some(file) => Ok(OpenFile {
                name,
                placed: Placed::new(file, None),
            }),
            None => {
                self.count_fault();
                Err(PieceFault::Failed)
            }
        }
    }

    /// The file of that name: the one that was opened last, or else one that is opened now.
    fn file(&mut self, alloc: Global, name: &str) -> Result<OpenFile<R::File>, PieceFault>
        ensures never_falls { self.old.faults ≤ self.new.faults }
        ensures wants_stand { self.old.wants ≤ self.new.wants }
        ensures counts_stay { result ≢ Err PieceFault.Failed → self.new.faults ≡ self.old.faults }
        ensures failed { result ≡ Err PieceFault.Failed → RoseTo self.old.faults self.new.faults }
        ensures wanted { result ≡ Err PieceFault.Memory → RoseTo self.old.wants self.new.wants }
    {
        if let Some(last) = self.last.take() {
            if last.name.as_str() == name {
                return Ok(last);
            }
        }
        self.open(alloc, name)
    }

    /// Keeps a file open, and takes over the count of faults.
    fn keep(&mut self, name: String, reader: Counted<R::File>, stands: Option<u64>)
        requires { IfSome stands (StandsAt R.File.stream_position R.File.remaining reader.inner) }
        ensures { self.new ≡ record self.old { faults = reader.faults } }
    {
        self.faults = reader.faults();
        self.last = Some(OpenFile {
            name,
            placed: Placed::new(reader.into_inner(), stands),
        });
    }

    /// The length of the file of that name, which stays open.
    fn length(&mut self, alloc: Global, name: &str) -> Result<u64, PieceFault>
        ensures never_falls { self.old.faults ≤ self.new.faults }
        ensures wants_stand { self.old.wants ≤ self.new.wants }
        ensures counts_stay { result ≢ Err PieceFault.Failed → self.new.faults ≡ self.old.faults }
        ensures failed { result ≡ Err PieceFault.Failed → RoseTo self.old.faults self.new.faults }
        ensures wanted { result ≡ Err PieceFault.Memory → RoseTo self.old.wants self.new.wants }
    {
        let opened = match self.open(alloc, name) {
            Ok(opened) => opened,
            Err(fault) => return Err(fault),
        };
        let mut reader = Counted::after(opened.placed.file, self.faults);
        let size = reader.size();
        self.keep(opened.name, reader, None);
        size
    }

    /// The piece of the file of that name, which stays open.
    fn fill(
        &mut self,
        alloc: Global,
        name: &str,
        at: u64,
        into: &mut [u8],
    ) -> Result<(), PieceFault>
        ensures never_falls { self.old.faults ≤ self.new.faults }
        ensures wants_stand { self.old.wants ≤ self.new.wants }
        ensures counts_stay { result ≢ Err PieceFault.Failed → self.new.faults ≡ self.old.faults }
        ensures failed { result ≡ Err PieceFault.Failed → RoseTo self.old.faults self.new.faults }
        ensures wanted { result ≡ Err PieceFault.Memory → RoseTo self.old.wants self.new.wants }
    {
        let opened = match self.file(alloc, name) {
            Ok(opened) => opened,
            Err(fault) => return Err(fault),
        };
        let Placed { file, stands } = opened.placed;
        let mut stands = stands;
        let mut reader = Counted::after(file, self.faults);
        let filled = fill_from(&mut reader, &mut stands, at, into);
        self.keep(opened.name, reader, stands);
        filled
    }
}

impl<R: Files> Shelf for FileShelf<'_, R> {
    ghost use Rattle.std.specs.Prelude.{None};

    ghost files = { λ _. None };

    ghost faults = { λ s _. s.faults };

    ghost wants = { λ s. s.wants };

    /// A file that can't be opened or read is a fault, a directory and an interrupted read too. Any other
    /// answer leaves the count of faults.
    fn fetch(&mut self, alloc: Global, name: &str, most: u64) -> Result<Vec<u8>, FetchFault>
        ensures never_falls { self.old.faults ≤ self.new.faults }
        ensures counts_stay { result ≢ Err FetchFault.Failed → self.new.faults ≡ self.old.faults }
        ensures failed { result ≡ Err FetchFault.Failed → RoseTo self.old.faults self.new.faults }
        ensures wants_stand { self.old.wants ≤ self.new.wants }
        ensures at_most { IfOk result (λ bytes. vec_len bytes ≤ most) }
    {
        let Ok(file) = fs::open(self.rt, name) else {
            self.count_fault();
            return Err(FetchFault::Failed);
        };
        let mut from = Counted::after(file, self.faults);
        let result = read_whole(alloc, &mut from, most);
        self.faults = from.faults();
        result
    }

    /// Opens the file anew. One that can't be opened is a fault, and so are a directory and what has no
    /// length, as a pipe. Any other answer leaves the count of faults.
    fn size(&mut self, alloc: Global, name: &str, most: u64) -> Result<u64, FetchFault>
        ensures never_falls { self.old.faults ≤ self.new.faults }
        ensures counts_stay { result ≢ Err FetchFault.Failed → self.new.faults ≡ self.old.faults }
        ensures failed { result ≡ Err FetchFault.Failed → RoseTo self.old.faults self.new.faults }
        ensures wants_stand { self.old.wants ≤ self.new.wants }
        ensures wanted { result ≡ Err FetchFault.Memory → RoseTo self.old.wants self.new.wants }
        ensures at_most { IfOk result (λ size. size ≤ most) }
    {
        at_most(self.length(alloc, name), most)
    }

    /// Reads the file where the piece stands, without what is before it. One that can't be opened or read
    /// is a fault, and so are a directory, an interrupted read, and a file that ends before the piece
    /// does. Any other answer leaves the count of faults.
    fn piece(
        &mut self,
        alloc: Global,
        name: &str,
        at: u64,
        into: &mut [u8],
    ) -> Result<(), PieceFault>
        ensures never_falls { self.old.faults ≤ self.new.faults }
        ensures counts_stay { result ≢ Err PieceFault.Failed → self.new.faults ≡ self.old.faults }
        ensures failed { result ≡ Err PieceFault.Failed → RoseTo self.old.faults self.new.faults }
        ensures wants_stand { self.old.wants ≤ self.new.wants }
        ensures wanted { result ≡ Err PieceFault.Memory → RoseTo self.old.wants self.new.wants }
        ensures len { length into.new ≡ length into.old }
    {
        self.fill(alloc, name, at, into)
    }
}
