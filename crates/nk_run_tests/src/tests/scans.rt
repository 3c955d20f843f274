//! Worked cases of how a shelf is read: which reads a scan makes, that each may fail, and what a want of memory gives.
ghost use Rattle.std.specs.Prelude.{◌≡◌, ◌≢◌, map, Some};
ghost use Rattle.std.specs.String.{string_bytes};
ghost use Rattle.command_words.specs.declared.command_line.Command.TheVariants.{Scan};
ghost use Rattle.command_words.specs.CommandLine.{command_of};

use super::cases::Failing::{Fetch, No};
use super::cases::File::{Changed, Filled, Holds, Nops, Segments};
use super::cases::Table::Cases;
use super::cases::Wanted::Text;
use super::cases::{Case, HALTING, HALTS, first_other};
use super::{ADMITTED, CODE, DATA, NAME, PAST_THE_LIMIT, SCAN, Segment, image, owned};
use nk_host::{FetchFault, MemShelf, MemSink, PieceFault, Shelf};
use nk_run::nk_main;
use std::alloc::Global;
use std::test::Fail;

/// Four reads are made of a page and each may fail.
static READS: [Case; 7] = [
    // The size, the head, the table and the page.
    (&SCAN, &[HALTING], Fetch(1), 3, Text("unread image\n")),
    (&SCAN, &[HALTING], Fetch(2), 3, Text("unread image\n")),
    (&SCAN, &[HALTING], Fetch(3), 3, Text("unread image\n")),
    (&SCAN, &[HALTING], Fetch(4), 3, Text("unread image\n")),
    (&SCAN, &[HALTING], Fetch(5), 0, Text(ADMITTED)),
    // A page that isn't executable is not read.
    (
        &SCAN,
        &[(NAME, Segments(&[CODE, CONSTANTS]))],
        Fetch(5),
        0,
        Text(ADMITTED),
    ),
    // A name without a file.
    (
        &["scan", "missing"],
        &[(NAME, Holds(&[]))],
        No,
        3,
        Text("unread image\n"),
    ),
];

/// A page of constants behind the code.
const CONSTANTS: Segment = Segment {
    bytes: &[0x90, 0xf4],
    ..DATA
};

/// Nothing is read behind a fault. A file that is too long, one without the magic number, one with a segment out of its
/// range, and one with a protected encoding in the first of two pages.
static FAULTS: [Case; 4] = [
    (
        &SCAN,
        &[(NAME, Filled(0, PAST_THE_LIMIT, &[]))],
        Fetch(2),
        7,
        Text("longer image 67108864\n"),
    ),
    (
        &SCAN,
        &[(NAME, Changed(&[(3, &[0x47])]))],
        Fetch(3),
        1,
        Text("image 2 Magic 0\n"),
    ),
    (
        &SCAN,
        &[(NAME, Changed(&[(96, &[2])]))],
        Fetch(4),
        1,
        Text("image 7 SegmentRange 0\n"),
    ),
    (
        &SCAN,
        &[(NAME, Nops(4094, &[0x0f, 0x30, 0xf4]))],
        Fetch(5),
        1,
        Text("protected ffffffff80000ffe 0f30\n"),
    ),
];

#[test]
fn a_shelf_is_read_as_far_as_it_is_needed(rt: HostRuntime) -> Result<(), Fail> {
    let tables = [Cases(&READS), Cases(&FAULTS)];
    assert_eq!(rt; first_other(rt.alloc(), &tables)?, None);
    Ok(())
}

/// The status over a shelf in memory, which of `scan` is never that of want of memory.
fn status_in_memory(alloc: Global, words: &[String], shelf: &mut MemShelf, sink: &mut MemSink) -> u8
    ensures { command_of (map string_bytes words.now) ≡ Some Scan → result ≢ 5 }
{
    nk_main(alloc, words, shelf, sink)
}

#[test]
fn a_shelf_in_memory_never_wants_memory(rt: HostRuntime) -> Result<(), Fail> {
    let alloc = rt.alloc();
    let files = vec![in alloc; (String::from_str(alloc, NAME)?, image(alloc, &HALTS)?)]?;
    let mut shelf = MemShelf::new(alloc, files, Vec::new(alloc))?;
    let mut sink = MemSink::new(alloc, 100, Vec::new(alloc), 0)?;
    let status = status_in_memory(alloc, &owned(alloc, &SCAN)?, &mut shelf, &mut sink);
    assert_eq!(rt; status, 0);
    Ok(())
}

/// A shelf that has memory for no bytes, and for a size only if it is `sized`, and notes the most that was asked for.
#[derive(Drop)]
struct Wanting {
    sized: bool,
    most: u64,
    wanted: u64,
}

impl Shelf for Wanting {
    ghost use Rattle.std.specs.Prelude.{None};

    ghost files = { λ _. None };

    ghost faults = { λ _ _. 0 };

    ghost wants = { λ s. s.wanted };

    fn fetch(&mut self, _alloc: Global, _name: &str, most: u64) -> Result<Vec<u8>, FetchFault> {
        self.most = most;
        self.wanted = self.wanted.saturating_add(1);
        Err(FetchFault::Memory)
    }

    fn size(&mut self, _alloc: Global, _name: &str, most: u64) -> Result<u64, FetchFault> {
        self.most = most;
        if self.sized {
            return Ok(most);
        }
        self.wanted = self.wanted.saturating_add(1);
        Err(FetchFault::Memory)
    }

    fn piece(
        &mut self,
        _alloc: Global,
        _name: &str,
        _at: u64,
        _into: &mut [u8],
    ) -> Result<(), PieceFault> {
        self.wanted = self.wanted.saturating_add(1);
        Err(PieceFault::Memory)
    }
}

/// Whether a command asks such a shelf once, for at most 64 MiB, and tells of the want of memory.
fn is_wanting(alloc: Global, words: &[&str], sized: bool) -> Result<bool, Fail> {
    let mut shelf = Wanting {
        sized,
        most: 0,
        wanted: 0,
    };
    let mut sink = MemSink::new(alloc, 100, Vec::new(alloc), 0)?;
    let status = nk_main(alloc, &owned(alloc, words)?, &mut shelf, &mut sink);
    let is_said = status == 5 && sink.taken() == b"no memory\n".as_slice();
    Ok(is_said && shelf.most == 67_108_864 && shelf.wanted == 1)
}

#[test]
fn a_file_of_64_mib_is_not_longer(rt: HostRuntime) -> Result<(), Fail> {
    assert!(rt; is_wanting(rt.alloc(), &SCAN, false)?);
    assert!(rt; is_wanting(rt.alloc(), &SCAN, true)?);
    assert!(rt; is_wanting(rt.alloc(), &["map", NAME, "512", "0"], false)?);
    Ok(())
}
