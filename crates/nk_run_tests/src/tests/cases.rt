//! Cases as rows of tables: the words of the command line, the files of its shelf, the call that fails, and what has to
//! come of it; and shorter rows for runs, for pages that are looked up, and for words without a form.
use super::{NAME, Ran, Segment, USAGE, gives, image, image_of, run_over};
use std::alloc::{AllocError, Global};
use std::test::Fail;
use test_kit::HOME;

/// The names of the other files.
pub(super) const INPUT: &str = "input";

pub(super) const PLAN: &str = "plan";

pub(super) const JOURNAL: &str = "journal";

pub(super) const LIST: &str = "list";

/// HLT.
pub(super) const HALTS: [u8; 1] = [0xf4];

/// The file of the halting kernel.
pub(super) const HALTING: (&str, File) = (NAME, File::Halting);

/// The section behind the lines of a run that changed nothing of its opening.
pub(super) const UNCHANGED: &str = "\nroot 5\ntrap ffffff80000011da\n";

/// What a file of the shelf holds.
#[derive(Clone, Copy)]
pub(super) enum File {
    /// No byte.
    Empty,
    /// The halting kernel.
    Halting,
    /// These pieces, one behind the other.
    Holds(&'static [&'static [u8]]),
    /// A byte so many times, and then these bytes.
    Filled(u8, usize, &'static [u8]),
    /// A line so many times, and then another one.
    Lines(usize, &'static [u8], &'static [u8]),
    /// An image with a text of these pieces, one behind the other.
    Code(&'static [&'static [u8]]),
    /// An image with a text of so many NOPs and then these bytes.
    Nops(usize, &'static [u8]),
    /// An image of pages, one behind the other: so many with these flags and bytes.
    Pages(&'static [(usize, u32, &'static [u8])]),
    /// An image of these segments.
    Segments(&'static [Segment<'static>]),
    /// The halting kernel's file, 4,097 bytes, with these bytes at these places.
    Changed(&'static [(usize, &'static [u8])]),
    /// The first bytes of the halting kernel's file.
    Cut(usize),
    /// These bytes at these places, with zeros between them.
    Placed(&'static [(usize, &'static [u8])]),
    /// What the last case of status 0 wrote.
    Written,
}

/// The call that fails, by its number, and how many bytes a failing put takes.
#[derive(Clone, Copy)]
pub(super) enum Failing {
    No,
    Fetch(u64),
    Put(u64, usize),
}

/// What has to be written.
#[derive(Clone, Copy)]
pub(super) enum Wanted {
    Text(&'static str),
    Bytes(&'static [u8]),
    /// These texts, each with so many digits 0 behind it.
    Padded(&'static [(&'static str, usize)]),
    /// What ends with these texts, each with so many digits 0 behind it.
    Ending(&'static [(&'static str, usize)]),
    /// So many bytes, which end so.
    Long(usize, &'static [u8]),
    /// The first bytes of what the last case of status 0 wrote, so many of them.
    Front(usize),
    /// So many lines that begin with these letters and a space.
    Lines(&'static [(u8, usize)]),
    Any,
}

/// Words, files by their names, the call that fails, the status, and what has to be written.
pub(super) type Case = (
    &'static [&'static str],
    &'static [(&'static str, File)],
    Failing,
    u8,
    Wanted,
);

fn filled(alloc: Global, byte: u8, count: usize, rest: &[u8]) -> Result<Vec<u8>, AllocError> {
    let mut bytes = Vec::new(alloc);
    bytes.resize(count, byte)?;
    bytes.extend_from_slice(rest)?;
    Ok(bytes)
}

fn repeated(alloc: Global, count: usize, line: &[u8], last: &[u8]) -> Result<Vec<u8>, AllocError> {
    let mut bytes = Vec::new(alloc);
    for _ in 0..count {
        bytes.extend_from_slice(line)?;
    }
    bytes.extend_from_slice(last)?;
    Ok(bytes)
}

/// The segment of the image's page of this number.
fn page_of(number: u64, flags: u32, bytes: &[u8]) -> Segment {
    Segment {
        flags,
        offset: number.saturating_add(1) << 12,
        address: HOME | number << 12,
        memory: bytes.len() as u64,
        nops: 0,
        bytes,
    }
}

fn push_pages<'a>(
    segments: &mut Vec<Segment<'a>>,
    count: usize,
    flags: u32,
    bytes: &'a [u8],
) -> Result<(), AllocError> {
    for _ in 0..count {
        segments.push(page_of(segments.len() as u64, flags, bytes))?;
    }
    Ok(())
}

fn paged(alloc: Global, pages: &[(usize, u32, &[u8])]) -> Result<Vec<u8>, AllocError> {
    let mut segments = Vec::new(alloc);
    for (count, flags, bytes) in pages {
        push_pages(&mut segments, *count, *flags, bytes)?;
    }
    image_of(alloc, &segments)
}

/// Writes bytes at a place, past the end too.
fn write_at(file: &mut Vec<u8>, place: usize, bytes: &[u8]) -> Result<(), AllocError> {
    let end = place.saturating_add(bytes.len());
    if file.len() < end {
        file.resize(end, 0)?;
    }
    for (at, value) in bytes.iter().enumerate() {
        if let Some(byte) = file.get_mut(place.saturating_add(at)) {
            *byte = *value;
        }
    }
    Ok(())
}

/// The file with these bytes at these places.
fn placed(mut file: Vec<u8>, changes: &[(usize, &[u8])]) -> Result<Vec<u8>, AllocError> {
    for (place, bytes) in changes {
        write_at(&mut file, *place, bytes)?;
    }
    Ok(file)
}

fn cut(mut file: Vec<u8>, length: usize) -> Vec<u8> {
    file.truncate(length);
    file
}

/// The bytes of a file, where this was written last.
fn contents(alloc: Global, file: File, written: &[u8]) -> Result<Vec<u8>, AllocError> {
    match file {
        File::Empty => Ok(Vec::new(alloc)),
        File::Halting => image(alloc, &HALTS),
        File::Holds(pieces) => pieces.concat(alloc),
        File::Filled(byte, count, rest) => filled(alloc, byte, count, rest),
        File::Lines(count, line, last) => repeated(alloc, count, line, last),
        File::Code(pieces) => image(alloc, &pieces.concat(alloc)?),
        File::Nops(count, rest) => image(alloc, &filled(alloc, 0x90, count, rest)?),
        File::Pages(pages) => paged(alloc, pages),
        File::Segments(segments) => image_of(alloc, segments),
        File::Changed(changes) => placed(image(alloc, &HALTS)?, changes),
        File::Cut(length) => Ok(cut(image(alloc, &HALTS)?, length)),
        File::Placed(pieces) => placed(Vec::new(alloc), pieces),
        File::Written => written.to_vec(alloc),
    }
}

/// A file of the shelf and its name.
fn held(
    alloc: Global,
    name: &str,
    file: File,
    written: &[u8],
) -> Result<(String, Vec<u8>), AllocError> {
    let bytes = contents(alloc, file, written)?;
    Ok((String::from_str(alloc, name)?, bytes))
}

/// The shelf's files by their names.
pub(super) fn shelf_of(
    alloc: Global,
    files: &[(&str, File)],
    written: &[u8],
) -> Result<Vec<(String, Vec<u8>)>, AllocError> {
    let mut shelf = Vec::new(alloc);
    for (name, file) in files {
        shelf.push(held(alloc, name, *file, written)?)?;
    }
    Ok(shelf)
}

/// The texts, each with so many digits 0 behind it.
fn padded(alloc: Global, texts: &[(&str, usize)]) -> Result<Vec<u8>, AllocError> {
    let mut bytes = Vec::new(alloc);
    for (text, zeros) in texts {
        bytes.extend_from_slice(text.as_bytes())?;
        bytes.resize(bytes.len().saturating_add(*zeros), b'0')?;
    }
    Ok(bytes)
}

/// How many lines of a text begin with this letter and a space.
fn count_lines(text: &[u8], letter: u8) -> usize {
    let mut count = 0usize;
    let mut before = *b"\n\n";
    for byte in text {
        if before == [b'\n', letter] && *byte == b' ' {
            count = count.saturating_add(1);
        }
        before = [before[1], *byte];
    }
    count
}

fn has_lines(text: &[u8], counts: &[(u8, usize)]) -> bool {
    for (letter, count) in counts {
        if count_lines(text, *letter) != *count {
            return false;
        }
    }
    true
}

fn is_wanted(
    alloc: Global,
    wanted: Wanted,
    text: &[u8],
    written: &[u8],
) -> Result<bool, AllocError> {
    match wanted {
        Wanted::Text(whole) => Ok(text == whole.as_bytes()),
        Wanted::Bytes(whole) => Ok(text == whole),
        Wanted::Padded(texts) => Ok(text == padded(alloc, texts)?.as_slice()),
        Wanted::Ending(texts) => Ok(text.ends_with(&padded(alloc, texts)?)),
        Wanted::Long(length, end) => Ok(text.len() == length && text.ends_with(end)),
        Wanted::Front(length) => Ok(text.len() == length && written.starts_with(text)),
        Wanted::Lines(counts) => Ok(has_lines(text, counts)),
        Wanted::Any => Ok(true),
    }
}

/// What a case gives, where this was written last.
fn run_case(alloc: Global, case: &Case, written: &[u8]) -> Result<Ran, Fail> {
    let (words, files, failing, _, _) = *case;
    let files = shelf_of(alloc, files, written)?;
    match failing {
        Failing::No => run_over(alloc, words, files, &[], &[], 0),
        Failing::Fetch(number) => run_over(alloc, words, files, &[number], &[], 0),
        Failing::Put(number, cut) => run_over(alloc, words, files, &[], &[number], cut),
    }
}

/// The place of the first case that gives another status or text.
pub(super) fn first_other_case(alloc: Global, cases: &[Case]) -> Result<Option<usize>, Fail> {
    let mut written = Vec::new(alloc);
    for (at, case) in cases.iter().enumerate() {
        let ran = run_case(alloc, case, &written)?;
        if ran.status != case.3 || !is_wanted(alloc, case.4, &ran.text, &written)? {
            return Ok(Some(at));
        }
        if ran.status == 0 {
            written = ran.text;
        }
    }
    Ok(None)
}

/// The pieces of a text, a plan, the most turns, and the lines of the run of an image with that text.
pub(super) type Run = (
    &'static [&'static [u8]],
    &'static str,
    &'static str,
    &'static str,
);

/// A run in 512 frames, without input.
fn run_planned(alloc: Global, run: &Run) -> Result<Ran, Fail> {
    let (code, plan, steps, _) = *run;
    let files = [
        (NAME, File::Code(code)),
        (INPUT, File::Empty),
        (PLAN, File::Lines(0, &[], plan.as_bytes())),
    ];
    let words = ["run", NAME, INPUT, PLAN, steps, "512"];
    run_over(alloc, &words, shelf_of(alloc, &files, &[])?, &[], &[], 0)
}

/// Whether the text is these two, one behind the other.
fn is_both(text: &[u8], front: &[u8], back: &[u8]) -> bool {
    text.len() == front.len().saturating_add(back.len())
        && text.starts_with(front)
        && text.ends_with(back)
}

/// The place of the first run that doesn't end with this status, or writes something else than its lines and this section
/// behind them.
fn first_other_run(
    alloc: Global,
    status: u8,
    section: &str,
    runs: &[Run],
) -> Result<Option<usize>, Fail> {
    for (at, run) in runs.iter().enumerate() {
        let ran = run_planned(alloc, run)?;
        if ran.status != status || !is_both(&ran.text, run.3.as_bytes(), section.as_bytes()) {
            return Ok(Some(at));
        }
    }
    Ok(None)
}

/// An address, and the line that `map` writes of it.
pub(super) type Page = (&'static str, &'static str);

/// The place of the first address for which `map` writes another line, over an image in so many frames.
fn first_other_page(
    alloc: Global,
    files: &[(&str, File)],
    frames: &'static str,
    pages: &[Page],
) -> Result<Option<usize>, Fail> {
    for (at, (address, line)) in pages.iter().enumerate() {
        let files = shelf_of(alloc, files, &[])?;
        let ran = run_over(alloc, &["map", NAME, frames, address], files, &[], &[], 0)?;
        if !gives(&ran, 0, line) {
            return Ok(Some(at));
        }
    }
    Ok(None)
}

/// The place of the first words that have a form, over a shelf of which the first call fails.
fn first_with_form(alloc: Global, forms: &[&[&str]]) -> Result<Option<usize>, Fail> {
    for (at, words) in forms.iter().enumerate() {
        let files = shelf_of(alloc, &[(NAME, File::Empty)], &[])?;
        let ran = run_over(alloc, words, files, &[1], &[], 0)?;
        if !gives(&ran, 2, USAGE) {
            return Ok(Some(at));
        }
    }
    Ok(None)
}

/// Rows of one kind.
#[derive(Clone, Copy)]
pub(super) enum Table {
    Cases(&'static [Case]),
    /// Runs that end with this status, and this section behind their lines.
    Runs(u8, &'static str, &'static [Run]),
    /// Pages of the image in these files, in so many frames.
    Pages(&'static [(&'static str, File)], &'static str, &'static [Page]),
    /// Words that have no form.
    Forms(&'static [&'static [&'static str]]),
}

fn first_in(alloc: Global, table: Table) -> Result<Option<usize>, Fail> {
    match table {
        Table::Cases(cases) => first_other_case(alloc, cases),
        Table::Runs(status, section, runs) => first_other_run(alloc, status, section, runs),
        Table::Pages(files, frames, pages) => first_other_page(alloc, files, frames, pages),
        Table::Forms(forms) => first_with_form(alloc, forms),
    }
}

/// The first table with a row that gives something else, and the row's place in it.
pub(super) fn first_other(alloc: Global, tables: &[Table]) -> Result<Option<(usize, usize)>, Fail> {
    for (number, table) in tables.iter().enumerate() {
        if let Some(at) = first_in(alloc, *table)? {
            return Ok(Some((number, at)));
        }
    }
    Ok(None)
}
