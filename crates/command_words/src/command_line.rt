//! The command line, read by hand: all words are positional.
ghost use Rattle.std.specs.Prelude.{◌≡◌, map, IfSome};
ghost use Rattle.std.specs.String.{string_bytes};
ghost use Rattle.command_words.specs.CommandLine.{audit_of, command_of, listing_of, middle_of, pair_of, run_of, short_of, IsBounded};

use crate::numbers::{address_of, decimal_within};
use text_lines::hexadecimal;

/// The least number of frames that a memory may have: 2 MiB.
const LEAST_FRAMES: u64 = 512;

/// The greatest number of frames that a memory may have: 256 MiB.
const MOST_FRAMES: u64 = 65_536;

/// The greatest number of turns that a run may take.
const MOST_STEPS: u64 = 4_294_967_296;

/// The least and the greatest number of which an image is made.
const LEAST_NUMBER: u64 = 1;

const MOST_NUMBER: u64 = 100;

/// The least and the greatest identifier that a region may have.
const LEAST_ID: u64 = 256;

const MOST_ID: u64 = 8_589_934_591;

/// The most digits of an address, and the most lines of a listing.
const ADDRESS_DIGITS: usize = 16;

const MOST_LINES: u64 = 4_096;

/// What a file is to a command.
#[derive(Clone, Copy, Debug, PartialEq, Eq)]
pub enum Role {
    /// The outer kernel's ELF file.
    Image,
    /// The bytes that the machine's input port gives.
    Input,
    /// The events of the outside.
    Plan,
    /// The text of a run, of which the calls are made again.
    Journal,
    /// The names of modules of code.
    ModuleList,
    /// The code of the module of this number in the list, from 0 on.
    Module(u32),
    /// Texts of instructions, one a line.
    Text,
}

/// What the words ask for, by the numbers among them; a `Request` has the names of the files beside it.
#[derive(Clone, Copy)]
pub enum Command {
    /// Admit or refuse an image.
    Scan,
    /// Walk the opening tables for a linear address, in a memory of so many frames.
    Map { frames: u32, va: u64 },
    /// Run an image for at most so many turns, in a memory of so many frames.
    Run { steps: u64, frames: u32 },
    /// Make the calls of a journal, in a memory of so many frames.
    Replay { frames: u32 },
    /// Write the image of a number.
    Make { number: u64 },
    /// Run the image of a number, and count.
    Work { number: u64 },
    /// Write the image joined with the modules of a list.
    Join,
    /// Make the calls of a journal, in a memory of so many frames, and write the audit of the region of this identifier.
    Audit { frames: u32, id: u64 },
    /// Write the code of a text.
    Assemble,
    /// List the code of an image from a linear address on, in at most so many lines.
    Listing { address: u64, count: u32 },
}

/// The command that the words spell, None where they have none of the forms.
pub(crate) fn read_command(words: &[String]) -> Option<Command>
    ensures command { result ≡ command_of (map string_bytes words.now) }
    ensures bounds { IfSome result IsBounded }
{
    if let Some([name, word]) = words.as_array::<2>() {
        return read_short(name.as_str(), word.as_str());
    }
    if let Some([name, _, _]) = words.as_array::<3>() {
        return read_pair(name.as_str());
    }
    if let Some([name, _, third, last]) = words.as_array::<4>() {
        return read_middle(name.as_str(), third.as_str(), last.as_str());
    }
    if let Some([name, _, frames, _, id]) = words.as_array::<5>() {
        return read_audit(name.as_str(), frames.as_str(), id.as_str());
    }
    if let Some(words) = words.as_array::<6>() {
        return read_long(words);
    }
    None
}

/// `scan IMAGE`, `asm TEXT`, `make NUMBER` or `work NUMBER`.
fn read_short(name: &str, word: &str) -> Option<Command>
    ensures command { result ≡ short_of name.now word.now }
    ensures bounds { IfSome result IsBounded }
{
    if name == "scan" {
        return Some(Command::Scan);
    }
    if name == "asm" {
        return Some(Command::Assemble);
    }
    if name == "make" {
        let number = decimal_within(word, LEAST_NUMBER, MOST_NUMBER)?;
        return Some(Command::Make { number });
    }
    if name == "work" {
        let number = decimal_within(word, LEAST_NUMBER, MOST_NUMBER)?;
        return Some(Command::Work { number });
    }
    None
}

/// `join IMAGE LIST`.
fn read_pair(name: &str) -> Option<Command>
    ensures command { result ≡ pair_of name.now }
    ensures bounds { IfSome result IsBounded }
{
    if name != "join" {
        return None;
    }
    Some(Command::Join)
}

/// `list IMAGE ADDR COUNT`.
fn read_listing(name: &str, address: &str, count: &str) -> Option<Command>
    ensures command { result ≡ listing_of name.now address.now count.now }
    ensures bounds { IfSome result IsBounded }
{
    if name != "list" {
        return None;
    }
    let address = hexadecimal(address.as_bytes(), ADDRESS_DIGITS)?;
    let count = decimal_within(count, 1, MOST_LINES)?;
    Some(Command::Listing {
        address,
        count: count as u32,
    })
}

/// `map IMAGE FRAMES VA`, `replay IMAGE FRAMES JOURNAL` or `list IMAGE ADDR COUNT`.
fn read_middle(name: &str, third: &str, last: &str) -> Option<Command>
    ensures command { result ≡ middle_of name.now third.now last.now }
    ensures bounds { IfSome result IsBounded }
{
    if name == "map" {
        let frames = decimal_within(third, LEAST_FRAMES, MOST_FRAMES)?;
        let va = address_of(last)?;
        return Some(Command::Map {
            frames: frames as u32,
            va,
        });
    }
    if name == "replay" {
        let frames = decimal_within(third, LEAST_FRAMES, MOST_FRAMES)?;
        return Some(Command::Replay {
            frames: frames as u32,
        });
    }
    read_listing(name, third, last)
}

/// `audit IMAGE FRAMES JOURNAL ID`.
fn read_audit(name: &str, frames: &str, id: &str) -> Option<Command>
    ensures command { result ≡ audit_of name.now frames.now id.now }
    ensures bounds { IfSome result IsBounded }
{
    if name != "audit" {
        return None;
    }
    let frames = decimal_within(frames, LEAST_FRAMES, MOST_FRAMES)?;
    let id = decimal_within(id, LEAST_ID, MOST_ID)?;
    Some(Command::Audit {
        frames: frames as u32,
        id,
    })
}

/// The command that six words spell.
fn read_long(words: &[String; 6]) -> Option<Command>
    ensures command { result ≡ command_of (map string_bytes words.now) }
    ensures bounds { IfSome result IsBounded }
{
    let [name, _, _, _, steps, frames] = words;
    read_run(name.as_str(), steps.as_str(), frames.as_str())
}

/// `run IMAGE INPUT PLAN STEPS FRAMES`.
fn read_run(name: &str, steps: &str, frames: &str) -> Option<Command>
    ensures command { result ≡ run_of name.now steps.now frames.now }
    ensures bounds { IfSome result IsBounded }
{
    if name != "run" {
        return None;
    }
    let steps = decimal_within(steps, 0, MOST_STEPS)?;
    let frames = decimal_within(frames, LEAST_FRAMES, MOST_FRAMES)?;
    Some(Command::Run {
        steps,
        frames: frames as u32,
    })
}
