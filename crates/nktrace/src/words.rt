//! The words of the command line.

use clap::error::ErrorKind;
use clap::{Arg, ArgAction, ArgMatches, Command, Error};
use std::alloc::{AllocError, Global};
use step_trace::{Kind, MemoryShown, Shown};
use text_lines::{decimal, hexadecimal};

/// The most turns of a run.
const MOST_TURNS: u64 = 4_294_967_296;

/// The most digits of a number of turns, or of bytes, and of an address.
const TURN_DIGITS: usize = 10;

const DIGITS: usize = 16;

/// What is said of a word whose value is out of form.
const NO_TURNS: &str =
    "invalid value for '[FROM] [TO]': each is 0 to 4294967296, decimal, without sign or leading zeros";

const NO_ADDRESS: &str = "invalid value for '--until <ADDRESS>': it has 1 to 16 hexadecimal digits";

const NO_BYTES: &str =
    "invalid values for '--memory [ADDRESS LENGTH]': none, or 1 to 16 hexadecimal digits and a number of bytes, 0 to 4294967296, decimal, without sign or leading zeros";

/// The names of kinds of steps.
static KINDS: [&str; 6] = ["gate", "call", "delivery", "event", "memory", "console"];

/// How a word stands on the command line.
enum Form {
    /// It has to be there.
    File,
    /// A number of turns.
    Turns,
    /// An option with a value, which may come more than once, by what the value is called.
    Values(&'static str),
    /// An option with two values or none, by what they are called.
    Two(&'static [&'static str]),
    /// An option without a value.
    Flag,
    /// The same, which stands beside none that asks for steps.
    Alone,
    /// An option with the name of a kind of steps.
    KindName,
}

/// The words, how they stand, and what they are.
static WORDS: [(&str, Form, &str); 13] = [
    ("IMAGE", Form::File, "the image, as of nkrun run"),
    ("INPUT", Form::File, "the bytes that the image may take"),
    ("PLAN", Form::File, "the plan of events"),
    ("STEPS", Form::File, "the most turns of the run"),
    ("FRAMES", Form::File, "the frames of memory"),
    ("FROM", Form::Turns, "the turns before the first step shown"),
    ("TO", Form::Turns, "the turns before the last step shown"),
    (
        "until",
        Form::Values("ADDRESS"),
        "ends behind a step that leaves RIP at this hexadecimal address; may come more than once",
    ),
    (
        "changes",
        Form::Flag,
        "leaves out steps that change nothing but RIP and show nothing",
    ),
    ("only", Form::KindName, "leaves out steps of other kinds"),
    (
        "memory",
        Form::Two(&["ADDRESS", "LENGTH"]),
        "shows memory as the trace begins, or so many bytes from this physical address on",
    ),
    (
        "translations",
        Form::Flag,
        "shows what the processor keeps of walks as the trace begins",
    ),
    (
        "ran",
        Form::Alone,
        "shows no steps, but each address of the image at which an instruction began",
    ),
];

/// What asks for steps.
static OF_STEPS: [&str; 7] = [
    "FROM",
    "TO",
    "until",
    "changes",
    "only",
    "memory",
    "translations",
];

/// What the words ask for.
#[derive(Drop)]
pub enum Asked {
    /// The words of a run, and what is shown of it.
    Trace(Vec<String>, Shown),
    /// The words of a run of which the addresses are shown at which instructions began.
    Ran(Vec<String>),
    /// Help or the version, or what is wrong with the words.
    Told(Error),
    /// There is no memory for the words.
    NoMemory,
}

/// A word of the command line.
fn word<'a>(
    alloc: Global,
    name: &'a str,
    form: &Form,
    help: &'a str,
) -> Result<Arg<'a>, AllocError> {
    let word = Arg::new(alloc, name).help(help);
    match form {
        Form::File => Ok(word.required(true).action(ArgAction::Set)),
        Form::Turns => Ok(word.action(ArgAction::Set)),
        Form::Values(value) => Ok(word.long(name).action(ArgAction::Append).value_name(value)),
        Form::Two(values) => Ok(
            word.long(name)
                .action(ArgAction::Set)
                .num_args(0..=2)
                .value_names(values),
        ),
        Form::Flag => Ok(word.long(name).action(ArgAction::SetTrue)),
        Form::Alone => word
            .long(name)
            .action(ArgAction::SetTrue)
            .conflicts_with_all(OF_STEPS.as_slice()),
        Form::KindName => Ok(
            word.long(name)
                .action(ArgAction::Set)
                .value_name("KIND")
                .value_parser(KINDS.as_slice()),
        ),
    }
}

/// The whole command.
fn whole_command<'a>(alloc: Global) -> Result<Command<'a>, AllocError> {
    let mut command = Command::new(alloc, "nktrace").version("0.1.0").about(
        "The steps of a run, a line each, with what they change; docs/FORMATS.md has the lines",
    );
    for (name, form, help) in &WORDS {
        command = command.arg(word(alloc, name, form, help)?)?;
    }
    Ok(command)
}

fn kind_of(name: &str) -> Option<Kind> {
    match name {
        "gate" => Some(Kind::Gate),
        "call" => Some(Kind::Call),
        "delivery" => Some(Kind::Delivery),
        "event" => Some(Kind::Event),
        "memory" => Some(Kind::Memory),
        "console" => Some(Kind::Console),
        _ => None,
    }
}

/// The words of the run, as `nkrun` has them.
fn run_words(alloc: Global, matches: &ArgMatches<'_>) -> Result<Vec<String>, AllocError> {
    let mut words = Vec::new(alloc);
    words.push(String::from_str(alloc, "run")?)?;
    for name in ["IMAGE", "INPUT", "PLAN", "STEPS", "FRAMES"] {
        let word = matches.get_str(name).unwrap_or("");
        words.push(String::from_str(alloc, word)?)?;
    }
    Ok(words)
}

/// The number of turns that a word writes.
fn turns_in(word: &str) -> Option<u64> {
    if word.len() > 1 && word.starts_with('0') {
        return None;
    }
    match decimal(word.as_bytes(), TURN_DIGITS) {
        Some(turns) if turns <= MOST_TURNS => Some(turns),
        _ => None,
    }
}

/// The number of turns of a word that may be left out, or what is wrong with it.
fn turns_of(matches: &ArgMatches<'_>, name: &str) -> Result<Option<u64>, &'static str> {
    match matches.get_str(name) {
        Some(word) => match turns_in(word) {
            Some(turns) => Ok(Some(turns)),
            None => Err(NO_TURNS),
        },
        None => Ok(None),
    }
}

/// The addresses at which a trace ends; none where one is out of form.
fn addresses_of(alloc: Global, matches: &ArgMatches<'_>) -> Result<Option<Vec<u64>>, AllocError> {
    let mut addresses = Vec::new(alloc);
    for word in matches.get_strs("until").unwrap_or(&[]) {
        match hexadecimal(word.as_bytes(), DIGITS) {
            Some(address) => addresses.push(address)?,
            None => return Ok(None),
        }
    }
    Ok(Some(addresses))
}

/// What is shown of memory, or what is wrong with its words.
fn memory_of(matches: &ArgMatches<'_>) -> Result<MemoryShown, &'static str> {
    match matches.get_strs("memory") {
        None => Ok(MemoryShown::Nothing),
        Some([]) => Ok(MemoryShown::Whole),
        Some([first, count]) => {
            match (hexadecimal(first.as_bytes(), DIGITS), turns_in(count)) {
                (Some(first), Some(count)) => Ok(MemoryShown::Bytes { first, count }),
                _ => Err(NO_BYTES),
            }
        }
        Some(_) => Err(NO_BYTES),
    }
}

/// What is shown, with the addresses at which the trace ends, or what is wrong with a word of it.
fn shown_of(matches: &ArgMatches<'_>, until: Vec<u64>) -> Result<Shown, &'static str> {
    Ok(Shown {
        from: turns_of(matches, "FROM")?.unwrap_or(0),
        to: turns_of(matches, "TO")?,
        until,
        changes: matches.get_flag("changes"),
        only: matches.get_str("only").and_then(kind_of),
        memory: memory_of(matches)?,
        translations: matches.get_flag("translations"),
    })
}

/// What is said of a word whose value is out of form.
fn misused(alloc: Global, wrong: &'static str) -> Result<Asked, AllocError> {
    let mut command = whole_command(alloc)?;
    Ok(Asked::Told(command.error(ErrorKind::ValueValidation, wrong)?))
}

/// What the words that match ask for.
fn asked_by(alloc: Global, matches: &ArgMatches<'_>) -> Result<Asked, AllocError> {
    if matches.get_flag("ran") {
        return Ok(Asked::Ran(run_words(alloc, matches)?));
    }
    let Some(until) = addresses_of(alloc, matches)? else {
        return misused(alloc, NO_ADDRESS);
    };
    match shown_of(matches, until) {
        Ok(shown) => Ok(Asked::Trace(run_words(alloc, matches)?, shown)),
        Err(wrong) => misused(alloc, wrong),
    }
}

/// What a parse that gave no matches tells.
fn told_by(error: Error) -> Asked {
    if error.kind() == ErrorKind::OutOfMemory {
        Asked::NoMemory
    } else {
        Asked::Told(error)
    }
}

/// What the words ask for; the first of them is the program's own name.
pub fn read_words(alloc: Global, words: &[String]) -> Asked {
    let Ok(command) = whole_command(alloc) else {
        return Asked::NoMemory;
    };
    match command.try_get_matches_from(words) {
        Ok(matches) => match asked_by(alloc, &matches) {
            Ok(asked) => asked,
            Err(_) => Asked::NoMemory,
        },
        Err(error) => told_by(error),
    }
}
