//! `nktrace`: the steps of a run, a line each, with what they change. It begins a run as `nkrun run` does, with the
//! same refusals, and `step_trace` takes its steps and tells them. Floor: program.
#![tactic(auto)]

// The words, and what they ask for.
mod words;

// The trace.
mod run;

use command_words::Request;
use nk_host::{FileShelf, StdSink};
use run::{ran, trace};
use std::env::{self, Env};
use std::io;
use std::process::ExitCode;
use std::rt::Files;
use words::{Asked, read_words};

/// The status where help or the version was asked for.
const TOLD: u8 = 0;

/// The status where the words are out of form.
const MISUSED: u8 = 2;

/// The status where the runtime doesn't give the words, or memory for them is wanting.
const NO_WORDS: u8 = 64;

/// The words, the program's own name first.
fn all_words<R: Env + AllocGlobal>(rt: &R) -> io::Result<Vec<String>> {
    let words = env::args(rt)?;
    Ok(words.collect(rt.alloc())?)
}

fn answer<R: Env + AllocGlobal + Files + Print + Eprint>(rt: &R) -> u8 {
    let Ok(words) = all_words(rt) else {
        return NO_WORDS;
    };
    match read_words(rt.alloc(), words.as_slice()) {
        Asked::Trace(words, shown) => {
            let request = Request::new(&words);
            let mut shelf = FileShelf::new(rt);
            let mut sink = StdSink::new(rt);
            trace(rt.alloc(), &request, &shown, &mut shelf, &mut sink)
        }
        Asked::Ran(words) => {
            let request = Request::new(&words);
            let mut shelf = FileShelf::new(rt);
            let mut sink = StdSink::new(rt);
            ran(rt.alloc(), &request, &mut shelf, &mut sink)
        }
        Asked::Told(error) => {
            let _ = error.print(rt);
            if error.use_stderr() { MISUSED } else { TOLD }
        }
        Asked::NoMemory => NO_WORDS,
    }
}

fn main(rt: HostRuntime) -> ExitCode {
    ExitCode::from(answer(&rt))
}
