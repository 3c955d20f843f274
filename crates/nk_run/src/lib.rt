//! The top call, behind every command of the program `nkrun` and not behind `run` alone: it reads the words, fetches what
//! they name from a shelf of files or makes it, judges the image, shows what was asked of it, runs it, or makes a run's
//! calls again, and writes one text to a sink. Its promises are `specs/Clauses`, over the outcome of `specs/Outcome`. It
//! touches the outside through the shelf and the sink alone, which `nk_program` makes those of the machine. Floor: program.
#![tactic(auto)]

// What is said, and how it goes out.
mod lines;
mod reply;
mod status;

// The image, held whole, for the commands that open it.
mod image;

// The commands.
mod assemble;
mod audit;
mod join;
mod listing;
mod make;
mod map;
mod replay;
mod run;
mod scan;
mod work;

// What runs and replays begin from: a run's other files, the opening, and both for a program that takes the steps itself.
mod inputs;
mod opening;
mod ready;

// A run: why it ends, how it goes on, its loop, and its loop where it is counted.
mod count;
mod drive;
mod ending;
mod progress;

// The whole.
mod answer;
mod laws;
mod top;

// The whole over the machine.
mod program;

pub use crate::opening::{Opened, ReadyRun, begin};
pub use crate::program::nk_program;
pub use crate::ready::{Refusal, ready_run};
pub use crate::top::nk_main;
