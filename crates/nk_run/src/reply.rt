//! What the top call says in the end, and how it goes out.
ghost use Rattle.std.specs.Prelude.{◌≡◌, ◌≤◌, MatchResult};
ghost use Rattle.std.specs.String.{string_bytes};
ghost use Rattle.nk_run.specs.Replies.{IsWant, IsWritten};
ghost use Rattle.nk_run.specs.ReplyText.{line_bytes};
ghost use Rattle.nk_run.specs.Statuses.{status_number};
ghost use Rattle.nk_run.specs.Witness.{sink_change};

use crate::lines::no_memory_line;
use crate::status::Status;
use nk_host::{Sink, put_all};
use report_text::ShortLine;
use std::alloc::AllocError;

/// A line: always the same, made for the occasion, or made without memory.
#[derive(Drop)]
pub(crate) enum Line {
    Fixed(&'static str),
    Made(String),
    Short(ShortLine),
}

/// A status and the line that goes with it.
#[derive(Drop)]
pub(crate) struct Reply {
    pub status: Status,
    pub line: Line,
}

impl Line {
    /// The line's bytes.
    fn as_bytes(&self) -> &[u8]
        ensures { result.now ≡ line_bytes self.now }
    {
        match self {
            Line::Fixed(text) => text.as_bytes(),
            Line::Made(text) => text.as_bytes(),
            Line::Short(line) => line.as_bytes(),
        }
    }
}

/// There was no memory.
pub(crate) fn no_memory() -> Reply
    ensures { IsWant (status_number result.status) (line_bytes result.line) }
{
    Reply {
        status: Status::NoMemory,
        line: Line::Fixed(no_memory_line()),
    }
}

/// A line made for the occasion, or that there was no memory for it.
pub(crate) fn made(status: Status, line: Result<String, AllocError>) -> Reply
    ensures { MatchResult line
        (λ line. (result.status ≡ status) × (line_bytes result.line ≡ string_bytes line))
        (λ _. IsWant (status_number result.status) (line_bytes result.line)) }
{
    match line {
        Ok(line) => Reply {
            status,
            line: Line::Made(line),
        },
        Err(_) => no_memory(),
    }
}

impl Reply {
    /// Writes the line and gives the status, or that of a fault of the sink.
    pub(crate) fn write<O: Sink>(&self, sink: &mut O) -> Status
        ensures never_falls { O.faults sink.old ≤ O.faults sink.new }
        ensures written { IsWritten (sink_change O.taken O.faults sink.old sink.new)
            (status_number self.now.status) (line_bytes self.now.line) (status_number result) }
    {
        self.status.unless_cut(put_all(sink, self.line.as_bytes()))
    }
}
