//! The summary of a run: counts in place of its lines.
ghost use Rattle.std.specs.Prelude.{◌≡◌, ◌≤◌, ◌++◌, ℕ, List, length};
ghost use Rattle.nk_host.specs.TextPuts.{IsTextPut};
ghost use Rattle.report_text.specs.RunSummary.{count_line, counts_line, summary_lines};

use crate::words::{NUMBERED, numbered, put, put_decimal};
use nk_host::{Sink, SinkFault, put_all};

/// What a run showed, and what the nested kernel's record has in the end.
#[derive(Clone, Copy, Debug, PartialEq, Eq)]
pub struct RunCounts {
    /// The calls that were made.
    pub calls: u64,
    /// Those of them that broke no rule.
    pub accepted: u64,
    /// The interrupts, traps and faults that were delivered.
    pub deliveries: u64,
    /// The frames that are page tables.
    pub tables: u64,
    /// The regions that live.
    pub regions: u64,
    /// The records of the log.
    pub records: u64,
    /// The bytes that they take of the log's 65,536.
    pub log_bytes: u64,
}

/// Writes a summary, a line a count.
pub fn summary<O: Sink>(sink: &mut O, it: &RunCounts) -> Result<(), SinkFault>
    ensures { IsTextPut O.taken O.faults sink.old sink.new (summary_lines it.now) result }
{
    let calls = put_all(
        sink,
        two_counts(
            &mut [0; TWO_COUNTS],
            "calls ",
            it.calls,
            " accepted ",
            it.accepted,
        ),
    );
    let deliveries = put_behind(
        calls,
        sink,
        one_count(&mut [0; NUMBERED], "deliveries ", it.deliveries),
    );
    let tables = put_behind(
        deliveries,
        sink,
        one_count(&mut [0; NUMBERED], "tables ", it.tables),
    );
    let regions = put_behind(
        tables,
        sink,
        one_count(&mut [0; NUMBERED], "regions ", it.regions),
    );
    put_behind(
        regions,
        sink,
        two_counts(&mut [0; TWO_COUNTS], "log ", it.records, " ", it.log_bytes),
    )
}

/// Puts more behind a text that was put, unless a fault cut that.
fn put_behind<O: Sink>(
    put: Result<(), SinkFault>,
    sink: &mut O,
    more: &[u8],
) -> Result<(), SinkFault>
    ensures { (begun : O) (text : List ℕ) → IsTextPut O.taken O.faults begun sink.old text put
        → IsTextPut O.taken O.faults begun sink.new (text ++ more.now) result }
{
    match put {
        Ok(()) => put_all(sink, more),
        Err(fault) => Err(fault),
    }
}

/// A line of a word and a number, at the end of the room.
#[tactic(auto, unfolding(crate::specs::RunSummary::count_line))]
pub(crate) fn one_count<'a>(room: &'a mut [u8; NUMBERED], word: &str, number: u64) -> &'a [u8]
    requires { length word.now ≤ 11 }
    ensures { result.now ≡ count_line word.now number }
{
    numbered(room, word, number)
}

/// The most bytes of a line of two numbers: two words of ten, two times twenty digits, and the line's end.
const TWO_COUNTS: usize = 61;

/// A line of two words and two numbers, at the end of the room.
fn two_counts<'a>(
    room: &'a mut [u8; TWO_COUNTS],
    word: &str,
    first: u64,
    between: &str,
    second: u64,
) -> &'a [u8]
    requires word { length word.now ≤ 10 }
    requires between { length between.now ≤ 10 }
    ensures { result.now ≡ counts_line word.now first between.now second }
{
    room[TWO_COUNTS - 1] = b'\n';
    let second_digits = put_decimal(room, TWO_COUNTS - 1, second);
    let first_end = put(room, second_digits, between.as_bytes());
    let first_digits = put_decimal(room, first_end, first);
    let start = put(room, first_digits, word.as_bytes());
    room.split_at(start).1
}
