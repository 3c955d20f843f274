//! The lines of an audit: what a record changed for the list of processes in a region's bytes, and how the list is at the
//! end.
ghost use Rattle.std.specs.Prelude.{◌≡◌, ◌<◌, ◌≤◌, ◌++◌, codes, decimal, length};
ghost use Rattle.nk_host.specs.TextPuts.{IsTextPut};
ghost use Rattle.proc_audit.specs.ProcessList.{hidden_at, is_chain_good, slot_count};
ghost use Rattle.report_text.specs.AuditLines.{
  audit_end,
  chain_change,
  chain_text,
  hidden_count,
  line_unless,
  record_change,
  slot_change,
};
ghost use Rattle.report_text.specs.ClosingSection.{lines_of};
ghost use Rattle.report_text.specs.SlotLines.{hiding_change, list_end, slot_line};

use crate::counts::one_count;
use crate::words::{NUMBERED, numbered, put, put_decimal};
use nk_host::{Sink, SinkFault, put_all};
use proc_audit::Audit;

/// Writes what the record of this number changed: the chain's line, and then each slot's.
#[tactic(auto, unfolding(crate::specs::AuditLines::record_change))]
pub(crate) fn put_change<O: Sink>(
    sink: &mut O,
    number: u64,
    before: &Audit,
    after: &Audit,
) -> Result<(), SinkFault>
    requires { length after.now ≡ length before.now }
    ensures { IsTextPut O.taken O.faults sink.old sink.new
        (record_change number before.now after.now) result }
{
    match put_chain(sink, number, has_good_chain(before), has_good_chain(after)) {
        Ok(()) => put_slots(sink, number, before, after),
        Err(fault) => Err(fault),
    }
}

/// Whether the chain is good.
fn has_good_chain(audit: &Audit) -> bool
    ensures { result ≡ is_chain_good audit.now }
{
    !audit.broken()
}

/// Writes the line of the chain, if it became broken, or good.
#[tactic(auto, unfolding(crate::specs::AuditLines::broken_line, crate::specs::AuditLines::good_line))]
fn put_chain<O: Sink>(
    sink: &mut O,
    number: u64,
    was_good: bool,
    is_good: bool,
) -> Result<(), SinkFault>
    ensures { IsTextPut O.taken O.faults sink.old sink.new (chain_change number was_good is_good) result }
{
    match (was_good, is_good) {
        (true, false) => put_all(sink, numbered(&mut [0; NUMBERED], "b ", number)),
        (false, true) => put_all(sink, numbered(&mut [0; NUMBERED], "g ", number)),
        _ => Ok(()),
    }
}

/// Writes the lines of the slots, in their order.
fn put_slots<O: Sink>(
    sink: &mut O,
    number: u64,
    before: &Audit,
    after: &Audit,
) -> Result<(), SinkFault>
    requires { length after.now ≡ length before.now }
    ensures { IsTextPut O.taken O.faults sink.old sink.new
        (lines_of (slot_change number before.now after.now) (slot_count before.now) 0) result }
{
    for slot in 0..before.slots() {
        let old = before.hidden(slot);
        let new = after.hidden(slot);
        if let Err(fault) = put_slot(sink, number, slot, old, new) {
            return Err(fault);
        }
    }
    Ok(())
}

/// Writes the lines of a slot: of the process that it no longer hides, and then of the one that it hides anew.
fn put_slot<O: Sink>(
    sink: &mut O,
    number: u64,
    slot: u32,
    before: Option<u64>,
    after: Option<u64>,
) -> Result<(), SinkFault>
    ensures { IsTextPut O.taken O.faults sink.old sink.new (hiding_change number slot before after) result }
{
    match put_unless(sink, "u ", number, slot, before, after) {
        Ok(()) => put_unless(sink, "h ", number, slot, after, before),
        Err(fault) => Err(fault),
    }
}

/// Writes the line of the process that a slot hides in one state, unless it does in the other too.
fn put_unless<O: Sink>(
    sink: &mut O,
    word: &str,
    number: u64,
    slot: u32,
    one: Option<u64>,
    other: Option<u64>,
) -> Result<(), SinkFault>
    requires { length word.now ≤ 2 }
    ensures { IsTextPut O.taken O.faults sink.old sink.new
        (line_unless (slot_line word.now number slot) one other) result }
{
    if one == other {
        return Ok(());
    }
    match one {
        Some(pid) => put_all(sink, slot_line(&mut [0; SLOT], word, number, slot, pid)),
        None => Ok(()),
    }
}

/// The most bytes of a slot's line: a word of two, three numbers of twenty digits, a space before two of them, and the
/// line's end.
const SLOT: usize = 65;

/// The line of a slot, at the end of the room. It is put there from its last word to its first.
fn slot_line<'a>(room: &'a mut [u8; SLOT], word: &str, number: u64, slot: u32, pid: u64) -> &'a [u8]
    requires { length word.now ≤ 2 }
    ensures { result.now ≡ slot_line word.now number slot pid }
{
    room[SLOT - 1] = b'\n';
    let process = put_decimal(room, SLOT - 1, pid);
    let slot_end = put(room, process, b" ");
    let place = put_decimal(room, slot_end, u64::from(slot));
    let number_end = put(room, place, b" ");
    let digits = put_decimal(room, number_end, number);
    let start = put(room, digits, word.as_bytes());
    room.split_at(start).1
}

/// Writes how the list is at the end, behind so many records of the region.
pub(crate) fn put_end<O: Sink>(sink: &mut O, records: u64, audit: &Audit) -> Result<(), SinkFault>
    ensures { IsTextPut O.taken O.faults sink.old sink.new (audit_end records audit.now) result }
{
    match put_all(sink, one_count(&mut [0; NUMBERED], "records ", records)) {
        Ok(()) => put_list_end(sink, audit),
        Err(fault) => Err(fault),
    }
}

/// Writes how many processes are hidden, and whether the chain is good.
fn put_list_end<O: Sink>(sink: &mut O, audit: &Audit) -> Result<(), SinkFault>
    ensures { IsTextPut O.taken O.faults sink.old sink.new (list_end audit.now) result }
{
    let count = u64::from(count_hidden(audit));
    match put_all(sink, one_count(&mut [0; NUMBERED], "hidden ", count)) {
        Ok(()) => put_all(sink, chain_text(has_good_chain(audit)).as_bytes()),
        Err(fault) => Err(fault),
    }
}

/// How many processes are hidden.
fn count_hidden(audit: &Audit) -> u32
    ensures { result ≡ hidden_count audit.now }
{
    let mut count = 0;
    for slot in 0..audit.slots() {
        count += u32::from(audit.hidden(slot).is_some());
    }
    count
}

/// The line that closes an audit.
fn chain_text(is_good: bool) -> &'static str
    ensures { result.now ≡ chain_text is_good }
{
    if is_good {
        "chain good\n"
    } else {
        "chain broken\n"
    }
}
