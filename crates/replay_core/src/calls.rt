//! The calls of a journal, made in order.

ghost use Rattle.std.specs.Prelude.{◌≡◌, ◌≢◌, ◌≤◌, ◌<◌, ◌+◌, ◌*◌, ◌^◌, ◌==◌, ◌&&◌, ℕ, None, Err, IfErr, IfOk, Some, length, true};
ghost use Rattle.nk_body.specs.Calls.{call_of};
ghost use Rattle.nk_body.specs.CallRules.{wants};
ghost use Rattle.nk_body.specs.NestedRecord.{HoldsBooks, books_in};
ghost use Rattle.nk_body.specs.SourceWords.{opening_ledger, sourced_of};
ghost use Rattle.replay_core.specs.declared.fault.ReplayFault.TheVariants.{Memory};
ghost use Rattle.replay_core.specs.declared.heard.ReadLine.TheVariants.{Calls};
ghost use Rattle.replay_core.specs.HeardLines.{heard_in};
ghost use Rattle.replay_core.specs.JournalLines.{heard_of};
ghost use Rattle.replay_core.specs.ReplayedCalls.{IsReplayFault, WholeReplay, Replayed, is_given, is_same_place, replay_of};
ghost use Rattle.replay_core.specs.ReplayedCalls.{standing_held, with_noted, with_line};
ghost use Rattle.replay_core.specs.ReplaySteps.{after_step, noted_in};
ghost use Rattle.text_lines.specs.TextLines.{words};

use crate::fault::ReplayFault;
use crate::heard::{ReadCall, ReadLine, hear};
use crate::source::{is_taken, source};
use nk_bits::Answer;
use nk_body::{Kernel, Source, call_leaves_law};
use phys_mem::{PhysMem, mask_law};
use std::alloc::Global;
use text_lines::cut_line;

/// The most bytes that a call takes: as many as a region has at most.
const MOST_TAKEN: usize = 65_536;

/// What a line leaves to be done: the lines behind it; or nothing, since it ends the journal, or isn't right.
#[derive(Clone, Copy)]
enum Step {
    Goes,
    Ends,
    Stops,
}

/// Two places are one, or there is none.
fn is_same_place(one: Option<u64>, other: Option<u64>) -> bool
    ensures { result ≡ is_same_place one other }
{
    match (one, other) {
        (None, None) => true,
        (Some(one), Some(other)) => one == other,
        _ => false,
    }
}

/// Whether the answer is the one that is noted.
fn is_answer(answer: &Answer, noted: &ReadCall) -> bool
    ensures { result ≡ (answer.now.value == noted.now.value && is_same_place answer.now.place noted.now.place) }
{
    answer.value == noted.value && is_same_place(answer.place, noted.place)
}

/// Makes a call, and compares its answer with the one that is noted.
fn make(kernel: &mut Kernel, mem: &mut PhysMem, noted: &ReadCall, source: Source) -> Step
    requires books { HoldsBooks kernel.old mem.old }
    requires next { (books_in kernel.old mem.old).ledger.book.next < 2 ^ 63 }
    requires given { is_given (wants (books_in kernel.old mem.old).ledger.book (call_of noted.now.call)) (sourced_of source) ≡ true }
    ensures step { (number : ℕ) (later : Replayed → WholeReplay)
        → with_noted number (standing_held kernel.old mem.old) (noted_in noted.now (sourced_of source.entry)) later
        ≡ after_step result number (standing_held kernel.new mem.new) later }
    ensures books { HoldsBooks kernel.new mem.new }
    ensures next { (books_in kernel.new mem.new).ledger.book.next ≤ (books_in kernel.old mem.old).ledger.book.next + 1 }
    ensures size { length mem.new ≡ length mem.old }
{
    call_leaves_law();
    mask_law();
    let answer = kernel.serve(mem, &noted.call, source);
    if is_answer(&answer, noted) {
        Step::Goes
    } else {
        Step::Stops
    }
}

/// Makes the call of a line, where it takes what is noted of its source.
fn follow_call(kernel: &mut Kernel, mem: &mut PhysMem, buffer: &mut [u8], noted: &ReadCall) -> Step
    requires books { HoldsBooks kernel.old mem.old }
    requires next { (books_in kernel.old mem.old).ledger.book.next < 2 ^ 63 }
    requires room { 65536 ≤ length buffer.old }
    ensures step { (number : ℕ) (later : Replayed → WholeReplay)
        → with_line number (standing_held kernel.old mem.old) (heard_in (Some (Calls noted.now))) later
        ≡ after_step result number (standing_held kernel.new mem.new) later }
    ensures books { HoldsBooks kernel.new mem.new }
    ensures next { (books_in kernel.new mem.new).ledger.book.next ≤ (books_in kernel.old mem.old).ledger.book.next + 1 }
    ensures size { length mem.new ≡ length mem.old }
    ensures room { length buffer.new ≡ length buffer.old }
{
    let wanted = kernel.wants(mem, &noted.call);
    if is_taken(buffer, wanted, noted.source) {
        make(kernel, mem, noted, source(buffer, wanted, noted.source))
    } else {
        Step::Stops
    }
}

/// Does what a line asks.
fn follow_line(kernel: &mut Kernel, mem: &mut PhysMem, buffer: &mut [u8], line: &[u8]) -> Step
    requires books { HoldsBooks kernel.old mem.old }
    requires next { (books_in kernel.old mem.old).ledger.book.next < 2 ^ 63 }
    requires room { 65536 ≤ length buffer.old }
    ensures step { (number : ℕ) (later : Replayed → WholeReplay)
        → with_line number (standing_held kernel.old mem.old) (heard_of (words line.now)) later
        ≡ after_step result number (standing_held kernel.new mem.new) later }
    ensures books { HoldsBooks kernel.new mem.new }
    ensures next { 2 * (books_in kernel.new mem.new).ledger.book.next ≤ 2 * (books_in kernel.old mem.old).ledger.book.next + (length line.now + 1) }
    ensures size { length mem.new ≡ length mem.old }
    ensures room { length buffer.new ≡ length buffer.old }
{
    match hear(line) {
        Some(ReadLine::Passes) => Step::Goes,
        Some(ReadLine::Calls(noted)) => follow_call(kernel, mem, buffer, &noted),
        Some(ReadLine::Ends) => Step::Ends,
        None => Step::Stops,
    }
}

/// Does what the lines ask, to the first that isn't right; gives its number.
fn replay_lines(
    kernel: &mut Kernel,
    mem: &mut PhysMem,
    buffer: &mut [u8],
    journal: &[u8],
) -> Option<u64>
    requires books { HoldsBooks kernel.old mem.old }
    requires ledger { (books_in kernel.old mem.old).ledger ≡ opening_ledger }
    requires room { 65536 ≤ length buffer.old }
    ensures replay { replay_of journal.now (standing_held kernel.old mem.old)
        ≡ record { made = standing_held kernel.new mem.new; bad = result } }
    ensures books { HoldsBooks kernel.new mem.new }
    ensures size { length mem.new ≡ length mem.old }
{
    let mut rest = journal;
    let mut number = 1;
    while !rest.is_empty() {
        let (line, later) = cut_line(rest);
        match follow_line(kernel, mem, buffer, line) {
            Step::Goes => {}
            Step::Ends => return None,
            Step::Stops => return Some(number),
        }
        rest = later;
        number += 1;
    }
    None
}

/// Makes the calls of a run's journal on the books and the memory of an opening, without the processor. It reads to the
/// first line that ends the journal, or to the last. Ok exactly where each line that it reads is in form, and source,
/// answer and place of each call are what the books give; `Line` exactly where one isn't, and names the first. The
/// calls of the lines before that one were made then, and its own too where only its answer or its place isn't right.
/// But `Memory` may come in the place of either, before the first line: nothing was changed then. The time is linear
/// in the journal's length, beside that of the calls.
pub fn replay(
    alloc: Global,
    kernel: &mut Kernel,
    mem: &mut PhysMem,
    journal: &[u8],
) -> Result<(), ReplayFault>
    requires books { HoldsBooks kernel.old mem.old }
    requires ledger { (books_in kernel.old mem.old).ledger ≡ opening_ledger }
    ensures done { IfOk result (λ _. (replay_of journal.now (standing_held kernel.old mem.old)).bad ≡ None) }
    ensures fault { IfErr result (IsReplayFault (replay_of journal.now (standing_held kernel.old mem.old))) }
    ensures made { result ≢ Err Memory
        → standing_held kernel.new mem.new ≡ (replay_of journal.now (standing_held kernel.old mem.old)).made }
    ensures untouched { result ≡ Err Memory → (kernel.new ≡ kernel.old) × (mem.new ≡ mem.old) }
    ensures books { HoldsBooks kernel.new mem.new }
    ensures size { length mem.new ≡ length mem.old }
{
    let mut buffer = Vec::new(alloc);
    if let Err(_) = buffer.resize(MOST_TAKEN, 0) {
        return Err(ReplayFault::Memory);
    }
    match replay_lines(kernel, mem, buffer.as_mut_slice(), journal) {
        Some(line) => Err(ReplayFault::Line(line)),
        None => Ok(()),
    }
}
