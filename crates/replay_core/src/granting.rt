//! The call of a journal that was answered with a region's identifier.

ghost use Rattle.std.specs.Prelude.{◌≡◌, Option, is_some, unwrap_or};
ghost use Rattle.nk_bits.specs.declared.call.CallWords.{CallWords};
ghost use Rattle.replay_core.specs.GrantedCalls.{granted_by, granted_of};
ghost use Rattle.replay_core.specs.GrantedLaws.{GrantedLaws};
ghost use Rattle.replay_core.specs.HeardLines.{heard_in};
ghost use Rattle.replay_core.specs.JournalLines.{heard_of};
ghost use Rattle.replay_core.specs.declared.heard.ReadLine.TheVariants.{Calls};
ghost use Rattle.text_lines.specs.TextLines.{words};

use crate::heard::{ReadCall, ReadLine, hear};
use crate::source::is_source;
use nk_bits::CallWords;
use text_lines::cut_line;

/// What the line of a call settles of the search; None where the lines behind it do.
fn settled_by_call(noted: &ReadCall, id: u64) -> Option<Option<CallWords>>
    ensures { (later : Option CallWords)
        → granted_by id (heard_in (Some (Calls noted.now))) later ≡ unwrap_or result later }
{
    if !is_source(noted.source) {
        Some(None)
    } else if noted.value == id {
        Some(Some(noted.call))
    } else {
        None
    }
}

/// What a line settles of the search; None where the lines behind it do.
fn settled(line: &[u8], id: u64) -> Option<Option<CallWords>>
    ensures { (later : Option CallWords)
        → granted_by id (heard_of (words line.now)) later ≡ unwrap_or result later }
{
    match hear(line) {
        Some(ReadLine::Passes) => None,
        Some(ReadLine::Calls(noted)) => settled_by_call(&noted, id),
        Some(ReadLine::Ends) | None => Some(None),
    }
}

/// The number and the arguments of the first call of a run's journal that is noted as answered with an identifier. It
/// reads to the first line that ends the journal or is out of form, and makes no call: whether the answers are right is
/// for `replay` to say. None where there is no such call. It takes no memory, and the time is linear in the journal's
/// length.
pub fn granted(journal: &[u8], id: u64) -> Option<CallWords>
    ensures { result ≡ granted_of journal.now id }
{
    let mut rest = journal;
    while !rest.is_empty() {
        let (line, later) = cut_line(rest);
        if let Some(call) = settled(line, id) {
            return call;
        }
        rest = later;
    }
    None
}

/// In a journal that is accepted, from books in which nothing was given yet, a call 7 that was answered with an
/// identifier gave a region of 1 to 65,536 bytes, as it asks; and each write in that region that the log holds at the
/// end lies within it, whether it lives then or was freed.
pub fn granted_law()
    ensures { GrantedLaws }
{}
