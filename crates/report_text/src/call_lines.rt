//! The line of a call. Its source may be long, so it goes out in pieces.
ghost use Rattle.std.specs.Prelude.{◌≡◌, ◌+◌, ◌≤◌, ◌++◌, drop, false, length, codes, decimal, OnErr, OnOk};
ghost use Rattle.std.specs.Fmt.{digits};
ghost use Rattle.hex.specs.Hex.{encode_lower};
ghost use Rattle.nk_host.specs.FaultCounts.{RoseTo};
ghost use Rattle.nk_host.specs.PiecesOut.{MovedOn};
ghost use Rattle.nk_host.specs.Taken.{AppendsPrefix};
ghost use Rattle.nk_host.specs.TextPuts.{IsTextPut};
ghost use Rattle.nk_body.specs.SourceWords.{sourced_of};
ghost use Rattle.report_text.specs.RunLines.{call_line, hex_16_word, source_word};

use crate::words::{put, put_decimal, put_least, put_word_16};
use nk_bits::{Answer, CallWords};
use nk_body::Source;
use nk_host::{Pieces, Sink, SinkFault, pieces_law};

/// Writes the line of a call.
pub fn called<O: Sink>(
    sink: &mut O,
    call: &CallWords,
    source: &Source,
    answer: &Answer,
) -> Result<(), SinkFault>
    ensures { IsTextPut O.taken O.faults sink.old sink.new
        (call_line call.now (sourced_of source.now) answer.now) result }
{
    pieces_law();
    let mut pieces = Pieces::new();
    if let Err(fault) = pieces.push_all(sink, call_head(&mut [0; CALL_HEAD], call)) {
        return Err(fault);
    }
    if let Err(fault) = take_source(&mut pieces, sink, source) {
        return Err(fault);
    }
    if let Err(fault) = pieces.push_all(sink, call_tail(&mut [0; CALL_TAIL], answer)) {
        return Err(fault);
    }
    pieces.finish(sink)
}

/// Takes up what a call took.
#[tactic(auto, unfolding(crate::specs::RunLines::source_word))]
fn take_source<O: Sink>(pieces: &mut Pieces, sink: &mut O, source: &Source) -> Result<(), SinkFault>
    ensures never_falls { O.faults sink.old ≤ O.faults sink.new }
    ensures failed { OnErr result (RoseTo (O.faults sink.old) (O.faults sink.new)) }
    ensures moved { OnOk result (MovedOn (O.taken sink.old) (O.taken sink.new) pieces.old pieces.new
        (source_word (sourced_of source.now))) }
    ensures cut { OnErr result (AppendsPrefix (O.taken sink.old) (O.taken sink.new)
        (pieces.old ++ source_word (sourced_of source.now))) }
{
    match source {
        Source::NotTaken => pieces.push(sink, b'-'),
        Source::Unreadable => pieces.push(sink, b'!'),
        Source::Bytes(bytes) => take_bytes(pieces, sink, bytes),
    }
}

/// Takes up bytes, each as two hexadecimal digits.
fn take_bytes<O: Sink>(pieces: &mut Pieces, sink: &mut O, bytes: &[u8]) -> Result<(), SinkFault>
    ensures never_falls { O.faults sink.old ≤ O.faults sink.new }
    ensures failed { OnErr result (RoseTo (O.faults sink.old) (O.faults sink.new)) }
    ensures moved { OnOk result
        (MovedOn (O.taken sink.old) (O.taken sink.new) pieces.old pieces.new (encode_lower bytes.now)) }
    ensures cut { OnErr result
        (AppendsPrefix (O.taken sink.old) (O.taken sink.new) (pieces.old ++ encode_lower bytes.now)) }
{
    pieces_law();
    for at in 0..bytes.len() {
        if let Err(fault) = pieces.push_hex(sink, bytes[at]) {
            return Err(fault);
        }
    }
    Ok(())
}

/// The most bytes before the source: `k` and a space, and five words of sixteen, each before a space.
const CALL_HEAD: usize = 87;

/// The line of a call up to its source, at the end of the room. It is put there from its last word to its first.
fn call_head<'a>(room: &'a mut [u8; CALL_HEAD], call: &CallWords) -> &'a [u8]
    ensures { result.now ≡ codes "k " ++ (digits 16 false call.now.number ++ (codes " "
        ++ (digits 16 false call.now.a ++ (codes " " ++ (digits 16 false call.now.b ++ (codes " "
        ++ (digits 16 false call.now.c ++ (codes " " ++ (digits 16 false call.now.d ++ codes " "))))))))) }
{
    room[CALL_HEAD - 1] = b' ';
    let words = put_arguments(room, CALL_HEAD - 1, call);
    let number_end = put(room, words, b" ");
    let number = put_least(room, number_end, call.number);
    let start = put(room, number, b"k ");
    room.split_at(start).1
}

/// Puts the four arguments of a call.
fn put_arguments(room: &mut [u8], end: usize, call: &CallWords) -> usize
    requires room { 67 ≤ end }
    requires end { end ≤ length room.old }
    ensures start { (result ≤ end) × (end ≤ result + 67) }
    ensures written { drop result room.new ≡ digits 16 false call.now.a ++ (codes " "
        ++ (digits 16 false call.now.b ++ (codes " " ++ (digits 16 false call.now.c ++ (codes " "
        ++ (digits 16 false call.now.d ++ drop end room.old)))))) }
{
    let d = put_least(room, end, call.d);
    let c_end = put(room, d, b" ");
    let c = put_least(room, c_end, call.c);
    let b_end = put(room, c, b" ");
    let b = put_least(room, b_end, call.b);
    let a_end = put(room, b, b" ");
    put_least(room, a_end, call.a)
}

/// The most bytes behind the source: twenty digits and a place of sixteen, each behind a space, and the line's end.
const CALL_TAIL: usize = 39;

/// The line of a call behind its source, at the end of the room.
fn call_tail<'a>(room: &'a mut [u8; CALL_TAIL], answer: &Answer) -> &'a [u8]
    ensures { result.now ≡ codes " " ++ (decimal answer.now.value ++ (codes " "
        ++ (hex_16_word answer.now.place ++ codes "\n"))) }
{
    room[CALL_TAIL - 1] = b'\n';
    let place = put_word_16(room, CALL_TAIL - 1, answer.place);
    let value_end = put(room, place, b" ");
    let value = put_decimal(room, value_end, answer.value);
    let start = put(room, value, b" ");
    room.split_at(start).1
}
