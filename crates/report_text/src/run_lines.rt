//! The lines of a run: the console, deliveries, and how the run ended.
ghost use Rattle.std.specs.Prelude.{◌≡◌, ◌++◌};
ghost use Rattle.nk_host.specs.TextPuts.{IsTextPut};
ghost use Rattle.report_text.specs.RunLines.{console_line, delivery_line, ending_line, turns_line};

use crate::words::{NUMBERED, numbered, put, put_16, put_word, put_word_16};
use nk_bits::Delivery;
use nk_host::{Sink, SinkFault, put_all};

/// Writes a byte of the console.
pub fn console<O: Sink>(sink: &mut O, byte: u8) -> Result<(), SinkFault>
    ensures { IsTextPut O.taken O.faults sink.old sink.new (console_line byte) result }
{
    put_all(sink, &console_line(byte))
}

/// Writes a delivery.
pub fn delivery<O: Sink>(sink: &mut O, it: &Delivery) -> Result<(), SinkFault>
    ensures { IsTextPut O.taken O.faults sink.old sink.new (delivery_line it.now) result }
{
    put_all(sink, delivery_line(&mut [0; DELIVERY], it))
}

/// Writes why a run ended, and how many turns it took. Where it isn't halted, it took as many as it may have.
pub fn ending<O: Sink>(sink: &mut O, halted: bool, turns: u64) -> Result<(), SinkFault>
    ensures { IsTextPut O.taken O.faults sink.old sink.new (ending_line halted ++ turns_line turns) result }
{
    match put_all(sink, ending_line(halted).as_bytes()) {
        Ok(()) => put_all(sink, turns_line(&mut [0; NUMBERED], turns)),
        Err(fault) => Err(fault),
    }
}

/// A byte of the console.
#[tactic(auto, unfolding(crate::specs::RunLines::console_line, hex::specs::Hex::encode_with))]
fn console_line(byte: u8) -> [u8; 5]
    ensures { result ≡ console_line byte }
{
    let mut line = *b"c 00\n";
    let _whole = hex::encode_to_slice([byte], &mut line[2..4]);
    line
}

/// The most bytes of the line of a delivery: `i`, a vector of three digits and three words of sixteen, each behind a
/// space, and the line's end.
const DELIVERY: usize = 57;

/// A delivery, at the end of the room. It is put there from its last word to its first.
fn delivery_line<'a>(room: &'a mut [u8; DELIVERY], it: &Delivery) -> &'a [u8]
    ensures { result.now ≡ delivery_line it.now }
{
    room[DELIVERY - 1] = b'\n';
    let cr2 = put_word_16(room, DELIVERY - 1, it.cr2);
    let rip_end = put(room, cr2, b" ");
    let rip = put_16(room, rip_end, it.rip);
    let code_end = put(room, rip, b" ");
    let code = put_word(room, code_end, it.code);
    let vector_end = put(room, code, b" ");
    let vector = itoa::write_digits(u64::from(it.vector), room, vector_end);
    let start = put(room, vector, b"i ");
    room.split_at(start).1
}

/// Why the run ended.
#[tactic(auto, unfolding(crate::specs::RunLines::ending_line))]
fn ending_line(halted: bool) -> &'static str
    ensures { result.now ≡ ending_line halted }
{
    if halted {
        "end halted\n"
    } else {
        "end steps\n"
    }
}

/// How many turns were taken.
#[tactic(auto, unfolding(crate::specs::RunLines::turns_line))]
fn turns_line(room: &mut [u8; NUMBERED], turns: u64) -> &[u8]
    ensures { result.now ≡ turns_line turns }
{
    numbered(room, "turns ", turns)
}
