//! A body put as a packet.

ghost use Rattle.std.specs.Prelude.{◌≡◌, ◌∷◌, ◌++◌, []};
ghost use Rattle.hex.specs.Hex.{encode_lower};
ghost use Rattle.nk_host.specs.TextPuts.{IsTextPut};
ghost use Rattle.gdb_packets.specs.Packets.{escaped, is_marked, packet_of, body_sum, with_bit_5_turned};
ghost use Rattle.gdb_packets.specs.Sendings.{IsTakenUp, sum_behind};

use nk_host::{Pieces, Sink, SinkFault, pieces_law};

/// The byte that a marked one is sent behind.
const ESCAPE: u8 = b'}';

/// Whether a byte is sent as two.
fn is_marked(byte: u8) -> bool
    ensures { result ≡ is_marked byte }
{
    byte == b'#' || (byte == b'$' || (byte == b'*' || byte == b'}'))
}

fn with_bit_5_turned(byte: u8) -> u8
    ensures { result ≡ with_bit_5_turned byte }
{
    if byte % 0x40 < 0x20 {
        byte + 0x20
    } else {
        byte - 0x20
    }
}

/// A sum with that of a byte as it is sent.
#[tactic(auto, unfolding(crate::specs::Packets::escaped))]
fn with_sent(sum: u8, byte: u8) -> u8
    ensures { result ≡ sum_behind sum (escaped (byte ∷ [])) }
{
    if is_marked(byte) {
        sum.wrapping_add(ESCAPE)
            .wrapping_add(with_bit_5_turned(byte))
    } else {
        sum.wrapping_add(byte)
    }
}

/// The sum of a body's bytes as they are sent.
fn sum_sent(body: &[u8]) -> u8
    ensures { result ≡ body_sum (escaped body.now) }
{
    let mut sum = 0;
    for byte in body {
        sum = with_sent(sum, *byte);
    }
    sum
}

/// Takes up bytes as they are.
fn push_bytes<O: Sink>(pieces: &mut Pieces, sink: &mut O, bytes: &[u8]) -> Result<(), SinkFault>
    ensures { IsTakenUp O.taken O.faults sink.old sink.new pieces.old pieces.new bytes.now result }
{
    pieces.push_all(sink, bytes)
}

/// Takes up a byte as it is sent.
#[tactic(auto, unfolding(crate::specs::Packets::escaped))]
fn push_sent<O: Sink>(pieces: &mut Pieces, sink: &mut O, byte: u8) -> Result<(), SinkFault>
    ensures { IsTakenUp O.taken O.faults sink.old sink.new pieces.old pieces.new (escaped (byte ∷ [])) result }
{
    if is_marked(byte) {
        push_bytes(pieces, sink, &[ESCAPE, with_bit_5_turned(byte)])
    } else {
        push_bytes(pieces, sink, &[byte])
    }
}

/// Takes up a body as it is sent.
fn push_body<O: Sink>(pieces: &mut Pieces, sink: &mut O, body: &[u8]) -> Result<(), SinkFault>
    ensures { IsTakenUp O.taken O.faults sink.old sink.new pieces.old pieces.new (escaped body.now) result }
{
    pieces_law();
    for byte in body {
        if let Err(fault) = push_sent(pieces, sink, *byte) {
            return Err(fault);
        }
    }
    Ok(())
}

/// Takes up the byte behind a body, and the two digits of its sum.
fn push_sum<O: Sink>(pieces: &mut Pieces, sink: &mut O, sum: u8) -> Result<(), SinkFault>
    ensures { IsTakenUp O.taken O.faults sink.old sink.new pieces.old pieces.new
        (0x23 ∷ encode_lower (sum ∷ [])) result }
{
    let mut ending = [b'#', 0, 0];
    let _whole = hex::encode_to_slice([sum], &mut ending[1..]);
    push_bytes(pieces, sink, &ending)
}

/// Takes up a body as it is sent, and what is behind it.
fn push_rest<O: Sink>(pieces: &mut Pieces, sink: &mut O, body: &[u8]) -> Result<(), SinkFault>
    ensures { IsTakenUp O.taken O.faults sink.old sink.new pieces.old pieces.new
        (escaped body.now ++ (0x23 ∷ encode_lower (body_sum (escaped body.now) ∷ []))) result }
{
    pieces_law();
    match push_body(pieces, sink, body) {
        Ok(()) => push_sum(pieces, sink, sum_sent(body)),
        Err(fault) => Err(fault),
    }
}

/// Takes up a packet.
fn push_packet<O: Sink>(pieces: &mut Pieces, sink: &mut O, body: &[u8]) -> Result<(), SinkFault>
    ensures { IsTakenUp O.taken O.faults sink.old sink.new pieces.old pieces.new (packet_of body.now) result }
{
    pieces_law();
    match push_bytes(pieces, sink, b"$") {
        Ok(()) => push_rest(pieces, sink, body),
        Err(fault) => Err(fault),
    }
}

/// Puts a packet of this body, and stops at the first fault. A packet of at most `PIECE` bytes goes out in one put.
pub fn put_packet<O: Sink>(sink: &mut O, body: &[u8]) -> Result<(), SinkFault>
    ensures { IsTextPut O.taken O.faults sink.old sink.new (packet_of body.now) result }
{
    pieces_law();
    let mut pieces = Pieces::new();
    match push_packet(&mut pieces, sink, body) {
        Ok(()) => pieces.finish(sink),
        Err(fault) => Err(fault),
    }
}
