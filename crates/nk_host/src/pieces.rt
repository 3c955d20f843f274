//! Texts of any length, put in pieces. `Pieces` takes a text's bytes one by one, so that it needs no
//! copy of the text.
ghost use Rattle.std.specs.Prelude.{◌≡◌, ◌<◌, ◌≤◌, ℕ, List, [], ◌∷◌, ◌++◌, length, OnOk, OnErr, IsOk};
ghost use Rattle.hex.specs.Hex.{encode_lower};
ghost use Rattle.nk_host.specs.FaultCounts.{RoseTo};
ghost use Rattle.nk_host.specs.PiecesOut.{MovedOn};
ghost use Rattle.nk_host.specs.Taken.{AppendsPrefix};
ghost use Rattle.nk_host.specs.TextPuts.{IsTextPut};
ghost use Rattle.nk_host.specs.PieceLaws.{PiecesLaws};

use crate::{Sink, SinkFault};
use arrayvec::ArrayVec;
use std::marker::Model;

/// The most bytes that go out in one put.
pub const PIECE: usize = 4096;

/// Puts all of the bytes, in pieces of `PIECE` bytes and a rest, and stops at the first fault. So
/// bytes of at most one piece go out in one put, and none where there are none.
pub fn put_all<O: Sink>(sink: &mut O, bytes: &[u8]) -> Result<(), SinkFault>
    ensures put { IsTextPut O.taken O.faults sink.old sink.new bytes.now result }
    ensures nothing { bytes.now ≡ [] → IsOk result }
{
    let mut rest = bytes;
    while !rest.is_empty() {
        let (piece, later) = rest.split_at(rest.len().min(PIECE));
        sink.put(piece)?;
        rest = later;
    }
    Ok(())
}

/// Bytes that wait to go out, at most `PIECE` of them. They go out in one put where a further byte has
/// no room, and at the end. So a text of at most one piece goes out in one put. What waits after a
/// fault is left open: a text that was cut isn't gone on with.
#[derive(Drop)]
pub struct Pieces {
    bytes: ArrayVec<u8, PIECE>,
}

impl Model for Pieces {
    ghost use Rattle.std.specs.Prelude.{ℕ, List};

    ghost Value = { List ℕ };

    ghost view = { λ pieces. pieces.bytes.items };
}

impl Pieces {
    /// No byte waits.
    pub fn new() -> Pieces
        ensures { result ≡ [] }
    {
        Pieces {
            bytes: ArrayVec::new(),
        }
    }

    /// Takes up a byte.
    pub fn push<O: Sink>(&mut self, sink: &mut O, byte: u8) -> Result<(), SinkFault>
        ensures never_falls { O.faults sink.old ≤ O.faults sink.new }
        ensures failed { OnErr result (RoseTo (O.faults sink.old) (O.faults sink.new)) }
        ensures moved { OnOk result (MovedOn (O.taken sink.old) (O.taken sink.new) self.old self.new (byte ∷ [])) }
        ensures cut { OnErr result (AppendsPrefix (O.taken sink.old) (O.taken sink.new) (self.old ++ byte ∷ [])) }
    {
        if let Err(fault) = self.make_room(sink) {
            return Err(fault);
        }
        self.bytes.push(byte);
        Ok(())
    }

    /// Takes up bytes.
    pub fn push_all<O: Sink>(&mut self, sink: &mut O, bytes: &[u8]) -> Result<(), SinkFault>
        ensures never_falls { O.faults sink.old ≤ O.faults sink.new }
        ensures failed { OnErr result (RoseTo (O.faults sink.old) (O.faults sink.new)) }
        ensures moved { OnOk result (MovedOn (O.taken sink.old) (O.taken sink.new) self.old self.new bytes.now) }
        ensures cut { OnErr result (AppendsPrefix (O.taken sink.old) (O.taken sink.new) (self.old ++ bytes.now)) }
    {
        for byte in bytes {
            if let Err(fault) = self.push(sink, *byte) {
                return Err(fault);
            }
        }
        Ok(())
    }

    /// Takes up the two hexadecimal digits of a byte, in lower case.
    pub fn push_hex<O: Sink>(&mut self, sink: &mut O, byte: u8) -> Result<(), SinkFault>
        ensures never_falls { O.faults sink.old ≤ O.faults sink.new }
        ensures failed { OnErr result (RoseTo (O.faults sink.old) (O.faults sink.new)) }
        ensures moved { OnOk result
            (MovedOn (O.taken sink.old) (O.taken sink.new) self.old self.new (encode_lower (byte ∷ []))) }
        ensures cut { OnErr result
            (AppendsPrefix (O.taken sink.old) (O.taken sink.new) (self.old ++ encode_lower (byte ∷ []))) }
    {
        let mut digits = [0; 2];
        let _whole = hex::encode_to_slice([byte], &mut digits);
        self.push_all(sink, &digits)
    }

    /// Puts what waits.
    pub fn finish<O: Sink>(&mut self, sink: &mut O) -> Result<(), SinkFault>
        ensures never_falls { O.faults sink.old ≤ O.faults sink.new }
        ensures failed { OnErr result (RoseTo (O.faults sink.old) (O.faults sink.new)) }
        ensures moved { OnOk result (MovedOn (O.taken sink.old) (O.taken sink.new) self.old self.new []) }
        ensures cut { OnErr result (AppendsPrefix (O.taken sink.old) (O.taken sink.new) (self.old ++ [])) }
        ensures none { OnOk result (self.new ≡ []) }
    {
        if let Err(fault) = sink.put(self.bytes.as_slice()) {
            return Err(fault);
        }
        self.bytes.clear();
        Ok(())
    }

    /// Puts what waits, where a further byte has no room.
    fn make_room<O: Sink>(&mut self, sink: &mut O) -> Result<(), SinkFault>
        ensures never_falls { O.faults sink.old ≤ O.faults sink.new }
        ensures failed { OnErr result (RoseTo (O.faults sink.old) (O.faults sink.new)) }
        ensures moved { OnOk result (MovedOn (O.taken sink.old) (O.taken sink.new) self.old self.new []) }
        ensures cut { OnErr result (AppendsPrefix (O.taken sink.old) (O.taken sink.new) (self.old ++ [])) }
        ensures room { OnOk result (length self.new < PIECE) }
    {
        if self.bytes.is_full() {
            self.finish(sink)
        } else {
            Ok(())
        }
    }
}

/// What follows where bytes are taken up: none, some behind others, and a fault behind others; what
/// went out once none waits; and a prefix of a text as one of a longer text.
pub fn pieces_law()
    ensures { PiecesLaws }
{}
