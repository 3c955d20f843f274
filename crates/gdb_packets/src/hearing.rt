//! The next packet of a source.

ghost use Rattle.std.specs.Prelude.{◌≡◌, ◌∷◌, [], IfOk};
ghost use Rattle.gdb_packets.specs.BytesHeard.{IsHearing, IsHeardBy, IsPairHeard, IsPassedOver, IsRestHeard, IsSought, left_of, listener_faults};
ghost use Rattle.gdb_packets.specs.Packets.{heard_by, is_sum, body_sum};
ghost use Rattle.text_lines.specs.Numerals.{numeral};

use crate::heard::{HearFault, Heard};
use crate::listener::Listener;
use nk_host::Source;
use text_lines::hexadecimal;

/// The first byte of a packet, and the one behind its body.
const START: u8 = b'$';

const END: u8 = b'#';

/// The sum of a body's bytes, in a byte.
fn body_sum(body: &[u8]) -> u8
    ensures { result ≡ body_sum body.now }
{
    body.iter()
        .fold(0u8, |total, byte| total.wrapping_add(*byte))
}

/// What a body with the two bytes behind it is.
fn judge(body: &[u8], high: u8, low: u8) -> Heard
    ensures { result ≡ heard_by (is_sum body.now (numeral 16 2 (high ∷ low ∷ []))) }
{
    match hexadecimal(&[high, low], 2) {
        Some(sum) if sum == u64::from(body_sum(body)) => Heard::Body,
        _ => Heard::Damaged,
    }
}

impl<S: Source + Drop> Listener<S> {
    /// Passes over bytes up to the first one of a value, without memory; false where the source ends first.
    fn pass_over(&mut self, mark: u8) -> Result<bool, HearFault>
        ensures hearing { IsHearing (S.faults self.old.source) (S.faults self.new.source) result }
        ensures passed { IfOk result (IsPassedOver mark (left_of S.left self.old) (left_of S.left self.new)) }
    {
        for _ in 0..u64::MAX {
            match self.next_byte() {
                Err(fault) => return Err(HearFault::Source(fault)),
                Ok(None) => return Ok(false),
                Ok(Some(byte)) if byte == mark => return Ok(true),
                Ok(Some(_)) => {}
            }
        }
        Err(HearFault::NoMemory)
    }

    /// Hears bytes up to the first one of a value, and gathers those before it; false where the source ends first.
    fn gather(&mut self, mark: u8, bytes: &mut Vec<u8>) -> Result<bool, HearFault>
        requires { bytes.old.items ≡ [] }
        ensures hearing { IsHearing (S.faults self.old.source) (S.faults self.new.source) result }
        ensures sought { IfOk result (IsSought mark (left_of S.left self.old) (left_of S.left self.new) bytes.new.items) }
    {
        loop {
            match self.next_byte() {
                Err(fault) => return Err(HearFault::Source(fault)),
                Ok(None) => return Ok(false),
                Ok(Some(byte)) if byte == mark => return Ok(true),
                Ok(Some(byte)) => {
                    if bytes.push(byte).is_err() {
                        return Err(HearFault::NoMemory);
                    }
                }
            }
        }
    }

    /// The next two bytes, if there are two.
    fn pair(&mut self) -> Result<Option<(u8, u8)>, HearFault>
        ensures hearing { IsHearing (S.faults self.old.source) (S.faults self.new.source) result }
        ensures pair { IfOk result (IsPairHeard (left_of S.left self.old) (left_of S.left self.new)) }
    {
        let high = match self.next_byte() {
            Ok(Some(byte)) => byte,
            Ok(None) => return Ok(None),
            Err(fault) => return Err(HearFault::Source(fault)),
        };
        match self.next_byte() {
            Ok(Some(low)) => Ok(Some((high, low))),
            Ok(None) => Ok(None),
            Err(fault) => Err(HearFault::Source(fault)),
        }
    }

    /// Hears what is left of a packet behind its first byte, and gathers its body.
    fn hear_rest(&mut self, body: &mut Vec<u8>) -> Result<Heard, HearFault>
        requires { body.old.items ≡ [] }
        ensures hearing { IsHearing (S.faults self.old.source) (S.faults self.new.source) result }
        ensures heard { IfOk result (IsRestHeard (left_of S.left self.old) (left_of S.left self.new) body.new.items) }
    {
        if !self.gather(END, body)? {
            return Ok(Heard::End);
        }
        match self.pair()? {
            Some((high, low)) => Ok(judge(body.as_slice(), high, low)),
            None => Ok(Heard::End),
        }
    }

    /// Hears the next packet, and gathers its body in place of what the other one holds.
    pub fn hear(&mut self, body: &mut Vec<u8>) -> Result<Heard, HearFault>
        ensures hearing { IsHearing (listener_faults S.faults self.old) (listener_faults S.faults self.new) result }
        ensures heard { IfOk result (IsHeardBy (left_of S.left self.old) (left_of S.left self.new) body.new.items) }
    {
        body.clear();
        if !self.pass_over(START)? {
            return Ok(Heard::End);
        }
        self.hear_rest(body)
    }
}
