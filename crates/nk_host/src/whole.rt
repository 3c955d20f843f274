//! A reader read to its end, and bytes written whole.
ghost use Rattle.std.specs.Prelude.{◌≡◌, ◌≢◌, ◌+◌, ◌-◌, ◌<◌, ◌≤◌, [], length, min, vec_len, IfOk, IsOk, OnOk, IfErr};
ghost use Rattle.nk_host.specs.CountedStream.{faults_of, stream_of};
ghost use Rattle.nk_host.specs.FaultCounts.{RoseTo};
ghost use Rattle.nk_host.specs.Streams.{GivesAtMost, GivesMore, HadMore, IsAllOf};
ghost use Rattle.nk_host.specs.TextPuts.{IsTextPut};

use crate::counted::Counted;
use crate::{FetchFault, SinkFault};
use std::alloc::Global;
use std::io::{Read, Write};

/// The most bytes of one read.
const BLOCK: usize = 8_192;

/// All that the reader has, where that is at most `most` bytes. It reads at most one byte past them,
/// and takes memory in proportion to what was read. An interrupted read is a fault too.
pub fn read_whole<F: Read>(
    alloc: Global,
    from: &mut Counted<F>,
    most: u64,
) -> Result<Vec<u8>, FetchFault>
    ensures whole { IfOk result (λ bytes. IsAllOf (F.remaining (stream_of from.old)) bytes.items) }
    ensures at_most { IfOk result (λ bytes. vec_len bytes ≤ most) }
    ensures longer { result ≡ Err FetchFault.Longer → HadMore (F.remaining (stream_of from.old)) most }
    ensures failed { result ≡ Err FetchFault.Failed → RoseTo (faults_of from.old) (faults_of from.new) }
    ensures kept { result ≢ Err FetchFault.Failed → faults_of from.new ≡ faults_of from.old }
    ensures never_falls { faults_of from.old ≤ faults_of from.new }
    ensures one_past { GivesAtMost (F.remaining (stream_of from.old)) (F.remaining (stream_of from.new)) (most + 1) }
{
    let mut bytes = Vec::new(alloc);
    let mut block = [0; BLOCK];
    loop {
        let wanted = wanted_of(most - bytes.len() as u64);
        let count = read_more(from, &mut block[..wanted], &mut bytes)?;
        if bytes.len() as u64 > most {
            return Err(FetchFault::Longer);
        }
        if count == 0 {
            return Ok(bytes);
        }
    }
}

/// How many bytes to read next, where `left` more are allowed: one byte past them shows that there
/// are more.
fn wanted_of(left: u64) -> usize
    ensures { result ≡ min left (BLOCK - 1) + 1 }
{
    left.min(BLOCK as u64 - 1) as usize + 1
}

/// One read, of at most a block, put behind the bytes.
fn read_more<F: Read>(
    from: &mut Counted<F>,
    block: &mut [u8],
    bytes: &mut Vec<u8>,
) -> Result<usize, FetchFault>
    requires { 0 < length block.old }
    ensures ok { IfOk result (λ n. GivesMore (F.remaining from.old.inner) (F.remaining from.new.inner)
        bytes.old.items bytes.new.items n) }
    ensures at_most { GivesAtMost (F.remaining from.old.inner) (F.remaining from.new.inner) (length block.old) }
    ensures not_longer { IfErr result (λ fault. fault ≢ FetchFault.Longer) }
    ensures failed { result ≡ Err FetchFault.Failed → RoseTo from.old.faults from.new.faults }
    ensures kept { result ≢ Err FetchFault.Failed → from.new.faults ≡ from.old.faults }
    ensures never_falls { from.old.faults ≤ from.new.faults }
{
    let count = from.read(block)?;
    match bytes.extend_from_slice(&block[..count]) {
        Ok(()) => Ok(count),
        Err(_) => Err(FetchFault::Memory),
    }
}

/// Writes all of the bytes, or some first ones and fails. A write that is interrupted, or takes no byte,
/// is a fault.
pub fn write_whole<W: Write>(to: &mut Counted<W>, bytes: &[u8]) -> Result<(), SinkFault>
    ensures put { IsTextPut (λ w. W.contents (stream_of w)) faults_of to.old to.new bytes.now result }
    ensures nothing { bytes.now ≡ [] → IsOk result }
    ensures kept { OnOk result (faults_of to.new ≡ faults_of to.old) }
{
    let mut rest = bytes;
    while !rest.is_empty() {
        let count = to.write(rest)?;
        rest = rest.split_at(count).1;
    }
    Ok(())
}
