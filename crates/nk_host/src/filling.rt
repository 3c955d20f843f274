//! A block of memory that a reader fills.
ghost use Rattle.std.specs.Prelude.{◌≡◌, ◌≢◌, ℕ, ◌+◌, ◌<◌, ◌≤◌, ◌^◌, length, take, Some, IfOk, IfSome, OnOk, OnErr, IfErr};
ghost use Rattle.std.specs.Option.{SomeIff};
ghost use Rattle.std.specs.Io.KnownBytes.{Consumes};
ghost use Rattle.nk_host.specs.CountedStream.{faults_of, stream_of};
ghost use Rattle.nk_host.specs.FaultCounts.{RoseTo};
ghost use Rattle.nk_host.specs.Streams.{GivesAt, GivesMore, StandsAt};

use crate::PieceFault;
use crate::counted::Counted;
use std::io::{Read, Seek};

/// Fills the block with what the reader has from place `at` on. Where the reader stands, if that is
/// known, is taken from `stands`, and kept there: from a reader that stands at `at` the block is what it
/// has next, and any other is first moved there. An end before the block's is a fault, and so is an
/// interrupted read; the block may hold any bytes then.
pub fn fill_from<F: Read + Seek>(
    from: &mut Counted<F>,
    stands: &mut Option<u64>,
    at: u64,
    block: &mut [u8],
) -> Result<(), PieceFault>
    requires { IfSome stands.old (StandsAt F.stream_position F.remaining (stream_of from.old)) }
    ensures next { OnOk result (stands.old ≡ Some at
        → Consumes (F.remaining (stream_of from.old)) (F.remaining (stream_of from.new)) block.new) }
    ensures moved { OnOk result (stands.old ≢ Some at
        → GivesAt F.stream_position F.remaining (stream_of from.old) (stream_of from.new) at block.new) }
    ensures behind { OnOk result
        (SomeIff stands.new (at + length block.new < 2 ^ 64) (at + length block.new)) }
    ensures stands { IfSome stands.new (StandsAt F.stream_position F.remaining (stream_of from.new)) }
    ensures never_falls { faults_of from.old ≤ faults_of from.new }
    ensures failed { OnErr result (RoseTo (faults_of from.old) (faults_of from.new)) }
    ensures kept { OnOk result (faults_of from.new ≡ faults_of from.old) }
    ensures only { IfErr result (λ fault. fault ≡ PieceFault.Failed) }
{
    let known = stands.take();
    stand_at(from, known, at)?;
    fill(from, block)?;
    *stands = at.checked_add(block.len() as u64);
    Ok(())
}

/// Moves the reader to place `at`, if it isn't known to stand there.
#[tactic(auto, using(crate::proofs::InReads::stands_there))]
fn stand_at<F: Read + Seek>(
    from: &mut Counted<F>,
    known: Option<u64>,
    at: u64,
) -> Result<(), PieceFault>
    requires { IfSome known (StandsAt F.stream_position F.remaining from.old.inner) }
    ensures there { OnOk result (StandsAt F.stream_position F.remaining from.new.inner at) }
    ensures unmoved { known ≡ Some at → from.new ≡ from.old }
    ensures moved { OnOk result (known ≢ Some at → IfSome (F.stream_position from.old.inner)
        (λ _. F.stream_position from.new.inner ≡ Some at)) }
    ensures never_falls { from.old.faults ≤ from.new.faults }
    ensures failed { OnErr result (RoseTo from.old.faults from.new.faults) }
    ensures kept { OnOk result (from.new.faults ≡ from.old.faults) }
    ensures only { IfErr result (λ fault. fault ≡ PieceFault.Failed) }
{
    match known {
        Some(place) if place == at => Ok(()),
        _ => from.go_to(at),
    }
}

/// Fills the block with what the reader has next. An end before the block's is a fault, and so is an
/// interrupted read; the block may hold any bytes then.
pub fn fill<F: Read>(from: &mut Counted<F>, block: &mut [u8]) -> Result<(), PieceFault>
    ensures given { OnOk result (Consumes (F.remaining (stream_of from.old)) (F.remaining (stream_of from.new)) block.new) }
    ensures never_falls { faults_of from.old ≤ faults_of from.new }
    ensures failed { OnErr result (RoseTo (faults_of from.old) (faults_of from.new)) }
    ensures kept { OnOk result (faults_of from.new ≡ faults_of from.old) }
    ensures only { IfErr result (λ fault. fault ≡ PieceFault.Failed) }
{
    let mut done = 0;
    while done < block.len() {
        let count = read_behind(from, block, done)?;
        done += count;
    }
    Ok(())
}

/// One read into the block behind the bytes that are done.
fn read_behind<F: Read>(
    from: &mut Counted<F>,
    block: &mut [u8],
    done: usize,
) -> Result<usize, PieceFault>
    requires { done < length block.old }
    ensures some { IfOk result (λ n. 0 < n) }
    ensures bound { IfOk result (λ n. done + n ≤ length block.new) }
    ensures given { IfOk result (λ n. GivesMore (F.remaining from.old.inner) (F.remaining from.new.inner)
        (take done block.old) (take (done + n) block.new) n) }
    ensures never_falls { from.old.faults ≤ from.new.faults }
    ensures failed { OnErr result (RoseTo from.old.faults from.new.faults) }
    ensures kept { OnOk result (from.new.faults ≡ from.old.faults) }
    ensures only { IfErr result (λ fault. fault ≡ PieceFault.Failed) }
{
    read_some(from, &mut block[done..])
}

/// One read, of at least one byte.
fn read_some<F: Read>(from: &mut Counted<F>, block: &mut [u8]) -> Result<usize, PieceFault>
    requires { 0 < length block.old }
    ensures some { IfOk result (λ n. 0 < n) }
    ensures bound { IfOk result (λ n. n ≤ length block.new) }
    ensures given { IfOk result
        (λ n. Consumes (F.remaining from.old.inner) (F.remaining from.new.inner) (take n block.new)) }
    ensures never_falls { from.old.faults ≤ from.new.faults }
    ensures failed { OnErr result (RoseTo from.old.faults from.new.faults) }
    ensures kept { OnOk result (from.new.faults ≡ from.old.faults) }
    ensures only { IfErr result (λ fault. fault ≡ PieceFault.Failed) }
{
    match from.read(block) {
        Ok(n) if n > 0 => Ok(n),
        Ok(_) => {
            from.count_fault();
            Err(PieceFault::Failed)
        }
        Err(_) => Err(PieceFault::Failed),
    }
}
