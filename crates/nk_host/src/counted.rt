//! A reader or a writer whose faults are counted. Such a writer is a sink.
ghost use Rattle.std.specs.Prelude.{◌≡◌, ◌≢◌, ◌<◌, ◌≤◌, [], length, take, IfOk, IfSome, OnOk, OnErr, IfErr};
ghost use Rattle.std.specs.Io.KnownBytes.{Appends, Keeps, ReadConsumes};
ghost use Rattle.std.specs.Io.Seek.{MovesTo};
ghost use Rattle.nk_host.specs.FaultCounts.{RoseTo, raised};
ghost use Rattle.nk_host.specs.Streams.{HasLength};

use crate::whole::write_whole;
use crate::{FetchFault, PieceFault, Sink, SinkFault, Source, SourceFault};
use std::io::{Read, Seek, SeekFrom, Write};

/// A reader or a writer, and the count of its faults.
#[derive(Drop)]
pub struct Counted<T> {
    inner: T,
    faults: u64,
}

impl<T> Counted<T> {
    ghost use Rattle.nk_host.specs.CountedStream.{faults_of, stream_of};

    /// A reader or a writer that had so many faults before.
    pub fn after(inner: T, faults: u64) -> Counted<T>
        ensures inner { stream_of result ≡ inner }
        ensures faults { faults_of result ≡ faults }
    {
        Counted { inner, faults }
    }

    /// The count of faults, which stays at 2^64 - 1.
    pub fn faults(&self) -> u64
        ensures { result ≡ faults_of self.now }
    {
        self.faults
    }

    /// The reader or the writer; the count ends.
    pub fn into_inner(self) -> T
        ensures { result ≡ stream_of self }
    {
        self.inner
    }

    /// Counts a fault.
    pub(crate) fn count_fault(&mut self)
        ensures after { self.new ≡ record self.old { faults = raised self.old.faults } }
        ensures never_falls { self.old.faults ≤ self.new.faults }
    {
        self.faults = self.faults.saturating_add(1);
    }
}

impl<F: Read> Counted<F> {
    /// Reads once, into the front of `block`. Each error is a fault, an interruption too.
    pub(crate) fn read(&mut self, block: &mut [u8]) -> Result<usize, FetchFault>
        ensures bound { IfOk result (λ n. n ≤ length block.new) }
        ensures bytes { ReadConsumes (F.remaining self.old.inner) (F.remaining self.new.inner) result block.new }
        ensures never_falls { self.old.faults ≤ self.new.faults }
        ensures failed { OnErr result (RoseTo self.old.faults self.new.faults) }
        ensures kept { OnOk result (self.new.faults ≡ self.old.faults) }
        ensures only { IfErr result (λ fault. fault ≡ FetchFault.Failed) }
    {
        match self.inner.read(block) {
            Ok(n) => Ok(n),
            Err(_) => {
                self.count_fault();
                Err(FetchFault::Failed)
            }
        }
    }
}

impl<F: Seek> Counted<F> {
    ghost use Rattle.nk_host.specs.CountedStream.{faults_of, stream_of};

    /// How many bytes the stream has in all; it stands at its end then. What has no end to go to, as a
    /// pipe, is a fault.
    pub fn size(&mut self) -> Result<u64, PieceFault>
        ensures whole { IfSome (F.stream_position (stream_of self.old))
            (λ _. IfOk result (HasLength (F.stream_bytes (stream_of self.old)))) }
        ensures never_falls { faults_of self.old ≤ faults_of self.new }
        ensures failed { OnErr result (RoseTo (faults_of self.old) (faults_of self.new)) }
        ensures kept { OnOk result (faults_of self.new ≡ faults_of self.old) }
        ensures only { IfErr result (λ fault. fault ≡ PieceFault.Failed) }
    {
        match self.inner.seek(SeekFrom::End(0)) {
            Ok(n) => Ok(n),
            Err(_) => {
                self.count_fault();
                Err(PieceFault::Failed)
            }
        }
    }

    /// Moves the stream to place `at`; its first byte has place 0. Whether there is a byte there isn't
    /// asked.
    pub fn go_to(&mut self, at: u64) -> Result<(), PieceFault>
        ensures there { MovesTo (F.stream_position (stream_of self.old)) (F.stream_position (stream_of self.new)) at result }
        ensures never_falls { faults_of self.old ≤ faults_of self.new }
        ensures failed { OnErr result (RoseTo (faults_of self.old) (faults_of self.new)) }
        ensures kept { OnOk result (faults_of self.new ≡ faults_of self.old) }
        ensures only { IfErr result (λ fault. fault ≡ PieceFault.Failed) }
    {
        match self.inner.seek(SeekFrom::Start(at)) {
            Ok(_) => Ok(()),
            Err(_) => {
                self.count_fault();
                Err(PieceFault::Failed)
            }
        }
    }
}

impl<W: Write> Counted<W> {
    /// Writes once, from the front of `bytes`. Each error is a fault, an interruption too, and so is
    /// a write that takes no byte.
    pub(crate) fn write(&mut self, bytes: &[u8]) -> Result<usize, SinkFault>
        requires { 0 < length bytes.now }
        ensures some { IfOk result (λ n. 0 < n) }
        ensures bound { IfOk result (λ n. n ≤ length bytes.now) }
        ensures ok { IfOk result
            (λ n. Appends (W.contents self.old.inner) (W.contents self.new.inner) (take n bytes.now)) }
        ensures err { OnErr result (Appends (W.contents self.old.inner) (W.contents self.new.inner) []) }
        ensures never_falls { self.old.faults ≤ self.new.faults }
        ensures failed { OnErr result (RoseTo self.old.faults self.new.faults) }
        ensures kept { OnOk result (self.new.faults ≡ self.old.faults) }
    {
        match self.inner.write(bytes) {
            Ok(n) if n > 0 => Ok(n),
            _ => {
                self.count_fault();
                Err(SinkFault)
            }
        }
    }
}

impl<W: Write> Sink for Counted<W> {
    ghost use Rattle.nk_host.specs.CountedStream.{faults_of, stream_of};

    ghost taken = { λ s. W.contents (stream_of s) };

    ghost faults = { λ s. faults_of s };

    /// A write that fails, is interrupted, or takes no byte is a fault.
    fn put(&mut self, bytes: &[u8]) -> Result<(), SinkFault> {
        write_whole(self, bytes)
    }
}

impl<F: Read> Source for Counted<F> {
    ghost use Rattle.nk_host.specs.CountedStream.{faults_of, stream_of};

    ghost left = { λ s. F.remaining (stream_of s) };

    ghost faults = { λ s. faults_of s };

    /// A read that fails or is interrupted is a fault.
    fn take(&mut self, block: &mut [u8]) -> Result<usize, SourceFault> {
        match self.read(block) {
            Ok(n) => Ok(n),
            Err(_) => Err(SourceFault),
        }
    }
}
