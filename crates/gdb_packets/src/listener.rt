//! A source of packets: its bytes one by one, and the next packet in them.

ghost use Rattle.std.specs.Prelude.{◌≡◌, ◌≤◌, [], IfOk, OnErr, OnOk};
ghost use Rattle.nk_host.specs.FaultCounts.{RoseTo};

use circular_buffer::HeapCircularBuffer;
use nk_host::{NoMemory, Source, SourceFault};
use std::alloc::Global;

/// How many bytes are taken from the source at once.
const BLOCK: usize = 4096;

/// A source, and those of its bytes that were taken and wait.
#[derive(Drop)]
pub struct Listener<S> {
    source: S,
    waiting: HeapCircularBuffer<u8>,
    ghost room: { waiting.capacity ≡ 4096 },
}

impl<S: Source + Drop> Listener<S> {
    ghost use Rattle.gdb_packets.specs.BytesHeard.{AreTaken, IsByteHeard, left_of, listener_source};

    /// A source of which no byte was taken.
    pub fn new(alloc: Global, source: S) -> Result<Listener<S>, NoMemory>
        ensures left { IfOk result (λ it. left_of S.left it ≡ S.left source) }
        ensures source { IfOk result (λ it. listener_source it ≡ source) }
    {
        match HeapCircularBuffer::with_capacity(alloc, BLOCK) {
            Ok(waiting) => Ok(Listener { source, waiting }),
            Err(_) => Err(NoMemory),
        }
    }

    /// Takes bytes from the source, where none waits.
    fn fill(&mut self) -> Result<(), SourceFault>
        requires { self.old.waiting.items ≡ [] }
        ensures never_falls { S.faults self.old.source ≤ S.faults self.new.source }
        ensures failed { OnErr result (RoseTo (S.faults self.old.source) (S.faults self.new.source)) }
        ensures kept { OnOk result (S.faults self.new.source ≡ S.faults self.old.source) }
        ensures filled { OnOk result (AreTaken (S.left self.old.source) (S.left self.new.source) self.new.waiting.items) }
    {
        let mut block = [0; BLOCK];
        let count = self.source.take(&mut block)?;
        let _count = self.waiting.fill_from_slice(&block[..count]);
        Ok(())
    }

    /// The next byte, if there is one.
    pub(crate) fn next_byte(&mut self) -> Result<Option<u8>, SourceFault>
        ensures never_falls { S.faults self.old.source ≤ S.faults self.new.source }
        ensures failed { OnErr result (RoseTo (S.faults self.old.source) (S.faults self.new.source)) }
        ensures kept { OnOk result (S.faults self.new.source ≡ S.faults self.old.source) }
        ensures byte { IfOk result (IsByteHeard (left_of S.left self.old) (left_of S.left self.new)) }
    {
        if let Some(byte) = self.waiting.pop_front() {
            return Ok(Some(byte));
        }
        match self.fill() {
            Ok(()) => Ok(self.waiting.pop_front()),
            Err(fault) => Err(fault),
        }
    }
}
