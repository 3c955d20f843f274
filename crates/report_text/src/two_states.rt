//! The bytes of a region that is audited, before and after a record of the log.
ghost use Rattle.std.specs.Prelude.{◌≡◌, ◌+◌, ◌<◌, ◌≤◌, IfOk, IfSome, length, OnErr, OnOk, replicate, slice_get, take};
ghost use Rattle.std.specs.Io.KnownBytes.{Appends};
ghost use Rattle.nk_host.specs.FaultCounts.{RoseTo};
ghost use Rattle.nk_host.specs.Taken.{AppendsPrefix};
ghost use Rattle.nk_host.specs.TextPuts.{IsTextPut};
ghost use Rattle.proc_audit.specs.ProcessList.{overwritten};
ghost use Rattle.write_log.specs.LogBytes.{HoldsLog, log_in, record_place};
ghost use Rattle.report_text.specs.AuditLines.{audit_end, record_change};

use crate::list_lines::{put_change, put_end};
use nk_host::{Sink, SinkFault};
use phys_mem::PhysMem;
use proc_audit::{Audit, NoMemory};
use std::alloc::Global;
use std::marker::Model;
use write_log::{Log, Noted, Spot, held_log_law};

/// The memory of an audit: the lists in the bytes of a region before a record and after it, and room for the record's
/// bytes. A contract sees the region's bytes.
#[derive(Drop)]
pub struct Auditing {
    before: Audit,
    after: Audit,
    buffer: Vec<u8>,
}

impl Model for Auditing {
    ghost use Rattle.std.specs.Prelude.{◌≡◌, ℕ, List, length, vec_len};

    ghost Value = { List ℕ };

    ghost view = { λ a. a.before };

    ghost invariant = { λ a. (a.after ≡ a.before) × (vec_len a.buffer ≡ length a.before) };
}

impl Auditing {
    /// Of a region of so many bytes, all of them 0.
    pub fn start(alloc: Global, size: u32) -> Result<Auditing, NoMemory>
        ensures bytes { IfOk result (λ it. it ≡ replicate size 0) }
        ensures size { IfOk result (λ it. length it ≡ size) }
    {
        let before = Audit::start(alloc, size)?;
        let after = Audit::start(alloc, size)?;
        let buffer = vec![in alloc; 0; size as usize].map_err(|_| NoMemory)?;
        Ok(Auditing {
            before,
            after,
            buffer,
        })
    }

    /// Writes the lines of a record of the region, and puts its bytes over the region's, also where the sink fails.
    pub(crate) fn put_record<O: Sink>(
        &mut self,
        sink: &mut O,
        mem: &PhysMem,
        log: &Log,
        i: u64,
        spot: Spot,
        it: &Noted,
    ) -> Result<(), SinkFault>
        requires held { HoldsLog log.now mem.now }
        requires number { i < log.now.records }
        requires spot { spot.place ≡ record_place mem.now i }
        requires count { IfSome (slice_get (log_in log.now mem.now) i) (λ of. length of.bytes ≡ it.now.length) }
        requires offset { IfSome (slice_get (log_in log.now mem.now) i) (λ of. of.offset ≡ it.now.offset) }
        requires within { it.now.offset + it.now.length ≤ length self.old }
        ensures never_falls { O.faults sink.old ≤ O.faults sink.new }
        ensures failed { OnErr result (RoseTo (O.faults sink.old) (O.faults sink.new)) }
        ensures all { IfSome (slice_get (log_in log.now mem.now) i) (λ of. OnOk result
            (Appends (O.taken sink.old) (O.taken sink.new)
            (record_change i self.old (overwritten self.old of.offset of.bytes)))) }
        ensures some { IfSome (slice_get (log_in log.now mem.now) i) (λ of. OnErr result
            (AppendsPrefix (O.taken sink.old) (O.taken sink.new)
            (record_change i self.old (overwritten self.old of.offset of.bytes)))) }
        ensures put { IfSome (slice_get (log_in log.now mem.now) i)
            (λ of. self.new ≡ overwritten self.old of.offset of.bytes) }
    {
        read_bytes(&mut self.buffer, mem, log, i, spot, it.length);
        let bytes = &self.buffer[..it.length as usize];
        put_bytes(sink, i, it.offset, bytes, &mut self.before, &mut self.after)
    }

    /// Writes how the list is at the end, behind so many records of the region.
    pub(crate) fn put_end<O: Sink>(&self, sink: &mut O, records: u64) -> Result<(), SinkFault>
        ensures { IsTextPut O.taken O.faults sink.old sink.new (audit_end records self.now) result }
    {
        put_end(sink, records, &self.before)
    }
}

/// Reads the bytes of a record from memory to the front of the buffer.
fn read_bytes(buffer: &mut [u8], mem: &PhysMem, log: &Log, i: u64, spot: Spot, count: u32)
    requires held { HoldsLog log.now mem.now }
    requires number { i < log.now.records }
    requires spot { spot.place ≡ record_place mem.now i }
    requires room { count ≤ length buffer.old }
    requires count { IfSome (slice_get (log_in log.now mem.now) i) (λ of. length of.bytes ≡ count) }
    ensures { IfSome (slice_get (log_in log.now mem.now) i) (λ of. take count buffer.new ≡ of.bytes) }
{
    held_log_law();
    for at in 0..count {
        buffer[at as usize] = log.byte_at(mem, i, spot, at);
    }
}

/// Writes what changes where these bytes are put over the region's, and puts them, also where the sink fails.
fn put_bytes<O: Sink>(
    sink: &mut O,
    number: u64,
    offset: u32,
    bytes: &[u8],
    before: &mut Audit,
    after: &mut Audit,
) -> Result<(), SinkFault>
    requires same { after.old ≡ before.old }
    requires within { offset + length bytes.now ≤ length before.old }
    ensures put { IsTextPut O.taken O.faults sink.old sink.new
        (record_change number before.old (overwritten before.old offset bytes.now)) result }
    ensures before { before.new ≡ overwritten before.old offset bytes.now }
    ensures after { after.new ≡ overwritten before.old offset bytes.now }
    ensures size { length before.new ≡ length before.old }
{
    after.apply(offset, bytes);
    let put = put_change(sink, number, before, after);
    before.apply(offset, bytes);
    put
}
