//! The text of an audit: what each record of a region's log changes for the list of processes in the region's bytes, and
//! how the list is after the last.
ghost use Rattle.std.specs.Prelude.{◌≡◌, ◌+◌, ◌<◌, ◌≤◌, IfSome, length, OnErr, OnOk, replicate, slice_get};
ghost use Rattle.std.specs.Io.KnownBytes.{Appends};
ghost use Rattle.std.specs.List.{Contains};
ghost use Rattle.nk_host.specs.FaultCounts.{RoseTo};
ghost use Rattle.nk_host.specs.Taken.{AppendsPrefix};
ghost use Rattle.nk_host.specs.TextPuts.{IsTextPut};
ghost use Rattle.write_log.specs.LogBytes.{HoldsLog, log_in, record_place};
ghost use Rattle.write_log.specs.LogRecords.{LogRecord};
ghost use Rattle.report_text.specs.AuditLines.{
  after_record,
  audit_lines,
  audit_text,
  audited,
  record_lines,
  region_records,
};

use crate::two_states::Auditing;
use nk_host::{Sink, SinkFault};
use phys_mem::PhysMem;
use write_log::{Log, Spot, held_log_law};

/// Writes the audit of the region of this identifier. `auditing` is of the region's size and its bytes are 0; after a
/// fault it isn't gone on with. A record takes time linear in the region's slots and in its own bytes.
pub fn audit<O: Sink>(
    sink: &mut O,
    mem: &PhysMem,
    log: &Log,
    id: u64,
    auditing: &mut Auditing,
) -> Result<(), SinkFault>
    requires held { HoldsLog log.now mem.now }
    requires within { (it : LogRecord) → Contains (log_in log.now mem.now) it → it.region ≡ id
        → it.offset + length it.bytes ≤ length auditing.old }
    requires fresh { auditing.old ≡ replicate (length auditing.old) 0 }
    ensures put { IsTextPut O.taken O.faults sink.old sink.new
        (audit_text id (length auditing.old) (log_in log.now mem.now)) result }
    ensures told { OnOk result (auditing.new ≡ audited id auditing.old (log_in log.now mem.now)) }
{
    match put_records(sink, mem, log, id, auditing) {
        Ok(()) => auditing.put_end(sink, count_records(mem, log, id)),
        Err(fault) => Err(fault),
    }
}

/// Writes the lines of the records, each with its number in the whole log.
fn put_records<O: Sink>(
    sink: &mut O,
    mem: &PhysMem,
    log: &Log,
    id: u64,
    auditing: &mut Auditing,
) -> Result<(), SinkFault>
    requires held { HoldsLog log.now mem.now }
    requires within { (it : LogRecord) → Contains (log_in log.now mem.now) it → it.region ≡ id
        → it.offset + length it.bytes ≤ length auditing.old }
    ensures put { IsTextPut O.taken O.faults sink.old sink.new
        (audit_lines id 0 auditing.old (log_in log.now mem.now)) result }
    ensures told { OnOk result (auditing.new ≡ audited id auditing.old (log_in log.now mem.now)) }
{
    held_log_law();
    let mut spot = log.first();
    for i in 0..log.len() {
        if let Err(fault) = put_record(sink, mem, log, i, spot, id, auditing) {
            return Err(fault);
        }
        spot = log.next(mem, i, spot);
    }
    Ok(())
}

/// Writes the lines of a record, by its number and where it stands; none where it is of another region.
fn put_record<O: Sink>(
    sink: &mut O,
    mem: &PhysMem,
    log: &Log,
    i: u64,
    spot: Spot,
    id: u64,
    auditing: &mut Auditing,
) -> Result<(), SinkFault>
    requires held { HoldsLog log.now mem.now }
    requires number { i < log.now.records }
    requires spot { spot.place ≡ record_place mem.now i }
    requires within { IfSome (slice_get (log_in log.now mem.now) i) (λ it. it.region ≡ id
        → it.offset + length it.bytes ≤ length auditing.old) }
    ensures never_falls { O.faults sink.old ≤ O.faults sink.new }
    ensures failed { OnErr result (RoseTo (O.faults sink.old) (O.faults sink.new)) }
    ensures all { IfSome (slice_get (log_in log.now mem.now) i) (λ it. OnOk result
        (Appends (O.taken sink.old) (O.taken sink.new) (record_lines id i auditing.old it))) }
    ensures some { IfSome (slice_get (log_in log.now mem.now) i) (λ it. OnErr result
        (AppendsPrefix (O.taken sink.old) (O.taken sink.new) (record_lines id i auditing.old it))) }
    ensures put { IfSome (slice_get (log_in log.now mem.now) i)
        (λ it. auditing.new ≡ after_record id auditing.old it) }
{
    held_log_law();
    let it = log.entry_at(mem, i, spot);
    if it.region == id {
        auditing.put_record(sink, mem, log, i, spot, &it)
    } else {
        Ok(())
    }
}

/// How many records are of the region.
fn count_records(mem: &PhysMem, log: &Log, id: u64) -> u64
    requires { HoldsLog log.now mem.now }
    ensures { result ≡ region_records id (log_in log.now mem.now) }
{
    held_log_law();
    let mut count = 0;
    let mut spot = log.first();
    for i in 0..log.len() {
        count += u64::from(log.entry_at(mem, i, spot).region == id);
        spot = log.next(mem, i, spot);
    }
    count
}
