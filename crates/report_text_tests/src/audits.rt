//! Audits of writes, over a sink in memory. The region that is audited is 256.

ghost use Rattle.std.specs.Prelude.{◌+◌, ◌≤◌, length};
ghost use Rattle.std.specs.List.{Contains};
ghost use Rattle.write_log.specs.LogBytes.{HoldsLog, log_in};
ghost use Rattle.write_log.specs.LogRecords.{LogRecord};

use nk_host::{MemSink, SinkFault};
use phys_mem::PhysMem;
use report_text::{Auditing, audit};
use std::alloc::Global;
use write_log::Log;

/// An accepted write.
#[derive(Clone, Copy)]
pub(crate) struct Write<'a> {
    pub(crate) region: u64,
    pub(crate) offset: u32,
    pub(crate) bytes: &'a [u8],
}

/// Logs the write if it lies within so many bytes, and there is room for it.
fn add(log: &mut Log, mem: &mut PhysMem, size: u32, it: &Write)
    requires held { HoldsLog log.old mem.old }
    requires within { (it : LogRecord) → Contains (log_in log.old mem.old) it → it.offset + length it.bytes ≤ size }
    ensures held { HoldsLog log.new mem.new }
    ensures within { (it : LogRecord) → Contains (log_in log.new mem.new) it → it.offset + length it.bytes ≤ size }
{
    let count = it.bytes.len() as u64;
    if u64::from(it.offset) + count > u64::from(size) {
        return;
    }
    if 24 + count > log.room() {
        return;
    }
    log.add(mem, it.region, it.offset, it.bytes);
}

/// Writes the audit behind these writes to a region of so many bytes; None for want of memory, or where one isn't logged.
pub(crate) fn audited(
    alloc: Global,
    size: u32,
    writes: &[Write],
    sink: &mut MemSink,
) -> Option<Result<(), SinkFault>> {
    let Ok(mut mem) = PhysMem::new(alloc, 64) else {
        return None;
    };
    let mut log = Log::start(&mut mem);
    for it in writes {
        add(&mut log, &mut mem, size, it);
    }
    if log.len() != writes.len() as u64 {
        return None;
    }
    let Ok(mut auditing) = Auditing::start(alloc, size) else {
        return None;
    };
    Some(audit(sink, &mem, &log, 256, &mut auditing))
}
