//! The lines of the ledger: the regions that live, with their bytes, and the records of the log. Bytes may be many, so
//! that these lines go out in pieces.
ghost use Rattle.std.specs.Prelude.{◌≡◌, ◌<◌, ◌≤◌, ◌+◌, ◌*◌, ◌++◌, All, IfSome, IsSome, codes, decimal};
ghost use Rattle.std.specs.Prelude.{length, map, slice_get, OnErr, OnOk};
ghost use Rattle.std.specs.List.{range_with_len};
ghost use Rattle.std.specs.Io.KnownBytes.{Appends};
ghost use Rattle.hex.specs.Hex.{encode_lower};
ghost use Rattle.nk_host.specs.FaultCounts.{RoseTo};
ghost use Rattle.nk_host.specs.PiecesOut.{MovedOn};
ghost use Rattle.nk_host.specs.Taken.{AppendsPrefix};
ghost use Rattle.nk_host.specs.TextPuts.{IsTextPut};
ghost use Rattle.phys_mem.specs.Memory.{byte_at};
ghost use Rattle.region_book.specs.RegionBytes.{HoldsRegions, book_in};
ghost use Rattle.region_book.specs.RegionRecords.{IsBook, byte_place, region_of};
ghost use Rattle.write_log.specs.LogBytes.{HoldsLog, log_in, record_place};
ghost use Rattle.nk_body.specs.NestedRecord.{HoldsBooks, nested_held};
ghost use Rattle.report_text.specs.ClosingSection.{bytes_of_region, log_lines, region_lines};
ghost use Rattle.report_text.specs.RunLines.{hex_16, log_line, region_line};

use crate::words::{put, put_16, put_decimal};
use nk_body::Kernel;
use nk_host::{Pieces, Sink, SinkFault, pieces_law};
use page_desc::held_tables_law;
use phys_mem::{PhysMem, mask_law};
use region_book::{Region, Regions};
use write_log::{Log, Noted, Spot, held_log_law};

/// Writes the regions that live, and the log.
pub(crate) fn put_ledger<O: Sink>(
    sink: &mut O,
    mem: &PhysMem,
    kernel: &Kernel,
) -> Result<(), SinkFault>
    requires { HoldsBooks kernel.now mem.now }
    ensures { let nk = nested_held kernel.now mem.now in
        IsTextPut O.taken O.faults sink.old sink.new
        (region_lines (bytes_of_region nk) nk.ledger.book.regions ++ log_lines 0 nk.ledger.log) result }
{
    match put_regions(sink, mem, kernel) {
        Ok(()) => put_log(sink, mem, kernel.log()),
        Err(fault) => Err(fault),
    }
}

/// Writes the regions that live.
fn put_regions<O: Sink>(sink: &mut O, mem: &PhysMem, kernel: &Kernel) -> Result<(), SinkFault>
    requires { HoldsBooks kernel.now mem.now }
    ensures { let nk = nested_held kernel.now mem.now in
        IsTextPut O.taken O.faults sink.old sink.new
        (region_lines (bytes_of_region nk) nk.ledger.book.regions) result }
{
    held_tables_law();
    mask_law();
    let regions = kernel.regions();
    for i in 0..regions.count() {
        if let Err(fault) = put_region(sink, regions, mem, i) {
            return Err(fault);
        }
    }
    Ok(())
}

/// Writes a region that lives, by its place in the order of identifiers.
fn put_region<O: Sink>(
    sink: &mut O,
    regions: &Regions,
    mem: &PhysMem,
    i: usize,
) -> Result<(), SinkFault>
    requires held { HoldsRegions regions.now mem.now }
    requires number { i < length (book_in regions.now mem.now).regions }
    requires book { IsBook (book_in regions.now mem.now) }
    requires frames { All (λ r. All (λ f. 4096 * f + 4096 ≤ length mem.now) r.frames)
        (book_in regions.now mem.now).regions }
    ensures never_falls { O.faults sink.old ≤ O.faults sink.new }
    ensures failed { OnErr result (RoseTo (O.faults sink.old) (O.faults sink.new)) }
    ensures all { IfSome (slice_get (book_in regions.now mem.now).regions i) (λ r. OnOk result
        (Appends (O.taken sink.old) (O.taken sink.new)
        (region_line r (map (λ o. byte_at mem.now (byte_place r o)) (range_with_len 0 r.size))))) }
    ensures some { IfSome (slice_get (book_in regions.now mem.now).regions i) (λ r. OnErr result
        (AppendsPrefix (O.taken sink.old) (O.taken sink.new)
        (region_line r (map (λ o. byte_at mem.now (byte_place r o)) (range_with_len 0 r.size))))) }
{
    pieces_law();
    let region = regions.nth(mem, i);
    let mut pieces = Pieces::new();
    if let Err(fault) = pieces.push_all(sink, region_head(&mut [0; REGION_HEAD], &region)) {
        return Err(fault);
    }
    if let Err(fault) = take_region(&mut pieces, sink, regions, mem, &region) {
        return Err(fault);
    }
    if let Err(fault) = pieces.push(sink, b'\n') {
        return Err(fault);
    }
    pieces.finish(sink)
}

/// Takes up the bytes of a region, each as two hexadecimal digits.
fn take_region<O: Sink>(
    pieces: &mut Pieces,
    sink: &mut O,
    regions: &Regions,
    mem: &PhysMem,
    region: &Region,
) -> Result<(), SinkFault>
    requires held { HoldsRegions regions.now mem.now }
    requires book { IsBook (book_in regions.now mem.now) }
    requires live { IsSome (region_of (book_in regions.now mem.now) region.now.id) }
    requires size { IfSome (region_of (book_in regions.now mem.now) region.now.id) (λ r. r.size ≡ region.now.size) }
    requires frames { IfSome (region_of (book_in regions.now mem.now) region.now.id)
        (λ r. All (λ f. 4096 * f + 4096 ≤ length mem.now) r.frames) }
    ensures never_falls { O.faults sink.old ≤ O.faults sink.new }
    ensures failed { OnErr result (RoseTo (O.faults sink.old) (O.faults sink.new)) }
    ensures moved { IfSome (region_of (book_in regions.now mem.now) region.now.id) (λ r. OnOk result
        (MovedOn (O.taken sink.old) (O.taken sink.new) pieces.old pieces.new
        (encode_lower (map (λ o. byte_at mem.now (byte_place r o)) (range_with_len 0 r.size))))) }
    ensures cut { IfSome (region_of (book_in regions.now mem.now) region.now.id) (λ r. OnErr result
        (AppendsPrefix (O.taken sink.old) (O.taken sink.new)
        (pieces.old ++ encode_lower (map (λ o. byte_at mem.now (byte_place r o)) (range_with_len 0 r.size))))) }
{
    pieces_law();
    for offset in 0..region.size {
        let byte = regions.byte(mem, region.id, offset);
        if let Err(fault) = pieces.push_hex(sink, byte) {
            return Err(fault);
        }
    }
    Ok(())
}

/// The most bytes of a region's line before its bytes: `r`, two numbers of twenty digits, a place of sixteen and
/// another number, each before a space.
const REGION_HEAD: usize = 82;

/// The line of a region up to its bytes, at the end of the room. It is put there from its last word to its first.
fn region_head<'a>(room: &'a mut [u8; REGION_HEAD], region: &Region) -> &'a [u8]
    ensures { result.now ≡ codes "r " ++ (decimal region.now.id ++ (codes " "
        ++ (decimal region.now.policy ++ (codes " " ++ (hex_16 region.now.place ++ (codes " "
        ++ (decimal region.now.size ++ codes " "))))))) }
{
    room[REGION_HEAD - 1] = b' ';
    let size = put_decimal(room, REGION_HEAD - 1, u64::from(region.size));
    let first_end = put(room, size, b" ");
    let first = put_16(room, first_end, region.place);
    let policy_end = put(room, first, b" ");
    let policy = put_decimal(room, policy_end, u64::from(region.policy));
    let id_end = put(room, policy, b" ");
    let id = put_decimal(room, id_end, region.id);
    let start = put(room, id, b"r ");
    room.split_at(start).1
}

/// Writes the records of the log.
fn put_log<O: Sink>(sink: &mut O, mem: &PhysMem, log: &Log) -> Result<(), SinkFault>
    requires { HoldsLog log.now mem.now }
    ensures { IsTextPut O.taken O.faults sink.old sink.new (log_lines 0 (log_in log.now mem.now)) result }
{
    held_log_law();
    let mut spot = log.first();
    for i in 0..log.len() {
        if let Err(fault) = put_record(sink, mem, log, i, spot) {
            return Err(fault);
        }
        spot = log.next(mem, i, spot);
    }
    Ok(())
}

/// Writes a record of the log, by its number and where it stands.
fn put_record<O: Sink>(
    sink: &mut O,
    mem: &PhysMem,
    log: &Log,
    i: u64,
    spot: Spot,
) -> Result<(), SinkFault>
    requires held { HoldsLog log.now mem.now }
    requires number { i < log.now.records }
    requires spot { spot.place ≡ record_place mem.now i }
    ensures never_falls { O.faults sink.old ≤ O.faults sink.new }
    ensures failed { OnErr result (RoseTo (O.faults sink.old) (O.faults sink.new)) }
    ensures all { IfSome (slice_get (log_in log.now mem.now) i) (λ it. OnOk result
        (Appends (O.taken sink.old) (O.taken sink.new) (log_line i it))) }
    ensures some { IfSome (slice_get (log_in log.now mem.now) i) (λ it. OnErr result
        (AppendsPrefix (O.taken sink.old) (O.taken sink.new) (log_line i it))) }
{
    held_log_law();
    pieces_law();
    let it = log.entry_at(mem, i, spot);
    let mut pieces = Pieces::new();
    if let Err(fault) = pieces.push_all(sink, record_head(&mut [0; RECORD_HEAD], i, &it)) {
        return Err(fault);
    }
    if let Err(fault) = take_record(&mut pieces, sink, mem, log, i, spot, &it) {
        return Err(fault);
    }
    if let Err(fault) = pieces.push(sink, b'\n') {
        return Err(fault);
    }
    pieces.finish(sink)
}

/// Takes up the bytes of a record, each as two hexadecimal digits.
fn take_record<O: Sink>(
    pieces: &mut Pieces,
    sink: &mut O,
    mem: &PhysMem,
    log: &Log,
    i: u64,
    spot: Spot,
    it: &Noted,
) -> Result<(), SinkFault>
    requires held { HoldsLog log.now mem.now }
    requires number { i < log.now.records }
    requires spot { spot.place ≡ record_place mem.now i }
    requires count { IfSome (slice_get (log_in log.now mem.now) i) (λ of. length of.bytes ≡ it.now.length) }
    ensures never_falls { O.faults sink.old ≤ O.faults sink.new }
    ensures failed { OnErr result (RoseTo (O.faults sink.old) (O.faults sink.new)) }
    ensures moved { IfSome (slice_get (log_in log.now mem.now) i) (λ of. OnOk result
        (MovedOn (O.taken sink.old) (O.taken sink.new) pieces.old pieces.new (encode_lower of.bytes))) }
    ensures cut { IfSome (slice_get (log_in log.now mem.now) i) (λ of. OnErr result
        (AppendsPrefix (O.taken sink.old) (O.taken sink.new) (pieces.old ++ encode_lower of.bytes))) }
{
    held_log_law();
    pieces_law();
    for at in 0..it.length {
        let byte = log.byte_at(mem, i, spot, at);
        if let Err(fault) = pieces.push_hex(sink, byte) {
            return Err(fault);
        }
    }
    Ok(())
}

/// The most bytes of a record's line before its bytes: `l`, and three numbers of twenty digits, each before a space.
const RECORD_HEAD: usize = 65;

/// The line of a record up to its bytes, at the end of the room.
fn record_head<'a>(room: &'a mut [u8; RECORD_HEAD], number: u64, it: &Noted) -> &'a [u8]
    ensures { result.now ≡ codes "l " ++ (decimal number ++ (codes " " ++ (decimal it.now.region ++ (codes " "
        ++ (decimal it.now.offset ++ codes " "))))) }
{
    room[RECORD_HEAD - 1] = b' ';
    let offset = put_decimal(room, RECORD_HEAD - 1, u64::from(it.offset));
    let region_end = put(room, offset, b" ");
    let region = put_decimal(room, region_end, it.region);
    let number_end = put(room, region, b" ");
    let digits = put_decimal(room, number_end, number);
    let start = put(room, digits, b"l ");
    room.split_at(start).1
}
