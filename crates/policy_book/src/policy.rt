//! Writing in a region.

ghost use Rattle.std.specs.Prelude.{◌≡◌, ◌≢◌, ◌==◌, ℕ, ◌+◌, ◌*◌, ◌/◌, ◌<◌, ◌≤◌, All, false, IfNone, IfOk, IfSome, OnErr, OnOk, None, Some, length, slice_get, true};
ghost use Rattle.std.specs.Option.{option_map};
ghost use Rattle.phys_mem.specs.MaskedMemory.{is_book_frame, seen};
ghost use Rattle.phys_mem.specs.Memory.{byte_at, stored};
ghost use Rattle.nk_bits.specs.Rules.{rule_of};
ghost use Rattle.policy_book.specs.PolicyRules.{book_by, book_written, is_logged, log_written, policy_of, stores_by, stores_written, write_rule};
ghost use Rattle.region_book.specs.RegionBytes.{HoldsRegions, book_in};
ghost use Rattle.region_book.specs.RegionCalls.{fits_region};
ghost use Rattle.region_book.specs.RegionRecords.{IsBook, byte_place, region_of, shown_region};
ghost use Rattle.write_log.specs.LogBytes.{HoldsLog, log_in};
ghost use Rattle.write_log.specs.LogRecords.{logged, room_of};

use nk_bits::Rule;
use phys_mem::PhysMem;
use region_book::{Region, Regions, apart_law, held_regions_law};
use write_log::{Log, held_log_law};

const WRITE_ONCE: u8 = 1;

const APPEND_ONLY: u8 = 2;

const NO_WRITE: u8 = 3;

const WRITE_LOG: u8 = 4;

/// How many bytes of the log a record takes beside its own.
const RECORD: u64 = 24;

/// A live region that was found.
#[derive(Clone, Copy)]
struct Live {
    /// Its place in the order of identifiers.
    at: usize,
    region: Region,
}

/// Writes bytes in the live region of an identifier, from an offset on, where its policy admits that. All other live regions
/// keep their bytes.
pub fn write(
    regions: &mut Regions,
    log: &mut Log,
    mem: &mut PhysMem,
    id: u64,
    offset: u64,
    bytes: &[u8],
) -> Result<(), Rule>
    requires held { HoldsRegions regions.old mem.old }
    requires held_log { HoldsLog log.old mem.old }
    requires book { IsBook (book_in regions.old mem.old) }
    requires frames { IfSome (region_of (book_in regions.old mem.old) id) (λ r. All (λ f. 4096 * f + 4096 ≤ length mem.old) r.frames) }
    requires apart { IfSome (region_of (book_in regions.old mem.old) id)
        (λ r. All (λ f. is_book_frame (length mem.old / 4096) f ≡ false) r.frames) }
    ensures judged { rule_of result ≡ write_rule (book_in regions.old mem.old) (log_in log.old mem.old) id offset (length bytes.now) }
    ensures refused { OnErr result ((regions.new ≡ regions.old) × (log.new ≡ log.old) × (mem.new ≡ mem.old)) }
    ensures book { OnOk result (book_in regions.new mem.new ≡ book_written (book_in regions.old mem.old) id offset (length bytes.now)) }
    ensures log { OnOk result (log_in log.new mem.new
        ≡ log_written (book_in regions.old mem.old) (log_in log.old mem.old) id offset bytes.now) }
    ensures memory { OnOk result (seen mem.new ≡ stored (seen mem.old) (stores_written (book_in regions.old mem.old) id offset bytes.now)) }
    ensures others { (other b : ℕ) → id ≢ other → IfSome (region_of (book_in regions.old mem.old) other) (λ q. b < q.size
        → byte_at (seen mem.new) (byte_place q b) ≡ byte_at (seen mem.old) (byte_place q b)) }
    ensures held { HoldsRegions regions.new mem.new }
    ensures held_log { HoldsLog log.new mem.new }
    ensures descriptors { (p : ℕ) → 0x40000 ≤ p → is_book_frame (length mem.old / 4096) (p / 4096) ≡ true
        → byte_at mem.new p ≡ byte_at mem.old p }
    ensures unlogged { is_logged (region_of (book_in regions.old mem.old) id) ≡ false → (p : ℕ) → 0x1A000 ≤ p → p < 0x2A000
        → byte_at mem.new p ≡ byte_at mem.old p }
    ensures size { length mem.new ≡ length mem.old }
    ensures sound { IsBook (book_in regions.new mem.new) }
{
    apart_law();
    match judge(regions, log, mem, id, offset, bytes.len() as u64) {
        Ok(live) => {
            put(regions, log, mem, id, &live, offset as u32, bytes);
            Ok(())
        }
        Err(rule) => Err(rule),
    }
}

/// The live region that has an identifier, found once for all that is asked of it.
fn find(regions: &Regions, mem: &PhysMem, id: u64) -> Option<Live>
    requires held { HoldsRegions regions.now mem.now }
    ensures none { IfNone result (region_of (book_in regions.now mem.now) id ≡ None) }
    ensures some { IfSome result (λ live. (live.at < length regions.now.slots)
        × (region_of (book_in regions.now mem.now) id ≡ slice_get (book_in regions.now mem.now).regions live.at)
        × (option_map shown_region (region_of (book_in regions.now mem.now) id) ≡ Some live.region)) }
{
    match regions.position(mem, id) {
        Some(at) => Some(Live {
            at,
            region: regions.nth(mem, at),
        }),
        None => None,
    }
}

/// The region that is written, or the first rule that the write of so many bytes breaks.
fn judge(
    regions: &Regions,
    log: &Log,
    mem: &PhysMem,
    id: u64,
    offset: u64,
    count: u64,
) -> Result<Live, Rule>
    requires held { HoldsRegions regions.now mem.now }
    requires held_log { HoldsLog log.now mem.now }
    ensures judged { rule_of result ≡ write_rule (book_in regions.now mem.now) (log_in log.now mem.now) id offset count }
    ensures found { IfOk result (λ live. (live.at < length regions.now.slots)
        × (region_of (book_in regions.now mem.now) id ≡ slice_get (book_in regions.now mem.now).regions live.at)
        × (option_map shown_region (region_of (book_in regions.now mem.now) id) ≡ Some live.region)) }
{
    let Some(live) = find(regions, mem, id) else {
        return Err(Rule::BadRegion);
    };
    if !live.region.fits(offset, count) {
        return Err(Rule::OutOfBounds);
    }
    match judge_policy(regions, log, mem, &live, offset as u32, count as u32) {
        Some(rule) => Err(rule),
        None => Ok(live),
    }
}

/// The first rule of its policy that a write in a region breaks, whose range lies in it.
fn judge_policy(
    regions: &Regions,
    log: &Log,
    mem: &PhysMem,
    live: &Live,
    offset: u32,
    count: u32,
) -> Option<Rule>
    requires held { HoldsRegions regions.now mem.now }
    requires held_log { HoldsLog log.now mem.now }
    requires number { live.now.at < length regions.now.slots }
    requires found { option_map shown_region (slice_get (book_in regions.now mem.now).regions live.now.at) ≡ Some live.now.region }
    requires fits { fits_region (slice_get (book_in regions.now mem.now).regions live.now.at) offset count ≡ true }
    ensures { result ≡ policy_of (log_in log.now mem.now) (slice_get (book_in regions.now mem.now).regions live.now.at) offset count }
{
    match live.region.policy {
        WRITE_ONCE => regions
            .written_at(mem, live.at, offset, count)
            .then_some(Rule::WrittenOnce),
        APPEND_ONLY => (offset != live.region.tail).then_some(Rule::NotAtEnd),
        NO_WRITE => Some(Rule::NoWrite),
        WRITE_LOG => (RECORD + u64::from(count) > log.room()).then_some(Rule::LogFull),
        _ => None,
    }
}

/// Whether a region's writes are logged.
fn is_logged(region: &Region) -> bool
    ensures { result ≡ (region.now.policy == 4) }
{
    region.policy == WRITE_LOG
}

/// Makes a write that breaks no rule.
fn put(
    regions: &mut Regions,
    log: &mut Log,
    mem: &mut PhysMem,
    id: u64,
    live: &Live,
    offset: u32,
    bytes: &[u8],
)
    requires held { HoldsRegions regions.old mem.old }
    requires held_log { HoldsLog log.old mem.old }
    requires book { IsBook (book_in regions.old mem.old) }
    requires frames { IfSome (region_of (book_in regions.old mem.old) id) (λ r. All (λ f. 4096 * f + 4096 ≤ length mem.old) r.frames) }
    requires apart { IfSome (region_of (book_in regions.old mem.old) id)
        (λ r. All (λ f. is_book_frame (length mem.old / 4096) f ≡ false) r.frames) }
    requires judged { write_rule (book_in regions.old mem.old) (log_in log.old mem.old) id offset (length bytes.now) ≡ None }
    requires found { (live.now.at < length regions.old.slots)
        × (region_of (book_in regions.old mem.old) id ≡ slice_get (book_in regions.old mem.old).regions live.now.at)
        × (option_map shown_region (region_of (book_in regions.old mem.old) id) ≡ Some live.now.region) }
    ensures book { book_in regions.new mem.new ≡ book_written (book_in regions.old mem.old) id offset (length bytes.now) }
    ensures log { log_in log.new mem.new ≡ log_written (book_in regions.old mem.old) (log_in log.old mem.old) id offset bytes.now }
    ensures memory { seen mem.new ≡ stored (seen mem.old) (stores_written (book_in regions.old mem.old) id offset bytes.now) }
    ensures held { HoldsRegions regions.new mem.new }
    ensures held_log { HoldsLog log.new mem.new }
    ensures descriptors { (p : ℕ) → 0x40000 ≤ p → is_book_frame (length mem.old / 4096) (p / 4096) ≡ true
        → byte_at mem.new p ≡ byte_at mem.old p }
    ensures unlogged { is_logged (region_of (book_in regions.old mem.old) id) ≡ false → (p : ℕ) → 0x1A000 ≤ p → p < 0x2A000
        → byte_at mem.new p ≡ byte_at mem.old p }
    ensures size { length mem.new ≡ length mem.old }
    ensures sound { IsBook (book_in regions.new mem.new) }
{
    mark(regions, log, mem, live.at, offset, bytes);
    if is_logged(&live.region) {
        note(regions, log, mem, id, offset, bytes);
    }
}

/// Writes bytes in the live region at a place of the order, within its size; the log stays.
fn mark(regions: &mut Regions, log: &Log, mem: &mut PhysMem, at: usize, offset: u32, bytes: &[u8])
    requires held { HoldsRegions regions.old mem.old }
    requires held_log { HoldsLog log.now mem.old }
    requires book { IsBook (book_in regions.old mem.old) }
    requires number { at < length regions.old.slots }
    requires fits { fits_region (slice_get (book_in regions.old mem.old).regions at) offset (length bytes.now) ≡ true }
    requires frames { IfSome (slice_get (book_in regions.old mem.old).regions at) (λ r. All (λ f. 4096 * f + 4096 ≤ length mem.old) r.frames) }
    requires apart { IfSome (slice_get (book_in regions.old mem.old).regions at)
        (λ r. All (λ f. is_book_frame (length mem.old / 4096) f ≡ false) r.frames) }
    ensures book { book_in regions.new mem.new ≡ book_by (book_in regions.old mem.old)
        (slice_get (book_in regions.old mem.old).regions at) offset (length bytes.now) }
    ensures memory { seen mem.new ≡ stored (seen mem.old) (stores_by (slice_get (book_in regions.old mem.old).regions at) offset bytes.now) }
    ensures log { log_in log.now mem.new ≡ log_in log.now mem.old }
    ensures held { HoldsRegions regions.new mem.new }
    ensures held_log { HoldsLog log.now mem.new }
    ensures descriptors { (p : ℕ) → 0x40000 ≤ p → is_book_frame (length mem.old / 4096) (p / 4096) ≡ true
        → byte_at mem.new p ≡ byte_at mem.old p }
    ensures logs { (p : ℕ) → 0x1A000 ≤ p → p < 0x2A000 → byte_at mem.new p ≡ byte_at mem.old p }
    ensures size { length mem.new ≡ length mem.old }
    ensures sound { IsBook (book_in regions.new mem.new) }
{
    held_log_law();
    regions.mark_at(mem, at, offset, bytes);
}

/// Adds a record to the log; the regions stay.
fn note(regions: &Regions, log: &mut Log, mem: &mut PhysMem, id: u64, offset: u32, bytes: &[u8])
    requires held { HoldsRegions regions.now mem.old }
    requires held_log { HoldsLog log.old mem.old }
    requires room { 24 + length bytes.now ≤ room_of (log_in log.old mem.old) }
    ensures log { log_in log.new mem.new ≡ logged (log_in log.old mem.old) id offset bytes.now }
    ensures book { book_in regions.now mem.new ≡ book_in regions.now mem.old }
    ensures memory { seen mem.new ≡ seen mem.old }
    ensures held { HoldsRegions regions.now mem.new }
    ensures held_log { HoldsLog log.new mem.new }
    ensures descriptors { (p : ℕ) → 0x40000 ≤ p → byte_at mem.new p ≡ byte_at mem.old p }
    ensures size { length mem.new ≡ length mem.old }
{
    held_log_law();
    held_regions_law();
    log.add(mem, id, offset, bytes);
}
