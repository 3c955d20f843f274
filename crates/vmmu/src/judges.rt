//! The rules of the calls, each list in order, by the counts that the descriptors carry.

ghost use Rattle.std.specs.Prelude.{◌≡◌, ◌≤◌, ◌<◌, ℕ, IfNone, ◌+◌, ◌*◌, ◌&&◌, ◌||◌, ◌==◌, not, nat_le, nat_lt, length, List, None, slice_index};
ghost use Rattle.std.specs.List.{list_any, range_with_len};
ghost use Rattle.phys_mem.specs.Memory.{entry_in};
ghost use Rattle.nk_bits.specs.declared.rule.Rule.TheVariants.{BadFrame, BadLevel, NotData, NotEmpty, NotTable, StillLinked, StillLoose};
ghost use Rattle.nk_bits.specs.Kinds.{is_data, kind_of, level_of};
ghost use Rattle.nk_bits.specs.Paging.{is_present, is_slot_entry};
ghost use Rattle.page_desc.specs.DescriptorBytes.{HoldsDescriptors, descriptors_in, kinds_in};
ghost use Rattle.page_desc.specs.PageTables.{is_table, tables_in};
ghost use Rattle.table_rules.specs.ValueRules.{broken};
ghost use Rattle.vmmu.specs.TableCalls.{entry_rule, root_rule};

use nk_bits::{Entry, Rule};
use page_desc::Frames;
use phys_mem::PhysMem;
use table_rules::judge_entry;

/// The number of entries of a table.
const ENTRIES: u64 = 512;

/// The level of the table in a frame; 0 where it holds none.
pub fn level_at(frames: &Frames, mem: &PhysMem, frame: u64) -> u8
    requires held { HoldsDescriptors frames.now mem.now }
    ensures { result ≡ level_of (kind_of (kinds_in mem.now) frame) }
{
    frames.kind_named(mem, frame).level()
}

/// The level is that of a page table.
fn is_level(level: u64) -> bool
    ensures { result ≡ (nat_le 1 level && nat_le level 4) }
{
    (1 <= level) & (level <= 4)
}

/// A loose leaf names the frame.
fn is_loose(frames: &Frames, mem: &PhysMem, frame: u64) -> bool
    requires held { HoldsDescriptors frames.now mem.now }
    requires frame { frame < frames.now }
    ensures { result ≡ not (slice_index (descriptors_in mem.now).loose frame == 0) }
{
    let _frames = frames.frames();
    frames.loose(mem, frame as u32) != 0
}

/// An entry names the table in the frame, or it is the root.
fn is_linked(frames: &Frames, mem: &PhysMem, root: u32, frame: u64) -> bool
    requires held { HoldsDescriptors frames.now mem.now }
    requires frame { frame < frames.now }
    ensures { result ≡ (not (slice_index (descriptors_in mem.now).links frame == 0) || frame == root) }
{
    let _frames = frames.frames();
    (frames.links(mem, frame as u32) != 0) | (frame == u64::from(root))
}

/// The entry is the kernel slot's.
fn is_slot_entry(level: u8, index: u64) -> bool
    ensures { result ≡ is_slot_entry level index }
{
    (level == 4) & (index == 511)
}

/// The entry is present, and not the kernel slot's.
fn is_filled_at(mem: &PhysMem, level: u8, frame: u64, index: u64) -> bool
    requires frame { 4096 * frame + 4096 ≤ length mem.now }
    requires index { index < 512 }
    ensures { result ≡ (is_present (entry_in mem.now frame index) && not (is_slot_entry level index)) }
{
    let _frames = mem.frames();
    Entry(mem.entry(frame as u32, index as u32)).is_present() & !is_slot_entry(level, index)
}

/// An entry of the table is present, beside the kernel slot's.
fn is_filled(mem: &PhysMem, level: u8, frame: u64) -> bool
    requires { 4096 * frame + 4096 ≤ length mem.now }
    ensures { result ≡ list_any (λ i. is_present (entry_in mem.now frame i) && not (is_slot_entry level i)) (range_with_len 0 512) }
{
    (0..ENTRIES).any(|index| is_filled_at(mem, level, frame, index))
}

/// Judges that a table of this level is declared in a frame.
pub fn judge_declare(frames: &Frames, mem: &PhysMem, level: u64, frame: u64) -> Option<Rule>
    requires held { HoldsDescriptors frames.now mem.now }
    ensures bounds { IfNone result ((frame < frames.now) × (frame < 65536) × (level ≤ 4)) }
    ensures judged { result ≡ broken (not (nat_lt frame (length (kinds_in mem.now)))) BadFrame
        (broken (not (nat_le 1 level && nat_le level 4)) BadLevel
        (broken (not (is_data (kind_of (kinds_in mem.now) frame))) NotData
        (broken (not (slice_index (descriptors_in mem.now).loose frame == 0)) StillLoose None))) }
{
    if !frames.is_inside(mem, frame) {
        return Some(Rule::BadFrame);
    }
    if !is_level(level) {
        return Some(Rule::BadLevel);
    }
    if !frames.kind_named(mem, frame).is_data() {
        return Some(Rule::NotData);
    }
    if is_loose(frames, mem, frame) {
        return Some(Rule::StillLoose);
    }
    None
}

/// Judges that a value is written in an entry of the table in a frame.
#[tactic(auto, unfolding(crate::specs::TableCalls::entry_rule))]
pub fn judge_write(
    frames: &Frames,
    mem: &PhysMem,
    frame: u64,
    index: u64,
    value: u64,
) -> Option<Rule>
    requires held { HoldsDescriptors frames.now mem.now }
    requires levels { (f : ℕ) → level_of (kind_of (kinds_in mem.now) f) ≤ 4 }
    ensures bounds { IfNone result ((frame < frames.now) × (frame < 65536) × (index < 512)) }
    ensures judged { (root : ℕ) (m : List ℕ) → result ≡ entry_rule (tables_in (kinds_in mem.now) root m) frame index value }
{
    if !frames.is_inside(mem, frame) {
        return Some(Rule::BadFrame);
    }
    let level = level_at(frames, mem, frame);
    if level == 0 {
        return Some(Rule::NotTable);
    }
    if index >= ENTRIES {
        return Some(Rule::BadIndex);
    }
    if is_slot_entry(level, index) {
        return Some(Rule::KernelSlot);
    }
    judge_entry(frames, mem, level, value).err()
}

/// Judges that the table in a frame is removed.
pub fn judge_remove(frames: &Frames, root: u32, mem: &PhysMem, frame: u64) -> Option<Rule>
    requires held { HoldsDescriptors frames.now mem.now }
    ensures bounds { IfNone result ((frame < frames.now) × (frame < 65536)) }
    ensures judged { result ≡ broken (not (nat_lt frame (length (kinds_in mem.now)))) BadFrame
        (broken (not (is_table (kind_of (kinds_in mem.now) frame))) NotTable
        (broken (not (slice_index (descriptors_in mem.now).links frame == 0) || frame == root) StillLinked
        (broken (list_any (λ i. is_present (entry_in mem.now frame i) && not (is_slot_entry (level_of (kind_of (kinds_in mem.now) frame)) i)) (range_with_len 0 512)) NotEmpty None))) }
{
    if !frames.is_inside(mem, frame) {
        return Some(Rule::BadFrame);
    }
    let level = level_at(frames, mem, frame);
    if level == 0 {
        return Some(Rule::NotTable);
    }
    if is_linked(frames, mem, root, frame) {
        return Some(Rule::StillLinked);
    }
    if is_filled(mem, level, frame) {
        return Some(Rule::NotEmpty);
    }
    None
}

/// Judges that the table in a frame becomes the root.
#[tactic(auto, unfolding(crate::specs::TableCalls::root_rule))]
pub fn judge_root(frames: &Frames, mem: &PhysMem, frame: u64) -> Option<Rule>
    requires held { HoldsDescriptors frames.now mem.now }
    ensures bounds { IfNone result ((frame < frames.now) × (frame < 65536)) }
    ensures judged { (root : ℕ) (m : List ℕ) → result ≡ root_rule (tables_in (kinds_in mem.now) root m) frame }
{
    if !frames.is_inside(mem, frame) {
        Some(Rule::BadFrame)
    } else if level_at(frames, mem, frame) != 4 {
        Some(Rule::NotRoot)
    } else {
        None
    }
}
