//! The calls on page tables, over their descriptors and memory.

ghost use Rattle.std.specs.Prelude.{◌≡◌, ◌<◌, ◌≤◌, ℕ, None, OnErr, OnOk, slice_set};
ghost use Rattle.nk_bits.specs.declared.kind.Kind.TheVariants.{Data, Table};
ghost use Rattle.page_desc.specs.DescriptorBytes.{HoldsTables, kinds_in, tables_held};
ghost use Rattle.page_desc.specs.FrameDescriptors.{last_value};
ghost use Rattle.phys_mem.specs.MaskedMemory.{seen};
ghost use Rattle.phys_mem.specs.Memory.{byte_at};
ghost use Rattle.nk_bits.specs.Rules.{rule_of};
ghost use Rattle.vmmu.specs.TableCalls.{declare_rule, entry_rule, memory_declared, memory_removed, memory_written, remove_rule, root_rule};

use crate::entries::{clear_frame, seen_entry, store_entry};
use crate::judges::{judge_declare, judge_remove, judge_root, judge_write, level_at};
use crate::laws::table_calls_law;
use nk_bits::{Entry, Kind, Rule};
use page_desc::{
    Frames, descriptor_law, held_tables_law, memory_tables_law, page_tables_law, sound_law,
    stored_law,
};
use phys_mem::PhysMem;

/// The number of a table's last entry.
const LAST: u64 = 511;

/// The descriptors of all frames, and the frame of the root of the page tables.
#[derive(Drop)]
pub struct Tables4 {
    pub frames: Frames,
    pub root: u32,
}

impl Tables4 {
    /// Makes a frame of data a page table of this level, with no entry present but the kernel slot's at level 4.
    pub fn declare_table(&mut self, mem: &mut PhysMem, level: u64, frame: u64) -> Result<(), Rule>
        requires books { HoldsTables self.old.frames self.old.root mem.old }
        ensures judged { rule_of result ≡ declare_rule (tables_held self.old.root mem.old) level frame }
        ensures refused { OnErr result ((self.new ≡ self.old) × (mem.new ≡ mem.old)) }
        ensures memory { OnOk result (seen mem.new ≡ memory_declared (seen mem.old) level frame) }
        ensures kinds { OnOk result (kinds_in mem.new ≡ slice_set (kinds_in mem.old) frame (Table level)) }
        ensures root { self.new.root ≡ self.old.root }
        ensures books { HoldsTables self.new.frames self.new.root mem.new }
        ensures frames { self.new.frames ≡ self.old.frames }
        ensures others { (p : ℕ) → 0x1A000 ≤ p → p < 0x40000 → byte_at mem.new p ≡ byte_at mem.old p }
    {
        page_tables_law();
        if let Some(rule) = judge_declare(&self.frames, mem, level, frame) {
            return Err(rule);
        }
        self.make_table(mem, level as u8, frame as u32);
        Ok(())
    }

    /// Writes a value in an entry of the page table in a frame.
    pub fn write_entry(
        &mut self,
        mem: &mut PhysMem,
        frame: u64,
        index: u64,
        value: u64,
    ) -> Result<(), Rule>
        requires books { HoldsTables self.old.frames self.old.root mem.old }
        ensures judged { rule_of result ≡ entry_rule (tables_held self.old.root mem.old) frame index value }
        ensures refused { OnErr result ((self.new ≡ self.old) × (mem.new ≡ mem.old)) }
        ensures memory { OnOk result (seen mem.new ≡ memory_written (seen mem.old) frame index value) }
        ensures kinds { kinds_in mem.new ≡ kinds_in mem.old }
        ensures root { self.new.root ≡ self.old.root }
        ensures books { HoldsTables self.new.frames self.new.root mem.new }
        ensures frames { self.new.frames ≡ self.old.frames }
        ensures others { (p : ℕ) → 0x1A000 ≤ p → p < 0x40000 → byte_at mem.new p ≡ byte_at mem.old p }
    {
        if let Some(rule) = judge_write(&self.frames, mem, frame, index, value) {
            return Err(rule);
        }
        self.put_entry(mem, frame, index, value);
        Ok(())
    }

    /// Makes the frame of a page table data again: the table is empty, and nothing names it.
    pub fn remove_table(&mut self, mem: &mut PhysMem, frame: u64) -> Result<(), Rule>
        requires books { HoldsTables self.old.frames self.old.root mem.old }
        ensures judged { rule_of result ≡ remove_rule (tables_held self.old.root mem.old) frame }
        ensures refused { OnErr result ((self.new ≡ self.old) × (mem.new ≡ mem.old)) }
        ensures memory { OnOk result (seen mem.new ≡ memory_removed (seen mem.old) frame) }
        ensures kinds { OnOk result (kinds_in mem.new ≡ slice_set (kinds_in mem.old) frame Data) }
        ensures root { self.new.root ≡ self.old.root }
        ensures books { HoldsTables self.new.frames self.new.root mem.new }
        ensures frames { self.new.frames ≡ self.old.frames }
        ensures others { (p : ℕ) → 0x1A000 ≤ p → p < 0x40000 → byte_at mem.new p ≡ byte_at mem.old p }
    {
        page_tables_law();
        held_tables_law();
        if let Some(rule) = judge_remove(&self.frames, self.root, mem, frame) {
            return Err(rule);
        }
        self.clear_table(mem, frame as u32);
        Ok(())
    }

    /// Makes the page table of level 4 in a frame the root.
    pub fn load_root(&mut self, mem: &PhysMem, frame: u64) -> Result<(), Rule>
        requires books { HoldsTables self.old.frames self.old.root mem.now }
        ensures judged { rule_of result ≡ root_rule (tables_held self.old.root mem.now) frame }
        ensures refused { OnErr result (self.new ≡ self.old) }
        ensures frames { self.new.frames ≡ self.old.frames }
        ensures root { OnOk result (self.new.root ≡ frame) }
        ensures books { HoldsTables self.new.frames self.new.root mem.now }
    {
        table_calls_law();
        if let Some(rule) = judge_root(&self.frames, mem, frame) {
            return Err(rule);
        }
        self.root = frame as u32;
        Ok(())
    }

    /// Makes the table that may be declared.
    fn make_table(&mut self, mem: &mut PhysMem, level: u8, frame: u32)
        requires books { HoldsTables self.old.frames self.old.root mem.old }
        requires frame { frame < self.old.frames }
        requires rule { declare_rule (tables_held self.old.root mem.old) level frame ≡ None }
        ensures memory { seen mem.new ≡ memory_declared (seen mem.old) level frame }
        ensures kinds { kinds_in mem.new ≡ slice_set (kinds_in mem.old) frame (Table level) }
        ensures root { self.new.root ≡ self.old.root }
        ensures books { HoldsTables self.new.frames self.new.root mem.new }
        ensures frames { self.new.frames ≡ self.old.frames }
        ensures others { (p : ℕ) → 0x1A000 ≤ p → p < 0x40000 → byte_at mem.new p ≡ byte_at mem.old p }
    {
        table_calls_law();
        descriptor_law();
        memory_tables_law();
        stored_law();
        held_tables_law();
        let _frames = self.frames.frames();
        let last = last_value(level);
        clear_frame(&self.frames, mem, frame);
        store_entry(&self.frames, mem, u64::from(frame), LAST, last);
        self.frames.set_kind(mem, frame, Kind::Table(level));
        self.frames.replace(mem, level, Entry(0), Entry(last));
    }

    /// Writes the entry that may be written.
    fn put_entry(&mut self, mem: &mut PhysMem, frame: u64, index: u64, value: u64)
        requires books { HoldsTables self.old.frames self.old.root mem.old }
        requires frame { frame < self.old.frames }
        requires index { index < 512 }
        requires rule { entry_rule (tables_held self.old.root mem.old) frame index value ≡ None }
        ensures memory { seen mem.new ≡ memory_written (seen mem.old) frame index value }
        ensures kinds { kinds_in mem.new ≡ kinds_in mem.old }
        ensures root { self.new.root ≡ self.old.root }
        ensures books { HoldsTables self.new.frames self.new.root mem.new }
        ensures frames { self.new.frames ≡ self.old.frames }
        ensures others { (p : ℕ) → 0x1A000 ≤ p → p < 0x40000 → byte_at mem.new p ≡ byte_at mem.old p }
    {
        table_calls_law();
        descriptor_law();
        memory_tables_law();
        stored_law();
        held_tables_law();
        let _frames = self.frames.frames();
        let old = seen_entry(&self.frames, mem, frame, index);
        store_entry(&self.frames, mem, frame, index, value);
        let level = level_at(&self.frames, mem, frame);
        self.frames.replace(mem, level, old, Entry(value));
    }

    /// Makes the table data that may be removed.
    fn clear_table(&mut self, mem: &mut PhysMem, table: u32)
        requires books { HoldsTables self.old.frames self.old.root mem.old }
        requires frame { table < self.old.frames }
        requires rule { remove_rule (tables_held self.old.root mem.old) table ≡ None }
        ensures memory { seen mem.new ≡ memory_removed (seen mem.old) table }
        ensures kinds { kinds_in mem.new ≡ slice_set (kinds_in mem.old) table Data }
        ensures root { self.new.root ≡ self.old.root }
        ensures books { HoldsTables self.new.frames self.new.root mem.new }
        ensures frames { self.new.frames ≡ self.old.frames }
        ensures others { (p : ℕ) → 0x1A000 ≤ p → p < 0x40000 → byte_at mem.new p ≡ byte_at mem.old p }
    {
        table_calls_law();
        descriptor_law();
        memory_tables_law();
        sound_law();
        stored_law();
        held_tables_law();
        let _frames = self.frames.frames();
        let old = seen_entry(&self.frames, mem, u64::from(table), LAST);
        clear_frame(&self.frames, mem, table);
        let level = level_at(&self.frames, mem, u64::from(table));
        self.frames.replace(mem, level, old, Entry(0));
        self.frames.set_kind(mem, table, Kind::Data);
    }
}

/// What the last entry of a new table of this level holds: at level 4 the kernel slot's.
#[tactic(auto, unfolding(nk_bits::specs::Paging::slot_value))]
fn last_value(level: u8) -> u64
    ensures { result ≡ last_value level }
{
    if level == 4 { 0x6027 } else { 0 }
}
