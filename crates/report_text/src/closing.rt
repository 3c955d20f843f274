//! The closing section of a run: root and trap handler, what of kinds and page tables differs from the opening's, and
//! the ledger.
ghost use Rattle.std.specs.Prelude.{◌≡◌, ℕ, ◌+◌, ◌<◌, ◌≤◌, ◌*◌, ◌≢◌, ◌++◌, length};
ghost use Rattle.nk_host.specs.TextPuts.{IsTextPut};
ghost use Rattle.phys_mem.specs.Memory.{entry_in};
ghost use Rattle.nk_bits.specs.Kinds.{kind_of};
ghost use Rattle.boot_map.specs.Division.{IsLayout};
ghost use Rattle.boot_map.specs.OpeningEntries.{opening_entry};
ghost use Rattle.boot_map.specs.OpeningKinds.{kind_at};
ghost use Rattle.page_desc.specs.DescriptorBytes.{kinds_in};
ghost use Rattle.page_desc.specs.PageTables.{is_table};
ghost use Rattle.nk_body.specs.NestedRecord.{HoldsBooks, nested_held};
ghost use Rattle.report_text.specs.ClosingSection.{
  bytes_of_region,
  entry_lines,
  is_same_kind,
  kind_lines,
  line_of_entry,
  line_of_kind,
  lines_of,
  lines_of_table,
  log_lines,
  region_lines,
  section,
  table_value,
};
ghost use Rattle.report_text.specs.RunLines.{root_line, trap_line};

use crate::changed_lines::{ENTRY, KIND, entry_line, kind_line, root_line, trap_line};
use crate::ledger_lines::put_ledger;
use crate::words::NUMBERED;
use boot_map::Layout;
use elf_image::Image;
use nk_bits::Kind;
use nk_body::Kernel;
use nk_host::{Sink, SinkFault, put_all};
use page_desc::held_tables_law;
use phys_mem::PhysMem;

/// The number of a page table's entries.
const ENTRIES: u32 = 512;

/// Writes the closing section.
pub fn section<O: Sink>(
    sink: &mut O,
    image: &Image,
    layout: &Layout,
    mem: &PhysMem,
    kernel: &Kernel,
) -> Result<(), SinkFault>
    requires layout { IsLayout image.now layout.now }
    requires books { HoldsBooks kernel.now mem.now }
    requires size { length mem.now ≡ 4096 * layout.now.frames }
    ensures { IsTextPut O.taken O.faults sink.old sink.new
        (section image.now layout.now.frames (nested_held kernel.now mem.now)) result }
{
    match put_books(sink, kernel) {
        Ok(()) => put_changes(sink, image, layout, mem, kernel),
        Err(fault) => Err(fault),
    }
}

/// Writes the frame of the root, and the address of the trap handler.
fn put_books<O: Sink>(sink: &mut O, kernel: &Kernel) -> Result<(), SinkFault>
    ensures { IsTextPut O.taken O.faults sink.old sink.new
        (root_line kernel.now.root ++ trap_line kernel.now.trap) result }
{
    match put_all(sink, root_line(&mut [0; NUMBERED], kernel.root())) {
        Ok(()) => put_all(sink, &trap_line(kernel.trap())),
        Err(fault) => Err(fault),
    }
}

/// Writes what of kinds and page tables isn't the opening's, and the ledger.
fn put_changes<O: Sink>(
    sink: &mut O,
    image: &Image,
    layout: &Layout,
    mem: &PhysMem,
    kernel: &Kernel,
) -> Result<(), SinkFault>
    requires layout { IsLayout image.now layout.now }
    requires books { HoldsBooks kernel.now mem.now }
    requires size { length mem.now ≡ 4096 * layout.now.frames }
    ensures { let nk = nested_held kernel.now mem.now in
        IsTextPut O.taken O.faults sink.old sink.new
        (kind_lines image.now layout.now.frames nk ++ (entry_lines image.now layout.now.frames nk
        ++ (region_lines (bytes_of_region nk) nk.ledger.book.regions ++ log_lines 0 nk.ledger.log))) result }
{
    match put_kinds(sink, image, layout, mem, kernel) {
        Ok(()) => put_tables(sink, image, layout, mem, kernel),
        Err(fault) => Err(fault),
    }
}

/// Writes what of page tables isn't the opening's, and the ledger.
fn put_tables<O: Sink>(
    sink: &mut O,
    image: &Image,
    layout: &Layout,
    mem: &PhysMem,
    kernel: &Kernel,
) -> Result<(), SinkFault>
    requires layout { IsLayout image.now layout.now }
    requires books { HoldsBooks kernel.now mem.now }
    requires size { length mem.now ≡ 4096 * layout.now.frames }
    ensures { let nk = nested_held kernel.now mem.now in
        IsTextPut O.taken O.faults sink.old sink.new
        (entry_lines image.now layout.now.frames nk
        ++ (region_lines (bytes_of_region nk) nk.ledger.book.regions ++ log_lines 0 nk.ledger.log)) result }
{
    match put_entries(sink, image, layout, mem, kernel) {
        Ok(()) => put_ledger(sink, mem, kernel),
        Err(fault) => Err(fault),
    }
}

/// Writes the frames whose kind changed.
fn put_kinds<O: Sink>(
    sink: &mut O,
    image: &Image,
    layout: &Layout,
    mem: &PhysMem,
    kernel: &Kernel,
) -> Result<(), SinkFault>
    requires layout { IsLayout image.now layout.now }
    requires books { HoldsBooks kernel.now mem.now }
    ensures { IsTextPut O.taken O.faults sink.old sink.new
        (lines_of
        (λ f. line_of_kind (kind_at image.now layout.now.frames f) (kind_of (kinds_in mem.now) f) f)
        layout.now.frames 0) result }
{
    for frame in 0..layout.frames() {
        if let Err(fault) = put_kind(sink, image, layout, mem, kernel, frame) {
            return Err(fault);
        }
    }
    Ok(())
}

/// Writes a frame's kind, if it changed.
fn put_kind<O: Sink>(
    sink: &mut O,
    image: &Image,
    layout: &Layout,
    mem: &PhysMem,
    kernel: &Kernel,
    frame: u32,
) -> Result<(), SinkFault>
    requires layout { IsLayout image.now layout.now }
    requires books { HoldsBooks kernel.now mem.now }
    requires frame { frame < layout.now.frames }
    ensures { IsTextPut O.taken O.faults sink.old sink.new
        (line_of_kind (kind_at image.now layout.now.frames frame) (kind_of (kinds_in mem.now) frame) frame) result }
{
    let kind = kernel.tables().frames.kind(mem, frame);
    if is_same(layout.kind(image, frame), kind) {
        return Ok(());
    }
    put_all(sink, kind_line(&mut [0; KIND], frame, kind))
}

/// Writes the entries of page tables that changed.
fn put_entries<O: Sink>(
    sink: &mut O,
    image: &Image,
    layout: &Layout,
    mem: &PhysMem,
    kernel: &Kernel,
) -> Result<(), SinkFault>
    requires layout { IsLayout image.now layout.now }
    requires books { HoldsBooks kernel.now mem.now }
    requires size { length mem.now ≡ 4096 * layout.now.frames }
    ensures { IsTextPut O.taken O.faults sink.old sink.new
        (entry_lines image.now layout.now.frames (nested_held kernel.now mem.now)) result }
{
    for frame in 0..layout.frames() {
        if let Err(fault) = put_entries_of(sink, image, layout, mem, kernel, frame) {
            return Err(fault);
        }
    }
    Ok(())
}

/// Writes the entries of a frame that changed, if it is a page table.
fn put_entries_of<O: Sink>(
    sink: &mut O,
    image: &Image,
    layout: &Layout,
    mem: &PhysMem,
    kernel: &Kernel,
    frame: u32,
) -> Result<(), SinkFault>
    requires layout { IsLayout image.now layout.now }
    requires books { HoldsBooks kernel.now mem.now }
    requires size { length mem.now ≡ 4096 * layout.now.frames }
    requires frame { frame < layout.now.frames }
    ensures { IsTextPut O.taken O.faults sink.old sink.new
        (lines_of_table image.now layout.now.frames (nested_held kernel.now mem.now) frame) result }
{
    held_tables_law();
    if is_table_now(mem, kernel, frame) {
        put_table(sink, image, layout, mem, frame)
    } else {
        Ok(())
    }
}

/// Whether a frame is a page table now.
fn is_table_now(mem: &PhysMem, kernel: &Kernel, frame: u32) -> bool
    requires { HoldsBooks kernel.now mem.now }
    ensures { result ≡ is_table (kind_of (kinds_in mem.now) frame) }
{
    kernel.tables().frames.kind(mem, frame).is_table()
}

/// Writes the entries of a page table that changed.
fn put_table<O: Sink>(
    sink: &mut O,
    image: &Image,
    layout: &Layout,
    mem: &PhysMem,
    frame: u32,
) -> Result<(), SinkFault>
    requires layout { IsLayout image.now layout.now }
    requires size { length mem.now ≡ 4096 * layout.now.frames }
    requires frame { frame < layout.now.frames }
    ensures { IsTextPut O.taken O.faults sink.old sink.new
        (lines_of
        (λ i. line_of_entry (table_value image.now layout.now.frames frame i)
        (entry_in mem.now frame i) frame i) 512 0) result }
{
    if layout.kind(image, frame).is_table() {
        put_old_table(sink, image, layout, mem, frame)
    } else {
        put_new_table(sink, mem, frame)
    }
}

/// Writes the entries that changed of a page table that was one at the opening.
fn put_old_table<O: Sink>(
    sink: &mut O,
    image: &Image,
    layout: &Layout,
    mem: &PhysMem,
    frame: u32,
) -> Result<(), SinkFault>
    requires layout { IsLayout image.now layout.now }
    requires size { length mem.now ≡ 4096 * layout.now.frames }
    requires frame { frame < layout.now.frames }
    ensures { IsTextPut O.taken O.faults sink.old sink.new
        (lines_of
        (λ i. line_of_entry (opening_entry image.now layout.now.frames frame i)
        (entry_in mem.now frame i) frame i) 512 0) result }
{
    for index in 0..ENTRIES {
        if let Err(fault) = put_entry(sink, image, layout, mem, frame, index) {
            return Err(fault);
        }
    }
    Ok(())
}

/// Writes an entry, if it changed, of a page table that was one at the opening.
fn put_entry<O: Sink>(
    sink: &mut O,
    image: &Image,
    layout: &Layout,
    mem: &PhysMem,
    frame: u32,
    index: u32,
) -> Result<(), SinkFault>
    requires layout { IsLayout image.now layout.now }
    requires size { length mem.now ≡ 4096 * layout.now.frames }
    requires frame { frame < layout.now.frames }
    requires index { index ≤ 511 }
    ensures { IsTextPut O.taken O.faults sink.old sink.new
        (line_of_entry (opening_entry image.now layout.now.frames frame index)
        (entry_in mem.now frame index) frame index) result }
{
    let value = mem.entry(frame, index);
    if layout.entry(image, frame, index as usize) == value {
        return Ok(());
    }
    put_all(sink, entry_line(&mut [0; ENTRY], frame, index, value))
}

/// Writes the entries of a page table that was none at the opening: those that aren't 0.
fn put_new_table<O: Sink>(sink: &mut O, mem: &PhysMem, frame: u32) -> Result<(), SinkFault>
    requires { 4096 * frame + 4096 ≤ length mem.now }
    ensures { IsTextPut O.taken O.faults sink.old sink.new
        (lines_of (λ i. line_of_entry 0 (entry_in mem.now frame i) frame i) 512 0) result }
{
    let mut index = next_entry(mem, frame, 0);
    while index < ENTRIES {
        let value = mem.entry(frame, index);
        if let Err(fault) = put_all(sink, entry_line(&mut [0; ENTRY], frame, index, value)) {
            return Err(fault);
        }
        index = next_entry(mem, frame, index + 1);
    }
    Ok(())
}

/// The least index from `from`, at most 512, on at which an entry of a page table isn't 0; 512 where there is none.
fn next_entry(mem: &PhysMem, frame: u32, from: u32) -> u32
    requires frame { 4096 * frame + 4096 ≤ length mem.now }
    requires from { from ≤ 512 }
    ensures place { (from ≤ result) × (result ≤ 512) }
    ensures zero { (i : ℕ) → from ≤ i → i < result → entry_in mem.now frame i ≡ 0 }
    ensures entry { result < 512 → entry_in mem.now frame result ≢ 0 }
{
    for index in from..ENTRIES {
        if mem.entry(frame, index) != 0 {
            return index;
        }
    }
    ENTRIES
}

/// Whether two kinds are one.
fn is_same(one: Kind, other: Kind) -> bool
    ensures { result ≡ is_same_kind one other }
{
    match (one, other) {
        (Kind::Data, Kind::Data) => true,
        (Kind::Code, Kind::Code) => true,
        (Kind::Table(one), Kind::Table(other)) => one == other,
        (Kind::Fixed, Kind::Fixed) => true,
        (Kind::Trap, Kind::Trap) => true,
        (Kind::Guarded, Kind::Guarded) => true,
        (Kind::Hidden, Kind::Hidden) => true,
        _ => false,
    }
}
