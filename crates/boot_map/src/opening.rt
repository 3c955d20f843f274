//! The memory at the opening: each frame filled by what its part holds.

ghost use Rattle.std.specs.Prelude.{◌≡◌, ℕ, ◌+◌, ◌*◌, ◌<◌, ◌≤◌, IfOk, length, slice_index};
ghost use Rattle.gate_text.specs.Listing.{gate_byte};
ghost use Rattle.boot_map.specs.Division.{IsLayout, free_start};
ghost use Rattle.boot_map.specs.OpeningEntries.{entry_of_part};
ghost use Rattle.boot_map.specs.Opening.{IsFilled, IsOpening, byte_of_part, entry_byte, handler_byte, idt_and_tss_byte};
ghost use Rattle.boot_map.specs.Parts.{IsPartOf, part_at};

use crate::entries::ENTRIES;
use crate::layout::Layout;
use crate::part::Part;
use crate::trap_frames::{handler_byte, idt_and_tss_byte};
use elf_image::Image;
use phys_mem::PhysMem;
use std::alloc::Global;

/// There is no room for the memory.
#[derive(Clone, Copy, Debug, PartialEq, Eq)]
pub struct NoMemory;

fn fill_idt_and_tss(bytes: &mut [u8])
    requires { length bytes.old ≡ 4096 }
    ensures { IsFilled idt_and_tss_byte bytes.new }
{
    for (offset, byte) in bytes.iter_mut().enumerate() {
        *byte = idt_and_tss_byte(offset);
    }
}

fn fill_gate_text(bytes: &mut [u8])
    requires { length bytes.old ≡ 4096 }
    ensures { IsFilled gate_byte bytes.new }
{
    for (offset, byte) in bytes.iter_mut().enumerate() {
        *byte = gate_text::byte(offset);
    }
}

fn fill_handler_slot(bytes: &mut [u8])
    requires { length bytes.old ≡ 4096 }
    ensures { IsFilled handler_byte bytes.new }
{
    for (offset, byte) in bytes.iter_mut().enumerate() {
        *byte = handler_byte(offset);
    }
}

fn fill_table(layout: &Layout, image: &Image, part: Part, bytes: &mut [u8])
    requires layout { IsLayout image.now layout.now }
    requires member { IsPartOf layout.now part }
    requires size { length bytes.old ≡ 4096 }
    ensures { IsFilled (entry_byte (entry_of_part image.now layout.now part)) bytes.new }
{
    for index in 0..ENTRIES {
        let entry = layout.entry_of_part(image, part, index).to_le_bytes();
        bytes[8 * index..8 * index + 8].copy_from_slice(&entry);
    }
}

fn fill(layout: &Layout, image: &Image, part: Part, bytes: &mut [u8])
    requires layout { IsLayout image.now layout.now }
    requires member { IsPartOf layout.now part }
    requires size { length bytes.old ≡ 4096 }
    ensures { IsFilled (byte_of_part image.now layout.now part) bytes.new }
{
    match part {
        Part::IdtAndTss => fill_idt_and_tss(bytes),
        Part::GateText => fill_gate_text(bytes),
        Part::HandlerSlot => fill_handler_slot(bytes),
        Part::Root
        | Part::SlotTable
        | Part::AreaDirectory
        | Part::AreaTable
        | Part::ImageDirectory
        | Part::RangeTable(_)
        | Part::MapRoot
        | Part::MapDirectory
        | Part::MapTable(_) => fill_table(layout, image, part, bytes),
        Part::ImagePage(place) => image.copy_page(place, bytes),
        _ => bytes.fill(0),
    }
}

/// The memory at the opening of an image whose layout this is.
///
/// Returns an error where there is no room for the memory.
pub fn prepare(alloc: Global, image: &Image, layout: &Layout) -> Result<PhysMem, NoMemory>
    requires { IsLayout image.now layout.now }
    ensures { IfOk result (λ memory. IsOpening image.now layout.now.frames memory) }
{
    let Ok(mut memory) = PhysMem::new(alloc, layout.frames()) else {
        return Err(NoMemory);
    };
    for frame in 0..layout.first_free() {
        fill(layout, image, layout.part(frame), memory.frame_mut(frame));
    }
    Ok(memory)
}
