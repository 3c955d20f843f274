//! The parts of memory at the opening.

ghost use Rattle.std.specs.Prelude.{◌≡◌, ◌<◌};
ghost use Rattle.boot_map.specs.Parts.{common_part};

use nk_bits::{
    AREA_DIRECTORY, AREA_TABLE, GATE_TEXT, HANDLER_FRAME, IDT_AND_TSS, IMAGE_DIRECTORY,
    NESTED_STACK, OPENING_ROOT, SLOT_TABLE, TRAP_STACK,
};

/// What a frame serves at the opening, in the order of the frames. Tables and pages of which there are several have
/// their index.
#[derive(Clone, Copy, Debug, PartialEq, Eq)]
pub enum Part {
    /// The interrupt descriptor table and the task-state segment.
    IdtAndTss,
    GateText,
    /// The address of the outer kernel's trap handler.
    HandlerSlot,
    TrapStack,
    NestedStack,
    /// The opening's table of level 4.
    Root,
    /// The kernel slot's table of level 3.
    SlotTable,
    /// The nested area's table of level 2, and that of level 1.
    AreaDirectory,
    AreaTable,
    /// The image's table of level 2.
    ImageDirectory,
    /// What the nested kernel allocates from.
    Pool,
    WriteLog,
    WrittenBits,
    RegionBook,
    Descriptors,
    /// The table of level 1 for a range that the image touches.
    RangeTable(u32),
    ImagePage(u32),
    /// The direct map's table of level 3, that of level 2, and those of level 1.
    MapRoot,
    MapDirectory,
    MapTable(u32),
    Free,
}

/// The part of a frame that every opening has alike.
pub fn common_part(frame: u32) -> Part
    requires { frame < 64 }
    ensures { result ≡ common_part frame }
{
    match frame {
        IDT_AND_TSS => Part::IdtAndTss,
        GATE_TEXT => Part::GateText,
        HANDLER_FRAME => Part::HandlerSlot,
        TRAP_STACK => Part::TrapStack,
        NESTED_STACK => Part::NestedStack,
        OPENING_ROOT => Part::Root,
        SLOT_TABLE => Part::SlotTable,
        AREA_DIRECTORY => Part::AreaDirectory,
        AREA_TABLE => Part::AreaTable,
        IMAGE_DIRECTORY => Part::ImageDirectory,
        10..=25 => Part::Pool,
        26..=41 => Part::WriteLog,
        42..=59 => Part::WrittenBits,
        _ => Part::RegionBook,
    }
}
