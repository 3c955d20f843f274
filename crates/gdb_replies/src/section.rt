//! The closing section, as a run that ends at this moment tells it.

ghost use Rattle.std.specs.Prelude.{◌≡◌, ◌*◌, ◌++◌, OnOk, length};
ghost use Rattle.boot_map.specs.Division.{IsLayout};
ghost use Rattle.gate_state.specs.MachineOf.{whole_of};
ghost use Rattle.gate_state.specs.MachineStates.{nested_of};
ghost use Rattle.nk_body.specs.NestedRecord.{HoldsBooks, nested_held};
ghost use Rattle.report_text.specs.ClosingSection.{section};

use crate::text_sink::TextSink;
use gate_state::Machine;
use nk_body::Kernel;
use nk_run::Opened;
use phys_mem::PhysMem;
use std::alloc::{AllocError, Global};

/// The section of memory and books.
fn put_held(
    alloc: Global,
    text: &mut Vec<u8>,
    opened: &Opened,
    mem: &PhysMem,
    kernel: &Kernel,
) -> Result<(), AllocError>
    requires layout { IsLayout opened.now.image opened.now.layout }
    requires books { HoldsBooks kernel.now mem.now }
    requires size { length mem.now ≡ 4096 * opened.now.layout.frames }
    ensures { OnOk result (text.new.items
        ≡ text.old.items ++ section opened.now.image opened.now.layout.frames (nested_held kernel.now mem.now)) }
{
    let mut sink = TextSink::new(alloc);
    match report_text::section(&mut sink, &opened.image, &opened.layout, mem, kernel) {
        Ok(()) => text.extend_from_slice(&sink.text),
        Err(_) => Err(AllocError),
    }
}

/// The root, the kinds of frames and the entries of page tables that aren't the opening's, the regions and the log.
pub fn put_section(
    alloc: Global,
    text: &mut Vec<u8>,
    opened: &Opened,
    machine: &Machine<'_>,
) -> Result<(), AllocError>
    requires layout { IsLayout opened.now.image opened.now.layout }
    requires opening { (whole_of machine.now).opening
        ≡ record { image = opened.now.image; frames = opened.now.layout.frames } }
    ensures { OnOk result (text.new.items ≡ text.old.items
        ++ section opened.now.image opened.now.layout.frames (nested_of (whole_of machine.now).state)) }
{
    put_held(alloc, text, opened, machine.memory(), machine.kernel())
}
