//! Bytes in a row on one page whose translation is kept: one look-up serves every access within them.

ghost use Rattle.std.specs.Prelude.{◌≡◌, ◌+◌, ◌-◌, ◌%◌, ◌^◌, ◌<◌, ◌≤◌, IfSome, length};
ghost use Rattle.nk_bits.specs.Translations.{NamesFramesIn};
ghost use Rattle.mem_access.specs.KeptRuns.{IsKeptRun};

use crate::kept::kept_page;
use nk_bits::{Access, Control, access_law, canonical};
use phys_mem::PhysMem;
use tlb_model::Tlb;

/// The bytes of a page.
const PAGE_SIZE: u64 = 4096;

/// The place of the first of `count` bytes from `va` on, where they lie on one page whose translation is kept and serves the
/// access: the others stand behind it, and an access within them changes nothing.
#[inline(always)]
pub fn kept_run(
    mem: &PhysMem,
    tlb: &Tlb,
    access: Access,
    control: &Control,
    cpl: u8,
    va: u64,
    count: u16,
) -> Option<u64>
    requires frames { NamesFramesIn (length mem.now) tlb.now }
    ensures { IfSome result (IsKeptRun (length mem.now) control.now cpl access tlb.now va count) }
{
    access_law();
    if va % PAGE_SIZE + u64::from(count) > PAGE_SIZE || !canonical(va) {
        return None;
    }
    match kept_page(mem, tlb, access, control, cpl, va) {
        Some(place) => Some(place),
        None => None,
    }
}
