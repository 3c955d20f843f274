//! Loads and stores on one page at a place that was found kept: they are those of the address.

ghost use Rattle.std.specs.Prelude.{◌≡◌, ◌+◌, ◌^◌, ◌<◌, ◌≤◌, false, length};
ghost use Rattle.phys_mem.specs.Memory.{stored};
ghost use Rattle.nk_bits.specs.Accesses.{IsAccessSize, crosses};
ghost use Rattle.exec_quick.specs.QuickForms.{AreSameOnPages};
ghost use Rattle.mem_access.specs.Windows.{AreBeside};
ghost use Rattle.page_walk.specs.MemoryAccess.{stores_at, value_at};

use mem_access::{Window, kept_number, one_page_law, put_kept};
use phys_mem::{PhysMem, memory_law};

/// The number that stands on one page at this address, whose place was found kept.
#[inline(always)]
pub(crate) fn load(mem: &PhysMem, place: u64, va: u64, bytes: u8) -> u64
    requires bytes { IsAccessSize bytes }
    requires one { crosses va bytes ≡ false }
    requires fits { place + bytes ≤ length mem.now }
    ensures value { result ≡ value_at mem.now va bytes (record { first = place; second = 0 }) }
    ensures bound { result < 256 ^ bytes }
{
    one_page_law();
    kept_number(mem, place, bytes)
}

/// Puts a number on one page at this address, whose place was found kept.
#[inline(always)]
pub(crate) fn store(mem: &mut PhysMem, window: &Window, place: u64, va: u64, bytes: u8, value: u64)
    requires bytes { IsAccessSize bytes }
    requires one { crosses va bytes ≡ false }
    requires fits { place + bytes ≤ length mem.old }
    requires apart { AreBeside window.now.off place bytes }
    ensures code { AreSameOnPages window.now.off mem.old mem.new }
    ensures stored { mem.new ≡ stored mem.old (stores_at va bytes (record { first = place; second = 0 }) value) }
    ensures length { length mem.new ≡ length mem.old }
{
    memory_law();
    one_page_law();
    put_kept(mem, place, bytes, value);
}
