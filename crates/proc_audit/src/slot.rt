//! The numbers of a slot, and where its next leads.

ghost use Rattle.std.specs.Prelude.{◌≡◌, ◌<◌};
ghost use Rattle.proc_audit.specs.ProcessList.{link_of, next_at, pid_at, slot_count};

use byteorder::{ByteOrder, LittleEndian};

/// How many bytes a slot has.
pub(crate) const SLOT_SIZE: usize = 16;

/// Where in a slot its next stands.
const NEXT: usize = 8;

/// The process identifier of a slot.
pub(crate) fn pid_at(region: &[u8], slot: usize) -> u64
    requires { slot < slot_count region.now }
    ensures { result ≡ pid_at region.now slot }
{
    LittleEndian::read_u64(region.split_at(SLOT_SIZE * slot).1)
}

/// The next of a slot, as it stands there.
pub(crate) fn next_at(region: &[u8], slot: usize) -> u64
    requires { slot < slot_count region.now }
    ensures { result ≡ next_at region.now slot }
{
    LittleEndian::read_u64(region.split_at(SLOT_SIZE * slot + NEXT).1)
}

/// The slot of so many that a next leads to; None where it leads to none.
pub(crate) fn link_of(count: usize, next: u64) -> Option<usize>
    ensures { result ≡ link_of count next }
{
    if next == 0 || next > count as u64 {
        return None;
    }
    Some(next as usize - 1)
}
