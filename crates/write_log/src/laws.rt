//! What follows from the form of the log in memory.

ghost use Rattle.write_log.specs.LogLaws.{HeldLogLaws};

use phys_mem::mask_law;

/// A log in memory has as many records as it counts, which take as many bytes as it counts. A memory with the same bytes
/// where the log stands holds the same one; and a change of the log alone doesn't show.
pub fn held_log_law()
    ensures { HeldLogLaws }
{
    mask_law();
}
