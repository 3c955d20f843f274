//! A place that gives bytes.
ghost use Rattle.std.specs.Prelude.{ℕ, List, Option};
ghost use Rattle.nk_host.specs.SourceTakes.{IsSourceTaken};

use crate::SourceFault;

/// A place that gives bytes, in order.
pub trait Source {
    // The bytes that are left, where the source tells them.
    ghost left: { Self → Option (List ℕ) };

    // The count of faults.
    ghost faults: { Self → ℕ };

    /// Gives bytes at the block's front, and how many: none only where none are left, or where the block has no room. A
    /// fault gives none, and loses none. It takes no memory.
    fn take(&mut self, block: &mut [u8]) -> Result<usize, SourceFault>
        ensures { IsSourceTaken left faults self.old self.new block.old block.new result };
}
