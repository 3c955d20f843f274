//! The control registers.

ghost use Rattle.std.specs.Prelude.{◌≡◌};
ghost use Rattle.nk_bits.specs.Accesses.{wp_of};

/// The control registers, and EFER: SDM volume 3, 2.5.
#[derive(Clone, Copy, Debug, PartialEq, Eq)]
pub struct Control {
    /// Bit 16, WP, keeps the supervisor from writing to pages that aren't writable.
    pub cr0: u64,
    /// The linear address of the last page fault.
    pub cr2: u64,
    /// The frame of the page table of level 4: CR3 divided by 4,096.
    pub root: u32,
    /// Bit 20, SMEP, keeps the supervisor from executing user pages.
    pub cr4: u64,
    /// Bit 11, NXE, is set on this machine, so that XD counts.
    pub efer: u64,
}

impl Control {
    /// Whether WP is set.
    #[tactic(auto, unfolding(crate::specs::Accesses::wp_of))]
    #[inline]
    pub fn write_protect(&self) -> bool
        ensures { result ≡ wp_of self.now.cr0 }
    {
        (self.cr0 >> 16) & 1 == 1
    }
}
