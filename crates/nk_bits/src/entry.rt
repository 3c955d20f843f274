//! Page-table entries: SDM volume 3, 4.5.

ghost use Rattle.std.specs.Prelude.{⊤, ◌≡◌, ◌==◌, ◌+◌, ◌-◌, ◌*◌, ◌/◌, ◌%◌, ◌^◌, ◌<◌, [], ◌∷◌, codes};
ghost use Rattle.std.specs.Int.RustNames.{bit_and};
ghost use Rattle.nk_bits.specs.Paging.{is_present, is_large, frame_of, rights_of, named_bits};

use crate::leaf::Rights;
use bitflags::{Flag, Flags, bitflag_items};

/// The bits of an entry that have a name.
#[derive(Clone, Copy, Debug, PartialEq, Eq)]
pub struct EntryFlags(pub u64);

bitflag_items! {
    impl EntryFlags: u64 {
        const PRESENT = 1;
        const WRITE = 2;
        const USER = 4;
        const WRITE_THROUGH = 8;
        const NO_CACHE = 16;
        const ACCESSED = 32;
        const DIRTY = 64;
        const LARGE = 128;
        const GLOBAL = 256;
        const NO_EXEC = 9223372036854775808;
    }
}

// The bits of an entry by the manual's numbers: SDM volume 3, table 4-20.
const _: () = prove!(EntryFlags::PRESENT.0 == 1 << 0);

const _: () = prove!(EntryFlags::WRITE.0 == 1 << 1);

const _: () = prove!(EntryFlags::USER.0 == 1 << 2);

const _: () = prove!(EntryFlags::WRITE_THROUGH.0 == 1 << 3);

const _: () = prove!(EntryFlags::NO_CACHE.0 == 1 << 4);

const _: () = prove!(EntryFlags::ACCESSED.0 == 1 << 5);

const _: () = prove!(EntryFlags::DIRTY.0 == 1 << 6);

const _: () = prove!(EntryFlags::LARGE.0 == 1 << 7);

const _: () = prove!(EntryFlags::GLOBAL.0 == 1 << 8);

const _: () = prove!(EntryFlags::NO_EXEC.0 == 1 << 63);

impl Flags for EntryFlags {
    type Bits = u64;

    ghost exact = { ⊤ };

    ghost table = { (codes "PRESENT", 1) ∷ (codes "WRITE", 2) ∷ (codes "USER", 4) ∷ (codes "WRITE_THROUGH", 8) ∷ (codes "NO_CACHE", 16) ∷ (codes "ACCESSED", 32) ∷ (codes "DIRTY", 64) ∷ (codes "LARGE", 128) ∷ (codes "GLOBAL", 256) ∷ (codes "NO_EXEC", 9223372036854775808) ∷ [] };

    ghost set_of = { λ f. f.0 };

    fn flags<'a>() -> &'a [Flag<EntryFlags>] {
        EntryFlags::FLAGS
    }

    fn bits(&self) -> u64 {
        self.0
    }

    fn from_bits_retain(bits: u64) -> EntryFlags {
        EntryFlags(bits)
    }
}

/// An entry of a page table.
#[derive(Clone, Copy, Debug, PartialEq, Eq)]
pub struct Entry(pub u64);

impl Entry {
    /// The bits that have a name; all others are cut off.
    #[tactic(auto, using(crate::proofs::EntryBits::named_by_mask))]
    pub fn flags(&self) -> EntryFlags
        ensures value { result.0 ≡ named_bits self.now.0 }
    {
        EntryFlags::from_bits_truncate(self.0)
    }

    /// Whether the entry is present: bit 0.
    #[tactic(auto, using(crate::proofs::EntryBits::present_by_flag))]
    pub fn is_present(&self) -> bool
        ensures value { result ≡ is_present self.now.0 }
    {
        self.flags().contains(EntryFlags::PRESENT)
    }

    /// Whether bit 7 is set: in a table of level 3 or 2 the entry then names a large page.
    #[tactic(auto, using(crate::proofs::EntryBits::large_by_flag))]
    pub fn is_large(&self) -> bool
        ensures value { result ≡ is_large self.now.0 }
    {
        self.flags().contains(EntryFlags::LARGE)
    }

    /// The number of the frame that the entry names: bits 51 to 12.
    #[tactic(auto, unfolding(crate::specs::Paging::frame_of))]
    pub fn frame(&self) -> u64
        ensures value { result ≡ frame_of self.now.0 }
        ensures bound { result < 2 ^ 40 }
    {
        (self.0 >> 12) & 0xFF_FFFF_FFFF
    }

    /// The rights that the entry grants.
    #[tactic(auto, using(crate::proofs::EntryBits::writable_by_flag, crate::proofs::EntryBits::user_by_flag, crate::proofs::EntryBits::exec_by_flag))]
    pub fn rights(&self) -> Rights
        ensures value { result ≡ rights_of self.now.0 }
    {
        let flags = self.flags();
        Rights {
            can_write: flags.contains(EntryFlags::WRITE),
            user: flags.contains(EntryFlags::USER),
            exec: !flags.contains(EntryFlags::NO_EXEC),
        }
    }
}
