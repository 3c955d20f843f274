//! A slot of the table.

ghost use Rattle.std.specs.Prelude.{◌≡◌, ℕ};
ghost use Rattle.tlb_model.specs.SlotBuckets.{empty_slot, is_kept, slot_at};

use nk_bits::{Leaf, Rights};

/// The place of a translation that isn't kept.
pub(crate) const NO_PLACE: u16 = 2048;

/// Room for the translation of one page.
#[derive(Clone, Copy)]
pub(crate) struct Slot {
    /// The page's number.
    pub(crate) page: u64,
    /// What the table's was as the translation was filled: it is kept while the table's stays.
    pub(crate) generation: u64,
    pub(crate) leaf: Leaf,
    /// The number of its place in the ring of ages, below 2,048 where a translation is kept.
    pub(crate) place: u16,
}

/// A slot that keeps nothing.
pub(crate) const EMPTY: Slot = Slot {
    page: 0,
    generation: 0,
    leaf: Leaf {
        frame: 0,
        rights: Rights {
            can_write: false,
            user: false,
            exec: false,
        },
    },
    place: NO_PLACE,
};

impl Slot {
    /// Whether a translation is kept in it, in this generation.
    #[inline]
    pub(crate) fn is_kept(&self, generation: u64) -> bool
        ensures { result ≡ is_kept generation self.now }
    {
        self.generation == generation && self.place < NO_PLACE
    }
}

/// Slots that keep nothing.
pub(crate) fn empty_slots() -> [Slot; 1024]
    ensures { (at : ℕ) → slot_at result at ≡ empty_slot }
{
    [EMPTY; 1024]
}
