//! What is kept, as lists.

ghost use Rattle.std.specs.Prelude.{◌≡◌, ◌<◌, ◌++◌, ◌∷◌, [], OnOk, if◌then◌else◌};
ghost use Rattle.tlb_model.specs.SlotBuckets.{slot_at};
ghost use Rattle.tlb_model.specs.TranslationTable.{IsTable, pairs_of, stands};

use crate::table::{PLACES, Table};
use nk_bits::Leaf;
use std::alloc::AllocError;

impl Table {
    /// Puts the translations behind those of a list, oldest first. Err where there is no memory for them.
    pub(crate) fn list(&self, pairs: &mut Vec<(u64, Leaf)>) -> Result<(), AllocError>
        requires table { IsTable self.now }
        ensures listed { OnOk result (pairs.new.items ≡ pairs.old.items ++ pairs_of self.now) }
    {
        let mut number = usize::from(self.front);
        for at in self.ages.iter() {
            self.list_one(pairs, *at, number)?;
            number += 1;
        }
        Ok(())
    }

    /// Puts the translation of a slot, where it stands at the place of this number.
    fn list_one(
        &self,
        pairs: &mut Vec<(u64, Leaf)>,
        at: u16,
        number: usize,
    ) -> Result<(), AllocError>
        requires { at < 1024 }
        ensures { OnOk result (pairs.new.items ≡ pairs.old.items
            ++ (if stands self.now.generation number (slot_at self.now.slots at)
            then ((slot_at self.now.slots at).page, (slot_at self.now.slots at).leaf) ∷ [] else [])) }
    {
        let slot = &self.slots[usize::from(at)];
        if slot.generation == self.generation
            && usize::from(slot.place) == number % usize::from(PLACES)
        {
            pairs.push((slot.page, slot.leaf))?;
        }
        Ok(())
    }
}
