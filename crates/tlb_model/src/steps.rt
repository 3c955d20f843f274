//! The steps by which the table changes: a translation is put into a free slot, or goes from its own; the ring loses places
//! that stand for nothing; and a new generation begins.

ghost use Rattle.std.specs.Prelude.{◌≡◌, ◌≢◌, ◌<◌, ◌≤◌, ℕ, ◌+◌, ◌-◌, IfOk, None, Some, [], ◌∷◌, ◌++◌, true, false, drop, length, slice_get, slice_set, ◌%◌, ◌^◌};
ghost use Rattle.nk_bits.specs.Translations.{Pairs, capacity, dropped, look};
ghost use Rattle.tlb_model.specs.SlotBuckets.{empty_slot, is_kept, slot_at};
ghost use Rattle.tlb_model.specs.TranslationTable.{IsCleanedBy, IsTable, pairs_of, stands};

use crate::slot::{EMPTY, Slot, empty_slots};
use crate::table::{PLACES, SLOTS, Table};
use nk_bits::Leaf;

impl Table {
    /// Keeps a page's leaf as the youngest.
    pub(crate) fn put(&mut self, page: u64, leaf: Leaf)
        requires table { IsTable self.old }
        requires none { look (pairs_of self.old) page ≡ None }
        requires room { self.old.order.count < 1024 }
        requires place { length self.old.ages.items < 2048 }
        ensures table { IsTable self.new }
        ensures youngest { pairs_of self.new ≡ pairs_of self.old ++ (page, leaf) ∷ [] }
    {
        let at = self.free_slot(page);
        self.order.take(at);
        self.chains.insert(&self.slots, self.generation, page, at);
        self.slots[usize::from(at)] = Slot {
            page,
            generation: self.generation,
            leaf,
            place: self.next_place(),
        };
        self.ages.push_back(at);
    }

    /// A free slot: that of the page's own low bits, if it is free.
    fn free_slot(&self, page: u64) -> u16
        requires table { IsTable self.now }
        requires room { self.now.order.count < 1024 }
        ensures slot { result < 1024 }
        ensures free { is_kept self.now.generation (slot_at self.now.slots result) ≡ false }
    {
        let own = (page % 1024) as u16;
        if self.order.is_taken(own) {
            self.order.free()
        } else {
            own
        }
    }

    /// The number of the place behind the ring's last one.
    fn next_place(&self) -> u16
        requires fits { length self.now.ages.items ≤ 2048 }
        ensures { result ≡ (self.now.front + length self.now.ages.items) % 2048 }
    {
        ((usize::from(self.front) + self.ages.len()) % usize::from(PLACES)) as u16
    }

    /// Forgets what a slot keeps. Its place in the ring stays, and stands for nothing.
    pub(crate) fn retire(&mut self, at: u16)
        requires table { IsTable self.old }
        requires slot { at < 1024 }
        requires kept { is_kept self.old.generation (slot_at self.old.slots at) ≡ true }
        ensures table { IsTable self.new }
        ensures dropped { pairs_of self.new ≡ dropped (pairs_of self.old) (slot_at self.old.slots at).page }
        ensures count { self.new.order.count + 1 ≡ self.old.order.count }
        ensures ages { self.new.ages ≡ self.old.ages }
    {
        let page = self.page_at(at);
        self.chains.remove(&self.slots, self.generation, page, at);
        self.order.release(at);
        self.empty_at(at);
    }

    /// The page that a slot keeps, or kept.
    fn page_at(&self, at: u16) -> u64
        requires slot { at < 1024 }
        ensures { result ≡ (slot_at self.now.slots at).page }
    {
        self.slots[usize::from(at)].page
    }

    /// Empties a slot.
    fn empty_at(&mut self, at: u16)
        requires slot { at < 1024 }
        ensures { self.new ≡ record self.old { slots = slice_set self.old.slots at empty_slot } }
    {
        self.slots[usize::from(at)] = EMPTY;
    }

    /// Forgets the oldest leaf, where there is no room for one more.
    pub(crate) fn make_room(&mut self)
        requires table { IsTable self.old }
        ensures table { IsTable self.new }
        ensures youngest { pairs_of self.new ≡ drop (length (pairs_of self.old) + 1 - capacity) (pairs_of self.old) }
        ensures room { self.new.order.count < 1024 }
        ensures places { length self.new.ages.items ≤ length self.old.ages.items }
    {
        if self.order.count == SLOTS {
            self.lose_oldest();
        }
    }

    /// Forgets the oldest leaf, behind places that stand for nothing.
    fn lose_oldest(&mut self)
        requires table { IsTable self.old }
        requires some { 0 < self.old.order.count }
        ensures table { IsTable self.new }
        ensures youngest { pairs_of self.new ≡ drop 1 (pairs_of self.old) }
        ensures count { self.new.order.count + 1 ≡ self.old.order.count }
        ensures places { length self.new.ages.items ≤ length self.old.ages.items }
    {
        while !self.stands_first() {
            self.pass();
        }
        self.retire(self.first());
    }

    /// Cleans the ring where it has no place left.
    pub(crate) fn make_places(&mut self)
        requires table { IsTable self.old }
        ensures table { IsTable self.new }
        ensures same { pairs_of self.new ≡ pairs_of self.old }
        ensures places { length self.new.ages.items < 2048 }
    {
        if self.ages.is_full() {
            self.clean();
        }
    }

    /// Rids the ring of all places that stand for nothing.
    fn clean(&mut self)
        requires table { IsTable self.old }
        ensures table { IsTable self.new }
        ensures same { pairs_of self.new ≡ pairs_of self.old }
        ensures clean { length self.new.ages.items ≡ length (pairs_of self.old) }
    {
        for _turn in 0..self.ages.len() {
            self.turn();
        }
    }

    /// Looks at the ring's first place: it goes, or its translation gets a place at the end.
    fn turn(&mut self)
        requires table { IsTable self.old }
        requires some { 0 < length self.old.ages.items }
        ensures table { IsTable self.new }
        ensures cleaned { (left : ℕ) (pairs : Pairs)
            → IsCleanedBy self.old.slots self.old.generation self.old.front self.old.ages.items (left + 1) pairs
            → IsCleanedBy self.new.slots self.new.generation self.new.front self.new.ages.items left pairs }
    {
        if self.stands_first() {
            self.renew();
        } else {
            self.pass();
        }
    }

    /// The slot that the ring's first place names.
    fn first(&self) -> u16
        requires table { IsTable self.now }
        requires some { 0 < length self.now.ages.items }
        ensures first { slice_get self.now.ages.items 0 ≡ Some result }
        ensures slot { result < 1024 }
    {
        match self.ages.front() {
            Some(at) => *at,
            None => unreachable!(),
        }
    }

    /// Whether the ring's first place stands for a translation.
    fn stands_first(&self) -> bool
        requires table { IsTable self.now }
        requires some { 0 < length self.now.ages.items }
        ensures stands { (at : ℕ) → slice_get self.now.ages.items 0 ≡ Some at
            → result ≡ stands self.now.generation self.now.front (slot_at self.now.slots at) }
    {
        let slot = &self.slots[usize::from(self.first())];
        slot.generation == self.generation && slot.place == self.front
    }

    /// The ring loses its first place, which stands for nothing.
    fn pass(&mut self)
        requires table { IsTable self.old }
        requires some { 0 < length self.old.ages.items }
        requires stale { (at : ℕ) → slice_get self.old.ages.items 0 ≡ Some at
            → stands self.old.generation self.old.front (slot_at self.old.slots at) ≡ false }
        ensures table { IsTable self.new }
        ensures same { pairs_of self.new ≡ pairs_of self.old }
        ensures count { self.new.order ≡ self.old.order }
        ensures places { length self.new.ages.items + 1 ≡ length self.old.ages.items }
        ensures cleaned { (left : ℕ) (pairs : Pairs)
            → IsCleanedBy self.old.slots self.old.generation self.old.front self.old.ages.items (left + 1) pairs
            → IsCleanedBy self.new.slots self.new.generation self.new.front self.new.ages.items left pairs }
    {
        self.pop();
    }

    /// The translation of the ring's first place gets the place behind the last one.
    fn renew(&mut self)
        requires table { IsTable self.old }
        requires some { 0 < length self.old.ages.items }
        requires stands { (at : ℕ) → slice_get self.old.ages.items 0 ≡ Some at
            → stands self.old.generation self.old.front (slot_at self.old.slots at) ≡ true }
        ensures table { IsTable self.new }
        ensures cleaned { (left : ℕ) (pairs : Pairs)
            → IsCleanedBy self.old.slots self.old.generation self.old.front self.old.ages.items (left + 1) pairs
            → IsCleanedBy self.new.slots self.new.generation self.new.front self.new.ages.items left pairs }
    {
        let at = self.first();
        self.pop();
        let place = self.next_place();
        self.place_at(at, place);
        self.ages.push_back(at);
    }

    /// Notes the number of a slot's place.
    fn place_at(&mut self, at: u16, place: u16)
        requires slot { at < 1024 }
        ensures { self.new ≡ record self.old { slots = slice_set self.old.slots at (record (slot_at self.old.slots at) { place = place }) } }
    {
        self.slots[usize::from(at)].place = place;
    }

    /// The ring loses its first place, whatever it stands for.
    fn pop(&mut self)
        requires room { self.old.ages.capacity ≡ 2048 }
        requires front { self.old.front < 2048 }
        ensures ring { self.new ≡ record self.old { ages = record { items = drop 1 self.old.ages.items; capacity = 2048 }; front = (self.old.front + 1) % 2048 } }
    {
        self.ages.pop_front();
        self.front = (self.front + 1) % PLACES;
    }

    /// Begins a generation in which nothing is kept. No slot, bucket or place of the ring is touched.
    pub(crate) fn advance(&mut self)
        requires table { IsTable self.old }
        requires more { self.old.generation < 2 ^ 64 - 1 }
        ensures table { IsTable self.new }
        ensures none { pairs_of self.new ≡ [] }
    {
        self.generation += 1;
        self.order.clear();
    }

    /// Begins the first generation anew: every slot is emptied, and the ring.
    #[inline(never)]
    pub(crate) fn clear(&mut self)
        requires table { IsTable self.old }
        ensures table { IsTable self.new }
        ensures none { pairs_of self.new ≡ [] }
    {
        self.slots = empty_slots();
        self.ages.clear();
        self.front = 0;
        self.order.clear();
        self.generation = 0;
    }
}
