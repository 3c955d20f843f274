//! The table of translations: slots, the buckets by which they are found, and the ring of their ages.

ghost use Rattle.std.specs.Prelude.{◌≡◌, ◌<◌, ◌≤◌, ℕ, ◌+◌, ◌-◌, IfOk, None, [], ◌∷◌, ◌++◌, drop, length};
ghost use Rattle.nk_bits.specs.Translations.{dropped, filled, look};
ghost use Rattle.tlb_model.specs.SlotBuckets.{is_kept, slot_at};
ghost use Rattle.tlb_model.specs.TranslationTable.{IsTable, pairs_of};

use crate::chains::{Chains, NO_SLOT};
use crate::order::Order;
use crate::slot::{Slot, empty_slots};
use crate::{CAPACITY, NoMemory};
use circular_buffer::HeapCircularBuffer;
use nk_bits::{Leaf, translation_law};
use std::alloc::Global;

/// How many slots there are.
pub(crate) const SLOTS: u16 = CAPACITY as u16;

/// How many places the ring of ages has.
pub(crate) const PLACES: u16 = 2048;

/// Translations by slots: at most 1,024, of which the oldest goes first.
#[derive(Drop)]
pub(crate) struct Table {
    pub(crate) slots: [Slot; 1024],
    pub(crate) chains: Chains,
    pub(crate) order: Order,
    /// The slots in the order in which they were filled, oldest first. A slot is named more than once where it was
    /// filled again; of these places the one that it knows counts.
    pub(crate) ages: HeapCircularBuffer<u16>,
    /// The number of the ring's first place.
    pub(crate) front: u16,
    pub(crate) generation: u64,
}

impl Table {
    /// No translation. No other call takes memory.
    pub(crate) fn new(alloc: Global) -> Result<Table, NoMemory>
        ensures table { IfOk result IsTable }
        ensures none { IfOk result (λ t. pairs_of t ≡ []) }
    {
        Table::in_generation(alloc, 0)
    }

    /// The same, where so many generations went before.
    pub(crate) fn in_generation(alloc: Global, generation: u64) -> Result<Table, NoMemory>
        ensures table { IfOk result IsTable }
        ensures none { IfOk result (λ t. pairs_of t ≡ []) }
    {
        match HeapCircularBuffer::with_capacity(alloc, usize::from(PLACES)) {
            Ok(ages) => Ok(empty(ages, generation)),
            Err(_) => Err(NoMemory),
        }
    }

    /// The leaf that is kept for a page, mostly in the slot of its own low bits.
    #[inline(always)]
    pub(crate) fn look(&self, page: u64) -> Option<Leaf>
        requires table { IsTable self.now }
        ensures found { result ≡ look (pairs_of self.now) page }
    {
        let own = &self.slots[(page % 1024) as usize];
        if own.page == page && own.is_kept(self.generation) {
            Some(own.leaf)
        } else {
            self.search(page)
        }
    }

    /// The same by the page's bucket.
    #[inline(never)]
    fn search(&self, page: u64) -> Option<Leaf>
        requires table { IsTable self.now }
        ensures found { result ≡ look (pairs_of self.now) page }
    {
        let at = self.chains.find(&self.slots, self.generation, page);
        if at < NO_SLOT {
            Some(self.slots[usize::from(at)].leaf)
        } else {
            None
        }
    }

    /// Keeps a page's leaf as the youngest, in place of an older one of the page, or else of the oldest of all where
    /// as many are kept as there is room for.
    #[inline(never)]
    pub(crate) fn fill(&mut self, page: u64, leaf: Leaf)
        requires table { IsTable self.old }
        ensures table { IsTable self.new }
        ensures filled { pairs_of self.new ≡ filled (pairs_of self.old) page leaf }
    {
        translation_law();
        self.drop_page(page);
        self.make_places();
        self.make_room();
        self.put(page, leaf);
    }

    /// Forgets a page's leaf, if one is kept.
    #[inline(never)]
    pub(crate) fn drop_page(&mut self, page: u64)
        requires table { IsTable self.old }
        ensures table { IsTable self.new }
        ensures dropped { pairs_of self.new ≡ dropped (pairs_of self.old) page }
    {
        let at = self.chains.find(&self.slots, self.generation, page);
        if at < NO_SLOT {
            self.retire(at);
        }
    }

    /// Forgets every leaf. The slots stay as they are until the generations are counted out.
    #[inline(never)]
    pub(crate) fn flush(&mut self)
        requires table { IsTable self.old }
        ensures table { IsTable self.new }
        ensures none { pairs_of self.new ≡ [] }
    {
        if self.generation == u64::MAX {
            self.clear();
        } else {
            self.advance();
        }
    }
}

/// The table that keeps nothing, with this ring.
fn empty(ages: HeapCircularBuffer<u16>, generation: u64) -> Table
    requires none { ages.items ≡ [] }
    requires room { ages.capacity ≡ 2048 }
    ensures table { IsTable result }
    ensures none { pairs_of result ≡ [] }
{
    Table {
        slots: empty_slots(),
        chains: Chains::new(),
        order: Order::new(),
        ages,
        front: 0,
        generation,
    }
}
