//! The buckets of the table: the slots that keep pages with one remainder by 1,024, each with its next, in order of
//! their numbers.

ghost use Rattle.std.specs.Prelude.{◌≡◌, ◌<◌, ◌≤◌, ℕ, ◌+◌, ◌%◌, true, false, length, slice_index, slice_set, List, ◌&&◌, ◌==◌, ◌≢◌};
ghost use Rattle.tlb_model.specs.declared.slot.Slot.{Slot};
ghost use Rattle.tlb_model.specs.SlotBuckets.{IsChained, first_of, is_kept, is_member, slot_at};

use crate::slot::Slot;

/// The number that stands for no slot.
pub(crate) const NO_SLOT: u16 = 1024;

/// Of each bucket the first slot, and of each slot the next one of its bucket.
#[derive(Drop)]
pub(crate) struct Chains {
    firsts: [u16; 1024],
    nexts: [u16; 1024],
}

impl Chains {
    /// No slot is noted.
    pub(crate) fn new() -> Chains
        ensures { (generation : ℕ) (slots : List Slot) → ((at : ℕ) → is_kept generation (slot_at slots at) ≡ false)
            → IsChained generation slots result.firsts result.nexts }
    {
        Chains {
            firsts: [NO_SLOT; 1024],
            nexts: [NO_SLOT; 1024],
        }
    }

    /// The slot that keeps a page's translation in this generation, or `NO_SLOT` where none does.
    pub(crate) fn find(&self, slots: &[Slot; 1024], generation: u64, page: u64) -> u16
        requires chained { IsChained generation slots.now self.now.firsts self.now.nexts }
        ensures most { result ≤ 1024 }
        ensures kept { result < 1024 → is_kept generation (slot_at slots.now result) ≡ true }
        ensures page { result < 1024 → (slot_at slots.now result).page ≡ page }
        ensures none { result ≡ 1024 → (at : ℕ) → is_kept generation (slot_at slots.now at) ≡ true
            → (slot_at slots.now at).page ≢ page }
    {
        let mut at = self.first(slots, generation, bucket_of(page));
        while at < NO_SLOT && slots[usize::from(at)].page != page {
            at = self.nexts[usize::from(at)];
        }
        at
    }

    /// Notes a free slot, which is to keep this page.
    pub(crate) fn insert(&mut self, slots: &[Slot; 1024], generation: u64, page: u64, at: u16)
        requires chained { IsChained generation slots.now self.old.firsts self.old.nexts }
        requires slot { at < 1024 }
        requires free { is_kept generation (slot_at slots.now at) ≡ false }
        ensures chained { (slot : Slot) → is_kept generation slot ≡ true → slot.page ≡ page
            → IsChained generation (slice_set slots.now at slot) self.new.firsts self.new.nexts }
    {
        let first = self.first(slots, generation, bucket_of(page));
        if first < at {
            let before = self.before(slots, generation, bucket_of(page), first, at);
            self.nexts[usize::from(at)] = self.nexts[usize::from(before)];
            self.nexts[usize::from(before)] = at;
        } else {
            self.nexts[usize::from(at)] = first;
            self.firsts[usize::from(bucket_of(page))] = at;
        }
    }

    /// Notes no more a slot that keeps this page.
    pub(crate) fn remove(&mut self, slots: &[Slot; 1024], generation: u64, page: u64, at: u16)
        requires chained { IsChained generation slots.now self.old.firsts self.old.nexts }
        requires slot { at < 1024 }
        requires kept { is_kept generation (slot_at slots.now at) ≡ true }
        requires page { (slot_at slots.now at).page ≡ page }
        ensures chained { (slot : Slot) → is_kept generation slot ≡ false
            → IsChained generation (slice_set slots.now at slot) self.new.firsts self.new.nexts }
    {
        let first = self.first(slots, generation, bucket_of(page));
        if first < at {
            let before = self.before(slots, generation, bucket_of(page), first, at);
            self.nexts[usize::from(before)] = self.nexts[usize::from(at)];
        } else {
            self.firsts[usize::from(bucket_of(page))] = self.nexts[usize::from(at)];
        }
    }

    /// The first slot of a bucket: what is noted counts only where it is one of the bucket's.
    #[inline]
    fn first(&self, slots: &[Slot; 1024], generation: u64, bucket: u16) -> u16
        requires bucket { bucket < 1024 }
        ensures { result ≡ first_of generation slots.now self.now.firsts bucket }
    {
        let noted = self.firsts[usize::from(bucket)];
        if noted < NO_SLOT && is_member(&slots[usize::from(noted)], generation, bucket) {
            noted
        } else {
            NO_SLOT
        }
    }

    /// The last slot of a bucket below `at`, from a lower one of the same bucket on.
    fn before(&self, slots: &[Slot; 1024], generation: u64, bucket: u16, from: u16, at: u16) -> u16
        requires chained { IsChained generation slots.now self.now.firsts self.now.nexts }
        requires from { is_member generation slots.now bucket from ≡ true }
        requires below { from < at }
        requires slot { at < 1024 }
        ensures member { is_member generation slots.now bucket result ≡ true }
        ensures below { result < at }
        ensures last { at ≤ slice_index self.now.nexts result }
    {
        let mut before = from;
        while self.nexts[usize::from(before)] < at {
            before = self.nexts[usize::from(before)];
        }
        before
    }
}

/// Whether a translation is kept in the slot, and its page is of this bucket.
#[inline]
fn is_member(slot: &Slot, generation: u64, bucket: u16) -> bool
    ensures { result ≡ is_kept generation slot.now && (slot.now.page % 1024 == bucket) }
{
    slot.is_kept(generation) && bucket_of(slot.page) == bucket
}

/// A page's bucket: the low ten bits of its number.
#[inline]
fn bucket_of(page: u64) -> u16
    ensures { result ≡ page % 1024 }
{
    (page % 1024) as u16
}
