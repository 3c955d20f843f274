//! Which slots are taken: all of them in an order, the taken ones first, so that one that is free is found, taken and
//! given back without a search.

ghost use Rattle.std.specs.Prelude.{◌≡◌, ◌≢◌, ◌<◌, ◌≤◌, ℕ, ◌+◌, true, false, ◌==◌, if◌then◌else◌, slice_index};
ghost use Rattle.tlb_model.specs.SlotOrder.{IsOrder, is_slot_used};

/// All slots, in order, and of each slot its number in the order.
#[derive(Drop)]
pub(crate) struct Order {
    slots: [u16; 1024],
    numbers: [u16; 1024],
    /// How many are taken: the first ones.
    pub(crate) count: u16,
}

impl Order {
    /// No slot is taken.
    pub(crate) fn new() -> Order
        ensures order { IsOrder result }
        ensures none { result.count ≡ 0 }
    {
        let slots = ascending();
        Order {
            slots,
            numbers: slots,
            count: 0,
        }
    }

    /// Whether a slot is taken.
    pub(crate) fn is_taken(&self, at: u16) -> bool
        requires slot { at < 1024 }
        ensures { result ≡ is_slot_used self.now at }
    {
        self.numbers[usize::from(at)] < self.count
    }

    /// A slot that is free.
    pub(crate) fn free(&self) -> u16
        requires order { IsOrder self.now }
        requires room { self.now.count < 1024 }
        ensures slot { result < 1024 }
        ensures free { is_slot_used self.now result ≡ false }
    {
        self.slots[usize::from(self.count)]
    }

    /// Takes a slot that is free.
    pub(crate) fn take(&mut self, at: u16)
        requires order { IsOrder self.old }
        requires slot { at < 1024 }
        requires free { is_slot_used self.old at ≡ false }
        ensures order { IsOrder self.new }
        ensures count { self.new.count ≡ self.old.count + 1 }
        ensures taken { is_slot_used self.new at ≡ true }
        ensures others { (other : ℕ) → other < 1024 → other ≢ at → is_slot_used self.new other ≡ is_slot_used self.old other }
    {
        self.exchange(at, self.count);
        self.count += 1;
    }

    /// Gives a slot back.
    pub(crate) fn release(&mut self, at: u16)
        requires order { IsOrder self.old }
        requires slot { at < 1024 }
        requires taken { is_slot_used self.old at ≡ true }
        ensures order { IsOrder self.new }
        ensures count { self.new.count + 1 ≡ self.old.count }
        ensures free { is_slot_used self.new at ≡ false }
        ensures others { (other : ℕ) → other < 1024 → other ≢ at → is_slot_used self.new other ≡ is_slot_used self.old other }
    {
        self.count -= 1;
        self.exchange(at, self.count);
    }

    /// Gives every slot back.
    pub(crate) fn clear(&mut self)
        requires order { IsOrder self.old }
        ensures order { IsOrder self.new }
        ensures none { self.new.count ≡ 0 }
    {
        self.count = 0;
    }

    /// Puts a slot at a number, and the one that had it at the slot's.
    fn exchange(&mut self, at: u16, number: u16)
        requires order { IsOrder self.old }
        requires slot { at < 1024 }
        requires number { number < 1024 }
        ensures order { IsOrder self.new }
        ensures count { self.new.count ≡ self.old.count }
        ensures own { slice_index self.new.numbers at ≡ number }
        ensures others { (other : ℕ) → other < 1024 → other ≢ at → slice_index self.new.numbers other
            ≡ (if slice_index self.old.numbers other == number then slice_index self.old.numbers at
            else slice_index self.old.numbers other) }
    {
        let other = self.slots[usize::from(number)];
        let own = self.numbers[usize::from(at)];
        self.slots[usize::from(number)] = at;
        self.slots[usize::from(own)] = other;
        self.numbers[usize::from(at)] = number;
        self.numbers[usize::from(other)] = own;
    }
}

/// The numbers of all slots.
fn ascending() -> [u16; 1024]
    ensures { (at : ℕ) → at < 1024 → slice_index result at ≡ at }
{
    let mut slots = [0; 1024];
    for at in 0..1024 {
        slots[usize::from(at)] = at;
    }
    slots
}
