//! Linear addresses: which are canonical, and the table entries that they select.

ghost use Rattle.std.specs.Prelude.{◌≡◌, ◌+◌, ◌-◌, ◌*◌, ◌/◌, ◌%◌, ◌^◌, ◌<◌, ◌≤◌, ◌⊎◌, ◌↔◌, IsTrue};
ghost use Rattle.nk_bits.specs.Paging.{is_canonical, page_of, page_index};

/// Whether bits 63 to 47 of a linear address are equal: SDM volume 1, 3.3.7.1.
pub fn canonical(va: u64) -> bool
    ensures value { result ≡ is_canonical va }
    ensures ranges { IsTrue result ↔ ((va < 2 ^ 47) ⊎ (2 ^ 64 - 2 ^ 47 ≤ va)) }
{
    let high = va >> 47;
    high == 0 || high == 0x1_FFFF
}

/// The index of the entry that a linear address selects in a table of this level: SDM volume 3, 4.5.
///
/// At level 4 it is bits 47 to 39, at level 3 bits 38 to 30, at level 2 bits 29 to 21, at level 1 bits 20 to 12.
#[tactic(auto, unfolding(crate::specs::Paging::page_index))]
pub fn index(va: u64, level: u8) -> usize
    requires level { (1 ≤ level) × (level ≤ 4) }
    ensures value { result ≡ page_index (page_of va) level }
    ensures bits { result ≡ va / 2 ^ (3 + 9 * level) % 2 ^ 9 }
    ensures bound { result < 512 }
{
    ((va >> (3 + 9 * level)) & 0x1FF) as usize
}
