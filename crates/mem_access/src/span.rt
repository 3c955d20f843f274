//! The bytes of an access by address: whether each is canonical, and how they lie on pages. A width is in bytes.

ghost use Rattle.std.specs.Prelude.{◌≡◌, ◌+◌, ◌-◌, ◌*◌, ◌/◌, ◌%◌, ◌^◌, ◌<◌, ◌≤◌};
ghost use Rattle.nk_bits.specs.Paging.{page_of};
ghost use Rattle.nk_bits.specs.Accesses.{has_canonical_bytes, crosses, first_part, next_page};

use nk_bits::canonical;

const PAGE_SIZE: u64 = 4096;

/// Whether each byte's address is canonical; addresses wrap at 2^64. The first byte and the last tell: the addresses
/// that aren't canonical are one run, far longer than any access.
pub fn has_canonical_bytes(va: u64, width: u8) -> bool
    requires { 1 ≤ width }
    ensures { result ≡ has_canonical_bytes va width }
{
    canonical(va) && canonical(va.wrapping_add(u64::from(width) - 1))
}

/// Whether the access has a second page.
#[tactic(auto, unfolding(nk_bits::specs::Accesses::crosses))]
pub fn crosses(va: u64, width: u8) -> bool
    ensures { result ≡ crosses va width }
{
    va % PAGE_SIZE + u64::from(width) > PAGE_SIZE
}

/// How many of the bytes lie on the first page.
#[tactic(auto, unfolding(nk_bits::specs::Accesses::first_part))]
pub fn first_part(va: u64, width: u8) -> u8
    ensures part { result ≡ first_part va width }
    ensures bound { result ≤ width }
    ensures room { result ≤ 4096 - va % 4096 }
{
    let room = PAGE_SIZE - va % PAGE_SIZE;
    u64::from(width).min(room) as u8
}

/// The address of the first byte of the next page.
#[tactic(auto, unfolding(nk_bits::specs::Accesses::next_page))]
pub fn next_page(va: u64) -> u64
    ensures page { result ≡ next_page va }
    ensures start { result % 4096 ≡ 0 }
{
    (va / PAGE_SIZE * PAGE_SIZE).wrapping_add(PAGE_SIZE)
}

/// The number of the page of this address.
#[inline]
pub fn page(va: u64) -> u64
    ensures { result ≡ page_of va }
{
    va / PAGE_SIZE
}
