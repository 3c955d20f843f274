//! Pages whose translation is kept and serves an access: it changes nothing, and its bytes stand one behind the other. A
//! width is in bytes.

ghost use Rattle.std.specs.Prelude.{◌≡◌, ℕ, List, ◌+◌, ◌-◌, ◌*◌, ◌/◌, ◌%◌, ◌^◌, ◌<◌, ◌≤◌, IfSome, false, length};
ghost use Rattle.phys_mem.specs.Memory.{number_at, stores, stored};
ghost use Rattle.nk_bits.specs.declared.access.Access.TheVariants.{Read, Write};
ghost use Rattle.nk_bits.specs.declared.leaf.Target.{Target};
ghost use Rattle.nk_bits.specs.Translations.{NamesFramesIn};
ghost use Rattle.nk_bits.specs.Outcomes.{answered};
ghost use Rattle.nk_bits.specs.Accesses.{IsAccessSize, IsTarget, accessed, crosses, place_in, reached};
ghost use Rattle.page_walk.specs.MemoryAccess.{stores_at, value_at, view_of};

use crate::bytes::{number, put};
use crate::rights::may;
use crate::span::page;
use nk_bits::{Access, Control, Leaf, access_law, canonical, translation_law};
use phys_mem::PhysMem;
use tlb_model::Tlb;

/// The place of the first byte of the page of `va`, where that page's translation is kept and serves the access: then it
/// serves one byte at each address of the page, over any memory, and changes nothing.
pub fn kept_frame(
    mem: &PhysMem,
    tlb: &Tlb,
    access: Access,
    control: &Control,
    cpl: u8,
    va: u64,
) -> Option<u64>
    requires frames { NamesFramesIn (length mem.now) tlb.now }
    ensures place { IfSome result (λ base. (m : List ℕ) (at : ℕ) → at < 2 ^ 64 → at / 4096 ≡ va / 4096
        → answered (record { first = base + at % 4096; second = 0 }) tlb.now
        ≡ accessed (view_of m control.now cpl) access tlb.now at 1) }
    ensures aligned { IfSome result (λ base. base % 4096 ≡ 0) }
    ensures inside { IfSome result (λ base. base + 4096 ≤ length mem.now) }
{
    access_law();
    if !canonical(va) {
        return None;
    }
    match kept_page(mem, tlb, access, control, cpl, va) {
        Some(place) => Some(place - va % 4096),
        None => None,
    }
}

/// The place of the byte at `va`, where its page's translation is kept and serves the access.
#[inline(always)]
pub(crate) fn kept_page(
    mem: &PhysMem,
    tlb: &Tlb,
    access: Access,
    control: &Control,
    cpl: u8,
    va: u64,
) -> Option<u64>
    requires frames { NamesFramesIn (length mem.now) tlb.now }
    ensures place { IfSome result (λ place. answered place tlb.now
        ≡ reached (view_of mem.now control.now cpl) access tlb.now va) }
    ensures read { access ≡ Write → IfSome result (λ place. answered place tlb.now
        ≡ reached (view_of mem.now control.now cpl) Read tlb.now va) }
    ensures agrees { IfSome result (λ place. place % 4096 ≡ va % 4096) }
    ensures inside { IfSome result (λ place. place + (4096 - va % 4096) ≤ length mem.now) }
{
    access_law();
    translation_law();
    match tlb.look(page(va)) {
        Some(kept) if may(access, kept.rights, control, cpl) => Some(place_of(mem, kept, va)),
        _ => None,
    }
}

/// The place in memory of the byte at `va`, whose page has this translation.
#[inline(always)]
pub(crate) fn place_of(mem: &PhysMem, leaf: Leaf, va: u64) -> u64
    requires frame { 4096 * leaf.frame < length mem.now }
    ensures place { result ≡ place_in leaf va }
    ensures agrees { result % 4096 ≡ va % 4096 }
    ensures inside { result + (4096 - va % 4096) ≤ length mem.now }
{
    // memory has whole frames
    let _frames = mem.frames();
    4096 * u64::from(leaf.frame) + va % 4096
}

/// The number of `width` bytes that stands at a place that was found kept, least significant first.
#[inline(always)]
pub fn kept_number(mem: &PhysMem, place: u64, width: u8) -> u64
    requires width { IsAccessSize width }
    requires fits { place + width ≤ length mem.now }
    ensures value { result ≡ number_at mem.now width place }
    ensures bound { result < 256 ^ width }
{
    number(mem, place, width)
}

/// Puts the `width` low bytes of `value` at a place that was found kept.
#[inline(always)]
pub fn put_kept(mem: &mut PhysMem, place: u64, width: u8, value: u64)
    requires width { IsAccessSize width }
    requires fits { place + width ≤ length mem.old }
    ensures stored { mem.new ≡ stored mem.old (stores width place value) }
    ensures length { length mem.new ≡ length mem.old }
{
    put(mem, place, width, value);
}

/// What is read and what is stored at the places of an access with one page is one number from the first place on.
pub fn one_page_law()
    ensures value { (m : List ℕ) (va width : ℕ) (target : Target) → crosses va width ≡ false
        → value_at m va width target ≡ number_at m width target.first }
    ensures stores { (va width value : ℕ) (target : Target) → crosses va width ≡ false
        → stores_at va width target value ≡ stores width target.first value }
{}
