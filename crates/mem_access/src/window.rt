//! A window of data: pages that were read and pages that were written, where their translations are kept. While control
//! registers, CPL and translations stay the same, an access on one of them needs no look-up.

ghost use Rattle.std.specs.Prelude.{◌≡◌, ◌≢◌, ℕ, ◌+◌, ◌-◌, ◌/◌, ◌%◌, ◌^◌, ◌<◌, ◌≤◌, All, IfSome, false, length, slice_index_or};
ghost use Rattle.nk_bits.specs.declared.access.Access.TheVariants.{Read, Write};
ghost use Rattle.nk_bits.specs.declared.control.Control.{Control};
ghost use Rattle.nk_bits.specs.Translations.{NamesFramesIn, Translations};
ghost use Rattle.nk_bits.specs.Outcomes.{answered};
ghost use Rattle.nk_bits.specs.Accesses.{IsTarget, accessed, crosses};
ghost use Rattle.page_walk.specs.MemoryAccess.{view_of};
ghost use Rattle.mem_access.specs.declared.window.KeptPage.{KeptPage};
ghost use Rattle.mem_access.specs.Windows.{AreBeside, IsKeptPage, IsLeftWithout, IsWindow};

use crate::kept::kept_page;
use crate::span::crosses;
use nk_bits::{Access, Control, access_law, canonical};
use phys_mem::PhysMem;
use tlb_model::Tlb;

/// A page whose translation is kept and serves an access, or none.
#[derive(Clone, Copy)]
pub struct KeptPage {
    /// Its first address.
    start: u64,
    /// The place in memory of the first one's byte.
    base: u64,
    /// At how many addresses from the first one on eight bytes lie on it: 0 where there is no page.
    room: u64,
    /// Nothing: with it a page takes 32 bytes, and is found among others by a shift.
    spare: u64,
}

/// The pages that were read last, and those that were written last, each under the low bits of its number.
#[derive(Drop)]
pub struct Window {
    read: [KeptPage; 8],
    write: [KeptPage; 8],
    /// The places in memory of the pages that aren't kept for writes.
    off: [u64; 4],
}

const NO_PAGE: KeptPage = KeptPage {
    start: 0,
    base: 0,
    room: 0,
    spare: 0,
};

/// The place of a page that memory doesn't reach.
const NOWHERE: u64 = 0xFFFF_FFFF_FFFF_F000;

/// The pages that are kept for reads, and as many for writes.
const PAGES: usize = 8;

/// At so many addresses of a page eight bytes lie on it.
const ROOM: u64 = 4089;

impl KeptPage {
    /// The place of the byte at `va`, where eight bytes from it on lie on the page.
    #[inline(always)]
    fn place(&self, va: u64) -> Option<u64>
        requires room { self.now.room ≤ 4089 }
        requires page { 0 < self.now.room → self.now.start % 4096 ≡ 0 }
        requires base { 0 < self.now.room → self.now.base + 4096 ≤ 2 ^ 64 }
        ensures room { IfSome result (λ place. 0 < self.now.room) }
        ensures page { IfSome result (λ place. va / 4096 ≡ self.now.start / 4096) }
        ensures one { (width : ℕ) → width ≤ 8 → IfSome result (λ place. crosses va width ≡ false) }
        ensures place { IfSome result (λ place. place ≡ self.now.base + va % 4096) }
    {
        let ahead = va.wrapping_sub(self.start);
        if ahead < self.room {
            Some(self.base + ahead)
        } else {
            None
        }
    }

    /// This page, or none where its first byte has this place.
    fn unless_at(self, place: u64) -> KeptPage
        ensures { IsLeftWithout place self result }
    {
        if self.base == place { NO_PAGE } else { self }
    }
}

/// Where the page of an address is kept.
#[inline(always)]
fn page_slot(va: u64) -> usize
    ensures { result < 8 }
{
    (va / 4096 % 8) as usize
}

/// No pages.
fn no_pages() -> [KeptPage; 8]
    ensures { All (λ page. page.room ≡ 0) result }
{
    [NO_PAGE; PAGES]
}

/// Keeps no page any longer whose first byte has this place.
fn drop_pages(pages: &mut [KeptPage; 8], place: u64)
    ensures length { length pages.new ≡ 8 }
    ensures pages { (i : ℕ) (d : KeptPage) → i < 8 → IsLeftWithout place (slice_index_or pages.old i d) (slice_index_or pages.new i d) }
{
    let mut slot = 0;
    while slot < PAGES {
        pages[slot] = pages[slot].unless_at(place);
        slot += 1;
    }
}

impl Window {
    /// A window without a page.
    pub fn new() -> Window
        ensures { (size : ℕ) (control : Control) (cpl : ℕ) (tlb : Translations) → IsWindow size control cpl tlb result }
    {
        Window::beside(NOWHERE)
    }

    /// A window without a page, which keeps no page for writes whose bytes are those of the page of this place.
    pub fn beside(place: u64) -> Window
        ensures off { (i : ℕ) → i < 4 → slice_index_or result.off i 0 ≡ place - place % 4096 }
        ensures window { (size : ℕ) (control : Control) (cpl : ℕ) (tlb : Translations) → IsWindow size control cpl tlb result }
    {
        Window {
            read: no_pages(),
            write: no_pages(),
            off: [place - place % 4096; 4],
        }
    }

    /// Keeps no page for writes whose bytes are those of the page of this place, in the place of the page that was kept off
    /// so under this number.
    pub fn keep_off(&mut self, slot: usize, place: u64)
        requires slot { slot < 4 }
        ensures off { slice_index_or self.new.off slot 0 ≡ place - place % 4096 }
        ensures others { (i : ℕ) → i ≢ slot → slice_index_or self.new.off i 0 ≡ slice_index_or self.old.off i 0 }
        ensures window { (size : ℕ) (control : Control) (cpl : ℕ) (tlb : Translations)
            → IsWindow size control cpl tlb self.old → IsWindow size control cpl tlb self.new }
    {
        let page = place - place % 4096;
        self.off[slot] = page;
        drop_pages(&mut self.write, page);
    }

    /// Whether the page of this place is kept off.
    fn is_off(&self, place: u64) -> bool
        ensures { result ≡ false → (i : ℕ) → i < 4 → place ≢ slice_index_or self.now.off i 0 }
    {
        self.off[0] == place || self.off[1] == place || self.off[2] == place || self.off[3] == place
    }

    /// The place of the first byte of a read that changes nothing: its address is canonical, its bytes lie on one page, and
    /// that page's translation is kept and serves it.
    #[inline(always)]
    pub fn readable(
        &mut self,
        mem: &PhysMem,
        tlb: &Tlb,
        control: &Control,
        cpl: u8,
        va: u64,
        width: u8,
    ) -> Option<u64>
        requires width { (1 ≤ width) × (width ≤ 8) }
        requires frames { NamesFramesIn (length mem.now) tlb.now }
        requires window { IsWindow (length mem.now) control.now cpl tlb.now self.old }
        ensures window { IsWindow (length mem.now) control.now cpl tlb.now self.new }
        ensures off { self.new.off ≡ self.old.off }
        ensures place { IfSome result (λ first. answered (record { first = first; second = 0 }) tlb.now
            ≡ accessed (view_of mem.now control.now cpl) Read tlb.now va width) }
        ensures target { IfSome result (λ first. IsTarget (length mem.now) va width (record { first = first; second = 0 })) }
        ensures one { IfSome result (λ first. crosses va width ≡ false) }
        ensures fits { IfSome result (λ first. first + width ≤ length mem.now) }
    {
        // places are below 2^64
        let _frames = mem.frames();
        match self.read[page_slot(va)].place(va) {
            Some(place) => Some(place),
            None => self.read_elsewhere(mem, tlb, control, cpl, va, width),
        }
    }

    /// The same on another page, which is kept then.
    #[inline(never)]
    fn read_elsewhere(
        &mut self,
        mem: &PhysMem,
        tlb: &Tlb,
        control: &Control,
        cpl: u8,
        va: u64,
        width: u8,
    ) -> Option<u64>
        requires width { (1 ≤ width) × (width ≤ 8) }
        requires frames { NamesFramesIn (length mem.now) tlb.now }
        requires window { IsWindow (length mem.now) control.now cpl tlb.now self.old }
        ensures window { IsWindow (length mem.now) control.now cpl tlb.now self.new }
        ensures off { self.new.off ≡ self.old.off }
        ensures place { IfSome result (λ first. answered (record { first = first; second = 0 }) tlb.now
            ≡ accessed (view_of mem.now control.now cpl) Read tlb.now va width) }
        ensures target { IfSome result (λ first. IsTarget (length mem.now) va width (record { first = first; second = 0 })) }
        ensures one { IfSome result (λ first. crosses va width ≡ false) }
        ensures fits { IfSome result (λ first. first + width ≤ length mem.now) }
    {
        if crosses(va, width) {
            return None;
        }
        match kept_around(mem, tlb, Access::Read, control, cpl, va) {
            Some(page) => {
                self.read[page_slot(va)] = page;
                Some(page.base + va % 4096)
            }
            None => None,
        }
    }

    /// The same of a write; what may be written may be read.
    #[inline(always)]
    pub fn writable(
        &mut self,
        mem: &PhysMem,
        tlb: &Tlb,
        control: &Control,
        cpl: u8,
        va: u64,
        width: u8,
    ) -> Option<u64>
        requires width { (1 ≤ width) × (width ≤ 8) }
        requires frames { NamesFramesIn (length mem.now) tlb.now }
        requires window { IsWindow (length mem.now) control.now cpl tlb.now self.old }
        ensures window { IsWindow (length mem.now) control.now cpl tlb.now self.new }
        ensures off { self.new.off ≡ self.old.off }
        ensures apart { IfSome result (λ first. AreBeside self.old.off first width) }
        ensures place { IfSome result (λ first. answered (record { first = first; second = 0 }) tlb.now
            ≡ accessed (view_of mem.now control.now cpl) Write tlb.now va width) }
        ensures read { IfSome result (λ first. answered (record { first = first; second = 0 }) tlb.now
            ≡ accessed (view_of mem.now control.now cpl) Read tlb.now va width) }
        ensures target { IfSome result (λ first. IsTarget (length mem.now) va width (record { first = first; second = 0 })) }
        ensures one { IfSome result (λ first. crosses va width ≡ false) }
        ensures fits { IfSome result (λ first. first + width ≤ length mem.now) }
    {
        // places are below 2^64
        let _frames = mem.frames();
        match self.write[page_slot(va)].place(va) {
            Some(place) => Some(place),
            None => self.write_elsewhere(mem, tlb, control, cpl, va, width),
        }
    }

    /// The same on another page, which is kept then.
    #[inline(never)]
    fn write_elsewhere(
        &mut self,
        mem: &PhysMem,
        tlb: &Tlb,
        control: &Control,
        cpl: u8,
        va: u64,
        width: u8,
    ) -> Option<u64>
        requires width { (1 ≤ width) × (width ≤ 8) }
        requires frames { NamesFramesIn (length mem.now) tlb.now }
        requires window { IsWindow (length mem.now) control.now cpl tlb.now self.old }
        ensures window { IsWindow (length mem.now) control.now cpl tlb.now self.new }
        ensures off { self.new.off ≡ self.old.off }
        ensures apart { IfSome result (λ first. AreBeside self.old.off first width) }
        ensures place { IfSome result (λ first. answered (record { first = first; second = 0 }) tlb.now
            ≡ accessed (view_of mem.now control.now cpl) Write tlb.now va width) }
        ensures read { IfSome result (λ first. answered (record { first = first; second = 0 }) tlb.now
            ≡ accessed (view_of mem.now control.now cpl) Read tlb.now va width) }
        ensures target { IfSome result (λ first. IsTarget (length mem.now) va width (record { first = first; second = 0 })) }
        ensures one { IfSome result (λ first. crosses va width ≡ false) }
        ensures fits { IfSome result (λ first. first + width ≤ length mem.now) }
    {
        if crosses(va, width) {
            return None;
        }
        match kept_around(mem, tlb, Access::Write, control, cpl, va) {
            Some(page) if !self.is_off(page.base) => {
                self.write[page_slot(va)] = page;
                Some(page.base + va % 4096)
            }
            _ => None,
        }
    }
}

/// The page of `va`, where its translation is kept and serves the access.
fn kept_around(
    mem: &PhysMem,
    tlb: &Tlb,
    access: Access,
    control: &Control,
    cpl: u8,
    va: u64,
) -> Option<KeptPage>
    requires frames { NamesFramesIn (length mem.now) tlb.now }
    ensures room { IfSome result (λ page. page.room ≡ 4089) }
    ensures page { IfSome result (λ page. va / 4096 ≡ page.start / 4096) }
    ensures kept { IfSome result (IsKeptPage (length mem.now) control.now cpl access tlb.now) }
    ensures read { access ≡ Write → IfSome result (IsKeptPage (length mem.now) control.now cpl Read tlb.now) }
{
    access_law();
    if !canonical(va) {
        return None;
    }
    match kept_page(mem, tlb, access, control, cpl, va) {
        Some(place) => Some(KeptPage {
            start: va - va % 4096,
            base: place - va % 4096,
            room: ROOM,
            spare: 0,
        }),
        None => None,
    }
}
