//! Loads, stores and fetches. A width is in bytes: 1, 2, 4 or 8.

ghost use Rattle.std.specs.Prelude.{◌≡◌, ◌+◌, ◌-◌, ◌%◌, ◌^◌, ◌<◌, ◌≤◌, if◌then◌else◌, IsTrue, IfErr, IfOk, OnErr, length};
ghost use Rattle.phys_mem.specs.Memory.{stored};
ghost use Rattle.nk_bits.specs.declared.access.Access.TheVariants.{Write, Fetch};
ghost use Rattle.nk_bits.specs.declared.fault.AccessFault.TheVariants.{NonCanonical};
ghost use Rattle.nk_bits.specs.Paging.{is_canonical};
ghost use Rattle.nk_bits.specs.Translations.{IsAccessible, NamesFramesIn};
ghost use Rattle.nk_bits.specs.Outcomes.{answered, refused, and_then, outcome_of};
ghost use Rattle.nk_bits.specs.Accesses.{IsAccessSize, IsTarget, accessed, completed, crosses, has_canonical_bytes, reached};
ghost use Rattle.page_walk.specs.MemoryAccess.{bytes_left, fetched, loaded, page_fetched, saved, stores_at, view_of, bytes_written};

use crate::bytes::{lend, read, write};
use crate::pages::reach;
use crate::span::{crosses, has_canonical_bytes, next_page};
use nk_bits::{Access, AccessFault, Control, Target, canonical, span_law};
use phys_mem::PhysMem;
use tlb_model::Tlb;

/// Reads the number of `width` bytes from `va` on, least significant first.
///
/// Fails where a byte's address isn't canonical, or where a page has no translation that serves the read.
pub fn load(
    mem: &PhysMem,
    tlb: &mut Tlb,
    control: &Control,
    cpl: u8,
    va: u64,
    width: u8,
) -> Result<u64, AccessFault>
    requires width { IsAccessSize width }
    requires context { IsAccessible (length mem.now) control.now.root tlb.old }
    ensures outcome { outcome_of result tlb.new ≡ loaded mem.now (view_of mem.now control.now cpl) tlb.old va width }
    ensures bound { IfOk result (λ value. value < 256 ^ width) }
    ensures frames { NamesFramesIn (length mem.now) tlb.new }
{
    match access(mem, tlb, Access::Read, control, cpl, va, width) {
        Ok(target) => Ok(read(mem, &target, va, width)),
        Err(fault) => Err(fault),
    }
}

/// Judges a write of `width` bytes from `va` on, and finds the places of its bytes in memory, for `commit`.
///
/// Fails where a byte's address isn't canonical, or where a page has no translation that serves the write.
pub fn check_store(
    mem: &PhysMem,
    tlb: &mut Tlb,
    control: &Control,
    cpl: u8,
    va: u64,
    width: u8,
) -> Result<Target, AccessFault>
    requires width { IsAccessSize width }
    requires context { IsAccessible (length mem.now) control.now.root tlb.old }
    ensures outcome { outcome_of result tlb.new ≡ accessed (view_of mem.now control.now cpl) Write tlb.old va width }
    ensures frames { NamesFramesIn (length mem.now) tlb.new }
    ensures places { IfOk result (λ target. IsTarget (length mem.now) va width target) }
{
    access(mem, tlb, Access::Write, control, cpl, va, width)
}

/// Puts the `width` low bytes of `value` at the places of a write from `va` on that was judged before.
pub fn commit(mem: &mut PhysMem, target: &Target, va: u64, width: u8, value: u64)
    requires width { IsAccessSize width }
    requires target { IsTarget (length mem.old) va width target.now }
    ensures stored { mem.new ≡ stored mem.old (stores_at va width target.now value) }
    ensures length { length mem.new ≡ length mem.old }
{
    write(mem, target, va, width, value);
}

/// Writes the `width` low bytes of `value` from `va` on, least significant first.
///
/// Fails where a byte's address isn't canonical, or where a page has no translation that serves the write; then no byte
/// of memory changes.
pub fn store(
    mem: &mut PhysMem,
    tlb: &mut Tlb,
    control: &Control,
    cpl: u8,
    va: u64,
    width: u8,
    value: u64,
) -> Result<(), AccessFault>
    requires width { IsAccessSize width }
    requires context { IsAccessible (length mem.old) control.now.root tlb.old }
    ensures outcome { outcome_of result tlb.new ≡ saved (view_of mem.old control.now cpl) tlb.old va width }
    ensures memory { mem.new ≡ bytes_written mem.old va width value
        (accessed (view_of mem.old control.now cpl) Write tlb.old va width).answer }
    ensures refused { OnErr result (mem.new ≡ mem.old) }
    ensures length { length mem.new ≡ length mem.old }
    ensures frames { NamesFramesIn (length mem.new) tlb.new }
{
    match check_store(mem, tlb, control, cpl, va, width) {
        Ok(target) => {
            commit(mem, &target, va, width, value);
            Ok(())
        }
        Err(fault) => Err(fault),
    }
}

/// The place in memory of the byte at `va`, judged for execution, like those behind it on its page.
///
/// Fails where the address isn't canonical, or where its page has no translation that serves the fetch.
#[inline(always)]
pub fn fetch_place(
    mem: &PhysMem,
    tlb: &mut Tlb,
    control: &Control,
    cpl: u8,
    va: u64,
) -> Result<u64, AccessFault>
    requires context { IsAccessible (length mem.now) control.now.root tlb.old }
    ensures outcome { outcome_of result tlb.new
        ≡ and_then (accessed (view_of mem.now control.now cpl) Fetch tlb.old va 1)
        (λ target after. answered target.first after) }
    ensures frames { NamesFramesIn (length mem.now) tlb.new }
    ensures agrees { IfOk result (λ place. place % 4096 ≡ va % 4096) }
    ensures page { IfOk result (λ place. place + (4096 - va % 4096) ≤ length mem.now) }
{
    place(mem, tlb, Access::Fetch, control, cpl, va)
}

/// Fetches the byte at `va` for execution.
///
/// Fails where the address isn't canonical, or where its page has no translation that serves the fetch.
pub fn fetch_byte(
    mem: &PhysMem,
    tlb: &mut Tlb,
    control: &Control,
    cpl: u8,
    va: u64,
) -> Result<u8, AccessFault>
    requires context { IsAccessible (length mem.now) control.now.root tlb.old }
    ensures outcome { outcome_of result tlb.new ≡ fetched mem.now (view_of mem.now control.now cpl) tlb.old va }
    ensures frames { NamesFramesIn (length mem.now) tlb.new }
{
    match access(mem, tlb, Access::Fetch, control, cpl, va, 1) {
        Ok(target) => Ok(mem.load8(target.first)),
        Err(fault) => Err(fault),
    }
}

/// Lends the bytes from `va` to its page's end, fifteen at most, judged for execution as the first one is.
///
/// Fails where the address isn't canonical, or where its page has no translation that serves the fetch.
#[inline(always)]
pub fn page_bytes<'m>(
    mem: &'m PhysMem,
    tlb: &mut Tlb,
    control: &Control,
    cpl: u8,
    va: u64,
) -> Result<&'m [u8], AccessFault>
    requires context { IsAccessible (length mem.now) control.now.root tlb.old }
    ensures found { IfOk result (λ bytes. answered bytes.now tlb.new
        ≡ page_fetched mem.now (view_of mem.now control.now cpl) tlb.old va) }
    ensures refused { IfErr result (λ fault. refused fault tlb.new
        ≡ page_fetched mem.now (view_of mem.now control.now cpl) tlb.old va) }
    ensures length { IfOk result (λ bytes. length bytes.now ≡ bytes_left va) }
    ensures frames { NamesFramesIn (length mem.now) tlb.new }
{
    match fetch_place(mem, tlb, control, cpl, va) {
        Ok(place) => Ok(lend(mem, va, place)),
        Err(fault) => Err(fault),
    }
}

/// The places of an access, once each of its pages is found and judged. Each caller has a copy of its own, in which the
/// kind of access is known.
#[inline(always)]
fn access(
    mem: &PhysMem,
    tlb: &mut Tlb,
    access: Access,
    control: &Control,
    cpl: u8,
    va: u64,
    width: u8,
) -> Result<Target, AccessFault>
    requires width { (1 ≤ width) × (width ≤ 8) }
    requires context { IsAccessible (length mem.now) control.now.root tlb.old }
    ensures outcome { outcome_of result tlb.new ≡ accessed (view_of mem.now control.now cpl) access tlb.old va width }
    ensures frames { NamesFramesIn (length mem.now) tlb.new }
    ensures places { IfOk result (λ target. IsTarget (length mem.now) va width target) }
{
    if crosses(va, width) {
        return access_across(mem, tlb, access, control, cpl, va, width);
    }
    match place(mem, tlb, access, control, cpl, va) {
        Ok(first) => Ok(Target { first, second: 0 }),
        Err(fault) => Err(fault),
    }
}

/// The place of the byte at `va`, once its page is found and judged.
#[inline(always)]
fn place(
    mem: &PhysMem,
    tlb: &mut Tlb,
    access: Access,
    control: &Control,
    cpl: u8,
    va: u64,
) -> Result<u64, AccessFault>
    requires context { IsAccessible (length mem.now) control.now.root tlb.old }
    ensures outcome { outcome_of result tlb.new ≡ (if is_canonical va
        then reached (view_of mem.now control.now cpl) access tlb.old va else refused NonCanonical tlb.old) }
    ensures frames { NamesFramesIn (length mem.now) tlb.new }
    ensures agrees { IfOk result (λ place. place % 4096 ≡ va % 4096) }
    ensures inside { IfOk result (λ place. place + (4096 - va % 4096) ≤ length mem.now) }
{
    if !canonical(va) {
        return Err(AccessFault::NonCanonical);
    }
    reach(mem, tlb, access, control, cpl, va)
}

/// The places of an access with two pages.
#[inline(never)]
fn access_across(
    mem: &PhysMem,
    tlb: &mut Tlb,
    access: Access,
    control: &Control,
    cpl: u8,
    va: u64,
    width: u8,
) -> Result<Target, AccessFault>
    requires width { (1 ≤ width) × (width ≤ 8) }
    requires two { IsTrue (crosses va width) }
    requires context { IsAccessible (length mem.now) control.now.root tlb.old }
    ensures outcome { outcome_of result tlb.new ≡ accessed (view_of mem.now control.now cpl) access tlb.old va width }
    ensures frames { NamesFramesIn (length mem.now) tlb.new }
    ensures places { IfOk result (λ target. IsTarget (length mem.now) va width target) }
{
    span_law();
    if !has_canonical_bytes(va, width) {
        return Err(AccessFault::NonCanonical);
    }
    match reach(mem, tlb, access, control, cpl, va) {
        Ok(first) => complete(mem, tlb, access, control, cpl, va, width, first),
        Err(fault) => Err(fault),
    }
}

/// The second page of an access whose first byte has this place.
fn complete(
    mem: &PhysMem,
    tlb: &mut Tlb,
    access: Access,
    control: &Control,
    cpl: u8,
    va: u64,
    width: u8,
    first: u64,
) -> Result<Target, AccessFault>
    requires width { (1 ≤ width) × (width ≤ 8) }
    requires two { IsTrue (crosses va width) }
    requires context { IsAccessible (length mem.now) control.now.root tlb.old }
    requires canonical { IsTrue (has_canonical_bytes va width) }
    requires agrees { first % 4096 ≡ va % 4096 }
    requires inside { first + (4096 - va % 4096) ≤ length mem.now }
    ensures outcome { outcome_of result tlb.new
        ≡ completed (view_of mem.now control.now cpl) access va width first tlb.old }
    ensures frames { NamesFramesIn (length mem.now) tlb.new }
    ensures places { IfOk result (λ target. IsTarget (length mem.now) va width target) }
{
    span_law();
    match reach(mem, tlb, access, control, cpl, next_page(va)) {
        Ok(second) => Ok(Target { first, second }),
        Err(fault) => Err(fault),
    }
}
