//! The frames of a range of pages, and the rules on them.

ghost use Rattle.std.specs.Prelude.{◌≡◌, ◌<◌, ◌≤◌, ℕ, ◌+◌, ◌*◌, ◌/◌, false, true, not, ◌==◌, length, slice_index, take, All, IfNone, IfSome, IfOk, OnOk, None, Some};
ghost use Rattle.std.specs.List.{list_any};
ghost use Rattle.phys_mem.specs.Memory.{entry_in};
ghost use Rattle.nk_bits.specs.Kinds.{is_data, kind_of};
ghost use Rattle.page_desc.specs.DescriptorBytes.{DiffersInDescriptors, HoldsDescriptors, descriptors_in, kinds_in};
ghost use Rattle.region_book.specs.RegionCalls.{pages_rule, frames_from, frames_rule, guarded, has_twice, is_bad_range, is_policy, mapped};
ghost use Rattle.region_book.specs.RegionRecords.{Book, IsEachOnce};
ghost use Rattle.nk_bits.specs.Rules.{rule_of};

use nk_bits::{Kind, Rule, canonical};
use page_desc::Frames;
use page_walk::walk;
use phys_mem::PhysMem;

/// The number of bytes of a page.
const PAGE_SIZE: u64 = 4096;

/// The most bytes of a range.
const MOST_BYTES: u64 = 65536;

/// The first page that lies past the last address.
const NO_PAGE: u64 = 1 << 52;

/// The most regions that live at once.
const MOST_REGIONS: usize = 256;

/// The most pages that are declared.
const MOST_PAGES: usize = 128;

/// The frames of at most 16 pages, in order.
#[derive(Clone, Copy)]
pub(crate) struct Pages {
    pub frames: [u16; 16],
    pub count: u32,
}

impl Pages {
    /// The frames that there are.
    pub(crate) fn list(&self) -> &[u16]
        requires { self.now.count ≤ 16 }
        ensures { result.now ≡ take self.now.count self.now.frames }
    {
        &self.frames[..self.count as usize]
    }
}

/// The frame that a page is mapped to, where its addresses are canonical.
fn frame_of(mem: &PhysMem, root: u32, page: u64) -> Option<u16>
    requires root { 4096 * root < length mem.now }
    ensures frame { result ≡ mapped (entry_in mem.now) (length mem.now / 4096) root page }
    ensures bound { IfSome result (λ frame. frame < length mem.now / 4096) }
{
    let frames = mem.frames();
    if page >= NO_PAGE {
        return None;
    }
    let va = page * PAGE_SIZE;
    if !canonical(va) {
        return None;
    }
    match walk(mem, root, va) {
        Ok(leaf) => Some(leaf.frame as u16),
        Err(_) => None,
    }
}

/// The frames of the pages of a range, where each is mapped.
pub(crate) fn pages_of(mem: &PhysMem, root: u32, va: u64, size: u64) -> Option<Pages>
    requires root { 4096 * root < length mem.now }
    requires range { is_bad_range va size ≡ false }
    ensures none { IfNone result (frames_from (mapped (entry_in mem.now) (length mem.now / 4096) root) (va / 4096) (size / 4096) ≡ None) }
    ensures some { IfSome result (λ p. frames_from (mapped (entry_in mem.now) (length mem.now / 4096) root) (va / 4096) (size / 4096)
        ≡ Some (take p.count p.frames)) }
    ensures count { IfSome result (λ p. (4096 * p.count ≡ size) × (p.count ≤ 16)) }
    ensures frames { IfSome result (λ p. All (λ f. f < length mem.now / 4096) (take p.count p.frames)) }
    ensures behind { IfSome result (λ p. (i : ℕ) → i < 16 → p.count ≤ i → slice_index p.frames i ≡ 0) }
{
    let first = va / PAGE_SIZE;
    let count = (size / PAGE_SIZE) as u32;
    let mut pages = Pages {
        frames: [0; 16],
        count,
    };
    for i in 0..count {
        match frame_of(mem, root, first + u64::from(i)) {
            Some(frame) => pages.frames[i as usize] = frame,
            None => return None,
        }
    }
    Some(pages)
}

/// Whether the range is out of bounds, or not of whole pages, 1 to 16.
pub(crate) fn is_bad_range(va: u64, size: u64) -> bool
    ensures { result ≡ is_bad_range va size }
{
    let is_uneven = (va % PAGE_SIZE != 0) | (size % PAGE_SIZE != 0);
    !canonical(va) | is_uneven | (size == 0) | (size > MOST_BYTES)
}

/// The frame stands in the list.
fn contains(list: &[u16], frame: u16) -> bool
    ensures { result ≡ list_any (λ other. other == frame) list.now }
{
    list.iter().any(|other| *other == frame)
}

/// Two places of the list hold the same frame.
fn has_twice(list: &[u16]) -> bool
    ensures twice { result ≡ has_twice list.now }
    ensures once { result ≡ false → IsEachOnce list.now }
{
    for place in 0..list.len() {
        if contains(&list[..place], list[place]) {
            return true;
        }
    }
    false
}

/// A frame of the list isn't data.
fn has_other(frames: &Frames, mem: &PhysMem, list: &[u16]) -> bool
    requires held { HoldsDescriptors frames.now mem.now }
    ensures { result ≡ list_any (λ f. not (is_data (kind_of (kinds_in mem.now) f))) list.now }
{
    list.iter()
        .any(|frame| !frames.kind(mem, u32::from(*frame)).is_data())
}

/// A loose leaf names a frame of the list.
fn has_loose(frames: &Frames, mem: &PhysMem, list: &[u16]) -> bool
    requires held { HoldsDescriptors frames.now mem.now }
    ensures { result ≡ list_any (λ f. not (slice_index (descriptors_in mem.now).loose f == 0)) list.now }
{
    list.iter()
        .any(|frame| frames.loose(mem, u32::from(*frame)) != 0)
}

/// The policy is one of the four.
fn is_policy(policy: u64) -> bool
    ensures { result ≡ is_policy policy }
{
    (1 <= policy) & (policy <= 4)
}

/// Judges the frames of a range, in a book of so many regions and of so many declared pages.
fn judge_frames(
    count: usize,
    declared: u32,
    frames: &Frames,
    mem: &PhysMem,
    list: &[u16],
    policy: u64,
) -> Result<(), Rule>
    requires held { HoldsDescriptors frames.now mem.now }
    ensures judged { (book : Book) → length book.regions ≡ count → book.declared ≡ declared → rule_of result
        ≡ frames_rule book (kinds_in mem.now) (slice_index (descriptors_in mem.now).loose) policy (Some list.now) }
    ensures policy { OnOk result ((1 ≤ policy) × (policy ≤ 4)) }
    ensures room { OnOk result ((count < 256) × (declared + length list.now ≤ 128)) }
    ensures once { OnOk result (IsEachOnce list.now) }
    ensures data { OnOk result (All (λ f. is_data (kind_of (kinds_in mem.now) f) ≡ true) list.now) }
{
    if has_twice(list) {
        return Err(Rule::BadRange);
    }
    if !is_policy(policy) {
        return Err(Rule::BadPolicy);
    }
    if count >= MOST_REGIONS {
        return Err(Rule::TooManyRegions);
    }
    if declared as usize + list.len() > MOST_PAGES {
        return Err(Rule::NoRoom);
    }
    if has_other(frames, mem, list) {
        return Err(Rule::NotData);
    }
    if has_loose(frames, mem, list) {
        return Err(Rule::StillLoose);
    }
    Ok(())
}

/// Judges that the pages of a range become a protected region, in a book of so many regions and of so many declared pages;
/// gives their frames.
#[tactic(auto, unfolding(crate::specs::RegionCalls::pages_rule))]
pub(crate) fn judge_declare(
    count: usize,
    declared: u32,
    frames: &Frames,
    mem: &PhysMem,
    root: u32,
    va: u64,
    size: u64,
    policy: u64,
) -> Result<Pages, Rule>
    requires held { HoldsDescriptors frames.now mem.now }
    requires root { 4096 * root < length mem.now }
    ensures judged { (book : Book) → length book.regions ≡ count → book.declared ≡ declared → rule_of result
        ≡ pages_rule book (kinds_in mem.now) (slice_index (descriptors_in mem.now).loose)
        (mapped (entry_in mem.now) (length mem.now / 4096) root) va size policy }
    ensures found { IfOk result (λ p. frames_from (mapped (entry_in mem.now) (length mem.now / 4096) root) (va / 4096) (size / 4096)
        ≡ Some (take p.count p.frames)) }
    ensures size { IfOk result (λ p. (4096 * p.count ≡ size) × (1 ≤ p.count) × (p.count ≤ 16)) }
    ensures policy { OnOk result ((1 ≤ policy) × (policy ≤ 4)) }
    ensures room { IfOk result (λ p. (count < 256) × (declared + p.count ≤ 128)) }
    ensures frames { IfOk result (λ p. All (λ f. f < length mem.now / 4096) (take p.count p.frames)) }
    ensures behind { IfOk result (λ p. (i : ℕ) → i < 16 → p.count ≤ i → slice_index p.frames i ≡ 0) }
    ensures once { IfOk result (λ p. IsEachOnce (take p.count p.frames)) }
    ensures data { IfOk result (λ p. All (λ f. is_data (kind_of (kinds_in mem.now) f) ≡ true) (take p.count p.frames)) }
{
    if is_bad_range(va, size) {
        return Err(Rule::BadRange);
    }
    let Some(pages) = pages_of(mem, root, va, size) else {
        return Err(Rule::BadRange);
    };
    if let Err(rule) = judge_frames(count, declared, frames, mem, pages.list(), policy) {
        return Err(rule);
    }
    Ok(pages)
}

/// Makes the frames guarded.
pub(crate) fn guard(frames: &mut Frames, mem: &mut PhysMem, pages: &Pages)
    requires held { HoldsDescriptors frames.old mem.old }
    requires count { pages.now.count ≤ 16 }
    requires within { All (λ f. f < frames.old) (take pages.now.count pages.now.frames) }
    ensures stays { frames.new ≡ frames.old }
    ensures guarded { descriptors_in mem.new
        ≡ record (descriptors_in mem.old) { kinds = guarded (kinds_in mem.old) (take pages.now.count pages.now.frames) } }
    ensures held { HoldsDescriptors frames.new mem.new }
    ensures elsewhere { DiffersInDescriptors mem.old mem.new }
{
    let list = pages.list();
    for frame in list {
        frames.set_kind(mem, u32::from(*frame), Kind::Guarded);
    }
}
