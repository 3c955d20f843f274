//! The pages of an access: each is looked up and judged.

ghost use Rattle.std.specs.Prelude.{◌≡◌, ℕ, ◌+◌, ◌-◌, ◌*◌, ◌/◌, ◌%◌, ◌^◌, ◌<◌, ◌≤◌, IsTrue, IfOk, IfSome, length};
ghost use Rattle.phys_mem.specs.Memory.{entry_in};
ghost use Rattle.nk_bits.specs.Paging.{page_of, is_canonical};
ghost use Rattle.nk_bits.specs.UpperEntries.{kept_for, walk_by};
ghost use Rattle.nk_bits.specs.Translations.{IsAccessible, NamesFramesIn, translation, tlb_after};
ghost use Rattle.nk_bits.specs.Outcomes.{outcome_of};
ghost use Rattle.nk_bits.specs.Accesses.{reached, judged};
ghost use Rattle.page_walk.specs.MemoryAccess.{view_of};
ghost use Rattle.page_walk.specs.WalkAnswers.{leaf_or_level};

use crate::kept::{kept_page, place_of};
use crate::rights::{fault_code, may};
use crate::span::page;
use nk_bits::{Access, AccessFault, Control, Leaf, Upper, access_law, named_law, translation_law};
use page_walk::{Missing, walk, walk_below};
use phys_mem::PhysMem;
use tlb_model::Tlb;

/// The place in memory of the byte at `va`, once its page is found and judged. A page that faults loses its translation
/// and the upper entries that serve it. Mostly a translation is kept that serves the access, and nothing changes.
#[inline(always)]
pub fn reach(
    mem: &PhysMem,
    tlb: &mut Tlb,
    access: Access,
    control: &Control,
    cpl: u8,
    va: u64,
) -> Result<u64, AccessFault>
    requires context { IsAccessible (length mem.now) control.now.root tlb.old }
    requires canonical { IsTrue (is_canonical va) }
    ensures outcome { outcome_of result tlb.new ≡ reached (view_of mem.now control.now cpl) access tlb.old va }
    ensures frames { NamesFramesIn (length mem.now) tlb.new }
    ensures agrees { IfOk result (λ place. place % 4096 ≡ va % 4096) }
    ensures inside { IfOk result (λ place. place + (4096 - va % 4096) ≤ length mem.now) }
{
    match kept_page(mem, tlb, access, control, cpl, va) {
        Some(place) => Ok(place),
        None => resolve(mem, tlb, access, control, cpl, va),
    }
}

/// The same, step by step: the translation is kept or walked for, and then it is judged.
#[inline(never)]
fn resolve(
    mem: &PhysMem,
    tlb: &mut Tlb,
    access: Access,
    control: &Control,
    cpl: u8,
    va: u64,
) -> Result<u64, AccessFault>
    requires context { IsAccessible (length mem.now) control.now.root tlb.old }
    requires canonical { IsTrue (is_canonical va) }
    ensures outcome { outcome_of result tlb.new ≡ reached (view_of mem.now control.now cpl) access tlb.old va }
    ensures frames { NamesFramesIn (length mem.now) tlb.new }
    ensures agrees { IfOk result (λ place. place % 4096 ≡ va % 4096) }
    ensures inside { IfOk result (λ place. place + (4096 - va % 4096) ≤ length mem.now) }
{
    access_law();
    let leaf = translate(mem, tlb, control.root, va);
    let answer = judge(mem, access, control, cpl, va, leaf);
    if answer.is_err() {
        tlb.drop_fault(page(va));
    }
    answer
}

/// The translation of a page of a canonical address: the one that is kept, or else the one that a walk finds, which is
/// filled.
pub fn translate(mem: &PhysMem, tlb: &mut Tlb, root: u32, va: u64) -> Option<Leaf>
    requires context { IsAccessible (length mem.now) root tlb.old }
    requires canonical { IsTrue (is_canonical va) }
    ensures found { result ≡ translation (entry_in mem.now) (length mem.now / 4096) root tlb.old (page_of va) }
    ensures tlb { tlb.new ≡ tlb_after (entry_in mem.now) (length mem.now / 4096) root tlb.old (page_of va) }
    ensures frame { IfSome result (λ leaf. 4096 * leaf.frame < length mem.now) }
    ensures frames { NamesFramesIn (length mem.now) tlb.new }
{
    translation_law();
    named_law();
    if let Some(leaf) = tlb.look(page(va)) {
        return Some(leaf);
    }
    match walk_kept(mem, tlb, root, va) {
        Ok(leaf) => {
            tlb.fill(page(va), leaf);
            Some(leaf)
        }
        Err(_) => None,
    }
}

/// The walk of a canonical address: it begins at the kept entry of the least level that serves the page, or else in the
/// table of level 4 in frame `root`.
///
/// Returns `Missing` with the first level whose entry is missing.
#[tactic(auto, unfolding(nk_bits::specs::UpperEntries::walk_by))]
pub fn walk_kept(mem: &PhysMem, tlb: &Tlb, root: u32, va: u64) -> Result<Leaf, Missing>
    requires context { IsAccessible (length mem.now) root tlb.now }
    requires canonical { IsTrue (is_canonical va) }
    ensures result { leaf_or_level result
        ≡ walk_by (entry_in mem.now) (length mem.now / 4096) root tlb.now.upper (page_of va) }
    ensures frame { IfOk result (λ leaf. 4096 * leaf.frame < length mem.now) }
{
    if let Some(second) = kept(tlb, 2, va) {
        return walk_below(mem, 2, &second, va);
    }
    if let Some(third) = kept(tlb, 3, va) {
        return walk_below(mem, 3, &third, va);
    }
    if let Some(fourth) = kept(tlb, 4, va) {
        return walk_below(mem, 4, &fourth, va);
    }
    walk(mem, root, va)
}

/// What is kept for the page at this level; its frame is in each memory that has all frames that are named.
fn kept(tlb: &Tlb, level: u8, va: u64) -> Option<Upper>
    requires level { (2 ≤ level) × (level ≤ 4) }
    ensures found { result ≡ kept_for tlb.now.upper level (page_of va) }
    ensures frame { (size : ℕ) → NamesFramesIn size tlb.now → IfSome result (λ it. 4096 * it.frame < size) }
{
    translation_law();
    tlb.kept(level, page(va))
}

/// The place of the byte at `va` where its page's translation serves the access.
fn judge(
    mem: &PhysMem,
    access: Access,
    control: &Control,
    cpl: u8,
    va: u64,
    leaf: Option<Leaf>,
) -> Result<u64, AccessFault>
    requires frame { IfSome leaf (λ leaf. 4096 * leaf.frame < length mem.now) }
    ensures result { result ≡ judged (view_of mem.now control.now cpl) access va leaf }
    ensures agrees { IfOk result (λ place. place % 4096 ≡ va % 4096) }
    ensures inside { IfOk result (λ place. place + (4096 - va % 4096) ≤ length mem.now) }
{
    match leaf {
        Some(leaf) if may(access, leaf.rights, control, cpl) => Ok(place_of(mem, leaf, va)),
        _ => Err(AccessFault::Page {
            code: fault_code(access, cpl, leaf.is_some()),
            address: va,
        }),
    }
}
