//! What became of what the processor keeps of walks, each change put behind what stands in the line.

ghost use Rattle.std.specs.Prelude.{◌≡◌, ◌<◌, ◌≤◌, ◌==◌, ◌&&◌, ◌++◌, IfOk, OnOk, false, is_none, length, nat_lt, not, true};
ghost use Rattle.nk_bits.specs.Translations.{look};
ghost use Rattle.step_trace.specs.StepChanges.{
  Dropped,
  Filled,
  Forgotten,
  drops,
  fills,
  forgets,
  has_entry,
  has_pair,
  has_span,
  keeps,
  same_entry,
  same_pair,
  same_rights,
  translation_changes,
  where_so,
};
ghost use Rattle.step_trace.specs.StepChanges as change;
ghost use Rattle.step_trace.specs.StepTexts.{changes_text};
ghost use Rattle.step_trace.specs.ToldSteps.{kept_lists};

use crate::shown::{put_drop, put_fill, put_flush, put_forget, put_keep};
use cpu_step::Cpu;
use nk_bits::{Leaf, Rights, Upper};
use std::alloc::{AllocError, Global};
use tlb_model::CAPACITY;

/// A translation, under its page's number.
pub(crate) type Pair = (u64, Leaf);

/// An upper entry, with its level and the number that its pages share.
pub(crate) type Entry = (u8, u64, Upper);

/// What the processor keeps of walks, in lists.
#[derive(Drop)]
pub(crate) struct Kept {
    pub(crate) pairs: Vec<Pair>,
    pub(crate) upper: Vec<Entry>,
}

/// Whether two rights are the same.
/// What the processor keeps of walks now.
pub(crate) fn kept_of(alloc: Global, cpu: &Cpu) -> Result<Kept, AllocError>
    ensures { IfOk result (λ kept. kept_lists kept ≡ cpu.now.tlb) }
{
    let tlb = cpu.tlb();
    let mut pairs = Vec::with_capacity(alloc, CAPACITY)?;
    tlb.list(&mut pairs)?;
    let mut upper = Vec::new(alloc);
    upper.extend_from_slice(tlb.upper())?;
    Ok(Kept { pairs, upper })
}

fn same_rights(a: Rights, b: Rights) -> bool
    ensures { result ≡ same_rights a b }
{
    a.can_write == b.can_write && a.user == b.user && a.exec == b.exec
}

/// Whether two translations are the same, of one page.
fn same_pair(a: &Pair, b: &Pair) -> bool
    ensures { result ≡ same_pair a.now b.now }
{
    a.0 == b.0 && a.1.frame == b.1.frame && same_rights(a.1.rights, b.1.rights)
}

/// Whether two upper entries are the same, of one level and the same pages.
fn same_entry(a: &Entry, b: &Entry) -> bool
    ensures { result ≡ same_entry a.now b.now }
{
    a.0 == b.0 && a.1 == b.1 && a.2.frame == b.2.frame && same_rights(a.2.rights, b.2.rights)
}

/// The first place of a translation in a list, or the list's length.
fn first_place(pair: &Pair, pairs: &[Pair]) -> usize
    ensures { nat_lt result (length pairs.now) ≡ has_pair pair.now pairs.now }
{
    for i in 0..pairs.len() {
        if same_pair(pair, &pairs[i]) {
            return i;
        }
    }
    pairs.len()
}

/// Whether a translation stands at a place of a list.
fn stands_at(pair: &Pair, pairs: &[Pair], place: usize) -> bool
    ensures { result ≡ true → nat_lt place (length pairs.now) ≡ has_pair pair.now pairs.now }
{
    if place < pairs.len() {
        same_pair(pair, &pairs[place])
    } else {
        false
    }
}

/// A place of a translation in a list, or the list's length. The guess is looked at first.
fn place_of(pair: &Pair, pairs: &[Pair], guess: usize) -> usize
    ensures { nat_lt result (length pairs.now) ≡ has_pair pair.now pairs.now }
{
    if stands_at(pair, pairs, guess) {
        guess
    } else {
        first_place(pair, pairs)
    }
}

/// The place to be looked at next: behind the one where something was found.
fn next_guess(place: usize, count: usize, guess: usize) -> usize {
    if place < count {
        place.saturating_add(1)
    } else {
        guess
    }
}

/// A translation that is kept afterwards, unless it was before.
fn put_new_fill(line: &mut Vec<u8>, pair: &Pair, was_kept: bool) -> Result<(), AllocError>
    ensures { OnOk result (line.new.items ≡ line.old.items
        ++ changes_text (where_so (not was_kept) (Filled pair.now.0 pair.now.1))) }
{
    if was_kept {
        Ok(())
    } else {
        put_fill(line, pair.0, pair.1)
    }
}

/// The translations that are kept afterwards and weren't before.
pub(crate) fn put_fills(
    line: &mut Vec<u8>,
    before: &[Pair],
    after: &[Pair],
) -> Result<(), AllocError>
    ensures { OnOk result (line.new.items ≡ line.old.items ++ changes_text (fills before.now after.now)) }
{
    let mut guess = 0;
    for i in 0..after.len() {
        let place = place_of(&after[i], before, guess);
        guess = next_guess(place, before.len(), guess);
        put_new_fill(line, &after[i], place < before.len())?;
    }
    Ok(())
}

/// Whether a translation is of a page.
fn is_of(pair: &Pair, page: u64) -> bool
    ensures { result ≡ (pair.now.0 == page) }
{
    pair.0 == page
}

/// The first place of a page in a list, or the list's length.
fn first_page_place(page: u64, pairs: &[Pair]) -> usize
    ensures { not (nat_lt result (length pairs.now)) ≡ is_none (look pairs.now page) }
{
    for i in 0..pairs.len() {
        if is_of(&pairs[i], page) {
            return i;
        }
    }
    pairs.len()
}

/// Whether a page's translation stands at a place of a list.
#[tactic(auto, using(crate::proofs::KeptParts::page_found))]
fn page_stands_at(page: u64, pairs: &[Pair], place: usize) -> bool
    ensures { result ≡ true → not (nat_lt place (length pairs.now)) ≡ is_none (look pairs.now page) }
{
    if place < pairs.len() {
        is_of(&pairs[place], page)
    } else {
        false
    }
}

/// A place of a page in a list, or the list's length. The guess is looked at first.
fn page_place(page: u64, pairs: &[Pair], guess: usize) -> usize
    ensures { not (nat_lt result (length pairs.now)) ≡ is_none (look pairs.now page) }
{
    if page_stands_at(page, pairs, guess) {
        guess
    } else {
        first_page_place(page, pairs)
    }
}

/// A page whose translation was kept, unless one is kept afterwards.
fn put_new_drop(line: &mut Vec<u8>, page: u64, is_gone: bool) -> Result<(), AllocError>
    ensures { OnOk result (line.new.items ≡ line.old.items ++ changes_text (where_so is_gone (Dropped page))) }
{
    if is_gone {
        put_drop(line, page)
    } else {
        Ok(())
    }
}

/// The pages of which a translation was kept and none is afterwards.
pub(crate) fn put_drops(
    line: &mut Vec<u8>,
    before: &[Pair],
    after: &[Pair],
) -> Result<(), AllocError>
    ensures { OnOk result (line.new.items ≡ line.old.items ++ changes_text (drops before.now after.now)) }
{
    let mut guess = 0;
    for i in 0..before.len() {
        let place = page_place(before[i].0, after, guess);
        guess = next_guess(place, after.len(), guess);
        put_new_drop(line, before[i].0, !(place < after.len()))?;
    }
    Ok(())
}

/// Whether an upper entry is one of a list.
fn has_entry(entry: &Entry, upper: &[Entry]) -> bool
    ensures { result ≡ has_entry entry.now upper.now }
{
    for i in 0..upper.len() {
        if same_entry(entry, &upper[i]) {
            return true;
        }
    }
    false
}

/// Whether two entries have one level and the same pages.
fn same_span(a: &Entry, b: &Entry) -> bool
    ensures { result ≡ (a.now.0 == b.now.0 && a.now.1 == b.now.1) }
{
    a.0 == b.0 && a.1 == b.1
}

/// Whether an entry of a list has this one's level and pages.
fn has_span(entry: &Entry, upper: &[Entry]) -> bool
    ensures { result ≡ has_span entry.now upper.now }
{
    for i in 0..upper.len() {
        if same_span(entry, &upper[i]) {
            return true;
        }
    }
    false
}

/// An upper entry that is kept afterwards, unless it was before.
fn put_new_keep(line: &mut Vec<u8>, entry: &Entry, before: &[Entry]) -> Result<(), AllocError>
    ensures { OnOk result (line.new.items ≡ line.old.items
        ++ changes_text (where_so (not (has_entry entry.now before.now)) (change.Kept entry.now.0 entry.now.1 entry.now.2))) }
{
    if has_entry(entry, before) {
        Ok(())
    } else {
        put_keep(line, entry.0, entry.1, entry.2)
    }
}

/// The upper entries that are kept afterwards and weren't before.
pub(crate) fn put_keeps(
    line: &mut Vec<u8>,
    before: &[Entry],
    after: &[Entry],
) -> Result<(), AllocError>
    ensures { OnOk result (line.new.items ≡ line.old.items ++ changes_text (keeps before.now after.now)) }
{
    for i in 0..after.len() {
        put_new_keep(line, &after[i], before)?;
    }
    Ok(())
}

/// An upper entry that was kept, unless one of its level and pages is kept afterwards.
fn put_new_forget(line: &mut Vec<u8>, entry: &Entry, after: &[Entry]) -> Result<(), AllocError>
    ensures { OnOk result (line.new.items ≡ line.old.items
        ++ changes_text (where_so (not (has_span entry.now after.now)) (Forgotten entry.now.0 entry.now.1))) }
{
    if has_span(entry, after) {
        Ok(())
    } else {
        put_forget(line, entry.0, entry.1)
    }
}

/// The upper entries that were kept and of whose level and pages none is afterwards.
pub(crate) fn put_forgets(
    line: &mut Vec<u8>,
    before: &[Entry],
    after: &[Entry],
) -> Result<(), AllocError>
    ensures { OnOk result (line.new.items ≡ line.old.items ++ changes_text (forgets before.now after.now)) }
{
    for i in 0..before.len() {
        put_new_forget(line, &before[i], after)?;
    }
    Ok(())
}

/// The translations that came and went.
fn put_pairs(line: &mut Vec<u8>, before: &[Pair], after: &[Pair]) -> Result<(), AllocError>
    ensures { OnOk result (line.new.items ≡ line.old.items
        ++ changes_text (fills before.now after.now ++ drops before.now after.now)) }
{
    put_fills(line, before, after)?;
    put_drops(line, before, after)
}

/// The upper entries that came and went.
fn put_upper(line: &mut Vec<u8>, before: &[Entry], after: &[Entry]) -> Result<(), AllocError>
    ensures { OnOk result (line.new.items ≡ line.old.items
        ++ changes_text (keeps before.now after.now ++ forgets before.now after.now)) }
{
    put_keeps(line, before, after)?;
    put_forgets(line, before, after)
}

/// All that came and went, where not all went.
fn put_each(line: &mut Vec<u8>, before: &Kept, after: &Kept) -> Result<(), AllocError>
    ensures { OnOk result (line.new.items ≡ line.old.items
        ++ changes_text (translation_changes false
        (record { pairs = before.now.pairs.items; upper = before.now.upper.items })
        (record { pairs = after.now.pairs.items; upper = after.now.upper.items }))) }
{
    put_pairs(line, before.pairs.as_slice(), after.pairs.as_slice())?;
    put_upper(line, before.upper.as_slice(), after.upper.as_slice())
}

/// What became of all that the processor keeps of walks.
pub(crate) fn put_kept(
    line: &mut Vec<u8>,
    flushed: bool,
    before: &Kept,
    after: &Kept,
) -> Result<(), AllocError>
    ensures { OnOk result (line.new.items ≡ line.old.items
        ++ changes_text (translation_changes flushed
        (record { pairs = before.now.pairs.items; upper = before.now.upper.items })
        (record { pairs = after.now.pairs.items; upper = after.now.upper.items }))) }
{
    if flushed {
        put_flush(line)
    } else {
        put_each(line, before, after)
    }
}
