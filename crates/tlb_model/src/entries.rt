//! The list of upper entries: where walks may begin.

ghost use Rattle.std.specs.Prelude.{◌≡◌, ℕ, ◌+◌, ◌-◌, ◌<◌, ◌≤◌, IfOk, [], not, ◌&&◌, ◌||◌, ◌==◌, drop, filter, length, vec_capacity};
ghost use Rattle.std.specs.List.{find};
ghost use Rattle.nk_bits.specs.UpperEntries.{upper_capacity, span_of, kept_for, without, uncovered, with_entry, HasDistinctEntries};

use crate::NoMemory;
use nk_bits::Upper;
use std::alloc::Global;
use std::marker::Model;

/// The most entries that are kept.
const CAPACITY: usize = 64;

/// Entries, each with its level and the number that the pages under it share.
#[derive(Drop)]
pub(crate) struct Entries {
    list: Vec<(u8, u64, Upper)>,
}

impl Model for Entries {
    ghost use Rattle.std.specs.Prelude.{ℕ, ◌≤◌, List, length, vec_capacity};
    ghost use Rattle.nk_bits.specs.declared.leaf.Upper.{Upper};
    ghost use Rattle.nk_bits.specs.UpperEntries.{upper_capacity, HasDistinctEntries};

    ghost Value = { List (ℕ × ℕ × Upper) };

    ghost view = { λ entries. entries.list.items };

    ghost invariant = { λ entries. (length entries.list.items ≤ upper_capacity) × (upper_capacity ≤ vec_capacity entries.list) × HasDistinctEntries entries.list.items };
}

impl Entries {
    /// No entry, and room for as many as are ever kept.
    pub(crate) fn new(alloc: Global) -> Result<Entries, NoMemory>
        ensures none { IfOk result (λ entries. entries ≡ []) }
    {
        match Vec::with_capacity(alloc, CAPACITY) {
            Ok(list) => Ok(with_room(list)),
            Err(_) => Err(NoMemory),
        }
    }

    /// The entries, oldest first.
    pub(crate) fn as_slice(&self) -> &[(u8, u64, Upper)]
        ensures { result.now ≡ self.now }
    {
        self.list.as_slice()
    }

    /// What is kept for a page at a level.
    pub(crate) fn kept(&self, level: u8, page: u64) -> Option<Upper>
        requires level { (2 ≤ level) × (level ≤ 4) }
        ensures found { result ≡ kept_for self.now level page }
    {
        find_upper(&self.list, level, span(level, page))
    }

    /// Keeps an entry as the youngest, in place of an older one of the same pages, or else of the oldest of all where
    /// as many are kept as there is room for.
    pub(crate) fn keep(&mut self, level: u8, page: u64, upper: Upper)
        requires level { (2 ≤ level) × (level ≤ 4) }
        ensures kept { self.new ≡ with_entry self.old level page upper }
        ensures bound { length self.new ≤ upper_capacity }
        ensures distinct { HasDistinctEntries self.new }
    {
        let bits = span(level, page);
        remove_entry(&mut self.list, level, bits);
        make_room(&mut self.list);
        self.list.push((level, bits, upper)).unwrap();
    }

    /// Forgets a page's entry of this level, if one is kept.
    pub(crate) fn forget(&mut self, level: u8, page: u64)
        requires level { (2 ≤ level) × (level ≤ 4) }
        ensures without { self.new ≡ without self.old level page }
        ensures bound { length self.new ≤ upper_capacity }
        ensures distinct { HasDistinctEntries self.new }
    {
        remove_entry(&mut self.list, level, span(level, page));
    }

    /// Forgets each entry that serves a page; mostly none is kept.
    #[inline]
    pub(crate) fn uncover(&mut self, page: u64)
        ensures uncovered { self.new ≡ uncovered self.old page }
        ensures bound { length self.new ≤ upper_capacity }
        ensures distinct { HasDistinctEntries self.new }
    {
        if !self.list.is_empty() {
            let second = span(2, page);
            let third = span(3, page);
            let fourth = span(4, page);
            remove_spans(&mut self.list, second, third, fourth);
        }
    }

    /// Forgets every entry.
    pub(crate) fn clear(&mut self)
        ensures none { self.new ≡ [] }
    {
        self.list.clear();
    }
}

/// The empty list, in this room.
fn with_room(list: Vec<(u8, u64, Upper)>) -> Entries
    requires none { list.items ≡ [] }
    requires room { vec_capacity list ≡ CAPACITY }
    ensures { result ≡ [] }
{
    Entries { list }
}

/// The number that a page shares with all pages under its entry of this level.
#[tactic(auto, unfolding(nk_bits::specs::UpperEntries::span_of))]
fn span(level: u8, page: u64) -> u64
    requires level { (2 ≤ level) × (level ≤ 4) }
    ensures { result ≡ span_of level page }
{
    match level {
        2 => page / 0x200,
        3 => page / 0x4_0000,
        _ => page / 0x800_0000,
    }
}

/// What the first entry of this level and these pages names.
fn find_upper(list: &[(u8, u64, Upper)], level: u8, bits: u64) -> Option<Upper>
    ensures { (page : ℕ) → bits ≡ span_of level page → result ≡ kept_for list.now level page }
{
    find_entry(list, level, bits).map(|entry| entry.2)
}

fn find_entry(list: &[(u8, u64, Upper)], level: u8, bits: u64) -> Option<(u8, u64, Upper)>
    ensures { result ≡ find (λ entry. (entry.0 == level) && (entry.1 == bits)) list.now }
{
    list.iter().copied().find(|entry| is_of(entry, level, bits))
}

/// Whether an entry has this level and this number.
fn is_of(entry: &(u8, u64, Upper), level: u8, bits: u64) -> bool
    ensures { result ≡ (entry.now.0 == level) && (entry.now.1 == bits) }
{
    entry.0 == level && entry.1 == bits
}

/// Removes the entry of this level and these pages.
fn remove_entry(list: &mut Vec<(u8, u64, Upper)>, level: u8, bits: u64)
    ensures without { list.new.items ≡ filter (λ entry. not ((entry.0 == level) && (entry.1 == bits))) list.old.items }
    ensures length { length list.new.items ≤ length list.old.items }
    ensures room { vec_capacity list.new ≡ vec_capacity list.old }
{
    list.retain(|entry| !is_of(entry, level, bits));
}

/// Removes the entries of these pages, a number a level.
fn remove_spans(list: &mut Vec<(u8, u64, Upper)>, second: u64, third: u64, fourth: u64)
    ensures uncovered { (page : ℕ) → second ≡ span_of 2 page → third ≡ span_of 3 page → fourth ≡ span_of 4 page
        → list.new.items ≡ uncovered list.old.items page }
    ensures length { length list.new.items ≤ length list.old.items }
    ensures room { vec_capacity list.new ≡ vec_capacity list.old }
{
    list.retain(|entry| !is_among(entry, second, third, fourth));
}

/// Whether an entry has one of these numbers, at its level.
fn is_among(entry: &(u8, u64, Upper), second: u64, third: u64, fourth: u64) -> bool
    ensures { result ≡ (entry.now.0 == 2 && entry.now.1 == second) || (entry.now.0 == 3 && entry.now.1 == third)
        || (entry.now.0 == 4 && entry.now.1 == fourth) }
{
    match entry.0 {
        2 => entry.1 == second,
        3 => entry.1 == third,
        4 => entry.1 == fourth,
        _ => false,
    }
}

/// Removes the oldest entry where there is no room for one more.
#[tactic(auto, unfolding(nk_bits::specs::UpperEntries::upper_capacity))]
fn make_room(list: &mut Vec<(u8, u64, Upper)>)
    requires fits { length list.old.items ≤ upper_capacity }
    ensures youngest { list.new.items ≡ drop (length list.old.items + 1 - upper_capacity) list.old.items }
    ensures fits { length list.new.items < upper_capacity }
    ensures room { vec_capacity list.new ≡ vec_capacity list.old }
{
    if list.len() == CAPACITY {
        list.remove(0);
    }
}
