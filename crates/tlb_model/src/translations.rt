//! The translations and the upper entries that are kept.

ghost use Rattle.std.specs.Prelude.{◌≡◌, ℕ, ◌+◌, ◌-◌, ◌<◌, ◌≤◌, IfOk, OnOk, Some, List, [], ◌∷◌, ◌++◌, ◌==◌, None, drop, length, vec_capacity};
ghost use Rattle.std.specs.List.{find};
ghost use Rattle.nk_bits.specs.UpperEntries.{upper_capacity, kept_for, HasDistinctEntries};
ghost use Rattle.nk_bits.specs.Translations.{Translations, capacity, look, dropped, youngest, flushed, faulted, invalidated, forgotten, with_leaf, entry_forgotten, entry_kept, HasDistinctPages};
ghost use Rattle.tlb_model.specs.TranslationTable.{IsTable, pairs_of};

use crate::entries::Entries;
use crate::table::Table;
use nk_bits::{Leaf, Upper};
use std::alloc::{AllocError, Global};
use std::marker::Model;

/// The most translations that are kept.
pub const CAPACITY: usize = 1024;

/// There is no room for the translations and the entries.
#[derive(Clone, Copy, Debug, PartialEq, Eq)]
pub struct NoMemory;

/// The translations kept, each under its page number: the linear address divided by 4,096. And the upper entries kept,
/// each under its level and the number that its pages share.
#[derive(Drop)]
pub struct Tlb {
    table: Box<Table>,
    upper: Entries,
}

impl Model for Tlb {
    ghost use Rattle.std.specs.Prelude.{ℕ, ◌≤◌, List, length, vec_capacity};
    ghost use Rattle.nk_bits.specs.UpperEntries.{upper_capacity, HasDistinctEntries};
    ghost use Rattle.nk_bits.specs.Translations.{Translations, capacity, HasDistinctPages};
    ghost use Rattle.tlb_model.specs.TranslationTable.{IsTable, pairs_of};

    ghost Value = { Translations };

    ghost view = { λ t. record { pairs = pairs_of t.table.value; upper = t.upper } };

    ghost invariant = { λ t. IsTable t.table.value × (length t.upper ≤ upper_capacity) × HasDistinctEntries t.upper };
}

impl Tlb {
    /// Nothing, and room for as many translations and entries as are ever kept. No other call takes memory.
    pub fn new(alloc: Global) -> Result<Tlb, NoMemory>
        ensures flushed { IfOk result (λ tlb. tlb ≡ flushed) }
        ensures bound { IfOk result (λ tlb. length tlb.pairs ≤ capacity) }
        ensures distinct { IfOk result (λ tlb. HasDistinctPages tlb.pairs) }
        ensures upper_bound { IfOk result (λ tlb. length tlb.upper ≤ upper_capacity) }
        ensures upper_distinct { IfOk result (λ tlb. HasDistinctEntries tlb.upper) }
    {
        match Entries::new(alloc) {
            Ok(upper) => with_entries(alloc, upper),
            Err(_) => Err(NoMemory),
        }
    }

    /// The leaf that is kept for a page.
    #[inline(always)]
    pub fn look(&self, page: u64) -> Option<Leaf>
        ensures found { result ≡ look self.now.pairs page }
        ensures bound { length self.now.pairs ≤ capacity }
        ensures distinct { HasDistinctPages self.now.pairs }
        ensures upper_bound { length self.now.upper ≤ upper_capacity }
        ensures upper_distinct { HasDistinctEntries self.now.upper }
    {
        self.table.look(page)
    }

    /// What is kept for a page at a level, 2 to 4: where a walk of the page may begin.
    pub fn kept(&self, level: u8, page: u64) -> Option<Upper>
        requires level { (2 ≤ level) × (level ≤ 4) }
        ensures found { result ≡ kept_for self.now.upper level page }
        ensures bound { length self.now.pairs ≤ capacity }
        ensures distinct { HasDistinctPages self.now.pairs }
        ensures upper_bound { length self.now.upper ≤ upper_capacity }
        ensures upper_distinct { HasDistinctEntries self.now.upper }
    {
        self.upper.kept(level, page)
    }

    /// Puts the translations behind those of a list, each under its page number, in the order in which they are kept.
    /// Err where there is no memory for them.
    pub fn list(&self, pairs: &mut Vec<(u64, Leaf)>) -> Result<(), AllocError>
        ensures listed { OnOk result (pairs.new.items ≡ pairs.old.items ++ self.now.pairs) }
    {
        self.table.list(pairs)
    }

    /// The upper entries in the order in which they are kept, each with its level and the number that its pages share.
    pub fn upper(&self) -> &[(u8, u64, Upper)]
        ensures listed { result.now ≡ self.now.upper }
        ensures bound { length self.now.upper ≤ upper_capacity }
        ensures distinct { HasDistinctEntries self.now.upper }
    {
        self.upper.as_slice()
    }

    /// Keeps a page's leaf as the youngest, in place of an older one of the page, or else of the oldest of all where
    /// as many are kept as there is room for.
    pub fn fill(&mut self, page: u64, leaf: Leaf)
        ensures filled { self.new ≡ with_leaf self.old page leaf }
        ensures bound { length self.new.pairs ≤ capacity }
        ensures distinct { HasDistinctPages self.new.pairs }
        ensures upper_bound { length self.new.upper ≤ upper_capacity }
        ensures upper_distinct { HasDistinctEntries self.new.upper }
    {
        self.table.fill(page, leaf);
    }

    /// Forgets a page's leaf alone, if one is kept.
    pub fn drop_page(&mut self, page: u64)
        ensures dropped { self.new ≡ forgotten self.old page }
        ensures bound { length self.new.pairs ≤ capacity }
        ensures distinct { HasDistinctPages self.new.pairs }
        ensures upper_bound { length self.new.upper ≤ upper_capacity }
        ensures upper_distinct { HasDistinctEntries self.new.upper }
    {
        self.table.drop_page(page);
    }

    /// Forgets a page's leaf and the entries that serve the page, as a page fault does.
    pub fn drop_fault(&mut self, page: u64)
        ensures faulted { self.new ≡ faulted self.old page }
        ensures bound { length self.new.pairs ≤ capacity }
        ensures distinct { HasDistinctPages self.new.pairs }
        ensures upper_bound { length self.new.upper ≤ upper_capacity }
        ensures upper_distinct { HasDistinctEntries self.new.upper }
    {
        self.drop_page(page);
        self.upper.uncover(page);
    }

    /// Forgets a page's leaf and every entry, as INVLPG does.
    pub fn invalidate(&mut self, page: u64)
        ensures invalidated { self.new ≡ invalidated self.old page }
        ensures bound { length self.new.pairs ≤ capacity }
        ensures distinct { HasDistinctPages self.new.pairs }
        ensures upper_bound { length self.new.upper ≤ upper_capacity }
        ensures upper_distinct { HasDistinctEntries self.new.upper }
    {
        self.drop_page(page);
        self.upper.clear();
    }

    /// Forgets every leaf and every entry.
    pub fn flush(&mut self)
        ensures flushed { self.new ≡ flushed }
        ensures bound { length self.new.pairs ≤ capacity }
        ensures distinct { HasDistinctPages self.new.pairs }
        ensures upper_bound { length self.new.upper ≤ upper_capacity }
        ensures upper_distinct { HasDistinctEntries self.new.upper }
    {
        self.table.flush();
        self.upper.clear();
    }

    /// Keeps what a page's entry of this level, 2 to 4, names, as the youngest entry: in place of an older one of the
    /// same level and pages, or else of the oldest of all where as many are kept as there is room for.
    pub fn keep(&mut self, level: u8, page: u64, upper: Upper)
        requires level { (2 ≤ level) × (level ≤ 4) }
        ensures kept { self.new ≡ entry_kept self.old level page (Some upper) }
        ensures bound { length self.new.pairs ≤ capacity }
        ensures distinct { HasDistinctPages self.new.pairs }
        ensures upper_bound { length self.new.upper ≤ upper_capacity }
        ensures upper_distinct { HasDistinctEntries self.new.upper }
    {
        self.upper.keep(level, page, upper);
    }

    /// Forgets a page's entry of this level, 2 to 4, if one is kept.
    pub fn forget(&mut self, level: u8, page: u64)
        requires level { (2 ≤ level) × (level ≤ 4) }
        ensures forgotten { self.new ≡ entry_forgotten self.old level page }
        ensures bound { length self.new.pairs ≤ capacity }
        ensures distinct { HasDistinctPages self.new.pairs }
        ensures upper_bound { length self.new.upper ≤ upper_capacity }
        ensures upper_distinct { HasDistinctEntries self.new.upper }
    {
        self.upper.forget(level, page);
    }
}

/// Room for the translations, beside these entries.
fn with_entries(alloc: Global, upper: Entries) -> Result<Tlb, NoMemory>
    requires none { upper ≡ [] }
    ensures { IfOk result (λ tlb. tlb ≡ flushed) }
{
    match Table::new(alloc) {
        Ok(table) => boxed(alloc, table, upper),
        Err(fault) => Err(fault),
    }
}

/// The table is boxed, so that a machine which moves stays small.
fn boxed(alloc: Global, table: Table, upper: Entries) -> Result<Tlb, NoMemory>
    requires table { IsTable table }
    requires none { pairs_of table ≡ [] }
    requires upper { upper ≡ [] }
    ensures { IfOk result (λ tlb. tlb ≡ flushed) }
{
    match Box::new(alloc, table) {
        Ok(table) => Ok(Tlb { table, upper }),
        Err(_) => Err(NoMemory),
    }
}
