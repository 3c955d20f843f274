//! What follows from the definitions for those who walk tables, keep translations and upper entries, make accesses
//! and judge frames. A claim is a test of a page number and its leaf, and one of an upper entry; tables are any
//! function from frame and index.

ghost use Rattle.nk_bits.specs.WalkLaws.{WalkLaws, UpperLaws, TableLaws};
ghost use Rattle.nk_bits.specs.TranslationLaws.{TranslationLaws, KeptLaws, NamedLaws};
ghost use Rattle.nk_bits.specs.AccessLaws.{SpanLaws, AccessLaws};
ghost use Rattle.nk_bits.specs.KindLaws.{KindLaws};

/// The walk by its look-ups: it is the recursion on the level, and goes on past an entry that isn't missing.
pub fn walk_law()
    ensures { WalkLaws }
{}

/// Where each byte's address is canonical, so are those of the first bytes on the two pages.
pub fn span_law()
    ensures { SpanLaws }
{}

/// The first look-ups of a walk, and the rest of it below what they found. Pages that share their number at a level
/// share the look-ups down to it.
pub fn upper_law()
    ensures { UpperLaws }
{}

/// What a look-up finds after a drop and after a fill.
pub fn translation_law()
    ensures { TranslationLaws }
{}

/// What goes on passing a claim over each change of what is kept, and what then passes of what is found.
pub fn kept_law()
    ensures { KeptLaws }
{}

/// Every frame that is named stays in memory over each change of what is kept, since a walk finds none outside.
pub fn named_law()
    ensures { NamedLaws }
{}

/// What passes a claim that each walk of a canonical page passes goes on doing so over an access; and where the access
/// finds its places, a translation that passes serves each. A fault's error code has five bits, and its address 64.
pub fn access_law()
    ensures { AccessLaws }
{}

/// What the kinds of frames allow, and that such frames are in memory.
pub fn kind_law()
    ensures { KindLaws }
{}

/// A table function with an entry replaced, with a table's entries 0, and with a new table.
pub fn table_law()
    ensures { TableLaws }
{}
