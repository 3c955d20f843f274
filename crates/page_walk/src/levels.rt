//! The look-ups of a walk, one a level.

ghost use Rattle.std.specs.Prelude.{◌≡◌, ◌+◌, ◌*◌, ◌/◌, ◌<◌, ◌≤◌, true, false, None, IsTrue, IfOk, IfErr, IfSome, length};
ghost use Rattle.phys_mem.specs.Memory.{entry_in};
ghost use Rattle.nk_bits.specs.Paging.{page_of, page_index, is_canonical, is_missing, frame_of, rights_of, all_rights, common, walk, walk_from, walk_below, upper_from, upper_walk};
ghost use Rattle.page_walk.specs.WalkAnswers.{leaf_or_level};

use nk_bits::{Entry, Leaf, Rights, Upper, index, upper_law, walk_law};
use phys_mem::PhysMem;

/// An entry on the path of a walk is missing: it isn't present, names a frame outside memory, or names a large page.
#[derive(Clone, Copy, Debug, PartialEq, Eq)]
pub struct Missing {
    /// The level of the table that holds the entry, 4 to 1.
    pub level: u8,
}

/// The rights that no entry has narrowed yet.
const ALL: Rights = Rights {
    can_write: true,
    user: true,
    exec: true,
};

/// Finds the frame of the page of a canonical address, and the rights common to its four entries, from the table of
/// level 4 in frame `root` down: SDM volume 3, 4.5.
///
/// Returns `Missing` with the first level whose entry is missing.
pub fn walk(mem: &PhysMem, root: u32, va: u64) -> Result<Leaf, Missing>
    requires root { 4096 * root < length mem.now }
    requires canonical { IsTrue (is_canonical va) }
    ensures result { leaf_or_level result ≡ walk (entry_in mem.now) (length mem.now / 4096) root (page_of va) }
    ensures frame { IfOk result (λ leaf. 4096 * leaf.frame < length mem.now) }
    ensures level { IfErr result (λ missing. (1 ≤ missing.level) × (missing.level ≤ 4)) }
{
    walk_law();
    descend(mem, 4, start(root), va)
}

/// Does what is left of the walk of a canonical address below an entry of this level, 2 to 4, that has been looked up
/// before: `from` is what it names, and the rights common to the entries down to it.
///
/// Returns `Missing` with the first level whose entry is missing.
pub fn walk_below(mem: &PhysMem, level: u8, from: &Upper, va: u64) -> Result<Leaf, Missing>
    requires level { (2 ≤ level) × (level ≤ 4) }
    requires from { 4096 * from.now.frame < length mem.now }
    requires canonical { IsTrue (is_canonical va) }
    ensures result { leaf_or_level result
        ≡ walk_below (entry_in mem.now) (length mem.now / 4096) (page_of va) level from.now }
    ensures frame { IfOk result (λ leaf. 4096 * leaf.frame < length mem.now) }
    ensures level { IfErr result (λ missing. (1 ≤ missing.level) × (missing.level < level)) }
{
    descend(mem, level - 1, *from, va)
}

/// Finds what the entry of this level, 2 to 4, names on the walk of a canonical address from the table of level 4 in
/// frame `root`, and the rights common to the entries down to it.
///
/// Returns `None` where one of these entries is missing.
pub fn upper(mem: &PhysMem, root: u32, va: u64, level: u8) -> Option<Upper>
    requires root { 4096 * root < length mem.now }
    requires level { (2 ≤ level) × (level ≤ 4) }
    requires canonical { IsTrue (is_canonical va) }
    ensures result { result ≡ upper_walk (entry_in mem.now) (length mem.now / 4096) root (page_of va) level }
    ensures frame { IfSome result (λ it. 4096 * it.frame < length mem.now) }
{
    lead(mem, 5 - level, 4, start(root), va)
}

/// Where each walk from this root begins.
fn start(root: u32) -> Upper
    ensures { result ≡ record { frame = root; rights = all_rights } }
{
    Upper {
        frame: root,
        rights: ALL,
    }
}

/// What is left of a walk that has reached a table of this level, or at level 0 the page.
fn descend(mem: &PhysMem, level: u8, reached: Upper, va: u64) -> Result<Leaf, Missing>
    requires level { level ≤ 4 }
    requires frame { 4096 * reached.frame < length mem.now }
    ensures result { leaf_or_level result
        ≡ walk_from (entry_in mem.now) (length mem.now / 4096) (page_of va) level reached.frame reached.rights }
    ensures frame { IfOk result (λ leaf. 4096 * leaf.frame < length mem.now) }
    ensures level { IfErr result (λ missing. (1 ≤ missing.level) × (missing.level ≤ level)) }
{
    walk_law();
    if level == 0 {
        return Ok(Leaf {
            frame: reached.frame,
            rights: reached.rights,
        });
    }
    let Some(next) = follow(mem, level, reached, va) else {
        return Err(Missing { level });
    };
    descend(mem, level - 1, next, va)
}

/// The first look-ups of a walk, as many as are left, from a table of this level.
fn lead(mem: &PhysMem, left: u8, level: u8, reached: Upper, va: u64) -> Option<Upper>
    requires left { left ≤ level }
    requires level { level ≤ 4 }
    requires frame { 4096 * reached.frame < length mem.now }
    ensures result { result
        ≡ upper_from (entry_in mem.now) (length mem.now / 4096) (page_of va) left level reached.frame reached.rights }
    ensures frame { IfSome result (λ it. 4096 * it.frame < length mem.now) }
{
    upper_law();
    if left == 0 {
        return Some(reached);
    }
    let Some(next) = follow(mem, level, reached, va) else {
        return None;
    };
    lead(mem, left - 1, level - 1, next, va)
}

/// What a walk reaches by the entry of this level, or `None` where the entry is missing.
fn follow(mem: &PhysMem, level: u8, reached: Upper, va: u64) -> Option<Upper>
    requires level { (1 ≤ level) × (level ≤ 4) }
    requires frame { 4096 * reached.frame < length mem.now }
    ensures missing { result ≡ None → is_missing (length mem.now / 4096) level
        (entry_in mem.now reached.frame (page_index (page_of va) level)) ≡ true }
    ensures past { IfSome result (λ next. is_missing (length mem.now / 4096) level
        (entry_in mem.now reached.frame (page_index (page_of va) level)) ≡ false) }
    ensures names { IfSome result (λ next.
        next.frame ≡ frame_of (entry_in mem.now reached.frame (page_index (page_of va) level))) }
    ensures rights { IfSome result (λ next. next.rights
        ≡ common reached.rights (rights_of (entry_in mem.now reached.frame (page_index (page_of va) level)))) }
    ensures frame { IfSome result (λ next. 4096 * next.frame < length mem.now) }
{
    let frames = mem.frames();
    let entry = entry_at(mem, reached.frame, level, va);
    if is_missing(entry, level, frames) {
        None
    } else {
        Some(Upper {
            frame: entry.frame() as u32,
            rights: common(reached.rights, entry.rights()),
        })
    }
}

/// The entry that an address selects in the table of this level in frame `table`.
fn entry_at(mem: &PhysMem, table: u32, level: u8, va: u64) -> Entry
    requires table { 4096 * table + 4096 ≤ length mem.now }
    requires level { (1 ≤ level) × (level ≤ 4) }
    ensures value { result.0 ≡ entry_in mem.now table (page_index (page_of va) level) }
{
    Entry(mem.entry(table, index(va, level) as u32))
}

/// Whether an entry of a table of this level leads nowhere, in a memory of so many frames.
fn is_missing(entry: Entry, level: u8, frames: u32) -> bool
    ensures value { result ≡ is_missing frames level entry.0 }
    ensures frame { result ≡ false → frame_of entry.0 < frames }
{
    let is_outside = entry.frame() >= u64::from(frames);
    let is_large_page = ((level == 3) | (level == 2)) & entry.is_large();
    !entry.is_present() | is_outside | is_large_page
}

/// The rights that both grant.
fn common(one: Rights, other: Rights) -> Rights
    ensures value { result ≡ common one other }
{
    Rights {
        can_write: one.can_write && other.can_write,
        user: one.user && other.user,
        exec: one.exec && other.exec,
    }
}
