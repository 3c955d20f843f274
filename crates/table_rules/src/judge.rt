//! The rules on a value, in order.

ghost use Rattle.std.specs.Prelude.{◌≡◌, ◌≤◌, ◌==◌, ◌/◌, ◌%◌};
ghost use Rattle.nk_bits.specs.EntryForms.{has_form, has_leaf_form, has_table_form};
ghost use Rattle.nk_bits.specs.Kinds.{allows, is_hidden, kind_of};
ghost use Rattle.nk_bits.specs.Paging.{frame_of, is_present, rights_of};
ghost use Rattle.nk_bits.specs.Rules.{rule_of};
ghost use Rattle.page_desc.specs.DescriptorBytes.{HoldsDescriptors, kinds_in};
ghost use Rattle.table_rules.specs.ValueRules.{is_target, value_rule};

use nk_bits::{Entry, Kind, Rights, Rule};
use page_desc::Frames;
use phys_mem::PhysMem;

/// The bits 8 and 7, which are clear in every form.
fn lacks_size_and_global(value: u64) -> bool
    ensures { result ≡ (value / 128 % 4 == 0) }
{
    (value >> 7) & 3 == 0
}

/// In a table of level 2 to 4: present, writable, user and accessed, cached, and no bit set above the frame's.
#[tactic(auto, unfolding(nk_bits::specs::EntryForms::has_table_form))]
fn has_table_form(value: u64) -> bool
    ensures { result ≡ has_table_form value }
{
    (value & 0x3F == 0x27) & lacks_size_and_global(value) & ((value >> 52) & 0xFFF == 0)
}

/// In a table of level 1: present and accessed, dirty where it is writable, cached, and no bit set above the frame's but
/// the last.
#[tactic(auto, unfolding(nk_bits::specs::EntryForms::has_leaf_form))]
fn has_leaf_form(entry: Entry) -> bool
    ensures { result ≡ has_leaf_form entry.0 }
{
    let value = entry.0;
    let is_accessed = entry.is_present() & ((value >> 3) & 7 == 4);
    let is_dirty = !entry.rights().can_write | ((value >> 6) & 1 == 1);
    is_accessed & is_dirty & lacks_size_and_global(value) & ((value >> 52) & 0x7FF == 0)
}

/// In a table of this level.
fn has_form(level: u8, entry: Entry) -> bool
    ensures { result ≡ has_form level entry.0 }
{
    if level == 1 {
        has_leaf_form(entry)
    } else {
        has_table_form(entry.0)
    }
}

/// Whether no leaf may name a frame of this kind.
fn is_hidden(kind: Kind) -> bool
    ensures { result ≡ is_hidden kind }
{
    match kind {
        Kind::Hidden => true,
        _ => false,
    }
}

/// Whether a leaf may name a frame of this kind with these rights.
fn allows(kind: Kind, rights: Rights) -> bool
    ensures { result ≡ allows kind rights }
{
    match kind {
        Kind::Data => rights.user | !rights.exec,
        Kind::Trap => !rights.user & !rights.exec,
        Kind::Hidden => false,
        Kind::Code | Kind::Table(_) | Kind::Fixed | Kind::Guarded => {
            !rights.can_write & !rights.user & !rights.exec
        }
    }
}

/// Whether the value names a frame in memory: for a leaf one that isn't hidden, for a link a table one level below.
fn is_target(frames: &Frames, mem: &PhysMem, level: u8, entry: Entry) -> bool
    requires held { HoldsDescriptors frames.now mem.now }
    ensures { result ≡ is_target (kinds_in mem.now) level entry.0 }
{
    let frame = entry.frame();
    let kind = frames.kind_named(mem, frame);
    let is_named = if level == 1 {
        !is_hidden(kind)
    } else {
        u16::from(kind.level()) + 1 == u16::from(level)
    };
    frames.is_inside(mem, frame) & is_named
}

/// Whether a leaf grants no right that the kind of its frame forbids.
fn is_allowed(frames: &Frames, mem: &PhysMem, entry: Entry) -> bool
    requires held { HoldsDescriptors frames.now mem.now }
    ensures { result ≡ allows (kind_of (kinds_in mem.now) (frame_of entry.0)) (rights_of entry.0) }
{
    allows(frames.kind_named(mem, entry.frame()), entry.rights())
}

/// Judges a value that is to stand in a table of this level, 1 to 4: the first rule that it breaks is the error.
#[tactic(auto, unfolding(crate::specs::ValueRules::value_rule))]
pub fn judge_entry(frames: &Frames, mem: &PhysMem, level: u8, value: u64) -> Result<(), Rule>
    requires level { (1 ≤ level) × (level ≤ 4) }
    requires held { HoldsDescriptors frames.now mem.now }
    ensures { rule_of result ≡ value_rule (kinds_in mem.now) level value }
{
    let entry = Entry(value);
    let is_present = entry.is_present();
    if is_present & !has_form(level, entry) {
        return Err(Rule::BadBits);
    }
    if is_present & !is_target(frames, mem, level, entry) {
        return Err(Rule::BadTarget);
    }
    if is_present & (level == 1) & !is_allowed(frames, mem, entry) {
        return Err(Rule::TooFree);
    }
    Ok(())
}
