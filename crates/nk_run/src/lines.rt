//! The lines that the program writes.
ghost use Rattle.std.specs.Prelude.{◌≡◌, IfOk};
ghost use Rattle.std.specs.String.{string_bytes};
ghost use Rattle.nk_run.specs.Lines.{
  usage_line,
  no_memory_line,
  unread_line,
  longer_line,
  noroom_line,
  plan_line,
  journal_line,
  list_line,
  empty_line,
  nofit_line,
  noregion_line,
  text_line,
  noaddress_line,
  rights_text,
  frame_line,
  missing_line,
};

use boot_map::NoRoom;
use command_words::Role;
use nk_bits::{Leaf, Rights};
use std::alloc::{AllocError, Global};

/// The words have none of the forms.
#[tactic(auto, unfolding(crate::specs::Lines::usage_line))]
pub(crate) fn usage_line() -> &'static str
    ensures { result.now ≡ usage_line }
{
    "usage: nkrun scan IMAGE | map IMAGE FRAMES VA | run IMAGE INPUT PLAN STEPS FRAMES | replay IMAGE FRAMES JOURNAL | make NUMBER | work NUMBER | join IMAGE LIST | audit IMAGE FRAMES JOURNAL ID | asm TEXT | list IMAGE ADDR COUNT\n"
}

/// There was no memory.
#[tactic(auto, unfolding(crate::specs::Lines::no_memory_line))]
pub(crate) fn no_memory_line() -> &'static str
    ensures { result.now ≡ no_memory_line }
{
    "no memory\n"
}

/// A role's file couldn't be read.
#[tactic(auto, unfolding(crate::specs::Lines::unread_line))]
pub(crate) fn unread_line(role: Role) -> &'static str
    ensures { result.now ≡ unread_line role }
{
    match role {
        Role::Image => "unread image\n",
        Role::Input => "unread input\n",
        Role::Plan => "unread plan\n",
        Role::Journal => "unread journal\n",
        Role::ModuleList => "unread list\n",
        Role::Module(_) => "unread module\n",
        Role::Text => "unread text\n",
    }
}

/// A role's file has more bytes than such a file may have.
pub(crate) fn longer_line(role: Role) -> &'static str
    ensures { result.now ≡ longer_line role }
{
    match role {
        Role::Image => "longer image 67108864\n",
        Role::Input => "longer input 67108864\n",
        Role::Plan => "longer plan 67108864\n",
        Role::Journal => "longer journal 67108864\n",
        Role::ModuleList => "longer list 67108864\n",
        Role::Module(_) => "longer module 1048576\n",
        Role::Text => "longer text 67108864\n",
    }
}

/// The opening of the image needs more frames than there are.
#[tactic(auto, unfolding(crate::specs::Lines::noroom_line))]
pub(crate) fn noroom_line(alloc: Global, fault: &NoRoom) -> Result<String, AllocError>
    ensures { IfOk result
        (λ line. string_bytes line ≡ noroom_line fault.now.need fault.now.have) }
{
    let need = fault.need;
    let have = fault.have;
    format!(in alloc; "noroom {need} {have}\n")
}

/// The first line of the plan that is out of form, numbered from 1.
#[tactic(auto, unfolding(crate::specs::Lines::plan_line))]
pub(crate) fn plan_line(alloc: Global, number: u64) -> Result<String, AllocError>
    ensures { IfOk result (λ line. string_bytes line ≡ plan_line number) }
{
    format!(in alloc; "plan line {number}\n")
}

/// The first line of the journal that isn't right, numbered from 1.
#[tactic(auto, unfolding(crate::specs::Lines::journal_line))]
pub(crate) fn journal_line(alloc: Global, number: u64) -> Result<String, AllocError>
    ensures { IfOk result (λ line. string_bytes line ≡ journal_line number) }
{
    format!(in alloc; "journal line {number}\n")
}

/// The first line of the list of modules that is out of form, numbered from 1.
#[tactic(auto, unfolding(crate::specs::Lines::list_line))]
pub(crate) fn list_line(alloc: Global, number: u64) -> Result<String, AllocError>
    ensures { IfOk result (λ line. string_bytes line ≡ list_line number) }
{
    format!(in alloc; "list line {number}\n")
}

/// The first module without bytes, numbered from 0.
#[tactic(auto, unfolding(crate::specs::Lines::empty_line))]
pub(crate) fn empty_line(alloc: Global, number: u32) -> Result<String, AllocError>
    ensures { IfOk result (λ line. string_bytes line ≡ empty_line number) }
{
    format!(in alloc; "module {number} empty\n")
}

/// The modules don't fit behind the image.
#[tactic(auto, unfolding(crate::specs::Lines::nofit_line))]
pub(crate) fn nofit_line() -> &'static str
    ensures { result.now ≡ nofit_line }
{
    "nofit\n"
}

/// No call of the journal gave a region this identifier, or its writes aren't logged.
#[tactic(auto, unfolding(crate::specs::Lines::noregion_line))]
pub(crate) fn noregion_line(alloc: Global, id: u64) -> Result<String, AllocError>
    ensures { IfOk result (λ line. string_bytes line ≡ noregion_line id) }
{
    format!(in alloc; "noregion {id}\n")
}

/// The first line of the text that has no code, numbered from 1.
#[tactic(auto, unfolding(crate::specs::Lines::text_line))]
pub(crate) fn text_line(alloc: Global, number: u64) -> Result<String, AllocError>
    ensures { IfOk result (λ line. string_bytes line ≡ text_line number) }
{
    format!(in alloc; "text line {number}\n")
}

/// No code of the image stands at this address.
#[tactic(auto, unfolding(crate::specs::Lines::noaddress_line, report_text::specs::RunLines::hex_16))]
pub(crate) fn noaddress_line(alloc: Global, address: u64) -> Result<String, AllocError>
    ensures { IfOk result (λ line. string_bytes line ≡ noaddress_line address) }
{
    format!(in alloc; "noaddress {address:016x}\n")
}

/// The four letters of rights.
#[tactic(auto, unfolding(crate::specs::Lines::rights_text))]
fn rights_text(rights: Rights) -> &'static str
    ensures { result.now ≡ rights_text rights }
{
    match (rights.can_write, rights.exec, rights.user) {
        (false, false, false) => "r--s",
        (false, false, true) => "r--u",
        (false, true, false) => "r-xs",
        (false, true, true) => "r-xu",
        (true, false, false) => "rw-s",
        (true, false, true) => "rw-u",
        (true, true, false) => "rwxs",
        (true, true, true) => "rwxu",
    }
}

/// The frame of a translation, and its rights.
#[tactic(auto, unfolding(crate::specs::Lines::frame_line))]
pub(crate) fn frame_line(alloc: Global, leaf: Leaf) -> Result<String, AllocError>
    ensures { IfOk result (λ line. string_bytes line ≡ frame_line leaf.frame leaf.rights) }
{
    let frame = leaf.frame;
    let rights = rights_text(leaf.rights);
    format!(in alloc; "frame {frame} {rights}\n")
}

/// The first level whose entry is missing.
#[tactic(auto, unfolding(crate::specs::Lines::missing_line))]
pub(crate) fn missing_line(alloc: Global, level: u8) -> Result<String, AllocError>
    ensures { IfOk result (λ line. string_bytes line ≡ missing_line level) }
{
    format!(in alloc; "missing {level}\n")
}
