//! A record of the script: a call of the nested kernel, by its number and its arguments; a switch to the user's code,
//! where its first number is negative; or the end, where that is 0.

ghost use Rattle.std.specs.Prelude.{◌≡◌, ◌<◌, ◌≤◌};
ghost use Rattle.image_maker.specs.MadeImage.{code_leaf, data_leaf, declare, made_link, number_in, protect, read_only, script_words};
ghost use Rattle.image_maker.specs.MadeWords.{as_script};

use crate::layout::{ENTRIES, PAGE_SIZE, leaf_table};
use nk_body::{DECLARE_TABLE, WRITE_ENTRY};

/// P, R/W, U/S and A: the low bits of an entry that names a table.
const LINK: u64 = 0x27;

/// P and A: those of a leaf that the supervisor may read.
const READ: u64 = 0x21;

/// P, U/S and A: those of a leaf that a user may read.
const USER_READ: u64 = 0x25;

/// P, R/W, U/S, A and D: those of a leaf that a user may read and write.
const USER_WRITE: u64 = 0x67;

/// XD: no fetches.
const NO_EXEC: u64 = 1 << 63;

/// The numbers of a record, one a register.
#[derive(Clone, Copy, Debug, PartialEq, Eq)]
pub struct ScriptRecord {
    pub rdi: u64,
    pub rsi: u64,
    pub rdx: u64,
    pub rcx: u64,
    pub r8: u64,
}

impl ScriptRecord {
    /// The number at a place, 0 to 4.
    pub fn number(&self, place: u64) -> u64
        ensures { result ≡ number_in (as_script self.now) place }
    {
        match place {
            0 => self.rdi,
            1 => self.rsi,
            2 => self.rdx,
            3 => self.rcx,
            _ => self.r8,
        }
    }
}

/// The record of these numbers.
pub fn words(rdi: u64, rsi: u64, rdx: u64, rcx: u64, r8: u64) -> ScriptRecord
    ensures { as_script result ≡ script_words rdi rsi rdx rcx r8 }
{
    ScriptRecord {
        rdi,
        rsi,
        rdx,
        rcx,
        r8,
    }
}

/// The leaf of a frame that the supervisor may read, and no one else.
fn read_only(frame: u64) -> u64
    requires { frame < 4096 }
    ensures { result ≡ read_only frame }
{
    NO_EXEC + PAGE_SIZE * frame + READ
}

/// The entry that names the table in a frame.
pub fn link(frame: u64) -> u64
    requires { frame < 4096 }
    ensures { result ≡ made_link frame }
{
    PAGE_SIZE * frame + LINK
}

/// The leaf of a user's code.
pub fn code_leaf(frame: u64) -> u64
    requires { frame < 4096 }
    ensures { result ≡ code_leaf frame }
{
    PAGE_SIZE * frame + USER_READ
}

/// The leaf of a user's data.
pub fn data_leaf(frame: u64) -> u64
    requires { frame < 4096 }
    ensures { result ≡ data_leaf frame }
{
    NO_EXEC + PAGE_SIZE * frame + USER_WRITE
}

/// The call that writes a value into an entry of a table.
pub fn write_entry(table: u64, index: u64, value: u64) -> ScriptRecord
    ensures { as_script result ≡ script_words 3 table index value 0 }
{
    words(WRITE_ENTRY, table, index, value, 0)
}

/// The call that takes the writable leaf of a frame out of the direct map.
pub fn protect(processes: u64, frame: u64) -> ScriptRecord
    requires processes { processes ≤ 100 }
    requires frame { frame < 4096 }
    ensures { as_script result ≡ protect processes frame }
{
    let table = leaf_table(processes, frame);
    write_entry(table, frame % ENTRIES, read_only(frame))
}

/// The call that declares a table of a level in a frame.
pub fn declare(level: u64, frame: u64) -> ScriptRecord
    ensures { as_script result ≡ declare level frame }
{
    words(DECLARE_TABLE, level, frame, 0, 0)
}
