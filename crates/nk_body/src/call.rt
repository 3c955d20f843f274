//! The calls of the nested kernel, as their words ask for them.

ghost use Rattle.std.specs.Prelude.{◌≡◌, ◌<◌, ◌^◌};
ghost use Rattle.nk_body.specs.CallLeft.{IsWide};
ghost use Rattle.nk_body.specs.Calls.{call_of};

use nk_bits::CallWords;

/// The numbers of the calls.
pub const SET_HANDLER: u64 = 1;

pub const DECLARE_TABLE: u64 = 2;

pub const WRITE_ENTRY: u64 = 3;

pub const REMOVE_TABLE: u64 = 4;

pub const LOAD_ROOT: u64 = 5;

pub const DECLARE_PAGES: u64 = 6;

pub const ALLOCATE: u64 = 7;

pub const FREE: u64 = 8;

pub const WRITE: u64 = 9;

/// A call, with its arguments by their names.
#[derive(Clone, Copy, Debug, PartialEq, Eq)]
pub enum Call {
    /// Call 1: the handler of traps stands at this address from now on.
    SetHandler {
        /// A linear address.
        address: u64,
    },
    /// Call 2: makes a frame of data a page table.
    DeclareTable {
        /// The table's level, 1 to 4.
        level: u64,
        /// The frame's number.
        frame: u64,
    },
    /// Call 3: writes an entry of a page table.
    WriteEntry {
        /// The number of the table's frame.
        table: u64,
        /// The entry's index, 0 to 511.
        index: u64,
        /// The entry.
        value: u64,
    },
    /// Call 4: makes a page table a frame of data.
    RemoveTable {
        /// The number of the table's frame.
        frame: u64,
    },
    /// Call 5: goes on with another table of level 4.
    LoadRoot {
        /// The number of the table's frame.
        frame: u64,
    },
    /// Call 6: makes the frames of a range of pages a protected region.
    DeclarePages {
        /// The linear address of the range's first byte.
        address: u64,
        /// The range's size in bytes.
        size: u64,
        /// The number of the region's policy, 1 to 4.
        policy: u64,
    },
    /// Call 7: allocates a region of the pool.
    Allocate {
        /// The region's size in bytes.
        size: u64,
        /// The number of the region's policy, 1 to 4.
        policy: u64,
    },
    /// Call 8: lets a region of the pool go.
    Free {
        /// The region's identifier.
        region: u64,
    },
    /// Call 9: writes bytes in a region.
    Write {
        /// The region's identifier.
        region: u64,
        /// The offset in the region of the first byte that is written, in bytes.
        offset: u64,
        /// The linear address of the first byte that is read.
        source: u64,
        /// How many bytes are written.
        count: u64,
    },
    /// Every other number is no call.
    NoCall,
}

/// The call that these words ask for.
#[tactic(auto, unfolding(crate::specs::Calls::call_of))]
pub fn call_of(words: &CallWords) -> Call
    ensures call { result ≡ call_of words.now }
    ensures wide { IsWide result }
{
    are_words(words);
    match words.number {
        SET_HANDLER => Call::SetHandler { address: words.a },
        DECLARE_TABLE => Call::DeclareTable {
            level: words.a,
            frame: words.b,
        },
        WRITE_ENTRY => Call::WriteEntry {
            table: words.a,
            index: words.b,
            value: words.c,
        },
        REMOVE_TABLE => Call::RemoveTable { frame: words.a },
        LOAD_ROOT => Call::LoadRoot { frame: words.a },
        DECLARE_PAGES => Call::DeclarePages {
            address: words.a,
            size: words.b,
            policy: words.c,
        },
        ALLOCATE => Call::Allocate {
            size: words.a,
            policy: words.b,
        },
        FREE => Call::Free { region: words.a },
        WRITE => Call::Write {
            region: words.a,
            offset: words.b,
            source: words.c,
            count: words.d,
        },
        _ => Call::NoCall,
    }
}

/// The arguments are numbers of 64 bits.
fn are_words(words: &CallWords)
    ensures { (words.now.a < 2 ^ 64) × (words.now.c < 2 ^ 64) }
{
    let _a = words.a;
    let _c = words.c;
}
