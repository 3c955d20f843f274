//! Walks that begin at a kept upper entry, over the tables of `tests`: after SDM volume 3, 4.10.3.

use super::ALL;
use super::changes::Change::{KeepTable, Put, Start};
use super::steps::Step::{Load, Set, Store};
use super::steps::Width::{Eight, One};
use super::steps::wrong_step;
use mem_access::AccessFault::Page;

/// An entry of level 2 is kept, and the walks of pages 0 to 2 begin at it.
#[rattlefmt::skip]
#[test]
fn kept_entry_serves_until_a_fault(rt: HostRuntime) {
    let steps = &[
        // The entry of level 2 in memory is cleared, and serves until page 2, which has no entry of
        // level 1, faults.
        Set(Start(ALL, ALL)),
        Set(Put(0x8010, 5)),
        Set(Put(0x3000, 0)),
        Set(KeepTable(true)),
        Load(3, 0x10, Eight, Ok(5)),
        Load(3, 0x2000, One, Err(Page { code: 4, address: 0x2000 })),
        Load(3, 0x1000, One, Err(Page { code: 4, address: 0x1000 })),
        Load(3, 0x10, Eight, Ok(5)),
        // An entry without R/W: the fault drops it, and the walk from the root grants the write.
        Set(Start(ALL, ALL)),
        Set(KeepTable(false)),
        Store(3, 0x10, Eight, 5, Err(Page { code: 7, address: 0x10 })),
        Store(3, 0x10, Eight, 5, Ok(())),
    ];
    assert_eq!(rt; wrong_step(rt.alloc(), steps), None);
}
