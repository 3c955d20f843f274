//! Accesses of data and of instructions, over the tables of `tests`: SDM volume 3, 4.6 to 4.10.

use super::changes::Change::{Flush, MapAll, Put, ReadPages, Start};
use super::steps::Step::{Check, Commit, Fetch, Holds, Keeps, Lend, Load, Refuse, Set, Store};
use super::steps::Width::{Eight, Four, One, Two};
use super::steps::wrong_step;
use super::{ABSENT, ALL, READ_ONLY};
use mem_access::AccessFault::{NonCanonical, Page};
use mem_access::Target;

/// What an instruction's bytes are, and what refuses them.
#[rattlefmt::skip]
#[test]
fn instructions_are_fetched_from_their_page(rt: HostRuntime) {
    let steps = &[
        // The supervisor executes no page of the user.
        Set(Start(READ_ONLY, ALL)),
        Set(Put(0x9000, 0xF4)),
        Fetch(0, 0x1000, Err(Page { code: 0x11, address: 0x1000 })),
        Fetch(3, 0x1000, Ok(0xF4)),
        // From a page's start on fifteen bytes, at its end those that are left, whatever the next
        // page is.
        Set(Start(ALL, ABSENT)),
        Set(Put(0x8000, 0x0807_0605_0403_0201)),
        Set(Put(0x8008, 0x100F_0E0D_0C0B_0A09)),
        Set(Put(0x8FF8, 0xF8F7_F6F5_F4F3_F2F1)),
        Set(Put(0x9000, u64::MAX)),
        Lend(3, 0, Ok(b"\x01\x02\x03\x04\x05\x06\x07\x08\x09\x0A\x0B\x0C\x0D\x0E\x0F")),
        Lend(3, 0xFF0, Ok(b"\0\0\0\0\0\0\0\0\xF1\xF2\xF3\xF4\xF5\xF6\xF7")),
        Lend(3, 0xFFD, Ok(b"\xF6\xF7\xF8")),
        Lend(3, 0xFFF, Ok(b"\xF8")),
        // The fault is that of the first byte.
        Set(Start(READ_ONLY, ABSENT)),
        Lend(0, 0xFFF, Err(Page { code: 0x11, address: 0xFFF })),
        Fetch(0, 0xFFF, Err(Page { code: 0x11, address: 0xFFF })),
        Lend(3, 0x1234, Err(Page { code: 0x14, address: 0x1234 })),
        Lend(3, 0x8000_0000_0000, Err(NonCanonical)),
    ];
    assert_eq!(rt; wrong_step(rt.alloc(), steps), None);
}

/// Stores on one page and over its end.
#[rattlefmt::skip]
#[test]
fn stores_change_their_own_bytes_alone(rt: HostRuntime) {
    let steps = &[
        // Eight bytes over the end of page 0.
        Set(Start(ALL, ALL)),
        Check(3, 0xFFD, Eight, Ok(Target { first: 0x8FFD, second: 0x9000 })),
        Store(3, 0xFFD, Eight, 0x8877_6655_4433_2211, Ok(())),
        Holds(0x8FFC, 0x7766_5544_3322_1100),
        Holds(0x9000, 0x88_7766_5544),
        Load(3, 0xFFD, Eight, Ok(0x8877_6655_4433_2211)),
        Load(3, 0xFFF, Two, Ok(0x4433)),
        Load(3, 0xFFD, One, Ok(0x11)),
        Load(3, 0x1000, Four, Ok(0x7766_5544)),
        // The write goes to the places of its check.
        Set(Start(ALL, ALL)),
        Commit(3, 0xFFF, Two, 0xAB_CDEF, Target { first: 0x8FFF, second: 0x9000 }),
        Holds(0x8FF8, 0xEF00_0000_0000_0000),
        Holds(0x9000, 0xCD),
        // Stores of fewer bytes leave those beside them.
        Set(Start(ALL, ALL)),
        Set(Put(0x8010, u64::MAX)),
        Store(3, 0x12, Four, 0x99_1234_5678, Ok(())),
        Store(3, 0x10, Two, 0x7_ABCD, Ok(())),
        Store(3, 0x17, One, 0x100, Ok(())),
        Holds(0x8010, 0xFF_1234_5678_ABCD),
        Load(3, 0x11, Four, Ok(0x3456_78AB)),
        Load(3, 0x13, Two, Ok(0x3456)),
        Load(3, 0x16, One, Ok(0xFF)),
    ];
    assert_eq!(rt; wrong_step(rt.alloc(), steps), None);
}

/// Page 1 is absent, then it may be read alone, and then it is the supervisor's; the same twice,
/// for each width.
#[rattlefmt::skip]
#[test]
fn second_page_refuses_each_crossing_store(rt: HostRuntime) {
    let steps = &[
        Set(Start(ALL, ABSENT)),
        Refuse(0, Two, true, 2, 1),
        Refuse(3, Eight, true, 6, 7),
        Set(Put(0x4008, 0x9005)),
        Refuse(0, Four, true, 3, 3),
        Refuse(3, Eight, true, 7, 7),
        Set(Put(0x4008, 0x9003)),
        Refuse(3, Four, true, 7, 3),
        Refuse(0, Eight, false, 3, 0),
        Set(Start(ALL, ABSENT)),
        Refuse(0, Four, true, 2, 3),
        Set(Put(0x4008, 0x9005)),
        Refuse(3, Two, true, 7, 1),
        Set(Put(0x4008, 0x9003)),
        Refuse(3, Two, true, 7, 1),
        Refuse(3, Eight, true, 7, 7),
    ];
    assert_eq!(rt; wrong_step(rt.alloc(), steps), None);
}

/// Accesses at the ends of both halves of the addresses.
#[rattlefmt::skip]
#[test]
fn addresses_wrap_and_are_canonical(rt: HostRuntime) {
    let last = 0xFFFF_FFFF_FFFF_FFFC;
    let steps = &[
        // The last page stands in frame 10. In the end nothing is kept, and page 0 is absent.
        Set(Start(ALL, ALL)),
        Set(Put(0x1FF8, 0x2007)),
        Set(Put(0x2FF8, 0x3007)),
        Set(Put(0x3FF8, 0x4007)),
        Set(Put(0x4FF8, 0xA005)),
        Set(Put(0xAFF8, 0x1234_5678_0000_0000)),
        Set(Put(0x8000, 0x9ABC_DEF0)),
        Load(3, last, Eight, Ok(0x9ABC_DEF0_1234_5678)),
        Store(3, last, Eight, 0, Err(Page { code: 7, address: last })),
        Set(Put(0x4000, 0x8006)),
        Set(Flush),
        Load(3, last, Eight, Err(Page { code: 4, address: 0 })),
        // No byte may lie between the canonical halves.
        Set(Start(ALL, ALL)),
        Load(0, 0x7FFF_FFFF_FFFF, Two, Err(NonCanonical)),
        Load(0, 0x8000_0000_0000, One, Err(NonCanonical)),
        Load(0, 0x7FFF_FFFF_FFFF, One, Err(Page { code: 0, address: 0x7FFF_FFFF_FFFF })),
        Fetch(0, 0xFFFF_7FFF_FFFF_FFFF, Err(NonCanonical)),
        Fetch(0, 0xFFFF_8000_0000_0000, Err(Page { code: 0x10, address: 0xFFFF_8000_0000_0000 })),
    ];
    assert_eq!(rt; wrong_step(rt.alloc(), steps), None);
}

/// What is kept counts, whatever memory holds, until a fault or a fill drops it.
#[rattlefmt::skip]
#[test]
fn translations_are_used_until_they_go(rt: HostRuntime) {
    let steps = &[
        // Page 0 may be written from the second step on, and is absent from the last but one on.
        Set(Start(READ_ONLY, ALL)),
        Load(0, 0x10, Eight, Ok(0)),
        Set(Put(0x4000, 0x8007)),
        Store(0, 0x10, Eight, 5, Err(Page { code: 3, address: 0x10 })),
        Holds(0x8010, 0),
        Store(0, 0x10, Eight, 5, Ok(())),
        Holds(0x8010, 5),
        Set(Put(0x4000, 0x8006)),
        Load(3, 0x10, Eight, Ok(5)),
        // Page 0's translation is the oldest, and goes as page 1's is filled; the places found by
        // it stay good.
        Set(Start(ALL, ALL)),
        Set(MapAll),
        Load(0, 0, Two, Ok(0x1007)),
        Set(ReadPages),
        Keeps(0, true),
        Commit(0, 0xFFE, Eight, 0x8877_6655_4433_2211, Target { first: 0x1FFE, second: 0x1000 }),
        Keeps(0, false),
        Keeps(1, true),
        Holds(0x1FF8, 0x2211_0000_0000_1007),
        Holds(0x1000, 0x8877_6655_4433),
    ];
    assert_eq!(rt; wrong_step(rt.alloc(), steps), None);
}
