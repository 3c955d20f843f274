//! Calls on the opening, and what they leave.

use super::cases::{Case, Found, Start, wrong_case};
use super::{HALTS, NOWHERE, PAGE, POOL, READABLE, Row, WRITABLE};
use nk_bits::Kind;
use region_book::Region;
use write_log::Noted;

/// The handler of the opening. Canonical addresses are those whose bits 63 to 47 are equal (SDM volume 1, 3.3.7.1).
#[test]
fn a_handler_of_the_opening(rt: HostRuntime) {
    let cases = [
        Case {
            calls: &[((1, 0x8000_0000_0000, 2, 3), 27)],
            found: &[Found::Opening(HALTS, WRITABLE, Kind::Data)],
        },
        Case {
            calls: &[((1, 0xFFFF_7FFF_FFFF_FFFF, 2, 3), 27)],
            found: &[Found::Opening(HALTS, WRITABLE, Kind::Data)],
        },
        Case {
            calls: &[((1, 0x8000_0000_0000_0000, 2, 3), 27)],
            found: &[Found::Opening(HALTS, WRITABLE, Kind::Data)],
        },
        Case {
            calls: &[((1, 0x7FFF_FFFF_FFFF, 2, 3), 0)],
            found: &[Found::Opening(0x7FFF_FFFF_FFFF, WRITABLE, Kind::Data)],
        },
        Case {
            calls: &[((1, 0xFFFF_8000_0000_0000, 2, 3), 0)],
            found: &[Found::Opening(0xFFFF_8000_0000_0000, WRITABLE, Kind::Data)],
        },
        Case {
            calls: &[((1, 0xFFFF_FFFF_8000_0123, 2, 3), 0)],
            found: &[Found::Opening(0xFFFF_FFFF_8000_0123, WRITABLE, Kind::Data)],
        },
        Case {
            calls: &[((1, 0, 2, 3), 0)],
            found: &[Found::Opening(0, WRITABLE, Kind::Data)],
        },
    ];
    assert_eq!(rt; wrong_case(rt.alloc(), Start::Opening(512), &cases), None);
}

/// A refused call keeps the handler that was set.
const NAMED: [(Row, u64); 3] = [
    ((1, 0x40_1000, 2, 3), 0),
    ((1, 0x8000_0000_0000_0000, 2, 3), 27),
    ((10, 0x1000, 2, 3), 1),
];

/// Each rule broken on the opening, in which nothing changes; where a call breaks two, the first is the answer.
pub(super) const REFUSED: [(Row, u64); 42] = [
    ((0, 0x1000, 0, 0), 1),
    ((10, 0x1000, 0, 0), 1),
    ((0x8000_0000_0000_0001, 0x1000, 0, 0), 1),
    ((1, 0x8000_0000_0000, 0, 0), 27),
    ((2, 9, 600, 0), 2),
    ((2, 1, 0x1_0000_0047, 0), 2),
    ((2, 5, 71, 0), 3),
    ((2, 0, 71, 0), 3),
    ((2, 1, 0, 0), 4),
    ((2, 1, 67, 0), 4),
    ((2, 1, 71, 0), 5),
    ((3, 600, 0, 0), 2),
    ((3, 6, 0, 0), 6),
    ((3, 70, 512, 0), 7),
    ((3, 5, 511, 0), 8),
    ((3, 70, 71, 0x4_7003), 9),
    ((3, 70, 71, 0x8000_0000_0020_0021), 10),
    ((3, 70, 71, 0x8000_0000_0001_A021), 10),
    ((3, 5, 0, 0x5027), 10),
    ((3, 70, 71, 0x8000_0000_0000_5025), 11),
    ((3, 70, 71, 0x4_7021), 11),
    ((4, 5, 0, 0), 12),
    ((4, 70, 0, 0), 12),
    ((5, 71, 0, 0), 14),
    ((6, 0x8000_0000_0000, 4096, 1), 15),
    ((6, PAGE + 1, 4096, 1), 15),
    ((6, PAGE, 0, 1), 15),
    ((6, PAGE, 4095, 5), 15),
    ((6, PAGE, 0x1_1000, 1), 15),
    ((6, 0x1000, 4096, 5), 15),
    ((6, PAGE, 4096, 0), 16),
    ((6, PAGE, 4096, 5), 16),
    ((6, PAGE - 4096, 4096, 1), 4),
    ((6, PAGE - 4096, 8192, 1), 4),
    ((6, PAGE, 4096, 1), 5),
    ((7, 0, 5, 0), 15),
    ((7, 0x1_0001, 1, 0), 15),
    ((7, 16, 0, 0), 16),
    ((7, 16, 5, 0), 16),
    ((8, 256, 0, 0), 19),
    ((9, 256, 0, 4), 19),
    ((9, 0, 0, 0), 19),
];

/// A frame becomes a page table once no leaf of it is loose, and data again once it is empty and nothing names it.
pub(super) const TABLE: [(Row, u64); 11] = [
    ((3, 70, 71, WRITABLE), 0),
    ((4, 5, 0, 0), 12),
    ((3, 70, 71, READABLE), 0),
    ((2, 1, 71, 0), 0),
    ((3, 70, 71, WRITABLE), 11),
    ((3, 71, 0, READABLE), 0),
    ((4, 71, 0, 0), 13),
    ((3, 71, 0, 0), 0),
    ((4, 71, 0, 0), 0),
    ((4, 71, 0, 0), 6),
    ((5, 71, 0, 0), 14),
];

/// A new root, which lends the opening's tables, after which the opening's own can go.
pub(super) const ROOTS: [(Row, u64); 13] = [
    ((3, 70, 71, READABLE), 0),
    ((2, 4, 71, 0), 0),
    ((3, 71, 511, 0), 8),
    ((3, 71, 256, 0x4_4027), 0),
    ((4, 5, 0, 0), 12),
    ((5, 71, 0, 0), 0),
    ((4, 71, 0, 0), 12),
    ((4, 5, 0, 0), 13),
    ((3, 5, 256, 0), 0),
    ((4, 68, 0, 0), 12),
    ((4, 5, 0, 0), 0),
    ((5, 5, 0, 0), 14),
    ((2, 4, 5, 0), 0),
];

#[test]
fn handler_tables_and_roots(rt: HostRuntime) {
    let cases = [
        Case {
            calls: &NAMED,
            found: &[Found::Opening(0x40_1000, WRITABLE, Kind::Data)],
        },
        Case {
            calls: &REFUSED,
            found: &[Found::Opening(HALTS, WRITABLE, Kind::Data)],
        },
        Case {
            calls: &TABLE,
            found: &[Found::Opening(HALTS, READABLE, Kind::Data)],
        },
        Case {
            calls: &TABLE[..7],
            found: &[Found::Opening(HALTS, READABLE, Kind::Table(1))],
        },
        Case {
            calls: &ROOTS,
            found: &[
                Found::Root(71),
                Found::Handler(HALTS),
                Found::Leaf(READABLE, Kind::Table(4)),
                Found::Regions(256, 0, 0, 0),
            ],
        },
    ];
    assert_eq!(rt; wrong_case(rt.alloc(), Start::Opening(512), &cases), None);
}

/// A write-once region, of which a byte is written once.
pub(super) const ONCE: [(Row, u64); 9] = [
    ((7, 16, 1, POOL), 256),
    ((9, 256, 0, 4), 0),
    ((9, 256, 3, 2), 24),
    ((9, 256, 4, 2), 0),
    ((9, 256, 6, NOWHERE + 1), 22),
    ((9, 256, 6, 0), 21),
    ((9, 300, 0, 1), 19),
    ((7, 16, 5, 0), 16),
    ((7, 0, 1, 0), 15),
];

/// An append-only region, which is written at its tail, and one that is never written.
pub(super) const TAIL: [(Row, u64); 9] = [
    ((7, 8, 2, POOL), 256),
    ((9, 256, 0, 5), 0),
    ((9, 256, 5, 3), 0),
    ((9, 256, 8, 1), 21),
    ((9, 256, 5, 1), 25),
    ((9, 256, 5, NOWHERE + 1), 22),
    ((7, 8, 3, POOL + 16), 257),
    ((9, 257, 0, 1), 23),
    ((9, 257, 0, NOWHERE + 1), 22),
];

/// The pool is full, and a region is let go.
const FULL: [(Row, u64); 5] = [
    ((7, 0x1_0000, 4, POOL), 256),
    ((7, 1, 1, 0), 18),
    ((8, 256, 0, 0), 0),
    ((7, 1, 1, POOL), 257),
    ((8, 256, 0, 0), 19),
];

/// A page that only reading reaches becomes a region.
pub(super) const DECLARED: [(Row, u64); 12] = [
    ((6, PAGE, 4095, 1), 15),
    ((6, PAGE, 4096, 5), 16),
    ((6, PAGE, 4096, 1), 5),
    ((3, 70, 71, READABLE), 0),
    ((3, 70, 72, READABLE), 0),
    ((6, PAGE, 8192, 1), 15),
    ((6, PAGE, 4096, 1), 256),
    ((6, PAGE, 4096, 1), 4),
    ((8, 256, 0, 0), 20),
    ((8, 999, 0, 0), 19),
    ((9, 256, 4092, 4), 0),
    ((9, 256, 4095, 1), 24),
];

#[test]
fn regions_of_the_pool_and_of_a_page(rt: HostRuntime) {
    let cases = [
        Case {
            calls: &ONCE,
            found: &[
                Found::Root(5),
                Found::Handler(HALTS),
                Found::Leaf(WRITABLE, Kind::Data),
                Found::Regions(257, 1, 0, 0xFA9C_8949_FA9C),
            ],
        },
        Case {
            calls: &TAIL,
            found: &[
                Found::Root(5),
                Found::Handler(HALTS),
                Found::Leaf(WRITABLE, Kind::Data),
                Found::Regions(258, 2, 0, 0x49FA_9CE2_8949_FA9C),
            ],
        },
        Case {
            calls: &FULL,
            found: &[
                Found::Root(5),
                Found::Handler(HALTS),
                Found::Leaf(WRITABLE, Kind::Data),
                Found::Regions(258, 1, 0, 0),
            ],
        },
        Case {
            calls: &DECLARED,
            found: &[
                Found::Root(5),
                Found::Handler(HALTS),
                Found::Leaf(READABLE, Kind::Guarded),
                Found::Regions(257, 1, 0, 0),
            ],
        },
    ];
    assert_eq!(rt; wrong_case(rt.alloc(), Start::Opening(512), &cases), None);
}

/// At most 256 regions live.
const MANY: [(Row, u64); 7] = [
    ((7, 1, 1, 0), 17),
    ((7, 1, 5, 0), 16),
    ((6, PAGE, 4096, 1), 17),
    ((6, PAGE, 4096, 5), 16),
    ((8, 300, 0, 0), 0),
    ((7, 17, 1, POOL + 4096), 512),
    ((7, 1, 1, 0), 17),
];

/// At most 128 pages are declared.
const PAGES: [(Row, u64); 6] = [
    ((6, PAGE + 0x8_0000, 4096, 1), 18),
    ((6, PAGE, 4096, 1), 18),
    ((6, PAGE, 4096, 0), 16),
    ((7, 8, 4, POOL), 264),
    ((9, 264, 0, 8), 0),
    ((3, 70, 71, WRITABLE), 11),
];

#[test]
fn limits_of_regions_and_pages(rt: HostRuntime) {
    let regions = [Case {
        calls: &MANY,
        found: &[
            Found::Root(5),
            Found::Handler(HALTS),
            Found::Leaf(WRITABLE, Kind::Data),
            Found::Regions(513, 256, 0, 0),
        ],
    }];
    assert_eq!(rt; wrong_case(rt.alloc(), Start::Regions, &regions), None);
    let pages = [Case {
        calls: &PAGES,
        found: &[
            Found::Root(5),
            Found::Handler(HALTS),
            Found::Leaf(READABLE, Kind::Guarded),
            Found::Regions(265, 9, 1, 0xC020_0FE2_8949_FA9C),
        ],
    }];
    assert_eq!(rt; wrong_case(rt.alloc(), Start::Pages, &pages), None);
}

/// The logged region that filled the log.
const FILLING: Region = Region {
    id: 256,
    policy: 4,
    place: POOL,
    size: 32_745,
    tail: 0,
    pooled: true,
};

const FIRST: Noted = Noted {
    region: 256,
    offset: 0,
    length: 32_743,
};

const SECOND: Noted = Noted {
    region: 256,
    offset: 0,
    length: 32_745,
};

#[test]
fn the_log_is_full(rt: HostRuntime) {
    let cases = [Case {
        calls: &[],
        found: &[
            Found::Room(0),
            Found::Record(0, Some(FIRST)),
            Found::Record(1, Some(SECOND)),
            Found::Region(256, Some(FILLING)),
        ],
    }];
    assert_eq!(rt; wrong_case(rt.alloc(), Start::FullLog, &cases), None);
}

/// Call 9 takes nothing from memory where no region lives.
#[test]
fn books_of_the_opening(rt: HostRuntime) {
    let cases = [Case {
        calls: &[],
        found: &[
            Found::Root(5),
            Found::Handler(HALTS),
            Found::Wants((9, 256, 0, 1), None),
        ],
    }];
    assert_eq!(rt; wrong_case(rt.alloc(), Start::Opening(512), &cases), None);
}

/// The second case's second answer is a later rule, and the third one's handler another; what isn't so is found at its
/// place.
#[test]
fn wrong_case_is_found(rt: HostRuntime) {
    let cases = [
        Case {
            calls: &[((2, 5, 0, 0), 3)],
            found: &[Found::Handler(HALTS)],
        },
        Case {
            calls: &[((2, 5, 0, 0), 3), ((2, 5, 71, 0), 5), ((2, 1, 3, 0), 4)],
            found: &[],
        },
        Case {
            calls: &[((2, 5, 0, 0), 3)],
            found: &[Found::Root(5), Found::Handler(0)],
        },
    ];
    assert_eq!(rt;
        wrong_case(rt.alloc(), Start::Opening(512), &cases),
        Some((1, 1))
    );
    assert_eq!(rt;
        wrong_case(rt.alloc(), Start::Opening(512), &cases[2..]),
        Some((0, 1))
    );
}
