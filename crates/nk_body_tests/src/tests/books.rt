//! Regions and log as memory holds them after calls, by numbers of eight bytes that are worked out by hand: the slots stand
//! from 3C000 on, the bits from 2A000, and the log from 1A000.

use super::calls::{DECLARED, ONCE, TAIL};
use super::cases::{Case, Found, Start, wrong_case};
use super::{PAGE, POOL, Row};
use region_book::Region;

const SLOTS: u64 = 0x3_C000;

const BITS: u64 = 0x2_A000;

const LOG: u64 = 0x1_A000;

/// A region of 16 bytes that are written once: 0 to 5 are. It goes, with its bits.
const GONE: [(Row, u64); 4] = [
    ((7, 16, 1, POOL), 256),
    ((9, 256, 0, 4), 0),
    ((9, 256, 4, 2), 0),
    ((8, 256, 0, 0), 0),
];

/// Two writes in a logged region.
const NOTED: [(Row, u64); 3] = [
    ((7, 16, 4, POOL), 256),
    ((9, 256, 3, 8), 0),
    ((9, 256, 0, 5), 0),
];

/// Their records: number, identifier, offset and count, and the bytes.
const RECORDS: [u64; 8] = [
    0,
    256,
    0x8_0000_0003,
    0xC020_0FE2_8949_FA9C,
    1,
    256,
    0x5_0000_0000,
    0xE2_8949_FA9C,
];

/// The bits of the last bytes of a page, of which the last four were written.
const LAST_FOUR: [u64; 8] = [0, 0, 0, 0, 0, 0, 0, 0xF000_0000_0000_0000];

/// The regions of `TAIL`.
const FIRST: Region = Region {
    id: 256,
    policy: 2,
    place: POOL,
    size: 8,
    tail: 8,
    pooled: true,
};

const SECOND: Region = Region {
    id: 257,
    policy: 3,
    place: POOL + 16,
    size: 8,
    tail: 0,
    pooled: true,
};

/// A slot: identifier, first address, size and tail, policy and whether it lies in the pool, and frames. The pool has the
/// first 65,536 bits, and the first page that was declared the next ones.
#[test]
fn numbers_after_calls(rt: HostRuntime) {
    let cases = [
        Case {
            calls: &[],
            found: &[Found::Numbers(SLOTS, [0; 8])],
        },
        Case {
            calls: &ONCE,
            found: &[
                Found::Numbers(SLOTS, [256, POOL, 16, 0x101, 0, 0, 0, 0]),
                Found::Numbers(BITS, [0x3F, 0, 0, 0, 0, 0, 0, 0]),
            ],
        },
        Case {
            calls: &GONE,
            found: &[Found::Numbers(SLOTS, [0; 8]), Found::Numbers(BITS, [0; 8])],
        },
        Case {
            calls: &TAIL,
            found: &[
                Found::Numbers(SLOTS, [256, POOL, 0x8_0000_0008, 0x102, 0, 0, 0, 0]),
                Found::Numbers(SLOTS + 64, [257, POOL + 16, 8, 0x103, 0, 0, 0, 0]),
                Found::Nth(0, Some(FIRST)),
                Found::Nth(1, Some(SECOND)),
                Found::Nth(2, None),
            ],
        },
        Case {
            calls: &DECLARED,
            found: &[
                Found::Numbers(SLOTS, [256, PAGE, 4096, 1, 71, 0, 0, 0]),
                Found::Numbers(BITS + 0x2000 + 448, LAST_FOUR),
            ],
        },
        Case {
            calls: &NOTED,
            found: &[Found::Numbers(LOG, RECORDS)],
        },
    ];
    assert_eq!(rt; wrong_case(rt.alloc(), Start::Opening(512), &cases), None);
}

/// The last two frames of the largest memory: entry 511 of frame 451 maps the last one.
const HIGH: u64 = 0xFFFF_8000_0FFF_E000;

const HIGHEST: [(Row, u64); 3] = [
    ((3, 451, 510, 0x8000_0000_0FFF_E021), 0),
    ((3, 451, 511, 0x8000_0000_0FFF_F021), 0),
    ((6, HIGH, 0x2000, 3), 256),
];

/// A frame's number takes two bytes, also that of the last frame.
#[test]
fn a_slot_of_the_last_frames(rt: HostRuntime) {
    let cases = [Case {
        calls: &HIGHEST,
        found: &[Found::Numbers(SLOTS, [256, HIGH, 0x2000, 3, 0xFFFF_FFFE, 0, 0, 0])],
    }];
    assert_eq!(rt;
        wrong_case(rt.alloc(), Start::Opening(65_536), &cases),
        None
    );
}
