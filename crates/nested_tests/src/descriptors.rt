//! Counts and kinds at worked values, over a memory of eighty frames with the opening's tables in small: at the start, as
//! they change, and the bytes that hold them.

use crate::openings::Run;
use crate::steps::Step::{Bytes, Frames, Is, Links, Loose, Replace, Set};
use crate::steps::{Step, wrong_step};
use nk_bits::Kind;

/// A root, the kernel slot's tables 6 to 10, a table of each level from 3 down, and the books.
static RUNS: [Run; 6] = [
    (5, 6, Kind::Table(4)),
    (6, 11, Kind::Fixed),
    (11, 12, Kind::Table(3)),
    (12, 13, Kind::Table(2)),
    (13, 14, Kind::Table(1)),
    (26, 65, Kind::Hidden),
];

/// Frame 9 names 10, so that 8, 10 and 13 hold leaves; 5, 11 and 12 hold links, and 14 nothing that counts.
static ENTRIES: [(u64, u64); 16] = [
    (0x5800, 0xB027),
    (0x5FF8, 0x6027),
    (0x6000, 0x7027),
    (0x7000, 0x8027),
    (0x8018, 0x8000_0000_0000_3063),
    (0x9000, 0xA027),
    (0xA000, 0x8000_0000_0000_2063),
    (0xA008, 0x1021),
    (0xB000, 0xC027),
    (0xC000, 0xD027),
    (0xC008, 0xD026),
    (0xD000, 0x8000_0000_0000_2063),
    (0xD008, 0x2025),
    (0xD010, 0x2021),
    (0xD018, 0x2066),
    (0xE000, 0x2067),
];

/// Steps, and the index of the one that gives something else.
type Case = (Option<usize>, &'static [Step]);

static CASES: [Case; 5] = [
    // At the start.
    (
        None,
        &[
            Loose(1, 0),
            Loose(2, 3),
            Loose(3, 1),
            Loose(80, 0),
            Links(6, 1),
            Links(7, 0),
            Links(8, 0),
            Links(10, 0),
            Links(11, 1),
            Links(12, 1),
            Links(13, 1),
            Frames(80),
            Is(12, Kind::Table(2)),
            Is(64, Kind::Hidden),
            Is(79, Kind::Data),
        ],
    ),
    // Leaves of level 1 and links of levels 2 to 4 count; entries of levels 0 and 5 don't.
    (
        None,
        &[
            Replace(1, 0x2025, 0x3025, 2, 0),
            Replace(1, 0x2021, 0x2023, 3, 0),
            Replace(1, 0x2023, 0x2027, 3, 0),
            Replace(1, 0x2027, 0x2026, 2, 0),
            Replace(2, 0, 0x2027, 2, 1),
            Replace(4, 0, 0x2027, 2, 2),
            Replace(3, 0x2027, 0, 2, 1),
            Replace(0, 0, 0x2027, 2, 1),
            Replace(5, 0, 0x2027, 2, 1),
            Loose(3, 2),
        ],
    ),
    // Other counts are found, at their place.
    (
        Some(1),
        &[
            Replace(2, 0, 0x2027, 3, 1),
            Replace(2, 0, 0x2027, 3, 1),
            Replace(2, 0, 0, 3, 2),
        ],
    ),
    // Kinds change alone.
    (
        None,
        &[
            Frames(80),
            Set(15, Kind::Guarded),
            Set(79, Kind::Table(4)),
            Is(15, Kind::Guarded),
            Is(14, Kind::Data),
            Is(16, Kind::Data),
            Is(79, Kind::Table(4)),
            Is(80, Kind::Hidden),
            Loose(2, 3),
        ],
    ),
    // A descriptor from the last byte to the first: four that are 0, the links, the loose leaves, two that are 0, the level
    // and the kind.
    (
        None,
        &[
            Frames(80),
            Set(79, Kind::Guarded),
            Bytes(2, 0x0000_0000_0000_0000_0000_0003_0000_0000),
            Bytes(5, 0x0000_0000_0000_0000_0000_0000_0000_0402),
            Bytes(6, 0x0000_0000_0000_0001_0000_0000_0000_0003),
            Bytes(13, 0x0000_0000_0000_0001_0000_0000_0000_0102),
            Bytes(64, 0x0000_0000_0000_0000_0000_0000_0000_0006),
            Bytes(79, 0x0000_0000_0000_0000_0000_0000_0000_0005),
            Bytes(80, 0),
        ],
    ),
];

#[test]
fn counts_and_kinds_are_kept(rt: HostRuntime) {
    for (wrong, steps) in &CASES {
        assert!(rt; wrong_step(rt.alloc(), &RUNS, &ENTRIES, steps) == *wrong);
    }
}
