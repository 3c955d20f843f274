//! The rules on a value, over eighty frames: one of each kind from frame 0 on, tables of levels 1 to 4 in frames 6 to 9,
//! data from frame 10 on, and the books.

use crate::openings::Run;
use crate::steps::Step::{Clear, Judge, Set};
use crate::steps::{Step, wrong_step};
use nk_bits::Kind;

/// The kinds of the frames, but that those of tables 3 and 4 are fixed, as those of the kernel slot are at the start.
static RUNS: [Run; 9] = [
    (1, 2, Kind::Code),
    (2, 3, Kind::Fixed),
    (3, 4, Kind::Trap),
    (4, 5, Kind::Guarded),
    (5, 6, Kind::Hidden),
    (6, 7, Kind::Table(1)),
    (7, 8, Kind::Table(2)),
    (8, 10, Kind::Fixed),
    (26, 65, Kind::Hidden),
];

static STEPS: [Step; 67] = [
    Set(8, Kind::Table(3)),
    Set(9, Kind::Table(4)),
    // For each level a value that breaks no rule: a leaf of data that isn't executable, and links to frames 6 to 8.
    Clear(1, 0x8000_0000_0000_0021),
    Clear(2, 0x6027),
    Clear(3, 0x7027),
    Clear(4, 0x8027),
    // Bits that are set: accessed; dirty where it is writable; writable and user in a link, which is executable.
    Judge(1, 0x8000_0000_0000_0001, 9),
    Judge(1, 0x8000_0000_0000_0023, 9),
    Judge(1, 0x8000_0000_0000_0063, 0),
    Judge(1, 0x8000_0000_0000_0061, 0),
    Judge(1, 0x8000_0000_0000_0E21, 0),
    Judge(2, 0x6007, 9),
    Judge(2, 0x6023, 9),
    Judge(2, 0x6025, 9),
    Judge(3, 0x7023, 9),
    Judge(4, 0x8025, 9),
    Judge(2, 0x8000_0000_0000_6027, 9),
    Judge(4, 0x8000_0000_0000_8027, 9),
    Judge(2, 0x6E67, 0),
    Judge(3, 0x7067, 0),
    // Values that aren't present.
    Judge(1, 0xFFFF_FFFF_FFFF_FFFE, 0),
    Judge(2, 0xFFFF_FFFF_FFFF_FFFE, 0),
    Judge(4, 0, 0),
    // Targets outside memory, hidden, or no table of the next lower level.
    Judge(1, 0x8000_0000_0005_0021, 10),
    Judge(1, 0x800F_FFFF_FFFF_F021, 10),
    Judge(1, 0x8000_1000_0000_0021, 10),
    Judge(1, 0x8000_0000_0000_5021, 10),
    Judge(1, 0x8000_0000_0000_F021, 0),
    Judge(2, 0x5_0027, 10),
    Judge(2, 0x0027, 10),
    Judge(2, 0x7027, 10),
    Judge(2, 0x8027, 10),
    Judge(3, 0x6027, 10),
    Judge(3, 0x8027, 10),
    Judge(3, 0x2027, 10),
    Judge(4, 0x7027, 10),
    Judge(4, 0x9027, 10),
    Judge(4, 0x5027, 10),
    // Rights beyond what the kind allows: data, code, fixed, trap stack, guarded, tables.
    Judge(1, 0x0021, 11),
    Judge(1, 0x0063, 11),
    Judge(1, 0x0025, 0),
    Judge(1, 0x0067, 0),
    Judge(1, 0x8000_0000_0000_0067, 0),
    Judge(1, 0x8000_0000_0000_1021, 0),
    Judge(1, 0x8000_0000_0000_1063, 11),
    Judge(1, 0x8000_0000_0000_1025, 11),
    Judge(1, 0x1021, 11),
    Judge(1, 0x8000_0000_0000_2021, 0),
    Judge(1, 0x8000_0000_0000_2063, 11),
    Judge(1, 0x8000_0000_0000_2025, 11),
    Judge(1, 0x2021, 11),
    Judge(1, 0x8000_0000_0000_3063, 0),
    Judge(1, 0x8000_0000_0000_3025, 11),
    Judge(1, 0x3021, 11),
    Judge(1, 0x8000_0000_0000_4021, 0),
    Judge(1, 0x8000_0000_0000_4063, 11),
    Judge(1, 0x8000_0000_0000_4025, 11),
    Judge(1, 0x4021, 11),
    Judge(1, 0x8000_0000_0000_6021, 0),
    Judge(1, 0x8000_0000_0000_6063, 11),
    Judge(1, 0x8000_0000_0000_9025, 11),
    Judge(1, 0x7021, 11),
    // Two rules broken: the lower number.
    Judge(1, 0x8000_0000_0000_5029, 9),
    Judge(1, 0x5063, 10),
    Judge(1, 0x5_0067, 10),
    Judge(1, 0x102F, 9),
    Judge(2, 0x5_0025, 9),
];

#[test]
fn values_and_the_rules_they_break(rt: HostRuntime) {
    assert!(rt; wrong_step(rt.alloc(), &RUNS, &[], &STEPS).is_none());
}
