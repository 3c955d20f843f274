//! Worked cases of `run` with upper entries that the processor keeps: a page that the tables no longer map is stored to
//! through an entry that a plan's event kept, until the entry goes.
use super::cases::Table::Runs;
use super::cases::{Run, first_other};
use std::test::Fail;

/// MOV RBX, the direct map's address of frame 71; MOV EDI, 3; MOV ESI, 69; MOV RAX, the gates; CALL RAX. RDX and RCX are
/// 0: entry 0 of table 69, which names the direct map's table of level 1, becomes 0.
const UNLINKS: [u8; 32] = [
    0x48, 0xbb, 0x00, 0x70, 0x04, 0x00, 0x00, 0x80, 0xff, 0xff, 0xbf, 0x03, 0x00, 0x00, 0x00, 0xbe,
    0x45, 0x00, 0x00, 0x00, 0x48, 0xb8, 0x00, 0x10, 0x00, 0x00, 0x80, 0xff, 0xff, 0xff, 0xff, 0xd0,
];

/// MOV [RBX], AL; HLT.
const STORES: [u8; 3] = [0x88, 0x03, 0xf4];

/// INVLPG [RBX].
const INVALIDATES: [u8; 3] = [0x0f, 0x01, 0x3b];

/// The section behind the lines, which tells the entry.
const UNLINKED: &str = "\nroot 5\ntrap ffffff80000011da\nt 69 0 0000000000000000\n";

/// The call, and a store that faults; the call, and a store that doesn't.
const FAULTED: &str =
    "k 3 45 0 0 0 - 0 -\ni 14 2 ffffffff80000020 ffff800000047000\nend halted\nturns 35";

const STORED: &str = "k 3 45 0 0 0 - 0 -\nend halted\nturns 25";

/// A kept entry serves a page that is unlinked.
static KEPT: [Run; 9] = [
    (&[&UNLINKS, &STORES], "", "100", FAULTED),
    (
        &[&UNLINKS, &STORES],
        "0 keep 2 ffff800000000000",
        "100",
        STORED,
    ),
    // The page's translation alone goes.
    (
        &[&UNLINKS, &STORES],
        "0 keep 2 ffff800000000000\n14 drop ffff800000047000",
        "100",
        STORED,
    ),
    (
        &[&UNLINKS, &STORES],
        "0 keep 2 ffff800000000000\n14 forget 2 ffff8000001ff000",
        "100",
        FAULTED,
    ),
    // The entry of the next 2 MiB is missing, and those of levels 3 and 4 lead to the entry that is 0.
    (
        &[&UNLINKS, &STORES],
        "0 keep 2 ffff800000200000",
        "100",
        FAULTED,
    ),
    (
        &[&UNLINKS, &STORES],
        "0 keep 3 ffff800000000000\n0 keep 4 ffff800000000000",
        "100",
        FAULTED,
    ),
    // Once the entry is unlinked none is kept, and an older one goes on being kept.
    (
        &[&UNLINKS, &STORES],
        "20 keep 2 ffff800000000000",
        "100",
        FAULTED,
    ),
    (
        &[&UNLINKS, &STORES],
        "0 keep 2 ffff800000000000\n20 keep 2 ffff800000000000",
        "100",
        STORED,
    ),
    // The entry goes with INVLPG.
    (
        &[&UNLINKS, &INVALIDATES, &STORES],
        "0 keep 2 ffff800000000000",
        "100",
        "k 3 45 0 0 0 - 0 -\ni 14 2 ffffffff80000023 ffff800000047000\nend halted\nturns 36",
    ),
];

#[test]
fn entries_are_kept_until_they_go(rt: HostRuntime) -> Result<(), Fail> {
    let tables = [Runs(0, UNLINKED, &KEPT)];
    assert_eq!(rt; first_other(rt.alloc(), &tables)?, None);
    Ok(())
}
