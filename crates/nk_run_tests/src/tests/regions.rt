//! Worked cases of `run` with protected regions: calls with their sources and places, and the closing section, which no
//! attack from outer code changes.
use super::NAME;
use super::cases::Failing::No;
use super::cases::File::Code;
use super::cases::Table::{Cases, Runs};
use super::cases::Wanted::Padded;
use super::cases::{Case, HALTS, Run, first_other};
use super::run::{NO_INPUT, NO_PLAN, RUN};
use std::test::Fail;

/// MOV RBX, the direct map's address of frame 71, which is the first free one; MOV DWORD [RBX], 64636261.
pub(super) const STORES: [u8; 16] = [
    0x48, 0xbb, 0x00, 0x70, 0x04, 0x00, 0x00, 0x80, 0xff, 0xff, 0xc7, 0x03, 0x61, 0x62, 0x63, 0x64,
];

/// MOV RAX, the gates; CALL RAX.
pub(super) const CALLS: [u8; 12] = [
    0x48, 0xb8, 0x00, 0x10, 0x00, 0x00, 0x80, 0xff, 0xff, 0xff, 0xff, 0xd0,
];

/// MOV EDI, 7; MOV ESI, 16; MOV EDX, 1: a write-once region of 16 bytes.
pub(super) const ALLOCATES_ONCE: [u8; 15] = [
    0xbf, 0x07, 0x00, 0x00, 0x00, 0xbe, 0x10, 0x00, 0x00, 0x00, 0xba, 0x01, 0x00, 0x00, 0x00,
];

/// MOV EDI, 7; MOV ESI, 8; MOV EDX, 4: a region of 8 bytes whose writes are logged.
pub(super) const ALLOCATES_LOGGED: [u8; 15] = [
    0xbf, 0x07, 0x00, 0x00, 0x00, 0xbe, 0x08, 0x00, 0x00, 0x00, 0xba, 0x04, 0x00, 0x00, 0x00,
];

/// MOV EDI, 9; MOV ESI, 256; MOV EDX, 2; MOV RCX, frame 71's address; MOV R8D, 4: four bytes to offset 2.
pub(super) const WRITES: [u8; 31] = [
    0xbf, 0x09, 0x00, 0x00, 0x00, 0xbe, 0x00, 0x01, 0x00, 0x00, 0xba, 0x02, 0x00, 0x00, 0x00, 0x48,
    0xb9, 0x00, 0x70, 0x04, 0x00, 0x00, 0x80, 0xff, 0xff, 0x41, 0xb8, 0x04, 0x00, 0x00, 0x00,
];

/// MOV EDX, 5: another offset.
const AGAIN: [u8; 5] = [0xba, 0x05, 0x00, 0x00, 0x00];

/// MOV ECX, 1000, which has no translation. Then MOV ESI, 257: no such region. MOV ESI, 256; MOV R8D, 7: too long.
const UNREAD: [u8; 5] = [0xb9, 0x00, 0x10, 0x00, 0x00];

const UNKNOWN: [u8; 5] = [0xbe, 0x01, 0x01, 0x00, 0x00];

const LONG: [u8; 11] = [
    0xbe, 0x00, 0x01, 0x00, 0x00, 0x41, 0xb8, 0x07, 0x00, 0x00, 0x00,
];

/// What is written of two writes of one byte, and of calls that aren't taken.
const ONCE: &str = "k 7 10 1 0 0 - 256 ffffff8000010000\n\
    k 9 100 2 ffff800000047000 4 61626364 0 -\n\
    k 9 100 5 ffff800000047000 4 61626364 24 -\nend halted\nturns 72\nroot 5\n\
    trap ffffff80000011da\nr 256 1 ffffff8000010000 16 00006162636400000000000000000000\n";

const UNTAKEN: &str = "k 7 8 4 0 0 - 256 ffffff8000010000\nk 9 100 2 1000 4 ! 22 -\n\
    k 9 101 2 1000 4 - 19 -\nk 9 100 2 1000 7 - 21 -\nend halted\nturns 95\nroot 5\n\
    trap ffffff80000011da\nr 256 4 ffffff8000010000 8 0000000000000000\n";

/// A write is taken or changes nothing.
static TAKEN: [Run; 2] = [
    // A byte is written once.
    (
        &[
            &STORES,
            &ALLOCATES_ONCE,
            &CALLS,
            &WRITES,
            &CALLS,
            &AGAIN,
            &CALLS,
            &HALTS,
        ],
        "",
        "100",
        ONCE,
    ),
    // What is not taken and what cannot be read.
    (
        &[
            &STORES,
            &ALLOCATES_LOGGED,
            &CALLS,
            &WRITES,
            &UNREAD,
            &CALLS,
            &UNKNOWN,
            &CALLS,
            &LONG,
            &CALLS,
            &HALTS,
        ],
        "",
        "200",
        UNTAKEN,
    ),
];

/// MOV RBX, an address: the region's own, its frame's in the direct map, the log's frame's; MOV [RBX], AL.
const ATTACKS_REGION: [u8; 12] = [
    0x48, 0xbb, 0x02, 0x00, 0x01, 0x00, 0x80, 0xff, 0xff, 0xff, 0x88, 0x03,
];

const ATTACKS_FRAME: [u8; 12] = [
    0x48, 0xbb, 0x02, 0xa0, 0x00, 0x00, 0x00, 0x80, 0xff, 0xff, 0x88, 0x03,
];

const ATTACKS_LOG: [u8; 12] = [
    0x48, 0xbb, 0x00, 0xa0, 0x01, 0x00, 0x00, 0x80, 0xff, 0xff, 0x88, 0x03,
];

/// The section behind the lines of each attack.
const LEFT: &str = "\nend halted\nturns 63\nroot 5\ntrap ffffff80000011da\n\
    r 256 4 ffffff8000010000 8 0000616263640000\nl 0 256 2 61626364\n";

/// An attack leaves region and log.
static ATTACKED_POOL: [Run; 3] = [
    (
        &[
            &STORES,
            &ALLOCATES_LOGGED,
            &CALLS,
            &WRITES,
            &CALLS,
            &ATTACKS_REGION,
        ],
        "",
        "100",
        "k 7 8 4 0 0 - 256 ffffff8000010000\nk 9 100 2 ffff800000047000 4 61626364 0 -\n\
        i 14 3 ffffffff80000060 ffffff8000010002",
    ),
    (
        &[
            &STORES,
            &ALLOCATES_LOGGED,
            &CALLS,
            &WRITES,
            &CALLS,
            &ATTACKS_FRAME,
        ],
        "",
        "100",
        "k 7 8 4 0 0 - 256 ffffff8000010000\nk 9 100 2 ffff800000047000 4 61626364 0 -\n\
        i 14 3 ffffffff80000060 ffff80000000a002",
    ),
    (
        &[
            &STORES,
            &ALLOCATES_LOGGED,
            &CALLS,
            &WRITES,
            &CALLS,
            &ATTACKS_LOG,
        ],
        "",
        "100",
        "k 7 8 4 0 0 - 256 ffffff8000010000\nk 9 100 2 ffff800000047000 4 61626364 0 -\n\
        i 14 2 ffffffff80000060 ffff80000001a000",
    ),
];

/// MOV EDI, 3; MOV ESI, 70; MOV EDX, 71; MOV RCX, a leaf of frame 71 that grants reads alone.
pub(super) const READS_71: [u8; 25] = [
    0xbf, 0x03, 0x00, 0x00, 0x00, 0xbe, 0x46, 0x00, 0x00, 0x00, 0xba, 0x47, 0x00, 0x00, 0x00, 0x48,
    0xb9, 0x21, 0x70, 0x04, 0x00, 0x00, 0x00, 0x00, 0x80,
];

/// MOV EDI, 6; MOV RSI, frame 71's address; MOV EDX, 4096; MOV ECX, 3: nothing may be written in the region.
pub(super) const DECLARES_71: [u8; 25] = [
    0xbf, 0x06, 0x00, 0x00, 0x00, 0x48, 0xbe, 0x00, 0x70, 0x04, 0x00, 0x00, 0x80, 0xff, 0xff, 0xba,
    0x00, 0x10, 0x00, 0x00, 0xb9, 0x03, 0x00, 0x00, 0x00,
];

/// MOV [RBX], AL.
const ATTACKS: [u8; 2] = [0x88, 0x03];

/// What is written up to the page's zeros.
const GUARDED: &str = "k 3 46 47 8000000000047021 0 - 0 -\nk 6 ffff800000047000 1000 3 0 - 256 -\n\
    i 14 3 ffffffff8000005a ffff800000047000\nend halted\nturns 62\nroot 5\n\
    trap ffffff80000011da\nf 71 guarded\nt 70 71 8000000000047021\n\
    r 256 3 ffff800000047000 4096 61626364";

/// An attack leaves a declared page.
static ATTACKED: [Case; 1] = [(
    &RUN,
    &[
        (
            NAME,
            Code(&[&STORES, &READS_71, &CALLS, &DECLARES_71, &CALLS, &ATTACKS]),
        ),
        NO_INPUT,
        NO_PLAN,
    ],
    No,
    0,
    Padded(&[(GUARDED, 8184), ("\n", 0)]),
)];

#[test]
fn regions_are_written_by_calls_alone(rt: HostRuntime) -> Result<(), Fail> {
    let tables = [
        Runs(0, "", &TAKEN),
        Runs(0, LEFT, &ATTACKED_POOL),
        Cases(&ATTACKED),
    ];
    assert_eq!(rt; first_other(rt.alloc(), &tables)?, None);
    Ok(())
}
