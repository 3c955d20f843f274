//! Worked cases of `run` with sources of calls: where they lie, how long they are, and by which translations they are read.
use super::NAME;
use super::cases::Failing::No;
use super::cases::File::Code;
use super::cases::Table::{Cases, Runs};
use super::cases::Wanted::Padded;
use super::cases::{Case, HALTS, Run, first_other};
use super::regions::{ALLOCATES_LOGGED, ALLOCATES_ONCE, CALLS, STORES, WRITES};
use super::run::{NO_INPUT, NO_PLAN, RUN};
use std::test::Fail;

/// MOV EDI, 9; MOV ESI, 256; MOV EDX, 2; MOV RCX, frame 72's address in the direct map; MOV R8D, 4.
const WRITES_FROM_72: [u8; 31] = [
    0xbf, 0x09, 0x00, 0x00, 0x00, 0xbe, 0x00, 0x01, 0x00, 0x00, 0xba, 0x02, 0x00, 0x00, 0x00, 0x48,
    0xb9, 0x00, 0x80, 0x04, 0x00, 0x00, 0x80, 0xff, 0xff, 0x41, 0xb8, 0x04, 0x00, 0x00, 0x00,
];

/// MOV EDI, 3; MOV ESI, 70; MOV EDX, 72; MOV ECX, 0: the direct map's leaf of frame 72 goes.
const UNMAPS_72: [u8; 20] = [
    0xbf, 0x03, 0x00, 0x00, 0x00, 0xbe, 0x46, 0x00, 0x00, 0x00, 0xba, 0x48, 0x00, 0x00, 0x00, 0xb9,
    0x00, 0x00, 0x00, 0x00,
];

/// MOV RBX, frame 71's address and 4,094; MOV DWORD [RBX], 64636261.
const STORES_ACROSS: [u8; 16] = [
    0x48, 0xbb, 0xfe, 0x7f, 0x04, 0x00, 0x00, 0x80, 0xff, 0xff, 0xc7, 0x03, 0x61, 0x62, 0x63, 0x64,
];

/// MOV EDI, 9; MOV ESI, 256; MOV EDX, 2; MOV RCX, that address; MOV R8D, 4.
const WRITES_ACROSS: [u8; 31] = [
    0xbf, 0x09, 0x00, 0x00, 0x00, 0xbe, 0x00, 0x01, 0x00, 0x00, 0xba, 0x02, 0x00, 0x00, 0x00, 0x48,
    0xb9, 0xfe, 0x7f, 0x04, 0x00, 0x00, 0x80, 0xff, 0xff, 0x41, 0xb8, 0x04, 0x00, 0x00, 0x00,
];

/// MOV EDX, 3; MOV RCX, the region's byte 2.
const SHIFTS: [u8; 15] = [
    0xba, 0x03, 0x00, 0x00, 0x00, 0x48, 0xb9, 0x02, 0x00, 0x01, 0x00, 0x80, 0xff, 0xff, 0xff,
];

/// What is written where the source crosses pages, and where it lies in the region.
const CROSSED: &str = "k 7 10 1 0 0 - 256 ffffff8000010000\n\
    k 9 100 2 ffff800000047ffe 4 61626364 0 -\nend halted\nturns 51\nroot 5\n\
    trap ffffff80000011da\nr 256 1 ffffff8000010000 16 00006162636400000000000000000000\n";

const SHIFTED: &str = "k 7 8 4 0 0 - 256 ffffff8000010000\n\
    k 9 100 2 ffff800000047000 4 61626364 0 -\n\
    k 9 100 3 ffffff8000010002 4 61626364 0 -\nend halted\nturns 73\nroot 5\n\
    trap ffffff80000011da\nr 256 4 ffffff8000010000 8 0000616162636400\n\
    l 0 256 2 61626364\nl 1 256 3 61626364\n";

/// A source lies anywhere.
static ANYWHERE: [Run; 2] = [
    // It crosses pages.
    (
        &[
            &STORES_ACROSS,
            &ALLOCATES_ONCE,
            &CALLS,
            &WRITES_ACROSS,
            &CALLS,
            &HALTS,
        ],
        "",
        "100",
        CROSSED,
    ),
    // It lies in the region that is written, and is read whole before the first byte is written.
    (
        &[
            &STORES,
            &ALLOCATES_LOGGED,
            &CALLS,
            &WRITES,
            &CALLS,
            &SHIFTS,
            &CALLS,
            &HALTS,
        ],
        "",
        "100",
        SHIFTED,
    ),
];

/// What is written where a call read the page before, and where none did.
const FILLED: &str = "k 7 8 4 0 0 - 256 ffffff8000010000\n\
    k 9 100 2 ffff800000048000 4 00000000 0 -\nk 3 46 48 0 4 - 0 -\n\
    k 9 100 2 ffff800000048000 4 00000000 0 -\nend halted\nturns 98\nroot 5\n\
    trap ffffff80000011da\nt 70 72 0000000000000000\n\
    r 256 4 ffffff8000010000 8 0000000000000000\nl 0 256 2 00000000\nl 1 256 2 00000000\n";

const UNFILLED: &str = "k 7 8 4 0 0 - 256 ffffff8000010000\nk 3 46 48 0 0 - 0 -\n\
    k 9 100 2 ffff800000048000 4 ! 22 -\nend halted\nturns 73\nroot 5\n\
    trap ffffff80000011da\nt 70 72 0000000000000000\n\
    r 256 4 ffffff8000010000 8 0000000000000000\n";

/// A call that reads a page keeps its translation, by which a later call reads it once the tables no longer map it.
static TRANSLATED: [Run; 2] = [
    (
        &[
            &ALLOCATES_LOGGED,
            &CALLS,
            &WRITES_FROM_72,
            &CALLS,
            &UNMAPS_72,
            &CALLS,
            &WRITES_FROM_72,
            &CALLS,
            &HALTS,
        ],
        "",
        "100",
        FILLED,
    ),
    (
        &[
            &ALLOCATES_LOGGED,
            &CALLS,
            &UNMAPS_72,
            &CALLS,
            &WRITES_FROM_72,
            &CALLS,
            &HALTS,
        ],
        "",
        "100",
        UNFILLED,
    ),
];

/// MOV EDI, 7; MOV ESI, 65536; MOV EDX, 1: a write-once region that fills the pool.
const ALLOCATES_ALL: [u8; 15] = [
    0xbf, 0x07, 0x00, 0x00, 0x00, 0xbe, 0x00, 0x00, 0x01, 0x00, 0xba, 0x01, 0x00, 0x00, 0x00,
];

/// MOV EDI, 9; MOV ESI, 256; MOV EDX, 0; MOV RCX, frame 71's address; MOV R8D, 65536.
const WRITES_ALL: [u8; 31] = [
    0xbf, 0x09, 0x00, 0x00, 0x00, 0xbe, 0x00, 0x01, 0x00, 0x00, 0xba, 0x00, 0x00, 0x00, 0x00, 0x48,
    0xb9, 0x00, 0x70, 0x04, 0x00, 0x00, 0x80, 0xff, 0xff, 0x41, 0xb8, 0x00, 0x00, 0x01, 0x00,
];

/// What is written up to the source's zeros, and from there to the region's.
const WRITTEN: &str =
    "k 7 10000 1 0 0 - 256 ffffff8000010000\nk 9 100 0 ffff800000047000 10000 61626364";

const CLOSED: &str = " 0 -\nend halted\nturns 51\nroot 5\ntrap ffffff80000011da\n\
    r 256 1 ffffff8000010000 65536 61626364";

/// A source has 65,536 bytes.
static LONGEST: [Case; 1] = [(
    &RUN,
    &[
        (
            NAME,
            Code(&[&STORES, &ALLOCATES_ALL, &CALLS, &WRITES_ALL, &CALLS, &HALTS]),
        ),
        NO_INPUT,
        NO_PLAN,
    ],
    No,
    0,
    Padded(&[(WRITTEN, 131_064), (CLOSED, 131_064), ("\n", 0)]),
)];

#[test]
fn sources_are_read_whole(rt: HostRuntime) -> Result<(), Fail> {
    let tables = [
        Runs(0, "", &ANYWHERE),
        Runs(0, "", &TRANSLATED),
        Cases(&LONGEST),
    ];
    assert_eq!(rt; first_other(rt.alloc(), &tables)?, None);
    Ok(())
}
