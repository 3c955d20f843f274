//! Worked cases of `run` with writes that the policies of regions refuse, each source being the first free frame's
//! page, FFFF800000047000: how each call is answered, and which bytes the region has behind each refusal. A call takes
//! 18 turns, and each other instruction one.
use super::NAME;
use super::cases::Failing::No;
use super::cases::File::Code;
use super::cases::Table::{Cases, Runs};
use super::cases::Wanted::Padded;
use super::cases::{Case, HALTS, INPUT, PLAN, Run, first_other};
use super::regions::{ALLOCATES_ONCE, CALLS, STORES};
use super::run::{NO_INPUT, NO_PLAN};
use std::test::Fail;

/// MOV EDI, 9; MOV ESI, 256; MOV EDX, 0; MOV RCX, FFFF800000047000; MOV R8D, 4: four bytes to the region's start.
const WRITES_4: [u8; 31] = [
    0xbf, 0x09, 0x00, 0x00, 0x00, 0xbe, 0x00, 0x01, 0x00, 0x00, 0xba, 0x00, 0x00, 0x00, 0x00, 0x48,
    0xb9, 0x00, 0x70, 0x04, 0x00, 0x00, 0x80, 0xff, 0xff, 0x41, 0xb8, 0x04, 0x00, 0x00, 0x00,
];

/// MOV EDX, 3; MOV R8D, 2. Then MOV EDX, 4.
const OVERLAPS: [u8; 11] = [
    0xba, 0x03, 0x00, 0x00, 0x00, 0x41, 0xb8, 0x02, 0x00, 0x00, 0x00,
];

const FOLLOWS: [u8; 5] = [0xba, 0x04, 0x00, 0x00, 0x00];

/// MOV EDX, 6; MOV ECX, 0; MOV R8D, 1: a source without a translation.
const UNREADABLE: [u8; 16] = [
    0xba, 0x06, 0x00, 0x00, 0x00, 0xb9, 0x00, 0x00, 0x00, 0x00, 0x41, 0xb8, 0x01, 0x00, 0x00, 0x00,
];

/// MOV RCX, FFFF800000047000; MOV R8D, 0. Then MOV ESI, 300; MOV EDX, 0; MOV R8D, 1: no such region.
const NO_BYTE: [u8; 16] = [
    0x48, 0xb9, 0x00, 0x70, 0x04, 0x00, 0x00, 0x80, 0xff, 0xff, 0x41, 0xb8, 0x00, 0x00, 0x00, 0x00,
];

const NO_REGION: [u8; 16] = [
    0xbe, 0x2c, 0x01, 0x00, 0x00, 0xba, 0x00, 0x00, 0x00, 0x00, 0x41, 0xb8, 0x01, 0x00, 0x00, 0x00,
];

const ONCE_24: &str = "k 7 10 1 0 0 - 256 ffffff8000010000\n\
    k 9 100 0 ffff800000047000 4 61626364 0 -\nk 9 100 3 ffff800000047000 2 6162 24 -\n\
    end halted\nturns 73\nroot 5\ntrap ffffff80000011da\n\
    r 256 1 ffffff8000010000 16 61626364000000000000000000000000\n";

const ONCE_22: &str = "k 7 10 1 0 0 - 256 ffffff8000010000\n\
    k 9 100 0 ffff800000047000 4 61626364 0 -\nk 9 100 3 ffff800000047000 2 6162 24 -\n\
    k 9 100 4 ffff800000047000 2 6162 0 -\nk 9 100 6 0 1 ! 22 -\n\
    end halted\nturns 117\nroot 5\ntrap ffffff80000011da\n\
    r 256 1 ffffff8000010000 16 61626364616200000000000000000000\n";

const ONCE_19: &str = "k 7 10 1 0 0 - 256 ffffff8000010000\n\
    k 9 100 0 ffff800000047000 4 61626364 0 -\nk 9 100 3 ffff800000047000 2 6162 24 -\n\
    k 9 100 4 ffff800000047000 2 6162 0 -\nk 9 100 6 0 1 ! 22 -\n\
    k 9 100 6 ffff800000047000 0 - 21 -\nk 9 12c 0 ffff800000047000 1 - 19 -\n\
    end halted\nturns 162\nroot 5\ntrap ffffff80000011da\n\
    r 256 1 ffffff8000010000 16 61626364616200000000000000000000\n";

/// A byte of a write-once region is written once.
static ONCE: [Run; 3] = [
    (
        &[
            &STORES,
            &ALLOCATES_ONCE,
            &CALLS,
            &WRITES_4,
            &CALLS,
            &OVERLAPS,
            &CALLS,
            &HALTS,
        ],
        "",
        "200",
        ONCE_24,
    ),
    (
        &[
            &STORES,
            &ALLOCATES_ONCE,
            &CALLS,
            &WRITES_4,
            &CALLS,
            &OVERLAPS,
            &CALLS,
            &FOLLOWS,
            &CALLS,
            &UNREADABLE,
            &CALLS,
            &HALTS,
        ],
        "",
        "200",
        ONCE_22,
    ),
    (
        &[
            &STORES,
            &ALLOCATES_ONCE,
            &CALLS,
            &WRITES_4,
            &CALLS,
            &OVERLAPS,
            &CALLS,
            &FOLLOWS,
            &CALLS,
            &UNREADABLE,
            &CALLS,
            &NO_BYTE,
            &CALLS,
            &NO_REGION,
            &CALLS,
            &HALTS,
        ],
        "",
        "200",
        ONCE_19,
    ),
];

/// MOV EDI, 7; MOV ESI, 8; MOV EDX, 2: an append-only region of 8 bytes. The same with 3: one that is never written.
const ALLOCATES_TAIL: [u8; 15] = [
    0xbf, 0x07, 0x00, 0x00, 0x00, 0xbe, 0x08, 0x00, 0x00, 0x00, 0xba, 0x02, 0x00, 0x00, 0x00,
];

const ALLOCATES_NONE: [u8; 15] = [
    0xbf, 0x07, 0x00, 0x00, 0x00, 0xbe, 0x08, 0x00, 0x00, 0x00, 0xba, 0x03, 0x00, 0x00, 0x00,
];

/// As above, but five bytes.
const WRITES_5: [u8; 31] = [
    0xbf, 0x09, 0x00, 0x00, 0x00, 0xbe, 0x00, 0x01, 0x00, 0x00, 0xba, 0x00, 0x00, 0x00, 0x00, 0x48,
    0xb9, 0x00, 0x70, 0x04, 0x00, 0x00, 0x80, 0xff, 0xff, 0x41, 0xb8, 0x05, 0x00, 0x00, 0x00,
];

/// MOV EDX, 5; MOV R8D, 3. Then MOV EDX, 8; MOV R8D, 1. Then MOV EDX, 5.
const APPENDS_3: [u8; 11] = [
    0xba, 0x05, 0x00, 0x00, 0x00, 0x41, 0xb8, 0x03, 0x00, 0x00, 0x00,
];

const PAST_THE_END: [u8; 11] = [
    0xba, 0x08, 0x00, 0x00, 0x00, 0x41, 0xb8, 0x01, 0x00, 0x00, 0x00,
];

const BEFORE_THE_TAIL: [u8; 5] = [0xba, 0x05, 0x00, 0x00, 0x00];

/// MOV EDI, 9; MOV ESI, 257; MOV EDX, 0.
const WRITES_257: [u8; 15] = [
    0xbf, 0x09, 0x00, 0x00, 0x00, 0xbe, 0x01, 0x01, 0x00, 0x00, 0xba, 0x00, 0x00, 0x00, 0x00,
];

const TAIL_21: &str = "k 7 8 2 0 0 - 256 ffffff8000010000\n\
    k 9 100 0 ffff800000047000 5 6162636400 0 -\nk 9 100 5 ffff800000047000 3 616263 0 -\n\
    k 9 100 8 ffff800000047000 1 - 21 -\n\
    end halted\nturns 95\nroot 5\ntrap ffffff80000011da\n\
    r 256 2 ffffff8000010000 8 6162636400616263\n";

const TAIL_23: &str = "k 7 8 2 0 0 - 256 ffffff8000010000\n\
    k 9 100 0 ffff800000047000 5 6162636400 0 -\nk 9 100 5 ffff800000047000 3 616263 0 -\n\
    k 9 100 8 ffff800000047000 1 - 21 -\nk 9 100 5 ffff800000047000 1 61 25 -\n\
    k 7 8 3 ffff800000047000 1 - 257 ffffff8000010010\nk 9 101 0 ffff800000047000 1 61 23 -\n\
    end halted\nturns 162\nroot 5\ntrap ffffff80000011da\n\
    r 256 2 ffffff8000010000 8 6162636400616263\nr 257 3 ffffff8000010010 8 0000000000000000\n";

/// An append-only region is written at its tail, and a region of policy 3 never.
static TAIL: [Run; 2] = [
    (
        &[
            &STORES,
            &ALLOCATES_TAIL,
            &CALLS,
            &WRITES_5,
            &CALLS,
            &APPENDS_3,
            &CALLS,
            &PAST_THE_END,
            &CALLS,
            &HALTS,
        ],
        "",
        "200",
        TAIL_21,
    ),
    (
        &[
            &STORES,
            &ALLOCATES_TAIL,
            &CALLS,
            &WRITES_5,
            &CALLS,
            &APPENDS_3,
            &CALLS,
            &PAST_THE_END,
            &CALLS,
            &BEFORE_THE_TAIL,
            &CALLS,
            &ALLOCATES_NONE,
            &CALLS,
            &WRITES_257,
            &CALLS,
            &HALTS,
        ],
        "",
        "200",
        TAIL_23,
    ),
];

/// MOV EDI, 7; MOV ESI, 32745; MOV EDX, 4: a region of which two writes fill the log.
const ALLOCATES_LONG: [u8; 15] = [
    0xbf, 0x07, 0x00, 0x00, 0x00, 0xbe, 0xe9, 0x7f, 0x00, 0x00, 0xba, 0x04, 0x00, 0x00, 0x00,
];

/// As above, but 32,743 bytes. Then MOV R8D, 32745. Then MOV R8D, 1. Then MOV EDX, 4.
const WRITES_32743: [u8; 31] = [
    0xbf, 0x09, 0x00, 0x00, 0x00, 0xbe, 0x00, 0x01, 0x00, 0x00, 0xba, 0x00, 0x00, 0x00, 0x00, 0x48,
    0xb9, 0x00, 0x70, 0x04, 0x00, 0x00, 0x80, 0xff, 0xff, 0x41, 0xb8, 0xe7, 0x7f, 0x00, 0x00,
];

const ALL: [u8; 6] = [0x41, 0xb8, 0xe9, 0x7f, 0x00, 0x00];

const ONE: [u8; 6] = [0x41, 0xb8, 0x01, 0x00, 0x00, 0x00];

const AT_4: [u8; 5] = [0xba, 0x04, 0x00, 0x00, 0x00];

/// What is written up to the zeros of each source, of the region and of each record.
const FIRST_WRITE: &str =
    "k 7 7fe9 4 0 0 - 256 ffffff8000010000\nk 9 100 0 ffff800000047000 7fe7 61626364";

const SECOND_WRITE: &str = " 0 -\nk 9 100 0 ffff800000047000 7fe9 61626364";

const NO_ROOM: &str =
    " 0 -\nk 9 100 0 ffff800000047000 1 61 26 -\nk 9 100 4 ffff800000047000 1 61 26 -\n\
    end halted\nturns 114\nroot 5\ntrap ffffff80000011da\n\
    r 256 4 ffffff8000010000 32745 61626364";

const RUN_200: [&str; 6] = ["run", NAME, INPUT, PLAN, "200", "512"];

/// Two records fill the log, and a write that it has no room for isn't made.
static FULL_LOG: [Case; 1] = [(
    &RUN_200,
    &[
        (
            NAME,
            Code(&[
                &STORES,
                &ALLOCATES_LONG,
                &CALLS,
                &WRITES_32743,
                &CALLS,
                &ALL,
                &CALLS,
                &ONE,
                &CALLS,
                &AT_4,
                &CALLS,
                &HALTS,
            ]),
        ),
        NO_INPUT,
        NO_PLAN,
    ],
    No,
    0,
    Padded(&[
        (FIRST_WRITE, 65_478),
        (SECOND_WRITE, 65_482),
        (NO_ROOM, 65_482),
        ("\nl 0 256 0 61626364", 65_478),
        ("\nl 1 256 0 61626364", 65_482),
        ("\n", 0),
    ]),
)];

#[test]
fn refused_writes_leave_their_regions(rt: HostRuntime) -> Result<(), Fail> {
    let tables = [Runs(0, "", &ONCE), Runs(0, "", &TAIL), Cases(&FULL_LOG)];
    assert_eq!(rt; first_other(rt.alloc(), &tables)?, None);
    Ok(())
}
