//! Worked cases of `map`: the pages of the image, of the nested area and of the direct map, and the order of its checks.
use super::cases::Failing::{Fetch, No};
use super::cases::File::{Code, Holds, Nops, Segments};
use super::cases::Table::{Cases, Pages};
use super::cases::Wanted::Text;
use super::cases::{Case, File, HALTING, Page, first_other};
use super::{ADMITTED, CODE, NAME, READ, READ_WRITE, SCAN, Segment};
use std::test::Fail;

/// The halting kernel.
pub(super) static KERNEL: [(&str, File); 1] = [HALTING];

/// The image's page may be executed.
static EXECUTED: [Page; 4] = [
    ("ffffffff80000000", "frame 67 r-xs\n"),
    ("FFFFFFFF80000FFF", "frame 67 r-xs\n"),
    ("ffffffff80001000", "missing 1\n"),
    ("ffffffff80200000", "missing 2\n"),
];

/// The second page has other rights.
pub(super) static OTHERS: [Page; 3] = [
    ("ffffffff80000000", "frame 67 r-xs\n"),
    ("ffffffff80000000", "frame 67 rw-s\n"),
    ("ffffffff80000000", "frame 67 r-xs\n"),
];

/// The nested area is mapped page by page.
static NESTED: [Page; 12] = [
    ("ffffff8000000000", "frame 0 r--s\n"),
    ("ffffff8000001000", "frame 1 r-xs\n"),
    ("ffffff8000002000", "frame 2 r--s\n"),
    ("ffffff8000003000", "frame 3 rw-s\n"),
    ("ffffff8000004000", "frame 4 r--s\n"),
    ("ffffff8000005000", "missing 1\n"),
    ("ffffff800000f000", "missing 1\n"),
    ("ffffff8000010000", "frame 10 r--s\n"),
    ("ffffff800001f000", "frame 25 r--s\n"),
    ("ffffff8000020000", "missing 1\n"),
    ("ffffff8000200000", "missing 2\n"),
    ("ffffff8040000000", "missing 3\n"),
];

/// The direct map shows each frame but the hidden ones.
static DIRECT: [Page; 17] = [
    ("ffff800000000000", "frame 0 r--s\n"),
    ("ffff800000003000", "frame 3 r--s\n"),
    ("ffff800000005000", "frame 5 r--s\n"),
    ("ffff800000019000", "frame 25 r--s\n"),
    ("ffff80000001a000", "missing 1\n"),
    ("ffff80000003f000", "missing 1\n"),
    ("ffff800000041000", "missing 1\n"),
    ("ffff800000042000", "frame 66 r--s\n"),
    ("ffff800000043000", "frame 67 r--s\n"),
    ("ffff800000046000", "frame 70 r--s\n"),
    ("ffff800000047000", "frame 71 rw-s\n"),
    ("ffff8000001ff000", "frame 511 rw-s\n"),
    ("ffff800000200000", "missing 2\n"),
    ("ffff800040000000", "missing 3\n"),
    ("0", "missing 4\n"),
    ("7fffffffffff", "missing 4\n"),
    ("ffff808000000000", "missing 4\n"),
];

/// The largest memory is mapped to its end.
static LARGEST: [Page; 3] = [
    ("ffffffff80000000", "frame 321 r-xs\n"),
    ("ffff80000ffff000", "frame 65535 rw-s\n"),
    ("ffff800010000000", "missing 2\n"),
];

const LOWEST: [&str; 4] = ["map", NAME, "512", "0"];

/// An image is mapped where it is admitted and has room. `map` refuses what `scan` refuses, and an image whose opening
/// has no room.
static MAPPED: [Case; 5] = [
    (
        &LOWEST,
        &[(NAME, Nops(2_000_000, &[]))],
        No,
        1,
        Text("noroom 559 512\n"),
    ),
    (
        &["map", NAME, "1024", "ffffffff801e8fff"],
        &[(NAME, Nops(2_000_000, &[]))],
        No,
        0,
        Text("frame 557 r-xs\n"),
    ),
    (
        &LOWEST,
        &[(NAME, Holds(&[]))],
        No,
        1,
        Text("image 1 Short 0\n"),
    ),
    (
        &LOWEST,
        &[(NAME, Code(&[&[0x0f, 0x30]]))],
        No,
        1,
        Text("protected ffffffff80000000 0f30\n"),
    ),
    (
        &LOWEST,
        &[(NAME, Holds(&[]))],
        Fetch(1),
        3,
        Text("unread image\n"),
    ),
];

/// Data first in the table, with a page that the file doesn't fill; constants; code.
const THREE: [Segment; 3] = [
    Segment {
        flags: READ_WRITE,
        offset: 4096,
        address: 0xffff_ffff_8000_2000,
        memory: 0x1001,
        nops: 0,
        bytes: &[1],
    },
    Segment {
        flags: READ,
        offset: 8192,
        address: 0xffff_ffff_8000_1000,
        memory: 3,
        nops: 0,
        bytes: &[0x0f, 0x30, 0],
    },
    Segment {
        offset: 12_288,
        ..CODE
    },
];

static SCANNED: [Case; 1] = [(&SCAN, &[(NAME, Segments(&THREE))], No, 0, Text(ADMITTED))];

/// The image of them.
static SEGMENTED: [(&str, File); 1] = [(NAME, Segments(&THREE))];

/// Segments become pages by address.
static SEGMENTS: [Page; 10] = [
    ("ffffffff80000000", "frame 67 r-xs\n"),
    ("ffffffff80001000", "frame 68 r--s\n"),
    ("ffffffff80002000", "frame 69 rw-s\n"),
    ("ffffffff80003000", "frame 70 rw-s\n"),
    ("ffffffff80004000", "missing 1\n"),
    ("ffff800000043000", "frame 67 r--s\n"),
    ("ffff800000044000", "frame 68 r--s\n"),
    ("ffff800000045000", "frame 69 rw-s\n"),
    ("ffff800000047000", "frame 71 r--s\n"),
    ("ffff80000004a000", "frame 74 rw-s\n"),
];

#[test]
fn pages_are_mapped_as_worked_out(rt: HostRuntime) -> Result<(), Fail> {
    let tables = [
        Pages(&KERNEL, "512", &EXECUTED),
        Pages(&KERNEL, "512", &NESTED),
        Pages(&KERNEL, "512", &DIRECT),
        Pages(&KERNEL, "65536", &LARGEST),
        Cases(&MAPPED),
        Cases(&SCANNED),
        Pages(&SEGMENTED, "512", &SEGMENTS),
    ];
    assert_eq!(rt; first_other(rt.alloc(), &tables)?, None);
    Ok(())
}
