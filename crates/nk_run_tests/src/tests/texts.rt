//! Worked cases of `asm` and `list`: texts and their code, runs of code and what begins no instruction in them, and the
//! order of their checks.
use super::cases::Failing::{Fetch, No, Put};
use super::cases::File::{Code, Filled, Holds, Segments};
use super::cases::Table::{Cases, Forms};
use super::cases::Wanted::{Bytes, Padded, Text};
use super::cases::{Case, File, first_other};
use super::{CODE, DATA, NAME, PAST_THE_LIMIT, SECOND, Segment};
use std::test::Fail;

const ASM: [&str; 2] = ["asm", NAME];

/// Each line of a text is an instruction.
static ASSEMBLED: [Case; 6] = [
    (&ASM, &[(NAME, Holds(&[]))], No, 0, Bytes(&[])),
    (
        &ASM,
        &[(NAME, Holds(&[b"mov.8 r0 value 41"]))],
        No,
        0,
        Bytes(&[0xb0, 0x41]),
    ),
    (
        &ASM,
        &[(NAME, Holds(&[b"mov.32 r0 r1 0\n"]))],
        No,
        0,
        Bytes(&[0x89, 0xc8]),
    ),
    (
        &ASM,
        &[(NAME, Holds(&[b"mov.64 r0 value c0220f\n"]))],
        No,
        0,
        Bytes(&[0x48, 0xc7, 0xc0, 0x0f, 0x22, 0xc0, 0]),
    ),
    (
        &ASM,
        &[(
            NAME,
            Holds(&[b"mov.8 r0 value 41\nmov.32 r0 r1 0\nmov.8 r0 value 41"]),
        )],
        No,
        0,
        Bytes(&[0xb0, 0x41, 0x89, 0xc8, 0xb0, 0x41]),
    ),
    (
        &ASM,
        &[(NAME, Holds(&[b"lock add.32 [r0,-,1,0] value 1\n"]))],
        No,
        0,
        Bytes(&[0xf0, 0x83, 0, 1]),
    ),
];

/// The first line without code is named.
static UNFORMED: [Case; 4] = [
    (
        &ASM,
        &[(NAME, Holds(&[b"mov.9 r0 r1 0"]))],
        No,
        6,
        Text("text line 1\n"),
    ),
    (
        &ASM,
        &[(NAME, Holds(&[b"\n"]))],
        No,
        6,
        Text("text line 1\n"),
    ),
    (
        &ASM,
        &[(NAME, Holds(&[b"mov.8 r0 value 41\n\n"]))],
        No,
        6,
        Text("text line 2\n"),
    ),
    (
        &ASM,
        &[(
            NAME,
            Holds(&[b"mov.8 r0 value 41\nMOV.8 r0 value 41\nmov.9 r0 r1 0\n"]),
        )],
        No,
        6,
        Text("text line 2\n"),
    ),
];

/// A number or a line that is spelled otherwise, and operands without code.
static UNSPELLED: [Case; 5] = [
    (
        &ASM,
        &[(NAME, Holds(&[b"mov.8 r0 value 041"]))],
        No,
        6,
        Text("text line 1\n"),
    ),
    (
        &ASM,
        &[(NAME, Holds(&[b"mov.8 r0 value 41 "]))],
        No,
        6,
        Text("text line 1\n"),
    ),
    (
        &ASM,
        &[(NAME, Holds(&[b"mov.8 r0 value 41\r\n"]))],
        No,
        6,
        Text("text line 1\n"),
    ),
    // No byte register of these is there beside a REX byte.
    (
        &ASM,
        &[(NAME, Holds(&[b"movzx8.32 r9 h2 0"]))],
        No,
        6,
        Text("text line 1\n"),
    ),
    // RSP is no index.
    (
        &ASM,
        &[(NAME, Holds(&[b"mov.32 r0 [r1,r4,2,0] 0"]))],
        No,
        6,
        Text("text line 1\n"),
    ),
];

/// A text is read and its code written or not.
static UNREAD: [Case; 4] = [
    (
        &ASM,
        &[(NAME, Holds(&[b"mov.8 r0 value 41"]))],
        Fetch(1),
        3,
        Text("unread text\n"),
    ),
    (
        &ASM,
        &[(NAME, Filled(b'a', PAST_THE_LIMIT, &[]))],
        No,
        7,
        Text("longer text 67108864\n"),
    ),
    (
        &ASM,
        &[(NAME, Holds(&[b"mov.8 r0 value 41"]))],
        Put(1, 1),
        4,
        Bytes(&[0xb0]),
    ),
    (&ASM, &[(NAME, Holds(&[b"\n"]))], Put(1, 4), 4, Text("text")),
];

/// MOV RBX, imm32; MOV CR0, RAX, which no scan would let by; SYSCALL, which isn't of the profile; and zeros, which are the
/// number of ADD EAX, imm32, and ADD [RAX], AL.
const LISTED: (&str, File) = (
    NAME,
    Code(&[&[
        0x48, 0xc7, 0xc3, 0, 0x10, 0, 0x80, 0x0f, 0x22, 0xc0, 0x0f, 0x05,
    ]]),
);

/// The lines of it, one by one.
const MOVES: &str = "ffffffff80000000 48c7c300100080 mov.64 r3 value ffffffff80001000\n";

const CONTROLS: &str = "ffffffff80000007 0f22c0 movtc.64 - r0 0\n";

const UNKNOWN: &str = "ffffffff8000000a 0f ?\n";

const ADDS: &str = "ffffffff8000000b 0500000000 add.32 r0 value 0\n";

const PADS: &str = "ffffffff80000010 0000 add.8 [r0,-,1,0] r0 0\n";

/// Code is listed from an address on.
static LISTS: [Case; 4] = [
    (
        &["list", NAME, "ffffffff80000000", "5"],
        &[LISTED],
        No,
        0,
        Padded(&[
            (MOVES, 0),
            (CONTROLS, 0),
            (UNKNOWN, 0),
            (ADDS, 0),
            (PADS, 0),
        ]),
    ),
    (
        &["list", NAME, "FFFFFFFF80000000", "1"],
        &[LISTED],
        No,
        0,
        Text(MOVES),
    ),
    (
        &["list", NAME, "ffffffff80000007", "1"],
        &[LISTED],
        No,
        0,
        Text(CONTROLS),
    ),
    (
        &["list", NAME, "ffffffff8000000b", "1"],
        &[LISTED],
        No,
        0,
        Text(ADDS),
    ),
];

/// NOP.
const PASSES: (&str, File) = (NAME, Code(&[&[0x90]]));

/// What is listed of it at the end of its page.
const LAST: &str = "ffffffff80000ffd 0000 add.8 [r0,-,1,0] r0 0\nffffffff80000fff 00 ?\n";

/// A page that ends with the first byte of JMP to itself.
const BEGINS: Segment = Segment {
    memory: 4096,
    nops: 4095,
    bytes: &[0xeb],
    ..CODE
};

/// The next page, which begins with the second byte.
const ENDS: Segment = Segment {
    memory: 1,
    bytes: &[0xfe],
    ..SECOND
};

/// As data.
const APART: Segment = Segment {
    memory: 1,
    bytes: &[0xfe],
    ..DATA
};

/// A listing ends with its run.
static RUNS: [Case; 4] = [
    (
        &["list", NAME, "ffffffff80000ffd", "4096"],
        &[PASSES],
        No,
        0,
        Text(LAST),
    ),
    (
        &["list", NAME, "ffffffff80000ffd", "2"],
        &[PASSES],
        No,
        0,
        Text(LAST),
    ),
    (
        &["list", NAME, "ffffffff80000fff", "1"],
        &[(NAME, Segments(&[BEGINS, ENDS]))],
        No,
        0,
        Text("ffffffff80000fff ebfe jmp.64 - value fffffffffffffffe\n"),
    ),
    (
        &["list", NAME, "ffffffff80000fff", "1"],
        &[(NAME, Segments(&[BEGINS, APART]))],
        No,
        0,
        Text("ffffffff80000fff eb ?\n"),
    ),
];

/// Sixteen operand size prefixes, and NOP.
const PREFIXED: [u8; 17] = [
    0x66, 0x66, 0x66, 0x66, 0x66, 0x66, 0x66, 0x66, 0x66, 0x66, 0x66, 0x66, 0x66, 0x66, 0x66, 0x66,
    0x90,
];

/// What is listed of it.
const SHIFTED: &str = "ffffffff80000000 66 ?\nffffffff80000001 66 ?\n\
    ffffffff80000002 666666666666666666666666666690 nop.64 - - 0\n";

/// A spelling past fifteen bytes is no instruction.
static SPELLED: [Case; 1] = [(
    &["list", NAME, "ffffffff80000000", "3"],
    &[(NAME, Code(&[&PREFIXED]))],
    No,
    0,
    Text(SHIFTED),
)];

/// A page of one NOP, and one as data behind it.
const TWO: [Segment; 2] = [
    Segment {
        memory: 1,
        bytes: &[0x90],
        ..CODE
    },
    Segment {
        memory: 1,
        bytes: &[0x90],
        ..DATA
    },
];

/// No code stands elsewhere.
static ELSEWHERE: [Case; 6] = [
    (
        &["list", NAME, "0", "1"],
        &[PASSES],
        No,
        10,
        Text("noaddress 0000000000000000\n"),
    ),
    (
        &["list", NAME, "ffffffff7fffffff", "1"],
        &[PASSES],
        No,
        10,
        Text("noaddress ffffffff7fffffff\n"),
    ),
    (
        &["list", NAME, "FFFFFFFF80001000", "1"],
        &[PASSES],
        No,
        10,
        Text("noaddress ffffffff80001000\n"),
    ),
    (
        &["list", NAME, "800000000000", "1"],
        &[PASSES],
        No,
        10,
        Text("noaddress 0000800000000000\n"),
    ),
    (
        &["list", NAME, "ffffffffffffffff", "1"],
        &[PASSES],
        No,
        10,
        Text("noaddress ffffffffffffffff\n"),
    ),
    // A page of data.
    (
        &["list", NAME, "ffffffff80001000", "1"],
        &[(NAME, Segments(&TWO))],
        No,
        10,
        Text("noaddress ffffffff80001000\n"),
    ),
];

/// The image comes before the address.
static ORDERED: [Case; 4] = [
    (
        &["list", NAME, "0", "1"],
        &[(NAME, Holds(&[]))],
        Fetch(1),
        3,
        Text("unread image\n"),
    ),
    (
        &["list", NAME, "0", "1"],
        &[(NAME, Holds(&[]))],
        No,
        1,
        Text("image 1 Short 0\n"),
    ),
    (
        &["list", NAME, "0", "1"],
        &[PASSES],
        Put(1, 9),
        4,
        Text("noaddress"),
    ),
    (
        &["list", NAME, "ffffffff80000000", "2"],
        &[PASSES],
        Put(2, 3),
        4,
        Text("ffffffff80000000 90 nop.64 - - 0\nfff"),
    ),
];

/// Other words are no text and no listing.
static OTHER_WORDS: [&[&str]; 14] = [
    &["asm"],
    &["asm", NAME, NAME],
    &["ASM", NAME],
    &["list", NAME, "0"],
    &["list", NAME, "0", "1", "1"],
    &["lists", NAME, "0", "1"],
    &["list", NAME, "", "1"],
    &["list", NAME, "0x0", "1"],
    &["list", NAME, "00000000000000000", "1"],
    &["list", NAME, "g", "1"],
    &["list", NAME, "0", "0"],
    &["list", NAME, "0", "4097"],
    &["list", NAME, "0", "01"],
    &["list", NAME, "0", ""],
];

#[test]
fn texts_and_listings_are_as_worked_out(rt: HostRuntime) -> Result<(), Fail> {
    let tables = [
        Cases(&ASSEMBLED),
        Cases(&UNFORMED),
        Cases(&UNSPELLED),
        Cases(&UNREAD),
        Cases(&LISTS),
        Cases(&RUNS),
        Cases(&SPELLED),
        Cases(&ELSEWHERE),
        Cases(&ORDERED),
        Forms(&OTHER_WORDS),
    ];
    assert_eq!(rt; first_other(rt.alloc(), &tables)?, None);
    Ok(())
}
