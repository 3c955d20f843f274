//! Worked cases of `run` with deliveries and events. Each run goes through the gates' text to its halt loop: eleven turns
//! after a delivery.
use super::cases::Table::Runs;
use super::cases::{HALTS, Run, UNCHANGED, first_other};
use std::test::Fail;

/// A fault is delivered.
static FAULTS: [Run; 8] = [
    // DIV of 0 by 0.
    (
        &[&[0xf7, 0xf0]],
        "",
        "100",
        "i 0 - ffffffff80000000 -\nend halted\nturns 12",
    ),
    // INT3: a trap, whose RIP is that of the next instruction.
    (
        &[&[0xcc]],
        "",
        "100",
        "i 3 - ffffffff80000001 -\nend halted\nturns 12",
    ),
    // LMSW with a register.
    (
        &[&[0x0f, 0x01, 0xd8]],
        "",
        "100",
        "i 6 - ffffffff80000000 -\nend halted\nturns 12",
    ),
    // PUSH where RSP isn't canonical.
    (
        &[&[0x48, 0xbc, 0, 0, 0, 0, 0, 0, 0, 0x80, 0x50]],
        "",
        "100",
        "i 12 0 ffffffff8000000a -\nend halted\nturns 13",
    ),
    // INT FF, whose gate passes the limit: the error code names the gate.
    (
        &[&[0xcd, 0xff]],
        "",
        "100",
        "i 13 7fa ffffffff80000000 -\nend halted\nturns 12",
    ),
    // A read of a page without a translation, and a write to the code's own page.
    (
        &[&[0x8a, 0x04, 0x25, 0, 0, 0, 0]],
        "",
        "100",
        "i 14 0 ffffffff80000000 0000000000000000\nend halted\nturns 12",
    ),
    (
        &[&[0xc6, 0x04, 0x25, 0, 0, 0, 0x80, 0]],
        "",
        "100",
        "i 14 3 ffffffff80000000 ffffffff80000000\nend halted\nturns 12",
    ),
    // INT 14 shows CR2 as it stands, and no error code.
    (
        &[&[0xcd, 0x0e]],
        "",
        "100",
        "i 14 - ffffffff80000002 0000000000000000\nend halted\nturns 12",
    ),
];

/// MOV RCX, offset 37 of the gates; MOV EAX, 80000001, which is WP clear; JMP RCX.
const JUMPS_TO_37: [u8; 17] = [
    0x48, 0xb9, 0x25, 0x10, 0x00, 0x00, 0x80, 0xff, 0xff, 0xff, 0xb8, 0x01, 0x00, 0x00, 0x80, 0xff,
    0xe1,
];

/// STI.
const ADMITS: [u8; 1] = [0xfb];

/// Jumps into the gates are refused.
static JUMPS: [Run; 5] = [
    // An interrupt at offset 16, with RSP in a page table: its frame goes to the trap stack.
    (
        &[&[
            0xfb, 0x48, 0xbc, 0x00, 0x58, 0x00, 0x00, 0x00, 0x80, 0xff, 0xff, 0x48, 0xb9, 0x0d,
            0x10, 0x00, 0x00, 0x80, 0xff, 0xff, 0xff, 0xb8, 0x01, 0x00, 0x00, 0x80, 0xff, 0xe1,
        ]],
        "6 irq 33",
        "100",
        "i 33 - ffffff8000001010 -\nend halted\nturns 18",
    ),
    // To offset 37 with WP clear in EAX.
    (
        &[&JUMPS_TO_37],
        "",
        "100",
        "i 14 0 ffffff8000001035 0000000000000000\nend halted\nturns 25",
    ),
    (
        &[&ADMITS, &JUMPS_TO_37],
        "9 irq 32",
        "100",
        "i 32 - ffffff8000001025 -\nend halted\nturns 21",
    ),
    // To the body's place with WP set.
    (
        &[&[
            0x48, 0xb8, 0x1b, 0x10, 0x00, 0x00, 0x80, 0xff, 0xff, 0xff, 0xff, 0xe0,
        ]],
        "",
        "100",
        "i 14 3 ffffff800000101b ffffff8000004ff8\nend halted\nturns 14",
    ),
    // To offset 13 with PG clear in EAX.
    (
        &[&[
            0x48, 0xb9, 0x0d, 0x10, 0x00, 0x00, 0x80, 0xff, 0xff, 0xff, 0xb8, 0x01, 0x00, 0x00,
            0x00, 0xff, 0xe1,
        ]],
        "",
        "100",
        "i 13 0 ffffff800000100d -\nend halted\nturns 15",
    ),
];

/// STI; JMP to itself.
pub(super) const TURNS: [u8; 3] = [0xfb, 0xeb, 0xfe];

/// STI; HLT.
const WAITS: [u8; 2] = [0xfb, 0xf4];

/// NOP; STI; NOP; JMP to itself.
const LATER: [u8; 5] = [0x90, 0xfb, 0x90, 0xeb, 0xfe];

/// An event is taken once it is due.
static DUE: [Run; 6] = [
    (
        &[&TURNS],
        "3 irq 32",
        "100",
        "i 32 - ffffffff80000001 -\nend halted\nturns 15",
    ),
    (
        &[&TURNS],
        "4 irq 32\n",
        "100",
        "i 32 - ffffffff80000001 -\nend halted\nturns 16",
    ),
    // An interrupt waits for IF and for the end of STI's shield; the highest goes first.
    (
        &[&LATER],
        "0 irq 40",
        "100",
        "i 40 - ffffffff80000003 -\nend halted\nturns 15",
    ),
    (
        &[&LATER],
        "0 irq 47\n0 irq 32\n",
        "100",
        "i 47 - ffffffff80000003 -\nend halted\nturns 15",
    ),
    // It waits for good where IF stays clear.
    (&[&HALTS], "0 irq 32", "100", "end halted\nturns 1"),
    // Translations come and go, and no turn is counted.
    (
        &[&HALTS],
        "0 fill ffff800000047000\n0 drop FFFF800000047000\n",
        "100",
        "end halted\nturns 1",
    ),
];

/// NOP; STI; NOP; NOP; CLI; NOP; STI; NOP; HLT.
const SWITCHES: [u8; 9] = [0x90, 0xfb, 0x90, 0x90, 0xfa, 0x90, 0xfb, 0x90, 0xf4];

/// An interrupt that is due before each instruction in turn, and behind the last: it comes once IF is set and no shield
/// stands, and wakes the machine.
static INTERRUPTS: [Run; 11] = [
    (
        &[&SWITCHES],
        "0 irq 32",
        "100",
        "i 32 - ffffffff80000003 -\nend halted\nturns 15",
    ),
    (
        &[&SWITCHES],
        "1 irq 32",
        "100",
        "i 32 - ffffffff80000003 -\nend halted\nturns 15",
    ),
    (
        &[&SWITCHES],
        "2 irq 32",
        "100",
        "i 32 - ffffffff80000003 -\nend halted\nturns 15",
    ),
    (
        &[&SWITCHES],
        "3 irq 32",
        "100",
        "i 32 - ffffffff80000003 -\nend halted\nturns 15",
    ),
    (
        &[&SWITCHES],
        "4 irq 32",
        "100",
        "i 32 - ffffffff80000004 -\nend halted\nturns 16",
    ),
    (
        &[&SWITCHES],
        "5 irq 32",
        "100",
        "i 32 - ffffffff80000008 -\nend halted\nturns 20",
    ),
    (
        &[&SWITCHES],
        "6 irq 32",
        "100",
        "i 32 - ffffffff80000008 -\nend halted\nturns 20",
    ),
    (
        &[&SWITCHES],
        "7 irq 32",
        "100",
        "i 32 - ffffffff80000008 -\nend halted\nturns 20",
    ),
    (
        &[&SWITCHES],
        "8 irq 32",
        "100",
        "i 32 - ffffffff80000008 -\nend halted\nturns 20",
    ),
    (
        &[&SWITCHES],
        "9 irq 32",
        "100",
        "i 32 - ffffffff80000009 -\nend halted\nturns 21",
    ),
    (
        &[&SWITCHES],
        "10 irq 32",
        "100",
        "i 32 - ffffffff80000009 -\nend halted\nturns 21",
    ),
];

/// What a run of the waiting text writes where an interrupt wakes it.
const WOKEN: &str = "i 32 - ffffffff80000002 -\nend halted\nturns 14";

/// A halted machine takes the events that are left.
static WOKEN_BY: [Run; 5] = [
    (&[&WAITS], "5 drop ffff800000047000\n9 irq 32", "100", WOKEN),
    (&[&WAITS], "4294967296 irq 32", "100", WOKEN),
    // STI shields HLT.
    (&[&WAITS], "1 irq 32", "100", WOKEN),
    // Once the handler halts with IF clear, another interrupt waits for good.
    (&[&WAITS], "5 irq 32\n4294967296 irq 33\n", "100", WOKEN),
    (&[&WAITS], "5 fill 0", "100", "end halted\nturns 2"),
];

/// Events are left where all turns were taken.
static UNTAKEN: [Run; 5] = [
    (&[&HALTS], "", "0", "end steps\nturns 0"),
    (&[&HALTS], "0 irq 32\n0 irq 33", "0", "end steps\nturns 0"),
    (&[&TURNS], "3 irq 32", "3", "end steps\nturns 3"),
    (
        &[&TURNS],
        "3 irq 32\n9 irq 33",
        "4",
        "i 32 - ffffffff80000001 -\nend steps\nturns 4",
    ),
    // The processor halted in its last turn.
    (&[&WAITS], "5 irq 32", "2", "end steps\nturns 2"),
];

#[test]
fn deliveries_and_events_are_as_worked_out(rt: HostRuntime) -> Result<(), Fail> {
    let tables = [
        Runs(0, UNCHANGED, &FAULTS),
        Runs(0, UNCHANGED, &JUMPS),
        Runs(0, UNCHANGED, &DUE),
        Runs(0, UNCHANGED, &INTERRUPTS),
        Runs(0, UNCHANGED, &WOKEN_BY),
        Runs(0, UNCHANGED, &UNTAKEN),
    ];
    assert_eq!(rt; first_other(rt.alloc(), &tables)?, None);
    Ok(())
}
