//! Jumps to each byte of the gates that carry a RAX with WP clear, under an interrupt that is due after so many turns:
//! while WP is clear the machine stands at gate points, and it never takes more than eleven turns so.

use super::jumps::WITHOUT_WP;
use super::programs::jump;
use super::{Ran, interrupt, run};
use nk_bits::GATE;
use std::alloc::Global;
use test_kit::first_wrong;

/// What is seen of many runs.
#[derive(Clone, Copy)]
struct Longest {
    runs: u32,
    /// The most turns in a row that began with WP clear, in any of them.
    turns: u32,
    /// How many runs have a stretch as long, and the first of them: the offset, and when its interrupt is due.
    reached: u32,
    first: (u16, u32),
    /// Whether in each with WP clear the machine always stood at a gate point, and at last rests in the halt loop.
    stood: bool,
}

/// The steps of a run: 60 turns, and the event.
const STEPS: u32 = 61;

/// What is seen of one more run.
fn with(runs: Longest, ran: &Ran, offset: u16, due: u32) -> Longest {
    let turns = ran.log.longest;
    let all = Longest {
        runs: runs.runs.saturating_add(1),
        stood: runs.stood && ran.log.stood && ran.rests && ran.regs.rip == GATE + 475,
        ..runs
    };
    if runs.reached == 0 || turns > runs.turns {
        return Longest {
            turns,
            reached: 1,
            first: (offset, due),
            ..all
        };
    }
    if turns < runs.turns {
        return all;
    }
    Longest {
        reached: runs.reached.saturating_add(1),
        ..all
    }
}

/// What is seen of one more offset, under ten plans; None for want of memory.
fn with_offset(alloc: Global, runs: Longest, offset: u16) -> Option<Longest> {
    let text = jump(true, offset, WITHOUT_WP);
    let mut runs = runs;
    for due in 5..15u32 {
        match run(alloc, &text, &interrupt(due, b'2'), STEPS) {
            Some(ran) => runs = with(runs, &ran, offset, due),
            None => return None,
        }
    }
    Some(runs)
}

/// What is seen of the offsets from the first one on, below the last one; None for want of memory.
fn over(alloc: Global, from: u16, to: u16) -> Option<Longest> {
    let mut runs = Longest {
        runs: 0,
        turns: 0,
        reached: 0,
        first: (0, 0),
        stood: true,
    };
    for offset in from..to {
        match with_offset(alloc, runs, offset) {
            Some(more) => runs = more,
            None => return None,
        }
    }
    Some(runs)
}

/// The first offset, and the one behind the last; how many runs there are to these, the longest stretch of them, how many
/// of them reach it, and the offset and the due turn of the first.
type Part = (u16, u16, u32, u32, u32, (u16, u32));

/// Whether it is so.
fn is_so(alloc: Global, part: &Part) -> bool {
    match over(alloc, part.0, part.1) {
        Some(found) => {
            found.runs == part.2
                && found.turns == part.3
                && found.reached == part.4
                && found.first == part.5
                && found.stood
        }
        None => false,
    }
}

/// The place of the first part of which it isn't so.
fn wrong_part(alloc: Global, parts: &[Part]) -> Option<usize> {
    first_wrong(parts, |part| is_so(alloc, part))
}

/// Both gates load CR0 there, and go round once more where WP was cleared: 40, 45, 29 and 32, or 460, 465, 449 and 452.
/// An interrupt that comes behind these adds the most: its delivery, two instructions of its stub, and four of the trap
/// gate. The offsets beside them lead to no load that clears WP.
const LOADS: [Part; 5] = [
    (37, 38, 10, 11, 1, (37, 9)),
    (457, 458, 10, 11, 1, (457, 9)),
    (36, 37, 10, 0, 10, (36, 5)),
    (38, 39, 10, 0, 10, (38, 5)),
    (456, 457, 10, 0, 10, (456, 5)),
];

/// From 2, 3, 5 and 6 the load at 13 is reached with IF set. An interrupt comes at 16: seven turns, where the way to
/// the load at 37 takes six. So it is from 8, and from 13 itself.
const CALL_GATE: [Part; 2] = [(0, 8, 80, 7, 4, (2, 8)), (8, 37, 290, 7, 2, (8, 6))];

#[test]
fn loads_that_set_wp(rt: HostRuntime) {
    assert_eq!(rt; wrong_part(rt.alloc(), &LOADS), None);
    assert_eq!(rt; wrong_part(rt.alloc(), &CALL_GATE), None);
}

/// The other offsets. They stand in parts, which are tested apart so that each test ends in time.
const OTHERS: [Part; 16] = [
    (38, 66, 280, 0, 280, (38, 5)),
    (66, 94, 280, 0, 280, (66, 5)),
    (94, 122, 280, 0, 280, (94, 5)),
    (122, 150, 280, 0, 280, (122, 5)),
    (150, 178, 280, 0, 280, (150, 5)),
    (178, 206, 280, 0, 280, (178, 5)),
    (206, 234, 280, 0, 280, (206, 5)),
    (234, 262, 280, 0, 280, (234, 5)),
    (262, 290, 280, 0, 280, (262, 5)),
    (290, 318, 280, 0, 280, (290, 5)),
    (318, 346, 280, 0, 280, (318, 5)),
    (346, 374, 280, 0, 280, (346, 5)),
    (374, 402, 280, 0, 280, (374, 5)),
    (402, 430, 280, 0, 280, (402, 5)),
    (430, 457, 270, 0, 270, (430, 5)),
    (458, 476, 180, 0, 180, (458, 5)),
];

#[test]
fn from_38(rt: HostRuntime) {
    assert_eq!(rt; wrong_part(rt.alloc(), &OTHERS[..4]), None);
}

#[test]
fn from_150(rt: HostRuntime) {
    assert_eq!(rt; wrong_part(rt.alloc(), &OTHERS[4..8]), None);
}

#[test]
fn from_262(rt: HostRuntime) {
    assert_eq!(rt; wrong_part(rt.alloc(), &OTHERS[8..12]), None);
}

#[test]
fn from_374(rt: HostRuntime) {
    assert_eq!(rt; wrong_part(rt.alloc(), &OTHERS[12..]), None);
}

/// The longest stretch of the second part is one turn longer than is said of it.
#[test]
fn wrong_part_is_found(rt: HostRuntime) {
    let wrong = [
        (36, 37, 10, 0, 10, (36, 5)),
        (37, 38, 10, 10, 1, (37, 9)),
        (38, 39, 10, 0, 10, (38, 5)),
    ];
    assert_eq!(rt; wrong_part(rt.alloc(), &wrong), Some(1));
}
