//! Calls that break two rules at once: the answer is the first of them in the call's order. Each pair of rules that one call
//! can break is a row, of which the later rule stands behind it.

use super::cases::{Case, Start, wrong_case};
use super::{NOWHERE, PAGE, POOL, READABLE, Row, WRITABLE, pages_declared, play};
use std::alloc::Global;

/// On the opening: levels and frames of a new table, entries, tables that go, ranges and sizes of regions.
const OPENING: [(Row, u64); 30] = [
    ((2, 5, 600, 0), 2), // 3
    ((2, 5, 0, 0), 3), // 4
    ((2, 5, 71, 0), 3), // 5
    ((2, 1, 3, 0), 4), // 5: the trap stack's frame
    ((3, 600, 512, 0), 2), // 7
    ((3, 600, 0, 0x4_7003), 2), // 9
    ((3, 600, 0, 0x8000_0000_0020_0021), 2), // 10
    ((3, 600, 0, 0x8000_0000_0000_5025), 2), // 11
    ((3, 6, 512, 0), 6), // 7
    ((3, 6, 0, 0x4_7003), 6), // 9
    ((3, 6, 0, 0x8000_0000_0020_0021), 6), // 10
    ((3, 6, 0, 0x8000_0000_0000_5025), 6), // 11
    ((3, 70, 512, 0x4_7003), 7), // 9
    ((3, 70, 512, 0x8000_0000_0020_0021), 7), // 10
    ((3, 70, 512, 0x8000_0000_0000_5025), 7), // 11
    ((3, 5, 511, 0x4_7003), 8), // 9
    ((3, 5, 511, 0x4_7027), 8), // 10
    ((3, 70, 71, 0x8000_0000_0020_0121), 9), // 10
    ((3, 70, 71, 0x8000_0000_0000_5125), 9), // 11
    ((3, 70, 71, 0x8000_0000_0001_A067), 10), // 11
    ((4, 5, 0, 0), 12), // 13
    ((5, 600, 0, 0), 2), // 14
    ((6, PAGE, 4095, 5), 15), // 16
    ((6, PAGE - 4096, 4095, 1), 15), // 4
    ((6, PAGE, 4095, 1), 15), // 5
    ((6, PAGE - 4096, 4096, 5), 16), // 4
    ((6, PAGE, 4096, 5), 16), // 5
    ((6, PAGE - 4096, 8192, 1), 4), // 5
    ((7, 0, 5, 0), 15), // 16
    ((7, 0x1_0001, 1, 0), 15), // 18
];

/// Two pages of one frame, which is loose; then the first page's frame is loose and the second's a page table.
const RANGES: [(Row, u64); 6] = [
    ((3, 70, 72, WRITABLE), 0),
    ((6, PAGE, 8192, 5), 15), // 16
    ((6, PAGE, 8192, 1), 15), // 5
    ((3, 70, 72, READABLE + 0x1000), 0),
    ((2, 1, 72, 0), 0),
    ((6, PAGE, 8192, 1), 4), // 5
];

/// The pool is full.
const FULL: [(Row, u64); 4] = [
    ((7, 0x1_0000, 4, POOL), 256),
    ((7, 0, 1, 0), 15), // 18
    ((7, 0x1_0001, 1, 0), 15), // 18
    ((7, 1, 5, 0), 16), // 18
];

/// As many regions live as may.
const MANY: [(Row, u64); 7] = [
    ((7, 0, 1, 0), 15), // 17
    ((7, 1, 5, 0), 16), // 17
    ((7, 0x1_0000, 1, 0), 17), // 18
    ((6, PAGE, 4095, 1), 15), // 17
    ((6, PAGE, 4096, 5), 16), // 17
    ((6, PAGE - 4096, 4096, 1), 17), // 4
    ((6, PAGE, 4096, 1), 17), // 5
];

/// As many pages were declared as may be: those of the frames 71 to 198. Frame 207 is loose.
const PAGES: [(Row, u64); 5] = [
    ((6, PAGE, 4095, 1), 15), // 18
    ((6, PAGE, 4096, 5), 16), // 18
    ((6, PAGE - 4096, 4096, 1), 18), // 4: the frame of a page table
    ((6, PAGE, 4096, 1), 18), // 4: a frame of a region
    ((6, PAGE + 136 * 4096, 4096, 1), 18), // 5
];

/// Writes in a region that is written once, in one that is appended to, in one that is never written, and in none.
const WRITES: [(Row, u64); 13] = [
    ((7, 16, 1, POOL), 256),
    ((7, 16, 2, POOL + 16), 257),
    ((7, 16, 3, POOL + 32), 258),
    ((9, 256, 0, 4), 0),
    ((9, 259, 0, 0), 19), // 21
    ((9, 256, 0, 17), 21), // 24
    ((9, 256, 0, NOWHERE + 1), 22), // 24
    ((9, 257, 1, 16), 21), // 25
    ((9, 257, 1, NOWHERE + 1), 22), // 25
    ((9, 258, 0, 17), 21), // 23
    ((9, 258, 0, NOWHERE + 1), 22), // 23
    ((8, 256, 0, 0), 0),
    ((9, 256, 0, 17), 19), // 21
];

/// The log is full.
const LOG: [(Row, u64); 2] = [
    ((9, 256, 32_745, 1), 21), // 26
    ((9, 256, 0, NOWHERE + 1), 22), // 26
];

/// Whether the calls are answered so behind what stands before them.
fn are_answered(alloc: Global, start: Start, calls: &[(Row, u64)]) -> bool {
    wrong_case(alloc, start, &[Case { calls, found: &[] }]).is_none()
}

/// So many regions of a byte each behind eight that were declared, and then a declaration where neither a region nor a
/// page may be added.
fn is_answered_at_both_limits(alloc: Global) -> bool {
    let Some(mut it) = pages_declared(alloc) else {
        return false;
    };
    for k in 0..248u64 {
        let row = ((7, 1, 1, POOL + 16 * k), 264 + k);
        if play(alloc, &mut it.kernel, &mut it.mem, &[row]) != 1 {
            return false;
        }
    }
    let row = ((6, PAGE + 136 * 4096, 4096, 1), 17); // 18
    play(alloc, &mut it.kernel, &mut it.mem, &[row]) == 1
}

#[test]
fn first_of_two_broken_rules_answers(rt: HostRuntime) {
    let opening = Start::Opening(512);
    for calls in [&OPENING[..], &RANGES[..], &FULL[..], &WRITES[..]] {
        assert!(rt; are_answered(rt.alloc(), opening, calls));
    }
    assert!(rt; are_answered(rt.alloc(), Start::Regions, &MANY));
    assert!(rt; are_answered(rt.alloc(), Start::Pages, &PAGES));
    assert!(rt; are_answered(rt.alloc(), Start::FullLog, &LOG));
    assert!(rt; is_answered_at_both_limits(rt.alloc()));
}
