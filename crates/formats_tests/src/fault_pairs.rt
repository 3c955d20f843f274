//! Files with two faults at once: of each two rows of the form the earlier one is told.

use crate::files::{Change, HOME, WHOLE, change_all, halting_with};
use crate::images::is_judged;
use elf_image::FaultKind;
use elf_image::FaultKind::{
    Align, BadEntry, Class, FileType, Machine, Magic, OutsideHome, SegmentRange, SharedPage, Short,
    Table, TooLarge, WritableCode,
};
use std::alloc::Global;

/// A fault, its value, and the changes that make it.
type Fault = (FaultKind, u64, &'static [Change]);

/// The twelve faults of a file that has its first 64 bytes, in the order of the rows of docs/FORMATS.md. No two change
/// the same place, so each two can stand together. A fault of a segment has a header to itself, of a part of memory
/// that no other has; the later its row, the lower its header.
#[rattlefmt::skip]
static FAULTS: [Fault; 12] = [
    (Magic, 0, &[(0, 1, 0x7E)]),
    (Class, 4, &[(4, 1, 1)]),
    (FileType, 16, &[(16, 2, 1)]),
    (Machine, 18, &[(18, 2, 3)]),
    (Table, 54, &[(54, 2, 55)]),
    // The two bytes from offset 4,096 on, of which the file has one.
    (SegmentRange, 6, &[(400, 4, 1), (404, 4, 4), (408, 8, 4096), (416, 8, HOME + 0x6000), (432, 8, 2), (440, 8, 2)]),
    // The byte there, loaded to the second place of a page.
    (Align, 5, &[(344, 4, 1), (348, 4, 4), (352, 8, 4096), (360, 8, HOME + 0x5001), (376, 8, 1), (384, 8, 1)]),
    (OutsideHome, 4, &[(288, 4, 1), (292, 4, 4), (304, 8, HOME - 4096), (328, 8, 1)]),
    // The page of the code.
    (SharedPage, 3, &[(232, 4, 1), (236, 4, 4), (248, 8, HOME + 1), (272, 8, 1)]),
    (WritableCode, 2, &[(176, 4, 1), (180, 4, 7), (192, 8, HOME + 0x2000), (216, 8, 1)]),
    (BadEntry, 24, &[(24, 8, HOME + 0x1000)]),
    // All pages that an image may have, beside the one of the code.
    (TooLarge, 8193, &[(120, 4, 1), (124, 4, 6), (136, 8, HOME + 0x10000), (160, 8, 8192 * 4096)]),
];

/// Whether the halting file with seven headers, cut to this length after these changes and then those, has this first
/// fault.
fn is_told(
    alloc: Global,
    length: usize,
    later: &[Change],
    earlier: &[Change],
    fault: Option<(FaultKind, u64)>,
) -> bool {
    let Some(mut file) = halting_with(alloc, &[(56, 2, 7)]) else {
        return false;
    };
    if !change_all(&mut file, later) || !change_all(&mut file, earlier) {
        return false;
    }
    file.truncate(length);
    is_judged(file, fault)
}

/// Whether the fault at this place is told of the file that has it alone, and of each file that has a later one too.
fn is_before_later_ones(alloc: Global, at: usize, (kind, value, changes): Fault) -> bool {
    for (index, (_, _, later)) in FAULTS.iter().enumerate() {
        if index >= at && !is_told(alloc, WHOLE, later, changes, Some((kind, value))) {
            return false;
        }
    }
    true
}

#[test]
fn of_two_faults_the_earlier_is_told(rt: HostRuntime) {
    for (at, fault) in FAULTS.iter().enumerate() {
        assert!(rt; is_before_later_ones(rt.alloc(), at, *fault), "fault {at}");
    }
}

/// A file that ends too soon, whatever else is wrong with it: with each fault of its first 63 bytes, and without code
/// at its entry.
#[test]
fn of_a_short_file_its_length_is_told(rt: HostRuntime) {
    for (at, (_, _, changes)) in FAULTS.iter().enumerate() {
        assert!(rt;
            is_told(rt.alloc(), 63, &[], changes, Some((Short, 63))),
            "fault {at}"
        );
    }
}

/// A file without a fault, and wrong answers: the later of two faults, an earlier one that doesn't stand, and another
/// value.
#[test]
fn wrong_answers_are_found(rt: HostRuntime) {
    let (_, _, shared) = FAULTS[8];
    let (_, _, code) = FAULTS[9];
    assert!(rt; is_told(rt.alloc(), WHOLE, &[], &[], None));
    assert!(rt; !is_told(rt.alloc(), WHOLE, code, shared, Some((WritableCode, 2))));
    assert!(rt; !is_told(rt.alloc(), WHOLE, code, shared, Some((Align, 3))));
    assert!(rt; !is_told(rt.alloc(), WHOLE, code, shared, Some((SharedPage, 2))));
    assert!(rt; is_told(rt.alloc(), WHOLE, code, shared, Some((SharedPage, 3))));
}
