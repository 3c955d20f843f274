//! Files of one segment, changed in one place after another.

use std::alloc::Global;

/// A change of a file: a place, how many bytes, and the number that they then hold.
pub(crate) type Change = (usize, usize, u64);

/// The first address of the home, and the first past it.
pub(crate) const HOME: u64 = 0xFFFF_FFFF_8000_0000;

pub(crate) const END: u64 = 0xFFFF_FFFF_C000_0000;

/// The length of the halting file.
pub(crate) const WHOLE: usize = 4097;

/// One header, readable and executable, that loads the byte at offset 4,096 to the home's start.
#[rattlefmt::skip]
static HEADERS: [Change; 13] = [
    (0, 7, 0x01_01_02_46_4C_45_7F),
    (16, 2, 2), (18, 2, 62), (24, 8, HOME), (32, 8, 64), (54, 2, 56), (56, 2, 1),
    (64, 4, 1), (68, 4, 5), (72, 8, 4096), (80, 8, HOME), (96, 8, 1), (104, 8, 1),
];

/// Puts the low bytes of a number at a place, least significant first. False where they have no
/// room.
fn change(file: &mut [u8], (place, size, value): Change) -> bool {
    let bytes = value.to_le_bytes();
    for k in 0..size {
        if k >= 8 || place >= file.len() || k >= file.len() - place {
            return false;
        }
        file[place + k] = bytes[k];
    }
    true
}

/// Makes these changes in order. False where one has no room.
pub(crate) fn change_all(file: &mut [u8], changes: &[Change]) -> bool {
    for it in changes {
        if !change(file, *it) {
            return false;
        }
    }
    true
}

/// A file of so many bytes of this value, but for the headers and then these changes.
pub(crate) fn file_with(
    alloc: Global,
    length: usize,
    filler: u8,
    changes: &[Change],
) -> Option<Vec<u8>> {
    let mut file = vec![in alloc; filler; length].ok()?;
    if change_all(&mut file, &HEADERS) && change_all(&mut file, changes) {
        Some(file)
    } else {
        None
    }
}

/// The file that loads the byte F4, after these changes.
pub(crate) fn halting_with(alloc: Global, changes: &[Change]) -> Option<Vec<u8>> {
    let mut file = file_with(alloc, WHOLE, 0, &[(4096, 1, 0xF4)])?;
    if change_all(&mut file, changes) {
        Some(file)
    } else {
        None
    }
}
