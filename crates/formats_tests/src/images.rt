//! A small file in form, changed in one place after another: each row on both sides of its edge.

use crate::files::{Change, END, HOME, WHOLE, halting_with};
use elf_image::FaultKind::{
    Align, BadEntry, Class, FileType, Machine, Magic, OutsideHome, SegmentRange, SharedPage, Short,
    Table, TooLarge, WritableCode,
};
use elf_image::{FaultKind, Headers, Image, ImageFault, Shape};
use std::alloc::Global;

/// Whether the row is so, the length to which the halting file is cut after changes, and its first fault.
type Row = (bool, usize, &'static [Change], Option<(FaultKind, u64)>);

/// The headers of a file by its first 64 bytes and then by its program header table. None where
/// the table passes the file's end.
pub(crate) fn in_parts(file: &[u8]) -> Option<Result<Headers, ImageFault>> {
    let size = file.len() as u64;
    let shape = match Shape::new(size, file.split_at(file.len().min(64)).0) {
        Ok(shape) => shape,
        Err(fault) => return Some(Err(fault)),
    };
    let at = shape.table_at() as usize;
    let length = shape.table_len();
    if at > file.len() || length > file.len() - at {
        return None;
    }
    let table = file.split_at(at).1.split_at(length).0;
    Some(shape.headers(table))
}

/// Whether the file has this first fault, read in two steps and as a whole.
pub(crate) fn is_judged(file: Vec<u8>, fault: Option<(FaultKind, u64)>) -> bool {
    let wanted = match fault {
        Some((kind, value)) => Some(ImageFault { kind, value }),
        None => None,
    };
    let Some(headers) = in_parts(&file) else {
        return false;
    };
    headers.err() == wanted && Image::read(file).err() == wanted
}

/// Whether the halting file, cut to this length after these changes, has this first fault.
fn is_so(
    alloc: Global,
    length: usize,
    changes: &[Change],
    fault: Option<(FaultKind, u64)>,
) -> bool {
    let Some(mut file) = halting_with(alloc, changes) else {
        return false;
    };
    file.truncate(length);
    is_judged(file, fault)
}

/// The table has two headers.
pub(crate) const TWO: Change = (56, 2, 2);

/// The second one is to be loaded.
pub(crate) const LOADED: Change = (120, 4, 1);

#[rattlefmt::skip]
static ROWS: [Row; 84] = [
    // Rows that the first 64 bytes decide, and where the table stands.
    (true, 0, &[], Some((Short, 0))),
    (true, 63, &[], Some((Short, 63))),
    (true, 64, &[(0, 1, 0x7E)], Some((Magic, 0))),
    (true, WHOLE, &[(1, 1, 0x65)], Some((Magic, 0))),
    (true, WHOLE, &[(1, 1, 0x46)], Some((Magic, 0))),
    (true, WHOLE, &[(2, 1, 0x6C)], Some((Magic, 0))),
    (true, WHOLE, &[(3, 1, 0x47)], Some((Magic, 0))),
    (true, WHOLE, &[(4, 1, 1)], Some((Class, 4))),
    (true, WHOLE, &[(5, 1, 2)], Some((Class, 5))),
    (true, WHOLE, &[(6, 1, 0)], Some((Class, 6))),
    (true, WHOLE, &[(6, 1, 2)], Some((Class, 6))),
    (true, WHOLE, &[(16, 2, 1)], Some((FileType, 16))),
    (true, WHOLE, &[(16, 2, 3)], Some((FileType, 16))),
    (true, WHOLE, &[(16, 2, 0x102)], Some((FileType, 16))),
    (true, WHOLE, &[(18, 2, 3)], Some((Machine, 18))),
    (true, WHOLE, &[(18, 2, 40)], Some((Machine, 18))),
    (true, WHOLE, &[(54, 2, 55)], Some((Table, 54))),
    (true, WHOLE, &[(54, 2, 57)], Some((Table, 54))),
    (true, WHOLE, &[(54, 2, 64)], Some((Table, 54))),
    (true, WHOLE, &[(56, 2, 0)], Some((Table, 56))),
    (true, WHOLE, &[(56, 2, 65)], Some((Table, 56))),
    (true, WHOLE, &[(32, 8, u64::MAX)], Some((Table, 32))),
    // The table passes the file's end by one byte, then by its whole; the last also has 64 headers.
    (true, WHOLE, &[(32, 8, 4042)], Some((Table, 32))),
    (true, 64, &[], Some((Table, 32))),
    (true, WHOLE, &[(32, 8, 514), (56, 2, 64)], Some((Table, 32))),
    // The first row that stands counts: type before machine.
    (true, WHOLE, &[(18, 2, 3), (16, 2, 3)], Some((FileType, 16))),
    // The file ends with its head or one byte before or behind it; the table, without a segment,
    // lies in the head.
    (true, 63, &[(32, 8, 0)], Some((Short, 63))),
    (true, 64, &[(32, 8, 0)], Some((BadEntry, 24))),
    (true, 64, &[(32, 8, 8)], Some((BadEntry, 24))),
    (true, 64, &[(32, 8, 9)], Some((Table, 32))),
    (true, 65, &[(32, 8, 9)], Some((BadEntry, 24))),
    (true, 65, &[(32, 8, 10)], Some((Table, 32))),
    // Rows on a segment, and then on all of them.
    (true, 4096, &[], Some((SegmentRange, 0))),
    (true, WHOLE, &[(96, 8, 2)], Some((SegmentRange, 0))),
    (true, WHOLE, &[(96, 8, 2), (104, 8, 2)], Some((SegmentRange, 0))),
    (true, WHOLE, &[(96, 8, u64::MAX)], Some((SegmentRange, 0))),
    (true, WHOLE, &[(96, 8, u64::MAX), (104, 8, u64::MAX)], Some((SegmentRange, 0))),
    (true, WHOLE, &[(72, 8, u64::MAX)], Some((SegmentRange, 0))),
    (true, WHOLE, &[(96, 8, 0), (72, 8, 4098)], Some((SegmentRange, 0))),
    (true, WHOLE, &[(80, 8, HOME + 1)], Some((Align, 0))),
    (true, WHOLE, &[(72, 8, 4095)], Some((Align, 0))),
    (true, WHOLE, &[(80, 8, 0x1000)], Some((OutsideHome, 0))),
    (true, WHOLE, &[(80, 8, HOME - 4096)], Some((OutsideHome, 0))),
    (true, WHOLE, &[(96, 8, 0), (80, 8, HOME - 1)], Some((OutsideHome, 0))),
    (true, WHOLE, &[(96, 8, 0), (80, 8, END - 1), (104, 8, 2)], Some((OutsideHome, 0))),
    (true, WHOLE, &[(96, 8, 0), (80, 8, END)], Some((OutsideHome, 0))),
    (true, WHOLE, &[(104, 8, 0x4000_0001)], Some((OutsideHome, 0))),
    (true, WHOLE, &[(104, 8, u64::MAX)], Some((OutsideHome, 0))),
    (true, WHOLE, &[(68, 4, 7)], Some((WritableCode, 0))),
    (true, WHOLE, &[(68, 4, 3)], Some((WritableCode, 0))),
    (true, WHOLE, &[(24, 8, HOME + 1)], Some((BadEntry, 24))),
    (true, WHOLE, &[(24, 8, HOME - 1)], Some((BadEntry, 24))),
    (true, WHOLE, &[(24, 8, 0)], Some((BadEntry, 24))),
    (true, WHOLE, &[(68, 4, 4)], Some((BadEntry, 24))),
    // A header that takes no memory is passed over, and one that is not to be loaded.
    (true, WHOLE, &[(104, 8, 0)], Some((BadEntry, 24))),
    (true, WHOLE, &[(64, 4, 2)], Some((BadEntry, 24))),
    // The table ends with the file. The bytes there are no segment.
    (true, WHOLE, &[(32, 8, 4041)], Some((BadEntry, 24))),
    (true, WHOLE, &[(104, 8, 8192 * 4096 + 1)], Some((TooLarge, 8193))),
    (true, WHOLE, &[(104, 8, 0x4000_0000)], Some((TooLarge, 0x4_0000))),
    // Files in form, up to each edge.
    (true, WHOLE, &[], None),
    // The most headers; the second to the last are of no type.
    (true, WHOLE, &[(56, 2, 64)], None),
    (true, WHOLE, &[(104, 8, 8192 * 4096)], None),
    (true, WHOLE, &[(104, 8, 4096), (24, 8, HOME + 4095)], None),
    // A segment without bytes of the file may begin at the file's end and at any place of a page.
    (true, WHOLE, &[(96, 8, 0), (72, 8, 4097)], None),
    (true, WHOLE, &[(96, 8, 0), (80, 8, HOME + 1), (24, 8, HOME + 1)], None),
    // The home's last page, and its last byte alone.
    (true, WHOLE, &[(80, 8, END - 4096), (24, 8, END - 4096), (104, 8, 4096)], None),
    (true, WHOLE, &[(96, 8, 0), (80, 8, END - 1), (24, 8, END - 1)], None),
    // Code that may not be read; the address in physical memory and the alignment aren't looked at.
    (true, WHOLE, &[(68, 4, 1)], None),
    (true, WHOLE, &[(88, 8, 7), (112, 8, 3)], None),
    // A second header, of memory alone, that is loaded to an address, with a size and flags.
    (true, WHOLE, &[TWO, LOADED, (124, 4, 4), (136, 8, HOME), (160, 8, 1)], Some((SharedPage, 1))),
    (true, WHOLE, &[TWO, LOADED, (124, 4, 4), (136, 8, HOME + 4095), (160, 8, 1)], Some((SharedPage, 1))),
    (true, WHOLE, &[TWO, LOADED, (124, 4, 4), (136, 8, HOME + 4096), (160, 8, 1)], None),
    (true, WHOLE, &[TWO, LOADED, (124, 4, 4), (136, 8, END - 1), (160, 8, 1)], None),
    (true, WHOLE, &[TWO, LOADED, (124, 4, 4), (136, 8, END - 1), (160, 8, 2)], Some((OutsideHome, 1))),
    (true, WHOLE, &[TWO, LOADED, (124, 4, 4), (136, 8, HOME - 1), (160, 8, 1)], Some((OutsideHome, 1))),
    (true, WHOLE, &[TWO, LOADED, (124, 4, 6), (136, 8, HOME + 4096), (160, 8, 8191 * 4096)], None),
    (
        true,
        WHOLE,
        &[TWO, LOADED, (124, 4, 6), (136, 8, HOME + 4096), (160, 8, 8191 * 4096 + 1)],
        Some((TooLarge, 8193)),
    ),
    // Each row is asked of all segments before the next one: header 0 leaves the home, header 1 is
    // misaligned.
    (
        true,
        WHOLE,
        &[(80, 8, 0x1000), TWO, LOADED, (128, 8, 1), (136, 8, HOME), (152, 8, 1), (160, 8, 1)],
        Some((Align, 1)),
    ),
    // A row that is so, and then another kind, another value, a fault of a file in form, none of another one, and a
    // change past the file's end.
    (true, WHOLE, &[(4, 1, 1)], Some((Class, 4))),
    (false, WHOLE, &[(4, 1, 1)], Some((Magic, 4))),
    (false, WHOLE, &[(4, 1, 1)], Some((Class, 5))),
    (false, WHOLE, &[], Some((Class, 4))),
    (false, WHOLE, &[(4, 1, 1)], None),
    (false, WHOLE, &[(4096, 2, 0)], None),
];

#[test]
fn files_and_their_first_faults(rt: HostRuntime) {
    for (index, (so, length, changes, fault)) in ROWS.iter().enumerate() {
        assert!(rt;
            is_so(rt.alloc(), *length, changes, *fault) == *so,
            "row {index}"
        );
    }
}

/// Each kind with its number and its name.
#[rattlefmt::skip]
static KINDS: [(FaultKind, u8, &str); 13] = [
    (Short, 1, "Short"),
    (Magic, 2, "Magic"),
    (Class, 3, "Class"),
    (FileType, 4, "FileType"),
    (Machine, 5, "Machine"),
    (Table, 6, "Table"),
    (SegmentRange, 7, "SegmentRange"),
    (Align, 8, "Align"),
    (OutsideHome, 9, "OutsideHome"),
    (SharedPage, 10, "SharedPage"),
    (WritableCode, 11, "WritableCode"),
    (BadEntry, 12, "BadEntry"),
    (TooLarge, 13, "TooLarge"),
];

#[test]
fn numbers_and_names_faults(rt: HostRuntime) {
    for (kind, number, name) in &KINDS {
        assert!(rt; kind.number() == *number && kind.name() == *name);
    }
}
