//! Images at worked values.

use image_maker::make_image;
use std::test::Fail;

/// What is so of an image's file.
enum Fact {
    Length(usize),
    /// These bytes stand from a place on.
    Stands(usize, &'static [u8]),
    /// There is no byte but 0 from one place up to another.
    Zeros(usize, usize),
    /// These numbers stand in the script's record of a number.
    Record(u16, [u64; 5]),
}

/// A number of processes, and what is so of the image for them.
type Row = (u64, Fact);

#[rattlefmt::skip]
static FACTS: [Row; 55] = [
    // The 92 records of five processes fit into one page, and the 110 of six don't.
    (1, Fact::Length(12_297)),
    (5, Fact::Length(12_297)),
    (6, Fact::Length(16_393)),
    (57, Fact::Length(53_257)),
    (100, Fact::Length(81_929)),
    // One process: the three headers, the text and the process's code, with zeros between them.
    (1, Fact::Stands(0, &[
        0x7F, 0x45, 0x4C, 0x46, 0x02, 0x01, 0x01, 0x00, 0x00, 0x00, 0x00, 0x00, 0x00, 0x00, 0x00, 0x00,
        0x02, 0x00, 0x3E, 0x00, 0x01, 0x00, 0x00, 0x00, 0x00, 0x00, 0x00, 0x80, 0xFF, 0xFF, 0xFF, 0xFF,
        0x40, 0x00, 0x00, 0x00, 0x00, 0x00, 0x00, 0x00, 0x00, 0x00, 0x00, 0x00, 0x00, 0x00, 0x00, 0x00,
        0x00, 0x00, 0x00, 0x00, 0x40, 0x00, 0x38, 0x00, 0x02, 0x00, 0x00, 0x00, 0x00, 0x00, 0x00, 0x00,
        0x01, 0x00, 0x00, 0x00, 0x05, 0x00, 0x00, 0x00, 0x00, 0x10, 0x00, 0x00, 0x00, 0x00, 0x00, 0x00,
        0x00, 0x00, 0x00, 0x80, 0xFF, 0xFF, 0xFF, 0xFF, 0x00, 0x00, 0x00, 0x80, 0xFF, 0xFF, 0xFF, 0xFF,
        0x45, 0x00, 0x00, 0x00, 0x00, 0x00, 0x00, 0x00, 0x45, 0x00, 0x00, 0x00, 0x00, 0x00, 0x00, 0x00,
        0x00, 0x10, 0x00, 0x00, 0x00, 0x00, 0x00, 0x00, 0x01, 0x00, 0x00, 0x00, 0x04, 0x00, 0x00, 0x00,
        0x00, 0x20, 0x00, 0x00, 0x00, 0x00, 0x00, 0x00, 0x00, 0x10, 0x00, 0x80, 0xFF, 0xFF, 0xFF, 0xFF,
        0x00, 0x10, 0x00, 0x80, 0xFF, 0xFF, 0xFF, 0xFF, 0x09, 0x10, 0x00, 0x00, 0x00, 0x00, 0x00, 0x00,
        0x09, 0x10, 0x00, 0x00, 0x00, 0x00, 0x00, 0x00, 0x00, 0x10, 0x00, 0x00, 0x00, 0x00, 0x00, 0x00,
    ])),
    (1, Fact::Zeros(176, 4096)),
    (1, Fact::Stands(4096, &[
        0x48, 0xC7, 0xC3, 0x00, 0x10, 0x00, 0x80, 0x48, 0x8B, 0x3B, 0x48, 0x85, 0xFF, 0x74, 0x33, 0x78,
        0x22, 0x48, 0x8B, 0x73, 0x08, 0x48, 0x8B, 0x53, 0x10, 0x48, 0x8B, 0x4B, 0x18, 0x4C, 0x8B, 0x43,
        0x20, 0x48, 0xB8, 0x00, 0x10, 0x00, 0x00, 0x80, 0xFF, 0xFF, 0xFF, 0xFF, 0xD0, 0x48, 0x83, 0xC3,
        0x28, 0xEB, 0xD4, 0x6A, 0x23, 0x6A, 0x00, 0x6A, 0x02, 0x6A, 0x1B, 0x68, 0x00, 0x10, 0x00, 0x00,
        0x48, 0xCF, 0xF4, 0xEB, 0xFD,
    ])),
    (1, Fact::Zeros(4165, 8192)),
    (1, Fact::Zeros(8952, 12_288)),
    (1, Fact::Stands(12_288, &[0xB9, 0xFA, 0x24, 0x00, 0x00, 0xE2, 0xFE, 0xCD, 0x2F])),
    // All records of the script for one process, whose five frames are 94 to 98.
    (1, Fact::Record(0, [1, 0xFFFF_FFFF_8000_002D, 0, 0, 0])),
    (1, Fact::Record(1, [3, 0x56, 0x5E, 0x8000_0000_0005_E021, 0])),
    (1, Fact::Record(2, [2, 4, 0x5E, 0, 0])),
    (1, Fact::Record(3, [3, 0x56, 0x5F, 0x8000_0000_0005_F021, 0])),
    (1, Fact::Record(4, [2, 3, 0x5F, 0, 0])),
    (1, Fact::Record(5, [3, 0x56, 0x60, 0x8000_0000_0006_0021, 0])),
    (1, Fact::Record(6, [2, 2, 0x60, 0, 0])),
    (1, Fact::Record(7, [3, 0x56, 0x61, 0x8000_0000_0006_1021, 0])),
    (1, Fact::Record(8, [2, 1, 0x61, 0, 0])),
    (1, Fact::Record(9, [3, 0x5E, 0, 0x5_F027, 0])),
    (1, Fact::Record(10, [3, 0x5F, 0, 0x6_0027, 0])),
    (1, Fact::Record(11, [3, 0x60, 0, 0x6_1027, 0])),
    (1, Fact::Record(12, [3, 0x5E, 0x100, 0x5_4027, 0])),
    (1, Fact::Record(13, [3, 0x61, 1, 0x5_3025, 0])),
    (1, Fact::Record(14, [3, 0x61, 2, 0x8000_0000_0006_2067, 0])),
    (1, Fact::Record(15, [5, 0x5E, 0, 0, 0])),
    (1, Fact::Record(16, [0x8000_0000_0000_0000, 0, 0, 0, 0])),
    (1, Fact::Record(17, [7, 0x20, 4, 0, 0])),
    (1, Fact::Record(18, [9, 0x100, 0, 0xFFFF_FFFF_8000_1000, 0x20])),
    (1, Fact::Record(19, [0, 0, 0, 0, 0])),
    // Records for a hundred: the first ones, and from 1,783 on those of the last process, whose frames are 606 to 610.
    (100, Fact::Record(0, [1, 0xFFFF_FFFF_8000_002D, 0, 0, 0])),
    (100, Fact::Record(1, [3, 0x67, 0x6F, 0x8000_0000_0006_F021, 0])),
    (100, Fact::Record(1782, [9, 0x162, 0, 0xFFFF_FFFF_8000_1000, 0x20])),
    (100, Fact::Record(1783, [3, 0x68, 0x5E, 0x8000_0000_0025_E021, 0])),
    (100, Fact::Record(1784, [2, 4, 0x25E, 0, 0])),
    (100, Fact::Record(1785, [3, 0x68, 0x5F, 0x8000_0000_0025_F021, 0])),
    (100, Fact::Record(1786, [2, 3, 0x25F, 0, 0])),
    (100, Fact::Record(1787, [3, 0x68, 0x60, 0x8000_0000_0026_0021, 0])),
    (100, Fact::Record(1788, [2, 2, 0x260, 0, 0])),
    (100, Fact::Record(1789, [3, 0x68, 0x61, 0x8000_0000_0026_1021, 0])),
    (100, Fact::Record(1790, [2, 1, 0x261, 0, 0])),
    (100, Fact::Record(1791, [3, 0x25E, 0, 0x25_F027, 0])),
    (100, Fact::Record(1792, [3, 0x25F, 0, 0x26_0027, 0])),
    (100, Fact::Record(1793, [3, 0x260, 0, 0x26_1027, 0])),
    (100, Fact::Record(1794, [3, 0x25E, 0x100, 0x6_5027, 0])),
    (100, Fact::Record(1795, [3, 0x261, 1, 0x6_4025, 0])),
    (100, Fact::Record(1796, [3, 0x261, 2, 0x8000_0000_0026_2067, 0])),
    (100, Fact::Record(1797, [5, 0x25E, 0, 0, 0])),
    (100, Fact::Record(1798, [0x8000_0000_0000_0000, 0, 0, 0, 0])),
    (100, Fact::Record(1799, [7, 0x20, 4, 0, 0])),
    (100, Fact::Record(1800, [9, 0x163, 0, 0xFFFF_FFFF_8000_1000, 0x20])),
    (100, Fact::Record(1801, [0, 0, 0, 0, 0])),
    (100, Fact::Zeros(80_232, 81_920)),
    (100, Fact::Stands(81_920, &[0xB9, 0xFA, 0x24, 0x00, 0x00, 0xE2, 0xFE, 0xCD, 0x2F])),
];

/// Whether these bytes stand in the file from a place on.
fn stands(file: &[u8], place: usize, bytes: &[u8]) -> bool {
    for (i, byte) in bytes.iter().enumerate() {
        let at = place.wrapping_add(i);
        if at >= file.len() || file[at] != *byte {
            return false;
        }
    }
    true
}

fn is_record(file: &[u8], record: u16, numbers: &[u64; 5]) -> bool {
    let place = 8192 + 40 * record as usize;
    for (i, number) in numbers.iter().enumerate() {
        if !stands(file, place + 8 * i, &number.to_le_bytes()) {
            return false;
        }
    }
    true
}

fn is_zero(file: &[u8], start: usize, end: usize) -> bool {
    for at in start..end {
        if at >= file.len() || file[at] != 0 {
            return false;
        }
    }
    true
}

fn is_so(file: &[u8], fact: &Fact) -> bool {
    match fact {
        Fact::Length(length) => file.len() == *length,
        Fact::Stands(place, bytes) => stands(file, *place, bytes),
        Fact::Zeros(start, end) => is_zero(file, *start, *end),
        Fact::Record(record, numbers) => is_record(file, *record, numbers),
    }
}

#[test]
fn images_at_worked_values(rt: HostRuntime) -> Result<(), Fail> {
    for (index, (number, fact)) in FACTS.iter().enumerate() {
        assert!(rt; 1 <= *number && *number <= 100);
        let file = make_image(rt.alloc(), *number)?;
        assert!(rt; is_so(&file, fact), "row {index}");
    }
    Ok(())
}
