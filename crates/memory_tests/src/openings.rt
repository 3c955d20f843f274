//! The opening of an image of one page, and of a large one: division, kinds, entries and bytes.

ghost use Rattle.boot_map.specs.Division.{IsLayout};

use boot_map::{Layout, NoRoom, prepare};
use elf_image::Image;
use nk_bits::Kind;
use phys_mem::PhysMem;
use std::alloc::Global;
use test_kit::{first_wrong, image_file};

/// An image of one byte, F4, whose segment takes this many bytes of memory. Want of memory is None.
fn halting(alloc: Global, size: u64) -> Option<Image> {
    Image::read(image_file(alloc, &[0xF4], size).ok()?).ok()
}

/// How many bytes of memory a segment takes, the frames of a memory, and the first that is free at the opening there.
type Division = (u64, u32, Result<u32, NoRoom>);

/// Whether memory is divided so.
fn is_divided(alloc: Global, row: &Division) -> bool {
    let (size, frames, first_free) = *row;
    let Some(image) = halting(alloc, size) else {
        return false;
    };
    if frames < 512 || frames > 65_536 {
        return false;
    }
    match Layout::of(&image, frames) {
        Ok(layout) => layout.frames() == frames && Ok(layout.first_free()) == first_free,
        Err(fault) => Err(fault) == first_free,
    }
}

#[rattlefmt::skip]
static DIVISIONS: [Division; 9] = [
    (1, 512, Ok(71)),
    (2_000_000, 512, Err(NoRoom { need: 559, have: 512 })),
    // From 513 frames on there is a third frame of descriptors, and a second table of the direct map.
    (2_000_000, 560, Err(NoRoom { need: 561, have: 560 })),
    (2_000_000, 561, Ok(561)),
    // 65,536 frames, the most, have 256 frames of descriptors, and 128 tables of the direct map.
    (1, 16_384, Ok(164)),
    (1, 16_385, Ok(166)),
    (1, 65_535, Ok(452)),
    (1, 65_536, Ok(452)),
    (2_000_000, 65_536, Ok(940)),
];

#[test]
fn divides_memory(rt: HostRuntime) {
    for row in &DIVISIONS {
        assert!(rt; is_divided(rt.alloc(), row));
    }
}

/// What is to be seen of the opening of an image of one byte.
#[derive(Clone, Copy)]
enum Sight {
    /// Two frames, and the kind of both.
    Kinds(u32, u32, Kind),
    /// The frame of a table, an index, and the layout's entry there.
    Entry(u32, usize, u64),
    /// The same, where memory holds the entry too.
    Kept(u32, usize, u64),
    /// A frame, an offset, and the bytes of memory from there on.
    Bytes(u32, u64, &'static [u8]),
    /// A frame, an offset, and the number of the eight bytes of memory there.
    Word(u32, u64, u64),
}

/// Whether an opening looks so. Of memory nothing is seen where none was made.
fn is_seen(image: &Image, layout: &Layout, memory: &Option<PhysMem>, sight: &Sight) -> bool
    requires { IsLayout image.now layout.now }
{
    match *sight {
        Sight::Kinds(first, last, kind) => {
            is_kind(image, layout, first, kind) && is_kind(image, layout, last, kind)
        }
        Sight::Entry(frame, index, entry) => is_entry(image, layout, frame, index, entry),
        Sight::Kept(frame, index, entry) => {
            is_entry(image, layout, frame, index, entry)
                && index < 512
                && is_word(memory, frame, 8 * index as u64, entry)
        }
        Sight::Bytes(frame, offset, bytes) => are_bytes(memory, frame, offset, bytes),
        Sight::Word(frame, offset, value) => is_word(memory, frame, offset, value),
    }
}

fn is_kind(image: &Image, layout: &Layout, frame: u32, kind: Kind) -> bool
    requires { IsLayout image.now layout.now }
{
    frame < layout.frames() && layout.kind(image, frame) == kind
}

fn is_entry(image: &Image, layout: &Layout, frame: u32, index: usize, entry: u64) -> bool
    requires { IsLayout image.now layout.now }
{
    frame < layout.frames() && index < 512 && layout.entry(image, frame, index) == entry
}

fn is_word(memory: &Option<PhysMem>, frame: u32, offset: u64, value: u64) -> bool {
    let Some(memory) = memory else {
        return false;
    };
    frame < memory.frames()
        && offset <= 4088
        && memory.load64(4096 * u64::from(frame) + offset) == value
}

fn are_bytes(memory: &Option<PhysMem>, frame: u32, offset: u64, bytes: &[u8]) -> bool {
    let Some(memory) = memory else {
        return false;
    };
    for (k, byte) in bytes.iter().enumerate() {
        if frame >= memory.frames() || offset >= 4096 || k as u64 >= 4096 - offset {
            return false;
        }
        if memory.load8(4096 * u64::from(frame) + offset + k as u64) != *byte {
            return false;
        }
    }
    true
}

/// The index of the first sight that isn't so, in a memory of so many frames, which is made where it is small. Want of
/// room fails at 0.
fn wrong_sight(alloc: Global, frames: u32, sights: &[Sight]) -> Option<usize> {
    let Some(image) = halting(alloc, 1) else {
        return Some(0);
    };
    if frames < 512 || frames > 65_536 {
        return Some(0);
    }
    let Ok(layout) = Layout::of(&image, frames) else {
        return Some(0);
    };
    let memory = if frames == 512 {
        prepare(alloc, &image, &layout).ok()
    } else {
        None
    };
    first_wrong(sights, |sight| is_seen(&image, &layout, &memory, sight))
}

/// The frames of a memory, sights of it, and the index of the first that is to be wrong.
type Case = (u32, &'static [Sight], Option<usize>);

#[rattlefmt::skip]
static CASES: [Case; 11] = [
    // The kind of each frame.
    (512, &[
        Sight::Kinds(0, 2, Kind::Fixed),
        Sight::Kinds(3, 3, Kind::Trap),
        Sight::Kinds(4, 4, Kind::Fixed),
        Sight::Kinds(5, 5, Kind::Table(4)),
        Sight::Kinds(6, 9, Kind::Fixed),
        Sight::Kinds(10, 25, Kind::Guarded),
        Sight::Kinds(26, 41, Kind::Hidden),
        Sight::Kinds(42, 63, Kind::Hidden),
        Sight::Kinds(64, 65, Kind::Hidden),
        Sight::Kinds(66, 66, Kind::Fixed),
        Sight::Kinds(67, 67, Kind::Code),
        Sight::Kinds(68, 68, Kind::Table(3)),
        Sight::Kinds(69, 69, Kind::Table(2)),
        Sight::Kinds(70, 70, Kind::Table(1)),
        Sight::Kinds(71, 511, Kind::Data),
    ], None),
    // The kind of each frame from 26 on of the largest memory.
    (65_536, &[
        Sight::Kinds(26, 319, Kind::Hidden),
        Sight::Kinds(320, 320, Kind::Fixed),
        Sight::Kinds(321, 321, Kind::Code),
        Sight::Kinds(322, 322, Kind::Table(3)),
        Sight::Kinds(323, 323, Kind::Table(2)),
        Sight::Kinds(324, 451, Kind::Table(1)),
        Sight::Kinds(452, 65_535, Kind::Data),
    ], None),
    // The entries of the tables.
    (512, &[
        Sight::Kept(5, 256, 0x44027),
        Sight::Kept(5, 511, 0x6027),
        Sight::Kept(6, 0, 0x7027),
        Sight::Kept(6, 510, 0x9027),
        Sight::Kept(6, 511, 0),
        Sight::Kept(7, 0, 0x8027),
        Sight::Kept(8, 0, 0x8000_0000_0000_0021),
        Sight::Kept(8, 1, 0x1021),
        Sight::Kept(8, 2, 0x8000_0000_0000_2021),
        Sight::Kept(8, 3, 0x8000_0000_0000_3063),
        Sight::Kept(8, 4, 0x8000_0000_0000_4021),
        Sight::Kept(8, 5, 0),
        Sight::Kept(8, 16, 0x8000_0000_0000_A021),
        Sight::Kept(8, 31, 0x8000_0000_0001_9021),
        Sight::Kept(8, 32, 0),
        Sight::Kept(9, 0, 0x42027),
        Sight::Kept(9, 1, 0),
        Sight::Kept(66, 0, 0x43021),
        Sight::Kept(66, 1, 0),
        Sight::Kept(68, 0, 0x45027),
        Sight::Kept(69, 0, 0x46027),
        Sight::Kept(69, 1, 0),
        Sight::Kept(70, 3, 0x8000_0000_0000_3021),
        Sight::Kept(70, 26, 0),
        Sight::Kept(70, 65, 0),
        Sight::Kept(70, 67, 0x8000_0000_0004_3021),
        Sight::Kept(70, 71, 0x8000_0000_0004_7063),
        Sight::Kept(70, 511, 0x8000_0000_001F_F063),
    ], None),
    // The entries of the tables in 65,536 frames: the image's page is frame 321, and table k of the direct map's level
    // 1 is frame 324 + k, which maps frames 512 k and following.
    (65_536, &[
        Sight::Entry(5, 256, 0x14_2027),
        Sight::Entry(9, 0, 0x14_0027),
        Sight::Entry(320, 0, 0x14_1021),
        Sight::Entry(322, 0, 0x14_3027),
        Sight::Entry(322, 1, 0),
        Sight::Entry(323, 0, 0x14_4027),
        Sight::Entry(323, 127, 0x1C_3027),
        Sight::Entry(323, 128, 0),
        Sight::Entry(324, 319, 0),
        Sight::Entry(324, 320, 0x8000_0000_0014_0021),
        Sight::Entry(324, 321, 0x8000_0000_0014_1021),
        Sight::Entry(324, 451, 0x8000_0000_001C_3021),
        Sight::Entry(324, 452, 0x8000_0000_001C_4063),
        Sight::Entry(325, 0, 0x8000_0000_0020_0063),
        Sight::Entry(451, 0, 0x8000_0000_0FE0_0063),
        Sight::Entry(451, 511, 0x8000_0000_0FFF_F063),
    ], None),
    // The first frames and the image: gate 0 whole, the kinds of other gates, two stack pointers, the ends of the text
    // and of the image.
    (512, &[
        Sight::Bytes(0, 0, &[
            0x40, 0x10, 0x08, 0x00, 0x01, 0x8E, 0x00, 0x00, 0x80, 0xFF, 0xFF, 0xFF, 0, 0, 0, 0,
        ]),
        Sight::Bytes(0, 16 * 2 + 5, &[0x8E]),
        Sight::Bytes(0, 16 * 3 + 5, &[0xEE]),
        Sight::Bytes(0, 16 * 4 + 5, &[0xEE]),
        Sight::Bytes(0, 16 * 5 + 5, &[0x8E]),
        Sight::Bytes(0, 16 * 47 + 5, &[0xEE]),
        Sight::Word(0, 1024 + 36, 0xFFFF_FF80_0000_4000),
        Sight::Word(2, 0, 0xFFFF_FF80_0000_11DA),
        Sight::Bytes(1, 0, &[0x9C]),
        Sight::Bytes(1, 4095, &[0xCC]),
        Sight::Bytes(67, 0, &[0xF4]),
        Sight::Bytes(67, 1, &[0]),
        Sight::Bytes(511, 4095, &[0]),
    ], None),
    // A wrong sight of each kind is found, behind one that is right.
    (512, &[Sight::Kinds(3, 3, Kind::Trap), Sight::Kinds(2, 3, Kind::Fixed)], Some(1)),
    (512, &[Sight::Kinds(3, 3, Kind::Trap), Sight::Kinds(3, 4, Kind::Trap)], Some(1)),
    (65_536, &[Sight::Entry(322, 1, 0), Sight::Entry(322, 0, 0)], Some(1)),
    (512, &[Sight::Kept(6, 511, 0), Sight::Kept(6, 0, 0)], Some(1)),
    (512, &[Sight::Bytes(67, 0, &[0xF4]), Sight::Bytes(67, 0, &[0xF4, 0xF4])], Some(1)),
    (512, &[Sight::Word(2, 0, 0xFFFF_FF80_0000_11DA), Sight::Word(2, 0, 0)], Some(1)),
];

#[test]
fn opens_memory(rt: HostRuntime) {
    for (frames, sights, wrong) in &CASES {
        assert!(rt; wrong_sight(rt.alloc(), *frames, sights) == *wrong);
    }
}
