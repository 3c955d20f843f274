//! The entries of the page tables: SDM volume 3, 4.5.4.

ghost use Rattle.std.specs.Prelude.{◌≡◌, ◌+◌, ◌*◌, ◌<◌, ◌≤◌, length};
ghost use Rattle.boot_map.specs.Division.{IsLayout};
ghost use Rattle.boot_map.specs.OpeningEntries.{area_entry, opening_entry, entry_of_part, fetch_leaf, link, map_directory_entry, map_entry, mapped_leaf, page_entry, page_leaf, range_entry, read_leaf, root_entry, slot_entry, write_leaf};
ghost use Rattle.boot_map.specs.Parts.{IsPartOf};

use crate::image_pages::{page_in, place_of};
use crate::layout::Layout;
use crate::part::Part;
use elf_image::{Image, PageInfo};
use nk_bits::{
    AREA_DIRECTORY, AREA_TABLE, GATE_TEXT, HANDLER_FRAME, IDT_AND_TSS, IMAGE_DIRECTORY,
    NESTED_STACK, SLOT_TABLE, TRAP_STACK,
};

/// P, R/W, U/S and A: what an entry that names a table grants.
const LINK: u64 = 0x027;

/// P and A: what a leaf grants for reads.
const READ: u64 = 0x021;

/// P, R/W, A and D: what a leaf grants for reads and writes.
const WRITE: u64 = 0x063;

/// XD: no fetches.
const NO_EXEC: u64 = 1 << 63;

/// The number of entries in a table.
pub const ENTRIES: usize = 512;

#[tactic(auto, unfolding(crate::specs::OpeningEntries::link))]
fn link(frame: u32) -> u64
    ensures { result ≡ link frame }
{
    4096 * frame as u64 + LINK
}

#[tactic(auto, unfolding(crate::specs::OpeningEntries::leaf))]
fn read_leaf(frame: u32) -> u64
    ensures { result ≡ read_leaf frame }
{
    NO_EXEC + 4096 * frame as u64 + READ
}

#[tactic(auto, unfolding(crate::specs::OpeningEntries::leaf))]
fn write_leaf(frame: u32) -> u64
    ensures { result ≡ write_leaf frame }
{
    NO_EXEC + 4096 * frame as u64 + WRITE
}

#[tactic(auto, unfolding(crate::specs::OpeningEntries::leaf))]
fn fetch_leaf(frame: u32) -> u64
    ensures { result ≡ fetch_leaf frame }
{
    4096 * frame as u64 + READ
}

fn slot_entry(index: usize) -> u64
    ensures { result ≡ slot_entry index }
{
    match index {
        0 => link(AREA_DIRECTORY),
        510 => link(IMAGE_DIRECTORY),
        _ => 0,
    }
}

fn area_entry(index: usize) -> u64
    ensures { result ≡ area_entry index }
{
    match index {
        0 => read_leaf(IDT_AND_TSS),
        1 => fetch_leaf(GATE_TEXT),
        2 => read_leaf(HANDLER_FRAME),
        3 => write_leaf(TRAP_STACK),
        4 => read_leaf(NESTED_STACK),
        16..=31 => read_leaf(10 + (index - 16) as u32),
        _ => 0,
    }
}

/// The leaf of a frame that holds a page of the image.
fn page_leaf(page: PageInfo, frame: u32) -> u64
    ensures { result ≡ page_leaf page.exec page.can_write frame }
{
    if page.exec {
        fetch_leaf(frame)
    } else if page.can_write {
        write_leaf(frame)
    } else {
        read_leaf(frame)
    }
}

impl Layout {
    fn root_entry(&self, index: usize) -> u64
        ensures { result ≡ root_entry self.now index }
    {
        match index {
            256 => link(self.map_start()),
            511 => link(SLOT_TABLE),
            _ => 0,
        }
    }

    fn range_entry(&self, index: usize) -> u64
        ensures { result ≡ range_entry self.now index }
    {
        match self.place_of_range(index) {
            Some(place) => link(self.tables_start() + place as u32),
            None => 0,
        }
    }

    fn page_entry(&self, image: &Image, table: u32, index: usize) -> u64
        requires layout { IsLayout image.now self.now }
        requires table { table < length self.now.ranges }
        requires index { index < 512 }
        ensures { result ≡ page_entry image.now self.now table index }
    {
        match place_of(image, page_in(self.range(table), index)) {
            Some(place) => page_leaf(image.page(place), self.pages_start() + place),
            None => 0,
        }
    }

    fn map_directory_entry(&self, index: usize) -> u64
        ensures { result ≡ map_directory_entry self.now index }
    {
        if index < self.map_tables() as usize {
            link(self.map_start() + 2 + index as u32)
        } else {
            0
        }
    }

    fn mapped_leaf(&self, image: &Image, frame: u32, part: Part) -> u64
        requires layout { IsLayout image.now self.now }
        requires member { IsPartOf self.now part }
        ensures { result ≡ mapped_leaf image.now frame part }
    {
        match part {
            Part::WriteLog | Part::WrittenBits | Part::RegionBook | Part::Descriptors => 0,
            Part::ImagePage(place) if image.page(place).can_write => write_leaf(frame),
            Part::Free => write_leaf(frame),
            _ => read_leaf(frame),
        }
    }

    fn map_entry(&self, image: &Image, frame: u32) -> u64
        requires layout { IsLayout image.now self.now }
        ensures { result ≡ map_entry image.now self.now frame }
    {
        if frame < self.frames() {
            self.mapped_leaf(image, frame, self.part(frame))
        } else {
            0
        }
    }

    /// The entry at an index of a frame of this part.
    pub(crate) fn entry_of_part(&self, image: &Image, part: Part, index: usize) -> u64
        requires layout { IsLayout image.now self.now }
        requires member { IsPartOf self.now part }
        requires index { index < 512 }
        ensures { result ≡ entry_of_part image.now self.now part index }
    {
        match part {
            Part::Root => self.root_entry(index),
            Part::SlotTable => slot_entry(index),
            Part::AreaDirectory if index == 0 => link(AREA_TABLE),
            Part::AreaTable => area_entry(index),
            Part::ImageDirectory => self.range_entry(index),
            Part::RangeTable(table) => self.page_entry(image, table, index),
            Part::MapRoot if index == 0 => link(self.map_start() + 1),
            Part::MapDirectory => self.map_directory_entry(index),
            Part::MapTable(table) => self.map_entry(image, 512 * table + index as u32),
            _ => 0,
        }
    }

    /// The entry at an index, at most 511, of a frame at the opening of the image whose layout this is; 0 where the
    /// frame is no table.
    #[tactic(auto, unfolding(crate::specs::OpeningEntries::opening_entry))]
    pub fn entry(&self, image: &Image, frame: u32, index: usize) -> u64
        requires layout { IsLayout image.now self.now }
        requires frame { frame < self.now.frames }
        requires index { index ≤ 511 }
        ensures { result ≡ opening_entry image.now self.now.frames frame index }
    {
        self.entry_of_part(image, self.part(frame), index)
    }
}
