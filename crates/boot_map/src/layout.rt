//! The layout of memory at an opening: how many frames of each part, and which part a frame belongs to.

ghost use Rattle.std.specs.Prelude.{◌≡◌, ℕ, ◌+◌, ◌*◌, ◌<◌, ◌≤◌, ◌↔◌, ◌==◌, length, slice_index, position, IfSome, IfOk, IfErr, IsOk};
ghost use Rattle.boot_map.specs.Division.{IsLayout, descriptor_frames, division_of, free_start, map_start, map_tables, need, pages_start, tables_start};
ghost use Rattle.boot_map.specs.Parts.{IsPartOf, part_at, sized_part};

use crate::image_pages::{RANGES, touched_ranges};
use crate::part::{Part, common_part};
use arrayvec::ArrayVec;
use elf_image::Image;
use std::marker::Model;

/// The first frame of the descriptors.
const DESCRIPTORS_START: u32 = 64;

/// Memory has too few frames for an image.
#[derive(Clone, Copy, Debug, PartialEq, Eq)]
pub struct NoRoom {
    /// How many frames the opening of the image needs.
    pub need: u32,
    /// How many frames the memory has.
    pub have: u32,
}

/// How the frames of memory are divided at the opening of an image.
#[derive(Drop)]
pub struct Layout {
    frames: u32,
    ranges: ArrayVec<u16, RANGES>,
    pages: u32,
}

impl Model for Layout {
    ghost use Rattle.std.specs.Prelude.{◌≤◌};
    ghost use Rattle.boot_map.specs.Division.{Division};

    ghost Value = { Division };

    ghost view = { λ l. record { frames = l.frames; ranges = l.ranges.items; pages = l.pages } };

    ghost invariant = { λ l. (l.frames ≤ 65536) × (l.pages ≤ 8192) };
}

impl Layout {
    /// The layout of an image in a memory of this many frames, 512 to 65,536.
    ///
    /// Returns an error where the opening needs more frames than the memory has.
    pub fn of(image: &Image, frames: u32) -> Result<Layout, NoRoom>
        requires least { 512 ≤ frames }
        requires most { frames ≤ 65536 }
        ensures ok { IfOk result (λ layout. layout ≡ division_of image.now frames) }
        ensures layout { IfOk result (λ layout. IsLayout image.now layout) }
        ensures room { IsOk result ↔ (need image.now frames ≤ frames) }
        ensures err { IfErr result
            (λ fault. fault ≡ record { need = need image.now frames; have = frames }) }
    {
        let layout = Layout {
            frames,
            ranges: touched_ranges(image),
            pages: image.pages(),
        };
        let need = layout.first_free();
        if frames < need {
            return Err(NoRoom { need, have: frames });
        }
        Ok(layout)
    }

    /// The number of frames in the memory.
    pub fn frames(&self) -> u32
        ensures frames { result ≡ self.now.frames }
        ensures most { result ≤ 65536 }
    {
        self.frames
    }

    /// The number of the first free frame, which is the number of frames that the opening needs.
    pub fn first_free(&self) -> u32
        ensures { result ≡ free_start self.now }
    {
        self.map_start() + 2 + self.map_tables()
    }

    /// The number of the direct map's tables of level 1.
    pub(crate) fn map_tables(&self) -> u32
        ensures tables { result ≡ map_tables self.now }
        ensures small { result ≤ 128 }
    {
        self.frames.div_ceil(512)
    }

    /// The first frame of the tables of the image's ranges.
    pub(crate) fn tables_start(&self) -> u32
        ensures start { result ≡ tables_start self.now }
        ensures small { result ≤ 320 }
    {
        DESCRIPTORS_START + self.frames.div_ceil(256)
    }

    /// The first frame of the image's pages.
    pub(crate) fn pages_start(&self) -> u32
        ensures start { result ≡ pages_start self.now }
        ensures small { result ≤ 832 }
    {
        self.tables_start() + self.ranges.len() as u32
    }

    /// The first frame of the direct map's tables.
    pub(crate) fn map_start(&self) -> u32
        ensures start { result ≡ map_start self.now }
        ensures small { result ≤ 9024 }
    {
        self.pages_start() + self.pages
    }

    /// The number of a range that the image touches.
    pub(crate) fn range(&self, place: u32) -> u16
        requires { place < length self.now.ranges }
        ensures { result ≡ slice_index self.now.ranges place }
    {
        self.ranges.as_slice()[place as usize]
    }

    /// The place of a range among those that the image touches.
    pub(crate) fn place_of_range(&self, range: usize) -> Option<usize>
        ensures place { result ≡ position (λ r. r == range) self.now.ranges }
        ensures small { IfSome result (λ place. place < 512) }
    {
        self.ranges
            .as_slice()
            .iter()
            .position(|r| *r as usize == range)
    }

    fn sized_part(&self, frame: u32) -> Part
        ensures part { result ≡ sized_part self.now frame }
        ensures member { IsPartOf self.now result }
    {
        if frame < self.tables_start() {
            Part::Descriptors
        } else if frame < self.pages_start() {
            Part::RangeTable(frame - self.tables_start())
        } else if frame < self.map_start() {
            Part::ImagePage(frame - self.pages_start())
        } else if frame == self.map_start() {
            Part::MapRoot
        } else if frame == self.map_start() + 1 {
            Part::MapDirectory
        } else if frame < self.first_free() {
            Part::MapTable(frame - (self.map_start() + 2))
        } else {
            Part::Free
        }
    }

    /// The part of a frame.
    #[tactic(auto, unfolding(crate::specs::Parts::part_at))]
    pub(crate) fn part(&self, frame: u32) -> Part
        ensures part { result ≡ part_at self.now frame }
        ensures member { IsPartOf self.now result }
    {
        if frame < DESCRIPTORS_START {
            common_part(frame)
        } else {
            self.sized_part(frame)
        }
    }
}
