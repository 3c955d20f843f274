//! The kinds of the frames.

ghost use Rattle.std.specs.Prelude.{◌≡◌, ◌<◌};
ghost use Rattle.boot_map.specs.Division.{IsLayout};
ghost use Rattle.boot_map.specs.OpeningKinds.{kind_at, kind_of_part};
ghost use Rattle.boot_map.specs.Parts.{IsPartOf};

use crate::layout::Layout;
use crate::part::Part;
use elf_image::Image;
use nk_bits::Kind;

impl Layout {
    fn kind_of_part(&self, image: &Image, part: Part) -> Kind
        requires layout { IsLayout image.now self.now }
        requires member { IsPartOf self.now part }
        ensures { result ≡ kind_of_part image.now part }
    {
        match part {
            Part::IdtAndTss | Part::GateText | Part::HandlerSlot | Part::NestedStack => Kind::Fixed,
            Part::SlotTable | Part::AreaDirectory | Part::AreaTable => Kind::Fixed,
            Part::ImageDirectory | Part::RangeTable(_) => Kind::Fixed,
            Part::TrapStack => Kind::Trap,
            Part::Root => Kind::Table(4),
            Part::MapRoot => Kind::Table(3),
            Part::MapDirectory => Kind::Table(2),
            Part::MapTable(_) => Kind::Table(1),
            Part::Pool => Kind::Guarded,
            Part::WriteLog | Part::WrittenBits | Part::RegionBook => Kind::Hidden,
            Part::Descriptors => Kind::Hidden,
            Part::ImagePage(place) if image.page(place).exec => Kind::Code,
            Part::ImagePage(_) | Part::Free => Kind::Data,
        }
    }

    /// The kind of a frame at the opening of the image whose layout this is.
    #[tactic(auto, unfolding(crate::specs::OpeningKinds::kind_at))]
    pub fn kind(&self, image: &Image, frame: u32) -> Kind
        requires layout { IsLayout image.now self.now }
        requires frame { frame < self.now.frames }
        ensures { result ≡ kind_at image.now self.now.frames frame }
    {
        self.kind_of_part(image, self.part(frame))
    }
}
