//! The segments of an image as parts.

ghost use Rattle.std.specs.Prelude.{◌≡◌, ◌+◌, ◌*◌, ◌^◌, ◌<◌, ◌≤◌, [], length, map, option_map, slice_get, Some};
ghost use Rattle.arrayvec.specs.ArrayVec.{array_vec_len};
ghost use Rattle.elf_image.specs.Elf.{segments};
ghost use Rattle.elf_image.specs.FileParts.{IsImage};
ghost use Rattle.elf_image.specs.Home.{home_end, home_start};
ghost use Rattle.code_modules.specs.JoinedParts.{image_end, image_part};
ghost use Rattle.code_modules.specs.PartWords.{Leads, as_file_part, as_part};

use crate::layout::Layout;
use crate::part::JoinedPart;
use elf_image::{Headers, Image, PAGE_SIZE, form_law, run};

/// The flags of a segment that a joined image keeps: PF_X, PF_W and PF_R.
const FLAGS: u32 = 8;

/// Segment number `i` of a file in form, in the order of its program header table.
fn segment_part<'a>(bytes: &'a [u8], headers: &Headers, i: usize) -> JoinedPart<'a>
    requires headers { IsImage bytes.now headers.now }
    requires index { i < length headers.now.segments }
    ensures part { option_map (image_part bytes.now) (slice_get (segments bytes.now) i) ≡ Some (as_part result) }
    ensures small { length result.bytes.now ≤ 2 ^ 30 }
{
    form_law();
    let segment = headers.segment(i);
    JoinedPart {
        flags: segment.flags % FLAGS,
        address: segment.va,
        memory_size: segment.mem_size,
        bytes: run(bytes, segment.offset as usize, segment.file_size as usize),
    }
}

/// Places the segments of an image.
pub(crate) fn add_image<'a>(layout: &mut Layout<'a>, image: &'a Image, headers: &Headers)
    requires headers { IsImage image.now headers.now }
    requires room { array_vec_len layout.old.parts + length headers.now.segments ≤ 64 }
    requires end { layout.old.end ≤ 4096 }
    ensures placed { Leads (map as_file_part layout.old.parts.items) layout.old.end
        (map as_file_part layout.new.parts.items) layout.new.end
        (map (image_part image.now) (segments image.now)) [] }
    ensures count { array_vec_len layout.new.parts
        ≡ array_vec_len layout.old.parts + length headers.now.segments }
    ensures small { layout.new.end ≤ layout.old.end + (2 ^ 30 + 4096) * length headers.now.segments }
{
    let bytes = image.bytes();
    for i in 0..headers.segments() {
        layout.add(segment_part(bytes, headers, i));
    }
}

/// The address past the highest page of an image.
pub(crate) fn image_end(image: &Image) -> u64
    ensures end { result ≡ image_end image.now }
    ensures low { home_start ≤ result }
    ensures high { result ≤ home_end }
{
    image.page(image.pages() - 1).va + PAGE_SIZE
}
