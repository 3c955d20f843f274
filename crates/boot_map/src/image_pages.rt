//! Where the image's pages stand in its home: questions that the image answers for one page at a time.

ghost use Rattle.std.specs.Prelude.{◌≡◌, ◌==◌, ℕ, ◌+◌, ◌*◌, ◌^◌, ◌<◌, ◌≤◌, length, slice_index, filter, IfSome};
ghost use Rattle.std.specs.List.{position, range_with_len};
ghost use Rattle.arrayvec.specs.ArrayVec.{array_vec_len};
ghost use Rattle.elf_image.specs.Pages.{IsPageList, page_count, pages_of};
ghost use Rattle.boot_map.specs.Division.{is_touched, page_in, ranges_of};

use arrayvec::ArrayVec;
use elf_image::Image;

/// The number of the first page of the image's home.
pub const HOME_PAGE: u64 = 0xF_FFFF_FFF8_0000;

/// The number of ranges in the image's home.
pub const RANGES: usize = 512;

/// The number of pages in a range.
pub const RANGE_PAGES: u64 = 512;

/// The number of bytes in a page.
pub const PAGE_SIZE: u64 = 4096;

/// The number of the image's page with this place.
fn page_number(image: &Image, place: u32) -> u64
    requires { place < page_count image.now }
    ensures { result ≡ slice_index (pages_of image.now) place }
{
    image.page(place).va / PAGE_SIZE
}

/// How many of the image's pages come before this one.
fn pages_before(image: &Image, page: u64) -> u32
    ensures within { result ≤ page_count image.now }
    ensures before { (i : ℕ) → i < result → slice_index (pages_of image.now) i < page }
    ensures rest { (i : ℕ) → result ≤ i → i < page_count image.now
        → page ≤ slice_index (pages_of image.now) i }
    ensures list { IsPageList image.now (pages_of image.now) }
{
    let mut low = 0;
    let mut high = image.pages();
    while low < high {
        let middle = low + (high - low) / 2;
        if page_number(image, middle) < page {
            low = middle + 1;
        } else {
            high = middle;
        }
    }
    low
}

/// The place of a page among the image's pages.
pub fn place_of(image: &Image, page: u64) -> Option<u32>
    ensures place { result ≡ position (λ m. m == page) (pages_of image.now) }
    ensures found { IfSome result (λ place. slice_index (pages_of image.now) place ≡ page) }
    ensures within { IfSome result (λ place. place < page_count image.now) }
{
    let place = pages_before(image, page);
    if place < image.pages() && page_number(image, place) == page {
        Some(place)
    } else {
        None
    }
}

/// The number of the page at an index of a range.
pub fn page_in(range: u16, index: usize) -> u64
    requires { index ≤ 512 }
    ensures { result ≡ page_in range index }
{
    HOME_PAGE + RANGE_PAGES * range as u64 + index as u64
}

/// Whether a page of the range is the image's.
fn is_touched(image: &Image, range: u16) -> bool
    ensures { result ≡ is_touched image.now range }
{
    let first = page_in(range, 0);
    pages_before(image, first) < pages_before(image, first + RANGE_PAGES)
}

/// The ranges that the image's pages touch, ascending.
#[tactic(auto, unfolding(crate::specs::Division::ranges_of))]
pub fn touched_ranges(image: &Image) -> ArrayVec<u16, RANGES>
    ensures { result.items ≡ ranges_of image.now }
{
    let mut touched = ArrayVec::new();
    for range in 0..RANGES as u16 {
        if is_touched(image, range) {
            touched.push(range);
        }
    }
    touched
}
