//! The scan of an image's code as it is mapped, page by page.

ghost use Rattle.std.specs.Prelude.{◌≡◌, ◌≤◌, IfSome};
ghost use Rattle.byte_scanner.specs.FirstFound.{first_found};

use crate::encoding::Found;
use crate::piece_scan::Scanner;
use elf_image::{Image, PAGE_SIZE};

/// The protected encoding at the least address of the image's code.
pub fn scan(image: &Image) -> Option<Found>
    ensures first { result ≡ first_found image.now }
    ensures length { IfSome result (λ found. (2 ≤ found.count) × (found.count ≤ 3)) }
{
    let mut scanner = Scanner::new();
    let mut bytes = [0; PAGE_SIZE as usize];
    for i in 0..image.pages() {
        let page = image.page(i);
        if page.exec {
            image.copy_page(i, &mut bytes);
            if let Some(found) = scanner.feed(page.va, &bytes) {
                return Some(found);
            }
        }
    }
    None
}
