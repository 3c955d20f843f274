//! A joined image read back.

use super::{CODE, DIRECTORY, HALT, Source, image, joined};
use elf_image::Image;
use std::alloc::{AllocError, Global};
use std::test::Fail;
use test_kit::HOME;

/// An image of one page of code and two of data.
const OWN: Source = (&[CODE, (6, 4097, HOME + 0x3001, 5, 0x1800)], 2, HALT);

/// A module: the seed and the number of its bytes, where it is to stand, and on how many pages.
type Module = (u32, usize, u64, u64);

static MODULES: [Module; 5] = [
    (1, 1, HOME + 0x5000, 1),
    (2, 4095, HOME + 0x7000, 1),
    (3, 4096, HOME + 0x8000, 1),
    (4, 4097, HOME + 0xA000, 2),
    (5, 9000, HOME + 0xD000, 3),
];

/// Whether each of them has a guard page.
static GUARDS: [bool; 5] = [false, true, false, true, true];

/// The numbers of their directory.
#[rattlefmt::skip]
static LISTED: [u64; 11] = [
    5,
    HOME + 0x5000, 1,
    HOME + 0x7000, 4095,
    HOME + 0x8000, 4096,
    HOME + 0xA000, 4097,
    HOME + 0xD000, 9000,
];

/// Bytes without order, of which none is 0F, with which each protected encoding begins.
fn noise(alloc: Global, seed: u32, size: usize) -> Result<Vec<u8>, AllocError> {
    let mut bytes = Vec::new(alloc);
    let mut state = seed;
    for _ in 0..size {
        state = state.wrapping_mul(1_664_525).wrapping_add(1_013_904_223);
        let byte = (state >> 24) as u8;
        bytes.push(if byte == 0x0F { 0x90 } else { byte })?;
    }
    Ok(bytes)
}

fn modules(alloc: Global) -> Result<Vec<Vec<u8>>, AllocError> {
    let mut modules = Vec::new(alloc);
    for (seed, size, _, _) in MODULES.iter() {
        modules.push(noise(alloc, *seed, *size)?)?;
    }
    Ok(modules)
}

/// The joined image.
fn read_back(alloc: Global, own: &Image, modules: &[Vec<u8>]) -> Option<Image> {
    Image::read(joined(alloc, own, modules, &GUARDS)?.ok()?).ok()
}

/// Whether a module stands on so many pages of code, with zeros behind it.
fn stands(image: &Image, at: u64, module: &[u8], pages: u64) -> bool {
    if pages > 256 {
        return false;
    }
    for k in 0..4096 * pages {
        let va = at.wrapping_add(k);
        let want = module.get(k as usize).copied().unwrap_or(0);
        if image.byte(va) != want || !image.is_code(va) {
            return false;
        }
    }
    true
}

/// Whether the image has the own image's data, none of it as code.
fn has_data(image: &Image, own: &Image) -> bool {
    for va in HOME + 0x3000..HOME + 0x5000 {
        if image.byte(va) != own.byte(va) || image.is_code(va) {
            return false;
        }
    }
    true
}

/// Whether the numbers stand in the directory.
fn are_listed(image: &Image) -> bool {
    for k in 0..88usize {
        let want = LISTED[k / 8].to_le_bytes()[k % 8];
        if image.byte(DIRECTORY + k as u64) != want {
            return false;
        }
    }
    true
}

/// Five modules stand on eight pages behind the image's own.
#[test]
fn a_joined_image_is_read_back(rt: HostRuntime) -> Result<(), Fail> {
    let own = image(rt.alloc(), &OWN).expect(&rt, "the image is in form");
    let modules = modules(rt.alloc())?;
    let image = read_back(rt.alloc(), &own, &modules).expect(&rt, "the modules are joined");
    assert!(rt; image.entry() == HOME && image.pages() == 12 && image.executable_pages() == 9);
    assert!(rt; stands(&image, HOME, &[0xF4], 1) && has_data(&image, &own) && are_listed(&image));
    for (i, (_, _, at, pages)) in MODULES.iter().enumerate() {
        assert!(rt;
            i < modules.len() && stands(&image, *at, &modules[i], *pages),
            "module {i}"
        );
    }
    Ok(())
}
