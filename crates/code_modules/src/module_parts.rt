//! Modules behind an image, and the directory of them.

ghost use Rattle.std.specs.Prelude.{◌≡◌, ◌++◌, ◌+◌, ◌*◌, ◌^◌, ◌<◌, ◌≤◌, [], false, true, length, map, MatchBool, MatchOption};
ghost use Rattle.std.specs.Int.{to_le_bytes, w64};
ghost use Rattle.std.specs.List.{list_all};
ghost use Rattle.arrayvec.specs.ArrayVec.{array_vec_len};
ghost use Rattle.elf_image.specs.Home.{home_end, home_start};
ghost use Rattle.code_modules.specs.JoinAnswers.{ends_before_directory, modules_with};
ghost use Rattle.code_modules.specs.JoinedParts.{directory_of, module_part, module_parts, module_start};
ghost use Rattle.code_modules.specs.PartWords.{Leads, as_file_part, as_part, part_of};

use crate::layout::Layout;
use crate::part::{FilePart, JoinedPart, whole_pages};
use arrayvec::ArrayVec;
use elf_image::PAGE_SIZE;

/// Where the directory stands, on the last page of the image's home.
pub(crate) const DIRECTORY_ADDRESS: u64 = 0xFFFF_FFFF_BFFF_F000;

/// The size of a directory of 32 modules in bytes.
pub(crate) const DIRECTORY_SIZE: usize = 520;

/// The flags of a module's segment: it may be read and executed.
const READ_AND_EXECUTE: u32 = 5;

/// The flags of the directory's segment: it may be read.
const READ: u32 = 4;

/// A module behind an address; None where it would reach the directory's page.
fn module_part<'a>(end: u64, guard: bool, bytes: &'a [u8]) -> Option<JoinedPart<'a>>
    requires low { home_start ≤ end }
    requires high { end ≤ home_end }
    ensures { MatchOption result
        (ends_before_directory (module_part (module_start end guard) bytes.now) ≡ false)
        (λ part. (as_part part ≡ module_part (module_start end guard) bytes.now)
        × (ends_before_directory (as_part part) ≡ true)) }
{
    let start = if guard { end + PAGE_SIZE } else { end };
    let size = whole_pages(bytes.len() as u64);
    if start as u128 + size as u128 > DIRECTORY_ADDRESS as u128 {
        return None;
    }
    Some(JoinedPart {
        flags: READ_AND_EXECUTE,
        address: start,
        memory_size: size,
        bytes,
    })
}

/// Places modules, one behind the other, from an address on; false where one would reach the directory's page.
pub(crate) fn add_modules<'a>(
    layout: &mut Layout<'a>,
    from: u64,
    modules: &'a [Vec<u8>],
    guards: &[bool],
) -> bool
    requires low { home_start ≤ from }
    requires high { from ≤ home_end }
    requires guarded { length guards.now ≡ length modules.now }
    requires room { array_vec_len layout.old.parts + length modules.now ≤ 64 }
    requires end { layout.old.end ≤ 2 ^ 40 }
    ensures placed { let parts = module_parts from (modules_with guards.now (map (λ m. m.items) modules.now)) in
        MatchBool result
        ((list_all ends_before_directory parts ≡ true)
        × Leads (map as_file_part layout.old.parts.items) layout.old.end
        (map as_file_part layout.new.parts.items) layout.new.end parts [])
        (list_all ends_before_directory parts ≡ false) }
    ensures count { array_vec_len layout.new.parts ≤ array_vec_len layout.old.parts + length modules.now }
    ensures small { layout.new.end ≤ layout.old.end + (2 ^ 30 + 4096) * length modules.now }
{
    let mut end = from;
    for i in 0..modules.len() {
        let Some(part) = module_part(end, guards[i], modules[i].as_slice()) else {
            return false;
        };
        end = part.address + part.memory_size;
        layout.add(part);
    }
    true
}

/// Puts a number behind the others.
fn put(directory: &mut ArrayVec<u8, DIRECTORY_SIZE>, number: u64)
    requires { array_vec_len directory.old + 8 ≤ 520 }
    ensures bytes { directory.new.items ≡ directory.old.items ++ to_le_bytes w64 number }
    ensures count { array_vec_len directory.new ≡ array_vec_len directory.old + 8 }
{
    directory
        .try_extend_from_slice(&number.to_le_bytes())
        .unwrap();
}

/// The directory of modules: how many they are, then the address and the length of each.
pub(crate) fn directory_of(modules: &[FilePart]) -> ArrayVec<u8, DIRECTORY_SIZE>
    requires { length modules.now ≤ 32 }
    ensures { result.items ≡ directory_of (map part_of modules.now) }
{
    let mut directory = ArrayVec::new();
    put(&mut directory, modules.len() as u64);
    for module in modules {
        put(&mut directory, module.part.address);
        put(&mut directory, module.part.bytes.len() as u64);
    }
    directory
}

/// The directory as a part.
pub(crate) fn directory_part<'a>(bytes: &'a [u8]) -> JoinedPart<'a>
    ensures { as_part result ≡ record {
      flags = 4;
      address = 0xFFFFFFFFBFFFF000;
      memory_size = length bytes.now;
      bytes = bytes.now;
    } }
{
    JoinedPart {
        flags: READ,
        address: DIRECTORY_ADDRESS,
        memory_size: bytes.len() as u64,
        bytes,
    }
}
