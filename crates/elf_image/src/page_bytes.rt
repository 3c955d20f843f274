//! Parts of a file: its head, its program header table, the bytes of a page.

ghost use Rattle.std.specs.Prelude.{◌≡◌, ◌+◌, ◌-◌, ◌<◌, ◌≤◌, ◌++◌, drop, length, replicate, take, IfSome};
ghost use Rattle.elf_image.specs.SegmentPages.{byte_in};

use crate::elf::EHDR_SIZE;
use crate::page_info::Part;

/// The first 64 bytes, or all where there are fewer.
pub fn head_of(bytes: &[u8]) -> &[u8]
    ensures { result.now ≡ take 64 bytes.now }
{
    if bytes.len() < EHDR_SIZE {
        bytes
    } else {
        &bytes[..EHDR_SIZE]
    }
}

/// The `size` bytes from `at` on.
pub fn run(bytes: &[u8], at: usize, size: usize) -> &[u8]
    requires { at + size ≤ length bytes.now }
    ensures run { result.now ≡ take size (drop at bytes.now) }
    ensures length { length result.now ≡ size }
{
    &bytes.split_at(at).1[..size]
}

/// The byte at a place, and 0 where there is no place.
pub fn byte_in(bytes: &[u8], place: Option<u64>) -> u8
    requires { IfSome place (λ at. at < length bytes.now) }
    ensures { result ≡ byte_in bytes.now place }
{
    match place {
        Some(at) => bytes[at as usize],
        None => 0,
    }
}

/// Writes `bytes` from `place` on, and zeros before and after them.
pub fn lay(into: &mut [u8], place: usize, bytes: &[u8])
    requires { place + length bytes.now ≤ length into.old }
    ensures { into.new ≡ replicate place 0
        ++ (bytes.now ++ replicate (length into.old - (place + length bytes.now)) 0) }
{
    if bytes.len() == into.len() {
        into.copy_from_slice(bytes);
        return;
    }
    into.fill(0);
    into[place..place + bytes.len()].copy_from_slice(bytes);
}

/// Writes a page whose part of the file `bytes` this is.
pub fn lay_part(bytes: &[u8], part: Part, into: &mut [u8])
    requires inside { part.at + part.len ≤ length bytes.now }
    requires fits { part.skip + part.len ≤ length into.old }
    ensures { into.new ≡ replicate part.skip 0
        ++ (take part.len (drop part.at bytes.now) ++ replicate (length into.old - (part.skip + part.len)) 0) }
{
    lay(
        into,
        part.skip as usize,
        run(bytes, part.at as usize, part.len as usize),
    );
}
