//! Fields of a file: numbers of the standard's sizes, least significant byte first.

ghost use Rattle.std.specs.Prelude.{◌≡◌, ◌+◌, ◌≤◌, length};
ghost use Rattle.elf_image.specs.Elf.{half, word, xword};

use byteorder::{ByteOrder, LittleEndian};

/// The two bytes at `place`, an `Elf64_Half`.
#[tactic(auto, unfolding(crate::specs::Elf::field_at))]
pub fn half(bytes: &[u8], place: usize) -> u16
    requires { place + 2 ≤ length bytes.now }
    ensures { result ≡ half bytes.now place }
{
    LittleEndian::read_u16(&bytes[place..])
}

/// The four bytes at `place`, an `Elf64_Word`.
#[tactic(auto, unfolding(crate::specs::Elf::field_at))]
pub fn word(bytes: &[u8], place: usize) -> u32
    requires { place + 4 ≤ length bytes.now }
    ensures { result ≡ word bytes.now place }
{
    LittleEndian::read_u32(&bytes[place..])
}

/// The eight bytes at `place`, an `Elf64_Xword`, `Elf64_Addr` or `Elf64_Off`.
#[tactic(auto, unfolding(crate::specs::Elf::field_at))]
pub fn xword(bytes: &[u8], place: usize) -> u64
    requires { place + 8 ≤ length bytes.now }
    ensures { result ≡ xword bytes.now place }
{
    LittleEndian::read_u64(&bytes[place..])
}
