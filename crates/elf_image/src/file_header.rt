//! The rows on the file header, over the first bytes of a file.

ghost use Rattle.std.specs.Prelude.{◌≡◌, ◌+◌, ◌*◌, ◌≤◌, length, min, nat_lt, IfNone, Some};
ghost use Rattle.elf_image.specs.Elf.{e_phnum, e_phoff, ehdr_size, phdr_size};
ghost use Rattle.elf_image.specs.HeaderRows.{head_fault, wrong_table_of};
ghost use Rattle.elf_image.specs.Loaded.{HasTableIn};
ghost use Rattle.elf_image.specs.Rows.{has_magic, wrong_class};

use crate::elf::{
    E_MACHINE, E_PHENTSIZE, E_PHNUM, E_PHOFF, E_TYPE, EHDR_SIZE, EI_CLASS, EI_DATA, EI_MAG0,
    EI_MAG1, EI_MAG2, EI_MAG3, EI_VERSION, ELFCLASS64, ELFDATA2LSB, ELFMAG0, ELFMAG1, ELFMAG2,
    ELFMAG3, EM_X86_64, ET_EXEC, EV_CURRENT, MOST_HEADERS, PHDR_SIZE,
};
use crate::fault::{FaultKind, ImageFault};
use crate::fields::{half, xword};

fn has_magic(head: &[u8]) -> bool
    requires { ehdr_size ≤ length head.now }
    ensures { result ≡ has_magic head.now }
{
    head[EI_MAG0] == ELFMAG0
        && head[EI_MAG1] == ELFMAG1
        && head[EI_MAG2] == ELFMAG2
        && head[EI_MAG3] == ELFMAG3
}

fn wrong_class(head: &[u8]) -> Option<usize>
    requires { ehdr_size ≤ length head.now }
    ensures { result ≡ wrong_class head.now }
{
    if head[EI_CLASS] != ELFCLASS64 {
        Some(EI_CLASS)
    } else if head[EI_DATA] != ELFDATA2LSB {
        Some(EI_DATA)
    } else if head[EI_VERSION] != EV_CURRENT {
        Some(EI_VERSION)
    } else {
        None
    }
}

fn table_passes_end(size: u64, head: &[u8]) -> bool
    requires { ehdr_size ≤ length head.now }
    ensures { result ≡ nat_lt size (e_phoff head.now + phdr_size * e_phnum head.now) }
{
    let table = PHDR_SIZE * half(head, E_PHNUM) as usize;
    (size as u128) < xword(head, E_PHOFF) as u128 + table as u128
}

fn wrong_table(size: u64, head: &[u8]) -> Option<usize>
    requires { ehdr_size ≤ length head.now }
    ensures place { result ≡ wrong_table_of size head.now }
    ensures none { IfNone result (HasTableIn size head.now) }
{
    let count = half(head, E_PHNUM) as usize;
    if half(head, E_PHENTSIZE) as usize != PHDR_SIZE {
        Some(E_PHENTSIZE)
    } else if count == 0 || count > MOST_HEADERS {
        Some(E_PHNUM)
    } else if table_passes_end(size, head) {
        Some(E_PHOFF)
    } else {
        None
    }
}

/// The first row on the file header that stands, for a file of this size that begins with these bytes.
#[tactic(auto, unfolding(crate::specs::HeaderRows::head_fault))]
pub fn head_fault(size: u64, head: &[u8]) -> Option<ImageFault>
    requires { length head.now ≡ min size 64 }
    ensures fault { result ≡ head_fault size head.now }
    ensures none { IfNone result (HasTableIn size head.now) }
    ensures whole { IfNone result (ehdr_size ≤ size) }
{
    if size < EHDR_SIZE as u64 {
        return Some(ImageFault::new(FaultKind::Short, size));
    }
    if !has_magic(head) {
        return Some(ImageFault::new(FaultKind::Magic, 0));
    }
    if let Some(place) = wrong_class(head) {
        return Some(ImageFault::new(FaultKind::Class, place as u64));
    }
    if half(head, E_TYPE) != ET_EXEC {
        return Some(ImageFault::new(FaultKind::FileType, E_TYPE as u64));
    }
    if half(head, E_MACHINE) != EM_X86_64 {
        return Some(ImageFault::new(FaultKind::Machine, E_MACHINE as u64));
    }
    if let Some(place) = wrong_table(size, head) {
        return Some(ImageFault::new(FaultKind::Table, place as u64));
    }
    None
}
