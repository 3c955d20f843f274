//! An entry of the program header table, and the questions that are asked of it.

ghost use Rattle.std.specs.Prelude.{◌≡◌, ◌+◌, ◌^◌, ◌<◌, ◌≤◌, length, nat_lt};
ghost use Rattle.elf_image.specs.Elf.{has_flag, is_segment, pf_w, pf_x, phdr_size, program_header_at};
ghost use Rattle.elf_image.specs.Segments.{covers, first_page, is_code_at, is_misaligned, is_writable_code, last_page, leaves_home, loads, pages_touched, passes_end, shares_page, touches};

use crate::elf::{
    HOME_END, HOME_START, P_FILESZ, P_FLAGS, P_MEMSZ, P_OFFSET, P_TYPE, P_VADDR, PAGE_SIZE, PF_W,
    PF_X, PHDR_SIZE, PT_LOAD,
};
use crate::fields::{word, xword};

/// An entry of the program header table, `Elf64_Phdr`, as far as the reader looks at it.
#[derive(Clone, Copy, Default)]
pub struct ProgramHeader {
    /// Its place in the table, from 0 on.
    pub index: u64,
    /// `p_type`.
    pub kind: u32,
    /// `p_flags`.
    pub flags: u32,
    /// `p_offset`, in bytes from the file's start.
    pub offset: u64,
    /// `p_vaddr`, a linear address.
    pub address: u64,
    /// `p_filesz`, in bytes.
    pub file_size: u64,
    /// `p_memsz`, in bytes.
    pub memory_size: u64,
}

impl ProgramHeader {
    /// Reads the entry at `place`, whose place in the table is `index`.
    #[tactic(auto, unfolding(crate::specs::Elf::program_header_at))]
    pub fn read(bytes: &[u8], place: usize, index: usize) -> Self
        requires { place + phdr_size ≤ length bytes.now }
        ensures { result ≡ program_header_at bytes.now place index }
    {
        ProgramHeader {
            index: index as u64,
            kind: word(bytes, place + P_TYPE),
            flags: word(bytes, place + P_FLAGS),
            offset: xword(bytes, place + P_OFFSET),
            address: xword(bytes, place + P_VADDR),
            file_size: xword(bytes, place + P_FILESZ),
            memory_size: xword(bytes, place + P_MEMSZ),
        }
    }

    /// Whether it counts as a segment.
    pub fn is_segment(&self) -> bool
        ensures { result ≡ is_segment self.now }
    {
        self.kind == PT_LOAD && self.memory_size > 0
    }

    fn has_flag(&self, flag: u32) -> bool
        ensures { result ≡ has_flag self.now flag }
    {
        self.flags & flag != 0
    }

    /// Whether it may be written.
    pub fn is_writable(&self) -> bool
        ensures { result ≡ has_flag self.now pf_w }
    {
        self.has_flag(PF_W)
    }

    /// Whether it may be executed.
    pub fn is_executable(&self) -> bool
        ensures { result ≡ has_flag self.now pf_x }
    {
        self.has_flag(PF_X)
    }

    /// Whether its part of the file is longer than its memory, or passes the end of a file of this length.
    pub fn passes_end(&self, file_length: u64) -> bool
        ensures { result ≡ passes_end file_length self.now }
    {
        let end = self.offset as u128 + self.file_size as u128;
        self.memory_size < self.file_size || (file_length as u128) < end
    }

    /// Whether it takes bytes from the file, and its address and its offset differ within a page.
    pub fn is_misaligned(&self) -> bool
        ensures { result ≡ is_misaligned self.now }
    {
        self.file_size != 0 && self.address % PAGE_SIZE != self.offset % PAGE_SIZE
    }

    /// Whether it begins before the home, or ends after it.
    pub fn leaves_home(&self) -> bool
        ensures { result ≡ leaves_home self.now }
    {
        let end = self.address as u128 + self.memory_size as u128;
        self.address < HOME_START || (HOME_END as u128) < end
    }

    /// Whether it may be written and executed.
    pub fn is_writable_code(&self) -> bool
        ensures { result ≡ is_writable_code self.now }
    {
        self.is_executable() && self.is_writable()
    }

    fn covers(&self, va: u64) -> bool
        ensures { result ≡ covers self.now va }
    {
        let end = self.address as u128 + self.memory_size as u128;
        self.address <= va && (va as u128) < end
    }

    /// Whether it may be executed, and its memory range covers this address.
    pub fn is_code_at(&self, va: u64) -> bool
        ensures { result ≡ is_code_at va self.now }
    {
        self.is_executable() && self.covers(va)
    }

    /// Whether its part of the file covers this address.
    pub fn loads(&self, va: u64) -> bool
        ensures { result ≡ loads self.now va }
    {
        let end = self.address as u128 + self.file_size as u128;
        self.address <= va && (va as u128) < end
    }

    /// The page of its first byte.
    pub fn first_page(&self) -> u64
        ensures page { result ≡ first_page self.now }
        ensures small { result < 2 ^ 52 }
    {
        self.address / PAGE_SIZE
    }

    /// The page of its last byte.
    pub fn last_page(&self) -> u64
        ensures page { result ≡ last_page self.now }
        ensures small { result < 2 ^ 53 }
    {
        let end = self.address as u128 + self.memory_size as u128;
        (end.saturating_sub(1) / PAGE_SIZE as u128) as u64
    }

    /// Whether it touches page `page`.
    pub fn touches(&self, page: u64) -> bool
        ensures { result ≡ touches self.now page }
    {
        self.first_page() <= page && page <= self.last_page()
    }

    /// Whether it touches a page that `other` touches.
    pub fn shares_page(&self, other: &ProgramHeader) -> bool
        ensures { result ≡ shares_page self.now other.now }
    {
        self.first_page() <= other.last_page() && other.first_page() <= self.last_page()
    }

    /// How many pages it touches.
    pub fn pages_touched(&self) -> u64
        ensures pages { result ≡ pages_touched self.now }
        ensures small { result ≤ 2 ^ 53 }
    {
        self.last_page().saturating_sub(self.first_page()) + 1
    }
}
