//! The constants of the ELF-64 object file format that the reader looks at, by the standard's names, and the limits that
//! an image keeps here. The definitions have each number as a literal, and the proofs compare.

/// The size of the file header in bytes.
pub const EHDR_SIZE: usize = 64;

/// The size of an entry of the program header table in bytes.
pub const PHDR_SIZE: usize = 56;

/// The most entries that a program header table may have here.
pub const MOST_HEADERS: usize = 64;

// Places in the file header.
pub const EI_MAG0: usize = 0;

pub const EI_MAG1: usize = 1;

pub const EI_MAG2: usize = 2;

pub const EI_MAG3: usize = 3;

pub const EI_CLASS: usize = 4;

pub const EI_DATA: usize = 5;

pub const EI_VERSION: usize = 6;

pub const E_TYPE: usize = 16;

pub const E_MACHINE: usize = 18;

pub const E_ENTRY: usize = 24;

pub const E_PHOFF: usize = 32;

pub const E_PHENTSIZE: usize = 54;

pub const E_PHNUM: usize = 56;

// Values of the file header.
pub const ELFMAG0: u8 = 0x7F;

pub const ELFMAG1: u8 = 0x45;

pub const ELFMAG2: u8 = 0x4C;

pub const ELFMAG3: u8 = 0x46;

pub const ELFCLASS64: u8 = 2;

pub const ELFDATA2LSB: u8 = 1;

pub const EV_CURRENT: u8 = 1;

pub const ET_EXEC: u16 = 2;

pub const EM_X86_64: u16 = 62;

// Places in an entry of the program header table.
pub const P_TYPE: usize = 0;

pub const P_FLAGS: usize = 4;

pub const P_OFFSET: usize = 8;

pub const P_VADDR: usize = 16;

pub const P_FILESZ: usize = 32;

pub const P_MEMSZ: usize = 40;

// Values of a program header.
pub const PT_LOAD: u32 = 1;

pub const PF_X: u32 = 1;

pub const PF_W: u32 = 2;

/// The size of a page in bytes.
pub const PAGE_SIZE: u64 = 4096;

/// The first linear address of the image's home.
pub const HOME_START: u64 = 0xFFFF_FFFF_8000_0000;

/// The first linear address past the image's home.
pub const HOME_END: u64 = 0xFFFF_FFFF_C000_0000;

/// The most pages that an image may have.
pub const MOST_PAGES: u64 = 8192;
