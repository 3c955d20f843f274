//! Small ELF files, as the top of a machine reads them.

use std::alloc::{AllocError, Global};

/// The first linear address of an image's home, and the entry of each file here.
pub const HOME: u64 = 0xFFFF_FFFF_8000_0000;

/// What a program header of a segment that is loaded says; sizes in bytes.
#[derive(Clone, Copy)]
pub struct SegmentHeader {
    /// Readable is 4, writable 2, executable 1.
    pub flags: u32,
    pub offset: u64,
    pub address: u64,
    pub file_size: u64,
    pub memory_size: u64,
}

/// Appends numbers of eight bytes, each least significant byte first.
pub fn push_numbers(file: &mut Vec<u8>, numbers: &[u64]) -> Result<(), AllocError> {
    for number in numbers {
        file.extend_from_slice(&number.to_le_bytes())?;
    }
    Ok(())
}

/// Appends the 64 bytes that a file with so many program headers begins with. They are to follow.
pub fn push_head(file: &mut Vec<u8>, headers: u16) -> Result<(), AllocError> {
    push_numbers(
        file,
        &[
            0x01_01_02_46_4C_45_7F,
            0,
            0x1_003E_0002,
            HOME,
            64,
            0,
            0x38_0040_0000_0000,
            u64::from(headers),
        ],
    )
}

/// Appends the 56 bytes of a program header.
pub fn push_segment(file: &mut Vec<u8>, segment: &SegmentHeader) -> Result<(), AllocError> {
    push_numbers(
        file,
        &[
            1 | u64::from(segment.flags) << 32,
            segment.offset,
            segment.address,
            segment.address,
            segment.file_size,
            segment.memory_size,
            4096,
        ],
    )
}

/// A file whose one segment, readable and executable, loads these bytes from offset 4,096 to the home's start, where it
/// takes so many bytes of memory.
pub fn image_file(alloc: Global, text: &[u8], memory_size: u64) -> Result<Vec<u8>, AllocError> {
    let segment = SegmentHeader {
        flags: 5,
        offset: 4096,
        address: HOME,
        file_size: text.len() as u64,
        memory_size,
    };
    let mut file = Vec::new(alloc);
    push_head(&mut file, 1)?;
    push_segment(&mut file, &segment)?;
    file.resize(4096, 0)?;
    file.extend_from_slice(text)?;
    Ok(file)
}

/// The file of 4,097 bytes that loads HLT alone.
pub fn halting_file(alloc: Global) -> Result<Vec<u8>, AllocError> {
    image_file(alloc, &[0xF4], 1)
}
