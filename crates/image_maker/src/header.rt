//! The two program headers, in the names of the ELF-64 object file format.

ghost use Rattle.std.specs.Prelude.{◌≡◌, ◌≤◌};
ghost use Rattle.elf_image.specs.WrittenHeaders.{byte_in_fields};
ghost use Rattle.image_maker.specs.MadeImage.{data_header, text_header};

use crate::layout::{SCRIPT_ADDRESS, SCRIPT_PLACE, TEXT_ADDRESS, TEXT_LEN, TEXT_PLACE, data_len};
use elf_image::{Segment, program_header_byte};

/// Flags of a segment.
const PF_X: u32 = 1;

const PF_R: u32 = 4;

/// The byte at a place of the text's program header.
pub fn text_header_byte(at: u64) -> u8
    ensures { result ≡ byte_in_fields text_header at }
{
    let segment = Segment {
        flags: PF_R | PF_X,
        offset: TEXT_PLACE,
        va: TEXT_ADDRESS,
        file_size: TEXT_LEN,
        mem_size: TEXT_LEN,
    };
    program_header_byte(&segment, at)
}

/// The byte at a place of the program header of the script and the user's code.
pub fn data_header_byte(processes: u64, at: u64) -> u8
    requires { processes ≤ 100 }
    ensures { result ≡ byte_in_fields (data_header processes) at }
{
    let size = data_len(processes);
    let segment = Segment {
        flags: PF_R,
        offset: SCRIPT_PLACE,
        va: SCRIPT_ADDRESS,
        file_size: size,
        mem_size: size,
    };
    program_header_byte(&segment, at)
}
