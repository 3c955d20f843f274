//! Headers that are written, byte by byte.

ghost use Rattle.std.specs.Prelude.{◌≡◌, map};
ghost use Rattle.elf_image.specs.FieldWords.{as_field};
ghost use Rattle.elf_image.specs.WrittenHeaders.{byte_in_fields, file_header, number_byte, program_header};

use crate::elf::PAGE_SIZE;
use crate::image_headers::Segment;

/// A field of a header: the place of its first byte, how many bytes it has, and its number, stored least byte first.
#[derive(Clone, Copy)]
struct WrittenField {
    place: u64,
    count: u64,
    number: u64,
}

/// The byte of a number at a place, least first; 0 past its eight bytes.
#[tactic(auto, using(crate::proofs::WrittenFields::no_byte_past))]
pub fn number_byte(number: u64, place: u64) -> u8
    ensures { result ≡ number_byte number place }
{
    if place < 8 {
        number.to_le_bytes()[place as usize]
    } else {
        0
    }
}

/// The byte at a place by the first field that holds it; 0 where none does.
fn byte_in_fields(fields: &[WrittenField], at: u64) -> u8
    ensures { result ≡ byte_in_fields (map as_field fields.now) at }
{
    for field in fields {
        if field.place <= at && at - field.place < field.count {
            return number_byte(field.number, at - field.place);
        }
    }
    0
}

/// Elf64_Ehdr. The fields that aren't listed are 0.
#[rattlefmt::skip]
fn file_header(entry: u64, count: u16) -> [WrittenField; 12]
    ensures { map as_field result ≡ file_header entry count }
{
    [
        WrittenField { place: 0,  count: 4, number: 0x464C_457F },  // EI_MAG0 to EI_MAG3
        WrittenField { place: 4,  count: 1, number: 2 },            // EI_CLASS: ELFCLASS64
        WrittenField { place: 5,  count: 1, number: 1 },            // EI_DATA: ELFDATA2LSB
        WrittenField { place: 6,  count: 1, number: 1 },            // EI_VERSION: EV_CURRENT
        WrittenField { place: 16, count: 2, number: 2 },            // e_type: ET_EXEC
        WrittenField { place: 18, count: 2, number: 62 },           // e_machine: EM_X86_64
        WrittenField { place: 20, count: 4, number: 1 },            // e_version: EV_CURRENT
        WrittenField { place: 24, count: 8, number: entry },        // e_entry
        WrittenField { place: 32, count: 8, number: 64 },           // e_phoff
        WrittenField { place: 52, count: 2, number: 64 },           // e_ehsize
        WrittenField { place: 54, count: 2, number: 56 },           // e_phentsize
        WrittenField { place: 56, count: 2, number: count as u64 }, // e_phnum
    ]
}

/// Elf64_Phdr of type PT_LOAD.
#[rattlefmt::skip]
fn program_header(segment: &Segment) -> [WrittenField; 8]
    ensures { map as_field result ≡ program_header segment.now.flags segment.now.offset segment.now.va
        segment.now.file_size segment.now.mem_size }
{
    [
        WrittenField { place: 0,  count: 4, number: 1 },                    // p_type: PT_LOAD
        WrittenField { place: 4,  count: 4, number: segment.flags as u64 }, // p_flags
        WrittenField { place: 8,  count: 8, number: segment.offset },       // p_offset
        WrittenField { place: 16, count: 8, number: segment.va },           // p_vaddr
        WrittenField { place: 24, count: 8, number: segment.va },           // p_paddr
        WrittenField { place: 32, count: 8, number: segment.file_size },    // p_filesz
        WrittenField { place: 40, count: 8, number: segment.mem_size },     // p_memsz
        WrittenField { place: 48, count: 8, number: PAGE_SIZE },            // p_align
    ]
}

/// The byte at a place, 0 to 63, of the file header of an executable file with this entry and so many program headers,
/// which stand right behind it.
pub fn file_header_byte(entry: u64, count: u16, at: u64) -> u8
    ensures { result ≡ byte_in_fields (file_header entry count) at }
{
    byte_in_fields(&file_header(entry, count), at)
}

/// The byte at a place, 0 to 55, of the program header of a segment.
pub fn program_header_byte(segment: &Segment, at: u64) -> u8
    ensures { result ≡ byte_in_fields (program_header segment.now.flags segment.now.offset segment.now.va
        segment.now.file_size segment.now.mem_size) at }
{
    byte_in_fields(&program_header(segment), at)
}
