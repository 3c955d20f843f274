//! Reads an ELF64 executable for x86-64: judges its form by thirteen rows, in order and over the whole file, and shows
//! what a file in form loads, which is its entry, its pages in ascending order with their rights, and their bytes. The
//! rows are `first_fault` in `specs/Rows.antt`, the pages and bytes `pages_of`, `is_executable`, `is_writable` and
//! `byte_of` in `specs/Pages.antt`. Two parts of the file are enough for all but the bytes: `Shape` judges its first 64
//! bytes, and `Headers` its program header table. `Image` is a whole file with its headers. For those who write a file it
//! gives the headers byte by byte, as `specs/WrittenHeaders.antt` has them. It touches nothing but its arguments and takes
//! no memory. Fetching the file, looking through its code and placing its pages are left to others. Floor: formats.
#![tactic(auto)]

// The standard's constants, and fields of its sizes.
mod elf;
mod fields;
// Faults, and the rows on the file header.
mod fault;
mod file_header;
mod file_shape;
// The program header table.
mod program_header;
mod table;
// The rows on its segments.
mod segment_rows;
mod whole_rows;
// The pages of the segments, and their bytes.
mod page_bytes;
mod page_info;
mod page_list;
// The headers, and the image.
mod image_file;
mod image_headers;
// Headers that are written.
mod written;
// What follows.
mod laws;

pub use elf::{HOME_END, HOME_START, MOST_PAGES, PAGE_SIZE};
pub use fault::{FaultKind, ImageFault};
pub use file_shape::Shape;
pub use image_file::Image;
pub use image_headers::{Headers, Segment};
pub use laws::{entry_law, form_law, headers_law, image_law, pages_law, parts_law, written_law};
pub use page_bytes::run;
pub use page_info::{PageInfo, Part};
pub use written::{file_header_byte, number_byte, program_header_byte};
