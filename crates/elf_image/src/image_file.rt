//! The image: a file in form, and what it loads.

ghost use Rattle.std.specs.Prelude.{◌≡◌, ℕ, ◌+◌, ◌*◌, ◌/◌, ◌<◌, ◌≤◌, length, slice_index, IsTrue, IfOk, OnOk, IfErr, Some, MatchResult};
ghost use Rattle.elf_image.specs.FileParts.{IsImage};
ghost use Rattle.elf_image.specs.Home.{home_end, home_start, page_size};
ghost use Rattle.elf_image.specs.Pages.{IsBytesOfPage, IsPageList, byte_of, entry_of, executable_page_count, is_executable, is_writable, page_count, pages_of};
ghost use Rattle.elf_image.specs.Rows.{IsForm, first_fault};

use crate::elf::PAGE_SIZE;
use crate::fault::ImageFault;
use crate::file_shape::Shape;
use crate::image_headers::Headers;
use crate::page_bytes::{byte_in, head_of, lay_part, run};
use crate::page_info::PageInfo;
use std::marker::Model;

/// A file that is in form. To contracts it is the file's bytes.
#[derive(Drop)]
pub struct Image {
    bytes: Vec<u8>,
    headers: Headers,
}

impl Model for Image {
    ghost use Rattle.std.specs.Prelude.{ℕ, List};
    ghost use Rattle.elf_image.specs.FileParts.{IsImage};

    ghost Value = { List ℕ };

    ghost view = { λ i. i.bytes.items };

    ghost invariant = { λ i. IsImage i.bytes.items i.headers };
}

/// Each element of a slice of bytes is below 256.
fn are_bytes(bytes: &[u8])
    ensures { (i : ℕ) → slice_index bytes.now i < 256 }
{}

/// The headers of a whole file, by its head and then by its program header table.
fn read_headers(bytes: &[u8]) -> Result<Headers, ImageFault>
    ensures { MatchResult result (λ headers. IsImage bytes.now headers)
        (λ fault. first_fault bytes.now ≡ Some fault) }
{
    let head = head_of(bytes);
    let shape = match Shape::new(bytes.len() as u64, head) {
        Ok(shape) => shape,
        Err(fault) => return Err(fault),
    };
    let at = shape.table_at() as usize;
    let size = shape.table_len();
    let table = run(bytes, at, size);
    shape.headers(table)
}

impl Image {
    /// Reads an image from the bytes of a file. Takes no memory.
    ///
    /// Returns the first fault where the file is not in form.
    pub fn read(bytes: Vec<u8>) -> Result<Image, ImageFault>
        ensures ok { IfOk result (λ image. image ≡ bytes.items) }
        ensures form { OnOk result (IsForm bytes.items) }
        ensures err { IfErr result (λ fault. first_fault bytes.items ≡ Some fault) }
    {
        let headers = match read_headers(bytes.as_slice()) {
            Ok(headers) => headers,
            Err(fault) => return Err(fault),
        };
        Ok(Image { bytes, headers })
    }

    /// The bytes of the file.
    pub fn bytes(&self) -> &[u8]
        ensures { result.now ≡ self.now }
    {
        self.bytes.as_slice()
    }

    /// Its headers.
    pub fn headers(&self) -> &Headers
        ensures { IsImage self.now result.now }
    {
        &self.headers
    }

    /// Gives the file back.
    pub fn into_bytes(self) -> Vec<u8>
        ensures { result.items ≡ self }
    {
        self.bytes
    }

    /// The linear address of the first instruction, `e_entry`.
    #[tactic(auto, unfolding(crate::specs::Pages::entry_of))]
    pub fn entry(&self) -> u64
        ensures entry { result ≡ entry_of self.now }
        ensures code { IsTrue (is_executable self.now (result / page_size)) }
        ensures form { IsForm self.now }
        ensures bytes { (i : ℕ) → slice_index self.now i < 256 }
    {
        let bytes: &[u8] = &self.bytes;
        are_bytes(bytes);
        self.headers.entry()
    }

    /// The number of pages, 1 to 8,192.
    pub fn pages(&self) -> u32
        ensures count { result ≡ page_count self.now }
        ensures some { 0 < result }
        ensures few { result ≤ 8192 }
        ensures list { IsPageList self.now (pages_of self.now) }
        ensures form { IsForm self.now }
    {
        self.headers.pages()
    }

    /// Page number `i` of the image, from 0 on, in ascending order of their addresses.
    pub fn page(&self, i: u32) -> PageInfo
        requires { i < page_count self.now }
        ensures va { result.va ≡ page_size * slice_index (pages_of self.now) i }
        ensures above { home_start ≤ result.va }
        ensures below { result.va + page_size ≤ home_end }
        ensures can_write { result.can_write
            ≡ is_writable self.now (slice_index (pages_of self.now) i) }
        ensures exec { result.exec ≡ is_executable self.now (slice_index (pages_of self.now) i) }
    {
        self.headers.page(i)
    }

    /// The byte at linear address `va`, 0 where no segment loads one.
    pub fn byte(&self, va: u64) -> u8
        ensures { result ≡ byte_of self.now va }
    {
        byte_in(self.bytes.as_slice(), self.headers.place(va))
    }

    /// Writes the 4,096 bytes of page number `i` into `into`.
    pub fn copy_page(&self, i: u32, into: &mut [u8])
        requires page { i < page_count self.now }
        requires size { length into.old ≡ page_size }
        ensures { IsBytesOfPage self.now (slice_index (pages_of self.now) i) into.new }
    {
        let part = self.headers.part(i);
        lay_part(self.bytes.as_slice(), part, into);
    }

    /// Whether the page that holds linear address `va` is one of the image's and may be executed.
    pub fn is_code(&self, va: u64) -> bool
        ensures { result ≡ is_executable self.now (va / page_size) }
    {
        self.headers.is_executable(va / PAGE_SIZE)
    }

    /// The number of pages that may be executed, 1 to 8,192.
    pub fn executable_pages(&self) -> u32
        ensures count { result ≡ executable_page_count self.now }
        ensures some { 0 < result }
        ensures few { result ≤ 8192 }
    {
        self.headers.executable_pages()
    }
}
