//! The shape of a file: what its first bytes say, which lead to its program header table.

ghost use Rattle.std.specs.Prelude.{◌≡◌, ◌+◌, ◌*◌, ◌<◌, ◌≤◌, length, min, Some, None, MatchResult};
ghost use Rattle.elf_image.specs.Elf.{phdr_size};
ghost use Rattle.elf_image.specs.HeaderRows.{head_fault, headers_of, shape_of, table_fault};

use crate::elf::{E_ENTRY, E_PHNUM, E_PHOFF, PHDR_SIZE};
use crate::fault::ImageFault;
use crate::fields::{half, xword};
use crate::file_header::head_fault;
use crate::image_headers::Headers;
use std::marker::Model;

/// What the first 64 bytes of a file say of it, where no row on the file header stands.
#[derive(Drop)]
pub struct Shape {
    size: u64,
    entry: u64,
    table: u64,
    count: u16,
}

impl Model for Shape {
    ghost use Rattle.elf_image.specs.HeaderRows.{FileShape};
    ghost use Rattle.elf_image.specs.Loaded.{HasTable};

    ghost Value = { FileShape };

    ghost view = { λ s. record { size = s.size; entry = s.entry; table = s.table; count = s.count } };

    ghost invariant = { λ s. HasTable
        (record { size = s.size; entry = s.entry; table = s.table; count = s.count }) };
}

impl Shape {
    /// Judges the file header of a file of `size` bytes by its first 64 bytes, or all where it has fewer. Takes no
    /// memory.
    ///
    /// Returns the file's first fault where it is one of the first six.
    pub fn new(size: u64, head: &[u8]) -> Result<Shape, ImageFault>
        requires { length head.now ≡ min size 64 }
        ensures { MatchResult result
            (λ shape. (shape ≡ shape_of size head.now) × (head_fault size head.now ≡ None))
            (λ fault. head_fault size head.now ≡ Some fault) }
    {
        if let Some(fault) = head_fault(size, head) {
            return Err(fault);
        }
        Ok(Shape {
            size,
            entry: xword(head, E_ENTRY),
            table: xword(head, E_PHOFF),
            count: half(head, E_PHNUM),
        })
    }

    /// The place of the program header table in the file, `e_phoff`.
    pub fn table_at(&self) -> u64
        ensures at { result ≡ self.now.table }
        ensures inside { self.now.table + phdr_size * self.now.count ≤ self.now.size }
    {
        self.table
    }

    /// The size of the program header table in bytes: that of 1 to 64 entries.
    pub fn table_len(&self) -> usize
        ensures len { result ≡ phdr_size * self.now.count }
        ensures some { 0 < self.now.count }
        ensures few { self.now.count ≤ 64 }
    {
        PHDR_SIZE * self.count as usize
    }

    /// Reads the headers of the file from its program header table. Takes no memory.
    ///
    /// Returns the file's first fault where one of the other seven rows stands.
    pub fn headers(self, table: &[u8]) -> Result<Headers, ImageFault>
        requires { length table.now ≡ phdr_size * self.count }
        ensures { MatchResult result
            (λ headers. (headers ≡ headers_of self table.now) × (table_fault self table.now ≡ None))
            (λ fault. table_fault self table.now ≡ Some fault) }
    {
        Headers::read(self.size, self.entry, self.count, table)
    }
}
