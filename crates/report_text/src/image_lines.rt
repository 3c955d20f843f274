//! The lines on an image, each at the end of a room of 64 bytes on the stack, in which every word is put before those
//! behind it.

ghost use Rattle.std.specs.Prelude.{◌≡◌, ◌+◌, ◌≤◌, ◌++◌, [], decimal, drop, length};
ghost use Rattle.hex.specs.Hex.{encode_lower};
ghost use Rattle.elf_image.specs.ImageFaults.{name_of, fault_number};
ghost use Rattle.report_text.specs.ImageLines.{admitted_line, image_line, protected_line};
ghost use Rattle.report_text.specs.RunLines.{hex_16};

use crate::words::{put, put_16, put_bytes, put_decimal};
use elf_image::{FaultKind, ImageFault};
use std::marker::Model;

/// The most bytes of a line.
const ROOM: usize = 64;

/// A line of at most 64 bytes. To contracts it is its bytes.
#[derive(Drop)]
pub struct ShortLine {
    room: [u8; ROOM],
    // The place in the room of the line's first byte; its last byte is the room's.
    start: usize,
}

impl Model for ShortLine {
    ghost use Rattle.std.specs.Prelude.{ℕ, ◌≤◌, List, drop};

    ghost Value = { List ℕ };

    ghost view = { λ l. drop l.start l.room };

    ghost invariant = { λ l. l.start ≤ 64 };
}

impl ShortLine {
    /// A line of no bytes.
    fn new() -> ShortLine
        ensures { result ≡ [] }
    {
        ShortLine {
            room: [0; ROOM],
            start: ROOM,
        }
    }

    /// The line's bytes.
    pub fn as_bytes(&self) -> &[u8]
        ensures bytes { result.now ≡ self.now }
        ensures few { length result.now ≤ 64 }
    {
        self.room.split_at(self.start).1
    }

    /// Puts a text before the line.
    fn text(&mut self, text: &str)
        requires { length text.now + length self.old ≤ 64 }
        ensures line { self.new ≡ text.now ++ self.old }
        ensures length { length self.new ≡ length text.now + length self.old }
    {
        self.start = put(&mut self.room, self.start, text.as_bytes());
    }

    /// Puts a number's decimal digits before the line.
    fn decimal(&mut self, number: u64)
        requires { 20 + length self.old ≤ 64 }
        ensures line { self.new ≡ decimal number ++ self.old }
        ensures length { length self.new ≤ 20 + length self.old }
    {
        self.start = put_decimal(&mut self.room, self.start, number);
    }

    /// Puts sixteen hexadecimal digits before the line.
    fn address(&mut self, address: u64)
        requires { 16 + length self.old ≤ 64 }
        ensures line { self.new ≡ hex_16 address ++ self.old }
        ensures length { length self.new ≡ 16 + length self.old }
    {
        self.start = put_16(&mut self.room, self.start, address);
    }

    /// Puts two hexadecimal digits for each of at most three bytes before the line.
    fn bytes(&mut self, bytes: &[u8])
        requires few { length bytes.now ≤ 3 }
        requires room { 6 + length self.old ≤ 64 }
        ensures line { self.new ≡ encode_lower bytes.now ++ self.old }
        ensures length { length self.new ≤ 6 + length self.old }
    {
        self.start = put_bytes(&mut self.room, self.start, bytes);
    }
}

/// The name of a kind of fault.
fn kind_name(kind: FaultKind) -> &'static str
    ensures name { result.now ≡ name_of kind }
    ensures short { length result.now ≤ 12 }
{
    kind.name()
}

/// The image's first fault.
#[tactic(auto, unfolding(crate::specs::ImageLines::image_line))]
pub fn image_line(fault: &ImageFault) -> ShortLine
    ensures { result ≡ image_line (fault_number fault.now.kind) (name_of fault.now.kind) fault.now.value }
{
    let mut line = ShortLine::new();
    line.text("\n");
    line.decimal(fault.value);
    line.text(" ");
    line.text(kind_name(fault.kind));
    line.text(" ");
    line.decimal(fault.kind.number() as u64);
    line.text("image ");
    line
}

/// The protected encoding at the least address of the image's code: its address and its bytes.
#[tactic(auto, unfolding(crate::specs::ImageLines::protected_line))]
pub fn protected_line(address: u64, bytes: &[u8]) -> ShortLine
    requires { length bytes.now ≤ 3 }
    ensures { result ≡ protected_line address bytes.now }
{
    let mut line = ShortLine::new();
    line.text("\n");
    line.bytes(bytes);
    line.text(" ");
    line.address(address);
    line.text("protected ");
    line
}

/// The image is admitted: its entry and the number of its executable pages.
#[tactic(auto, unfolding(crate::specs::ImageLines::admitted_line))]
pub fn admitted_line(entry: u64, pages: u32) -> ShortLine
    ensures { result ≡ admitted_line entry pages }
{
    let mut line = ShortLine::new();
    line.text("\n");
    line.decimal(pages as u64);
    line.text(" pages ");
    line.address(entry);
    line.text("admitted entry ");
    line
}
