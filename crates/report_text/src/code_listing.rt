//! The listing of an image's code.
ghost use Rattle.std.specs.Prelude.{◌≡◌, ◌+◌, ◌/◌, ◌<◌, ◌≤◌, true, IfSome, length};
ghost use Rattle.nk_host.specs.TextPuts.{IsTextPut};
ghost use Rattle.elf_image.specs.Home.{home_end};
ghost use Rattle.elf_image.specs.Pages.{is_executable};
ghost use Rattle.byte_scanner.specs.ImageCode.{code_at};
ghost use Rattle.x86_decode.specs.Decoding.{Decodes};
ghost use Rattle.report_text.specs.CodeBounds.{LiesInHome};
ghost use Rattle.report_text.specs.CodeListingLaws.{CodeListingLaws};
ghost use Rattle.report_text.specs.ListingLines.{code_line, code_run, found_line, found_size, code_listing};

use crate::words::{put, put_16, put_bytes};
use arrayvec::ArrayVec;
use asm_text::{print, text_law};
use elf_image::Image;
use nk_host::{Sink, SinkFault, put_all};
use x86_decode::{Decoded, decode, decoding_law};

/// The most bytes of an instruction.
const LONGEST: usize = 15;

/// The code from an address on.
type Run = ArrayVec<u8, 15>;

/// The code of an image lies in its home.
fn home_law(image: &Image)
    ensures { LiesInHome image.now }
{
    let _ = image.pages();
}

/// The byte of code at an address.
fn code_byte(image: &Image, address: u64) -> Option<u8>
    requires { LiesInHome image.now }
    ensures value { result ≡ code_at image.now address }
    ensures inside { IfSome result (λ _. address < home_end) }
{
    if image.is_code(address) {
        Some(image.byte(address))
    } else {
        None
    }
}

/// The code in turn from an address on, at most fifteen bytes.
fn code_run(image: &Image, address: u64) -> Run
    requires home { LiesInHome image.now }
    requires start { address ≤ home_end }
    ensures bytes { result.items ≡ code_run image.now address 15 }
    ensures inside { address + length result.items ≤ home_end }
{
    let mut run = ArrayVec::new();
    while run.len() < LONGEST {
        let Some(byte) = code_byte(image, address + run.len() as u64) else {
            return run;
        };
        run.push(byte);
    }
    run
}

/// The most bytes of a line: an address, fifteen bytes of two digits, a text, a space before the two, and the line's end.
const LINE: usize = 192;

/// A line, at the end of the room. It is put there from its last word to its first.
#[tactic(auto, unfolding(crate::specs::ListingLines::code_line))]
fn code_line<'a>(room: &'a mut [u8; LINE], address: u64, bytes: &[u8], text: &[u8]) -> &'a [u8]
    requires few { length bytes.now ≤ 15 }
    requires short { length text.now ≤ 128 }
    ensures { result.now ≡ code_line address bytes.now text.now }
{
    room[LINE - 1] = b'\n';
    let words = put(room, LINE - 1, text);
    let bytes_end = put(room, words, b" ");
    let digits = put_bytes(room, bytes_end, bytes);
    let address_end = put(room, digits, b" ");
    let start = put_16(room, address_end, address);
    room.split_at(start).1
}

/// Writes the line of what a decoding found in front of some bytes of code.
fn put_found<O: Sink>(
    sink: &mut O,
    address: u64,
    bytes: &[u8],
    found: &Decoded,
) -> Result<(), SinkFault>
    requires some { 0 < length bytes.now }
    requires few { length bytes.now ≤ 15 }
    requires right { Decodes bytes.now found.now }
    ensures { IsTextPut O.taken O.faults sink.old sink.new (found_line address bytes.now found.now) result }
{
    text_law();
    match found {
        Decoded::Whole(instr, size) => {
            let text = print(instr);
            let spelling = &bytes[..*size as usize];
            put_all(
                sink,
                code_line(&mut [0; LINE], address, spelling, text.as_str().as_bytes()),
            )
        }
        Decoded::Short | Decoded::TooLong | Decoded::Unknown => {
            put_all(sink, code_line(&mut [0; LINE], address, &bytes[..1], b"?"))
        }
    }
}

/// How many bytes a decoding found: one, where they begin no instruction.
fn found_size(found: &Decoded) -> u64
    ensures { result ≡ found_size found.now }
{
    match found {
        Decoded::Whole(_, size) => u64::from(*size),
        Decoded::Short | Decoded::TooLong | Decoded::Unknown => 1,
    }
}

/// Writes the listing of an image's code: at most so many lines from an address on, fewer where its run ends before.
pub fn list<O: Sink>(sink: &mut O, image: &Image, address: u64, count: u32) -> Result<(), SinkFault>
    requires { is_executable image.now (address / 4096) ≡ true }
    ensures { IsTextPut O.taken O.faults sink.old sink.new (code_listing image.now address count) result }
{
    home_law(image);
    let mut at = address;
    for i in 0..count {
        let run = code_run(image, at);
        if run.is_empty() {
            return Ok(());
        }
        let found = decode(run.as_slice());
        if let Err(fault) = put_found(sink, at, run.as_slice(), &found) {
            return Err(fault);
        }
        at += found_size(&found);
    }
    Ok(())
}

/// Each line of the listing of a file of bytes shows what the relation of bytes and instructions allows of the code at its
/// address, and the listing is the only text that does.
pub fn code_listing_law()
    ensures { CodeListingLaws }
{
    decoding_law();
}
