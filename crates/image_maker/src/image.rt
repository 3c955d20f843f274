//! The file: the byte at each place by the part that holds it, and all of them in order.

ghost use Rattle.std.specs.Prelude.{◌≡◌, ◌∷◌, ◌++◌, ◌+◌, ◌*◌, ◌<◌, ◌≤◌, [], IfOk, length};
ghost use Rattle.std.specs.Vec.{vec_capacity};
ghost use Rattle.image_maker.specs.MadeImage.{image_byte, image_len, image_of_number, script_pages};

use crate::header::{data_header_byte, text_header_byte};
use crate::layout::{
    PAGE_SIZE, SCRIPT_PLACE, TEXT_ADDRESS, TEXT_LEN, TEXT_PLACE, USER_CODE_LEN, script_pages,
};
use crate::script::script_byte;
use crate::text::{text_byte, user_code_byte};
use elf_image::file_header_byte;
use std::alloc::Global;

/// There is no room for the file.
#[derive(Clone, Copy, Debug, PartialEq, Eq)]
pub struct NoMemory;

/// How many program headers there are.
const HEADERS: u16 = 2;

/// Where the text ends.
const TEXT_END: u64 = TEXT_PLACE + TEXT_LEN;

/// Where the script's pages end and the user's code begins.
fn script_end(processes: u64) -> u64
    requires { processes ≤ 100 }
    ensures end { result ≡ 8192 + 4096 * script_pages processes }
    ensures small { result ≤ 81920 }
{
    SCRIPT_PLACE + PAGE_SIZE * script_pages(processes)
}

/// How many bytes the file has.
fn image_len(processes: u64) -> u64
    requires { processes ≤ 100 }
    ensures { result ≡ image_len processes }
{
    script_end(processes) + USER_CODE_LEN
}

/// The byte at a place of the file.
#[tactic(auto, using(crate::proofs::ImagePlaces::gap_byte, crate::proofs::ImagePlaces::script_place, crate::proofs::ImagePlaces::user_place), unfolding(crate::specs::MadeImage::image_byte))]
fn image_byte(processes: u64, at: u64) -> u8
    requires processes { processes ≤ 100 }
    requires at { at < image_len processes }
    ensures { result ≡ image_byte processes at }
{
    let script_end = script_end(processes);
    match at {
        ..64 => file_header_byte(TEXT_ADDRESS, HEADERS, at),
        ..120 => text_header_byte(at - 64),
        ..176 => data_header_byte(processes, at - 120),
        ..TEXT_PLACE => 0,
        ..TEXT_END => text_byte(at - TEXT_PLACE),
        ..SCRIPT_PLACE => 0,
        _ if at < script_end => script_byte(processes, at - SCRIPT_PLACE),
        _ => user_code_byte(at - script_end),
    }
}

/// Adds a byte within the room.
fn push(file: &mut Vec<u8>, byte: u8)
    requires { length file.old.items < vec_capacity file.old }
    ensures items { file.new.items ≡ file.old.items ++ byte ∷ [] }
    ensures room { vec_capacity file.old ≤ vec_capacity file.new }
{
    file.push(byte).unwrap();
}

/// The image of a number of processes, 1 to 100, for a memory of 4,096 frames.
///
/// Returns an error where there is no room for the file.
#[tactic(auto, using(crate::proofs::ImagePlaces::made_more, crate::proofs::ImagePlaces::made_len, crate::proofs::ImagePlaces::made_all))]
pub fn make_image(alloc: Global, number: u64) -> Result<Vec<u8>, NoMemory>
    requires least { 1 ≤ number }
    requires most { number ≤ 100 }
    ensures { IfOk result (λ file. file.items ≡ image_of_number number) }
{
    let len = image_len(number);
    let Ok(mut file) = Vec::with_capacity(alloc, len as usize) else {
        return Err(NoMemory);
    };
    for at in 0..len {
        push(&mut file, image_byte(number, at));
    }
    Ok(file)
}
