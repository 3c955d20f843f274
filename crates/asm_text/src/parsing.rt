//! What a text says, word by word, if it is an instruction's; of any other text some instruction is made. So each rule of
//! the grammar stands in one place, the printing: whoever parses compares the text with what is printed.

ghost use Rattle.std.specs.Prelude.{◌≡◌, ◌<◌, ◌≤◌, ◌^◌, ◌==◌, None, true, drop, length, slice_index, IfSome};
ghost use Rattle.std.specs.List.{position_or_len};
ghost use Rattle.asm_text.specs.InstructionTexts.{HasAddressText, HasPlaceText, HasText};
ghost use Rattle.asm_text.specs.ParsedTexts.{address_said, base_said, behind_lock, behind_rep, byte_said, bytes_past, bytes_to, has_lock, is_next, number_said, parsed, parsed_behind, place_of_letter, place_said, register_said, rep_said};

use crate::op_names::op_named;
use decode_fields::{Address, Place, Rep};
use text_lines::{decimal, hexadecimal};
use x86_decode::Instr;

/// How many bytes stand before the first of this value.
fn bytes_before(text: &[u8], mark: u8) -> usize
    ensures value { result ≡ position_or_len (λ c. c == mark) text.now }
    ensures within { result ≤ length text.now }
{
    text.iter().take_while(|byte| **byte != mark).count()
}

/// The bytes up to the first of this value, and those behind it.
#[tactic(auto, unfolding(crate::specs::ParsedTexts::bytes_to, crate::specs::ParsedTexts::bytes_past))]
fn cut(text: &[u8], mark: u8) -> (&[u8], &[u8])
    ensures to { result.0.now ≡ bytes_to mark text.now }
    ensures past { result.1.now ≡ bytes_past mark text.now }
{
    let (front, rest) = text.split_at(bytes_before(text, mark));
    (front, behind_first(rest))
}

fn behind_first(word: &[u8]) -> &[u8]
    ensures { result.now ≡ drop 1 word.now }
{
    match word.split_first() {
        Some((_, rest)) => rest,
        None => word,
    }
}

/// The first byte, and 0 where there is none.
fn first(word: &[u8]) -> u8
    ensures { result ≡ slice_index word.now 0 }
{
    word.first().copied().unwrap_or(0)
}

/// A number of 8 bits in decimal digits.
fn byte(word: &[u8]) -> u8
    ensures value { result ≡ byte_said word.now }
    ensures small { result < 2 ^ 8 }
{
    (decimal(word, 3).unwrap_or(0) % 256) as u8
}

/// A number of 64 bits in hexadecimal digits.
fn number(word: &[u8]) -> u64
    ensures value { result ≡ number_said word.now }
    ensures small { result < 2 ^ 64 }
{
    hexadecimal(word, 16).unwrap_or(0)
}

/// A register that an address adds, if it does.
fn register(word: &[u8]) -> Option<u8>
    ensures value { result ≡ register_said word.now }
    ensures small { IfSome result (λ number. number < 2 ^ 8) }
{
    if first(word) == b'-' {
        None
    } else {
        Some(byte(behind_first(word)))
    }
}

/// Whether an address starts from the next instruction.
fn is_next(word: &[u8]) -> bool
    ensures { result ≡ is_next word.now }
{
    word == b"rip".as_slice()
}

fn base(word: &[u8]) -> Option<u8>
    ensures value { result ≡ base_said word.now }
    ensures small { IfSome result (λ number. number < 2 ^ 8) }
    ensures alone { is_next word.now ≡ true → result ≡ None }
{
    if is_next(word) { None } else { register(word) }
}

/// An address without the bracket in front.
#[tactic(auto, unfolding(crate::specs::ParsedTexts::address_said))]
fn address(text: &[u8]) -> Address
    ensures value { result ≡ address_said text.now }
    ensures formed { HasAddressText result }
{
    let (front, text) = cut(text, b',');
    let (index, text) = cut(text, b',');
    let (scale, text) = cut(text, b',');
    let (disp, _) = cut(text, b']');
    Address {
        base: base(front),
        index: register(index),
        scale: byte(scale),
        disp: number(disp),
        rip: is_next(front),
    }
}

fn place_of_letter(letter: u8, rest: &[u8]) -> Place
    ensures value { result ≡ place_of_letter letter rest.now }
    ensures formed { HasPlaceText result }
{
    match letter {
        b'v' => Place::Value,
        b'r' => Place::Reg(byte(rest)),
        b'h' => Place::High(byte(rest)),
        b'[' => Place::Mem(address(rest)),
        _ => Place::Nothing,
    }
}

#[tactic(auto, unfolding(crate::specs::ParsedTexts::place_said))]
fn place(word: &[u8]) -> Place
    ensures value { result ≡ place_said word.now }
    ensures formed { HasPlaceText result }
{
    place_of_letter(first(word), behind_first(word))
}

/// Whether `lock ` stands in front, and what stands behind it.
fn lock(text: &[u8]) -> (bool, &[u8])
    ensures is { result.0 ≡ has_lock text.now }
    ensures rest { result.1.now ≡ behind_lock text.now }
{
    match text.strip_prefix(b"lock ") {
        Some(rest) => (true, rest),
        None => (false, text),
    }
}

/// How often the instruction is repeated, and what stands behind the word.
fn rep(text: &[u8]) -> (Rep, &[u8])
    ensures is { result.0 ≡ rep_said text.now }
    ensures rest { result.1.now ≡ behind_rep text.now }
{
    if let Some(rest) = text.strip_prefix(b"repe ") {
        return (Rep::WhileEqual, rest);
    }
    match text.strip_prefix(b"repne ") {
        Some(rest) => (Rep::WhileNot, rest),
        None => (Rep::No, text),
    }
}

/// What stands behind the prefixes.
#[tactic(auto, unfolding(crate::specs::ParsedTexts::parsed_behind))]
fn parse_behind(lock: bool, rep: Rep, text: &[u8]) -> Instr
    ensures value { result ≡ parsed_behind lock rep text.now }
    ensures formed { HasText result }
{
    let (name, text) = cut(text, b'.');
    let (width, text) = cut(text, b' ');
    let (to, text) = cut(text, b' ');
    let (from, value) = cut(text, b' ');
    Instr {
        op: op_named(name),
        width: byte(width),
        to: place(to),
        from: place(from),
        value: number(value),
        rep,
        lock,
    }
}

/// The instruction of a text that one has, and some other of any other text.
#[tactic(auto, unfolding(crate::specs::ParsedTexts::parsed))]
pub(crate) fn parse(text: &[u8]) -> Instr
    ensures value { result ≡ parsed text.now }
    ensures formed { HasText result }
{
    let (lock, text) = lock(text);
    let (rep, text) = rep(text);
    parse_behind(lock, rep, text)
}
