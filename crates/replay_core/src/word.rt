//! The words of a journal's lines: texts, and numbers in lower case without needless zeros.

ghost use Rattle.std.specs.Prelude.{◌≡◌, ◌&&◌, nat_le};
ghost use Rattle.std.specs.List.{list_any};
ghost use Rattle.replay_core.specs.JournalLines.{hex_of_16, is_byte, is_code_word, is_delivery, is_lower, is_vector_word, least_decimal, least_hex, place_of_word};

use text_lines::{decimal, hexadecimal, is_least, is_text};

/// The last vector of the machine.
const LAST_VECTOR: u64 = 47;

/// The vector of a page fault, which alone shows CR2 (SDM volume 3, 6.15).
const PAGE_FAULT: u64 = 14;

/// What stands for nothing.
const NOTHING: &[u8] = b"-";

/// A letter from `A` to `Z` stands in the word.
fn has_capital(word: &[u8]) -> bool
    ensures { result ≡ list_any (λ c. nat_le 65 c && nat_le c 90) word.now }
{
    word.iter().any(|byte| b'A' <= *byte && *byte <= b'Z')
}

pub(crate) fn is_lower(word: &[u8]) -> bool
    ensures { result ≡ is_lower word.now }
{
    !has_capital(word)
}

/// A hexadecimal number without leading zeros.
pub(crate) fn least_hex(word: &[u8]) -> Option<u64>
    ensures { result ≡ least_hex word.now }
{
    if is_lower(word) && is_least(word) {
        hexadecimal(word, 16)
    } else {
        None
    }
}

/// A hexadecimal number of sixteen digits.
fn hex_of_16(word: &[u8]) -> Option<u64>
    ensures { result ≡ hex_of_16 word.now }
{
    if is_lower(word) && word.len() == 16 {
        hexadecimal(word, 16)
    } else {
        None
    }
}

/// A decimal number without leading zeros.
pub(crate) fn least_decimal(word: &[u8]) -> Option<u64>
    ensures { result ≡ least_decimal word.now }
{
    if is_least(word) {
        decimal(word, 20)
    } else {
        None
    }
}

/// The place of a region, if it has one.
pub(crate) fn place(word: &[u8]) -> Option<Option<u64>>
    ensures { result ≡ place_of_word word.now }
{
    if is_text(word, NOTHING) {
        Some(None)
    } else {
        hex_of_16(word).map(Some)
    }
}

/// A byte in two digits.
pub(crate) fn is_byte(word: &[u8]) -> bool
    ensures { result ≡ is_byte word.now }
{
    is_lower(word) && word.len() == 2 && hexadecimal(word, 2).is_some()
}

/// An error code, or none.
fn is_code_word(word: &[u8]) -> bool
    ensures { result ≡ is_code_word word.now }
{
    is_text(word, NOTHING) || least_hex(word).is_some()
}

/// A vector of the machine, and CR2 where the vector shows it.
fn is_vector(word: &[u8], cr2: &[u8]) -> bool
    ensures { result ≡ is_vector_word (least_decimal word.now) cr2.now }
{
    match least_decimal(word) {
        Some(PAGE_FAULT) => hex_of_16(cr2).is_some(),
        Some(vector) if vector <= LAST_VECTOR => is_text(cr2, NOTHING),
        _ => false,
    }
}

/// The words of a delivery: its vector, its error code, the address that was pushed, and CR2.
pub(crate) fn is_delivery(vector: &[u8], code: &[u8], rip: &[u8], cr2: &[u8]) -> bool
    ensures { result ≡ is_delivery vector.now code.now rip.now cr2.now }
{
    is_vector(vector, cr2) && is_code_word(code) && hex_of_16(rip).is_some()
}
