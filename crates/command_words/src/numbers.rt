//! Numbers as words of the command line.
ghost use Rattle.std.specs.Prelude.{◌≡◌, ◌≤◌, ◌^◌, ◌-◌, true, IsTrue, IfSome};
ghost use Rattle.nk_bits.specs.Paging.{is_canonical};
ghost use Rattle.command_words.specs.NumberWords.{address_word, bounded, decimal_within, is_numeral};
ghost use Rattle.std.specs.Str.Parse.{digits_value};

use nk_bits::canonical;
use text_lines::{all_digits, is_least};

/// Whether the word is one digit or more, and nothing else.
fn is_numeral(word: &[u8], radix: u32) -> bool
    requires low { 2 ≤ radix }
    requires high { radix ≤ 36 }
    ensures { result ≡ is_numeral radix word.now }
{
    !word.is_empty() && all_digits(word, radix)
}

/// The number that a numeral writes, where it has at most 64 bits.
fn value(word: &str, radix: u32) -> Option<u64>
    requires low { 2 ≤ radix }
    requires high { radix ≤ 36 }
    requires numeral { is_numeral radix word.now ≡ true }
    ensures { result ≡ bounded 0 (2 ^ 64 - 1) (digits_value radix word.now) }
{
    u64::from_str_radix(word, radix).ok()
}

/// A decimal number without sign and without leading zeros, within bounds.
pub(crate) fn decimal_within(word: &str, low: u64, high: u64) -> Option<u64>
    ensures number { result ≡ decimal_within low high word.now }
    ensures bounds { IfSome result (λ n. (low ≤ n) × (n ≤ high)) }
{
    if !is_numeral(word.as_bytes(), 10) || !is_least(word.as_bytes()) {
        return None;
    }
    match value(word, 10) {
        Some(n) if low <= n && n <= high => Some(n),
        _ => None,
    }
}

/// A canonical linear address of 1 to 16 hexadecimal digits of either case.
pub(crate) fn address_of(word: &str) -> Option<u64>
    ensures address { result ≡ address_word word.now }
    ensures canonical { IfSome result (λ va. IsTrue (is_canonical va)) }
{
    if !is_numeral(word.as_bytes(), 16) || word.len() > 16 {
        return None;
    }
    match value(word, 16) {
        Some(va) if canonical(va) => Some(va),
        _ => None,
    }
}
