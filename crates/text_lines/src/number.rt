//! Words that are numbers.

ghost use Rattle.std.specs.Prelude.{◌≡◌, ◌≤◌, ◌+◌, ◌*◌, true};
ghost use Rattle.std.specs.Char.{digit_value, is_digit};
ghost use Rattle.std.specs.List.{list_all};
ghost use Rattle.std.specs.Str.Parse.{digits_value};
ghost use Rattle.text_lines.specs.Numerals.{are_digits, in_64_bits, is_least, numeral};

/// The number that a word of 1 to `most` decimal digits writes; None where the word has another form, or the number
/// more than 64 bits. Zeros may stand in front, and are digits too.
pub fn decimal(word: &[u8], most: usize) -> Option<u64>
    ensures { result ≡ numeral 10 most word.now }
{
    number(word, 10, most)
}

/// The number that a word of 1 to `most` hexadecimal digits of either case writes; None where the word has another
/// form, or the number more than 64 bits. Zeros may stand in front, and are digits too.
pub fn hexadecimal(word: &[u8], most: usize) -> Option<u64>
    ensures { result ≡ numeral 16 most word.now }
{
    number(word, 16, most)
}

fn number(word: &[u8], radix: u32, most: usize) -> Option<u64>
    requires low { 2 ≤ radix }
    requires high { radix ≤ 36 }
    ensures { result ≡ numeral radix most word.now }
{
    if are_digits(word, radix, most) {
        value(word, radix)
    } else {
        None
    }
}

/// Whether each byte of a word is a digit in the radix, of either case. A word without bytes passes.
pub fn all_digits(word: &[u8], radix: u32) -> bool
    requires low { 2 ≤ radix }
    requires high { radix ≤ 36 }
    ensures { result ≡ list_all (λ c. is_digit c radix) word.now }
{
    word.iter().all(|byte| (*byte as char).is_digit(radix))
}

/// Whether no zero leads other digits. A word without bytes passes; whether the bytes are digits isn't asked.
pub fn is_least(word: &[u8]) -> bool
    ensures { result ≡ is_least word.now }
{
    word.len() == 1 || !matches!(word, [b'0', ..])
}

fn are_digits(word: &[u8], radix: u32, most: usize) -> bool
    requires low { 2 ≤ radix }
    requires high { radix ≤ 36 }
    ensures { result ≡ are_digits radix most word.now }
{
    !word.is_empty() && word.len() <= most && all_digits(word, radix)
}

/// The number with one more digit behind it, where it has at most 64 bits.
fn with_digit(value: u64, radix: u32, digit: u8) -> Option<u64>
    requires low { 2 ≤ radix }
    requires high { radix ≤ 36 }
    requires digit { is_digit digit radix ≡ true }
    ensures { result ≡ in_64_bits (value * radix + digit_value digit) }
{
    let last = (digit as char).to_digit(radix).unwrap();
    match value.checked_mul(u64::from(radix)) {
        Some(shifted) => shifted.checked_add(u64::from(last)),
        None => None,
    }
}

/// The number that the digits write, where it has at most 64 bits.
fn value(word: &[u8], radix: u32) -> Option<u64>
    requires low { 2 ≤ radix }
    requires high { radix ≤ 36 }
    requires digits { list_all (λ c. is_digit c radix) word.now ≡ true }
    ensures { result ≡ in_64_bits (digits_value radix word.now) }
{
    let mut value = 0;
    for digit in word {
        let Some(more) = with_digit(value, radix, *digit) else {
            return None;
        };
        value = more;
    }
    Some(value)
}
