//! What a line of a journal says.

ghost use Rattle.std.specs.Prelude.{◌≡◌, ◌<◌, [], ◌∷◌, None, IfSome, if◌then◌else◌, codes, length};
ghost use Rattle.replay_core.specs.JournalLines.{call_with, heard_of, is_text, least_decimal, least_hex, noted_with, place_of_word, source_of_word};
ghost use Rattle.replay_core.specs.HeardLines.{heard_in};
ghost use Rattle.text_lines.specs.TextLines.{words};

use crate::word::{is_byte, is_delivery, least_decimal, least_hex, place};
use nk_bits::CallWords;
use text_lines::{is_text, split_words};

/// What a line says of a call: the call; the word of its source, which isn't read yet; the answer, and the place of a
/// region.
#[derive(Clone, Copy)]
pub(crate) struct ReadCall<'j> {
    pub(crate) call: CallWords,
    pub(crate) source: &'j [u8],
    pub(crate) value: u64,
    pub(crate) place: Option<u64>,
}

/// What a line says.
#[derive(Clone, Copy)]
pub(crate) enum ReadLine<'j> {
    /// A byte of the console, or a delivery.
    Passes,
    Calls(ReadCall<'j>),
    Ends,
}

/// The number of a call and its arguments.
fn call_words(number: &[u8], a: &[u8], b: &[u8], c: &[u8], d: &[u8]) -> Option<CallWords>
    ensures { result ≡ call_with (least_hex number.now) (least_hex a.now) (least_hex b.now) (least_hex c.now)
        (least_hex d.now) }
{
    let number = least_hex(number)?;
    Some(CallWords {
        number,
        a: least_hex(a)?,
        b: least_hex(b)?,
        c: least_hex(c)?,
        d: least_hex(d)?,
    })
}

/// A line of nine words: a call, whose source isn't read yet.
fn call_line<'j>(
    verb: &[u8],
    call: Option<CallWords>,
    source: &'j [u8],
    value: &[u8],
    place_word: &[u8],
) -> Option<ReadLine<'j>>
    ensures { heard_in result ≡ if is_text (codes "k") verb.now
        then noted_with call (source_of_word source.now) (least_decimal value.now) (place_of_word place_word.now)
        else None }
{
    if !is_text(verb, b"k") {
        return None;
    }
    match (call, least_decimal(value), place(place_word)) {
        (Some(call), Some(value), Some(place)) => Some(ReadLine::Calls(ReadCall {
            call,
            source,
            value,
            place,
        })),
        _ => None,
    }
}

/// A line of two words: a byte of the console, or the end.
fn short_line<'j>(verb: &[u8], word: &[u8]) -> Option<ReadLine<'j>>
    ensures { heard_in result ≡ heard_of (verb.now ∷ word.now ∷ []) }
{
    if is_text(verb, b"c") {
        is_byte(word).then_some(ReadLine::Passes)
    } else {
        (is_text(verb, b"end") && (is_text(word, b"halted") || is_text(word, b"steps"))).then_some(
            ReadLine::Ends,
        )
    }
}

/// A line of five words: a delivery.
fn delivery_line<'j>(
    verb: &[u8],
    vector: &[u8],
    code: &[u8],
    rip: &[u8],
    cr2: &[u8],
) -> Option<ReadLine<'j>>
    ensures { heard_in result ≡ heard_of (verb.now ∷ vector.now ∷ code.now ∷ rip.now ∷ cr2.now ∷ []) }
{
    (is_text(verb, b"i") && is_delivery(vector, code, rip, cr2)).then_some(ReadLine::Passes)
}

/// What the line says; None where it is out of form.
pub(crate) fn hear(line: &[u8]) -> Option<ReadLine<'_>>
    ensures heard { heard_in result ≡ heard_of (words line.now) }
    ensures some { IfSome result (λ _. 0 < length line.now) }
{
    let Some(words) = split_words(line) else {
        return None;
    };
    match words.as_slice() {
        [verb, word] => short_line(verb, word),
        [verb, vector, code, rip, cr2] => delivery_line(verb, vector, code, rip, cr2),
        [verb, number, a, b, c, d, source, value, place] => {
            call_line(verb, call_words(number, a, b, c, d), source, value, place)
        }
        _ => None,
    }
}
