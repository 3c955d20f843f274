//! What a call took from memory, as a journal notes it.

ghost use Rattle.std.specs.Prelude.{◌≡◌, ◌≤◌, IfSome, is_some, length};
ghost use Rattle.std.specs.List.{list_all};
ghost use Rattle.hex.specs.Hex.{decode_sized, is_hex_digit};
ghost use Rattle.nk_body.specs.SourceWords.{sourced_of};
ghost use Rattle.replay_core.specs.JournalLines.{bytes_of_word, decoded, source_of_word};
ghost use Rattle.replay_core.specs.HeardLines.{given_source, put_in, so_many, source_in, source_where};

use crate::word::is_lower;
use nk_body::Source;
use text_lines::is_text;

/// Puts the bytes of a word of two digits each, of either case, into a buffer of as many.
fn is_decoded(buffer: &mut [u8], word: &[u8]) -> bool
    ensures size { length buffer.new ≡ length buffer.old }
    ensures put { put_in result buffer.new ≡ decoded (decode_sized word.now (length buffer.old)) }
{
    hex::decode_to_slice(word, buffer).is_ok()
}

/// Puts the bytes of a word into a buffer of as many; whether the word has that form.
#[tactic(auto, using(crate::proofs::SourceLemmas::read_lower))]
fn is_read(buffer: &mut [u8], word: &[u8]) -> bool
    ensures size { length buffer.new ≡ length buffer.old }
    ensures put { put_in result buffer.new ≡ so_many (length buffer.old) (bytes_of_word word.now) }
{
    is_lower(word) && is_decoded(buffer, word)
}

/// Puts the bytes that a word notes, if any, to the front of the buffer; whether the word is in form, and a call that
/// wants so many bytes takes what it notes.
#[tactic(auto, using(crate::proofs::SourceLemmas::taken_bytes))]
pub(crate) fn is_taken(buffer: &mut [u8], wanted: Option<u64>, word: &[u8]) -> bool
    requires room { IfSome wanted (λ count. count ≤ length buffer.old) }
    ensures size { length buffer.new ≡ length buffer.old }
    ensures room { IfSome wanted (λ count. count ≤ length buffer.new) }
    ensures taken { source_where result buffer.new wanted word.now ≡ given_source wanted (source_of_word word.now) }
{
    match wanted {
        None => is_text(word, b"-"),
        Some(_) if is_text(word, b"!") => true,
        Some(count) => is_read(&mut buffer[..count as usize], word),
    }
}

/// The source of a call that takes what the word notes, its bytes at the front of the buffer.
pub(crate) fn source<'b>(buffer: &'b [u8], wanted: Option<u64>, word: &[u8]) -> Source<'b>
    requires room { IfSome wanted (λ count. count ≤ length buffer.now) }
    ensures { sourced_of result ≡ source_in buffer.now wanted word.now }
{
    match wanted {
        None => Source::NotTaken,
        Some(_) if is_text(word, b"!") => Source::Unreadable,
        Some(count) => Source::Bytes(&buffer[..count as usize]),
    }
}

/// A digit of either case.
fn is_hex_digit(byte: u8) -> bool
    ensures { result ≡ is_hex_digit byte }
{
    matches!(byte, b'0'..=b'9' | b'A'..=b'F' | b'a'..=b'f')
}

fn are_hex_digits(word: &[u8]) -> bool
    ensures { result ≡ list_all is_hex_digit word.now }
{
    word.iter().all(|byte| is_hex_digit(*byte))
}

/// The word is of bytes of two digits each.
#[tactic(auto, using(crate::proofs::SourceLemmas::decodes))]
fn is_bytes(word: &[u8]) -> bool
    ensures { result ≡ is_some (bytes_of_word word.now) }
{
    is_lower(word) && word.len() % 2 == 0 && are_hex_digits(word)
}

/// The word notes a source: nothing, one that couldn't be read, or bytes.
#[tactic(auto, using(crate::proofs::SourceLemmas::notes_bytes))]
pub(crate) fn is_source(word: &[u8]) -> bool
    ensures { result ≡ is_some (source_of_word word.now) }
{
    is_text(word, b"-") || is_text(word, b"!") || is_bytes(word)
}
