//! Two numbers with a comma between them.

ghost use Rattle.std.specs.Prelude.{◌≡◌, ◌==◌, ℕ, Option};
ghost use Rattle.std.specs.List.{position};
ghost use Rattle.gdb_questions.specs.declared.question.Question.{Question};
ghost use Rattle.gdb_questions.specs.declared.question.Question.TheVariants.{ClearBreak, ClearWatch, Description, Memory, SetBreak, SetWatch};
ghost use Rattle.text_lines.specs.Numerals.{numeral};
ghost use Rattle.gdb_questions.specs.Pairs.{asked_with};
ghost use Rattle.gdb_questions.specs.Questions.{pair_in, pair_with};

use crate::Question;
use text_lines::hexadecimal;

/// The most digits of a number.
const MOST_DIGITS: usize = 16;

/// The place of the first comma.
fn first_comma(text: &[u8]) -> Option<usize>
    ensures { result ≡ position (λ c. c == 0x2C) text.now }
{
    text.iter().position(|byte| *byte == b',')
}

/// The numbers of two texts.
fn both(one: &[u8], two: &[u8]) -> Option<(u64, u64)>
    ensures { (question : ℕ → ℕ → Question) → asked_with question result ≡ pair_with question (numeral 16 16 one.now) (numeral 16 16 two.now) }
{
    match (hexadecimal(one, MOST_DIGITS), hexadecimal(two, MOST_DIGITS)) {
        (Some(one), Some(two)) => Some((one, two)),
        _ => None,
    }
}

/// The two numbers.
fn pair(text: &[u8]) -> Option<(u64, u64)>
    ensures { (question : ℕ → ℕ → Question) → asked_with question result ≡ pair_in question text.now }
{
    match first_comma(text) {
        Some(comma) => both(text.split_at(comma).0, text.split_at(comma + 1).1),
        None => None,
    }
}

/// `m`: so many bytes of memory from an address on.
pub(crate) fn memory(text: &[u8]) -> Question
    ensures { result ≡ pair_in Memory text.now }
{
    match pair(text) {
        Some((address, count)) => Question::Memory { address, count },
        None => Question::Unknown,
    }
}

/// So many bytes of the description of the registers, from a place on.
pub(crate) fn description(text: &[u8]) -> Question
    ensures { result ≡ pair_in Description text.now }
{
    match pair(text) {
        Some((offset, count)) => Question::Description { offset, count },
        None => Question::Unknown,
    }
}

/// A breakpoint is set; the size behind the address says nothing.
pub(crate) fn set_break(text: &[u8]) -> Question
    ensures { result ≡ pair_in (λ address size. SetBreak address) text.now }
{
    match pair(text) {
        Some((address, _)) => Question::SetBreak { address },
        None => Question::Unknown,
    }
}

/// It is removed.
pub(crate) fn clear_break(text: &[u8]) -> Question
    ensures { result ≡ pair_in (λ address size. ClearBreak address) text.now }
{
    match pair(text) {
        Some((address, _)) => Question::ClearBreak { address },
        None => Question::Unknown,
    }
}

/// Bytes are watched.
pub(crate) fn set_watch(text: &[u8]) -> Question
    ensures { result ≡ pair_in SetWatch text.now }
{
    match pair(text) {
        Some((address, count)) => Question::SetWatch { address, count },
        None => Question::Unknown,
    }
}

/// They no longer are.
pub(crate) fn clear_watch(text: &[u8]) -> Question
    ensures { result ≡ pair_in ClearWatch text.now }
{
    match pair(text) {
        Some((address, count)) => Question::ClearWatch { address, count },
        None => Question::Unknown,
    }
}
