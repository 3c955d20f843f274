//! One line of a plan file.

ghost use Rattle.std.specs.Prelude.{◌≡◌};
ghost use Rattle.irq_plan.specs.PlanFile.{due_of, event_word, entry_with, event_of, event_with, level_word, page_address_of, vector_word, what_of};
ghost use Rattle.irq_plan.specs.declared.event.What.TheVariants.{Forget, Keep};
ghost use Rattle.text_lines.specs.TextLines.{words};

use crate::event::{Event, What};
use nk_bits::canonical;
use text_lines::{decimal, hexadecimal, is_text, split_words};

/// The most turns after which an event may be due.
const MOST_DUE: u64 = 4_294_967_296;

const FIRST_VECTOR: u64 = 32;

const LAST_VECTOR: u64 = 47;

const FIRST_LEVEL: u64 = 2;

const LAST_LEVEL: u64 = 4;

const PAGE_SIZE: u64 = 4096;

/// The number of turns after which the event is due, at least so many.
fn due(word: &[u8], least: u64) -> Option<u64>
    ensures { result ≡ due_of least word.now }
{
    match decimal(word, 10) {
        Some(due) if least <= due && due <= MOST_DUE => Some(due),
        _ => None,
    }
}

/// The vector of an interrupt.
fn vector(word: &[u8]) -> Option<u8>
    ensures { result ≡ vector_word word.now }
{
    match decimal(word, 2) {
        Some(vector) if FIRST_VECTOR <= vector && vector <= LAST_VECTOR => Some(vector as u8),
        _ => None,
    }
}

/// The level of an entry that may be kept.
fn level(word: &[u8]) -> Option<u8>
    ensures { result ≡ level_word word.now }
{
    match decimal(word, 1) {
        Some(level) if FIRST_LEVEL <= level && level <= LAST_LEVEL => Some(level as u8),
        _ => None,
    }
}

/// The linear address of a page.
fn page(word: &[u8]) -> Option<u64>
    ensures { result ≡ page_address_of word.now }
{
    match hexadecimal(word, 16) {
        Some(page) if canonical(page) && page % PAGE_SIZE == 0 => Some(page),
        _ => None,
    }
}

fn what(verb: &[u8], number: &[u8]) -> Option<What>
    ensures { result ≡ what_of verb.now number.now }
{
    if is_text(verb, b"irq") {
        vector(number).map(What::Irq)
    } else if is_text(verb, b"drop") {
        page(number).map(What::Drop)
    } else if is_text(verb, b"fill") {
        page(number).map(What::Fill)
    } else {
        None
    }
}

/// The entry of a page that is kept.
fn keep(number: &[u8], address: &[u8]) -> Option<What>
    ensures { result ≡ entry_with Keep (level_word number.now) (page_address_of address.now) }
{
    let Some(level) = level(number) else {
        return None;
    };
    match page(address) {
        Some(page) => Some(What::Keep(level, page)),
        None => None,
    }
}

/// The entry of a page that is dropped.
fn forget(number: &[u8], address: &[u8]) -> Option<What>
    ensures { result ≡ entry_with Forget (level_word number.now) (page_address_of address.now) }
{
    let Some(level) = level(number) else {
        return None;
    };
    match page(address) {
        Some(page) => Some(What::Forget(level, page)),
        None => None,
    }
}

fn entry(verb: &[u8], number: &[u8], address: &[u8]) -> Option<What>
    ensures { result ≡ event_word verb.now number.now address.now }
{
    if is_text(verb, b"keep") {
        keep(number, address)
    } else if is_text(verb, b"forget") {
        forget(number, address)
    } else {
        None
    }
}

/// The event of a line of three words.
fn event(word: &[u8], verb: &[u8], number: &[u8], least: u64) -> Option<Event>
    ensures { result ≡ event_with (due_of least word.now) (what_of verb.now number.now) }
{
    let Some(due) = due(word, least) else {
        return None;
    };
    match what(verb, number) {
        Some(what) => Some(Event { due, what }),
        None => None,
    }
}

/// The event of a line of four words.
fn entry_event(word: &[u8], verb: &[u8], number: &[u8], address: &[u8], least: u64) -> Option<Event>
    ensures { result ≡ event_with (due_of least word.now) (event_word verb.now number.now address.now) }
{
    let Some(due) = due(word, least) else {
        return None;
    };
    match entry(verb, number, address) {
        Some(what) => Some(Event { due, what }),
        None => None,
    }
}

/// The event of a line, due after `least` turns or later; None where the line is out of form.
pub(crate) fn read_line(line: &[u8], least: u64) -> Option<Event>
    ensures { result ≡ event_of least (words line.now) }
{
    let Some(words) = split_words(line) else {
        return None;
    };
    match words.as_slice() {
        [due, verb, number] => event(due, verb, number, least),
        [due, verb, number, address] => entry_event(due, verb, number, address, least),
        _ => None,
    }
}
