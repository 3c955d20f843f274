//! One line of a list of modules.

ghost use Rattle.std.specs.Prelude.{◌≡◌, option_map};
ghost use Rattle.std.specs.List.{list_all};
ghost use Rattle.code_modules.specs.ListReading.{as_listed};
ghost use Rattle.code_modules.specs.ModuleList.{guard_word, is_module_name, is_name_byte, listed_of, listed_with};
ghost use Rattle.text_lines.specs.TextLines.{words};

use text_lines::{is_text, split_words};

/// The most bytes of a name.
const MOST_NAME: usize = 64;

/// A line in form.
#[derive(Clone, Copy, Debug)]
pub struct ListLine<'a> {
    /// Whether a guard page stands before the module.
    pub guard: bool,
    pub name: &'a str,
}

fn is_name_byte(byte: u8) -> bool
    ensures { result ≡ is_name_byte byte }
{
    match byte {
        b'a'..=b'z' | b'0'..=b'9' | b'_' | b'.' | b'-' => true,
        _ => false,
    }
}

fn are_name_bytes(name: &[u8]) -> bool
    ensures { result ≡ list_all is_name_byte name.now }
{
    name.iter().all(|byte| is_name_byte(*byte))
}

fn is_module_name(name: &[u8]) -> bool
    ensures { result ≡ is_module_name name.now }
{
    !name.is_empty() && name.len() <= MOST_NAME && are_name_bytes(name)
}

/// Whether a guard page stands before the module of a line with this first word; None for any other word.
fn guard_word(word: &[u8]) -> Option<bool>
    ensures { result ≡ guard_word word.now }
{
    if is_text(word, b"pack") {
        Some(false)
    } else if is_text(word, b"guard") {
        Some(true)
    } else {
        None
    }
}

/// The line of a word and a name.
fn listed<'a>(guard: Option<bool>, name: &'a [u8]) -> Option<ListLine<'a>>
    ensures { option_map as_listed result ≡ listed_with guard name.now }
{
    let Some(guard) = guard else {
        return None;
    };
    if !is_module_name(name) {
        return None;
    }
    match str::from_utf8(name) {
        Ok(name) => Some(ListLine { guard, name }),
        Err(_) => None,
    }
}

/// A line by its words; None where it is out of form.
pub(crate) fn read_line<'a>(line: &'a [u8]) -> Option<ListLine<'a>>
    ensures { option_map as_listed result ≡ listed_of (words line.now) }
{
    let Some(words) = split_words(line) else {
        return None;
    };
    let Some([word, name]) = words.as_slice().as_array::<2>() else {
        return None;
    };
    listed(guard_word(word), name)
}
