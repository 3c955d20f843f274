//! Lists of modules at worked values.

use code_modules::{List, ListFault, read_list};
use std::alloc::{AllocError, Global};
use std::test::Fail;

/// What is to come of a list: its lines, each with whether it has a guard page and with its name, or the first line out
/// of form.
enum Listed {
    Lines(&'static [(bool, &'static str)]),
    Fault(u64),
}

use Listed::{Fault, Lines};

/// Whether the row is so, a text and how often it stands, and what is to come of that as a list.
type Row = (bool, &'static str, usize, Listed);

#[rattlefmt::skip]
static LISTS: [Row; 13] = [
    (true, "pack a.bin\nguard _x-9", 1, Lines(&[(false, "a.bin"), (true, "_x-9")])),
    (true, "", 1, Fault(1)),
    (true, "\n", 1, Fault(1)),
    (true, "pack a\n\npack b", 1, Fault(2)),
    (true, "pack a\npack b\r\n", 1, Fault(2)),
    (true, "pack a\npack  b", 1, Fault(2)),
    (true, "load a", 1, Fault(1)),
    // A list has at most 32 lines.
    (true, "guard module\n", 32, Lines(&[(true, "module"); 32])),
    (true, "guard module\n", 33, Fault(33)),
    // A row is found that has another name, another line out of form, or is of no list.
    (true, "pack a", 1, Lines(&[(false, "a")])),
    (false, "pack a", 1, Lines(&[(false, "b")])),
    (false, "pack  b", 1, Fault(2)),
    (false, "load a", 1, Lines(&[(false, "a")])),
];

/// The text so many times, one behind the other.
fn repeated(alloc: Global, text: &str, times: usize) -> Result<Vec<u8>, AllocError> {
    let mut whole = Vec::new(alloc);
    for _ in 0..times {
        whole.extend_from_slice(text.as_bytes())?;
    }
    Ok(whole)
}

/// Whether a list has these lines.
fn has_lines(list: &List, lines: &[(bool, &str)]) -> bool {
    if list.len() != lines.len() {
        return false;
    }
    for (i, (guard, name)) in lines.iter().enumerate() {
        if i >= list.len() || list.guard(i) != *guard || list.name(i) != *name {
            return false;
        }
    }
    true
}

/// Whether this comes of a list.
fn is_listed(alloc: Global, text: &[u8], wanted: &Listed) -> bool {
    match (read_list(alloc, text), wanted) {
        (Ok(list), Lines(lines)) => has_lines(&list, lines),
        (Err(fault), Fault(line)) => fault == ListFault::Line(*line),
        _ => false,
    }
}

#[test]
fn what_comes_of_lists(rt: HostRuntime) -> Result<(), Fail> {
    for (index, (so, text, times, wanted)) in LISTS.iter().enumerate() {
        let text = repeated(rt.alloc(), text, *times)?;
        assert!(rt; is_listed(rt.alloc(), &text, wanted) == *so, "list {index}");
    }
    Ok(())
}
