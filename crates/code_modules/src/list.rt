//! The list of modules.

ghost use Rattle.std.specs.Prelude.{◌≡◌, ◌<◌, ◌≤◌, Ok, Some, IfErr, IfOk, IfSome, length, map, option_map, slice_get};
ghost use Rattle.code_modules.specs.ListReading.{IsListLength, as_entry, as_listed};
ghost use Rattle.code_modules.specs.ModuleList.{IsListFault, list_of};

use crate::fault::ListFault;
use crate::list_line::{ListLine, read_line};
use std::alloc::Global;
use std::marker::Model;
use text_lines::cut_line;

/// The most modules of a list.
const MOST_MODULES: u64 = 32;

/// A line that is kept.
#[derive(Drop)]
struct Entry {
    guard: bool,
    name: String,
}

/// The modules of a list, in its order: the name of each one's file, and whether a guard page stands before it.
#[derive(Drop)]
pub struct List {
    entries: Vec<Entry>,
}

impl Model for List {
    ghost use Rattle.std.specs.Prelude.{List, map};
    ghost use Rattle.code_modules.specs.ListReading.{IsListLength, as_entry};
    ghost use Rattle.code_modules.specs.ModuleList.{Listed};

    ghost Value = { List Listed };

    ghost view = { λ list. map as_entry list.entries.items };

    ghost invariant = { λ list. IsListLength (map as_entry list.entries.items) };
}

impl List {
    /// The number of modules, 1 to 32.
    pub fn len(&self) -> usize
        ensures length { result ≡ length self.now }
        ensures some { 0 < result }
        ensures few { result ≤ 32 }
    {
        self.entries.len()
    }

    /// The name of module `i`, from 0 on: 1 to 64 lower-case letters, digits, `_`, `.` or `-`.
    pub fn name(&self, i: usize) -> &str
        requires { i < length self.now }
        ensures { option_map (λ listed. listed.name) (slice_get self.now i) ≡ Some result.now }
    {
        self.entries[i].name.as_str()
    }

    /// Whether a guard page stands before module `i`.
    pub fn guard(&self, i: usize) -> bool
        requires { i < length self.now }
        ensures { option_map (λ listed. listed.guard) (slice_get self.now i) ≡ Some result }
    {
        self.entries[i].guard
    }
}

/// Keeps a line; None where there is no room.
fn keep(alloc: Global, line: &ListLine) -> Option<Entry>
    ensures { IfSome result (λ entry. as_entry entry ≡ as_listed line.now) }
{
    let Ok(name) = String::from_str(alloc, line.name) else {
        return None;
    };
    Some(Entry {
        guard: line.guard,
        name,
    })
}

/// The entries of a file's lines.
fn read_entries(alloc: Global, bytes: &[u8]) -> Result<Vec<Entry>, ListFault>
    requires { 0 < length bytes.now }
    ensures length { IfOk result (λ entries. IsListLength (map as_entry entries.items)) }
    ensures list { IfOk result (λ entries. list_of bytes.now ≡ Ok (map as_entry entries.items)) }
    ensures fault { IfErr result (IsListFault bytes.now) }
{
    let mut entries = Vec::new(alloc);
    let mut rest = bytes;
    let mut number = 1;
    while !rest.is_empty() {
        let (line, later) = cut_line(rest);
        if number > MOST_MODULES {
            return Err(ListFault::Line(number));
        }
        let Some(line) = read_line(line) else {
            return Err(ListFault::Line(number));
        };
        let Some(entry) = keep(alloc, &line) else {
            return Err(ListFault::Memory);
        };
        if let Err(_) = entries.push(entry) {
            return Err(ListFault::Memory);
        }
        rest = later;
        number += 1;
    }
    Ok(entries)
}

/// The list that a file's bytes are. Ok exactly where each line is in form, `Line` exactly where one isn't; but
/// `Memory` may come in the place of either.
pub fn read_list(alloc: Global, bytes: &[u8]) -> Result<List, ListFault>
    ensures list { IfOk result (λ list. list_of bytes.now ≡ Ok list) }
    ensures fault { IfErr result (IsListFault bytes.now) }
{
    if bytes.is_empty() {
        return Err(ListFault::Line(1));
    }
    match read_entries(alloc, bytes) {
        Ok(entries) => Ok(List { entries }),
        Err(fault) => Err(fault),
    }
}
