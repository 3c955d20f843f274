//! What the words ask for: a command, done over files that the words name.
ghost use Rattle.std.specs.Prelude.{◌≡◌, ◌<◌, [], IfSome, length, map, slice_index_or};
ghost use Rattle.std.specs.String.{string_bytes};
ghost use Rattle.command_words.specs.CommandLine.{command_of, name_in, word_place, IsBounded};

use crate::command_line::{Command, Role, read_command};
use std::marker::Model;

/// The words of a command line, without the program's own name. A contract sees them.
#[derive(Drop)]
pub struct Request<'w> {
    words: &'w [String],
}

impl<'w> Model for Request<'w> {
    ghost use Rattle.std.specs.Prelude.{ℕ, List, map};
    ghost use Rattle.std.specs.String.{string_bytes};

    ghost Value = { List (List ℕ) };

    ghost view = { λ it. map string_bytes it.words.now };
}

impl<'w> Request<'w> {
    /// The request of these words, whether they have a form or not.
    pub fn new(words: &'w [String]) -> Request<'w>
        ensures { result ≡ map string_bytes words.now }
    {
        Request { words }
    }

    /// The command that the words spell, None where they have none of the forms.
    pub fn command(&self) -> Option<Command>
        ensures command { result ≡ command_of self.now }
        ensures bounds { IfSome result IsBounded }
    {
        read_command(self.words)
    }

    /// The name of a role's file, empty where there is no such word.
    pub fn name(&self, role: Role) -> &'w str
        ensures { result.now ≡ name_in self.now role }
    {
        word_at(self.words, place_of(role))
    }
}

/// The place among the words of the name of a role's file.
fn place_of(role: Role) -> usize
    ensures { result ≡ word_place role }
{
    match role {
        Role::Image | Role::Text => 1,
        Role::Input | Role::ModuleList => 2,
        Role::Plan | Role::Journal => 3,
        Role::Module(number) => 3 + number as usize,
    }
}

/// The word at a place, empty where there is none.
fn word_at<'w>(words: &'w [String], place: usize) -> &'w str
    ensures { result.now ≡ slice_index_or (map string_bytes words.now) place [] }
{
    if place < words.len() {
        word_in(words, place)
    } else {
        ""
    }
}

/// The word at a place that has one.
fn word_in<'w>(words: &'w [String], place: usize) -> &'w str
    requires { place < length words.now }
    ensures { result.now ≡ slice_index_or (map string_bytes words.now) place [] }
{
    words[place].as_str()
}
