//! The names of operations, both ways.

ghost use Rattle.std.specs.Prelude.{◌≡◌, ◌<◌, ◌≤◌, [], IfSome, length, map, slice_index_or};
ghost use Rattle.std.specs.List.{position};
ghost use Rattle.std.specs.Str.{bytes_eq};
ghost use Rattle.x86_decode.specs.WellFormed.{HasCondition};
ghost use Rattle.asm_text.specs.declared.operation.TheConstants.{OPERATIONS};
ghost use Rattle.asm_text.specs.Operations.{op_name};
ghost use Rattle.asm_text.specs.ParsedTexts.{name_at, op_at, op_named, place_of_name};

use crate::operation::{ALL_OPS, OP_NAMES, op_number};
use x86_decode::Op;

fn name_in(names: &[&'static str], place: usize) -> &'static str
    requires { place < length names.now }
    ensures { result.now ≡ slice_index_or (map (λ name. name.now) names.now) place [] }
{
    names[place]
}

#[tactic(auto, unfolding(crate::specs::ParsedTexts::all_names))]
fn name_at(place: usize) -> &'static str
    requires { place < OPERATIONS }
    ensures { result.now ≡ name_at place }
{
    name_in(&OP_NAMES, place)
}

/// The name of an operation, with its condition code, if it has one.
pub(crate) fn op_name(op: Op) -> &'static str
    requires { HasCondition op }
    ensures name { result.now ≡ op_name op }
    ensures short { length result.now ≤ 7 }
{
    name_at(op_number(op) as usize)
}

/// The first place where this name stands.
fn place_in(names: &[&str], name: &[u8]) -> Option<usize>
    ensures value { result ≡ position (λ other. bytes_eq other.now name.now) names.now }
    ensures within { IfSome result (λ place. place < length names.now) }
{
    names.iter().position(|other| other.as_bytes() == name)
}

/// The place of a name among all, and 0 of what is no name.
#[tactic(auto, unfolding(crate::specs::ParsedTexts::place_of_name))]
fn place_of_name(name: &[u8]) -> usize
    ensures value { result ≡ place_of_name name.now }
    ensures small { result < OPERATIONS }
{
    place_in(&OP_NAMES, name).unwrap_or(0)
}

fn op_at(place: usize) -> Op
    requires { place < OPERATIONS }
    ensures value { result ≡ op_at place }
    ensures formed { HasCondition result }
{
    ALL_OPS[place]
}

/// The operation of a name, and some operation of what is no name.
pub(crate) fn op_named(name: &[u8]) -> Op
    ensures value { result ≡ op_named name.now }
    ensures formed { HasCondition result }
{
    op_at(place_of_name(name))
}
