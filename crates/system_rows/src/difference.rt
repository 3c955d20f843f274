//! Where what a turn leaves differs from what a row says.

ghost use Rattle.std.specs.Prelude.{◌≡◌, ◌↔◌, ◌++◌, ◌+◌, ◌≤◌, [], false, IfOk, IsNone, OnOk, bit_or, option_to_list};
ghost use Rattle.phys_mem.specs.Memory.{number_at};
ghost use Rattle.system_rows.specs.WantedTurns.{AreGeneralWanted, AreWordsWanted, IsAsWanted, IsControlWanted, IsPrivilegeWanted, LeavesWanted};

use crate::machine::{Left, Machine};
use crate::memory::WORDS;
use crate::row::{After, Row, State};
use anyhow::Result;
use std::alloc::{AllocError, Global};
use std::fmt;

/// A part of what a turn leaves.
#[derive(Clone, Copy)]
pub enum Part {
    General(u8),
    Rip,
    /// The flags that the manual defines.
    Flags,
    Cpl,
    Stack,
    Control(u8),
    Halted,
    /// The byte of memory at a place.
    Byte(u64),
}

/// A difference.
#[derive(Clone, Copy)]
pub enum Difference {
    /// A part isn't what the row wants.
    Value { part: Part, wanted: u64, found: u64 },
    /// A delivery shut the machine down, which no row has.
    Shutdown,
}

impl fmt::Display for Part {
    fn fmt<W: fmt::Write>(&self, f: &mut fmt::Formatter<W>) -> fmt::Result {
        match *self {
            Part::General(number) => write!(f, "r{number:x}"),
            Part::Rip => write!(f, "i"),
            Part::Flags => write!(f, "f"),
            Part::Cpl => write!(f, "p"),
            Part::Stack => write!(f, "s"),
            Part::Control(number) => write!(f, "c{number}"),
            Part::Halted => write!(f, "h"),
            Part::Byte(place) => write!(f, "m{place:x}"),
        }
    }
}

impl fmt::Display for Difference {
    fn fmt<W: fmt::Write>(&self, f: &mut fmt::Formatter<W>) -> fmt::Result {
        match *self {
            Difference::Shutdown => write!(f, "the machine shut down"),
            Difference::Value {
                part: Part::Byte(place),
                wanted,
                found,
            } => { write!(f, "wanted m{place:x}={wanted:02x}, found {found:02x}") }
            Difference::Value {
                part,
                wanted,
                found,
            } => { write!(f, "wanted {part}={wanted:x}, found {found:x}") }
        }
    }
}

fn part_difference(part: Part, wanted: u64, found: u64) -> Option<Difference>
    ensures { IsNone result ↔ (wanted ≡ found) }
{
    if wanted == found {
        None
    } else {
        Some(Difference::Value {
            part,
            wanted,
            found,
        })
    }
}

/// Flags that the manual leaves undefined don't differ, and are told as 0.
fn flags_difference(wanted: u64, found: u64, undefined: u64) -> Option<Difference>
    ensures { IsNone result ↔ (bit_or wanted undefined ≡ bit_or found undefined) }
{
    if wanted | undefined == found | undefined {
        None
    } else {
        Some(Difference::Value {
            part: Part::Flags,
            wanted: wanted & !undefined,
            found: found & !undefined,
        })
    }
}

fn halted_difference(wanted: bool, found: bool) -> Option<Difference>
    ensures { IsNone result ↔ (wanted ≡ found) }
{
    if wanted == found {
        None
    } else {
        Some(Difference::Value {
            part: Part::Halted,
            wanted: u64::from(wanted),
            found: u64::from(found),
        })
    }
}

fn shutdown_difference(is_shut_down: bool) -> Option<Difference>
    ensures { IsNone result ↔ (is_shut_down ≡ false) }
{
    if is_shut_down {
        Some(Difference::Shutdown)
    } else {
        None
    }
}

fn push(
    list: &mut Vec<Difference>,
    difference: Option<Difference>,
) -> std::result::Result<(), AllocError>
    ensures { OnOk result (list.new.items ≡ list.old.items ++ option_to_list difference) }
{
    if let Some(difference) = difference {
        list.push(difference)?;
    }
    Ok(())
}

/// Where what the turn of a row leaves differs from the row.
///
/// Fails where the row is out of form, or with want of memory.
pub fn differences(alloc: Global, machine: &mut Machine, row: &Row) -> Result<Vec<Difference>> {
    machine.lay(row)?;
    differences_of(alloc, machine, row)
}

/// As above, once memory is laid. There is none only where the defined turn leaves what the row wants.
fn differences_of(alloc: Global, machine: &mut Machine, row: &Row) -> Result<Vec<Difference>>
    ensures { IfOk result (λ list. list.items ≡ []
        → LeavesWanted row.now.before.state row.now.after machine.old.found.bytes machine.old.wanted.bytes) }
{
    let left = machine.turn(alloc, &row.before.state)?;
    Ok(compare(alloc, machine, &row.after, &left)?)
}

/// What is told is nothing only where the turn left what the row wants.
fn compare(
    alloc: Global,
    machine: &Machine,
    after: &After,
    left: &Left,
) -> std::result::Result<Vec<Difference>, AllocError>
    ensures { IfOk result (λ list. list.items ≡ [] → IsAsWanted after.now machine.now left.now) }
{
    let mut list = Vec::new(alloc);
    let wanted = &after.state;
    let found = &left.state;
    push(&mut list, shutdown_difference(left.is_shut_down))?;
    push_general(&mut list, wanted, found)?;
    push_privilege(&mut list, wanted, found, after.undefined)?;
    push_control(&mut list, wanted, found)?;
    push_memory(&mut list, machine, after.free)?;
    Ok(list)
}

fn push_part(
    list: &mut Vec<Difference>,
    part: Part,
    wanted: u64,
    found: u64,
) -> std::result::Result<(), AllocError>
    ensures { OnOk result (list.new.items ≡ [] → (list.old.items ≡ []) × (wanted ≡ found)) }
{
    push(list, part_difference(part, wanted, found))
}

fn push_general(
    list: &mut Vec<Difference>,
    wanted: &State,
    found: &State,
) -> std::result::Result<(), AllocError>
    ensures { OnOk result (list.new.items ≡ [] → (list.old.items ≡ []) × AreGeneralWanted wanted.now found.now) }
{
    for number in 0..16u8 {
        let place = number as usize;
        push_part(
            list,
            Part::General(number),
            wanted.regs.general[place],
            found.regs.general[place],
        )?;
    }
    Ok(())
}

/// RIP, the flags, the CPL and SS.
fn push_privilege(
    list: &mut Vec<Difference>,
    wanted: &State,
    found: &State,
    undefined: u64,
) -> std::result::Result<(), AllocError>
    ensures { OnOk result (list.new.items ≡ []
        → (list.old.items ≡ []) × IsPrivilegeWanted wanted.now found.now undefined) }
{
    let wanted = &wanted.regs;
    let found = &found.regs;
    push_part(list, Part::Rip, wanted.rip, found.rip)?;
    push(list, flags_difference(wanted.flags, found.flags, undefined))?;
    push_part(list, Part::Cpl, u64::from(wanted.cpl), u64::from(found.cpl))?;
    push_part(list, Part::Stack, u64::from(wanted.ss), u64::from(found.ss))
}

/// The control registers, and whether the processor is halted.
fn push_control(
    list: &mut Vec<Difference>,
    wanted: &State,
    found: &State,
) -> std::result::Result<(), AllocError>
    ensures { OnOk result (list.new.items ≡ [] → (list.old.items ≡ []) × IsControlWanted wanted.now found.now) }
{
    push_part(list, Part::Control(0), wanted.cr0, found.cr0)?;
    push_part(list, Part::Control(2), wanted.cr2, found.cr2)?;
    push_part(list, Part::Control(3), wanted.cr3, found.cr3)?;
    push_part(list, Part::Control(4), wanted.cr4, found.cr4)?;
    push(list, halted_difference(wanted.halted, found.halted))
}

/// All bytes of memory, but for the eight from a place on that aren't compared: eight at a time, and one by one where
/// these differ.
fn push_memory(
    list: &mut Vec<Difference>,
    machine: &Machine,
    free: Option<u64>,
) -> std::result::Result<(), AllocError>
    ensures { OnOk result (list.new.items ≡ [] → (list.old.items ≡ [])
        × AreWordsWanted machine.now.wanted.bytes machine.now.found.bytes free 32768) }
{
    for index in 0..WORDS {
        let place = 8 * index;
        if free != Some(place) && machine.wanted.word(place) != machine.found.word(place) {
            push_bytes(list, machine, place)?;
        }
    }
    Ok(())
}

/// The eight bytes from a place on.
fn push_bytes(
    list: &mut Vec<Difference>,
    machine: &Machine,
    from: u64,
) -> std::result::Result<(), AllocError>
    requires { from + 8 ≤ 262144 }
    ensures { OnOk result (list.new.items ≡ [] → (list.old.items ≡ [])
        × (number_at machine.now.wanted.bytes 8 from ≡ number_at machine.now.found.bytes 8 from)) }
{
    for place in from..from + 8 {
        let wanted = machine.wanted.byte(place);
        let found = machine.found.byte(place);
        push_part(list, Part::Byte(place), u64::from(wanted), u64::from(found))?;
    }
    Ok(())
}
