//! Where an instruction's effect differs from what a row says.

ghost use Rattle.std.specs.Prelude.{◌≡◌, ◌↔◌, ◌++◌, Some, IsNone, OnOk, bit_and, option_to_list};
ghost use Rattle.x86_regs.specs.declared.effects.Act.TheVariants as act;

use crate::machine::{Machine, Outcome};
use crate::row::Row;
use anyhow::Result;
use std::alloc::{AllocError, Global};
use std::fmt;
use x86_regs::{Act, Fault, Regs, Write};

/// A difference: what the row wants, and what was found.
#[derive(Clone, Copy)]
pub enum Difference {
    /// The bytes of the code aren't one instruction.
    Code,
    Fault {
        wanted: Option<Fault>,
        found: Option<Fault>,
    },
    /// The instruction asks something of the processor, which no row has.
    Act,
    General {
        number: u8,
        wanted: u64,
        found: u64,
    },
    Rip {
        wanted: u64,
        found: u64,
    },
    /// The flags that the manual defines.
    Flags {
        wanted: u64,
        found: u64,
    },
    Byte {
        address: u64,
        wanted: u8,
        /// None where no page holds the byte.
        found: Option<u8>,
    },
}

/// A fault in the notation of rows.
#[derive(Clone, Copy)]
struct FaultFields(Option<Fault>);

impl fmt::Display for FaultFields {
    fn fmt<W: fmt::Write>(&self, f: &mut fmt::Formatter<W>) -> fmt::Result {
        match self.0 {
            None => write!(f, "no fault"),
            Some(Fault::Divide) => write!(f, "x=0"),
            Some(Fault::Opcode) => write!(f, "x=6"),
            Some(Fault::Stack) => write!(f, "x=c e=0"),
            Some(Fault::General(code)) => write!(f, "x=d e={code:x}"),
            Some(Fault::Page { code, address }) => write!(f, "x=e e={code:x} a={address:x}"),
        }
    }
}

impl fmt::Display for Difference {
    fn fmt<W: fmt::Write>(&self, f: &mut fmt::Formatter<W>) -> fmt::Result {
        match *self {
            Difference::Code => write!(f, "the bytes aren't one instruction"),
            Difference::Act => write!(f, "the processor is asked for something"),
            Difference::Fault { wanted, found } => {
                let wanted = FaultFields(wanted);
                let found = FaultFields(found);
                write!(f, "wanted {wanted}, found {found}")
            }
            Difference::General {
                number,
                wanted,
                found,
            } => { write!(f, "wanted r{number:x}={wanted:x}, found {found:x}") }
            Difference::Rip { wanted, found } => write!(f, "wanted i={wanted:x}, found {found:x}"),
            Difference::Flags { wanted, found } => write!(
                f,
                "wanted f={wanted:x}, found {found:x}"
            ),
            Difference::Byte {
                address,
                wanted,
                found: Some(found),
            } => { write!(f, "wanted m{address:x}={wanted:02x}, found {found:02x}") }
            Difference::Byte {
                address,
                wanted,
                found: None,
            } => { write!(f, "wanted m{address:x}={wanted:02x}, found no page") }
        }
    }
}

fn fault_difference(wanted: Option<Fault>, found: Option<Fault>) -> Option<Difference>
    ensures { IsNone result ↔ (wanted ≡ found) }
{
    if wanted == found {
        None
    } else {
        Some(Difference::Fault { wanted, found })
    }
}

fn act_difference(asked: Act) -> Option<Difference>
    ensures { IsNone result ↔ (asked ≡ act.Quiet) }
{
    if asked == Act::Quiet {
        None
    } else {
        Some(Difference::Act)
    }
}

fn general_difference(number: u8, wanted: u64, found: u64) -> Option<Difference>
    ensures { IsNone result ↔ (wanted ≡ found) }
{
    if wanted == found {
        None
    } else {
        Some(Difference::General {
            number,
            wanted,
            found,
        })
    }
}

fn rip_difference(wanted: u64, found: u64) -> Option<Difference>
    ensures { IsNone result ↔ (wanted ≡ found) }
{
    if wanted == found {
        None
    } else {
        Some(Difference::Rip { wanted, found })
    }
}

fn flags_difference(wanted: u64, found: u64, defined: u64) -> Option<Difference>
    ensures { IsNone result ↔ (bit_and wanted defined ≡ bit_and found defined) }
{
    let wanted = wanted & defined;
    let found = found & defined;
    if wanted == found {
        None
    } else {
        Some(Difference::Flags { wanted, found })
    }
}

fn byte_difference(address: u64, wanted: u8, found: Option<u8>) -> Option<Difference>
    ensures { IsNone result ↔ (found ≡ Some wanted) }
{
    if found == Some(wanted) {
        None
    } else {
        Some(Difference::Byte {
            address,
            wanted,
            found,
        })
    }
}

fn push(
    list: &mut Vec<Difference>,
    difference: Option<Difference>,
) -> std::result::Result<(), AllocError>
    ensures { OnOk result (list.new.items ≡ list.old.items ++ option_to_list difference) }
{
    if let Some(difference) = difference {
        list.push(difference)?;
    }
    Ok(())
}

/// Where the effect of a row's instruction differs from the row. The machine's pages hold zeros before and after.
///
/// Fails where the row puts bytes on absent pages, or with want of memory.
pub fn differences(alloc: Global, machine: &mut Machine, row: &Row) -> Result<Vec<Difference>> {
    for it in &row.before.memory {
        machine.put(it.address, it.byte)?;
    }
    let outcome = machine.execute(&row.code, &row.before.regs);
    let found = compare(alloc, machine, row, &outcome)?;
    clear(machine, row, &outcome)?;
    Ok(found)
}

fn compare(
    alloc: Global,
    machine: &Machine,
    row: &Row,
    outcome: &Outcome,
) -> std::result::Result<Vec<Difference>, AllocError> {
    let mut list = Vec::new(alloc);
    let wanted = row.after.fault;
    match outcome {
        Outcome::Uneven => push(&mut list, Some(Difference::Code))?,
        Outcome::Raised(fault) => {
            push(&mut list, fault_difference(wanted, Some(*fault)))?;
            push_registers(&mut list, row, &row.before.regs)?;
        }
        Outcome::Done(effect) => {
            push(&mut list, fault_difference(wanted, None))?;
            push_registers(&mut list, row, &effect.regs)?;
            push(&mut list, act_difference(effect.act))?;
            push_write(&mut list, machine, row, effect.write)?;
        }
    }
    for it in &row.after.memory {
        push_byte(&mut list, machine, row, it.address)?;
    }
    Ok(list)
}

fn push_registers(
    list: &mut Vec<Difference>,
    row: &Row,
    found: &Regs,
) -> std::result::Result<(), AllocError> {
    let wanted = &row.after.regs;
    for number in 0..16u8 {
        let place = number as usize;
        push(
            list,
            general_difference(number, wanted.general[place], found.general[place]),
        )?;
    }
    push(list, rip_difference(wanted.rip, found.rip))?;
    push(
        list,
        flags_difference(wanted.flags, found.flags, !row.after.undefined),
    )
}

/// The bytes of the instruction's write that the row doesn't name.
fn push_write(
    list: &mut Vec<Difference>,
    machine: &Machine,
    row: &Row,
    write: Option<Write>,
) -> std::result::Result<(), AllocError> {
    if let Some(write) = write {
        for offset in 0..write.width {
            let address = write.va.wrapping_add(u64::from(offset));
            if !row.names_after(address) {
                push_byte(list, machine, row, address)?;
            }
        }
    }
    Ok(())
}

fn push_byte(
    list: &mut Vec<Difference>,
    machine: &Machine,
    row: &Row,
    address: u64,
) -> std::result::Result<(), AllocError> {
    let wanted = row.byte_after(address);
    push(
        list,
        byte_difference(address, wanted, machine.byte(address)),
    )
}

/// Makes the bytes that a row put, and those that its instruction wrote, 0 again.
fn clear(machine: &mut Machine, row: &Row, outcome: &Outcome) -> Result<()> {
    for it in &row.before.memory {
        machine.put(it.address, 0)?;
    }
    if let Outcome::Done(effect) = outcome {
        if let Some(write) = effect.write {
            for offset in 0..write.width {
                machine.put(write.va.wrapping_add(u64::from(offset)), 0)?;
            }
        }
    }
    Ok(())
}
