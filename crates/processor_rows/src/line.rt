//! The line of a row: `CODE FIELD.. > FIELD..`, each field a key and a value, all numbers hexadecimal.

use crate::row::{After, Before, Row};
use anyhow::{Context, Result, bail, ensure};
use row_fields::{Register, parse_bytes, parse_number, parse_register, push_bytes, split_field};
use std::alloc::Global;
use x86_regs::{Fault, Regs, set_register};

/// The most bytes of an instruction.
const LONGEST: usize = 15;

/// What a field says.
#[derive(Drop)]
enum Field {
    /// `r0=` to `rf=`: a general register.
    General(Register, u64),
    /// `i=`: RIP.
    Rip(u64),
    /// `f=`: RFLAGS.
    Flags(u64),
    /// `u=`: the flags that the manual leaves undefined.
    Undefined(u64),
    /// `mADDRESS=`: the bytes of memory from a linear address on.
    Memory(u64, Vec<u8>),
    /// `x=`: the vector of the fault.
    Vector(u64),
    /// `e=`: its error code.
    ErrorCode(u64),
    /// `a=`: the linear address of a page fault.
    FaultAddress(u64),
}

/// The row that a line writes.
///
/// Fails where the line is out of form, or with want of memory.
pub fn parse_row(alloc: Global, line: &str) -> Result<Row> {
    let Some((left, right)) = line.split_once('>') else {
        bail!("no > stands in the line");
    };
    let Some((digits, fields)) = left.split_once(' ') else {
        bail!("no space stands behind the code");
    };
    let code = parse_bytes(alloc, digits).context("the code")?;
    ensure!(
        !code.is_empty() && code.len() <= LONGEST,
        "the code hasn't 1 to 15 bytes"
    );
    let before = parse_before(alloc, fields)?;
    let after = parse_after(alloc, right, &before.regs, code.len())?;
    Ok(Row {
        code,
        before,
        after,
    })
}

fn parse_before(alloc: Global, fields: &str) -> Result<Before> {
    let mut before = Before::base(alloc);
    for word in fields.split_whitespace() {
        match parse_field(alloc, word)? {
            Field::General(register, value) => {
                set_register(&mut before.regs.general, register.number, value);
            }
            Field::Flags(value) => before.regs.flags = value,
            Field::Memory(address, bytes) => push_bytes(&mut before.memory, address, &bytes)?,
            _ => bail!("the field may only stand behind >: {word}"),
        }
    }
    Ok(before)
}

/// What a row says after `>`, over the registers before it and the bytes of its code.
fn parse_after(alloc: Global, fields: &str, before: &Regs, size: usize) -> Result<After> {
    let mut after = After {
        regs: *before,
        undefined: 0,
        memory: Vec::new(alloc),
        fault: None,
    };
    let mut rip = None;
    let mut raised = Raised::default();
    for word in fields.split_whitespace() {
        match parse_field(alloc, word)? {
            Field::General(register, value) => {
                set_register(&mut after.regs.general, register.number, value);
            }
            Field::Rip(value) => rip = Some(value),
            Field::Flags(value) => after.regs.flags = value,
            Field::Undefined(value) => after.undefined = value,
            Field::Memory(address, bytes) => push_bytes(&mut after.memory, address, &bytes)?,
            Field::Vector(value) => raised.vector = Some(value),
            Field::ErrorCode(value) => raised.code = Some(value),
            Field::FaultAddress(value) => raised.address = Some(value),
        }
    }
    after.fault = raised.fault()?;
    after.regs.rip = match rip {
        Some(rip) => rip,
        None if after.fault.is_some() => before.rip,
        None => before.rip.wrapping_add(size as u64),
    };
    Ok(after)
}

/// What the fields of a fault say.
#[derive(Clone, Copy, Default)]
struct Raised {
    vector: Option<u64>,
    code: Option<u64>,
    address: Option<u64>,
}

impl Raised {
    fn fault(&self) -> Result<Option<Fault>> {
        Ok(match (self.vector, self.code, self.address) {
            (None, None, None) => None,
            (Some(0), None, None) => Some(Fault::Divide),
            (Some(6), None, None) => Some(Fault::Opcode),
            (Some(12), Some(0), None) => Some(Fault::Stack),
            (Some(13), Some(code), None) => Some(Fault::General(code)),
            (Some(14), Some(code), Some(address)) => Some(Fault::Page { code, address }),
            _ => bail!("no fault of an instruction has these fields"),
        })
    }
}

fn parse_field(alloc: Global, word: &str) -> Result<Field> {
    let (key, value) = split_field(word)?;
    if let Some(address) = key.strip_prefix('m') {
        let bytes = parse_bytes(alloc, value)?;
        return Ok(Field::Memory(parse_number(address)?, bytes));
    }
    if let Some(name) = key.strip_prefix('r') {
        return Ok(Field::General(parse_register(name)?, parse_number(value)?));
    }
    let value = parse_number(value)?;
    Ok(match key {
        "i" => Field::Rip(value),
        "f" => Field::Flags(value),
        "u" => Field::Undefined(value),
        "x" => Field::Vector(value),
        "e" => Field::ErrorCode(value),
        "a" => Field::FaultAddress(value),
        _ => bail!("no field has the key {key}"),
    })
}
