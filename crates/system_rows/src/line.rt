//! The line of a row: `FIELD.. > FIELD..`, each field a key and a value, all numbers hexadecimal.

use crate::row::{After, Before, Row, State};
use anyhow::{Result, bail, ensure};
use row_fields::{Register, parse_bytes, parse_number, parse_register, push_bytes, split_field};
use std::alloc::Global;
use x86_regs::set_register;

/// A control register that rows speak of.
#[derive(Clone, Copy)]
enum ControlRegister {
    Cr0,
    Cr2,
    Cr3,
    Cr4,
}

/// What a field says.
#[derive(Drop)]
enum Field {
    /// `p=`: the CPL.
    Cpl(u8),
    /// `i=`: RIP.
    Rip(u64),
    /// `r0=` to `rf=`: a general register.
    General(Register, u64),
    /// `f=`: RFLAGS.
    Flags(u64),
    /// `s=`: SS.
    Stack(u16),
    /// `c0=`, `c2=`, `c3=` and `c4=`: a control register.
    Control(ControlRegister, u64),
    /// `mPLACE=`: the bytes of memory from a place on.
    Memory(u64, Vec<u8>),
    /// `h=1`: the processor is halted.
    Halted,
    /// `u=`: the flags that the manual leaves undefined.
    Undefined(u64),
    /// `k=`: the place of eight bytes that aren't compared.
    Free(u64),
}

/// The row that a line writes.
///
/// Fails where the line is out of form, or with want of memory.
pub fn parse_row(alloc: Global, line: &str) -> Result<Row> {
    let Some((left, right)) = line.split_once('>') else {
        bail!("no > stands in the line");
    };
    let before = parse_before(alloc, left)?;
    let after = parse_after(alloc, right, &before.state)?;
    Ok(Row { before, after })
}

fn parse_before(alloc: Global, fields: &str) -> Result<Before> {
    let mut state = State::base(parse_cpl(fields)?);
    let mut memory = Vec::new(alloc);
    for word in fields.split_whitespace() {
        match parse_field(alloc, word)? {
            Field::Memory(place, bytes) => push_bytes(&mut memory, place, &bytes)?,
            Field::Halted | Field::Undefined(_) | Field::Free(_) => {
                bail!("the field may only stand behind >: {word}")
            }
            field => put(&mut state, &field),
        }
    }
    Ok(Before { state, memory })
}

/// What a row says after `>`, over the registers before it.
fn parse_after(alloc: Global, fields: &str, before: &State) -> Result<After> {
    let mut after = After {
        state: *before,
        undefined: 0,
        memory: Vec::new(alloc),
        free: None,
    };
    let mut has_rip = false;
    for word in fields.split_whitespace() {
        match parse_field(alloc, word)? {
            Field::Memory(place, bytes) => push_bytes(&mut after.memory, place, &bytes)?,
            Field::Undefined(flags) => after.undefined = flags,
            Field::Free(place) => after.free = Some(place),
            field => {
                has_rip = has_rip || matches!(&field, Field::Rip(_));
                put(&mut after.state, &field);
            }
        }
    }
    ensure!(has_rip, "no i= stands behind >");
    Ok(after)
}

/// The CPL before a turn, by which its other registers begin.
fn parse_cpl(fields: &str) -> Result<u8> {
    let mut cpl = 0;
    for word in fields.split_whitespace() {
        if let Some(digits) = word.strip_prefix("p=") {
            cpl = parse_privilege(parse_number(digits)?)?;
        }
    }
    Ok(cpl)
}

fn parse_field(alloc: Global, word: &str) -> Result<Field> {
    let (key, value) = split_field(word)?;
    if let Some(place) = key.strip_prefix('m') {
        let bytes = parse_bytes(alloc, value)?;
        return Ok(Field::Memory(parse_number(place)?, bytes));
    }
    if let Some(name) = key.strip_prefix('r') {
        return Ok(Field::General(parse_register(name)?, parse_number(value)?));
    }
    let number = parse_number(value)?;
    Ok(match key {
        "p" => Field::Cpl(parse_privilege(number)?),
        "i" => Field::Rip(number),
        "f" => Field::Flags(number),
        "s" => Field::Stack(parse_selector(number)?),
        "c0" => Field::Control(ControlRegister::Cr0, number),
        "c2" => Field::Control(ControlRegister::Cr2, number),
        "c3" => Field::Control(ControlRegister::Cr3, number),
        "c4" => Field::Control(ControlRegister::Cr4, number),
        "h" if number == 1 => Field::Halted,
        "u" => Field::Undefined(number),
        "k" if number % 8 == 0 => Field::Free(number),
        _ => bail!("no field is {word}"),
    })
}

fn parse_privilege(number: u64) -> Result<u8> {
    ensure!(number < 4, "no CPL is {number:x}");
    Ok(number as u8)
}

fn parse_selector(number: u64) -> Result<u16> {
    ensure!(number < 0x1_0000, "no selector is {number:x}");
    Ok(number as u16)
}

/// Puts what a field says of a register into it.
fn put(state: &mut State, field: &Field) {
    match *field {
        Field::Cpl(cpl) => state.regs.cpl = cpl,
        Field::Rip(value) => state.regs.rip = value,
        Field::General(register, value) => {
            set_register(&mut state.regs.general, register.number, value);
        }
        Field::Flags(value) => state.regs.flags = value,
        Field::Stack(selector) => state.regs.ss = selector,
        Field::Control(ControlRegister::Cr0, value) => state.cr0 = value,
        Field::Control(ControlRegister::Cr2, value) => state.cr2 = value,
        Field::Control(ControlRegister::Cr3, value) => state.cr3 = value,
        Field::Control(ControlRegister::Cr4, value) => state.cr4 = value,
        Field::Halted => state.halted = true,
        Field::Memory(_, _) | Field::Undefined(_) | Field::Free(_) => {}
    }
}
