//! The parts of a field.

ghost use Rattle.std.specs.Prelude.{◌<◌};

use anyhow::{Context, Result, bail, ensure};
use std::alloc::Global;

/// A general register's number.
#[derive(Clone, Copy)]
pub struct Register {
    pub number: u8,
    ghost in_range: { number < 16 },
}

/// The key and the value of a field.
///
/// Fails where no `=` stands in it.
pub fn split_field(word: &str) -> Result<(&str, &str)> {
    let Some(parts) = word.split_once('=') else {
        bail!("no = stands in the field {word}");
    };
    Ok(parts)
}

/// The number that hexadecimal digits write.
///
/// Fails where they write none below 2^64.
pub fn parse_number(digits: &str) -> Result<u64> {
    u64::from_str_radix(digits, 16).context(format_args!("the number {digits}"))
}

/// The register that a digit names, from 0 to f.
///
/// Fails where there is none.
pub fn parse_register(name: &str) -> Result<Register> {
    let number = parse_number(name)?;
    ensure!(number < 16, "no register is r{name}");
    Ok(Register {
        number: number as u8,
    })
}

/// The bytes that pairs of digits write.
///
/// Fails where the text is none of pairs of digits, or with want of memory.
pub fn parse_bytes(alloc: Global, digits: &str) -> Result<Vec<u8>> {
    hex::decode(alloc, digits).context(format_args!("the bytes {digits}"))
}
