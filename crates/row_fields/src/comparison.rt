//! Rows of standard input, compared one after the other.

use anyhow::{Context, Result};
use std::alloc::Global;
use std::fmt::Display;
use std::io::{self, BufRead, BufReader};
use std::process::ExitCode;

/// The most differing rows that are written; all of them are counted.
const MOST_WRITTEN: u64 = 20;

/// The status where a row differs.
const DIFFERENT: u8 = 1;

/// The status where the rows can't be read or compared.
const UNREAD: u8 = 2;

/// What compares a row with what it finds.
pub trait Comparison: Drop {
    /// A difference, which is written on a line of its own.
    type Difference: Display + Copy;

    /// Where what is found differs from what the row on this line says.
    ///
    /// Fails where the line is out of form, or with want of memory.
    fn compare(&mut self, alloc: Global, line: &str) -> Result<Vec<Self::Difference>>;
}

fn write_row<D: Display>(
    rt: &impl Print,
    number: u64,
    line: &str,
    differences: &[D],
) -> io::Result<()> {
    println!(rt; "row {number}: {line}")?;
    for difference in differences {
        println!(rt; "  {difference}")?;
    }
    Ok(())
}

/// Reads and compares all rows; the number of those that differ.
fn compare_all<C: Comparison>(
    rt: &(impl Input + Print),
    alloc: Global,
    comparison: &mut C,
) -> Result<u64> {
    let mut rows = 0u64;
    let mut differ = 0u64;
    for line in BufReader::new(alloc, rt.reader())?.lines(alloc) {
        let line = line?;
        rows = rows.saturating_add(1);
        let found = comparison
            .compare(alloc, &line)
            .context(format_args!("row {rows}"))?;
        if !found.is_empty() {
            differ = differ.saturating_add(1);
            if differ <= MOST_WRITTEN {
                write_row(rt, rows, &line, &found)?;
            }
        }
    }
    println!(rt; "rows {rows}")?;
    println!(rt; "differ {differ}")?;
    Ok(differ)
}

/// Compares all rows of standard input, one a line, and writes those that differ, and the counts: a program's whole work.
pub fn compare_rows<R: Input + Print + Eprint + AllocGlobal, C: Comparison>(
    rt: &R,
    comparison: Result<C>,
) -> ExitCode {
    let differ = match comparison {
        Ok(mut comparison) => compare_all(rt, rt.alloc(), &mut comparison),
        Err(error) => Err(error),
    };
    match differ {
        Ok(0) => ExitCode::SUCCESS,
        Ok(_) => ExitCode::from(DIFFERENT),
        Err(error) => {
            let _ = eprintln!(rt; "{error:#}");
            ExitCode::from(UNREAD)
        }
    }
}
