//! `processor_rows`: compares instructions with rows that were recorded on a processor, which
//! bench/record_rows/README.md describes. It reads rows from standard input, one a line, makes each instruction's effect
//! from what the row says stands before it, and writes each row whose effect differs, and the counts. Floor: program.
#![tactic(auto)]

// A row, and its line.
mod line;
mod row;

// The memory that instructions run in, and what they did there.
mod difference;
mod machine;
mod page_tables;

use anyhow::Result;
use difference::{Difference, differences};
use line::parse_row;
use machine::Machine;
use row_fields::{Comparison, compare_rows};
use std::alloc::Global;
use std::process::ExitCode;

impl Comparison for Machine {
    type Difference = Difference;

    fn compare(&mut self, alloc: Global, line: &str) -> Result<Vec<Difference>> {
        let row = parse_row(alloc, line)?;
        differences(alloc, self, &row)
    }
}

fn main(rt: HostRuntime) -> ExitCode {
    compare_rows(&rt, Machine::new(rt.alloc()))
}
