//! `system_rows`: compares turns of the processor at CPL 0 and 3 with rows that were recorded on another implementation
//! of it. It reads rows from standard input, one a line, makes one turn from what the row says stands before it, and
//! writes each row whose turn leaves something else, and the counts. Floor: program.
#![tactic(auto)]

// A row, and its line.
mod line;
mod row;

// The memory and the processor of a turn, and what the turn left.
mod difference;
mod machine;
mod memory;

use anyhow::Result;
use difference::{Difference, differences};
use line::parse_row;
use machine::Machine;
use row_fields::{Comparison, compare_rows};
use std::alloc::Global;
use std::process::ExitCode;

impl Comparison for Machine {
    type Difference = Difference;

    fn compare(&mut self, alloc: Global, line: &str) -> Result<Vec<Difference>> {
        let row = parse_row(alloc, line)?;
        differences(alloc, self, &row)
    }
}

fn main(rt: HostRuntime) -> ExitCode {
    compare_rows(&rt, Machine::new(rt.alloc()))
}
