//! `main` of the program `nkrun`, and nothing else: the top call over the machine (nk_run), which ends with its status.
//! Floor: program.
#![tactic(auto)]

use nk_run::nk_program;
use std::process::ExitCode;

fn main(rt: HostRuntime) -> ExitCode {
    ExitCode::from(nk_program(&rt))
}
