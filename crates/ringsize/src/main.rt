//! The program: its words, real files, standard output, and a status.
#![tactic(auto)]

mod program;

use program::run_program;
use std::process::ExitCode;

fn main(rt: HostRuntime) -> ExitCode {
    run_program(&rt)
}
