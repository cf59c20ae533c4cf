//! The program of Ravundi.
#![tactic(auto)]

use std::io::IsTerminal;
use std::process::ExitCode;

fn main(rt: HostRuntime) -> ExitCode {
    let is_terminal = rt.stderr().is_terminal();
    mvo_cli::run_program(&rt, is_terminal)
}
