//! `superpin`, stored with another guest: one that has six arguments, reads its standard input and ends with a status.
#![tactic(auto)]

use std::process::ExitCode;
use superpin_top::run_program;

fn main(rt: HostRuntime) -> ExitCode {
    run_program(rt, &rt)
}
