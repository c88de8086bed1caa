//! `superpin` runs a static RV32IM Linux program and reports how many instructions it executed.
#![tactic(auto)]

use std::process::ExitCode;
use superpin_top::run_program;

fn main(rt: HostRuntime) -> ExitCode {
    run_program(rt, &rt)
}
