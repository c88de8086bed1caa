//! `superpin_live` runs a static RV32IM Linux program, and reports how many instructions it executed: its workers count while
//! the program still runs.
#![tactic(auto)]

use std::process::ExitCode;
use superpin_live_top::run_live_program;

fn main(rt: HostRuntime) -> ExitCode {
    run_live_program(rt, &rt)
}
