//! The serial run of a program with a tool: one guest, and one local that takes the events of each step.
#![tactic(auto)]

mod run;
mod step;

pub use run::{MOST_BUDGET, run_serial};
