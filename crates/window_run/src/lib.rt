//! The run of a program with a tool, by windows: a master runs without the tool and is cut into jobs, and the slices of one
//! window are run side by side while the master makes the jobs of the next.
#![tactic(auto)]

mod beside;
mod run;
mod slices;
mod window;

pub use run::run_windows;
