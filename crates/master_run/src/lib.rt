//! The run of a program without a tool, cut into jobs.
#![tactic(auto)]

mod limits;
mod master;
mod progress;
mod turn;

pub use limits::Limits;
pub use master::{Master, Turn};
