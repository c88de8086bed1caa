//! Running a slice: its play is repeated under a tool, up to its match.
#![tactic(auto)]

mod checked;
mod hits;
mod slice;
mod turn;

pub use checked::{JobFault, checked_job};
pub use slice::{MOST_STEPS, Slice, open_slice, run_slice};
