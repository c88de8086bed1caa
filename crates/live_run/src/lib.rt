//! Runs whose slices are handed to workers while the program still runs.
#![tactic(auto)]

mod jobs;
pub mod laws;
mod lead;
mod run;
mod work;

pub use jobs::{LiveJob, LiveLead, LivePiece, LiveRing, LiveRun, LiveSeat};
pub use run::run_live;
