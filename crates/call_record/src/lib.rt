//! The records of a guest's calls: what each call that went on answered and stored.
#![tactic(auto)]

mod log;
mod record;

pub use log::RecordLog;
pub use record::{Record, Write};
