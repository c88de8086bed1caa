//! The pieces of a run, merged in their order.
#![tactic(auto)]

mod finished;
mod merger;

pub use finished::Finished;
pub use merger::{Merger, SliceLine, put_all};
