//! A pool of page frames: memory that is taken once, and whose frames are handed out and given back.
#![tactic(auto)]

mod pool;

pub use pool::{Frame, Pool};
