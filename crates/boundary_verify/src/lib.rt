//! A slice's work: where it starts, the records that it takes, and where it ends; and that the end of a slice is found at
//! its first position that equals the boundary.
#![tactic(auto)]

mod job;
pub mod laws;

pub use job::{Boundary, Job, whole_equal};
