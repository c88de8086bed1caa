//! The calls of a run as a tool, each with its depth. What a slice finds is exact for every depth at which it may start.
#![tactic(auto)]

mod call_trace;
mod slice;
mod text;

pub use call_trace::CallTrace;
pub use slice::{CallSlice, CallTotals, Called, Relative};
