//! A guest's step with a tool: the events of the step are given to the tool, in their order.
#![tactic(auto)]

mod give;
pub mod laws;
mod step;

pub use step::{after_call, operands_at, tool_step, tool_step_in};
