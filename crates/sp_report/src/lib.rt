//! The texts that are printed, and what a command answers.
#![tactic(auto)]

mod answer;
mod digits;
mod instruction;
mod lines;
mod slices;
mod view;

pub use answer::{Answer, Cuts, Lines, OptionName, Refusal, UsageKind, exit_code};
pub use digits::push_address;
pub use lines::{end_line, refusal_line};
pub use slices::slice_lines;
pub use view::{push_name, view_text};
