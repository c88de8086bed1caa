//! The words of a command line, read to what they ask for.
#![tactic(auto)]

mod asked;
mod commands;
mod given;
mod options;
mod read;
mod split;
mod value;
mod word;

pub use asked::{Arguments, Asked, By, FileName, RunAsked, ToolName, WordFault};
pub use read::{read_live_words, read_words};
