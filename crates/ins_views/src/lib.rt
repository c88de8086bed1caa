//! What tools see of a program's code: the instruction at each address, blocks and routines.
#![tactic(auto)]

mod code;
pub mod laws;
mod views;

pub use code::{Code, memory_word};
pub use views::{Block, Views};
