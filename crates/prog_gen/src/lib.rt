//! Programs that are generated: files of RV32IM, which a guest runs.
#![tactic(auto)]

mod code;
mod counter;
mod demo;
mod draws;
mod instrs;
pub mod laws;

pub use counter::word_counter;
pub use demo::demo_program;
