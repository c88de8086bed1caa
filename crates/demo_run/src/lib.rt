//! The demonstration: a generated program, run serially and by windows for three tools, and what is printed of that.
#![tactic(auto)]

mod demo;
mod hits;
mod program;
mod runs;
mod text;

pub use demo::demo_text;
