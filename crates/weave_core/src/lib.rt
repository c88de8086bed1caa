//! The core of a live run: which moves of the slices are allowed, and what each does. It knows no thread.
#![tactic(auto)]

pub mod laws;
mod moves;
mod weave;

pub use moves::{Move, Phase};
pub use weave::Weave;
