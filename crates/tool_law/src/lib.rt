//! What a tool is: the calls that it asks for, its value as a fold over events, and the law that lets its value be made of
//! pieces.
#![tactic(auto)]

pub mod laws;
mod piece;
mod plan;
mod tool;

pub use piece::{Hits, Piece};
pub use plan::make_plan;
pub use tool::Tool;
